//! What counts at the rates of a link, and what doesn't; and what waiting does.

use p2p_discovery::codec::TestKey;
use p2p_driver::actions::Why;
use p2p_driver::admission::{Admission, Heard, Read};
use p2p_driver::driver::Driver;
use p2p_driver::link::Link;
use p2p_driver_fixtures::{
    SETTINGS, Said, admitted, at, channel, driven, greet, greeting, length, next_two, next_unsent,
    open, pace, prove, reads, tested, track, with_channels,
};
use std::alloc::{AllocError, Global};
use std::test::Fail;
use std::time::Duration;

// A frame of gossip, and a message on channel 3.
const GOSSIP: &'static [u8] = &[3, 0];

const ON_3: &'static [u8] = &[0, 3, 0];

// That a frame is to be read at this time.
fn after(millis: u64) -> Read {
    Read::After(Duration::from_millis(millis))
}

// How many messages and greetings are read at once of peer 1 before it has greeted; whether it has
// then; and how much gossip and how many messages are read at once after that.
type Before = ([(u32, Read); 2], bool, [(u32, Read); 2]);

fn before(alloc: Global, driver: &mut Driver<TestKey>) -> Result<Before, Fail> {
    track(alloc, driver, "track 0 1,2", 0)?;
    prove(driver, 1, 1, 1_000)?;
    let frame = greeting(alloc, "1@1000")?;
    let early = [
        reads(driver, Link(1), ON_3, at(3_000)),
        reads(driver, Link(1), frame.as_slice(), at(3_000)),
    ];
    let greeted = greet(alloc, driver, "1@1000", 3_000)?;
    let read = [
        reads(driver, Link(1), GOSSIP, at(3_000)),
        reads(driver, Link(1), ON_3, at(3_000)),
    ];
    Ok((
        early,
        greeted == (Admission::Verify(1), Ok(Heard::Greeted)),
        read,
    ))
}

#[test]
fn what_comes_before_the_greeting_counts_at_no_rate(rt: HostRuntime) -> Result<(), Fail> {
    let alloc = rt.alloc();
    let pace = with_channels(alloc)?;
    let found = driven(alloc, SETTINGS, pace, |driver| before(alloc, driver))??;
    let (early, greeted, read) = found;
    assert_eq!(rt;
        (early, greeted),
        ([(20, Read::Now), (20, Read::Now)], true)
    );
    assert_eq!(rt; read, [(8, after(10_500)), (2, after(4_000))]);
    Ok(())
}

// How much gossip and how many messages on channel 3 are read at once of link 1 at 3 s, and of link
// 2 of the same peer at 61 s.
fn again(alloc: Global, driver: &mut Driver<TestKey>) -> Result<[(u32, Read); 4], Fail> {
    open(alloc, driver, "track 0 1,2")?;
    let first = reads(driver, Link(1), GOSSIP, at(3_000));
    let second = reads(driver, Link(1), ON_3, at(3_000));
    driver.ended(Link(1), at(4_000));
    prove(driver, 1, 1, 61_000)?;
    admitted(driver, Link(2), &greeting(alloc, "1@1000")?, at(61_000));
    let _heard = driver.judged(Link(2), &[true], at(61_000));
    Ok([
        first,
        second,
        reads(driver, Link(2), GOSSIP, at(61_000)),
        reads(driver, Link(2), ON_3, at(61_000)),
    ])
}

#[test]
fn a_new_link_of_a_peer_has_new_rates(rt: HostRuntime) -> Result<(), Fail> {
    let alloc = rt.alloc();
    let mut pace = pace(alloc);
    // By the old rates there were 7 and 1 of these at 61 s.
    pace.channels.push(channel(3, 32, 2, 30))?;
    let found = driven(alloc, SETTINGS, pace, |driver| again(alloc, driver))??;
    assert_eq!(rt;
        found,
        [
            (8, after(10_500)),
            (2, after(33_000)),
            (8, after(68_500)),
            (2, after(91_000)),
        ]
    );
    Ok(())
}

// Whether link 1 is closed as silent at a time, and not a millisecond before.
fn silent_at(driver: &mut Driver<TestKey>, millis: u64) -> Result<bool, AllocError> {
    driver.timeout(&[], at(millis.saturating_sub(1)))?;
    let before = next_unsent(driver);
    driver.timeout(&[], at(millis))?;
    let [closed, _] = next_two(driver);
    Ok(before == Said::Nothing && closed == Said::Closed(1, Why::Silent))
}

// What is said of frames of gossip that peer 1, which was heard at 2 s, wants to send at 50 s: so
// many of them; and whether it is silent at a time.
fn puts_off(
    alloc: Global,
    driver: &mut Driver<TestKey>,
    count: u32,
    millis: u64,
) -> Result<(Read, bool), Fail> {
    open(alloc, driver, "track 0 1,2")?;
    let mut last = Read::Unknown;
    for _ in 0..count {
        last = length(driver, Link(1), GOSSIP, at(50_000));
    }
    Ok((last, silent_at(driver, millis)?))
}

#[test]
fn only_a_frame_that_has_to_wait_puts_silence_off(rt: HostRuntime) -> Result<(), Fail> {
    let alloc = rt.alloc();
    let cases = [
        (8u32, Read::Now, 122_000u64),
        (9u32, after(57_500), 170_000u64),
    ];
    for (count, read, millis) in cases {
        let found = tested(alloc, pace(alloc), |driver| {
            puts_off(alloc, driver, count, millis)
        })??;
        assert_eq!(rt; found, (read, true));
    }
    Ok(())
}

// How much gossip is read at once at 50 s by a steady clock that went back from 100 s, which the
// tested driver was told with a frame that is read, or by `timeout`; what is said of one more at
// 60 s; and whether link 1 is silent at 220 s.
fn back(
    alloc: Global,
    driver: &mut Driver<TestKey>,
    is_read: bool,
) -> Result<((u32, Read), Read, bool), Fail> {
    open(alloc, driver, "track 0 1,2")?;
    if is_read {
        length(driver, Link(1), GOSSIP, at(100_000));
    } else {
        driver.timeout(&[], at(100_000))?;
    }
    let read = reads(driver, Link(1), GOSSIP, at(50_000));
    let again = length(driver, Link(1), GOSSIP, at(60_000));
    Ok((read, again, silent_at(driver, 220_000)?))
}

#[test]
fn rates_go_by_the_latest_time(rt: HostRuntime) -> Result<(), Fail> {
    let alloc = rt.alloc();
    for (is_read, count) in [(false, 8u32), (true, 7u32)] {
        let found = tested(alloc, pace(alloc), |driver| back(alloc, driver, is_read))??;
        let next = after(107_500);
        assert_eq!(rt; found, ((count, next), next, true));
    }
    Ok(())
}
