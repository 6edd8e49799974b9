//! The rates of a link: which frames are read now, and when others are.

use p2p_discovery::codec::TestKey;
use p2p_driver::admission::Read;
use p2p_driver::driver::Driver;
use p2p_driver::link::{Link, Now};
use p2p_driver::pace::Pace;
use p2p_driver_fixtures::{
    SETTINGS, admitted, at, driven, greeting, length, open, pace, prove, reads, tested,
    with_channels,
};
use std::alloc::Global;
use std::num::NonZeroU32;
use std::test::Fail;
use std::time::Duration;

// A frame of gossip, and messages on channels 3 and 300.
const GOSSIP: &'static [u8] = &[3, 0];

const ON_3: &'static [u8] = &[0, 3, 0];

const ON_300: &'static [u8] = &[0, 172, 2, 0];

// So many nanoseconds after 3 s.
fn later(nanos: u64) -> Now {
    Now {
        steady: Duration::from_nanos(3_000_000_000u64.saturating_add(nanos)),
        wall: Duration::from_secs(900),
    }
}

// That a frame is to be read so many milliseconds after 3 s.
fn after(millis: u64) -> Read {
    Read::After(Duration::from_millis(3_000u64.saturating_add(millis)))
}

// How many frames of gossip the tested driver reads at once at 3 s; a nanosecond before one refill
// and at it; and a nanosecond before all that was taken has come again, and at that time.
fn bursts(alloc: Global, driver: &mut Driver<TestKey>) -> Result<[(u32, Read); 5], Fail> {
    open(alloc, driver, "track 0 1,2")?;
    Ok([
        reads(driver, Link(1), GOSSIP, later(0)),
        reads(driver, Link(1), GOSSIP, later(7_499_999_999)),
        reads(driver, Link(1), GOSSIP, later(7_500_000_000)),
        reads(driver, Link(1), GOSSIP, later(67_499_999_999)),
        reads(driver, Link(1), GOSSIP, later(67_500_000_000)),
    ])
}

#[test]
fn gossip_is_read_as_the_recommended_rate_says(rt: HostRuntime) -> Result<(), Fail> {
    let alloc = rt.alloc();
    let found = driven(alloc, SETTINGS, pace(alloc), |driver| bursts(alloc, driver))??;
    assert_eq!(rt;
        found,
        [
            (8, after(7_500)),
            (0, after(7_500)),
            (1, after(15_000)),
            (7, after(67_500)),
            (1, after(75_000)),
        ]
    );
    Ok(())
}

// Once all has come again, a burst.
fn rests(alloc: Global, driver: &mut Driver<TestKey>) -> Result<[(u32, Read); 2], Fail> {
    open(alloc, driver, "track 0 1,2")?;
    Ok([
        reads(driver, Link(1), GOSSIP, later(0)),
        reads(driver, Link(1), GOSSIP, later(60_000_000_000)),
    ])
}

#[test]
fn a_burst_comes_again(rt: HostRuntime) -> Result<(), Fail> {
    let alloc = rt.alloc();
    let found = driven(alloc, SETTINGS, pace(alloc), |driver| rests(alloc, driver))??;
    assert_eq!(rt; found, [(8, after(7_500)), (8, after(67_500))]);
    Ok(())
}

// The recommended settings, with so many frames of gossip at once, and one more in this time.
fn gossiping(alloc: Global, burst: u32, refill: Duration) -> Pace {
    let mut pace = pace(alloc);
    pace.burst = NonZeroU32::MIN.saturating_add(burst.saturating_sub(1));
    pace.refill = refill;
    pace
}

// How many frames of gossip are read at once, and when one more is.
fn first(alloc: Global, driver: &mut Driver<TestKey>) -> Result<(u32, Read), Fail> {
    open(alloc, driver, "track 0 1,2")?;
    Ok(reads(driver, Link(1), GOSSIP, later(0)))
}

#[test]
fn gossip_is_read_as_the_settings_say(rt: HostRuntime) -> Result<(), Fail> {
    let alloc = rt.alloc();
    for (burst, nanos) in [(4u32, 7u64), (5u32, 7_500_000_000u64), (11u32, 1u64)] {
        let pace = gossiping(alloc, burst, Duration::from_nanos(nanos));
        let found = tested(alloc, pace, |driver| first(alloc, driver))??;
        let next = Duration::from_nanos(3_000_000_000u64.saturating_add(nanos));
        assert_eq!(rt; found, (burst, Read::After(next)));
    }
    Ok(())
}

// How many messages on channels 3 and 300 are read at once at 3 s, and how much gossip then; and
// how many more a nanosecond before one refill of each channel, and at it.
type Apart = ([(u32, Read); 3], [(u32, Read); 4]);

fn apart(alloc: Global, driver: &mut Driver<TestKey>) -> Result<Apart, Fail> {
    open(alloc, driver, "track 0 1,2")?;
    let at_once = [
        reads(driver, Link(1), ON_3, later(0)),
        reads(driver, Link(1), ON_300, later(0)),
        reads(driver, Link(1), GOSSIP, later(0)),
    ];
    let then = [
        reads(driver, Link(1), ON_3, later(999_999_999)),
        reads(driver, Link(1), ON_3, later(1_000_000_000)),
        reads(driver, Link(1), ON_300, later(1_999_999_999)),
        reads(driver, Link(1), ON_300, later(2_000_000_000)),
    ];
    Ok((at_once, then))
}

#[test]
fn gossip_and_each_channel_have_rates_of_their_own(rt: HostRuntime) -> Result<(), Fail> {
    let alloc = rt.alloc();
    let pace = with_channels(alloc)?;
    let found = driven(alloc, SETTINGS, pace, |driver| apart(alloc, driver))??;
    let (at_once, then) = found;
    assert_eq!(rt;
        at_once,
        [(2, after(1_000)), (3, after(2_000)), (8, after(7_500))]
    );
    assert_eq!(rt;
        then,
        [
            (0, after(1_000)),
            (1, after(2_000)),
            (0, after(2_000)),
            (1, after(4_000)),
        ]
    );
    Ok(())
}

// How much is read at once of link 2 at 3 s, of gossip and on channel 3, when all was read that may
// be of link 1; and what is said of one more frame of link 1.
type Two = ([(u32, Read); 4], [Read; 2]);

fn two(alloc: Global, driver: &mut Driver<TestKey>) -> Result<Two, Fail> {
    open(alloc, driver, "track 0 1,2")?;
    prove(driver, 2, 2, 2_000)?;
    admitted(driver, Link(2), &greeting(alloc, "2@1000")?, at(2_000));
    let _heard = driver.judged(Link(2), &[true], at(2_000));
    let read = [
        reads(driver, Link(1), GOSSIP, later(0)),
        reads(driver, Link(1), ON_3, later(0)),
        reads(driver, Link(2), GOSSIP, later(0)),
        reads(driver, Link(2), ON_3, later(0)),
    ];
    let more = [
        length(driver, Link(1), GOSSIP, later(0)),
        length(driver, Link(1), ON_3, later(0)),
    ];
    Ok((read, more))
}

#[test]
fn each_link_has_rates_of_its_own(rt: HostRuntime) -> Result<(), Fail> {
    let alloc = rt.alloc();
    let pace = with_channels(alloc)?;
    let found = driven(alloc, SETTINGS, pace, |driver| two(alloc, driver))??;
    let (read, more) = found;
    let (gossip, message) = ((8, after(7_500)), (2, after(1_000)));
    assert_eq!(rt; read, [gossip, message, gossip, message]);
    assert_eq!(rt; more, [after(7_500), after(1_000)]);
    Ok(())
}
