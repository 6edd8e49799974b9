//! Frames that are too long for what they are, and messages on channels that there aren't: the link
//! is closed before they are read. The lengths are those of docs/FORMATS.md.

use failing_alloc::FailingAlloc;
use p2p_discovery::codec::TestKey;
use p2p_driver::actions::{Breach, Event, Why};
use p2p_driver::admission::Read;
use p2p_driver::driver::Driver;
use p2p_driver::link::Link;
use p2p_driver_fixtures::{
    SETTINGS, Said, at, claim, driven, next, next_two, open, pace, prove, reads, tested, track,
    with_channels,
};
use std::alloc::Global;
use std::process::Abort;
use std::test::Fail;
use std::time::Duration;

// An info has at most 261 + 10 bytes, and those of a key and a signature, here 8 each. A greeting
// has a byte more. The longest list has 8 infos.
const GREETING: usize = 1 + 287;

const GOSSIP: usize = 1 + 5 + 8 * 287;

// What is said of a frame of this head and length of link 1 at 3 s.
fn says(driver: &mut Driver<TestKey>, head: &[u8], length: usize) -> Read {
    driver.length(Link(1), head, length, at(3_000))
}

// What is said of a frame and of one more, what the tested driver does then, and when a block ends.
type Closed = ([Read; 2], [Said; 2], [Said; 2], Option<Duration>);

fn closed(driver: &mut Driver<TestKey>, head: &[u8], length: usize) -> Closed {
    let read = [says(driver, head, length), says(driver, head, length)];
    let said = next_two(driver);
    (read, said, next_two(driver), driver.node().next_unblock())
}

// .. if it is the first one of its peer.
fn first(
    alloc: Global,
    driver: &mut Driver<TestKey>,
    head: &[u8],
    length: usize,
) -> Result<Closed, Fail> {
    track(alloc, driver, "track 0 1,2", 0)?;
    prove(driver, 1, 1, 1_000)?;
    next(driver);
    Ok(closed(driver, head, length))
}

// Heads of frames: a greeting, a message, on a channel that there isn't, a question, a prefix that
// there isn't, and no bytes.
static HEADS: [&'static [u8]; 6] = [&[1, 0], &[0, 3, 32], &[0, 4], &[2, 0, 2], &[9], &[]];

#[test]
fn a_first_frame_is_no_longer_than_a_greeting(rt: HostRuntime) -> Result<(), Fail> {
    let alloc = rt.alloc();
    for head in HEADS {
        let found = tested(alloc, with_channels(alloc)?, |driver| {
            first(alloc, driver, head, GREETING)
        })??;
        let (read, said, then, until) = found;
        assert_eq!(rt; read, [Read::Now, Read::Now]);
        assert_eq!(rt; (said, then), ([Said::Nothing; 2], [Said::Nothing; 2]));
        assert_eq!(rt; until, None);
    }
    Ok(())
}

#[test]
fn a_longer_first_frame_is_a_breach(rt: HostRuntime) -> Result<(), Fail> {
    let alloc = rt.alloc();
    for head in HEADS {
        let found = tested(alloc, with_channels(alloc)?, |driver| {
            first(alloc, driver, head, GREETING.saturating_add(1))
        })??;
        let (read, said, then, until) = found;
        assert_eq!(rt; read, [Read::Closing, Read::Closing]);
        let why = Why::Breach(Breach::NoGreeting);
        let blocked = Said::Told(Event::Blocked(TestKey(1), Breach::NoGreeting));
        assert_eq!(rt; said, [Said::Closed(1, why), blocked]);
        assert_eq!(rt; then, [Said::Nothing; 2]);
        assert_eq!(rt; until, Some(Duration::from_secs(63)));
    }
    Ok(())
}

// .. if its peer has greeted.
fn next_one(
    alloc: Global,
    driver: &mut Driver<TestKey>,
    head: &[u8],
    length: usize,
) -> Result<Closed, Fail> {
    open(alloc, driver, "track 0 1,2")?;
    Ok(closed(driver, head, length))
}

// Heads, and how long a frame with each may be: a greeting, a question, a list, a prefix that there
// isn't, and no bytes; of messages those of channel 3 with 32 bytes, and of 300 with 5; and what
// spells no channel: none, one that is cut short, one with a byte too many, and one above all.
static LONGEST: [(&'static [u8], usize); 11] = [
    (&[1, 0], GOSSIP),
    (&[2, 0, 2], GOSSIP),
    (&[3, 8], GOSSIP),
    (&[9], GOSSIP),
    (&[], GOSSIP),
    (&[0, 3, 32], 35),
    (&[0, 172, 2, 5], 9),
    (&[0], GOSSIP),
    (&[0, 172], GOSSIP),
    (&[0, 131, 0], GOSSIP),
    (&[0, 255, 255, 255, 255, 255, 255, 255, 255, 255, 2], GOSSIP),
];

#[test]
fn a_frame_is_as_long_as_what_it_is_may_be(rt: HostRuntime) -> Result<(), Fail> {
    let alloc = rt.alloc();
    for (head, longest) in LONGEST {
        let found = tested(alloc, with_channels(alloc)?, |driver| {
            next_one(alloc, driver, head, longest)
        })??;
        let (read, said, then, until) = found;
        assert_eq!(rt; read, [Read::Now, Read::Now]);
        assert_eq!(rt; (said, then), ([Said::Nothing; 2], [Said::Nothing; 2]));
        assert_eq!(rt; until, None);
    }
    Ok(())
}

#[test]
fn a_longer_frame_is_a_breach(rt: HostRuntime) -> Result<(), Fail> {
    let alloc = rt.alloc();
    for (head, longest) in LONGEST {
        let found = tested(alloc, with_channels(alloc)?, |driver| {
            next_one(alloc, driver, head, longest.saturating_add(1))
        })??;
        let (read, said, then, until) = found;
        assert_eq!(rt; read, [Read::Closing, Read::Closing]);
        let why = Why::Breach(Breach::FrameLength);
        let down = Said::Told(Event::Down(Link(1), TestKey(1), Some(why)));
        assert_eq!(rt; said, [Said::Closed(1, why), down]);
        let blocked = Said::Told(Event::Blocked(TestKey(1), Breach::FrameLength));
        assert_eq!(rt; then, [blocked, Said::Nothing]);
        assert_eq!(rt; until, Some(Duration::from_secs(63)));
    }
    Ok(())
}

// Heads of messages on channels that there aren't, and their lengths: 4, 2, 299, and the greatest.
static NOWHERE: [(&'static [u8], usize); 4] = [
    (&[0, 4, 0], 3),
    (&[0, 2, 32], 35),
    (&[0, 171, 2, 0], usize::MAX),
    (&[0, 255, 255, 255, 255, 255, 255, 255, 255, 255, 1], 12),
];

// Asserts that link 1 was closed for a message on a channel that there isn't, and nobody blocked.
fn is_no_channel(rt: &impl Abort, found: Closed) {
    let (read, said, then, until) = found;
    assert_eq!(rt; read, [Read::Closing, Read::Closing]);
    let why = Why::NoChannel;
    let down = Said::Told(Event::Down(Link(1), TestKey(1), Some(why)));
    assert_eq!(rt; said, [Said::Closed(1, why), down]);
    assert_eq!(rt; (then, until), ([Said::Nothing; 2], None));
}

#[test]
fn a_message_on_no_channel_closes_the_link_alone(rt: HostRuntime) -> Result<(), Fail> {
    let alloc = rt.alloc();
    for (head, length) in NOWHERE {
        let found = tested(alloc, with_channels(alloc)?, |driver| {
            next_one(alloc, driver, head, length)
        })??;
        is_no_channel(&rt, found);
    }
    Ok(())
}

#[test]
fn without_channels_no_message_is_read(rt: HostRuntime) -> Result<(), Fail> {
    let alloc = rt.alloc();
    let found = driven(alloc, SETTINGS, pace(alloc), |driver| {
        next_one(alloc, driver, &[0, 3, 0], 3)
    })??;
    is_no_channel(&rt, found);
    Ok(())
}

// What is said of a frame when no more gossip and no more messages are to be read at this time, and
// what is said of the link.
fn exhausted(
    alloc: Global,
    driver: &mut Driver<TestKey>,
    head: &[u8],
    length: usize,
) -> Result<(Read, Said), Fail> {
    open(alloc, driver, "track 0 1,2")?;
    reads(driver, Link(1), &[3, 0], at(3_000));
    reads(driver, Link(1), &[0, 3, 0], at(3_000));
    let read = says(driver, head, length);
    Ok((read, next(driver)))
}

#[test]
fn a_frame_that_would_have_to_wait_closes_the_link(rt: HostRuntime) -> Result<(), Fail> {
    let alloc = rt.alloc();
    let long = Why::Breach(Breach::FrameLength);
    let cases: [(&'static [u8], usize, Why); 3] = [
        (&[3, 8], 2_303, long),
        (&[0, 3, 33], 36, long),
        (&[0, 4, 0], 3, Why::NoChannel),
    ];
    for (head, length, why) in cases {
        let found = tested(alloc, with_channels(alloc)?, |driver| {
            exhausted(alloc, driver, head, length)
        })??;
        assert_eq!(rt; found, (Read::Closing, Said::Closed(1, why)));
    }
    Ok(())
}

// What is said without memory of a frame that is too long, and of one more; what the tested driver
// does then; and whether a block is told, and is there.
type Starved = ([Read; 2], [Said; 2], [bool; 2]);

fn starved(
    alloc: Global,
    driver: &mut Driver<TestKey>,
    head: &[u8],
    length: usize,
) -> Result<Starved, Fail> {
    let mut memory = FailingAlloc::new(alloc)?;
    open(alloc, driver, "track 0 1,2")?;
    memory.limit(alloc, 0)?;
    let read = [says(driver, head, length), says(driver, head, length)];
    memory.lift();
    let said = next_two(driver);
    let is_told = next(driver) != Said::Nothing;
    let is_blocked = driver.node().next_unblock().is_some();
    Ok((read, said, [is_told, is_blocked]))
}

#[test]
fn a_link_is_closed_without_memory(rt: HostRuntime) -> Result<(), Fail> {
    let alloc = rt.alloc();
    let cases: [(&'static [u8], usize, Why); 2] = [
        (&[3, 8], 2_303, Why::Breach(Breach::FrameLength)),
        (&[0, 3, 0], 3, Why::NoChannel),
    ];
    for (head, length, why) in cases {
        let found = tested(alloc, pace(alloc), |driver| {
            starved(alloc, driver, head, length)
        })??;
        let (read, said, [is_told, is_blocked]) = found;
        assert_eq!(rt; read, [Read::Closing, Read::Closing]);
        let down = Said::Told(Event::Down(Link(1), TestKey(1), Some(why)));
        assert_eq!(rt; said, [Said::Closed(1, why), down]);
        assert_eq!(rt; is_told, is_blocked);
    }
    Ok(())
}

// Whether peer 1 may come in 58 s and 60 s after a frame of this head and length at 3 s. It came in
// at 1 s, and the cooldown is 60 s.
fn comes_back(
    alloc: Global,
    driver: &mut Driver<TestKey>,
    head: &[u8],
    length: usize,
) -> Result<[bool; 2], Fail> {
    open(alloc, driver, "track 0 1,2")?;
    says(driver, head, length);
    driver.ended(Link(1), at(3_001));
    let (_, early) = claim(driver, 1, 1, 61_000)?;
    let (_, late) = claim(driver, 1, 1, 63_000)?;
    Ok([early, late])
}

#[test]
fn only_a_breach_keeps_a_peer_out(rt: HostRuntime) -> Result<(), Fail> {
    let alloc = rt.alloc();
    let cases: [(&'static [u8], usize, bool); 2] = [(&[3, 8], 2_303, false), (&[0, 3, 0], 3, true)];
    for (head, length, expected) in cases {
        let found = tested(alloc, pace(alloc), |driver| {
            comes_back(alloc, driver, head, length)
        })??;
        assert_eq!(rt; found, [expected, true]);
    }
    Ok(())
}
