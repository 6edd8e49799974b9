//! Links of peers that are silent, and the two clocks.

use p2p_discovery::codec::TestKey;
use p2p_driver::actions::{Event, Why};
use p2p_driver::admission::{Heard, Misjudged};
use p2p_driver::driver::Driver;
use p2p_driver::link::Link;
use p2p_driver_fixtures::{
    SETTINGS, Said, admit, admitted, at, at_wall, driven, frame, greeting, list, next, next_two,
    next_unsent, open, pace, prove, tested, track, with_channels,
};
use std::alloc::{AllocError, Global};
use std::test::Fail;
use std::time::Duration;

// Tells the tested driver the time a millisecond before and at the moment. Returns what it says:
// before, but its questions.
fn told(driver: &mut Driver<TestKey>, millis: u64) -> Result<(Said, [Said; 2]), AllocError> {
    driver.timeout(&[], at(millis.saturating_sub(1)))?;
    let before = next_unsent(driver);
    driver.timeout(&[], at(millis))?;
    Ok((before, next_two(driver)))
}

// What is said of peer 1 when it is silent for too long.
fn silent() -> [Said; 2] {
    let down = Event::Down(Link(1), TestKey(1), Some(Why::Silent));
    [Said::Closed(1, Why::Silent), Said::Told(down)]
}

// When the tested driver wakes after 93 s, at which it asks peer 1, which greeted at 2 s and is
// silent since; and what it says at 122 s.
fn never_again(
    alloc: Global,
    driver: &mut Driver<TestKey>,
) -> Result<(Option<Duration>, (Said, [Said; 2])), Fail> {
    open(alloc, driver, "track 0 1,2")?;
    driver.timeout(&[], at(93_000))?;
    let wake = driver.next_timeout();
    Ok((wake, told(driver, 122_000)?))
}

#[test]
fn who_is_silent_is_closed(rt: HostRuntime) -> Result<(), Fail> {
    let alloc = rt.alloc();
    let found = driven(alloc, SETTINGS, pace(alloc), |driver| {
        never_again(alloc, driver)
    })??;
    let (wake, said) = found;
    assert_eq!(rt; wake, Some(Duration::from_secs(122)));
    assert_eq!(rt; said, (Said::Nothing, silent()));
    Ok(())
}

// What the tested driver says 120 s after a frame that came at 100 s.
fn heard_again(
    alloc: Global,
    driver: &mut Driver<TestKey>,
    bytes: &[u8],
) -> Result<(Said, [Said; 2]), Fail> {
    open(alloc, driver, "track 0 1,2")?;
    // The question that is owed is answered.
    admitted(driver, Link(1), &list(alloc, &["2@1000"])?, at(3_000));
    let _heard = driver.judged(Link(1), &[true], at(3_000));
    admit(alloc, driver, bytes, 100_000)?;
    next_two(driver);
    Ok(told(driver, 220_000)?)
}

#[test]
fn a_frame_ends_the_silence(rt: HostRuntime) -> Result<(), Fail> {
    let alloc = rt.alloc();
    // A message, a question, the empty list, and a list that nobody asked for.
    let frames: [&'static [u8]; 4] = [&[0, 3, 0], &[2, 0, 2, 0], &[3, 0], &[3, 1]];
    for bytes in frames {
        let found = tested(alloc, with_channels(alloc)?, |driver| {
            heard_again(alloc, driver, bytes)
        })??;
        assert_eq!(rt; found, (Said::Nothing, silent()));
    }
    Ok(())
}

// What the tested driver says 120 s after a list that came at 50 s and waits; and 120 s after the
// verdict on it, which came at 60 s.
fn list_waits(
    alloc: Global,
    driver: &mut Driver<TestKey>,
    is_judged: bool,
    millis: u64,
) -> Result<(Said, [Said; 2]), Fail> {
    open(alloc, driver, "track 0 1,2")?;
    admitted(driver, Link(1), &list(alloc, &["2@1000"])?, at(50_000));
    if is_judged {
        let _heard = driver.judged(Link(1), &[true], at(60_000));
    }
    Ok(told(driver, millis)?)
}

#[test]
fn a_list_that_waits_ends_the_silence_and_so_does_its_verdict(rt: HostRuntime) -> Result<(), Fail> {
    let alloc = rt.alloc();
    for (is_judged, millis) in [(false, 170_000u64), (true, 180_000u64)] {
        let found = tested(alloc, pace(alloc), |driver| {
            list_waits(alloc, driver, is_judged, millis)
        })??;
        assert_eq!(rt; found, (Said::Nothing, silent()));
    }
    Ok(())
}

// What the tested driver says 120 s after a greeting that came at 2 s and waits, of a peer that was
// proved at 1 s; what comes of the verdict then.
type Unjudged = ((Said, [Said; 2]), Result<Heard, Misjudged>);

fn unjudged(alloc: Global, driver: &mut Driver<TestKey>) -> Result<Unjudged, Fail> {
    track(alloc, driver, "track 0 1,2", 0)?;
    prove(driver, 1, 1, 1_000)?;
    next(driver);
    admitted(driver, Link(1), &greeting(alloc, "1@1000")?, at(2_000));
    let said = told(driver, 122_000)?;
    Ok((said, driver.judged(Link(1), &[true], at(122_001))))
}

#[test]
fn a_greeting_that_waits_is_in_time(rt: HostRuntime) -> Result<(), Fail> {
    let alloc = rt.alloc();
    let found = driven(
        alloc,
        SETTINGS,
        pace(alloc),
        |driver| unjudged(alloc, driver),
    )??;
    let closed = [Said::Closed(1, Why::Silent), Said::Nothing];
    assert_eq!(rt; found, ((Said::Nothing, closed), Err(Misjudged)));
    Ok(())
}

// What the tested driver says 120 s after the empty list that came at 10 s, when the wall clock
// stood there.
fn jumps(
    alloc: Global,
    driver: &mut Driver<TestKey>,
    wall: u64,
) -> Result<(Said, [Said; 2], Option<Duration>), Fail> {
    open(alloc, driver, "track 0 1,2")?;
    let empty = frame(alloc, &[3, 0])?;
    admitted(driver, Link(1), &empty, at_wall(10_000, wall));
    driver.timeout(&[], at_wall(101_000, wall))?;
    let wake = driver.next_timeout();
    driver.timeout(&[], at_wall(129_999, 0))?;
    let before = next_unsent(driver);
    driver.timeout(&[], at_wall(130_000, wall))?;
    Ok((before, next_two(driver), wake))
}

#[test]
fn a_wall_clock_that_jumps_moves_no_deadline(rt: HostRuntime) -> Result<(), Fail> {
    let alloc = rt.alloc();
    for wall in [0u64, 1_000_000, u64::MAX] {
        let found = tested(alloc, pace(alloc), |driver| { jumps(alloc, driver, wall) })??;
        let wake = Some(Duration::from_secs(130));
        assert_eq!(rt; found, (Said::Nothing, silent(), wake));
    }
    Ok(())
}

// What the tested driver says 120 s after the empty list that came at 90 s by a steady clock that
// went back from 100 s.
fn back(alloc: Global, driver: &mut Driver<TestKey>) -> Result<(Said, [Said; 2]), Fail> {
    open(alloc, driver, "track 0 1,2")?;
    driver.timeout(&[], at(100_000))?;
    admit(alloc, driver, &[3, 0], 90_000)?;
    Ok(told(driver, 220_000)?)
}

#[test]
fn a_frame_comes_no_earlier_than_the_latest_time(rt: HostRuntime) -> Result<(), Fail> {
    let alloc = rt.alloc();
    let found = driven(alloc, SETTINGS, pace(alloc), |driver| back(alloc, driver))??;
    assert_eq!(rt; found, (Said::Nothing, silent()));
    Ok(())
}
