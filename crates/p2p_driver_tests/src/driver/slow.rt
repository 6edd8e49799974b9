//! Links with frames that aren't written: when they are slow, and when they are silent.

use p2p_discovery::codec::TestKey;
use p2p_driver::actions::{Event, Why};
use p2p_driver::driver::Driver;
use p2p_driver::link::{Link, Now};
use p2p_driver::pace::Pace;
use p2p_driver_fixtures::{
    SETTINGS, Said, admit, admitted, at, driven, greet, greeting, open, pace, prove, take,
    take_all, tested, track,
};
use std::alloc::{AllocError, Global};
use std::test::Fail;
use std::time::Duration;

// The empty list, and a question.
const EMPTY: &'static [u8] = &[3, 0];

const QUESTION: &'static [u8] = &[2, 0, 2, 0];

// Whether nothing is said a nanosecond before a time in milliseconds; when the tested driver wakes
// then; and what is said at that time.
type Late = (bool, Option<Duration>, [Said; 2]);

// So much. Nothing that is said is written.
fn late_at(driver: &mut Driver<TestKey>, millis: u64) -> Result<Late, AllocError> {
    let count = driver.counts().actions;
    let nanos = millis.saturating_mul(1_000_000);
    driver.timeout(
        &[],
        Now {
            steady: Duration::from_nanos(nanos.saturating_sub(1)),
            wall: Duration::ZERO,
        },
    )?;
    let silent = driver.counts().actions == count;
    let wake = driver.next_timeout();
    driver.timeout(&[], at(millis))?;
    take_all(driver, count);
    Ok((silent, wake, [take(driver), take(driver)]))
}

// What the test expects if the link, which was up, is closed at this time, and no earlier.
fn closes(millis: u64, why: Why) -> Late {
    let down = Event::Down(Link(1), TestKey(1), Some(why));
    let said = [Said::Closed(1, why), Said::Told(down)];
    (true, Some(Duration::from_millis(millis)), said)
}

// .. which wasn't up.
fn closes_first(millis: u64) -> Late {
    let said = [Said::Closed(1, Why::Slow), Said::Nothing];
    (true, Some(Duration::from_millis(millis)), said)
}

// The recommended settings, but that peers are asked each 121 s, a second after they are silent.
fn seldom(alloc: Global) -> Pace {
    let mut pace = pace(alloc);
    pace.tick = Duration::from_secs(121);
    pace
}

// What becomes of link 1 of the tested driver, whose greeting, said at 1 s, isn't written, and
// maybe isn't even taken, if the peer, which greeted at 2 s, is heard at 100 s.
fn unwritten(alloc: Global, driver: &mut Driver<TestKey>, is_taken: bool) -> Result<Late, Fail> {
    track(alloc, driver, "track 0 1,2", 0)?;
    prove(driver, 1, 1, 1_000)?;
    let _greeted = greet(alloc, driver, "1@1000", 2_000)?;
    admit(alloc, driver, EMPTY, 100_000)?;
    if is_taken {
        take_all(driver, 3);
    }
    Ok(late_at(driver, 121_000)?)
}

#[test]
fn a_greeting_that_is_not_written_is_late(rt: HostRuntime) -> Result<(), Fail> {
    let alloc = rt.alloc();
    for is_taken in [false, true] {
        let found = tested(alloc, seldom(alloc), |driver| {
            unwritten(alloc, driver, is_taken)
        })??;
        assert_eq!(rt; found, closes(121_000, Why::Slow));
    }
    Ok(())
}

// .. if so many of its frames are written just in time: the greeting, the question that was said at
// 2 s, and the reply to a question at 50 s.
fn written(
    alloc: Global,
    driver: &mut Driver<TestKey>,
    count: u32,
    due: u64,
) -> Result<Late, Fail> {
    track(alloc, driver, "track 0 1,2", 0)?;
    prove(driver, 1, 1, 1_000)?;
    let _greeted = greet(alloc, driver, "1@1000", 2_000)?;
    admit(alloc, driver, QUESTION, 50_000)?;
    admit(alloc, driver, EMPTY, 100_000)?;
    take_all(driver, 4);
    for _ in 0..count {
        driver.written(Link(1), at(120_999));
    }
    Ok(late_at(driver, due)?)
}

#[test]
fn the_oldest_frame_that_is_not_written_is_late(rt: HostRuntime) -> Result<(), Fail> {
    let alloc = rt.alloc();
    let cases = [
        (0u32, 121_000u64, Why::Slow),
        (1u32, 122_000u64, Why::Slow),
        (2u32, 170_000u64, Why::Slow),
        (3u32, 220_000u64, Why::Silent),
    ];
    for (count, due, why) in cases {
        let mut pace = seldom(alloc);
        pace.tick = Duration::from_secs(1_000);
        let found = tested(alloc, pace, |driver| written(alloc, driver, count, due))??;
        assert_eq!(rt; found, closes(due, why));
    }
    Ok(())
}

// What becomes of link 1 of the tested driver, if its peer, which greeted at 2 s, is heard at a
// time, and maybe at another one after 123 s, at which it is asked; that question isn't written.
fn asked(
    alloc: Global,
    driver: &mut Driver<TestKey>,
    before: u64,
    after: Option<u64>,
    due: u64,
) -> Result<Late, Fail> {
    open(alloc, driver, "track 0 1,2")?;
    admit(alloc, driver, EMPTY, before)?;
    driver.timeout(&[], at(123_000))?;
    take(driver);
    if let Some(after) = after {
        admit(alloc, driver, EMPTY, after)?;
    }
    Ok(late_at(driver, due)?)
}

#[test]
fn a_link_is_slow_or_silent_by_what_came_first(rt: HostRuntime) -> Result<(), Fail> {
    let alloc = rt.alloc();
    // Heard before the question, in the millisecond before it, at its time, and after it.
    let cases = [
        (50_000u64, None, 170_000u64, Why::Silent),
        (122_999u64, None, 242_999u64, Why::Silent),
        (50_000u64, Some(123_000u64), 243_000u64, Why::Slow),
        (50_000u64, Some(130_000u64), 243_000u64, Why::Slow),
    ];
    for (before, after, due, why) in cases {
        let found = tested(alloc, seldom(alloc), |driver| {
            asked(alloc, driver, before, after, due)
        })??;
        assert_eq!(rt; found, closes(due, why));
    }
    Ok(())
}

// What is said if the tested driver is told 900 s instead.
fn too_late(
    alloc: Global,
    driver: &mut Driver<TestKey>,
    after: Option<u64>,
) -> Result<[Said; 2], Fail> {
    open(alloc, driver, "track 0 1,2")?;
    admit(alloc, driver, EMPTY, 50_000)?;
    driver.timeout(&[], at(123_000))?;
    take(driver);
    if let Some(after) = after {
        admit(alloc, driver, EMPTY, after)?;
    }
    driver.timeout(&[], at(900_000))?;
    Ok([take(driver), take(driver)])
}

#[test]
fn what_came_first_decides_of_two_that_are_late(rt: HostRuntime) -> Result<(), Fail> {
    let alloc = rt.alloc();
    let cases = [
        (None, Why::Silent),
        (Some(123_000u64), Why::Slow),
        (Some(130_000u64), Why::Slow),
    ];
    for (after, why) in cases {
        let found = tested(alloc, seldom(alloc), |driver| {
            too_late(alloc, driver, after)
        })??;
        let (_, _, said) = closes(900_000, why);
        assert_eq!(rt; found, said);
    }
    Ok(())
}

// What becomes of link 1 of the tested driver, whose greeting, said at 1 s, isn't written, if the
// greeting of its peer waits for a verdict since 2 s.
fn waits(alloc: Global, driver: &mut Driver<TestKey>) -> Result<Late, Fail> {
    track(alloc, driver, "track 0 1,2", 0)?;
    prove(driver, 1, 1, 1_000)?;
    admitted(driver, Link(1), &greeting(alloc, "1@1000")?, at(2_000));
    Ok(late_at(driver, 121_000)?)
}

#[test]
fn a_link_is_slow_while_a_greeting_waits(rt: HostRuntime) -> Result<(), Fail> {
    let alloc = rt.alloc();
    let found = driven(alloc, SETTINGS, pace(alloc), |driver| waits(alloc, driver))??;
    assert_eq!(rt; found, closes_first(121_000));
    Ok(())
}

// .. if its peer doesn't greet.
fn ungreeted(alloc: Global, driver: &mut Driver<TestKey>, due: u64) -> Result<Late, Fail> {
    track(alloc, driver, "track 0 1,2", 0)?;
    prove(driver, 1, 1, 1_000)?;
    Ok(late_at(driver, due)?)
}

#[test]
fn a_link_is_slow_by_the_greeting_or_the_silence(rt: HostRuntime) -> Result<(), Fail> {
    let alloc = rt.alloc();
    for (silence, due) in [(3u64, 4_000u64), (7u64, 6_000u64)] {
        let mut pace = pace(alloc);
        pace.silence = Duration::from_secs(silence);
        let found = tested(alloc, pace, |driver| ungreeted(alloc, driver, due))??;
        assert_eq!(rt; found, closes_first(due));
    }
    Ok(())
}
