//! Frames and verdicts that find no memory: they are dropped, nothing changes, and they may be
//! handed in again.

use bytes::Bytes;
use failing_alloc::{FailingAlloc, STEP};
use p2p_directory::record::Status;
use p2p_discovery::codec::{CodecError, TestKey};
use p2p_driver::actions::{Breach, Event, Why};
use p2p_driver::admission::{Admission, Heard, Misjudged};
use p2p_driver::driver::Driver;
use p2p_driver::link::Link;
use p2p_driver_fixtures::{
    SETTINGS, Said, admitted, at, driven, frame, greeting, length, list, next, next_two, open,
    pace, prove, track,
};
use std::alloc::{AllocError, Global};
use std::process::Abort;
use std::test::Fail;
use std::time::Duration;

const STEPS: usize = 2_048;

const DROPPED: Admission = Admission::Heard(Heard::Dropped);

// What is seen of the tested driver: when it wakes, what it says, how peer 1 stands, and when a
// block ends.
type Seen = (Option<Duration>, Said, Option<Status>, Option<Duration>);

fn seen(driver: &mut Driver<TestKey>) -> Seen {
    (
        driver.next_timeout(),
        next(driver),
        driver.node().status(&TestKey(1)),
        driver.node().next_unblock(),
    )
}

// Asserts that what came was dropped at some budgets, and not at the greatest one.
fn is_mixed(rt: &impl Abort, dropped: usize) {
    assert!(rt; dropped > 0 && dropped < STEPS, "{dropped} dropped");
}

// Hands in a frame of link 1 that is to be read, at 3 s, with more and more memory until the tested
// driver doesn't drop it. Returns the answer, how often it was dropped, and whether what is seen of
// the driver stayed the same meanwhile.
fn comes(
    alloc: Global,
    memory: &mut FailingAlloc,
    driver: &mut Driver<TestKey>,
    frame: &Bytes,
) -> Result<(Admission, usize, bool), Fail> {
    let before = seen(driver);
    let mut same = true;
    for step in 0..STEPS {
        memory.limit(alloc, step.saturating_mul(STEP))?;
        let answer = driver.admit(Link(1), frame, at(3_000));
        memory.lift();
        if answer != DROPPED {
            return Ok((answer, step, same));
        }
        same = same && seen(driver) == before;
    }
    Ok((DROPPED, STEPS, same))
}

// .. tells it at 3 s that the signatures are valid in the frame that waits on link 1.
fn tells(
    alloc: Global,
    memory: &mut FailingAlloc,
    driver: &mut Driver<TestKey>,
) -> Result<(Result<Heard, Misjudged>, usize, bool), Fail> {
    let before = seen(driver);
    let mut same = true;
    for step in 0..STEPS {
        memory.limit(alloc, step.saturating_mul(STEP))?;
        let answer = driver.judged(Link(1), &[true], at(3_000));
        memory.lift();
        if answer != Ok(Heard::Dropped) {
            return Ok((answer, step, same));
        }
        same = same && seen(driver) == before;
    }
    Ok((Ok(Heard::Dropped), STEPS, same))
}

// .. blocks peer 1 at 3 s, until that isn't refused.
fn blocks(
    alloc: Global,
    memory: &mut FailingAlloc,
    driver: &mut Driver<TestKey>,
) -> Result<(bool, usize, bool), Fail> {
    let before = seen(driver);
    let mut same = true;
    for step in 0..STEPS {
        memory.limit(alloc, step.saturating_mul(STEP))?;
        let answer = driver.block(&TestKey(1), at(3_000));
        memory.lift();
        match answer {
            Ok(taken) => return Ok((taken, step, same)),
            Err(_) => same = same && seen(driver) == before,
        }
    }
    Ok((false, STEPS, same))
}

// What the tested driver says at 123 s, 120 s after what came at 3 s.
fn then(driver: &mut Driver<TestKey>) -> Result<Said, AllocError> {
    driver.timeout(&[], at(123_000))?;
    Ok(next(driver))
}

// What the tested driver answers to a frame that is to be read at 3 s: at 100 s without memory, and
// at 3 s with more and more; what it says then; and what at 123 s.
type Came = (Admission, (Admission, usize, bool), [Said; 2], Said);

fn came(alloc: Global, driver: &mut Driver<TestKey>, frame: &Bytes) -> Result<Came, Fail> {
    let mut memory = FailingAlloc::new(alloc)?;
    length(driver, Link(1), frame.as_slice(), at(3_000));
    memory.limit(alloc, 0)?;
    let refused = driver.admit(Link(1), frame, at(100_000));
    memory.lift();
    let answer = comes(alloc, &mut memory, driver, frame)?;
    Ok((refused, answer, next_two(driver), then(driver)?))
}

// .. to a greeting with a host name.
fn greets(alloc: Global, driver: &mut Driver<TestKey>) -> Result<Came, Fail> {
    track(alloc, driver, "track 0 1,2", 0)?;
    prove(driver, 1, 1, 1_000)?;
    next(driver);
    let frame = greeting(alloc, "1@1000@~host.name:80")?;
    came(alloc, driver, &frame)
}

// .. to a question.
fn asks(alloc: Global, driver: &mut Driver<TestKey>) -> Result<Came, Fail> {
    open(alloc, driver, "track 0 1,2")?;
    let frame = frame(alloc, &[2, 0, 2, 0])?;
    came(alloc, driver, &frame)
}

// .. to a list that it asked for.
fn tells_infos(alloc: Global, driver: &mut Driver<TestKey>) -> Result<Came, Fail> {
    open(alloc, driver, "track 0 1,2")?;
    let frame = list(alloc, &["2@1000"])?;
    came(alloc, driver, &frame)
}

// Asserts what the test expects to come of a frame.
fn is_as(rt: &impl Abort, found: Came, answer: Admission, said: Said) {
    let (refused, (admission, count, same), told, late) = found;
    is_mixed(rt, count);
    assert_eq!(rt; (refused, admission, same), (DROPPED, answer, true));
    assert_eq!(rt; told, [said, Said::Nothing]);
    assert_eq!(rt; late, Said::Closed(1, Why::Silent));
}

#[test]
fn a_greeting_is_read_if_there_is_memory(rt: HostRuntime) -> Result<(), Fail> {
    let alloc = rt.alloc();
    let found = driven(alloc, SETTINGS, pace(alloc), |driver| greets(alloc, driver))??;
    is_as(&rt, found, Admission::Verify(1), Said::Nothing);
    Ok(())
}

#[test]
fn a_question_is_answered_if_there_is_memory(rt: HostRuntime) -> Result<(), Fail> {
    let alloc = rt.alloc();
    let found = driven(alloc, SETTINGS, pace(alloc), |driver| asks(alloc, driver))??;
    let answered = Admission::Heard(Heard::Answered);
    is_as(&rt, found, answered, Said::Sent(1));
    Ok(())
}

#[test]
fn a_list_is_read_if_there_is_memory(rt: HostRuntime) -> Result<(), Fail> {
    let alloc = rt.alloc();
    let found = driven(alloc, SETTINGS, pace(alloc), |driver| {
        tells_infos(alloc, driver)
    })??;
    is_as(&rt, found, Admission::Verify(1), Said::Nothing);
    Ok(())
}

// What the tested driver answers to a verdict at 100 s without memory, and at 3 s with more and
// more; what it says first then; whether the peer's address is known; and what it says at 123 s.
type Told = (
    Result<Heard, Misjudged>,
    (Result<Heard, Misjudged>, usize, bool),
    Said,
    bool,
    Said,
);

fn told(alloc: Global, driver: &mut Driver<TestKey>, peer: u64) -> Result<Told, Fail> {
    let mut memory = FailingAlloc::new(alloc)?;
    memory.limit(alloc, 0)?;
    let refused = driver.judged(Link(1), &[true], at(100_000));
    memory.lift();
    let answer = tells(alloc, &mut memory, driver)?;
    let [first, _] = next_two(driver);
    let known = driver.node().ingress(&TestKey(peer))?.is_some();
    Ok((refused, answer, first, known, then(driver)?))
}

// .. on a greeting. Behind the news that the link is up the first question may be left out.
fn greeting_judged(alloc: Global, driver: &mut Driver<TestKey>) -> Result<Told, Fail> {
    track(alloc, driver, "track 0 1,2", 0)?;
    prove(driver, 1, 1, 1_000)?;
    next(driver);
    admitted(driver, Link(1), &greeting(alloc, "1@1000")?, at(2_000));
    told(alloc, driver, 1)
}

// .. on a list.
fn list_judged(alloc: Global, driver: &mut Driver<TestKey>) -> Result<Told, Fail> {
    open(alloc, driver, "track 0 1,2")?;
    admitted(driver, Link(1), &list(alloc, &["2@1000"])?, at(2_000));
    told(alloc, driver, 2)
}

// Asserts what the test expects to come of verdicts.
fn is_heard(rt: &impl Abort, found: Told, heard: Heard, said: Said) {
    let (refused, (answer, count, same), first, known, late) = found;
    is_mixed(rt, count);
    assert_eq!(rt; (refused, answer), (Ok(Heard::Dropped), Ok(heard)));
    assert_eq!(rt; (same, first, known), (true, said, true));
    assert_eq!(rt; late, Said::Closed(1, Why::Silent));
}

#[test]
fn a_greeting_is_judged_if_there_is_memory(rt: HostRuntime) -> Result<(), Fail> {
    let alloc = rt.alloc();
    let found = driven(alloc, SETTINGS, pace(alloc), |driver| {
        greeting_judged(alloc, driver)
    })??;
    let up = Said::Told(Event::Up(Link(1), TestKey(1)));
    is_heard(&rt, found, Heard::Greeted, up);
    Ok(())
}

#[test]
fn a_list_is_judged_if_there_is_memory(rt: HostRuntime) -> Result<(), Fail> {
    let alloc = rt.alloc();
    let found = driven(alloc, SETTINGS, pace(alloc), |driver| {
        list_judged(alloc, driver)
    })??;
    is_heard(&rt, found, Heard::Applied(1), Said::Nothing);
    Ok(())
}

// What the tested driver answers to the block of peer 1, which has greeted, with more and more
// memory; what it says then; and when the block ends.
type Blocked = ((bool, usize, bool), [Said; 2], Option<Duration>);

fn blocked(alloc: Global, driver: &mut Driver<TestKey>) -> Result<Blocked, Fail> {
    let mut memory = FailingAlloc::new(alloc)?;
    open(alloc, driver, "track 0 1,2")?;
    let taken = blocks(alloc, &mut memory, driver)?;
    Ok((taken, next_two(driver), driver.node().next_unblock()))
}

#[test]
fn a_peer_is_blocked_if_there_is_memory(rt: HostRuntime) -> Result<(), Fail> {
    let alloc = rt.alloc();
    let found = driven(
        alloc,
        SETTINGS,
        pace(alloc),
        |driver| blocked(alloc, driver),
    )??;
    let ((taken, count, same), said, until) = found;
    is_mixed(&rt, count);
    assert_eq!(rt; (taken, same), (true, true));
    let why = Why::Blocked;
    let down = Said::Told(Event::Down(Link(1), TestKey(1), Some(why)));
    assert_eq!(rt; said, [Said::Closed(1, why), down]);
    assert_eq!(rt; until, Some(Duration::from_secs(63)));
    Ok(())
}

// What the tested driver answers to a question that is cut short without memory; what it says; and
// whether a block is told and is there.
type Broken = (Admission, [Said; 2], [bool; 2]);

fn breaks(alloc: Global, driver: &mut Driver<TestKey>) -> Result<Broken, Fail> {
    let mut memory = FailingAlloc::new(alloc)?;
    open(alloc, driver, "track 0 1,2")?;
    let cut = frame(alloc, &[2])?;
    memory.limit(alloc, 0)?;
    let answer = admitted(driver, Link(1), &cut, at(3_000));
    memory.lift();
    let said = next_two(driver);
    let is_told = next(driver) != Said::Nothing;
    let is_blocked = driver.node().next_unblock().is_some();
    Ok((answer, said, [is_told, is_blocked]))
}

#[test]
fn a_breach_without_memory_closes_the_link(rt: HostRuntime) -> Result<(), Fail> {
    let alloc = rt.alloc();
    let found = driven(alloc, SETTINGS, pace(alloc), |driver| breaks(alloc, driver))??;
    let (answer, said, [is_told, is_blocked]) = found;
    let why = Why::Breach(Breach::Codec(CodecError::EndOfBuffer));
    assert_eq!(rt; answer, Admission::Heard(Heard::Closing(why)));
    let down = Said::Told(Event::Down(Link(1), TestKey(1), Some(why)));
    assert_eq!(rt; said, [Said::Closed(1, why), down]);
    assert_eq!(rt; is_told, is_blocked);
    Ok(())
}

// What the tested driver answers without memory to a list that nobody asked for, and to a second
// greeting.
fn needs_none(alloc: Global, driver: &mut Driver<TestKey>) -> Result<[Admission; 2], Fail> {
    let mut memory = FailingAlloc::new(alloc)?;
    open(alloc, driver, "track 0 1,2")?;
    let unasked = frame(alloc, &[3, 1])?;
    // The question that is owed is answered.
    admitted(driver, Link(1), &list(alloc, &["2@1000"])?, at(3_000));
    let _heard = driver.judged(Link(1), &[true], at(3_000));
    let second = frame(alloc, &[1])?;
    memory.limit(alloc, 0)?;
    let ignored = admitted(driver, Link(1), &unasked, at(4_000));
    let broken = admitted(driver, Link(1), &second, at(4_001));
    memory.lift();
    Ok([ignored, broken])
}

#[test]
fn what_is_not_read_needs_no_memory(rt: HostRuntime) -> Result<(), Fail> {
    let alloc = rt.alloc();
    let found = driven(alloc, SETTINGS, pace(alloc), |driver| {
        needs_none(alloc, driver)
    })??;
    let why = Why::Breach(Breach::SecondGreeting);
    let closing = Admission::Heard(Heard::Closing(why));
    assert_eq!(rt; found, [Admission::Ignored, closing]);
    Ok(())
}
