//! Questions that find no memory: they are left out, the call says so, and they come a tick later.

use failing_alloc::{FailingAlloc, STEP};
use p2p_directory::directory::TrackedPeers;
use p2p_discovery::codec::TestKey;
use p2p_discovery::sets::OrderedSet;
use p2p_driver::actions::Why;
use p2p_driver::admission::Admission;
use p2p_driver::driver::Driver;
use p2p_driver::link::Link;
use p2p_driver::pace::Pace;
use p2p_driver_fixtures::{
    SETTINGS, Said, admitted, at, driven, greeting, ipv4, list, next, next_two, open, pace, prove,
    sends, track,
};
use std::alloc::{AllocError, Global};
use std::process::Abort;
use std::test::Fail;
use std::time::Duration;

const STEPS: usize = 2_048;

// Asserts that questions of the test were left out at some budgets, and not at the greatest one.
fn is_mixed(rt: &impl Abort, failed: usize) {
    assert!(rt; failed > 0 && failed < STEPS, "{failed} failed");
}

// The recommended settings, but that nobody is silent for too long, and each third round is full.
fn patient(alloc: Global) -> Pace {
    let mut pace = pace(alloc);
    pace.silence = Duration::from_secs(1_000_000);
    pace.refresh = 3;
    pace
}

// How often the tested driver failed at ticks with more and more memory; whether each time it said
// nothing, and was to wake a tick later; and the time of the tick at which it didn't fail.
type Left = (usize, bool, u64);

fn leaves_out(
    alloc: Global,
    memory: &mut FailingAlloc,
    driver: &mut Driver<TestKey>,
    first: u64,
) -> Result<Left, Fail> {
    let mut same = true;
    let mut millis = first;
    for step in 0..STEPS {
        memory.limit(alloc, step.saturating_mul(STEP))?;
        let answer = driver.timeout(&[], at(millis));
        memory.lift();
        if answer.is_ok() {
            return Ok((step, same, millis));
        }
        millis = millis.saturating_add(30_000);
        let wake = driver.next_timeout() == Some(Duration::from_millis(millis));
        same = same && wake && next(driver) == Said::Nothing;
    }
    Ok((STEPS, same, millis))
}

// Has the tested driver ask peer 1 for sets 3, 7 and 3, and returns what becomes of the second
// question for set 7 with more and more memory; whether it is asked for that then; and what for at
// the next two ticks: set 3, and then all infos of set 7, in its third round.
fn one(alloc: Global, driver: &mut Driver<TestKey>) -> Result<(Left, [bool; 3]), Fail> {
    let mut memory = FailingAlloc::new(alloc)?;
    track(alloc, driver, "track 3 1", 0)?;
    open(alloc, driver, "track 7 1,2")?;
    driver.timeout(&[], at(61_000))?;
    driver.timeout(&[], at(91_000))?;
    next_two(driver);
    let left = leaves_out(alloc, &mut memory, driver, 121_000)?;
    let (_, _, millis) = left;
    let wanted = sends(driver, &[2, 7, 2, 1]);
    driver.timeout(&[], at(millis.saturating_add(30_000)))?;
    let other = sends(driver, &[2, 3, 1, 1]);
    driver.timeout(&[], at(millis.saturating_add(60_000)))?;
    Ok((left, [wanted, other, sends(driver, &[2, 7, 2, 0])]))
}

#[test]
fn a_question_without_memory_comes_a_tick_later(rt: HostRuntime) -> Result<(), Fail> {
    let alloc = rt.alloc();
    let settings = "cooldown=60 max_sets=2";
    let found = driven(alloc, settings, patient(alloc), |driver| one(alloc, driver))??;
    let ((count, same, _), asked) = found;
    is_mixed(&rt, count);
    assert_eq!(rt; (same, asked), (true, [true, true, true]));
    Ok(())
}

// A set of so many peers that a question for it takes more memory than one for two.
fn many(alloc: Global) -> Result<TrackedPeers<TestKey>, AllocError> {
    let primary = OrderedSet::from_iter_dedup(alloc, (1..=2_000u64).map(TestKey))?;
    let secondary = OrderedSet::from_iter_dedup(alloc, [].into_iter().map(TestKey))?;
    Ok(TrackedPeers::new(primary, secondary))
}

// Lets peers 2 and 1 in, on links 1 and 2, and asks both until peer 1 is to be asked for the later
// of two sets at 159 s, and peer 2 for the first. Takes what the tested driver says.
fn enter(alloc: Global, driver: &mut Driver<TestKey>) -> Result<(), Fail> {
    track(alloc, driver, "track 0 1,2", 0)?;
    driver.track(1, many(alloc)?, at(0))?;
    prove(driver, 1, 2, 1_000)?;
    admitted(driver, Link(1), &greeting(alloc, "2@1000")?, at(2_000));
    let _heard = driver.judged(Link(1), &[true], at(2_000));
    next_two(driver);
    driver.timeout(&[], at(32_000))?;
    next_two(driver);
    prove(driver, 2, 1, 39_000)?;
    admitted(driver, Link(2), &greeting(alloc, "1@1000")?, at(40_000));
    let _heard = driver.judged(Link(2), &[true], at(40_000));
    next_two(driver);
    next(driver);
    driver.timeout(&[], at(99_000))?;
    next_two(driver);
    driver.timeout(&[], at(129_000))?;
    next_two(driver);
    Ok(())
}

// How often the tested driver failed at ticks with more and more memory; whether it was each time
// to wake a tick later; how often it asked peer 2 alone, which comes second; and what
// it says when it doesn't fail.
type Both = (usize, bool, usize, [Said; 2]);

fn both(alloc: Global, driver: &mut Driver<TestKey>) -> Result<Both, Fail> {
    let mut memory = FailingAlloc::new(alloc)?;
    enter(alloc, driver)?;
    let mut tried = true;
    let mut second = 0usize;
    let mut millis = 159_000u64;
    for step in 0..STEPS {
        memory.limit(alloc, step.saturating_mul(STEP))?;
        let answer = driver.timeout(&[], at(millis));
        memory.lift();
        let said = next_two(driver);
        if answer.is_ok() {
            return Ok((step, tried, second, said));
        }
        if said == [Said::Sent(1), Said::Nothing] {
            second = second.saturating_add(1);
        }
        millis = millis.saturating_add(30_000);
        tried = tried && driver.next_timeout() == Some(Duration::from_millis(millis));
    }
    Ok((STEPS, tried, second, next_two(driver)))
}

#[test]
fn without_memory_for_one_question_the_others_are_asked(rt: HostRuntime) -> Result<(), Fail> {
    let alloc = rt.alloc();
    let settings = "cooldown=60 max_sets=2 max_bit_vec=2000";
    let found = driven(
        alloc,
        settings,
        patient(alloc),
        |driver| both(alloc, driver),
    )??;
    let (count, tried, second, said) = found;
    is_mixed(&rt, count);
    assert_eq!(rt; (tried, said), (true, [Said::Sent(2), Said::Sent(1)]));
    assert!(rt; second > 0, "the second was never asked alone");
    Ok(())
}

// Whether the tested driver fails without memory a millisecond before the tick of peer 1, of which
// a list came, and at it; what becomes of a list then; and of one after a tick with memory.
fn owes(alloc: Global, driver: &mut Driver<TestKey>) -> Result<([bool; 2], [Admission; 2]), Fail> {
    let mut memory = FailingAlloc::new(alloc)?;
    open(alloc, driver, "track 0 1,2")?;
    admitted(driver, Link(1), &list(alloc, &["2@1000"])?, at(3_000));
    let _heard = driver.judged(Link(1), &[true], at(3_000));
    memory.limit(alloc, 0)?;
    let early = driver.timeout(&[], at(31_999)).is_err();
    let failed = driver.timeout(&[], at(32_000)).is_err();
    memory.lift();
    let unasked = admitted(driver, Link(1), &list(alloc, &["2@2000"])?, at(33_000));
    driver.timeout(&[], at(62_000))?;
    let asked = admitted(driver, Link(1), &list(alloc, &["2@2000"])?, at(63_000));
    Ok(([early, failed], [unasked, asked]))
}

#[test]
fn a_question_that_is_left_out_is_not_owed(rt: HostRuntime) -> Result<(), Fail> {
    let alloc = rt.alloc();
    let found = driven(alloc, SETTINGS, pace(alloc), |driver| owes(alloc, driver))??;
    let answers = [Admission::Ignored, Admission::Verify(1)];
    assert_eq!(rt; found, ([false, true], answers));
    Ok(())
}

// Whether the tested driver fails without memory at 63 s, when a cooldown is over, a stream late,
// and a question due; what it says; and when it wakes then.
fn late(
    alloc: Global,
    driver: &mut Driver<TestKey>,
) -> Result<(bool, [Said; 2], Option<Duration>), Fail> {
    let mut memory = FailingAlloc::new(alloc)?;
    open(alloc, driver, "track 0 1,2")?;
    driver.arrived(ipv4(2), at(60_000))?;
    memory.limit(alloc, 0)?;
    let failed = driver.timeout(&[], at(63_000)).is_err();
    memory.lift();
    Ok((failed, next_two(driver), driver.next_timeout()))
}

#[test]
fn without_memory_all_else_is_done(rt: HostRuntime) -> Result<(), Fail> {
    let alloc = rt.alloc();
    let found = driven(alloc, SETTINGS, pace(alloc), |driver| late(alloc, driver))??;
    let closed = [Said::Closed(2, Why::Slow), Said::Nothing];
    assert_eq!(rt; found, (true, closed, Some(Duration::from_secs(93))));
    Ok(())
}
