//! Frames that find no memory to be said, while others aren't written.

use failing_alloc::{FailingAlloc, STEP};
use p2p_directory::record::Status;
use p2p_discovery::codec::TestKey;
use p2p_driver::actions::Event;
use p2p_driver::admission::{Admission, Heard};
use p2p_driver::driver::Driver;
use p2p_driver::link::Link;
use p2p_driver_fixtures::{
    SETTINGS, Said, admitted, at, driven, frame, greet, greeting, length, pace, prove, take,
    take_all, track, with_channels,
};
use std::alloc::Global;
use std::process::Abort;
use std::test::Fail;
use std::time::Duration;

const STEPS: usize = 2_048;

// A question.
const QUESTION: &'static [u8] = &[2, 0, 2, 0];

// Asserts that frames of the test were left out at some budgets, and not at the greatest one.
fn is_mixed(rt: &impl Abort, failed: usize) {
    assert!(rt; failed > 0 && failed < STEPS, "{failed} failed");
}

// Lets peer 1 in by the tested driver at 1 s, and has it greet at 2 s. What is said is taken, and
// nothing of it is written.
fn enter(alloc: Global, driver: &mut Driver<TestKey>) -> Result<(), Fail> {
    track(alloc, driver, "track 0 1,2", 0)?;
    prove(driver, 1, 1, 1_000)?;
    let _greeted = greet(alloc, driver, "1@1000", 2_000)?;
    take_all(driver, 3);
    Ok(())
}

// What is seen of the tested driver: when it wakes, what it says, and how peer 1 stands.
type Seen = (Option<Duration>, Said, Option<Status>);

fn seen(driver: &mut Driver<TestKey>) -> Seen {
    (
        driver.next_timeout(),
        take(driver),
        driver.node().status(&TestKey(1)),
    )
}

// How often the tested driver drops a question with more and more memory, what it answers then, and
// whether what is seen stays the same until then; what it says; and how many frames are written, of
// four times.
type Replies = ((usize, Admission, bool), [Said; 2], [bool; 4]);

fn replies(alloc: Global, driver: &mut Driver<TestKey>) -> Result<Replies, Fail> {
    let mut memory = FailingAlloc::new(alloc)?;
    enter(alloc, driver)?;
    let question = frame(alloc, QUESTION)?;
    length(driver, Link(1), QUESTION, at(3_000));
    let before = seen(driver);
    let mut same = true;
    let mut answer = Admission::Heard(Heard::Dropped);
    let mut dropped = 0usize;
    for step in 0..STEPS {
        memory.limit(alloc, step.saturating_mul(STEP))?;
        answer = driver.admit(Link(1), &question, at(3_000));
        memory.lift();
        if answer != Admission::Heard(Heard::Dropped) {
            break;
        }
        dropped = dropped.saturating_add(1);
        same = same && seen(driver) == before;
    }
    let said = [take(driver), take(driver)];
    let written = [
        driver.written(Link(1), at(3_000)),
        driver.written(Link(1), at(3_000)),
        driver.written(Link(1), at(3_000)),
        driver.written(Link(1), at(3_000)),
    ];
    Ok(((dropped, answer, same), said, written))
}

#[test]
fn a_reply_is_said_if_there_is_memory(rt: HostRuntime) -> Result<(), Fail> {
    let alloc = rt.alloc();
    let found = driven(
        alloc,
        SETTINGS,
        pace(alloc),
        |driver| replies(alloc, driver),
    )??;
    let ((dropped, answer, same), said, written) = found;
    is_mixed(&rt, dropped);
    assert_eq!(rt; (answer, same), (Admission::Heard(Heard::Answered), true));
    assert_eq!(rt; said, [Said::Sent(1), Said::Nothing]);
    assert_eq!(rt; written, [true, true, true, false]);
    Ok(())
}

// How often the tested driver fails at ticks with more and more memory, and whether it says nothing
// each time, and wakes a tick later; what it says then; and how many frames are written, of four
// times.
type Ticks = ((usize, bool), [Said; 2], [bool; 4]);

fn ticks(alloc: Global, driver: &mut Driver<TestKey>) -> Result<Ticks, Fail> {
    let mut memory = FailingAlloc::new(alloc)?;
    enter(alloc, driver)?;
    driver.timeout(&[], at(61_000))?;
    driver.written(Link(1), at(61_000));
    take(driver);
    let mut same = true;
    let mut failed = 0usize;
    let mut millis = 91_000u64;
    for step in 0..STEPS {
        memory.limit(alloc, step.saturating_mul(STEP))?;
        let answer = driver.timeout(&[], at(millis));
        memory.lift();
        if answer.is_ok() {
            break;
        }
        failed = failed.saturating_add(1);
        millis = millis.saturating_add(30_000);
        let wake = driver.next_timeout() == Some(Duration::from_millis(millis));
        same = same && wake && take(driver) == Said::Nothing;
    }
    let said = [take(driver), take(driver)];
    let written = [
        driver.written(Link(1), at(91_000)),
        driver.written(Link(1), at(91_000)),
        driver.written(Link(1), at(91_000)),
        driver.written(Link(1), at(91_000)),
    ];
    Ok(((failed, same), said, written))
}

#[test]
fn a_question_is_said_if_there_is_memory(rt: HostRuntime) -> Result<(), Fail> {
    let alloc = rt.alloc();
    let mut pace = pace(alloc);
    pace.silence = Duration::from_secs(1_000_000);
    let ((failed, same), said, written) = driven(alloc, SETTINGS, pace, |driver| {
        ticks(alloc, driver)
    })??;
    is_mixed(&rt, failed);
    assert_eq!(rt; (same, said), (true, [Said::Sent(1), Said::Nothing]));
    // The question of 2 s, that of 61 s, and this one.
    assert_eq!(rt; written, [true, true, true, false]);
    Ok(())
}

// What the tested driver says when peer 1 greets at 2 s, with the least memory with which the
// verdict isn't dropped; how many frames are written then, of three times; and what it says a tick
// later.
type Greets = ([Said; 2], [bool; 3], Said);

fn greets(alloc: Global, driver: &mut Driver<TestKey>) -> Result<Greets, Fail> {
    let mut memory = FailingAlloc::new(alloc)?;
    track(alloc, driver, "track 0 1,2", 0)?;
    prove(driver, 1, 1, 1_000)?;
    take(driver);
    admitted(driver, Link(1), &greeting(alloc, "1@1000")?, at(2_000));
    for step in 0..STEPS {
        memory.limit(alloc, step.saturating_mul(STEP))?;
        let heard = driver.judged(Link(1), &[true], at(2_000));
        memory.lift();
        if heard != Ok(Heard::Dropped) {
            break;
        }
    }
    let said = [take(driver), take(driver)];
    let written = [
        driver.written(Link(1), at(2_000)),
        driver.written(Link(1), at(2_000)),
        driver.written(Link(1), at(2_000)),
    ];
    driver.timeout(&[], at(32_000))?;
    Ok((said, written, take(driver)))
}

#[test]
fn a_first_question_counts_if_it_is_said(rt: HostRuntime) -> Result<(), Fail> {
    let alloc = rt.alloc();
    let found = driven(alloc, SETTINGS, pace(alloc), |driver| greets(alloc, driver))??;
    let ([up, asked], written, tick) = found;
    assert_eq!(rt; up, Said::Told(Event::Up(Link(1), TestKey(1))));
    assert_eq!(rt; written, [true, asked == Said::Sent(1), false]);
    assert_eq!(rt; tick, Said::Sent(1));
    Ok(())
}

// How often the tested driver says no message with more and more memory, and whether what is seen
// stays the same until then; whether it says two more; and how many frames are written, of five
// times.
type Messages = ((usize, bool), [bool; 2], [bool; 5]);

fn messages(alloc: Global, driver: &mut Driver<TestKey>) -> Result<Messages, Fail> {
    let mut memory = FailingAlloc::new(alloc)?;
    enter(alloc, driver)?;
    let before = seen(driver);
    let mut same = true;
    let mut failed = 0usize;
    for step in 0..STEPS {
        memory.limit(alloc, step.saturating_mul(STEP))?;
        let said = driver.say(&TestKey(1), 300, 5, at(3_000)).is_some();
        memory.lift();
        if said {
            break;
        }
        failed = failed.saturating_add(1);
        same = same && seen(driver) == before;
    }
    let more = [
        driver.say(&TestKey(1), 300, 5, at(3_000)).is_some(),
        driver.say(&TestKey(1), 300, 5, at(3_000)).is_some(),
    ];
    let written = [
        driver.written(Link(1), at(3_000)),
        driver.written(Link(1), at(3_000)),
        driver.written(Link(1), at(3_000)),
        driver.written(Link(1), at(3_000)),
        driver.written(Link(1), at(3_000)),
    ];
    Ok(((failed, same), more, written))
}

#[test]
fn a_message_is_said_if_there_is_memory(rt: HostRuntime) -> Result<(), Fail> {
    let alloc = rt.alloc();
    let pace = with_channels(alloc)?;
    let found = driven(alloc, SETTINGS, pace, |driver| messages(alloc, driver))??;
    let ((failed, same), more, written) = found;
    is_mixed(&rt, failed);
    assert!(rt; same);
    // Two at once of a burst of three, beside a greeting and a question.
    assert_eq!(rt; more, [true, false]);
    assert_eq!(rt; written, [true, true, true, true, false]);
    Ok(())
}
