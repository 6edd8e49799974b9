//! Dials that find no memory: nobody is dialled for a tick, all else is done, and a dial that can't
//! be proved then stays as it was.

use failing_alloc::{FailingAlloc, STEP};
use p2p_directory::record::Status;
use p2p_discovery::codec::TestKey;
use p2p_driver::actions::Why;
use p2p_driver::driver::{Counts, Driver};
use p2p_driver::link::Link;
use p2p_driver_fixtures::{SETTINGS, Said, at, dialing, driven, ipv4, know, next, next_two, open};
use std::alloc::Global;
use std::process::Abort;
use std::test::Fail;
use std::time::Duration;

const STEPS: usize = 2_048;

// Asserts that a call of the test was refused at some budgets, and not at the greatest one.
fn is_mixed(rt: &impl Abort, refused: usize) {
    assert!(rt; refused > 0 && refused < STEPS, "{refused} refused");
}

// How peer 1 stands, its link, how much there is, and what is said.
type Seen = (Option<Status>, Option<Link>, Counts, Said);

fn seen(driver: &mut Driver<TestKey>) -> Seen {
    (
        driver.node().status(&TestKey(1)),
        driver.link_of(&TestKey(1)),
        driver.counts(),
        next(driver),
    )
}

// How often the tested driver failed to dial peer 1 with more and more memory, a tick after each
// time; whether nothing of it was seen then, and it was to wake a tick later; and the time at which
// it didn't fail.
type Left = (usize, bool, u64);

fn leaves_out(
    alloc: Global,
    memory: &mut FailingAlloc,
    driver: &mut Driver<TestKey>,
) -> Result<Left, Fail> {
    let before = seen(driver);
    let mut same = true;
    let mut millis = 1_000u64;
    for step in 0..STEPS {
        memory.limit(alloc, step.saturating_mul(STEP))?;
        let answer = driver.timeout(&[0], at(millis));
        memory.lift();
        if answer.is_ok() {
            return Ok((step, same, millis));
        }
        millis = millis.saturating_add(30_000);
        let wake = driver.next_timeout() == Some(Duration::from_millis(millis));
        same = same && wake && seen(driver) == before;
    }
    Ok((STEPS, same, millis))
}

// What becomes of dials of peer 1; whether it has the link that is said then; how it stands; and
// whether the proof of the dial is then due next.
fn dials(alloc: Global, driver: &mut Driver<TestKey>) -> Result<(Left, [bool; 3]), Fail> {
    let mut memory = FailingAlloc::new(alloc)?;
    know(alloc, driver, "track 0 1", &["1@1000"])?;
    let left = leaves_out(alloc, &mut memory, driver)?;
    let (_, _, millis) = left;
    let (status, link, _, said) = seen(driver);
    let linked = match link {
        Some(link) => said == Said::Dialed(link.0, 1),
        None => false,
    };
    driver.timeout(&[0], at(millis))?;
    let due = Duration::from_millis(millis.saturating_add(5_000));
    let wake = driver.next_timeout() == Some(due);
    Ok((left, [linked, status == Some(Status::Reserved), wake]))
}

#[test]
fn a_dial_without_memory_comes_a_tick_later(rt: HostRuntime) -> Result<(), Fail> {
    let alloc = rt.alloc();
    let found = driven(alloc, SETTINGS, dialing(alloc), |driver| {
        dials(alloc, driver)
    })??;
    let ((count, same, _), dialed) = found;
    is_mixed(&rt, count);
    assert_eq!(rt; (same, dialed), (true, [true, true, true]));
    Ok(())
}

// Whether the tested driver fails without memory at 32 s, when a stream is late and a question due,
// and nobody may be dialled; and at 43 s, when a stream is late, and two may be dialled; what it
// says; whether it wakes when a cooldown ends; and what it says of dials, with memory, a
// millisecond before a tick has passed, and then.
type Late = ([bool; 2], [[Said; 2]; 2], bool, [[Said; 2]; 2]);

fn late(alloc: Global, driver: &mut Driver<TestKey>) -> Result<Late, Fail> {
    let mut memory = FailingAlloc::new(alloc)?;
    open(alloc, driver, "track 0 1,2,3")?;
    driver.arrived(ipv4(2), at(29_000))?;
    memory.limit(alloc, 0)?;
    let asked = driver.timeout(&[0, 0, 0], at(32_000)).is_err();
    memory.lift();
    let first = next_two(driver);
    know(alloc, driver, "track 1 1,2,3", &["2@1000", "3@1000"])?;
    driver.arrived(ipv4(2), at(40_000))?;
    memory.limit(alloc, 0)?;
    let dialed = driver.timeout(&[0, 0, 0], at(43_000)).is_err();
    memory.lift();
    let second = next_two(driver);
    let wake = driver.next_timeout() == Some(Duration::from_secs(61));
    driver.timeout(&[0, 0, 0], at(61_000))?;
    driver.timeout(&[0, 0, 0], at(72_999))?;
    next(driver);
    let early = next_two(driver);
    driver.timeout(&[0, 0, 0], at(73_000))?;
    Ok((
        [asked, dialed],
        [first, second],
        wake,
        [early, next_two(driver)],
    ))
}

#[test]
fn without_memory_for_a_dial_all_else_is_done(rt: HostRuntime) -> Result<(), Fail> {
    let alloc = rt.alloc();
    let found = driven(
        alloc,
        SETTINGS,
        dialing(alloc),
        |driver| late(alloc, driver),
    )??;
    let silent = [Said::Nothing, Said::Nothing];
    let closed = |link| [Said::Closed(link, Why::Slow), Said::Nothing];
    let dialed = [Said::Dialed(4, 2), Said::Dialed(5, 3)];
    assert_eq!(rt;
        found,
        ([true, true], [closed(2), closed(3)], true, [silent, dialed])
    );
    Ok(())
}

// Whether the tested driver fails without memory at 1 s with no word, and with nobody to dial.
fn idle(alloc: Global, driver: &mut Driver<TestKey>) -> Result<[bool; 2], Fail> {
    let mut memory = FailingAlloc::new(alloc)?;
    know(alloc, driver, "track 0 1,2", &["1@1000"])?;
    memory.limit(alloc, 0)?;
    let wordless = driver.timeout(&[], at(1_000)).is_err();
    memory.lift();
    driver.timeout(&[0], at(1_000))?;
    memory.limit(alloc, 0)?;
    let dialed = driver.timeout(&[0, 0], at(1_001)).is_err();
    memory.lift();
    Ok([wordless, dialed])
}

#[test]
fn who_dials_nobody_needs_no_memory(rt: HostRuntime) -> Result<(), Fail> {
    let alloc = rt.alloc();
    let found = driven(
        alloc,
        SETTINGS,
        dialing(alloc),
        |driver| idle(alloc, driver),
    )??;
    assert_eq!(rt; found, [false, false]);
    Ok(())
}

// Has a dial proved at 2 s with more and more memory until the tested driver answers. Returns the
// answer, how often it was refused, and whether what is seen stayed the same meanwhile.
fn prove_it(
    alloc: Global,
    memory: &mut FailingAlloc,
    driver: &mut Driver<TestKey>,
) -> Result<(bool, usize, bool), Fail> {
    let before = (driver.next_timeout(), seen(driver));
    let mut same = true;
    for step in 0..STEPS {
        memory.limit(alloc, step.saturating_mul(STEP))?;
        let answer = driver.proved(Link(1), TestKey(1), 0, at(2_000));
        memory.lift();
        match answer {
            Ok(proved) => return Ok((proved, step, same)),
            Err(_) => same = same && (driver.next_timeout(), seen(driver)) == before,
        }
    }
    Ok((false, STEPS, same))
}

// Whether the tested driver refuses without memory the proof of a dial at 5 s, and closes that of
// another as of a wrong key; what becomes of the proof at 2 s; what is said; and when it wakes.
type Proved = ([bool; 2], (bool, usize, bool), [Said; 3], Option<Duration>);

fn proves(alloc: Global, driver: &mut Driver<TestKey>) -> Result<Proved, Fail> {
    let mut memory = FailingAlloc::new(alloc)?;
    know(alloc, driver, "track 0 1,2", &["1@1000", "2@1000"])?;
    driver.timeout(&[0, 0, 0], at(1_000))?;
    next_two(driver);
    memory.limit(alloc, 0)?;
    let refused = driver.proved(Link(1), TestKey(1), 0, at(5_000)).is_err();
    let wrong = driver.proved(Link(2), TestKey(1), 0, at(1_001)) == Ok(false);
    memory.lift();
    let closed = next(driver);
    let proved = prove_it(alloc, &mut memory, driver)?;
    let [sent, silent] = next_two(driver);
    let said = [closed, sent, silent];
    Ok(([refused, wrong], proved, said, driver.next_timeout()))
}

#[test]
fn a_dial_is_proved_if_there_is_memory(rt: HostRuntime) -> Result<(), Fail> {
    let alloc = rt.alloc();
    let found = driven(alloc, SETTINGS, dialing(alloc), |driver| {
        proves(alloc, driver)
    })??;
    let (answers, (proved, count, same), said, wake) = found;
    is_mixed(&rt, count);
    assert_eq!(rt; (answers, proved, same), ([true, true], true, true));
    let closed = Said::Closed(2, Why::WrongKey);
    assert_eq!(rt; said, [closed, Said::Sent(1), Said::Nothing]);
    // The peer has 5 s to greet.
    assert_eq!(rt; wake, Some(Duration::from_secs(7)));
    Ok(())
}
