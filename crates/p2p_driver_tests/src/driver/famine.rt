//! Calls that find no memory change nothing, and succeed once there is some.

use failing_alloc::{FailingAlloc, STEP};
use lines::{command, setup};
use p2p_directory::record::Status;
use p2p_directory::run::Command;
use p2p_discovery::codec::TestKey;
use p2p_driver::actions::Why;
use p2p_driver::driver::{Driver, Tracked};
use p2p_driver::link::Link;
use p2p_driver_fixtures::{SETTINGS, Said, at, driven, ipv4, next, pace, prove, track};
use std::alloc::Global;
use std::process::Abort;
use std::test::Fail;
use std::time::Duration;

const STEPS: usize = 2_048;

// What is seen of the tested driver: when it wakes, what it says, the index of its latest set, and
// how peer 1 stands.
type Seen = (Option<Duration>, Said, Option<u64>, Option<Status>);

fn seen(driver: &mut Driver<TestKey>) -> Seen {
    (
        driver.next_timeout(),
        next(driver),
        driver.node().latest_set_index(),
        driver.node().status(&TestKey(1)),
    )
}

// Asserts that a call of the test was refused at some budgets, and not at the greatest one.
fn is_mixed(rt: &impl Abort, refused: usize) {
    assert!(rt; refused > 0 && refused < STEPS, "{refused} refused");
}

// At how many budgets no tested driver could be made, and when the first that was wakes.
fn made(alloc: Global, memory: &mut FailingAlloc) -> Result<(usize, Option<Duration>), Fail> {
    for step in 0..STEPS {
        let given = setup(alloc, SETTINGS)?;
        let pace = pace(alloc);
        memory.limit(alloc, step.saturating_mul(STEP))?;
        let made = Driver::new(alloc, given, pace);
        memory.lift();
        if let Ok(driver) = made {
            let wake = driver.next_timeout();
            driver.finish();
            return Ok((step, wake));
        }
    }
    Ok((STEPS, None))
}

#[test]
fn a_driver_is_made_if_there_is_memory(rt: HostRuntime) -> Result<(), Fail> {
    let alloc = rt.alloc();
    let mut memory = FailingAlloc::new(alloc)?;
    let (refused, wake) = made(alloc, &mut memory)?;
    is_mixed(&rt, refused);
    assert_eq!(rt; wake, None);
    Ok(())
}

// Lets a stream come at 1 s with more and more memory until the tested driver answers. Returns the
// answer, how often it was refused, and whether what is seen of it stayed the same meanwhile.
fn come_in(
    alloc: Global,
    memory: &mut FailingAlloc,
    driver: &mut Driver<TestKey>,
) -> Result<(Option<Link>, usize, bool), Fail> {
    let before = seen(driver);
    let mut same = true;
    for step in 0..STEPS {
        memory.limit(alloc, step.saturating_mul(STEP))?;
        let answer = driver.arrived(ipv4(1), at(1_000));
        memory.lift();
        match answer {
            Ok(link) => return Ok((link, step, same)),
            Err(_) => same = same && seen(driver) == before,
        }
    }
    Ok((None, STEPS, same))
}

// .. proves it to be peer 1's at 1,001 ms.
fn prove_it(
    alloc: Global,
    memory: &mut FailingAlloc,
    driver: &mut Driver<TestKey>,
) -> Result<(bool, usize, bool), Fail> {
    let before = seen(driver);
    let mut same = true;
    for step in 0..STEPS {
        memory.limit(alloc, step.saturating_mul(STEP))?;
        let answer = driver.proved(Link(1), TestKey(1), 0, at(1_001));
        memory.lift();
        match answer {
            Ok(proved) => return Ok((proved, step, same)),
            Err(_) => same = same && seen(driver) == before,
        }
    }
    Ok((false, STEPS, same))
}

// .. tracks another set at 2 s.
fn track_other(
    alloc: Global,
    memory: &mut FailingAlloc,
    driver: &mut Driver<TestKey>,
) -> Result<(Option<Tracked>, usize, bool), Fail> {
    let before = seen(driver);
    let mut same = true;
    for step in 0..STEPS {
        let Command::Track { index, peers } = command(alloc, "track 1 2,3")? else {
            break;
        };
        memory.limit(alloc, step.saturating_mul(STEP))?;
        let answer = driver.track(index, peers, at(2_000));
        memory.lift();
        match answer {
            Ok(tracked) => return Ok((Some(tracked), step, same)),
            Err(_) => same = same && seen(driver) == before,
        }
    }
    Ok((None, STEPS, same))
}

// Whether the tested driver refuses a stream at 100 s without memory; what becomes of one at 1 s;
// and what is seen then.
type Come = (bool, (Option<Link>, usize, bool), Seen);

fn comes(alloc: Global, driver: &mut Driver<TestKey>) -> Result<Come, Fail> {
    let mut memory = FailingAlloc::new(alloc)?;
    track(alloc, driver, "track 0 1,2", 0)?;
    memory.limit(alloc, 0)?;
    let refused = driver.arrived(ipv4(1), at(100_000)).is_err();
    memory.lift();
    let come = come_in(alloc, &mut memory, driver)?;
    Ok((refused, come, seen(driver)))
}

#[test]
fn a_stream_comes_if_there_is_memory(rt: HostRuntime) -> Result<(), Fail> {
    let alloc = rt.alloc();
    let (refused, (link, count, same), seen) = driven(alloc, SETTINGS, pace(alloc), |driver| {
        comes(alloc, driver)
    })??;
    is_mixed(&rt, count);
    assert_eq!(rt; (refused, link, same), (true, Some(Link(1)), true));
    let wake = Some(Duration::from_secs(4));
    assert_eq!(rt; seen, (wake, Said::Nothing, Some(0), Some(Status::Inert)));
    Ok(())
}

// Whether the tested driver answers the claim of peer 1 without memory, and refuses its proof, at
// 100 s; what becomes of the proof at 1,001 ms; and what is seen then.
type Proved = ((bool, bool), (bool, usize, bool), Seen);

fn proves(alloc: Global, driver: &mut Driver<TestKey>) -> Result<Proved, Fail> {
    let mut memory = FailingAlloc::new(alloc)?;
    track(alloc, driver, "track 0 1,2", 0)?;
    driver.arrived(ipv4(1), at(1_000))?;
    memory.limit(alloc, 0)?;
    let claimed = driver.claimed(Link(1), TestKey(1), at(1_000));
    let refused = driver.proved(Link(1), TestKey(1), 0, at(100_000)).is_err();
    memory.lift();
    let proved = prove_it(alloc, &mut memory, driver)?;
    Ok(((claimed, refused), proved, seen(driver)))
}

#[test]
fn a_stream_is_proved_if_there_is_memory(rt: HostRuntime) -> Result<(), Fail> {
    let alloc = rt.alloc();
    let (answers, (proved, count, same), seen) = driven(alloc, SETTINGS, pace(alloc), |driver| {
        proves(alloc, driver)
    })??;
    is_mixed(&rt, count);
    assert_eq!(rt; (answers, proved, same), ((true, true), true, true));
    let wake = Some(Duration::from_millis(6_001));
    assert_eq!(rt;
        seen,
        (wake, Said::Sent(1), Some(0), Some(Status::Reserved))
    );
    Ok(())
}

// What becomes of a set without peer 1, which has a link of the tested driver; what is seen then;
// and whether the link ends without memory.
type Torn = ((Option<Tracked>, usize, bool), Seen, bool);

fn tears_down(alloc: Global, driver: &mut Driver<TestKey>) -> Result<Torn, Fail> {
    let mut memory = FailingAlloc::new(alloc)?;
    track(alloc, driver, "track 0 1,2", 0)?;
    prove(driver, 1, 1, 1_000)?;
    next(driver);
    let tracked = track_other(alloc, &mut memory, driver)?;
    let after = seen(driver);
    memory.limit(alloc, 0)?;
    let ended = driver.ended(Link(1), at(2_001));
    memory.lift();
    Ok((tracked, after, ended))
}

#[test]
fn a_set_is_tracked_if_there_is_memory(rt: HostRuntime) -> Result<(), Fail> {
    let alloc = rt.alloc();
    let ((tracked, count, same), seen, ended) = driven(alloc, SETTINGS, pace(alloc), |driver| {
        tears_down(alloc, driver)
    })??;
    is_mixed(&rt, count);
    assert_eq!(rt;
        (tracked, same, ended),
        (Some(Tracked::Accepted), true, true)
    );
    let (_, said, index, status) = seen;
    assert_eq!(rt;
        (said, index, status),
        (Said::Closed(1, Why::NoSet), Some(1), Some(Status::Reserved))
    );
    Ok(())
}
