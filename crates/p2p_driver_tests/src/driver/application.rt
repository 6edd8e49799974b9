//! What an application tells a driver: blocks, partings and infos.

use p2p_discovery::codec::TestKey;
use p2p_driver::actions::{Event, Why};
use p2p_driver::driver::Driver;
use p2p_driver::link::Link;
use p2p_driver_fixtures::{
    SETTINGS, Said, admit, at, claim, driven, infos, list, next, next_two, open, pace, prove,
    sends, track,
};
use std::alloc::Global;
use std::test::Fail;
use std::time::Duration;

// Whether the tested driver takes the block of peer 1, which has greeted, at 3 s, and a second one;
// what is said; when the block ends; and whether the peer may come in 59,999 ms and 60 s after it,
// its link ended.
type Blocks = ([bool; 2], [Said; 2], Said, Option<Duration>, [bool; 2]);

fn blocks(alloc: Global, driver: &mut Driver<TestKey>) -> Result<Blocks, Fail> {
    open(alloc, driver, "track 0 1,2")?;
    let taken = [
        driver.block(&TestKey(1), at(3_000))?,
        driver.block(&TestKey(1), at(4_000))?,
    ];
    let said = next_two(driver);
    let silent = next(driver);
    let until = driver.node().next_unblock();
    driver.ended(Link(1), at(5_000));
    let (_, early) = claim(driver, 1, 1, 62_999)?;
    let (_, late) = claim(driver, 1, 1, 63_000)?;
    Ok((taken, said, silent, until, [early, late]))
}

// What is said of peer 1, which has greeted, when its link is closed so.
fn closed(why: Why) -> [Said; 2] {
    let down = Event::Down(Link(1), TestKey(1), Some(why));
    [Said::Closed(1, why), Said::Told(down)]
}

#[test]
fn who_is_blocked_is_closed_once(rt: HostRuntime) -> Result<(), Fail> {
    let alloc = rt.alloc();
    let found = driven(alloc, SETTINGS, pace(alloc), |driver| blocks(alloc, driver))??;
    assert_eq!(rt;
        found,
        (
            [true, false],
            closed(Why::Blocked),
            Said::Nothing,
            Some(Duration::from_secs(63)),
            [false, true],
        )
    );
    Ok(())
}

// Whether the tested driver takes blocks of peer 1, which hasn't greeted, of 2, which has no link,
// of 5, which is in no set, and of its own key; and what is said.
fn strangers(alloc: Global, driver: &mut Driver<TestKey>) -> Result<([bool; 4], [Said; 2]), Fail> {
    track(alloc, driver, "track 0 1,2", 0)?;
    prove(driver, 1, 1, 1_000)?;
    next(driver);
    let taken = [
        driver.block(&TestKey(1), at(2_000))?,
        driver.block(&TestKey(2), at(2_000))?,
        driver.block(&TestKey(5), at(2_000))?,
        driver.block(&TestKey(9), at(2_000))?,
    ];
    Ok((taken, next_two(driver)))
}

#[test]
fn who_has_no_link_is_blocked(rt: HostRuntime) -> Result<(), Fail> {
    let alloc = rt.alloc();
    let found = driven(alloc, SETTINGS, pace(alloc), |driver| {
        strangers(alloc, driver)
    })??;
    let said = [Said::Closed(1, Why::Blocked), Said::Nothing];
    assert_eq!(rt; found, ([true, true, true, false], said));
    Ok(())
}

// Whether peer 1 has a link that the tested driver parts from: before it comes, when it has
// greeted, twice, and once the link ended; and what is said.
type Parts = ([bool; 4], [Said; 2], Said);

fn parts(alloc: Global, driver: &mut Driver<TestKey>) -> Result<Parts, Fail> {
    let never = driver.part(&TestKey(1), at(0));
    open(alloc, driver, "track 0 1,2")?;
    let once = driver.part(&TestKey(1), at(3_000));
    let twice = driver.part(&TestKey(1), at(3_001));
    driver.ended(Link(1), at(3_002));
    let ended = driver.part(&TestKey(1), at(3_003));
    let said = next_two(driver);
    Ok(([never, once, twice, ended], said, next(driver)))
}

#[test]
fn who_is_parted_from_is_closed_once(rt: HostRuntime) -> Result<(), Fail> {
    let alloc = rt.alloc();
    let found = driven(alloc, SETTINGS, pace(alloc), |driver| parts(alloc, driver))??;
    let had = [false, true, true, false];
    assert_eq!(rt; found, (had, closed(Why::Application), Said::Nothing));
    Ok(())
}

// Whether peer 1 may come to the tested driver again once its cooldown is over, if it was parted
// from: nobody is blocked.
fn parted_comes(alloc: Global, driver: &mut Driver<TestKey>) -> Result<bool, Fail> {
    open(alloc, driver, "track 0 1,2")?;
    driver.part(&TestKey(1), at(3_000));
    driver.ended(Link(1), at(3_001));
    let (_, claimed) = claim(driver, 1, 1, 61_000)?;
    Ok(claimed)
}

#[test]
fn who_was_parted_from_may_come_again(rt: HostRuntime) -> Result<(), Fail> {
    let alloc = rt.alloc();
    let found = driven(alloc, SETTINGS, pace(alloc), |driver| {
        parted_comes(alloc, driver)
    })??;
    assert!(rt; found);
    Ok(())
}

// Whether the tested driver shares the info of peer 1, which greeted with one of 1 s, that the
// application had at 2 s; and what is said of that.
fn updates(
    alloc: Global,
    driver: &mut Driver<TestKey>,
    known: &'static str,
    shared: &'static str,
) -> Result<(Said, bool), Fail> {
    open(alloc, driver, "track 0 1,2")?;
    driver.update_peers(infos(alloc, &[known])?, at(3_000));
    let said = next(driver);
    admit(alloc, driver, &[2, 0, 2, 0], 4_000)?;
    let reply = list(alloc, &[shared])?;
    Ok((said, sends(driver, reply.as_slice())))
}

#[test]
fn an_info_of_the_application_is_shared_if_it_is_newer(rt: HostRuntime) -> Result<(), Fail> {
    let alloc = rt.alloc();
    for (known, shared) in [("1@2000:7", "1@2000:7"), ("1@900:7", "1@1000")] {
        let found = driven(alloc, SETTINGS, pace(alloc), |driver| {
            updates(alloc, driver, known, shared)
        })??;
        assert_eq!(rt; found, (Said::Nothing, true));
    }
    Ok(())
}
