//! Sets that come, and the links of peers that no set has any more.

use p2p_discovery::codec::TestKey;
use p2p_driver::actions::Why;
use p2p_driver::driver::{Driver, Tracked};
use p2p_driver::link::Link;
use p2p_driver_fixtures::{
    SETTINGS, Said, at, claim, driven, ipv4, next, next_two, pace, prove, track,
};
use std::alloc::Global;
use std::test::Fail;
use std::time::Duration;

// The answers of the tested driver, which has links of 1 and 2, to sets that come: one without
// peer 1, and the same with another index; what is said of each; whether the link of 1 ended, and
// what is said; and a third set, without 2.
type Sets = (
    [Option<Tracked>; 2],
    [Said; 2],
    (Option<Tracked>, Said),
    (bool, Said),
    (Option<Tracked>, [Said; 2]),
);

fn sets(alloc: Global, driver: &mut Driver<TestKey>) -> Result<Sets, Fail> {
    let first = track(alloc, driver, "track 0 1,2", 0)?;
    prove(driver, 1, 1, 1_000)?;
    prove(driver, 2, 2, 1_000)?;
    next_two(driver);
    let second = track(alloc, driver, "track 1 2,3", 2_000)?;
    let said = next_two(driver);
    let third = track(alloc, driver, "track 2 2,3", 3_000)?;
    let silent = next(driver);
    let ended = (driver.ended(Link(1), at(3_001)), next(driver));
    let last = track(alloc, driver, "track 3 3", 4_000)?;
    Ok((
        [first, second],
        said,
        (third, silent),
        ended,
        (last, next_two(driver)),
    ))
}

#[test]
fn a_peer_that_is_in_no_set_is_closed_once(rt: HostRuntime) -> Result<(), Fail> {
    let alloc = rt.alloc();
    let found = driven(alloc, SETTINGS, pace(alloc), |driver| sets(alloc, driver))??;
    let accepted = Some(Tracked::Accepted);
    assert_eq!(rt;
        found,
        (
            [accepted, accepted],
            [Said::Closed(1, Why::NoSet), Said::Nothing],
            (accepted, Said::Nothing),
            (true, Said::Nothing),
            (accepted, [Said::Closed(2, Why::NoSet), Said::Nothing]),
        )
    );
    Ok(())
}

// The answers of the tested driver, which has a link of peer 1 and reads lists of 2 peers, to sets
// without it, 30 s later: of the latest index, of an earlier one, and of 3 peers; what is said;
// when it wakes, before and after; whether peer 3 of these sets may come, at an earlier time; and
// when it wakes for a stream that comes then.
type Refused = (
    [Option<Tracked>; 3],
    [Said; 2],
    [Option<Duration>; 2],
    (u64, bool),
    Option<Duration>,
);

fn refused(alloc: Global, driver: &mut Driver<TestKey>) -> Result<Refused, Fail> {
    track(alloc, driver, "track 5 1,2", 0)?;
    prove(driver, 1, 1, 1_000)?;
    let before = driver.next_timeout();
    let answers = [
        track(alloc, driver, "track 5 2,3", 30_000)?,
        track(alloc, driver, "track 4 2,3", 30_000)?,
        track(alloc, driver, "track 6 2,3,4", 30_000)?,
    ];
    let said = next_two(driver);
    let after = driver.next_timeout();
    let stranger = claim(driver, 1, 3, 1_001)?;
    driver.arrived(ipv4(1), at(1_002))?;
    let earlier = driver.next_timeout();
    Ok((answers, said, [before, after], stranger, earlier))
}

#[test]
fn a_set_that_is_refused_changes_nothing(rt: HostRuntime) -> Result<(), Fail> {
    let alloc = rt.alloc();
    let settings = "cooldown=60 max_bit_vec=2";
    let found = driven(
        alloc,
        settings,
        pace(alloc),
        |driver| refused(alloc, driver),
    )??;
    let wake = Some(Duration::from_secs(6));
    assert_eq!(rt;
        found,
        (
            [
                Some(Tracked::Stale),
                Some(Tracked::Stale),
                Some(Tracked::TooLarge),
            ],
            [Said::Sent(1), Said::Nothing],
            [wake, wake],
            (2, false),
            Some(Duration::from_millis(4_002)),
        )
    );
    Ok(())
}

// The answer of the tested driver, which reads lists of 2 peers, to a set of 2 primary peers and 2
// secondary ones, and whether one of the latter may come.
fn roles(alloc: Global, driver: &mut Driver<TestKey>) -> Result<(Option<Tracked>, bool), Fail> {
    let tracked = track(alloc, driver, "track 0 1,2 / 3,4", 0)?;
    let (_, claimed) = claim(driver, 1, 4, 1_000)?;
    Ok((tracked, claimed))
}

#[test]
fn only_primary_peers_count(rt: HostRuntime) -> Result<(), Fail> {
    let alloc = rt.alloc();
    let settings = "cooldown=60 max_bit_vec=2";
    let found = driven(alloc, settings, pace(alloc), |driver| roles(alloc, driver))??;
    assert_eq!(rt; found, (Some(Tracked::Accepted), true));
    Ok(())
}
