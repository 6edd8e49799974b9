//! Places for links.

use p2p_discovery::codec::TestKey;
use p2p_driver::actions::Why;
use p2p_driver::driver::Driver;
use p2p_driver::link::Link;
use p2p_driver::pace::Pace;
use p2p_driver_fixtures::{SETTINGS, Said, at, claim, driven, next_two, pace, prove, track};
use std::alloc::Global;
use std::test::Fail;

// What is answered by the tested driver, which has one place, to a stream of peer 1, to the claim
// of 2 while that has a link, and to a second stream of 2 once it ended; and what is said until
// each of these.
type Places = (
    (u64, bool, bool),
    (u64, bool),
    [Said; 2],
    bool,
    (u64, bool, bool),
    [Said; 2],
);

fn places(alloc: Global, driver: &mut Driver<TestKey>) -> Result<Places, Fail> {
    track(alloc, driver, "track 0 1,2", 0)?;
    let first = prove(driver, 1, 1, 1_000)?;
    let second = claim(driver, 2, 2, 1_001)?;
    let said = next_two(driver);
    let ended = driver.ended(Link(1), at(1_002));
    let third = prove(driver, 2, 2, 1_003)?;
    Ok((first, second, said, ended, third, next_two(driver)))
}

// The settings of a tested driver with one place, and so many inbound ones.
fn narrow(alloc: Global, links: usize) -> Pace {
    let mut pace = pace(alloc);
    pace.links = links;
    pace.inbound = 1;
    pace.outbound = 1;
    pace
}

#[test]
fn a_peer_without_a_place_is_not_granted(rt: HostRuntime) -> Result<(), Fail> {
    let alloc = rt.alloc();
    let expected = (
        (1, true, true),
        (2, false),
        [Said::Sent(1), Said::Closed(2, Why::NotGranted)],
        true,
        (3, true, true),
        [Said::Sent(3), Said::Nothing],
    );
    for links in [1usize, 4] {
        let pace = narrow(alloc, links);
        let found = driven(alloc, SETTINGS, pace, |driver| places(alloc, driver))??;
        assert_eq!(rt; found, expected);
    }
    Ok(())
}

// What is answered by the tested driver to two streams that both claim to be peer 1's, to the proof
// of the second, and then to that of the first; and to the claim of a third; and what is said.
type Rivals = (
    [(u64, bool); 2],
    [bool; 2],
    (u64, bool),
    [Said; 2],
    [Said; 2],
);

fn rivals(alloc: Global, driver: &mut Driver<TestKey>) -> Result<Rivals, Fail> {
    track(alloc, driver, "track 0 1,2", 0)?;
    let claims = [claim(driver, 1, 1, 1_000)?, claim(driver, 2, 1, 1_000)?];
    let proofs = [
        driver.proved(Link(2), TestKey(1), 0, at(1_001))?,
        driver.proved(Link(1), TestKey(1), 0, at(1_001))?,
    ];
    let third = claim(driver, 3, 1, 1_002)?;
    let said = next_two(driver);
    Ok((claims, proofs, third, said, next_two(driver)))
}

#[test]
fn a_peer_has_one_link(rt: HostRuntime) -> Result<(), Fail> {
    let alloc = rt.alloc();
    let found = driven(alloc, SETTINGS, pace(alloc), |driver| rivals(alloc, driver))??;
    assert_eq!(rt;
        found,
        (
            [(1, true), (2, true)],
            [true, false],
            (3, false),
            [Said::Sent(2), Said::Closed(1, Why::NotGranted)],
            [Said::Closed(3, Why::NotGranted), Said::Nothing],
        )
    );
    Ok(())
}
