//! Queries: how much there is of a driver, whose link is which, and what of a link waits.

use p2p_discovery::codec::TestKey;
use p2p_driver::driver::{Counts, Driver};
use p2p_driver::link::Link;
use p2p_driver_fixtures::{SETTINGS, at, driven, greet, ipv4, next, next_two, pace, prove, track};
use std::alloc::Global;
use std::test::Fail;

// What the tested driver returns for queries: how much there is, the links of peers 1 and 2, and
// how many actions of links 1 and 2 wait.
type Seen = (Counts, [Option<Link>; 2], [usize; 2]);

fn seen(driver: &Driver<TestKey>) -> Seen {
    (
        driver.counts(),
        [driver.link_of(&TestKey(1)), driver.link_of(&TestKey(2))],
        [driver.pending(Link(1)), driver.pending(Link(2))],
    )
}

// At first; once streams 1 and 2 came, and 1 was proved to be peer 1's; once its greeting was
// taken; once it greeted; once the application parted from it; and once all was taken and it ended.
fn life(alloc: Global, driver: &mut Driver<TestKey>) -> Result<[Seen; 6], Fail> {
    let first = seen(driver);
    track(alloc, driver, "track 0 1,2", 0)?;
    prove(driver, 1, 1, 1_000)?;
    driver.arrived(ipv4(2), at(1_000))?;
    let proved = seen(driver);
    next(driver);
    let taken = seen(driver);
    let _ = greet(alloc, driver, "1@1000", 2_000)?;
    let greeted = seen(driver);
    driver.part(&TestKey(1), at(2_000));
    let parted = seen(driver);
    next_two(driver);
    next_two(driver);
    driver.ended(Link(1), at(2_000));
    Ok([first, proved, taken, greeted, parted, seen(driver)])
}

// So many streams, links and actions.
fn counts(arrivals: usize, links: usize, actions: usize) -> Counts {
    Counts {
        arrivals,
        links,
        actions,
    }
}

#[test]
fn queries_follow_a_life_of_a_link(rt: HostRuntime) -> Result<(), Fail> {
    let alloc = rt.alloc();
    let found = driven(alloc, SETTINGS, pace(alloc), |driver| life(alloc, driver))??;
    let linked = [Some(Link(1)), None];
    assert_eq!(rt;
        found,
        [
            (counts(0, 0, 0), [None, None], [0, 0]),
            (counts(1, 1, 1), linked, [1, 0]),
            (counts(1, 1, 0), linked, [0, 0]),
            (counts(1, 1, 2), linked, [2, 0]),
            (counts(1, 1, 4), linked, [4, 0]),
            (counts(1, 0, 0), [None, None], [0, 0]),
        ]
    );
    Ok(())
}
