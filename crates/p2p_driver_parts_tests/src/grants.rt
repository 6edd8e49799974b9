//! Grants of dials: which are kept, whose cooldown is over first, and when.

use failing_alloc::{FailingAlloc, STEP};
use p2p_discovery::codec::TestKey;
use p2p_driver::grants::Grants;
use p2p_driver::links::{Direction, Links};
use std::alloc::{AllocError, Global};
use std::process::Abort;
use std::test::Fail;
use std::time::Duration;

// When the dials of peers were granted, in milliseconds.
static GRANTED: [(u64, u64); 3] = [(70, 2_000), (50, 4_000), (60, 1_000)];

// These grants, and a link of peer 60, which took over none: its dial is under way.
fn granted(
    alloc: Global,
    grants: &mut Grants<TestKey>,
    links: &mut Links<TestKey>,
) -> Result<(), AllocError> {
    for (peer, millis) in &GRANTED {
        grants.put(TestKey(*peer), Duration::from_millis(*millis))?;
    }
    begin(links, 60, 1)
}

// Keeps a link of a peer, if it has none and no other link has the number.
fn begin(links: &mut Links<TestKey>, peer: u64, number: u64) -> Result<(), AllocError> {
    let key = TestKey(peer);
    let None = links.get(&key) else {
        return Ok(());
    };
    let None = links.find(number) else {
        return Ok(());
    };
    links.put(key, number, Direction::TakenOver, Duration::from_secs(9))
}

// When the grant of each peer was made, in milliseconds, and when that which is kept of it was.
type Made = ([Option<u128>; 4], [Option<u128>; 4]);

fn millis(moment: Option<Duration>) -> Option<u128> {
    moment.map(|moment| moment.as_millis())
}

fn made(grants: &Grants<TestKey>, links: &Links<TestKey>) -> Made {
    (
        [50, 60, 70, 80].map(|peer| millis(grants.get(&TestKey(peer)))),
        [50, 60, 70, 80].map(|peer| millis(grants.kept(links, &TestKey(peer)))),
    )
}

// What is kept at first; once the grant of peer 70 was made anew and that of 50 is gone; and once
// that of a peer without one is.
fn keeps(alloc: Global) -> Result<[Made; 3], AllocError> {
    let mut links = Links::new(alloc);
    let mut grants = Grants::new(alloc);
    granted(alloc, &mut grants, &mut links)?;
    let first = made(&grants, &links);
    grants.put(TestKey(70), Duration::from_millis(5_000))?;
    grants.remove(&TestKey(50));
    let second = made(&grants, &links);
    grants.remove(&TestKey(80));
    Ok([first, second, made(&grants, &links)])
}

#[test]
fn a_grant_is_kept_of_a_peer_without_a_link(rt: HostRuntime) -> Result<(), Fail> {
    let found = keeps(rt.alloc())?;
    let first = (
        [Some(4_000), Some(1_000), Some(2_000), None],
        [Some(4_000), None, Some(2_000), None],
    );
    let second = (
        [None, Some(1_000), Some(5_000), None],
        [None, None, Some(5_000), None],
    );
    assert_eq!(rt; found, [first, second, second]);
    Ok(())
}

// The first peer of which a grant is kept whose cooldown of 10 s is over at these times, in
// milliseconds; and when the first such is over.
type Cooled = ([Option<TestKey>; 5], Option<u128>);

fn cooled(grants: &Grants<TestKey>, links: &Links<TestKey>) -> Cooled {
    let cooldown = Duration::from_secs(10);
    let first = [0, 11_999, 12_000, 13_999, 14_000].map(|now| grants.first_cooled(
        links,
        cooldown,
        Duration::from_millis(now),
    ));
    (first, grants.next_cooled(links, cooldown))
}

// .. of three grants, of which that of peer 60 isn't kept; without that of 70; and of none.
fn cools(alloc: Global) -> Result<[Cooled; 3], AllocError> {
    let mut links = Links::new(alloc);
    let mut grants = Grants::new(alloc);
    granted(alloc, &mut grants, &mut links)?;
    let three = cooled(&grants, &links);
    grants.remove(&TestKey(70));
    let two = cooled(&grants, &links);
    grants.remove(&TestKey(50));
    Ok([three, two, cooled(&grants, &links)])
}

#[test]
fn the_first_cooldown_that_is_over_is_of_a_kept_grant(rt: HostRuntime) -> Result<(), Fail> {
    let found = cools(rt.alloc())?;
    let seventy = Some(TestKey(70));
    let fifty = Some(TestKey(50));
    let three = ([None, None, seventy, seventy, fifty], Some(12_000_000_000));
    let two = ([None, None, None, None, fifty], Some(14_000_000_000));
    let none = ([None, None, None, None, None], None);
    assert_eq!(rt; found, [three, two, none]);
    Ok(())
}

// So often a grant is tried to be kept with a step more of memory.
const STEPS: usize = 2_048;

// Keeps a grant with more and more memory until that isn't refused. Returns how often it was, and
// whether nothing was kept until then, and the grant is.
fn famine(alloc: Global) -> Result<(usize, bool, Option<Duration>), AllocError> {
    let mut memory = FailingAlloc::new(alloc)?;
    let mut grants = Grants::new(alloc);
    let mut same = true;
    for step in 0..STEPS {
        memory.limit(alloc, step.saturating_mul(STEP))?;
        let kept = grants.put(TestKey(70), Duration::from_secs(2)).is_ok();
        memory.lift();
        if kept {
            return Ok((step, same, grants.get(&TestKey(70))));
        }
        same = same && grants.get(&TestKey(70)).is_none();
    }
    Ok((STEPS, same, None))
}

#[test]
fn a_grant_is_kept_if_there_is_memory(rt: HostRuntime) -> Result<(), Fail> {
    let (steps, same, kept) = famine(rt.alloc())?;
    assert!(rt; 0 < steps && steps < STEPS && same);
    assert_eq!(rt; kept, Some(Duration::from_secs(2)));
    Ok(())
}
