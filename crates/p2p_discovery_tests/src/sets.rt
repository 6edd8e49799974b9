//! Ordered sets of peers.

use crate::assertions::{assert_same, assert_same_for};
use crate::out_of_memory::{STEPS, Tally};
use failing_alloc::{FailingAlloc, STEP};
use p2p_discovery::codec::TestKey;
use p2p_discovery::sets::{OrderedSet, SetError};
use std::alloc::{AllocError, Global};
use std::test::Fail;

mod bit_map;
mod bit_set;

fn keys(alloc: Global, numbers: &[u64]) -> Result<Vec<TestKey>, AllocError> {
    let mut keys = Vec::with_capacity(alloc, numbers.len())?;
    for number in numbers {
        keys.push(TestKey(*number))?;
    }
    Ok(keys)
}

#[test]
fn holds_each_item_once_in_order(rt: HostRuntime) -> Result<(), Fail> {
    let alloc = rt.alloc();
    let set = OrderedSet::from_iter_dedup(alloc, [3, 1, 2, 1].into_iter().map(TestKey))?;
    assert_same(
        &rt,
        set.as_slice(),
        [TestKey(1), TestKey(2), TestKey(3)].as_slice(),
    );
    assert_same(&rt, set.len(), 3);
    assert!(rt; !set.is_empty());
    assert_same(&rt, set.position(&TestKey(3)), Some(2));
    assert_same(&rt, set.position(&TestKey(0)), None);
    assert_same(&rt, set.iter().next(), Some(&TestKey(1)));
    let copy = set.clone()?;
    assert_same(&rt, copy.as_slice(), set.as_slice());
    let walked: Vec<TestKey> = set.iter().copied().collect(alloc)?;
    assert_same(&rt, walked.as_slice(), set.as_slice());
    if set.len() > 1 {
        assert_same(&rt, set[1], TestKey(2));
    }
    Ok(())
}

#[test]
fn is_empty_without_items(rt: HostRuntime) -> Result<(), Fail> {
    let set: OrderedSet<TestKey> = OrderedSet::from_iter_dedup(rt.alloc(), None.into_iter())?;
    assert!(rt; set.is_empty());
    assert_same(&rt, set.len(), 0);
    assert_same(&rt, set.iter().next(), None);
    Ok(())
}

#[test]
fn a_list_with_a_repeat_is_no_set(rt: HostRuntime) -> Result<(), Fail> {
    let alloc = rt.alloc();
    match OrderedSet::try_from(keys(alloc, &[3, 1, 2])?) {
        Ok(set) => assert_same(
            &rt,
            set.as_slice(),
            [TestKey(1), TestKey(2), TestKey(3)].as_slice(),
        ),
        Err(SetError::Duplicate) => panic!(rt; "no item comes twice"),
    }
    let repeated = OrderedSet::try_from(keys(alloc, &[1, 2, 1])?);
    assert!(rt; matches!(repeated, Err(SetError::Duplicate)));
    Ok(())
}

#[test]
fn the_difference_leaves_out_the_peers_of_another_set(rt: HostRuntime) -> Result<(), Fail> {
    let alloc = rt.alloc();
    let set = OrderedSet::from_iter_dedup(alloc, [4, 1, 3, 2].into_iter().map(TestKey))?;
    let other = OrderedSet::from_iter_dedup(alloc, [3, 5, 1].into_iter().map(TestKey))?;
    assert_same(
        &rt,
        set.difference(&other)?.as_slice(),
        [TestKey(2), TestKey(4)].as_slice(),
    );
    assert_same(
        &rt,
        other.difference(&set)?.as_slice(),
        [TestKey(5)].as_slice(),
    );
    assert!(rt; set.difference(&set)?.is_empty());
    Ok(())
}

#[test]
fn a_copy_is_whole_or_refused_for_memory(rt: HostRuntime) -> Result<(), Fail> {
    let alloc = rt.alloc();
    let whole = OrderedSet::from_iter_dedup(alloc, (0..150).map(TestKey))?;
    let mut memory = FailingAlloc::new(alloc)?;
    let mut tally = Tally::EMPTY;
    for step in 0..STEPS {
        memory.limit(alloc, step.saturating_mul(STEP))?;
        let made = whole.clone();
        memory.lift();
        tally.count(made.is_err());
        if let Ok(set) = made {
            assert_same_for(&rt, set.as_slice(), whole.as_slice(), step);
        }
    }
    tally.is_mixed(&rt);
    Ok(())
}
