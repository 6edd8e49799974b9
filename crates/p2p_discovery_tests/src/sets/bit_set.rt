//! Peers with a bit for each.

use crate::assertions::assert_same;
use p2p_discovery::codec::TestKey;
use p2p_discovery::sets::{BitMap, BitSet, OrderedSet};
use std::alloc::{AllocError, Global};
use std::test::Fail;

/// The bit set of the tests, of the peers 1, 2 and 3, none of them known.
fn three(alloc: Global) -> Result<BitSet<TestKey>, AllocError> {
    let peers = OrderedSet::from_iter_dedup(alloc, [3, 1, 2].into_iter().map(TestKey))?;
    BitSet::new(alloc, peers)
}

#[test]
fn changes_the_bit_at_a_place(rt: HostRuntime) -> Result<(), Fail> {
    let alloc = rt.alloc();
    let mut set = three(alloc)?;
    assert!(rt; set.update_at(1, true));
    assert!(rt; !set.update_at(10, true));
    let want = BitMap::from_bools(alloc, &[false, true, false])?;
    assert!(rt; set.knowledge()? == want);
    Ok(())
}

// The bits after the one of the second peer was set, and after it was cleared again.
fn set_and_cleared(set: &mut BitSet<TestKey>) -> Result<[BitMap; 2], AllocError> {
    set.update(&TestKey(2), true);
    let bits = set.clone()?.knowledge()?;
    set.update(&TestKey(2), false);
    Ok([bits, set.knowledge()?])
}

#[test]
fn changes_the_bit_of_a_peer(rt: HostRuntime) -> Result<(), Fail> {
    let alloc = rt.alloc();
    let mut set = three(alloc)?;
    let want = [
        BitMap::from_bools(alloc, &[false, true, false])?,
        BitMap::zeroes(alloc, 3)?,
    ];
    assert!(rt; set_and_cleared(&mut set)? == want);
    assert!(rt; set.update(&TestKey(3), true) && !set.update(&TestKey(4), true));
    Ok(())
}

#[test]
fn walks_the_peers_of_bits_in_order(rt: HostRuntime) -> Result<(), Fail> {
    let set = three(rt.alloc())?;
    assert_same(&rt, set.ordered().position(&TestKey(3)), Some(2));
    let mut walked = Vec::new(rt.alloc());
    for peer in &set {
        walked.push(*peer)?;
    }
    assert_same(
        &rt,
        walked.as_slice(),
        [TestKey(1), TestKey(2), TestKey(3)].as_slice(),
    );
    if set.len() > 1 {
        assert_same(&rt, set[1], TestKey(2));
    }
    Ok(())
}
