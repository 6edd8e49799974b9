//! Sizes.

use crate::assertions::assert_same;
use p2p_discovery::codec::TestKey;
use p2p_discovery::sizing::{max_message_size, max_retained_peers, peer_set_limit, peer_set_size};
use std::num::NonZeroUsize;
use std::test::Fail;

#[test]
fn admits_the_greatest_message(rt: HostRuntime) {
    assert_same(&rt, max_message_size(&[]), 0);
    assert_same(&rt, max_message_size(&[0]), 0);
    assert_same(&rt, max_message_size(&[3, 7, 5]), 7);
    assert_same(&rt, max_message_size(&[0, 4_294_967_295]), u32::MAX);
}

#[test]
fn counts_the_local_peer_once(rt: HostRuntime) {
    let participants = [TestKey(1), TestKey(2)];
    assert_same(&rt, peer_set_limit(&participants, &TestKey(1)).get(), 2);
    assert_same(&rt, peer_set_limit(&participants, &TestKey(3)).get(), 3);
    assert_same(&rt, peer_set_limit(&[], &TestKey(3)).get(), 1);
    assert_same(
        &rt,
        peer_set_limit(&[TestKey(2), TestKey(2)], &TestKey(2)).get(),
        2,
    );
}

#[test]
fn bounds_retained_peers(rt: HostRuntime) -> Result<(), Fail> {
    let peers = NonZeroUsize::new(3).ok_or("0")?;
    let sets = NonZeroUsize::new(4).ok_or("0")?;
    let most = max_retained_peers(peers, sets, 2);
    assert_same(&rt, most.get(), 14);
    Ok(())
}

/// The number of peers that sizing finds in the sets [1, 3] and [2, 3], and one more if it is
/// given.
fn size_with(extension: Option<&TestKey>) -> usize {
    peer_set_size(
        &[TestKey(1), TestKey(3)],
        &[TestKey(2), TestKey(3)],
        extension,
    )
}

#[test]
fn counts_each_peer_once(rt: HostRuntime) {
    assert_same(&rt, size_with(None), 3);
    assert_same(&rt, size_with(Some(&TestKey(2))), 3);
    assert_same(&rt, size_with(Some(&TestKey(4))), 4);
}
