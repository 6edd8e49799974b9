//! What a node tells without a command.

use crate::fixtures::found_by;
use p2p_directory::node::Node;
use p2p_discovery::codec::TestKey;
use std::alloc::AllocError;
use std::test::Fail;
use std::time::Duration;

// Lines after which two sets are retained, peer 1 is reserved, 2 was released, 3 is blocked, and an
// info of 1 is known.
const LINES: [&str; 7] = [
    "track 0 1,2 / 3",
    "track 1 1,2,3",
    "update 1@1000",
    "listen 2 90",
    "release 2",
    "listen 1 100",
    "block 3 60",
];

// Which of the peers 1 to 4 and 9, the own one, may listen by the tested node at so many seconds.
fn listeners(node: &Node<TestKey>, seconds: u64) -> [bool; 5] {
    let now = Duration::from_secs(seconds);
    [
        node.may_listen(&TestKey(1), now),
        node.may_listen(&TestKey(2), now),
        node.may_listen(&TestKey(3), now),
        node.may_listen(&TestKey(4), now),
        node.may_listen(&TestKey(9), now),
    ]
}

// The port of the address that the tested node holds of the peer, if it holds one.
fn port_of(node: &Node<TestKey>, peer: u64) -> Result<Option<u16>, AllocError> {
    Ok(node.ingress(&TestKey(peer))?.map(|ingress| ingress.port()))
}

// .. of the peers 1, 2, 4 and 9, the own one.
fn ports(node: &Node<TestKey>) -> Result<[Option<u16>; 4], AllocError> {
    Ok([
        port_of(node, 1)?,
        port_of(node, 2)?,
        port_of(node, 4)?,
        port_of(node, 9)?,
    ])
}

#[test]
fn a_node_tells_who_may_listen(rt: HostRuntime) -> Result<(), Fail> {
    let told = found_by(rt.alloc(), "max_sets=2", &LINES, |node| {
        [
            listeners(node, 99),
            listeners(node, 119),
            listeners(node, 120),
        ]
    })?;
    assert_eq!(rt;
        told,
        [
            [false, false, false, false, false],
            [false, true, false, false, false],
            [false, true, true, false, false],
        ]
    );
    Ok(())
}

#[test]
fn a_node_tells_addresses_and_what_it_keeps(rt: HostRuntime) -> Result<(), Fail> {
    let (ports, cooled, retained) = found_by(rt.alloc(), "max_sets=2", &LINES, |node| {
        (ports(node), node.next_cooled(), node.retained())
    })?;
    assert_eq!(rt;
        (ports?, cooled, retained),
        (
            [Some(8_001), None, None, Some(9_000)],
            Some(Duration::from_secs(100)),
            2
        )
    );
    Ok(())
}
