//! What a function says that is lent a node.

ghost use Rattle.std.specs.Prelude.{◌≡◌, true, Some};
ghost use Rattle.p2p_tracker.specs.Answers.{status_in};
ghost use Rattle.p2p_directory.specs.Nodes.{StandsSomewhere, made_of};
ghost use Rattle.p2p_directory.specs.Run.{call_of, next, world_after};

use crate::fixtures::found_by;
use p2p_directory::node::Node;
use p2p_directory::record::Status;
use p2p_directory::run::{Command, Reply};
use p2p_discovery::codec::{PublicKey, TestKey};
use std::test::Fail;
use std::time::Duration;

// Dials a peer by a node that is lent to the test, and returns the reply and how the peer stands
// then: reserved if the dial was granted. It is the status in the world to which the accepted calls
// lead, with the dial.
fn dial_and_look<C: PublicKey>(
    node: &mut Node<C>,
    peer: &C,
    now: Duration,
    draw: Duration,
) -> (Reply<C>, Option<Status>)
    ensures reserved { result.0 ≡ Reply.Dial true → result.1 ≡ Some Status.Reserved }
    ensures seen { (before : StandsSomewhere C.cmp node.old)
        × (let s = (made_of C.cmp before.given).directory in
        let dial = call_of (Command.Dial peer.now now draw) in
        result.1 ≡ status_in s (world_after s (next s before.calls dial result.0)) peer.now) }
{
    node.stands();
    let reply = node.dial(peer, now, draw);
    let status = node.status(peer);
    (reply, status)
}

// Whether the lent node of the test grants a dial of the peer at 100 s, `None` if it replies
// otherwise, and how the peer stands then.
fn dialled(node: &mut Node<TestKey>, peer: u64) -> (Option<bool>, Option<Status>) {
    let now = Duration::from_secs(100);
    match dial_and_look(node, &TestKey(peer), now, Duration::ZERO) {
        (Reply::Dial(granted), status) => (Some(granted), status),
        (_, status) => (None, status),
    }
}

#[test]
fn a_lent_node_says_whom_it_reserves(rt: HostRuntime) -> Result<(), Fail> {
    let alloc = rt.alloc();
    let dialled = found_by(alloc, "", &["track 0 1,2", "update 1@5"], |node| {
        [
            dialled(node, 1),
            dialled(node, 1),
            dialled(node, 2),
            dialled(node, 3),
        ]
    })?;
    let reserved = Some(Status::Reserved);
    assert_eq!(rt;
        dialled,
        [
            (Some(true), reserved),
            (Some(false), reserved),
            (Some(false), Some(Status::Inert)),
            (Some(false), None),
        ]
    );
    Ok(())
}
