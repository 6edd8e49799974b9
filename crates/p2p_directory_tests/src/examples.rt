//! The examples that the documentation of the most used calls of a node links to.

use crate::fixtures::found_by;
use bytes::Bytes;
use lines::{command, info};
use p2p_directory::node::{Node, Received};
use p2p_directory::record::Status;
use p2p_directory::run::{Command, Reply};
use p2p_discovery::codec::{TestKey, Write};
use std::alloc::Global;
use std::test::Fail;
use std::time::Duration;

// A tested example of a directory's node, which returns the frame to send in reply to a frame, if
// any.
fn answer(node: &mut Node<TestKey>, frame: Bytes, now: Duration) -> Option<Bytes> {
    match node.receive(frame, now) {
        Received::Reply(infos) => Some(infos),
        // Close the connection: the peer violates the protocol.
        Received::Codec(_) | Received::Malformed | Received::Invalid(_) => None,
        // Out of memory. Nothing has changed: pass the frame in again later.
        Received::Memory => None,
        Received::Data(_) | Received::Greeted(_) | Received::Applied(_) => None,
    }
}

// A tested example of a directory's node, which accepts an inbound peer, and returns whether it is
// accepted.
fn admit(node: &mut Node<TestKey>, peer: TestKey, now: Duration, draw: Duration) -> bool {
    match node.step(Command::Listen { peer, now, draw }) {
        Reply::Listen(true) => true,
        // The peer is refused, or an allocation failed. Nothing has changed.
        _ => false,
    }
}

// A greeting frame of peer 1 for the tested examples of a directory's node.
fn greeting(alloc: Global) -> Result<Bytes, Fail> {
    let mut bytes = [1].as_slice().to_vec(alloc)?;
    bytes.extend_from_slice(info(alloc, "1@5")?.encode(alloc)?.as_slice())?;
    Ok(Bytes::from_vec(bytes)?)
}

// Whether the tested node takes the set, admits peer 1 and not 3, and is greeted, and its reply to a
// question.
fn admits_and_answers(
    node: &mut Node<TestKey>,
    set: Command<TestKey>,
    greets: Bytes,
) -> (bool, Option<Bytes>) {
    let now = Duration::from_secs(100);
    let is_taken = matches!(node.step(set), Reply::Track(Some(_)));
    let is_in = admit(node, TestKey(1), now, Duration::ZERO);
    let is_out = !admit(node, TestKey(3), now, Duration::ZERO);
    let is_greeted = answer(node, greets, now).is_none();
    let is_reserved = node.directory().status(&TestKey(1)) == Some(Status::Reserved);
    let told = answer(node, Bytes::from_static(b"\x02\0\x02\0"), now);
    (
        is_taken && is_in && is_out && is_greeted && is_reserved,
        told,
    )
}

#[test]
fn a_peer_is_admitted_and_answered(rt: HostRuntime) -> Result<(), Fail> {
    let alloc = rt.alloc();
    let set = command(alloc, "track 0 1,2")?;
    let greets = greeting(alloc)?;
    let (is_admitted, told) = found_by(alloc, "", &[], |node| {
        admits_and_answers(node, set, greets)
    })?;
    assert!(rt; is_admitted);
    // No peer is connected, so no info is returned.
    assert!(rt; told.is_some_and(|frame| frame.as_slice() == b"\x03\x00".as_slice()));
    Ok(())
}
