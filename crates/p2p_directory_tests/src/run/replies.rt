//! What replies say they are.

use crate::fixtures::found_by;
use lines::command;
use p2p_directory::node::Node;
use p2p_directory::run::Reply;
use p2p_discovery::codec::TestKey;
use std::test::Fail;
use std::time::Duration;

// Whether replies of a tested node say that peer 1 is granted, and once only, and that peer 2 is
// blocked, and once only.
fn grants_and_blocks(node: &mut Node<TestKey>) -> bool {
    let (one, two) = (TestKey(1), TestKey(2));
    let now = Duration::from_secs(100);
    let grants = node.listen(&one, now, Duration::ZERO).granted() == Some(true)
        && node.dial(&one, now, Duration::ZERO).granted() == Some(false)
        && node.connect(&one, false).granted().is_none();
    let blocks = node.block(&two, now).blocked() == Some(true)
        && node.block(&two, now).blocked() == Some(false)
        && node.release(&two).blocked().is_none();
    grants && blocks
}

// How many peers a tested reply tears down, if it is one to a track that was accepted.
fn torn(reply: Reply<TestKey>) -> Option<usize> {
    match reply.torn() {
        Some(Some(peers)) => Some(peers.len()),
        _ => None,
    }
}

#[test]
fn replies_say_what_they_are(rt: HostRuntime) -> Result<(), Fail> {
    let alloc = rt.alloc();
    let (later, older) = (command(alloc, "track 1 3")?, command(alloc, "track 0 3")?);
    let told = found_by(alloc, "", &["track 0 1,2"], |node| {
        let is_told = grants_and_blocks(node);
        is_told && torn(node.step(later)) == Some(1) && torn(node.step(older)).is_none()
    })?;
    let out = Reply::<TestKey>::OutOfMemory.is_out_of_memory();
    assert!(rt; told && out && !Reply::<TestKey>::NotHeld.is_out_of_memory());
    Ok(())
}
