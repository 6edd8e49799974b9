//! Questions for the wanted infos of a set, and for all of them.

use crate::fixtures::found_by;
use bytes::Bytes;
use p2p_directory::node::Node;
use p2p_discovery::codec::TestKey;
use std::alloc::AllocError;
use std::test::Fail;

// Whether a tested question is this frame.
fn is_frame(asked: Result<Option<Bytes>, AllocError>, bytes: &[u8]) -> bool {
    match asked {
        Ok(Some(frame)) => frame.as_slice() == bytes,
        _ => false,
    }
}

// Whether the tested node asks for the info of peer 2 alone, or also for that of peer 1, but never
// for its own, and not for a set that isn't there.
fn asks(node: &Node<TestKey>) -> bool {
    is_frame(node.ask(0), &[2, 0, 3, 5])
        && is_frame(node.ask_all(0), &[2, 0, 3, 4])
        && matches!(node.ask_all(1), Ok(None))
}

#[test]
fn a_full_question_asks_for_all_others(rt: HostRuntime) -> Result<(), Fail> {
    let alloc = rt.alloc();
    let told = found_by(
        alloc,
        "",
        &["track 0 1,2,9", "update 1@5"],
        |node| asks(node),
    )?;
    assert!(rt; told);
    Ok(())
}
