//! A node keeps no room for a peer of whom it holds nothing, however often calls are refused.

use crate::fixtures::found_by;
use crate::node::hundred;
use failing_alloc::FailingAlloc;
use p2p_directory::node::Node;
use p2p_directory::run::{Command, Reply};
use p2p_discovery::codec::TestKey;
use std::alloc::Global;
use std::test::Fail;
use std::time::Duration;

const ROUNDS: u64 = 10_000;

// Memory for a few slots.
const FEW: usize = 32_768;

// Whether an inbound stranger and a dialled one are refused by commands, for which the tested node
// should keep no slots.
fn refused_by_commands(node: &mut Node<TestKey>, peer: TestKey) -> bool {
    let (now, draw) = (hundred(), Duration::ZERO);
    let listened = node.step(Command::Listen { peer, now, draw });
    let dialled = node.step(Command::Dial { peer, now, draw });
    matches!(
        (listened, dialled),
        (Reply::Listen(false), Reply::Dial(false))
    )
}

// Whether an inbound stranger and a dialled one are refused by calls, for which the tested node
// should keep no slots.
fn refused_by_calls(node: &mut Node<TestKey>, peer: TestKey) -> bool {
    let listened = node.listen(&peer, hundred(), Duration::ZERO);
    let dialled = node.dial(&peer, hundred(), Duration::ZERO);
    matches!(
        (listened, dialled),
        (Reply::Listen(false), Reply::Dial(false))
    )
}

// Counts the rounds of the test of slots in which a stranger is refused, another one in each.
fn refuses(node: &mut Node<TestKey>) -> u64 {
    let mut done = 0u64;
    for round in 0..ROUNDS {
        let peer = TestKey(10 + round);
        let refused = if round % 2 == 0 {
            refused_by_commands(node, peer)
        } else {
            refused_by_calls(node, peer)
        };
        if refused {
            done = done.saturating_add(1);
        }
    }
    done
}

fn refuses_within_few(alloc: Global, node: &mut Node<TestKey>) -> Result<u64, Fail> {
    let mut memory = FailingAlloc::new(alloc)?;
    memory.limit(alloc, FEW)?;
    let done = refuses(node);
    memory.lift();
    Ok(done)
}

#[test]
fn a_node_keeps_no_slot_of_whom_it_refused(rt: HostRuntime) -> Result<(), Fail> {
    let alloc = rt.alloc();
    let done = found_by(alloc, "", &[], |node| refuses_within_few(alloc, node))??;
    assert_eq!(rt; done, ROUNDS);
    Ok(())
}
