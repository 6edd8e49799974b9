//! Lines of two nodes.

use crate::fault::Fault;
use crate::parse::{NAMESPACE, request};
use crate::requests::{Nodes, Request};
use p2p_directory::node::{NetworkCommand, PairCommand, Side};
use p2p_discovery::codec::TestKey;
use std::alloc::Global;

// Two nodes, `left` and `right`. A line without a name is for the left one.
#[derive(Clone, Copy)]
struct Sides;

impl Nodes for Sides {
    fn node_of(&self, name: &str) -> Option<usize> {
        match name {
            "left" => Some(0),
            "right" => Some(1),
            _ => None,
        }
    }

    fn latest_node(&self) -> usize {
        0
    }

    fn namespace_of(&self, _node: usize) -> &[u8] {
        NAMESPACE
    }
}

/// The command that the line requests of a pair of nodes, `left` and `right`.
pub fn command(alloc: Global, line: &str) -> Result<PairCommand<TestKey>, Fault> {
    match request(alloc, line, &Sides)? {
        Request::Command(command) => Ok(of_sides(command)),
        _ => Err(Fault::Form("a command to left or right")),
    }
}

// The command of a line for a pair of nodes, with these by their sides.
fn of_sides(command: NetworkCommand<TestKey>) -> PairCommand<TestKey> {
    match command {
        NetworkCommand::Call(node, command) => PairCommand::Call(side(node), command),
        NetworkCommand::Ask(node, place) => PairCommand::Ask(side(node), place),
        NetworkCommand::Frame(node, frame, now) => PairCommand::Frame(side(node), frame, now),
        NetworkCommand::Exchange {
            asker,
            replier: _,
            place,
            asker_now,
            replier_now,
        } => PairCommand::Exchange {
            asker: side(asker),
            place,
            asker_now,
            replier_now,
        },
    }
}

fn side(node: usize) -> Side {
    if node == 0 { Side::Left } else { Side::Right }
}
