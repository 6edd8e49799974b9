//! Prints worked examples of two nodes: one asks, the other replies.

ghost use Rattle.std.specs.Prelude.{◌<◌, ◌-◌, ◌^◌};
ghost use Rattle.std.specs.Int.NonZero.{non_zero_usize_get};

use crate::row::{Stop, print};
use lines::examples::exchanges::PARTS;
use lines::examples::{Part, all_lines};
use lines::{Line, pair_commands, setup};
use p2p_directory::node::{
    Exchanged, Node, PairCommand, PairReply, PairRun, Received, Setup, run_pair,
};
use p2p_directory::run::Reply;
use p2p_discovery::codec::TestKey;
use std::alloc::{AllocError, Global};
use std::io::Write;

/// Prints the row of exchanges of a pair of nodes, each part with new ones: each result of an
/// exchange.
pub fn exchanges<W: Write>(alloc: Global, out: &mut W) -> Result<(), Stop> {
    for part in &PARTS {
        print_part(alloc, part, out)?;
    }
    Ok(())
}

fn print_part<W: Write>(alloc: Global, part: &Part, out: &mut W) -> Result<(), Stop> {
    let left = setup(alloc, part.asker)?;
    let right = setup(alloc, part.replier)?;
    let lines = all_lines(alloc, part.prepared, part.steps)?;
    let commands = pair_commands(alloc, lines.as_slice())?;
    let replies = replies(alloc, left, right, commands)?;
    print_replies(part.prepared.len(), replies.as_slice(), out)
}

// Prints, for a row of a pair of nodes, a line for each reply from a position on.
fn print_replies<W: Write>(
    first: usize,
    replies: &[PairReply<TestKey>],
    out: &mut W,
) -> Result<(), Stop> {
    for (place, reply) in replies.iter().enumerate() {
        if is_out_of_memory(reply) {
            return Err(Stop::Memory);
        }
        if place >= first {
            print(out, &Line(reply))?;
        }
    }
    Ok(())
}

fn is_out_of_memory(reply: &PairReply<TestKey>) -> bool {
    match reply {
        PairReply::Call(Reply::OutOfMemory) | PairReply::OutOfMemory => true,
        PairReply::Frame(Received::Memory) | PairReply::Exchange(Exchanged::Memory) => true,
        _ => false,
    }
}

// The replies to the commands in a row of a pair of nodes. At the end all reservations are
// released.
fn replies(
    alloc: Global,
    left: Setup<TestKey>,
    right: Setup<TestKey>,
    commands: Vec<PairCommand<TestKey>>,
) -> Result<Vec<PairReply<TestKey>>, AllocError>
    requires left_sets { non_zero_usize_get left.cfg.max_sets < 2 ^ 64 - 1 }
    requires left_bits { left.payload.max_bit_vec < 2 ^ 32 }
    requires right_sets { non_zero_usize_get right.cfg.max_sets < 2 ^ 64 - 1 }
    requires right_bits { right.payload.max_bit_vec < 2 ^ 32 }
{
    let PairRun {
        left,
        right,
        replies,
    } = run_pair(alloc, left, right, commands)?;
    end(left);
    end(right);
    Ok(replies)
}

// Ends a node of the pair of a row, and drops its directory.
fn end(node: Node<TestKey>) {
    node.finish();
}
