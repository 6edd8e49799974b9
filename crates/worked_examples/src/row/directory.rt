//! Prints worked examples of the calls of a directory.

ghost use Rattle.std.specs.Prelude.{◌<◌, ◌-◌, ◌^◌};
ghost use Rattle.std.specs.Int.NonZero.{non_zero_usize_get};

use crate::row::{Stop, print};
use lines::examples::{Row, all_lines};
use lines::{Line, commands, setup};
use p2p_directory::node::Setup;
use p2p_directory::run::{Command, Reply, run};
use p2p_discovery::codec::TestKey;
use std::alloc::{AllocError, Global};
use std::io::Write;
use std::mem::replace;

/// Prints a row of a directory's calls: does the preparation and then the steps, and prints a line
/// for the reply to each step.
pub fn print_row<W: Write>(alloc: Global, row: &Row, out: &mut W) -> Result<(), Stop> {
    let setup = setup(alloc, row.settings)?;
    let lines = all_lines(alloc, row.prepared, row.steps)?;
    let commands = commands(alloc, lines.as_slice())?;
    let replies = replies(alloc, setup, commands)?;
    print_replies(row.prepared.len(), replies.as_slice(), out)
}

// Prints, for a row of a directory's calls, a line for each reply from a position on.
fn print_replies<W: Write>(
    first: usize,
    replies: &[Reply<TestKey>],
    out: &mut W,
) -> Result<(), Stop> {
    for (place, reply) in replies.iter().enumerate() {
        if let Reply::OutOfMemory = reply {
            return Err(Stop::Memory);
        }
        if place >= first {
            print(out, &Line(reply))?;
        }
    }
    Ok(())
}

// The replies to the commands in a row of a directory's calls. At the end all reservations are
// released.
fn replies(
    alloc: Global,
    setup: Setup<TestKey>,
    commands: Vec<Command<TestKey>>,
) -> Result<Vec<Reply<TestKey>>, AllocError>
    requires { non_zero_usize_get setup.cfg.max_sets < 2 ^ 64 - 1 }
{
    let Setup {
        bootstrappers,
        myself,
        cfg,
        ..
    } = setup;
    let mut left = run(alloc, bootstrappers, myself, cfg, commands)?;
    let replies = replace(&mut left.replies, Vec::new(alloc));
    left.finish();
    Ok(replies)
}
