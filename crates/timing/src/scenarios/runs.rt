//! Lists of commands.

use crate::keys::{Key32, keys};
use crate::made::{SETS, config, info_of, tracked};
use crate::stop::Stop;
use crate::times::Times;
use p2p_directory::run::{Command, run};
use std::alloc::Global;
use std::time::{Duration, Instant};

/// The commands that follow those that track the sets.
#[derive(Clone, Copy)]
pub(crate) enum Kind {
    /// None.
    Tracks,
    /// A `Listen` for each peer.
    Listens,
    /// A `Listen` and a `Release` for each peer.
    Cycles,
    /// A `Listen` for each peer, and the end of the run, which releases all.
    Whole,
}

fn commands(alloc: Global, keys: &[Key32], kind: Kind) -> Result<Vec<Command<Key32>>, Stop> {
    let mut commands = Vec::new(alloc);
    for index in 0..SETS {
        commands.push(Command::Track {
            index: index as u64,
            peers: tracked(alloc, keys)?,
        })?;
    }
    if let Kind::Tracks = kind {
        return Ok(commands);
    }
    for key in keys {
        commands.push(Command::Listen {
            peer: *key,
            now: Duration::from_secs(100),
            draw: Duration::ZERO,
        })?;
        if let Kind::Cycles = kind {
            commands.push(Command::Release(*key))?;
        }
    }
    Ok(commands)
}

// Times a run that serves the commands; `Kind::Whole` includes the end of the run.
fn serve(
    rt: &HostRuntime,
    commands: Vec<Command<Key32>>,
    kind: Kind,
    times: &mut Times,
) -> Result<(), Stop> {
    let alloc = rt.alloc();
    let myself = info_of(Key32::numbered(9), 0);
    let start = Instant::now(rt)?;
    let run = run(alloc, Vec::new(alloc), myself, config(), commands)?;
    let served = start.elapsed(rt);
    let done = run.replies.len();
    run.finish();
    let ended = start.elapsed(rt);
    match kind {
        Kind::Whole => times.add(ended?, done)?,
        _ => times.add(served?, done)?,
    }
    Ok(())
}

/// Times runs of commands.
pub(crate) fn runs(
    rt: &HostRuntime,
    count: usize,
    samples: usize,
    kind: Kind,
) -> Result<Times, Stop> {
    let alloc = rt.alloc();
    let all: Vec<Key32> = keys(alloc, count)?;
    let mut times = Times::new(alloc);
    for _ in 0..samples {
        serve(rt, commands(alloc, &all, kind)?, kind, &mut times)?;
    }
    Ok(times)
}
