//! A run of ten thousand commands.

use crate::fixtures::run_from;
use lines::{Unreadable, command};
use p2p_directory::run::{Command, Reply};
use p2p_discovery::codec::TestKey;
use std::alloc::Global;
use std::test::Fail;

mod held;
mod replies;
mod slots;

const ROUNDS: u64 = 2_500;

// The commands of a tested run, a set and then four in each round.
fn commands(alloc: Global) -> Result<Vec<Command<TestKey>>, Unreadable> {
    let mut commands = Vec::new(alloc);
    commands.push(command(alloc, "track 0 1")?)?;
    for _ in 0..ROUNDS {
        for line in ["listen 1 100", "release 1", "forget_cooled 110", "tracked"] {
            commands.push(command(alloc, line)?)?;
        }
    }
    Ok(commands)
}

fn is_told(place: usize, reply: &Reply<TestKey>) -> bool {
    match reply {
        Reply::Track(torn) => place == 0 && torn.is_some(),
        Reply::Listen(granted) => place % 4 == 1 && *granted,
        Reply::Release => place % 4 == 2,
        Reply::ForgetCooled(count) => place % 4 == 3 && *count == 1,
        Reply::Tracked(count) => place % 4 == 0 && *count == 1,
        _ => false,
    }
}

// How many replies of the tested run are told as they should be.
fn told(replies: &[Reply<TestKey>]) -> usize {
    let mut told = 0usize;
    for (place, reply) in replies.iter().enumerate() {
        told = told.saturating_add(usize::from(is_told(place, reply)));
    }
    told
}

#[test]
fn replies_to_ten_thousand_commands(rt: HostRuntime) -> Result<(), Fail> {
    let alloc = rt.alloc();
    let commands = commands(alloc)?;
    let left = run_from(alloc, "", commands)?;
    let (count, told, held) = (left.replies.len(), told(&left.replies), left.held.first());
    left.finish();
    assert_eq!(rt; (count, told, held), (10_001, 10_001, None));
    Ok(())
}
