//! Each command can be typed, under a name of the list that `play` prints.

use lines::{COMMANDS, Fault, Unreadable, command};
use p2p_directory::run::Command;
use p2p_discovery::codec::TestKey;
use std::alloc::Global;
use std::test::Fail;

const FIRST: &str = "track 0 1,2 / 3";

// A line in which the command behind this one is typed, so that the test leaves none out.
fn next(command: &Command<TestKey>) -> Option<&'static str> {
    match command {
        Command::Track { .. } => Some("dial 1 100 4"),
        Command::Dial { .. } => Some("listen 1 100 4"),
        Command::Listen { .. } => Some("connect 1 true"),
        Command::Connect { .. } => Some("release 1"),
        Command::Release(_) => Some("update 1@1000"),
        Command::UpdatePeers(_) => Some("block 1 100"),
        Command::Block { .. } => Some("unblock_expired 100"),
        Command::UnblockExpired(_) => Some("forget_cooled 100"),
        Command::ForgetCooled(_) => Some("next_unblock"),
        Command::NextUnblock => Some("blocked_peers 100"),
        Command::BlockedPeers(_) => Some("status 1"),
        Command::Status(_) => Some("get_peer_set 0"),
        Command::GetPeerSet(_) => Some("latest_update"),
        Command::LatestUpdate => Some("latest_set_index"),
        Command::LatestSetIndex => Some("all"),
        Command::All => Some("info 1"),
        Command::Info(_) => Some("ingress 1"),
        Command::Ingress(_) => Some("infos 0 01 100"),
        Command::Infos { .. } => Some("bits 0"),
        Command::GetRandomBitVec(_) => Some("eligible 1 100"),
        Command::Eligible { .. } => Some("acceptable 1 100"),
        Command::Acceptable { .. } => Some("may_listen 1 100"),
        Command::MayListen { .. } => Some("dialable 100"),
        Command::Dialable(_) => Some("tracked"),
        Command::Tracked => None,
    }
}

// How many commands are typed one after the other in the test.
fn typed(alloc: Global) -> Result<usize, Unreadable> {
    let mut line = FIRST;
    let mut count = 0usize;
    for _ in &COMMANDS {
        count = count.saturating_add(1);
        match next(&command(alloc, line)?) {
            Some(next) => line = next,
            None => break,
        }
    }
    Ok(count)
}

// How many names under which commands are typed are those of a command of one directory in the
// test.
fn listed(alloc: Global) -> usize {
    let mut count = 0usize;
    for (name, _, _) in &COMMANDS {
        match command(alloc, *name) {
            Err(error) if matches!(error.fault, Fault::Unknown(_, _)) => {}
            _ => count = count.saturating_add(1),
        }
    }
    count
}

#[test]
fn each_command_can_be_typed_and_is_listed(rt: HostRuntime) -> Result<(), Fail> {
    let alloc = rt.alloc();
    assert_eq!(rt; (typed(alloc)?, listed(alloc)), (25, 25));
    Ok(())
}
