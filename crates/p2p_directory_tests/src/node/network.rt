//! Networks: the replies to their commands, and the directories of replaced nodes.

ghost use Rattle.std.specs.Prelude.{◌<◌, ◌-◌, ◌^◌, IfOk};
ghost use Rattle.std.specs.Int.NonZero.{non_zero_usize_get};
ghost use Rattle.std.specs.List.{All};

use lines::{Unreadable, command, setup};
use p2p_directory::node::{
    Exchanged, Network, NetworkCommand, NetworkReply, NetworkRun, Setup, run_network,
};
use p2p_directory::record::Status;
use p2p_directory::run::Reply;
use p2p_discovery::codec::TestKey;
use std::alloc::Global;
use std::process::Abort;
use std::test::Fail;
use std::time::Duration;

fn exchange(asker: usize, replier: usize) -> NetworkCommand<TestKey> {
    NetworkCommand::Exchange {
        asker,
        replier,
        place: 0,
        asker_now: Duration::from_secs(100),
        replier_now: Duration::from_secs(100),
    }
}

// The setups of a tested network, of nodes with these settings.
fn setups(alloc: Global, lines: &[&'static str]) -> Result<Vec<Setup<TestKey>>, Unreadable>
    ensures sets { IfOk result (λ setups.
        All (λ s. non_zero_usize_get s.cfg.max_sets < 2 ^ 64 - 1) setups.items) }
    ensures bits { IfOk result (λ setups.
        All (λ s. s.payload.max_bit_vec < 2 ^ 32) setups.items) }
{
    let mut setups = Vec::new(alloc);
    for line in lines {
        let made = setup(alloc, *line)?;
        setups.push(made)?;
    }
    Ok(setups)
}

// Commands to a tested network, for nodes that do not exist, for a node with itself, and for both
// nodes.
fn commands(alloc: Global) -> Result<Vec<NetworkCommand<TestKey>>, Unreadable> {
    let mut commands = Vec::new(alloc);
    commands.push(exchange(0, 1))?;
    commands.push(exchange(0, 0))?;
    commands.push(NetworkCommand::Ask(2, 0))?;
    commands.push(NetworkCommand::Call(2, command(alloc, "track 0 6")?))?;
    commands.push(exchange(2, 0))?;
    commands.push(exchange(0, usize::MAX))?;
    commands.push(NetworkCommand::Call(0, command(alloc, "track 0 8,9")?))?;
    commands.push(NetworkCommand::Call(1, command(alloc, "track 0 8,9")?))?;
    commands.push(exchange(1, 0))?;
    Ok(commands)
}

fn is_told(place: usize, reply: &NetworkReply<TestKey>) -> bool {
    match reply {
        NetworkReply::Exchange(Exchanged::NoSet) => place == 0,
        NetworkReply::NoNode => 0 < place && place < 6,
        NetworkReply::Call(Reply::Track(torn)) => (place == 6 || place == 7) && torn.is_some(),
        NetworkReply::Exchange(Exchanged::Applied(infos)) => place == 8 && infos.len() == 1,
        _ => false,
    }
}

#[test]
fn a_run_of_a_network_replies_to_each_command(rt: HostRuntime) -> Result<(), Fail> {
    let alloc = rt.alloc();
    let commands = commands(alloc)?;
    let NetworkRun { nodes, replies } = run_network(
        alloc,
        setups(alloc, &["own=9", "own=8"])?,
        commands,
    )?;
    nodes.finish();
    let mut told = 0usize;
    for (place, reply) in replies.iter().enumerate() {
        told = told.saturating_add(usize::from(is_told(place, reply)));
    }
    assert_eq!(rt; (replies.len(), told), (9, 9));
    Ok(())
}

// Replaces a node of the tested network, and returns the status of peer 8 in its directory; `None`
// if there is no such node.
fn replaced(
    alloc: Global,
    nodes: &mut Network<TestKey>,
    node: usize,
    settings: &'static str,
) -> Result<Option<Option<Status>>, Unreadable> {
    let setup = setup(alloc, settings)?;
    match nodes.replace(alloc, node, setup)? {
        Some(old) => Ok(Some(old.status(&TestKey(8)))),
        None => Ok(None),
    }
}

// Asserts of a tested network that replacing a node releases its reservation of peer 8, and that
// replacing a node that does not exist returns `None`.
fn is_replaced(
    rt: &impl Abort,
    alloc: Global,
    nodes: &mut Network<TestKey>,
) -> Result<(), Unreadable> {
    nodes.add(alloc, setup(alloc, "own=9")?)?;
    let absent = replaced(alloc, nodes, 1, "own=6")?;
    assert!(rt; absent.is_none());
    for line in ["track 0 7,8", "listen 8 100"] {
        nodes.serve(NetworkCommand::Call(0, command(alloc, line)?));
    }
    let held = nodes
        .directory(0)
        .and_then(|directory| directory.status(&TestKey(8)));
    assert_eq!(rt; held, Some(Status::Reserved));
    let left = replaced(alloc, nodes, 0, "own=7")?;
    assert_eq!(rt; left, Some(Some(Status::Inert)));
    Ok(())
}

#[test]
fn a_node_is_replaced(rt: HostRuntime) -> Result<(), Fail> {
    let alloc = rt.alloc();
    let mut nodes = Network::empty(alloc);
    let done = is_replaced(&rt, alloc, &mut nodes);
    let count = nodes.len();
    nodes.finish();
    done?;
    assert_eq!(rt; count, 1);
    Ok(())
}
