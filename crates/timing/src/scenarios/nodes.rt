//! Calls of nodes within Rattle, and exchanges.

ghost use Rattle.std.specs.Prelude.{◌<◌};

use crate::keys::{Key32, keys};
use crate::made::{SETS, end, infos_of, node, tracked};
use crate::stop::Stop;
use crate::times::Times;
use bytes::Bytes;
use p2p_directory::directory::TrackedPeers;
use p2p_directory::node::{Exchanged, Node, Received, exchange};
use p2p_directory::run::{Command, Reply};
use p2p_discovery::codec::Write;
use p2p_discovery::discovery::{Infos, Payload};
use std::alloc::{AllocError, Global};
use std::time::{Duration, Instant};

/// Which call of a node is timed.
#[derive(Clone, Copy)]
pub(crate) enum Call {
    /// The status of each peer.
    Status,
    /// Each peer is accepted and released.
    Listen,
    /// A set of which a quarter is new.
    Track,
    /// The list of who may be dialled: all peers.
    Dialable,
    /// A frame with the infos of all peers, each time newer ones.
    Receive,
    /// An exchange of the infos of all peers, each time newer ones.
    Exchange,
}

/// One call that is ready to be made.
#[derive(Drop)]
enum Ready {
    Status,
    Listen(Duration),
    Track(u64, TrackedPeers<Key32>),
    Dialable,
    Receive(Bytes),
    Exchange,
}

/// A node that asks, and one that replies. All calls but exchanges are of the first.
struct Nodes {
    asker: Node<Key32>,
    replier: Node<Key32>,
}

// The frame of these infos that a timed node receives.
fn frame_of(alloc: Global, keys: &[Key32], timestamp: u64) -> Result<Bytes, Stop> {
    let infos = infos_of(alloc, keys, timestamp)?;
    if infos.len() >= 4_294_967_296 {
        return Err(Stop::Words);
    }
    let payload = Payload::Peers(Infos::from_vec(infos));
    Ok(payload.encode(alloc)?)
}

// The set at an index that a timed node tracks, of which a quarter is new; of all keys there are 64
// times as many as in a set.
fn set_at(alloc: Global, keys: &[Key32], index: usize) -> Result<TrackedPeers<Key32>, AllocError> {
    let count = keys.len() / 64;
    let span = keys.len().saturating_sub(count).max(1);
    let from = (index.saturating_mul(count) / 4) % span;
    tracked(
        alloc,
        keys.get(from..from.saturating_add(count)).unwrap_or(keys),
    )
}

// Prepares a call of a node that is timed.
fn make_ready(
    alloc: Global,
    replier: &mut Node<Key32>,
    keys: &[Key32],
    sample: usize,
    call: Call,
) -> Result<Ready, Stop> {
    let number = sample as u64;
    match call {
        Call::Status => Ok(Ready::Status),
        Call::Listen => {
            let seconds = number.saturating_mul(11).saturating_add(100);
            Ok(Ready::Listen(Duration::from_secs(seconds)))
        }
        Call::Track => Ok(Ready::Track(number, set_at(alloc, keys, sample)?)),
        Call::Dialable => Ok(Ready::Dialable),
        Call::Receive => Ok(Ready::Receive(frame_of(alloc, keys, number)?)),
        Call::Exchange => {
            replier.step(Command::UpdatePeers(infos_of(alloc, keys, number)?));
            Ok(Ready::Exchange)
        }
    }
}

fn statuses(node: &Node<Key32>, keys: &[Key32]) -> usize {
    let mut done = 0usize;
    for key in keys {
        if node.status(key).is_some() {
            done = done.saturating_add(1);
        }
    }
    done
}

fn cycles(node: &mut Node<Key32>, keys: &[Key32], now: Duration) -> usize {
    let mut done = 0usize;
    for key in keys {
        if let Reply::Listen(true) = node.listen(key, now, Duration::ZERO) {
            done = done.saturating_add(1);
        }
        let _ = node.release(key);
    }
    done
}

// Lets two timed nodes exchange the infos of the last set, and returns how many were received.
fn exchanged(asker: &mut Node<Key32>, replier: &mut Node<Key32>) -> usize {
    let now = Duration::from_secs(1_000_000);
    match exchange(asker, replier, 3, now, now) {
        Exchanged::Applied(infos) => infos.len(),
        _ => 0,
    }
}

fn dialable(node: &mut Node<Key32>) -> usize {
    match node.step(Command::Dialable(Duration::from_secs(100))) {
        Reply::Dialable(dialable) => dialable.peers.len(),
        _ => 0,
    }
}

// Makes a timed call of a node, and returns how much it did.
fn make(nodes: &mut Nodes, keys: &[Key32], ready: Ready) -> usize {
    let Nodes { asker, replier } = nodes;
    match ready {
        Ready::Status => statuses(asker, keys),
        Ready::Listen(now) => cycles(asker, keys, now),
        Ready::Track(index, peers) => {
            usize::from(matches!(asker.track(index, peers), Reply::Track(Some(_))))
        }
        Ready::Dialable => dialable(asker),
        Ready::Receive(frame) => {
            let answer = asker.receive(frame, Duration::from_secs(100));
            usize::from(matches!(answer, Received::Applied(_)))
        }
        Ready::Exchange => exchanged(asker, replier),
    }
}

/// Fills a timed node with sets of all these peers, as many as are retained.
pub(crate) fn fill(
    alloc: Global,
    node: &mut Node<Key32>,
    keys: &[Key32],
) -> Result<(), AllocError> {
    for index in 0..SETS {
        let _ = node.track(index as u64, tracked(alloc, keys)?);
    }
    Ok(())
}

/// Connects a timed node with each of these peers.
pub(crate) fn connect(node: &mut Node<Key32>, keys: &[Key32]) {
    for key in keys {
        let _ = node.listen(key, Duration::from_secs(100), Duration::ZERO);
        let _ = node.connect(key, false);
    }
}

// Times a call of nodes so many times.
fn time_each(
    rt: &HostRuntime,
    nodes: &mut Nodes,
    keys: &[Key32],
    samples: usize,
    call: Call,
) -> Result<Times, Stop> {
    let mut times = Times::new(rt.alloc());
    for sample in 0..samples {
        let ready = make_ready(rt.alloc(), &mut nodes.replier, keys, sample, call)?;
        let start = Instant::now(rt)?;
        let done = make(nodes, keys, ready);
        times.add(start.elapsed(rt)?, done)?;
    }
    Ok(times)
}

fn time(
    rt: &HostRuntime,
    nodes: &mut Nodes,
    count: usize,
    samples: usize,
    call: Call,
) -> Result<Times, Stop> {
    if let Call::Track = call {
        let all = keys(rt.alloc(), count.saturating_mul(64))?;
        return time_each(rt, nodes, &all, samples, call);
    }
    let all = keys(rt.alloc(), count)?;
    fill(rt.alloc(), &mut nodes.asker, &all)?;
    fill(rt.alloc(), &mut nodes.replier, &all)?;
    connect(&mut nodes.replier, &all);
    if let Call::Dialable = call {
        let infos = infos_of(rt.alloc(), &all, 0)?;
        nodes.asker.step(Command::UpdatePeers(infos));
    }
    time_each(rt, nodes, &all, samples, call)
}

/// Times calls of nodes with so many peers in four sets.
pub(crate) fn of_nodes(
    rt: &HostRuntime,
    count: usize,
    samples: usize,
    call: Call,
) -> Result<Times, Stop> {
    // With a failure limit of 0, the infos of all peers are always wanted.
    let limit = usize::from(!matches!(call, Call::Exchange));
    let asker = node(rt.alloc(), 9, limit, count)?;
    let replier = match node(rt.alloc(), 8, 1, count) {
        Ok(replier) => replier,
        Err(AllocError) => {
            end(asker);
            return Err(Stop::Memory);
        }
    };
    let mut nodes = Nodes { asker, replier };
    let times = time(rt, &mut nodes, count, samples, call);
    let Nodes { asker, replier } = nodes;
    end(asker);
    end(replier);
    times
}
