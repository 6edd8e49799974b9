//! The examples that the documentation of the most used calls links to.

use crate::fixtures::{found_in, tracked};
use p2p_discovery::codec::TestKey;
use p2p_discovery::types::Ingress;
use p2p_tracker::directory::{Directory, Metadata, TrackedPeers};
use std::alloc::AllocError;
use std::test::Fail;
use std::time::Duration;

// A tested example of the tracker's `track`, which makes these the peers of the latest set, and
// returns how many connections must be closed.
fn track_set(
    directory: &mut Directory<TestKey>,
    index: u64,
    peers: TrackedPeers<TestKey>,
) -> Result<usize, AllocError> {
    match directory.track(index, peers)? {
        // Close the connection of each: its reservation is released then.
        Some(torn_down) => Ok(torn_down.len()),
        // The index is not greater than that of the latest set.
        None => Ok(0),
    }
}

// A tested example of the tracker's `listen`, which accepts a connection of an inbound peer, if it
// may be accepted.
fn accept(
    directory: &mut Directory<TestKey>,
    peer: &TestKey,
    now: Duration,
    draw: Duration,
) -> Result<bool, AllocError> {
    match directory.listen(peer, now, draw)? {
        Some(reservation) => {
            directory.connect(reservation.metadata().public_key(), false);
            // .. use the connection until it is closed ..
            directory.release(reservation);
            Ok(true)
        }
        None => Ok(false),
    }
}

// A tested example of the tracker's `dial`, which dials a peer, if it may be dialled. The dial
// fails if the port is 0.
fn dial(
    directory: &mut Directory<TestKey>,
    peer: &TestKey,
    now: Duration,
    draw: Duration,
) -> Result<bool, AllocError> {
    let Some(reservation) = directory.dial(peer, now, draw)? else {
        return Ok(false);
    };
    let is_up = match reservation.metadata() {
        Metadata::Dialer(_, Ingress::Socket(address)) => address.port() != 0,
        Metadata::Dialer(_, Ingress::Dns { port, .. }) => *port != 0,
        Metadata::Listener(_) => false,
    };
    if is_up {
        directory.connect(peer, true);
    }
    directory.release(reservation);
    Ok(is_up)
}

// Whether the tested directory accepts peer 1 of its set once, and no stranger.
fn accepts_one(directory: &mut Directory<TestKey>) -> Result<bool, AllocError> {
    let (now, draw) = (Duration::from_secs(100), Duration::ZERO);
    let is_in = accept(directory, &TestKey(1), now, draw)?;
    let is_again = accept(directory, &TestKey(1), now, draw)?;
    let is_stranger = accept(directory, &TestKey(5), now, draw)?;
    Ok(is_in && !is_again && !is_stranger)
}

// Whether the tested directory dials peer 3 of its set, and neither 4, whose port is 0, nor 1,
// which is in no set.
fn dials_one(directory: &mut Directory<TestKey>) -> Result<bool, AllocError> {
    let (now, draw) = (Duration::from_secs(100), Duration::ZERO);
    let is_up = dial(directory, &TestKey(3), now, draw)?;
    let has_no_port = dial(directory, &TestKey(4), now, draw)?;
    let is_in_no_set = dial(directory, &TestKey(1), now, draw)?;
    Ok(is_up && !has_no_port && !is_in_no_set)
}

// Whether each call of the tested directory returns what it should: the second set is not tracked,
// for its index is that of the first.
fn meets_peers(
    directory: &mut Directory<TestKey>,
    first: TrackedPeers<TestKey>,
    stale: TrackedPeers<TestKey>,
    next: TrackedPeers<TestKey>,
) -> Result<bool, AllocError> {
    let is_tracked = track_set(directory, 0, first)? == 0;
    let is_stale = track_set(directory, 0, stale)? == 0;
    let is_accepted = accepts_one(directory)?;
    let is_next = track_set(directory, 1, next)? == 0;
    Ok(is_tracked && is_stale && is_accepted && is_next && dials_one(directory)?)
}

#[test]
fn a_set_is_tracked_and_its_peers_are_met(rt: HostRuntime) -> Result<(), Fail> {
    let alloc = rt.alloc();
    let first = tracked(alloc, &[1, 2])?;
    let stale = tracked(alloc, &[3])?;
    let next = tracked(alloc, &[3, 4])?;
    let are_met = found_in(alloc, &[(3, 8003), (4, 0)], |directory| {
        meets_peers(directory, first, stale, next)
    })?;
    assert!(rt; are_met);
    Ok(())
}
