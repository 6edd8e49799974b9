//! Reservations as callers of a directory use them, and what it tells of addresses and sets.

use crate::fixtures::{found_in, found_retaining, info, ingress, tracked};
use p2p_discovery::codec::TestKey;
use p2p_discovery::discovery::Info;
use p2p_discovery::types::Ingress;
use p2p_tracker::directory::{Directory, Metadata, TrackedPeers};
use p2p_tracker::record::Status;
use std::alloc::AllocError;
use std::test::Fail;
use std::time::Duration;

// What a caller of the tested directory sees of peer 1: whether it is accepted, and both sets are
// tracked, the second while it is connected; its status then, and after it was released.
fn keeps_a_reservation(
    directory: &mut Directory<TestKey>,
    first: TrackedPeers<TestKey>,
    next: TrackedPeers<TestKey>,
) -> Result<(bool, Option<Status>, Option<Status>), AllocError> {
    let now = Duration::from_secs(100);
    let is_first = directory
        .track(0, first)?
        .is_some_and(|torn| torn.is_empty());
    let Some(reservation) = directory.listen(&TestKey(1), now, Duration::ZERO)? else {
        return Ok((false, None, None));
    };
    let status = directory.status(&TestKey(1));
    let torn = directory.track(1, next);
    directory.release(reservation);
    let is_next = torn?.is_some_and(|torn| torn.is_empty());
    Ok((is_first && is_next, status, directory.status(&TestKey(1))))
}

// Tests a reservation as a caller of a tracker's directory uses it first. It needs no proof of its
// own.
#[test]
fn a_reservation_is_kept(rt: HostRuntime) -> Result<(), Fail> {
    let alloc = rt.alloc();
    let (first, next) = (tracked(alloc, &[1, 2, 3])?, tracked(alloc, &[1, 4])?);
    let (is_tracked, status, afterwards) = found_in(alloc, &[], |directory| {
        keeps_a_reservation(directory, first, next)
    })?;
    assert!(rt; is_tracked);
    assert!(rt; status == Some(Status::Reserved) && afterwards == Some(Status::Inert));
    Ok(())
}

// Whether the reservation of the tracker's tested directory is for this peer, dialled at this
// address.
fn is_dialled_at(metadata: &Metadata<TestKey>, key: u64, at: &Ingress) -> bool {
    let dialled = match metadata {
        Metadata::Dialer(peer, ingress) => *peer == TestKey(key) && *ingress == *at,
        Metadata::Listener(_) => false,
    };
    dialled && *metadata.public_key() == TestKey(key)
}

fn dials_peer_one(directory: &mut Directory<TestKey>, now: Duration) -> Result<bool, AllocError> {
    let Some(reservation) = directory.dial(&TestKey(1), now, Duration::ZERO)? else {
        return Ok(false);
    };
    let dialled = is_dialled_at(reservation.metadata(), 1, &ingress(8001));
    directory.release(reservation);
    Ok(dialled)
}

fn accepts_peer_two(directory: &mut Directory<TestKey>, now: Duration) -> Result<bool, AllocError> {
    let Some(reservation) = directory.listen(&TestKey(2), now, Duration::ZERO)? else {
        return Ok(false);
    };
    let listened = matches!(reservation.metadata(), Metadata::Listener(TestKey(2)));
    directory.release(reservation);
    Ok(listened)
}

#[test]
fn a_reservation_names_its_peer(rt: HostRuntime) -> Result<(), Fail> {
    let now = Duration::from_secs(100);
    let bootstrappers = [(1, 8001), (2, 8002)];
    let dialled = found_in(rt.alloc(), &bootstrappers, |directory| {
        dials_peer_one(directory, now)
    })?;
    let listened = found_in(rt.alloc(), &bootstrappers, |directory| {
        accepts_peer_two(directory, now)
    })?;
    assert!(rt; dialled && listened);
    Ok(())
}

// What `may_listen` of the tested directory says of the peer at this many seconds, and what
// `listen` does then. What is granted is released at once.
fn listens(
    directory: &mut Directory<TestKey>,
    key: u64,
    seconds: u64,
) -> Result<(bool, bool), AllocError> {
    let now = Duration::from_secs(seconds);
    let told = directory.may_listen(&TestKey(key), now);
    let Some(reservation) = directory.listen(&TestKey(key), now, Duration::ZERO)? else {
        return Ok((told, false));
    };
    directory.release(reservation);
    Ok((told, true))
}

// Whether the tested directory says that a peer may listen just where it lets it: neither a
// stranger, nor the local node, nor peer 1 within its cooldown, while it is blocked, or reserved.
fn says_whom_it_lets(directory: &mut Directory<TestKey>) -> Result<bool, AllocError> {
    let others = listens(directory, 2, 100)? == (false, false)
        && listens(directory, 9, 100)? == (false, false);
    let cooled = listens(directory, 1, 100)? == (true, true)
        && listens(directory, 1, 109)? == (false, false)
        && listens(directory, 1, 110)? == (true, true);
    let blocked = directory.block(&TestKey(1), Duration::from_secs(120))?
        && listens(directory, 1, 179)? == (false, false);
    let now = Duration::from_secs(180);
    let is_free = directory.may_listen(&TestKey(1), now);
    let Some(reservation) = directory.listen(&TestKey(1), now, Duration::ZERO)? else {
        return Ok(false);
    };
    let is_busy = !directory.may_listen(&TestKey(1), Duration::from_secs(200));
    directory.release(reservation);
    Ok(others && cooled && blocked && is_free && is_busy)
}

#[test]
fn who_may_listen_is_let_in(rt: HostRuntime) -> Result<(), Fail> {
    let told = found_in(rt.alloc(), &[(1, 8001)], says_whom_it_lets)?;
    assert!(rt; told);
    Ok(())
}

// Whether the tested directory holds the address 1.2.3.4 with this port of the peer, or none.
fn is_held_at(
    directory: &Directory<TestKey>,
    key: u64,
    port: Option<u16>,
) -> Result<bool, AllocError> {
    Ok(match (directory.ingress(&TestKey(key))?, port) {
        (Some(held), Some(port)) => held == ingress(port),
        (None, None) => true,
        _ => false,
    })
}

// Whether the tested directory tells each address that it holds: of the local node, and of peer 1
// before and after an info of it, while it is reserved too. Of peer 2 none is known.
fn tells_addresses(
    directory: &mut Directory<TestKey>,
    first: TrackedPeers<TestKey>,
    infos: Vec<Info<TestKey>>,
) -> Result<bool, AllocError> {
    let is_tracked = directory.track(0, first)?.is_some();
    let before = is_held_at(directory, 1, Some(8001))? && is_held_at(directory, 2, None)?;
    directory.update_peers(infos);
    let now = Duration::from_secs(100);
    let Some(reservation) = directory.listen(&TestKey(1), now, Duration::ZERO)? else {
        return Ok(false);
    };
    let busy = is_held_at(directory, 1, Some(8011));
    directory.release(reservation);
    let others = is_held_at(directory, 9, Some(8000))? && is_held_at(directory, 3, None)?;
    Ok(is_tracked && before && busy? && others)
}

#[test]
fn each_address_is_told(rt: HostRuntime) -> Result<(), Fail> {
    let alloc = rt.alloc();
    let (first, mut infos) = (tracked(alloc, &[1, 2])?, Vec::new(alloc));
    infos.push(info(1, 8011, 1_000))?;
    let told = found_in(alloc, &[(1, 8001)], |directory| {
        tells_addresses(directory, first, infos)
    })?;
    assert!(rt; told);
    Ok(())
}

// The index of the tested directory's set at each position, and at two past those that it retains.
fn indices(directory: &Directory<TestKey>) -> [Option<u64>; 5] {
    [
        directory.set_index(0),
        directory.set_index(1),
        directory.set_index(2),
        directory.set_index(3),
        directory.set_index(usize::MAX),
    ]
}

// Lets the tested directory track a set of peer 1 with this index, and returns the indices then.
fn indices_with(
    directory: &mut Directory<TestKey>,
    index: u64,
) -> Result<[Option<u64>; 5], AllocError> {
    let peers = tracked(directory.allocator(), &[1])?;
    directory.track(index, peers)?;
    Ok(indices(directory))
}

// The indices of the tested directory without a set, with one, with three, once a fourth came, of
// which it retains three, and once one came that isn't accepted.
fn tells_indices(directory: &mut Directory<TestKey>) -> Result<[[Option<u64>; 5]; 5], AllocError> {
    let none = indices(directory);
    let one = indices_with(directory, 3)?;
    indices_with(directory, 7)?;
    let three = indices_with(directory, 9)?;
    let later = indices_with(directory, u64::MAX)?;
    Ok([none, one, three, later, indices_with(directory, 8)?])
}

#[test]
fn the_index_at_each_position_is_told(rt: HostRuntime) -> Result<(), Fail> {
    let [none, one, three, later, stale] = found_retaining(rt.alloc(), 2, &[], tells_indices)?;
    assert_eq!(rt; none, [None, None, None, None, None]);
    assert_eq!(rt; one, [Some(3), None, None, None, None]);
    assert_eq!(rt; three, [Some(3), Some(7), Some(9), None, None]);
    assert_eq!(rt; later, [Some(7), Some(9), Some(u64::MAX), None, None]);
    assert_eq!(rt; stale, [Some(7), Some(9), Some(u64::MAX), None, None]);
    Ok(())
}
