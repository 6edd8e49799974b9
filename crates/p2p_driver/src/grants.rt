//! The grants of own dials on which the peer hasn't greeted.

ghost use Rattle.std.specs.Prelude.{◌≡◌, [], None, Some, OnOk, OnErr, IfSome, IfNone};
ghost use Rattle.std.specs.Prelude.{if◌then◌else◌, option_map, true, false, find};
ghost use Rattle.std.specs.BTreeMap.{is_at, insert_entry};
ghost use Rattle.std.specs.Duration.{as_nanos};
ghost use Rattle.std.specs.List.{fold};
ghost use Rattle.std.specs.Map.{remove_entry};
ghost use Rattle.p2p_driver.specs.Arrivals.{lesser_of};
ghost use Rattle.p2p_driver.specs.Grants.{grant_of, kept_grant, is_cooled, is_unfit, IsLeastCooled};
ghost use Rattle.p2p_driver.specs.Grants.{is_cooled_entry, is_unfit_entry, sooner_cooled};

use crate::links::Links;
use crate::rate::after;
use p2p_discovery::codec::PublicKey;
use p2p_tracker::directory::Directory;
use std::alloc::{AllocError, Global};
use std::collections::BTreeMap;
use std::marker::Model;
use std::time::Duration;

/// The grants of own dials on which the peer hasn't greeted: of which peers, and when the dial of
/// each was granted, a steady time. The grant of a peer that has no link is *kept*: its dial came
/// to nothing. A contract sees the list of them in ascending order of the peers' keys.
#[derive(Drop)]
pub struct Grants<C: Ord + Copy> {
    of_peers: BTreeMap<C, Duration>,
}

impl<C: Ord + Copy> Model for Grants<C> {
    ghost use Rattle.std.specs.Prelude.{List};
    ghost use Rattle.std.specs.declared.time.Duration.{Duration};

    ghost Value = { List (C × Duration) };

    ghost view = { λ g. g.of_peers.entries };
}

impl<C: Ord + Copy> Grants<C> {
    /// No grants. It doesn't allocate.
    pub fn new(alloc: Global) -> Self
        ensures { result ≡ [] }
    {
        Grants {
            of_peers: BTreeMap::new(alloc),
        }
    }

    /// When the dial of the peer was granted on which it hasn't greeted, or `None` if there is
    /// none. It doesn't allocate.
    ///
    /// # Cost
    ///
    /// One search among the grants.
    pub fn get(&self, peer: &C) -> Option<Duration>
        ensures { result ≡ grant_of C.cmp self.now peer.now }
    {
        self.of_peers.get(peer).copied()
    }

    /// When the grant was made that is kept of the peer, or `None` if none is. It doesn't allocate.
    ///
    /// # Cost
    ///
    /// One search among the grants, and one among the links.
    pub fn kept(&self, links: &Links<C>, peer: &C) -> Option<Duration>
        ensures { result ≡ kept_grant C.cmp links.now self.now peer.now }
    {
        if links.get(peer).is_some() {
            return None;
        }
        self.get(peer)
    }

    /// Notes that a dial of the peer was granted at this steady time. All other grants stay.
    ///
    /// # Errors
    ///
    /// `AllocError` if an allocation fails. Nothing changes then.
    ///
    /// # Cost
    ///
    /// One search among the grants.
    pub fn put(&mut self, peer: C, now: Duration) -> Result<(), AllocError>
        ensures ok { OnOk result ((q : C) → grant_of C.cmp self.new q ≡
            (if is_at (C.cmp peer) q then Some now else grant_of C.cmp self.old q)) }
        ensures entries { OnOk result (self.new ≡ insert_entry C.cmp self.old peer now) }
        ensures err { OnErr result (self.new ≡ self.old) }
    {
        match self.of_peers.insert(peer, now) {
            Ok(_before) => Ok(()),
            Err(_refused) => Err(AllocError),
        }
    }

    /// Forgets the grant of the peer, if there is one. All other grants stay. It doesn't allocate.
    ///
    /// # Cost
    ///
    /// One search among the grants.
    pub fn remove(&mut self, peer: &C)
        ensures gone { (q : C) → grant_of C.cmp self.new q ≡
            (if is_at (C.cmp peer.now) q then None else grant_of C.cmp self.old q) }
        ensures entries { self.new ≡ remove_entry (is_at (C.cmp peer.now)) self.old }
    {
        let _granted = self.of_peers.remove(peer);
    }
}

impl<C: PublicKey> Grants<C> {
    /// The first peer, in ascending order of the keys, of which a grant is kept whose cooldown is
    /// over at the steady time `now`: so long after it was granted. `None` if there is none. It
    /// doesn't allocate.
    ///
    /// # Cost
    ///
    /// One pass over the grants, and a search among the links for each whose cooldown is over.
    pub fn first_cooled(&self, links: &Links<C>, cooldown: Duration, now: Duration) -> Option<C>
        ensures some { IfSome result (λ peer. is_cooled (as_nanos cooldown) (as_nanos now)
            (kept_grant C.cmp links.now self.now peer) ≡ true) }
        ensures none { IfNone result ((q : C) → is_cooled (as_nanos cooldown) (as_nanos now)
            (kept_grant C.cmp links.now self.now q) ≡ false) }
    {
        // For the proof: the contract of `len` says that the keys are in order.
        let _count = self.of_peers.len();
        first_cooled(&self.of_peers, links, cooldown, now)
    }

    /// The first moment, in nanoseconds, at which the cooldown of a kept grant is over, or `None`
    /// if none is kept. It doesn't allocate.
    ///
    /// # Cost
    ///
    /// One pass over the grants, and a search among the links for each.
    pub fn next_cooled(&self, links: &Links<C>, cooldown: Duration) -> Option<u128>
        ensures { IsLeastCooled C.cmp (as_nanos cooldown) links.now self.now result }
    {
        // For the proof: the contract of `len` says that the keys are in order.
        let _count = self.of_peers.len();
        next_cooled(&self.of_peers, links, cooldown)
    }

    /// The first peer, in ascending order of the keys, of which a grant is kept, and that may not
    /// be connected at the steady time `now` by this directory: it isn't
    /// [`eligible`](Directory::eligible). `None` if there is none. It doesn't allocate.
    ///
    /// # Cost
    ///
    /// One pass over the grants, and for each a search among the links, and that of
    /// [`Directory::eligible`] if it is kept.
    pub fn first_unfit(
        &self,
        links: &Links<C>,
        directory: &Directory<C>,
        now: Duration,
    ) -> Option<C>
        ensures some { IfSome result (λ peer. is_unfit C.cmp directory.now (as_nanos now) peer
            (kept_grant C.cmp links.now self.now peer) ≡ true) }
        ensures none { IfNone result ((q : C) → is_unfit C.cmp directory.now (as_nanos now) q
            (kept_grant C.cmp links.now self.now q) ≡ false) }
    {
        // For the proof: the contract of `len` says that the keys are in order.
        let _count = self.of_peers.len();
        first_unfit(&self.of_peers, links, directory, now)
    }
}

// The first peer of which a grant is kept whose cooldown is over.
fn first_cooled<C: PublicKey>(
    of_peers: &BTreeMap<C, Duration>,
    links: &Links<C>,
    cooldown: Duration,
    now: Duration,
) -> Option<C>
    ensures { result ≡ option_map (λ e. e.0) (find (is_cooled_entry C.cmp links.now
        (as_nanos cooldown) (as_nanos now)) of_peers.now.entries) }
{
    for (peer, granted) in of_peers {
        if after(*granted, cooldown) <= now.as_nanos() && links.get(peer).is_none() {
            return Some(*peer);
        }
    }
    None
}

// The first moment at which the cooldown of a kept grant is over.
fn next_cooled<C: PublicKey>(
    of_peers: &BTreeMap<C, Duration>,
    links: &Links<C>,
    cooldown: Duration,
) -> Option<u128>
    ensures { result ≡ fold (sooner_cooled C.cmp links.now (as_nanos cooldown)) None
        of_peers.now.entries }
{
    let mut next = None;
    for (peer, granted) in of_peers {
        if links.get(peer).is_none() {
            next = sooner(next, after(*granted, cooldown));
        }
    }
    next
}

// The moment, or another if that is sooner.
fn sooner(next: Option<u128>, moment: u128) -> Option<u128>
    ensures { result ≡ Some (lesser_of next moment) }
{
    match next {
        Some(other) => Some(other.min(moment)),
        None => Some(moment),
    }
}

// The first peer of which a grant is kept, and that isn't eligible.
fn first_unfit<C: PublicKey>(
    of_peers: &BTreeMap<C, Duration>,
    links: &Links<C>,
    directory: &Directory<C>,
    now: Duration,
) -> Option<C>
    ensures { result ≡ option_map (λ e. e.0) (find (is_unfit_entry C.cmp links.now directory.now
        (as_nanos now)) of_peers.now.entries) }
{
    for (peer, _) in of_peers {
        if links.get(peer).is_none() && !directory.eligible(peer, now) {
            return Some(*peer);
        }
    }
    None
}
