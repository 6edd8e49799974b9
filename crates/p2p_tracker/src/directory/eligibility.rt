//! Who may be connected, accepted or dialled.

ghost use Rattle.std.specs.Prelude.{ℕ, ◌≡◌, ◌≤◌, IfOk, OnErr};
ghost use Rattle.std.specs.Option.{option_map};
ghost use Rattle.std.specs.Duration.{as_nanos};

use crate::directory::Directory;
use crate::record::Dialable;
use p2p_discovery::codec::PublicKey;
use std::alloc::AllocError;
use std::time::Duration;

impl<C: PublicKey> Directory<C> {
    ghost use Rattle.p2p_tracker.specs.Dials.{IsBefore};
    ghost use Rattle.p2p_tracker.specs.Directory.{is_free_and, is_dialable_in, AreDialableIn};
    ghost use Rattle.p2p_tracker.specs.Directory.{may_listen_in};
    ghost use Rattle.p2p_tracker.specs.Lists.{Somebody};
    ghost use Rattle.p2p_tracker.specs.Record.{is_eligible, is_acceptable};

    /// Whether the peer is eligible in the directory, and may be connected at the time `now`, a
    /// duration since the epoch: it is not blocked, and its record is eligible. False if there is
    /// no record. It doesn't allocate.
    ///
    /// # Cost
    ///
    /// One search among the records, and if there is a record, one among the blocks.
    pub fn eligible(&self, peer: &C, now: Duration) -> bool
        ensures { result ≡ is_free_and C.cmp is_eligible self.now (as_nanos now) peer.now }
    {
        match self.records.get(peer) {
            Some(found) => !self.is_blocked(peer, now) && found.eligible(),
            None => false,
        }
    }

    /// Whether the peer is eligible and inert in the directory, so that an inbound connection of it
    /// may be accepted at the time `now`, a duration since the epoch. It is if it is not blocked,
    /// and its record is acceptable. False if there is no record. It doesn't allocate.
    ///
    /// # Cost
    ///
    /// One search among the records, and if there is a record, one among the blocks.
    pub fn acceptable(&self, peer: &C, now: Duration) -> bool
        ensures { result ≡ is_free_and C.cmp is_acceptable self.now (as_nanos now) peer.now }
    {
        match self.records.get(peer) {
            Some(found) => !self.is_blocked(peer, now) && found.acceptable(),
            None => false,
        }
    }

    /// Whether [`Directory::listen`] grants the peer a reservation in the directory at the time
    /// `now`, a duration since the epoch, if memory suffices. It does if the peer is not blocked,
    /// eligible and inert, and its reservable time is not after `now`. False if there is no record.
    /// It doesn't allocate.
    ///
    /// # Cost
    ///
    /// One search among the records, and if there is a record, one among the blocks.
    pub fn may_listen(&self, peer: &C, now: Duration) -> bool
        ensures { result ≡ may_listen_in C.cmp self.now (as_nanos now) peer.now }
    {
        match self.records.get(peer) {
            Some(found) => !self.is_blocked(peer, now) && found.may_come(now),
            None => false,
        }
    }

    /// The eligible peers of the directory that may be dialled at the time `now`, a duration since
    /// the epoch, in ascending order. They are those whose dial status is
    /// [`Now`](crate::record::DialStatus::Now) and that are not blocked. `next_query_at` says from
    /// when asking again is useful. It is the earliest of the ends of the blocks of peers that have
    /// a record, and of the dial times of the others whose status is
    /// [`After`](crate::record::DialStatus::After). While nothing is called in between, the result
    /// stays the same before that time, or for ever if there is none.
    ///
    /// # Errors
    ///
    /// `AllocError` if an allocation fails. It allocates only if a peer may be dialled.
    ///
    /// # Cost
    ///
    /// One pass over the records, with one search among the blocks for each.
    pub fn dialable(&self, now: Duration) -> Result<Dialable<C>, AllocError>
        ensures dialable { IfOk result (λ answer. AreDialableIn C.cmp self.now (as_nanos now)
            answer.peers.items (option_map as_nanos answer.next_query_at)) }
        ensures quiet { IfOk result (λ answer. (u : ℕ) → as_nanos now ≤ u →
            IsBefore u (option_map as_nanos answer.next_query_at) →
            AreDialableIn C.cmp self.now u
            answer.peers.items (option_map as_nanos answer.next_query_at)) }
        ensures err { OnErr result (Somebody (is_dialable_in C.cmp self.now (as_nanos now))) }
    {
        self.records
            .dialable(self.alloc, &self.blocks, now, &self.config)
    }
}
