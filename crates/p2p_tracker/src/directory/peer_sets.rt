//! Queries of the retained sets.

ghost use Rattle.std.specs.Prelude.{◌≡◌, true, IfOk, OnErr, length};
ghost use Rattle.std.specs.Option.{IsSomeAnd};
ghost use Rattle.p2p_tracker.specs.PeerSets.{latest_index, index_at, has_peers, set_with};
ghost use Rattle.p2p_tracker.specs.Seen.{peers_of};
ghost use Rattle.p2p_tracker.specs.Private.Window.{plain_set};

use crate::directory::{Directory, PeerSetUpdate, TrackedPeers};
use crate::kept::peer_set::PeerSet;
use p2p_discovery::codec::PublicKey;
use std::alloc::AllocError;

impl<C: PublicKey> Directory<C> {
    ghost use Rattle.p2p_tracker.specs.Directory.{peer_set_in, is_named_of, AreAllOf, IsUpdateOf};
    ghost use Rattle.p2p_tracker.specs.Lists.{Somebody};

    /// The peers of the directory's retained peer set with this index, by role, or `None` if there
    /// is no such set.
    ///
    /// # Errors
    ///
    /// `AllocError` if an allocation fails. It allocates only if the set has a peer.
    ///
    /// # Cost
    ///
    /// One pass over the retained sets, and over the peers of that one.
    pub fn get_peer_set(&self, index: u64) -> Result<Option<TrackedPeers<C>>, AllocError>
        ensures peers { IfOk result (λ peers. peers ≡ peer_set_in self.now index) }
        ensures err { OnErr result (IsSomeAnd (set_with index self.now.sets)
            (λ set. has_peers set ≡ true)) }
    {
        match self.sets.get(index) {
            Some(set) => Ok(Some(peers_in(set)?)),
            None => Ok(None),
        }
    }

    /// The directory's latest peer set with its index, and the peers of all retained sets, or
    /// `None` if no set was registered.
    ///
    /// # Errors
    ///
    /// `AllocError` if an allocation fails. It allocates only if a retained set has a peer.
    ///
    /// # Cost
    ///
    /// That of [`Directory::all`], and one pass over the peers of the latest set.
    pub fn latest_update(&self) -> Result<Option<PeerSetUpdate<C>>, AllocError>
        ensures update { IfOk result (IsUpdateOf C.cmp self.now) }
        ensures err { OnErr result (Somebody (is_named_of C.cmp self.now)) }
    {
        match self.sets.last() {
            Some(set) => Ok(Some(PeerSetUpdate {
                index: set.index(),
                latest: peers_in(set)?,
                all: self.all()?,
            })),
            None => Ok(None),
        }
    }

    /// The index of the directory's latest peer set, or `None` if none was registered. It doesn't
    /// allocate.
    ///
    /// # Cost
    ///
    /// Constant.
    pub fn latest_set_index(&self) -> Option<u64>
        ensures { result ≡ latest_index self.now.sets }
    {
        self.sets.latest_index()
    }

    /// The index of the directory's retained peer set at a position, counted from 0 in order of
    /// index, or `None` if there is no such position. It doesn't allocate.
    ///
    /// # Cost
    ///
    /// Constant.
    pub fn set_index(&self, place: usize) -> Option<u64>
        ensures { result ≡ index_at self.now.sets place }
    {
        match self.sets.at(place) {
            Some(set) => Some(set.index()),
            None => None,
        }
    }

    /// How many peer sets the directory retains: at most
    /// [`Config::max_sets`](crate::directory::Config). It doesn't allocate.
    ///
    /// # Cost
    ///
    /// Constant.
    pub fn retained(&self) -> usize
        ensures { result ≡ length self.now.sets }
    {
        self.sets.len()
    }

    /// The peers of all peer sets that the directory retains, by role: one that is primary in some
    /// set is primary only.
    ///
    /// # Errors
    ///
    /// `AllocError` if an allocation fails. It allocates only if a retained set has a peer.
    ///
    /// # Cost
    ///
    /// One pass over the records, and one sort of each list.
    pub fn all(&self) -> Result<TrackedPeers<C>, AllocError>
        ensures peers { IfOk result (AreAllOf C.cmp self.now) }
        ensures err { OnErr result (Somebody (is_named_of C.cmp self.now)) }
    {
        self.records.all(self.alloc)
    }
}

// The peers of one of the directory's retained peer sets, by role.
fn peers_in<C: PublicKey>(set: &PeerSet<C>) -> Result<TrackedPeers<C>, AllocError>
    ensures peers { IfOk result (λ peers. peers ≡ peers_of (plain_set set.now)) }
    ensures err { OnErr result (has_peers (plain_set set.now) ≡ true) }
{
    Ok(TrackedPeers {
        primary: set.primary().ordered().clone()?,
        secondary: set.secondary().clone()?,
    })
}
