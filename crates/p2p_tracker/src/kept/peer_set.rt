//! A retained set, with a bit for each primary peer.

ghost use Rattle.std.specs.Prelude.{◌≡◌, false, IfOk};
ghost use Rattle.p2p_discovery.specs.BitSets.{with_bit};
ghost use Rattle.p2p_tracker.specs.PeerSets.{set_of, AreRolesDisjoint};
ghost use Rattle.p2p_tracker.specs.Private.Window.{SetWithBits, plain_set, set_with_bits};

use p2p_discovery::codec::PublicKey;
use p2p_discovery::sets::{BitSet, OrderedSet};
use std::alloc::{AllocError, Global};
use std::marker::Model;

/// A retained set: its index, its primary peers, each with a bit, and those of its secondary peers
/// that are not primary. The bit says whether the peer's info is known and not wanted.
#[derive(Drop)]
pub struct PeerSet<C: PublicKey> {
    index: u64,
    primary: BitSet<C>,
    secondary: OrderedSet<C>,
}

impl<C: PublicKey> Model for PeerSet<C> {
    ghost use Rattle.p2p_tracker.specs.Private.Window.{SetWithBits, plain_set};

    ghost Value = { SetWithBits C };

    ghost use Rattle.p2p_tracker.specs.PeerSets.{AreRolesDisjoint};

    ghost view = { λ set. record {
      index = set.index;
      primary = set.primary;
      secondary = set.secondary;
    } };

    ghost invariant = { λ set. AreRolesDisjoint C.cmp
        (plain_set (record {
          index = set.index;
          primary = set.primary;
          secondary = set.secondary;
        })) };
}

impl<C: PublicKey> PeerSet<C> {
    /// The peer set to be kept of these peers, with no bit set; a peer in both roles is primary
    /// only.
    pub fn new(
        alloc: Global,
        index: u64,
        primary: OrderedSet<C>,
        secondary: OrderedSet<C>,
    ) -> Result<PeerSet<C>, AllocError>
        ensures { IfOk result (λ set.
            set ≡ set_with_bits (λ q. false) (set_of C.cmp index primary secondary)) }
    {
        let secondary = secondary.difference(&primary)?;
        let primary = BitSet::new(alloc, primary)?;
        Ok(PeerSet {
            index,
            primary,
            secondary,
        })
    }

    /// The index of the kept peer set.
    pub fn index(&self) -> u64
        ensures { result ≡ self.now.index }
    {
        self.index
    }

    /// The primary peers of the kept peer set with their bits.
    pub fn primary(&self) -> &BitSet<C>
        ensures bits { result.now ≡ self.now.primary }
        ensures disjoint { AreRolesDisjoint C.cmp (plain_set self.now) }
    {
        &self.primary
    }

    /// The secondary peers of the kept peer set.
    pub fn secondary(&self) -> &OrderedSet<C>
        ensures { result.now ≡ self.now.secondary }
    {
        &self.secondary
    }

    /// Sets the bit of the kept peer set's primary peer at a position, if there is one.
    pub fn set_bit(&mut self, place: usize, known: bool)
        ensures { self.new ≡
            record self.old { primary = with_bit self.old.primary place known } }
    {
        self.primary.update_at(place, known);
    }
}
