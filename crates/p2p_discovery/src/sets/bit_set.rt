//! A bit for each peer of a set.

ghost use Rattle.std.specs.Prelude.{◌≡◌, ◌<◌, length, IfOk, is_some, nat_lt, slice_get, Some};
ghost use Rattle.std.specs.Map.{keys_of, lookup, set_value, values_of};
ghost use Rattle.std.specs.BTreeMap.{is_at};
ghost use Rattle.std.specs.List.Sorted.{IsStrictlySortedBy};
ghost use Rattle.std.specs.Slice.Iter.{iter_rest};
ghost use Rattle.p2p_discovery.specs.BitSets.{with_bit, unset};

use crate::codec::PublicKey;
use crate::sets::{BitMap, OrderedSet};
use std::alloc::{AllocError, Global};
use std::marker::Model;
use std::ops::Index;
use std::slice;

/// Peers in ascending order, each once, and for each of them whether its info is known. A contract
/// sees the list of them, each with its bit.
#[derive(Drop)]
pub struct BitSet<P: PublicKey> {
    ordered: OrderedSet<P>,
    knowledge: BitMap,
}

impl<P: PublicKey> Model for BitSet<P> {
    ghost use Rattle.std.specs.Prelude.{List, Bool, ◌≡◌, length};
    ghost use Rattle.std.specs.List.{zip};

    ghost Value = { List (P × Bool) };

    ghost view = { λ set. zip set.ordered set.knowledge };

    ghost invariant = { λ set. length set.knowledge ≡ length set.ordered };
}

impl<P: PublicKey> BitSet<P> {
    /// The bit set of the peers of the set, none of which is known.
    ///
    /// # Errors
    ///
    /// `AllocError` if allocation fails; the set is dropped.
    ///
    /// # Cost
    ///
    /// A byte for each eight peers; the set is not copied.
    pub fn new(alloc: Global, ordered: OrderedSet<P>) -> Result<Self, AllocError>
        ensures { IfOk result (λ set. set ≡ unset ordered) }
    {
        let knowledge = BitMap::zeroes(alloc, ordered.len() as u64)?;
        Ok(BitSet { ordered, knowledge })
    }

    /// The number of peers of the bit set.
    pub fn len(&self) -> usize
        ensures { result ≡ length self.now }
    {
        self.ordered.len()
    }

    /// Changes the bit of a peer of the bit set, and returns whether the peer is in the set. All
    /// else is unchanged. It doesn't allocate.
    ///
    /// # Cost
    ///
    /// Time logarithmic in the number of peers.
    pub fn update(&mut self, peer: &P, known: bool) -> bool
        ensures answer { result ≡ is_some (lookup (is_at (P.cmp peer.now)) self.old) }
        ensures after { self.new ≡ set_value (is_at (P.cmp peer.now)) self.old known }
    {
        match self.ordered.position(peer) {
            Some(place) => {
                self.knowledge.set(place as u64, known);
                true
            }
            None => false,
        }
    }

    /// Changes the bit of the peer at a position of the bit set, counted from 0, and returns
    /// whether there is such a position. All else is unchanged. It doesn't allocate.
    pub fn update_at(&mut self, place: usize, known: bool) -> bool
        ensures answer { result ≡ nat_lt place (length self.old) }
        ensures after { self.new ≡ with_bit self.old place known }
    {
        if place < self.ordered.len() {
            self.knowledge.set(place as u64, known);
            true
        } else {
            false
        }
    }

    /// The bits of the bit set, in the order of the peers.
    ///
    /// # Errors
    ///
    /// `AllocError` if allocation fails.
    ///
    /// # Cost
    ///
    /// A byte for each eight peers.
    pub fn knowledge(&self) -> Result<BitMap, AllocError>
        ensures { IfOk result (λ bits. bits ≡ values_of self.now) }
    {
        self.knowledge.clone()
    }

    /// The set of the peers of the bit set.
    pub fn ordered(&self) -> &OrderedSet<P>
        ensures { result.now ≡ keys_of self.now }
    {
        &self.ordered
    }

    /// An equal bit set, with equal bits.
    ///
    /// # Errors
    ///
    /// `AllocError` if allocation fails.
    ///
    /// # Cost
    ///
    /// Each key is copied once, and each byte of the bits.
    pub fn clone(&self) -> Result<Self, AllocError>
        ensures { IfOk result (λ copy. copy ≡ self.now) }
    {
        Ok(BitSet {
            ordered: self.ordered.clone()?,
            knowledge: self.knowledge.clone()?,
        })
    }
}

impl<P: PublicKey> Index<usize> for BitSet<P> {
    type Output = P;

    ghost can_index = { λ set place. place < length set };

    ghost index_gives = { λ set place key. slice_get (keys_of set) place ≡ Some key };

    fn index(&self, place: usize) -> &P {
        &self.ordered[place]
    }
}

impl<'a, P: PublicKey> IntoIterator for &'a BitSet<P> {
    type Item = &'a P;

    type IntoIter = slice::Iter<'a, P>;

    ghost into_iter_gives = { λ set it. (iter_rest it ≡ keys_of set.now)
        × IsStrictlySortedBy P.cmp (keys_of set.now) };

    fn into_iter(self) -> slice::Iter<'a, P> {
        self.ordered.iter()
    }
}
