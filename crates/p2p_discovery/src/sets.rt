//! Sorted sets of peers.

ghost use Rattle.std.specs.Prelude.{◌≡◌, ℕ, ◌<◌, ◌↔◌, [], length, IfOk, IsOk, IsTrue, IfSome};
ghost use Rattle.std.specs.Prelude.{IfNone, slice_get, Some, not, filter};
ghost use Rattle.std.specs.List.{Contains, IsDistinct};
ghost use Rattle.std.specs.List.Sorted.{IsStrictlySortedBy, IsPermutation};
ghost use Rattle.std.specs.Ordering.{eq_by_cmp};
ghost use Rattle.std.specs.Iterator.{IsFinite};
ghost use Rattle.std.specs.Iterator.Runs.{WholeRun};
ghost use Rattle.std.specs.Slice.Iter.{iter_rest};
ghost use Rattle.p2p_discovery.specs.Ordered.{IsPlaceOf, has_key};

mod bit_map;
mod bit_set;

use crate::codec::PublicKey;
pub use bit_map::BitMap;
pub(crate) use bit_map::bytes_for;
pub use bit_set::BitSet;
use std::alloc::{AllocError, Global};
use std::marker::Model;
use std::ops::Index;
use std::slice;
use thiserror::Error;

/// Peers in ascending order, each once. A contract sees the list of them.
#[derive(Debug, Drop)]
pub struct OrderedSet<P: PublicKey> {
    items: Vec<P>,
}

impl<P: PublicKey> Model for OrderedSet<P> {
    ghost use Rattle.std.specs.Prelude.{List};
    ghost use Rattle.std.specs.List.Sorted.{IsStrictlySortedBy};

    ghost Value = { List P };

    ghost view = { λ set. set.items.items };

    ghost invariant = { λ set. IsStrictlySortedBy P.cmp set.items.items };
}

/// Why a list of peers is no set.
#[derive(Clone, Copy, Debug, PartialEq, Eq, Error)]
pub enum SetError {
    /// A peer is in the list more than once.
    #[error("duplicate")]
    Duplicate,
}

impl<P: PublicKey> OrderedSet<P> {
    /// The sorted set of the items, which may come in any order and may repeat.
    ///
    /// # Conditions
    ///
    /// The iterator terminates, as those of lists, slices and ranges do.
    ///
    /// # Errors
    ///
    /// `AllocError` if allocation fails.
    ///
    /// # Cost
    ///
    /// One sort of the items.
    pub fn from_iter_dedup<I: Iterator<Item = P> + Drop>(
        alloc: Global,
        items: I,
    ) -> Result<Self, AllocError>
        requires can { I.can_next items }
        requires finite { IsFinite (I.remaining items) }
        ensures sorted { IfOk result (λ set. IsStrictlySortedBy P.cmp set) }
        ensures same { IfOk result (λ set. WholeRun I.next_gives items
            (λ run. (q : P) → Contains set q ↔ Contains run.items q)) }
    {
        let items: Vec<P> = items.collect(alloc)?;
        Ok(OrderedSet::from_vec_dedup(items))
    }

    /// The sorted set of the items, which may come in any order and may repeat, made in place: it
    /// doesn't allocate.
    ///
    /// # Cost
    ///
    /// One sort of the items.
    pub fn from_vec_dedup(mut items: Vec<P>) -> Self
        ensures sorted { IsStrictlySortedBy P.cmp result }
        ensures same { (q : P) → Contains result q ↔ Contains items.items q }
    {
        items.sort_unstable();
        items.dedup();
        OrderedSet { items }
    }

    /// The sorted set of the items, made in place: it doesn't allocate.
    ///
    /// # Errors
    ///
    /// `SetError::Duplicate` exactly if an item occurs more than once.
    ///
    /// # Cost
    ///
    /// One sort of the items, and one pass over them.
    pub fn try_from(mut items: Vec<P>) -> Result<Self, SetError>
        ensures ok { IsOk result ↔ IsDistinct (eq_by_cmp P.cmp) items.items }
        ensures same { IfOk result (IsPermutation items.items) }
        ensures sorted { IfOk result (IsStrictlySortedBy P.cmp) }
    {
        items.sort_unstable();
        for k in 1..items.len() {
            if items[k - 1] == items[k] {
                return Err(SetError::Duplicate);
            }
        }
        Ok(OrderedSet { items })
    }

    /// The number of peers of the sorted set.
    pub fn len(&self) -> usize
        ensures { result ≡ length self.now }
    {
        self.items.len()
    }

    /// Whether the sorted set has no peer.
    pub fn is_empty(&self) -> bool
        ensures { IsTrue result ↔ (self.now ≡ []) }
    {
        self.items.is_empty()
    }

    /// The position of the peer in the sorted set, counted from 0, or `None` if it is not in it. It
    /// doesn't allocate.
    ///
    /// # Cost
    ///
    /// Time logarithmic in the number of peers.
    pub fn position(&self, key: &P) -> Option<usize>
        ensures found { IfSome result (IsPlaceOf key.now self.now) }
        ensures sorted { IsStrictlySortedBy P.cmp self.now }
        ensures absent { IfNone result ((k : ℕ) → ¬ (IsPlaceOf key.now self.now k)) }
    {
        match self.items.binary_search(key) {
            Ok(place) => Some(place),
            Err(_) => None,
        }
    }

    /// The peers of the sorted set in ascending order.
    pub fn iter(&self) -> slice::Iter<'_, P>
        ensures all { iter_rest result ≡ self.now }
        ensures sorted { IsStrictlySortedBy P.cmp self.now }
    {
        self.items.iter()
    }

    /// The peers of the sorted set in ascending order, as a slice.
    pub fn as_slice(&self) -> &[P]
        ensures all { result.now ≡ self.now }
        ensures sorted { IsStrictlySortedBy P.cmp self.now }
    {
        &self.items
    }

    /// The sorted set of the peers that are not in the other set.
    ///
    /// # Errors
    ///
    /// `AllocError` if allocation fails.
    ///
    /// # Cost
    ///
    /// One search of the other set for each peer. Nothing is sorted.
    pub fn difference(&self, other: &OrderedSet<P>) -> Result<Self, AllocError>
        ensures { IfOk result (λ rest.
            rest ≡ filter (λ q. not (has_key P.cmp other.now q)) self.now) }
    {
        let items = peers_outside(*self.items.allocator(), &self.items, other)?;
        Ok(OrderedSet { items })
    }

    /// An equal sorted set. It doesn't allocate if the set is empty.
    ///
    /// # Errors
    ///
    /// `AllocError` if allocation fails.
    ///
    /// # Cost
    ///
    /// Each key is copied once.
    pub fn clone(&self) -> Result<Self, AllocError>
        ensures equal { IfOk result (λ copy. copy ≡ self.now) }
        ensures empty { self.now ≡ [] → IsOk result }
    {
        let mut items = Vec::new(*self.items.allocator());
        items.extend_from_slice(&self.items)?;
        Ok(OrderedSet { items })
    }
}

// Whether the peer is in the sorted set.
fn contains<P: PublicKey>(set: &OrderedSet<P>, peer: &P) -> bool
    ensures { result ≡ has_key P.cmp set.now peer.now }
{
    match set.position(peer) {
        Some(_) => true,
        None => false,
    }
}

// Those of the peers that are not in the sorted set.
fn peers_outside<P: PublicKey>(
    alloc: Global,
    peers: &[P],
    set: &OrderedSet<P>,
) -> Result<Vec<P>, AllocError>
    ensures { IfOk result (λ rest. rest.items ≡
        filter (λ q. not (has_key P.cmp set.now q)) peers.now) }
{
    let mut rest = Vec::new(alloc);
    for peer in peers {
        if !contains(set, peer) {
            rest.push(*peer)?;
        }
    }
    Ok(rest)
}

impl<P: PublicKey> Index<usize> for OrderedSet<P> {
    type Output = P;

    ghost can_index = { λ set place. place < length set };

    ghost index_gives = { λ set place key. slice_get set place ≡ Some key };

    fn index(&self, place: usize) -> &P {
        &self.items[place]
    }
}

impl<'a, P: PublicKey> IntoIterator for &'a OrderedSet<P> {
    type Item = &'a P;

    type IntoIter = slice::Iter<'a, P>;

    ghost into_iter_gives = { λ set it. (iter_rest it ≡ set.now)
        × IsStrictlySortedBy P.cmp set.now };

    fn into_iter(self) -> slice::Iter<'a, P> {
        self.iter()
    }
}
