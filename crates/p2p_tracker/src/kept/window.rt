//! The retained sets, oldest first, and the bits of their primary peers.

ghost use Rattle.std.specs.Prelude.{◌≡◌, ◌<◌, ◌≤◌, ◌++◌, ◌∷◌, [], true, false, None};
ghost use Rattle.std.specs.Prelude.{map, length, slice_get, get_or, option_to_list};
ghost use Rattle.std.specs.Prelude.{IfNone, IfSome, IfOk, IfErr, OnErr, OnOk};
ghost use Rattle.std.specs.List.{count_by, last_or};
ghost use Rattle.std.specs.Option.{option_copied};
ghost use Rattle.p2p_tracker.specs.PeerSets.{latest_index, is_above};
ghost use Rattle.p2p_tracker.specs.Private.Counts.{leaving_count};
ghost use Rattle.p2p_tracker.specs.Private.Window.{SetWithBits, plain_sets, set_at, has_primary};
ghost use Rattle.p2p_tracker.specs.Private.Window.{with_bit_of, IsAscending};
ghost use Rattle.p2p_tracker.specs.Private.Places.{IsIndexed, AreEarlier, bit_at, with_bits_at};
ghost use Rattle.p2p_tracker.specs.Private.Places.{walk, indices, has_index};

use crate::kept::maps::drop_value;
use crate::kept::peer_set::PeerSet;
use crate::kept::places::{Links, Place, Places};
use p2p_discovery::codec::PublicKey;
use std::alloc::{AllocError, Global};
use std::collections::VecDeque;
use std::marker::Model;

/// Whether a peer's info is known and not wanted, before a change and after it.
#[derive(Clone, Copy)]
pub struct BitChange {
    pub before: bool,
    pub after: bool,
}

/// The retained sets. A contract sees the list of them, with a bit for each primary peer, in
/// ascending order of their indices.
#[derive(Drop)]
pub struct Window<C: PublicKey> {
    sets: VecDeque<PeerSet<C>>,
    links: VecDeque<Links>,
    places: Places<C>,
}

impl<C: PublicKey> Model for Window<C> {
    ghost use Rattle.std.specs.Prelude.{List};
    ghost use Rattle.p2p_tracker.specs.Private.Window.{SetWithBits};
    ghost use Rattle.p2p_tracker.specs.Private.Places.{IsIndexed};

    ghost Value = { List (SetWithBits C) };

    ghost view = { λ w. w.sets.items };

    ghost invariant = { λ w. IsIndexed C.cmp w.places w.links.items w.sets.items };
}

impl<C: PublicKey> Window<C> {
    /// A window with no retained set.
    pub fn new(alloc: Global) -> Self
        ensures { result ≡ [] }
    {
        Window {
            sets: VecDeque::new(alloc),
            links: VecDeque::new(alloc),
            places: Places::new(alloc),
        }
    }

    /// How many retained sets the window has.
    pub fn len(&self) -> usize
        ensures { result ≡ length self.now }
    {
        self.sets.len()
    }

    /// Does nothing to the window of retained sets. Its contract says that the indices of the sets
    /// ascend.
    pub fn agrees(&self)
        ensures { IsAscending self.now }
    {
        let _count = self.sets.len();
    }

    /// The set at a position of the window, counted from 0 in order of index.
    pub fn at(&self, place: usize) -> Option<&PeerSet<C>>
        ensures { option_copied result ≡ slice_get self.now place }
    {
        self.sets.get(place)
    }

    /// The set of the window with an index.
    pub fn get(&self, index: u64) -> Option<&PeerSet<C>>
        ensures { option_copied result ≡ set_at self.now index }
    {
        set_with_index(&self.sets, index)
    }

    /// The latest set of the window.
    pub fn last(&self) -> Option<&PeerSet<C>>
        ensures { option_copied result ≡ last_or None self.now }
    {
        self.sets.back()
    }

    /// The index of the latest set of the window.
    pub fn latest_index(&self) -> Option<u64>
        ensures { result ≡ latest_index (plain_sets self.now) }
    {
        match self.sets.back() {
            Some(set) => Some(set.index()),
            None => None,
        }
    }

    /// Whether the index is above that of the window's latest set, if there is one.
    pub fn is_next(&self, index: u64) -> bool
        ensures { result ≡ is_above index (latest_index (plain_sets self.now)) }
    {
        match self.latest_index() {
            Some(latest) => latest < index,
            None => true,
        }
    }

    /// How many peers the oldest set of the window has if adding one more drops it, that is, if
    /// there are `max` sets.
    ///
    /// # Errors
    ///
    /// `AllocError` if there are more than any list could hold.
    pub fn leaving_count(&self, max: usize) -> Result<usize, AllocError>
        ensures { IfOk result (λ count. count ≡ leaving_count max (plain_sets self.now)) }
    {
        match self.sets.front() {
            Some(oldest) if self.sets.len() == max => {
                let primary = oldest.primary().len();
                primary
                    .checked_add(oldest.secondary().len())
                    .ok_or(AllocError)
            }
            _ => Ok(0),
        }
    }

    /// Adds a set to the window as the latest. If an allocation fails, nothing has changed, and the
    /// set is returned.
    ///
    /// # Conditions
    ///
    /// Its index is above the latest.
    ///
    /// # Cost
    ///
    /// Two walks along the positions of the primary peers of all retained sets, and along those of
    /// the set together.
    pub fn push(&mut self, set: PeerSet<C>) -> Result<(), PeerSet<C>>
        requires { is_above set.index (latest_index (plain_sets self.old)) ≡ true }
        ensures ok { OnOk result (self.new ≡ self.old ++ set ∷ []) }
        ensures err { OnErr result (self.new ≡ self.old) }
        ensures back { IfErr result (λ back. back ≡ set) }
    {
        push_set(&mut self.sets, &mut self.links, &mut self.places, set)
    }

    /// Removes the set with the lowest index from the window. It doesn't allocate.
    ///
    /// # Cost
    ///
    /// A walk along the positions of the primary peers of all retained sets.
    pub fn pop_first(&mut self) -> Option<PeerSet<C>>
        ensures sets { self.old ≡ option_to_list result ++ self.new }
        ensures none { IfNone result (length self.old ≡ 0) }
    {
        pop_set(&mut self.sets, &mut self.links, &mut self.places)
    }

    /// Sets the peer's bit in every set of the window that has it as primary, and returns in how
    /// many. It doesn't allocate.
    ///
    /// # Cost
    ///
    /// One search among the positions, and for each set that has the peer as primary the search of
    /// that set by its index, and one bit, and one such search more. No other set is looked at, and
    /// no list of peers is searched.
    pub fn refresh(&mut self, peer: &C, known: bool) -> usize
        ensures sets { self.new ≡ map (with_bit_of C.cmp peer.now known) self.old }
        ensures count { result ≡ count_by (has_primary C.cmp peer.now) self.old }
    {
        refresh_places(&mut self.sets, &self.links, &self.places, peer, known)
    }

    /// Sets the peer's bit in every set of the window that has it as primary if it was another
    /// before. It doesn't allocate.
    ///
    /// # Conditions
    ///
    /// The bits are what they were before.
    ///
    /// # Cost
    ///
    /// Constant if the bit stays, otherwise that of [`Window::refresh`].
    pub fn renew(&mut self, peer: &C, known: BitChange)
        requires { map (with_bit_of C.cmp peer.now known.before) self.old ≡ self.old }
        ensures { self.new ≡ map (with_bit_of C.cmp peer.now known.after) self.old }
    {
        if known.before != known.after {
            self.refresh(peer, known.after);
        }
    }
}

// The first set of the window with an index.
fn set_with_index<C: PublicKey>(sets: &VecDeque<PeerSet<C>>, index: u64) -> Option<&PeerSet<C>>
    ensures { option_copied result ≡ set_at sets.now.items index }
{
    for place in 0..sets.len() {
        let set = &sets[place];
        if set.index() == index {
            return Some(set);
        }
    }
    None
}

// Adds a set to the window as the latest with the positions of its primary peers, or leaves
// everything as it was.
fn push_set<C: PublicKey>(
    sets: &mut VecDeque<PeerSet<C>>,
    links: &mut VecDeque<Links>,
    places: &mut Places<C>,
    set: PeerSet<C>,
) -> Result<(), PeerSet<C>>
    requires indexed { IsIndexed C.cmp places.old links.old.items sets.old.items }
    requires above { is_above set.index (latest_index (plain_sets sets.old.items)) ≡ true }
    ensures indexed { IsIndexed C.cmp places.new links.new.items sets.new.items }
    ensures ok { OnOk result (sets.new.items ≡ sets.old.items ++ set ∷ []) }
    ensures err { OnErr result (sets.new.items ≡ sets.old.items) }
    ensures back { IfErr result (λ back. back ≡ set) }
{
    if sets.try_reserve(1).is_err() {
        return Err(set);
    }
    if links.try_reserve(1).is_err() {
        return Err(set);
    }
    match places.add_each(set.primary().ordered().as_slice(), set.index()) {
        Ok(older) => {
            links.push_back_reserved(older);
            sets.push_back_reserved(set);
            Ok(())
        }
        Err(_) => Err(set),
    }
}

// Removes the first set of the window with the positions of its primary peers.
fn pop_set<C: PublicKey>(
    sets: &mut VecDeque<PeerSet<C>>,
    links: &mut VecDeque<Links>,
    places: &mut Places<C>,
) -> Option<PeerSet<C>>
    requires { IsIndexed C.cmp places.old links.old.items sets.old.items }
    ensures indexed { IsIndexed C.cmp places.new links.new.items sets.new.items }
    ensures sets { sets.old.items ≡ option_to_list result ++ sets.new.items }
    ensures none { IfNone result (length sets.old.items ≡ 0) }
{
    let oldest = sets.pop_front()?;
    drop_value(links.pop_front());
    places.remove_set(oldest.index());
    Some(oldest)
}

// Sets the bit at each position that the peer has in the window, and returns how many there are.
fn refresh_places<C: PublicKey>(
    sets: &mut VecDeque<PeerSet<C>>,
    links: &VecDeque<Links>,
    places: &Places<C>,
    peer: &C,
    known: bool,
) -> usize
    requires { IsIndexed C.cmp places.now links.now.items sets.old.items }
    ensures sets { sets.new.items ≡ map (with_bit_of C.cmp peer.now known) sets.old.items }
    ensures count { result ≡ count_by (has_primary C.cmp peer.now) sets.old.items }
{
    set_bits(sets, links, places.get(peer), known)
}

// Sets the bit at each position of the window that a walk visits, and returns how many there are.
fn set_bits<C: PublicKey>(
    sets: &mut VecDeque<PeerSet<C>>,
    links: &VecDeque<Links>,
    latest: Option<Place>,
    known: bool,
) -> usize
    requires ascending { IsAscending sets.old.items }
    requires earlier { AreEarlier (indices sets.old.items) links.now.items }
    requires few { length (walk (indices sets.old.items) links.now.items latest) ≤
        length sets.old.items }
    ensures sets { sets.new.items ≡
        with_bits_at known (walk (indices sets.old.items) links.now.items latest) sets.old.items }
    ensures count { result ≡ length (walk (indices sets.old.items) links.now.items latest) }
{
    let mut next = latest;
    for count in 0..sets.len() {
        let Some(place) = next else { return count };
        let Some(found) = set_bit_at(sets, &place, known) else {
            return count
        };
        next = link_at(links, found, place.at);
    }
    sets.len()
}

// The link stored in the window for a peer of one of its sets.
fn link_at(links: &VecDeque<Links>, found: usize, at: usize) -> Option<Place>
    ensures { result ≡ get_or (get_or links.now.items found []) at None }
{
    match links.get(found) {
        Some(older) => older.get(at),
        None => None,
    }
}

// Sets the bit at a position of the window, in the set with its index, and returns which set that
// is.
fn set_bit_at<C: PublicKey>(
    sets: &mut VecDeque<PeerSet<C>>,
    place: &Place,
    known: bool,
) -> Option<usize>
    requires { IsAscending sets.old.items }
    ensures sets { sets.new.items ≡ map (bit_at known place.now) sets.old.items }
    ensures some { IfSome result (λ found. (found < length sets.old.items)
        × (get_or (indices sets.old.items) found 0 ≡ place.now.set)) }
    ensures none { IfNone result (has_index (indices sets.old.items) place.now.set ≡ false) }
{
    match sets.binary_search_by_key(&place.set, |set| set.index()) {
        Ok(found) => {
            if let Some(set) = sets.get_mut(found) {
                set.set_bit(place.at, known);
            }
            Some(found)
        }
        Err(_) => None,
    }
}
