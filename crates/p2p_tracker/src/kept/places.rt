//! The latest position of each key, and from each position the one before it.

ghost use Rattle.std.specs.Prelude.{◌≡◌, ◌+◌, ◌<◌, ◌≤◌, ◌++◌, [], true, None, Some, map, length};
ghost use Rattle.std.specs.Prelude.{drop, get_or, not, is_some, vec_capacity};
ghost use Rattle.std.specs.Prelude.{IfOk, IfSome, OnErr, OnOk};
ghost use Rattle.std.specs.List.{count_by, HoldsAt};
ghost use Rattle.std.specs.List.Sorted.{IsStrictlySortedBy};
ghost use Rattle.std.specs.Map.{keys_of};
ghost use Rattle.p2p_discovery.specs.Ordered.{has_key};
ghost use Rattle.p2p_tracker.specs.Private.Places.{place_of, places_from, first_or, unless_in};
ghost use Rattle.p2p_tracker.specs.Private.Places.{before_key, behind_key};
ghost use Rattle.p2p_tracker.specs.Private.Walked.{above};

use p2p_discovery::codec::PublicKey;
use std::alloc::{AllocError, Global};
use std::cmp::Ordering;
use std::marker::Model;

/// The position of a key: the index of a set, and the position in its list of primary peers.
#[derive(Clone, Copy, Drop)]
pub struct Place {
    pub set: u64,
    pub at: usize,
}

/// The links of a set: for each primary peer the position that was its latest when the set was
/// added, if it had one. A contract sees the list of them. If it had none, its own position in the
/// set is stored, which takes no more space.
#[derive(Drop)]
pub struct Links {
    set: u64,
    older: Vec<Place>,
}

impl Model for Links {
    ghost use Rattle.std.specs.Prelude.{List, Option, map};
    ghost use Rattle.p2p_tracker.specs.declared.kept.places.Place.{Place};
    ghost use Rattle.p2p_tracker.specs.Private.Places.{link_of};

    ghost Value = { List (Option Place) };

    ghost view = { λ links. map (link_of links.set) links.older.items };
}

impl Links {
    /// The place that is linked from the peer at a position, if it has a link.
    pub fn get(&self, at: usize) -> Option<Place>
        ensures { result ≡ get_or self.now at None }
    {
        match self.older.get(at) {
            Some(older) if older.set != self.set => Some(*older),
            _ => None,
        }
    }
}

/// Keys, each with its latest position. A contract sees the list of them in ascending order of
/// their keys.
#[derive(Drop)]
pub struct Places<C: PublicKey> {
    latest: Vec<(C, Place)>,
}

impl<C: PublicKey> Model for Places<C> {
    ghost use Rattle.std.specs.Prelude.{List};
    ghost use Rattle.std.specs.List.Sorted.{IsStrictlySortedBy};
    ghost use Rattle.std.specs.Map.{keys_of};
    ghost use Rattle.p2p_tracker.specs.declared.kept.places.Place.{Place};

    ghost Value = { List (C × Place) };

    ghost view = { λ p. p.latest.items };

    ghost invariant = { λ p. IsStrictlySortedBy C.cmp (keys_of p.latest.items) };
}

impl<C: PublicKey> Places<C> {
    /// No places of keys. It doesn't allocate.
    pub fn new(alloc: Global) -> Self
        ensures { result ≡ [] }
    {
        Places {
            latest: Vec::new(alloc),
        }
    }

    /// The latest place of the key, which is a position in a set.
    ///
    /// # Cost
    ///
    /// One search among the keys.
    pub fn get(&self, key: &C) -> Option<Place>
        ensures { result ≡ place_of C.cmp self.now key.now }
    {
        match self.latest.binary_search_by(|kept| kept.0.cmp(key)) {
            Ok(at) => Some(self.latest[at].1),
            Err(_) => None,
        }
    }

    /// Makes the position of each of the keys in this list, in the set with this index, its latest
    /// place, and returns the places before.
    ///
    /// # Conditions
    ///
    /// The keys ascend, and no position is in that set or in one above it.
    ///
    /// # Errors
    ///
    /// `AllocError` if an allocation fails; then each key has the position that it had.
    ///
    /// # Cost
    ///
    /// Two walks along the positions and the keys together. If one of the keys had no position, a
    /// list of all positions, of its own size, exists next to the old one until that is freed.
    pub fn add_each(&mut self, keys: &[C], set: u64) -> Result<Links, AllocError>
        requires keys { IsStrictlySortedBy C.cmp keys.now }
        requires below { (q : C) → IfSome (place_of C.cmp self.old q) (λ place. place.set < set) }
        ensures ok { OnOk result ((q : C) → place_of C.cmp self.new q ≡
            first_or (place_of C.cmp self.old q) (places_from C.cmp set 0 keys.now q)) }
        ensures links { IfOk result (λ links. links ≡ map (place_of C.cmp self.old) keys.now) }
        ensures err { OnErr result (self.new ≡ self.old) }
    {
        let alloc = *self.latest.allocator();
        let links = links_of(alloc, &self.latest, keys, set)?;
        let new_keys = count_new(&links);
        if new_keys == 0 {
            write_each(&mut self.latest, keys, set);
        } else {
            let size = self.latest.len().checked_add(new_keys).ok_or(AllocError)?;
            let mut merged = Vec::with_capacity(alloc, size)?;
            merge(&self.latest, keys, set, &mut merged);
            self.latest = merged;
        }
        Ok(links)
    }

    /// Removes the keys whose latest place is in the set with this index. It doesn't allocate.
    ///
    /// # Cost
    ///
    /// A walk along the positions.
    pub fn remove_set(&mut self, set: u64)
        ensures { (q : C) → place_of C.cmp self.new q ≡
            unless_in set (place_of C.cmp self.old q) }
    {
        self.latest.retain(|kept| kept.1.set != set);
    }
}

// The latest place of each of the keys: the links of the set with this index.
fn links_of<C: PublicKey>(
    alloc: Global,
    latest: &[(C, Place)],
    keys: &[C],
    set: u64,
) -> Result<Links, AllocError>
    requires places { IsStrictlySortedBy C.cmp (keys_of latest.now) }
    requires keys { IsStrictlySortedBy C.cmp keys.now }
    requires below { (q : C) → IfSome (place_of C.cmp latest.now q) (λ place. place.set < set) }
    ensures { IfOk result (λ links. links ≡ map (place_of C.cmp latest.now) keys.now) }
{
    let mut older = Vec::with_capacity(alloc, keys.len())?;
    let mut from = 0;
    for (at, key) in keys.iter().enumerate() {
        let (behind, place) = place_from(latest, from, key);
        older.push_reserved(place.unwrap_or(Place { set, at }));
        from = behind;
    }
    Ok(Links { set, older })
}

// Looks up a key's place from a position of the list of places on: the position after the key, and
// what is stored for the key.
fn place_from<C: PublicKey>(latest: &[(C, Place)], from: usize, key: &C) -> (usize, Option<Place>)
    requires { IsStrictlySortedBy C.cmp (keys_of latest.now) }
    ensures rest { drop result.0 latest.now ≡ behind_key C.cmp key.now (drop from latest.now) }
    ensures met { result.1 ≡ place_of C.cmp (drop from latest.now) key.now }
{
    for at in from..latest.len() {
        let kept = &latest[at];
        match kept.0.cmp(key) {
            Ordering::Less => {}
            Ordering::Equal => return (at + 1, Some(kept.1)),
            Ordering::Greater => return (at, None),
        }
    }
    (latest.len(), None)
}

// How many keys had no place.
fn count_new(links: &Links) -> usize
    ensures { result ≡ count_by (λ place. not (is_some place)) links.now }
{
    let mut count = 0usize;
    for place in &links.older {
        if place.set == links.set {
            count += 1;
        }
    }
    count
}

// Makes the position of each of the keys in this list, in the set with this index, its latest
// place. Each has one already.
fn write_each<C: PublicKey>(latest: &mut [(C, Place)], keys: &[C], set: u64)
    requires places { IsStrictlySortedBy C.cmp (keys_of latest.old) }
    requires keys { IsStrictlySortedBy C.cmp keys.now }
    requires met { (q : C) → has_key C.cmp keys.now q ≡ true →
        has_key C.cmp (keys_of latest.old) q ≡ true }
    ensures keys { keys_of latest.new ≡ keys_of latest.old }
    ensures places { (q : C) → place_of C.cmp latest.new q ≡
        first_or (place_of C.cmp latest.old q) (places_from C.cmp set 0 keys.now q) }
{
    let mut from = 0;
    for (at, key) in keys.iter().enumerate() {
        let found = find_from(latest, from, key);
        latest[found].1 = Place { set, at };
        from = found + 1;
    }
}

// The position of a key in the list of places, which is one of those from a position on.
fn find_from<C: PublicKey>(latest: &[(C, Place)], from: usize, key: &C) -> usize
    requires sorted { IsStrictlySortedBy C.cmp (keys_of latest.now) }
    requires met { has_key C.cmp (drop from (keys_of latest.now)) key.now ≡ true }
    ensures bound { result < length latest.now }
    ensures found { HoldsAt (λ e. e.0 ≡ key.now) latest.now result }
    ensures rest { drop (result + 1) (keys_of latest.now) ≡
        above C.cmp key.now (drop from (keys_of latest.now)) }
{
    for at in from..latest.len() {
        match latest[at].0.cmp(key) {
            Ordering::Less => {}
            Ordering::Equal => return at,
            Ordering::Greater => unreachable!(),
        }
    }
    unreachable!()
}

// Writes the keys with their latest places, after the set with this index has been added with its
// keys, to a list that has capacity for them.
fn merge<C: PublicKey>(latest: &[(C, Place)], keys: &[C], set: u64, merged: &mut Vec<(C, Place)>)
    requires places { IsStrictlySortedBy C.cmp (keys_of latest.now) }
    requires keys { IsStrictlySortedBy C.cmp keys.now }
    requires empty { merged.old.items ≡ [] }
    requires room { length latest.now
        + count_by (λ q. not (is_some (place_of C.cmp latest.now q))) keys.now
        ≤ vec_capacity merged.old }
    ensures sorted { IsStrictlySortedBy C.cmp (keys_of merged.new.items) }
    ensures places { (q : C) → place_of C.cmp merged.new.items q ≡
        first_or (place_of C.cmp latest.now q) (places_from C.cmp set 0 keys.now q) }
{
    let mut from = 0;
    for (at, key) in keys.iter().enumerate() {
        from = copy_before(latest, from, key, merged);
        merged.push_reserved((*key, Place { set, at }));
    }
    copy_rest(latest, from, merged);
}

// Copies the places before the key, from a position of the list on, and returns the position after
// the key.
fn copy_before<C: PublicKey>(
    latest: &[(C, Place)],
    from: usize,
    key: &C,
    copied: &mut Vec<(C, Place)>,
) -> usize
    requires sorted { IsStrictlySortedBy C.cmp (keys_of latest.now) }
    requires room { length copied.old.items
        + length (before_key C.cmp key.now (drop from latest.now)) ≤ vec_capacity copied.old }
    ensures copied { copied.new.items ≡
        copied.old.items ++ before_key C.cmp key.now (drop from latest.now) }
    ensures rest { drop result latest.now ≡ behind_key C.cmp key.now (drop from latest.now) }
    ensures capacity { vec_capacity copied.new ≡ vec_capacity copied.old }
{
    for at in from..latest.len() {
        let kept = &latest[at];
        match kept.0.cmp(key) {
            Ordering::Less => copied.push_reserved(*kept),
            Ordering::Equal => return at + 1,
            Ordering::Greater => return at,
        }
    }
    latest.len()
}

// Copies all places from a position of the list on.
fn copy_rest<C: PublicKey>(latest: &[(C, Place)], from: usize, copied: &mut Vec<(C, Place)>)
    requires { length copied.old.items + length (drop from latest.now) ≤ vec_capacity copied.old }
    ensures { copied.new.items ≡ copied.old.items ++ drop from latest.now }
{
    for at in from..latest.len() {
        copied.push_reserved(latest[at]);
    }
}
