//! When the blocks of peers end.

ghost use Rattle.std.specs.Prelude.{ℕ, List, ◌≡◌, ◌≤◌, ◌<◌, [], length, not, true, false, if◌then◌else◌};
ghost use Rattle.std.specs.Prelude.{nat_le, IfNone, IfOk, IfSome, IsSome, Ok, OnErr, OnOk, Some};
ghost use Rattle.std.specs.Duration.{as_nanos};
ghost use Rattle.std.specs.List.{filter, count_by};
ghost use Rattle.std.specs.List.Sorted.{IsStrictlySortedBy};
ghost use Rattle.std.specs.Map.{keys_of};
ghost use Rattle.std.specs.BTreeMap.{get, is_at};
ghost use Rattle.std.specs.BTreeSet.{contains};
ghost use Rattle.std.specs.Option.{option_map, option_map_or};
ghost use Rattle.std.specs.Ordering.{is_gt};
ghost use Rattle.p2p_tracker.specs.Blocks.{in_nanos, is_later, unblock_in, is_blocked};
ghost use Rattle.p2p_tracker.specs.Private.Expirations.{end_cmp, end_in_nanos, IsFirstOf, AreExpirations, AreKept};

use crate::kept::maps::drop_value;
use p2p_discovery::codec::PublicKey;
use std::alloc::{AllocError, Global};
use std::cmp::Ordering;
use std::collections::btree_map::Entry;
use std::collections::{BTreeMap, BTreeSet, btree_map};
use std::marker::Model;
use std::time::Duration;

/// Peers, each with the end of its block: a duration since the epoch. A contract sees the list of
/// them in ascending order of their keys, with the ends in nanoseconds.
#[derive(Drop)]
pub struct Blocks<C: PublicKey> {
    moments: BTreeMap<C, Duration>,
    // Exactly the same pairs in order of their ends, in nanoseconds, and of keys if these are
    // equal.
    expirations: BTreeSet<(u128, C)>,
    // The first of them.
    first: Option<(Duration, C)>,
}

impl<C: PublicKey> Model for Blocks<C> {
    ghost use Rattle.std.specs.Prelude.{ℕ, List};
    ghost use Rattle.p2p_tracker.specs.Blocks.{in_nanos};
    ghost use Rattle.p2p_tracker.specs.Private.Expirations.{AreKept, end_in_nanos};

    ghost Value = { List (C × ℕ) };

    ghost view = { λ b. in_nanos b.moments.entries };

    ghost invariant = { λ b.
        AreKept C.cmp b.expirations.keys (in_nanos b.moments.entries) (end_in_nanos b.first) };
}

impl<C: PublicKey> Blocks<C> {
    /// No blocks. It doesn't allocate.
    pub fn new(alloc: Global) -> Self
        ensures { result ≡ [] }
    {
        Blocks {
            moments: BTreeMap::new(alloc),
            expirations: BTreeSet::new(alloc),
            first: None,
        }
    }

    /// Keeps a block of the peer until `until`, a duration since the epoch, and returns true. If it
    /// is blocked at `now`, since it has a block that ends later, nothing changes, and it returns
    /// false and doesn't allocate. A block that had ended is replaced. Other peers keep theirs.
    ///
    /// # Errors
    ///
    /// `AllocError` if an allocation fails; then nothing has changed.
    ///
    /// # Cost
    ///
    /// One search among the blocks. If the peer isn't blocked, one among their ends, or two if it
    /// had another end. If its block was the first to end, or is now, one more among the blocks.
    pub fn block(&mut self, key: C, now: Duration, until: Duration) -> Result<bool, AllocError>
        ensures err { OnErr result (self.new ≡ self.old) }
        ensures untaken { is_blocked (unblock_in C.cmp self.old key) (as_nanos now) ≡ true →
            result ≡ Ok false }
        ensures answer { IfOk result (λ taken. taken ≡
            not (is_blocked (unblock_in C.cmp self.old key) (as_nanos now))) }
        ensures refused { result ≡ Ok false → self.new ≡ self.old }
        ensures taken { result ≡ Ok true → (q : C) → unblock_in C.cmp self.new q ≡
            (if is_at (C.cmp key) q then Some (as_nanos until)
            else unblock_in C.cmp self.old q) }
    {
        put_block(
            &mut self.moments,
            &mut self.expirations,
            &mut self.first,
            key,
            now,
            until,
        )
    }

    /// The end of the block that is kept of the peer, or `None` if it has none. It doesn't
    /// allocate.
    ///
    /// # Cost
    ///
    /// One search among the blocks.
    pub fn get(&self, key: &C) -> Option<Duration>
        ensures { option_map as_nanos result ≡ unblock_in C.cmp self.now key.now }
    {
        self.moments.get(key).copied()
    }

    /// The earliest end of the blocks that are kept, with the least key of those that have it, or
    /// `None` if there is no block. It doesn't allocate.
    ///
    /// # Cost
    ///
    /// Constant.
    pub fn least(&self) -> Option<(Duration, C)>
        ensures { IsFirstOf C.cmp (unblock_in C.cmp self.now) (end_in_nanos result) }
    {
        self.first
    }

    /// Removes each peer whose block ends at or before `now`, a duration since the epoch, from the
    /// blocks that are kept, and returns how many there were. Other peers keep theirs. It doesn't
    /// allocate.
    ///
    /// # Cost
    ///
    /// Constant if there is none. Otherwise, for each such peer, one removal of the first of the
    /// ends and one among the blocks, and then one search for the first block that is left.
    pub fn drop_until(&mut self, now: Duration) -> usize
        ensures sorted { IsStrictlySortedBy C.cmp (keys_of self.old) }
        ensures left { self.new ≡ filter (is_later (as_nanos now)) self.old }
        ensures count { result ≡ count_by (λ e. not (is_later (as_nanos now) e)) self.old }
    {
        let _moments = self.moments.len();
        drop_ended(
            &mut self.moments,
            &mut self.expirations,
            &mut self.first,
            now,
        )
    }

    /// The peers in ascending order of their keys, each with the end of its block. It doesn't
    /// allocate.
    pub fn iter(&self) -> btree_map::Iter<'_, C, Duration>
        ensures all { in_nanos result ≡ self.now }
        ensures sorted { IsStrictlySortedBy C.cmp (keys_of self.now) }
    {
        self.moments.iter()
    }
}

// Keeps a block of the key until this time unless it is blocked at `now`, and finds the first to
// end again if it may have changed.
fn put_block<C: PublicKey>(
    moments: &mut BTreeMap<C, Duration>,
    expirations: &mut BTreeSet<(u128, C)>,
    first: &mut Option<(Duration, C)>,
    key: C,
    now: Duration,
    until: Duration,
) -> Result<bool, AllocError>
    requires { AreKept C.cmp expirations.old.keys (in_nanos moments.old.entries) (end_in_nanos first.old) }
    ensures kept { AreKept C.cmp expirations.new.keys (in_nanos moments.new.entries)
        (end_in_nanos first.new) }
    ensures err { OnErr result (moments.new.entries ≡ moments.old.entries) }
    ensures untaken { is_blocked (unblock_in C.cmp (in_nanos moments.old.entries) key)
        (as_nanos now) ≡ true → result ≡ Ok false }
    ensures answer { IfOk result (λ taken. taken ≡ not (is_blocked
        (unblock_in C.cmp (in_nanos moments.old.entries) key) (as_nanos now))) }
    ensures refused { result ≡ Ok false → moments.new.entries ≡ moments.old.entries }
    ensures taken { result ≡ Ok true → (q : C) → unblock_in C.cmp (in_nanos moments.new.entries) q ≡
        (if is_at (C.cmp key) q then Some (as_nanos until)
        else unblock_in C.cmp (in_nanos moments.old.entries) q) }
{
    if !put_end(moments, expirations, key, now, until)? {
        return Ok(false);
    }
    if !stays_first(first, &key, until) {
        *first = first_to_end(moments, expirations);
    }
    Ok(true)
}

// Whether the block that ends first is of another key, and doesn't end after that of this key at
// this time.
fn stays_first<C: PublicKey>(first: &Option<(Duration, C)>, key: &C, moment: Duration) -> bool
    ensures behind { result ≡ true → IfSome (end_in_nanos first.now)
        (λ e. (is_at (C.cmp key.now) e.1 ≡ false)
        × (is_gt (end_cmp C.cmp e (as_nanos moment, key.now)) ≡ false)) }
    ensures some { result ≡ true → IsSome (end_in_nanos first.now) }
{
    match first {
        Some((end, peer)) => match key.cmp(peer) {
            Ordering::Less => end.as_nanos() < moment.as_nanos(),
            Ordering::Equal => false,
            Ordering::Greater => end.as_nanos() <= moment.as_nanos(),
        },
        None => false,
    }
}

// Sets the end of the key's block in both collections, unless the key is blocked at `now`. If an
// allocation fails, both have the same pairs as before.
fn put_end<C: PublicKey>(
    moments: &mut BTreeMap<C, Duration>,
    expirations: &mut BTreeSet<(u128, C)>,
    key: C,
    now: Duration,
    until: Duration,
) -> Result<bool, AllocError>
    requires { AreExpirations C.cmp expirations.old.keys (in_nanos moments.old.entries) }
    ensures err { OnErr result ((moments.new.entries ≡ moments.old.entries)
        × (expirations.new.keys ≡ expirations.old.keys)) }
    ensures untaken { is_blocked (option_map as_nanos (get C.cmp moments.old key))
        (as_nanos now) ≡ true → result ≡ Ok false }
    ensures answer { IfOk result (λ taken. taken ≡
        not (is_blocked (option_map as_nanos (get C.cmp moments.old key)) (as_nanos now))) }
    ensures refused { result ≡ Ok false → (moments.new.entries ≡ moments.old.entries)
        × (expirations.new.keys ≡ expirations.old.keys) }
    ensures taken { result ≡ Ok true → (q : C) → get C.cmp moments.new q ≡
        (if is_at (C.cmp key) q then Some until else get C.cmp moments.old q) }
    ensures expirations { result ≡ Ok true → (new : List (C × ℕ)) → ((q : C) → unblock_in C.cmp new q ≡
        (if is_at (C.cmp key) q then Some (as_nanos until)
        else unblock_in C.cmp (in_nanos moments.old.entries) q)) → AreExpirations C.cmp expirations.new.keys new }
{
    match moments.entry(key) {
        Ok(Entry::Occupied(mut entry)) => {
            let before = *entry.get();
            if now.as_nanos() < before.as_nanos() {
                return Ok(false);
            }
            move_end(expirations, key, before, until)?;
            entry.insert(until);
            Ok(true)
        }
        Ok(Entry::Vacant(entry)) => {
            entry.insert(until);
            if let Err(AllocError) = add_end(expirations, key, until) {
                moments.remove(&key);
                return Err(AllocError);
            }
            Ok(true)
        }
        Err(refused) => {
            drop_value(refused);
            Err(AllocError)
        }
    }
}

// Adds this end of the key's block to those that are kept.
fn add_end<C: PublicKey>(
    expirations: &mut BTreeSet<(u128, C)>,
    key: C,
    until: Duration,
) -> Result<(), AllocError>
    ensures err { OnErr result (expirations.new.keys ≡ expirations.old.keys) }
    ensures ok { OnOk result ((e : ℕ × C) → contains (end_cmp C.cmp) expirations.new e ≡
        (if is_at (end_cmp C.cmp (as_nanos until, key)) e then true
        else contains (end_cmp C.cmp) expirations.old e)) }
{
    match expirations.insert((until.as_nanos(), key)) {
        Ok(_added) => Ok(()),
        Err(refused) => {
            drop_value(refused);
            Err(AllocError)
        }
    }
}

// Puts an end of the key's block in the place of the one that it has: `before`.
fn move_end<C: PublicKey>(
    expirations: &mut BTreeSet<(u128, C)>,
    key: C,
    before: Duration,
    until: Duration,
) -> Result<(), AllocError>
    ensures err { OnErr result (expirations.new.keys ≡ expirations.old.keys) }
    ensures ok { OnOk result ((old new : List (C × ℕ)) → AreExpirations C.cmp expirations.old.keys old →
        unblock_in C.cmp old key ≡ Some (as_nanos before) →
        ((q : C) → unblock_in C.cmp new q ≡
        (if is_at (C.cmp key) q then Some (as_nanos until) else unblock_in C.cmp old q)) →
        AreExpirations C.cmp expirations.new.keys new) }
{
    if before.as_nanos() == until.as_nanos() {
        return Ok(());
    }
    add_end(expirations, key, until)?;
    expirations.remove(&(before.as_nanos(), key));
    Ok(())
}

// The block that ends first, with its time as it was passed in.
fn first_to_end<C: PublicKey>(
    moments: &BTreeMap<C, Duration>,
    expirations: &BTreeSet<(u128, C)>,
) -> Option<(Duration, C)>
    requires { AreExpirations C.cmp expirations.now.keys (in_nanos moments.now.entries) }
    ensures { IsFirstOf C.cmp (unblock_in C.cmp (in_nanos moments.now.entries))
        (end_in_nanos result) }
{
    let (_, key) = expirations.first()?;
    let moment = moments.get(key)?;
    Some((*moment, *key))
}

// Removes the first of the blocks' ends if it is at or before `now`.
fn take_ended<C: PublicKey>(
    expirations: &mut BTreeSet<(u128, C)>,
    now: Duration,
) -> Option<(u128, C)>
    ensures some { IfSome result (λ end. (end.0 ≤ as_nanos now)
        × (contains (end_cmp C.cmp) expirations.old end ≡ true)
        × ((e : ℕ × C) → contains (end_cmp C.cmp) expirations.new e ≡
        (if is_at (end_cmp C.cmp end) e then false else contains (end_cmp C.cmp) expirations.old e))
        × (length expirations.new.keys < length expirations.old.keys)) }
    ensures none { IfNone result ((e : ℕ × C)
        → contains (end_cmp C.cmp) expirations.old e ≡ true → as_nanos now < e.0) }
    ensures stay { IfNone result (expirations.new.keys ≡ expirations.old.keys) }
{
    match expirations.first() {
        Some((end, _)) if *end <= now.as_nanos() => expirations.pop_first(),
        _ => None,
    }
}

// Removes each block that is kept and ends at or before `now`, and returns how many there were.
fn drop_ended<C: PublicKey>(
    moments: &mut BTreeMap<C, Duration>,
    expirations: &mut BTreeSet<(u128, C)>,
    first: &mut Option<(Duration, C)>,
    now: Duration,
) -> usize
    requires { AreKept C.cmp expirations.old.keys (in_nanos moments.old.entries) (end_in_nanos first.old) }
    ensures kept { AreKept C.cmp expirations.new.keys (in_nanos moments.new.entries)
        (end_in_nanos first.new) }
    ensures left { in_nanos moments.new.entries ≡
        filter (is_later (as_nanos now)) (in_nanos moments.old.entries) }
    ensures count { result ≡
        count_by (λ e. not (is_later (as_nanos now) e)) (in_nanos moments.old.entries) }
{
    // For the proof: the contract of `len` says that the keys are in order.
    let _most = moments.len();
    if !has_ended(first, now) {
        return 0;
    }
    let count = take_each(moments, expirations, now);
    *first = first_to_end(moments, expirations);
    count
}

// Whether there is a block that ends first, and it ends at or before `now`.
fn has_ended<C: PublicKey>(first: &Option<(Duration, C)>, now: Duration) -> bool
    ensures { result ≡
        option_map_or (λ e. nat_le e.0 (as_nanos now)) (end_in_nanos first.now) false }
{
    match first {
        Some((end, _)) => end.as_nanos() <= now.as_nanos(),
        None => false,
    }
}

// Removes each block that is kept and ends at or before `now`, from both collections, and returns
// how many there were.
fn take_each<C: PublicKey>(
    moments: &mut BTreeMap<C, Duration>,
    expirations: &mut BTreeSet<(u128, C)>,
    now: Duration,
) -> usize
    requires { AreExpirations C.cmp expirations.old.keys (in_nanos moments.old.entries) }
    ensures expirations { AreExpirations C.cmp expirations.new.keys (in_nanos moments.new.entries) }
    ensures left { in_nanos moments.new.entries ≡
        filter (is_later (as_nanos now)) (in_nanos moments.old.entries) }
    ensures count { result ≡
        count_by (λ e. not (is_later (as_nanos now) e)) (in_nanos moments.old.entries) }
{
    let mut count = 0;
    let _most = moments.len();
    while let Some(end) = take_ended(expirations, now) {
        moments.remove(&end.1);
        count += 1;
    }
    count
}
