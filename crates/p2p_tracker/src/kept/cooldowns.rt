//! From when peers may be reserved and dialled again.

ghost use Rattle.std.specs.Prelude.{◌≡◌, ◌≤◌, [], false, not, length, if◌then◌else◌};
ghost use Rattle.std.specs.Prelude.{OnErr, OnOk, Some};
ghost use Rattle.std.specs.Duration.{as_nanos};
ghost use Rattle.std.specs.List.{filter, All};
ghost use Rattle.std.specs.List.Sorted.{IsStrictlySortedBy};
ghost use Rattle.std.specs.Map.{keys_of, values_of};
ghost use Rattle.std.specs.BTreeMap.{is_at};
ghost use Rattle.std.specs.Option.{option_map};
ghost use Rattle.p2p_tracker.specs.Cooldowns.{cooldown_view, cooldowns_view, cooldown_in};
ghost use Rattle.p2p_tracker.specs.Cooldowns.{has_cooled};

use crate::kept::maps::drop_value;
use p2p_discovery::codec::PublicKey;
use std::alloc::{AllocError, Global};
use std::collections::{BTreeMap, btree_map};
use std::marker::Model;
use std::time::Duration;

/// Peers, each with its cooldown, two durations since the epoch: from when it may be reserved
/// again, and from when it is dialable again. A contract sees the list of them in ascending order
/// of their keys, with the times in nanoseconds.
#[derive(Drop)]
pub struct Cooldowns<C: PublicKey> {
    moments: BTreeMap<C, (Duration, Duration)>,
    // No dial time is less, in nanoseconds.
    bound: u128,
}

impl<C: PublicKey> Model for Cooldowns<C> {
    ghost use Rattle.std.specs.Prelude.{◌≤◌, List};
    ghost use Rattle.std.specs.Duration.{as_nanos};
    ghost use Rattle.std.specs.List.{All};
    ghost use Rattle.std.specs.Map.{values_of};
    ghost use Rattle.p2p_tracker.specs.Calls.{Cooldown};
    ghost use Rattle.p2p_tracker.specs.Cooldowns.{cooldowns_view};

    ghost Value = { List (C × Cooldown) };

    ghost view = { λ c. cooldowns_view c.moments.entries };

    ghost invariant = { λ c.
        All (λ m. c.bound ≤ as_nanos m.1) (values_of c.moments.entries) };
}

impl<C: PublicKey> Cooldowns<C> {
    /// No cooldowns. It doesn't allocate.
    pub fn new(alloc: Global) -> Self
        ensures { result ≡ [] }
    {
        Cooldowns {
            moments: BTreeMap::new(alloc),
            bound: u128::MAX,
        }
    }

    /// Keeps the peer's cooldown, replacing any that it had. Other peers keep theirs.
    ///
    /// # Errors
    ///
    /// `AllocError` if an allocation fails; then nothing has changed.
    ///
    /// # Cost
    ///
    /// One search among the peers.
    pub fn put(&mut self, key: C, moments: (Duration, Duration)) -> Result<(), AllocError>
        ensures err { OnErr result (self.new ≡ self.old) }
        ensures ok { OnOk result ((q : C) → cooldown_in C.cmp self.new q ≡
            (if is_at (C.cmp key) q then Some (cooldown_view moments)
            else cooldown_in C.cmp self.old q)) }
    {
        put_cooldown(&mut self.moments, &mut self.bound, key, moments)
    }

    /// The cooldown that is kept of the peer, or `None` if it has none. It doesn't allocate.
    ///
    /// # Cost
    ///
    /// One search among the peers.
    pub fn get(&self, key: &C) -> Option<(Duration, Duration)>
        ensures { option_map cooldown_view result ≡ cooldown_in C.cmp self.now key.now }
    {
        self.moments.get(key).copied()
    }

    /// Of how many peers cooldowns are kept. It doesn't allocate.
    pub fn len(&self) -> usize
        ensures count { result ≡ length self.now }
        ensures sorted { IsStrictlySortedBy C.cmp (keys_of self.now) }
    {
        self.moments.len()
    }

    /// False only if no dial time of the cooldowns that are kept is at or before `now`, a duration
    /// since the epoch. It doesn't allocate.
    ///
    /// # Cost
    ///
    /// Constant.
    pub fn may_have_cooled(&self, now: Duration) -> bool
        ensures { result ≡ false → filter (has_cooled (as_nanos now)) self.now ≡ [] }
    {
        let _peers = &self.moments;
        self.bound <= now.as_nanos()
    }

    /// The peers in ascending order of their keys, each with its cooldown. It doesn't allocate.
    pub fn iter(&self) -> btree_map::Iter<'_, C, (Duration, Duration)>
        ensures all { cooldowns_view result ≡ self.now }
    {
        self.moments.iter()
    }

    /// Removes from the cooldowns that are kept each peer whose dial time is at or before `now`, a
    /// duration since the epoch. Other peers keep theirs. It doesn't allocate.
    ///
    /// # Cost
    ///
    /// Two passes over the peers.
    pub fn drop_cooled(&mut self, now: Duration)
        ensures { self.new ≡ filter (λ e. not (has_cooled (as_nanos now) e)) self.old }
    {
        keep_later(&mut self.moments, now);
        self.bound = least_dial(&self.moments);
    }
}

// Keeps the key's cooldown, and lowers the bound if its dial time is less.
fn put_cooldown<C: PublicKey>(
    moments: &mut BTreeMap<C, (Duration, Duration)>,
    bound: &mut u128,
    key: C,
    cooldown: (Duration, Duration),
) -> Result<(), AllocError>
    requires { All (λ m. bound.old ≤ as_nanos m.1) (values_of moments.old.entries) }
    ensures bound { All (λ m. bound.new ≤ as_nanos m.1) (values_of moments.new.entries) }
    ensures err { OnErr result (moments.new.entries ≡ moments.old.entries) }
    ensures ok { OnOk result ((q : C) → cooldown_in C.cmp (cooldowns_view moments.new.entries) q ≡
        (if is_at (C.cmp key) q then Some (cooldown_view cooldown)
        else cooldown_in C.cmp (cooldowns_view moments.old.entries) q)) }
{
    match moments.insert(key, cooldown) {
        Ok(_before) => {
            *bound = (*bound).min(cooldown.1.as_nanos());
            Ok(())
        }
        Err(refused) => {
            drop_value(refused);
            Err(AllocError)
        }
    }
}

// Keeps only the cooldowns whose dial time is later than `now`.
fn keep_later<C: PublicKey>(moments: &mut BTreeMap<C, (Duration, Duration)>, now: Duration)
    ensures { cooldowns_view moments.new.entries ≡
        filter (λ e. not (has_cooled (as_nanos now) e)) (cooldowns_view moments.old.entries) }
{
    moments.retain(|_, cooldown| now.as_nanos() < cooldown.1.as_nanos());
}

// The earliest dial time of the cooldowns, in nanoseconds, or `u128::MAX` if there is none.
fn least_dial<C: PublicKey>(moments: &BTreeMap<C, (Duration, Duration)>) -> u128
    ensures { All (λ m. result ≤ as_nanos m.1) (values_of moments.now.entries) }
{
    let mut least = u128::MAX;
    for (_, cooldown) in moments {
        least = least.min(cooldown.1.as_nanos());
    }
    least
}
