//! What was read of all links, and when one more frame may be.

ghost use Rattle.std.specs.Prelude.{◌≡◌, ◌≤◌, ◌+◌, ◌==◌, [], ℕ, List, length, Some, None};
ghost use Rattle.std.specs.Prelude.{OnOk, OnErr};
ghost use Rattle.std.specs.Prelude.{true, false, IfSome, if◌then◌else◌, is_some};
ghost use Rattle.std.specs.Option.{IsSomeAnd};
ghost use Rattle.std.specs.Duration.{as_nanos, max_nanos};
ghost use Rattle.std.specs.BTreeMap.{is_at, insert_entry};
ghost use Rattle.std.specs.Map.{remove_entry};
ghost use Rattle.std.specs.Ordering.{nat_cmp};
ghost use Rattle.p2p_driver.specs.Meters.{MetersView, IsEarly, MayTwice};
ghost use Rattle.p2p_driver.specs.Reads.{reads_of, unread, kept_in, HasPlace, Takes};

use crate::meters::Meters;
use crate::rate::Rate;
use std::alloc::{AllocError, Global};
use std::collections::BTreeMap;
use std::marker::Model;
use std::time::Duration;

/// What is kept of the frames that were read of all links, by the numbers of the links. A driver
/// has two channels here for each of the settings: first those of which messages are read, and then
/// those on which they are said. A contract sees the list of them, in ascending order of the
/// numbers.
#[derive(Drop)]
pub struct Reads {
    alloc: Global,
    of_links: BTreeMap<u64, Meters>,
}

impl Model for Reads {
    ghost use Rattle.std.specs.Prelude.{ℕ, List};
    ghost use Rattle.p2p_driver.specs.Meters.{MetersView};

    ghost Value = { List (ℕ × MetersView) };

    ghost view = { λ r. r.of_links.entries };
}

impl Reads {
    /// No links. It doesn't allocate.
    pub fn new(alloc: Global) -> Self
        ensures { result ≡ [] }
    {
        Reads {
            alloc,
            of_links: BTreeMap::new(alloc),
        }
    }

    /// Keeps that nothing was read of the link with the number, which has so many channels. What is
    /// kept of all other links stays.
    ///
    /// # Conditions
    ///
    /// Nothing is kept of the link.
    ///
    /// # Errors
    ///
    /// `AllocError` if an allocation fails. Nothing changes then.
    ///
    /// # Cost
    ///
    /// Linear in the number of channels, and one search among the links.
    pub fn begin(&mut self, number: u64, channels: usize) -> Result<(), AllocError>
        requires { reads_of self.old number ≡ None }
        ensures ok { OnOk result ((n : ℕ) → reads_of self.new n ≡
            (if n == number then Some (unread channels) else reads_of self.old n)) }
        ensures entries { OnOk result (self.new ≡
            insert_entry nat_cmp self.old number (unread channels)) }
        ensures count { OnOk result (length self.new ≡ length self.old + 1) }
        ensures err { OnErr result (self.new ≡ self.old) }
    {
        let meters = Meters::new(self.alloc, channels)?;
        match self.of_links.insert(number, meters) {
            Ok(_before) => Ok(()),
            Err(_refused) => Err(AllocError),
        }
    }

    /// Keeps nothing of the link with the number any longer. What is kept of all other links stays.
    /// It doesn't allocate.
    ///
    /// # Cost
    ///
    /// One search among the links.
    pub fn end(&mut self, number: u64)
        ensures reads { (n : ℕ) → reads_of self.new n ≡
            (if n == number then None else reads_of self.old n) }
        ensures entries { self.new ≡ remove_entry (is_at (nat_cmp number)) self.old }
        ensures count { length self.new + (if is_some (reads_of self.old number) then 1 else 0)
            ≡ length self.old }
        ensures undoes { (before : List (ℕ × MetersView)) (m : MetersView) →
            self.old ≡ insert_entry nat_cmp before number m → reads_of before number ≡ None →
            self.new ≡ before }
    {
        let _meters = self.of_links.remove(&number);
    }

    /// Takes a frame of the link with the number, of gossip if `place` is `None`, else of the
    /// channel at that position of the settings, at the time `now` and returns `None`, if one more
    /// may be read then at the rate at which all of them were. Else it returns the first time at
    /// which one more may, or the greatest `Duration` if that is earlier, and nothing changes. What
    /// is kept of all else stays. It doesn't allocate.
    ///
    /// # Conditions
    ///
    /// The link is kept, and has more channels than `place`.
    ///
    /// # Cost
    ///
    /// One search among the links.
    pub fn take(
        &mut self,
        number: u64,
        place: Option<usize>,
        rate: Rate,
        now: Duration,
    ) -> Option<Duration>
        requires { IsSomeAnd (reads_of self.old number) (λ m. HasPlace place m) }
        ensures read { result ≡ None → (m : MetersView) → reads_of self.old number ≡ Some m →
            (m2 : MetersView) × (reads_of self.new number ≡ Some m2)
            × Takes rate (as_nanos now) place m m2 }
        ensures early { IfSome result (λ next. (m : MetersView) →
            reads_of self.old number ≡ Some m →
            IsEarly rate (as_nanos now) (kept_in place m) (as_nanos next)) }
        ensures bound { IfSome result (λ next. as_nanos next ≤ max_nanos) }
        ensures others { (n : ℕ) → (n == number) ≡ false →
            reads_of self.new n ≡ reads_of self.old n }
        ensures unchanged { IfSome result (λ next. self.new ≡ self.old) }
        ensures count { length self.new ≡ length self.old }
    {
        let Some(meters) = self.of_links.get_mut(&number) else {
            return None;
        };
        take(meters, place, rate, now)
    }

    /// Whether one more message of the link with the number may be taken at the time `now`, and
    /// then one more at once: of the channel at that position, at the rate at which all of them
    /// were. False if the link isn't kept, or has no such channel. It doesn't allocate.
    ///
    /// # Cost
    ///
    /// One search among the links.
    pub fn may_take_two(&self, number: u64, place: usize, rate: Rate, now: Duration) -> bool
        ensures { result ≡ true → IsSomeAnd (reads_of self.now number) (λ m.
            HasPlace (Some place) m × MayTwice rate (as_nanos now) (kept_in (Some place) m)) }
    {
        match self.of_links.get(&number) {
            Some(meters) => place < meters.len() && meters.may_take_two(place, rate, now),
            None => false,
        }
    }
}

// Takes a frame of a link, of gossip or of the channel at the position.
fn take(meters: &mut Meters, place: Option<usize>, rate: Rate, now: Duration) -> Option<Duration>
    requires { HasPlace place meters.old }
    ensures read { result ≡ None → Takes rate (as_nanos now) place meters.old meters.new }
    ensures early { IfSome result (λ next.
        IsEarly rate (as_nanos now) (kept_in place meters.old) (as_nanos next)) }
    ensures bound { IfSome result (λ next. as_nanos next ≤ max_nanos) }
    ensures unchanged { IfSome result (λ next. meters.new ≡ meters.old) }
{
    match place {
        None => meters.take_gossip(rate, now),
        Some(place) => meters.take_message(place, rate, now),
    }
}
