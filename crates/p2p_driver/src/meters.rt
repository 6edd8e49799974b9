//! What was read of one link, of gossip and of each channel, and when one more frame may be.

ghost use Rattle.std.specs.Prelude.{◌≡◌, ◌≢◌, ◌<◌, ℕ, None, IfOk, IfSome, length, replicate};
ghost use Rattle.std.specs.Prelude.{slice_index, min, true};
ghost use Rattle.std.specs.Duration.{as_nanos, max_nanos};
ghost use Rattle.p2p_driver.specs.Meters.{IsRead, IsEarly, MayTwice, next_of};

use crate::rate::{Bucket, Rate, saturated};
use std::alloc::{AllocError, Global};
use std::marker::Model;
use std::time::Duration;

/// What is kept of the frames that were read of one link: of gossip, and of each channel of the
/// settings, in their order. A contract sees the moments that are kept, and speaks of any list of
/// moments at which frames were read, of which they are kept.
#[derive(Debug, Drop)]
pub struct Meters {
    gossip: Bucket,
    channels: Vec<Bucket>,
}

impl Model for Meters {
    ghost use Rattle.p2p_driver.specs.Meters.{MetersView};

    ghost Value = { MetersView };

    ghost view = { λ m. record { gossip = m.gossip; channels = m.channels.items } };
}

impl Meters {
    /// Nothing was read, of gossip and of so many channels.
    ///
    /// # Errors
    ///
    /// `AllocError` if an allocation fails. None is made if there are no channels.
    ///
    /// # Cost
    ///
    /// Linear in the number of channels.
    pub fn new(alloc: Global, channels: usize) -> Result<Self, AllocError>
        ensures { IfOk result (λ meters. meters ≡ record {
          gossip = 0;
          channels = replicate channels 0;
        }) }
    {
        let empty = Bucket::new();
        let channels = vec![in alloc; empty; channels]?;
        Ok(Meters {
            gossip: empty,
            channels,
        })
    }

    /// How many channels there are. It doesn't allocate.
    pub fn len(&self) -> usize
        ensures { result ≡ length self.now.channels }
    {
        self.channels.len()
    }

    /// Takes a frame of gossip at the time `now` and returns `None`, if one more may be read then
    /// at the rate at which all were. Else it returns the first time at which one more may, or the
    /// greatest `Duration` if that is earlier, and nothing changes. What is kept of channels stays.
    /// It doesn't allocate.
    pub fn take_gossip(&mut self, rate: Rate, now: Duration) -> Option<Duration>
        ensures read { result ≡ None →
            IsRead rate (as_nanos now) self.old.gossip self.new.gossip }
        ensures early { IfSome result (λ next.
            IsEarly rate (as_nanos now) self.old.gossip (as_nanos next)) }
        ensures next { IfSome result (λ next.
            as_nanos next ≡ min (next_of rate self.old.gossip) max_nanos) }
        ensures unchanged { IfSome result (λ next. self.new ≡ self.old) }
        ensures channels { self.new.channels ≡ self.old.channels }
    {
        take(&mut self.gossip, rate, now)
    }

    /// Takes a message of the channel at a position of the settings at the time `now` and returns
    /// `None`, if one more may be read then at the rate at which all of that channel were. Else it
    /// returns the first time at which one more may, or the greatest `Duration` if that is earlier,
    /// and nothing changes. What is kept of gossip and of the other channels stays. It doesn't
    /// allocate.
    ///
    /// # Conditions
    ///
    /// There are more channels than `place`.
    pub fn take_message(&mut self, place: usize, rate: Rate, now: Duration) -> Option<Duration>
        requires { place < length self.old.channels }
        ensures read { result ≡ None → IsRead rate (as_nanos now)
            (slice_index self.old.channels place) (slice_index self.new.channels place) }
        ensures early { IfSome result (λ next.
            IsEarly rate (as_nanos now) (slice_index self.old.channels place) (as_nanos next)) }
        ensures next { IfSome result (λ next. as_nanos next
            ≡ min (next_of rate (slice_index self.old.channels place)) max_nanos) }
        ensures unchanged { IfSome result (λ next. self.new ≡ self.old) }
        ensures gossip { self.new.gossip ≡ self.old.gossip }
        ensures others { (other : ℕ) → other ≢ place →
            slice_index self.new.channels other ≡ slice_index self.old.channels other }
        ensures count { length self.new.channels ≡ length self.old.channels }
    {
        take(&mut self.channels[place], rate, now)
    }

    /// Whether one more message of the channel at a position may be taken at the time `now`, and
    /// then one more at once, at the rate at which all of that channel were. It doesn't allocate.
    ///
    /// # Conditions
    ///
    /// There are more channels than `place`.
    pub fn may_take_two(&self, place: usize, rate: Rate, now: Duration) -> bool
        requires { place < length self.now.channels }
        ensures { result ≡ true →
            MayTwice rate (as_nanos now) (slice_index self.now.channels place) }
    {
        may_twice(self.channels[place], rate, now)
    }
}

// Whether one more may happen at the time `now`, and then one more at once.
fn may_twice(bucket: Bucket, rate: Rate, now: Duration) -> bool
    ensures { result ≡ true → MayTwice rate (as_nanos now) bucket }
{
    let mut then = bucket;
    then.take(rate, now) && then.next(rate) <= now.as_nanos()
}

// Takes one at the time `now`, if one more may happen. Else it returns the first time at which one
// more may, or the greatest there is if that is earlier, and nothing changes.
fn take(bucket: &mut Bucket, rate: Rate, now: Duration) -> Option<Duration>
    ensures read { result ≡ None → IsRead rate (as_nanos now) bucket.old bucket.new }
    ensures early { IfSome result (λ next.
        IsEarly rate (as_nanos now) bucket.old (as_nanos next)) }
    ensures next { IfSome result (λ next.
        as_nanos next ≡ min (next_of rate bucket.old) max_nanos) }
    ensures unchanged { IfSome result (λ next. bucket.new ≡ bucket.old) }
{
    if bucket.take(rate, now) {
        return None;
    }
    Some(saturated(bucket.next(rate)))
}
