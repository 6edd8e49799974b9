//! At which rate claims of inbound streams are answered.

ghost use Rattle.std.specs.Prelude.{◌≡◌, ◌≤◌, ◌<◌, ◌+◌, ◌-◌, ◌*◌, ℕ, List, [], ◌∷◌, true, false};
ghost use Rattle.std.specs.Prelude.{OnErr, OnOk, vec_len, vec_capacity};
ghost use Rattle.std.specs.Prelude.{if◌then◌else◌, not, map, find, option_map};
ghost use Rattle.std.specs.List.{filter};
ghost use Rattle.std.specs.Duration.{as_nanos};
ghost use Rattle.std.specs.Int.NonZero.{non_zero_u32_get};
ghost use Rattle.p2p_driver.specs.Rates.{count_in};
ghost use Rattle.p2p_driver.specs.Answers.{AreKept, MayAnswer, AreAnswered, kept_of, left_of};
ghost use Rattle.p2p_driver.specs.Answers.{times_of, is_origin, AreDistinct};

use crate::origin::Origin;
use crate::pace::Pace;
use crate::rate::Bucket;
use std::alloc::{AllocError, Global};
use std::marker::Model;
use std::time::Duration;

/// What is kept of the claims that were answered: of all of them, and of each origin of which not
/// all is over. A contract sees the moments that are kept, and speaks of any list of claims, each
/// an origin with a moment, of which they are kept. A claim is answered without an allocation,
/// which `reserve` makes beforehand: a contract also sees for how many claims room is promised.
#[derive(Drop)]
pub struct Answers {
    all: Bucket,
    of_origins: Vec<(u128, Bucket)>,
    promised: usize,
}

impl Model for Answers {
    ghost use Rattle.std.specs.Prelude.{◌≤◌, ◌+◌, vec_len, vec_capacity};
    ghost use Rattle.p2p_driver.specs.Answers.{AnswersView, AreDistinct};

    ghost Value = { AnswersView };

    ghost view = { λ a.
        record { all = a.all; of_origins = a.of_origins.items; room = a.promised } };

    ghost invariant = { λ a. AreDistinct a.of_origins.items
        × (vec_len a.of_origins + a.promised ≤ vec_capacity a.of_origins) };
}

impl Answers {
    /// No claim was answered, and no room is promised. It doesn't allocate.
    pub fn new(alloc: Global) -> Self
        ensures kept { (pace : Pace) (now : ℕ) → AreKept pace now [] result }
        ensures room { result.room ≡ 0 }
    {
        Answers {
            all: Bucket::new(),
            of_origins: Vec::new(alloc),
            promised: 0,
        }
    }

    /// Promises room for one more claim. What is kept stays.
    ///
    /// # Errors
    ///
    /// `AllocError` if an allocation fails. Nothing changes then.
    ///
    /// # Cost
    ///
    /// What is kept of the origins may be moved once.
    pub fn reserve(&mut self) -> Result<(), AllocError>
        ensures ok { OnOk result (self.new ≡ record {
          all = self.old.all;
          of_origins = self.old.of_origins;
          room = self.old.room + 1;
        }) }
        ensures err { OnErr result (self.new ≡ self.old) }
    {
        let Some(promised) = self.promised.checked_add(1) else {
            return Err(AllocError);
        };
        self.of_origins.reserve(promised)?;
        self.promised = promised;
        Ok(())
    }

    /// Gives back the room for one claim, which isn't needed. What is kept stays.
    pub fn give_back(&mut self)
        requires { 0 < self.old.room }
        ensures { self.new ≡ record {
          all = self.old.all;
          of_origins = self.old.of_origins;
          room = self.old.room - 1;
        } }
    {
        self.promised -= 1;
    }

    /// Keeps room for so many claims, and gives back the rest, which isn't needed. What is kept
    /// stays.
    pub fn settle(&mut self, count: usize)
        requires { count ≤ self.old.room }
        ensures { self.new ≡ record {
          all = self.old.all;
          of_origins = self.old.of_origins;
          room = count;
        } }
    {
        self.promised = count;
    }

    /// Answers a claim of a stream of the origin at the steady time `now`, if the rate of all
    /// claims has one left, and that of the origin. Returns whether it does. What is over is
    /// forgotten. It takes room that was promised for the claim, whatever it returns, and doesn't
    /// allocate.
    ///
    /// # Cost
    ///
    /// Three passes over the origins of which something is kept.
    pub fn answer(&mut self, origin: Origin, pace: &Pace, now: Duration) -> bool
        requires { 0 < self.old.room }
        ensures answered { result ≡ true → (claims : List (ℕ × ℕ)) →
            AreKept pace.now (as_nanos now) claims self.old →
            MayAnswer pace.now (as_nanos now) origin.0 claims
            × AreKept pace.now (as_nanos now) ((origin.0, as_nanos now) ∷ claims) self.new }
        ensures refused { result ≡ false → (claims : List (ℕ × ℕ)) →
            AreKept pace.now (as_nanos now) claims self.old →
            (MayAnswer pace.now (as_nanos now) origin.0 claims → ⊥)
            × AreKept pace.now (as_nanos now) claims self.new }
        ensures room { self.new.room + 1 ≡ self.old.room }
    {
        self.promised -= 1;
        forget_full(&mut self.of_origins, now);
        let mut all = self.all;
        let mut bucket = bucket_of(&self.of_origins, origin);
        if !all.take(pace.answers, now) {
            return false;
        }
        if !bucket.take(pace.answers_of_address, now) {
            return false;
        }
        put(&mut self.of_origins, origin, bucket);
        self.all = all;
        true
    }
}

// Forgets the buckets that are full at this time.
fn forget_full(buckets: &mut Vec<(u128, Bucket)>, now: Duration)
    requires { AreDistinct buckets.old.items }
    ensures kept { (o : ℕ) → kept_of buckets.new.items o
        ≡ left_of (as_nanos now) (kept_of buckets.old.items o) }
    ensures distinct { AreDistinct buckets.new.items }
    ensures capacity { vec_capacity buckets.new ≡ vec_capacity buckets.old }
    ensures length { vec_len buckets.new ≤ vec_len buckets.old }
{
    buckets.retain(|kept| !kept.1.is_full(now));
}

// The bucket of the origin.
fn bucket_of(buckets: &[(u128, Bucket)], origin: Origin) -> Bucket
    ensures { result ≡ kept_of buckets.now origin.0 }
{
    match found(buckets, origin) {
        Some(bucket) => bucket,
        None => Bucket::new(),
    }
}

// The bucket that is kept of the origin, if one is.
fn found(buckets: &[(u128, Bucket)], origin: Origin) -> Option<Bucket>
    ensures { result ≡ option_map (λ e. e.1) (find (λ e. is_origin origin.0 e.0) buckets.now) }
{
    buckets
        .iter()
        .find(|kept| origin.0 == kept.0)
        .map(|kept| kept.1)
}

// Keeps the bucket of the origin, in room for it.
fn put(buckets: &mut Vec<(u128, Bucket)>, origin: Origin, bucket: Bucket)
    requires distinct { AreDistinct buckets.old.items }
    requires room { vec_len buckets.old < vec_capacity buckets.old }
    ensures kept { (o : ℕ) → kept_of buckets.new.items o
        ≡ (if is_origin origin.0 o then bucket else kept_of buckets.old.items o) }
    ensures distinct { AreDistinct buckets.new.items }
    ensures capacity { vec_capacity buckets.new ≡ vec_capacity buckets.old }
    ensures length { vec_len buckets.new ≤ vec_len buckets.old + 1 }
{
    forget(buckets, origin);
    buckets.push_reserved((origin.0, bucket));
}

// Forgets the bucket of the origin.
fn forget(buckets: &mut Vec<(u128, Bucket)>, origin: Origin)
    ensures items { buckets.new.items
        ≡ filter (λ e. not (is_origin origin.0 e.0)) buckets.old.items }
    ensures capacity { vec_capacity buckets.new ≡ vec_capacity buckets.old }
    ensures length { vec_len buckets.new ≤ vec_len buckets.old }
{
    buckets.retain(|kept| origin.0 != kept.0);
}

/// By a law of claims, of those that were answered there are in a window of time no more than a
/// burst, and one more for each refill of the window's length, at the rate of all, and of those of
/// one origin at its rate.
pub fn claims_are_few()
    ensures all { (pace : Pace) (claims : List (ℕ × ℕ)) → AreAnswered pace claims →
        let burst = non_zero_u32_get pace.answers.burst in
        let refill = as_nanos pace.answers.refill in
        (from size : ℕ) →
        count_in from size (map (λ c. c.1) claims) * refill ≤ burst * refill + size }
    ensures of_origin { (pace : Pace) (claims : List (ℕ × ℕ)) → AreAnswered pace claims →
        let burst = non_zero_u32_get pace.answers_of_address.burst in
        let refill = as_nanos pace.answers_of_address.refill in
        (o from size : ℕ) →
        count_in from size (times_of o claims) * refill ≤ burst * refill + size }
{}
