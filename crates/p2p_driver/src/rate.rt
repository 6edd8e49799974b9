//! How often something may happen: a burst at once, and one more for each time that passes.

ghost use Rattle.std.specs.Prelude.{◌≡◌, ◌≤◌, ◌<◌, ◌+◌, ◌-◌, ◌*◌, ℕ, List, [], ◌∷◌};
ghost use Rattle.std.specs.Prelude.{true, false, nat_le, min};
ghost use Rattle.std.specs.Duration.{as_nanos, max_nanos};
ghost use Rattle.std.specs.Int.NonZero.{non_zero_u32_get};
ghost use Rattle.p2p_driver.specs.Rates.{IsAllowed, AreAllowed, IsKept, count_in};

use std::marker::Model;
use std::num::NonZeroU32;
use std::time::Duration;

/// A rate: how many may happen at once, and the time in which one more may.
#[derive(Clone, Copy, Debug, PartialEq, Eq)]
pub struct Rate {
    /// How many may happen at once.
    pub burst: NonZeroU32,
    /// The time in which one more may happen.
    pub refill: Duration,
}

/// What is kept of all that happened at a rate: the moment, in nanoseconds, at which a burst may
/// happen again. A contract sees that moment, and speaks of any list of moments of which it is
/// kept.
#[derive(Clone, Copy, Debug)]
pub struct Bucket {
    full_at: u128,
}

impl Model for Bucket {
    ghost use Rattle.std.specs.Prelude.{ℕ, ◌<◌, ◌^◌};

    ghost Value = { ℕ };

    ghost view = { λ b. b.full_at };

    ghost inverse = { λ n. record { full_at = n } };

    ghost invariant = { λ b. b.full_at < 2 ^ 127 };
}

impl Bucket {
    /// The bucket of a rate at which nothing has happened.
    pub fn new() -> Self
        ensures kept { (burst refill now : ℕ) → IsKept burst refill now [] result }
        ensures full { result ≡ 0 }
    {
        Bucket { full_at: 0 }
    }

    /// The first moment, in nanoseconds, from which one more may happen at the rate at which all
    /// has happened: at each moment that is no earlier it may, and at no other one.
    pub fn next(&self, rate: Rate) -> u128
        ensures allowed { let burst = non_zero_u32_get rate.burst in
            let refill = as_nanos rate.refill in
            (happened : List ℕ) (now : ℕ) → IsKept burst refill now happened self.now →
            result ≤ now → IsAllowed burst refill happened now }
        ensures refused { let burst = non_zero_u32_get rate.burst in
            let refill = as_nanos rate.refill in
            (happened : List ℕ) (now : ℕ) → IsKept burst refill now happened self.now →
            now < result → ¬ (IsAllowed burst refill happened now) }
        ensures value { result ≡
            self.now - (non_zero_u32_get rate.burst - 1) * as_nanos rate.refill }
    {
        let slack = (rate.burst.get() - 1) as u128 * rate.refill.as_nanos();
        self.full_at.saturating_sub(slack)
    }

    /// Takes one at the time `now`, if one more may happen, and returns whether it may. If it
    /// mayn't, nothing changes.
    pub fn take(&mut self, rate: Rate, now: Duration) -> bool
        ensures taken { let burst = non_zero_u32_get rate.burst in
            let refill = as_nanos rate.refill in
            let t = as_nanos now in
            result ≡ true → (happened : List ℕ) → IsKept burst refill t happened self.old →
            IsAllowed burst refill happened t × IsKept burst refill t (t ∷ happened) self.new }
        ensures refused { let burst = non_zero_u32_get rate.burst in
            let refill = as_nanos rate.refill in
            let t = as_nanos now in
            result ≡ false → (happened : List ℕ) → IsKept burst refill t happened self.old →
            ¬ (IsAllowed burst refill happened t) }
        ensures unchanged { result ≡ false → self.new ≡ self.old }
    {
        if now.as_nanos() < self.next(rate) {
            return false;
        }
        let from = self.full_at.max(now.as_nanos());
        *self = Bucket {
            full_at: from + rate.refill.as_nanos(),
        };
        true
    }

    /// Whether at the time `now` all that happened counts no more: a new bucket is then as good.
    pub fn is_full(&self, now: Duration) -> bool
        ensures kept { result ≡ true → (burst refill : ℕ) (happened : List ℕ) →
            IsKept burst refill (as_nanos now) happened self.now →
            IsKept burst refill (as_nanos now) happened 0 }
        ensures full { result ≡ nat_le self.now (as_nanos now) }
    {
        self.full_at <= now.as_nanos()
    }
}

// So many nanoseconds, or the greatest duration, if that is less.
pub(crate) fn saturated(nanos: u128) -> Duration
    ensures { as_nanos result ≡ min nanos max_nanos }
{
    if nanos <= Duration::MAX.as_nanos() {
        Duration::from_nanos_u128(nanos)
    } else {
        Duration::MAX
    }
}

/// By a law of rates, if each was allowed when it happened, no more happened in a window of time
/// than a burst, and one more for each refill of the window's length.
pub fn at_most()
    ensures { (burst refill : ℕ) (happened : List ℕ) → 1 ≤ burst →
        AreAllowed burst refill happened →
        (from size : ℕ) → count_in from size happened * refill ≤ burst * refill + size }
{}

// The moment so long after another, in nanoseconds.
pub(crate) fn after(moment: Duration, span: Duration) -> u128
    ensures { result ≡ as_nanos moment + as_nanos span }
{
    moment.as_nanos() + span.as_nanos()
}
