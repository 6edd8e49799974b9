//! Forgetting of cooldowns.

ghost use Rattle.std.specs.Prelude.{◌≡◌, ◌∷◌, [], Some, length, if◌then◌else◌};
ghost use Rattle.std.specs.Option.{option_map};
ghost use Rattle.std.specs.List.{filter};
ghost use Rattle.std.specs.Duration.{as_nanos};
ghost use Rattle.p2p_tracker.specs.Record.{with_cooldown};
ghost use Rattle.p2p_tracker.specs.Seen.{record_at};
ghost use Rattle.p2p_tracker.specs.Cooldowns.{cooldown_in, cooldown_view, has_cooled};
ghost use Rattle.p2p_tracker.specs.Cooldowns.{unless_cooled};
ghost use Rattle.p2p_tracker.specs.Private.Counts.{AreCooled, cleared_at};
ghost use Rattle.p2p_tracker.specs.Private.Dialling.{least_by};

use crate::directory::Directory;
use crate::directory::records::Records;
use crate::directory::records::listing::earliest;
use crate::kept::cooldowns::Cooldowns;
use p2p_discovery::codec::PublicKey;
use std::time::Duration;

impl<C: PublicKey> Directory<C> {
    ghost use Rattle.p2p_tracker.specs.Directory.{StayBusy, StayReserved};
    ghost use Rattle.p2p_tracker.specs.Directory.{IsNumberCooledIn, ForgetsCooled, dial_moment_in};
    ghost use Rattle.p2p_tracker.specs.Lists.{IsLeastOf};

    /// Forgets the cooldown of each of the directory's peers that has cooled, by a dial time at or
    /// before `now`, and returns how many there were. The time is a duration since the epoch. Such
    /// a peer is reservable and dialable from the epoch on, also in its record if it has one.
    /// Nothing else changes. It doesn't allocate.
    ///
    /// # Cost
    ///
    /// Constant while `now` is before the dial times that were left by the last call that forgot
    /// any, and before those of all grants since. Otherwise three passes over the cooldowns, and
    /// for each such peer one search among the records.
    pub fn forget_cooled(&mut self, now: Duration) -> usize
        ensures answer { IsNumberCooledIn C.cmp self.old (as_nanos now) result }
        ensures forgotten { ForgetsCooled C.cmp self.old self.new (as_nanos now) }
        ensures busy { StayBusy C.cmp self.old self.new }
        ensures reserved { StayReserved C.cmp self.old self.new }
    {
        let _kept = self.cooldowns.len();
        forget_each(&mut self.records, &mut self.cooldowns, now)
    }

    /// The earliest time, a duration since the epoch, at which a peer has cooled and
    /// [`Directory::forget_cooled`] forgets something: the earliest of the dial times. `None` if
    /// there are no cooldowns. It doesn't allocate.
    ///
    /// # Cost
    ///
    /// One pass over the cooldowns.
    pub fn next_cooled(&self) -> Option<Duration>
        ensures { IsLeastOf (dial_moment_in C.cmp self.now) (option_map as_nanos result) }
    {
        // For the proof: the contract of `len` says that the keys are in order.
        let _kept = self.cooldowns.len();
        next_dial(&self.cooldowns)
    }
}

// The earliest of the dial times at which one of the directory's peers has cooled.
fn next_dial<C: PublicKey>(cooldowns: &Cooldowns<C>) -> Option<Duration>
    ensures { option_map as_nanos result ≡ least_by (λ e. Some e.1.dial_at) cooldowns.now }
{
    let mut next = None;
    for (_, moments) in cooldowns.iter() {
        next = Some(earliest(next, moments.1));
    }
    next
}

// Forgets the cooldown of each of the directory's peers that has cooled, by a dial time at or
// before `now`, in its record too, and returns how many there were.
fn forget_each<C: PublicKey>(
    records: &mut Records<C>,
    cooldowns: &mut Cooldowns<C>,
    now: Duration,
) -> usize
    requires { AreCooled C.cmp (record_at C.cmp records.old) (cooldown_in C.cmp cooldowns.old) }
    ensures count { result ≡ length (filter (has_cooled (as_nanos now)) cooldowns.old) }
    ensures cooldowns { (q : C) → cooldown_in C.cmp cooldowns.new q ≡
        unless_cooled (as_nanos now) (cooldown_in C.cmp cooldowns.old q) }
    ensures records { (q : C) → record_at C.cmp records.new q ≡ option_map
        (with_cooldown (cooldown_in C.cmp cooldowns.new q)) (record_at C.cmp records.old q) }
{
    // For the proof: the contract of `len` says that the keys are in order.
    let _most = cooldowns.len();
    if !cooldowns.may_have_cooled(now) {
        return 0;
    }
    let count = clear_each(records, cooldowns, now);
    cooldowns.drop_cooled(now);
    count
}

// Clears the cooldown in the directory's record of each peer that has cooled, by a dial time at or
// before `now`, and returns how many such peers there are.
fn clear_each<C: PublicKey>(
    records: &mut Records<C>,
    cooldowns: &Cooldowns<C>,
    now: Duration,
) -> usize
    ensures count { result ≡ length (filter (has_cooled (as_nanos now)) cooldowns.now) }
    ensures records { (q : C) → record_at C.cmp records.new q ≡
        cleared_at C.cmp (as_nanos now) cooldowns.now q (record_at C.cmp records.old q) }
{
    let _most = cooldowns.len();
    let mut count = 0;
    for (peer, moments) in cooldowns.iter() {
        count += clear_one(records, peer, *moments, now);
    }
    count
}

// Clears this cooldown in the directory's record of the peer if it has cooled, by a dial time at or
// before `now`, and returns their number: 0 or 1.
fn clear_one<C: PublicKey>(
    records: &mut Records<C>,
    peer: &C,
    moments: (Duration, Duration),
    now: Duration,
) -> usize
    ensures count { result ≡
        (if has_cooled (as_nanos now) (peer.now, cooldown_view moments) then 1 else 0) }
    ensures records { (q : C) → record_at C.cmp records.new q ≡
        cleared_at C.cmp (as_nanos now) ((peer.now, cooldown_view moments) ∷ []) q
        (record_at C.cmp records.old q) }
{
    if now.as_nanos() < moments.1.as_nanos() {
        return 0;
    }
    records.forget_cooldown(peer);
    1
}
