//! What holds between calls.

ghost use Rattle.std.specs.Prelude.{◌≡◌, ◌≤◌, true, false, IfSome, is_some, length, map};
ghost use Rattle.std.specs.Option.{option_map_or};
ghost use Rattle.std.specs.List.Sorted.{IsStrictlySortedBy};
ghost use Rattle.std.specs.Ordering.{nat_cmp};

use crate::directory::Directory;
use p2p_discovery::codec::PublicKey;

impl<C: PublicKey> Directory<C> {
    ghost use Rattle.p2p_tracker.specs.Directory.{is_named_of};
    ghost use Rattle.p2p_tracker.specs.Seen.{record_of, cooldown_of};
    ghost use Rattle.p2p_tracker.specs.Cooldowns.{reservable_from, dialable_from};
    ghost use Rattle.p2p_tracker.specs.Record.{is_deletable, is_myself};
    ghost use Rattle.std.specs.BTreeMap.{is_at};
    ghost use Rattle.p2p_tracker.specs.declared.record.Role.TheVariants as Role;
    ghost use Rattle.p2p_tracker.specs.PeerSets.{set_count};

    /// States the agreement of what the directory keeps, and does nothing. Its contract says what
    /// holds between calls:
    ///
    /// - each record's two counts are the numbers of retained sets that name its peer in that role;
    /// - each peer of a set has a record;
    /// - one key, the local one, has the address `Myself`, and its record is persistent;
    /// - at most `max_sets` sets are retained, in ascending order of index;
    /// - no record is deletable;
    /// - each record has its peer's cooldown, or the epoch twice if there is none.
    pub fn agrees(&self)
        ensures counts { (q : C) → IfSome (record_of C.cmp self.now q) (λ r.
            (r.primary_sets ≡ set_count C.cmp Role.Primary q self.now.sets)
            × (r.secondary_sets ≡ set_count C.cmp Role.Secondary q self.now.sets)) }
        ensures named { (q : C) → is_named_of C.cmp self.now q ≡ true →
            is_some (record_of C.cmp self.now q) ≡ true }
        ensures kept { (q : C) → IfSome (record_of C.cmp self.now q) (λ r.
            is_deletable r ≡ false) }
        ensures cooled { (q : C) → IfSome (record_of C.cmp self.now q) (λ r.
            (r.next_reservable_at ≡ reservable_from (cooldown_of C.cmp self.now q))
            × (r.next_dial_at ≡ dialable_from (cooldown_of C.cmp self.now q))) }
        ensures own { (me : C) × ((q : C) →
            (option_map_or (λ r. is_myself r.address) (record_of C.cmp self.now q) false
            ≡ is_at (C.cmp me) q)
            × IfSome (record_of C.cmp self.now q) (λ r.
            is_myself r.address ≡ true → r.persistent ≡ true)) }
        ensures few { length self.now.sets ≤ self.now.config.max_sets }
        ensures ascending { IsStrictlySortedBy nat_cmp (map (λ set. set.index) self.now.sets) }
    {
        let _count = self.records.len();
        self.sets.agrees();
    }
}
