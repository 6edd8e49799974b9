//! What changes when a set is added or dropped.

ghost use Rattle.std.specs.Prelude.{◌≡◌, ◌≤◌, ◌++◌, ◌∷◌, [], true, OnOk, OnErr, vec_capacity};
ghost use Rattle.std.specs.List.Sorted.{IsStrictlySortedBy};
ghost use Rattle.p2p_tracker.specs.declared.record.Role.{Role};
ghost use Rattle.p2p_tracker.specs.PeerSets.{latest_index, is_above, AreRolesDisjoint};
ghost use Rattle.p2p_tracker.specs.Directory.{is_known};
ghost use Rattle.p2p_tracker.specs.Seen.{record_at};
ghost use Rattle.p2p_tracker.specs.Cooldowns.{cooldown_in};
ghost use Rattle.p2p_tracker.specs.Private.Window.{plain_set, plain_sets, set_with_bits};
ghost use Rattle.p2p_tracker.specs.Private.Counts.{newest_sets, surplus_count};
ghost use Rattle.p2p_tracker.specs.Private.Counts.{record_joining, IsRestored, DropsOldest};

use crate::directory::records::Records;
use crate::directory::records::counts::ordered;
use crate::kept::cooldowns::Cooldowns;
use crate::kept::maps::drop_value;
use crate::kept::peer_set::PeerSet;
use crate::kept::window::Window;
use p2p_discovery::codec::PublicKey;
use p2p_discovery::sets::OrderedSet;
use std::alloc::AllocError;

/// Adds the set that the directory is to track as the latest, counts it for its peers, and sets its
/// bits. If an allocation fails, nothing has changed.
pub fn add<C: PublicKey>(
    sets: &mut Window<C>,
    records: &mut Records<C>,
    cooldowns: &Cooldowns<C>,
    mut set: PeerSet<C>,
    limit: usize,
) -> Result<(), AllocError>
    requires { is_above set.index (latest_index (plain_sets sets.old)) ≡ true }
    ensures disjoint { OnOk result (AreRolesDisjoint C.cmp (plain_set set)) }
    ensures ok { OnOk result (sets.new ≡ sets.old ++
        set_with_bits (λ q. is_known limit (record_at C.cmp records.old q)) (plain_set set) ∷ []) }
    ensures joined { OnOk result ((q : C) → record_at C.cmp records.new q ≡
        record_joining C.cmp (plain_set set) (cooldown_in C.cmp cooldowns.now q) q
        (record_at C.cmp records.old q)) }
    ensures sets { OnErr result (sets.new ≡ sets.old) }
    ensures records { OnErr result (
        ((q : C) (role : Role) → IsRestored C.cmp role (cooldown_in C.cmp cooldowns.now q)
        (record_at C.cmp records.old q)) →
        records.new ≡ records.old) }
{
    records.join(&mut set, limit, cooldowns)?;
    match sets.push(set) {
        Ok(()) => Ok(()),
        Err(refused) => {
            records.undo(&refused);
            drop_value(refused);
            Err(AllocError)
        }
    }
}

/// Drops the oldest set that the directory tracks if there is one too many, and counts one set less
/// for its peers. Returns the peers that must be disconnected, in the list that is passed in.
pub fn drop_oldest<C: PublicKey>(
    sets: &mut Window<C>,
    records: &mut Records<C>,
    max_sets: usize,
    torn: Vec<C>,
) -> OrderedSet<C>
    requires empty { torn.items ≡ [] }
    requires room { surplus_count max_sets (plain_sets sets.old) ≤ vec_capacity torn }
    ensures sets { sets.new ≡ newest_sets max_sets sets.old }
    ensures sorted { IsStrictlySortedBy C.cmp result }
    ensures change { DropsOldest C.cmp max_sets (plain_sets sets.old)
        (record_at C.cmp records.old) (record_at C.cmp records.new) result }
{
    if sets.len() <= max_sets {
        return ordered(torn);
    }
    match sets.pop_first() {
        Some(oldest) => records.leave(&oldest, torn),
        None => ordered(torn),
    }
}
