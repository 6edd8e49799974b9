//! The counts of sets in the records of many peers.

ghost use Rattle.std.specs.Prelude.{◌≡◌, ◌+◌, ◌≤◌, ◌<◌, ◌++◌, ◌∷◌, [], false, true, IfOk, OnOk};
ghost use Rattle.std.specs.Prelude.{OnErr, if◌then◌else◌, length, vec_capacity};
ghost use Rattle.std.specs.List.{filter, IsDistinct};
ghost use Rattle.std.specs.List.Sorted.{IsStrictlySortedBy};
ghost use Rattle.std.specs.Ordering.{eq_by_cmp};
ghost use Rattle.std.specs.Option.{option_map_or};
ghost use Rattle.std.specs.Map.{keys_of};
ghost use Rattle.p2p_tracker.specs.declared.record.Role.{Role};
ghost use Rattle.p2p_tracker.specs.declared.record.Role.TheVariants.{Primary, Secondary};
ghost use Rattle.p2p_tracker.specs.Private.Counts.{one_set_more, one_set_less};
ghost use Rattle.p2p_tracker.specs.Private.Counts.{is_torn_down_without};
ghost use Rattle.p2p_tracker.specs.PeerSets.{AreRolesDisjoint};
ghost use Rattle.p2p_discovery.specs.Ordered.{has_key};
ghost use Rattle.p2p_tracker.specs.Directory.{is_known, ChangesAt};
ghost use Rattle.p2p_tracker.specs.Seen.{record_at};
ghost use Rattle.p2p_tracker.specs.Cooldowns.{cooldown_in};
ghost use Rattle.p2p_tracker.specs.Private.Window.{plain_set, set_with_bits};
ghost use Rattle.p2p_tracker.specs.Private.Counts.{IsOfMap, record_joining, record_leaving};
ghost use Rattle.p2p_tracker.specs.Private.Counts.{is_torn_down_leaving, IsRestored};

use crate::directory::records::{Records, walks};
use crate::kept::cooldowns::Cooldowns;
use crate::kept::maps::drop_value;
use crate::kept::peer_set::PeerSet;
use crate::record::{Record, Role};
use p2p_discovery::codec::PublicKey;
use p2p_discovery::sets::{OrderedSet, SetError};
use std::alloc::AllocError;
use std::collections::btree_map::Entry;

// A walk past so many records takes about as long as one search.
const SPARSE: usize = 5;

impl<C: PublicKey> Records<C> {
    // Counts one more set of the peer among the directory's records, in a new one with its cooldown
    // if it has none. Returns whether the peer's info is known and not wanted.
    fn join_one(
        &mut self,
        peer: &C,
        role: Role,
        limit: usize,
        cooldowns: &Cooldowns<C>,
    ) -> Result<bool, AllocError>
        ensures ok { OnOk result (ChangesAt C.cmp self.old self.new peer.now
            (one_set_more role (cooldown_in C.cmp cooldowns.now peer.now))) }
        ensures known { IfOk result (λ known.
            known ≡ is_known limit (record_at C.cmp self.old peer.now)) }
        ensures err { OnErr result (self.new ≡ self.old) }
    {
        match self.map.entry(*peer) {
            Ok(Entry::Occupied(entry)) => {
                let found = entry.into_mut();
                found.count_more(role);
                Ok(!found.want(limit))
            }
            Ok(Entry::Vacant(entry)) => {
                let mut record = Record::cooled(cooldowns.get(peer));
                record.count_more(role);
                entry.insert(record);
                Ok(false)
            }
            Err(refused) => {
                drop_value(refused);
                Err(AllocError)
            }
        }
    }

    // Counts one set less of the peer among the directory's records, and removes its record if that
    // is deletable then. Returns whether the peer must be disconnected.
    fn leave_one(&mut self, peer: &C, role: Role) -> bool
        ensures records { ChangesAt C.cmp self.old self.new peer.now (one_set_less role) }
        ensures torn { result ≡ option_map_or (is_torn_down_without role)
            (record_at C.cmp self.old peer.now) false }
    {
        let mut torn = false;
        if let Some(found) = self.map.get_mut(peer) {
            torn = found.is_torn_down_without(role);
            found.count_less(role);
            if found.deletable() {
                drop_value(self.map.remove(peer));
            }
        }
        torn
    }

    // Counts one set less in the directory's records of these peers, and adds to a list the peers
    // that must be disconnected.
    fn leave_each(&mut self, peers: &[C], role: Role, torn: &mut Vec<C>)
        requires sorted { IsStrictlySortedBy C.cmp peers.now }
        requires room { length torn.old.items + length peers.now ≤ vec_capacity torn.old }
        ensures records { (q : C) → record_at C.cmp self.new q ≡
            (if has_key C.cmp peers.now q then one_set_less role (record_at C.cmp self.old q)
            else record_at C.cmp self.old q) }
        ensures torn { torn.new.items ≡ torn.old.items ++
            filter (λ q. option_map_or (is_torn_down_without role)
            (record_at C.cmp self.old q) false) peers.now }
        ensures capacity { vec_capacity torn.new ≡ vec_capacity torn.old }
        ensures length { length torn.new.items ≤ length torn.old.items + length peers.now }
    {
        for peer in peers {
            let ends = self.leave_one(peer, role);
            push_if(torn, *peer, ends);
        }
    }

    // Counts one set less in the directory's records of these peers, when none of them must be
    // disconnected by that.
    fn undo_each(&mut self, peers: &[C], role: Role)
        requires { IsStrictlySortedBy C.cmp peers.now }
        ensures { (q : C) → record_at C.cmp self.new q ≡
            (if has_key C.cmp peers.now q then one_set_less role (record_at C.cmp self.old q)
            else record_at C.cmp self.old q) }
    {
        for peer in peers {
            let _ = self.leave_one(peer, role);
        }
    }

    // Counts one more secondary set in the directory's records of these peers, or leaves everything
    // as it was.
    fn join_secondary(
        &mut self,
        peers: &[C],
        limit: usize,
        cooldowns: &Cooldowns<C>,
    ) -> Result<(), AllocError>
        requires { IsStrictlySortedBy C.cmp peers.now }
        ensures ok { OnOk result ((q : C) → record_at C.cmp self.new q ≡
            (if has_key C.cmp peers.now q
            then one_set_more Secondary (cooldown_in C.cmp cooldowns.now q)
            (record_at C.cmp self.old q)
            else record_at C.cmp self.old q)) }
        ensures err { OnErr result ((q : C) →
            (has_key C.cmp peers.now q ≡ true →
            IsRestored C.cmp Secondary (cooldown_in C.cmp cooldowns.now q)
            (record_at C.cmp self.old q)) →
            record_at C.cmp self.new q ≡ record_at C.cmp self.old q) }
    {
        for (place, peer) in peers.iter().enumerate() {
            if let Err(refused) = self.join_one(peer, Role::Secondary, limit, cooldowns) {
                self.undo_each(&peers[..place], Role::Secondary);
                return Err(refused);
            }
        }
        Ok(())
    }

    // Counts one more primary set in the directory's records of these peers and sets their bits, or
    // leaves all records as they were.
    fn join_primary(
        &mut self,
        set: &mut PeerSet<C>,
        limit: usize,
        cooldowns: &Cooldowns<C>,
    ) -> Result<(), AllocError>
        ensures disjoint { AreRolesDisjoint C.cmp (plain_set set.old) }
        ensures ok { OnOk result ((q : C) → record_at C.cmp self.new q ≡
            (if has_key C.cmp (keys_of set.old.primary) q
            then one_set_more Primary (cooldown_in C.cmp cooldowns.now q)
            (record_at C.cmp self.old q)
            else record_at C.cmp self.old q)) }
        ensures bits { OnOk result (set.new ≡
            set_with_bits (λ q. is_known limit (record_at C.cmp self.old q)) (plain_set set.old)) }
        ensures err { OnErr result ((q : C) →
            (has_key C.cmp (keys_of set.old.primary) q ≡ true →
            IsRestored C.cmp Primary (cooldown_in C.cmp cooldowns.now q)
            (record_at C.cmp self.old q)) →
            record_at C.cmp self.new q ≡ record_at C.cmp self.old q) }
    {
        // For the proof: the contract of `as_slice` says that the peers are in order.
        let _peers = set.primary().ordered().as_slice();
        for place in 0..set.primary().len() {
            let peer = set.primary()[place];
            match self.join_one(&peer, Role::Primary, limit, cooldowns) {
                Ok(known) => set.set_bit(place, known),
                Err(refused) => {
                    self.undo_each(&set.primary().ordered().as_slice()[..place], Role::Primary);
                    return Err(refused);
                }
            }
        }
        Ok(())
    }

    // Counts one more set in the directory's records of the peers of each role and sets its bits,
    // or leaves what is known of each peer as it was.
    fn join_roles(
        &mut self,
        set: &mut PeerSet<C>,
        limit: usize,
        cooldowns: &Cooldowns<C>,
    ) -> Result<(), AllocError>
        ensures disjoint { AreRolesDisjoint C.cmp (plain_set set.old) }
        ensures ok { OnOk result ((q : C) → record_at C.cmp self.new q ≡
            record_joining C.cmp (plain_set set.old) (cooldown_in C.cmp cooldowns.now q) q
            (record_at C.cmp self.old q)) }
        ensures bits { OnOk result (set.new ≡
            set_with_bits (λ q. is_known limit (record_at C.cmp self.old q)) (plain_set set.old)) }
        ensures err { OnErr result (
            ((q : C) (role : Role) → IsRestored C.cmp role (cooldown_in C.cmp cooldowns.now q)
            (record_at C.cmp self.old q)) →
            (q : C) → record_at C.cmp self.new q ≡ record_at C.cmp self.old q) }
    {
        if let Err(refused) = self.join_primary(set, limit, cooldowns) {
            return Err(refused);
        }
        let joined = self.join_secondary(set.secondary().as_slice(), limit, cooldowns);
        if let Err(refused) = joined {
            self.undo_each(set.primary().ordered().as_slice(), Role::Primary);
            return Err(refused);
        }
        Ok(())
    }

    /// Counts a new set in the directory's records of the set's peers and sets its bits. If an
    /// allocation fails, all records are as they were. A peer that has no record gets one, with its
    /// cooldown.
    pub fn join(
        &mut self,
        set: &mut PeerSet<C>,
        limit: usize,
        cooldowns: &Cooldowns<C>,
    ) -> Result<(), AllocError>
        ensures disjoint { AreRolesDisjoint C.cmp (plain_set set.old) }
        ensures map { IsOfMap C.cmp self.old }
        ensures ok { OnOk result ((q : C) → record_at C.cmp self.new q ≡
            record_joining C.cmp (plain_set set.old) (cooldown_in C.cmp cooldowns.now q) q
            (record_at C.cmp self.old q)) }
        ensures bits { OnOk result (set.new ≡
            set_with_bits (λ q. is_known limit (record_at C.cmp self.old q)) (plain_set set.old)) }
        ensures err { OnErr result (
            ((q : C) (role : Role) → IsRestored C.cmp role (cooldown_in C.cmp cooldowns.now q)
            (record_at C.cmp self.old q)) →
            self.new ≡ self.old) }
    {
        // For the proof: the contract of `len` says that the keys are in order.
        let _before = self.map.len();
        let joined = self.join_roles(set, limit, cooldowns);
        let _after = self.map.len();
        joined
    }

    /// Counts one set less in the directory's records of the set's peers, when none of them must be
    /// disconnected by that.
    pub fn undo(&mut self, set: &PeerSet<C>)
        ensures map { IsOfMap C.cmp self.new }
        ensures records { (q : C) → record_at C.cmp self.new q ≡
            record_leaving C.cmp (plain_set set.now) q (record_at C.cmp self.old q) }
    {
        self.undo_each(set.primary().ordered().as_slice(), Role::Primary);
        self.undo_each(set.secondary().as_slice(), Role::Secondary);
        // For the proof: the contract of `len` says that the keys are in order.
        let _after = self.map.len();
    }

    // Counts one set less in the directory's records of these peers, removes those that are
    // deletable then, and adds to a list the peers that must be disconnected. It walks along the
    // records and the peers, or searches for each peer if there are few.
    fn leave_role(&mut self, peers: &OrderedSet<C>, role: Role, torn: &mut Vec<C>)
        requires room { length torn.old.items + length peers.now ≤ vec_capacity torn.old }
        ensures records { (q : C) → record_at C.cmp self.new q ≡
            (if has_key C.cmp peers.now q then one_set_less role (record_at C.cmp self.old q)
            else record_at C.cmp self.old q) }
        ensures torn { torn.new.items ≡ torn.old.items ++
            filter (λ q. option_map_or (is_torn_down_without role)
            (record_at C.cmp self.old q) false) peers.now }
        ensures capacity { vec_capacity torn.new ≡ vec_capacity torn.old }
        ensures length { length torn.new.items ≤ length torn.old.items + length peers.now }
        ensures sorted { IsStrictlySortedBy C.cmp peers.now }
    {
        let keys = peers.as_slice();
        if self.map.len() / SPARSE <= keys.len() {
            walks::list_torn(&self.map, peers, role, torn);
            walks::leave_walked(&mut self.map, peers, role);
        } else {
            self.leave_each(keys, role, torn);
        }
    }

    /// Counts a dropped set in the directory's records of the set's peers, and removes the records
    /// that are deletable then. Returns the peers that must be disconnected, in the list that is
    /// passed in, which has capacity for all peers of the set.
    pub fn leave(&mut self, set: &PeerSet<C>, mut torn: Vec<C>) -> OrderedSet<C>
        requires empty { torn.items ≡ [] }
        requires room { length set.now.primary + length set.now.secondary ≤ vec_capacity torn }
        ensures disjoint { AreRolesDisjoint C.cmp (plain_set set.now) }
        ensures records { (q : C) → record_at C.cmp self.new q ≡
            record_leaving C.cmp (plain_set set.now) q (record_at C.cmp self.old q) }
        ensures sorted { IsStrictlySortedBy C.cmp result }
        ensures members { (q : C) → has_key C.cmp result q ≡
            is_torn_down_leaving C.cmp (plain_set set.now) q (record_at C.cmp self.old q) }
    {
        self.leave_role(set.primary().ordered(), Role::Primary, &mut torn);
        self.leave_role(set.secondary(), Role::Secondary, &mut torn);
        ordered(torn)
    }
}

// Adds the peer, whose sets were counted in the directory's records, to a list that has capacity
// for it, if `is_added` is true.
fn push_if<C: PublicKey>(list: &mut Vec<C>, peer: C, is_added: bool)
    requires { length list.old.items < vec_capacity list.old }
    ensures items { list.new.items ≡ list.old.items ++ (if is_added then peer ∷ [] else []) }
    ensures capacity { vec_capacity list.new ≡ vec_capacity list.old }
    ensures length { length list.new.items ≤ length list.old.items + 1 }
{
    if is_added {
        list.push_reserved(peer);
    }
}

/// The set of these peers of the records, which are distinct.
pub fn ordered<C: PublicKey>(peers: Vec<C>) -> OrderedSet<C>
    requires { IsDistinct (eq_by_cmp C.cmp) peers.items }
    ensures sorted { IsStrictlySortedBy C.cmp result }
    ensures members { (q : C) → has_key C.cmp result q ≡ has_key C.cmp peers.items q }
{
    match OrderedSet::try_from(peers) {
        Ok(set) => set,
        Err(SetError::Duplicate) => unreachable!(),
    }
}
