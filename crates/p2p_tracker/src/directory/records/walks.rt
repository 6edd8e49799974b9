//! The counts of sets in the records of many peers, by walks along the records and the peers
//! together, which are both in order.

ghost use Rattle.std.specs.Prelude.{◌≡◌, ◌≤◌, ◌+◌, ◌++◌, drop, false, length, vec_capacity};
ghost use Rattle.std.specs.Prelude.{Option, Some, None, if◌then◌else◌};
ghost use Rattle.std.specs.List.{filter};
ghost use Rattle.std.specs.BTreeMap.{get};
ghost use Rattle.std.specs.List.Sorted.{IsStrictlySortedBy};
ghost use Rattle.std.specs.Option.{option_and_then, option_map_or};
ghost use Rattle.p2p_discovery.specs.Ordered.{has_key};
ghost use Rattle.p2p_tracker.specs.declared.record.Role.{Role};
ghost use Rattle.p2p_tracker.specs.Private.Counts.{is_torn_down_without};
ghost use Rattle.p2p_tracker.specs.Private.Walked.{above};

use crate::record::{Record, Role};
use p2p_discovery::codec::PublicKey;
use p2p_discovery::sets::OrderedSet;
use std::cmp::Ordering;
use std::collections::BTreeMap;

/// A value that counts the sets of a peer, and may be removed when one of them is. The walk is over
/// any such values, since the borrow checker doesn't yet support a closure over keys and values of
/// one type parameter.
pub trait Membership: Drop {
    // What is left of it after one set less of the role has its peer.
    ghost left: { Role → Self → Option Self };

    /// Counts one set less of the role in one of the directory's records that a walk meets, and
    /// returns whether it stays.
    fn leave(&mut self, role: Role) -> bool
        ensures { (if result then Some self.new else None) ≡ Self.left role self.old };
}

impl<C: PublicKey> Membership for Record<C> {
    ghost use Rattle.p2p_tracker.specs.Private.Counts.{with_one_less};
    ghost use Rattle.p2p_tracker.specs.Record.{unless_deletable};

    ghost left = { λ role r. unless_deletable (with_one_less role r) };

    fn leave(&mut self, role: Role) -> bool {
        self.count_less(role);
        !self.deletable()
    }
}

/// Adds to a list, by a walk along the directory's records and the peers, the peers that must be
/// disconnected once one set less of the role has them. The list has capacity for all of them.
pub fn list_torn<C: PublicKey>(
    map: &BTreeMap<C, Record<C>>,
    peers: &OrderedSet<C>,
    role: Role,
    torn: &mut Vec<C>,
)
    requires room { length torn.old.items + length peers.now ≤ vec_capacity torn.old }
    ensures torn { torn.new.items ≡ torn.old.items ++
        filter (λ q. option_map_or (is_torn_down_without role) (get C.cmp map.now q) false)
        peers.now }
    ensures capacity { vec_capacity torn.new ≡ vec_capacity torn.old }
    ensures length { length torn.new.items ≤ length torn.old.items + length peers.now }
{
    let mut at = 0usize;
    for (key, found) in map.iter() {
        if found.is_torn_down_without(role) && meet(peers, &mut at, key) {
            torn.push_reserved(*key);
        }
    }
}

/// Counts one set less of each peer, by a walk along the directory's records and the peers, and
/// removes what doesn't stay.
pub fn leave_walked<C: PublicKey, V: Membership>(
    map: &mut BTreeMap<C, V>,
    peers: &OrderedSet<C>,
    role: Role,
)
    ensures { (q : C) → get C.cmp map.new q ≡
        (if has_key C.cmp peers.now q then option_and_then (V.left role) (get C.cmp map.old q)
        else get C.cmp map.old q) }
{
    let mut at = 0usize;
    map.retain(
        move |key, kept|
            ensures rest { drop at.exit peers.entry.now ≡
                above C.cmp key.now (drop at.entry peers.entry.now) }
            ensures kept { (if result then Some kept.new else None) ≡
                (if has_key C.cmp (drop at.entry peers.entry.now) key.now then V.left role kept.old
                else Some kept.old) }
        { stays(peers, &mut at, role, key, kept) },
    );
}

// Counts one set less if a walk along the records meets the key among the peers from a position on,
// and returns whether its value stays. The position moves past the key.
fn stays<C: PublicKey, V: Membership>(
    peers: &OrderedSet<C>,
    at: &mut usize,
    role: Role,
    key: &C,
    kept: &mut V,
) -> bool
    ensures rest { drop at.new peers.now ≡ above C.cmp key.now (drop at.old peers.now) }
    ensures kept { (if result then Some kept.new else None) ≡
        (if has_key C.cmp (drop at.old peers.now) key.now then V.left role kept.old
        else Some kept.old) }
{
    if meet(peers, at, key) {
        kept.leave(role)
    } else {
        true
    }
}

// Returns whether a walk along the records meets the key among the peers from a position on. The
// position moves past the key.
fn meet<C: PublicKey>(peers: &OrderedSet<C>, at: &mut usize, key: &C) -> bool
    ensures rest { drop at.new peers.now ≡ above C.cmp key.now (drop at.old peers.now) }
    ensures met { result ≡ has_key C.cmp (drop at.old peers.now) key.now }
    ensures sorted { IsStrictlySortedBy C.cmp peers.now }
{
    let (behind, met) = met_from(peers.as_slice(), *at, key);
    *at = behind;
    met
}

// The position after the key of a walk along the records and the peers, and whether the key itself
// is before it.
fn met_from<C: PublicKey>(peers: &[C], from: usize, key: &C) -> (usize, bool)
    requires { IsStrictlySortedBy C.cmp peers.now }
    ensures rest { drop result.0 peers.now ≡ above C.cmp key.now (drop from peers.now) }
    ensures met { result.1 ≡ has_key C.cmp (drop from peers.now) key.now }
{
    for at in from..peers.len() {
        match peers[at].cmp(key) {
            Ordering::Less => {}
            Ordering::Equal => return (at + 1, true),
            Ordering::Greater => return (at, false),
        }
    }
    (peers.len(), false)
}
