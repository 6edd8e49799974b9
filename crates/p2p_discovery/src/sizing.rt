//! Sizes of messages and of sets of peers, for configurations.
//!
//! No call here allocates.

ghost use Rattle.std.specs.Prelude.{◌≡◌, ◌≢◌, ◌+◌, ◌*◌, ◌<◌, ◌≤◌, ◌^◌, List, All, length};
ghost use Rattle.std.specs.Int.NonZero.{non_zero_usize_get};
ghost use Rattle.std.specs.List.{Contains};
ghost use Rattle.std.specs.List.Sorted.{IsStrictlySortedBy};
ghost use Rattle.std.specs.Option.{option_copied};
ghost use Rattle.p2p_discovery.specs.Sizing.{IsUnion, IsUnionSize};

use crate::codec::PublicKey;
use std::cmp::Ordering;
use std::num::NonZeroUsize;

/// The maximum of the sizes of messages, or 0 if there are none: the smallest limit that allows
/// each message.
///
/// # Conditions
///
/// The sizes fit `u32`.
///
/// # Cost
///
/// One pass over the sizes.
pub fn max_message_size(payloads: &[usize]) -> u32
    requires { All (λ n. n < 2 ^ 32) payloads.now }
    ensures bound { All (λ n. n ≤ result) payloads.now }
    ensures least { result ≢ 0 → Contains payloads.now result }
{
    payloads.iter().copied().max().unwrap_or(0) as u32
}

/// The size that a peer set drawn from the participants may have, if each set includes the local
/// one. It is their number, and one more if the local one is not among them. A participant that
/// occurs twice counts twice.
///
/// # Conditions
///
/// The result fits `usize`.
///
/// # Cost
///
/// One pass over the participants.
pub fn peer_set_limit<P: PublicKey>(participants: &[P], local: &P) -> NonZeroUsize
    requires { ¬ (Contains participants.now local.now) → length participants.now + 1 < 2 ^ 64 }
    ensures among { Contains participants.now local.now
        → non_zero_usize_get result ≡ length participants.now }
    ensures apart { ¬ (Contains participants.now local.now)
        → non_zero_usize_get result ≡ length participants.now + 1 }
{
    let others = participants.len();
    match NonZeroUsize::new(others) {
        Some(limit) if participants.contains(local) => limit,
        _ => NonZeroUsize::MIN.saturating_add(others),
    }
}

/// A bound on the number of retained peers, for sizes in a configuration: so many sets of so many
/// peers, and the persistent ones.
///
/// # Conditions
///
/// The result fits `usize`.
pub fn max_retained_peers(
    max_peers_per_set: NonZeroUsize,
    tracked_peer_sets: NonZeroUsize,
    persistent_peers: usize,
) -> NonZeroUsize
    requires { non_zero_usize_get max_peers_per_set * non_zero_usize_get tracked_peer_sets
        + persistent_peers < 2 ^ 64 }
    ensures { non_zero_usize_get result ≡ non_zero_usize_get max_peers_per_set
        * non_zero_usize_get tracked_peer_sets + persistent_peers }
{
    max_peers_per_set
        .saturating_mul(tracked_peer_sets)
        .saturating_add(persistent_peers)
}

/// The size of a peer set: the number of peers in either role or in the extension, each counted
/// once.
///
/// # Conditions
///
/// Both lists are sorted without repeats, and the result fits `usize`.
///
/// # Cost
///
/// One pass over both lists at once, and one over each for the extension.
pub fn peer_set_size<P: PublicKey>(primary: &[P], secondary: &[P], extension: Option<&P>) -> usize
    requires primary { IsStrictlySortedBy P.cmp primary.now }
    requires secondary { IsStrictlySortedBy P.cmp secondary.now }
    requires fits { (all : List P)
        → IsUnion P.cmp primary.now secondary.now (option_copied extension) all
        → length all < 2 ^ 64 }
    ensures { IsUnionSize P.cmp primary.now secondary.now (option_copied extension.entry) result }
{
    let size = union_size(primary, secondary);
    match extension {
        Some(peer) if !primary.contains(peer) && !secondary.contains(peer) => size + 1,
        _ => size,
    }
}

// The size of the union of two lists: the number of members of either, counted in one pass over
// both at once.
fn union_size<P: PublicKey>(primary: &[P], secondary: &[P]) -> usize
    requires primary { IsStrictlySortedBy P.cmp primary.now }
    requires secondary { IsStrictlySortedBy P.cmp secondary.now }
    requires fits { (all : List P) → IsUnion P.cmp primary.now secondary.now None all
        → length all < 2 ^ 64 }
    ensures { IsUnionSize P.cmp primary.now secondary.now None result }
{
    let (mut i, mut j, mut both) = (0, 0, 0);
    while i < primary.len() && j < secondary.len() {
        match primary[i].cmp(&secondary[j]) {
            Ordering::Less => i += 1,
            Ordering::Equal => {
                both += 1;
                i += 1;
                j += 1;
            }
            Ordering::Greater => j += 1,
        }
    }
    primary.len() + (secondary.len() - both)
}
