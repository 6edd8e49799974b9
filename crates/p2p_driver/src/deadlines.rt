//! The links of which something is due, and when it is.

ghost use Rattle.std.specs.Prelude.{◌≡◌, ℕ, true, Some, None, IfSome, option_map, find};
ghost use Rattle.std.specs.Duration.{as_nanos};
ghost use Rattle.std.specs.Map.{values_of};
ghost use Rattle.std.specs.Option.{IsSomeAnd};
ghost use Rattle.p2p_driver.specs.Links.{link_of, is_to_ask, next_of, is_late};
ghost use Rattle.p2p_driver.specs.Links.{sooner_of, least_due, count_of};

use crate::links::{Direction, Held};
use crate::pace::Pace;
use std::collections::BTreeMap;
use std::time::Duration;

// The first peer whose link is late.
pub(crate) fn first_late<C: Ord + Copy>(
    of_peers: &BTreeMap<C, Held>,
    pace: &Pace,
    now: Duration,
) -> Option<C>
    ensures { result ≡ option_map (λ e. e.0)
        (find (λ e. is_late pace.now (as_nanos now) e.1) of_peers.now.entries) }
{
    for (peer, held) in of_peers {
        if held.is_late(pace, now) {
            return Some(*peer);
        }
    }
    None
}

// The first peer that is to be asked.
pub(crate) fn first_to_ask<C: Ord + Copy>(
    of_peers: &BTreeMap<C, Held>,
    tick: Duration,
    now: Duration,
) -> Option<C>
    ensures { result ≡ option_map (λ e. e.0)
        (find (λ e. is_to_ask (as_nanos tick) (as_nanos now) e.1) of_peers.now.entries) }
{
    for (peer, held) in of_peers {
        if held.is_to_ask(tick, now) {
            return Some(*peer);
        }
    }
    None
}

// The first peer that is to be asked, from a key on.
pub(crate) fn first_to_ask_from<C: Ord + Copy>(
    of_peers: &BTreeMap<C, Held>,
    from: C,
    tick: Duration,
    now: Duration,
) -> Option<C>
    ensures { IfSome result (λ peer. IsSomeAnd (link_of C.cmp of_peers.now.entries peer)
        (λ held. is_to_ask (as_nanos tick) (as_nanos now) held ≡ true)) }
{
    for (peer, held) in of_peers.range(from..) {
        if held.is_to_ask(tick, now) {
            return Some(*peer);
        }
    }
    None
}

// The first moment, in nanoseconds, at which something is due of a link.
pub(crate) fn next_due<C: Ord>(of_peers: &BTreeMap<C, Held>, pace: &Pace) -> Option<u128>
    ensures { result ≡ least_due (next_of pace.now) None (values_of of_peers.now.entries) }
{
    let mut next = None;
    for (_, held) in of_peers {
        next = sooner(next, held, pace);
    }
    next
}

// The moment, or that at which something is due of the link, if that is sooner.
fn sooner(next: Option<u128>, held: &Held, pace: &Pace) -> Option<u128>
    ensures { result ≡ sooner_of (next_of pace.now) next held.now }
{
    if !held.is_timed() {
        return next;
    }
    let due = held.next(pace);
    match next {
        Some(other) => Some(other.min(due)),
        None => Some(due),
    }
}

// How many links came about so.
pub(crate) fn count_of<C: Ord>(of_peers: &BTreeMap<C, Held>, direction: Direction) -> usize
    ensures { result ≡ count_of direction of_peers.now.entries }
{
    // For the proof: there are no more than all, which are few enough.
    let _all = of_peers.len();
    let mut count = 0;
    for (_, held) in of_peers {
        if held.direction == direction {
            count += 1;
        }
    }
    count
}
