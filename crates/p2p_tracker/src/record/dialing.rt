//! Results of requests for a reservation or a dial.

ghost use Rattle.std.specs.Prelude.{◌≡◌, [], None};

use p2p_discovery::codec::PublicKey;
use std::alloc::Global;
use std::time::Duration;

/// The result of a request for a reservation.
#[derive(Clone, Copy, Debug, PartialEq, Eq)]
pub enum ReserveResult {
    /// The peer is reserved now.
    Reserved,
    /// The last reservation was too recent.
    RateLimited,
    /// The peer is the local node, or is reserved or connected already.
    Unavailable,
}

/// When a peer may be dialled.
#[derive(Clone, Copy, Debug, PartialEq, Eq)]
pub enum DialStatus {
    /// Now.
    Now,
    /// After this time, a duration since the epoch.
    After(Duration),
    /// The peer is not to be dialled, is reserved or connected already, or has no valid ingress.
    Unavailable,
}

/// The peers that may be dialled, and when asking again is useful.
#[derive(Debug, Drop)]
pub struct Dialable<C: PublicKey> {
    /// The peers that may be dialled now, in ascending order.
    pub peers: Vec<C>,
    /// The earliest time, a duration since the epoch, at which another peer may become dialable, if
    /// there is one.
    pub next_query_at: Option<Duration>,
}

impl<C: PublicKey> Dialable<C> {
    /// An empty answer to a query about dialling, by which no peer may be dialled, and no time is
    /// known at which one may. It doesn't allocate.
    pub fn new(alloc: Global) -> Self
        ensures peers { result.peers.items ≡ [] }
        ensures moment { result.next_query_at ≡ None }
    {
        Dialable {
            peers: Vec::new(alloc),
            next_query_at: None,
        }
    }
}
