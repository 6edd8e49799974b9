//! Sets that come to a driver.

ghost use Rattle.std.specs.Prelude.{◌≡◌, ◌<◌, Ok, OnErr, length};
ghost use Rattle.std.specs.Duration.{as_nanos};
ghost use Rattle.p2p_driver.specs.Drivers.{Does, TracksAt, MayTrack};
ghost use Rattle.p2p_driver.specs.Happenings.Happening.{StaleSetCame};

use crate::driver::{Driver, later};
use crate::link::Now;
use crate::{connections, steps};
use p2p_directory::node::wire::Frames;
use p2p_discovery::codec::PublicKey;
use p2p_tracker::directory::TrackedPeers;
use std::alloc::AllocError;
use std::time::Duration;

/// What became of a set.
#[derive(Clone, Copy, Debug, PartialEq, Eq)]
pub enum Tracked {
    /// It is tracked.
    Accepted,
    /// Its index isn't above that of each set that was accepted before.
    Stale,
    /// It has more primary peers than the limits allow bits.
    TooLarge,
}

impl<C: PublicKey> Driver<C> {
    /// A set of peers came, with its index. If it is accepted, each link of a peer that is in no
    /// retained set any more, and is no bootstrapper, is closed as `NoSet`, unless it was closed
    /// before. If the grant of a dial is kept of such a peer, the peer is released. It returns what
    /// became of the set.
    ///
    /// If the set is stale, no link is closed. If it is too large, nothing has changed.
    ///
    /// # Errors
    ///
    /// `AllocError` if an allocation fails, for a set that would be accepted. Nothing has changed
    /// then.
    ///
    /// # Cost
    ///
    /// That of [`Directory::track`](p2p_tracker::directory::Directory::track), and two searches
    /// among the links for each peer that is in no retained set any more. One pass over the grants
    /// of dials for each that is given up, and one more.
    pub fn track(
        &mut self,
        index: u64,
        peers: TrackedPeers<C>,
        now: Now,
    ) -> Result<Tracked, AllocError>
        ensures accepted { let wire = ⟦<C as Frames>⟧.wire in result ≡ Ok Tracked.Accepted →
            TracksAt C.cmp wire index peers.primary peers.secondary
            (as_nanos now.steady) self.old self.new }
        ensures stale { let wire = ⟦<C as Frames>⟧.wire in result ≡ Ok Tracked.Stale →
            Does C.cmp wire (StaleSetCame index peers.primary peers.secondary)
            self.old self.new }
        ensures too_large { result ≡ Ok Tracked.TooLarge → (self.new ≡ self.old)
            × (self.old.node.limits.max_bit_vec < length peers.primary) }
        ensures err { let wire = ⟦<C as Frames>⟧.wire in OnErr result ((self.new ≡ self.old)
            × MayTrack C.cmp wire index peers.primary peers.secondary self.old) }
    {
        if self.node.limits().max_bit_vec < peers.primary.len() as u64 {
            return Ok(Tracked::TooLarge);
        }
        match steps::track(&mut self.node, index, peers) {
            None => Err(AllocError),
            Some(None) => {
                self.next_dial.from = Some(Duration::ZERO);
                Ok(Tracked::Stale)
            }
            Some(Some(torn)) => {
                let time = later(self.latest, now.steady);
                self.latest = time;
                self.next_dial.from = Some(Duration::ZERO);
                connections::shut_all(&mut self.links, &mut self.actions, torn.as_slice());
                self.free_all_unfit(time);
                Ok(Tracked::Accepted)
            }
        }
    }
}
