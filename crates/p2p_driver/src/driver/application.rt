//! What an application tells a driver.

ghost use Rattle.std.specs.Duration.{as_nanos};
ghost use Rattle.p2p_driver.specs.Drivers.{AnswersBlock, AnswersPart, DoesAt};
ghost use Rattle.p2p_driver.specs.Happenings.Happening.{Given};

use crate::actions::Why;
use crate::driver::{Driver, later};
use crate::link::Now;
use crate::{connections, steps};
use p2p_directory::node::wire::Frames;
use p2p_discovery::codec::PublicKey;
use p2p_discovery::discovery::Info;
use std::alloc::AllocError;
use std::time::Duration;

impl<C: PublicKey> Driver<C> {
    /// The application has infos that it verified, or that it stored after that: they are applied,
    /// as [`Directory::update_peers`](p2p_tracker::directory::Directory::update_peers) does. It
    /// doesn't allocate.
    ///
    /// # Cost
    ///
    /// That of [`Directory::update_peers`](p2p_tracker::directory::Directory::update_peers).
    pub fn update_peers(&mut self, infos: Vec<Info<C>>, now: Now)
        ensures { let wire = ⟦<C as Frames>⟧.wire in DoesAt C.cmp wire (as_nanos now.steady)
            (Given infos.items) self.old self.new }
    {
        steps::update(&mut self.node, infos);
        self.next_dial.from = Some(Duration::ZERO);
        self.latest = later(self.latest, now.steady);
    }

    /// The application blocks a peer for `block_duration`. The peer's link is closed as `Blocked`,
    /// if it has one that isn't closing. If the grant of a dial is kept of the peer, and the block
    /// is accepted, the peer is released. It returns whether the block was accepted, as
    /// [`Directory::block`](p2p_tracker::directory::Directory::block) does.
    ///
    /// # Errors
    ///
    /// `AllocError` if an allocation fails, for a block that would be accepted. Nothing has changed
    /// then.
    ///
    /// # Cost
    ///
    /// That of [`Directory::block`](p2p_tracker::directory::Directory::block), two searches among
    /// the links, and one pass over the grants of dials for each that is given up, and one more.
    pub fn block(&mut self, peer: &C, now: Now) -> Result<bool, AllocError>
        ensures { let wire = ⟦<C as Frames>⟧.wire in AnswersBlock C.cmp wire peer.now
            (as_nanos now.steady) result self.old self.new }
    {
        let time = later(self.latest, now.steady);
        let Some(taken) = steps::block(&mut self.node, peer, time) else {
            return Err(AllocError);
        };
        self.latest = time;
        self.next_dial.from = Some(Duration::ZERO);
        connections::shut(&mut self.links, &mut self.actions, peer, Why::Blocked);
        self.free_all_unfit(time);
        Ok(taken)
    }

    /// The application parts from a peer: its link is closed as `Application`, if it isn't closing.
    /// It returns whether the peer has a link; nothing has changed if it has none. It doesn't
    /// allocate.
    ///
    /// # Cost
    ///
    /// Three searches among the links.
    pub fn part(&mut self, peer: &C, now: Now) -> bool
        ensures { let wire = ⟦<C as Frames>⟧.wire in AnswersPart C.cmp wire peer.now
            (as_nanos now.steady) result self.old self.new }
    {
        if self.links.get(peer).is_none() {
            return false;
        }
        self.latest = later(self.latest, now.steady);
        connections::shut(&mut self.links, &mut self.actions, peer, Why::Application);
        true
    }
}
