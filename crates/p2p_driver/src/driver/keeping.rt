//! The grants that a driver keeps of dials that came to nothing.

ghost use Rattle.std.specs.Prelude.{◌≡◌, ◌⊎◌, true, false, is_some};
ghost use Rattle.std.specs.Duration.{as_nanos};
ghost use Rattle.p2p_driver.specs.Drivers.{NoneUnfit};
ghost use Rattle.p2p_driver.specs.Grants.{kept_grant, is_cooled, is_unfit};
ghost use Rattle.p2p_driver.specs.Timers.{NoneCooled, FreesOne, FreesSome};

use crate::driver::Driver;
use crate::steps;
use p2p_directory::node::wire::Frames;
use p2p_discovery::codec::PublicKey;
use std::time::Duration;

impl<C: PublicKey> Driver<C> {
    // Gives up each grant that is kept and whose cooldown is over now.
    pub(crate) fn free_all_cooled(&mut self, now: Duration)
        requires { self.old.latest ≡ as_nanos now }
        ensures did { let wire = ⟦<C as Frames>⟧.wire in
            FreesSome C.cmp wire now self.old self.new }
        ensures none { NoneCooled C.cmp (as_nanos now) self.new }
        ensures same { NoneCooled C.cmp (as_nanos now) self.old → self.new ≡ self.old }
    {
        'cooled: while self.free_cooled(now) {}
    }

    // Gives up each grant that is kept of a peer that isn't eligible now.
    pub(crate) fn free_all_unfit(&mut self, now: Duration)
        requires { self.old.latest ≡ as_nanos now }
        ensures did { let wire = ⟦<C as Frames>⟧.wire in
            FreesSome C.cmp wire now self.old self.new }
        ensures none { NoneUnfit C.cmp self.new }
    {
        'unfit: while self.free_unfit(now) {}
    }

    // Gives up the first grant that is kept and whose cooldown is over now. False if there is none.
    fn free_cooled(&mut self, now: Duration) -> bool
        requires { self.old.latest ≡ as_nanos now }
        ensures one { let wire = ⟦<C as Frames>⟧.wire in result ≡ true →
            FreesOne C.cmp wire now self.old self.new }
        ensures same { result ≡ false → self.new ≡ self.old }
        ensures none { result ≡ false → NoneCooled C.cmp (as_nanos now) self.new }
        ensures some { result ≡ true → ¬ (NoneCooled C.cmp (as_nanos now) self.old) }
    {
        let grants = &self.next_dial.grants;
        let Some(peer) = grants.first_cooled(&self.links, self.cooldown, now) else {
            return false;
        };
        self.free(&peer, now);
        true
    }

    // Gives up the first grant that is kept of a peer that isn't eligible now. False if there is
    // none.
    fn free_unfit(&mut self, now: Duration) -> bool
        requires { self.old.latest ≡ as_nanos now }
        ensures one { let wire = ⟦<C as Frames>⟧.wire in result ≡ true →
            FreesOne C.cmp wire now self.old self.new }
        ensures same { result ≡ false → self.new ≡ self.old }
        ensures none { result ≡ false → NoneUnfit C.cmp self.new }
    {
        let grants = &self.next_dial.grants;
        let Some(peer) = grants.first_unfit(&self.links, self.node.directory(), now) else {
            return false;
        };
        self.free(&peer, now);
        true
    }

    // Gives up the grant that is kept of a peer: its cooldown is over, or the peer isn't eligible.
    // The peer is released.
    fn free(&mut self, peer: &C, now: Duration)
        requires time { self.old.latest ≡ as_nanos now }
        requires over { let links = self.old.links in
            let kept = kept_grant C.cmp links self.old.next_dial.grants peer.now in
            (is_cooled self.old.cooldown (as_nanos now) kept ≡ true)
            ⊎ (is_unfit C.cmp self.old.node.directory (as_nanos now) peer.now kept ≡ true) }
        ensures { let wire = ⟦<C as Frames>⟧.wire in FreesOne C.cmp wire now self.old self.new }
    {
        steps::release(&mut self.node, peer);
        self.next_dial.grants.remove(peer);
        self.next_dial.from = Some(Duration::ZERO);
    }
}
