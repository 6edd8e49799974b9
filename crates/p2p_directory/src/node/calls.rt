//! The calls of a node that may change its directory, made without a command.

ghost use Rattle.std.specs.Prelude.{◌≡◌, false, Some};
ghost use Rattle.p2p_directory.specs.Run.{was_made};
ghost use Rattle.p2p_directory.specs.Nodes.{HoldsAfter, IsSame, IsStepped, KeepsRoom, TearsDownFew};
ghost use Rattle.p2p_directory.specs.Private.Serving.{reserving};
ghost use Rattle.p2p_directory.specs.declared.run.commands.Command.{Command};
ghost use Rattle.p2p_directory.specs.declared.run.commands.Reply.{Reply};

use crate::node::Node;
use crate::run::Reply;
use p2p_discovery::codec::PublicKey;
use p2p_tracker::directory::TrackedPeers;
use std::time::Duration;

impl<C: PublicKey> Node<C> {
    /// Calls the node's directory to register a peer set, as [`Node::step`] of `Command::Track`
    /// does. It returns no more peers than there are records without that of the local node, so a
    /// buffer for so many keys is long enough for the result.
    ///
    /// # Cost
    ///
    /// That of [`Directory::track`].
    pub fn track(&mut self, index: u64, peers: TrackedPeers<C>) -> Reply<C>
        ensures stepped { IsStepped C.cmp (Command.Track index peers) result self.old self.new }
        ensures unchanged { was_made result ≡ false → self.new ≡ self.old }
        ensures held { HoldsAfter C.cmp (Command.Track index peers) result self.old self.new }
        ensures room { self.new.slots ≡ self.old.slots }
        ensures limits { self.new.limits ≡ self.old.limits }
        ensures verifier { self.new.verifier ≡ self.old.verifier }
        ensures few { TearsDownFew self.old.directory result }
    {
        self.server.track(index, peers)
    }

    /// Calls the node's directory to reserve the peer for a dial at the time `now`, a duration
    /// since the epoch, as [`Node::step`] of `Command::Dial` does. `draw` is a random duration, for
    /// the jitter. A granted reservation is held. If an allocation fails, it returns
    /// `Reply::OutOfMemory`. No slot is kept of a peer of whom nothing is held.
    ///
    /// # Cost
    ///
    /// That of [`Directory::dial`], and two searches among the reservations; three if it isn't
    /// granted and none of the peer is held.
    pub fn dial(&mut self, peer: &C, now: Duration, draw: Duration) -> Reply<C>
        ensures stepped { IsStepped C.cmp (Command.Dial peer.now now draw) result
            self.old self.new }
        ensures unchanged { was_made result ≡ false → IsSame self.old self.new }
        ensures held { HoldsAfter C.cmp (Command.Dial peer.now now draw) result self.old self.new }
        ensures room { KeepsRoom C.cmp (Some peer.now) self.old self.new }
        ensures limits { self.new.limits ≡ self.old.limits }
        ensures verifier { self.new.verifier ≡ self.old.verifier }
    {
        self.reserve(true, peer, now, draw)
    }

    /// Calls the node's directory to reserve an inbound peer at the time `now`, a duration since
    /// the epoch, as [`Node::step`] of `Command::Listen` does. `draw` is a random duration, for the
    /// jitter. A granted reservation is held. If an allocation fails, it returns
    /// `Reply::OutOfMemory`. No slot is kept of a peer of whom nothing is held.
    ///
    /// # Cost
    ///
    /// That of [`Directory::listen`], and two searches among the reservations; three if it isn't
    /// granted and none of the peer is held.
    pub fn listen(&mut self, peer: &C, now: Duration, draw: Duration) -> Reply<C>
        ensures stepped { IsStepped C.cmp (Command.Listen peer.now now draw) result
            self.old self.new }
        ensures unchanged { was_made result ≡ false → IsSame self.old self.new }
        ensures held { HoldsAfter C.cmp (Command.Listen peer.now now draw) result
            self.old self.new }
        ensures room { KeepsRoom C.cmp (Some peer.now) self.old self.new }
        ensures limits { self.new.limits ≡ self.old.limits }
        ensures verifier { self.new.verifier ≡ self.old.verifier }
    {
        self.reserve(false, peer, now, draw)
    }

    // Reserves the peer in the node's directory if that is granted: for a dial if `dialer`, else
    // inbound.
    fn reserve(&mut self, dialer: bool, peer: &C, now: Duration, draw: Duration) -> Reply<C>
        ensures stepped { IsStepped C.cmp (reserving dialer peer.now now draw) result
            self.old self.new }
        ensures unchanged { was_made result ≡ false → IsSame self.old self.new }
        ensures held { HoldsAfter C.cmp (reserving dialer peer.now now draw) result
            self.old self.new }
        ensures room { KeepsRoom C.cmp (Some peer.now) self.old self.new }
        ensures limits { self.new.limits ≡ self.old.limits }
        ensures verifier { self.new.verifier ≡ self.old.verifier }
    {
        self.server.reserve_slot(dialer, peer, now, draw)
    }

    /// Calls the node's directory to connect the peer if it is reserved, as [`Node::step`] of
    /// `Command::Connect` does. It doesn't allocate.
    ///
    /// # Cost
    ///
    /// That of [`Directory::try_connect`].
    pub fn connect(&mut self, peer: &C, dialer: bool) -> Reply<C>
        ensures stepped { IsStepped C.cmp (Command.Connect peer.now dialer) result
            self.old self.new }
        ensures unchanged { was_made result ≡ false → self.new ≡ self.old }
        ensures held { HoldsAfter C.cmp (Command.Connect peer.now dialer) result self.old self.new }
        ensures room { self.new.slots ≡ self.old.slots }
        ensures limits { self.new.limits ≡ self.old.limits }
        ensures verifier { self.new.verifier ≡ self.old.verifier }
    {
        self.server.connect(peer, dialer)
    }

    /// Calls the node's directory to release the reservation of the peer if one is held, as
    /// [`Node::step`] of `Command::Release` does. It doesn't allocate.
    ///
    /// # Cost
    ///
    /// A search among the reservations, and that of [`Directory::release`].
    pub fn release(&mut self, peer: &C) -> Reply<C>
        ensures stepped { IsStepped C.cmp (Command.Release peer.now) result self.old self.new }
        ensures unchanged { was_made result ≡ false → IsSame self.old self.new }
        ensures held { HoldsAfter C.cmp (Command.Release peer.now) result self.old self.new }
        ensures room { KeepsRoom C.cmp (Some peer.now) self.old self.new }
        ensures limits { self.new.limits ≡ self.old.limits }
        ensures verifier { self.new.verifier ≡ self.old.verifier }
    {
        self.server.release_slot(peer)
    }

    /// Calls the node's directory to block the peer at the time `now`, a duration since the epoch,
    /// as [`Node::step`] of `Command::Block` does. If an allocation fails, it returns
    /// `Reply::OutOfMemory`.
    ///
    /// # Cost
    ///
    /// That of [`Directory::block`].
    pub fn block(&mut self, peer: &C, now: Duration) -> Reply<C>
        ensures stepped { IsStepped C.cmp (Command.Block peer.now now) result self.old self.new }
        ensures unchanged { was_made result ≡ false → self.new ≡ self.old }
        ensures held { HoldsAfter C.cmp (Command.Block peer.now now) result self.old self.new }
        ensures room { self.new.slots ≡ self.old.slots }
        ensures limits { self.new.limits ≡ self.old.limits }
        ensures verifier { self.new.verifier ≡ self.old.verifier }
    {
        self.server.block(peer, now)
    }

    /// Calls the node's directory to end the blocks that hold until the time `now`, a duration
    /// since the epoch, or until an earlier time. It returns whether there were any, as
    /// [`Node::step`] replies to `Command::UnblockExpired`. It doesn't allocate.
    ///
    /// # Cost
    ///
    /// That of [`Directory::unblock_expired`].
    pub fn unblock_expired(&mut self, now: Duration) -> bool
        ensures stepped { IsStepped C.cmp (Command.UnblockExpired now) (Reply.UnblockExpired result)
            self.old self.new }
        ensures held { HoldsAfter C.cmp (Command.UnblockExpired now) (Reply.UnblockExpired result)
            self.old self.new }
        ensures room { self.new.slots ≡ self.old.slots }
        ensures limits { self.new.limits ≡ self.old.limits }
        ensures verifier { self.new.verifier ≡ self.old.verifier }
    {
        self.server.unblock_expired(now)
    }

    /// Calls the node's directory to forget the cooldowns whose dial time is at or before the time
    /// `now`, a duration since the epoch. It returns how many, as [`Node::step`] replies to
    /// `Command::ForgetCooled`. It doesn't allocate.
    ///
    /// # Cost
    ///
    /// That of [`Directory::forget_cooled`].
    pub fn forget_cooled(&mut self, now: Duration) -> usize
        ensures stepped { IsStepped C.cmp (Command.ForgetCooled now) (Reply.ForgetCooled result)
            self.old self.new }
        ensures held { HoldsAfter C.cmp (Command.ForgetCooled now) (Reply.ForgetCooled result)
            self.old self.new }
        ensures room { self.new.slots ≡ self.old.slots }
        ensures limits { self.new.limits ≡ self.old.limits }
        ensures verifier { self.new.verifier ≡ self.old.verifier }
    {
        self.server.forget_cooled(now)
    }
}
