//! The calls of a node that change nothing and return a number, a time or an address.

ghost use Rattle.std.specs.Prelude.{◌≡◌, IfOk, OnErr, length};
ghost use Rattle.std.specs.Option.{option_map};
ghost use Rattle.std.specs.Duration.{as_nanos};
ghost use Rattle.p2p_tracker.specs.Directory.{dial_moment_in};
ghost use Rattle.p2p_tracker.specs.Lists.{IsLeastOf};
ghost use Rattle.p2p_directory.specs.Nodes.{IsStepped};
ghost use Rattle.p2p_directory.specs.declared.run.commands.Command.{Command};
ghost use Rattle.p2p_directory.specs.declared.run.commands.Reply.{Reply};

use crate::node::Node;
use p2p_discovery::codec::PublicKey;
use p2p_discovery::types::Ingress;
use p2p_tracker::record::Status;
use std::alloc::AllocError;
use std::time::Duration;

impl<C: PublicKey> Node<C> {
    /// Asks the node's directory when the first block ends, a duration since the epoch, as
    /// [`Node::step`] replies to `Command::NextUnblock`. It doesn't allocate, and changes nothing.
    ///
    /// # Cost
    ///
    /// That of [`Directory::next_unblock`].
    pub fn next_unblock(&self) -> Option<Duration>
        ensures { IsStepped C.cmp Command.NextUnblock (Reply.NextUnblock result) self.now self.now }
    {
        self.server.next_unblock()
    }

    /// Asks the node's directory for the index of the latest set, as [`Node::step`] replies to
    /// `Command::LatestSetIndex`. It doesn't allocate, and changes nothing.
    ///
    /// # Cost
    ///
    /// Constant.
    pub fn latest_set_index(&self) -> Option<u64>
        ensures { IsStepped C.cmp Command.LatestSetIndex (Reply.LatestSetIndex result)
            self.now self.now }
    {
        self.server.latest_set_index()
    }

    /// Asks the node's directory whether the peer is connected, as [`Node::step`] replies to
    /// `Command::Status`. It returns `None` if there is no record of the peer. It doesn't allocate,
    /// and changes nothing.
    ///
    /// # Cost
    ///
    /// That of [`Directory::status`].
    pub fn status(&self, peer: &C) -> Option<Status>
        ensures { IsStepped C.cmp (Command.Status peer.now) (Reply.Status result)
            self.now self.now }
    {
        self.server.status(peer)
    }

    /// Asks the node's directory whether the peer may be connected at the time `now`, a duration
    /// since the epoch, as [`Node::step`] replies to `Command::Eligible`. It doesn't allocate, and
    /// changes nothing.
    ///
    /// # Cost
    ///
    /// That of [`Directory::eligible`].
    pub fn eligible(&self, peer: &C, now: Duration) -> bool
        ensures { IsStepped C.cmp (Command.Eligible peer.now now) (Reply.Eligible result)
            self.now self.now }
    {
        self.server.eligible(peer, now)
    }

    /// Asks the node's directory whether an inbound connection of the peer may be accepted at the
    /// time `now`, as [`Node::step`] replies to `Command::Acceptable`. The time is a duration since
    /// the epoch. It doesn't allocate, and changes nothing.
    ///
    /// # Cost
    ///
    /// That of [`Directory::acceptable`].
    pub fn acceptable(&self, peer: &C, now: Duration) -> bool
        ensures { IsStepped C.cmp (Command.Acceptable peer.now now) (Reply.Acceptable result)
            self.now self.now }
    {
        self.server.acceptable(peer, now)
    }

    /// Asks the node's directory how many peers have a record, not counting the local node, as
    /// [`Node::step`] replies to `Command::Tracked`. It doesn't allocate, and changes nothing.
    ///
    /// # Cost
    ///
    /// That of [`Directory::tracked`].
    pub fn tracked(&self) -> usize
        ensures { IsStepped C.cmp Command.Tracked (Reply.Tracked result) self.now self.now }
    {
        self.server.tracked()
    }

    /// Asks the node's directory whether a call of [`Node::listen`] with the peer at the time `now`
    /// would grant a reservation if memory suffices, as [`Node::step`] replies to
    /// `Command::MayListen`. The time is a duration since the epoch. It doesn't allocate, and
    /// changes nothing.
    ///
    /// # Cost
    ///
    /// That of [`Directory::may_listen`].
    pub fn may_listen(&self, peer: &C, now: Duration) -> bool
        ensures { IsStepped C.cmp (Command.MayListen peer.now now) (Reply.MayListen result)
            self.now self.now }
    {
        self.server.may_listen(peer, now)
    }

    /// Asks the node's directory for the address that it holds of the peer, whether or not it may
    /// be dialled, as [`Node::step`] replies to `Command::Ingress`. It returns `None` if it holds
    /// none. It allocates only for a name, and changes nothing.
    ///
    /// # Errors
    ///
    /// `AllocError` if an allocation fails.
    ///
    /// # Cost
    ///
    /// That of [`Directory::ingress`].
    pub fn ingress(&self, peer: &C) -> Result<Option<Ingress>, AllocError>
        ensures ingress { IfOk result (λ ingress. IsStepped C.cmp (Command.Ingress peer.now)
            (Reply.Ingress ingress) self.now self.now) }
        ensures err { OnErr result (IsStepped C.cmp (Command.Ingress peer.now)
            Reply.OutOfMemory self.now self.now) }
    {
        self.server.ingress(peer)
    }

    /// Asks the node's directory when a peer has cooled next, and [`Node::forget_cooled`] forgets
    /// something: a duration since the epoch, or `None` if there are no cooldowns. It doesn't
    /// allocate, and changes nothing.
    ///
    /// # Cost
    ///
    /// That of [`Directory::next_cooled`].
    pub fn next_cooled(&self) -> Option<Duration>
        ensures { IsLeastOf (dial_moment_in C.cmp self.now.directory) (option_map as_nanos result) }
    {
        self.server.directory().next_cooled()
    }

    /// How many sets the node's directory retains. It doesn't allocate, and changes nothing.
    ///
    /// # Cost
    ///
    /// Constant.
    pub fn retained(&self) -> usize
        ensures { result ≡ length self.now.directory.sets }
    {
        self.server.directory().retained()
    }
}
