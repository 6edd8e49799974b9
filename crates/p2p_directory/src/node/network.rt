//! Any number of nodes that serve commands, are asked, receive frames and exchange infos.

ghost use Rattle.std.specs.Prelude.{◌≡◌, ◌<◌, ◌≤◌, ◌-◌, ◌^◌, [], IfOk, length, slice_index_or};
ghost use Rattle.std.specs.Prelude.{MatchOption, ◌∷◌, IfSome, OnOk, OnErr, false};
ghost use Rattle.std.specs.Int.NonZero.{non_zero_usize_get};
ghost use Rattle.std.specs.List.{All};
ghost use Rattle.p2p_discovery.specs.Info.{IsInfo, IsKeyed};
ghost use Rattle.p2p_directory.specs.Nodes.{NodeView, NodeStandsAt, made_of};
ghost use Rattle.p2p_directory.specs.Network.{OfNetwork, StandAfter, AreNetworkAnswers, done_after};
ghost use Rattle.p2p_directory.specs.Network.{IsNetworkServed, IsServedAmong, AreReleased};
ghost use Rattle.p2p_directory.specs.Network.{IsAdded, IsReplaced, may_change, AreSame, KeepRoom};
ghost use Rattle.p2p_directory.specs.Laws.Network.{AtEachPoint, PointLaws, OfEachReply, ReplyLaws};

use crate::node::Node;
use crate::node::exchanged::Exchanged;
pub use crate::node::network::commands::{NetworkCommand, NetworkReply};
use crate::node::network::nodes::{ask, exchange, make_room, receive, serve, step, swap_at};
use crate::node::setup::Setup;
use crate::node::wire::Frames;
use crate::run::Command;
use bytes::Bytes;
use p2p_discovery::codec::PublicKey;
use p2p_tracker::directory::Directory;
use std::alloc::{AllocError, Global};
use std::marker::Model;
use std::time::Duration;

mod commands;
mod nodes;

/// Any number of nodes, which are counted from 0. A contract sees each of them. It must be consumed
/// by [`Network::finish`].
pub struct Network<C: PublicKey> {
    nodes: Vec<Node<C>>,
    // Capacity for the directories that are returned in the end.
    room: Vec<Directory<C>>,
}

impl<C: PublicKey> Model for Network<C> {
    ghost use Rattle.std.specs.Prelude.{◌≡◌, ◌≤◌, List, [], length};
    ghost use Rattle.std.specs.Vec.{vec_capacity};
    ghost use Rattle.p2p_directory.specs.Nodes.{NodeView};

    ghost Value = { List (NodeView C C.Signature) };

    ghost view = { λ n. n.nodes.items };

    ghost invariant = { λ n.
        (n.room.items ≡ []) × (length n.nodes.items ≤ vec_capacity n.room) };
}

impl<C: PublicKey> Network<C> {
    /// A network with a node of each setup, in their order, as [`Node::new`] makes it.
    ///
    /// # Conditions
    ///
    /// Those of [`Node::new`], for each.
    ///
    /// # Errors
    ///
    /// `AllocError` if an allocation fails.
    ///
    /// # Cost
    ///
    /// That of [`Node::new`], for each.
    pub fn new(alloc: Global, setups: Vec<Setup<C>>) -> Result<Self, AllocError>
        requires sets { All (λ s. non_zero_usize_get s.cfg.max_sets < 2 ^ 64 - 1) setups.items }
        requires bits { All (λ s. s.payload.max_bit_vec < 2 ^ 32) setups.items }
        ensures stand { IfOk result (λ nodes. OfNetwork C.cmp setups.items (λ size node. StandAfter
            ⟦<C as Frames>⟧.wire size node [] nodes)) }
        ensures own { IfOk result (λ _. All (λ s.
            IsInfo s.myself × IsKeyed C.IsValue C.Signature.IsValue s.myself) setups.items) }
    {
        let room = Vec::with_capacity(alloc, setups.len())?;
        let mut nodes = Vec::with_capacity(alloc, setups.len())?;
        for setup in setups {
            match Node::new(alloc, setup) {
                Ok(node) => nodes.push_reserved(node),
                Err(AllocError) => {
                    Network { nodes, room }.finish();
                    return Err(AllocError);
                }
            }
        }
        Ok(Network { nodes, room })
    }

    /// A network without nodes. It doesn't allocate.
    pub fn empty(alloc: Global) -> Self
        ensures { result ≡ [] }
    {
        Network {
            nodes: Vec::new(alloc),
            room: Vec::new(alloc),
        }
    }

    /// Adds a node of this setup to the network, after all others, as [`Node::new`] makes it.
    ///
    /// # Conditions
    ///
    /// Those of [`Node::new`].
    ///
    /// # Errors
    ///
    /// `AllocError` if an allocation fails. Nothing has changed.
    ///
    /// # Cost
    ///
    /// That of [`Node::new`], and sometimes a move of all nodes.
    pub fn add(&mut self, alloc: Global, setup: Setup<C>) -> Result<(), AllocError>
        requires sets { non_zero_usize_get setup.cfg.max_sets < 2 ^ 64 - 1 }
        requires bits { setup.payload.max_bit_vec < 2 ^ 32 }
        ensures ok { OnOk result (IsAdded C.cmp setup self.old self.new) }
        ensures err { OnErr result (self.new ≡ self.old) }
        ensures own { OnOk result
            (IsInfo setup.myself × IsKeyed C.IsValue C.Signature.IsValue setup.myself) }
    {
        self.nodes.reserve(1)?;
        self.room.reserve(self.nodes.len() + 1)?;
        let node = Node::new(alloc, setup)?;
        self.nodes.push_reserved(node);
        Ok(())
    }

    /// Replaces a node of the network by a new node of this setup, as [`Node::new`] makes it. All
    /// reservations of the old one are released, and its directory is returned. `None` if there is
    /// no such node; then none is made.
    ///
    /// # Conditions
    ///
    /// Those of [`Node::new`].
    ///
    /// # Errors
    ///
    /// `AllocError` if an allocation fails. Nothing has changed.
    ///
    /// # Cost
    ///
    /// That of [`Node::new`], and of [`Node::finish`] of the old one.
    pub fn replace(
        &mut self,
        alloc: Global,
        node: usize,
        setup: Setup<C>,
    ) -> Result<Option<Directory<C>>, AllocError>
        requires sets { non_zero_usize_get setup.cfg.max_sets < 2 ^ 64 - 1 }
        requires bits { setup.payload.max_bit_vec < 2 ^ 32 }
        ensures ok { IfOk result (λ left. IsReplaced C.cmp setup node left self.old self.new) }
        ensures err { OnErr result (self.new ≡ self.old) }
        ensures own { IfOk result (λ left. IfSome left (λ _.
            IsInfo setup.myself × IsKeyed C.IsValue C.Signature.IsValue setup.myself)) }
    {
        if node >= self.nodes.len() {
            return Ok(None);
        }
        let new = Node::new(alloc, setup)?;
        let old = swap_at(&mut self.nodes, node, new);
        Ok(Some(old.finish()))
    }

    /// Serves one command to the network. The reply to a command to a node that doesn't exist, or
    /// to an exchange of a node with itself, is `NoNode`. A command that runs out of memory, or
    /// whose reply is `NoNode`, `NotReserved` or `NotHeld`, has no effect.
    ///
    /// A `Call` is served as [`Node::step`] does: space for a reservation is allocated before a
    /// `Dial` or a `Listen`, so the reply to both may be `OutOfMemory` if that fails. No slot is
    /// kept of a peer of whom nothing is held.
    ///
    /// A command to one node leaves all others as they were, and an exchange all but the asker.
    ///
    /// # Cost
    ///
    /// That of the same call of one node, or of two.
    pub fn serve(&mut self, command: NetworkCommand<C>) -> NetworkReply<C>
        ensures served { IsNetworkServed C.cmp ⟦<C as Frames>⟧.wire command result self.old
            self.new }
        ensures seen { IsServedAmong C.cmp ⟦<C as Frames>⟧.wire command result self.old self.new }
        ensures unchanged { may_change result ≡ false → AreSame self.old self.new }
        ensures room { KeepRoom C.cmp command self.old self.new }
        ensures count { length self.new ≡ length self.old }
    {
        match command {
            NetworkCommand::Call(node, command) => step(&mut self.nodes, node, command),
            NetworkCommand::Ask(node, place) => ask(&self.nodes, node, place),
            NetworkCommand::Frame(node, frame, now) => receive(&mut self.nodes, node, frame, now),
            NetworkCommand::Exchange {
                asker,
                replier,
                place,
                asker_now,
                replier_now,
            } => exchange(
                &mut self.nodes,
                asker,
                replier,
                place,
                asker_now,
                replier_now,
            ),
        }
    }

    /// How many nodes the network has.
    pub fn len(&self) -> usize
        ensures { result ≡ length self.now }
    {
        self.nodes.len()
    }

    /// The directory of a node of the network, or `None` if there is no such node.
    pub fn directory(&self, node: usize) -> Option<&Directory<C>>
        ensures { MatchOption result (length self.now ≤ node) (λ directory.
            (v : NodeView C C.Signature) → (node < length self.now)
            × (directory.now ≡ (slice_index_or self.now node v).directory)) }
    {
        if node >= self.nodes.len() {
            return None;
        }
        Some(self.nodes[node].directory())
    }

    /// Releases all reservations of the network, and returns the directories, in the order of their
    /// nodes. It doesn't allocate.
    ///
    /// # Cost
    ///
    /// That of [`Node::finish`], for each.
    pub fn finish(self) -> Vec<Directory<C>>
        ensures { AreReleased C.cmp self result.items }
    {
        let Network {
            nodes,
            room: mut directories,
        } = self;
        let mut left = nodes.into_iter();
        while let Some(node) = left.next() {
            directories.push_reserved(node.finish());
        }
        left.destroy_empty();
        directories
    }
}

impl<C: PublicKey> Network<C> {
    // Both nodes of the network, if there are two. It doesn't allocate.
    pub(crate) fn into_both(self) -> (Node<C>, Node<C>)
        requires { length self ≡ 2 }
        ensures { self ≡ result.0 ∷ result.1 ∷ [] }
    {
        let Network { nodes, room: _ } = self;
        let mut nodes = nodes;
        match nodes.pop() {
            Some(right) => match nodes.pop() {
                Some(left) => {
                    nodes.destroy_empty();
                    (left, right)
                }
                None => unreachable!(),
            },
            None => unreachable!(),
        }
    }
}

/// What a run of a network leaves. It must be consumed by [`NetworkRun::finish`], or its nodes by
/// [`Network::finish`].
pub struct NetworkRun<C: PublicKey> {
    /// The nodes after the last command.
    pub nodes: Network<C>,
    /// One reply for each command, in their order.
    pub replies: Vec<NetworkReply<C>>,
}

impl<C: PublicKey> NetworkRun<C> {
    /// Releases all reservations of a network that was run, and returns the directories, in the
    /// order of their nodes. It doesn't allocate. The replies are dropped.
    ///
    /// # Cost
    ///
    /// That of [`Network::finish`].
    pub fn finish(self) -> Vec<Directory<C>>
        ensures { AreReleased C.cmp self.nodes result.items }
    {
        let NetworkRun { nodes, replies: _ } = self;
        nodes.finish()
    }
}

/// Makes the nodes of a network and serves the commands in turn. Each reply is that of the call, by
/// what was done before it. A command that runs out of memory, or whose reply is `NoNode`,
/// `NotReserved` or `NotHeld`, has no effect.
///
/// Space for all replies, all reservations of all nodes and all directories is allocated before the
/// first command. So a `Call` gets `OutOfMemory` only if [`run`](crate::run::run) may reply it, and
/// an `Ask` only if there is a set at the position. A `Frame` and an `Exchange` get `Memory` only
/// if [`Node::receive`] and [`exchange`](crate::node::exchange) may return it.
///
/// At each point of the run hold the laws of provenance, given infos, reach and acquaintance, and
/// of each reply those of exchanges, frames, greetings and late frames. docs/PROOFS.md has them,
/// with their premises, below "Nodes and gossip". Laws that hold whatever the replies are those of
/// [`gossip_of_a_network`](crate::laws::gossip_of_a_network) alone.
///
/// It isn't claimed that any node answers, that peer sets are the same everywhere, or that infos
/// spread by themselves: the caller's commands decide which node asks which.
///
/// The result must be consumed by [`NetworkRun::finish`].
///
/// # Conditions
///
/// Those of [`Node::new`], for each.
///
/// # Errors
///
/// `AllocError` if an allocation fails before the first command.
///
/// # Cost
///
/// That of making the nodes, that of the calls, and for each command a logarithm of the number of
/// peers of all `Dial` and `Listen` commands at its node.
pub fn run_network<C: PublicKey>(
    alloc: Global,
    setups: Vec<Setup<C>>,
    commands: Vec<NetworkCommand<C>>,
) -> Result<NetworkRun<C>, AllocError>
    requires sets { All (λ s. non_zero_usize_get s.cfg.max_sets < 2 ^ 64 - 1) setups.items }
    requires bits { All (λ s. s.payload.max_bit_vec < 2 ^ 32) setups.items }
    ensures answers { IfOk result (λ run. OfNetwork C.cmp setups.items (λ size node.
        AreNetworkAnswers ⟦<C as Frames>⟧.wire size node [] commands.items run.replies.items)) }
    ensures stand { IfOk result (λ run. OfNetwork C.cmp setups.items (λ size node.
        let wire = ⟦<C as Frames>⟧.wire in
        StandAfter wire size node (done_after wire size node [] commands.items run.replies.items)
        run.nodes)) }
    ensures at_each_point { IfOk result (λ run. OfNetwork C.cmp setups.items (λ size node.
        let wire = ⟦<C as Frames>⟧.wire in
        AtEachPoint wire size node (PointLaws wire size node) [] commands.items
        run.replies.items)) }
    ensures of_each_reply { IfOk result (λ run. OfNetwork C.cmp setups.items (λ size node.
        let wire = ⟦<C as Frames>⟧.wire in
        OfEachReply wire size node (ReplyLaws wire size node C.IsValue C.Signature.IsValue) []
        commands.items run.replies.items)) }
{
    let mut replies = Vec::with_capacity(alloc, commands.len())?;
    let Network { mut nodes, room } = Network::new(alloc, setups)?;
    if make_room(&mut nodes, &commands).is_err() {
        Network { nodes, room }.finish();
        return Err(AllocError);
    }
    for command in commands {
        replies.push_reserved(serve(&mut nodes, command));
    }
    Ok(NetworkRun {
        nodes: Network { nodes, room },
        replies,
    })
}
