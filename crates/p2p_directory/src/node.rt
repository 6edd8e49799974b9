//! A node: a directory that receives frames, verifies their infos and replies to them.

ghost use Rattle.std.specs.Prelude.{◌≡◌, ◌-◌, ◌<◌, ◌^◌, [], false, true, IfOk, OnOk, option_map};
ghost use Rattle.std.specs.Int.NonZero.{non_zero_usize_get};
ghost use Rattle.p2p_directory.specs.Held.{held_of, AreHeld, ReleasesAll};
ghost use Rattle.p2p_directory.specs.Run.{was_made};
ghost use Rattle.p2p_discovery.specs.Info.{IsInfo, IsKeyed};
ghost use Rattle.p2p_directory.specs.Nodes.{NodeStandsAt, made_of, IsStepped, StandsSomewhere};
ghost use Rattle.p2p_directory.specs.Nodes.{HoldsAfter, IsSame, KeepsRoom, has_slot, named_peer};
ghost use Rattle.p2p_directory.specs.Private.Networks.{has_room, IsNodeServed};

pub use crate::node::decoded::Decoded;
pub use crate::node::exchanged::{Exchanged, exchange};
pub use crate::node::network::{Network, NetworkCommand, NetworkReply, NetworkRun, run_network};
pub use crate::node::pair::{PairCommand, PairReply, PairRun, Side, run_pair};
pub use crate::node::received::{Answer, Miscounted, Received};
pub use crate::node::setup::Setup;
use crate::run::server::Server;
use crate::run::slots::Slots;
use crate::run::{Command, Held, Reply};
use p2p_discovery::codec::{PublicKey, Write};
use p2p_discovery::discovery::{Info, InfoVerifier, PayloadConfig};
use p2p_tracker::directory::{Directory, Metadata};
use std::alloc::{AllocError, Global};
use std::marker::Model;

mod answers;
mod calls;
mod decoded;
mod exchanged;
mod exchanges;
mod frames;
mod network;
mod pair;
mod questions;
mod received;
mod setup;
pub mod wire;

/// A directory with its open reservations, the verifier of infos, and the limits under which frames
/// are read. A contract sees these four, and for which peers there is a slot: room for a
/// reservation, with one in it or not. It must be consumed by [`Node::finish`] or [`Node::parts`].
///
/// # Times
///
/// Each call takes its own time. By those of `Command::Infos` and [`Node::receive`] infos are
/// shared and judged. By those of all other calls reservations and blocks are made, and end.
/// Neither has to do with the other, as [`infos_leave_moments`](crate::laws::infos_leave_moments)
/// says. So they may come from two clocks: the first from a wall clock, the second from one that
/// never goes back.
pub struct Node<C: PublicKey> {
    server: Server<C>,
    verifier: InfoVerifier<C>,
    payload: PayloadConfig,
}

impl<C: PublicKey> Model for Node<C> {
    ghost use Rattle.std.specs.Prelude.{◌<◌, ◌^◌};
    ghost use Rattle.p2p_directory.specs.Nodes.{NodeView, StandsSomewhere};
    ghost use Rattle.p2p_directory.specs.Private.Slots.{AreSlots};
    ghost use Rattle.p2p_directory.specs.Private.Serving.{node_at};

    ghost Value = { NodeView C C.Signature };

    ghost view = { λ n. node_at n.payload n.verifier n.server };

    ghost invariant = { λ n. (n.payload.max_bit_vec < 2 ^ 32)
        × AreSlots C.cmp n.server.slots
        × StandsSomewhere C.cmp (node_at n.payload n.verifier n.server) };
}

impl<C: PublicKey> Node<C> {
    /// A new node of this setup: its directory is new, it holds no reservation, and its verifier of
    /// infos has the key of the local info.
    ///
    /// # Conditions
    ///
    /// Those of [`Directory::init`], and `payload.max_bit_vec` is at most `u32::MAX`. The maximum
    /// size of gossip with as many infos then fits `usize`.
    ///
    /// # Errors
    ///
    /// `AllocError` if an allocation fails.
    ///
    /// # Cost
    ///
    /// That of [`Directory::init`], and one pass over the encoding of the local info.
    pub fn new(alloc: Global, setup: Setup<C>) -> Result<Self, AllocError>
        requires sets { non_zero_usize_get setup.cfg.max_sets < 2 ^ 64 - 1 }
        requires bits { setup.payload.max_bit_vec < 2 ^ 32 }
        ensures stands { IfOk result (NodeStandsAt (made_of C.cmp setup) []) }
        ensures room { IfOk result (λ node. node.slots ≡ []) }
        ensures own { IfOk result (λ _.
            IsInfo setup.myself × IsKeyed C.IsValue C.Signature.IsValue setup.myself) }
    {
        let Setup {
            bootstrappers,
            myself,
            cfg,
            payload,
            peer_gossip_max_count,
            synchrony_bound,
            namespace,
        } = setup;
        // For the proof: the local info has an encoding.
        let _greeting = myself.encode(alloc)?;
        let me = myself.public_key;
        let directory = Directory::init(alloc, bootstrappers, myself, cfg)?;
        let server = Server::new(directory, Slots::new(alloc));
        let verifier = Info::<C>::verifier(me, peer_gossip_max_count, synchrony_bound, namespace);
        Ok(Node {
            server,
            verifier,
            payload,
        })
    }

    /// Does nothing to the node. Its contract says what holds between calls: the node stands where
    /// the calls lead that it accepted, for some setup that it was made from and some calls. What
    /// each call returns follows from these two, so a function that is lent a node can say it, too.
    pub fn stands(&self)
        ensures { StandsSomewhere C.cmp self.now }
    {
        let _limits = &self.payload;
    }

    /// Serves one command of the node, as [`run`](crate::run::run) does: a granted reservation is
    /// held, and a command whose reply is `NotReserved`, `NotHeld` or `OutOfMemory` changes
    /// nothing.
    ///
    /// Space for a reservation is allocated before a `Dial` or a `Listen`, so the reply to both may
    /// be `OutOfMemory` if that fails. It is kept only as long as a reservation is held.
    ///
    /// # Examples
    ///
    /// `admit`, which the test `a_peer_is_admitted_and_answered` of `p2p_directory_tests` runs.
    ///
    /// # Cost
    ///
    /// That of the call, and for a `Dial`, a `Listen` and a `Release` some searches among the
    /// reservations.
    pub fn step(&mut self, command: Command<C>) -> Reply<C>
        ensures stepped { IsStepped C.cmp command result self.old self.new }
        ensures unchanged { was_made result ≡ false → IsSame self.old self.new }
        ensures held { HoldsAfter C.cmp command result self.old self.new }
        ensures room { KeepsRoom C.cmp (named_peer command) self.old self.new }
        ensures limits { self.new.limits ≡ self.old.limits }
        ensures verifier { self.new.verifier ≡ self.old.verifier }
    {
        self.server.step(command)
    }

    /// The directory of the node.
    pub fn directory(&self) -> &Directory<C>
        ensures { result.now ≡ self.now.directory }
    {
        self.server.directory()
    }

    /// The node's verifier of infos.
    pub fn verifier(&self) -> &InfoVerifier<C>
        ensures { result.now ≡ self.now.verifier }
    {
        &self.verifier
    }

    /// The limits under which the node reads frames.
    pub fn limits(&self) -> PayloadConfig
        ensures { result ≡ self.now.limits }
    {
        self.payload
    }

    /// Whom the reservation of the peer that the node holds is for, and who dials, or `None` if it
    /// holds none. It doesn't allocate.
    ///
    /// # Cost
    ///
    /// Logarithmic in the number of reservations.
    pub fn held(&self, peer: &C) -> Option<&Metadata<C>>
        ensures { option_map (λ m. m.now) result ≡ held_of C.cmp self.now.held peer.now }
    {
        self.server.held(peer)
    }

    /// The parts of the node: its directory, and the reservations that it granted and that were not
    /// released. They are those of exactly the peers that are reserved or connected. It doesn't
    /// allocate.
    ///
    /// # Cost
    ///
    /// Constant. For a node of a pair or a network that was run, one step more for each peer
    /// without a reservation before the first that has one.
    pub fn parts(self) -> (Directory<C>, Held<C>)
        ensures directory { result.0 ≡ self.directory }
        ensures held { (q : C) → held_of C.cmp result.1 q ≡ held_of C.cmp self.held q }
        ensures agree { AreHeld C.cmp result.0 (held_of C.cmp result.1) }
    {
        let Node {
            server,
            verifier: _,
            payload: _,
        } = self;
        server.into_parts()
    }

    /// Releases all reservations of the node, and returns its directory. It doesn't allocate.
    ///
    /// # Cost
    ///
    /// That of [`Node::parts`] and of [`Held::release_all`].
    pub fn finish(self) -> Directory<C>
        ensures { ReleasesAll C.cmp self.held self.directory result }
    {
        let (mut directory, held) = self.parts();
        held.release_all(&mut directory);
        directory
    }
}

impl<C: PublicKey> Node<C> {
    // Makes a slot at the node for the reservation that the command may be granted, if there is
    // none.
    fn make_room(&mut self, command: &Command<C>) -> Result<(), AllocError>
        ensures same { IsSame self.old self.new }
        ensures room { OnOk result (has_room C.cmp self.new command.now ≡ true) }
        ensures slots { OnOk result ((q : C) →
            has_slot C.cmp self.old q ≡ true → has_slot C.cmp self.new q ≡ true) }
    {
        self.server.make_room(command)
    }

    // Serves one command at the node, if there is a slot for the reservation that it may be
    // granted. The slot stays.
    fn serve(&mut self, command: Command<C>) -> Reply<C>
        requires room { has_room C.cmp self.old command ≡ true }
        ensures served { IsNodeServed C.cmp command result self.old self.new }
        ensures slots { (q : C) → has_slot C.cmp self.new q ≡ has_slot C.cmp self.old q }
    {
        self.server.serve(command)
    }
}
