//! A session: a node, and the calls of a host to it.

ghost use Rattle.std.specs.Prelude.{◌≡◌, ◌<◌, ◌-◌, ◌^◌, None};
ghost use Rattle.std.specs.Int.NonZero.{non_zero_usize_get};
ghost use Rattle.p2p_session.specs.Refusals.{number_of};
ghost use Rattle.p2p_session.specs.declared.refusal.Refusal.TheVariants.{Memory};
ghost use Rattle.p2p_session.specs.Given.{asked, numbers_of};
ghost use Rattle.p2p_session.specs.Sessions.{IsFresh, Serves, InitsBy, IsMade, Looks, Receives};
ghost use Rattle.p2p_session.specs.Sessions.Look.{Check, Wanted};

use crate::checked::Checked;
use crate::frames;
use crate::refusal::Refusal;
use crate::reply::{tell, tell_frame};
use crate::scheme::Keys;
use crate::setup::{Numbers, setup};
use p2p_directory::node::{Node, Setup};
use p2p_directory::run::Command;
use p2p_discovery::codec::PublicKey;
use std::alloc::Global;

mod calls;
mod questions;
mod requests;

/// A node, once [`Session::init`] created one, and the frame that [`Session::check`] decoded last. It
/// must be consumed by [`Session::end`].
pub struct Session<C: PublicKey> {
    node: Option<Node<C>>,
    checked: Checked<C>,
}

impl<C: PublicKey> Session<C> {
    /// A session with no node. It allocates nothing.
    pub fn new(_alloc: Global) -> Session<C>
        ensures { IsFresh result }
    {
        Session {
            node: None,
            checked: Checked::new(),
        }
    }

    /// Ends the session, and frees all that it holds.
    pub fn end(self, _alloc: Global) {
        let Session { node, checked: _ } = self;
        if let Some(node) = node {
            node.finish();
        }
    }

    /// Creates the node of a session that has none, with these settings. Returns 1. A peer's name
    /// is its key; the info, and the ingress after each bootstrapper's key, are encoded.
    #[allow(clippy::too_many_arguments)]
    #[inline(never)]
    pub fn init(
        &mut self,
        alloc: Global,
        allow_private_ips: bool,
        allow_dns: bool,
        max_sets: u64,
        dial_fail_limit: u64,
        cooldown_seconds: u64,
        cooldown_nanos: u32,
        block_seconds: u64,
        block_nanos: u32,
        max_bit_vec: u64,
        max_peers: u64,
        max_data_length: u64,
        peer_gossip_max_count: u64,
        bound_seconds: u64,
        bound_nanos: u32,
        namespace: &[u8],
        bootstrappers: &[u8],
        myself: &[u8],
    ) -> u64
        ensures { InitsBy ⟦<C as Keys>⟧.scheme (numbers_of allow_private_ips allow_dns max_sets
            dial_fail_limit cooldown_seconds cooldown_nanos block_seconds block_nanos max_bit_vec
            max_peers max_data_length peer_gossip_max_count bound_seconds bound_nanos)
            namespace.now bootstrappers.now myself.now self.old self.new result }
    {
        let numbers = Numbers {
            allow_private_ips,
            allow_dns,
            max_sets,
            dial_fail_limit,
            cooldown: (cooldown_seconds, cooldown_nanos),
            block: (block_seconds, block_nanos),
            max_bit_vec,
            max_peers,
            max_data_length,
            peer_gossip_max_count,
            bound: (bound_seconds, bound_nanos),
        };
        if let Some(_node) = &self.node {
            return Refusal::BadSetting.number();
        }
        match setup(alloc, &numbers, namespace, bootstrappers, myself) {
            Ok(setup) => self.make(alloc, setup),
            Err(refusal) => refusal.number(),
        }
    }

    // Creates the session's node.
    fn make(&mut self, alloc: Global, setup: Setup<C>) -> u64
        requires none { self.old.node ≡ None }
        requires sets { non_zero_usize_get setup.cfg.max_sets < 2 ^ 64 - 1 }
        requires bits { setup.payload.max_bit_vec < 2 ^ 32 }
        ensures made { result ≡ 1 → IsMade ⟦<C as Keys>⟧.scheme self.new.node setup }
        ensures refused { ¬ (result ≡ 1) → (self.new.node ≡ None) × (result ≡ number_of Memory) }
    {
        let Ok(node) = Node::new(alloc, setup) else {
            return Refusal::Memory.number();
        };
        if let Some(old) = self.node.replace(node) {
            old.finish();
        }
        1
    }

    /// The frame in which the session requests the wanted infos of the set at a position, or
    /// `None`.
    #[inline(never)]
    pub fn ask(&mut self, place: u64, out: &mut [u8]) -> u64
        ensures { Looks ⟦<C as Keys>⟧.scheme (Wanted place) out.old out.new self.old.node
            self.new.node result }
    {
        match &self.node {
            Some(node) => tell_frame(node.ask(place as usize), out),
            None => Refusal::NoNode.number(),
        }
    }

    /// What the session's host has to verify before [`Session::receive`]. It is how many infos the
    /// frame has, and those whose signatures decide, each by the length of its signed bytes, its
    /// key, the signed bytes and its signature. The list stops before the first info that is
    /// refused whatever its signature is.
    ///
    /// A frame that encodes a payload is kept decoded, in place of the one before, so that
    /// [`Session::receive`] needn't decode it again.
    #[inline(never)]
    pub fn check(
        &mut self,
        alloc: Global,
        frame: &[u8],
        seconds: u64,
        nanos: u32,
        out: &mut [u8],
    ) -> u64
        ensures { Looks ⟦<C as Keys>⟧.scheme (Check frame.now seconds nanos) out.old out.new
            self.old.node self.new.node result }
    {
        match &self.node {
            Some(node) => {
                let time = (seconds, nanos);
                frames::check(alloc, node, &mut self.checked, frame, time, out)
            }
            None => Refusal::NoNode.number(),
        }
    }

    /// Processes a frame by the session's node, and writes the answer: as
    /// `Node::answer_with_verdicts` does, or `Node::answer_decoded` if the frame was checked last.
    /// `verdicts` has a byte for each of its infos, which says whether its signature is valid. It
    /// counts for those that [`Session::check`] lists for the same time, up to the first that is
    /// invalid; the others may be anything.
    #[inline(never)]
    pub fn receive(
        &mut self,
        alloc: Global,
        frame: &[u8],
        seconds: u64,
        nanos: u32,
        verdicts: &[u8],
        out: &mut [u8],
    ) -> u64
        ensures { Receives ⟦<C as Keys>⟧.scheme frame.now seconds nanos verdicts.now out.old
            out.new self.old.node self.new.node result }
    {
        match &mut self.node {
            Some(node) => {
                let checked = &mut self.checked;
                let time = (seconds, nanos);
                frames::receive(alloc, node, checked, frame, time, verdicts, out)
            }
            None => Refusal::NoNode.number(),
        }
    }

    // Serves the command, if the session has a node and the command was decoded. Writes its reply.
    fn serve(&mut self, command: Result<Command<C>, Refusal>, out: &mut [u8]) -> u64
        ensures { Serves ⟦<C as Keys>⟧.scheme (asked command) out.old out.new self.old.node
            self.new.node result }
    {
        let Some(node) = &mut self.node else {
            return Refusal::NoNode.number();
        };
        match command {
            Ok(command) => {
                let alloc = node.directory().allocator();
                let reply = node.step(command);
                tell(alloc, reply, out)
            }
            Err(refusal) => refusal.number(),
        }
    }
}
