//! The calls of a session that may change its node.

ghost use Rattle.std.specs.Prelude.{◌≤◌, List, ℕ, [], length};
ghost use Rattle.p2p_session.specs.Given.{track_of};
ghost use Rattle.p2p_tracker.specs.Calls.Call.{Block, Connect, Dial, ForgetCooled, Listen};
ghost use Rattle.p2p_tracker.specs.Calls.Call.{Release, UnblockExpired};
ghost use Rattle.p2p_session.specs.Sessions.{Fits, Looks, Makes, OfNode, Serves, ServesRead, Tracks};
ghost use Rattle.p2p_session.specs.Sessions.{at_moment, of_peer, of_peer_at, room_for, updated_by};
ghost use Rattle.p2p_session.specs.Sessions.{with_draw};
ghost use Rattle.p2p_session.specs.Sessions.Look.{Room};

use crate::given::{key, moment};
use crate::refusal::Refusal;
use crate::reply::{tell, truth_of};
use crate::scheme::Keys;
use crate::session::Session;
use crate::{answer, commands};
use p2p_directory::directory::TrackedPeers;
use p2p_directory::node::Node;
use p2p_discovery::codec::PublicKey;
use std::alloc::Global;

impl<C: PublicKey> Session<C> {
    /// Calls `Directory::track` of the session's node, with the sets of these keys. Returns the
    /// keys of the peers that must be disconnected, or `None` if the set isn't accepted. The buffer
    /// must have [`Session::track_room`] bytes.
    #[inline(never)]
    pub fn track(
        &mut self,
        alloc: Global,
        index: u64,
        primary: &[u8],
        secondary: &[u8],
        torn: &mut [u8],
    ) -> u64
        ensures { OfNode (λ v v2. Tracks ⟦<C as Keys>⟧.scheme index primary.now secondary.now
            torn.old torn.new v v2 result) torn.old torn.new self.old.node self.new.node result }
    {
        let Some(node) = &mut self.node else {
            return Refusal::NoNode.number();
        };
        if answer::size_of_keys::<C>(node.directory().tracked()) > torn.len() as u64 {
            return Refusal::NoRoom.number();
        }
        let peers = commands::peers(alloc, primary, secondary);
        take_set(alloc, node, index, peers, torn)
    }

    /// How long the buffer of the session's call `track` must be: the size of the keys of all peers
    /// with a record.
    #[inline(never)]
    pub fn track_room(&mut self) -> u64
        ensures { (out : List ℕ) → Looks ⟦<C as Keys>⟧.scheme Room out out self.old.node
            self.new.node result }
    {
        match &self.node {
            Some(node) => answer::size_of_keys::<C>(node.directory().tracked()),
            None => Refusal::NoNode.number(),
        }
    }

    /// Calls `Directory::dial` of the session's node. Returns 1 if the peer is reserved to be
    /// dialled, 0 if that isn't granted.
    pub fn dial(
        &mut self,
        peer: &[u8],
        seconds: u64,
        nanos: u32,
        draw_seconds: u64,
        draw_nanos: u32,
    ) -> u64
        ensures { let k = ⟦<C as Keys>⟧.scheme in Serves k (with_draw k peer.now seconds nanos
            draw_seconds draw_nanos (λ p now draw. Dial p now draw)) [] [] self.old.node
            self.new.node result }
    {
        let Some(node) = &mut self.node else {
            return Refusal::NoNode.number();
        };
        let now = moment(seconds, nanos);
        let draw = moment(draw_seconds, draw_nanos);
        match (key(peer), now, draw) {
            (Some(peer), Ok(now), Ok(draw)) => {
                let alloc = node.directory().allocator();
                let reply = node.dial(&peer, now, draw);
                tell(alloc, reply, &mut [])
            }
            (None, _, _) => Refusal::BadKey.number(),
            (Some(_), Err(refusal), _) | (Some(_), Ok(_), Err(refusal)) => refusal.number(),
        }
    }

    /// Calls `Directory::listen` of the session's node. Returns 1 if the inbound peer is reserved,
    /// 0 if that isn't granted.
    pub fn listen(
        &mut self,
        peer: &[u8],
        seconds: u64,
        nanos: u32,
        draw_seconds: u64,
        draw_nanos: u32,
    ) -> u64
        ensures { let k = ⟦<C as Keys>⟧.scheme in Serves k (with_draw k peer.now seconds nanos
            draw_seconds draw_nanos (λ p now draw. Listen p now draw)) [] [] self.old.node
            self.new.node result }
    {
        let Some(node) = &mut self.node else {
            return Refusal::NoNode.number();
        };
        let now = moment(seconds, nanos);
        let draw = moment(draw_seconds, draw_nanos);
        match (key(peer), now, draw) {
            (Some(peer), Ok(now), Ok(draw)) => {
                let alloc = node.directory().allocator();
                let reply = node.listen(&peer, now, draw);
                tell(alloc, reply, &mut [])
            }
            (None, _, _) => Refusal::BadKey.number(),
            (Some(_), Err(refusal), _) | (Some(_), Ok(_), Err(refusal)) => refusal.number(),
        }
    }

    /// Calls `Directory::connect` of the session's node. Returns 1, or `NotReserved`.
    #[inline(never)]
    pub fn connect(&mut self, peer: &[u8], dialer: bool) -> u64
        ensures { let k = ⟦<C as Keys>⟧.scheme in Serves k (of_peer k peer.now (λ p. Connect p
            dialer)) [] [] self.old.node self.new.node result }
    {
        let Some(node) = &mut self.node else {
            return Refusal::NoNode.number();
        };
        match key(peer) {
            Some(peer) => {
                let alloc = node.directory().allocator();
                let reply = node.connect(&peer, dialer);
                tell(alloc, reply, &mut [])
            },
            None => Refusal::BadKey.number(),
        }
    }

    /// Calls `Directory::release` of the session's node, for what is held of the peer. Returns 1,
    /// or `NotHeld`.
    #[inline(never)]
    pub fn release(&mut self, peer: &[u8]) -> u64
        ensures { let k = ⟦<C as Keys>⟧.scheme in Serves k (of_peer k peer.now (λ p. Release p))
            [] [] self.old.node self.new.node result }
    {
        let Some(node) = &mut self.node else {
            return Refusal::NoNode.number();
        };
        match key(peer) {
            Some(peer) => {
                let alloc = node.directory().allocator();
                let reply = node.release(&peer);
                tell(alloc, reply, &mut [])
            },
            None => Refusal::BadKey.number(),
        }
    }

    /// Calls `Directory::update_peers` of the session's node, with the infos that these bytes
    /// encode as a list. Returns 1. The host must have made or verified the infos itself.
    #[inline(never)]
    pub fn update_peers(&mut self, alloc: Global, infos: &[u8]) -> u64
        ensures { let k = ⟦<C as Keys>⟧.scheme in ServesRead k infos.now (updated_by k infos.now)
            [] [] self.old.node self.new.node result }
    {
        self.serve(commands::update_peers(alloc, infos), &mut [])
    }

    /// Calls `Directory::block` of the session's node. Returns 1 if the block takes effect, else 0.
    #[inline(never)]
    pub fn block(&mut self, peer: &[u8], seconds: u64, nanos: u32) -> u64
        ensures { let k = ⟦<C as Keys>⟧.scheme in Serves k (of_peer_at k peer.now seconds nanos (λ
            p now. Block p now)) [] [] self.old.node self.new.node result }
    {
        let Some(node) = &mut self.node else {
            return Refusal::NoNode.number();
        };
        match (key(peer), moment(seconds, nanos)) {
            (Some(peer), Ok(now)) => {
                let alloc = node.directory().allocator();
                let reply = node.block(&peer, now);
                tell(alloc, reply, &mut [])
            },
            (None, _) => Refusal::BadKey.number(),
            (Some(_), Err(refusal)) => refusal.number(),
        }
    }

    /// Calls `Directory::unblock_expired` of the session's node. Returns 1 if a block ended, else
    /// 0.
    #[inline(never)]
    pub fn unblock_expired(&mut self, seconds: u64, nanos: u32) -> u64
        ensures { Serves ⟦<C as Keys>⟧.scheme (at_moment seconds nanos (λ now. UnblockExpired
            now)) [] [] self.old.node self.new.node result }
    {
        let Some(node) = &mut self.node else {
            return Refusal::NoNode.number();
        };
        match moment(seconds, nanos) {
            Ok(now) => truth_of(node.unblock_expired(now)),
            Err(refusal) => refusal.number(),
        }
    }

    /// Calls `Directory::forget_cooled` of the session's node. Returns how many cooldowns were
    /// forgotten.
    #[inline(never)]
    pub fn forget_cooled(&mut self, seconds: u64, nanos: u32) -> u64
        ensures { Serves ⟦<C as Keys>⟧.scheme (at_moment seconds nanos (λ now. ForgetCooled now))
            [] [] self.old.node self.new.node result }
    {
        let Some(node) = &mut self.node else {
            return Refusal::NoNode.number();
        };
        match moment(seconds, nanos) {
            Ok(now) => node.forget_cooled(now) as u64,
            Err(refusal) => refusal.number(),
        }
    }
}

// Calls the session's node to register the set, if the peers were decoded. Writes who must be
// disconnected.
fn take_set<C: PublicKey>(
    alloc: Global,
    node: &mut Node<C>,
    index: u64,
    peers: Result<TrackedPeers<C>, Refusal>,
    torn: &mut [u8],
) -> u64
    ensures served { Makes ⟦<C as Keys>⟧.scheme (track_of index peers) torn.old torn.new node.old
        node.new result }
    ensures whole { room_for ⟦<C as Keys>⟧.scheme node.old ≤ length torn.old → Fits torn.old
        result }
{
    match peers {
        Ok(peers) => {
            let reply = node.track(index, peers);
            tell(alloc, reply, torn)
        }
        Err(refusal) => refusal.number(),
    }
}
