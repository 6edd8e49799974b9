//! Questions to a session's node: the calls that change nothing.

ghost use Rattle.std.specs.Prelude.{List, ℕ, Ok, []};
ghost use Rattle.p2p_tracker.specs.Calls.Call.{Ask};
ghost use Rattle.p2p_tracker.specs.Calls.Question.{AllPeers, BitsAt, BlockedAt, DialableAt};
ghost use Rattle.p2p_tracker.specs.Calls.Question.{InfoOf, IngressOf, IsAcceptable, IsEligible};
ghost use Rattle.p2p_tracker.specs.Calls.Question.{LatestIndex, LatestUpdate, MayListen};
ghost use Rattle.p2p_tracker.specs.Calls.Question.{NextUnblock, NumberTracked, PeerSet, StatusOf};
ghost use Rattle.p2p_session.specs.Sessions.{Looks, Serves, ServesRead, at_moment, infos_for};
ghost use Rattle.p2p_session.specs.Sessions.{of_peer, of_peer_at};
ghost use Rattle.p2p_session.specs.Sessions.Look.{Held, NextCooled, Retained};

use crate::commands;
use crate::given::{key, moment};
use crate::refusal::Refusal;
use crate::reply::{status_of, tell_held, tell_index, tell_moment, truth_of};
use crate::scheme::Keys;
use crate::session::Session;
use p2p_directory::run::Command;
use p2p_discovery::codec::PublicKey;
use std::alloc::Global;

impl<C: PublicKey> Session<C> {
    /// Asks the session's node by `Directory::infos`, for the encoded bits and their index. Returns
    /// the encoded list, or `None`.
    #[inline(never)]
    pub fn infos(
        &mut self,
        alloc: Global,
        bits: &[u8],
        seconds: u64,
        nanos: u32,
        out: &mut [u8],
    ) -> u64
        ensures { let k = ⟦<C as Keys>⟧.scheme in ServesRead k bits.now (infos_for k
            bits.now seconds nanos) out.old out.new self.old.node self.new.node result }
    {
        self.serve(commands::infos_for(alloc, bits, seconds, nanos), out)
    }

    /// Asks the session's node by `Directory::next_unblock`: the time, or `None`.
    #[inline(never)]
    pub fn next_unblock(&mut self, out: &mut [u8]) -> u64
        ensures { Serves ⟦<C as Keys>⟧.scheme (Ok (Ask NextUnblock)) out.old out.new self.old.node
            self.new.node result }
    {
        let Some(node) = &self.node else {
            return Refusal::NoNode.number();
        };
        tell_moment(node.next_unblock(), out)
    }

    /// Asks the session's node by `Directory::blocked_peers`: their keys.
    #[inline(never)]
    pub fn blocked_peers(&mut self, seconds: u64, nanos: u32, out: &mut [u8]) -> u64
        ensures { Serves ⟦<C as Keys>⟧.scheme (at_moment seconds nanos (λ now. Ask (BlockedAt
            now))) out.old out.new self.old.node self.new.node result }
    {
        self.serve(commands::blocked_peers(seconds, nanos), out)
    }

    /// Asks the session's node by `Directory::status`: 0 for `Inert`, 1 for `Reserved`, 2 for
    /// `Active`, or `None`.
    #[inline(never)]
    pub fn status(&mut self, peer: &[u8]) -> u64
        ensures { let k = ⟦<C as Keys>⟧.scheme in Serves k (of_peer k peer.now (λ p. Ask (StatusOf
            p))) [] [] self.old.node self.new.node result }
    {
        let Some(node) = &self.node else {
            return Refusal::NoNode.number();
        };
        match key(peer) {
            Some(peer) => status_of(node.status(&peer)),
            None => Refusal::BadKey.number(),
        }
    }

    /// Asks the session's node by `Directory::get_peer_set`: the number of primary peers, their
    /// keys, and the keys of the secondary peers, or `None`.
    #[inline(never)]
    pub fn get_peer_set(&mut self, index: u64, out: &mut [u8]) -> u64
        ensures { Serves ⟦<C as Keys>⟧.scheme (Ok (Ask (PeerSet index))) out.old out.new
            self.old.node self.new.node result }
    {
        self.serve(Ok(Command::GetPeerSet(index)), out)
    }

    /// Asks the session's node by `Directory::latest_set_index`: the index, or `None`.
    #[inline(never)]
    pub fn latest_set_index(&mut self, out: &mut [u8]) -> u64
        ensures { Serves ⟦<C as Keys>⟧.scheme (Ok (Ask LatestIndex)) out.old out.new self.old.node
            self.new.node result }
    {
        let Some(node) = &self.node else {
            return Refusal::NoNode.number();
        };
        tell_index(node.latest_set_index(), out)
    }

    /// Asks the session's node by `Directory::latest_update`. Returns the index, the lengths of the
    /// first three lists, and the primary and secondary peers of the latest set and of all sets, or
    /// `None`.
    #[inline(never)]
    pub fn latest_update(&mut self, out: &mut [u8]) -> u64
        ensures { Serves ⟦<C as Keys>⟧.scheme (Ok (Ask LatestUpdate)) out.old out.new
            self.old.node self.new.node result }
    {
        self.serve(Ok(Command::LatestUpdate), out)
    }

    /// Asks the session's node by `Directory::all`: the number of primary peers, their keys, and
    /// the keys of the secondary peers.
    #[inline(never)]
    pub fn all(&mut self, out: &mut [u8]) -> u64
        ensures { Serves ⟦<C as Keys>⟧.scheme (Ok (Ask AllPeers)) out.old out.new self.old.node
            self.new.node result }
    {
        self.serve(Ok(Command::All), out)
    }

    /// Asks the session's node by `Directory::info`: the encoded info, or `None`.
    #[inline(never)]
    pub fn info(&mut self, _alloc: Global, peer: &[u8], out: &mut [u8]) -> u64
        ensures { let k = ⟦<C as Keys>⟧.scheme in Serves k (of_peer k peer.now (λ p. Ask (InfoOf
            p))) out.old out.new self.old.node self.new.node result }
    {
        self.serve(commands::info(peer), out)
    }

    /// Asks the session's node by `Directory::ingress`: the encoded address that it holds of the
    /// peer, or `None`.
    #[inline(never)]
    pub fn ingress(&mut self, peer: &[u8], out: &mut [u8]) -> u64
        ensures { let k = ⟦<C as Keys>⟧.scheme in Serves k (of_peer k peer.now (λ p. Ask
            (IngressOf p))) out.old out.new self.old.node self.new.node result }
    {
        self.serve(commands::ingress(peer), out)
    }

    /// Asks the session's node by `Directory::get_random_bit_vec`: the encoded bits with their
    /// index, or `None`.
    #[inline(never)]
    pub fn get_random_bit_vec(&mut self, _alloc: Global, place: u64, out: &mut [u8]) -> u64
        ensures { Serves ⟦<C as Keys>⟧.scheme (Ok (Ask (BitsAt place))) out.old out.new
            self.old.node self.new.node result }
    {
        self.serve(Ok(Command::GetRandomBitVec(place as usize)), out)
    }

    /// Asks the session's node by `Directory::eligible`: 1 or 0.
    #[inline(never)]
    pub fn eligible(&mut self, peer: &[u8], seconds: u64, nanos: u32) -> u64
        ensures { let k = ⟦<C as Keys>⟧.scheme in Serves k (of_peer_at k peer.now seconds nanos (λ
            p now. Ask (IsEligible p now))) [] [] self.old.node self.new.node result }
    {
        let Some(node) = &self.node else {
            return Refusal::NoNode.number();
        };
        match (key(peer), moment(seconds, nanos)) {
            (Some(peer), Ok(now)) => truth_of(node.eligible(&peer, now)),
            (None, _) => Refusal::BadKey.number(),
            (Some(_), Err(refusal)) => refusal.number(),
        }
    }

    /// Asks the session's node by `Directory::acceptable`: 1 or 0.
    #[inline(never)]
    pub fn acceptable(&mut self, peer: &[u8], seconds: u64, nanos: u32) -> u64
        ensures { let k = ⟦<C as Keys>⟧.scheme in Serves k (of_peer_at k peer.now seconds nanos (λ
            p now. Ask (IsAcceptable p now))) [] [] self.old.node self.new.node result }
    {
        let Some(node) = &self.node else {
            return Refusal::NoNode.number();
        };
        match (key(peer), moment(seconds, nanos)) {
            (Some(peer), Ok(now)) => truth_of(node.acceptable(&peer, now)),
            (None, _) => Refusal::BadKey.number(),
            (Some(_), Err(refusal)) => refusal.number(),
        }
    }

    /// Asks the session's node by `Directory::may_listen`: 1 or 0.
    #[inline(never)]
    pub fn may_listen(&mut self, peer: &[u8], seconds: u64, nanos: u32) -> u64
        ensures { let k = ⟦<C as Keys>⟧.scheme in Serves k (of_peer_at k peer.now seconds nanos (λ
            p now. Ask (MayListen p now))) [] [] self.old.node self.new.node result }
    {
        let Some(node) = &self.node else {
            return Refusal::NoNode.number();
        };
        match (key(peer), moment(seconds, nanos)) {
            (Some(peer), Ok(now)) => truth_of(node.may_listen(&peer, now)),
            (None, _) => Refusal::BadKey.number(),
            (Some(_), Err(refusal)) => refusal.number(),
        }
    }

    /// Asks the session's node by `Directory::dialable`: whether a time to ask again follows, that
    /// time, and the keys.
    #[inline(never)]
    pub fn dialable(&mut self, seconds: u64, nanos: u32, out: &mut [u8]) -> u64
        ensures { Serves ⟦<C as Keys>⟧.scheme (at_moment seconds nanos (λ now. Ask (DialableAt
            now))) out.old out.new self.old.node self.new.node result }
    {
        self.serve(commands::dialable(seconds, nanos), out)
    }

    /// Asks the session's node by `Directory::tracked`: how many peers have a record, except the
    /// local node.
    #[inline(never)]
    pub fn tracked(&mut self) -> u64
        ensures { Serves ⟦<C as Keys>⟧.scheme (Ok (Ask NumberTracked)) [] [] self.old.node
            self.new.node result }
    {
        let Some(node) = &self.node else {
            return Refusal::NoNode.number();
        };
        node.tracked() as u64
    }

    /// Asks the session's node by `Directory::retained`. Returns the number of retained sets.
    #[inline(never)]
    pub fn retained(&mut self) -> u64
        ensures { (out : List ℕ) → Looks ⟦<C as Keys>⟧.scheme Retained out out self.old.node
            self.new.node result }
    {
        let Some(node) = &self.node else {
            return Refusal::NoNode.number();
        };
        node.retained() as u64
    }

    /// Asks the session's node by `Directory::next_cooled`: the time, or `None`.
    #[inline(never)]
    pub fn next_cooled(&mut self, out: &mut [u8]) -> u64
        ensures { Looks ⟦<C as Keys>⟧.scheme NextCooled out.old out.new self.old.node
            self.new.node result }
    {
        let Some(node) = &self.node else {
            return Refusal::NoNode.number();
        };
        tell_moment(node.next_cooled(), out)
    }

    /// Asks the session's node whom the reservation held of a peer is for: byte 0 for an inbound
    /// peer, or byte 1 and the encoded ingress that is dialled. `None` if none is held. It
    /// allocates nothing.
    #[inline(never)]
    pub fn reservation(&mut self, peer: &[u8], out: &mut [u8]) -> u64
        ensures { Looks ⟦<C as Keys>⟧.scheme (Held peer.now) out.old out.new self.old.node
            self.new.node result }
    {
        let Some(node) = &self.node else {
            return Refusal::NoNode.number();
        };
        match key(peer) {
            Some(peer) => tell_held(node.held(&peer), out),
            None => Refusal::BadKey.number(),
        }
    }
}
