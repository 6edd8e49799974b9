//! A directory that serves commands, and holds the reservations that it grants.

ghost use Rattle.std.specs.Prelude.{◌≡◌, true, false, None, is_some};
ghost use Rattle.p2p_directory.specs.Held.{AreHeld};
ghost use Rattle.p2p_directory.specs.Private.Slots.{has_slot, held_in, AreSlots};
ghost use Rattle.p2p_directory.specs.Private.Serving.{has_slot_for, ingress_reply, IsServed};
ghost use Rattle.p2p_directory.specs.Nodes.{TearsDownFew};
ghost use Rattle.p2p_directory.specs.Run.{was_made};

use crate::run::commands::{Command, Reply};
use crate::run::server::reservations::replied;
use crate::run::slots::Slots;
use p2p_discovery::codec::PublicKey;
use p2p_discovery::discovery::{BitVec, Info};
use p2p_discovery::types::Ingress;
use p2p_tracker::directory::{Directory, TrackedPeers};
use p2p_tracker::record::Status;
use std::alloc::AllocError;
use std::marker::Model;
use std::time::Duration;

mod parts;
mod reservations;

/// A directory, and slots with the reservations that it granted and that were not released: they
/// are those of exactly the peers that are reserved or connected.
pub struct Server<C: PublicKey> {
    directory: Directory<C>,
    slots: Slots<C>,
}

impl<C: PublicKey> Model for Server<C> {
    ghost use Rattle.p2p_directory.specs.Held.{AreHeld};
    ghost use Rattle.p2p_directory.specs.Private.Slots.{held_in, AreSlots};
    ghost use Rattle.p2p_directory.specs.Private.Serving.{ServerView};

    ghost Value = { ServerView C C.Signature };

    ghost view = { λ s. record { directory = s.directory; slots = s.slots } };

    ghost invariant = { λ s. AreHeld C.cmp s.directory (held_in C.cmp s.slots)
        × AreSlots C.cmp s.slots };
}

impl<C: PublicKey> Server<C> {
    /// A server of this directory, with the reservations in the slots.
    pub fn new(directory: Directory<C>, slots: Slots<C>) -> Self
        requires held { AreHeld C.cmp directory (held_in C.cmp slots) }
        requires ordered { AreSlots C.cmp slots }
        ensures { result ≡ record { directory = directory; slots = slots } }
    {
        Server { directory, slots }
    }

    /// Serves one command by the server's directory, if there is a slot for the reservation that it
    /// may be granted.
    pub fn serve(&mut self, command: Command<C>) -> Reply<C>
        requires room { has_slot_for C.cmp self.old.slots command ≡ true }
        ensures served { IsServed C.cmp command result self.old self.new }
        ensures unchanged { was_made result ≡ false → self.new ≡ self.old }
        ensures slots { (q : C) →
            has_slot C.cmp self.new.slots q ≡ has_slot C.cmp self.old.slots q }
        ensures ordered { AreSlots C.cmp self.old.slots → AreSlots C.cmp self.new.slots }
    {
        match command {
            Command::Track { index, peers } => self.track(index, peers),
            Command::Dial { peer, now, draw } => replied(true, self.dial(&peer, now, draw)),
            Command::Listen { peer, now, draw } => replied(false, self.listen(&peer, now, draw)),
            Command::Connect { peer, dialer } => self.connect(&peer, dialer),
            Command::Release(peer) => self.release(&peer),
            Command::UpdatePeers(infos) => self.update_peers(infos),
            Command::Block { peer, now } => self.block(&peer, now),
            Command::UnblockExpired(now) => Reply::UnblockExpired(self.unblock_expired(now)),
            Command::ForgetCooled(now) => Reply::ForgetCooled(self.forget_cooled(now)),
            Command::NextUnblock => Reply::NextUnblock(self.next_unblock()),
            Command::BlockedPeers(now) => self.blocked_peers(now),
            Command::Status(peer) => Reply::Status(self.status(&peer)),
            Command::GetPeerSet(index) => self.get_peer_set(index),
            Command::LatestSetIndex => Reply::LatestSetIndex(self.latest_set_index()),
            Command::LatestUpdate => self.latest_update(),
            Command::All => self.all(),
            Command::Info(peer) => self.info(&peer),
            Command::Ingress(peer) => ingress_replied(self.ingress(&peer)),
            Command::Infos { bit_vec, now } => self.infos(&bit_vec, now),
            Command::GetRandomBitVec(place) => self.get_random_bit_vec(place),
            Command::Eligible { peer, now } => Reply::Eligible(self.eligible(&peer, now)),
            Command::Acceptable { peer, now } => Reply::Acceptable(self.acceptable(&peer, now)),
            Command::MayListen { peer, now } => Reply::MayListen(self.may_listen(&peer, now)),
            Command::Dialable(now) => self.dialable(now),
            Command::Tracked => Reply::Tracked(self.tracked()),
        }
    }

    /// Registers a peer set in the server's directory, and replies.
    pub fn track(&mut self, index: u64, peers: TrackedPeers<C>) -> Reply<C>
        ensures served { IsServed C.cmp (Command.Track index peers) result self.old self.new }
        ensures unchanged { was_made result ≡ false → self.new ≡ self.old }
        ensures slots { self.new.slots ≡ self.old.slots }
        ensures few { TearsDownFew self.old.directory result }
    {
        match self.directory.track(index, peers) {
            Ok(torn) => Reply::Track(torn),
            Err(AllocError) => Reply::OutOfMemory,
        }
    }

    /// Connects the peer in the server's directory if it is reserved, and replies.
    pub fn connect(&mut self, peer: &C, dialer: bool) -> Reply<C>
        ensures served { IsServed C.cmp (Command.Connect peer.now dialer)
            result self.old self.new }
        ensures unchanged { was_made result ≡ false → self.new ≡ self.old }
        ensures slots { self.new.slots ≡ self.old.slots }
    {
        if self.directory.try_connect(peer, dialer) {
            return Reply::Connect;
        }
        Reply::NotReserved
    }

    /// Releases the peer in the server's directory if the server holds its reservation, and
    /// replies.
    pub fn release(&mut self, peer: &C) -> Reply<C>
        ensures served { IsServed C.cmp (Command.Release peer.now) result self.old self.new }
        ensures unchanged { was_made result ≡ false → self.new ≡ self.old }
        ensures slots { (q : C) →
            has_slot C.cmp self.new.slots q ≡ has_slot C.cmp self.old.slots q }
        ensures ordered { AreSlots C.cmp self.new.slots }
    {
        match self.slots.take(peer) {
            Some(reservation) => {
                self.directory.release(reservation);
                Reply::Release
            }
            None => Reply::NotHeld,
        }
    }

    // Offers the infos to the records of their peers in the server's directory, and replies.
    fn update_peers(&mut self, infos: Vec<Info<C>>) -> Reply<C>
        ensures served { IsServed C.cmp (Command.UpdatePeers infos) result self.old self.new }
        ensures unchanged { was_made result ≡ false → self.new ≡ self.old }
        ensures slots { self.new.slots ≡ self.old.slots }
    {
        self.directory.update_peers(infos);
        Reply::UpdatePeers
    }

    /// Blocks the peer in the server's directory, and replies.
    pub fn block(&mut self, peer: &C, now: Duration) -> Reply<C>
        ensures served { IsServed C.cmp (Command.Block peer.now now) result self.old self.new }
        ensures unchanged { was_made result ≡ false → self.new ≡ self.old }
        ensures slots { self.new.slots ≡ self.old.slots }
    {
        match self.directory.block(peer, now) {
            Ok(taken) => Reply::Block(taken),
            Err(AllocError) => Reply::OutOfMemory,
        }
    }

    /// Ends the blocks in the server's directory that hold until this time, or until an earlier
    /// one, and returns whether there were any.
    pub fn unblock_expired(&mut self, now: Duration) -> bool
        ensures served { IsServed C.cmp (Command.UnblockExpired now) (Reply.UnblockExpired result)
            self.old self.new }
        ensures slots { self.new.slots ≡ self.old.slots }
    {
        self.directory.unblock_expired(now)
    }

    /// Forgets the cooldowns in the server's directory whose dial time is at or before this time,
    /// and returns how many.
    pub fn forget_cooled(&mut self, now: Duration) -> usize
        ensures served { IsServed C.cmp (Command.ForgetCooled now) (Reply.ForgetCooled result)
            self.old self.new }
        ensures slots { self.new.slots ≡ self.old.slots }
    {
        self.directory.forget_cooled(now)
    }

    /// Asks the server's directory when the first block ends.
    pub fn next_unblock(&self) -> Option<Duration>
        ensures { IsServed C.cmp Command.NextUnblock (Reply.NextUnblock result)
            self.now self.now }
    {
        self.directory.next_unblock()
    }

    // Asks the server's directory for the peers that are blocked at this time.
    fn blocked_peers(&self, now: Duration) -> Reply<C>
        ensures { IsServed C.cmp (Command.BlockedPeers now) result self.now self.now }
    {
        match self.directory.blocked_peers(now) {
            Ok(peers) => Reply::BlockedPeers(peers),
            Err(AllocError) => Reply::OutOfMemory,
        }
    }

    /// Asks the server's directory whether the peer is connected. It returns `None` if there is no
    /// record of the peer.
    pub fn status(&self, peer: &C) -> Option<Status>
        ensures { IsServed C.cmp (Command.Status peer.now) (Reply.Status result)
            self.now self.now }
    {
        self.directory.status(peer)
    }

    // Asks the server's directory for the peers of the retained set with this index.
    fn get_peer_set(&self, index: u64) -> Reply<C>
        ensures { IsServed C.cmp (Command.GetPeerSet index) result self.now self.now }
    {
        match self.directory.get_peer_set(index) {
            Ok(peers) => Reply::GetPeerSet(peers),
            Err(AllocError) => Reply::OutOfMemory,
        }
    }

    /// Asks the server's directory for the index of the latest set.
    pub fn latest_set_index(&self) -> Option<u64>
        ensures { IsServed C.cmp Command.LatestSetIndex (Reply.LatestSetIndex result)
            self.now self.now }
    {
        self.directory.latest_set_index()
    }

    // Asks the server's directory for the latest set, and all peers of the retained sets.
    fn latest_update(&self) -> Reply<C>
        ensures { IsServed C.cmp Command.LatestUpdate result self.now self.now }
    {
        match self.directory.latest_update() {
            Ok(update) => Reply::LatestUpdate(update),
            Err(AllocError) => Reply::OutOfMemory,
        }
    }

    // Asks the server's directory for all peers of the retained sets.
    fn all(&self) -> Reply<C>
        ensures { IsServed C.cmp Command.All result self.now self.now }
    {
        match self.directory.all() {
            Ok(peers) => Reply::All(peers),
            Err(AllocError) => Reply::OutOfMemory,
        }
    }

    // Asks the server's directory for the info of the peer that may be shared.
    fn info(&self, peer: &C) -> Reply<C>
        ensures { IsServed C.cmp (Command.Info peer.now) result self.now self.now }
    {
        match self.directory.info(peer) {
            Ok(info) => Reply::Info(info),
            Err(AllocError) => Reply::OutOfMemory,
        }
    }

    /// Asks the server's directory for the address that it holds of the peer.
    pub fn ingress(&self, peer: &C) -> Result<Option<Ingress>, AllocError>
        ensures { IsServed C.cmp (Command.Ingress peer.now) (ingress_reply result)
            self.now self.now }
    {
        self.directory.ingress(peer)
    }

    // Asks the server's directory for the infos for a peer that sent the bits.
    fn infos(&self, bit_vec: &BitVec, now: Duration) -> Reply<C>
        ensures { IsServed C.cmp (Command.Infos bit_vec.now now) result self.now self.now }
    {
        match self.slots.infos(&self.directory, bit_vec, now) {
            Ok(infos) => Reply::Infos(infos),
            Err(AllocError) => Reply::OutOfMemory,
        }
    }

    // Asks the server's directory for the bits of the retained set at the position.
    fn get_random_bit_vec(&self, place: usize) -> Reply<C>
        ensures { IsServed C.cmp (Command.GetRandomBitVec place) result self.now self.now }
    {
        match self.directory.get_random_bit_vec(place) {
            Ok(bits) => Reply::GetRandomBitVec(bits),
            Err(AllocError) => Reply::OutOfMemory,
        }
    }

    /// Asks the server's directory whether the peer may be connected.
    pub fn eligible(&self, peer: &C, now: Duration) -> bool
        ensures { IsServed C.cmp (Command.Eligible peer.now now) (Reply.Eligible result)
            self.now self.now }
    {
        self.directory.eligible(peer, now)
    }

    /// Asks the server's directory whether an inbound connection of the peer may be accepted.
    pub fn acceptable(&self, peer: &C, now: Duration) -> bool
        ensures { IsServed C.cmp (Command.Acceptable peer.now now) (Reply.Acceptable result)
            self.now self.now }
    {
        self.directory.acceptable(peer, now)
    }

    /// Asks the server's directory whether an inbound connection of the peer would be granted a
    /// reservation.
    pub fn may_listen(&self, peer: &C, now: Duration) -> bool
        ensures { IsServed C.cmp (Command.MayListen peer.now now) (Reply.MayListen result)
            self.now self.now }
    {
        self.directory.may_listen(peer, now)
    }

    // Asks the server's directory for the peers that may be dialled at this time, and when to ask
    // again.
    fn dialable(&self, now: Duration) -> Reply<C>
        ensures { IsServed C.cmp (Command.Dialable now) result self.now self.now }
    {
        match self.directory.dialable(now) {
            Ok(dialable) => Reply::Dialable(dialable),
            Err(AllocError) => Reply::OutOfMemory,
        }
    }

    /// Asks the server's directory how many peers have a record, not counting the local node.
    pub fn tracked(&self) -> usize
        ensures { IsServed C.cmp Command.Tracked (Reply.Tracked result) self.now self.now }
    {
        self.directory.tracked()
    }
}

// The server's reply to a question of an address.
fn ingress_replied<C: PublicKey>(found: Result<Option<Ingress>, AllocError>) -> Reply<C>
    ensures { result ≡ ingress_reply found }
{
    match found {
        Ok(ingress) => Reply::Ingress(ingress),
        Err(AllocError) => Reply::OutOfMemory,
    }
}
