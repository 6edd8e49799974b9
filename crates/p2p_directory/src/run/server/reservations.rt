//! One command with a slot that is made for it, and removed if it is empty after it.

ghost use Rattle.std.specs.Prelude.{◌≡◌, true, false, is_some, Ok, OnOk, OnErr, Some, ◌||◌};
ghost use Rattle.p2p_tracker.specs.Calls.{may_reserve};
ghost use Rattle.p2p_directory.specs.Run.{call_of, was_made};
ghost use Rattle.p2p_directory.specs.Private.Serving.{has_slot_for, reserved_peer, reserving};
ghost use Rattle.p2p_directory.specs.Private.Serving.{reserved_reply, IsServed, IsSteppedAlone};
ghost use Rattle.p2p_directory.specs.Nodes.{is_named, named_peer};
ghost use Rattle.p2p_directory.specs.Private.Slots.{has_slot, held_in};
ghost use Rattle.p2p_directory.specs.Private.Slots.{AreSlots, KeepsSlots};

use crate::run::commands::{Command, Reply};
use crate::run::server::Server;
use p2p_discovery::codec::PublicKey;
use std::alloc::AllocError;
use std::time::Duration;

impl<C: PublicKey> Server<C> {
    /// Makes a slot in the server for the reservation that the command may be granted, if there is
    /// none.
    pub fn make_room(&mut self, command: &Command<C>) -> Result<(), AllocError>
        ensures err { OnErr result (self.new ≡ self.old) }
        ensures reserves { OnErr result (may_reserve (call_of command.now) ≡ true) }
        ensures absent { OnErr result (has_slot_for C.cmp self.old.slots command.now ≡ false) }
        ensures room { OnOk result (has_slot_for C.cmp self.new.slots command.now ≡ true) }
        ensures grown { OnOk result ((q : C) → has_slot C.cmp self.new.slots q ≡
            (is_named C.cmp (reserved_peer command.now) q || has_slot C.cmp self.old.slots q)) }
        ensures slots { OnOk result ((q : C) →
            has_slot C.cmp self.old.slots q ≡ true → has_slot C.cmp self.new.slots q ≡ true) }
        ensures directory { self.new.directory ≡ self.old.directory }
        ensures held { (q : C) →
            held_in C.cmp self.new.slots q ≡ held_in C.cmp self.old.slots q }
        ensures ordered { AreSlots C.cmp self.new.slots }
    {
        self.slots.make_for(command)
    }

    /// Serves one command by the server's directory, with a slot made for the reservation that it
    /// may be granted, which stays only if something is held in it.
    pub fn step(&mut self, command: Command<C>) -> Reply<C>
        ensures stepped { IsSteppedAlone C.cmp command result self.old self.new }
        ensures directory { was_made result ≡ false → self.new.directory ≡ self.old.directory }
        ensures held { was_made result ≡ false → (q : C) →
            held_in C.cmp self.new.slots q ≡ held_in C.cmp self.old.slots q }
        ensures room { KeepsSlots C.cmp (named_peer command) self.old.slots self.new.slots }
        ensures ordered { AreSlots C.cmp self.new.slots }
    {
        // For the proof: the slots are in order.
        let _slots = &self.slots;
        match command {
            Command::Dial { peer, now, draw } => self.reserve_slot(true, &peer, now, draw),
            Command::Listen { peer, now, draw } => self.reserve_slot(false, &peer, now, draw),
            Command::Release(peer) => self.release_slot(&peer),
            command => self.serve(command),
        }
    }

    /// Reserves the peer in the server's directory if that is granted, with a slot made for the
    /// reservation: for a dial if `dialer`, else inbound.
    pub fn reserve_slot(
        &mut self,
        dialer: bool,
        peer: &C,
        now: Duration,
        draw: Duration,
    ) -> Reply<C>
        ensures stepped { IsSteppedAlone C.cmp (reserving dialer peer.now now draw)
            result self.old self.new }
        ensures directory { was_made result ≡ false → self.new.directory ≡ self.old.directory }
        ensures held { was_made result ≡ false → (q : C) →
            held_in C.cmp self.new.slots q ≡ held_in C.cmp self.old.slots q }
        ensures room { KeepsSlots C.cmp (Some peer.now) self.old.slots self.new.slots }
        ensures ordered { AreSlots C.cmp self.new.slots }
    {
        if let Err(AllocError) = self.slots.make(*peer) {
            return Reply::OutOfMemory;
        }
        let reserved = self.reserve(dialer, peer, now, draw);
        if is_granted(&reserved) {
            return replied(dialer, reserved);
        }
        self.slots.drop_empty(peer);
        replied(dialer, reserved)
    }

    // Reserves the peer in the server's directory if that is granted, in its slot: for a dial if
    // `dialer`, else inbound. Returns whether it was.
    fn reserve(
        &mut self,
        dialer: bool,
        peer: &C,
        now: Duration,
        draw: Duration,
    ) -> Result<bool, AllocError>
        requires room { has_slot C.cmp self.old.slots peer.now ≡ true }
        ensures served { IsServed C.cmp (reserving dialer peer.now now draw)
            (reserved_reply dialer result) self.old self.new }
        ensures unchanged { OnErr result (self.new ≡ self.old) }
        ensures slots { (q : C) →
            has_slot C.cmp self.new.slots q ≡ has_slot C.cmp self.old.slots q }
        ensures granted { result ≡ Ok true →
            is_some (held_in C.cmp self.new.slots peer.now) ≡ true }
        ensures ordered { AreSlots C.cmp self.new.slots }
    {
        if dialer {
            self.dial(peer, now, draw)
        } else {
            self.listen(peer, now, draw)
        }
    }

    /// Reserves the peer in the server's directory for a dial if that is granted, in its slot.
    /// Returns whether it was.
    pub fn dial(&mut self, peer: &C, now: Duration, draw: Duration) -> Result<bool, AllocError>
        requires room { has_slot C.cmp self.old.slots peer.now ≡ true }
        ensures served { IsServed C.cmp (Command.Dial peer.now now draw)
            (reserved_reply true result) self.old self.new }
        ensures unchanged { OnErr result (self.new ≡ self.old) }
        ensures slots { (q : C) →
            has_slot C.cmp self.new.slots q ≡ has_slot C.cmp self.old.slots q }
        ensures granted { result ≡ Ok true →
            is_some (held_in C.cmp self.new.slots peer.now) ≡ true }
        ensures ordered { AreSlots C.cmp self.new.slots }
    {
        match self.directory.dial(peer, now, draw) {
            Ok(Some(reservation)) => {
                self.slots.put(reservation);
                Ok(true)
            }
            Ok(None) => Ok(false),
            Err(refused) => Err(refused),
        }
    }

    /// Reserves the inbound peer in the server's directory if that is granted, in its slot.
    /// Returns whether it was.
    pub fn listen(&mut self, peer: &C, now: Duration, draw: Duration) -> Result<bool, AllocError>
        requires room { has_slot C.cmp self.old.slots peer.now ≡ true }
        ensures served { IsServed C.cmp (Command.Listen peer.now now draw)
            (reserved_reply false result) self.old self.new }
        ensures unchanged { OnErr result (self.new ≡ self.old) }
        ensures slots { (q : C) →
            has_slot C.cmp self.new.slots q ≡ has_slot C.cmp self.old.slots q }
        ensures granted { result ≡ Ok true →
            is_some (held_in C.cmp self.new.slots peer.now) ≡ true }
        ensures ordered { AreSlots C.cmp self.new.slots }
    {
        match self.directory.listen(peer, now, draw) {
            Ok(Some(reservation)) => {
                self.slots.put(reservation);
                Ok(true)
            }
            Ok(None) => Ok(false),
            Err(refused) => Err(refused),
        }
    }

    /// Releases the server's reservation of the peer if one is held, and removes its slot.
    pub fn release_slot(&mut self, peer: &C) -> Reply<C>
        ensures served { IsServed C.cmp (Command.Release peer.now) result self.old self.new }
        ensures directory { was_made result ≡ false → self.new.directory ≡ self.old.directory }
        ensures held { was_made result ≡ false → (q : C) →
            held_in C.cmp self.new.slots q ≡ held_in C.cmp self.old.slots q }
        ensures room { KeepsSlots C.cmp (Some peer.now) self.old.slots self.new.slots }
        ensures ordered { AreSlots C.cmp self.new.slots }
    {
        match self.slots.remove(peer) {
            Some(reservation) => {
                self.directory.release(reservation);
                Reply::Release
            }
            None => Reply::NotHeld,
        }
    }
}

// Whether the server's directory granted a reservation.
fn is_granted(reserved: &Result<bool, AllocError>) -> bool
    ensures { result ≡ true → reserved.now ≡ Ok true }
{
    match reserved {
        Ok(granted) => *granted,
        Err(_) => false,
    }
}

/// The server's reply to a dial if `dialer`, else to a listen, by whether it is granted.
pub fn replied<C: PublicKey>(dialer: bool, reserved: Result<bool, AllocError>) -> Reply<C>
    ensures { result ≡ reserved_reply dialer reserved }
{
    match reserved {
        Ok(granted) if dialer => Reply::Dial(granted),
        Ok(granted) => Reply::Listen(granted),
        Err(AllocError) => Reply::OutOfMemory,
    }
}
