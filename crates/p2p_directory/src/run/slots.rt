//! Slots for the reservations that may be granted. Those of a run are made before its first
//! command, that of a node's command before the command.

ghost use Rattle.std.specs.Prelude.{◌≡◌, ◌∷◌, [], false, true, not, ◌||◌, if◌then◌else◌};
ghost use Rattle.std.specs.Prelude.{IfSome, IfNone, IfOk, OnOk, OnErr, None, Some, Option};
ghost use Rattle.std.specs.Prelude.{option_map, slice_get, ◌<◌, ◌+◌, length};
ghost use Rattle.std.specs.BTreeMap.{is_at};
ghost use Rattle.std.specs.Duration.{as_nanos};
ghost use Rattle.std.specs.Option.{IsSomeAnd};
ghost use Rattle.p2p_tracker.specs.Directory.{IsBusy, infos_in};
ghost use Rattle.p2p_tracker.specs.Seen.{key_of};
ghost use Rattle.p2p_tracker.specs.declared.directory.Metadata.{Metadata};
ghost use Rattle.p2p_directory.specs.Held.{held_of};
ghost use Rattle.p2p_tracker.specs.Calls.{may_reserve};
ghost use Rattle.p2p_directory.specs.Run.{call_of};
ghost use Rattle.p2p_directory.specs.Private.Serving.{has_slot_for, reserved_peer};
ghost use Rattle.p2p_directory.specs.Nodes.{is_named};
ghost use Rattle.p2p_directory.specs.Private.Slots.{begins_full, has_slot, held_in, slot_of};
ghost use Rattle.p2p_directory.specs.Private.Slots.{AreSlots};

use crate::run::commands::Command;
use crate::run::held::Held;
use p2p_discovery::codec::PublicKey;
use p2p_discovery::discovery::{BitVec, Info};
use p2p_tracker::directory::{Directory, Metadata, Reservation};
use std::alloc::{AllocError, Global};
use std::collections::BTreeMap;
use std::collections::btree_map::Entry;
use std::marker::Model;
use std::time::Duration;

/// A slot for each of some peers, empty or with its reservation. A contract sees the peers and what
/// is in the slots, in ascending order. It must be consumed by [`Slots::into_held`],
/// [`Slots::close`] or [`Slots::destroy_empty`].
pub struct Slots<C: PublicKey> {
    reservations: BTreeMap<C, Option<Reservation<C>>>,
}

impl<C: PublicKey> Model for Slots<C> {
    ghost use Rattle.std.specs.Prelude.{List, Option};
    ghost use Rattle.p2p_tracker.specs.declared.directory.Metadata.{Metadata};

    ghost Value = { List (C × Option (Metadata C C.Signature)) };

    ghost use Rattle.p2p_directory.specs.Private.Slots.{AreSlots};

    ghost view = { λ s. s.reservations.entries };

    ghost invariant = { λ s. AreSlots C.cmp s.reservations.entries };
}

impl<C: PublicKey> Slots<C> {
    /// No slots yet: they are made and removed one by one.
    pub fn new(alloc: Global) -> Self
        ensures { result ≡ [] }
    {
        Slots {
            reservations: BTreeMap::new(alloc),
        }
    }

    /// Makes an empty slot for the peer if it has none.
    pub fn make(&mut self, peer: C) -> Result<(), AllocError>
        ensures err { OnErr result (self.new ≡ self.old) }
        ensures absent { OnErr result (has_slot C.cmp self.old peer ≡ false) }
        ensures slots { OnOk result ((q : C) →
            has_slot C.cmp self.new q ≡ (is_at (C.cmp peer) q || has_slot C.cmp self.old q)) }
        ensures held { (q : C) → held_in C.cmp self.new q ≡ held_in C.cmp self.old q }
        ensures ordered { AreSlots C.cmp self.new }
    {
        add_empty(&mut self.reservations, peer)
    }

    /// Makes an empty slot for the reservation that the command may be granted, if there is none.
    pub fn make_for(&mut self, command: &Command<C>) -> Result<(), AllocError>
        ensures err { OnErr result (self.new ≡ self.old) }
        ensures reserves { OnErr result (may_reserve (call_of command.now) ≡ true) }
        ensures absent { OnErr result (has_slot_for C.cmp self.old command.now ≡ false) }
        ensures room { OnOk result (has_slot_for C.cmp self.new command.now ≡ true) }
        ensures grown { OnOk result ((q : C) → has_slot C.cmp self.new q ≡
            (is_named C.cmp (reserved_peer command.now) q || has_slot C.cmp self.old q)) }
        ensures slots { OnOk result ((q : C) →
            has_slot C.cmp self.old q ≡ true → has_slot C.cmp self.new q ≡ true) }
        ensures held { (q : C) → held_in C.cmp self.new q ≡ held_in C.cmp self.old q }
        ensures ordered { AreSlots C.cmp self.old → AreSlots C.cmp self.new }
    {
        match command.reserved_peer() {
            Some(peer) => self.make(peer),
            None => Ok(()),
        }
    }

    /// Puts a reservation into the slot of its peer. It doesn't allocate.
    pub fn put(&mut self, reservation: Reservation<C>)
        requires slot { has_slot C.cmp self.old (key_of reservation) ≡ true }
        requires empty { held_in C.cmp self.old (key_of reservation) ≡ None }
        ensures slots { (q : C) → has_slot C.cmp self.new q ≡ has_slot C.cmp self.old q }
        ensures held { (q : C) → held_in C.cmp self.new q ≡ (if is_at (C.cmp (key_of reservation)) q
            then Some reservation
            else held_in C.cmp self.old q) }
        ensures ordered { AreSlots C.cmp self.new }
    {
        match self
            .reservations
            .get_mut(reservation.metadata().public_key())
        {
            Some(slot) => spend_empty(slot.replace(reservation)),
            None => unreachable!(),
        }
    }

    /// Removes the reservation of the peer from its slot, which stays, and returns it. It doesn't
    /// allocate.
    pub fn take(&mut self, peer: &C) -> Option<Reservation<C>>
        ensures taken { result ≡ held_in C.cmp self.old peer.now }
        ensures peer { IfSome result (λ metadata. key_of metadata ≡ peer.now) }
        ensures slots { (q : C) → has_slot C.cmp self.new q ≡ has_slot C.cmp self.old q }
        ensures held { (q : C) → held_in C.cmp self.new q
            ≡ (if is_at (C.cmp peer.now) q then None else held_in C.cmp self.old q) }
        ensures none { IfNone result (self.new ≡ self.old) }
        ensures ordered { AreSlots C.cmp self.new }
    {
        let Some(slot) = self.reservations.get_mut(peer) else {
            return None;
        };
        slot.take()
    }

    /// Removes the slot of the peer, and returns the reservation that is in it, if there is one. It
    /// doesn't allocate.
    ///
    /// # Cost
    ///
    /// One search among the slots.
    pub fn remove(&mut self, peer: &C) -> Option<Reservation<C>>
        ensures taken { result ≡ held_in C.cmp self.old peer.now }
        ensures peer { IfSome result (λ metadata. key_of metadata ≡ peer.now) }
        ensures gone { has_slot C.cmp self.new peer.now ≡ false }
        ensures others { (q : C) → is_at (C.cmp peer.now) q ≡ false →
            has_slot C.cmp self.new q ≡ has_slot C.cmp self.old q }
        ensures held { (q : C) → held_in C.cmp self.new q
            ≡ (if is_at (C.cmp peer.now) q then None else held_in C.cmp self.old q) }
        ensures ordered { AreSlots C.cmp self.new }
    {
        self.reservations.remove(peer).flatten()
    }

    /// Whom the reservation of the peer is for, if one is held. It doesn't allocate.
    pub fn held(&self, peer: &C) -> Option<&Metadata<C>>
        ensures { option_map (λ m. m.now) result ≡ held_in C.cmp self.now peer.now }
    {
        match self.reservations.get(peer) {
            Some(Some(reservation)) => Some(reservation.metadata()),
            Some(None) | None => None,
        }
    }

    /// The infos that [`Directory::infos`] returns, by a search for each peer that has a slot, if
    /// that is less work.
    pub fn infos(
        &self,
        directory: &Directory<C>,
        bit_vec: &BitVec,
        now: Duration,
    ) -> Result<Option<Vec<Info<C>>>, AllocError>
        requires { (q : C) → IsBusy C.cmp directory.now q → has_slot C.cmp self.now q ≡ true }
        ensures infos { IfOk result (λ infos. option_map (λ v. v.items) infos
            ≡ infos_in C.cmp directory.now bit_vec.now.index bit_vec.now.bits (as_nanos now)) }
        ensures err { OnErr result (IsSomeAnd
            (infos_in C.cmp directory.now bit_vec.now.index bit_vec.now.bits (as_nanos now))
            (λ infos. 0 < length infos)) }
    {
        directory.infos_among(bit_vec, now, &self.reservations)
    }

    /// Removes the slot of the peer if it is empty. It doesn't allocate.
    ///
    /// # Cost
    ///
    /// One search among the slots, and one more if it is removed.
    pub fn drop_empty(&mut self, peer: &C)
        ensures dropped { held_in C.cmp self.old peer.now ≡ None →
            has_slot C.cmp self.new peer.now ≡ false }
        ensures others { (q : C) → is_at (C.cmp peer.now) q ≡ false →
            has_slot C.cmp self.new q ≡ has_slot C.cmp self.old q }
        ensures held { (q : C) → held_in C.cmp self.new q ≡ held_in C.cmp self.old q }
        ensures ordered { AreSlots C.cmp self.old → AreSlots C.cmp self.new }
    {
        remove_empty(&mut self.reservations, peer);
    }

    /// The peer of the first slot, or `None` if there is no slot. It doesn't allocate.
    pub fn first(&self) -> Option<C>
        ensures some { IfSome result (λ peer. (slot : Option (Metadata C C.Signature))
            × (slice_get self.now 0 ≡ Some (peer, slot))) }
        ensures none { IfNone result (self.now ≡ []) }
    {
        match self.reservations.first_key_value() {
            Some((peer, _)) => Some(*peer),
            None => None,
        }
    }

    /// Whether there is a first slot, and it is empty. It doesn't allocate.
    pub fn begins_empty(&self) -> bool
        ensures { result ≡ not (begins_full self.now) }
    {
        match self.reservations.first_key_value() {
            Some((_, slot)) => slot.is_none(),
            None => false,
        }
    }

    /// Removes the first slot, and returns it with its contents. It doesn't allocate.
    pub fn pop_first(&mut self) -> Option<(C, Option<Reservation<C>>)>
        ensures first { IfSome result (λ slot. self.old ≡ slot ∷ self.new) }
        ensures none { IfNone result (self.old ≡ []) }
        ensures unchanged { IfNone result (self.new ≡ self.old) }
        ensures ordered { AreSlots C.cmp self.new }
    {
        self.reservations.pop_first()
    }

    /// Removes the last slot, and returns it with its contents. It doesn't allocate.
    ///
    /// # Cost
    ///
    /// Less than that of [`Slots::pop_first`], which moves the slots behind the first.
    pub fn pop_last(&mut self) -> Option<(C, Option<Reservation<C>>)>
        ensures found { IfSome result (λ slot. slot_of C.cmp self.old slot.0 ≡ Some slot.1) }
        ensures left { IfSome result (λ slot. (q : C) → held_in C.cmp self.new q
            ≡ (if is_at (C.cmp slot.0) q then None else held_in C.cmp self.old q)) }
        ensures fewer { IfSome result (λ _. length self.old ≡ length self.new + 1) }
        ensures none { IfNone result (self.old ≡ []) }
        ensures unchanged { IfNone result (self.new ≡ self.old) }
        ensures ordered { AreSlots C.cmp self.new }
    {
        self.reservations.pop_last()
    }

    /// Consumes the slots, if there is none.
    pub fn destroy_empty(self)
        requires { self ≡ [] }
    {
        let Slots { reservations } = self;
        reservations.destroy_empty();
    }

    /// The reservations that are held in the slots. It doesn't allocate.
    pub fn into_held(self) -> Held<C>
        requires { AreSlots C.cmp self }
        ensures { (q : C) → held_of C.cmp result q ≡ held_in C.cmp self q }
    {
        Held::new(self)
    }

    /// Consumes the slots, if no reservation is in them.
    pub fn close(self)
        requires ordered { AreSlots C.cmp self }
        requires empty { (q : C) → held_in C.cmp self q ≡ None }
    {
        self.into_held().close();
    }
}

// Adds an empty slot of the peer if it has none.
fn add_empty<C: PublicKey>(
    slots: &mut BTreeMap<C, Option<Reservation<C>>>,
    peer: C,
) -> Result<(), AllocError>
    requires { AreSlots C.cmp slots.old.entries }
    ensures slots { AreSlots C.cmp slots.new.entries }
    ensures err { OnErr result (slots.new.entries ≡ slots.old.entries) }
    ensures absent { OnErr result (has_slot C.cmp slots.old.entries peer ≡ false) }
    ensures made { OnOk result ((q : C) → has_slot C.cmp slots.new.entries q ≡
        (is_at (C.cmp peer) q || has_slot C.cmp slots.old.entries q)) }
    ensures held { (q : C) →
        held_in C.cmp slots.new.entries q ≡ held_in C.cmp slots.old.entries q }
{
    match slots.entry(peer) {
        Ok(Entry::Vacant(entry)) => {
            entry.insert(None);
            Ok(())
        }
        Ok(Entry::Occupied(_entry)) => Ok(()),
        Err(_refused) => Err(AllocError),
    }
}

// Removes the slot of the peer if it is empty.
fn remove_empty<C: PublicKey>(slots: &mut BTreeMap<C, Option<Reservation<C>>>, peer: &C)
    requires { AreSlots C.cmp slots.old.entries }
    ensures slots { AreSlots C.cmp slots.new.entries }
    ensures held { (q : C) →
        held_in C.cmp slots.new.entries q ≡ held_in C.cmp slots.old.entries q }
    ensures dropped { held_in C.cmp slots.old.entries peer.now ≡ None →
        has_slot C.cmp slots.new.entries peer.now ≡ false }
    ensures others { (q : C) → is_at (C.cmp peer.now) q ≡ false →
        has_slot C.cmp slots.new.entries q ≡ has_slot C.cmp slots.old.entries q }
{
    if let Some(None) = slots.get(peer) {
        if let Some(slot) = slots.remove(peer) {
            spend_empty(slot);
        }
    }
}

// Consumes the contents of an empty slot, which need no release.
pub(super) fn spend_empty<C: PublicKey>(slot: Option<Reservation<C>>)
    requires { slot ≡ None }
{
    match slot {
        None => {}
        Some(_reservation) => unreachable!(),
    }
}
