//! The reservations that a run leaves.

ghost use Rattle.std.specs.Prelude.{◌≡◌, ◌+◌, [], true, None, IfNone, IfSome};
ghost use Rattle.std.specs.Prelude.{length, map, is_some, slice_get, if◌then◌else◌};
ghost use Rattle.std.specs.Option.{option_map};
ghost use Rattle.std.specs.BTreeMap.{is_at};
ghost use Rattle.std.specs.List.Sorted.{IsStrictlySortedBy};
ghost use Rattle.p2p_tracker.specs.Seen.{key_of};
ghost use Rattle.p2p_directory.specs.Held.{held_of, all_but, AreHeld, ReleasesAll};
ghost use Rattle.p2p_directory.specs.Private.Slots.{contents, held_in, AreSlots, BeginFull};

use crate::run::slots::{Slots, spend_empty};
use p2p_discovery::codec::PublicKey;
use p2p_tracker::directory::{Directory, Reservation};
use std::marker::Model;

/// The open reservations, in ascending order of their peers. A contract sees the list of what they
/// are for. It must be consumed by [`Held::release_all`] or [`Held::close`].
pub struct Held<C: PublicKey> {
    // The empty slots are of peers without a reservation. The first is not empty.
    slots: Slots<C>,
}

impl<C: PublicKey> Model for Held<C> {
    ghost use Rattle.std.specs.Prelude.{List};
    ghost use Rattle.p2p_tracker.specs.declared.directory.Metadata.{Metadata};

    ghost Value = { List (Metadata C C.Signature) };

    ghost use Rattle.p2p_directory.specs.Private.Slots.{contents, BeginFull};

    ghost view = { λ h. contents h.slots };

    ghost invariant = { λ h. BeginFull C.cmp h.slots };
}

impl<C: PublicKey> Held<C> {
    // The held reservations: those in these slots.
    pub(crate) fn new(mut slots: Slots<C>) -> Self
        requires { AreSlots C.cmp slots }
        ensures { (q : C) → held_of C.cmp result q ≡ held_in C.cmp slots q }
    {
        drop_empty_first(&mut slots);
        Held { slots }
    }

    /// The least of the peers whose reservations are held, or `None` if none is held. It doesn't
    /// allocate.
    ///
    /// # Cost
    ///
    /// At most logarithmic in the number of reservations.
    pub fn first(&self) -> Option<C>
        ensures least { result ≡ option_map key_of (slice_get self.now 0) }
        ensures ascending { IsStrictlySortedBy C.cmp (map key_of self.now) }
        ensures held { IfSome result (λ peer. is_some (held_of C.cmp self.now peer) ≡ true) }
        ensures none { IfNone result (self.now ≡ []) }
    {
        self.slots.first()
    }

    /// Removes the reservation of the peer from those that are held, and returns it; all others
    /// stay. Returns `None`, and changes nothing, if none of that peer is held. It doesn't
    /// allocate.
    ///
    /// # Cost
    ///
    /// Logarithmic in the number of reservations, and after a run in the number of peers of its
    /// `Dial` and `Listen` commands. For each of these without a reservation one step more, once in
    /// all.
    pub fn take(&mut self, peer: &C) -> Option<Reservation<C>>
        ensures taken { result ≡ held_of C.cmp self.old peer.now }
        ensures peer { IfSome result (λ metadata. key_of metadata ≡ peer.now) }
        ensures rest { self.new ≡ all_but C.cmp peer.now self.old }
        ensures left { (q : C) → held_of C.cmp self.new q
            ≡ (if is_at (C.cmp peer.now) q then None else held_of C.cmp self.old q) }
        ensures length { IfSome result (λ _. length self.old ≡ length self.new + 1) }
        ensures absent { IfNone result (self.new ≡ self.old) }
    {
        let taken = self.slots.remove(peer);
        drop_empty_first(&mut self.slots);
        taken
    }

    /// Releases all reservations that are held, in the directory that granted them. It doesn't
    /// allocate.
    ///
    /// # Conditions
    ///
    /// A reservation is held of exactly the peers that are reserved or connected in the directory,
    /// as it is after a run and for the parts of a node.
    ///
    /// # Cost
    ///
    /// One pass over the reservations, with a [`Directory::release`] of each, and after a run over
    /// the other peers of its `Dial` and `Listen` commands.
    pub fn release_all(self, directory: &mut Directory<C>)
        requires { AreHeld C.cmp directory.old (held_of C.cmp self) }
        ensures { ReleasesAll C.cmp self directory.old directory.new }
    {
        let Held { mut slots } = self;
        while let Some((_, slot)) = slots.pop_last() {
            match slot {
                Some(reservation) => directory.release(reservation),
                None => {}
            }
        }
        slots.destroy_empty();
    }

    /// Consumes the held reservations, of which none is left. It doesn't allocate. Release the
    /// reservations before, by [`Held::release_all`].
    ///
    /// # Conditions
    ///
    /// No reservation is held.
    pub fn close(self)
        requires { self ≡ [] }
    {
        let Held { slots } = self;
        slots.destroy_empty();
    }
}

// Removes the first slots of held reservations, as long as they are empty.
fn drop_empty_first<C: PublicKey>(slots: &mut Slots<C>)
    requires { AreSlots C.cmp slots.old }
    ensures full { BeginFull C.cmp slots.new }
    ensures same { contents slots.new ≡ contents slots.old }
{
    while slots.begins_empty() {
        if let Some((_, slot)) = slots.pop_first() {
            spend_empty(slot);
        }
    }
}
