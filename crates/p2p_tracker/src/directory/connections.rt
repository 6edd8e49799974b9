//! What becomes of a reservation: a connection, and its end.

ghost use Rattle.std.specs.Prelude.{◌≡◌, true, false};
ghost use Rattle.std.specs.BTreeMap.{is_at};
ghost use Rattle.p2p_tracker.specs.Status.{is_reserved};

use crate::directory::{Directory, Reservation};
use p2p_discovery::codec::PublicKey;

impl<C: PublicKey> Directory<C> {
    ghost use Rattle.p2p_tracker.specs.Seen.{key_of, record_of};
    ghost use Rattle.p2p_tracker.specs.Directory.{IsBusy, IsReserved, StayBusy, has_status};
    ghost use Rattle.p2p_tracker.specs.Directory.{Releases, Connects};

    /// Releases a reservation in the directory or the connection that was made of it: its peer is
    /// inert. If it was for a dial, this counts one failure at the address that was dialled. If the
    /// record is deletable then, it is removed; the cooldown stays. Every other peer that is
    /// reserved or connected stays so. It doesn't allocate.
    ///
    /// # Conditions
    ///
    /// The peer has a record that is not inert, as it has in the directory that granted the
    /// reservation.
    ///
    /// # Cost
    ///
    /// One search among the records, and one more if the record is removed. If the peer's info
    /// becomes wanted or is no longer wanted, one search among the positions. Then, for each
    /// retained set that has the peer as primary, the search of that set by its index, and one bit.
    pub fn release(&mut self, reservation: Reservation<C>)
        requires { IsBusy C.cmp self.old (key_of reservation) }
        ensures released { Releases C.cmp self.old self.new reservation }
        ensures others { (q : C) → is_at (C.cmp (key_of reservation)) q ≡ false →
            IsBusy C.cmp self.old q → IsBusy C.cmp self.new q }
        ensures reserved { (q : C) → is_at (C.cmp (key_of reservation)) q ≡ false →
            IsReserved C.cmp self.old q → IsReserved C.cmp self.new q }
    {
        let Reservation { metadata } = reservation;
        let limit = self.config.dial_fail_limit;
        let known = self.records.release(&metadata, limit);
        self.sets.renew(metadata.public_key(), known);
    }

    /// Connects a peer that is reserved in the directory by making its reservation a connection: it
    /// is active. If the local node dialled it, its failure count is reset. Every other peer that
    /// is reserved or connected stays so. It doesn't allocate.
    ///
    /// # Conditions
    ///
    /// The peer is reserved.
    ///
    /// # Cost
    ///
    /// That of [`Directory::try_connect`].
    pub fn connect(&mut self, peer: &C, dialer: bool)
        requires { IsReserved C.cmp self.old peer.now }
        ensures connected { Connects C.cmp self.old self.new peer.now dialer }
        ensures busy { StayBusy C.cmp self.old self.new }
        ensures reserved { (q : C) → is_at (C.cmp peer.now) q ≡ false →
            IsReserved C.cmp self.old q → IsReserved C.cmp self.new q }
    {
        let _connected = self.try_connect(peer, dialer);
    }

    /// Connects the peer as [`Directory::connect`] does, by making its reservation a connection, if
    /// it is reserved, and returns whether it was. If it wasn't, nothing changes. It doesn't
    /// allocate.
    ///
    /// # Cost
    ///
    /// One search among the records. If the peer's info becomes wanted or is no longer wanted, one
    /// among the positions. Then, for each retained set that has the peer as primary, the search of
    /// that set by its index, and one bit.
    pub fn try_connect(&mut self, peer: &C, dialer: bool) -> bool
        ensures answer { result ≡ has_status is_reserved (record_of C.cmp self.old peer.now) }
        ensures refused { result ≡ false → self.new ≡ self.old }
        ensures connected { result ≡ true → Connects C.cmp self.old self.new peer.now dialer }
        ensures busy { StayBusy C.cmp self.old self.new }
        ensures reserved { (q : C) → is_at (C.cmp peer.now) q ≡ false →
            IsReserved C.cmp self.old q → IsReserved C.cmp self.new q }
    {
        let limit = self.config.dial_fail_limit;
        let Some(known) = self.records.connect(peer, dialer, limit) else {
            return false;
        };
        self.sets.renew(peer, known);
        true
    }
}
