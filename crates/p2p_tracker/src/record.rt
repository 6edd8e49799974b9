//! What is known of one peer.

ghost use Rattle.std.specs.Prelude.{◌≡◌, false, not, true, IfOk, IfSome, IsOk, None};
ghost use Rattle.std.specs.Option.{option_copied, option_map};
ghost use Rattle.std.specs.Duration.{as_nanos};
ghost use Rattle.p2p_discovery.specs.Ingress.{takes_none};
ghost use Rattle.p2p_tracker.specs.Status.{is_inert, is_reserved};
ghost use Rattle.p2p_tracker.specs.Cooldowns.{cooldown_view};
ghost use Rattle.p2p_tracker.specs.Record.{new_record, fresh, reserve_answer, record_after_asking};
ghost use Rattle.p2p_tracker.specs.Record.{is_eligible, is_deletable, needs_teardown};
ghost use Rattle.p2p_tracker.specs.Record.{is_outbound_target, after_failure, after_success};
ghost use Rattle.p2p_tracker.specs.Record.{is_myself, takes_info, address_after_update, wants_info};
ghost use Rattle.p2p_tracker.specs.Record.{sharable_by, ingress_of, dial_view, dial_status};
ghost use Rattle.p2p_tracker.specs.Record.{is_acceptable, may_come};

mod counts;
mod dialing;
mod moments;

pub use crate::record::dialing::{DialStatus, Dialable, ReserveResult};
pub(crate) use crate::record::moments::next_moments;
use p2p_discovery::codec::PublicKey;
use p2p_discovery::discovery::Info;
use p2p_discovery::types::Ingress;
use std::alloc::{AllocError, Global};
use std::marker::Model;
use std::time::Duration;

/// What is known of a peer's address.
#[derive(Drop)]
pub enum Address<C: PublicKey> {
    /// Nothing is known yet.
    Unknown,
    /// The peer is the local node.
    Myself(Info<C>),
    /// The address was passed in when the directory was made.
    Bootstrapper(Ingress),
    /// The peer's own info, and how many dials at its ingress have failed since.
    Discovered(Info<C>, usize),
}

/// Whether a peer is connected.
#[derive(Clone, Copy, Debug, PartialEq, Eq)]
pub enum Status {
    /// Neither reserved nor connected.
    Inert,
    /// Reserved for a connection that is about to be made.
    Reserved,
    /// Connected.
    Active,
}

/// The role of a peer in a set.
#[derive(Clone, Copy, Debug, PartialEq, Eq)]
pub(crate) enum Role {
    Primary,
    Secondary,
}

/// What is known of one peer: its address, its connection, in how many retained sets it is, and
/// when it may be reserved and dialled again.
#[derive(Drop)]
pub struct Record<C: PublicKey> {
    // What most calls read is together, for fields are laid out in this order.
    status: Status,
    persistent: bool,
    primary_sets: usize,
    secondary_sets: usize,
    next_reservable_at: Duration,
    next_dial_at: Duration,
    address: Address<C>,
}

impl<C: PublicKey> Model for Record<C> {
    ghost use Rattle.std.specs.Duration.{as_nanos};
    ghost use Rattle.p2p_tracker.specs.Seen.{RecordView};

    ghost Value = { RecordView C C.Signature };

    ghost view = { λ r. record {
      address = r.address;
      status = r.status;
      primary_sets = r.primary_sets;
      secondary_sets = r.secondary_sets;
      persistent = r.persistent;
      next_reservable_at = as_nanos r.next_reservable_at;
      next_dial_at = as_nanos r.next_dial_at;
    } };
}

impl<C: PublicKey> Record<C> {
    /// The record of a peer of which nothing is known: in no set, not persistent, inert, and
    /// reservable and dialable from the epoch on.
    pub fn unknown() -> Self
        ensures { result ≡ new_record Address.Unknown false }
    {
        Record::new(Address::Unknown, false)
    }

    /// The persistent record of the local node.
    pub fn myself(info: Info<C>) -> Self
        ensures { result ≡ new_record (Address.Myself info) true }
    {
        Record::new(Address::Myself(info), true)
    }

    /// The persistent record of a peer whose address is known from the start.
    pub fn bootstrapper(ingress: Ingress) -> Self
        ensures { result ≡ new_record (Address.Bootstrapper ingress) true }
    {
        Record::new(Address::Bootstrapper(ingress), true)
    }

    fn new(address: Address<C>, persistent: bool) -> Self
        ensures { result ≡ new_record address persistent }
    {
        Record {
            address,
            status: Status::Inert,
            primary_sets: 0,
            secondary_sets: 0,
            persistent,
            next_reservable_at: Duration::ZERO,
            next_dial_at: Duration::ZERO,
        }
    }

    // The record of a peer of which nothing is known but this cooldown, if there is one.
    pub(crate) fn cooled(cooldown: Option<(Duration, Duration)>) -> Self
        ensures { result ≡ fresh (option_map cooldown_view cooldown) }
    {
        let mut record = Record::unknown();
        if let Some((reservable, dial)) = cooldown {
            record.set_cooldown(reservable, dial);
        }
        record
    }

    /// Updates the peer's info in its record, and returns whether it was accepted. For the local
    /// node it never is. If no info is known, it always is; otherwise it is if its timestamp is
    /// above that of the known one. An accepted info has no failures yet. Keys are not compared,
    /// and nothing else changes.
    pub fn update(&mut self, info: Info<C>) -> bool
        ensures taken { result ≡ takes_info info self.old.address }
        ensures after { self.new ≡
            record self.old { address = address_after_update info self.old.address } }
    {
        let taken = match &self.address {
            Address::Myself(_) => false,
            Address::Unknown | Address::Bootstrapper(_) => true,
            Address::Discovered(known, _) => known.timestamp < info.timestamp,
        };
        if taken {
            self.address = Address::Discovered(info, 0);
        }
        taken
    }

    /// Requests a reservation of the record's peer at the time `now`.
    ///
    /// Returns `Unavailable` for the local node or a peer that is not inert, else `RateLimited` if
    /// `now` is before the reservable time, else `Reserved`. In the last case the peer is reserved.
    /// It is reservable again at `now + interval`, and may be dialled from that time plus the
    /// jitter on. The jitter is `draw`, capped at twice half the interval, with the half rounded
    /// down to nanoseconds. Both sums are capped at `Duration::MAX`. Nothing changes unless the
    /// result is `Reserved`.
    pub fn reserve(&mut self, now: Duration, draw: Duration, interval: Duration) -> ReserveResult
        ensures answer { result ≡ reserve_answer (as_nanos now) self.old }
        ensures after { self.new ≡
            record_after_asking result (as_nanos now) (as_nanos draw) (as_nanos interval) self.old }
    {
        let answer = self.reserve_result(now);
        if answer == ReserveResult::Reserved {
            self.set_reserved(next_moments(now, draw, interval));
        }
        answer
    }

    // The result of a request for a reservation of the record's peer at the time `now`.
    pub(crate) fn reserve_result(&self, now: Duration) -> ReserveResult
        ensures { result ≡ reserve_answer (as_nanos now) self.now }
    {
        if let Address::Myself(_) = &self.address {
            return ReserveResult::Unavailable;
        }
        if self.status != Status::Inert {
            return ReserveResult::Unavailable;
        }
        if now.as_nanos() < self.next_reservable_at.as_nanos() {
            return ReserveResult::RateLimited;
        }
        ReserveResult::Reserved
    }

    // Reserves the record's peer: it is reservable and dialable again from these times on.
    pub(crate) fn set_reserved(&mut self, moments: (Duration, Duration))
        ensures { self.new ≡ record self.old {
          status = Status.Reserved;
          next_reservable_at = as_nanos moments.0;
          next_dial_at = as_nanos moments.1;
        } }
    {
        let (reservable, dial) = moments;
        self.status = Status::Reserved;
        self.set_cooldown(reservable, dial);
    }

    /// Connects the record's peer: it is active.
    ///
    /// # Conditions
    ///
    /// It was reserved.
    pub fn connect(&mut self)
        requires { is_reserved self.old.status ≡ true }
        ensures { self.new ≡ record self.old { status = Status.Active } }
    {
        self.status = Status::Active;
    }

    /// Ends the reservation or the connection of the record's peer: the peer is inert.
    ///
    /// # Conditions
    ///
    /// It was not inert.
    pub fn release(&mut self)
        requires { is_inert self.old.status ≡ false }
        ensures { self.new ≡ record self.old { status = Status.Inert } }
    {
        self.status = Status::Inert;
    }

    /// Counts one more failed dial in the record, capped at `usize::MAX`, if the peer's own info is
    /// known with this ingress. Nothing else changes.
    pub fn dial_failure(&mut self, ingress: &Ingress)
        ensures { self.new ≡
            record self.old { address = after_failure ingress.now self.old.address } }
    {
        if let Address::Discovered(info, fails) = &mut self.address {
            if info.ingress == *ingress {
                *fails = fails.saturating_add(1);
            }
        }
    }

    /// Resets the record's count of failed dials if the peer's own info is known. Nothing else
    /// changes.
    pub fn dial_success(&mut self)
        ensures { self.new ≡ record self.old { address = after_success self.old.address } }
    {
        if let Address::Discovered(_, fails) = &mut self.address {
            *fails = 0;
        }
    }

    /// Whether the info of the record's peer is wanted: for the local node never; if none is known,
    /// always; otherwise if the peer is not connected and at least `limit` dials failed.
    pub fn want(&self, limit: usize) -> bool
        ensures { result ≡ wants_info limit self.now }
    {
        match &self.address {
            Address::Myself(_) => false,
            Address::Unknown | Address::Bootstrapper(_) => true,
            Address::Discovered(_, fails) => self.status != Status::Active && *fails >= limit,
        }
    }

    /// The info of the record that may be shared: that of the local node always, another peer's
    /// while it is connected. It allocates only for an info whose ingress is a name.
    ///
    /// # Errors
    ///
    /// `AllocError` if an allocation fails.
    pub fn sharable(&self) -> Result<Option<Info<C>>, AllocError>
        ensures info { IfOk result (λ info. info ≡ sharable_by self.now.status self.now.address) }
        ensures none { sharable_by self.now.status self.now.address ≡ None → IsOk result }
        ensures socket { IfSome (sharable_by self.now.status self.now.address)
            (λ info. takes_none info.ingress ≡ true → IsOk result) }
    {
        match self.sharable_info() {
            Some(info) => Ok(Some(info.clone()?)),
            None => Ok(None),
        }
    }

    // A reference to the info of the record that may be shared.
    pub(crate) fn sharable_info(&self) -> Option<&Info<C>>
        ensures { option_copied result ≡ sharable_by self.now.status self.now.address }
    {
        match &self.address {
            Address::Myself(info) => Some(info),
            Address::Discovered(info, _) if self.status == Status::Active => Some(info),
            _ => None,
        }
    }

    /// When the record's peer may be dialled, asked at the time `now`.
    ///
    /// `Unavailable` unless the peer is inert and an outbound target, is a bootstrapper or has a
    /// known info, and its ingress is valid under the two flags. Otherwise `After` its dial time if
    /// that is later than `now`, else `Now`. Times are durations since the epoch.
    pub fn dialable(&self, now: Duration, allow_private_ips: bool, allow_dns: bool) -> DialStatus
        ensures { dial_view result ≡
            dial_status (as_nanos now) allow_private_ips allow_dns self.now }
    {
        if self.status != Status::Inert || !self.is_outbound_target() {
            return DialStatus::Unavailable;
        }
        let ingress = match &self.address {
            Address::Unknown | Address::Myself(_) => return DialStatus::Unavailable,
            Address::Bootstrapper(ingress) => ingress,
            Address::Discovered(info, _) => &info.ingress,
        };
        if !ingress.is_valid(allow_private_ips, allow_dns) {
            return DialStatus::Unavailable;
        }
        if now.as_nanos() < self.next_dial_at.as_nanos() {
            DialStatus::After(self.next_dial_at)
        } else {
            DialStatus::Now
        }
    }

    /// Whether the record's peer may be connected: it is not the local node, and in a set or
    /// persistent.
    pub fn eligible(&self) -> bool
        ensures { result ≡ is_eligible self.now }
    {
        match &self.address {
            Address::Myself(_) => false,
            _ => self.primary_sets > 0 || self.secondary_sets > 0 || self.persistent,
        }
    }

    /// Whether an inbound connection of the record's peer may be accepted: it is eligible and
    /// inert.
    pub fn acceptable(&self) -> bool
        ensures { result ≡ is_acceptable self.now }
    {
        self.eligible() && self.status == Status::Inert
    }

    // Whether an inbound connection of the record's peer is granted a reservation at the time
    // `now`: it is eligible and inert, and its reservable time has come.
    pub(crate) fn may_come(&self, now: Duration) -> bool
        ensures { result ≡ may_come (as_nanos now) self.now }
    {
        self.eligible() && self.reserve_result(now) == ReserveResult::Reserved
    }

    /// Whether the record's peer must be disconnected: it is not inert and not eligible.
    pub fn needs_teardown(&self) -> bool
        ensures { result ≡ needs_teardown self.now }
    {
        self.status != Status::Inert && !self.eligible()
    }

    /// Whether the record may be removed: the peer is in no set, not persistent and inert.
    pub fn deletable(&self) -> bool
        ensures { result ≡ is_deletable self.now }
    {
        self.primary_sets == 0
            && self.secondary_sets == 0
            && !self.persistent
            && self.status == Status::Inert
    }

    /// Whether the record's peer is to be dialled: it is in a primary set or persistent.
    pub fn is_outbound_target(&self) -> bool
        ensures { result ≡ is_outbound_target self.now }
    {
        self.primary_sets > 0 || self.persistent
    }

    /// Whether the record's peer may be blocked: it is not the local node.
    pub fn is_blockable(&self) -> bool
        ensures { result ≡ not (is_myself self.now.address) }
    {
        !matches!(&self.address, Address::Myself(_))
    }

    /// The ingress at which the record's peer is reached, if it is known.
    pub fn ingress(&self) -> Option<&Ingress>
        ensures { option_copied result ≡ ingress_of self.now.address }
    {
        match &self.address {
            Address::Unknown => None,
            Address::Myself(info) => Some(&info.ingress),
            Address::Bootstrapper(ingress) => Some(ingress),
            Address::Discovered(info, _) => Some(&info.ingress),
        }
    }

    /// Whether the record's peer is connected.
    pub fn status(&self) -> Status
        ensures { result ≡ self.now.status }
    {
        self.status
    }

    /// From when the record's peer may be reserved again, and from when it may be dialled again:
    /// durations since the epoch.
    pub fn cooldown(&self) -> (Duration, Duration)
        ensures reservable { as_nanos result.0 ≡ self.now.next_reservable_at }
        ensures dial { as_nanos result.1 ≡ self.now.next_dial_at }
    {
        (self.next_reservable_at, self.next_dial_at)
    }

    /// Sets from when the record's peer may be reserved again, and from when it may be dialled
    /// again: durations since the epoch. Nothing else changes.
    pub fn set_cooldown(&mut self, reservable: Duration, dial: Duration)
        ensures { self.new ≡ record self.old {
          next_reservable_at = as_nanos reservable;
          next_dial_at = as_nanos dial;
        } }
    {
        self.next_reservable_at = reservable;
        self.next_dial_at = dial;
    }

    /// What the record knows of the peer's address.
    pub fn address(&self) -> &Address<C>
        ensures { result.now ≡ self.now.address }
    {
        &self.address
    }
}
