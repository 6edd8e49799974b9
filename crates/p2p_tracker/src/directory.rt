//! The directory of peers: the retained sets, and a record of each peer that is in one of them,
//! persistent, reserved or connected.

ghost use Rattle.std.specs.Prelude.{◌≡◌, ◌<◌, ◌^◌, ◌-◌, [], false, Some, None};
ghost use Rattle.std.specs.Prelude.{IfSome, IfNone, IfOk, OnErr, is_some, length};
ghost use Rattle.std.specs.List.Sorted.{IsStrictlySortedBy};
ghost use Rattle.std.specs.Option.{option_map};
ghost use Rattle.std.specs.Map.{keys_of};
ghost use Rattle.std.specs.Duration.{as_nanos};
ghost use Rattle.std.specs.Int.NonZero.{non_zero_usize_get};
ghost use Rattle.p2p_tracker.specs.PeerSets.{set_of, latest_index, is_above};
ghost use Rattle.p2p_tracker.specs.Seen.{record_at};

use crate::directory::records::Records;
use crate::directory::track::{add, drop_oldest};
use crate::directory::update::update_each;
use crate::kept::blocks::Blocks;
use crate::kept::cooldowns::Cooldowns;
use crate::kept::peer_set::PeerSet;
use crate::kept::window::Window;
use crate::record::Status;
use p2p_discovery::codec::PublicKey;
use p2p_discovery::discovery::Info;
use p2p_discovery::sets::OrderedSet;
use p2p_discovery::types::Ingress;
use std::alloc::{AllocError, Global};
use std::marker::Model;
use std::num::NonZeroUsize;
use std::time::Duration;

mod agreement;
pub(crate) mod blocked;
mod connections;
mod cooled;
mod eligibility;
mod full_bits;
mod infos;
mod peer_sets;
pub(crate) mod records;
mod track;
mod update;

/// How a directory behaves.
#[derive(Clone, Copy, Debug)]
pub struct Config {
    /// Whether addresses that are not global may be dialled.
    pub allow_private_ips: bool,
    /// Whether names may be dialled.
    pub allow_dns: bool,
    /// How many peer sets are retained.
    pub max_sets: NonZeroUsize,
    /// After how many failed dials a peer's info is requested again.
    pub dial_fail_limit: usize,
    /// The minimum time between two reservations of one peer.
    pub peer_connection_cooldown: Duration,
    /// How long a block lasts.
    pub block_duration: Duration,
}

/// The peers of one set, by role.
#[derive(Debug, Drop)]
pub struct TrackedPeers<C: PublicKey> {
    /// The primary peers.
    pub primary: OrderedSet<C>,
    /// The secondary peers.
    pub secondary: OrderedSet<C>,
}

impl<C: PublicKey> TrackedPeers<C> {
    /// The peers of both roles, as a directory takes and returns them.
    pub fn new(primary: OrderedSet<C>, secondary: OrderedSet<C>) -> Self
        ensures { result ≡ record { primary = primary; secondary = secondary } }
    {
        TrackedPeers { primary, secondary }
    }
}

/// The latest set with its index and peers, and the peers of all retained sets.
#[derive(Debug, Drop)]
pub struct PeerSetUpdate<C: PublicKey> {
    /// The index of the latest set.
    pub index: u64,
    /// The peers of the latest set.
    pub latest: TrackedPeers<C>,
    /// The peers of all retained sets: one that is primary in some is primary only.
    pub all: TrackedPeers<C>,
}

/// Whom a reservation is for, and who dials.
#[derive(Drop)]
pub enum Metadata<P: PublicKey> {
    /// The peer is dialled at this address.
    Dialer(P, Ingress),
    /// The peer is inbound.
    Listener(P),
}

impl<P: PublicKey> Metadata<P> {
    ghost use Rattle.p2p_tracker.specs.Seen.{key_of};

    /// The key of the peer that the directory's reservation is for.
    pub fn public_key(&self) -> &P
        ensures { result.now ≡ key_of self.now }
    {
        match self {
            Metadata::Dialer(key, _) => key,
            Metadata::Listener(key) => key,
        }
    }
}

/// Permission to connect to a peer. Only the directory makes one, and [`Directory::release`] must
/// take it back.
pub struct Reservation<P: PublicKey> {
    metadata: Metadata<P>,
}

impl<P: PublicKey> Model for Reservation<P> {
    ghost use Rattle.p2p_tracker.specs.declared.directory.Metadata.{Metadata};

    ghost Value = { Metadata P P.Signature };

    ghost view = { λ r. r.metadata };
}

impl<P: PublicKey> Reservation<P> {
    /// Whom the directory's reservation is for, and who dials.
    pub fn metadata(&self) -> &Metadata<P>
        ensures { result.now ≡ self.now }
    {
        &self.metadata
    }
}

/// The directory of peers. A contract sees its configuration and its retained sets, the oldest
/// first. For each key it sees the record, if there is one, until when the peer is blocked, if it
/// is, and its cooldown. The cooldown has the times from which the peer may be reserved and dialled
/// again after its last grant. There is none if no grant was made or it is forgotten.
#[derive(Drop)]
pub struct Directory<C: PublicKey> {
    alloc: Global,
    config: Config,
    // The key of the local node.
    own: C,
    sets: Window<C>,
    records: Records<C>,
    blocks: Blocks<C>,
    cooldowns: Cooldowns<C>,
}

impl<C: PublicKey> Model for Directory<C> {
    ghost use Rattle.std.specs.Int.NonZero.{non_zero_usize_get};
    ghost use Rattle.p2p_tracker.specs.Seen.{DirectoryView, config_view, record_at};
    ghost use Rattle.p2p_tracker.specs.Private.Window.{plain_sets};
    ghost use Rattle.p2p_tracker.specs.Cooldowns.{cooldown_in};
    ghost use Rattle.p2p_tracker.specs.Private.Counts.{IsDirectoryInvariant};

    ghost Value = { DirectoryView C C.Signature };

    ghost view = { λ d. record {
      config = config_view d.config;
      sets = plain_sets d.sets;
      records = d.records;
      blocks = d.blocks;
      cooldowns = d.cooldowns;
    } };

    ghost invariant = { λ d. IsDirectoryInvariant C.cmp (non_zero_usize_get d.config.max_sets)
        d.config.dial_fail_limit d.own d.sets (record_at C.cmp d.records)
        (cooldown_in C.cmp d.cooldowns) };
}

impl<C: PublicKey> Directory<C> {
    ghost use Rattle.p2p_tracker.specs.Directory.{first_record, IsBusy, IsReserved, StayBusy};
    ghost use Rattle.p2p_tracker.specs.Directory.{StayReserved, Reserves, Updates, TakesSet};
    ghost use Rattle.p2p_tracker.specs.Directory.{AreTornDown, other_keys, may_listen_in};
    ghost use Rattle.p2p_tracker.specs.Directory.{may_dial_in, ingress_in};
    ghost use Rattle.p2p_tracker.specs.Private.Dialling.{reservation_in};
    ghost use Rattle.p2p_tracker.specs.Seen.{config_view, key_of, record_of};

    /// A directory that retains no set and blocks nobody. It has a record of the local node and one
    /// of each bootstrapper. If a key occurs twice among the bootstrappers, the later one counts;
    /// the local node's record replaces one with its key.
    ///
    /// # Conditions
    ///
    /// `cfg.max_sets` is below `usize::MAX`.
    ///
    /// # Errors
    ///
    /// `AllocError` if an allocation fails.
    ///
    /// # Cost
    ///
    /// One search among the records for each bootstrapper, and one for the local node.
    pub fn init(
        alloc: Global,
        bootstrappers: Vec<(C, Ingress)>,
        myself: Info<C>,
        cfg: Config,
    ) -> Result<Self, AllocError>
        requires { non_zero_usize_get cfg.max_sets < 2 ^ 64 - 1 }
        ensures config { IfOk result (λ d. d.config ≡ config_view cfg) }
        ensures sets { IfOk result (λ d. d.sets ≡ []) }
        ensures blocks { IfOk result (λ d. d.blocks ≡ []) }
        ensures cooldowns { IfOk result (λ d. d.cooldowns ≡ []) }
        ensures records { IfOk result (λ d. (q : C) →
            record_of C.cmp d q ≡ first_record C.cmp bootstrappers.items myself q) }
    {
        let own = myself.public_key;
        let records = Records::first(alloc, bootstrappers, myself)?;
        Ok(Directory {
            alloc,
            config: cfg,
            own,
            sets: Window::new(alloc),
            records,
            blocks: Blocks::new(alloc),
            cooldowns: Cooldowns::new(alloc),
        })
    }

    /// Registers a peer set in the directory if its index is above that of each set registered
    /// before. It is counted for its peers; then the oldest retained set is dropped if there is one
    /// too many. A peer in both roles is primary only.
    ///
    /// If the index isn't above, it returns `None`, doesn't allocate and changes nothing. Otherwise
    /// it returns the peers that must be disconnected: those that are reserved or connected, were
    /// eligible and no longer are. Whoever is reserved or connected stays so.
    ///
    /// # Errors
    ///
    /// `AllocError` if an allocation fails; then nothing has changed.
    ///
    /// # Examples
    ///
    /// `track_set`, which the test `a_set_is_tracked_and_its_peers_are_met` of `p2p_tracker_tests`
    /// runs.
    ///
    /// # Cost
    ///
    /// Constant if the index isn't above. Otherwise:
    ///
    /// - one search of the new set's primary peers for each of its secondary ones;
    /// - one search among the records for each peer of the new set, and one among the cooldowns for
    ///   each that has no record yet;
    /// - two walks along the positions of the primary peers of all retained sets, and one more if a
    ///   set is dropped;
    /// - for each role of a set that is dropped: two walks along the records, or, if these are more
    ///   than about five times as many as its peers, one search for each peer and one more for each
    ///   record that is removed;
    /// - one sort of the result.
    pub fn track(
        &mut self,
        index: u64,
        peers: TrackedPeers<C>,
    ) -> Result<Option<OrderedSet<C>>, AllocError>
        ensures err { OnErr result (self.new ≡ self.old) }
        ensures untaken { is_above index (latest_index self.old.sets) ≡ false → result ≡ Ok None }
        ensures answer { IfOk result (λ torn. is_some torn ≡
            is_above index (latest_index self.old.sets)) }
        ensures refused { IfOk result (λ torn. IfNone torn (self.new ≡ self.old)) }
        ensures taken { IfOk result (λ torn. IfSome torn (λ _.
            TakesSet C.cmp self.old self.new (set_of C.cmp index peers.primary peers.secondary))) }
        ensures torn { IfOk result (λ torn. IfSome torn (AreTornDown C.cmp self.old self.new)) }
        ensures busy { StayBusy C.cmp self.old self.new }
        ensures reserved { StayReserved C.cmp self.old self.new }
    {
        if !self.sets.is_next(index) {
            return Ok(None);
        }
        let alloc = self.alloc;
        let max_sets = self.config.max_sets.get();
        let limit = self.config.dial_fail_limit;
        let set = PeerSet::new(alloc, index, peers.primary, peers.secondary)?;
        let torn = Vec::with_capacity(alloc, self.sets.leaving_count(max_sets)?)?;
        let cooldowns = &self.cooldowns;
        add(&mut self.sets, &mut self.records, cooldowns, set, limit)?;
        Ok(Some(drop_oldest(&mut self.sets, &mut self.records, max_sets, torn)))
    }

    /// Reserves the peer in the directory for a dial at the time `now`, a duration since the epoch,
    /// at its known address.
    ///
    /// Returns `None`, doesn't allocate and changes nothing if the peer is blocked or has no
    /// record, its dial status is [`Unavailable`](crate::record::DialStatus::Unavailable), or `now`
    /// is before its reservable time. The dial time isn't considered. Otherwise the peer is
    /// reserved, and its reservable and dial times are set as by
    /// [`Record::reserve`](crate::record::Record::reserve), with `draw`, a random duration, for the
    /// jitter. They are kept until [`Directory::forget_cooled`] forgets them, even if the record is
    /// removed. The reservation has the address to dial. Whoever is reserved or connected stays so.
    ///
    /// # Errors
    ///
    /// `AllocError` if the allocation for that address or for the times fails; then nothing has
    /// changed.
    ///
    /// # Examples
    ///
    /// `dial`, which the test `a_set_is_tracked_and_its_peers_are_met` of `p2p_tracker_tests` runs.
    ///
    /// # Cost
    ///
    /// One search among the blocks; if the peer isn't blocked, one among the records; and if it is
    /// reserved, one among the cooldowns.
    #[tactic(auto, unfolding(crate::specs::Private::Dialling::granted_of))]
    pub fn dial(
        &mut self,
        peer: &C,
        now: Duration,
        draw: Duration,
    ) -> Result<Option<Reservation<C>>, AllocError>
        ensures err { OnErr result (self.new ≡ self.old) }
        ensures none { may_dial_in C.cmp self.old (as_nanos now) peer.now ≡ false →
            result ≡ Ok None }
        ensures answer { IfOk result (λ reservation. is_some reservation ≡
            may_dial_in C.cmp self.old (as_nanos now) peer.now) }
        ensures refused { IfOk result (λ reservation. IfNone reservation (self.new ≡ self.old)) }
        ensures reservation { IfOk result (λ reservation. IfSome reservation (λ metadata.
            option_map (Metadata.Dialer peer.now) (ingress_in C.cmp self.old peer.now)
            ≡ Some metadata)) }
        ensures granted { IfOk result (λ reservation. IfSome reservation (λ _.
            Reserves C.cmp self.old self.new peer.now (as_nanos now) (as_nanos draw))) }
        ensures is_busy { IfOk result (λ reservation. IfSome reservation (λ metadata.
            IsBusy C.cmp self.new (key_of metadata))) }
        ensures is_reserved { IfOk result (λ reservation. IfSome reservation (λ metadata.
            IsReserved C.cmp self.new (key_of metadata))) }
        ensures busy { StayBusy C.cmp self.old self.new }
        ensures reserved { StayReserved C.cmp self.old self.new }
    {
        self.reserve(peer, now, draw, true)
    }

    /// Reserves an inbound peer in the directory at the time `now`, a duration since the epoch.
    ///
    /// Returns `None`, doesn't allocate and changes nothing if the peer is blocked or has no
    /// record, it is not eligible, not inert, or `now` is before its reservable time. Otherwise the
    /// peer is reserved, and its reservable and dial times are set as by
    /// [`Record::reserve`](crate::record::Record::reserve), with `draw`, a random duration, for the
    /// jitter. They are kept until [`Directory::forget_cooled`] forgets them, even if the record is
    /// removed. Whoever is reserved or connected stays so.
    ///
    /// # Errors
    ///
    /// `AllocError` if the allocation for the times fails; then nothing has changed.
    ///
    /// # Examples
    ///
    /// `accept`, which the test `a_set_is_tracked_and_its_peers_are_met` of `p2p_tracker_tests`
    /// runs.
    ///
    /// # Cost
    ///
    /// One search among the blocks; if the peer isn't blocked, one among the records; and if it is
    /// reserved, one among the cooldowns.
    #[tactic(auto, unfolding(crate::specs::Private::Dialling::granted_of))]
    pub fn listen(
        &mut self,
        peer: &C,
        now: Duration,
        draw: Duration,
    ) -> Result<Option<Reservation<C>>, AllocError>
        ensures err { OnErr result (self.new ≡ self.old) }
        ensures none { may_listen_in C.cmp self.old (as_nanos now) peer.now ≡ false →
            result ≡ Ok None }
        ensures answer { IfOk result (λ reservation. is_some reservation ≡
            may_listen_in C.cmp self.old (as_nanos now) peer.now) }
        ensures refused { IfOk result (λ reservation. IfNone reservation (self.new ≡ self.old)) }
        ensures reservation { IfOk result (λ reservation. IfSome reservation (λ metadata.
            metadata ≡ Metadata.Listener peer.now)) }
        ensures granted { IfOk result (λ reservation. IfSome reservation (λ _.
            Reserves C.cmp self.old self.new peer.now (as_nanos now) (as_nanos draw))) }
        ensures is_busy { IfOk result (λ reservation. IfSome reservation (λ metadata.
            IsBusy C.cmp self.new (key_of metadata))) }
        ensures is_reserved { IfOk result (λ reservation. IfSome reservation (λ metadata.
            IsReserved C.cmp self.new (key_of metadata))) }
        ensures busy { StayBusy C.cmp self.old self.new }
        ensures reserved { StayReserved C.cmp self.old self.new }
    {
        self.reserve(peer, now, draw, false)
    }

    // Reserves the peer in the directory at the time `now` if that may be granted: for a dial if
    // `dialer`, else inbound. It is compiled once for either.
    #[inline(always)]
    fn reserve(
        &mut self,
        peer: &C,
        now: Duration,
        draw: Duration,
        dialer: bool,
    ) -> Result<Option<Reservation<C>>, AllocError>
        ensures err { OnErr result (self.new ≡ self.old) }
        ensures none { IfNone (reservation_in C.cmp dialer self.old (as_nanos now) peer.now)
            (result ≡ Ok None) }
        ensures answer { IfOk result (λ reservation.
            reservation ≡ reservation_in C.cmp dialer self.old (as_nanos now) peer.now) }
        ensures refused { IfOk result (λ reservation. IfNone reservation (self.new ≡ self.old)) }
        ensures granted { IfOk result (λ reservation. IfSome reservation (λ _.
            Reserves C.cmp self.old self.new peer.now (as_nanos now) (as_nanos draw))) }
    {
        if self.is_blocked(peer, now) {
            return Ok(None);
        }
        let cfg = &self.config;
        let Some(metadata) = self
            .records
            .reserve(&mut self.cooldowns, peer, now, draw, dialer, cfg)?
        else {
            return Ok(None);
        };
        Ok(Some(Reservation { metadata }))
    }

    /// Offers infos to the directory for its records of their peers. Of the known info of a peer
    /// and those in the list, the record keeps the first with the greatest timestamp. A new one has
    /// no failures yet. The local node's info stays, and an info of a peer that has no record is
    /// dropped. Whoever is reserved or connected stays so. It doesn't allocate.
    ///
    /// # Cost
    ///
    /// For each info one search among the records. If the peer's info becomes wanted or is no
    /// longer wanted, one among the positions. Then, for each retained set that has the peer as
    /// primary, the search of that set by its index, and one bit.
    pub fn update_peers(&mut self, infos: Vec<Info<C>>)
        ensures updated { Updates C.cmp self.old self.new infos.items }
        ensures busy { StayBusy C.cmp self.old self.new }
        ensures reserved { StayReserved C.cmp self.old self.new }
    {
        let limit = self.config.dial_fail_limit;
        update_each(&mut self.sets, &mut self.records, infos, limit);
    }

    /// How many peers have a record in the directory, not counting the local node. It doesn't
    /// allocate.
    ///
    /// # Cost
    ///
    /// Constant.
    pub fn tracked(&self) -> usize
        ensures count { result ≡ length (other_keys self.now.records) }
        ensures sorted { IsStrictlySortedBy C.cmp (keys_of self.now.records) }
    {
        self.records.len() - 1
    }

    /// The status of the peer in the directory, or `None` if there is no record of it. It doesn't
    /// allocate.
    ///
    /// # Cost
    ///
    /// One search among the records.
    pub fn status(&self, peer: &C) -> Option<Status>
        ensures { result ≡ option_map (λ r. r.status) (record_of C.cmp self.now peer.now) }
    {
        match self.records.get(peer) {
            Some(found) => Some(found.status()),
            None => None,
        }
    }

    /// The allocator of the directory's collections, for what is built from its results.
    pub fn allocator(&self) -> Global {
        self.alloc
    }
}
