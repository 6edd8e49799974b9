//! What a directory knows of each peer, by key.

ghost use Rattle.std.specs.Prelude.{◌≡◌, ◌∷◌, [], false, true, IfOk, IfSome, IfNone, Some, None};
ghost use Rattle.std.specs.Prelude.{OnErr, OnOk, if◌then◌else◌, length};
ghost use Rattle.std.specs.Option.{option_map, option_map_or, option_copied};
ghost use Rattle.std.specs.Map.{keys_of};
ghost use Rattle.std.specs.List.Sorted.{IsStrictlySortedBy};
ghost use Rattle.std.specs.Duration.{as_nanos};
ghost use Rattle.std.specs.BTreeMap.{get, is_at};
ghost use Rattle.p2p_tracker.specs.Status.{is_inert, is_reserved};
ghost use Rattle.p2p_tracker.specs.Record.{reserved_record, with_cooldown};
ghost use Rattle.p2p_tracker.specs.Moments.{moments_after};
ghost use Rattle.p2p_tracker.specs.Cooldowns.{cooldown_in};
ghost use Rattle.p2p_tracker.specs.Private.Counts.{IsGranted};
ghost use Rattle.p2p_tracker.specs.Private.Dialling.{granted_of, granted_in};
ghost use Rattle.p2p_tracker.specs.Directory.{has_status, is_busy, is_known, first_record};
ghost use Rattle.p2p_tracker.specs.Directory.{released_record, kept_after_release};
ghost use Rattle.p2p_tracker.specs.Directory.{connected_record, updated_record, ChangesAt};
ghost use Rattle.p2p_tracker.specs.Seen.{config_view, key_of, record_at};

use crate::directory::{Config, Metadata};
use crate::kept::cooldowns::Cooldowns;
use crate::kept::maps::{drop_value, put};
use crate::kept::window::BitChange;
use crate::record::{DialStatus, Record, ReserveResult, Status, next_moments};
use p2p_discovery::codec::PublicKey;
use p2p_discovery::discovery::Info;
use p2p_discovery::types::Ingress;
use std::alloc::{AllocError, Global};
use std::collections::{BTreeMap, btree_map};
use std::marker::Model;
use std::time::Duration;

pub mod counts;
pub(crate) mod listing;
mod walks;

/// The records of peers. A contract sees the list of keys with their records, in ascending order.
#[derive(Drop)]
pub struct Records<C: PublicKey> {
    map: BTreeMap<C, Record<C>>,
}

impl<C: PublicKey> Model for Records<C> {
    ghost use Rattle.std.specs.Prelude.{List};
    ghost use Rattle.p2p_tracker.specs.Seen.{RecordView};

    ghost Value = { List (C × RecordView C C.Signature) };

    ghost view = { λ r. r.map.entries };
}

impl<C: PublicKey> Records<C> {
    /// The records that a directory starts with.
    pub fn first(
        alloc: Global,
        bootstrappers: Vec<(C, Ingress)>,
        myself: Info<C>,
    ) -> Result<Self, AllocError>
        ensures { IfOk result (λ records. (q : C) →
            record_at C.cmp records q ≡ first_record C.cmp bootstrappers.items myself q) }
    {
        let mut map = BTreeMap::new(alloc);
        for (peer, ingress) in bootstrappers {
            put(&mut map, peer, Record::bootstrapper(ingress))?;
        }
        put(&mut map, myself.public_key, Record::myself(myself))?;
        Ok(Records { map })
    }

    /// The record of the peer among the directory's records.
    pub fn get(&self, peer: &C) -> Option<&Record<C>>
        ensures { option_copied result ≡ record_at C.cmp self.now peer.now }
    {
        self.map.get(peer)
    }

    /// Reserves the peer among the directory's records at the time `now` if that may be granted,
    /// and stores the times of its cooldown: for a dial if `dialer`, else inbound. One search
    /// serves both. Returns whom the reservation is for; if it isn't granted, nothing has changed.
    #[inline(always)]
    pub fn reserve(
        &mut self,
        cooldowns: &mut Cooldowns<C>,
        peer: &C,
        now: Duration,
        draw: Duration,
        dialer: bool,
        cfg: &Config,
    ) -> Result<Option<Metadata<C>>, AllocError>
        ensures err { OnErr result ((self.new ≡ self.old) × (cooldowns.new ≡ cooldowns.old)) }
        ensures none { IfNone (granted_in C.cmp dialer (config_view cfg.now) self.old (as_nanos now)
            peer.now) (result ≡ Ok None) }
        ensures answer { IfOk result (λ metadata. metadata
            ≡ granted_in C.cmp dialer (config_view cfg.now) self.old (as_nanos now) peer.now) }
        ensures refused { IfOk result (λ metadata. IfNone metadata
            ((self.new ≡ self.old) × (cooldowns.new ≡ cooldowns.old))) }
        ensures granted { IfOk result (λ metadata. IfSome metadata (λ _.
            IsGranted C.cmp self.old self.new cooldowns.old cooldowns.new peer.now
            (as_nanos now) (as_nanos draw) (as_nanos cfg.now.peer_connection_cooldown))) }
    {
        let Some(found) = self.map.get_mut(peer) else {
            return Ok(None);
        };
        let Some(metadata) = granted_to(found, peer, now, dialer, cfg)? else {
            return Ok(None);
        };
        let cooldown = cfg.peer_connection_cooldown;
        keep_reserved(found, cooldowns, peer, now, draw, cooldown)?;
        Ok(Some(metadata))
    }

    /// Lets the peer be reserved and dialled from the epoch on, by its record among the directory's
    /// records.
    pub fn forget_cooldown(&mut self, peer: &C)
        ensures { ChangesAt C.cmp self.old self.new peer.now (option_map (with_cooldown None)) }
    {
        if let Some(found) = self.map.get_mut(peer) {
            found.set_cooldown(Duration::ZERO, Duration::ZERO);
        }
    }

    /// Ends the reservation of its peer among the directory's records, and removes the record if it
    /// is deletable then. Returns whether the peer's info is known and not wanted, before and
    /// after.
    pub fn release(&mut self, metadata: &Metadata<C>, limit: usize) -> BitChange
        requires { is_busy (record_at C.cmp self.old (key_of metadata.now)) ≡ true }
        ensures change { ChangesAt C.cmp self.old self.new (key_of metadata.now)
            (kept_after_release metadata.now) }
        ensures before { result.before ≡
            is_known limit (record_at C.cmp self.old (key_of metadata.now)) }
        ensures after { result.after ≡
            is_known limit (record_at C.cmp self.new (key_of metadata.now)) }
    {
        let peer = *metadata.public_key();
        let mut known = BitChange {
            before: false,
            after: false,
        };
        if let Some(found) = self.map.get_mut(&peer) {
            known.before = !found.want(limit);
            release_record(found, metadata);
            if found.deletable() {
                drop_value(self.map.remove(&peer));
            } else {
                known.after = !found.want(limit);
            }
        }
        known
    }

    /// Marks the peer as connected among the directory's records if it is reserved, and returns
    /// whether its info is known and not wanted, before and after. Returns `None`, and changes
    /// nothing, if it isn't reserved.
    pub fn connect(&mut self, peer: &C, dialer: bool, limit: usize) -> Option<BitChange>
        ensures none { IfNone result (self.new ≡ self.old) }
        ensures unreserved { IfNone result
            (has_status is_reserved (record_at C.cmp self.old peer.now) ≡ false) }
        ensures reserved { IfSome result (λ _.
            has_status is_reserved (record_at C.cmp self.old peer.now) ≡ true) }
        ensures change { IfSome result (λ _. ChangesAt C.cmp self.old self.new peer.now
            (option_map (connected_record dialer))) }
        ensures before { IfSome result (λ known.
            known.before ≡ is_known limit (record_at C.cmp self.old peer.now)) }
        ensures after { IfSome result (λ known.
            known.after ≡ is_known limit (record_at C.cmp self.new peer.now)) }
    {
        let found = self.map.get_mut(peer)?;
        if found.status() != Status::Reserved {
            return None;
        }
        let before = !found.want(limit);
        connect_record(found, dialer);
        Some(BitChange {
            before,
            after: !found.want(limit),
        })
    }

    /// Offers an info to the record of its peer among the directory's records. If it is accepted,
    /// returns whether the peer's info is known and not wanted, before and after; if not, nothing
    /// has changed.
    pub fn update(&mut self, info: Info<C>, limit: usize) -> Option<BitChange>
        ensures change { ChangesAt C.cmp self.old self.new info.public_key
            (option_map (updated_record (info ∷ []))) }
        ensures before { IfSome result (λ known.
            known.before ≡ is_known limit (record_at C.cmp self.old info.public_key)) }
        ensures after { IfSome result (λ known.
            known.after ≡ is_known limit (record_at C.cmp self.new info.public_key)) }
        ensures none { IfNone result ((q : C) →
            record_at C.cmp self.new q ≡ record_at C.cmp self.old q) }
    {
        let peer = info.public_key;
        if let Some(found) = self.map.get_mut(&peer) {
            let before = !found.want(limit);
            if found.update(info) {
                return Some(BitChange {
                    before,
                    after: !found.want(limit),
                });
            }
        }
        None
    }

    /// The directory's records in ascending order of their keys. It doesn't allocate.
    pub fn iter(&self) -> btree_map::Iter<'_, C, Record<C>>
        ensures all { result ≡ self.now }
        ensures sorted { IsStrictlySortedBy C.cmp (keys_of self.now) }
    {
        self.map.iter()
    }

    /// How many records the directory has.
    pub fn len(&self) -> usize
        ensures count { result ≡ length self.now }
        ensures sorted { IsStrictlySortedBy C.cmp (keys_of self.now) }
    {
        self.map.len()
    }
}

// Reserves the peer of one of the directory's records at the time `now`, and stores its times. It
// allocates for these before the record changes.
fn keep_reserved<C: PublicKey>(
    found: &mut Record<C>,
    cooldowns: &mut Cooldowns<C>,
    peer: &C,
    now: Duration,
    draw: Duration,
    cooldown: Duration,
) -> Result<(), AllocError>
    ensures err { OnErr result ((found.new ≡ found.old) × (cooldowns.new ≡ cooldowns.old)) }
    ensures record { OnOk result (found.new ≡
        reserved_record (as_nanos now) (as_nanos draw) (as_nanos cooldown) found.old) }
    ensures cooldowns { OnOk result ((q : C) → cooldown_in C.cmp cooldowns.new q ≡
        (if is_at (C.cmp peer.now) q
        then Some (moments_after (as_nanos now) (as_nanos draw) (as_nanos cooldown))
        else cooldown_in C.cmp cooldowns.old q)) }
{
    let moments = next_moments(now, draw, cooldown);
    cooldowns.put(*peer, moments)?;
    found.set_reserved(moments);
    Ok(())
}

// Connects the peer of one of the directory's records; `dialer` says whether the local node dialled
// it.
fn connect_record<C: PublicKey>(found: &mut Record<C>, dialer: bool)
    requires { is_reserved found.old.status ≡ true }
    ensures { found.new ≡ connected_record dialer found.old }
{
    found.connect();
    if dialer {
        found.dial_success();
    }
}

// Whom a reservation that is asked for at the time `now` is for, by the peer's record among the
// directory's, if it is granted: for a dial if `dialer`, else inbound.
#[tactic(auto, unfolding(crate::specs::Private::Dialling::granted_of))]
#[inline(always)]
fn granted_to<C: PublicKey>(
    found: &Record<C>,
    peer: &C,
    now: Duration,
    dialer: bool,
    cfg: &Config,
) -> Result<Option<Metadata<C>>, AllocError>
    ensures none { IfNone (granted_of dialer (config_view cfg.now) (as_nanos now) peer.now
        found.now) (result ≡ Ok None) }
    ensures answer { IfOk result (λ metadata. metadata
        ≡ granted_of dialer (config_view cfg.now) (as_nanos now) peer.now found.now) }
{
    let fits = if dialer {
        found.dialable(now, cfg.allow_private_ips, cfg.allow_dns) != DialStatus::Unavailable
    } else {
        found.eligible()
    };
    if !fits || found.reserve_result(now) != ReserveResult::Reserved {
        return Ok(None);
    }
    if !dialer {
        return Ok(Some(Metadata::Listener(*peer)));
    }
    match found.ingress() {
        Some(ingress) => Ok(Some(Metadata::Dialer(*peer, ingress.clone()?))),
        None => Ok(None),
    }
}

fn release_record<C: PublicKey>(found: &mut Record<C>, metadata: &Metadata<C>)
    requires { is_inert found.old.status ≡ false }
    ensures { found.new ≡ released_record metadata.now found.old }
{
    found.release();
    if let Metadata::Dialer(_, ingress) = metadata {
        found.dial_failure(ingress);
    }
}
