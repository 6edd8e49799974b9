//! Lists that are made by one pass over all records.

ghost use Rattle.std.specs.Prelude.{◌≡◌, ◌++◌, ◌∷◌, [], false, true, if◌then◌else◌};
ghost use Rattle.std.specs.Prelude.{IfOk, OnOk, OnErr, Some};
ghost use Rattle.std.specs.Option.{option_map, option_map_or, option_and_then};
ghost use Rattle.std.specs.List.{filter, list_any};
ghost use Rattle.std.specs.Map.{keys_of};
ghost use Rattle.std.specs.Duration.{as_nanos};
ghost use Rattle.p2p_tracker.specs.Record.{dial_view, is_now, later_moment};
ghost use Rattle.p2p_tracker.specs.Private.Dialling.{dial_state, entry_state, earliest, least_by};
ghost use Rattle.p2p_tracker.specs.Private.Dialling.{is_primary_record, is_secondary_record};
ghost use Rattle.p2p_tracker.specs.Private.Dialling.{is_record_in_set};
ghost use Rattle.p2p_tracker.specs.Seen.{record_at};
ghost use Rattle.p2p_tracker.specs.Lists.{Lists, IsLeastOf, Somebody};

use crate::directory::records::Records;
use crate::directory::records::counts::ordered;
use crate::directory::{Config, TrackedPeers};
use crate::kept::blocks::Blocks;
use crate::record::{DialStatus, Dialable, Record};
use p2p_discovery::codec::PublicKey;
use std::alloc::{AllocError, Global};
use std::collections::BTreeMap;
use std::time::Duration;

impl<C: PublicKey> Records<C> {
    /// Lists, by one pass over the directory's records, the peers that may be dialled at this time,
    /// with these blocks, and when to ask again.
    pub fn dialable(
        &self,
        alloc: Global,
        blocks: &Blocks<C>,
        now: Duration,
        cfg: &Config,
    ) -> Result<Dialable<C>, AllocError>
        ensures peers { IfOk result (λ answer. Lists C.cmp (λ q. option_map_or
            (λ r. is_now (entry_state C.cmp blocks.now cfg.now (as_nanos now) (q, r)))
            (record_at C.cmp self.now q) false) answer.peers.items) }
        ensures next { IfOk result (λ answer. IsLeastOf (λ q. option_and_then
            (λ r. later_moment (entry_state C.cmp blocks.now cfg.now (as_nanos now) (q, r)))
            (record_at C.cmp self.now q)) (option_map as_nanos answer.next_query_at)) }
        ensures err { OnErr result (Somebody (λ q. option_map_or
            (λ r. is_now (entry_state C.cmp blocks.now cfg.now (as_nanos now) (q, r)))
            (record_at C.cmp self.now q) false)) }
    {
        // For the proof: the contract of `len` says that the keys are in order.
        let _count = self.map.len();
        dialable_in(alloc, &self.map, blocks, now, cfg)
    }

    /// Lists, by one pass over the directory's records, the peers of the retained sets by role: one
    /// that is primary in some is primary only.
    pub fn all(&self, alloc: Global) -> Result<TrackedPeers<C>, AllocError>
        ensures primary { IfOk result (λ all. Lists C.cmp (λ q.
            option_map_or is_primary_record (record_at C.cmp self.now q) false) all.primary) }
        ensures secondary { IfOk result (λ all. Lists C.cmp (λ q.
            option_map_or is_secondary_record (record_at C.cmp self.now q) false) all.secondary) }
        ensures err { OnErr result (Somebody (λ q.
            option_map_or is_record_in_set (record_at C.cmp self.now q) false)) }
    {
        // For the proof: the contract of `len` says that the keys are in order.
        let _count = self.map.len();
        let (primary, secondary) = by_role(alloc, &self.map)?;
        Ok(TrackedPeers {
            primary: ordered(primary),
            secondary: ordered(secondary),
        })
    }
}

// Lists, by one pass over the directory's records in their map, the peers that may be dialled at
// this time, and when to ask again.
fn dialable_in<C: PublicKey>(
    alloc: Global,
    map: &BTreeMap<C, Record<C>>,
    blocks: &Blocks<C>,
    now: Duration,
    cfg: &Config,
) -> Result<Dialable<C>, AllocError>
    ensures peers { IfOk result (λ answer. answer.peers.items ≡ keys_of (filter
        (λ e. is_now (entry_state C.cmp blocks.now cfg.now (as_nanos now) e)) map.now.entries)) }
    ensures next { IfOk result (λ answer. option_map as_nanos answer.next_query_at ≡ least_by
        (λ e. later_moment (entry_state C.cmp blocks.now cfg.now (as_nanos now) e))
        map.now.entries) }
    ensures err { OnErr result (list_any
        (λ e. is_now (entry_state C.cmp blocks.now cfg.now (as_nanos now) e))
        map.now.entries ≡ true) }
{
    let mut answer = Dialable::new(alloc);
    for (peer, found) in map {
        note(
            &mut answer,
            *peer,
            status_of(found, blocks.get(peer), now, cfg),
        )?;
    }
    Ok(answer)
}

// The dial status by which a listing of the records takes a peer up, at this time; if the peer is
// blocked, that after its block.
fn status_of<C: PublicKey>(
    found: &Record<C>,
    unblock: Option<Duration>,
    now: Duration,
    cfg: &Config,
) -> DialStatus
    ensures { dial_view result ≡
        dial_state cfg.now (as_nanos now) (option_map as_nanos unblock) found.now }
{
    match unblock {
        Some(until) if now.as_nanos() < until.as_nanos() => DialStatus::After(until),
        _ => found.dialable(now, cfg.allow_private_ips, cfg.allow_dns),
    }
}

// Lists the record's peer if it may be dialled now; otherwise notes the time from which it may be,
// if there is one.
fn note<C: PublicKey>(
    answer: &mut Dialable<C>,
    peer: C,
    status: DialStatus,
) -> Result<(), AllocError>
    ensures peers { OnOk result (answer.new.peers.items ≡
        answer.old.peers.items ++ (if is_now (dial_view status) then peer ∷ [] else [])) }
    ensures next { OnOk result (option_map as_nanos answer.new.next_query_at ≡ earliest
        (option_map as_nanos answer.old.next_query_at) (later_moment (dial_view status))) }
    ensures err { OnErr result (is_now (dial_view status) ≡ true) }
{
    match status {
        DialStatus::Now => answer.peers.push(peer)?,
        DialStatus::After(moment) => {
            answer.next_query_at = Some(earliest(answer.next_query_at, moment));
        }
        DialStatus::Unavailable => {}
    }
    Ok(())
}

/// The earlier of two times, in a pass that lists peers or their cooldowns.
pub fn earliest(known: Option<Duration>, moment: Duration) -> Duration
    ensures { Some (as_nanos result) ≡
        earliest (option_map as_nanos known) (Some (as_nanos moment)) }
{
    match known {
        Some(known) if known.as_nanos() <= moment.as_nanos() => known,
        _ => moment,
    }
}

// Lists, by one pass over the directory's records, the primary peers, and those that are secondary
// only.
fn by_role<C: PublicKey>(
    alloc: Global,
    map: &BTreeMap<C, Record<C>>,
) -> Result<(Vec<C>, Vec<C>), AllocError>
    ensures primary { IfOk result (λ all.
        all.0.items ≡ keys_of (filter (λ e. is_primary_record e.1) map.now.entries)) }
    ensures secondary { IfOk result (λ all.
        all.1.items ≡ keys_of (filter (λ e. is_secondary_record e.1) map.now.entries)) }
    ensures err { OnErr result (list_any (λ e. is_record_in_set e.1) map.now.entries ≡ true) }
{
    let mut primary = Vec::new(alloc);
    let mut secondary = Vec::new(alloc);
    for (peer, found) in map {
        push_by_role(&mut primary, &mut secondary, *peer, found)?;
    }
    Ok((primary, secondary))
}

// Lists the record's peer under its role if it is in a set.
fn push_by_role<C: PublicKey>(
    primary: &mut Vec<C>,
    secondary: &mut Vec<C>,
    peer: C,
    found: &Record<C>,
) -> Result<(), AllocError>
    ensures primary { OnOk result (primary.new.items ≡ primary.old.items
        ++ (if is_primary_record found.now then peer ∷ [] else [])) }
    ensures secondary { OnOk result (secondary.new.items ≡ secondary.old.items
        ++ (if is_secondary_record found.now then peer ∷ [] else [])) }
    ensures err { OnErr result (is_record_in_set found.now ≡ true) }
{
    if found.primary_sets() > 0 {
        primary.push(peer)?;
        return Ok(());
    }
    if found.secondary_sets() > 0 {
        secondary.push(peer)?;
    }
    Ok(())
}
