//! What is shared with others: infos, and which of them are known.

ghost use Rattle.std.specs.Prelude.{◌≡◌, ◌<◌, ◌≤◌, ◌+◌, ◌++◌, length, slice_get, None, true};
ghost use Rattle.std.specs.Prelude.{option_map, option_to_list, drop, zip, List, ◌∷◌, false};
ghost use Rattle.std.specs.Prelude.{filter_map, if◌then◌else◌, IfOk, IfSome, IsOk, OnOk, OnErr};
ghost use Rattle.std.specs.BTreeMap.{is_at};
ghost use Rattle.std.specs.Map.{keys_of};
ghost use Rattle.std.specs.Option.{option_and_then, option_copied, IsSomeAnd};
ghost use Rattle.std.specs.Duration.{as_nanos};
ghost use Rattle.p2p_discovery.specs.Ingress.{takes_none};
ghost use Rattle.p2p_tracker.specs.Moments.{epoch_millis};
ghost use Rattle.p2p_discovery.specs.Ordered.{has_key};
ghost use Rattle.p2p_tracker.specs.Seen.{record_at};
ghost use Rattle.p2p_tracker.specs.Directory.{shared_at, shared_of, shared_for, sharable_of_record};
ghost use Rattle.p2p_tracker.specs.Private.Asked.{shared_of_record, asked_from};
ghost use Rattle.p2p_tracker.specs.Private.Among.{left_keys, shared_with, with_key};

use crate::directory::Directory;
use crate::directory::records::Records;
use crate::record::Record;
use p2p_discovery::codec::PublicKey;
use p2p_discovery::discovery::{BitVec, Info};
use p2p_discovery::sets::{BitMap, OrderedSet};
use p2p_discovery::types::Ingress;
use std::alloc::{AllocError, Global};
use std::cmp::Ordering;
use std::collections::{BTreeMap, btree_map};
use std::time::Duration;

// A walk past so many records takes about as long as one search among them.
const SPARSE: usize = 8;

// .. and past so many as one search among the peers and one among the records.
const BUSY: usize = 4;

// For how many infos there is capacity at least once the first is found, if so many may be left.
const FIRST: usize = 32;

impl<C: PublicKey> Directory<C> {
    ghost use Rattle.p2p_tracker.specs.Directory.{IsBusy, sharable_in, infos_in, bit_vec_at};
    ghost use Rattle.p2p_tracker.specs.Directory.{ingress_in};

    /// The info of the peer that the directory may share: that of the local node, and that of a
    /// connected peer. It allocates only for an info whose ingress is a name.
    ///
    /// # Errors
    ///
    /// `AllocError` if an allocation fails.
    ///
    /// # Cost
    ///
    /// One search among the records.
    pub fn info(&self, peer: &C) -> Result<Option<Info<C>>, AllocError>
        ensures info { IfOk result (λ info. info ≡ sharable_in C.cmp self.now peer.now) }
        ensures none { sharable_in C.cmp self.now peer.now ≡ None → IsOk result }
        ensures socket { IfSome (sharable_in C.cmp self.now peer.now)
            (λ info. takes_none info.ingress ≡ true → IsOk result) }
    {
        match self.records.get(peer) {
            Some(found) => found.sharable(),
            None => Ok(None),
        }
    }

    /// The address that the directory holds of the peer, whether or not it may be dialled: that of
    /// its info, else that of the last bootstrapper with its key; of the local node its own. `None`
    /// if there is no record of the peer, or no address in it. It allocates only for a name.
    ///
    /// # Errors
    ///
    /// `AllocError` if an allocation fails.
    ///
    /// # Cost
    ///
    /// One search among the records.
    pub fn ingress(&self, peer: &C) -> Result<Option<Ingress>, AllocError>
        ensures ingress { IfOk result (λ ingress. ingress ≡ ingress_in C.cmp self.now peer.now) }
        ensures none { ingress_in C.cmp self.now peer.now ≡ None → IsOk result }
        ensures socket { IfSome (ingress_in C.cmp self.now peer.now)
            (λ ingress. takes_none ingress ≡ true → IsOk result) }
    {
        match self.records.get(peer) {
            Some(found) => match found.ingress() {
                Some(ingress) => Ok(Some(ingress.clone()?)),
                None => Ok(None),
            },
            None => Ok(None),
        }
    }

    /// The directory's infos to send to a peer that sent these bits, at the time `now`, a duration
    /// since the epoch. They are those of the primary peers whose bit is false, in order, of the
    /// retained set with the index. An info is left out if it may not be shared, or its timestamp
    /// is above the whole milliseconds of `now`.
    ///
    /// Returns an empty list if no retained set has the index, and `None` if the number of bits
    /// differs from the number of its primary peers. It allocates only if an info is shared: for
    /// the list as it grows, and for ingresses that are names.
    ///
    /// # Errors
    ///
    /// `AllocError` if an allocation fails.
    ///
    /// # Cost
    ///
    /// One pass over the retained sets, and at most one over the bits. Then, if there are at most
    /// about 8 records for each false bit, one pass over the primary peers and the records, at most up to
    /// the last peer whose bit is false. Otherwise one pass over the peers, with one search among
    /// the records for each whose bit is false.
    pub fn infos(&self, bit_vec: &BitVec, now: Duration) -> Result<Option<Vec<Info<C>>>, AllocError>
        ensures infos { IfOk result (λ infos. option_map (λ v. v.items) infos
            ≡ infos_in C.cmp self.now bit_vec.now.index bit_vec.now.bits (as_nanos now)) }
        ensures err { OnErr result (IsSomeAnd
            (infos_in C.cmp self.now bit_vec.now.index bit_vec.now.bits (as_nanos now))
            (λ infos. 0 < length infos)) }
    {
        let alloc = self.alloc;
        match self.sets.get(bit_vec.index) {
            Some(set) => {
                let peers = set.primary().ordered();
                shared_for(
                    alloc,
                    &self.records,
                    peers,
                    &bit_vec.bits,
                    epoch_millis(now),
                )
            }
            None => Ok(Some(Vec::new(alloc))),
        }
    }

    /// The infos that [`Directory::infos`] returns, by a search for each key of a map of busy
    /// peers, if that is less work. It allocates as that does.
    ///
    /// # Conditions
    ///
    /// Whoever is reserved or connected is a key of the map.
    ///
    /// # Errors
    ///
    /// `AllocError` if an allocation fails.
    ///
    /// # Cost
    ///
    /// One pass over the retained sets. Then, if there are at least 4 records for each key of the
    /// map, one search among the primary peers for each key and for the local node, and one among
    /// the records for each that is found and whose bit is false. Otherwise that of
    /// [`Directory::infos`].
    pub fn infos_among<V>(
        &self,
        bit_vec: &BitVec,
        now: Duration,
        busy: &BTreeMap<C, V>,
    ) -> Result<Option<Vec<Info<C>>>, AllocError>
        requires { (q : C) → IsBusy C.cmp self.now q →
            has_key C.cmp (keys_of busy.now.entries) q ≡ true }
        ensures infos { IfOk result (λ infos. option_map (λ v. v.items) infos
            ≡ infos_in C.cmp self.now bit_vec.now.index bit_vec.now.bits (as_nanos now)) }
        ensures err { OnErr result (IsSomeAnd
            (infos_in C.cmp self.now bit_vec.now.index bit_vec.now.bits (as_nanos now))
            (λ infos. 0 < length infos)) }
    {
        if self.records.len() / BUSY < busy.len() {
            return self.infos(bit_vec, now);
        }
        let alloc = self.alloc;
        match self.sets.get(bit_vec.index) {
            Some(set) => {
                let peers = set.primary().ordered();
                let millis = epoch_millis(now);
                shared_among(
                    alloc,
                    &self.records,
                    peers,
                    &bit_vec.bits,
                    millis,
                    &self.own,
                    busy,
                )
            }
            None => Ok(Some(Vec::new(alloc))),
        }
    }

    /// The bits of the directory's retained set at a position, counted from 0 in order of index,
    /// with its index, by which infos are asked for. They say for each primary peer in order
    /// whether its info is known and not wanted. `None` if there is no such position.
    ///
    /// # Errors
    ///
    /// `AllocError` if an allocation fails.
    ///
    /// # Cost
    ///
    /// Proportional to the bytes of the result.
    pub fn get_random_bit_vec(&self, place: usize) -> Result<Option<BitVec>, AllocError>
        ensures bits { IfOk result (λ bits. bits ≡ bit_vec_at C.cmp self.now place) }
        ensures none { slice_get self.now.sets place ≡ None → IsOk result }
    {
        match self.sets.at(place) {
            Some(set) => Ok(Some(BitVec {
                index: set.index(),
                bits: set.primary().knowledge()?,
            })),
            None => Ok(None),
        }
    }
}

/// The whole milliseconds of a time, at most `u64::MAX`, with which a directory compares timestamps
/// of infos.
pub fn epoch_millis(now: Duration) -> u64
    ensures { result ≡ epoch_millis (as_nanos now) }
{
    u64::try_from(now.as_millis()).unwrap_or(u64::MAX)
}

/// The infos of these peers that the directory shares with a peer that sent the bits, or `None` if
/// the number of bits differs. Those with a timestamp above the milliseconds are left out.
///
/// # Errors
///
/// `AllocError` if an allocation fails. It allocates only if an info is shared.
pub fn shared_for<C: PublicKey>(
    alloc: Global,
    records: &Records<C>,
    peers: &OrderedSet<C>,
    bits: &BitMap,
    millis: u64,
) -> Result<Option<Vec<Info<C>>>, AllocError>
    ensures infos { IfOk result (λ infos. option_map (λ v. v.items) infos
        ≡ shared_for C.cmp records.now millis peers.now bits.now) }
    ensures err { OnErr result (IsSomeAnd
        (shared_for C.cmp records.now millis peers.now bits.now) (λ infos. 0 < length infos)) }
{
    if bits.len() != peers.len() as u64 {
        return Ok(None);
    }
    let mut infos = Vec::new(alloc);
    if are_unknown(bits, records.len() / SPARSE) {
        copy_walked(&mut infos, records, peers, bits, millis)?;
    } else {
        copy_shared(&mut infos, records, peers, bits, millis)?;
    }
    Ok(Some(infos))
}

// Whether at least so many infos are unknown to a peer that asks the directory, by the bits that
// are false.
fn are_unknown(bits: &BitMap, count: usize) -> bool {
    let mut left = count;
    for place in 0..bits.len() {
        if left == 0 {
            return true;
        }
        if !bits.get(place) {
            left -= 1;
        }
    }
    left == 0
}

// Appends copies of the infos of these peers that the directory shares, by one walk along the
// records and the peers together, which are both in order.
fn copy_walked<C: PublicKey>(
    infos: &mut Vec<Info<C>>,
    records: &Records<C>,
    peers: &OrderedSet<C>,
    bits: &BitMap,
    millis: u64,
) -> Result<(), AllocError>
    requires { length bits.now ≡ length peers.now }
    ensures infos { OnOk result (infos.new.items
        ≡ infos.old.items ++ shared_of C.cmp records.now millis peers.now bits.now) }
    ensures err { OnErr result
        (0 < length (shared_of C.cmp records.now millis peers.now bits.now)) }
{
    let keys = peers.as_slice();
    let mut place = 0;
    for (key, found) in records.iter() {
        place = first_from(keys, bits, place, key);
        if place == keys.len() {
            return Ok(());
        }
        if keys[place].cmp(key).is_eq() {
            copy_info(infos, shared_by(found, millis), keys.len() - place)?;
            place += 1;
        }
    }
    Ok(())
}

// The first position, from that one on, of a peer whose info the directory is asked for, as its bit
// is false, and that is not below the key.
fn first_from<C: PublicKey>(peers: &[C], bits: &BitMap, place: usize, key: &C) -> usize
    requires same { length bits.now ≡ length peers.now }
    requires within { place ≤ length peers.now }
    ensures within { result ≤ length peers.now }
    ensures first { drop result (zip peers.now bits.now)
        ≡ asked_from C.cmp key.now (drop place (zip peers.now bits.now)) }
{
    for at in place..peers.len() {
        if !bits.get(at as u64) && !peers[at].cmp(key).is_lt() {
            return at;
        }
    }
    peers.len()
}

// Appends copies of the infos of these peers that the directory shares, by one search among the
// records for each peer whose bit is false.
fn copy_shared<C: PublicKey>(
    infos: &mut Vec<Info<C>>,
    records: &Records<C>,
    peers: &OrderedSet<C>,
    bits: &BitMap,
    millis: u64,
) -> Result<(), AllocError>
    requires { length bits.now ≡ length peers.now }
    ensures infos { OnOk result (infos.new.items
        ≡ infos.old.items ++ shared_of C.cmp records.now millis peers.now bits.now) }
    ensures err { OnErr result
        (0 < length (shared_of C.cmp records.now millis peers.now bits.now)) }
{
    for place in 0..peers.len() {
        let known = bits.get(place as u64);
        let info = shared(records, &peers[place], known, millis);
        copy_info(infos, info, peers.len() - place)?;
    }
    Ok(())
}

// The info of the peer that the directory shares if this is its bit.
fn shared<'a, C: PublicKey>(
    records: &'a Records<C>,
    peer: &C,
    known: bool,
    millis: u64,
) -> Option<&'a Info<C>>
    ensures { option_copied result ≡ shared_at C.cmp records.now millis (peer.now, known) }
{
    if known {
        return None;
    }
    shared_by(records.get(peer)?, millis)
}

// The record's info, if the directory shares it.
fn shared_by<C: PublicKey>(found: &Record<C>, millis: u64) -> Option<&Info<C>>
    ensures { option_copied result ≡ shared_of_record millis found.now }
{
    let info = found.sharable_info()?;
    if info.timestamp <= millis {
        Some(info)
    } else {
        None
    }
}

// The infos of these peers that the directory shares, if each that may be shared is the own one or
// that of a key of the map.
fn shared_among<C: PublicKey, V>(
    alloc: Global,
    records: &Records<C>,
    peers: &OrderedSet<C>,
    bits: &BitMap,
    millis: u64,
    own: &C,
    busy: &BTreeMap<C, V>,
) -> Result<Option<Vec<Info<C>>>, AllocError>
    requires { (q : C) → is_at (C.cmp own.now) q ≡ false →
        has_key C.cmp (keys_of busy.now.entries) q ≡ false →
        option_and_then sharable_of_record (record_at C.cmp records.now q) ≡ None }
    ensures infos { IfOk result (λ infos. option_map (λ v. v.items) infos
        ≡ shared_for C.cmp records.now millis peers.now bits.now) }
    ensures err { OnErr result (IsSomeAnd
        (shared_for C.cmp records.now millis peers.now bits.now) (λ infos. 0 < length infos)) }
{
    if bits.len() != peers.len() as u64 {
        return Ok(None);
    }
    // For the proof: the contract of `as_slice` says that the peers are in order.
    let _keys = peers.as_slice();
    let mut found = Vec::new(alloc);
    copy_among(&mut found, records, peers, bits, millis, own, busy.iter())?;
    Ok(Some(found))
}

// Appends copies of the infos of these peers that the directory shares, of the own key and of these
// keys alone, in order.
fn copy_among<C: PublicKey, V>(
    infos: &mut Vec<Info<C>>,
    records: &Records<C>,
    peers: &OrderedSet<C>,
    bits: &BitMap,
    millis: u64,
    own: &C,
    busy: btree_map::Iter<'_, C, V>,
) -> Result<(), AllocError>
    requires { length bits.now ≡ length peers.now }
    ensures infos { OnOk result (infos.new.items ≡ infos.old.items ++ filter_map
        (shared_with C.cmp records.now millis peers.now bits.now)
        (with_key C.cmp own.now (keys_of busy.entry))) }
    ensures err { OnErr result (0 < length (filter_map
        (shared_with C.cmp records.now millis peers.now bits.now)
        (with_key C.cmp own.now (keys_of busy.entry)))) }
{
    let mut own_left = true;
    for (key, _) in busy {
        own_left = copy_own_before(infos, records, peers, bits, millis, own_left, own, key)?;
        copy_asked(infos, records, peers, bits, millis, key)?;
    }
    if own_left {
        copy_asked(infos, records, peers, bits, millis, own)?;
    }
    Ok(())
}

// Appends a copy of the directory's own info, if it is left and its place is before this key.
// Returns whether it is left then.
fn copy_own_before<C: PublicKey>(
    infos: &mut Vec<Info<C>>,
    records: &Records<C>,
    peers: &OrderedSet<C>,
    bits: &BitMap,
    millis: u64,
    own_left: bool,
    own: &C,
    key: &C,
) -> Result<bool, AllocError>
    requires { length bits.now ≡ length peers.now }
    ensures infos { IfOk result (λ left. (keys : List C) → infos.new.items ++ filter_map
        (shared_with C.cmp records.now millis peers.now bits.now)
        (key.now ∷ left_keys C.cmp left own.now keys)
        ≡ infos.old.items ++ filter_map
        (shared_with C.cmp records.now millis peers.now bits.now)
        (left_keys C.cmp own_left own.now (key.now ∷ keys))) }
    ensures grown { OnOk result (length infos.old.items ≤ length infos.new.items) }
    ensures err { OnErr result ((keys : List C) → 0 < length (filter_map
        (shared_with C.cmp records.now millis peers.now bits.now)
        (left_keys C.cmp own_left own.now (key.now ∷ keys)))) }
{
    if !own_left {
        return Ok(false);
    }
    match own.cmp(key) {
        Ordering::Less => {
            copy_asked(infos, records, peers, bits, millis, own)?;
            Ok(false)
        }
        Ordering::Equal => Ok(false),
        Ordering::Greater => Ok(true),
    }
}

// Appends a copy of the info of the peer, if it is one of these and the directory shares its info.
fn copy_asked<C: PublicKey>(
    infos: &mut Vec<Info<C>>,
    records: &Records<C>,
    peers: &OrderedSet<C>,
    bits: &BitMap,
    millis: u64,
    peer: &C,
) -> Result<(), AllocError>
    requires { length bits.now ≡ length peers.now }
    ensures infos { OnOk result (infos.new.items ≡ infos.old.items ++ option_to_list
        (shared_with C.cmp records.now millis peers.now bits.now peer.now)) }
    ensures err { OnErr result (0 < length (option_to_list
        (shared_with C.cmp records.now millis peers.now bits.now peer.now))) }
{
    let Some(place) = peers.position(peer) else {
        return Ok(());
    };
    let info = shared(records, peer, bits.get(place as u64), millis);
    copy_info(infos, info, peers.len() - place)
}

// Appends a copy of the info that the directory shares, if there is one. There is capacity for some
// of the infos that may be left once the first is appended.
fn copy_info<C: PublicKey>(
    infos: &mut Vec<Info<C>>,
    info: Option<&Info<C>>,
    left: usize,
) -> Result<(), AllocError>
    ensures infos { OnOk result (infos.new.items
        ≡ infos.old.items ++ option_to_list (option_copied info.entry)) }
    ensures err { OnErr result (0 < length (option_to_list (option_copied info.entry))) }
{
    if let Some(info) = info {
        if infos.is_empty() {
            infos.reserve(left.min(FIRST))?;
        }
        infos.push(info.clone()?)?;
    }
    Ok(())
}
