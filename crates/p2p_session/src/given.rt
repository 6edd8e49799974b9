//! What a session is given, as values: keys, times, sets, infos and bits.

ghost use Rattle.std.specs.Prelude.{◌≡◌, ℕ, ◌+◌, ◌≤◌, ◌<◌, List, ◌++◌, drop, length, true, false};
ghost use Rattle.std.specs.Prelude.{None, IfSome, IfOk, OnErr};
ghost use Rattle.p2p_discovery.specs.Reading.{IsBytes};
ghost use Rattle.p2p_session.specs.Given.{or_bad, key_at, moment_at, nanos_of, AreKeys, AreKeysOf, IsSetOf};
ghost use Rattle.p2p_session.specs.Given.{infos_spelled, bits_spelled, infos_of, IsRead};

use crate::refusal::Refusal;
use crate::scheme::Keys;
use bytes::Bytes;
use p2p_discovery::codec::{CodecError, PublicKey, RangeCfg, Read};
use p2p_discovery::discovery::{BitVec, Info, Infos};
use p2p_discovery::sets::OrderedSet;
use std::alloc::{AllocError, Global};
use std::time::Duration;

const NANOS_PER_SECOND: u32 = 1_000_000_000;

/// The key that the bytes given to a session are. A call whose key is `None` is refused as
/// [`Refusal::BadKey`]. An option, since a refusal in the place of the key's first byte would have
/// the key copied in parts.
pub fn key<C: PublicKey>(bytes: &[u8]) -> Option<C>
    ensures { or_bad result ≡ key_at ⟦<C as Keys>⟧.scheme bytes.now }
{
    if bytes.len() != C::SIZE {
        return None;
    }
    C::read_fixed(bytes)
}

/// The time, or the duration, of so many seconds and nanoseconds that a session is given.
pub fn moment(seconds: u64, nanos: u32) -> Result<Duration, Refusal>
    ensures { nanos_of result ≡ moment_at seconds nanos }
{
    if nanos >= NANOS_PER_SECOND {
        return Err(Refusal::BadMoment);
    }
    Ok(Duration::new(seconds, nanos))
}

/// Whether the bytes given to a session are keys, one after the other.
pub fn are_keys<C: PublicKey>(bytes: &[u8]) -> bool
    ensures yes { result ≡ true → AreKeys ⟦<C as Keys>⟧.scheme bytes.now }
    ensures no { result ≡ false → ¬ AreKeys ⟦<C as Keys>⟧.scheme bytes.now }
{
    if C::SIZE == 0 {
        return bytes.is_empty();
    }
    let mut at = 0;
    while at < bytes.len() {
        let Some(_key) = key_in::<C>(bytes, at) else {
            return false;
        };
        at += C::SIZE;
    }
    true
}

/// The set of the keys in the bytes given to a session, which follow each other in any order and
/// may repeat.
///
/// # Conditions
///
/// They are keys, as [`are_keys`] says.
pub fn set<C: PublicKey>(alloc: Global, bytes: &[u8]) -> Result<OrderedSet<C>, AllocError>
    requires { AreKeys ⟦<C as Keys>⟧.scheme bytes.now }
    ensures set { IfOk result (IsSetOf ⟦<C as Keys>⟧.scheme bytes.now) }
    ensures err { OnErr result (0 < length bytes.now) }
{
    Ok(OrderedSet::from_vec_dedup(keys(alloc, bytes)?))
}

// The keys in the bytes given to a session, one after the other.
fn keys<C: PublicKey>(alloc: Global, bytes: &[u8]) -> Result<Vec<C>, AllocError>
    requires { AreKeys ⟦<C as Keys>⟧.scheme bytes.now }
    ensures are { IfOk result (λ keys. AreKeysOf ⟦<C as Keys>⟧.scheme bytes.now keys.items) }
    ensures err { OnErr result (0 < length bytes.now) }
{
    let count = bytes.len().checked_div(C::SIZE).unwrap_or(0);
    let mut keys = Vec::with_capacity(alloc, count)?;
    let mut at = 0;
    while at < bytes.len() {
        let Some(key) = key_in(bytes, at) else {
            unreachable!();
        };
        keys.push_reserved(key);
        at += C::SIZE;
    }
    Ok(keys)
}

/// The key with which the bytes given to a session begin from a position on, or `None`.
pub fn key_in<C: PublicKey>(bytes: &[u8], at: usize) -> Option<C>
    requires { at ≤ length bytes.now }
    ensures some { IfSome result (λ key. (at + C.SIZE ≤ length bytes.now) × C.IsValue key
        × (drop at bytes.now ≡ C.spelled key ++ drop (at + C.SIZE) bytes.now)) }
    ensures none { result ≡ None → (key : C) (rest : List ℕ) → C.IsValue key →
        ¬ (drop at bytes.now ≡ C.spelled key ++ rest) }
{
    if bytes.len() - at < C::SIZE {
        return None;
    }
    let front = &bytes[at..at + C::SIZE];
    are_bytes(front);
    C::read_fixed(front)
}

/// What a slice that a session is given holds are bytes.
pub fn are_bytes(bytes: &[u8])
    ensures { IsBytes bytes.now }
{}

/// A copy of the bytes given to a session. It allocates only if there are any.
pub fn copied(alloc: Global, bytes: &[u8]) -> Result<Bytes, AllocError>
    ensures ok { IfOk result (λ copy. copy ≡ bytes.now) }
    ensures err { OnErr result (0 < length bytes.now) }
{
    if bytes.is_empty() {
        return Ok(Bytes::new());
    }
    Bytes::copy_from_slice(alloc, bytes)
}

/// The infos that the bytes given to a session encode.
#[tactic(auto, using(crate::proofs::Unread::refused_as))]
pub fn infos<C: PublicKey>(alloc: Global, bytes: &[u8]) -> Result<Vec<Info<C>>, Refusal>
    ensures { IsRead bytes.now (infos_of result)
        (infos_spelled ⟦<C as Keys>⟧.scheme bytes.now) }
{
    let limit = RangeCfg {
        least: 0,
        greatest: usize::MAX,
    };
    let bytes = copied(alloc, bytes)?;
    match Infos::decode_cfg(alloc, bytes, &limit) {
        Ok(infos) => Ok(infos.into_vec()),
        Err(CodecError::Memory) => Err(Refusal::Memory),
        Err(_) => Err(Refusal::BadInfo),
    }
}

/// The maximum number of bits: a frame encodes no more.
const GREATEST_BITS: u64 = 0xffff_ffff;

/// The bits that the bytes given to a session encode, at most `u32::MAX` of them.
#[tactic(auto, using(crate::proofs::Unread::refused_as))]
pub fn bits(alloc: Global, bytes: &[u8]) -> Result<BitVec, Refusal>
    ensures { IsRead bytes.now result (bits_spelled bytes.now) }
{
    let bytes = copied(alloc, bytes)?;
    match BitVec::decode_cfg(alloc, bytes, &GREATEST_BITS) {
        Ok(bits) => Ok(bits),
        Err(CodecError::Memory) => Err(Refusal::Memory),
        Err(_) => Err(Refusal::BadBits),
    }
}
