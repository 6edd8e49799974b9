//! Answers, written straight into the host's buffer: nothing is allocated.

ghost use Rattle.std.specs.Prelude.{◌≡◌, ℕ, List, ◌+◌, ◌*◌, ◌≤◌, ◌<◌, ◌^◌, min, length, flat_map};
ghost use Rattle.p2p_session.specs.Answers.{keys_bytes, values_bytes, put_at};
ghost use Rattle.p2p_session.specs.Answers.{IsAnswered, asked_bytes, info_bytes};
ghost use Rattle.p2p_discovery.specs.Varint.{groups};

use crate::scheme::Keys;
use p2p_discovery::codec::{EncodeSize, FixedBytes, PublicKey};
use p2p_discovery::discovery::Info;

// How many bytes a number has, and so a timestamp when it is signed.
const NUMBER_SIZE: usize = 8;

const TIMESTAMP_SIZE: usize = NUMBER_SIZE;

/// No answer's length is above this.
const LONGEST: u64 = 1 << 63;

/// A part of an answer.
pub trait Part: Copy {
    // Its bytes.
    ghost bytes: { Self → List ℕ };

    /// How many bytes the part of an answer is, at most `LONGEST`.
    fn size(&self) -> u64
        ensures { result ≡ min (length (bytes self.now)) (2 ^ 63) };

    /// Writes the part of an answer from a position on, and returns the position after it.
    fn put(&self, out: &mut [u8], at: usize) -> usize
        requires { at + length (bytes self.now) ≤ length out.old }
        ensures written { out.new ≡ put_at at (bytes self.now) out.old }
        ensures end { result ≡ at + length (bytes self.now) };
}

/// Writes an answer of these parts at the start of the buffer if they fit. Returns how many bytes
/// they are, at most `LONGEST`.
pub fn answer<P: Part>(parts: &[P], out: &mut [u8]) -> u64
    ensures { IsAnswered (flat_map P.bytes parts.now) out.old out.new result }
{
    let size = size_of_all(parts);
    if size <= out.len() as u64 {
        write_all(parts, out);
    }
    size
}

// How many bytes the parts of an answer are.
fn size_of_all<P: Part>(parts: &[P]) -> u64
    ensures { result ≡ min (length (flat_map P.bytes parts.now)) (2 ^ 63) }
{
    let mut size: u64 = 0;
    for part in parts {
        size = size.saturating_add(part.size()).min(LONGEST);
    }
    size
}

// Writes the parts of an answer one after the other.
fn write_all<P: Part>(parts: &[P], out: &mut [u8])
    requires { length (flat_map P.bytes parts.now) ≤ length out.old }
    ensures { out.new ≡ put_at 0 (flat_map P.bytes parts.now) out.old }
{
    let mut at = 0;
    for part in parts {
        at = part.put(out, at);
    }
}

/// Bytes as they are.
#[derive(Clone, Copy)]
pub struct Plain<'a>(pub &'a [u8]);

impl Part for Plain<'_> {
    ghost bytes = { λ part. part.0.now };

    fn size(&self) -> u64 {
        (self.0.len() as u64).min(LONGEST)
    }

    fn put(&self, out: &mut [u8], at: usize) -> usize {
        put(out, at, self.0)
    }
}

/// Writes an answer of these bytes.
pub fn answer_bytes(bytes: &[u8], out: &mut [u8]) -> u64
    ensures { IsAnswered bytes.now out.old out.new result }
{
    answer(&[Plain(bytes)], out)
}

/// Bytes, or values that are encoded where they are written.
#[derive(Clone, Copy)]
pub enum Values<'a, C: PublicKey> {
    /// These bytes.
    Bytes(&'a [u8]),
    /// A number of values, as a list begins with it.
    Count(u32),
    /// This key.
    Key(&'a C),
    /// Keys, one after the other.
    Keys(&'a [C]),
    /// This info, encoded.
    Info(&'a Info<C>),
    /// These infos, encoded one after the other.
    Infos(&'a [Info<C>]),
    /// What is to be verified of this info, whose signature decides: the length of its signed
    /// bytes, its key, the signed bytes, and its signature.
    Question(&'a Info<C>),
    /// What is to be verified of these infos, one after the other.
    Questions(&'a [Info<C>]),
}

impl<C: PublicKey> Part for Values<'_, C> {
    ghost use Rattle.p2p_session.specs.Answers.{values_bytes};

    ghost bytes = { values_bytes ⟦<C as Keys>⟧.scheme };

    fn size(&self) -> u64 {
        match self {
            Values::Bytes(bytes) => (bytes.len() as u64).min(LONGEST),
            Values::Count(count) => count.encode_size() as u64,
            Values::Key(_) => C::SIZE as u64,
            Values::Keys(keys) => size_of_keys::<C>(keys.len()),
            Values::Info(info) => info.encode_size() as u64,
            Values::Infos(infos) => size_of_infos(infos),
            Values::Question(info) => size_asked(info),
            Values::Questions(infos) => size_of_asked(infos),
        }
    }

    fn put(&self, out: &mut [u8], at: usize) -> usize {
        match self {
            Values::Bytes(bytes) => put(out, at, bytes),
            Values::Count(count) => put_varint(out, at, u64::from(*count)),
            Values::Key(key) => put_fixed(out, at, *key),
            Values::Keys(keys) => put_keys(out, at, keys),
            Values::Info(info) => put_info(out, at, info),
            Values::Infos(infos) => put_infos(out, at, infos),
            Values::Question(info) => put_question(out, at, info),
            Values::Questions(infos) => put_asked(out, at, infos),
        }
    }
}

/// Writes an answer of one part.
pub fn answer_one<C: PublicKey>(part: Values<'_, C>, out: &mut [u8]) -> u64
    ensures { IsAnswered (values_bytes ⟦<C as Keys>⟧.scheme part.entry) out.old out.new result }
{
    answer(&[part], out)
}

// How many bytes so many keys of an answer are.
pub(crate) fn size_of_keys<C: PublicKey>(count: usize) -> u64
    ensures { result ≡ min (count * C.SIZE) (2 ^ 63) }
{
    (count as u64).saturating_mul(C::SIZE as u64).min(LONGEST)
}

// How many bytes the encoded infos of an answer are.
fn size_of_infos<C: PublicKey>(infos: &[Info<C>]) -> u64
    ensures { result ≡ min (length (flat_map (info_bytes ⟦<C as Keys>⟧.scheme) infos.now)) (2 ^
        63) }
{
    let mut size: u64 = 0;
    for info in infos {
        size = size.saturating_add(info.encode_size() as u64).min(LONGEST);
    }
    size
}

// How many bytes of an answer are what is to be verified of the infos.
fn size_of_asked<C: PublicKey>(infos: &[Info<C>]) -> u64
    ensures { result ≡ min (length (flat_map (asked_bytes ⟦<C as Keys>⟧.scheme) infos.now)) (2 ^
        63) }
{
    let mut size: u64 = 0;
    for info in infos {
        size = size.saturating_add(size_asked(info)).min(LONGEST);
    }
    size
}

// How many bytes of an answer are what is to be verified of the info.
fn size_asked<C: PublicKey>(info: &Info<C>) -> u64
    ensures size { result ≡ length ((asked_bytes ⟦<C as Keys>⟧.scheme) info.now) }
    ensures bound { result ≤ 2 ^ 18 }
{
    let signed = info.ingress.encode_size() + TIMESTAMP_SIZE;
    (NUMBER_SIZE + C::SIZE + signed + C::Signature::SIZE) as u64
}

// Writes the keys of an answer from a position on, and returns the position after them.
fn put_keys<C: PublicKey>(out: &mut [u8], start: usize, keys: &[C]) -> usize
    requires { start + length (keys_bytes ⟦<C as Keys>⟧.scheme keys.now) ≤ length out.old }
    ensures bytes { out.new ≡ put_at start (keys_bytes ⟦<C as Keys>⟧.scheme keys.now) out.old }
    ensures end { result ≡ start + length (keys_bytes ⟦<C as Keys>⟧.scheme keys.now) }
{
    let mut at = start;
    for key in keys {
        at = put_fixed(out, at, key);
    }
    at
}

// Writes a key or a signature of an answer from a position on, and returns the position after it.
fn put_fixed<T: FixedBytes>(out: &mut [u8], at: usize, value: &T) -> usize
    requires { at + length (T.spelled value.now) ≤ length out.old }
    ensures bytes { out.new ≡ put_at at (T.spelled value.now) out.old }
    ensures end { result ≡ at + length (T.spelled value.now) }
{
    let end = at + T::SIZE;
    value.write_fixed(&mut out[at..end]);
    end
}

// Writes the encoded infos of an answer from a position on, and returns the position after them.
fn put_infos<C: PublicKey>(out: &mut [u8], start: usize, infos: &[Info<C>]) -> usize
    requires { start + length (flat_map (info_bytes ⟦<C as Keys>⟧.scheme) infos.now) ≤ length
        out.old }
    ensures bytes { out.new ≡ put_at start (flat_map (info_bytes ⟦<C as Keys>⟧.scheme) infos.now)
        out.old }
    ensures end { result ≡ start + length (flat_map (info_bytes ⟦<C as Keys>⟧.scheme) infos.now) }
{
    let mut at = start;
    for info in infos {
        at = put_info(out, at, info);
    }
    at
}

// Writes the encoded info of an answer from a position on, and returns the position after it.
fn put_info<C: PublicKey>(out: &mut [u8], at: usize, info: &Info<C>) -> usize
    requires { at + length ((info_bytes ⟦<C as Keys>⟧.scheme) info.now) ≤ length out.old }
    ensures bytes { out.new ≡ put_at at ((info_bytes ⟦<C as Keys>⟧.scheme) info.now) out.old }
    ensures end { result ≡ at + length ((info_bytes ⟦<C as Keys>⟧.scheme) info.now) }
{
    let ingress = info.ingress.encoded();
    let timestamp_at = put(out, at, ingress.as_slice());
    let key_at = put_varint(out, timestamp_at, info.timestamp);
    let signature_at = put_fixed(out, key_at, &info.public_key);
    put_fixed(out, signature_at, &info.signature)
}

// Writes the varint of a number of an answer from a position on, and returns the position after it.
fn put_varint(out: &mut [u8], at: usize, number: u64) -> usize
    requires { (most : ℕ) × (0 < most) × (number < 128 ^ most)
        × (at + length (groups most number) ≤ length out.old) }
    ensures { (most : ℕ) → 0 < most → number < 128 ^ most
        → (out.new ≡ put_at at (groups most number) out.old)
        × (result ≡ at + length (groups most number)) }
{
    if number < 128 {
        return put(out, at, &[number as u8]);
    }
    let next = put(out, at, &[(number % 128) as u8 + 128]);
    put_varint(out, next, number / 128)
}

// Writes into an answer what is to be verified of the infos, from a position on, and returns the
// position after it.
fn put_asked<C: PublicKey>(out: &mut [u8], start: usize, infos: &[Info<C>]) -> usize
    requires { start + length (flat_map (asked_bytes ⟦<C as Keys>⟧.scheme) infos.now) ≤ length
        out.old }
    ensures bytes { out.new ≡ put_at start (flat_map (asked_bytes ⟦<C as Keys>⟧.scheme) infos.now)
        out.old }
    ensures end { result ≡ start + length (flat_map (asked_bytes ⟦<C as Keys>⟧.scheme) infos.now) }
{
    let mut at = start;
    for info in infos {
        at = put_question(out, at, info);
    }
    at
}

// Writes into an answer what is to be verified of the info, from a position on, and returns the
// position after it.
fn put_question<C: PublicKey>(out: &mut [u8], at: usize, info: &Info<C>) -> usize
    requires { at + length ((asked_bytes ⟦<C as Keys>⟧.scheme) info.now) ≤ length out.old }
    ensures bytes { out.new ≡ put_at at ((asked_bytes ⟦<C as Keys>⟧.scheme) info.now) out.old }
    ensures end { result ≡ at + length ((asked_bytes ⟦<C as Keys>⟧.scheme) info.now) }
{
    let signed = info.signed();
    let signed = signed.as_slice();
    let key_at = put(out, at, &(signed.len() as u64).to_be_bytes());
    let signed_at = put_fixed(out, key_at, &info.public_key);
    let signature_at = put(out, signed_at, signed);
    put_fixed(out, signature_at, &info.signature)
}

// Writes bytes of an answer from a position on, and returns the position after them.
fn put(out: &mut [u8], at: usize, bytes: &[u8]) -> usize
    requires { at + length bytes.now ≤ length out.old }
    ensures bytes { out.new ≡ put_at at bytes.now out.old }
    ensures end { result ≡ at + length bytes.now }
{
    let end = at + bytes.len();
    out[at..end].copy_from_slice(bytes);
    end
}
