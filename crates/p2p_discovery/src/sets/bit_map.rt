//! Bools, packed eight to a byte.

ghost use Rattle.std.specs.Prelude.{◌≡◌, ◌↔◌, ℕ, ◌<◌, List, false, true, length, replicate, IfOk};
ghost use Rattle.std.specs.Prelude.{IsTrue, slice_get, Some};
ghost use Rattle.std.specs.List.{slice_set};
ghost use Rattle.std.specs.Bool.{beq};
ghost use Rattle.std.specs.Cmp.Lexicographic.{pointwise};
ghost use Rattle.std.specs.Cmp.Rules.{comparing};
ghost use Rattle.std.proofs.Common.{rules};
ghost use Rattle.p2p_discovery.specs.Reading.{Gives};
ghost use Rattle.p2p_discovery.specs.Bits.{byte_count, packed, padding_of};
ghost use Rattle.p2p_discovery.specs.BitVec.{unpacked};

use crate::codec::{CodecError, What, are_bytes};
use std::alloc::{AllocError, Global};
use std::marker::Model;

/// A sequence of bools. A contract sees the list of them.
///
/// They are stored as they are encoded: value i as a bit of byte `i / 8`, at position `i mod 8`
/// counted from the least significant. A set bit is `true`.
///
/// # Cost
///
/// Whatever allocates takes a byte for each eight values, and time linear in these bytes.
#[derive(Debug, Drop)]
pub struct BitMap {
    bytes: Vec<u8>,
    len: u64,
}

impl Model for BitMap {
    ghost use Rattle.std.specs.Prelude.{List, Bool};
    ghost use Rattle.p2p_discovery.specs.Bits.{bits_in, IsPacked};

    ghost Value = { List Bool };

    ghost view = { λ m. bits_in m.bytes.items m.len };

    ghost invariant = { λ m. IsPacked m.len m.bytes.items };
}

impl BitMap {
    /// A bit map of so many values, all of them `false`.
    ///
    /// # Errors
    ///
    /// `AllocError` if allocation fails.
    pub fn zeroes(alloc: Global, n: u64) -> Result<BitMap, AllocError>
        ensures { IfOk result (λ bits. bits ≡ replicate n false) }
    {
        let bytes = vec![in alloc; 0u8; bytes_for(n)]?;
        Ok(BitMap { bytes, len: n })
    }

    /// A bit map of so many values, all of them `true`.
    ///
    /// # Errors
    ///
    /// `AllocError` if allocation fails.
    pub fn ones(alloc: Global, n: u64) -> Result<BitMap, AllocError>
        ensures { IfOk result (λ bits. bits ≡ replicate n true) }
    {
        let mut bytes = vec![in alloc; 0xffu8; bytes_for(n)]?;
        if n % 8 == 0 {
            return Ok(BitMap { bytes, len: n });
        }
        bytes[(n / 8) as usize] = (1 << (n % 8)) - 1;
        Ok(BitMap { bytes, len: n })
    }

    /// A bit map of these values, in their order.
    ///
    /// # Errors
    ///
    /// `AllocError` if allocation fails.
    ///
    /// # Cost
    ///
    /// One pass over the values.
    pub fn from_bools(alloc: Global, values: &[bool]) -> Result<BitMap, AllocError>
        ensures { IfOk result (λ bits. bits ≡ values.now) }
    {
        let mut bits = BitMap::zeroes(alloc, values.len() as u64)?;
        for place in 0..values.len() {
            bits.set(place as u64, values[place]);
        }
        Ok(bits)
    }

    /// The number of values of the bit map.
    pub fn len(&self) -> u64
        ensures { result ≡ length self.now }
    {
        self.len
    }

    /// The value of the bit map at a position, counted from 0. It doesn't allocate.
    ///
    /// # Conditions
    ///
    /// The position is in range.
    pub fn get(&self, place: u64) -> bool
        requires { place < length self.now }
        ensures { slice_get self.now place ≡ Some result }
    {
        (self.bytes[(place / 8) as usize] >> (place % 8)) & 1 == 1
    }

    /// Sets the value of the bit map at a position, counted from 0; the others are unchanged. It
    /// doesn't allocate.
    ///
    /// # Conditions
    ///
    /// The position is in range.
    pub fn set(&mut self, place: u64, value: bool)
        requires { place < length self.old }
        ensures { self.new ≡ slice_set self.old place value }
    {
        let mask = 1u8 << (place % 8);
        let at = (place / 8) as usize;
        if value {
            self.bytes[at] |= mask;
        } else {
            self.bytes[at] &= !mask;
        }
    }

    /// An equal bit map.
    ///
    /// # Errors
    ///
    /// `AllocError` if allocation fails.
    pub fn clone(&self) -> Result<BitMap, AllocError>
        ensures { IfOk result (λ copy. copy ≡ self.now) }
    {
        Ok(BitMap {
            bytes: self.bytes.clone()?,
            len: self.len,
        })
    }

    // The bytes that encode the values of the bit map.
    pub(crate) fn as_bytes(&self) -> &[u8]
        ensures { result.now ≡ packed self.now }
    {
        are_bytes(&self.bytes);
        &self.bytes
    }

    // A bit map of the first n values that the bytes hold, as many bytes as n need. Padding is
    // checked first.
    pub(crate) fn from_bytes(alloc: Global, bytes: &[u8], n: u64) -> Result<BitMap, CodecError>
        requires { length bytes.now ≡ byte_count n }
        ensures { (rest : List ℕ) → Gives result rest (unpacked n bytes.now rest) }
    {
        if padding_in(bytes, n) != 0 {
            return Err(CodecError::Invalid(What::Padding));
        }
        let mut stored = Vec::with_capacity(alloc, bytes.len())?;
        stored.extend_from_slice(bytes)?;
        Ok(BitMap {
            bytes: stored,
            len: n,
        })
    }
}

// How many bytes hold a bit map of so many bits.
pub(crate) fn bytes_for(n: u64) -> usize
    ensures { result ≡ byte_count n }
{
    n.div_ceil(8) as usize
}

// What is behind the first n bits of a bit map in the byte of the last of them.
fn padding_in(bytes: &[u8], n: u64) -> u8
    ensures { result ≡ padding_of n bytes.now }
{
    match bytes.get((n / 8) as usize) {
        Some(byte) => byte >> (n % 8),
        None => 0,
    }
}

impl PartialEq for BitMap {
    ghost eq = { pointwise beq };

    ghost laws = { Prim.search (comparing, rules) };

    fn eq(&self, other: &BitMap) -> bool
        ensures same { result ≡ pointwise beq self.now other.now }
        ensures exact { IsTrue result ↔ self.now ≡ other.now }
    {
        are_bytes(&self.bytes);
        are_bytes(&other.bytes);
        self.len == other.len && self.bytes == other.bytes
    }
}

impl Eq for BitMap {
    ghost laws = { Prim.search (comparing, rules) };
}
