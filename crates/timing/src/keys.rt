//! The keys that calls are timed with: of 32 bytes, with a signature of 64.

ghost use Rattle.std.specs.Prelude.{◌≡◌, ◌==◌, take, refl, Some, IfOk, length};
ghost use Rattle.std.proofs.Common.{lit≤};
ghost use Rattle.std.specs.Cmp.Lexicographic.{pointwise};
ghost use Rattle.p2p_discovery.specs.Arrays.{array_spelling};
ghost use Rattle.p2p_discovery.specs.Laws.Arrays.{fixed_array, one_array, exact_array};
ghost use Rattle.p2p_discovery.specs.Fields.{IsSized};

use p2p_discovery::codec::{FixedBytes, PublicKey, read_array, write_array};
use p2p_session::key::compare;
use std::alloc::{AllocError, Global};
use std::cmp::Ordering;

/// A key of 32 bytes: those of its number, and zeros.
#[derive(Clone, Copy, PartialEq, Eq, PartialOrd)]
pub(crate) struct Key32([u8; 32]);

impl Ord for Key32 {
    ghost use Rattle.std.proofs.Common.{rules};
    ghost use Rattle.std.specs.Cmp.Rules.{comparing};
    ghost use Rattle.std.specs.Cmp.Lexicographic.{slice_cmp, lists_agrees};
    ghost use Rattle.std.specs.Ordering.{nat_cmp, on};

    ghost cmp = { on (λ key. key.0) (slice_cmp nat_cmp) };

    ghost total = { Prim.search (comparing, rules) };

    ghost matches_partial_cmp = { λ x y. lists_agrees (λ a b. refl) x.0 y.0 };

    ghost matches_eq = { Prim.search (comparing, rules) };

    #[inline(always)]
    fn cmp(&self, other: &Key32) -> Ordering {
        compare(&self.0, &other.0)
    }
}

/// A signature of 64 bytes. It is valid if it begins with the key.
#[derive(Clone, Copy, PartialEq, Eq)]
pub(crate) struct Signature64([u8; 64]);

impl FixedBytes for Key32 {
    ghost SIZE = { 32 };

    const SIZE: usize = 32;

    ghost IsValue = { λ key. IsSized 32 key.0 };

    ghost spelled = { λ key. array_spelling 32 key.0 };

    ghost value = { λ bytes. Some (record { 0 = bytes }) };

    fn write_fixed(&self, out: &mut [u8]) {
        write_array(&self.0, out);
    }

    fn read_fixed(bytes: &[u8]) -> Option<Key32> {
        Some(Key32(read_array(bytes)))
    }

    ghost fixed = { fixed_array (λ bytes. record { 0 = bytes }) (λ key. key.0)
        (λ _. refl) (λ _. refl) 32 (lit≤ tt) };

    ghost one_value = { one_array (λ bytes. record { 0 = bytes }) (λ key. key.0)
        (λ _. refl) (λ _. refl) };
}

impl FixedBytes for Signature64 {
    ghost SIZE = { 64 };

    const SIZE: usize = 64;

    ghost IsValue = { λ signature. IsSized 64 signature.0 };

    ghost spelled = { λ signature. array_spelling 64 signature.0 };

    ghost value = { λ bytes. Some (record { 0 = bytes }) };

    fn write_fixed(&self, out: &mut [u8]) {
        write_array(&self.0, out);
    }

    fn read_fixed(bytes: &[u8]) -> Option<Signature64> {
        Some(Signature64(read_array(bytes)))
    }

    ghost fixed = { fixed_array (λ bytes. record { 0 = bytes }) (λ signature. signature.0)
        (λ _. refl) (λ _. refl) 64 (lit≤ tt) };

    ghost one_value = { one_array (λ bytes. record { 0 = bytes }) (λ signature. signature.0)
        (λ _. refl) (λ _. refl) };
}

impl PublicKey for Key32 {
    type Signature = Signature64;

    ghost verifies = { λ key _ _ signature. pointwise ◌==◌ (take 32 signature.0) key.0 };

    fn verify(&self, _namespace: &[u8], _message: &[u8], signature: &Signature64) -> bool {
        signature.0[..32] == self.0[..]
    }

    ghost exact = { exact_array (λ bytes. record { 0 = bytes }) (λ key. key.0)
        (λ _. refl) (λ _. refl) };
}

impl Key32 {
    /// The key for timing that has a number.
    pub(crate) fn numbered(number: u64) -> Key32 {
        let mut bytes = [0; 32];
        bytes[..8].copy_from_slice(&number.to_be_bytes());
        Key32(bytes)
    }

    /// The last byte of the number of a key for timing.
    pub(crate) fn last_byte(&self) -> u8 {
        self.0[7]
    }

    /// The signature of this key for timing.
    pub(crate) fn sign(&self) -> Signature64 {
        let mut bytes = [0; 64];
        bytes[..32].copy_from_slice(&self.0);
        Signature64(bytes)
    }
}

// A number for a key for timing whose bits depend on all bits of another.
fn mixed(number: u64) -> u64 {
    let z = number
        .wrapping_add(1)
        .wrapping_mul(0x9e37_79b9_7f4a_7c15)
        .wrapping_add(7);
    let z = (z ^ (z >> 30)).wrapping_mul(0xbf58_476d_1ce4_e5b9);
    let z = (z ^ (z >> 27)).wrapping_mul(0x94d0_49bb_1331_11eb);
    z ^ (z >> 31)
}

/// As many keys for timing, in no order.
pub(crate) fn keys(alloc: Global, count: usize) -> Result<Vec<Key32>, AllocError>
    ensures { IfOk result (λ keys. length keys.items ≡ count) }
{
    let mut keys = Vec::with_capacity(alloc, count)?;
    for place in 0..count {
        keys.push(Key32::numbered(mixed(place as u64)))?;
    }
    Ok(keys)
}
