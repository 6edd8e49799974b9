//! What a user provides: a key of 32 bytes and a signature of 64, as newtypes over arrays.
//!
//! The laws are those of `specs/Laws/Arrays`. The predicate is a toy: a signature is valid if it
//! begins with the key. A real one calls the user's signature scheme instead.

ghost use Rattle.std.specs.Prelude.{◌==◌, take, refl, Some};
ghost use Rattle.std.proofs.Common.{lit≤};
ghost use Rattle.std.specs.Cmp.Lexicographic.{pointwise};
ghost use Rattle.p2p_discovery.specs.Arrays.{array_spelling};
ghost use Rattle.p2p_discovery.specs.Laws.Arrays.{fixed_array, one_array, exact_array};
ghost use Rattle.p2p_discovery.specs.Fields.{IsSized};

use p2p_discovery::codec::{FixedBytes, PublicKey, read_array, write_array};

/// A key of 32 bytes, ordered by its bytes.
#[derive(Clone, Copy, Debug, PartialEq, Eq, PartialOrd, Ord)]
pub(crate) struct ArrayKey(pub(crate) [u8; 32]);

/// A signature of 64 bytes.
#[derive(Clone, Copy, Debug, PartialEq, Eq)]
pub(crate) struct ArraySignature(pub(crate) [u8; 64]);

impl FixedBytes for ArrayKey {
    ghost SIZE = { 32 };

    const SIZE: usize = 32;

    ghost IsValue = { λ key. IsSized 32 key.0 };

    ghost spelled = { λ key. array_spelling 32 key.0 };

    ghost value = { λ bytes. Some (record { 0 = bytes }) };

    fn write_fixed(&self, out: &mut [u8]) {
        write_array(&self.0, out);
    }

    fn read_fixed(bytes: &[u8]) -> Option<ArrayKey> {
        Some(ArrayKey(read_array(bytes)))
    }

    ghost fixed = { fixed_array (λ bytes. record { 0 = bytes }) (λ key. key.0)
        (λ _. refl) (λ _. refl) 32 (lit≤ tt) };

    ghost one_value = { one_array (λ bytes. record { 0 = bytes }) (λ key. key.0)
        (λ _. refl) (λ _. refl) };
}

impl FixedBytes for ArraySignature {
    ghost SIZE = { 64 };

    const SIZE: usize = 64;

    ghost IsValue = { λ signature. IsSized 64 signature.0 };

    ghost spelled = { λ signature. array_spelling 64 signature.0 };

    ghost value = { λ bytes. Some (record { 0 = bytes }) };

    fn write_fixed(&self, out: &mut [u8]) {
        write_array(&self.0, out);
    }

    fn read_fixed(bytes: &[u8]) -> Option<ArraySignature> {
        Some(ArraySignature(read_array(bytes)))
    }

    ghost fixed = { fixed_array (λ bytes. record { 0 = bytes }) (λ signature. signature.0)
        (λ _. refl) (λ _. refl) 64 (lit≤ tt) };

    ghost one_value = { one_array (λ bytes. record { 0 = bytes }) (λ signature. signature.0)
        (λ _. refl) (λ _. refl) };
}

impl PublicKey for ArrayKey {
    type Signature = ArraySignature;

    ghost verifies = { λ key _ _ signature. pointwise ◌==◌ (take 32 signature.0) key.0 };

    fn verify(&self, _namespace: &[u8], _message: &[u8], signature: &ArraySignature) -> bool {
        signature.0[..32] == self.0[..]
    }

    ghost exact = { exact_array (λ bytes. record { 0 = bytes }) (λ key. key.0)
        (λ _. refl) (λ _. refl) };
}
