//! Keys of 96 bytes and signatures of 48. Written by tools/exports.sh from
//! tools/exports/session.table.

ghost use Rattle.std.specs.Prelude.{refl, false, Some};
ghost use Rattle.std.proofs.Common.{lit≤};
ghost use Rattle.p2p_discovery.specs.Arrays.{array_spelling};
ghost use Rattle.p2p_discovery.specs.Laws.Arrays.{fixed_array, one_array, exact_array};
ghost use Rattle.p2p_discovery.specs.Fields.{IsSized};

use p2p_discovery::codec::{FixedBytes, PublicKey, read_array, write_array};
use p2p_session::key::compare;
use std::cmp::Ordering;

/// A key: its bytes, by which it is ordered.
#[derive(Clone, Copy, PartialEq, Eq, PartialOrd)]
pub struct Key(pub [u8; 96]);

impl Ord for Key {
    ghost use Rattle.std.proofs.Common.{rules};
    ghost use Rattle.std.specs.Cmp.Rules.{comparing};
    ghost use Rattle.std.specs.Cmp.Lexicographic.{slice_cmp, lists_agrees};
    ghost use Rattle.std.specs.Ordering.{nat_cmp, on};

    ghost cmp = { on (λ key. key.0) (slice_cmp nat_cmp) };

    ghost total = { Prim.search (comparing, rules) };

    ghost matches_partial_cmp = { λ x y. lists_agrees (λ a b. refl) x.0 y.0 };

    ghost matches_eq = { Prim.search (comparing, rules) };

    #[inline(always)]
    fn cmp(&self, other: &Key) -> Ordering {
        compare(&self.0, &other.0)
    }
}

/// A signature: its bytes.
#[derive(Clone, Copy, PartialEq, Eq)]
pub struct Signature(pub [u8; 48]);

impl FixedBytes for Key {
    ghost SIZE = { 96 };

    const SIZE: usize = 96;

    ghost IsValue = { λ key. IsSized 96 key.0 };

    ghost spelled = { λ key. array_spelling 96 key.0 };

    ghost value = { λ bytes. Some (record { 0 = bytes }) };

    fn write_fixed(&self, out: &mut [u8]) {
        write_array(&self.0, out);
    }

    fn read_fixed(bytes: &[u8]) -> Option<Key> {
        Some(Key(read_array(bytes)))
    }

    ghost fixed = { fixed_array (λ bytes. record { 0 = bytes }) (λ key. key.0)
        (λ _. refl) (λ _. refl) 96 (lit≤ tt) };

    ghost one_value = { one_array (λ bytes. record { 0 = bytes }) (λ key. key.0)
        (λ _. refl) (λ _. refl) };
}

impl FixedBytes for Signature {
    ghost SIZE = { 48 };

    const SIZE: usize = 48;

    ghost IsValue = { λ signature. IsSized 48 signature.0 };

    ghost spelled = { λ signature. array_spelling 48 signature.0 };

    ghost value = { λ bytes. Some (record { 0 = bytes }) };

    fn write_fixed(&self, out: &mut [u8]) {
        write_array(&self.0, out);
    }

    fn read_fixed(bytes: &[u8]) -> Option<Signature> {
        Some(Signature(read_array(bytes)))
    }

    ghost fixed = { fixed_array (λ bytes. record { 0 = bytes }) (λ signature. signature.0)
        (λ _. refl) (λ _. refl) 48 (lit≤ tt) };

    ghost one_value = { one_array (λ bytes. record { 0 = bytes }) (λ signature. signature.0)
        (λ _. refl) (λ _. refl) };
}

impl PublicKey for Key {
    type Signature = Signature;

    ghost verifies = { λ _ _ _ _. false };

    // No session asks: the host verifies signatures.
    fn verify(&self, _namespace: &[u8], _message: &[u8], _signature: &Signature) -> bool {
        false
    }

    ghost exact = { exact_array (λ bytes. record { 0 = bytes }) (λ key. key.0)
        (λ _. refl) (λ _. refl) };
}
