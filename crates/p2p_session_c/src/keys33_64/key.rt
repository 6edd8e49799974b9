//! Keys of 33 bytes, of which the first is 2 or 3, and signatures of 64. Written by tools/exports.sh from
//! tools/exports/session.table.

ghost use Rattle.std.specs.Prelude.{[], ◌∷◌, refl, false, Some};
ghost use Rattle.std.proofs.Common.{lit≤};
ghost use Rattle.p2p_discovery.specs.Arrays.{array_spelling};
ghost use Rattle.p2p_discovery.specs.Laws.Arrays.{fixed_array, one_array, exact_array};
ghost use Rattle.p2p_discovery.specs.Fields.{IsSized};
ghost use Rattle.p2p_session.specs.Firsts.{IsBegun, begun, fixed_begun};

use p2p_discovery::codec::{FixedBytes, PublicKey, read_array, write_array};
use p2p_session::key::compare_prefixed;
use std::cmp::Ordering;
use std::marker::Model;

/// A key: its bytes, by which it is ordered. Contracts see the list of them.
#[derive(Clone, Copy, PartialEq, Eq, PartialOrd)]
pub struct Key([u8; 33]);

impl Model for Key {
    ghost use Rattle.std.specs.Prelude.{◌≡◌, ℕ, List, [], ◌∷◌, true};
    ghost use Rattle.p2p_session.specs.Firsts.{begins};

    ghost Value = { List ℕ };

    ghost view = { λ k. k.0 };

    ghost inverse = { λ b. record { 0 = b } };

    ghost invariant = { λ k. begins (2 ∷ 3 ∷ []) k.0 ≡ true };
}

impl Ord for Key {
    ghost use Rattle.std.proofs.Common.{rules, refl};
    ghost use Rattle.std.specs.Cmp.Rules.{comparing};
    ghost use Rattle.std.specs.Cmp.Lexicographic.{slice_cmp, lists_agrees};
    ghost use Rattle.std.specs.Ordering.{nat_cmp};

    ghost cmp = { slice_cmp nat_cmp };

    ghost total = { Prim.search (comparing, rules) };

    ghost matches_partial_cmp = { λ x y. lists_agrees (λ a b. refl) x y };

    ghost matches_eq = { Prim.search (comparing, rules) };

    #[inline(always)]
    fn cmp(&self, other: &Key) -> Ordering {
        compare_prefixed::<33, 32>(&self.0, &other.0)
    }
}

/// A signature: its bytes.
#[derive(Clone, Copy, PartialEq, Eq)]
pub struct Signature(pub [u8; 64]);

impl FixedBytes for Key {
    ghost SIZE = { 33 };

    const SIZE: usize = 33;

    ghost IsValue = { IsBegun (2 ∷ 3 ∷ []) 33 };

    ghost spelled = { array_spelling 33 };

    ghost value = { begun (2 ∷ 3 ∷ []) };

    fn write_fixed(&self, out: &mut [u8]) {
        write_array(&self.0, out);
    }

    fn read_fixed(bytes: &[u8]) -> Option<Key> {
        if bytes[0] != 2 && bytes[0] != 3 {
            return None;
        }
        Some(Key(read_array(bytes)))
    }

    ghost fixed = { fixed_begun (2 ∷ 3 ∷ []) 33 (lit≤ tt) };

    ghost one_value = { one_array (λ b. b) (λ b. b) (λ _. refl) (λ _. refl) };
}

impl FixedBytes for Signature {
    ghost SIZE = { 64 };

    const SIZE: usize = 64;

    ghost IsValue = { λ signature. IsSized 64 signature.0 };

    ghost spelled = { λ signature. array_spelling 64 signature.0 };

    ghost value = { λ bytes. Some (record { 0 = bytes }) };

    fn write_fixed(&self, out: &mut [u8]) {
        write_array(&self.0, out);
    }

    fn read_fixed(bytes: &[u8]) -> Option<Signature> {
        Some(Signature(read_array(bytes)))
    }

    ghost fixed = { fixed_array (λ bytes. record { 0 = bytes }) (λ signature. signature.0)
        (λ _. refl) (λ _. refl) 64 (lit≤ tt) };

    ghost one_value = { one_array (λ bytes. record { 0 = bytes }) (λ signature. signature.0)
        (λ _. refl) (λ _. refl) };
}

impl PublicKey for Key {
    type Signature = Signature;

    ghost verifies = { λ _ _ _ _. false };

    // No session asks: the host verifies signatures.
    fn verify(&self, _namespace: &[u8], _message: &[u8], _signature: &Signature) -> bool {
        false
    }

    ghost exact = { exact_array (λ b. b) (λ b. b) (λ _. refl) (λ _. refl) };
}
