//! A key and a signature of one byte each, below 128. Other bytes are not valid encodings.

ghost use Rattle.std.specs.Prelude.{◌≡◌, ◌<◌, ◌==◌, [], ◌∷◌};
ghost use Rattle.std.proofs.Common.{lit≤};
ghost use Rattle.std.proofs.lemmas.Bool.{eqb-true};
ghost use Rattle.std.proofs.lemmas.Map.Lookups.{exact_unsigned};
ghost use Rattle.p2p_discovery.specs.Arrays.{number_below};
ghost use Rattle.p2p_discovery.specs.Laws.Arrays.{fixed_below};

use p2p_discovery::codec::{FixedBytes, PublicKey};
use std::marker::Model;

/// A number below 128, as a key and as a signature. Contracts see the number.
#[derive(Clone, Copy, Debug, PartialEq, Eq, PartialOrd, Ord)]
pub(crate) struct Small {
    number: u8,
}

impl Model for Small {
    ghost use Rattle.std.specs.Prelude.{ℕ, ◌<◌};

    ghost Value = { ℕ };

    ghost view = { λ small. small.number };

    ghost invariant = { λ small. small.number < 128 };

    ghost inverse = { λ number. record { number = number } };
}

impl Small {
    pub(crate) fn new(number: u8) -> Small
        requires { number < 128 }
        ensures { result ≡ number }
    {
        Small { number }
    }
}

impl FixedBytes for Small {
    ghost SIZE = { 1 };

    const SIZE: usize = 1;

    ghost IsValue = { λ small. small < 128 };

    ghost spelled = { λ small. small ∷ [] };

    ghost value = { number_below 128 };

    fn write_fixed(&self, out: &mut [u8]) {
        out[0] = self.number;
    }

    fn read_fixed(bytes: &[u8]) -> Option<Small> {
        match bytes {
            [number] if *number < 128 => Some(Small { number: *number }),
            _ => None,
        }
    }

    ghost fixed = { fixed_below 128 (lit≤ tt) };

    ghost one_value = { eqb-true };
}

impl PublicKey for Small {
    type Signature = Small;

    ghost verifies = { λ key _ _ signature. key == signature };

    fn verify(&self, _namespace: &[u8], _message: &[u8], signature: &Small) -> bool {
        self.number == signature.number
    }

    ghost exact = { exact_unsigned };
}
