//! Keys and signatures without any security, for tests and for the program `play`.

ghost use Rattle.std.specs.Prelude.{◌≡◌, ◌==◌, ◌<◌, ◌^◌, Some};
ghost use Rattle.std.specs.Int.{w64, to_be_bytes, from_be_bytes};
ghost use Rattle.p2p_discovery.specs.Laws.Keys.{one_key, one_signature, exact_key, fixed_key};
ghost use Rattle.p2p_discovery.specs.Laws.Keys.{fixed_signature};
ghost use Rattle.p2p_discovery.specs.TestSignatures.{signature_of, mix_of, next_of};

use crate::codec::{FixedBytes, PublicKey};

/// A key without security. It is encoded as the eight bytes of its number, big-endian, and ordered
/// by its number.
#[derive(Clone, Copy, Debug, PartialEq, Eq, PartialOrd, Ord)]
pub struct TestKey(pub u64);

/// A signature without security, encoded as a [`TestKey`].
#[derive(Clone, Copy, Debug, PartialEq, Eq)]
pub struct TestSignature(pub u64);

impl FixedBytes for TestKey {
    ghost SIZE = { 8 };

    const SIZE: usize = 8;

    ghost IsValue = { λ key. key.0 < 2 ^ 64 };

    ghost spelled = { λ key. to_be_bytes w64 key.0 };

    ghost value = { λ bytes. Some (record { 0 = from_be_bytes w64 bytes }) };

    fn write_fixed(&self, out: &mut [u8]) {
        out.copy_from_slice(&self.0.to_be_bytes());
    }

    fn read_fixed(bytes: &[u8]) -> Option<TestKey> {
        Some(TestKey(u64::from_be_bytes([
            bytes[0], bytes[1], bytes[2], bytes[3], bytes[4], bytes[5], bytes[6], bytes[7],
        ])))
    }

    ghost fixed = { fixed_key };

    ghost one_value = { one_key };
}

impl FixedBytes for TestSignature {
    ghost SIZE = { 8 };

    const SIZE: usize = 8;

    ghost IsValue = { λ signature. signature.0 < 2 ^ 64 };

    ghost spelled = { λ signature. to_be_bytes w64 signature.0 };

    ghost value = { λ bytes. Some (record { 0 = from_be_bytes w64 bytes }) };

    fn write_fixed(&self, out: &mut [u8]) {
        out.copy_from_slice(&self.0.to_be_bytes());
    }

    fn read_fixed(bytes: &[u8]) -> Option<TestSignature> {
        Some(TestSignature(u64::from_be_bytes([
            bytes[0], bytes[1], bytes[2], bytes[3], bytes[4], bytes[5], bytes[6], bytes[7],
        ])))
    }

    ghost fixed = { fixed_signature };

    ghost one_value = { one_signature };
}

impl TestKey {
    /// The signature of this test key over the namespace and the message. It is computed from the
    /// bytes of both, one after the other, and the key's number. It doesn't allocate.
    ///
    /// # Cost
    ///
    /// One pass over both.
    pub fn sign(&self, namespace: &[u8], message: &[u8]) -> TestSignature
        ensures { result ≡ record { 0 = signature_of self.now.0 namespace.now message.now } }
    {
        TestSignature(mixed(mixed(self.0, namespace), message))
    }
}

impl PublicKey for TestKey {
    type Signature = TestSignature;

    ghost verifies = { λ key namespace message signature.
        signature_of key.0 namespace message == signature.0 };

    fn verify(&self, namespace: &[u8], message: &[u8], signature: &TestSignature) -> bool {
        self.sign(namespace, message) == *signature
    }

    ghost exact = { exact_key };
}

fn mixed(start: u64, bytes: &[u8]) -> u64
    ensures { result ≡ mix_of start bytes.now }
{
    bytes
        .iter()
        .fold(start, |number, byte| next_number(number, *byte))
}

fn next_number(number: u64, byte: u8) -> u64
    ensures { result ≡ next_of number byte }
{
    let sum = number as u128 * 257 + byte as u128 + 1;
    (sum % (1 << 64)) as u64
}
