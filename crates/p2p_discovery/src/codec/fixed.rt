//! Values of a fixed number of bytes, and public keys.

ghost use Rattle.std.specs.Prelude.{◌≡◌, ℕ, ◌+◌, ◌≤◌, Bool, List, ◌++◌, Option, length, true};
ghost use Rattle.std.specs.declared.cmp.Ordering.TheVariants.{Equal};
ghost use Rattle.p2p_discovery.specs.Arrays.{array_spelling};
ghost use Rattle.p2p_discovery.specs.Fields.{IsSized};
ghost use Rattle.p2p_discovery.specs.Fixed.{IsFixed};

use crate::codec::are_bytes;
use bytes::BytesMut;

/// A value that is encoded in a fixed number of bytes.
///
/// Laws: `SIZE` is at most 65535. Equal values are one value. What was written decodes to that
/// value, and bytes that are decoded are those that the value writes. For a newtype over an array
/// of bytes, `specs/Laws/Arrays` has all of them, in addition to [`write_array`] and [`read_array`].
/// `array_keys.rt` of `p2p_discovery_tests` has a worked example: a key of 32 bytes with a
/// signature of 64.
pub trait FixedBytes: Copy + Eq {
    ghost SIZE: { ℕ };

    /// How many bytes encode a value.
    const SIZE: usize;

    // Holds of each value of the type.
    ghost IsValue: { Self → Type 0 };

    // The bytes of a value, and the value that bytes encode.
    ghost spelled: { Self → List ℕ };

    ghost value: { List ℕ → Option Self };

    /// Writes the fixed number of bytes of the value over `out`.
    ///
    /// # Conditions
    ///
    /// `out` has `SIZE` bytes.
    fn write_fixed(&self, out: &mut [u8])
        requires { length out.old ≡ SIZE }
        ensures bytes { out.new ≡ spelled self.now }
        ensures value { IsValue self.now };

    /// The value that the fixed number of bytes encode, or `None` if they encode none.
    ///
    /// # Conditions
    ///
    /// There are `SIZE` bytes.
    fn read_fixed(bytes: &[u8]) -> Option<Self>
        requires { length bytes.now ≡ SIZE }
        ensures { result ≡ value bytes.now };

    // Laws: of the encoding, and that equal values are one value.
    ghost fixed: { IsFixed SIZE spelled value IsValue };

    ghost one_value: { (x y : Self) → Self.eq x y ≡ true → x ≡ y };
}

/// The public key of a peer.
///
/// Laws: the order is total and agrees with equality; keys that compare as equal are one key;
/// `verify` returns a fixed predicate. `array_keys.rt` of `p2p_discovery_tests` has a worked
/// example of what a user implements.
pub trait PublicKey: FixedBytes + Ord {
    /// The signatures that [`PublicKey::verify`] verifies.
    type Signature: FixedBytes;

    // Whether a signature is valid, as a fixed predicate of the key, the namespace and the message.
    ghost verifies: { Self → List ℕ → List ℕ → Self.Signature → Bool };

    /// Whether the signature, of a fixed number of bytes, is one of this key over the namespace and
    /// the message.
    fn verify(&self, namespace: &[u8], message: &[u8], signature: &Self::Signature) -> bool
        ensures { result ≡ verifies self.now namespace.now message.now signature.now };

    // Law: keys that compare as equal are one key.
    ghost exact: { (x y : Self) → Self.cmp x y ≡ Equal → x ≡ y };
}

/// Writes an array over `out`, for keys and signatures that are arrays of a fixed number of bytes.
///
/// # Conditions
///
/// `out` has as many bytes.
pub fn write_array<const N: usize>(bytes: &[u8; N], out: &mut [u8])
    requires { length out.old ≡ N }
    ensures bytes { out.new ≡ array_spelling N bytes.now }
    ensures value { IsSized N bytes.now }
{
    are_bytes(bytes);
    out.copy_from_slice(bytes);
}

/// The array of these bytes, for keys and signatures that are arrays of a fixed number of bytes.
///
/// # Conditions
///
/// There are as many bytes.
pub fn read_array<const N: usize>(bytes: &[u8]) -> [u8; N]
    requires { length bytes.now ≡ N }
    ensures { result ≡ bytes.now }
{
    match <[u8; N]>::try_from(bytes) {
        Ok(array) => array,
        Err(_) => unreachable!(),
    }
}

// Appends the fixed number of bytes of a value.
pub(crate) fn write_value<K: FixedBytes>(value: &K, buf: &mut BytesMut)
    requires { K.SIZE ≤ buf.old.spare }
    ensures items { buf.new.items ≡ buf.old.items ++ K.spelled value.now }
    ensures spare { buf.new.spare + K.SIZE ≡ buf.old.spare }
    ensures value { K.IsValue value.now }
{
    let at = buf.len();
    buf.advance_mut(K::SIZE);
    value.write_fixed(&mut buf.as_mut_slice()[at..]);
}
