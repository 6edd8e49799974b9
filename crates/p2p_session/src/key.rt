//! Keys and signatures, as bytes.

ghost use Rattle.std.specs.Prelude.{◌≡◌, ◌≤◌, ◌+◌, refl, false, Some, length, drop};
ghost use Rattle.std.specs.Int.{w32, from_be_bytes};
ghost use Rattle.std.specs.Cmp.Lexicographic.{slice_cmp};
ghost use Rattle.std.specs.Ordering.{nat_cmp};
ghost use Rattle.std.proofs.Common.{lit≤};
ghost use Rattle.p2p_discovery.specs.Arrays.{array_spelling};
ghost use Rattle.p2p_discovery.specs.Laws.Arrays.{fixed_array, one_array, exact_array};
ghost use Rattle.p2p_discovery.specs.Fields.{IsSized};
ghost use Rattle.p2p_discovery.specs.Reading.{IsBytes};

use crate::given::are_bytes;
use p2p_discovery::codec::{FixedBytes, PublicKey, read_array, write_array};
use std::cmp::Ordering;

/// How many bytes a [`Key`] has. Keys of other sizes are types of `p2p_session_c`.
pub const KEY_SIZE: usize = 32;

/// How many bytes a [`Signature`] has. Signatures of other sizes are types of `p2p_session_c`.
pub const SIGNATURE_SIZE: usize = 64;

/// A key: its bytes, by which it is ordered.
#[derive(Clone, Copy, Debug, PartialEq, Eq, PartialOrd)]
pub struct Key(pub [u8; KEY_SIZE]);

impl Ord for Key {
    ghost use Rattle.std.proofs.Common.{rules};
    ghost use Rattle.std.specs.Cmp.Rules.{comparing};
    ghost use Rattle.std.specs.Cmp.Lexicographic.{slice_cmp, lists_agrees};
    ghost use Rattle.std.specs.Ordering.{nat_cmp, on};

    ghost cmp = { on (λ key. key.0) (slice_cmp nat_cmp) };

    ghost total = { Prim.search (comparing, rules) };

    ghost matches_partial_cmp = { λ x y. lists_agrees (λ a b. refl) x.0 y.0 };

    ghost matches_eq = { Prim.search (comparing, rules) };

    // The order of the session's keys, always inlined: a search compares a key with dozens of
    // others.
    #[inline(always)]
    fn cmp(&self, other: &Key) -> Ordering {
        compare(&self.0, &other.0)
    }
}

/// The order of two of the session's keys by their bytes: that of the first bytes that differ. The
/// first four bytes of each are compared as one number, since random keys rarely share them.
///
/// # Conditions
///
/// A key has at least four bytes.
// Always inlined, since the first four bytes mostly decide.
#[inline(always)]
pub fn compare<const N: usize>(a: &[u8; N], b: &[u8; N]) -> Ordering
    requires { 4 ≤ N }
    ensures { result ≡ slice_cmp nat_cmp a.now b.now }
{
    let (x, y) = (front(a), front(b));
    if x != y {
        return x.cmp(&y);
    }
    a.cmp(b)
}

/// The order of two keys by their bytes, as [`compare`] has it, where one byte stands before REST
/// others. If the first four bytes are the same, the order is that of the REST bytes: for arrays of
/// whole words it is found fastest.
///
/// # Conditions
///
/// A key has at least four bytes, one more than REST.
#[inline(always)]
pub fn compare_prefixed<const N: usize, const REST: usize>(a: &[u8; N], b: &[u8; N]) -> Ordering
    requires front { 4 ≤ N }
    requires rest { 1 + REST ≡ N }
    ensures { result ≡ slice_cmp nat_cmp a.now b.now }
{
    let (x, y) = (front(a), front(b));
    if x != y {
        x.cmp(&y)
    } else {
        behind_first::<N, REST>(a).cmp(behind_first(b))
    }
}

// The bytes of a key behind the first one.
#[inline(always)]
fn behind_first<const N: usize, const REST: usize>(bytes: &[u8; N]) -> &[u8; REST]
    requires { 1 + REST ≡ N }
    ensures { result.now ≡ drop 1 bytes.now }
{
    match bytes.split_last_chunk::<REST>() {
        Some((_first, rest)) => rest,
        None => unreachable!(),
    }
}

// The first four bytes of a session's key as a number, big-endian.
#[inline(always)]
fn front<const N: usize>(bytes: &[u8; N]) -> u32
    requires { 4 ≤ N }
    ensures number { result ≡ from_be_bytes w32 bytes.now }
    ensures bytes { IsBytes bytes.now }
    ensures length { 4 ≤ length bytes.now }
{
    are_bytes(bytes);
    u32::from_be_bytes([bytes[0], bytes[1], bytes[2], bytes[3]])
}

/// A signature: its bytes.
#[derive(Clone, Copy, Debug, PartialEq, Eq)]
pub struct Signature(pub [u8; SIGNATURE_SIZE]);

impl FixedBytes for Key {
    ghost use Rattle.p2p_session.specs.declared.key.TheConstants.{KEY_SIZE};

    ghost SIZE = { KEY_SIZE };

    const SIZE: usize = KEY_SIZE;

    ghost IsValue = { λ key. IsSized KEY_SIZE key.0 };

    ghost spelled = { λ key. array_spelling KEY_SIZE key.0 };

    ghost value = { λ bytes. Some (record { 0 = bytes }) };

    fn write_fixed(&self, out: &mut [u8]) {
        write_array(&self.0, out);
    }

    fn read_fixed(bytes: &[u8]) -> Option<Key> {
        Some(Key(read_array(bytes)))
    }

    ghost fixed = { fixed_array (λ bytes. record { 0 = bytes }) (λ key. key.0)
        (λ _. refl) (λ _. refl) KEY_SIZE (lit≤ tt) };

    ghost one_value = { one_array (λ bytes. record { 0 = bytes }) (λ key. key.0)
        (λ _. refl) (λ _. refl) };
}

impl FixedBytes for Signature {
    ghost use Rattle.p2p_session.specs.declared.key.TheConstants.{SIGNATURE_SIZE};

    ghost SIZE = { SIGNATURE_SIZE };

    const SIZE: usize = SIGNATURE_SIZE;

    ghost IsValue = { λ signature. IsSized SIGNATURE_SIZE signature.0 };

    ghost spelled = { λ signature. array_spelling SIGNATURE_SIZE signature.0 };

    ghost value = { λ bytes. Some (record { 0 = bytes }) };

    fn write_fixed(&self, out: &mut [u8]) {
        write_array(&self.0, out);
    }

    fn read_fixed(bytes: &[u8]) -> Option<Signature> {
        Some(Signature(read_array(bytes)))
    }

    ghost fixed = { fixed_array (λ bytes. record { 0 = bytes }) (λ signature. signature.0)
        (λ _. refl) (λ _. refl) SIGNATURE_SIZE (lit≤ tt) };

    ghost one_value = { one_array (λ bytes. record { 0 = bytes }) (λ signature. signature.0)
        (λ _. refl) (λ _. refl) };
}

impl PublicKey for Key {
    type Signature = Signature;

    ghost verifies = { λ _ _ _ _. false };

    // No session asks its keys: the host verifies signatures, and no scheme is in this library.
    fn verify(&self, _namespace: &[u8], _message: &[u8], _signature: &Signature) -> bool {
        false
    }

    ghost exact = { exact_array (λ bytes. record { 0 = bytes }) (λ key. key.0)
        (λ _. refl) (λ _. refl) };
}
