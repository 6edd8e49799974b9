//! Laws of encodings, for users: each function's contract is one, and it does nothing else.

ghost use Rattle.std.specs.Prelude.{◌≡◌, ◌≢◌, ℕ, ◌≤◌, ◌<◌, ◌^◌, ◌↔◌, List, ◌++◌, [], length};
ghost use Rattle.std.specs.Prelude.{IsErrAnd};
ghost use Rattle.std.specs.Ordering.{nat_cmp};
ghost use Rattle.p2p_discovery.specs.declared.codec.error.CodecError.TheVariants.{EndOfBuffer};
ghost use Rattle.p2p_discovery.specs.declared.codec.error.CodecError.TheVariants.{Memory};
ghost use Rattle.p2p_discovery.specs.declared.codec.test_key.TestKey.{TestKey};
ghost use Rattle.p2p_discovery.specs.Reading.{Gives, Leaves, whole};
ghost use Rattle.p2p_discovery.specs.Varint.{varint32, varint64, SpellsU32, SpellsU64};

use crate::codec::{CodecError, MaxEncodeSize, Read, TestKey, Write};
use bytes::Bytes;
use std::alloc::Global;

/// By a law of the codec, the encoding is prefix-free and injective: no encoding of a value is a
/// prefix of another one's, and only equal values share an encoding.
pub fn one_spelling<T: Read>(cfg: &T::Cfg)
    ensures { (v w : T) (x y : List ℕ) → T.IsValue v → T.Admits cfg.now v
        → T.IsValue w → T.Admits cfg.now w
        → T.spelling v ++ x ≡ T.spelling w ++ y → (v ≡ w) × (x ≡ y) }
{}

/// By a law of the codec, no truncated encoding is decoded.
///
/// # Errors
///
/// `EndOfBuffer` for a proper prefix of an encoding, or `Memory` if an allocation was attempted on
/// the way and failed. For other bytes those of [`Read::decode_cfg`].
pub fn cut_short<T: Read>(alloc: Global, front: Bytes, cfg: &T::Cfg) -> Result<T, CodecError>
    ensures short { (v : T) (rest : List ℕ) → T.IsValue v → T.Admits cfg.now v
        → T.spelling v ≡ front ++ rest → 0 < length rest
        → IsErrAnd result (λ e. e ≢ Memory → e ≡ EndOfBuffer) }
    ensures exact { Gives result [] (whole (T.reading cfg.now) front) }
{
    T::decode_cfg(alloc, front, cfg)
}

/// By a law of the codec, what was encoded decodes to the same value, under limits that it is
/// within.
///
/// # Conditions
///
/// Those of [`Write::encode`], and that the value is within the limits.
///
/// # Errors
///
/// `Memory` if allocation fails, and no other.
pub fn read_back<T: Write + Read>(alloc: Global, value: &T, cfg: &T::Cfg) -> Result<T, CodecError>
    requires can { T.CanSpell value.now }
    requires admits { T.HoldsValues value.now → T.Admits cfg.now value.now }
    ensures { Leaves result [] value.now [] }
{
    let bytes = value.encode(alloc)?;
    T::decode_cfg(alloc, bytes, cfg)
}

/// The number of bytes of the encoding, which is at most the type's maximum by a law of the codec.
///
/// # Conditions
///
/// Those of [`EncodeSize::encode_size`](crate::codec::EncodeSize::encode_size).
pub fn bounded_size<T: MaxEncodeSize>(value: &T) -> usize
    requires { T.CanSpell value.now }
    ensures size { result ≡ length (T.spelling value.now) }
    ensures bound { result ≤ T.MAX_ENCODE_SIZE }
{
    value.encode_size()
}

/// By a law of the codec, bytes match the grammar of varints for an integer if, and only if, they
/// are its one encoding.
pub fn varint_grammar()
    ensures long { (bytes : List ℕ) (n : ℕ)
        → SpellsU64 bytes n ↔ ((n < 2 ^ 64) × (bytes ≡ varint64 n)) }
    ensures short { (bytes : List ℕ) (n : ℕ)
        → SpellsU32 bytes n ↔ ((n < 2 ^ 32) × (bytes ≡ varint32 n)) }
{}

/// By a law of the codec, test keys are ordered by their numbers.
pub fn test_key_order()
    ensures { (a b : TestKey) → ⟦<TestKey as Ord>⟧.cmp a b ≡ nat_cmp a.0 b.0 }
{}
