//! How values are decoded from bytes.

ghost use Rattle.std.specs.Prelude.{◌≡◌, ℕ, List, ◌++◌, [], IfOk, OnErr};
ghost use Rattle.p2p_discovery.specs.Reading.{Reading, Lawful, Gives, Leaves, whole};

use crate::codec::{CodecError, EncodeSize, Reader};
use bytes::Bytes;
use std::alloc::Global;

/// A value that is decoded from its encoding.
///
/// A type implements [`Read::read`]; callers use the other calls. Each error is the first from left
/// to right. `Memory` is returned only if an allocation was attempted and failed.
pub trait Read: EncodeSize + Drop + Sized {
    /// The limits under which a value is decoded.
    type Cfg;

    // The value is within the limits.
    ghost Admits: { Self.Cfg → Self → Type 0 };

    // What decoding gives: the value and the bytes after it, or the first error.
    ghost reading: { Self.Cfg → List ℕ → Reading Self };

    /// Decodes the value at the reader's position, which is then after it.
    ///
    /// # Errors
    ///
    /// The first error from left to right, or `Memory` if an allocation was attempted and failed.
    /// The reader's position is then unspecified.
    ///
    /// # Cost
    ///
    /// One pass over the bytes of the value.
    fn read(alloc: Global, reader: &mut Reader<'_>, cfg: &Self::Cfg) -> Result<Self, CodecError>
        ensures { Gives result reader.new (reading cfg.now reader.old) };

    /// Decodes the value that the buffer begins with, and leaves exactly the rest. It succeeds if,
    /// and only if, a prefix of the buffer is the encoding of a value within the limits.
    ///
    /// # Errors
    ///
    /// Those of [`Read::read`]. The buffer is unchanged.
    ///
    /// # Cost
    ///
    /// That of [`Read::read`].
    final fn read_cfg(alloc: Global, buf: &mut Bytes, cfg: &Self::Cfg) -> Result<Self, CodecError>
        ensures found { IfOk result (λ v. Self.IsValue v × Admits cfg.now v
            × (buf.old ≡ Self.spelling v ++ buf.new)) }
        ensures only { (v : Self) (rest : List ℕ) → Self.IsValue v → Admits cfg.now v
            → buf.old ≡ Self.spelling v ++ rest → Leaves result buf.new v rest }
        ensures exact { Gives result buf.new (reading cfg.now buf.old) }
        ensures err { OnErr result (buf.new ≡ buf.old) }
    {
        let mut reader = Reader::new(buf);
        let value = Self::read(alloc, &mut reader, cfg)?;
        let left = reader.len();
        let taken = buf.len() - left;
        buf.advance(taken);
        Ok(value)
    }

    /// Decodes the value that all of the bytes encode, and leaves them to the caller. It succeeds
    /// if, and only if, they are the encoding of a value within the limits.
    ///
    /// # Errors
    ///
    /// Those of [`Read::read`]; after the value was decoded, `ExtraData(n)` if n bytes are left.
    ///
    /// # Cost
    ///
    /// That of [`Read::read`].
    final fn decode_from(alloc: Global, bytes: &Bytes, cfg: &Self::Cfg) -> Result<Self, CodecError>
        ensures found { IfOk result (λ v. Self.IsValue v × Admits cfg.now v
            × (bytes.now ≡ Self.spelling v)) }
        ensures only { (v : Self) → Self.IsValue v → Admits cfg.now v
            → bytes.now ≡ Self.spelling v → Leaves result [] v [] }
        ensures exact { Gives result [] (whole (reading cfg.now) bytes.now) }
    {
        let mut reader = Reader::new(bytes);
        let value = Self::read(alloc, &mut reader, cfg)?;
        let rest = reader.len();
        if rest != 0 {
            return Err(CodecError::ExtraData(rest));
        }
        Ok(value)
    }

    /// [`Read::decode_from`] of a buffer that isn't needed afterwards.
    ///
    /// # Errors
    ///
    /// Those of [`Read::decode_from`].
    ///
    /// # Cost
    ///
    /// That of [`Read::read`].
    final fn decode_cfg(alloc: Global, buf: Bytes, cfg: &Self::Cfg) -> Result<Self, CodecError>
        ensures found { IfOk result (λ v. Self.IsValue v × Admits cfg.now v
            × (buf ≡ Self.spelling v)) }
        ensures only { (v : Self) → Self.IsValue v → Admits cfg.now v
            → buf ≡ Self.spelling v → Leaves result [] v [] }
        ensures exact { Gives result [] (whole (reading cfg.now) buf) }
    {
        Self::decode_from(alloc, &buf, cfg)
    }

    /// [`Read::decode_cfg`] of a type without limits.
    ///
    /// # Errors
    ///
    /// Those of [`Read::decode_cfg`].
    ///
    /// # Cost
    ///
    /// That of [`Read::read`].
    final fn decode(alloc: Global, buf: Bytes) -> Result<Self, CodecError>
    where
        Self: Read<Cfg = ()>,
        ensures found { IfOk result (λ v. Self.IsValue v × Admits tt v
            × (buf ≡ Self.spelling v)) }
        ensures only { (v : Self) → Self.IsValue v → Admits tt v
            → buf ≡ Self.spelling v → Leaves result [] v [] }
        ensures exact { Gives result [] (whole (reading tt) buf) }
    {
        Self::decode_cfg(alloc, buf, &())
    }

    // Law: exactly the encodings of values within the limits are decoded.
    ghost lawful: { (cfg : Self.Cfg)
        → Lawful (reading cfg) Self.spelling (λ v. Self.IsValue v × Admits cfg v) };
}
