//! Values with one encoding, and how they are written.

ghost use Rattle.std.specs.Prelude.{◌≡◌, ℕ, ◌+◌, ◌≤◌, List, ◌++◌, length, IfOk};

use bytes::{Bytes, BytesMut};
use std::alloc::{AllocError, Global};

/// A value with exactly one encoding.
///
/// # Conditions
///
/// Of all its calls and those of [`Write`]: a message, a text and a list are at most `u32::MAX`
/// long.
pub trait EncodeSize {
    // Holds of each value of the type.
    ghost IsValue: { Self → Type 0 };

    // The conditions, and the encoding if they hold.
    ghost CanSpell: { Self → Type 0 };

    ghost spelling: { Self → List ℕ };

    /// The number of bytes that the value's encoding has.
    ///
    /// # Conditions
    ///
    /// Those of [`EncodeSize`].
    ///
    /// # Cost
    ///
    /// Time linear in the number of parts; a message isn't looked at.
    fn encode_size(&self) -> usize
        requires { CanSpell self.now }
        ensures size { result ≡ length (spelling self.now) }
        ensures value { IsValue self.now };
}

/// A value whose encoding has at most a constant number of bytes.
pub trait MaxEncodeSize: EncodeSize {
    ghost MAX_ENCODE_SIZE: { ℕ };

    /// The maximum number of bytes of an encoding.
    const MAX_ENCODE_SIZE: usize;

    // Law: no encoding is longer.
    ghost at_most_max: { (v : Self) → Self.IsValue v → length (Self.spelling v) ≤ MAX_ENCODE_SIZE };
}

/// A value that is written by its encoding.
pub trait Write: EncodeSize {
    // What is known of a value once it was written, if its type has parts of any other type: these
    // are values of their types.
    ghost HoldsValues: { Self → Type 0 } = { λ _. Unit {0} };

    /// Encodes the value at the end of the buffer. It doesn't allocate.
    ///
    /// # Conditions
    ///
    /// Those of [`EncodeSize`], and spare capacity for [`EncodeSize::encode_size`] bytes.
    ///
    /// # Cost
    ///
    /// One pass over the encoding.
    fn write(&self, buf: &mut BytesMut)
        requires can { Self.CanSpell self.now }
        requires room { length (Self.spelling self.now) ≤ buf.old.spare }
        ensures items { buf.new.items ≡ buf.old.items ++ Self.spelling self.now }
        ensures spare { buf.new.spare + length (Self.spelling self.now) ≡ buf.old.spare }
        ensures holds { HoldsValues self.now };

    /// The encoding, in a buffer of its own.
    ///
    /// # Conditions
    ///
    /// Those of [`EncodeSize`].
    ///
    /// # Errors
    ///
    /// `AllocError` if allocation fails.
    ///
    /// # Cost
    ///
    /// One pass for the size, and one over the encoding. One allocation of exactly as many bytes.
    final fn encode(&self, alloc: Global) -> Result<Bytes, AllocError>
        requires { Self.CanSpell self.now }
        ensures spelled { IfOk result (λ b. b ≡ Self.spelling self.now) }
        ensures value { Self.IsValue self.now }
        ensures holds { IfOk result (λ _. HoldsValues self.now) }
    {
        let mut buf = BytesMut::with_capacity(alloc, self.encode_size())?;
        self.write(&mut buf);
        match buf.freeze() {
            Ok(bytes) => Ok(bytes),
            Err(_) => Err(AllocError),
        }
    }
}
