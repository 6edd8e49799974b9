//! A position in shared bytes, from which values are decoded.

ghost use Rattle.std.specs.Prelude.{◌≡◌, ◌==◌, length, IfOk};
ghost use Rattle.p2p_discovery.specs.Reading.{Gives, GivesAs, IsBytes, byte_at, counted_at, cut_at};

use crate::codec::CodecError;
use bytes::Bytes;
use std::marker::Model;

/// The bytes of a buffer from some position on, which contracts see as these bytes.
///
/// A read that succeeds moves the position past what was read. The buffer itself is unchanged.
#[derive(Drop)]
pub struct Reader<'a> {
    whole: &'a Bytes,
    at: usize,
}

impl<'a> Model for Reader<'a> {
    ghost use Rattle.std.specs.Prelude.{ℕ, List, ◌≤◌, length, drop};

    ghost Value = { List ℕ };

    ghost view = { λ r. drop r.at r.whole.now };

    ghost invariant = { λ r. r.at ≤ length r.whole.now };
}

impl<'a> Reader<'a> {
    /// A reader of all of the bytes.
    pub fn new(whole: &'a Bytes) -> Reader<'a>
        ensures value { result ≡ whole.now }
        ensures bytes { IsBytes whole.now }
    {
        are_bytes(whole.as_slice());
        Reader { whole, at: 0 }
    }

    /// How many bytes are left to the reader.
    pub fn len(&self) -> usize
        ensures { result ≡ length self.now }
    {
        self.whole.len() - self.at
    }

    /// Whether no byte is left to the reader.
    pub fn is_empty(&self) -> bool
        ensures { result ≡ (length self.now == 0) }
    {
        self.len() == 0
    }

    /// The bytes that are left to the reader.
    pub fn rest(&self) -> &[u8]
        ensures rest { result.now ≡ self.now }
        ensures bytes { IsBytes self.now }
    {
        let rest = &self.whole.as_slice()[self.at..];
        are_bytes(rest);
        rest
    }

    /// Reads the reader's next byte.
    ///
    /// # Errors
    ///
    /// `EndOfBuffer` if none is left.
    pub fn byte(&mut self) -> Result<u8, CodecError>
        ensures { Gives result self.new (byte_at self.old) }
    {
        if self.at == self.whole.len() {
            return Err(CodecError::EndOfBuffer);
        }
        let byte = self.whole.as_slice()[self.at];
        self.at += 1;
        Ok(byte)
    }

    /// Reads so many of the reader's bytes, which are not copied. It doesn't allocate.
    ///
    /// # Errors
    ///
    /// `EndOfBuffer` if fewer are left.
    pub fn counted(&mut self, count: usize) -> Result<&'a [u8], CodecError>
        ensures exact { GivesAs (λ b. b.now) result self.new (counted_at count self.old) }
        ensures length { IfOk result (λ b. length b.now ≡ count) }
    {
        let start = self.at;
        if self.whole.len() - start < count {
            return Err(CodecError::EndOfBuffer);
        }
        self.at = start + count;
        Ok(&self.whole.as_slice()[start..start + count])
    }

    /// Reads so many of the reader's bytes, which are not copied, and shares ownership of the
    /// buffer's memory.
    ///
    /// # Errors
    ///
    /// `EndOfBuffer` if fewer are left; else `Memory` if allocation fails. Reading no bytes doesn't
    /// allocate.
    pub fn cut(&mut self, count: usize) -> Result<Bytes, CodecError>
        ensures { Gives result self.new (cut_at count self.old) }
    {
        let start = self.at;
        if self.whole.len() - start < count {
            return Err(CodecError::EndOfBuffer);
        }
        let front = self.whole.slice(start..start + count)?;
        self.at = start + count;
        Ok(front)
    }
}

// What a slice of a reader holds are bytes.
pub(crate) fn are_bytes(bytes: &[u8])
    ensures { IsBytes bytes.now }
{}
