//! Why bytes could not be decoded, and the limits of a length.

ghost use Rattle.std.specs.Prelude.{◌≡◌};
ghost use Rattle.p2p_discovery.specs.declared.codec.error.CodecError.TheVariants.{Memory};
ghost use Rattle.p2p_discovery.specs.Reading.{is_within};

use std::alloc::{AllocError, AllocFailed};
use thiserror::Error;

/// Which field is malformed.
#[derive(Clone, Copy, Debug, PartialEq, Eq)]
pub enum What {
    /// A text that is no hostname.
    Hostname,
    /// A padding bit that is not 0.
    Padding,
    /// Bytes that are no public key.
    Key,
    /// Bytes that are no signature.
    Signature,
}

/// Why bytes could not be decoded: the first error from left to right, or out of memory.
#[derive(Clone, Copy, Debug, PartialEq, Eq, Error)]
pub enum CodecError {
    /// The bytes end within a field.
    #[error("the bytes end within a field")]
    EndOfBuffer,
    /// So many bytes are left after the value.
    #[error("{0} bytes behind the value")]
    ExtraData(usize),
    /// A length, or a number of bits, that is not within its limit.
    #[error("a length of {0} is not allowed")]
    InvalidLength(usize),
    /// An integer of at most so many bytes that is not encoded in its one way: it is padded, too
    /// long or too large.
    #[error("no whole number of at most {0} bytes")]
    InvalidVarint(usize),
    /// A prefix byte that no variant has.
    #[error("no form has the prefix {0}")]
    InvalidEnum(u8),
    /// A malformed field.
    #[error("not the proper form: {0:?}")]
    Invalid(What),
    /// The allocation for the value failed.
    #[error("memory was refused")]
    Memory,
}

impl From<AllocError> for CodecError {
    ghost from_gives = { λ _ e. e ≡ Memory };

    fn from(_error: AllocError) -> CodecError {
        CodecError::Memory
    }
}

impl<T: Drop> From<AllocFailed<T>> for CodecError {
    ghost from_gives = { λ _ e. e ≡ Memory };

    fn from(_error: AllocFailed<T>) -> CodecError {
        CodecError::Memory
    }
}

/// The lengths that are allowed, both bounds included.
#[derive(Clone, Copy, Debug, PartialEq, Eq)]
pub struct RangeCfg {
    /// The minimum length.
    pub least: usize,
    /// The maximum length.
    pub greatest: usize,
}

impl RangeCfg {
    /// Whether a length is in the range, so that decoding it is no error.
    pub fn contains(&self, length: usize) -> bool
        ensures { result ≡ is_within self.now length }
    {
        self.least <= length && length <= self.greatest
    }
}
