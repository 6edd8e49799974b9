//! What is wrong with a line.

use crate::usage::Usage;
use std::alloc::{AllocError, AllocFailed};
use std::fmt;

/// What is wrong with a line, and what was expected.
#[derive(Clone, Copy, Debug, PartialEq, Eq)]
pub enum Fault {
    /// The allocation for what the line encodes failed.
    Memory,
    /// There is no such name of this kind; the nearest one.
    Unknown(&'static str, &'static str),
    /// An argument is missing after this command.
    Missing(Usage),
    /// There is an excess argument after this command.
    Excess(Usage),
    /// An argument has another form than this.
    Form(&'static str),
    /// A number of this kind is above its maximum.
    TooLarge(&'static str, u64),
    /// The last byte has one digit.
    OddDigits,
    /// No node has the name.
    NoNode,
    /// The line is longer than allowed.
    TooLong(usize),
    /// The bytes of the line are not text.
    NoText,
}

impl From<AllocError> for Fault {
    fn from(_error: AllocError) -> Fault {
        Fault::Memory
    }
}

impl<T: Drop> From<AllocFailed<T>> for Fault {
    fn from(_error: AllocFailed<T>) -> Fault {
        Fault::Memory
    }
}

impl fmt::Display for Fault {
    fn fmt<W: fmt::Write>(&self, f: &mut fmt::Formatter<W>) -> fmt::Result {
        match self {
            Fault::Memory => f.write_str("OutOfMemory"),
            Fault::Unknown(kind, nearest) => {
                write!(f, "unknown {kind}, expected {nearest} or another of --help")
            }
            Fault::Missing(usage) => write!(f, "missing argument, expected {usage}"),
            Fault::Excess(usage) => write!(f, "too many arguments, expected {usage}"),
            Fault::Form(expected) => write!(f, "unreadable argument, expected {expected}"),
            Fault::TooLarge(kind, greatest) => {
                write!(f, "{kind} too large, expected at most {greatest}")
            }
            Fault::OddDigits => f.write_str("odd number of hex digits, expected two for each byte"),
            Fault::NoNode => f.write_str("no such node, expected a name that was given to one"),
            Fault::TooLong(greatest) => {
                write!(f, "line too long, expected at most {greatest} bytes")
            }
            Fault::NoText => f.write_str("bytes that are no text, expected UTF-8"),
        }
    }
}
