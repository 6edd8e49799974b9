//! Why a measurement ends early.

use std::alloc::{AllocError, AllocFailed};
use std::io;

/// Why a measurement ends early.
#[derive(Debug, Drop)]
pub(crate) enum Stop {
    /// An allocation failed.
    Memory,
    /// A write failed, or the clock could not be read.
    Io,
    /// The words of the command line name no measurement.
    Words,
}

impl From<AllocError> for Stop {
    fn from(_error: AllocError) -> Stop {
        Stop::Memory
    }
}

impl<T: Drop> From<AllocFailed<T>> for Stop {
    fn from(_error: AllocFailed<T>) -> Stop {
        Stop::Memory
    }
}

impl From<io::Error> for Stop {
    fn from(_error: io::Error) -> Stop {
        Stop::Io
    }
}
