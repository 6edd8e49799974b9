//! The numbers of streams and dials, and the times of a call.

use std::time::Duration;

/// A stream or a dial: numbers rise from 1, and none is used again.
#[derive(Clone, Copy, Debug, PartialEq, Eq, PartialOrd, Ord)]
pub struct Link(pub u64);

/// The times of a call.
#[derive(Clone, Copy, Debug)]
pub struct Now {
    /// A time that never goes back: cooldowns, blocks, deadlines and rates go by it.
    pub steady: Duration,
    /// The time since the epoch, by which the timestamps of infos go, and nothing else.
    pub wall: Duration,
}
