//! The times of some calls, and how many of them succeeded.

ghost use Rattle.std.specs.Prelude.{◌≡◌, ◌+◌, ◌-◌, ◌^◌, OnOk, length, min};

use std::alloc::{AllocError, Global};
use std::time::Duration;

/// The times of some calls, and how many of them succeeded.
#[derive(Drop)]
pub(crate) struct Times {
    nanos: Vec<u64>,
    done: usize,
}

impl Times {
    /// No times of calls yet.
    pub(crate) fn new(alloc: Global) -> Times {
        Times {
            nanos: Vec::new(alloc),
            done: 0,
        }
    }

    /// Adds one more to the times, of calls of which so many succeeded.
    pub(crate) fn add(&mut self, time: Duration, done: usize) -> Result<(), AllocError>
        ensures times { OnOk result (length self.new.nanos.items ≡
            length self.old.nanos.items + 1) }
        ensures done { OnOk result (self.new.done ≡ min (self.old.done + done) (2 ^ 64 - 1)) }
    {
        self.nanos.push(nanos_of(time))?;
        self.done = self.done.saturating_add(done);
        Ok(())
    }

    /// The summary of the times: the minimum, the median, and how many calls succeeded.
    pub(crate) fn summary(mut self) -> Summary {
        self.nanos.sort_unstable();
        Summary {
            least: self.nanos.first().copied().unwrap_or(0),
            median: self.nanos.get(self.nanos.len() / 2).copied().unwrap_or(0),
            done: self.done,
        }
    }
}

/// What is printed of times, in nanoseconds.
#[derive(Clone, Copy)]
pub(crate) struct Summary {
    /// The minimum time.
    pub(crate) least: u64,
    /// The median time.
    pub(crate) median: u64,
    /// How many calls succeeded.
    pub(crate) done: usize,
}

// One of the times in nanoseconds.
fn nanos_of(time: Duration) -> u64 {
    time.as_secs()
        .saturating_mul(1_000_000_000)
        .saturating_add(u64::from(time.subsec_nanos()))
}
