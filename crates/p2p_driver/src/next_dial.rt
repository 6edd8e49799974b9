//! When a driver looks for somebody to dial, and what is kept of its dials.

use crate::grants::Grants;
use std::time::Duration;

/// When a driver looks for somebody to dial, and what is kept of its dials.
#[derive(Drop)]
pub struct NextDial<C: Ord + Copy> {
    /// The steady time from which on somebody may be dialled: before it nobody may. `None` if
    /// nobody may unless something changes.
    pub from: Option<Duration>,
    /// The steady time in nanoseconds from which on it is tried again since memory was refused for
    /// a dial.
    pub retry: u128,
    /// The grants of dials on which the peer hasn't greeted.
    pub grants: Grants<C>,
}
