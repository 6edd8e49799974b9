//! The frames of a link that were said and aren't written.

ghost use Rattle.std.specs.Prelude.{◌≡◌, [], ◌∷◌, ◌++◌, length, drop, IfOk, IfErr};
ghost use Rattle.std.specs.Prelude.{option_map, if◌then◌else◌};
ghost use Rattle.std.specs.Duration.{as_nanos};
ghost use Rattle.p2p_driver.specs.Links.{write_by, is_unwritten_since, with_said};

use crate::rate::after;
use std::alloc::{AllocError, Global};
use std::collections::VecDeque;
use std::marker::Model;
use std::time::Duration;

/// The frames of a link that were said and aren't written: when each was said, a steady time, the
/// oldest first. A contract sees the list of these times.
#[derive(Debug, Drop)]
pub struct Unwritten {
    times: VecDeque<Duration>,
}

impl Model for Unwritten {
    ghost use Rattle.std.specs.Prelude.{List};
    ghost use Rattle.std.specs.declared.time.Duration.{Duration};

    ghost Value = { List Duration };

    ghost view = { λ u. u.times.items };
}

impl Unwritten {
    /// One frame, said at this time.
    ///
    /// # Errors
    ///
    /// `AllocError` if an allocation fails.
    pub fn new(alloc: Global, said: Duration) -> Result<Self, AllocError>
        ensures { IfOk result (λ made. made ≡ said ∷ []) }
    {
        let mut times = VecDeque::with_capacity(alloc, 1)?;
        match times.push_back(said) {
            Ok(()) => Ok(Unwritten { times }),
            Err(_refused) => Err(AllocError),
        }
    }

    /// No frame. It doesn't allocate.
    pub fn none(alloc: Global) -> Self
        ensures { result ≡ [] }
    {
        Unwritten {
            times: VecDeque::new(alloc),
        }
    }

    /// How many frames there are. It doesn't allocate.
    pub fn len(&self) -> usize
        ensures { result ≡ length self.now }
    {
        self.times.len()
    }

    /// Adds a frame that is said at this time, the last one.
    ///
    /// # Errors
    ///
    /// `AllocError` if an allocation fails. Nothing changes then.
    ///
    /// # Cost
    ///
    /// Constant, but that the times may be moved once.
    pub fn push(&mut self, said: Duration) -> Result<(), AllocError>
        ensures ok { IfOk result (λ done. self.new ≡ self.old ++ said ∷ []) }
        ensures err { IfErr result (λ failed. self.new ≡ self.old) }
    {
        match self.times.push_back(said) {
            Ok(()) => Ok(()),
            Err(_refused) => Err(AllocError),
        }
    }

    /// Takes the oldest frame out, if there is one. It doesn't allocate.
    pub fn pop(&mut self)
        ensures { self.new ≡ drop 1 self.old }
    {
        let _oldest = self.times.pop_front();
    }

    /// By when the oldest frame has to be written, in nanoseconds: so long after it was said, or a
    /// nanosecond, if `silence` is 0. `None` if there is no frame. It doesn't allocate.
    pub fn write_by(&self, silence: Duration) -> Option<u128>
        ensures { result ≡ write_by (as_nanos silence) self.now }
    {
        let shortest = Duration::from_nanos(1);
        match self.times.front() {
            Some(said) => Some(after(*said, silence).max(after(*said, shortest))),
            None => None,
        }
    }

    /// Whether there is a frame that was said at the moment, or before it. It doesn't allocate.
    pub fn is_since(&self, moment: Duration) -> bool
        ensures { result ≡ is_unwritten_since (as_nanos moment) self.now }
    {
        match self.times.front() {
            Some(said) => said.as_nanos() <= moment.as_nanos(),
            None => false,
        }
    }
}
