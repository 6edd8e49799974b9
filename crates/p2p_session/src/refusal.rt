//! Why a call is refused, and the number that it returns then.

ghost use Rattle.std.specs.Prelude.{◌≡◌};
ghost use Rattle.p2p_session.specs.Refusals.{number_of};
ghost use Rattle.p2p_session.specs.declared.refusal.Refusal.TheVariants.{Memory, BadVerdicts};

use p2p_directory::node::Miscounted;
use std::alloc::{AllocError, AllocFailed};

/// Why a call is refused, or has no answer. Nothing has changed then, and nothing was written.
#[derive(Clone, Copy, Debug, PartialEq, Eq)]
pub enum Refusal {
    /// Out of memory.
    Memory,
    /// No node was created yet.
    NoNode,
    /// The answer is that there is none.
    Absent,
    /// The buffer is shorter than the longest answer that the call may have, so it was not made.
    NoRoom,
    /// The peer to connect isn't reserved.
    NotReserved,
    /// No reservation of the peer to release is held.
    NotHeld,
    /// The bytes are no key: their number is wrong, or they begin with a byte that no key has.
    BadKey,
    /// The bytes are no keys, one after the other.
    BadKeys,
    /// The bytes encode no info, no list of infos, no address, or no bootstrappers.
    BadInfo,
    /// The bytes encode no bits with their index, or more than `u32::MAX` of them.
    BadBits,
    /// The nanoseconds of a time are a second or more.
    BadMoment,
    /// A setting that no node may have, or there is a node already.
    BadSetting,
    /// There are not as many verification results as infos in the frame.
    BadVerdicts,
    /// Number and arguments are no call. This comes before all others, [`Refusal::NoNode`] too.
    BadCall,
}

impl Refusal {
    /// The number that a call returns for this refusal. These numbers are at the top of `u64`,
    /// above every length.
    pub fn number(self) -> u64
        ensures { result ≡ number_of self }
    {
        match self {
            Refusal::Memory => u64::MAX,
            Refusal::NoNode => u64::MAX - 1,
            Refusal::Absent => u64::MAX - 2,
            Refusal::NoRoom => u64::MAX - 3,
            Refusal::NotReserved => u64::MAX - 4,
            Refusal::NotHeld => u64::MAX - 5,
            Refusal::BadKey => u64::MAX - 6,
            Refusal::BadKeys => u64::MAX - 7,
            Refusal::BadInfo => u64::MAX - 8,
            Refusal::BadBits => u64::MAX - 9,
            Refusal::BadMoment => u64::MAX - 10,
            Refusal::BadSetting => u64::MAX - 11,
            Refusal::BadVerdicts => u64::MAX - 12,
            Refusal::BadCall => u64::MAX - 13,
        }
    }
}

impl From<Miscounted> for Refusal {
    ghost from_gives = { λ _ e. e ≡ BadVerdicts };

    fn from(_error: Miscounted) -> Refusal {
        Refusal::BadVerdicts
    }
}

impl From<AllocError> for Refusal {
    ghost from_gives = { λ _ e. e ≡ Memory };

    fn from(_error: AllocError) -> Refusal {
        Refusal::Memory
    }
}

impl<T: Drop> From<AllocFailed<T>> for Refusal {
    ghost from_gives = { λ _ e. e ≡ Memory };

    fn from(_error: AllocFailed<T>) -> Refusal {
        Refusal::Memory
    }
}
