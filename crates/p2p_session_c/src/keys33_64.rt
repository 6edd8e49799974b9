//! A session with keys of 33 bytes and signatures of 64, and its exports. Written by
//! tools/exports.sh from tools/exports/session.table, with the proofs.

ghost use Rattle.std.specs.Prelude.{◌≡◌, []};
ghost use Rattle.std.specs.Mem.{type_size};
ghost use types.Logic.{sem};
ghost use Rattle.std.specs.Ptr.{points_to, uninit_at};
ghost use Rattle.p2p_session.specs.Sessions.{IsFresh};
ghost use Rattle.p2p_session.specs.Requests.{ServesCall};
ghost use Rattle.p2p_session_c.specs.Keys33_64.{keys33_64};
ghost use Rattle.p2p_session_c.specs.declared.keys33_64.Session.{Session};
ghost use Rattle.p2p_session_c.specs.contracts.keys33_64.Session.{the_row};

use crate::Handle;
use crate::keys33_64::key::Key;
use std::alloc::Global;

pub mod key;

/// A session with these keys.
pub struct Session {
    session: p2p_session::Session<Key>,
}

impl Session {
    /// A session with no node. It allocates nothing.
    pub fn new(alloc: Global) -> Session
        ensures { IsFresh result.session }
    {
        Session {
            session: p2p_session::Session::new(alloc),
        }
    }

    /// Ends the session, and frees all that it holds.
    pub fn end(self, alloc: Global) {
        let Session { session } = self;
        session.end(alloc);
    }

    /// The call of this number: tools/exports/session.table lists what each takes and returns.
    #[allow(clippy::too_many_arguments)]
    #[inline(always)]
    pub fn call(
        &mut self,
        alloc: Global,
        number: u64,
        numbers: &[u64],
        first: &[u8],
        second: &[u8],
        third: &[u8],
        out: &mut [u8],
    ) -> u64
        ensures { ServesCall keys33_64 number numbers.now first.now second.now third.now out.old
            out.new self.old.session self.new.session result }
    {
        self.session
            .call(alloc, number, numbers, first, second, third, out)
    }

    /// The same with bytes in the first place alone, and with nothing to write to.
    #[inline(always)]
    pub fn call_peer(&mut self, alloc: Global, number: u64, numbers: &[u64], peer: &[u8]) -> u64
        ensures { ServesCall keys33_64 number numbers.now peer.now [] [] [] [] self.old.session
            self.new.session result }
    {
        self.session.call_peer(alloc, number, numbers, peer)
    }
}

/// How many bytes of memory a session has to have. They begin at a multiple of 16.
#[unsafe(no_mangle)]
pub extern "C" fn p2p_session_33_64_size() -> usize
    ensures { result ≡ type_size the_row }
{
    std::mem::size_of::<Session>()
}

/// Creates a session with no node in the memory at the pointer. It allocates nothing.
///
/// # Safety
///
/// The pointer leads to memory of that size, in which there is no session.
#[unsafe(no_mangle)]
pub unsafe extern "C" fn p2p_session_33_64_new(alloc: Global, at: *mut Handle)
    requires* { sem 𝓛 (uninit_at the_row at) }
    ensures* { ∃ₛ (λ (made : Session). sem 𝓛 (points_to the_row at made) ∗ ⌜ IsFresh made.session ⌝) }
{
    let value = Session::new(alloc);
    let room = at as *mut Session;
    unsafe { room.write(value) };
}

/// Makes the call of this number, and returns what it returns. `numbers` has its numbers, bools as 0
/// or 1 and the parts of its times in their order; `first`, `second` and `third` its bytes, and those
/// that it doesn't take are empty; its answer is written to `out`. BAD_CALL if this is no call.
///
/// # Safety
///
/// The pointer leads to a session, and the host meets the obligations at the head of the crate.
#[unsafe(no_mangle)]
pub unsafe extern "C" fn p2p_session_33_64_call(
    alloc: Global,
    at: *mut Handle,
    number: u64,
    numbers: &[u64],
    first: &[u8],
    second: &[u8],
    third: &[u8],
    out: &mut [u8],
) -> u64
    ghost before: { Session }
    requires* { sem 𝓛 (points_to the_row at before) }
    ensures* { ∃ₛ (λ (after : Session). sem 𝓛 (points_to the_row at after) ∗ ⌜ ServesCall keys33_64 number numbers.now first.now second.now third.now out.old out.new before.session after.session result ⌝) }
{
    let value = unsafe { &mut *(at as *mut Session) };
    value.call(alloc, number, numbers, first, second, third, out)
}

/// Makes the call of this number with `peer` as its first bytes, no others, and no answer that is
/// written. What it takes is passed in registers, so calls are made by it that need no more. BAD_CALL
/// if this is no call.
///
/// # Safety
///
/// The pointer leads to a session, and the host meets the obligations at the head of the crate.
#[unsafe(no_mangle)]
pub unsafe extern "C" fn p2p_session_33_64_call_peer(
    alloc: Global,
    at: *mut Handle,
    number: u64,
    numbers: &[u64],
    peer: &[u8],
) -> u64
    ghost before: { Session }
    requires* { sem 𝓛 (points_to the_row at before) }
    ensures* { ∃ₛ (λ (after : Session). sem 𝓛 (points_to the_row at after) ∗ ⌜ ServesCall keys33_64 number numbers.now peer.now [] [] [] [] before.session after.session result ⌝) }
{
    let value = unsafe { &mut *(at as *mut Session) };
    value.call_peer(alloc, number, numbers, peer)
}

/// Ends the session: all that it holds is freed, and the memory at the pointer is the host's again.
///
/// # Safety
///
/// The pointer leads to a session, and the host meets the obligations at the head of the crate.
#[unsafe(no_mangle)]
pub unsafe extern "C" fn p2p_session_33_64_free(alloc: Global, at: *mut Handle)
    ghost before: { Session }
    requires* { sem 𝓛 (points_to the_row at before) }
    ensures* { sem 𝓛 (uninit_at the_row at) }
{
    let value = unsafe { (at as *mut Session).read() };
    value.end(alloc);
}
