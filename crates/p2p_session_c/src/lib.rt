//! The exports of sessions for C and Rust: a session is behind an opaque pointer, in memory that the
//! host keeps. Written by tools/exports.sh from tools/exports/session.table, with the proofs.
//!
//! Obligations of the host, which nothing checks. The memory of a session has size bytes and begins
//! at a multiple of 16. It is neither read, written nor moved while a session is in it. new comes
//! before each other call, and free once, after the last. One call at a time is made on a session,
//! on whatever thread. A slice is its first item and how many it has, points to that many
//! initialised ones, and overlaps neither another slice that is written nor the memory of the
//! session.
#![tactic(auto)]

ghost use Rattle.std.specs.Prelude.{◌≡◌};
ghost use Rattle.p2p_session.specs.Addresses.{TellsGlobal};
ghost use Rattle.p2p_session.specs.Addresses.{TellsValid};

mod keys32_64;
mod keys33_64;
mod keys48_96;
mod keys96_48;

/// What a host's pointer leads to. It is opaque.
#[repr(C)]
#[derive(Drop)]
pub struct Handle {
    byte: u8,
}

/// Returns 1. Its name has a hash of the calls with their numbers and arguments, of the refusals, of
/// the pairs of sizes, and of the number of the forms of answers. So a host that was compiled with
/// others doesn't link.
#[unsafe(no_mangle)]
pub extern "C" fn p2p_session_interface_982d1876193cea3c() -> u64
    ensures { result ≡ 1 }
{
    1
}

/// Whether an address of 4 or 16 bytes is global: 1 or 0. BAD_INFO for another number of bytes. It
/// needs no session.
#[unsafe(no_mangle)]
pub extern "C" fn p2p_session_is_global(address: &[u8]) -> u64
    ensures { TellsGlobal address.now result }
{
    p2p_session::is_global(address)
}

/// Whether an ingress may be dialled under these settings: 1 or 0. address: the 4 or 16 bytes of
/// its address, or none if it is a name. BAD_INFO for another number of bytes. It needs no session.
#[unsafe(no_mangle)]
pub extern "C" fn p2p_session_is_valid(
    address: &[u8],
    allow_private_ips: bool,
    allow_dns: bool,
) -> u64
    ensures { TellsValid address.now allow_private_ips allow_dns result }
{
    p2p_session::is_valid(address, allow_private_ips, allow_dns)
}
