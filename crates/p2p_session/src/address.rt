//! Questions about addresses, which need no session.

ghost use Rattle.std.specs.Prelude.{◌≡◌};
ghost use Rattle.p2p_discovery.specs.Ingress.{is_valid};
ghost use Rattle.p2p_discovery.specs.Socket.{socket_from};
ghost use Rattle.p2p_discovery.specs.declared.types.ingress.Ingress.TheVariants.{Socket};
ghost use Rattle.p2p_session.specs.Addresses.{address_of, TellsGlobal, TellsValid};

use crate::refusal::Refusal;
use crate::reply::truth_of;
use p2p_discovery::codec::read_array;
use p2p_discovery::types::{Ingress, IpAddr, SocketAddr};

/// Whether an address of 4 or 16 bytes, of which no session is asked, is global: 1 or 0, or
/// `BadInfo` for another number of bytes.
pub fn is_global(address: &[u8]) -> u64
    ensures { TellsGlobal address.now result }
{
    match address_of(address) {
        Some(ip) => truth_of(ip.is_global()),
        None => Refusal::BadInfo.number(),
    }
}

/// Whether an ingress may be dialled under these settings, of which no session is asked: 1 or 0. It
/// is given by the 4 or 16 bytes of its address, or by none if it is a name; for another number of
/// bytes the result is `BadInfo`.
pub fn is_valid(address: &[u8], allow_private_ips: bool, allow_dns: bool) -> u64
    ensures { TellsValid address.now allow_private_ips allow_dns result }
{
    if address.is_empty() {
        return truth_of(allow_dns);
    }
    match address_of(address) {
        Some(ip) => truth_of(is_socket_valid(ip, allow_private_ips, allow_dns)),
        None => Refusal::BadInfo.number(),
    }
}

// Whether a socket of an address that a host asks about may be dialled.
fn is_socket_valid(ip: IpAddr, allow_private_ips: bool, allow_dns: bool) -> bool
    ensures { result ≡ is_valid allow_private_ips allow_dns (Socket (socket_from ip 0)) }
{
    Ingress::Socket(SocketAddr::new(ip, 0)).is_valid(allow_private_ips, allow_dns)
}

// The address of the bytes that a host asks about.
fn address_of(bytes: &[u8]) -> Option<IpAddr>
    ensures { result ≡ address_of bytes.now }
{
    match bytes.len() {
        4 => Some(IpAddr::V4(read_array(bytes))),
        16 => Some(IpAddr::V6(read_array(bytes))),
        _ => None,
    }
}
