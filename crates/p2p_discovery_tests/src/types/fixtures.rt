//! Addresses that the tests of addresses share.

use p2p_discovery::codec::CodecError;
use p2p_discovery::types::{Hostname, Ingress, IpAddr, SocketAddr};
use std::alloc::Global;
use std::test::Fail;

pub const LOCAL_V6: IpAddr = IpAddr::V6([0, 0, 0, 0, 0, 0, 0, 0, 0, 0, 0, 0, 0, 0, 0, 1]);

pub fn v4(a: u8, b: u8, c: u8, d: u8, port: u16) -> SocketAddr {
    SocketAddr::new(IpAddr::V4([a, b, c, d]), port)
}

pub fn dns(alloc: Global, host: &str, port: u16) -> Result<Ingress, CodecError> {
    Ok(Ingress::Dns {
        host: Hostname::new(alloc, host)?,
        port,
    })
}

/// Labels of these lengths, joined by dots, a fixture of the tests of addresses.
pub fn labels(alloc: Global, lengths: &[usize]) -> Result<String, Fail> {
    let mut text = String::new(alloc);
    for (i, length) in lengths.iter().enumerate() {
        if i > 0 {
            text.push('.')?;
        }
        for _ in 0..*length {
            text.push('a')?;
        }
    }
    Ok(text)
}
