//! Addresses with a port: their encoding.

use crate::codec::{is_refused, is_spelled};
use crate::types::fixtures::{LOCAL_V6, v4};
use p2p_discovery::codec::CodecError;
use p2p_discovery::types::SocketAddr;
use std::test::Fail;

#[test]
fn spells_sockets(rt: HostRuntime) -> Result<(), Fail> {
    is_spelled(
        &rt,
        rt.alloc(),
        &v4(192, 168, 1, 1, 65535),
        b"\x04\xc0\xa8\x01\x01\xff\xff",
    )?;
    is_spelled(
        &rt,
        rt.alloc(),
        &SocketAddr::new(LOCAL_V6, 443),
        b"\x06\0\0\0\0\0\0\0\0\0\0\0\0\0\0\0\x01\x01\xbb",
    )?;
    is_refused::<SocketAddr>(&rt, rt.alloc(), b"\x05", CodecError::InvalidEnum(5))?;
    is_refused::<SocketAddr>(&rt, rt.alloc(), b"\x04\x7f\0\0", CodecError::EndOfBuffer)
}
