//! Where a peer listens: its encoding, and which may be dialled.

use crate::assertions::{assert_same, assert_same_for};
use crate::codec::{is_refused, is_spelled};
use crate::types::fixtures::{LOCAL_V6, dns, v4};
use bytes::Bytes;
use p2p_discovery::codec::{CodecError, Read, What};
use p2p_discovery::types::{Ingress, SocketAddr};
use std::test::Fail;

#[test]
fn spells_ingresses(rt: HostRuntime) -> Result<(), Fail> {
    let alloc = rt.alloc();
    is_spelled(
        &rt,
        alloc,
        &Ingress::from(v4(127, 0, 0, 1, 8080)),
        b"\0\x04\x7f\0\0\x01\x1f\x90",
    )?;
    is_spelled(
        &rt,
        alloc,
        &Ingress::Socket(SocketAddr::new(LOCAL_V6, 443)),
        b"\0\x06\0\0\0\0\0\0\0\0\0\0\0\0\0\0\0\x01\x01\xbb",
    )?;
    is_spelled(
        &rt,
        alloc,
        &dns(alloc, "localhost", 8080)?,
        b"\x01\x09localhost\x1f\x90",
    )?;
    is_spelled(
        &rt,
        alloc,
        &dns(alloc, "a.b.c.d.e.f.g", 1234)?,
        b"\x01\x0da.b.c.d.e.f.g\x04\xd2",
    )
}

const NO_NAME: CodecError = CodecError::Invalid(What::Hostname);

static REFUSED_INGRESSES: [(&'static [u8], CodecError); 16] = [
    (b"\0\x05", CodecError::InvalidEnum(5)),
    (b"\x02\0", CodecError::InvalidEnum(2)),
    (b"\x01\0", CodecError::InvalidLength(0)),
    (b"\x01\xfe\x01", CodecError::InvalidLength(254)),
    (b"\x01\x80\x02", CodecError::InvalidLength(256)),
    (b"\x01\xac\x02aaa", CodecError::InvalidLength(300)),
    (b"\x01\x80\0", CodecError::InvalidVarint(5)),
    (b"\x01\x09l", CodecError::EndOfBuffer),
    (b"\x01\x01a\0", CodecError::EndOfBuffer),
    (b"\x01\x01-\0P", NO_NAME),
    (b"\x01\x02-a\0P", NO_NAME),
    (b"\x01\x02a-\0P", NO_NAME),
    (b"\x01\x03a..\0P", NO_NAME),
    (b"\x01\x02.a\0P", NO_NAME),
    (b"\x01\x03a_b\0P", NO_NAME),
    (b"\x01\x02\xc3\xa9\0P", NO_NAME),
];

#[test]
fn refuses_ingresses(rt: HostRuntime) -> Result<(), Fail> {
    for (bytes, fault) in REFUSED_INGRESSES {
        is_refused::<Ingress>(&rt, rt.alloc(), bytes, fault)?;
    }
    let bytes = Bytes::from_static(b"\0\x04\x7f\0\0\x01\x1f\x90\0");
    assert_same(
        &rt,
        Ingress::decode(rt.alloc(), bytes).err(),
        Some(CodecError::ExtraData(1)),
    );
    Ok(())
}

#[test]
fn judges_what_may_be_dialled(rt: HostRuntime) -> Result<(), Fail> {
    let named = dns(rt.alloc(), "example.com", 8080)?;
    let global = Ingress::Socket(v4(8, 8, 8, 8, 8080));
    let private = Ingress::Socket(v4(10, 0, 0, 1, 8080));
    let cases = [
        (false, false, [true, false, false]),
        (false, true, [true, false, true]),
        (true, false, [true, true, false]),
        (true, true, [true, true, true]),
    ];
    for (private_ips, names, want) in cases {
        let given = [
            global.is_valid(private_ips, names),
            private.is_valid(private_ips, names),
            named.is_valid(private_ips, names),
        ];
        assert_same_for(&rt, given, want, (private_ips, names));
    }
    Ok(())
}
