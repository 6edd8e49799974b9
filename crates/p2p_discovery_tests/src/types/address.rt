//! Addresses: their encoding, its bounds, and their parts.

use crate::assertions::assert_same;
use crate::codec::{is_refused, is_spelled};
use crate::types::fixtures::{LOCAL_V6, dns, labels, v4};
use p2p_discovery::codec::{CodecError, EncodeSize, MaxEncodeSize};
use p2p_discovery::types::{Address, Hostname, Ingress, IpAddr, SocketAddr};
use std::alloc::Global;
use std::process::Abort;
use std::test::Fail;

fn spells_a_symmetric_address(rt: &impl Abort, alloc: Global) -> Result<(), Fail> {
    is_spelled(
        rt,
        alloc,
        &Address::from(v4(192, 168, 1, 1, 8080)),
        b"\0\x04\xc0\xa8\x01\x01\x1f\x90",
    )
}

fn spells_an_asymmetric_address(rt: &impl Abort, alloc: Global) -> Result<(), Fail> {
    let asymmetric = Address::Asymmetric {
        ingress: Ingress::Socket(v4(10, 0, 0, 1, 8080)),
        egress: v4(192, 168, 1, 1, 9090),
    };
    is_spelled(
        rt,
        alloc,
        &asymmetric,
        b"\x01\0\x04\x0a\0\0\x01\x1f\x90\x04\xc0\xa8\x01\x01\x23\x82",
    )
}

fn spells_an_address_of_a_name(rt: &impl Abort, alloc: Global) -> Result<(), Fail> {
    let named = Address::Asymmetric {
        ingress: dns(alloc, "node.example.com", 8080)?,
        egress: v4(192, 168, 1, 1, 9090),
    };
    is_spelled(
        rt,
        alloc,
        &named,
        b"\x01\x01\x10node.example.com\x1f\x90\x04\xc0\xa8\x01\x01\x23\x82",
    )
}

#[test]
fn spells_addresses(rt: HostRuntime) -> Result<(), Fail> {
    let alloc = rt.alloc();
    spells_a_symmetric_address(&rt, alloc)?;
    spells_an_asymmetric_address(&rt, alloc)?;
    spells_an_address_of_a_name(&rt, alloc)?;
    is_refused::<Address>(&rt, alloc, b"\x02", CodecError::InvalidEnum(2))?;
    is_refused::<Address>(&rt, alloc, b"\x01\x02", CodecError::InvalidEnum(2))?;
    is_refused::<Address>(&rt, alloc, b"", CodecError::EndOfBuffer)
}

#[test]
fn bounds_spellings(rt: HostRuntime) -> Result<(), Fail> {
    let alloc = rt.alloc();
    assert_same(&rt, SocketAddr::MAX_ENCODE_SIZE, 19);
    assert_same(&rt, Hostname::MAX_ENCODE_SIZE, 258);
    assert_same(&rt, Ingress::MAX_ENCODE_SIZE, 261);
    assert_same(&rt, Address::MAX_ENCODE_SIZE, 281);
    let text = labels(alloc, &[63, 63, 63, 61])?;
    let widest = dns(alloc, text.as_str(), u16::MAX)?;
    assert_same(&rt, Hostname::new(alloc, text.as_str())?.encode_size(), 255);
    assert_same(&rt, widest.encode_size(), 258);
    let egress = SocketAddr::new(LOCAL_V6, u16::MAX);
    assert_same(&rt, egress.encode_size(), 19);
    assert_same(&rt, Ingress::Socket(egress).encode_size(), 20);
    assert_same(&rt, Address::Symmetric(egress).encode_size(), 20);
    let address = Address::Asymmetric {
        ingress: widest,
        egress,
    };
    assert_same(&rt, address.encode_size(), 278);
    Ok(())
}

fn gives_the_parts_of_sockets(rt: &impl Abort) {
    let socket = v4(127, 0, 0, 1, 8080);
    assert_same(rt, socket.ip(), IpAddr::V4([127, 0, 0, 1]));
    assert_same(rt, socket.port(), 8080);
    let ingress = Ingress::from(socket);
    assert_same(rt, &ingress, &Ingress::Socket(socket));
    assert_same(rt, ingress.port(), 8080);
    assert_same(rt, ingress.ip(), Some(IpAddr::V4([127, 0, 0, 1])));
}

fn gives_the_parts_of_a_name(rt: &impl Abort, named: &Ingress) -> Result<(), Fail> {
    assert_same(rt, named.port(), 443);
    assert_same(rt, named.ip(), None);
    assert_same(rt, &named.clone()?, named);
    Ok(())
}

fn gives_the_parts_of_the_symmetric(rt: &impl Abort, symmetric: &Address) -> Result<(), Fail> {
    assert_same(rt, symmetric, &Address::Symmetric(v4(10, 0, 0, 1, 8080)));
    assert_same(
        rt,
        &symmetric.ingress()?,
        &Ingress::Socket(v4(10, 0, 0, 1, 8080)),
    );
    assert_same(rt, symmetric.egress_ip(), IpAddr::V4([10, 0, 0, 1]));
    assert_same(rt, symmetric.egress(), v4(10, 0, 0, 1, 8080));
    Ok(())
}

fn gives_the_parts_of_the_asymmetric(
    rt: &impl Abort,
    asymmetric: &Address,
    named: &Ingress,
) -> Result<(), Fail> {
    assert_same(rt, &asymmetric.ingress()?, named);
    assert_same(rt, asymmetric.egress_ip(), IpAddr::V4([192, 168, 1, 1]));
    assert_same(rt, asymmetric.egress(), v4(192, 168, 1, 1, 9090));
    assert_same(rt, &asymmetric.clone()?, asymmetric);
    Ok(())
}

/// The address of the tests with a host name as ingress, and another address as egress.
fn asymmetric(alloc: Global) -> Result<Address, CodecError> {
    Ok(Address::Asymmetric {
        ingress: dns(alloc, "example.com", 443)?,
        egress: v4(192, 168, 1, 1, 9090),
    })
}

#[test]
fn gives_the_parts_of_addresses(rt: HostRuntime) -> Result<(), Fail> {
    gives_the_parts_of_sockets(&rt);
    let named = dns(rt.alloc(), "example.com", 443)?;
    gives_the_parts_of_a_name(&rt, &named)?;
    let symmetric = Address::from(v4(10, 0, 0, 1, 8080));
    gives_the_parts_of_the_symmetric(&rt, &symmetric)?;
    let asymmetric = asymmetric(rt.alloc())?;
    gives_the_parts_of_the_asymmetric(&rt, &asymmetric, &named)?;
    assert!(rt; asymmetric != symmetric);
    Ok(())
}
