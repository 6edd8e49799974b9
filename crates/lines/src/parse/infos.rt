//! Words of addresses and of infos.

use crate::fault::Fault;
use crate::parse::words::number;
use p2p_discovery::codec::{CodecError, TestKey};
use p2p_discovery::discovery::Info;
use p2p_discovery::types::{Hostname, Ingress, IpAddr, SocketAddr};
use std::alloc::Global;
use std::net::{Ipv4Addr, Ipv6Addr};
use std::num::IntErrorKind;

const ADDRESS: Fault = Fault::Form("an address as 1.2.3.4:80, [::1]:80 or ~host.name:80");

const INFO: Fault = Fault::Form("an info as 1@1000, 1@1000:8001 or 1@1000@1.2.3.4:8001");

/// Parses a word of an info as a port.
fn port(word: &str) -> Result<u16, Fault> {
    match word.parse::<u16>() {
        Ok(port) => Ok(port),
        Err(error) if *error.kind() == IntErrorKind::PosOverflow => {
            Err(Fault::TooLarge("port", 65_535))
        }
        Err(_) => Err(Fault::Form("a port")),
    }
}

// Parses a word of an info as the address of a machine.
fn machine(word: &str) -> Result<IpAddr, Fault> {
    match word.strip_prefix('[') {
        Some(rest) => match rest.strip_suffix(']') {
            Some(inner) => version_6(inner),
            None => Err(ADDRESS),
        },
        None => match word.parse::<Ipv4Addr>() {
            Ok(address) => Ok(IpAddr::V4(address.octets())),
            Err(_) => Err(ADDRESS),
        },
    }
}

fn version_6(word: &str) -> Result<IpAddr, Fault> {
    match word.parse::<Ipv6Addr>() {
        Ok(address) => Ok(IpAddr::V6(address.octets())),
        Err(_) => Err(ADDRESS),
    }
}

fn host_name(alloc: Global, word: &str) -> Result<Hostname, Fault> {
    match Hostname::new(alloc, word) {
        Ok(host) => Ok(host),
        Err(CodecError::Memory) => Err(Fault::Memory),
        Err(_) => Err(Fault::Form("a host name")),
    }
}

/// Parses a word of an info as an ingress: `1.2.3.4:80`, `[::1]:80` or `~host.name:80`.
pub fn ingress(alloc: Global, word: &str) -> Result<Ingress, Fault> {
    let Some((host, end)) = word.rsplit_once(':') else {
        return Err(ADDRESS);
    };
    let port = port(end)?;
    match host.strip_prefix('~') {
        Some(name) => Ok(Ingress::Dns {
            host: host_name(alloc, name)?,
            port,
        }),
        None => Ok(Ingress::Socket(SocketAddr::new(machine(host)?, port))),
    }
}

/// Parses the word as bootstrappers, typed like infos, as `3@1.2.3.4:8003`.
pub fn bootstrappers(alloc: Global, word: &str) -> Result<Vec<(TestKey, Ingress)>, Fault> {
    let mut bootstrappers = Vec::new(alloc);
    if word != "-" {
        for entry in word.split(',') {
            let Some((peer, at)) = entry.split_once('@') else {
                return Err(Fault::Form("bootstrappers as 3@1.2.3.4:8003"));
            };
            bootstrappers.push((TestKey(number(peer)?), ingress(alloc, at)?))?;
        }
    }
    Ok(bootstrappers)
}

/// The info of these parsed parts, signed by the key in the namespace.
pub fn signed(key: TestKey, namespace: &[u8], ingress: Ingress, timestamp: u64) -> Info<TestKey> {
    Info::sign(key, namespace, ingress, timestamp, |namespace, message| {
        key.sign(namespace, message)
    })
}

// The ingress at 1.2.3.4 of a parsed info that names only a port.
fn at_port(port: u16) -> Ingress {
    Ingress::Socket(SocketAddr::new(IpAddr::V4([1, 2, 3, 4]), port))
}

// The port of a peer whose parsed info names none.
fn port_of(peer: u64) -> Result<u16, Fault> {
    match u16::try_from(peer.saturating_add(8_000)) {
        Ok(port) => Ok(port),
        Err(_) => Err(Fault::TooLarge("peer without a port", 57_535)),
    }
}

// Parses what of an info is typed after the key, as the ingress of a peer and the timestamp.
fn place_and_time(alloc: Global, peer: u64, rest: &str) -> Result<(Ingress, u64), Fault> {
    if let Some((timestamp, at)) = rest.split_once('@') {
        return Ok((ingress(alloc, at)?, number(timestamp)?));
    }
    match rest.split_once(':') {
        Some((timestamp, end)) => Ok((at_port(port(end)?), number(timestamp)?)),
        None => Ok((at_port(port_of(peer)?), number(rest)?)),
    }
}

/// Parses the word as an info, signed in the namespace if it names no other.
pub fn info(alloc: Global, word: &str, namespace: &[u8]) -> Result<Info<TestKey>, Fault> {
    let (word, namespace) = match word.split_once('!') {
        Some((word, other)) => (word, other.as_bytes()),
        None => (word, namespace),
    };
    let Some((peer, rest)) = word.split_once('@') else {
        return Err(INFO);
    };
    let peer = number(peer)?;
    let (ingress, timestamp) = place_and_time(alloc, peer, rest)?;
    Ok(signed(TestKey(peer), namespace, ingress, timestamp))
}

/// Parses the word as a list of infos.
pub fn infos(alloc: Global, word: &str, namespace: &[u8]) -> Result<Vec<Info<TestKey>>, Fault> {
    let mut infos = Vec::new(alloc);
    if word != "-" {
        for entry in word.split(',') {
            infos.push(info(alloc, entry, namespace)?)?;
        }
    }
    Ok(infos)
}
