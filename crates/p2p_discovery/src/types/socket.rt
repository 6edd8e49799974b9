//! Addresses of machines, and ports there.

ghost use Rattle.std.specs.Prelude.{◌≡◌, ◌+◌, ◌<◌, ◌≤◌, ◌∷◌, ◌++◌, length};
ghost use Rattle.p2p_discovery.specs.Reading.{Gives};
ghost use Rattle.p2p_discovery.specs.Fields.{IsSized, port_at};
ghost use Rattle.p2p_discovery.specs.Laws.Fields.{lawful_unlimited};
ghost use Rattle.p2p_discovery.specs.Global.{is_global};
ghost use Rattle.p2p_discovery.specs.Socket.{socket_from, socket_ip, socket_port, IsIp, IsSocket};
ghost use Rattle.p2p_discovery.specs.Socket.{ip_spelling, socket_spelling, socket_at};
ghost use Rattle.p2p_discovery.specs.Laws.Socket.{lawful_socket, socket_short};

use crate::codec::{
    CodecError, EncodeSize, MaxEncodeSize, Read, Reader, Write, are_bytes, read_array,
};
use crate::types::global::{is_listed_v4, is_listed_v6};
use bytes::BytesMut;
use std::alloc::Global;

/// The address of a machine. Addresses of version 4 sort before those of version 6, and those of
/// one version are ordered by their bytes.
#[derive(Clone, Copy, Debug, PartialEq, Eq, PartialOrd, Ord)]
pub enum IpAddr {
    /// An address of version 4.
    V4([u8; 4]),
    /// An address of version 6.
    V6([u8; 16]),
}

impl IpAddr {
    /// Whether the address of a socket is global: it is in none of the ranges that docs/FORMATS.md
    /// lists for its version.
    #[tactic(auto, unfolding(crate::specs::Global::is_global))]
    pub fn is_global(&self) -> bool
        ensures { result ≡ is_global self.now }
    {
        match self {
            IpAddr::V4(address) => !is_listed_v4(*address),
            IpAddr::V6(address) => !is_listed_v6(*address),
        }
    }
}

/// The address of a machine, and a port there. Ordered by the address, then by the port.
#[derive(Clone, Copy, Debug, PartialEq, Eq, PartialOrd, Ord)]
pub struct SocketAddr {
    ip: IpAddr,
    port: u16,
}

impl SocketAddr {
    /// The socket address of a port of a machine.
    pub fn new(ip: IpAddr, port: u16) -> SocketAddr
        ensures { result ≡ socket_from ip port }
    {
        SocketAddr { ip, port }
    }

    /// The IP address of the socket's machine.
    pub fn ip(&self) -> IpAddr
        ensures { result ≡ socket_ip self.now }
    {
        self.ip
    }

    /// The port of the socket.
    pub fn port(&self) -> u16
        ensures { result ≡ socket_port self.now }
    {
        self.port
    }

    // Appends a byte and the encoding of the socket address.
    #[inline(always)]
    pub(crate) fn write_behind(&self, prefix: u8, buf: &mut BytesMut)
        requires { 1 + length (socket_spelling self.now) ≤ buf.old.spare }
        ensures items { buf.new.items ≡ buf.old.items ++ prefix ∷ socket_spelling self.now }
        ensures spare { buf.new.spare + (1 + length (socket_spelling self.now)) ≡ buf.old.spare }
    {
        let port = self.port.to_be_bytes();
        match &self.ip {
            IpAddr::V4(b) => {
                let parts = [prefix, VERSION_4, b[0], b[1], b[2], b[3], port[0], port[1]];
                buf.extend_reserved(&parts);
            }
            IpAddr::V6(bytes) => {
                buf.extend_reserved(&[prefix, VERSION_6]);
                buf.extend_reserved(bytes);
                buf.extend_reserved(&port);
            }
        }
    }
}

impl EncodeSize for SocketAddr {
    ghost IsValue = { IsSocket };

    ghost CanSpell = { λ _. Unit {0} };

    ghost spelling = { socket_spelling };

    fn encode_size(&self) -> usize
        ensures size { result ≡ length (socket_spelling self.now) }
        ensures value { IsSocket self.now }
        ensures bound { result ≤ 19 }
    {
        let _port = self.port;
        ip_size(&self.ip) + 2
    }
}

impl MaxEncodeSize for SocketAddr {
    ghost MAX_ENCODE_SIZE = { 19 };

    const MAX_ENCODE_SIZE: usize = 19;

    ghost at_most_max = { socket_short };
}

impl Write for SocketAddr {
    fn write(&self, buf: &mut BytesMut) {
        match &self.ip {
            IpAddr::V4(b) => {
                let port = self.port.to_be_bytes();
                buf.extend_reserved(&[VERSION_4, b[0], b[1], b[2], b[3], port[0], port[1]]);
            }
            IpAddr::V6(bytes) => {
                buf.extend_reserved(&[VERSION_6]);
                buf.extend_reserved(bytes);
                buf.extend_reserved(&self.port.to_be_bytes());
            }
        }
    }
}

impl Read for SocketAddr {
    type Cfg = ();

    ghost Admits = { λ _ _. Unit {0} };

    ghost reading = { λ _. socket_at };

    #[inline(always)]
    // Reads a socket address, with the port in each arm, so that an address isn't moved through a
    // result of its own.
    #[tactic(auto, unfolding(crate::specs::Socket::socket_at, crate::specs::Socket::ip_at))]
    fn read(_alloc: Global, reader: &mut Reader<'_>, _cfg: &()) -> Result<SocketAddr, CodecError> {
        match reader.byte()? {
            VERSION_4 => {
                let ip = IpAddr::V4(read_array(reader.counted(4)?));
                let port = read_port(reader)?;
                Ok(SocketAddr { ip, port })
            }
            VERSION_6 => {
                let ip = IpAddr::V6(read_array(reader.counted(16)?));
                let port = read_port(reader)?;
                Ok(SocketAddr { ip, port })
            }
            version => Err(CodecError::InvalidEnum(version)),
        }
    }

    ghost lawful = { λ _. lawful_unlimited lawful_socket };
}

pub(crate) const VERSION_4: u8 = 4;

pub(crate) const VERSION_6: u8 = 6;

// The number of bytes of the encoding of a socket's address without its port.
fn ip_size(ip: &IpAddr) -> usize
    ensures size { result ≡ length (ip_spelling ip.now) }
    ensures value { IsIp ip.now }
    ensures bound { result ≤ 17 }
{
    match ip {
        IpAddr::V4(bytes) => 1 + array_len(bytes),
        IpAddr::V6(bytes) => 1 + array_len(bytes),
    }
}

fn array_len<const N: usize>(bytes: &[u8; N]) -> usize
    requires { N < 20 }
    ensures length { result ≡ N }
    ensures sized { IsSized N bytes.now }
{
    are_bytes(bytes);
    N
}

// Reads the port of a socket: two bytes, big-endian.
pub(crate) fn read_port(reader: &mut Reader<'_>) -> Result<u16, CodecError>
    ensures { Gives result reader.new (port_at reader.old) }
{
    let bytes = reader.counted(2)?;
    Ok(u16::from_be_bytes([bytes[0], bytes[1]]))
}
