//! Where a peer is reached.

ghost use Rattle.std.specs.Prelude.{◌≡◌, ◌↔◌, ◌≤◌, length, true, IfOk, IsOk, IsTrue};
ghost use Rattle.p2p_discovery.specs.Laws.Fields.{lawful_unlimited};
ghost use Rattle.p2p_discovery.specs.Ingress.{same_ingress, is_valid, port_of, ip_of, takes_none};
ghost use Rattle.p2p_discovery.specs.Ingress.{IsIngress, ingress_spelling, ingress_at};
ghost use Rattle.p2p_discovery.specs.Laws.Ingress.{lawful_ingress, ingress_short};
ghost use Rattle.p2p_discovery.specs.Laws.Same.{ingress_equivalence, ingress_laws};

use crate::codec::{CodecError, EncodeSize, MaxEncodeSize, Read, Reader, Write};
use crate::types::socket::read_port;
use crate::types::{Hostname, IpAddr, SocketAddr};
use bytes::BytesMut;
use std::alloc::{AllocError, Global};

/// What is dialled to reach a peer: a socket address, or a name to be resolved and a port. Sockets
/// sort before names.
#[derive(Debug, PartialOrd, Ord, Drop)]
pub enum Ingress {
    /// A socket address.
    Socket(SocketAddr),
    /// A name with a port.
    Dns {
        /// The name to resolve.
        host: Hostname,
        /// The port to connect to.
        port: u16,
    },
}

impl Ingress {
    /// The port of the ingress to connect to.
    pub fn port(&self) -> u16
        ensures { result ≡ port_of self.now }
    {
        match self {
            Ingress::Socket(socket) => socket.port(),
            Ingress::Dns { host: _, port } => *port,
        }
    }

    /// The address of an ingress that is a socket, or `None` for a name.
    pub fn ip(&self) -> Option<IpAddr>
        ensures { result ≡ ip_of self.now }
    {
        match self {
            Ingress::Socket(socket) => Some(socket.ip()),
            Ingress::Dns { host: _, port: _ } => None,
        }
    }

    /// Whether the ingress may be dialled. A socket may if private addresses are allowed or its
    /// address is global, a name exactly if names are allowed.
    #[tactic(auto, unfolding(crate::specs::Ingress::is_valid))]
    pub fn is_valid(&self, allow_private_ips: bool, allow_dns: bool) -> bool
        ensures { result ≡ is_valid allow_private_ips allow_dns self.now }
    {
        match self {
            Ingress::Socket(socket) => allow_private_ips || socket.ip().is_global(),
            Ingress::Dns { host: _, port: _ } => allow_dns,
        }
    }

    /// An equal ingress. It doesn't allocate if it is a socket.
    ///
    /// # Errors
    ///
    /// `AllocError` if the allocation for a name fails.
    pub fn clone(&self) -> Result<Ingress, AllocError>
        ensures equal { IfOk result (λ copy. copy ≡ self.now) }
        ensures socket { takes_none self.now ≡ true → IsOk result }
    {
        match self {
            Ingress::Socket(socket) => Ok(Ingress::Socket(*socket)),
            Ingress::Dns { host, port } => Ok(Ingress::Dns {
                host: host.clone()?,
                port: *port,
            }),
        }
    }
}

impl PartialEq for Ingress {
    ghost eq = { same_ingress };

    ghost laws = { ingress_laws };

    fn eq(&self, other: &Ingress) -> bool
        ensures same { result ≡ same_ingress self.now other.now }
        ensures exact { IsTrue result ↔ self.now ≡ other.now }
    {
        match (self, other) {
            (Ingress::Socket(socket), Ingress::Socket(other_socket)) => socket == other_socket,
            (
                Ingress::Dns { host, port },
                Ingress::Dns {
                    host: other_host,
                    port: other_port,
                },
            ) => host == other_host && port == other_port,
            _ => false,
        }
    }
}

impl Eq for Ingress {
    ghost laws = { ingress_equivalence };
}

impl From<SocketAddr> for Ingress {
    ghost use Rattle.p2p_discovery.specs.declared.types.ingress.Ingress.TheVariants.{Socket};

    ghost from_gives = { λ socket ingress. ingress ≡ Socket socket };

    fn from(socket: SocketAddr) -> Ingress {
        Ingress::Socket(socket)
    }
}

impl EncodeSize for Ingress {
    ghost IsValue = { IsIngress };

    ghost CanSpell = { λ _. Unit {0} };

    ghost spelling = { ingress_spelling };

    fn encode_size(&self) -> usize
        ensures size { result ≡ length (ingress_spelling self.now) }
        ensures value { IsIngress self.now }
        ensures bound { result ≤ 261 }
    {
        match self {
            Ingress::Socket(socket) => 1 + socket.encode_size(),
            Ingress::Dns { host, port } => {
                let _port = *port;
                1 + host.encode_size() + 2
            }
        }
    }
}

impl MaxEncodeSize for Ingress {
    ghost MAX_ENCODE_SIZE = { 261 };

    const MAX_ENCODE_SIZE: usize = 261;

    ghost at_most_max = { ingress_short };
}

pub(crate) const SOCKET_PREFIX: u8 = 0;

pub(crate) const DNS_PREFIX: u8 = 1;

impl Write for Ingress {
    #[inline(always)]
    fn write(&self, buf: &mut BytesMut) {
        match self {
            Ingress::Socket(socket) => socket.write_behind(SOCKET_PREFIX, buf),
            Ingress::Dns { host, port } => {
                buf.extend_reserved(&[DNS_PREFIX]);
                host.write(buf);
                buf.extend_reserved(&port.to_be_bytes());
            }
        }
    }
}

impl Read for Ingress {
    type Cfg = ();

    ghost Admits = { λ _ _. Unit {0} };

    ghost reading = { λ _. ingress_at };

    #[inline(always)]
    #[tactic(auto, unfolding(crate::specs::Ingress::ingress_at))]
    fn read(alloc: Global, reader: &mut Reader<'_>, cfg: &()) -> Result<Ingress, CodecError> {
        match reader.byte()? {
            SOCKET_PREFIX => {
                let socket = SocketAddr::read(alloc, reader, cfg)?;
                Ok(Ingress::Socket(socket))
            }
            DNS_PREFIX => {
                let host = Hostname::read(alloc, reader, cfg)?;
                let port = read_port(reader)?;
                Ok(Ingress::Dns { host, port })
            }
            prefix => Err(CodecError::InvalidEnum(prefix)),
        }
    }

    ghost lawful = { λ _. lawful_unlimited lawful_ingress };
}
