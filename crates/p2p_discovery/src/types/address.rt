//! Where a peer is reached, and where its connections come from.

ghost use Rattle.std.specs.Prelude.{◌≡◌, ◌↔◌, ◌≤◌, length, true, IfOk, IsOk, IsTrue};
ghost use Rattle.p2p_discovery.specs.Laws.Fields.{lawful_unlimited};
ghost use Rattle.p2p_discovery.specs.Address.{same_address, dialled_ingress, egress_of, IsAddress};
ghost use Rattle.p2p_discovery.specs.Address.{address_spelling, address_at};
ghost use Rattle.p2p_discovery.specs.Ingress.{takes_none};
ghost use Rattle.p2p_discovery.specs.Socket.{socket_ip};
ghost use Rattle.p2p_discovery.specs.Laws.Address.{lawful_address, address_short};
ghost use Rattle.p2p_discovery.specs.Laws.Same.{address_equivalence, address_laws};

use crate::codec::{CodecError, EncodeSize, MaxEncodeSize, Read, Reader, Write};
use crate::types::{Ingress, IpAddr, SocketAddr};
use bytes::BytesMut;
use std::alloc::{AllocError, Global};

/// What is dialled to reach a peer, and where its connections come from. Symmetric addresses sort
/// before asymmetric ones.
#[derive(Debug, PartialOrd, Ord, Drop)]
pub enum Address {
    /// One address for both.
    Symmetric(SocketAddr),
    /// Two addresses.
    Asymmetric {
        /// What is dialled.
        ingress: Ingress,
        /// Where connections come from.
        egress: SocketAddr,
    },
}

impl Address {
    /// The ingress of the address, which is dialled to reach the peer. It doesn't allocate if that
    /// is a socket.
    ///
    /// # Errors
    ///
    /// `AllocError` if the allocation for a name fails.
    pub fn ingress(&self) -> Result<Ingress, AllocError>
        ensures ingress { IfOk result (λ ingress. ingress ≡ dialled_ingress self.now) }
        ensures socket { takes_none (dialled_ingress self.now) ≡ true → IsOk result }
    {
        match self {
            Address::Symmetric(socket) => Ok(Ingress::Socket(*socket)),
            Address::Asymmetric { ingress, egress: _ } => ingress.clone(),
        }
    }

    /// The IP of the address that connections come from.
    pub fn egress_ip(&self) -> IpAddr
        ensures { result ≡ socket_ip (egress_of self.now) }
    {
        self.egress().ip()
    }

    /// The egress of the address, with the port that connections come from.
    pub fn egress(&self) -> SocketAddr
        ensures { result ≡ egress_of self.now }
    {
        match self {
            Address::Symmetric(socket) => *socket,
            Address::Asymmetric { ingress: _, egress } => *egress,
        }
    }

    /// An equal address. It doesn't allocate if what is dialled is a socket.
    ///
    /// # Errors
    ///
    /// `AllocError` if the allocation for a name fails.
    pub fn clone(&self) -> Result<Address, AllocError>
        ensures equal { IfOk result (λ copy. copy ≡ self.now) }
        ensures socket { takes_none (dialled_ingress self.now) ≡ true → IsOk result }
    {
        match self {
            Address::Symmetric(socket) => Ok(Address::Symmetric(*socket)),
            Address::Asymmetric { ingress, egress } => Ok(Address::Asymmetric {
                ingress: ingress.clone()?,
                egress: *egress,
            }),
        }
    }
}

impl PartialEq for Address {
    ghost eq = { same_address };

    ghost laws = { address_laws };

    fn eq(&self, other: &Address) -> bool
        ensures same { result ≡ same_address self.now other.now }
        ensures exact { IsTrue result ↔ self.now ≡ other.now }
    {
        match (self, other) {
            (Address::Symmetric(socket), Address::Symmetric(other_socket)) => {
                socket == other_socket
            }
            (
                Address::Asymmetric { ingress, egress },
                Address::Asymmetric {
                    ingress: other_ingress,
                    egress: other_egress,
                },
            ) => ingress == other_ingress && egress == other_egress,
            _ => false,
        }
    }
}

impl Eq for Address {
    ghost laws = { address_equivalence };
}

impl From<SocketAddr> for Address {
    ghost use Rattle.p2p_discovery.specs.declared.types.address.Address.TheVariants.{Symmetric};

    ghost from_gives = { λ socket address. address ≡ Symmetric socket };

    fn from(socket: SocketAddr) -> Address {
        Address::Symmetric(socket)
    }
}

impl EncodeSize for Address {
    ghost IsValue = { IsAddress };

    ghost CanSpell = { λ _. Unit {0} };

    ghost spelling = { address_spelling };

    fn encode_size(&self) -> usize
        ensures size { result ≡ length (address_spelling self.now) }
        ensures value { IsAddress self.now }
        ensures bound { result ≤ 281 }
    {
        match self {
            Address::Symmetric(socket) => 1 + socket.encode_size(),
            Address::Asymmetric { ingress, egress } => {
                1 + ingress.encode_size() + egress.encode_size()
            }
        }
    }
}

impl MaxEncodeSize for Address {
    ghost MAX_ENCODE_SIZE = { 281 };

    const MAX_ENCODE_SIZE: usize = 281;

    ghost at_most_max = { address_short };
}

const SYMMETRIC_PREFIX: u8 = 0;

const ASYMMETRIC_PREFIX: u8 = 1;

impl Write for Address {
    fn write(&self, buf: &mut BytesMut) {
        match self {
            Address::Symmetric(socket) => socket.write_behind(SYMMETRIC_PREFIX, buf),
            Address::Asymmetric { ingress, egress } => {
                buf.extend_reserved(&[ASYMMETRIC_PREFIX]);
                ingress.write(buf);
                egress.write(buf);
            }
        }
    }
}

impl Read for Address {
    type Cfg = ();

    ghost Admits = { λ _ _. Unit {0} };

    ghost reading = { λ _. address_at };

    #[tactic(auto, unfolding(crate::specs::Address::address_at))]
    fn read(alloc: Global, reader: &mut Reader<'_>, cfg: &()) -> Result<Address, CodecError> {
        match reader.byte()? {
            SYMMETRIC_PREFIX => {
                let socket = SocketAddr::read(alloc, reader, cfg)?;
                Ok(Address::Symmetric(socket))
            }
            ASYMMETRIC_PREFIX => {
                let ingress = Ingress::read(alloc, reader, cfg)?;
                let egress = SocketAddr::read(alloc, reader, cfg)?;
                Ok(Address::Asymmetric { ingress, egress })
            }
            prefix => Err(CodecError::InvalidEnum(prefix)),
        }
    }

    ghost lawful = { λ _. lawful_unlimited lawful_address };
}
