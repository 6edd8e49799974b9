//! What peers say of themselves, and to each other.
//!
//! docs/FORMATS.md says how it is encoded.

ghost use Rattle.std.specs.Prelude.{◌≡◌, true, IfOk, IsOk};
ghost use Rattle.p2p_discovery.specs.Ingress.{takes_none};

mod bits_codec;
mod info_codec;
mod info_list;
mod info_signing;
pub mod laws;
mod payload_codec;
mod verifier;

use crate::codec::PublicKey;
use crate::data::Data;
use crate::sets::BitMap;
use crate::types::Ingress;
pub use info_list::Infos;
pub use info_signing::SignedBytes;
pub use payload_codec::max_gossip_size;
use std::alloc::AllocError;
use thiserror::Error;
pub use verifier::InfoVerifier;

/// Where a peer says that it can be reached, signed by it.
#[derive(Debug, Drop)]
pub struct Info<C: PublicKey> {
    /// Where the peer can be reached.
    pub ingress: Ingress,
    /// When the peer signed this, in epoch milliseconds.
    pub timestamp: u64,
    /// The key of the peer.
    pub public_key: C,
    /// The peer's signature over the ingress and the timestamp.
    pub signature: C::Signature,
}

impl<C: PublicKey> Info<C> {
    /// An equal info. It doesn't allocate if the info has a socket address.
    ///
    /// # Errors
    ///
    /// `AllocError` if the allocation for a name fails.
    pub fn clone(&self) -> Result<Info<C>, AllocError>
        ensures equal { IfOk result (λ copy. copy ≡ self.now) }
        ensures socket { takes_none self.now.ingress ≡ true → IsOk result }
    {
        Ok(Info {
            ingress: self.ingress.clone()?,
            timestamp: self.timestamp,
            public_key: self.public_key,
            signature: self.signature,
        })
    }
}

/// Which infos a peer knows: one bit for each primary peer of the set with this index.
#[derive(Debug, PartialEq, Eq, Drop)]
pub struct BitVec {
    /// The index of the set.
    pub index: u64,
    /// For each of its primary peers, in order, whether its info is known.
    pub bits: BitMap,
}

/// The limits under which payloads are read.
#[derive(Clone, Copy)]
pub struct PayloadConfig {
    /// The maximum number of bits.
    pub max_bit_vec: u64,
    /// The maximum number of infos.
    pub max_peers: usize,
    /// The maximum length of a message, in bytes.
    pub max_data_length: usize,
}

/// What peers tell each other.
#[derive(Drop)]
pub enum Payload<C: PublicKey> {
    /// A message on a channel.
    Data(Data),
    /// The sender's own info.
    Greeting(Info<C>),
    /// Which infos the sender knows.
    BitVec(BitVec),
    /// Infos of peers.
    Peers(Infos<C>),
}

/// Why an info, or a list of them, is refused.
#[derive(Clone, Copy, Debug, PartialEq, Eq, Error)]
pub enum Error {
    /// A list of so many infos is too long.
    #[error("too many peers: {0}")]
    TooManyPeers(usize),
    /// An info has the local key.
    #[error("received self")]
    ReceivedSelf,
    /// A signature is invalid.
    #[error("invalid signature")]
    InvalidSignature,
    /// A timestamp is too far in the future.
    #[error("synchrony bound violated")]
    SynchronyBound,
}
