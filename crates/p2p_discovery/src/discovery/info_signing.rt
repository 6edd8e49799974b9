//! What an info's signature covers, how an info is signed, and how its signature is verified.

ghost use Rattle.std.specs.Prelude.{◌≡◌, ◌+◌, ◌≤◌, ◌++◌, true, length};
ghost use Rattle.std.specs.Fn.{FnOnceReturnsAtPair};
ghost use Rattle.p2p_discovery.specs.Ingress.{ingress_spelling};
ghost use Rattle.p2p_discovery.specs.Socket.{socket_spelling};
ghost use Rattle.p2p_discovery.specs.Hostname.{hostname_spelling};
ghost use Rattle.p2p_discovery.specs.Varint.{varint32};
ghost use Rattle.p2p_discovery.specs.Judgement.{signed_bytes, is_signed_in};

use crate::codec::PublicKey;
use crate::discovery::Info;
use crate::types::ingress::{DNS_PREFIX, SOCKET_PREFIX};
use crate::types::socket::{VERSION_4, VERSION_6};
use crate::types::{Hostname, Ingress, IpAddr, SocketAddr};
use std::marker::Model;

impl<C: PublicKey> Info<C> {
    /// Signs the info of these parts, with the closure's result as its signature. The closure is
    /// called once, with the namespace and what is signed: the encoded ingress, then the timestamp
    /// in eight bytes, big-endian. If its result verifies, the info does. It doesn't allocate.
    ///
    /// # Conditions
    ///
    /// The closure itself has none.
    ///
    /// # Cost
    ///
    /// At most 269 bytes are signed, which are on the stack.
    pub fn sign<F: FnOnce(&[u8], &[u8]) -> C::Signature>(
        public_key: C,
        namespace: &[u8],
        ingress: Ingress,
        timestamp: u64,
        sign: F,
    ) -> Info<C>
        requires { F.IsAlwaysCallable sign }
        ensures parts { (result.public_key ≡ public_key) × (result.ingress ≡ ingress)
            × (result.timestamp ≡ timestamp) }
        ensures signature { FnOnceReturnsAtPair F.FnOnce sign namespace.now
            (signed_bytes ingress timestamp) result.signature }
        ensures verifies { C.verifies public_key namespace.now (signed_bytes ingress timestamp)
            result.signature ≡ true
            → is_signed_in C.verifies namespace.now result ≡ true }
    {
        let signed = SignedBytes::of(&ingress, timestamp);
        let signature = sign(namespace, signed.as_slice());
        Info {
            ingress,
            timestamp,
            public_key,
            signature,
        }
    }

    /// What is signed of the info: the encoded ingress, then the timestamp in eight bytes,
    /// big-endian. It doesn't allocate.
    ///
    /// # Cost
    ///
    /// At most 269 bytes are copied.
    pub fn signed(&self) -> SignedBytes
        ensures { result ≡ signed_bytes self.now.ingress self.now.timestamp }
    {
        SignedBytes::of(&self.ingress, self.timestamp)
    }

    /// Whether the info's signature is one of its key over the namespace and what is signed. It
    /// doesn't allocate.
    ///
    /// # Cost
    ///
    /// One [`PublicKey::verify`], over at most 269 bytes, which are on the stack.
    pub fn verify(&self, namespace: &[u8]) -> bool
        ensures { result ≡ is_signed_in C.verifies namespace.now self.now }
    {
        let signed = self.signed();
        self.public_key
            .verify(namespace, signed.as_slice(), &self.signature)
    }
}

// The maximum number of signed bytes: those of an ingress, and eight of a timestamp.
const SIGNED_SIZE: usize = 269;

impl Ingress {
    /// The encoding of the ingress that is signed in an info, as
    /// [`Write::encode`](crate::codec::Write::encode) returns it, in an array. It needs no
    /// allocation.
    ///
    /// # Cost
    ///
    /// At most 261 bytes are copied.
    pub fn encoded(&self) -> SignedBytes
        ensures { result ≡ ingress_spelling self.now }
    {
        SignedBytes::of_ingress(self)
    }
}

/// The bytes that an info's signature covers, or those that they begin with, the encoding of its
/// ingress. They are in an array, so they need no allocation. A contract sees these bytes.
#[derive(Drop)]
pub struct SignedBytes {
    room: [u8; SIGNED_SIZE],
    len: usize,
}

impl Model for SignedBytes {
    ghost use Rattle.std.specs.Prelude.{ℕ, List, ◌≤◌, take};

    ghost Value = { List ℕ };

    ghost view = { λ s. take s.len s.room };

    ghost invariant = { λ s. s.len ≤ 269 };
}

impl SignedBytes {
    // The bytes that are signed of an info.
    #[tactic(auto, unfolding(crate::specs::Judgement::signed_bytes))]
    fn of(ingress: &Ingress, timestamp: u64) -> SignedBytes
        ensures { result ≡ signed_bytes ingress.now timestamp }
    {
        let mut signed = SignedBytes::of_ingress(ingress);
        signed.push(&timestamp.to_be_bytes());
        signed
    }

    // The encoding of an ingress, as it is signed in an info.
    fn of_ingress(ingress: &Ingress) -> SignedBytes
        ensures items { result ≡ ingress_spelling ingress.now }
        ensures bound { length result ≤ 261 }
    {
        let mut bytes = SignedBytes {
            room: [0; SIGNED_SIZE],
            len: 0,
        };
        match ingress {
            Ingress::Socket(socket) => {
                bytes.push(&[SOCKET_PREFIX]);
                bytes.push_socket(socket);
            }
            Ingress::Dns { host, port } => {
                bytes.push(&[DNS_PREFIX]);
                bytes.push_name(host);
                bytes.push(&port.to_be_bytes());
            }
        }
        bytes
    }

    fn push_socket(&mut self, socket: &SocketAddr)
        requires { length self.old ≤ 1 }
        ensures items { self.new ≡ self.old ++ socket_spelling socket.now }
        ensures bound { length self.new ≤ length self.old + 19 }
    {
        match socket.ip() {
            IpAddr::V4(address) => {
                self.push(&[VERSION_4]);
                self.push(&address);
            }
            IpAddr::V6(address) => {
                self.push(&[VERSION_6]);
                self.push(&address);
            }
        }
        self.push(&socket.port().to_be_bytes());
    }

    fn push_name(&mut self, host: &Hostname)
        requires { length self.old ≤ 1 }
        ensures items { self.new ≡ self.old ++ hostname_spelling host.now }
        ensures bound { length self.new ≤ length self.old + 255 }
    {
        let text = host.as_str().as_bytes();
        self.push_length(text.len() as u8);
        self.push(text);
    }

    fn push_length(&mut self, count: u8)
        requires { length self.old ≤ 1 }
        ensures items { self.new ≡ self.old ++ varint32 count }
        ensures bound { length self.new ≤ length self.old + 2 }
    {
        if count < 128 {
            self.push(&[count]);
        } else {
            self.push(&[count, 1]);
        }
    }

    fn push(&mut self, bytes: &[u8])
        requires { length self.old + length bytes.now ≤ 269 }
        ensures { self.new ≡ self.old ++ bytes.now }
    {
        let end = self.len + bytes.len();
        self.room[self.len..end].copy_from_slice(bytes);
        self.len = end;
    }

    /// The bytes that are signed, as a slice.
    pub fn as_slice(&self) -> &[u8]
        ensures { result.now ≡ self.now }
    {
        &self.room[..self.len]
    }
}
