//! Values that are decoded from bytes.

ghost use Rattle.std.specs.Prelude.{◌<◌, ◌^◌};
ghost use Rattle.p2p_discovery.specs.Payload.{CanSpell};

use crate::printed::Line;
use bytes::Bytes;
use p2p_discovery::codec::{CodecError, PublicKey, RangeCfg, Read, TestKey, Write};
use p2p_discovery::data::Data;
use p2p_discovery::discovery::{BitVec, Info, Infos, Payload, PayloadConfig};
use p2p_discovery::types::{Address, Ingress};
use std::alloc::Global;
use std::fmt;

/// What kind of value bytes are decoded as, and under which limits.
#[derive(Clone, Copy)]
pub enum Kind {
    /// What peers send each other.
    Payload(PayloadConfig),
    /// An info.
    Info,
    /// A list of infos, with limits on their number.
    Infos(RangeCfg),
    /// The address at which a peer is reached, or a name with a port.
    Ingress,
    /// The address of a peer.
    Address,
    /// A message, with limits on its length.
    Data(RangeCfg),
    /// Bits with an index, at most so many.
    Bits(u64),
}

/// A value of one of these kinds.
#[derive(Drop)]
pub enum Value<C: PublicKey> {
    /// What peers send each other.
    Payload(Payload<C>),
    /// An info.
    Info(Info<C>),
    /// Infos.
    Infos(Infos<C>),
    /// The address at which a peer is reached, or a name with a port.
    Ingress(Ingress),
    /// The address of a peer.
    Address(Address),
    /// A message.
    Data(Data),
    /// Bits, with an index.
    Bits(BitVec),
}

impl<C: PublicKey> Value<C> {
    /// Decodes the bytes that a line has as a value of this kind.
    pub fn decode(alloc: Global, kind: Kind, bytes: Bytes) -> Result<Value<C>, CodecError> {
        Ok(match kind {
            Kind::Payload(limits) => Value::Payload(Payload::decode_cfg(alloc, bytes, &limits)?),
            Kind::Info => Value::Info(Info::decode(alloc, bytes)?),
            Kind::Infos(limit) => Value::Infos(Infos::decode_cfg(alloc, bytes, &limit)?),
            Kind::Ingress => Value::Ingress(Ingress::decode(alloc, bytes)?),
            Kind::Address => Value::Address(Address::decode(alloc, bytes)?),
            Kind::Data(limit) => Value::Data(Data::decode_cfg(alloc, bytes, &limit)?),
            Kind::Bits(limit) => Value::Bits(BitVec::decode_cfg(alloc, bytes, &limit)?),
        })
    }

    /// Encodes the value of a line.
    pub fn encode(&self, alloc: Global) -> Result<Bytes, CodecError> {
        match self {
            Value::Payload(payload) => encoded_payload(alloc, payload),
            Value::Info(info) => Ok(info.encode(alloc)?),
            Value::Infos(infos) => encoded_infos(alloc, infos),
            Value::Ingress(ingress) => Ok(ingress.encode(alloc)?),
            Value::Address(address) => Ok(address.encode(alloc)?),
            Value::Data(data) => encoded_data(alloc, data),
            Value::Bits(bits) => Ok(bits.encode(alloc)?),
        }
    }
}

impl fmt::Display for Value<TestKey> {
    fn fmt<W: fmt::Write>(&self, f: &mut fmt::Formatter<W>) -> fmt::Result {
        match self {
            Value::Payload(payload) => write!(f, "{}", Line(payload)),
            Value::Info(info) => write!(f, "{}", Line(info)),
            Value::Infos(infos) => write!(f, "{}", Line(infos)),
            Value::Ingress(ingress) => write!(f, "{}", Line(ingress)),
            Value::Address(address) => write!(f, "{}", Line(address)),
            Value::Data(data) => write!(f, "{}", Line(data)),
            Value::Bits(bits) => write!(f, "{}", Line(bits)),
        }
    }
}

fn encoded_infos<C: PublicKey>(alloc: Global, infos: &Infos<C>) -> Result<Bytes, CodecError> {
    let length = infos.as_slice().len();
    if length >= 1 << 32 {
        return Err(CodecError::InvalidLength(length));
    }
    Ok(infos.encode(alloc)?)
}

fn encoded_data(alloc: Global, data: &Data) -> Result<Bytes, CodecError> {
    let length = data.message.len();
    if length >= 1 << 32 {
        return Err(CodecError::InvalidLength(length));
    }
    Ok(data.encode(alloc)?)
}

fn encoded_payload<C: PublicKey>(alloc: Global, payload: &Payload<C>) -> Result<Bytes, CodecError> {
    let length = length_of(payload);
    if length >= 1 << 32 {
        return Err(CodecError::InvalidLength(length));
    }
    Ok(payload.encode(alloc)?)
}

// The length of the message or of the list in a line's value that is a payload, if it has one.
fn length_of<C: PublicKey>(payload: &Payload<C>) -> usize
    ensures { result < 2 ^ 32 → CanSpell payload.now }
{
    match payload {
        Payload::Data(data) => data.message.len(),
        Payload::Peers(infos) => infos.as_slice().len(),
        Payload::Greeting(_) | Payload::BitVec(_) => 0,
    }
}
