//! Words of frames: values as bytes, and bytes as values.

use crate::calls::bit_vec;
use crate::fault::Fault;
use crate::parse::infos::{info, infos};
use crate::parse::words::{Words, unhex};
use crate::value::{Kind, Value};
use bytes::Bytes;
use p2p_discovery::codec::{RangeCfg, TestKey};
use p2p_discovery::data::Data;
use p2p_discovery::discovery::{Infos, Payload, PayloadConfig};
use std::alloc::Global;

/// Parses the words of a frame, or of another kind of value with its limits, and bytes.
pub fn kind_and_bytes(alloc: Global, words: &mut Words<'_>) -> Result<(Kind, Bytes), Fault> {
    let kind = kind(words)?;
    Ok((kind, unhex(alloc, words.word()?)?))
}

fn kind(words: &mut Words<'_>) -> Result<Kind, Fault> {
    Ok(match words.word()? {
        "payload" => Kind::Payload(PayloadConfig {
            max_bit_vec: words.number()?,
            max_peers: words.size()?,
            max_data_length: words.size()?,
        }),
        "info" => Kind::Info,
        "infos" => Kind::Infos(range(words)?),
        "ingress" => Kind::Ingress,
        "address" => Kind::Address,
        "data" => Kind::Data(range(words)?),
        "bits" => Kind::Bits(words.number()?),
        _ => {
            return Err(Fault::Form("payload, info, infos, ingress, address, data or bits"));
        }
    })
}

fn range(words: &mut Words<'_>) -> Result<RangeCfg, Fault> {
    Ok(RangeCfg {
        least: words.size()?,
        greatest: words.size()?,
    })
}

/// Parses the words of a payload, the contents of a frame. Infos are signed in the namespace.
pub fn payload(
    alloc: Global,
    words: &mut Words<'_>,
    namespace: &[u8],
) -> Result<Value<TestKey>, Fault> {
    let payload = match words.word()? {
        "greeting" => Payload::Greeting(info(alloc, words.word()?, namespace)?),
        "peers" => Payload::Peers(Infos::from_vec(infos(alloc, words.word()?, namespace)?)),
        "bits" => Payload::BitVec(bit_vec(alloc, words)?),
        "data" => Payload::Data(data(alloc, words)?),
        _ => return Err(Fault::Form("greeting, peers, bits or data")),
    };
    Ok(Value::Payload(payload))
}

fn data(alloc: Global, words: &mut Words<'_>) -> Result<Data, Fault> {
    Ok(Data {
        channel: words.number()?,
        message: unhex(alloc, words.word()?)?,
    })
}
