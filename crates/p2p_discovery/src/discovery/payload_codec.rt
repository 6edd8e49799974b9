//! How payloads are encoded, and how long those of gossip are.

ghost use Rattle.std.specs.Prelude.{◌≡◌, ◌+◌, ◌<◌, ◌≤◌, ◌^◌, length};
ghost use Rattle.p2p_discovery.specs.declared.discovery.Payload.{Payload};
ghost use Rattle.p2p_discovery.specs.declared.discovery.PayloadConfig.{PayloadConfig};
ghost use Rattle.p2p_discovery.specs.Payload.{up_to, prefix_of, IsPayload, IsKeyedPayload};
ghost use Rattle.p2p_discovery.specs.Payload.{IsAdmitted, CanSpell, payload_spelling, body_at};
ghost use Rattle.p2p_discovery.specs.Payload.{payload_at, gossip_size};
ghost use Rattle.p2p_discovery.specs.Laws.Payload.{lawful_payload};

use crate::codec::{
    CodecError, EncodeSize, FixedBytes, MaxEncodeSize, PublicKey, RangeCfg, Read, Reader, Write,
};
use crate::data::{DATA_PREFIX, Data};
use crate::discovery::{BitVec, Info, Infos, Payload, PayloadConfig};
use crate::sets::bytes_for;
use bytes::BytesMut;
use std::alloc::Global;

const GREETING_PREFIX: u8 = 1;

const BIT_VEC_PREFIX: u8 = 2;

const PEERS_PREFIX: u8 = 3;

/// The maximum number of bytes of an encoded payload that isn't data, under these limits for the
/// number of bits and of infos. It doesn't allocate.
///
/// # Conditions
///
/// The number fits `usize`.
pub fn max_gossip_size<C: PublicKey>(max_bit_vec: u64, max_peers: usize) -> usize
    requires { gossip_size (261 + 10 + C.SIZE + C.Signature.SIZE) max_bit_vec max_peers < 2 ^ 64 }
    ensures value { result
        ≡ gossip_size (261 + 10 + C.SIZE + C.Signature.SIZE) max_bit_vec max_peers }
    ensures bound { (limits : PayloadConfig) (p : Payload C C.Signature)
        → limits.max_bit_vec ≡ max_bit_vec → limits.max_peers ≡ max_peers
        → IsPayload p → IsAdmitted C.IsValue C.Signature.IsValue limits p → 0 < prefix_of p
        → length (payload_spelling C.spelled C.Signature.spelled p) ≤ result }
{
    let info = Info::<C>::max_encode_size();
    let bits = u64::MAX_ENCODE_SIZE + (max_bit_vec.encode_size() + bytes_for(max_bit_vec));
    let peers = max_peers * info + u32::MAX_ENCODE_SIZE;
    1 + info.max(bits.max(peers))
}

impl<C: PublicKey> EncodeSize for Payload<C> {
    ghost IsValue = { IsPayload };

    ghost CanSpell = { CanSpell };

    ghost spelling = { payload_spelling C.spelled C.Signature.spelled };

    fn encode_size(&self) -> usize {
        match self {
            Payload::Data(data) => 1 + data.encode_size(),
            Payload::Greeting(info) => 1 + info.encode_size(),
            Payload::BitVec(bits) => 1 + bits.encode_size(),
            Payload::Peers(infos) => 1 + infos.encode_size(),
        }
    }
}

impl<C: PublicKey> Write for Payload<C> {
    ghost HoldsValues = { IsKeyedPayload C.IsValue C.Signature.IsValue };

    fn write(&self, buf: &mut BytesMut) {
        match self {
            Payload::Data(data) => {
                buf.extend_reserved(&[DATA_PREFIX]);
                data.write(buf);
            }
            Payload::Greeting(info) => {
                buf.extend_reserved(&[GREETING_PREFIX]);
                info.write(buf);
            }
            Payload::BitVec(bits) => {
                buf.extend_reserved(&[BIT_VEC_PREFIX]);
                bits.write(buf);
            }
            Payload::Peers(infos) => {
                buf.extend_reserved(&[PEERS_PREFIX]);
                infos.write(buf);
            }
        }
    }
}

impl<C: PublicKey> Read for Payload<C> {
    type Cfg = PayloadConfig;

    ghost Admits = { IsAdmitted C.IsValue C.Signature.IsValue };

    ghost reading = { payload_at C.SIZE C.value C.Signature.SIZE C.Signature.value };

    #[tactic(auto, unfolding(crate::specs::Payload::payload_at, crate::specs::Payload::body_at))]
    fn read(
        alloc: Global,
        reader: &mut Reader<'_>,
        limits: &PayloadConfig,
    ) -> Result<Payload<C>, CodecError> {
        match reader.byte()? {
            DATA_PREFIX => {
                let data = Data::read(alloc, reader, &up_to(limits.max_data_length))?;
                Ok(Payload::Data(data))
            }
            GREETING_PREFIX => {
                let info = Info::read(alloc, reader, &())?;
                Ok(Payload::Greeting(info))
            }
            BIT_VEC_PREFIX => {
                let bits = BitVec::read(alloc, reader, &limits.max_bit_vec)?;
                Ok(Payload::BitVec(bits))
            }
            PEERS_PREFIX => {
                let infos = Infos::read(alloc, reader, &up_to(limits.max_peers))?;
                Ok(Payload::Peers(infos))
            }
            prefix => Err(CodecError::InvalidEnum(prefix)),
        }
    }

    ghost lawful = { lawful_payload C.fixed C.Signature.fixed };
}

fn up_to(greatest: usize) -> RangeCfg
    ensures { result ≡ up_to greatest }
{
    RangeCfg { least: 0, greatest }
}
