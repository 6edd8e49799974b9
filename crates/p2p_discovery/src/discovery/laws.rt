//! Laws of what is decoded from frames: each function's contract is one, and it only decodes.

ghost use Rattle.std.specs.Prelude.{◌≡◌, ◌+◌, ◌*◌, ◌≤◌, [], length, IfOk, OnErr};
ghost use Rattle.p2p_discovery.specs.declared.data.Data.{Data as Message};
ghost use Rattle.p2p_discovery.specs.declared.discovery.Payload.TheVariants as payload;
ghost use Rattle.p2p_discovery.specs.Reading.{Gives, whole};
ghost use Rattle.p2p_discovery.specs.Info.{infos_at};
ghost use Rattle.p2p_discovery.specs.BitVec.{bit_vec_read_at};
ghost use Rattle.p2p_discovery.specs.Payload.{payload_spelling, payload_at, IsBoundedBy};

use crate::codec::{CodecError, FixedBytes, PublicKey, RangeCfg, Read};
use crate::discovery::{BitVec, Infos, Payload, PayloadConfig};
use bytes::Bytes;
use std::alloc::Global;

/// By a law of discovery, a data frame is at most [`MAX_PAYLOAD_OVERHEAD`] bytes longer than its
/// message.
///
/// [`MAX_PAYLOAD_OVERHEAD`]: crate::data::MAX_PAYLOAD_OVERHEAD
pub fn short_data_frames<C: PublicKey>()
    ensures { (message : Message) →
        length (payload_spelling C.spelled C.Signature.spelled (payload.Data message))
        ≤ length message.message + 16 }
{}

/// Decodes infos, as [`Read::read_cfg`], by a law of discovery: no more than the bytes that were
/// read can hold, at the minimum size of an info.
///
/// # Errors
///
/// Those of [`Read::read_cfg`]. The buffer is unchanged.
pub fn bounded_infos<C: PublicKey>(
    alloc: Global,
    buf: &mut Bytes,
    limit: &RangeCfg,
) -> Result<Infos<C>, CodecError>
    ensures bounded { IfOk result (λ infos. length infos * (6 + C.SIZE + C.Signature.SIZE)
        + length buf.new ≤ length buf.old) }
    ensures exact { Gives result buf.new
        (infos_at C.SIZE C.value C.Signature.SIZE C.Signature.value limit.now buf.old) }
    ensures err { OnErr result (buf.new ≡ buf.old) }
{
    Infos::read_cfg(alloc, buf, limit)
}

/// Decodes bits and their index, as [`Read::read_cfg`], by a law of discovery: no more bits than
/// the bytes that were read have.
///
/// # Errors
///
/// Those of [`Read::read_cfg`]. The buffer is unchanged.
pub fn bounded_bits(alloc: Global, buf: &mut Bytes, limit: &u64) -> Result<BitVec, CodecError>
    ensures bounded { IfOk result (λ v. length v.bits + 8 * length buf.new ≤ 8 * length buf.old) }
    ensures exact { Gives result buf.new (bit_vec_read_at limit.now buf.old) }
    ensures err { OnErr result (buf.new ≡ buf.old) }
{
    BitVec::read_cfg(alloc, buf, limit)
}

/// Decodes the payload of a frame, as [`Read::decode_cfg`], by a law of discovery. What it holds, a
/// message, bits or infos, is no more than the bytes of the frame can hold, whatever the limits
/// are.
///
/// # Errors
///
/// Those of [`Read::decode_cfg`].
pub fn bounded_payload<C: PublicKey>(
    alloc: Global,
    frame: Bytes,
    limits: &PayloadConfig,
) -> Result<Payload<C>, CodecError>
    ensures bounded { IfOk result (IsBoundedBy (6 + C.SIZE + C.Signature.SIZE) (length frame)) }
    ensures exact { Gives result [] (whole
        (payload_at C.SIZE C.value C.Signature.SIZE C.Signature.value limits.now) frame) }
{
    Payload::decode_cfg(alloc, frame, limits)
}
