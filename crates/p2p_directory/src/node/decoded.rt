//! Frames that were decoded.

ghost use Rattle.std.specs.Prelude.{◌≡◌, [], IfOk, true};
ghost use Rattle.p2p_discovery.specs.Payload.{IsAdmitted, payload_at};
ghost use Rattle.p2p_discovery.specs.Reading.{GivesAs, whole};
ghost use Rattle.p2p_directory.specs.Nodes.{IsDecoded};

use bytes::Bytes;
use p2p_discovery::codec::{CodecError, PublicKey, Read};
use p2p_discovery::discovery::{Payload, PayloadConfig};
use std::alloc::Global;
use std::marker::Model;

/// A frame, the payload that it encodes, and the limits under which it was decoded. A contract sees
/// these three.
///
/// [`Node::decode`](crate::node::Node::decode) makes it, and
/// [`Node::answer_decoded`](crate::node::Node::answer_decoded) processes it, so a frame whose
/// signatures are verified in between is decoded once.
#[derive(Drop)]
pub struct Decoded<C: PublicKey> {
    frame: Bytes,
    payload: Payload<C>,
    limits: PayloadConfig,
}

impl<C: PublicKey> Model for Decoded<C> {
    ghost use Rattle.std.specs.Prelude.{◌≡◌};
    ghost use Rattle.p2p_discovery.specs.Payload.{IsAdmitted, payload_at};
    ghost use Rattle.p2p_directory.specs.Nodes.{DecodedView, IsDecoded};

    ghost Value = { DecodedView C C.Signature };

    ghost view = { λ d. record {
      frame = d.frame;
      payload = d.payload;
      limits = d.limits;
    } };

    ghost invariant = { λ d. IsDecoded
        (payload_at C.SIZE C.value C.Signature.SIZE C.Signature.value d.limits) d.frame d.payload
        × IsAdmitted C.IsValue C.Signature.IsValue d.limits d.payload };
}

impl<C: PublicKey> Decoded<C> {
    /// Decodes a frame for a node under these limits, and keeps it with what was decoded.
    pub(crate) fn new(
        alloc: Global,
        frame: Bytes,
        limits: PayloadConfig,
    ) -> Result<Decoded<C>, CodecError>
        ensures exact { GivesAs (λ d. d.payload) result [] (whole (payload_at C.SIZE C.value
            C.Signature.SIZE C.Signature.value limits) frame) }
        ensures frame { IfOk result (λ d. d.frame ≡ frame) }
        ensures limits { IfOk result (λ d. d.limits ≡ limits) }
    {
        let payload = Payload::<C>::decode_from(alloc, &frame, &limits)?;
        Ok(Decoded {
            frame,
            payload,
            limits,
        })
    }

    /// The bytes of the frame that was decoded for a node.
    pub fn frame(&self) -> &[u8]
        ensures { result.now ≡ self.now.frame }
    {
        self.frame.as_slice()
    }

    /// The payload that was decoded for a node from the frame under its limits.
    pub fn payload(&self) -> &Payload<C>
        ensures value { result.now ≡ self.now.payload }
        ensures decoded { IsDecoded (payload_at C.SIZE C.value
            C.Signature.SIZE C.Signature.value self.now.limits) self.now.frame self.now.payload }
    {
        &self.payload
    }

    // The frame that was decoded for a node, its payload, and the limits.
    pub(crate) fn into_parts(self) -> (Bytes, Payload<C>, PayloadConfig)
        ensures parts { (result.0 ≡ self.frame) × (result.1 ≡ self.payload)
            × (result.2 ≡ self.limits) }
        ensures decoded { IsDecoded (payload_at C.SIZE C.value
            C.Signature.SIZE C.Signature.value self.limits) self.frame self.payload }
        ensures admitted { IsAdmitted C.IsValue C.Signature.IsValue self.limits self.payload }
    {
        let Decoded {
            frame,
            payload,
            limits,
        } = self;
        (frame, payload, limits)
    }
}

/// Whether a frame that a node decoded under one of these limits is decoded alike under the other.
pub(crate) fn are_equal(one: PayloadConfig, other: PayloadConfig) -> bool
    ensures { result ≡ true → one ≡ other }
{
    one.max_bit_vec == other.max_bit_vec
        && one.max_peers == other.max_peers
        && one.max_data_length == other.max_data_length
}
