//! An exchange of infos: the asker's bits and the replier's infos are encoded, and read.

ghost use Rattle.std.specs.Prelude.{◌≡◌, ◌<◌, ◌^◌, true, None, Some, List, IfOk, IfSome, length};
ghost use Rattle.std.specs.Prelude.{nat_lt};
ghost use Rattle.std.specs.Duration.{as_nanos};
ghost use Rattle.p2p_discovery.specs.declared.discovery.BitVec.{BitVec};
ghost use Rattle.p2p_discovery.specs.declared.discovery.Info.{Info};
ghost use Rattle.p2p_discovery.specs.declared.discovery.Payload.TheVariants as said;
ghost use Rattle.p2p_discovery.specs.Judgement.{judge_of, list_refusal};
ghost use Rattle.p2p_discovery.specs.Payload.{IsAdmitted, payload_spelling};
ghost use Rattle.p2p_tracker.specs.Directory.{infos_in};
ghost use Rattle.p2p_directory.specs.Nodes.{standing_of, IsLeft};
ghost use Rattle.p2p_directory.specs.Exchange.{asked_at, replied_at, judged_at, IsExchangeAnswer};
ghost use Rattle.p2p_directory.specs.Exchange.{infos_applied, Exchanges, HasSpelling, HaveSpelling};
ghost use Rattle.p2p_directory.specs.Exchange.{CanBeReplied, CanBeSpelled};
ghost use Rattle.p2p_directory.specs.Private.Exchanging.{RepliesToBits, ask_fault, reply_fault};
ghost use Rattle.p2p_directory.specs.Private.Exchanging.{UnlessRefused, UnlessReplyRefused};
ghost use Rattle.p2p_directory.specs.Private.Frames.{SpellsBits, SpellsInfos, IsReadBack};

use crate::node::Node;
use crate::node::exchanged::Exchanged;
use crate::node::wire::Frames;
use bytes::Bytes;
use p2p_discovery::codec::{CodecError, PublicKey, Read};
use p2p_discovery::discovery::{BitVec, Info, Infos, Payload};
use std::alloc::{AllocError, Global};
use std::time::Duration;

impl<C: PublicKey> Node<C> {
    // Exchanges infos with the replier: asks it for the wanted infos of the set at a position, and
    // applies its reply.
    pub(super) fn exchange_with(
        &mut self,
        replier: &Node<C>,
        place: usize,
        asker_now: Duration,
        replier_now: Duration,
    ) -> Exchanged<C>
        ensures seen { Exchanges C.cmp ⟦<C as Frames>⟧.wire place (as_nanos asker_now)
            (as_nanos replier_now) result self.old replier.now self.new }
        ensures unchanged { infos_applied result ≡ None → self.new ≡ self.old }
        ensures spelled { let wire = ⟦<C as Frames>⟧.wire in
            UnlessRefused (CanBeSpelled C.IsValue C.Signature.IsValue
            (standing_of C.cmp wire self.old) (standing_of C.cmp wire replier.now) place
            (as_nanos replier_now)) result }
    {
        match self.ask_frame(place) {
            Ok(Some(frame)) => self.hand_to(replier, frame, asker_now, replier_now),
            Ok(None) => Exchanged::NoSet,
            Err(AllocError) => Exchanged::Memory,
        }
    }

    // In an exchange of two nodes, passes a frame of bits to the replier, and accepts its
    // reply.
    fn hand_to(
        &mut self,
        replier: &Node<C>,
        frame: Bytes,
        asker_now: Duration,
        replier_now: Duration,
    ) -> Exchanged<C>
        requires { SpellsBits (payload_spelling C.spelled C.Signature.spelled) frame }
        ensures answer { (v : BitVec) → HasSpelling v → frame ≡ payload_spelling C.spelled
            C.Signature.spelled (said.BitVec v) → let wire = ⟦<C as Frames>⟧.wire in
            IsExchangeAnswer true (asked_at (standing_of C.cmp wire self.old)
            (standing_of C.cmp wire replier.now) (as_nanos asker_now) (as_nanos replier_now)
            (Some v)) result }
        ensures left { IsLeft C.cmp
            self.old (infos_applied result) self.new }
        ensures unchanged { infos_applied result ≡ None → self.new ≡ self.old }
        ensures spelled { (v : BitVec) → HasSpelling v → frame ≡ payload_spelling C.spelled
            C.Signature.spelled (said.BitVec v) → UnlessRefused (CanBeReplied C.IsValue
            C.Signature.IsValue (standing_of C.cmp ⟦<C as Frames>⟧.wire replier.now)
            (as_nanos replier_now) v) result }
    {
        match replier.reply_to(frame, replier_now) {
            Ok(reply) => self.take_reply(reply, asker_now),
            Err(ended) => ended,
        }
    }

    // The replier's part of an exchange of two nodes: reads a frame of bits, and replies.
    fn reply_to(&self, frame: Bytes, now: Duration) -> Result<Bytes, Exchanged<C>>
        requires { SpellsBits (payload_spelling C.spelled C.Signature.spelled) frame }
        ensures replies { (v : BitVec) → HasSpelling v → frame ≡ payload_spelling C.spelled
            C.Signature.spelled (said.BitVec v) → RepliesToBits C.IsValue C.Signature.IsValue
            (payload_spelling C.spelled C.Signature.spelled) (λ asker asker_now. asked_at asker
            (standing_of C.cmp ⟦<C as Frames>⟧.wire self.now) asker_now (as_nanos now) (Some v))
            result }
        ensures spelled { (v : BitVec) → HasSpelling v → frame ≡ payload_spelling C.spelled
            C.Signature.spelled (said.BitVec v) → UnlessReplyRefused (CanBeReplied C.IsValue
            C.Signature.IsValue (standing_of C.cmp ⟦<C as Frames>⟧.wire self.now) (as_nanos now) v)
            result }
    {
        match self.read(frame) {
            Ok(Payload::BitVec(bits)) => self.reply_with(&bits, now),
            Ok(Payload::Data(_) | Payload::Greeting(_) | Payload::Peers(_)) => unreachable!(),
            Err(fault) => Err(ask_refused(fault)),
        }
    }

    // In an exchange, replies to bits with a frame of the node's infos for them.
    fn reply_with(&self, bits: &BitVec, now: Duration) -> Result<Bytes, Exchanged<C>>
        requires { length bits.now.bits < 2 ^ 32 }
        ensures replies { RepliesToBits C.IsValue C.Signature.IsValue
            (payload_spelling C.spelled C.Signature.spelled)
            (λ asker asker_now. replied_at asker asker_now
            (infos_in C.cmp self.now.directory bits.now.index bits.now.bits (as_nanos now)))
            result }
        ensures spelled { UnlessReplyRefused (IfSome
            (infos_in C.cmp self.now.directory bits.now.index bits.now.bits (as_nanos now))
            (HaveSpelling C.IsValue C.Signature.IsValue)) result }
    {
        match self.reply_frame(bits, now) {
            Ok(Some(reply)) => Ok(reply),
            Ok(None) => Err(Exchanged::Malformed),
            Err(AllocError) => Err(Exchanged::Memory),
        }
    }

    // The asker's part of an exchange of two nodes: reads a frame of infos, and applies them.
    fn take_reply(&mut self, reply: Bytes, now: Duration) -> Exchanged<C>
        requires { SpellsInfos C.IsValue C.Signature.IsValue
            (payload_spelling C.spelled C.Signature.spelled) reply }
        ensures answer { (infos : List (Info C C.Signature)) → HaveSpelling C.IsValue
            C.Signature.IsValue infos → reply ≡ payload_spelling C.spelled C.Signature.spelled
            (said.Peers infos) → IsExchangeAnswer true (replied_at (standing_of C.cmp
            ⟦<C as Frames>⟧.wire self.old) (as_nanos now) (Some infos)) result }
        ensures left { IsLeft C.cmp
            self.old (infos_applied result) self.new }
        ensures unchanged { infos_applied result ≡ None → self.new ≡ self.old }
    {
        match self.read(reply) {
            Ok(Payload::Peers(infos)) => self.take_infos(infos, now),
            Ok(Payload::Data(_) | Payload::Greeting(_) | Payload::BitVec(_)) => unreachable!(),
            Err(fault) => reply_refused(fault),
        }
    }

    // Verifies the infos that the node got in an exchange, all of them, and applies them. A
    // copy of them is returned.
    fn take_infos(&mut self, infos: Infos<C>, now: Duration) -> Exchanged<C>
        ensures answer { IsExchangeAnswer true (judged_at infos (list_refusal
            (judge_of C.cmp C.verifies self.old.verifier) (as_nanos now) infos)) result }
        ensures left { IsLeft C.cmp
            self.old (infos_applied result) self.new }
        ensures unchanged { infos_applied result ≡ None → self.new ≡ self.old }
    {
        if let Err(error) = self.verifier.validate(now, infos.as_slice()) {
            return Exchanged::Invalid(error);
        }
        match copied(self.server.directory().allocator(), infos.as_slice()) {
            Ok(copy) => {
                self.server.update(infos.into_vec());
                Exchanged::Applied(copy)
            }
            Err(AllocError) => Exchanged::Memory,
        }
    }

    // Reads a frame of an exchange under the limits of the node.
    fn read(&self, frame: Bytes) -> Result<Payload<C>, CodecError>
        ensures bits { (v : BitVec) → HasSpelling v →
            frame ≡ payload_spelling C.spelled C.Signature.spelled (said.BitVec v) →
            IsReadBack (nat_lt self.now.limits.max_bit_vec (length v.bits)) (length v.bits)
            (said.BitVec v) result }
        ensures infos { (infos : List (Info C C.Signature)) →
            HaveSpelling C.IsValue C.Signature.IsValue infos →
            frame ≡ payload_spelling C.spelled C.Signature.spelled (said.Peers infos) →
            IsReadBack (nat_lt self.now.limits.max_peers (length infos)) (length infos)
            (said.Peers infos) result }
        ensures admitted { IfOk result (λ payload.
            IsAdmitted C.IsValue C.Signature.IsValue self.now.limits payload) }
        ensures limit { self.now.limits.max_bit_vec < 2 ^ 32 }
    {
        Payload::<C>::decode_cfg(self.server.directory().allocator(), frame, &self.payload)
    }
}

// Copies of the infos that a node got in an exchange, in their order.
fn copied<C: PublicKey>(alloc: Global, infos: &[Info<C>]) -> Result<Vec<Info<C>>, AllocError>
    ensures { IfOk result (λ copy. copy.items ≡ infos.now) }
{
    let mut copy = Vec::with_capacity(alloc, infos.len())?;
    for info in infos {
        copy.push_reserved(info.clone()?);
    }
    Ok(copy)
}

// The result of an exchange in which the replier cannot read the bits, or an allocation
// failed.
fn ask_refused<C: PublicKey>(fault: CodecError) -> Exchanged<C>
    ensures { result ≡ ask_fault fault }
{
    match fault {
        CodecError::Memory => Exchanged::Memory,
        _ => Exchanged::AskRefused(fault),
    }
}

// The result of an exchange in which the asker cannot read the infos, or an allocation
// failed.
fn reply_refused<C: PublicKey>(fault: CodecError) -> Exchanged<C>
    ensures { result ≡ reply_fault fault }
{
    match fault {
        CodecError::Memory => Exchanged::Memory,
        _ => Exchanged::ReplyRefused(fault),
    }
}
