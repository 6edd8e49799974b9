//! How a node answers the frames that it receives, by what is seen of it.

ghost use Rattle.std.specs.Prelude.{◌≡◌, ◌<◌, ◌^◌, [], true, false, None, IfOk, IfSome, OnErr};
ghost use Rattle.std.specs.Prelude.{length, is_some, option_map};
ghost use Rattle.std.specs.Duration.{as_nanos};
ghost use Rattle.p2p_discovery.specs.Payload.{payload_spelling, IsAdmitted, infos_of_payload};
ghost use Rattle.p2p_discovery.specs.Payload.{CanSpell, IsPayload, IsKeyedPayload};
ghost use Rattle.p2p_discovery.specs.Judgement.{judge_of, refusal, list_refusal};
ghost use Rattle.p2p_discovery.specs.Judgement.{refusal_if, list_refusal_by};
ghost use Rattle.p2p_discovery.specs.declared.discovery.Payload.TheVariants.{Peers};
ghost use Rattle.p2p_tracker.specs.Directory.{bit_vec_at, infos_in};
ghost use Rattle.p2p_directory.specs.Received.{greeted, replied, taken, takes_room};
ghost use Rattle.p2p_directory.specs.Received.{applies, told_with, are_miscounted, answered_by};
ghost use Rattle.p2p_directory.specs.Received.{received_of, AreFew, first_verdict};
ghost use Rattle.p2p_directory.specs.Received.{verdicts_of, IsWantOfMemory};
ghost use Rattle.p2p_directory.specs.Nodes.{standing_of, given_verdicts, Answers, AnswersFrame};
ghost use Rattle.p2p_directory.specs.Nodes.{AreValues, AsksForAll, AsksWith, TellsValues};
ghost use Rattle.p2p_directory.specs.Exchange.{HasSpelling, HaveSpelling};
ghost use Rattle.p2p_directory.specs.Private.Frames.{fault_answer};

use crate::node::Node;
use crate::node::decoded::{Decoded, are_equal};
use crate::node::received::{Answer, Miscounted, Received};
use crate::node::wire::Frames;
use bytes::Bytes;
use p2p_discovery::codec::{CodecError, PublicKey, Read, Write};
use p2p_discovery::discovery::{BitVec, Info, Infos, Payload};
use std::alloc::{AllocError, Global};
use std::time::Duration;

impl<C: PublicKey> Node<C> {
    // What the node asks with: a frame of its bits of the set at a position, or `None` if there is
    // no such position.
    pub(super) fn ask_frame(&self, place: usize) -> Result<Option<Bytes>, AllocError>
        ensures seen { AsksWith C.cmp ⟦<C as Frames>⟧.wire place result self.now }
        ensures spelled { IfOk result (λ _.
            IfSome (bit_vec_at C.cmp self.now.directory place) HasSpelling) }
    {
        let directory = self.server.directory();
        match directory.get_random_bit_vec(place)? {
            Some(bits) => {
                // For the proof: the number of bits fits.
                let _count = bits.bits.len();
                let frame = frame_of::<C>(directory.allocator(), Payload::BitVec(bits))?;
                Ok(Some(frame))
            }
            None => Ok(None),
        }
    }

    // What the node asks with for all infos of the set at a position, or `None` if there is no such
    // position.
    pub(super) fn ask_all_frame(&self, place: usize) -> Result<Option<Bytes>, AllocError>
        ensures { AsksForAll C.cmp ⟦<C as Frames>⟧.wire place result self.now }
    {
        let directory = self.server.directory();
        match directory.get_full_bit_vec(place)? {
            Some(bits) => {
                // For the proof: the number of bits fits.
                let _count = bits.bits.len();
                let frame = frame_of::<C>(directory.allocator(), Payload::BitVec(bits))?;
                Ok(Some(frame))
            }
            None => Ok(None),
        }
    }

    // Processes a frame that the node received at this time.
    pub(super) fn answer(&mut self, frame: Bytes, now: Duration) -> Received<C>
        ensures seen { AnswersFrame C.cmp ⟦<C as Frames>⟧.wire verdicts_of frame (as_nanos now)
            result self.old self.new }
        ensures unchanged { applies result ≡ false → self.new ≡ self.old }
        ensures values { TellsValues C.cmp ⟦<C as Frames>⟧.wire C.IsValue C.Signature.IsValue frame
            (as_nanos now) result self.old }
    {
        let alloc = self.server.directory().allocator();
        match Payload::<C>::decode_cfg(alloc, frame, &self.payload) {
            Ok(Payload::Data(message)) => Received::Data(message),
            Ok(Payload::Greeting(info)) => self.greet(info, now),
            Ok(Payload::BitVec(bits)) => self.reply(&bits, now),
            Ok(Payload::Peers(infos)) => self.take(infos, now),
            Err(fault) => refused(fault),
        }
    }

    // Processes a frame that the node received at this time, given whether the signatures of its
    // infos are valid. There must be as many verification results as infos in the frame, if it
    // encodes a payload. The infos of a reply aren't encoded.
    pub(super) fn answer_frame(
        &mut self,
        frame: Bytes,
        now: Duration,
        verdicts: &[bool],
    ) -> Result<Answer<C>, Miscounted>
        ensures seen { let wire = ⟦<C as Frames>⟧.wire in
            IfOk result (λ a. AnswersFrame C.cmp wire (given_verdicts verdicts.now) frame
            (as_nanos now) (received_of wire a) self.old self.new) }
        ensures unchanged { IfOk result (λ a. applies (received_of ⟦<C as Frames>⟧.wire a) ≡ false →
            self.new ≡ self.old) }
        ensures counted { let wire = ⟦<C as Frames>⟧.wire in
            let node = standing_of C.cmp wire self.old in
            IfOk result (λ a. are_miscounted wire node frame verdicts.now ≡ true → IsWantOfMemory
            (received_of wire a)) }
        ensures few { IfOk result AreFew }
        ensures err { let wire = ⟦<C as Frames>⟧.wire in
            let node = standing_of C.cmp wire self.old in
            OnErr result (are_miscounted wire node frame verdicts.now ≡ true) }
        ensures err_same { OnErr result (self.new ≡ self.old) }
    {
        let alloc = self.server.directory().allocator();
        match Payload::<C>::decode_cfg(alloc, frame, &self.payload) {
            Ok(payload) => self.answer_payload(payload, now, verdicts),
            Err(fault) => Ok(Answer::Received(refused(fault))),
        }
    }

    // Processes a frame that the node received and that was decoded, as `answer_frame` does. It is
    // decoded anew if that was done under other limits.
    pub(super) fn answer_decoded_frame(
        &mut self,
        decoded: Decoded<C>,
        now: Duration,
        verdicts: &[bool],
    ) -> Result<Answer<C>, Miscounted>
        ensures seen { let wire = ⟦<C as Frames>⟧.wire in
            IfOk result (λ a. AnswersFrame C.cmp wire (given_verdicts verdicts.now) decoded.frame
            (as_nanos now) (received_of wire a) self.old self.new) }
        ensures unchanged { IfOk result (λ a. applies (received_of ⟦<C as Frames>⟧.wire a) ≡ false →
            self.new ≡ self.old) }
        ensures counted { let wire = ⟦<C as Frames>⟧.wire in
            let node = standing_of C.cmp wire self.old in
            IfOk result (λ a. are_miscounted wire node decoded.frame verdicts.now ≡ true →
            IsWantOfMemory (received_of wire a)) }
        ensures few { IfOk result AreFew }
        ensures err { let wire = ⟦<C as Frames>⟧.wire in
            let node = standing_of C.cmp wire self.old in
            OnErr result (are_miscounted wire node decoded.frame verdicts.now ≡ true) }
        ensures err_same { OnErr result (self.new ≡ self.old) }
    {
        let (frame, payload, limits) = decoded.into_parts();
        if are_equal(limits, self.payload) {
            drop(frame);
            return self.answer_payload(payload, now, verdicts);
        }
        self.answer_frame(frame, now, verdicts)
    }

    // Processes the payload of a frame that the node received, given whether the signatures of
    // its infos are valid. The infos of a reply aren't encoded.
    fn answer_payload(
        &mut self,
        payload: Payload<C>,
        now: Duration,
        verdicts: &[bool],
    ) -> Result<Answer<C>, Miscounted>
        requires admitted { IsAdmitted C.IsValue C.Signature.IsValue self.old.limits payload }
        requires limit { self.old.limits.max_bit_vec < 2 ^ 32 }
        ensures seen { let wire = ⟦<C as Frames>⟧.wire in
            let o = answered_by wire verdicts.now (standing_of C.cmp wire self.old) (as_nanos now)
            payload in
            IfOk result (λ a. Answers C.cmp (takes_room o.answer) o (received_of wire a) self.old
            self.new) }
        ensures unchanged { IfOk result (λ a. applies (received_of ⟦<C as Frames>⟧.wire a) ≡ false →
            self.new ≡ self.old) }
        ensures counted { IfOk result (λ _.
            length (infos_of_payload payload) ≡ length verdicts.now) }
        ensures few { IfOk result AreFew }
        ensures err { OnErr result (¬ (length (infos_of_payload payload) ≡ length verdicts.now)) }
        ensures err_same { OnErr result (self.new ≡ self.old) }
    {
        if count_infos(&payload) != verdicts.len() {
            return Err(Miscounted);
        }
        Ok(match payload {
            Payload::Data(message) => Answer::Received(Received::Data(message)),
            Payload::Greeting(info) => {
                let right = is_first_right(verdicts);
                Answer::Received(self.greet_by(info, now, right))
            }
            Payload::BitVec(bits) => self.infos_for(&bits, now),
            Payload::Peers(infos) => Answer::Received(self.take_by(infos, now, verdicts)),
        })
    }

    // The infos with which the node answers a frame of bits.
    fn infos_for(&self, bits: &BitVec, now: Duration) -> Answer<C>
        requires { length bits.now.bits < 2 ^ 32 }
        ensures seen { let wire = ⟦<C as Frames>⟧.wire in
            let o = replied wire (infos_in C.cmp self.now.directory bits.now.index bits.now.bits
            (as_nanos now)) in
            Answers C.cmp (takes_room o.answer) o (received_of wire result) self.now self.now }
        ensures few { AreFew result }
    {
        match self.server.infos_for(bits, now) {
            Ok(Some(infos)) => Answer::Infos(Infos::from_vec(infos)),
            Ok(None) => Answer::Received(Received::Malformed),
            Err(AllocError) => Answer::Received(Received::Memory),
        }
    }

    // Verifies the info of a greeting frame that the node received, and applies it.
    fn greet(&mut self, info: Info<C>, now: Duration) -> Received<C>
        ensures unchanged { applies result ≡ false → self.new ≡ self.old }
        ensures seen { let o = greeted ⟦<C as Frames>⟧.wire info (refusal (judge_of C.cmp C.verifies
            self.old.verifier) (as_nanos now) info) in
            Answers C.cmp (takes_room o.answer) o result self.old self.new }
    {
        if let Err(error) = self.verifier.validate_info(now, &info) {
            return Received::Invalid(error);
        }
        self.apply_greeting(info)
    }

    // Verifies the info of a greeting frame that the node received, given whether its signature
    // is valid, and applies it.
    fn greet_by(&mut self, info: Info<C>, now: Duration, right: bool) -> Received<C>
        ensures unchanged { applies result ≡ false → self.new ≡ self.old }
        ensures seen { let o = greeted ⟦<C as Frames>⟧.wire info (refusal_if (judge_of C.cmp
            C.verifies self.old.verifier) right (as_nanos now) info) in
            Answers C.cmp (takes_room o.answer) o result self.old self.new }
    {
        if let Err(error) = self.verifier.validate_info_with_verdict(now, &info, right) {
            return Received::Invalid(error);
        }
        self.apply_greeting(info)
    }

    // Applies the info of a greeting frame that the node received.
    fn apply_greeting(&mut self, info: Info<C>) -> Received<C>
        ensures unchanged { applies result ≡ false → self.new ≡ self.old }
        ensures seen { Answers C.cmp true (greeted ⟦<C as Frames>⟧.wire info None) result self.old
            self.new }
    {
        match Vec::with_capacity(self.server.directory().allocator(), 1) {
            Ok(mut infos) => {
                let key = info.public_key;
                infos.push_reserved(info);
                self.server.update(infos);
                Received::Greeted(key)
            }
            Err(AllocError) => Received::Memory,
        }
    }

    // Replies to a frame of bits that the node received with the infos for them.
    fn reply(&self, bits: &BitVec, now: Duration) -> Received<C>
        requires { length bits.now.bits < 2 ^ 32 }
        ensures seen { let o = replied ⟦<C as Frames>⟧.wire (infos_in C.cmp self.now.directory
            bits.now.index bits.now.bits (as_nanos now)) in
            Answers C.cmp (takes_room o.answer) o result self.now self.now }
        ensures values { AreValues C.IsValue C.Signature.IsValue (told_with (replied
            ⟦<C as Frames>⟧.wire (infos_in C.cmp self.now.directory bits.now.index bits.now.bits
            (as_nanos now))) result) }
    {
        match self.reply_frame(bits, now) {
            Ok(Some(frame)) => Received::Reply(frame),
            Ok(None) => Received::Malformed,
            Err(AllocError) => Received::Memory,
        }
    }

    // The frame of the infos with which the node replies to bits, or `None` if their number
    // differs from that of the peers.
    pub(super) fn reply_frame(
        &self,
        bits: &BitVec,
        now: Duration,
    ) -> Result<Option<Bytes>, AllocError>
        requires { length bits.now.bits < 2 ^ 32 }
        ensures frame { IfOk result (λ frame. frame ≡ option_map
            (λ infos. payload_spelling C.spelled C.Signature.spelled (Peers infos))
            (infos_in C.cmp self.now.directory bits.now.index bits.now.bits (as_nanos now))) }
        ensures spelled { IfOk result (λ _.
            IfSome (infos_in C.cmp self.now.directory bits.now.index bits.now.bits (as_nanos now))
            (HaveSpelling C.IsValue C.Signature.IsValue)) }
        ensures err { OnErr result (is_some
            (infos_in C.cmp self.now.directory bits.now.index bits.now.bits (as_nanos now))
            ≡ true) }
    {
        match self.server.infos_for(bits, now)? {
            Some(infos) => {
                let alloc = self.server.directory().allocator();
                let infos = Infos::from_vec(infos);
                let frame = frame_of::<C>(alloc, Payload::Peers(infos))?;
                Ok(Some(frame))
            }
            None => Ok(None),
        }
    }

    // Verifies the infos of a frame that the node received, all of them, and applies them.
    fn take(&mut self, infos: Infos<C>, now: Duration) -> Received<C>
        ensures unchanged { applies result ≡ false → self.new ≡ self.old }
        ensures seen { Answers C.cmp false (taken ⟦<C as Frames>⟧.wire infos (list_refusal (judge_of
            C.cmp C.verifies self.old.verifier) (as_nanos now) infos)) result self.old self.new }
    {
        if let Err(error) = self.verifier.validate(now, infos.as_slice()) {
            return Received::Invalid(error);
        }
        self.apply(infos)
    }

    // Verifies the infos of a frame that the node received, all of them, given whether their
    // signatures are valid, and applies them.
    fn take_by(&mut self, infos: Infos<C>, now: Duration, verdicts: &[bool]) -> Received<C>
        ensures unchanged { applies result ≡ false → self.new ≡ self.old }
        ensures seen { Answers C.cmp false (taken ⟦<C as Frames>⟧.wire infos (list_refusal_by
            (judge_of C.cmp C.verifies self.old.verifier) verdicts.now (as_nanos now) infos)) result
            self.old self.new }
    {
        if let Err(error) = self
            .verifier
            .validate_with_verdicts(now, infos.as_slice(), verdicts)
        {
            return Received::Invalid(error);
        }
        self.apply(infos)
    }

    // Applies the infos of a frame that the node received.
    fn apply(&mut self, infos: Infos<C>) -> Received<C>
        ensures unchanged { applies result ≡ false → self.new ≡ self.old }
        ensures seen { Answers C.cmp false (taken ⟦<C as Frames>⟧.wire infos None) result self.old
            self.new }
    {
        let infos = infos.into_vec();
        let count = infos.len();
        self.server.update(infos);
        Received::Applied(count)
    }
}

// How many infos are in the payload of a frame that a node received.
fn count_infos<C: PublicKey>(payload: &Payload<C>) -> usize
    ensures { result ≡ length (infos_of_payload payload.now) }
{
    match payload {
        Payload::Data(_) | Payload::BitVec(_) => 0,
        Payload::Greeting(_) => 1,
        Payload::Peers(infos) => infos.as_slice().len(),
    }
}

// Whether the first verification result for a frame that a node received says that a signature
// is valid.
fn is_first_right(verdicts: &[bool]) -> bool
    ensures { result ≡ first_verdict verdicts.now }
{
    match verdicts {
        [right, ..] => *right,
        [] => false,
    }
}

// What the node returns for a received frame that isn't decoded, its error or out of memory.
fn refused<C: PublicKey>(fault: CodecError) -> Received<C>
    ensures { result ≡ fault_answer fault }
{
    match fault {
        CodecError::Memory => Received::Memory,
        _ => Received::Codec(fault),
    }
}

// Encodes a payload as a frame of a node.
fn frame_of<C: PublicKey>(alloc: Global, payload: Payload<C>) -> Result<Bytes, AllocError>
    requires { CanSpell payload }
    ensures frame { IfOk result (λ frame.
        frame ≡ payload_spelling C.spelled C.Signature.spelled payload) }
    ensures value { IfOk result (λ _. IsPayload payload) }
    ensures keyed { IfOk result (λ _. IsKeyedPayload C.IsValue C.Signature.IsValue payload) }
{
    payload.encode(alloc)
}
