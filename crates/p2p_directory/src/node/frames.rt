//! The frames that a node sends and receives.

ghost use Rattle.std.specs.Prelude.{◌≡◌, [], true, false, IfOk, OnErr};
ghost use Rattle.std.specs.Duration.{as_nanos};
ghost use Rattle.p2p_directory.specs.Received.{applies, received_of, AreFew};
ghost use Rattle.p2p_directory.specs.Received.{are_miscounted, verdicts_of, IsWantOfMemory};
ghost use Rattle.p2p_directory.specs.Nodes.{IsAsked, IsReceived, given_verdicts, standing_of};
ghost use Rattle.p2p_directory.specs.Nodes.{AnswersFrame, AsksWith, TellsValues};
ghost use Rattle.p2p_directory.specs.Nodes.{AsksForAll, AtEach, IsAskedForAll};
ghost use Rattle.p2p_discovery.specs.Payload.{payload_at};
ghost use Rattle.p2p_discovery.specs.Reading.{GivesAs, whole};
ghost use Rattle.p2p_directory.specs.Laws.LateFrames.{TakesLateAt};
ghost use Rattle.p2p_directory.specs.Laws.Verdicts.{IsJudged};

use crate::node::Node;
use crate::node::decoded::Decoded;
use crate::node::received::{Answer, Miscounted, Received};
use crate::node::wire::Frames;
use bytes::Bytes;
use p2p_discovery::codec::{CodecError, PublicKey};
use std::alloc::AllocError;
use std::time::Duration;

impl<C: PublicKey> Node<C> {
    /// The frame by which the node asks for the wanted infos of the retained set at a position,
    /// counted from 0 in order of index: the encoding of its bits. `None` if there is no such
    /// position.
    ///
    /// # Errors
    ///
    /// `AllocError` if an allocation fails. It allocates only if there is such a position.
    ///
    /// # Cost
    ///
    /// Proportional to the bytes of the frame.
    pub fn ask(&self, place: usize) -> Result<Option<Bytes>, AllocError>
        ensures seen { AsksWith C.cmp ⟦<C as Frames>⟧.wire place result self.now }
        ensures asked { IsAsked C.cmp ⟦<C as Frames>⟧.wire place result self.now }
    {
        self.ask_frame(place)
    }

    /// The frame by which the node asks for all infos of the retained set at a position, counted
    /// from 0 in order of index. Its bits are 0 for each primary peer, so that a node that receives
    /// it shares all infos of the set that it may, and 1 for the local node if it is one. `None` if
    /// there is no such position.
    ///
    /// # Errors
    ///
    /// `AllocError` if an allocation fails. It allocates only if there is such a position.
    ///
    /// # Cost
    ///
    /// One comparison of keys for each primary peer of the set.
    pub fn ask_all(&self, place: usize) -> Result<Option<Bytes>, AllocError>
        ensures seen { AsksForAll C.cmp ⟦<C as Frames>⟧.wire place result self.now }
        ensures asked { IsAskedForAll C.cmp ⟦<C as Frames>⟧.wire place result self.now }
    {
        self.ask_all_frame(place)
    }

    /// Processes a frame that the node received at the time `now`, a duration since the epoch.
    ///
    /// The frame is read under the limits of the node. The info of a greeting is verified by
    /// [`validate_info`](p2p_discovery::discovery::InfoVerifier::validate_info), and then applied.
    /// Bits are answered with the encoding of the infos that [`Directory::infos`] returns for them,
    /// even if there are none. Infos are verified by
    /// [`validate`](p2p_discovery::discovery::InfoVerifier::validate), all of them, before any is
    /// applied. Infos are applied by [`Directory::update_peers`].
    ///
    /// All but `Greeted` and `Applied` leave the node as it was. `Memory` is returned only if an
    /// allocation failed: for a message, a name, bits or infos of the frame, for a greeting that
    /// would be applied, and for a reply.
    ///
    /// Infos may arrive late, and more than once. A frame of infos is `Applied`, unless an
    /// allocation fails, if their number is within the limit and the count, and each is signed in
    /// the namespace of the node and of another key. None may have a timestamp above the
    /// milliseconds of a time that is at most the bound ahead. Afterwards the info of each of their
    /// peers that has a record is at least as new. If all were so before, nothing changes; nor does
    /// anything by a copy that follows at once.
    ///
    /// # Examples
    ///
    /// `answer`, which the test `a_peer_is_admitted_and_answered` of `p2p_directory_tests` runs.
    ///
    /// # Cost
    ///
    /// One pass over the frame, one signature verified for each info, and the cost of the call.
    pub fn receive(&mut self, frame: Bytes, now: Duration) -> Received<C>
        ensures seen { AnswersFrame C.cmp ⟦<C as Frames>⟧.wire verdicts_of frame (as_nanos now)
            result self.old self.new }
        ensures unchanged { applies result ≡ false → self.new ≡ self.old }
        ensures values { TellsValues C.cmp ⟦<C as Frames>⟧.wire C.IsValue C.Signature.IsValue frame
            (as_nanos now) result self.old }
        ensures received { IsReceived C.cmp ⟦<C as Frames>⟧.wire verdicts_of frame (as_nanos now)
            result self.old self.new }
        ensures late { AtEach C.cmp self.old (λ m calls. TakesLateAt ⟦<C as Frames>⟧.wire C.IsValue
            C.Signature.IsValue m calls frame (as_nanos now) result) }
    {
        self.answer(frame, now)
    }

    /// Processes a frame that the node received at the time `now` as [`Node::receive`] does, given
    /// whether the signature of each of its infos is valid, in the order of the frame. No signature
    /// is verified here. A greeting has one info, bits and data have none. The result is the one of
    /// [`Node::receive`] if [`PublicKey::verify`] returned these values, but the infos of a reply
    /// aren't encoded.
    ///
    /// Any predicate may say which signatures are valid. Its results are needed only for the infos
    /// that `count_to_verify` of the verifier counts at the same time, up to the first invalid
    /// one. The others may be anything: the frame was received as by that predicate, and infos may
    /// arrive late as [`Node::receive`] says.
    ///
    /// # Errors
    ///
    /// `Miscounted` if the number of infos of the payload that the frame encodes differs from the
    /// number of verification results. Nothing has changed.
    ///
    /// # Cost
    ///
    /// One pass over the frame, and the cost of the call.
    pub fn answer_with_verdicts(
        &mut self,
        frame: Bytes,
        now: Duration,
        verdicts: &[bool],
    ) -> Result<Answer<C>, Miscounted>
        ensures seen { let wire = ⟦<C as Frames>⟧.wire in
            IfOk result (λ a. AnswersFrame C.cmp wire (given_verdicts verdicts.now) frame
            (as_nanos now) (received_of wire a) self.old self.new) }
        ensures received { let wire = ⟦<C as Frames>⟧.wire in
            IfOk result (λ a. IsReceived C.cmp wire (given_verdicts verdicts.now) frame
            (as_nanos now) (received_of wire a) self.old self.new) }
        ensures judged { let wire = ⟦<C as Frames>⟧.wire in
            IfOk result (λ a. IsJudged C.cmp wire C.IsValue C.Signature.IsValue verdicts.now frame
            (as_nanos now) (received_of wire a) self.old self.new) }
        ensures unchanged { IfOk result (λ a. applies (received_of ⟦<C as Frames>⟧.wire a) ≡ false →
            self.new ≡ self.old) }
        ensures counted { let wire = ⟦<C as Frames>⟧.wire in
            let node = standing_of C.cmp wire self.old in
            IfOk result (λ a. are_miscounted wire node frame verdicts.now ≡ true → IsWantOfMemory
            (received_of wire a)) }
        ensures few { IfOk result AreFew }
        ensures err { let wire = ⟦<C as Frames>⟧.wire in
            let node = standing_of C.cmp wire self.old in
            OnErr result (are_miscounted wire node frame verdicts.now ≡ true) }
        ensures err_same { OnErr result (self.new ≡ self.old) }
    {
        self.answer_frame(frame, now, verdicts)
    }

    /// Decodes a frame that the node received, as [`Node::receive`] does: under the limits of the
    /// node.
    ///
    /// # Errors
    ///
    /// Those of [`Read::decode_cfg`](p2p_discovery::codec::Read::decode_cfg).
    ///
    /// # Cost
    ///
    /// One pass over the frame.
    pub fn decode(&self, frame: Bytes) -> Result<Decoded<C>, CodecError>
        ensures exact { GivesAs (λ d. d.payload) result [] (whole (payload_at C.SIZE C.value
            C.Signature.SIZE C.Signature.value self.now.limits) frame) }
        ensures frame { IfOk result (λ d. d.frame ≡ frame) }
        ensures limits { IfOk result (λ d. d.limits ≡ self.now.limits) }
    {
        Decoded::new(self.server.directory().allocator(), frame, self.payload)
    }

    /// Processes a frame that the node received and decoded, at the time `now`, as
    /// [`Node::answer_with_verdicts`] does. It is decoded anew only if that was done under other
    /// limits.
    ///
    /// # Errors
    ///
    /// Those of [`Node::answer_with_verdicts`].
    ///
    /// # Cost
    ///
    /// That of the call.
    pub fn answer_decoded(
        &mut self,
        decoded: Decoded<C>,
        now: Duration,
        verdicts: &[bool],
    ) -> Result<Answer<C>, Miscounted>
        ensures seen { let wire = ⟦<C as Frames>⟧.wire in
            IfOk result (λ a. AnswersFrame C.cmp wire (given_verdicts verdicts.now) decoded.frame
            (as_nanos now) (received_of wire a) self.old self.new) }
        ensures received { let wire = ⟦<C as Frames>⟧.wire in
            IfOk result (λ a. IsReceived C.cmp wire (given_verdicts verdicts.now) decoded.frame
            (as_nanos now) (received_of wire a) self.old self.new) }
        ensures judged { let wire = ⟦<C as Frames>⟧.wire in
            IfOk result (λ a. IsJudged C.cmp wire C.IsValue C.Signature.IsValue verdicts.now
            decoded.frame (as_nanos now) (received_of wire a) self.old self.new) }
        ensures unchanged { IfOk result (λ a. applies (received_of ⟦<C as Frames>⟧.wire a) ≡ false →
            self.new ≡ self.old) }
        ensures counted { let wire = ⟦<C as Frames>⟧.wire in
            let node = standing_of C.cmp wire self.old in
            IfOk result (λ a. are_miscounted wire node decoded.frame verdicts.now ≡ true →
            IsWantOfMemory (received_of wire a)) }
        ensures few { IfOk result AreFew }
        ensures err { let wire = ⟦<C as Frames>⟧.wire in
            let node = standing_of C.cmp wire self.old in
            OnErr result (are_miscounted wire node decoded.frame verdicts.now ≡ true) }
        ensures err_same { OnErr result (self.new ≡ self.old) }
    {
        self.answer_decoded_frame(decoded, now, verdicts)
    }
}
