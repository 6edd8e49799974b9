//! The frames of links: what comes of one, by what is seen of a node. Nothing changes here.

ghost use Rattle.std.specs.Prelude.{◌≡◌, true, false};
ghost use Rattle.p2p_discovery.specs.Judgement.{Judge, judge_of};
ghost use Rattle.p2p_discovery.specs.declared.discovery.PayloadConfig.{PayloadConfig};
ghost use Rattle.p2p_discovery.specs.Payload.{payload_spelling};
ghost use Rattle.p2p_driver.specs.Frames.{begins_with, is_greeting_frame, is_unasked};
ghost use Rattle.p2p_driver.specs.Frames.{is_empty_list, is_early};
ghost use Rattle.p2p_driver.specs.Hearing.{TellsFirst, TellsNext, TellsPayload, TellsList};
ghost use Rattle.p2p_driver.specs.Hearing.{IsMessage};
ghost use Rattle.p2p_discovery.specs.Reading.{IsBytes};

use crate::actions::Breach;
use crate::links::Waiting;
use bytes::Bytes;
use p2p_directory::node::wire::Frames;
use p2p_directory::node::{Decoded, Node};
use p2p_discovery::codec::{CodecError, PublicKey};
use p2p_discovery::data::Data;
use p2p_discovery::discovery::{Error, Info, InfoVerifier, Payload};
use std::time::Duration;

// What comes of a frame, by what is seen of a node.
#[derive(Drop)]
pub(crate) enum Came {
    // The peer broke a rule.
    Breach(Breach),
    // An info is of the future.
    Early,
    // The frame waits for verdicts on its signatures.
    Waits(Waiting),
    // It is a list of infos that nobody asked for.
    Ignored,
    // It is a message on a channel, from this byte of the frame on.
    Message(u64, usize),
    // It is a question or the empty list, which the node answers.
    Served,
    // An allocation failed.
    Memory,
}

// Whether a frame begins with a prefix.
fn begins_with(frame: &[u8], prefix: u8) -> bool
    ensures { result ≡ begins_with prefix frame.now }
{
    match frame.first() {
        Some(first) => *first == prefix,
        None => false,
    }
}

// Whether a frame is the empty list.
fn is_empty_list(frame: &[u8]) -> bool
    ensures { result ≡ is_empty_list frame.now }
{
    frame.len() == 2 && frame[0] == 3 && frame[1] == 0
}

// Whether a frame is a list of infos that nobody asked for, if so many questions are owed.
fn is_unasked(owed: usize, frame: &[u8]) -> bool
    ensures { result ≡ is_unasked owed frame.now }
{
    owed == 0 && begins_with(frame, 3) && !is_empty_list(frame)
}

// What comes of the first frame of a peer, at a time since the epoch.
pub(crate) fn first<C: PublicKey>(node: &Node<C>, peer: &C, frame: &Bytes, wall: Duration) -> Came
    ensures { let wire = ⟦<C as Frames>⟧.wire in TellsFirst C.cmp wire node.now.limits
        (judge_of C.cmp wire.verifies node.now.verifier) peer.now frame.now wall result }
{
    if !begins_with(frame.as_slice(), 1) {
        return Came::Breach(Breach::NoGreeting);
    }
    let Ok(kept) = frame.clone() else {
        return Came::Memory;
    };
    let Ok(read) = frame.clone() else {
        return Came::Memory;
    };
    match node.decode(read) {
        Err(CodecError::Memory) => Came::Memory,
        Err(fault) => Came::Breach(Breach::Codec(fault)),
        Ok(decoded) => greeting(&decoded, peer, kept, wall),
    }
}

// What comes of a first frame that was decoded, and that begins as a greeting.
fn greeting<C: PublicKey>(decoded: &Decoded<C>, peer: &C, frame: Bytes, wall: Duration) -> Came
    requires of { decoded.now.frame ≡ frame }
    requires begins { is_greeting_frame frame ≡ true }
    ensures { (judge : Judge C C.Signature) → TellsFirst C.cmp ⟦<C as Frames>⟧.wire
        decoded.now.limits judge peer.now frame wall result }
{
    spelled(decoded);
    let Payload::Greeting(info) = decoded.payload() else {
        return Came::Breach(Breach::NoGreeting);
    };
    if peer.cmp(&info.public_key).is_eq() {
        Came::Waits(Waiting {
            frame,
            wall,
            infos: 1,
            count: 1,
        })
    } else {
        Came::Breach(Breach::OtherGreeting)
    }
}

// What comes of a frame of a peer that has greeted, at a time since the epoch, if so many questions
// are owed.
pub(crate) fn next<C: PublicKey>(node: &Node<C>, owed: usize, frame: &Bytes, wall: Duration) -> Came
    ensures { let wire = ⟦<C as Frames>⟧.wire in TellsNext C.cmp wire node.now.limits
        (judge_of C.cmp wire.verifies node.now.verifier) owed frame.now wall result }
{
    if begins_with(frame.as_slice(), 1) {
        return Came::Breach(Breach::SecondGreeting);
    }
    if is_unasked(owed, frame.as_slice()) {
        return Came::Ignored;
    }
    let Ok(kept) = frame.clone() else {
        return Came::Memory;
    };
    let Ok(read) = frame.clone() else {
        return Came::Memory;
    };
    match node.decode(read) {
        Err(CodecError::Memory) => Came::Memory,
        Err(fault) => Came::Breach(Breach::Codec(fault)),
        Ok(decoded) => payload(node.verifier(), &decoded, kept, wall),
    }
}

// What comes of a frame that was decoded, of a peer that has greeted.
fn payload<C: PublicKey>(
    verifier: &InfoVerifier<C>,
    decoded: &Decoded<C>,
    frame: Bytes,
    wall: Duration,
) -> Came
    requires of { decoded.now.frame ≡ frame }
    requires begins { is_greeting_frame frame ≡ false }
    ensures { let wire = ⟦<C as Frames>⟧.wire in TellsPayload C.cmp wire decoded.now.limits
        (judge_of C.cmp wire.verifies verifier.now) frame wall result }
{
    spelled(decoded);
    match decoded.payload() {
        Payload::Data(message) => Came::Message(message.channel, start_of(decoded, message)),
        Payload::BitVec(_) => Came::Served,
        Payload::Peers(infos) => list(verifier, infos.as_slice(), frame, wall),
        Payload::Greeting(_) => Came::Breach(Breach::SecondGreeting),
    }
}

// What comes of a list of infos.
fn list<C: PublicKey>(
    verifier: &InfoVerifier<C>,
    infos: &[Info<C>],
    frame: Bytes,
    wall: Duration,
) -> Came
    ensures { let wire = ⟦<C as Frames>⟧.wire in (limits : PayloadConfig) →
        TellsList C.cmp wire limits (judge_of C.cmp wire.verifies verifier.now) infos.now frame
        wall result }
{
    if infos.is_empty() {
        return Came::Served;
    }
    let count = verifier.count_to_verify(wall, infos);
    if 0 < count {
        return Came::Waits(Waiting {
            frame,
            wall,
            infos: infos.len(),
            count,
        });
    }
    match verifier.validate_with_verdicts(wall, infos, &[]) {
        Err(error) if is_early(error) => Came::Early,
        Err(error) => Came::Breach(Breach::Invalid(error)),
        Ok(()) => Came::Served,
    }
}

// Whether an info is refused since it is of the future.
pub(crate) fn is_early(error: Error) -> bool
    ensures { result ≡ is_early error }
{
    matches!(error, Error::SynchronyBound)
}

// At which byte of the frame its message begins.
fn start_of<C: PublicKey>(decoded: &Decoded<C>, message: &Data) -> usize
    requires { decoded.now.payload ≡ Payload.Data message.now }
    ensures { IsMessage decoded.now.frame message.now.channel result message.now }
{
    spelled(decoded);
    decoded.frame().len() - message.message.len()
}

// For the proof: a frame that was decoded is the spelling of its payload.
fn spelled<C: PublicKey>(decoded: &Decoded<C>)
    ensures { decoded.now.frame ≡ payload_spelling C.spelled C.Signature.spelled
        decoded.now.payload }
{
    are_bytes(decoded.frame());
    let _payload = decoded.payload();
}

// For the proof: what a slice holds are bytes.
fn are_bytes(bytes: &[u8])
    ensures { IsBytes bytes.now }
{}
