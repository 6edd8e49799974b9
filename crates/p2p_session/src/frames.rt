//! Frames: what of them has to be verified, and what a node returns for them.

ghost use Rattle.std.specs.Prelude.{
  ◌≡◌,
  ℕ,
  ◌+◌,
  ◌≤◌,
  ◌<◌,
  ◌^◌,
  ◌∷◌,
  ◌++◌,
  IfOk,
  IfErr,
  OnErr,
  length,
};
ghost use Rattle.std.specs.Prelude.{take, flat_map, Ok, true};
ghost use Rattle.p2p_discovery.specs.Reading.{IsBytes, whole};
ghost use Rattle.std.specs.Duration.{as_nanos};
ghost use Rattle.p2p_session.specs.Schemes.{wire};
ghost use Rattle.p2p_session.specs.Answers.{IsAnswered, Tells, number, asked_bytes};
ghost use Rattle.p2p_session.specs.Given.{moment_at};
ghost use Rattle.p2p_session.specs.Frames.{received_answer, fault_bytes, error_bytes};
ghost use Rattle.p2p_session.specs.Frames.{
  verdicts_in,
  MayRefuse,
  ReceivesAt,
  Hears,
  HearsAt,
  IsTaken,
  applied_size,
};
ghost use Rattle.p2p_session.specs.Frames.{ChecksAt};
ghost use Rattle.p2p_discovery.specs.Judgement.{judge_of};
ghost use Rattle.p2p_discovery.specs.Payload.{infos_of_payload};
ghost use Rattle.p2p_discovery.specs.declared.discovery.Payload.TheVariants.{Peers};
ghost use Rattle.p2p_directory.specs.Nodes.{standing_of};
ghost use Rattle.p2p_directory.specs.Received.{received_of, AreFew, are_miscounted, to_ask};
ghost use Rattle.p2p_directory.specs.Received.{IsWantOfMemory};

use crate::answer::{Plain, Values, answer, answer_bytes};
use crate::checked::Checked;
use crate::given::{copied, moment};
use crate::refusal::Refusal;
use crate::scheme::Keys;
use p2p_directory::node::{Answer, Node, Received};
use p2p_discovery::codec::{CodecError, FixedBytes, PublicKey, What};
use p2p_discovery::data::Data;
use p2p_discovery::discovery::{Error, Info, InfoVerifier, Payload};
use std::alloc::{AllocError, Global};
use std::time::Duration;

// The first byte of a frame with infos.
const INFOS_PREFIX: u8 = 3;

/// By verification results for the signatures of its infos, processes a frame that the session
/// received, and writes the answer.
pub fn receive<C: PublicKey>(
    alloc: Global,
    node: &mut Node<C>,
    checked: &mut Checked<C>,
    frame: &[u8],
    time: (u64, u32),
    verdicts: &[u8],
    out: &mut [u8],
) -> u64
    ensures { ReceivesAt ⟦<C as Keys>⟧.scheme (verdicts_in verdicts.now) frame.now (moment_at
        time.0 time.1) out.old out.new node.old node.new result }
{
    match hear(alloc, node, checked, frame, time, verdicts, out.len()) {
        Ok(answer) => tell_answer(answer, out),
        Err(refusal) => refusal.number(),
    }
}

// By verification results, processes a frame that the session received, if the buffer is long
// enough.
fn hear<C: PublicKey>(
    alloc: Global,
    node: &mut Node<C>,
    checked: &mut Checked<C>,
    frame: &[u8],
    time: (u64, u32),
    verdicts: &[u8],
    room: usize,
) -> Result<Answer<C>, Refusal>
    ensures heard { IfOk result (λ a. HearsAt ⟦<C as Keys>⟧.scheme (verdicts_in verdicts.now)
        frame.now (moment_at time.0 time.1) node.old node.new (received_of (wire
        ⟦<C as Keys>⟧.scheme) a)) }
    ensures refused { IfErr result (MayRefuse ⟦<C as Keys>⟧.scheme node.old (verdicts_in
        verdicts.now) frame.now (moment_at time.0 time.1) room) }
    ensures same { OnErr result (node.new ≡ node.old) }
    ensures few { IfOk result AreFew }
    ensures taken { IfOk result (λ a. IsTaken ⟦<C as Keys>⟧.scheme node.old (verdicts_in
        verdicts.now) frame.now room (received_of (wire ⟦<C as Keys>⟧.scheme) a)) }
{
    let now = moment(time.0, time.1)?;
    if room < 1 + C::SIZE.max(8) {
        return Err(Refusal::NoRoom);
    }
    let verdicts = verdicts_of(alloc, verdicts)?;
    process(alloc, node, checked, frame, now, &verdicts)
}

// Processes a frame that the session received, which is decoded already if it was checked last.
fn process<C: PublicKey>(
    alloc: Global,
    node: &mut Node<C>,
    checked: &mut Checked<C>,
    frame: &[u8],
    now: Duration,
    verdicts: &[bool],
) -> Result<Answer<C>, Refusal>
    ensures heard { IfOk result (λ a. Hears ⟦<C as Keys>⟧.scheme verdicts.now frame.now (as_nanos
        now) node.old node.new (received_of (wire ⟦<C as Keys>⟧.scheme) a)) }
    ensures refused { IfErr result (λ why. (t room : ℕ) → applied_size ⟦<C as Keys>⟧.scheme ≤ room
        → MayRefuse ⟦<C as Keys>⟧.scheme node.old verdicts.now frame.now (Ok t) room why) }
    ensures same { OnErr result (node.new ≡ node.old) }
    ensures few { IfOk result AreFew }
    ensures counted { IfOk result (λ a. are_miscounted (wire ⟦<C as Keys>⟧.scheme) (standing_of
        C.cmp (wire ⟦<C as Keys>⟧.scheme) node.old) frame.now verdicts.now ≡ true → IsWantOfMemory
        (received_of (wire ⟦<C as Keys>⟧.scheme) a)) }
{
    match checked.take(frame) {
        Some(decoded) => Ok(node.answer_decoded(decoded, now, verdicts)?),
        None => {
            let frame = copied(alloc, frame)?;
            Ok(node.answer_with_verdicts(frame, now, verdicts)?)
        }
    }
}

/// Writes what has to be verified before the session's node processes a frame: how many infos it
/// has, and those whose signatures decide. Keeps the frame decoded.
pub fn check<C: PublicKey>(
    alloc: Global,
    node: &Node<C>,
    checked: &mut Checked<C>,
    frame: &[u8],
    time: (u64, u32),
    out: &mut [u8],
) -> u64
    ensures { ChecksAt ⟦<C as Keys>⟧.scheme node.now frame.now (moment_at time.0 time.1) out.old
        out.new result }
{
    let now = match moment(time.0, time.1) {
        Ok(now) => now,
        Err(refusal) => return refusal.number(),
    };
    let Ok(frame) = copied(alloc, frame) else {
        return Refusal::Memory.number();
    };
    match node.decode(frame) {
        Ok(decoded) => {
            let answer = tell_asked(node.verifier(), decoded.payload(), now, out);
            checked.keep(decoded);
            answer
        }
        Err(CodecError::Memory) => Refusal::Memory.number(),
        Err(_) => answer_bytes(&0u64.to_be_bytes(), out),
    }
}

// Writes for the session what of a frame's payload has to be verified.
fn tell_asked<C: PublicKey>(
    verifier: &InfoVerifier<C>,
    payload: &Payload<C>,
    now: Duration,
    out: &mut [u8],
) -> u64
    ensures { IsAnswered (number (length (infos_of_payload payload.now)) ++ flat_map (asked_bytes
        ⟦<C as Keys>⟧.scheme) (to_ask (judge_of C.cmp (wire ⟦<C as Keys>⟧.scheme).verifies
        verifier.now) (as_nanos now) payload.now)) out.old out.new result }
{
    match payload {
        Payload::Data(_) | Payload::BitVec(_) => answer_bytes(&0u64.to_be_bytes(), out),
        Payload::Greeting(info) => match verifier.validate_info_with_verdict(now, info, true) {
            Ok(()) => tell_question(info, out),
            Err(_) => answer_bytes(&1u64.to_be_bytes(), out),
        },
        Payload::Peers(infos) => {
            let infos = infos.as_slice();
            let count = verifier.count_to_verify(now, infos);
            tell_first(infos, count, out)
        }
    }
}

// Writes for the session that a frame has one info, and what is to be verified of it.
fn tell_question<C: PublicKey>(info: &Info<C>, out: &mut [u8]) -> u64
    ensures { IsAnswered (number 1 ++ asked_bytes ⟦<C as Keys>⟧.scheme info.now) out.old out.new
        result }
{
    let count = 1u64.to_be_bytes();
    answer(&[Values::Bytes(&count), Values::Question(info)], out)
}

// Writes for the session how many infos a frame has, and what is to be verified of the first
// `count` of them.
fn tell_first<C: PublicKey>(infos: &[Info<C>], count: usize, out: &mut [u8]) -> u64
    requires { count ≤ length infos.now }
    ensures { IsAnswered (number (length infos.now) ++ flat_map (asked_bytes ⟦<C as Keys>⟧.scheme)
        (take count infos.now)) out.old out.new result }
{
    answer(
        &[
            Values::Bytes(&(infos.len() as u64).to_be_bytes()),
            Values::Questions(&infos[..count]),
        ],
        out,
    )
}

// The verification results for a session's frame that these bytes encode.
#[tactic(auto, using(crate::proofs::Puts::map_next))]
fn verdicts_of(alloc: Global, bytes: &[u8]) -> Result<Vec<bool>, AllocError>
    ensures ok { IfOk result (λ v. v.items ≡ verdicts_in bytes.now) }
    ensures err { OnErr result (0 < length bytes.now) }
{
    if bytes.is_empty() {
        return Ok(Vec::new(alloc));
    }
    let mut verdicts = Vec::with_capacity(alloc, bytes.len())?;
    for byte in bytes {
        verdicts.push(*byte != 0)?;
    }
    Ok(verdicts)
}

// Writes what the session's node returned for a frame. The infos of a reply are encoded where they
// are written.
fn tell_answer<C: PublicKey>(answer: Answer<C>, out: &mut [u8]) -> u64
    requires { AreFew answer }
    ensures { let k = ⟦<C as Keys>⟧.scheme in Tells (received_answer k (received_of (wire k)
        answer)) out.old out.new result }
{
    match answer {
        Answer::Infos(infos) => tell_reply(infos.as_slice(), out),
        Answer::Received(received) => tell_received(received, out),
    }
}

// Writes for the session the infos with which a frame is replied to.
fn tell_reply<C: PublicKey>(infos: &[Info<C>], out: &mut [u8]) -> u64
    requires { length infos.now < 2 ^ 32 }
    ensures { IsAnswered (2 ∷ (wire ⟦<C as Keys>⟧.scheme).spelling (Peers infos.now)) out.old
        out.new result }
{
    let count = infos.len() as u32;
    answer(
        &[
            Values::Bytes(&[2, INFOS_PREFIX]),
            Values::Count(count),
            Values::Infos(infos),
        ],
        out,
    )
}

// Writes what else the session's node returned for a frame.
fn tell_received<C: PublicKey>(received: Received<C>, out: &mut [u8]) -> u64
    ensures { Tells (received_answer ⟦<C as Keys>⟧.scheme received) out.old out.new result }
{
    match received {
        Received::Data(sent) => tell_data(&sent, out),
        Received::Greeted(key) => tell_greeter(&key, out),
        Received::Reply(frame) => answer(&[Plain(&[2]), Plain(frame.as_slice())], out),
        Received::Applied(count) => answer(
            &[Plain(&[3]), Plain(&(count as u64).to_be_bytes())],
            out,
        ),
        Received::Codec(fault) => tell_fault(fault, out),
        Received::Malformed => answer_bytes(&[5], out),
        Received::Invalid(error) => tell_error(error, out),
        Received::Memory => Refusal::Memory.number(),
    }
}

// Writes for the session the channel of the message in a frame, and its length.
fn tell_data(sent: &Data, out: &mut [u8]) -> u64
    ensures { IsAnswered (0 ∷ (number sent.now.channel ++ number (length sent.now.message)))
        out.old out.new result }
{
    answer(
        &[
            Plain(&[0]),
            Plain(&sent.channel.to_be_bytes()),
            Plain(&(sent.message.len() as u64).to_be_bytes()),
        ],
        out,
    )
}

// Writes for the session the key of a greeting.
fn tell_greeter<C: PublicKey>(key: &C, out: &mut [u8]) -> u64
    ensures { IsAnswered (1 ∷ C.spelled key.now) out.old out.new result }
{
    answer(&[Values::Bytes(&[1]), Values::Key(key)], out)
}

// Writes for the session the error of a frame.
fn tell_fault(fault: CodecError, out: &mut [u8]) -> u64
    ensures { IsAnswered (4 ∷ fault_bytes fault) out.old out.new result }
{
    match fault {
        CodecError::EndOfBuffer => answer_bytes(&[4, 0], out),
        CodecError::ExtraData(n) => answer_three(4, 1, n as u64, out),
        CodecError::InvalidLength(n) => answer_three(4, 2, n as u64, out),
        CodecError::InvalidVarint(n) => answer_three(4, 3, n as u64, out),
        CodecError::InvalidEnum(n) => answer_three(4, 4, u64::from(n), out),
        CodecError::Invalid(What::Hostname) => answer_bytes(&[4, 5], out),
        CodecError::Invalid(What::Padding) => answer_bytes(&[4, 6], out),
        CodecError::Invalid(What::Key) => answer_bytes(&[4, 7], out),
        CodecError::Invalid(What::Signature) => answer_bytes(&[4, 8], out),
        CodecError::Memory => answer_bytes(&[4, 9], out),
    }
}

// Writes for the session why the infos of a frame are refused.
fn tell_error(error: Error, out: &mut [u8]) -> u64
    ensures { IsAnswered (6 ∷ error_bytes error) out.old out.new result }
{
    match error {
        Error::TooManyPeers(n) => answer_three(6, 0, n as u64, out),
        Error::ReceivedSelf => answer_bytes(&[6, 1], out),
        Error::InvalidSignature => answer_bytes(&[6, 2], out),
        Error::SynchronyBound => answer_bytes(&[6, 3], out),
    }
}

// Writes two bytes and a number of what the session's node returned for a frame.
fn answer_three(byte: u8, kind: u8, count: u64, out: &mut [u8]) -> u64
    ensures { IsAnswered (byte ∷ (kind ∷ number count)) out.old out.new result }
{
    answer(&[Plain(&[byte, kind]), Plain(&count.to_be_bytes())], out)
}
