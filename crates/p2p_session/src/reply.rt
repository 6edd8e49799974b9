//! Replies of a node, as numbers and bytes.

ghost use Rattle.std.specs.Prelude.{◌≡◌, ◌⊎◌, ◌∷◌, IfOk, OnErr, option_map};
ghost use Rattle.p2p_discovery.specs.Ingress.{ingress_spelling};
ghost use Rattle.std.specs.Duration.{as_nanos};
ghost use Rattle.p2p_session.specs.Frames.{held_answer};
ghost use Rattle.p2p_session.specs.Answers.{Tells, Refuses, IsAnswered, truth};
ghost use Rattle.p2p_session.specs.Answers.{status_number, peers_bytes, update_bytes, optional};
ghost use Rattle.p2p_session.specs.Answers.{keys_bytes, moment_bytes, number};
ghost use Rattle.p2p_session.specs.Sessions.{TellsReply, answer_to};
ghost use Rattle.p2p_session.specs.Answers.Answer.{Is, Bytes as Spelled};
ghost use Rattle.p2p_discovery.specs.Info.{infos_spelling};

use crate::answer::{Plain, Values, answer, answer_bytes, answer_one};
use crate::refusal::Refusal;
use crate::scheme::Keys;
use bytes::Bytes;
use p2p_directory::directory::{Metadata, PeerSetUpdate, TrackedPeers};
use p2p_directory::record::{Dialable, Status};
use p2p_directory::run::Reply;
use p2p_discovery::codec::{PublicKey, Write};
use p2p_discovery::discovery::Info;
use p2p_discovery::sets::OrderedSet;
use p2p_discovery::types::{Ingress, IpAddr};
use std::alloc::{AllocError, Global};
use std::time::Duration;

/// Writes a reply of the session's node: returns a number, or how many bytes it has. They are at
/// the start of the buffer, if they fit. Always inlined, so that a reply, which is large, is
/// matched where it lies and not moved first.
#[inline(always)]
pub fn tell<C: PublicKey>(alloc: Global, reply: Reply<C>, out: &mut [u8]) -> u64
    ensures { TellsReply ⟦<C as Keys>⟧.scheme reply out.old out.new result }
{
    match reply {
        Reply::Track(torn) => tell_set(torn, out),
        Reply::Dial(is) | Reply::Listen(is) | Reply::Block(is) => u64::from(is),
        Reply::UnblockExpired(is) | Reply::Eligible(is) | Reply::Acceptable(is) => u64::from(is),
        Reply::MayListen(is) => u64::from(is),
        Reply::Connect | Reply::Release | Reply::UpdatePeers => 1,
        Reply::ForgetCooled(count) | Reply::Tracked(count) => count as u64,
        Reply::NextUnblock(moment) => tell_moment(moment, out),
        Reply::BlockedPeers(peers) => answer_one(Values::Keys(peers.as_slice()), out),
        Reply::Status(status) => status_of(status),
        Reply::GetPeerSet(peers) => tell_peers(peers, out),
        Reply::LatestSetIndex(index) => tell_index(index, out),
        Reply::LatestUpdate(update) => tell_update(update, out),
        Reply::All(peers) => answer_peers(&peers, out),
        Reply::Info(Some(info)) => answer_one(Values::Info(&info), out),
        Reply::Ingress(ingress) => tell_ingress(&ingress, out),
        Reply::Infos(Some(infos)) => tell_infos(&infos, out),
        Reply::GetRandomBitVec(Some(bits)) => tell_spelled(alloc, &bits, out),
        Reply::Info(None) | Reply::Infos(None) | Reply::GetRandomBitVec(None) => {
            Refusal::Absent.number()
        }
        Reply::Dialable(dialable) => tell_dialable(&dialable, out),
        Reply::NotReserved => Refusal::NotReserved.number(),
        Reply::NotHeld => Refusal::NotHeld.number(),
        Reply::OutOfMemory => Refusal::Memory.number(),
    }
}

/// Writes, as the session's reply, the frame that its node asks with.
pub fn tell_frame(frame: Result<Option<Bytes>, AllocError>, out: &mut [u8]) -> u64
    ensures ok { IfOk frame (λ frame. Tells (optional (λ bytes. bytes) frame)
        out.old out.new result) }
    ensures err { OnErr frame (Refuses Refusal.Memory out.old out.new result) }
{
    match frame {
        Ok(Some(frame)) => answer_bytes(frame.as_slice(), out),
        Ok(None) => Refusal::Absent.number(),
        Err(AllocError) => Refusal::Memory.number(),
    }
}

/// Writes, as the session's reply, whom a reservation is for.
pub fn tell_held<C: PublicKey>(held: Option<&Metadata<C>>, out: &mut [u8]) -> u64
    ensures { Tells (held_answer (option_map (λ m. m.now) held.entry)) out.old out.new result }
{
    match held {
        Some(Metadata::Dialer(_, ingress)) => tell_dialler(ingress, out),
        Some(Metadata::Listener(_)) => answer_bytes(&[0], out),
        None => Refusal::Absent.number(),
    }
}

// Writes, in the session's reply, that an ingress is dialled. An address of version 4, the most
// frequent, is one part.
fn tell_dialler(ingress: &Ingress, out: &mut [u8]) -> u64
    ensures { Tells (Spelled (1 ∷ ingress_spelling ingress.now)) out.old out.new result }
{
    if let Some(IpAddr::V4(ip)) = ingress.ip() {
        let port = ingress.port().to_be_bytes();
        let told = [1, 0, 4, ip[0], ip[1], ip[2], ip[3], port[0], port[1]];
        return answer_bytes(&told, out);
    }
    let bytes = ingress.encoded();
    answer(&[Plain(&[1]), Plain(bytes.as_slice())], out)
}

// Writes, as the session's reply, an encoded ingress, if there is one.
fn tell_ingress(ingress: &Option<Ingress>, out: &mut [u8]) -> u64
    ensures { Tells (optional ingress_spelling ingress.now) out.old out.new result }
{
    match ingress {
        Some(ingress) => answer_bytes(ingress.encoded().as_slice(), out),
        None => Refusal::Absent.number(),
    }
}

fn tell_set<C: PublicKey>(set: Option<OrderedSet<C>>, out: &mut [u8]) -> u64
    ensures { Tells (optional (keys_bytes ⟦<C as Keys>⟧.scheme) set) out.old out.new result }
{
    match set {
        Some(set) => answer_one(Values::Keys(set.as_slice()), out),
        None => Refusal::Absent.number(),
    }
}

/// Writes, as the session's reply, a time, if there is one.
pub fn tell_moment(moment: Option<Duration>, out: &mut [u8]) -> u64
    ensures { Tells (optional (λ t. moment_bytes (as_nanos t)) moment) out.old out.new result }
{
    match moment {
        Some(t) => answer(
            &[
                Plain(&t.as_secs().to_be_bytes()),
                Plain(&t.subsec_nanos().to_be_bytes()),
            ],
            out,
        ),
        None => Refusal::Absent.number(),
    }
}

/// The number in a reply of the session that encodes a status.
pub fn status_of(status: Option<Status>) -> u64
    ensures { Is result ≡ status_number status }
{
    match status {
        None => Refusal::Absent.number(),
        Some(Status::Inert) => 0,
        Some(Status::Reserved) => 1,
        Some(Status::Active) => 2,
    }
}

/// The number in a reply of the session that encodes a bool.
pub fn truth_of(is: bool) -> u64
    ensures { Is result ≡ truth is }
{
    u64::from(is)
}

/// Writes, as the session's reply, an index, if there is one.
pub fn tell_index(index: Option<u64>, out: &mut [u8]) -> u64
    ensures { Tells (optional number index) out.old out.new result }
{
    match index {
        Some(index) => answer_bytes(&index.to_be_bytes(), out),
        None => Refusal::Absent.number(),
    }
}

fn tell_peers<C: PublicKey>(peers: Option<TrackedPeers<C>>, out: &mut [u8]) -> u64
    ensures { Tells (optional (peers_bytes ⟦<C as Keys>⟧.scheme) peers) out.old out.new result }
{
    match peers {
        Some(peers) => answer_peers(&peers, out),
        None => Refusal::Absent.number(),
    }
}

fn answer_peers<C: PublicKey>(peers: &TrackedPeers<C>, out: &mut [u8]) -> u64
    ensures { IsAnswered ((peers_bytes ⟦<C as Keys>⟧.scheme) peers.now) out.old out.new result }
{
    let parts = [
        Values::Bytes(&(peers.primary.len() as u64).to_be_bytes()),
        Values::Keys(peers.primary.as_slice()),
        Values::Keys(peers.secondary.as_slice()),
    ];
    answer(&parts, out)
}

fn tell_update<C: PublicKey>(update: Option<PeerSetUpdate<C>>, out: &mut [u8]) -> u64
    ensures { Tells (optional (update_bytes ⟦<C as Keys>⟧.scheme) update) out.old out.new result }
{
    match update {
        Some(update) => answer_update(&update, out),
        None => Refusal::Absent.number(),
    }
}

fn answer_update<C: PublicKey>(update: &PeerSetUpdate<C>, out: &mut [u8]) -> u64
    ensures { IsAnswered ((update_bytes ⟦<C as Keys>⟧.scheme) update.now) out.old out.new result }
{
    let latest = &update.latest;
    let all = &update.all;
    let parts = [
        Values::Bytes(&update.index.to_be_bytes()),
        Values::Bytes(&(latest.primary.len() as u64).to_be_bytes()),
        Values::Bytes(&(latest.secondary.len() as u64).to_be_bytes()),
        Values::Bytes(&(all.primary.len() as u64).to_be_bytes()),
        Values::Keys(latest.primary.as_slice()),
        Values::Keys(latest.secondary.as_slice()),
        Values::Keys(all.primary.as_slice()),
        Values::Keys(all.secondary.as_slice()),
    ];
    answer(&parts, out)
}

fn tell_dialable<C: PublicKey>(dialable: &Dialable<C>, out: &mut [u8]) -> u64
    ensures { Tells (answer_to ⟦<C as Keys>⟧.scheme (Reply.Dialable dialable.now)) out.old out.new
        result }
{
    let peers = Values::Keys(&dialable.peers);
    match dialable.next_query_at {
        Some(t) => answer(
            &[
                Values::Bytes(&[1]),
                Values::Bytes(&t.as_secs().to_be_bytes()),
                Values::Bytes(&t.subsec_nanos().to_be_bytes()),
                peers,
            ],
            out,
        ),
        None => answer(&[Values::Bytes(&[0]), peers], out),
    }
}

// Writes, as the session's reply, the encoded infos. They are no more than the bits that were
// given, so a number that can't be encoded doesn't occur.
fn tell_infos<C: PublicKey>(infos: &[Info<C>], out: &mut [u8]) -> u64
    ensures { Refuses Refusal.Memory out.old out.new result
        ⊎ Tells (Spelled (infos_spelling C.spelled C.Signature.spelled infos.now))
        out.old out.new result }
{
    match u32::try_from(infos.len()) {
        Ok(count) => answer(&[Values::Count(count), Values::Infos(infos)], out),
        Err(_) => Refusal::Memory.number(),
    }
}

// Writes, as the session's reply, an encoded value, for which it allocates.
fn tell_spelled<T: Write>(alloc: Global, value: &T, out: &mut [u8]) -> u64
    requires { T.CanSpell value.now }
    ensures { Refuses Refusal.Memory out.old out.new result
        ⊎ Tells (Spelled (T.spelling value.now)) out.old out.new result }
{
    match value.encode(alloc) {
        Ok(bytes) => answer_bytes(bytes.as_slice(), out),
        Err(AllocError) => Refusal::Memory.number(),
    }
}
