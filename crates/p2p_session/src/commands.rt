//! Commands, decoded from what a session is given for them.

ghost use Rattle.std.specs.Prelude.{◌≡◌, Ok};
ghost use Rattle.p2p_session.specs.Given.{asked, and_then, IsRead, ArePeersRead, infos_spelled};
ghost use Rattle.p2p_session.specs.Given.{bits_spelled};
ghost use Rattle.p2p_session.specs.Sessions.{of_peer, at_moment};
ghost use Rattle.p2p_tracker.specs.Calls.Call.{Ask, Update};
ghost use Rattle.p2p_tracker.specs.Calls.Question.{BlockedAt, InfoOf, IngressOf, DialableAt};
ghost use Rattle.p2p_tracker.specs.Calls.Question.{InfosFor};

use crate::given::{are_keys, bits, infos, key, moment, set};
use crate::refusal::Refusal;
use crate::scheme::Keys;
use p2p_directory::directory::TrackedPeers;
use p2p_directory::run::Command;
use p2p_discovery::codec::PublicKey;
use std::alloc::Global;

pub fn peers<C: PublicKey>(
    alloc: Global,
    primary: &[u8],
    secondary: &[u8],
) -> Result<TrackedPeers<C>, Refusal>
    ensures { ArePeersRead ⟦<C as Keys>⟧.scheme primary.now secondary.now result }
{
    if !are_keys::<C>(primary) || !are_keys::<C>(secondary) {
        return Err(Refusal::BadKeys);
    }
    let primary = set(alloc, primary)?;
    let secondary = set(alloc, secondary)?;
    Ok(TrackedPeers::new(primary, secondary))
}

pub fn update_peers<C: PublicKey>(alloc: Global, bytes: &[u8]) -> Result<Command<C>, Refusal>
    ensures { IsRead bytes.now (asked result) (and_then
        (infos_spelled ⟦<C as Keys>⟧.scheme bytes.now) (λ is. Ok (Update is))) }
{
    Ok(Command::UpdatePeers(infos(alloc, bytes)?))
}

pub fn infos_for<C: PublicKey>(
    alloc: Global,
    bytes: &[u8],
    seconds: u64,
    nanos: u32,
) -> Result<Command<C>, Refusal>
    ensures { IsRead bytes.now (asked result) (and_then (bits_spelled bytes.now) (λ v.
        at_moment seconds nanos (λ now. Ask (InfosFor v.index v.bits now)))) }
{
    let bit_vec = bits(alloc, bytes)?;
    let now = moment(seconds, nanos)?;
    Ok(Command::Infos { bit_vec, now })
}

pub fn blocked_peers<C: PublicKey>(seconds: u64, nanos: u32) -> Result<Command<C>, Refusal>
    ensures { asked result ≡ at_moment seconds nanos (λ now. Ask (BlockedAt now)) }
{
    Ok(Command::BlockedPeers(moment(seconds, nanos)?))
}

pub fn info<C: PublicKey>(peer: &[u8]) -> Result<Command<C>, Refusal>
    ensures { asked result ≡ of_peer ⟦<C as Keys>⟧.scheme peer.now (λ p. Ask (InfoOf p)) }
{
    Ok(Command::Info(key(peer).ok_or(Refusal::BadKey)?))
}

pub fn ingress<C: PublicKey>(peer: &[u8]) -> Result<Command<C>, Refusal>
    ensures { asked result ≡ of_peer ⟦<C as Keys>⟧.scheme peer.now (λ p. Ask (IngressOf p)) }
{
    Ok(Command::Ingress(key(peer).ok_or(Refusal::BadKey)?))
}

pub fn dialable<C: PublicKey>(seconds: u64, nanos: u32) -> Result<Command<C>, Refusal>
    ensures { asked result ≡ at_moment seconds nanos (λ now. Ask (DialableAt now)) }
{
    Ok(Command::Dialable(moment(seconds, nanos)?))
}
