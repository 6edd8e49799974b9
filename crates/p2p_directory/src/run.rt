//! Commands to a directory, served one after the other, and their replies.

ghost use Rattle.std.specs.Prelude.{◌≡◌, ◌<◌, ◌-◌, ◌^◌, [], None, IfOk, OnOk};
ghost use Rattle.std.specs.Int.NonZero.{non_zero_usize_get};
ghost use Rattle.std.specs.List.{AllPass};
ghost use Rattle.p2p_directory.specs.Held.{held_of};
ghost use Rattle.p2p_directory.specs.Private.Slots.{held_in, AreSlots};
ghost use Rattle.p2p_directory.specs.Private.Serving.{has_slot_for};
ghost use Rattle.p2p_directory.specs.Refinement.{Refines};
ghost use Rattle.p2p_directory.specs.Run.{settings, calls_of, world_left, AreAnswers};
ghost use Rattle.p2p_directory.specs.Run.{Holds};
ghost use Rattle.p2p_directory.specs.Laws.Run.{LawsOfRun};

pub use crate::run::commands::{Command, Reply};
pub use crate::run::held::Held;
pub use crate::run::outcome::Run;
use crate::run::server::Server;
use crate::run::slots::Slots;
use p2p_discovery::codec::PublicKey;
use p2p_discovery::discovery::Info;
use p2p_discovery::types::Ingress;
use p2p_tracker::directory::{Config, Directory};
use std::alloc::{AllocError, Global};

mod commands;
mod held;
mod outcome;
mod replies;
pub(crate) mod server;
pub(crate) mod slots;

/// Makes a directory and runs the commands over it, one after the other. Each reply is that of the
/// call, by what was called before it. A command whose reply is `NotReserved`, `NotHeld` or
/// `OutOfMemory` has no effect.
///
/// Space for all replies and all reservations is allocated before the first command, so only these
/// may get `OutOfMemory`:
///
/// - a `Track` whose set and a `Block` that would be accepted;
/// - a `Dial` and a `Listen` that would be granted;
/// - an `Info` of a peer whose info may be shared, and an `Infos` if an info is shared;
/// - a `GetRandomBitVec` of a position that exists, and a `GetPeerSet` of a set with a peer;
/// - `LatestUpdate` and `All` if some retained set has a peer;
/// - `BlockedPeers` and `Dialable` if they list a peer.
///
/// The replies keep the laws of cooldowns, few grants, blocks, dials and quiet time, isolation,
/// order, bounds, connections to close and repair, which docs/PROOFS.md has under these headings.
/// Times are durations since the epoch, exact to the nanosecond; the sum of a time and a duration
/// is capped at `Duration::MAX`.
///
/// The result is consumed by [`Run::finish`].
///
/// # Conditions
///
/// Those of [`Directory::init`].
///
/// # Errors
///
/// `AllocError` if an allocation fails before the first command.
///
/// # Cost
///
/// That of the calls, and for each `Dial`, `Listen` and `Release` a logarithm of the number of
/// peers of all `Dial` and `Listen` commands.
pub fn run<C: PublicKey>(
    alloc: Global,
    bootstrappers: Vec<(C, Ingress)>,
    myself: Info<C>,
    cfg: Config,
    commands: Vec<Command<C>>,
) -> Result<Run<C>, AllocError>
    requires { non_zero_usize_get cfg.max_sets < 2 ^ 64 - 1 }
    ensures answers { IfOk result (λ run. let s = settings C.cmp bootstrappers.items myself cfg in
        AreAnswers s [] (calls_of commands.items) run.replies.items) }
    ensures directory { IfOk result (λ run. let s = settings C.cmp bootstrappers.items myself cfg in
        Refines s (world_left s (calls_of commands.items) run.replies.items) run.directory) }
    ensures held { IfOk result (λ run. let s = settings C.cmp bootstrappers.items myself cfg in
        Holds s (world_left s (calls_of commands.items) run.replies.items)
        (held_of C.cmp run.held)) }
    ensures laws { IfOk result (λ run. let s = settings C.cmp bootstrappers.items myself cfg in
        LawsOfRun s (calls_of commands.items) run.replies.items) }
{
    let mut replies = Vec::with_capacity(alloc, commands.len())?;
    let slots = slots_for(alloc, &commands)?;
    let mut server = match Directory::init(alloc, bootstrappers, myself, cfg) {
        Ok(directory) => Server::new(directory, slots),
        Err(refused) => {
            slots.close();
            return Err(refused);
        }
    };
    for command in commands {
        replies.push_reserved(server.serve(command));
    }
    Ok(server.into_run(replies))
}

// Makes, before a run starts, a slot for each peer of which its commands may be granted a
// reservation.
fn slots_for<C: PublicKey>(alloc: Global, commands: &[Command<C>]) -> Result<Slots<C>, AllocError>
    ensures room { IfOk result (λ slots. AllPass (has_slot_for C.cmp slots) commands.now) }
    ensures empty { IfOk result (λ slots. (q : C) → held_in C.cmp slots q ≡ None) }
    ensures ordered { IfOk result (AreSlots C.cmp) }
{
    let mut slots = Slots::new(alloc);
    match make_room(&mut slots, commands) {
        Ok(()) => Ok(slots),
        Err(refused) => {
            slots.close();
            Err(refused)
        }
    }
}

// Makes, before a run starts, an empty slot for each peer of which its commands may be granted a
// reservation, if there is none.
fn make_room<C: PublicKey>(slots: &mut Slots<C>, commands: &[Command<C>]) -> Result<(), AllocError>
    ensures room { OnOk result (AllPass (has_slot_for C.cmp slots.new) commands.now) }
    ensures held { (q : C) → held_in C.cmp slots.new q ≡ held_in C.cmp slots.old q }
    ensures ordered { AreSlots C.cmp slots.old → AreSlots C.cmp slots.new }
{
    for command in commands {
        slots.make_for(command)?;
    }
    Ok(())
}
