//! The frames that a driver has its node answer, by what the node makes of them.

ghost use Rattle.std.specs.Prelude.{◌≡◌, ◌-◌, ◌++◌, false};
ghost use Rattle.std.specs.Prelude.{IfOk, length, take, replicate};
ghost use Rattle.p2p_discovery.specs.Judgement.{judge_of};
ghost use Rattle.p2p_driver.specs.Frames.{IsWaiting};
ghost use Rattle.p2p_driver.specs.Hearing.{Serves, Judges, IsServable};

use crate::links::{Phase, Waiting};
use bytes::Bytes;
use p2p_directory::node::wire::Frames;
use p2p_directory::node::{Answer, Node, Received};
use p2p_discovery::codec::PublicKey;
use p2p_discovery::discovery::Error;
use std::alloc::{AllocError, Global};
use std::time::Duration;

// What a node returns for a question, or for the empty list.
#[derive(Drop)]
pub(crate) enum Served {
    // A frame with infos, which answers the question.
    Reply(Bytes),
    // The question doesn't fit its set.
    Malformed,
    // The empty list was applied.
    Applied,
    // An allocation failed. Nothing has changed.
    Memory,
}

// What a node makes of verdicts on a frame.
#[derive(Clone, Copy)]
pub(crate) enum Judged {
    // The info of a greeting was applied.
    Greeted,
    // So many infos were applied.
    Applied(usize),
    // An info or their number is refused. Nothing has changed.
    Refused(Error),
    // An allocation failed. Nothing has changed.
    Memory,
}

// Has the node answer a question, or apply the empty list.
pub(crate) fn serve<C: PublicKey>(node: &mut Node<C>, frame: &Bytes, wall: Duration) -> Served
    requires { IsServable ⟦<C as Frames>⟧.wire node.old.limits frame.now }
    ensures { Serves C.cmp ⟦<C as Frames>⟧.wire frame.now wall result node.old node.new }
{
    let Ok(copy) = frame.clone() else {
        return Served::Memory;
    };
    match node.receive(copy, wall) {
        Received::Reply(reply) => Served::Reply(reply),
        Received::Malformed => Served::Malformed,
        Received::Applied(_) => Served::Applied,
        _ => Served::Memory,
    }
}

// Has the node judge the frame that waits on a peer's link, given whether the signatures that
// decide are valid.
pub(crate) fn judge<C: PublicKey>(
    node: &mut Node<C>,
    phase: Phase,
    peer: &C,
    waiting: &Waiting,
    verdicts: &[bool],
) -> Judged
    requires waits { let wire = ⟦<C as Frames>⟧.wire in IsWaiting C.cmp wire node.old.limits
        (judge_of C.cmp wire.verifies node.old.verifier) phase peer.now waiting.now }
    requires counted { length verdicts.now ≡ waiting.now.count }
    ensures { Judges C.cmp ⟦<C as Frames>⟧.wire waiting.now verdicts.now result
        node.old node.new }
{
    let Ok(frame) = waiting.frame.clone() else {
        return Judged::Memory;
    };
    let Ok(all) = padded(node.directory().allocator(), verdicts, waiting.infos) else {
        return Judged::Memory;
    };
    match node.answer_with_verdicts(frame, waiting.wall, all.as_slice()) {
        Ok(Answer::Received(Received::Greeted(_))) => Judged::Greeted,
        Ok(Answer::Received(Received::Applied(count))) => Judged::Applied(count),
        Ok(Answer::Received(Received::Invalid(error))) => Judged::Refused(error),
        _ => Judged::Memory,
    }
}

// These verdicts, and behind them as many invalid ones as are missing for so many infos.
fn padded(alloc: Global, verdicts: &[bool], infos: usize) -> Result<Vec<bool>, AllocError>
    ensures { IfOk result (λ all. all.items ≡ take infos verdicts.now
        ++ replicate (infos - length verdicts.now) false) }
{
    let mut all = Vec::with_capacity(alloc, infos)?;
    all.extend_from_slice(verdicts)?;
    all.resize(infos, false)?;
    Ok(all)
}
