//! Runs of commands: the replies are those that the other commands get without the ones that ran
//! out of memory.

ghost use Rattle.std.specs.Prelude.{◌<◌, ◌-◌, ◌^◌};
ghost use Rattle.std.specs.Int.NonZero.{non_zero_usize_get};

use crate::told::{compares, end, mark, words_of};
use lines::examples::{Row, all_lines};
use lines::{Line, Unreadable, commands, examples, setup};
use p2p_directory::node::Setup;
use p2p_directory::run::{Command, Reply, Run, run};
use p2p_discovery::codec::TestKey;
use std::alloc::{AllocError, Global};
use std::fmt::Write;

// Runs the commands, to which memory may be refused, over the directory of such a node.
fn run_from(
    alloc: Global,
    setup: Setup<TestKey>,
    commands: Vec<Command<TestKey>>,
) -> Result<Run<TestKey>, AllocError>
    requires { non_zero_usize_get setup.cfg.max_sets < 2 ^ 64 - 1 }
{
    let Setup {
        bootstrappers,
        myself,
        cfg,
        ..
    } = setup;
    run(alloc, bootstrappers, myself, cfg, commands)
}

// Whether the reply of a run is one of a call to which memory may be refused.
fn may_want_memory(reply: &Reply<TestKey>) -> bool {
    match reply {
        Reply::Track(torn) => torn.is_some(),
        Reply::Dial(done) | Reply::Listen(done) | Reply::Block(done) => *done,
        Reply::Info(info) => info.is_some(),
        Reply::Infos(infos) => infos.as_ref().is_some_and(|infos| !infos.is_empty()),
        Reply::GetRandomBitVec(bits) => bits.is_some(),
        Reply::GetPeerSet(peers) => peers.is_some(),
        Reply::LatestUpdate(update) => update.is_some(),
        Reply::All(peers) => !peers.primary.is_empty() || !peers.secondary.is_empty(),
        Reply::BlockedPeers(peers) => !peers.is_empty(),
        Reply::Dialable(dialable) => !dialable.peers.is_empty(),
        _ => false,
    }
}

// The replies of a run but those that say that memory was refused.
fn replies_of(alloc: Global, left: &Run<TestKey>) -> Result<String, AllocError> {
    let mut text = String::new(alloc);
    for reply in &left.replies {
        if !matches!(reply, Reply::OutOfMemory) {
            write!(text, "{}\n", Line(reply))?;
        }
    }
    Ok(text)
}

// The replies, and the results of all queries of the directory afterwards.
#[derive(Drop)]
struct Words {
    replies: String,
    questions: String,
}

fn read_words(alloc: Global, left: &Run<TestKey>) -> Result<Words, AllocError> {
    Ok(Words {
        replies: replies_of(alloc, left)?,
        questions: words_of(alloc, &left.directory)?,
    })
}

// A run of these lines over the directory of the example, to which no memory is refused.
fn run_over(alloc: Global, row: &Row, lines: &[&'static str]) -> Result<Run<TestKey>, Unreadable> {
    let setup = setup(alloc, row.settings)?;
    let commands = commands(alloc, lines)?;
    Ok(run_from(alloc, setup, commands)?)
}

fn words_over(alloc: Global, row: &Row, lines: &[&'static str]) -> Result<Words, Unreadable> {
    let left = run_over(alloc, row, lines)?;
    let words = read_words(alloc, &left);
    end(left.finish());
    Ok(words?)
}

// Whether memory may be refused to the last of these lines of a run, after the others.
fn may_be_refused(alloc: Global, row: &Row, lines: &[&'static str]) -> Result<bool, Unreadable> {
    let left = run_over(alloc, row, lines)?;
    let wants = left.replies.last().is_some_and(may_want_memory);
    end(left.finish());
    Ok(wants)
}

// The lines of a run to which no memory was refused; `None` if it was to one that never allocates.
fn accepted(
    alloc: Global,
    row: &Row,
    lines: &[&'static str],
    replies: &[Reply<TestKey>],
) -> Result<Option<Vec<&'static str>>, Unreadable> {
    let mut accepted = Vec::new(alloc);
    for (line, reply) in lines.iter().zip(replies) {
        accepted.push(*line)?;
        if matches!(reply, Reply::OutOfMemory) {
            if !may_be_refused(alloc, row, accepted.as_slice())? {
                return Ok(None);
            }
            let _refused = accepted.pop();
        }
    }
    Ok(Some(accepted))
}

// Prints the replies of a run to which memory was refused, and compares them with those that the
// other commands get by themselves.
fn tells(
    alloc: Global,
    text: &mut String,
    row: &Row,
    lines: &[&'static str],
    left: &Run<TestKey>,
) -> Result<bool, Unreadable> {
    for reply in &left.replies {
        write!(text, "{}\n", Line(reply))?;
    }
    let Some(accepted) = accepted(alloc, row, lines, left.replies.as_slice())? else {
        write!(text, "refused is a command that takes no memory\n")?;
        return Ok(false);
    };
    let words = read_words(alloc, left)?;
    let others = words_over(alloc, row, accepted.as_slice())?;
    let is_same = compares(
        text,
        "replies to the others",
        &words.replies,
        &others.replies,
    )?;
    let answers = compares(text, "questions", &words.questions, &others.questions)?;
    Ok(is_same && answers)
}

fn told(alloc: Global, text: &mut String, row: &Row) -> Result<bool, Unreadable> {
    let setup = setup(alloc, row.settings)?;
    let lines = all_lines(alloc, row.prepared, row.steps)?;
    let commands = commands(alloc, lines.as_slice())?;
    mark(alloc);
    let ended = run_from(alloc, setup, commands);
    mark(alloc);
    match ended {
        Ok(left) => {
            let told = tells(alloc, text, row, lines.as_slice(), &left);
            end(left.finish());
            told
        }
        Err(AllocError) => {
            write!(text, "out of memory\n")?;
            Ok(true)
        }
    }
}

/// Runs, while memory may be refused, the worked example that has this number behind `run`.
pub fn row_called(alloc: Global, name: &str, text: &mut String) -> Result<bool, Unreadable> {
    match name {
        "run7" => told(alloc, text, &examples::KNOWLEDGE),
        "run9" => told(alloc, text, &examples::dialling::DIAL_BEFORE_LISTED),
        "run12" => told(alloc, text, &examples::blocks::BLOCK_OVER_REBIRTH),
        "run14" => told(alloc, text, &examples::dialling::NEWEST_INFO),
        "run19" => told(alloc, text, &examples::peer_sets::ROLES),
        _ => {
            write!(text, "there is no such thing to do\n")?;
            Ok(false)
        }
    }
}
