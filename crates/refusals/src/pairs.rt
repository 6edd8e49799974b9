//! Two nodes: a run of both, and one exchange.

use crate::told::{compares, end, mark, tells, words_of};
use lines::examples::all_lines;
use lines::examples::exchanges::PARTS;
use lines::{Line, Unreadable, commands, pair_commands, setup};
use p2p_directory::directory::Directory;
use p2p_directory::node::{
    Exchanged, Node, PairCommand, PairReply, PairRun, Received, exchange, run_pair,
};
use p2p_directory::run::Reply;
use p2p_discovery::codec::TestKey;
use std::alloc::{AllocError, Global};
use std::fmt::Write;
use std::time::Duration;

fn is_out_of_memory(reply: &PairReply<TestKey>) -> bool {
    match reply {
        PairReply::Call(Reply::OutOfMemory) | PairReply::OutOfMemory => true,
        PairReply::Frame(Received::Memory) | PairReply::Exchange(Exchanged::Memory) => true,
        _ => false,
    }
}

// A run of these lines of a pair, to which no memory is refused.
fn run_over(alloc: Global, lines: &[&'static str]) -> Result<PairRun<TestKey>, Unreadable> {
    let commands = pair_commands(alloc, lines)?;
    let left = setup(alloc, PARTS[0].asker)?;
    let right = setup(alloc, PARTS[0].replier)?;
    Ok(run_pair(alloc, left, right, commands)?)
}

fn finish(ended: PairRun<TestKey>) {
    let PairRun {
        left,
        right,
        replies: _,
    } = ended;
    end(left.finish());
    end(right.finish());
}

// The replies of a pair but those that say that memory was refused.
fn replies_of(alloc: Global, replies: &[PairReply<TestKey>]) -> Result<String, AllocError> {
    let mut text = String::new(alloc);
    for reply in replies {
        if !is_out_of_memory(reply) {
            write!(text, "{}\n", Line(reply))?;
        }
    }
    Ok(text)
}

// The results of all queries of both directories of a pair to which memory may have been refused.
fn questions_of(
    alloc: Global,
    left: &Directory<TestKey>,
    right: &Directory<TestKey>,
) -> Result<String, AllocError> {
    let mut words = words_of(alloc, left)?;
    tells(&mut words, alloc, right)?;
    Ok(words)
}

// The replies, and the results of all queries of both directories afterwards.
#[derive(Drop)]
struct Words {
    replies: String,
    questions: String,
}

fn read_words(alloc: Global, ended: &PairRun<TestKey>) -> Result<Words, AllocError> {
    Ok(Words {
        replies: replies_of(alloc, ended.replies.as_slice())?,
        questions: questions_of(alloc, ended.left.directory(), ended.right.directory())?,
    })
}

fn words_over(alloc: Global, lines: &[&'static str]) -> Result<Words, Unreadable> {
    let ended = run_over(alloc, lines)?;
    let words = read_words(alloc, &ended);
    finish(ended);
    Ok(words?)
}

// The lines of a pair to which no memory was refused.
fn accepted(
    alloc: Global,
    lines: &[&'static str],
    replies: &[PairReply<TestKey>],
) -> Result<Vec<&'static str>, AllocError> {
    let mut accepted = Vec::new(alloc);
    for (line, reply) in lines.iter().zip(replies) {
        if !is_out_of_memory(reply) {
            accepted.push(*line)?;
        }
    }
    Ok(accepted)
}

fn tells_of_two(
    alloc: Global,
    text: &mut String,
    lines: &[&'static str],
    ended: &PairRun<TestKey>,
) -> Result<bool, Unreadable> {
    for reply in &ended.replies {
        write!(text, "{}\n", Line(reply))?;
    }
    let accepted = accepted(alloc, lines, ended.replies.as_slice())?;
    let words = read_words(alloc, ended)?;
    let others = words_over(alloc, accepted.as_slice())?;
    let is_same = compares(
        text,
        "replies to the others",
        &words.replies,
        &others.replies,
    )?;
    let answers = compares(text, "questions", &words.questions, &others.questions)?;
    Ok(is_same && answers)
}

/// Runs a pair to which memory may be refused, by `run_pair` of the first part of worked example
/// 16.
pub fn run_of_two(alloc: Global, text: &mut String) -> Result<bool, Unreadable> {
    let lines = all_lines(alloc, PARTS[0].prepared, PARTS[0].steps)?;
    let commands = pair_commands(alloc, lines.as_slice())?;
    let left = setup(alloc, PARTS[0].asker)?;
    let right = setup(alloc, PARTS[0].replier)?;
    mark(alloc);
    let ended = run_pair(alloc, left, right, commands);
    mark(alloc);
    match ended {
        Ok(ended) => {
            let told = tells_of_two(alloc, text, lines.as_slice(), &ended);
            finish(ended);
            told
        }
        Err(AllocError) => {
            write!(text, "out of memory\n")?;
            Ok(true)
        }
    }
}

// A node for a pair, with these settings, that served the lines before memory is refused.
fn prepared(
    alloc: Global,
    settings: &'static str,
    lines: &[&'static str],
) -> Result<Node<TestKey>, Unreadable> {
    let setup = setup(alloc, settings)?;
    let commands = commands(alloc, lines)?;
    let mut node = Node::new(alloc, setup)?;
    for command in commands {
        let _reply = node.step(command);
    }
    Ok(node)
}

fn asks(asker: &mut Node<TestKey>, replier: &Node<TestKey>) -> Exchanged<TestKey> {
    let hundred = Duration::from_secs(100);
    exchange(asker, replier, 0, hundred, hundred)
}

// Lets one of a pair of nodes ask the other with whatever memory isn't refused, and compares the
// resulting states. If an allocation fails, it asks again.
fn tells_of_exchange(
    alloc: Global,
    text: &mut String,
    asker: &mut Node<TestKey>,
    replier: &Node<TestKey>,
) -> Result<bool, AllocError> {
    let before = questions_of(alloc, asker.directory(), replier.directory())?;
    mark(alloc);
    let exchanged = asks(asker, replier);
    mark(alloc);
    write!(text, "{}\n", Line(&exchanged))?;
    if !matches!(exchanged, Exchanged::Memory) {
        return Ok(matches!(exchanged, Exchanged::Applied(_)));
    }
    let after = questions_of(alloc, asker.directory(), replier.directory())?;
    let is_same = compares(text, "questions", &before, &after)?;
    let again = asks(asker, replier);
    write!(text, "again: {}\n", Line(&again))?;
    Ok(is_same && matches!(again, Exchanged::Applied(_)))
}

/// Lets a pair exchange infos while memory may be refused, by `exchange` of an asker with a replier
/// that knows of one peer.
pub fn exchanged(alloc: Global, text: &mut String) -> Result<bool, Unreadable> {
    let mut asker = prepared(alloc, "", &["track 0 1,2"])?;
    let lines = [
        "track 0 1,2",
        "update 1@100000",
        "listen 1 50",
        "connect 1 false",
    ];
    let replier = match prepared(alloc, "own=8", &lines) {
        Ok(replier) => replier,
        Err(error) => {
            end(asker.finish());
            return Err(error);
        }
    };
    let told = tells_of_exchange(alloc, text, &mut asker, &replier);
    end(asker.finish());
    end(replier.finish());
    Ok(told?)
}
