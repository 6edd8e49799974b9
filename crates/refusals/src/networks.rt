//! A network: nodes are added, one asks another, and one is replaced. What fails is done again.

ghost use Rattle.std.specs.Prelude.{IfOk};
ghost use Rattle.lines.specs.Requests.{CanServe};

use crate::told::{compares, mark, tells};
use lines::{NAMESPACE, Nodes, Request, Unreadable, request};
use p2p_directory::node::{Exchanged, Network, NetworkReply};
use p2p_directory::run::Reply;
use p2p_discovery::codec::TestKey;
use std::alloc::{AllocError, Global};
use std::fmt::Write;

static LINES: [&'static str; 11] = [
    "node a",
    "node b own=8",
    "a: track 0 1,2",
    "b: track 0 1,2",
    "b: update 1@100000",
    "b: listen 1 50",
    "b: connect 1 false",
    "node c own=7",
    "a: exchange b 0 100 100",
    "node c own=6",
    "c: track 0 1",
];

// Three nodes.
#[derive(Clone, Copy)]
struct Names;

impl Nodes for Names {
    fn node_of(&self, name: &str) -> Option<usize> {
        ["a", "b", "c"].iter().position(|given| *given == name)
    }

    fn latest_node(&self) -> usize {
        0
    }

    fn namespace_of(&self, _node: usize) -> &[u8] {
        NAMESPACE
    }
}

fn read(alloc: Global, line: &'static str) -> Result<Request<TestKey>, Unreadable>
    ensures { IfOk result CanServe }
{
    match request(alloc, line, &Names) {
        Ok(request) => Ok(request),
        Err(fault) => Err(Unreadable { line, fault }),
    }
}

fn unless_refused(reply: &NetworkReply<TestKey>) -> Result<(), AllocError> {
    match reply {
        NetworkReply::OutOfMemory
        | NetworkReply::Call(Reply::OutOfMemory)
        | NetworkReply::Exchange(Exchanged::Memory) => Err(AllocError),
        _ => Ok(()),
    }
}

// Does what the line requests of the network, or leaves its nodes as they were if memory is
// refused.
fn does(
    alloc: Global,
    nodes: &mut Network<TestKey>,
    request: Request<TestKey>,
) -> Result<(), AllocError>
    requires { CanServe request }
{
    match request {
        Request::Node(name, setup) => match Names.node_of(name.as_str()) {
            Some(node) if node < nodes.len() => {
                nodes.replace(alloc, node, setup)?;
                Ok(())
            }
            _ => nodes.add(alloc, setup),
        },
        Request::Command(command) => unless_refused(&nodes.serve(command)),
        Request::Decode(..) | Request::Recode(..) | Request::Encode(_) => Ok(()),
    }
}

// Does all lines of the network in turn, each between two marks or none, and returns whether memory
// was refused. What fails is done again.
fn does_all(
    alloc: Global,
    nodes: &mut Network<TestKey>,
    is_marked: bool,
) -> Result<bool, Unreadable> {
    let mut is_refused = false;
    for line in &LINES {
        let request = read(alloc, *line)?;
        mark_if(alloc, is_marked);
        let done = does(alloc, nodes, request);
        mark_if(alloc, is_marked);
        if done.is_err() {
            is_refused = true;
            does(alloc, nodes, read(alloc, *line)?)?;
        }
    }
    Ok(is_refused)
}

fn mark_if(alloc: Global, is_marked: bool) {
    if is_marked {
        mark(alloc);
    }
}

// The results of all queries of the directories of the network to which memory may have been
// refused.
fn questions_of(alloc: Global, nodes: &Network<TestKey>) -> Result<String, AllocError> {
    let mut words = String::new(alloc);
    for node in 0..nodes.len() {
        if let Some(directory) = nodes.directory(node) {
            tells(&mut words, alloc, directory)?;
        }
    }
    Ok(words)
}

// Whether an allocation failed, and the results of the queries at the end.
#[derive(Drop)]
struct Left {
    is_refused: bool,
    questions: String,
}

fn left_of(alloc: Global, is_marked: bool) -> Result<Left, Unreadable> {
    let mut nodes = Network::empty(alloc);
    let done = does_all(alloc, &mut nodes, is_marked);
    let questions = questions_of(alloc, &nodes);
    nodes.finish();
    Ok(Left {
        is_refused: done?,
        questions: questions?,
    })
}

/// A network of three nodes to which memory may be refused, compared with one to which none was.
pub fn three(alloc: Global, text: &mut String) -> Result<bool, Unreadable> {
    let ample = left_of(alloc, false)?;
    let left = left_of(alloc, true)?;
    if left.is_refused {
        write!(text, "out of memory\n")?;
    }
    Ok(compares(text, "questions", &left.questions, &ample.questions)?)
}
