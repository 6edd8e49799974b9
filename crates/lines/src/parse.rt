//! Parses a line as what it requests.

ghost use Rattle.std.specs.Prelude.{◌<◌, ◌-◌, IfOk};
ghost use Rattle.lines.specs.Requests.{CanServe};

use crate::calls::{command, usage_of};
use crate::fault::Fault;
use crate::parse::frames::{kind_and_bytes, payload};
use crate::parse::nearest::nearest_command;
use crate::parse::words::{Words, unhex};
use crate::requests::{Nodes, Request};
pub use infos::info as parse_info;
use p2p_directory::node::NetworkCommand;
use p2p_directory::run::Command;
use p2p_discovery::codec::TestKey;
pub use settings::{NAMESPACE, SETTINGS, default_setup, setup_of};
use std::alloc::Global;

mod frames;
pub mod infos;
pub mod nearest;
mod settings;
pub mod words;

/// Parses a line as what it requests of these nodes.
pub fn request<N: Nodes>(alloc: Global, line: &str, nodes: &N) -> Result<Request<TestKey>, Fault>
    ensures { IfOk result CanServe }
{
    let (first, rest) = first_word(line);
    match first.strip_suffix(':') {
        Some(name) => {
            let node = node_named(nodes, name)?;
            let (name, rest) = first_word(rest);
            request_to(alloc, name, rest, nodes, node)
        }
        None => request_to(alloc, first, rest, nodes, nodes.latest_node()),
    }
}

/// Parses a line as a command, for the directory of a node without settings.
pub fn call(alloc: Global, line: &str) -> Result<Command<TestKey>, Fault> {
    let (name, arguments) = first_word(line);
    let mut words = words_after(name, arguments)?;
    let command = command(alloc, name, &mut words, NAMESPACE)?;
    words.end()?;
    Ok(command)
}

// Splits a line that is to be parsed into its first word and the rest.
fn first_word(text: &str) -> (&str, &str) {
    match text.trim_start().split_once(char::is_whitespace) {
        Some(parts) => parts,
        None => (text.trim(), ""),
    }
}

fn node_named<N: Nodes>(nodes: &N, name: &str) -> Result<usize, Fault> {
    match nodes.node_of(name) {
        Some(node) => Ok(node),
        None => Err(Fault::NoNode),
    }
}

// The words behind the name of this command in a line that is parsed, its arguments.
fn words_after<'a>(name: &str, arguments: &'a str) -> Result<Words<'a>, Fault> {
    match usage_of(name) {
        Some(usage) => Ok(Words::new(arguments, usage)),
        None => Err(Fault::Unknown("command", nearest_command(name))),
    }
}

// Parses a line, behind the name of the command, as what it requests; it is for this node if it
// names one.
fn request_to<N: Nodes>(
    alloc: Global,
    name: &str,
    arguments: &str,
    nodes: &N,
    node: usize,
) -> Result<Request<TestKey>, Fault>
    ensures { IfOk result CanServe }
{
    let mut words = words_after(name, arguments)?;
    let request = match name {
        "node" => new_node(alloc, &mut words)?,
        "decode" | "recode" | "frame" => of_values(alloc, name, &mut words, nodes, node)?,
        _ => Request::Command(of_nodes(alloc, name, &mut words, nodes, node)?),
    };
    words.end()?;
    Ok(request)
}

// Parses a line, behind the name of the command, as a request for a new node.
fn new_node(alloc: Global, words: &mut Words<'_>) -> Result<Request<TestKey>, Fault>
    ensures { IfOk result CanServe }
{
    let name = words.word()?;
    if name.contains(':') || name.contains('=') {
        return Err(Fault::Form("a name without : and ="));
    }
    let name = String::from_str(alloc, name)?;
    Ok(Request::Node(name, setup_of(alloc, words.rest())?))
}

fn of_values<N: Nodes>(
    alloc: Global,
    name: &str,
    words: &mut Words<'_>,
    nodes: &N,
    node: usize,
) -> Result<Request<TestKey>, Fault>
    ensures { IfOk result CanServe }
{
    if name == "frame" {
        return Ok(Request::Encode(payload(alloc, words, nodes.namespace_of(node))?));
    }
    let (kind, bytes) = kind_and_bytes(alloc, words)?;
    if name == "decode" {
        Ok(Request::Decode(kind, bytes))
    } else {
        Ok(Request::Recode(kind, bytes))
    }
}

fn of_nodes<N: Nodes>(
    alloc: Global,
    name: &str,
    words: &mut Words<'_>,
    nodes: &N,
    node: usize,
) -> Result<NetworkCommand<TestKey>, Fault> {
    Ok(match name {
        "ask" => NetworkCommand::Ask(node, words.size()?),
        "receive" => NetworkCommand::Frame(node, unhex(alloc, words.word()?)?, words.moment()?),
        "exchange" => NetworkCommand::Exchange {
            asker: node,
            replier: node_named(nodes, words.word()?)?,
            place: words.size()?,
            asker_now: words.moment()?,
            replier_now: words.moment()?,
        },
        _ => {
            let command = command(alloc, name, words, nodes.namespace_of(node))?;
            NetworkCommand::Call(node, command)
        }
    })
}
