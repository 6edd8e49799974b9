//! What the tests share: nodes and runs from lines.

ghost use Rattle.std.specs.Prelude.{◌<◌, ◌-◌};

use lines::{commands, setup};
use p2p_directory::node::{Node, Setup};
use p2p_directory::run::{Command, Run, run};
use p2p_discovery::codec::TestKey;
use std::alloc::Global;
use std::test::Fail;

fn node(alloc: Global, settings: &'static str) -> Result<Node<TestKey>, Fail> {
    Ok(Node::new(alloc, setup(alloc, settings)?)?)
}

/// A node with these settings that served the lines, a fixture of the directory's tests.
pub fn node_after(
    alloc: Global,
    settings: &'static str,
    lines: &[&'static str],
) -> Result<Node<TestKey>, Fail> {
    let commands = commands(alloc, lines)?;
    let mut node = node(alloc, settings)?;
    for command in commands {
        node.step(command);
    }
    Ok(node)
}

/// What is found by a node with these settings that served the lines, a fixture of the directory's
/// tests. The node ends here alone: each place where a directory is dropped takes a check as long as
/// that of a test.
pub fn found_by<T, F: FnOnce(&mut Node<TestKey>) -> T>(
    alloc: Global,
    settings: &'static str,
    lines: &[&'static str],
    find: F,
) -> Result<T, Fail>
    requires { F.IsAlwaysCallable find }
{
    let mut node = node_after(alloc, settings, lines)?;
    let found = find(&mut node);
    node.finish();
    Ok(found)
}

/// The run of the commands over the directory of a node with these settings, a fixture of the
/// directory's tests.
pub fn run_from(
    alloc: Global,
    settings: &'static str,
    commands: Vec<Command<TestKey>>,
) -> Result<Run<TestKey>, Fail> {
    let Setup {
        bootstrappers,
        myself,
        cfg,
        ..
    } = setup(alloc, settings)?;
    Ok(run(alloc, bootstrappers, myself, cfg, commands)?)
}
