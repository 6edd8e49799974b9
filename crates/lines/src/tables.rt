//! Lines of tables, each of a node without settings or of two nodes, `left` and `right`.

ghost use Rattle.std.specs.Prelude.{◌<◌, ◌-◌, ◌^◌, IfOk};
ghost use Rattle.std.specs.Int.NonZero.{non_zero_usize_get};

use crate::fault::Fault;
use crate::pairs;
pub use crate::parse::NAMESPACE;
use crate::parse::{call, parse_info, setup_of};
use p2p_directory::node::{PairCommand, Setup};
use p2p_directory::run::Command;
use p2p_discovery::codec::TestKey;
use p2p_discovery::discovery::Info;
use std::alloc::{AllocError, AllocFailed, Global};
use std::fmt;

/// A line that can't be read, and what is wrong with it.
#[derive(Clone, Copy, Debug, PartialEq, Eq)]
pub struct Unreadable {
    /// The line, or nothing if an allocation failed for a list of lines.
    pub line: &'static str,
    /// What is wrong with it.
    pub fault: Fault,
}

impl fmt::Display for Unreadable {
    fn fmt<W: fmt::Write>(&self, f: &mut fmt::Formatter<W>) -> fmt::Result {
        let Unreadable { line, fault } = self;
        write!(f, "{line}: {fault}")
    }
}

impl From<AllocError> for Unreadable {
    fn from(_error: AllocError) -> Unreadable {
        Unreadable {
            line: "",
            fault: Fault::Memory,
        }
    }
}

impl<T: Drop> From<AllocFailed<T>> for Unreadable {
    fn from(_error: AllocFailed<T>) -> Unreadable {
        Unreadable {
            line: "",
            fault: Fault::Memory,
        }
    }
}

/// The command of a line of a table, for one directory.
pub fn command(alloc: Global, line: &'static str) -> Result<Command<TestKey>, Unreadable> {
    match call(alloc, line) {
        Ok(command) => Ok(command),
        Err(fault) => Err(Unreadable { line, fault }),
    }
}

/// The commands of the lines of a table, for one directory.
pub fn commands(
    alloc: Global,
    lines: &[&'static str],
) -> Result<Vec<Command<TestKey>>, Unreadable> {
    let mut commands = Vec::new(alloc);
    for line in lines {
        commands.push(command(alloc, *line)?)?;
    }
    Ok(commands)
}

/// The commands of the lines of a table, for the nodes `left` and `right`.
pub fn pair_commands(
    alloc: Global,
    lines: &[&'static str],
) -> Result<Vec<PairCommand<TestKey>>, Unreadable> {
    let mut commands = Vec::new(alloc);
    for line in lines {
        match pairs::command(alloc, *line) {
            Ok(command) => commands.push(command)?,
            Err(fault) => return Err(Unreadable { line: *line, fault }),
        }
    }
    Ok(commands)
}

/// The setup of a node with the settings of a line of a table, such as `own=8 max_sets=2`.
pub fn setup(alloc: Global, settings: &'static str) -> Result<Setup<TestKey>, Unreadable>
    ensures sets { IfOk result (λ s. non_zero_usize_get s.cfg.max_sets < 2 ^ 64 - 1) }
    ensures bits { IfOk result (λ s. s.payload.max_bit_vec < 2 ^ 32) }
{
    match setup_of(alloc, settings.split_whitespace()) {
        Ok(setup) => Ok(setup),
        Err(fault) => Err(Unreadable {
            line: settings,
            fault,
        }),
    }
}

/// The info of a word of a table, such as `1@1000`.
pub fn info(alloc: Global, word: &'static str) -> Result<Info<TestKey>, Unreadable> {
    match parse_info(alloc, word, NAMESPACE) {
        Ok(info) => Ok(info),
        Err(fault) => Err(Unreadable { line: word, fault }),
    }
}
