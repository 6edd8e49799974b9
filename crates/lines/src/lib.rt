//! The language of lines: what is typed of nodes, and what is printed of values.
#![tactic(auto)]

mod calls;
pub mod examples;
mod expected;
mod fault;
mod help;
mod pairs;
mod parse;
mod printed;
mod requests;
mod tables;
mod usage;
mod value;

pub use calls::COMMANDS;
pub use expected::is_printed_as;
pub use fault::Fault;
pub use help::Help;
pub use parse::{default_setup, request};
pub use printed::{Hex, Line};
pub use requests::{Nodes, Request};
pub use tables::{NAMESPACE, Unreadable, command, commands, info, pair_commands, setup};
pub use usage::Usage;
pub use value::{Kind, Value};
