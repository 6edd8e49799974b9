//! The worked examples of the discovery directory, and the lines that each prints.
#![tactic(auto)]

mod row;

pub use row::{no_such_row, out_of_memory, run_rows};
