//! Runs one worked example of the discovery directory and prints its lines: `rows 6`.
#![tactic(auto)]

use std::io::ErrorKind;
use std::process::ExitCode;
use std::{env, io};
use worked_examples::{no_such_row, out_of_memory, run_rows};

fn words_of(rt: &HostRuntime) -> io::Result<Vec<String>> {
    Ok(env::args(rt)?.skip(1).collect(rt.alloc())?)
}

fn main(rt: HostRuntime) -> ExitCode {
    let mut out = rt.stdout();
    let status = match words_of(&rt) {
        Ok(words) => run_rows(rt.alloc(), words.as_slice(), &mut out),
        Err(e) if e.kind() == ErrorKind::OutOfMemory => out_of_memory(&mut out),
        Err(_) => no_such_row(&mut out),
    };
    ExitCode::from(status)
}

#[cfg(test)]
mod memory;
#[cfg(test)]
mod tests;
