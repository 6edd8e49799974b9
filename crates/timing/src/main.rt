//! Times what no export reaches: calls of nodes within Rattle, exchanges, runs and codecs.
//!
//! - `timing SCENARIO N SAMPLES` times one call SAMPLES times, with N peers whose keys have 32
//!   bytes. It prints the minimum and median nanoseconds, and how much was done. A further word
//!   `32` changes nothing.
//! - With no word the same calls are made with few peers, and what was done is printed.
//!
//! What is called from Rust is timed by the benchmark of the Rust crate, which takes the same
//! words.
#![tactic(auto)]

use crate::stop::Stop;
use std::env;
use std::process::ExitCode;

mod keys;
mod made;
mod scenarios;
mod stop;
mod times;

fn measure(rt: &HostRuntime) -> Result<(), Stop> {
    let words: Vec<String> = env::args(rt)?.skip(1).collect(rt.alloc())?;
    match words.as_slice() {
        [] => scenarios::measure_few(rt),
        [name, count, samples] | [name, count, samples, _] => {
            scenarios::measure(rt, name.as_str(), count.as_str(), samples.as_str())
        }
        _ => Err(Stop::Words),
    }
}

fn main(rt: HostRuntime) -> ExitCode {
    match measure(&rt) {
        Ok(()) => ExitCode::SUCCESS,
        Err(_) => ExitCode::FAILURE,
    }
}
