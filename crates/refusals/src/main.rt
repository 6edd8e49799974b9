//! Performs one operation with whatever memory it gets, as in `refusals run12`, and prints the
//! state afterwards.
//!
//! `tools/refused.sh` makes each allocation of the operation fail in turn. Before and after the
//! operation a mark is requested, by which the script knows when it begins and ends. Afterwards
//! there is memory again, and the state is compared with the one in which what failed was never
//! requested.
#![tactic(auto)]

mod frames;
mod networks;
mod pairs;
mod runs;
mod starts;
mod told;

use lines::{Fault, Unreadable};
use std::alloc::Global;
use std::env;
use std::io::Write;
use std::process::ExitCode;

// The only word after the name of the program `refusals`.
fn word(rt: &HostRuntime) -> Option<String> {
    let Ok(mut words) = env::args(rt) else {
        return None;
    };
    words.nth(1)
}

// Performs the one operation of the program `refusals`, by its name, and says in the text what
// comes of it. Returns whether everything is as it should be.
fn is_as_before(alloc: Global, name: &str, text: &mut String) -> Result<bool, Unreadable> {
    match name {
        "init" => starts::directory(alloc, text),
        "node" => starts::node(alloc, text),
        "encoded" => Ok(frames::encoded(alloc, text)?),
        "exchange" => pairs::exchanged(alloc, text),
        "pair16a" => pairs::run_of_two(alloc, text),
        "network" => networks::three(alloc, text),
        _ => runs::row_called(alloc, name, text),
    }
}

fn main(rt: HostRuntime) -> ExitCode {
    let mut text = String::new(rt.alloc());
    let name = word(&rt);
    let is_good = match name.as_ref() {
        Some(name) => is_as_before(rt.alloc(), name.as_str(), &mut text),
        None => Ok(false),
    };
    let is_written = rt.stdout().write_all(text.as_str().as_bytes()).is_ok();
    let status = match is_good {
        Ok(is_good) if is_good && is_written => 0,
        Ok(_) => 1,
        Err(error) if error.fault == Fault::Memory => 3,
        Err(error) => {
            let _printed = println!(rt; "{error}");
            1
        }
    };
    ExitCode::from(status)
}
