//! The worked examples, by their numbers.

ghost use Rattle.std.specs.Prelude.{◌≤◌, ◌≡◌, Ok, Err, codes, map, string_bytes};
ghost use Rattle.std.specs.Io.KnownBytes.{Appends};
ghost use Rattle.worked_examples.specs.Words.{IsRow};

use lines::{Fault, Unreadable, examples};
use std::alloc::{AllocError, AllocFailed, Global};
use std::fmt::Display;
use std::io::{self, Write};

mod addresses;
mod directory;
mod frames;
mod judged;
mod pair;
mod sizes;

/// Why an example ends early.
#[derive(Debug, Drop)]
enum Stop {
    /// An allocation failed.
    Memory,
    /// A line could not be written.
    Write,
    /// A line of the example can't be read.
    Unreadable(Unreadable),
}

impl From<AllocError> for Stop {
    fn from(_error: AllocError) -> Stop
        ensures { result ≡ Stop.Memory }
    {
        Stop::Memory
    }
}

impl<T: Drop> From<AllocFailed<T>> for Stop {
    fn from(_error: AllocFailed<T>) -> Stop
        ensures { result ≡ Stop.Memory }
    {
        Stop::Memory
    }
}

impl From<Unreadable> for Stop {
    fn from(error: Unreadable) -> Stop {
        match error.fault {
            Fault::Memory => Stop::Memory,
            _ => Stop::Unreadable(error),
        }
    }
}

// Writes one line of a row.
fn print<W: Write>(out: &mut W, line: &impl Display) -> Result<(), Stop> {
    writeln!(out, "{line}").map_err(|_error: io::Error| Stop::Write)
}

/// Prints that memory ran out for the row that is run, and returns the exit status: 3, or 1 if that
/// could not be written.
pub fn out_of_memory<W: Write>(out: &mut W) -> u8
    ensures status { ¬ (result ≡ 3) → result ≡ 1 }
    ensures printed { result ≡ 3
        → Appends (W.contents out.old) (W.contents out.new) (codes "out of memory\n") }
{
    match writeln!(out, "out of memory") {
        Ok(()) => 3,
        Err(_) => 1,
    }
}

/// Prints that there is no such row, and returns the exit status: 2, or 1 if that could not be
/// written.
pub fn no_such_row<W: Write>(out: &mut W) -> u8
    ensures status { ¬ (result ≡ 2) → result ≡ 1 }
    ensures printed { result ≡ 2
        → Appends (W.contents out.old) (W.contents out.new) (codes "no such row\n") }
{
    match writeln!(out, "no such row") {
        Ok(()) => 2,
        Err(_) => 1,
    }
}

/// Runs the row, or worked example, that the only word names, writes its lines to `out`, and
/// returns the exit status of the program.
///
/// The status is 0 if all lines were written. It is 2 after `no such row`, if there is not exactly
/// one word or it is not the number of an example in decimal without leading zeros. It is 3 after
/// `out of memory`, if an allocation failed, and 1 if a line could not be written. An example whose
/// lines can't be read would print the one that can't, and end with 1; no test meets that.
pub fn run_rows<W: Write>(alloc: Global, words: &[String], out: &mut W) -> u8
    ensures range { result ≤ 3 }
    ensures row { IsRow (map string_bytes words.now) → ¬ (result ≡ 2) }
    ensures other { ¬ (IsRow (map string_bytes words.now)) → ¬ (result ≡ 2) → result ≡ 1 }
    ensures refused { result ≡ 2
        → Appends (W.contents out.old) (W.contents out.new) (codes "no such row\n") }
{
    let [word] = words else {
        return no_such_row(out);
    };
    let ended = match word.as_str() {
        "1" => frames::data_frame(alloc, out),
        "2" => frames::rest_of_a_frame(alloc, out),
        "3" => frames::encoded_data(alloc, out),
        "4" => frames::payloads(alloc, out),
        "5" => frames::odd_numbers(alloc, out),
        "6" => directory::print_row(alloc, &examples::TEARDOWN, out),
        "7" => directory::print_row(alloc, &examples::KNOWLEDGE, out),
        "8" => directory::print_row(alloc, &examples::COOLDOWN, out),
        "9" => directory::print_row(alloc, &examples::dialling::DIAL_BEFORE_LISTED, out),
        "10" => directory::print_row(alloc, &examples::dialling::JITTER_AND_LAST_MOMENT, out),
        "11" => directory::print_row(alloc, &examples::blocks::BLOCK_OF_NO_TIME, out),
        "12" => directory::print_row(alloc, &examples::blocks::BLOCK_OVER_REBIRTH, out),
        "13" => failed_dials(alloc, out),
        "14" => directory::print_row(alloc, &examples::dialling::NEWEST_INFO, out),
        "15" => directory::print_row(alloc, &examples::gossip::INFOS_FOR_BITS, out),
        "16" => pair::exchanges(alloc, out),
        "17" => sizes::gossip_sizes(out),
        "18" => directory::print_row(alloc, &examples::peer_sets::GREATEST_INDEX, out),
        "19" => directory::print_row(alloc, &examples::peer_sets::ROLES, out),
        "20" => directory::print_row(alloc, &examples::blocks::QUERY_AFTER_A_BLOCK, out),
        "21" => sizes::sizes(out),
        "22" => addresses::valid_addresses(alloc, out),
        "23" => judged::judged_infos(alloc, out),
        "24" => directory::print_row(alloc, &examples::FORGOTTEN_COOLDOWN, out),
        _ => return no_such_row(out),
    };
    status_after(ended, out)
}

// Runs the row of dials that fail, once as it is and once with a failure limit of 0.
fn failed_dials<W: Write>(alloc: Global, out: &mut W) -> Result<(), Stop> {
    directory::print_row(alloc, &examples::dialling::FAILED_DIALS, out)?;
    directory::print_row(alloc, &examples::dialling::NO_FAILURE_ALLOWED, out)
}

// The exit status of a row that ended like this.
fn status_after<W: Write>(ended: Result<(), Stop>, out: &mut W) -> u8
    ensures range { result ≤ 3 }
    ensures row { ¬ (result ≡ 2) }
    ensures done { ended ≡ Ok tt → result ≡ 0 }
    ensures failed { ended ≡ Err Stop.Write → result ≡ 1 }
    ensures memory { ended ≡ Err Stop.Memory → ¬ (result ≡ 3) → result ≡ 1 }
{
    match ended {
        Ok(()) => 0,
        Err(Stop::Write) => 1,
        Err(Stop::Unreadable(error)) => {
            let _printed = print(out, &error);
            1
        }
        Err(Stop::Memory) => out_of_memory(out),
    }
}
