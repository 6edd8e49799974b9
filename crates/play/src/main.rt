//! Serves typed lines to nodes: `echo 'track 0 1,2' | play`.
#![tactic(auto)]

mod answer;
mod label;
mod play;
mod session;

use lines::Help;
use play::{Mode, Stop, play};
use std::fmt::Display;
use std::fs::File;
use std::io::{BufReader, BufWriter, Write};
use std::process::ExitCode;
use std::{env, io};

// Whether everything was as expected, and each line could be read.
type Ended = Result<bool, Stop>;

fn main(rt: HostRuntime) -> ExitCode {
    let status = match run(&rt) {
        Ok(true) => 0,
        Ok(false) | Err(Stop::Read) | Err(Stop::Write) => 1,
        Err(Stop::Memory) => 3,
    };
    ExitCode::from(status)
}

fn run(rt: &HostRuntime) -> Ended {
    let words = words(rt)?;
    let alloc = rt.alloc();
    let Ok(mut out) = BufWriter::new(alloc, io::writer(rt)) else {
        return Err(Stop::Memory);
    };
    let ended = follow(rt, words.as_slice(), &mut out);
    match out.flush() {
        Ok(()) => ended,
        Err(_) => Err(Stop::Write),
    }
}

// The words after the name of the program `play`.
fn words(rt: &HostRuntime) -> Result<Vec<String>, Stop> {
    let Ok(words) = env::args(rt) else {
        return Err(Stop::Memory);
    };
    match words.skip(1).collect(rt.alloc()) {
        Ok(words) => Ok(words),
        Err(_) => Err(Stop::Memory),
    }
}

fn follow<W: Write>(rt: &HostRuntime, words: &[String], out: &mut W) -> Ended {
    let (mode, files) = match words {
        [word, files @ ..] if word.as_str() == "--check" => (Mode::Checks, files),
        files => (Mode::Replies, files),
    };
    match files {
        [] => play_input(rt, mode, out),
        [word] if word.as_str() == "--help" => {
            print(out, &Help)?;
            Ok(true)
        }
        files => play_files(rt, mode, files, out),
    }
}

fn print<W: Write>(out: &mut W, line: &impl Display) -> Result<(), Stop> {
    writeln!(out, "{line}").map_err(|_error: io::Error| Stop::Write)
}

fn play_input<W: Write>(rt: &HostRuntime, mode: Mode, out: &mut W) -> Ended {
    let Ok(mut input) = BufReader::new(rt.alloc(), rt.reader()) else {
        return Err(Stop::Memory);
    };
    let tally = play(rt.alloc(), &mut input, out, mode)?;
    if mode == Mode::Checks {
        print(out, &tally)?;
    }
    Ok(tally.is_good())
}

// Plays each file, starting from new nodes.
fn play_files<W: Write>(rt: &HostRuntime, mode: Mode, files: &[String], out: &mut W) -> Ended {
    let mut good = true;
    for name in files {
        good = play_file(rt, mode, name.as_str(), out)? && good;
    }
    Ok(good)
}

fn play_file<W: Write>(rt: &HostRuntime, mode: Mode, name: &str, out: &mut W) -> Ended {
    let Ok(file) = File::open(rt, name) else {
        print(out, &format_args!("{name}: not readable, expected a file"))?;
        return Ok(false);
    };
    let Ok(mut input) = BufReader::new(rt.alloc(), file) else {
        return Err(Stop::Memory);
    };
    let tally = play(rt.alloc(), &mut input, out, mode)?;
    if mode == Mode::Checks {
        print(out, &format_args!("{name}: {tally}"))?;
    }
    Ok(tally.is_good())
}
