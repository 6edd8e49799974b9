//! Serves lines, and compares the replies with those that are expected.

ghost use Rattle.std.specs.Prelude.{◌≡◌, IfOk, OnErr};
ghost use Rattle.p2p_directory.specs.Received.{wire_of};
ghost use Rattle.play.specs.Answers.{AnswersSome};

use crate::answer::{Answer, serve};
use crate::session::Session;
use lines::{Fault, default_setup, is_printed_as, request};
use p2p_discovery::codec::{FixedBytes, PublicKey, TestKey, TestSignature};
use std::alloc::{AllocError, Global};
use std::fmt::{self, Display};
use std::io::{self, BufRead, BufReader, ErrorKind, Read, Write};

// The maximum length of a line, in bytes.
const LONGEST: usize = 1 << 20;

/// Why lines are no longer served.
#[derive(Debug, Drop)]
pub enum Stop {
    /// The allocation for a first node failed.
    Memory,
    /// The lines could not be read.
    Read,
    /// A reply could not be written.
    Write,
}

/// What is printed.
#[derive(Clone, Copy, Debug, PartialEq, Eq)]
pub enum Mode {
    /// The replies, and what is not as expected.
    Replies,
    /// Only what is not as expected.
    Checks,
}

/// How many lines got a reply, and how many replies are as expected.
#[derive(Clone, Copy, Debug)]
pub struct Tally {
    /// Replies, including those to lines that could not be read.
    pub replies: u64,
    /// Replies that are as expected.
    pub expected: u64,
    /// Replies that are not as expected.
    pub otherwise: u64,
    /// Lines that could not be read and were not expected to be.
    pub unreadable: u64,
}

impl Tally {
    /// Whether everything that was played was as expected, and each line could be read.
    pub fn is_good(&self) -> bool {
        self.otherwise == 0 && self.unreadable == 0
    }
}

impl Display for Tally {
    fn fmt<W: fmt::Write>(&self, f: &mut fmt::Formatter<W>) -> fmt::Result {
        let Tally {
            replies,
            expected,
            otherwise,
            unreadable: _,
        } = self;
        write!(
            f,
            "{replies} replies, {expected} as expected, {otherwise} otherwise"
        )
    }
}

// The reply to a line.
#[derive(Drop)]
enum Said {
    Answer(Answer<TestKey>),
    // The line of this number could not be read.
    Fault(u64, Fault),
}

impl Display for Said {
    fn fmt<W: fmt::Write>(&self, f: &mut fmt::Formatter<W>) -> fmt::Result {
        match self {
            Said::Answer(answer) => write!(f, "{answer}"),
            Said::Fault(_, Fault::Memory) => f.write_str("OutOfMemory"),
            Said::Fault(line, fault) => write!(f, "error: line {line}: {fault}"),
        }
    }
}

// What is known of the lines so far.
#[derive(Drop)]
struct Record {
    mode: Mode,
    tally: Tally,
    // The reply to the last line that has one.
    last: Option<Said>,
    // Whether it is a fault that was not expected so far.
    is_open: bool,
}

fn print<W: Write>(out: &mut W, line: &impl Display) -> Result<(), Stop> {
    writeln!(out, "{line}").map_err(|_error: io::Error| Stop::Write)
}

/// Plays the lines of the input in a session with one node without a name and without settings, and
/// writes the replies. A line gets its reply before the next one is waited for. At the end all
/// reservations are released.
pub fn play<R: Read + Drop, W: Write>(
    alloc: Global,
    input: &mut BufReader<R>,
    out: &mut W,
    mode: Mode,
) -> Result<Tally, Stop> {
    let mut session = Session::new(alloc);
    let ended = match begin(alloc, &mut session) {
        Ok(()) => play_in(alloc, &mut session, input, out, mode),
        Err(stop) => Err(stop),
    };
    session.finish();
    ended
}

// Makes the first node with which lines are played.
fn begin(alloc: Global, session: &mut Session<TestKey>) -> Result<(), Stop> {
    let made = match default_setup(alloc) {
        Ok(setup) => session.put(alloc, "", setup),
        Err(AllocError) => Err(AllocError),
    };
    made.map_err(|_error: AllocError| Stop::Memory)
}

fn play_in<R: Read + Drop, W: Write>(
    alloc: Global,
    session: &mut Session<TestKey>,
    input: &mut BufReader<R>,
    out: &mut W,
    mode: Mode,
) -> Result<Tally, Stop> {
    let mut record = Record {
        mode,
        tally: Tally {
            replies: 0,
            expected: 0,
            otherwise: 0,
            unreadable: 0,
        },
        last: None,
        is_open: false,
    };
    let mut bytes = Vec::new(alloc);
    for number in 1..u64::MAX {
        if !input.buffer().contains(&b'\n') {
            flush(out)?;
        }
        match next_line(input, &mut bytes) {
            Ok(true) => record.take_line(alloc, session, number, bytes.as_slice(), out)?,
            Ok(false) => break,
            Err(Unread::Fault(fault)) => record.reply(Said::Fault(number, fault), out)?,
            Err(Unread::Stop) => return Err(Stop::Read),
        }
    }
    record.settle(out)?;
    flush(out)?;
    Ok(record.tally)
}

fn flush<W: Write>(out: &mut W) -> Result<(), Stop> {
    out.flush().map_err(|_error: io::Error| Stop::Write)
}

// Why there is no line.
#[derive(Drop)]
enum Unread {
    // The line is not held, and the next can be read.
    Fault(Fault),
    Stop,
}

// Reads the next line to play into the buffer, without its end; returns false at the end of the
// input. A line that is too long is skipped, and so is one whose allocation fails.
fn next_line<R: BufRead + Drop>(input: &mut R, bytes: &mut Vec<u8>) -> Result<bool, Unread> {
    bytes.clear();
    let read = input
        .by_ref()
        .take(LONGEST as u64 + 1)
        .read_until(b'\n', bytes);
    match read {
        Ok(0) => Ok(false),
        Ok(_) if bytes.last() == Some(&b'\n') => {
            bytes.pop();
            Ok(true)
        }
        Ok(_) if bytes.len() > LONGEST => pass_over(input, Fault::TooLong(LONGEST)),
        Ok(_) => Ok(true),
        Err(error) if error.kind() == ErrorKind::OutOfMemory => pass_over(input, Fault::Memory),
        Err(_) => Err(Unread::Stop),
    }
}

// Skips the rest of a line that cannot be played.
fn pass_over<R: BufRead + Drop>(input: &mut R, fault: Fault) -> Result<bool, Unread> {
    match input.skip_until(b'\n') {
        Ok(_) => Err(Unread::Fault(fault)),
        Err(_) => Err(Unread::Stop),
    }
}

impl Record {
    // Plays one line, or compares the last reply with what is expected.
    fn take_line<W: Write>(
        &mut self,
        alloc: Global,
        session: &mut Session<TestKey>,
        number: u64,
        bytes: &[u8],
        out: &mut W,
    ) -> Result<(), Stop> {
        let Ok(text) = std::str::from_utf8(bytes) else {
            return self.reply(Said::Fault(number, Fault::NoText), out);
        };
        let text = match text.split_once('#') {
            Some((before, _)) => before.trim(),
            None => text.trim(),
        };
        if text.is_empty() {
            return Ok(());
        }
        if let Some(expected) = text.strip_prefix('=') {
            return self.compare(number, expected.trim(), out);
        }
        match answer(alloc, session, text) {
            Ok(answer) => self.reply(Said::Answer(answer), out),
            Err(fault) => self.reply(Said::Fault(number, fault), out),
        }
    }

    // Counts and prints the reply to a line that was played, and keeps it for a comparison with
    // what is expected.
    fn reply<W: Write>(&mut self, said: Said, out: &mut W) -> Result<(), Stop> {
        self.settle(out)?;
        if self.mode == Mode::Replies {
            print(out, &said)?;
        }
        self.tally.replies = self.tally.replies.saturating_add(1);
        self.is_open = matches!(said, Said::Fault(_, _));
        self.last = Some(said);
        Ok(())
    }

    // Counts the last reply to a line that was played if it is a fault that was not expected.
    fn settle<W: Write>(&mut self, out: &mut W) -> Result<(), Stop> {
        if !self.is_open {
            return Ok(());
        }
        self.is_open = false;
        self.tally.unreadable = self.tally.unreadable.saturating_add(1);
        match (&self.last, self.mode) {
            (Some(said), Mode::Checks) => print(out, said),
            _ => Ok(()),
        }
    }

    // Compares the last reply to a line that was played with what is expected of it.
    fn compare<W: Write>(&mut self, number: u64, expected: &str, out: &mut W) -> Result<(), Stop> {
        match &self.last {
            Some(said) if is_printed_as(said, expected) => {
                self.tally.expected = self.tally.expected.saturating_add(1);
                self.is_open = false;
                return Ok(());
            }
            Some(said) => { writeln!(out, "line {number}: expected {expected}, was {said}") }
            None => writeln!(out, "line {number}: expected {expected}, was nothing"),
        }
        .map_err(|_error: io::Error| Stop::Write)?;
        self.tally.otherwise = self.tally.otherwise.saturating_add(1);
        Ok(())
    }
}

// Plays a line, and returns the reply. One that can't be read changes nothing.
fn answer(
    alloc: Global,
    session: &mut Session<TestKey>,
    line: &str,
) -> Result<Answer<TestKey>, Fault>
    ensures err { OnErr result (session.new ≡ session.old) }
    ensures ok { IfOk result (λ answer. AnswersSome ⟦<TestKey as Ord>⟧.cmp
        (wire_of ⟦<TestKey as PublicKey>⟧.verifies ⟦<TestKey as FixedBytes>⟧
        ⟦<TestSignature as FixedBytes>⟧) answer session.old session.new) }
{
    let request = request(alloc, line, session)?;
    Ok(serve(alloc, session, request))
}
