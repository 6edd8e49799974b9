//! Words of a line: numbers, times, lists and bytes.

use crate::fault::Fault;
use crate::usage::Usage;
use bytes::Bytes;
use p2p_directory::directory::TrackedPeers;
use p2p_discovery::codec::TestKey;
use p2p_discovery::sets::{BitMap, OrderedSet};
use std::alloc::Global;
use std::mem::replace;
use std::num::IntErrorKind;
use std::str::SplitWhitespace;
use std::time::Duration;

/// The arguments of a command, which are read in turn.
#[derive(Drop)]
pub struct Words<'a> {
    words: SplitWhitespace<'a>,
    usage: Usage,
}

impl<'a> Words<'a> {
    /// The words of the line's text, which are typed after this command.
    pub fn new(text: &'a str, usage: Usage) -> Words<'a> {
        Words {
            words: text.split_whitespace(),
            usage,
        }
    }

    /// All further words of the line.
    pub fn rest(&mut self) -> SplitWhitespace<'a> {
        replace(&mut self.words, "".split_whitespace())
    }

    /// The next word of the line.
    pub fn word(&mut self) -> Result<&'a str, Fault> {
        match self.words.next() {
            Some(word) => Ok(word),
            None => Err(Fault::Missing(self.usage)),
        }
    }

    /// Fails if there is a further word in the line.
    pub fn end(mut self) -> Result<(), Fault> {
        match self.words.next() {
            Some(_) => Err(Fault::Excess(self.usage)),
            None => Ok(()),
        }
    }

    /// The next word of the line, a whole number.
    pub fn number(&mut self) -> Result<u64, Fault> {
        number(self.word()?)
    }

    /// The next word of the line, a position or a length.
    pub fn size(&mut self) -> Result<usize, Fault> {
        size(self.word()?)
    }

    /// The next word of the line, a peer.
    pub fn peer(&mut self) -> Result<TestKey, Fault> {
        Ok(TestKey(self.number()?))
    }

    /// The next word of the line, a bool.
    pub fn truth(&mut self) -> Result<bool, Fault> {
        truth(self.word()?)
    }

    /// The next word of the line, a time.
    pub fn moment(&mut self) -> Result<Duration, Fault> {
        moment(self.word()?)
    }

    /// The next word of the line, a draw, or 0 without one.
    pub fn draw(&mut self) -> Result<Duration, Fault> {
        match self.words.next() {
            Some(word) => moment(word),
            None => Ok(Duration::ZERO),
        }
    }

    /// The next words of the line, lists of primary and of secondary peers.
    pub fn tracked(&mut self, alloc: Global) -> Result<TrackedPeers<TestKey>, Fault> {
        let primary = peers(alloc, self.word()?)?;
        let secondary = match self.words.next() {
            Some("/") => peers(alloc, self.word()?)?,
            Some(_) => return Err(Fault::Form("/ before the secondary peers")),
            None => peers(alloc, "-")?,
        };
        Ok(TrackedPeers::new(primary, secondary))
    }
}

/// Parses the word of the line as a whole number.
pub fn number(word: &str) -> Result<u64, Fault> {
    match word.parse::<u64>() {
        Ok(number) => Ok(number),
        Err(error) if *error.kind() == IntErrorKind::PosOverflow => {
            Err(Fault::TooLarge("number", u64::MAX))
        }
        Err(_) => Err(Fault::Form("a whole number")),
    }
}

/// Parses the word of the line as a position or a length.
pub fn size(word: &str) -> Result<usize, Fault> {
    match usize::try_from(number(word)?) {
        Ok(size) => Ok(size),
        Err(_) => Err(Fault::TooLarge("number", u64::MAX)),
    }
}

/// Parses the word of the line as a bool.
pub fn truth(word: &str) -> Result<bool, Fault> {
    match word.parse::<bool>() {
        Ok(truth) => Ok(truth),
        Err(_) => Err(Fault::Form("true or false")),
    }
}

/// Parses the word of the line as a time: seconds with up to nine digits after a point, or `M`.
pub fn moment(word: &str) -> Result<Duration, Fault> {
    if word == "M" {
        return Ok(Duration::MAX);
    }
    match word.split_once('.') {
        None => Ok(Duration::from_secs(number(word)?)),
        Some((seconds, fraction)) => {
            let nanos = Duration::from_nanos(nanos(fraction)?);
            Ok(Duration::from_secs(number(seconds)?).saturating_add(nanos))
        }
    }
}

// The nanoseconds of the digits after a point in a word.
fn nanos(fraction: &str) -> Result<u64, Fault> {
    const SCALES: [u64; 10] = [
        1_000_000_000,
        100_000_000,
        10_000_000,
        1_000_000,
        100_000,
        10_000,
        1_000,
        100,
        10,
        1,
    ];
    match SCALES.get(fraction.len()) {
        Some(scale) if fraction.bytes().all(|byte| byte.is_ascii_digit()) => {
            Ok(number(fraction)?.saturating_mul(*scale))
        }
        _ => Err(Fault::Form("up to nine digits behind the point")),
    }
}

// Parses the word of the line as a list of peers.
fn peers(alloc: Global, word: &str) -> Result<OrderedSet<TestKey>, Fault> {
    let mut keys = Vec::new(alloc);
    if word != "-" {
        for peer in word.split(',') {
            keys.push(TestKey(number(peer)?))?;
        }
    }
    Ok(OrderedSet::from_vec_dedup(keys))
}

/// Parses the digits of the word of the line as bits.
pub fn bits(alloc: Global, word: &str) -> Result<BitMap, Fault> {
    let mut bits = Vec::new(alloc);
    if word != "-" {
        for digit in word.bytes() {
            match digit {
                b'0' => bits.push(false)?,
                b'1' => bits.push(true)?,
                _ => return Err(Fault::Form("bits as 0101, or -")),
            }
        }
    }
    Ok(BitMap::from_bools(alloc, bits.as_slice())?)
}

/// Parses the hexadecimal digits of the word of the line as bytes.
pub fn unhex(alloc: Global, word: &str) -> Result<Bytes, Fault> {
    let digits = if word == "-" { "" } else { word };
    let mut bytes = Vec::with_capacity(alloc, digits.len() / 2)?;
    let mut high: Option<u8> = None;
    for digit in digits.chars() {
        let Some(value) = digit.to_digit(16) else {
            return Err(Fault::Form("hexadecimal digits, or -"));
        };
        high = match high {
            None => Some(value as u8),
            Some(first) => {
                bytes.push(first.wrapping_mul(16) | value as u8)?;
                None
            }
        };
    }
    match high {
        None => Ok(Bytes::from_vec(bytes)?),
        Some(_) => Err(Fault::OddDigits),
    }
}
