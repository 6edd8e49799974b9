//! What the tests of a driver share: drivers with the recommended settings, streams, and actions
//! that can be compared. It may use the crates of the library, and `lines`; only crates of tests
//! use it.
#![tactic(auto)]

ghost use Rattle.std.specs.Prelude.{◌≡◌, ◌*◌};
ghost use Rattle.std.specs.Duration.{as_nanos};

use bytes::Bytes;
use lines::{command, info, setup};
use p2p_directory::run::Command;
use p2p_discovery::codec::{TestKey, Write};
use p2p_discovery::discovery::{Info, Infos, Payload};
use p2p_driver::actions::{Action, Event, Why};
use p2p_driver::admission::{Admission, Heard, Misjudged, Read};
use p2p_driver::driver::{Driver, Tracked};
use p2p_driver::link::{Link, Now};
use p2p_driver::pace::{Channel, Pace};
use std::alloc::{AllocError, Global};
use std::num::NonZeroU32;
use std::test::Fail;
use std::time::Duration;

/// The settings of a tested driver's node: its key is 9, and it retains one set.
pub const SETTINGS: &str = "cooldown=60";

/// An action of a tested driver, without its frame.
#[derive(Clone, Copy, Debug, PartialEq, Eq)]
pub enum Said {
    /// No action waits.
    Nothing,
    /// The peer is dialled: on which link, and who.
    Dialed(u64, u64),
    /// A frame is sent on the link.
    Sent(u64),
    /// The link is closed.
    Closed(u64, Why),
    /// The application is told.
    Told(Event<TestKey>),
}

/// The recommended settings of a tested driver for 4 peers with a cooldown of 60 s: 64 streams, 32
/// of an address, which have 3 s to claim and 5 s to be proved; 4 links, whose peers have 5 s to
/// greet; and 4 dials, which have 5 s to be proved.
pub fn dialing(alloc: Global) -> Pace {
    Pace::recommended(alloc, 4, Duration::from_secs(60)).pace
}

/// Those settings, but that nobody is dialled.
pub fn pace(alloc: Global) -> Pace {
    let mut pace = dialing(alloc);
    pace.dials = 0;
    pace
}

/// A channel, on which a message has at most so many bytes. So many of a link are read at once, and
/// one more in so many seconds.
pub fn channel(number: u64, longest: u32, burst: u32, seconds: u64) -> Channel {
    Channel {
        number,
        longest,
        burst: NonZeroU32::MIN.saturating_add(burst.saturating_sub(1)),
        refill: Duration::from_secs(seconds),
    }
}

/// Those settings, by which nobody is dialled, with two channels: 3, with messages of at most 32
/// bytes, of which two are read at once, and one more in a second; and 300, of at most 5 bytes, three
/// at once, and one more in 2 s.
pub fn with_channels(alloc: Global) -> Result<Pace, AllocError> {
    let mut pace = pace(alloc);
    pace.channels.push(channel(3, 32, 2, 1))?;
    pace.channels.push(channel(300, 5, 3, 2))?;
    Ok(pace)
}

/// What is found by a driver with these settings, for the tests of drivers. The driver ends here
/// alone: each place where a directory is dropped takes a check as long as that of a test.
pub fn driven<T, F: FnOnce(&mut Driver<TestKey>) -> T>(
    alloc: Global,
    settings: &'static str,
    pace: Pace,
    find: F,
) -> Result<T, Fail>
    requires { F.IsAlwaysCallable find }
{
    let setup = setup(alloc, settings)?;
    let mut driver = Driver::new(alloc, setup, pace)?;
    let found = find(&mut driver);
    driver.finish();
    Ok(found)
}

/// What is found by a driver of a node with the settings of tests, as [`driven`] does. For the
/// proof: it names no lifetime, so what is called may hold references of several.
pub fn tested<T, F: FnOnce(&mut Driver<TestKey>) -> T>(
    alloc: Global,
    pace: Pace,
    find: F,
) -> Result<T, Fail>
    requires { F.IsAlwaysCallable find }
{
    driven(alloc, SETTINGS, pace, find)
}

/// The times of a tested call: a steady one in milliseconds, and a wall clock that goes back
/// meanwhile from 1,000 s.
pub fn at(millis: u64) -> Now {
    at_wall(millis, 1_000_000u64.saturating_sub(millis))
}

/// The times of a tested call: a steady one and that of a wall clock, both in milliseconds.
pub fn at_wall(millis: u64, wall: u64) -> Now
    ensures steady { as_nanos result.steady ≡ millis * 1000000 }
    ensures wall { as_nanos result.wall ≡ wall * 1000000 }
{
    Now {
        steady: Duration::from_millis(millis),
        wall: Duration::from_millis(wall),
    }
}

/// The IPv4 address 10.0.0.`last` of a tested stream.
pub fn ipv4(last: u8) -> [u8; 16] {
    [0, 0, 0, 0, 0, 0, 0, 0, 0, 0, 255, 255, 10, 0, 0, last]
}

/// Takes the next action of a tested driver. A frame that is sent isn't written by that.
pub fn take(driver: &mut Driver<TestKey>) -> Said {
    match driver.next_action() {
        Some(
            Action::Dial {
                link,
                peer,
                ingress: _,
            },
        ) => Said::Dialed(link.0, peer.0),
        Some(Action::Send { link, frame: _ }) => Said::Sent(link.0),
        Some(Action::Close { link, why }) => Said::Closed(link.0, why),
        Some(Action::Told(event)) => Said::Told(event),
        None => Said::Nothing,
    }
}

/// Takes so many actions of a tested driver, and writes none of the frames that are sent.
pub fn take_all(driver: &mut Driver<TestKey>, count: usize) {
    for _ in 0..count {
        take(driver);
    }
}

/// Takes the next action of a tested driver. A frame that is sent is written, at the latest time.
pub fn next(driver: &mut Driver<TestKey>) -> Said {
    let said = take(driver);
    if let Said::Sent(link) = said {
        driver.written(Link(link), at(0));
    }
    said
}

/// Takes the next two actions of a tested driver.
pub fn next_two(driver: &mut Driver<TestKey>) -> [Said; 2] {
    let first = next(driver);
    [first, next(driver)]
}

/// Takes the next five actions of a tested driver.
pub fn next_five(driver: &mut Driver<TestKey>) -> [Said; 5] {
    let [first, second] = next_two(driver);
    let [third, fourth] = next_two(driver);
    [first, second, third, fourth, next(driver)]
}

/// Takes the next actions of a tested driver until one isn't a frame that is sent, at most nine of
/// them, and returns the last.
pub fn next_unsent(driver: &mut Driver<TestKey>) -> Said {
    for _ in 0..8u32 {
        let said = next(driver);
        if !matches!(said, Said::Sent(_)) {
            return said;
        }
    }
    next(driver)
}

/// Tracks the set of a line such as `track 0 1,2` by a tested driver at this time.
pub fn track(
    alloc: Global,
    driver: &mut Driver<TestKey>,
    line: &'static str,
    millis: u64,
) -> Result<Option<Tracked>, Fail> {
    match command(alloc, line)? {
        Command::Track { index, peers } => Ok(Some(driver.track(index, peers, at(millis))?)),
        _ => Ok(None),
    }
}

/// Has a tested driver track peers by a line such as `track 0 1,2`, and know infos of such words.
pub fn know(
    alloc: Global,
    driver: &mut Driver<TestKey>,
    line: &'static str,
    words: &[&'static str],
) -> Result<(), Fail> {
    track(alloc, driver, line, 0)?;
    driver.update_peers(infos(alloc, words)?, at(0));
    Ok(())
}

/// Tells a tested driver the time, with these random words. Returns the next five actions.
pub fn pass(
    driver: &mut Driver<TestKey>,
    words: &[u64],
    millis: u64,
) -> Result<[Said; 5], AllocError> {
    driver.timeout(words, at(millis))?;
    Ok(next_five(driver))
}

/// Lets a stream come to a tested driver from an address, and claim to be the peer's. Returns its
/// number, 0 if there is no room for it, and whether the claim is answered.
pub fn claim(
    driver: &mut Driver<TestKey>,
    last: u8,
    peer: u64,
    millis: u64,
) -> Result<(u64, bool), AllocError> {
    match driver.arrived(ipv4(last), at(millis))? {
        Some(link) => Ok((link.0, driver.claimed(link, TestKey(peer), at(millis)))),
        None => Ok((0, false)),
    }
}

/// Lets a stream come to a tested driver from an address, claim to be the peer's and be proved to
/// be, with a word of 0. Returns its number, 0 if there is no room for it, and whether the claim is
/// answered and the proof accepted.
pub fn prove(
    driver: &mut Driver<TestKey>,
    last: u8,
    peer: u64,
    millis: u64,
) -> Result<(u64, bool, bool), AllocError> {
    let (number, claimed) = claim(driver, last, peer, millis)?;
    let proved = driver.proved(Link(number), TestKey(peer), 0, at(millis))?;
    Ok((number, claimed, proved))
}

/// The frame of these bytes, for a tested driver.
pub fn frame(alloc: Global, bytes: &[u8]) -> Result<Bytes, AllocError> {
    Bytes::copy_from_slice(alloc, bytes)
}

/// The tested greeting with the info of a word such as `1@1000`, which its key has signed.
pub fn greeting(alloc: Global, word: &'static str) -> Result<Bytes, Fail> {
    Ok(Payload::Greeting(info(alloc, word)?).encode(alloc)?)
}

/// The tested infos of such words.
pub fn infos(alloc: Global, words: &[&'static str]) -> Result<Vec<Info<TestKey>>, Fail> {
    let mut infos = Vec::new(alloc);
    for word in words {
        infos.push(info(alloc, *word)?)?;
    }
    Ok(infos)
}

/// The tested frame of a list of such infos, or no bytes if these are too many for one.
pub fn list(alloc: Global, words: &[&'static str]) -> Result<Bytes, Fail> {
    let infos = infos(alloc, words)?;
    if infos.len() >= 4_294_967_296 {
        return Ok(Bytes::new());
    }
    Ok(Payload::Peers(Infos::from_vec(infos)).encode(alloc)?)
}

/// Whether a frame of these bytes is read now by a tested driver, which is told the first 11.
pub fn length(driver: &mut Driver<TestKey>, link: Link, bytes: &[u8], now: Now) -> Read {
    driver.length(link, &bytes[..bytes.len().min(11)], bytes.len(), now)
}

/// How many frames of these bytes are read at once by a tested driver, at most 20, and what it says
/// of the next one.
pub fn reads(driver: &mut Driver<TestKey>, link: Link, bytes: &[u8], now: Now) -> (u32, Read) {
    let mut count = 0u32;
    for _ in 0..20u32 {
        let read = length(driver, link, bytes, now);
        if read != Read::Now {
            return (count, read);
        }
        count = count.saturating_add(1);
    }
    (count, length(driver, link, bytes, now))
}

/// What becomes of a frame that comes to a tested driver, which is asked just before whether it is
/// read. It is handed in whatever the answer is.
pub fn admitted(driver: &mut Driver<TestKey>, link: Link, frame: &Bytes, now: Now) -> Admission {
    let _read = length(driver, link, frame.as_slice(), now);
    driver.admit(link, frame, now)
}

/// What becomes of a frame of these bytes that comes on link 1 of a tested driver.
pub fn admit(
    alloc: Global,
    driver: &mut Driver<TestKey>,
    bytes: &[u8],
    millis: u64,
) -> Result<Admission, AllocError> {
    Ok(admitted(driver, Link(1), &frame(alloc, bytes)?, at(millis)))
}

/// What a tested driver answers to the greeting with this info on link 1, and what comes of it at
/// the same time if its signature is valid.
pub fn greet(
    alloc: Global,
    driver: &mut Driver<TestKey>,
    word: &'static str,
    millis: u64,
) -> Result<(Admission, Result<Heard, Misjudged>), Fail> {
    let admission = admitted(driver, Link(1), &greeting(alloc, word)?, at(millis));
    let heard = driver.judged(Link(1), &[true], at(millis));
    Ok((admission, heard))
}

/// Has a tested driver track peers by a line such as `track 0 1,2`, lets peer 1 in at 1 s, and has
/// it greet at 2 s with an info of 1 s. What is said is taken and written. Returns whether it
/// greeted.
pub fn open(alloc: Global, driver: &mut Driver<TestKey>, line: &'static str) -> Result<bool, Fail> {
    track(alloc, driver, line, 0)?;
    prove(driver, 1, 1, 1_000)?;
    let (_, heard) = greet(alloc, driver, "1@1000", 2_000)?;
    next_two(driver);
    next(driver);
    Ok(heard == Ok(Heard::Greeted))
}

/// Whether the next action of a tested driver sends this frame on link 1. A frame that is sent is
/// written, at the latest time.
pub fn sends(driver: &mut Driver<TestKey>, frame: &[u8]) -> bool {
    match driver.next_action() {
        Some(Action::Send { link, frame: sent }) => {
            driver.written(link, at(0));
            link == Link(1) && sent.as_slice() == frame
        }
        _ => false,
    }
}
