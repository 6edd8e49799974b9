//! What a driver does when time passes.

use crate::keys::{Key32, keys};
use crate::made::{SETS, end, info_of, node, setup, tracked};
use crate::scenarios::nodes::fill;
use crate::stop::Stop;
use crate::times::Times;
use bytes::Bytes;
use p2p_directory::node::Node;
use p2p_discovery::codec::Write;
use p2p_discovery::discovery::Payload;
use p2p_driver::actions::Action;
use p2p_driver::admission::{Admission, Heard, Read};
use p2p_driver::driver::Driver;
use p2p_driver::link::{Link, Now};
use p2p_driver::pace::Pace;
use std::alloc::{AllocError, Global};
use std::time::{Duration, Instant};

/// What is timed when time passes.
#[derive(Clone, Copy)]
pub(crate) enum Passing {
    /// A thousand times a driver finds nothing to be due.
    Idle,
    /// A driver asks the peer of each link.
    Asks,
    /// A node is asked for as many questions.
    ByHand,
}

/// How many links a timed driver has at most.
pub(crate) const LINKS: usize = 64;

// How often it is told that time passes when nothing is due.
const TIMES: usize = 1000;

/// The time of a call of a timed driver, in milliseconds. Its wall clock stays.
pub(crate) fn at(millis: u64) -> Now {
    Now {
        steady: Duration::from_millis(millis),
        wall: Duration::from_secs(1_000_000),
    }
}

/// The settings of a timed driver, which asks for all infos of no set, and dials nobody.
pub(crate) fn pace(alloc: Global) -> Pace {
    let mut pace = Pace::recommended(alloc, 256, Duration::from_secs(10)).pace;
    pace.links = LINKS;
    pace.inbound = LINKS;
    pace.dials = 0;
    pace.refresh = 0;
    pace
}

/// A timed driver of these settings.
pub(crate) fn driver_of(alloc: Global, pace: Pace) -> Result<Driver<Key32>, AllocError> {
    Driver::new(alloc, setup(alloc, 9, 1, LINKS + 1)?, pace)
}

/// Ends a timed driver.
pub(crate) fn finish(driver: Driver<Key32>) {
    driver.finish();
}

// The address of a stream of this number.
fn address(number: usize) -> [u8; 16] {
    [
        0,
        0,
        0,
        0,
        0,
        0,
        0,
        0,
        0,
        0,
        255,
        255,
        10,
        0,
        0,
        (number % 256) as u8,
    ]
}

/// Takes all actions that wait, and writes the frames that are sent. Returns how many actions there
/// were, and how many bytes in these frames.
pub(crate) fn take(driver: &mut Driver<Key32>) -> (usize, usize) {
    let count = driver.counts().actions;
    let mut sent = 0usize;
    for _ in 0..count {
        if let Some(Action::Send { link, frame }) = driver.next_action() {
            sent = sent.saturating_add(frame.len());
            let _ = driver.written(link, at(0));
        }
    }
    (count, sent)
}

/// Hands a frame in on a link of a timed driver, which has to read it now. Returns what becomes of
/// it.
pub(crate) fn hand_in(
    driver: &mut Driver<Key32>,
    link: Link,
    frame: &Bytes,
    now: Now,
) -> Result<Admission, Stop> {
    let bytes = frame.as_slice();
    let head = bytes.get(..11).unwrap_or(bytes);
    match driver.length(link, head, bytes.len(), now) {
        Read::Now => Ok(driver.admit(link, frame, now)),
        _ => Err(Stop::Words),
    }
}

// Makes a link of a peer that greets. False if a timed driver doesn't let it in.
fn greet(
    alloc: Global,
    driver: &mut Driver<Key32>,
    key: Key32,
    number: usize,
) -> Result<bool, Stop> {
    let now = at((number as u64).saturating_add(1000));
    let frame = Payload::Greeting(info_of(key, 1)).encode(alloc)?;
    let Some(link) = driver.arrived(address(number), now)? else {
        return Ok(false);
    };
    if !driver.claimed(link, key, now) || !driver.proved(link, key, 0, now)? {
        return Ok(false);
    }
    hand_in(driver, link, &frame, now)?;
    Ok(matches!(driver.judged(link, &[true], now), Ok(Heard::Greeted)))
}

/// Gives a timed driver its sets and its links.
pub(crate) fn begin(alloc: Global, driver: &mut Driver<Key32>, keys: &[Key32]) -> Result<(), Stop> {
    for index in 0..SETS {
        let _ = driver.track(index as u64, tracked(alloc, keys)?, at(0));
    }
    for (number, key) in keys.iter().enumerate() {
        if number < LINKS {
            greet(alloc, driver, *key, number)?;
        }
    }
    take(driver);
    Ok(())
}

// Lets time pass for a driver without anything that is due.
fn pass(driver: &mut Driver<Key32>, now: Now) -> usize {
    let mut done = 0usize;
    for _ in 0..TIMES {
        if driver.timeout(&[], now).is_ok() {
            done = done.saturating_add(1);
        }
    }
    done
}

// Times what a driver does when time passes, so many times.
fn time_each(
    rt: &HostRuntime,
    driver: &mut Driver<Key32>,
    samples: usize,
    passing: Passing,
) -> Result<Times, Stop> {
    let mut times = Times::new(rt.alloc());
    for sample in 0..samples {
        let now = match passing {
            Passing::Idle => at(2000),
            _ => at((sample as u64).saturating_add(2).saturating_mul(30_000)),
        };
        let start = Instant::now(rt)?;
        let passed = match passing {
            Passing::Idle => pass(driver, now),
            _ => usize::from(driver.timeout(&[], now).is_ok()),
        };
        let time = start.elapsed(rt)?;
        let (said, _sent) = take(driver);
        times.add(
            time,
            if let Passing::Idle = passing {
                passed
            } else {
                said
            },
        )?;
    }
    Ok(times)
}

/// Has a node ask so many peers for the infos of a set, and keeps the questions.
pub(crate) fn ask(
    node: &Node<Key32>,
    place: usize,
    count: usize,
    frames: &mut Vec<Bytes>,
) -> Result<(), Stop> {
    for _ in 0..count {
        if let Ok(Some(frame)) = node.ask(place) {
            frames.push(frame)?;
        }
    }
    Ok(())
}

// Times the questions of a node, so many times.
fn time_by_hand(
    rt: &HostRuntime,
    node: &mut Node<Key32>,
    keys: &[Key32],
    samples: usize,
) -> Result<Times, Stop> {
    fill(rt.alloc(), node, keys)?;
    let count = keys.len().min(LINKS);
    let mut times = Times::new(rt.alloc());
    for sample in 0..samples {
        let mut frames = Vec::with_capacity(rt.alloc(), count)?;
        let start = Instant::now(rt)?;
        ask(node, sample % SETS, count, &mut frames)?;
        times.add(start.elapsed(rt)?, frames.len())?;
    }
    Ok(times)
}

fn by_hand(rt: &HostRuntime, keys: &[Key32], samples: usize) -> Result<Times, Stop> {
    let mut node = node(rt.alloc(), 9, 1, LINKS)?;
    let times = time_by_hand(rt, &mut node, keys, samples);
    end(node);
    times
}

fn driven(
    rt: &HostRuntime,
    keys: &[Key32],
    samples: usize,
    passing: Passing,
) -> Result<Times, Stop> {
    // It keeps its links.
    let mut pace = pace(rt.alloc());
    pace.silence = Duration::from_secs(1_000_000_000);
    let mut driver = driver_of(rt.alloc(), pace)?;
    let times = match begin(rt.alloc(), &mut driver, keys) {
        Ok(()) => time_each(rt, &mut driver, samples, passing),
        Err(stop) => Err(stop),
    };
    finish(driver);
    times
}

/// Times what is done when time passes, with so many peers in four sets, of which at most 64 have
/// links.
pub(crate) fn passings(
    rt: &HostRuntime,
    count: usize,
    samples: usize,
    passing: Passing,
) -> Result<Times, Stop> {
    let keys = keys(rt.alloc(), count)?;
    match passing {
        Passing::ByHand => by_hand(rt, &keys, samples),
        _ => driven(rt, &keys, samples, passing),
    }
}
