//! An hour of a driver with links, and the same hour by the calls of its node.

use crate::keys::{Key32, keys};
use crate::made::{SETS, end, infos_of, node, tracked};
use crate::scenarios::drivers::{LINKS, ask, at, begin, driver_of, finish, hand_in, pace, take};
use crate::scenarios::frames::{
    Frames, INFOS, Random, TICKS, TICKS_A_MINUTE, frames_of, timestamps,
};
use crate::scenarios::nodes::{connect, fill};
use crate::stop::Stop;
use crate::times::Times;
use bytes::Bytes;
use p2p_directory::directory::TrackedPeers;
use p2p_directory::node::{Answer, Node, Received};
use p2p_directory::run::{Command, Reply};
use p2p_discovery::discovery::Payload;
use p2p_driver::admission::{Admission, Heard};
use p2p_driver::driver::{Driver, Tracked};
use p2p_driver::link::{Link, Now};
use p2p_driver::pace::Pace;
use std::alloc::Global;
use std::time::{Duration, Instant};

/// By whom an hour is made.
#[derive(Clone, Copy)]
pub(crate) enum Who {
    /// A driver, by its own calls.
    Driver,
    /// A node, by those that a driver makes.
    Hand,
}

// What happens in a tick, made before its time is taken: a set comes, each peer is asked for the
// set at a position, and frames come of each.
#[derive(Drop)]
struct Tick {
    now: Now,
    new_set: Option<(u64, TrackedPeers<Key32>)>,
    place: usize,
    frames: Vec<Frames>,
}

// By whom an hour is made.
trait Hour {
    // Makes a tick, and returns how much it did.
    fn tick(&mut self, tick: Tick) -> Result<usize, Stop>;
}

impl Hour for Driver<Key32> {
    fn tick(&mut self, tick: Tick) -> Result<usize, Stop> {
        let Tick {
            now,
            new_set,
            place: _,
            frames,
        } = tick;
        if let Some((index, peers)) = new_set {
            let Ok(Tracked::Accepted) = self.track(index, peers, now) else {
                return Err(Stop::Words);
            };
        }
        if self.timeout(&[], now).is_err() {
            return Err(Stop::Words);
        }
        let (count, mut done) = take(self);
        if count != frames.len() {
            return Err(Stop::Words);
        }
        for (before, frames) in frames.iter().enumerate() {
            // Links are numbered from 1.
            let link = Link((before as u64).saturating_add(1));
            done = done.saturating_add(hear(self, link, &frames.infos, now)?);
            done = done.saturating_add(answer(self, link, &frames.question, now)?);
        }
        Ok(done)
    }
}

impl Hour for Node<Key32> {
    fn tick(&mut self, tick: Tick) -> Result<usize, Stop> {
        let Tick {
            now,
            new_set,
            place,
            frames,
        } = tick;
        if let Some((index, peers)) = new_set {
            let Reply::Track(Some(_torn)) = self.track(index, peers) else {
                return Err(Stop::Words);
            };
        }
        self.forget_cooled(now.steady);
        self.unblock_expired(now.steady);
        let mut done = ask_all(self, place, frames.len())?;
        for frames in frames {
            done = done.saturating_add(hear_by_hand(self, frames.infos, now.wall)?);
            match self.receive(frames.question, now.wall) {
                Received::Reply(reply) => done = done.saturating_add(reply.len()),
                _ => return Err(Stop::Words),
            }
        }
        Ok(done)
    }
}

// Has a node ask so many peers for the infos of a set. Returns how many bytes the questions have.
fn ask_all(node: &Node<Key32>, place: usize, count: usize) -> Result<usize, Stop> {
    let mut questions = Vec::with_capacity(node.directory().allocator(), count)?;
    ask(node, place, count, &mut questions)?;
    let mut sent = 0usize;
    for question in &questions {
        sent = sent.saturating_add(question.len());
    }
    Ok(sent)
}

// As many true verdicts, of a list of infos.
fn verdicts(all: &[bool; INFOS], count: usize) -> Result<&[bool], Stop> {
    match all.get(..count) {
        Some(verdicts) => Ok(verdicts),
        None => Err(Stop::Words),
    }
}

// A list of infos comes on a link, and its signatures are valid. Returns how many were applied.
fn hear(driver: &mut Driver<Key32>, link: Link, frame: &Bytes, now: Now) -> Result<usize, Stop> {
    let Admission::Verify(count) = hand_in(driver, link, frame, now)? else {
        return Err(Stop::Words);
    };
    let all = [true; INFOS];
    match driver.judged(link, verdicts(&all, count)?, now) {
        Ok(Heard::Applied(count)) => Ok(count),
        _ => Err(Stop::Words),
    }
}

// A question comes on a link. Returns how many bytes the reply has.
fn answer(driver: &mut Driver<Key32>, link: Link, frame: &Bytes, now: Now) -> Result<usize, Stop> {
    let Admission::Heard(Heard::Answered) = hand_in(driver, link, frame, now)? else {
        return Err(Stop::Words);
    };
    let (1, sent) = take(driver) else {
        return Err(Stop::Words);
    };
    Ok(sent)
}

// A list of infos comes to a node, and its signatures are valid: those that decide are counted, as
// a driver does. Returns how many infos were applied.
fn hear_by_hand(node: &mut Node<Key32>, frame: Bytes, wall: Duration) -> Result<usize, Stop> {
    let Ok(decoded) = node.decode(frame.clone()?) else {
        return Err(Stop::Words);
    };
    let Payload::Peers(infos) = decoded.payload() else {
        return Err(Stop::Words);
    };
    let count = node.verifier().count_to_verify(wall, infos.as_slice());
    let all = [true; INFOS];
    match node.answer_with_verdicts(frame, wall, verdicts(&all, count)?) {
        Ok(Answer::Received(Received::Applied(count))) => Ok(count),
        _ => Err(Stop::Words),
    }
}

// What happens in a tick of an hour with so many links, after the sets with which it begins. Each
// peer is asked for these in turn, of which all move to the position before when one comes.
fn tick_of(
    alloc: Global,
    number: usize,
    links: usize,
    keys: &[Key32],
    seen: &mut [u64],
    random: &mut Random,
) -> Result<Tick, Stop> {
    let minute = number / TICKS_A_MINUTE;
    let newest = SETS.saturating_add(minute);
    let new_set = if number % TICKS_A_MINUTE == 0 {
        Some((newest as u64, tracked(alloc, keys)?))
    } else {
        None
    };
    Ok(Tick {
        now: at((number as u64).saturating_add(2).saturating_mul(10_000)),
        new_set,
        place: number.saturating_sub(minute) % SETS,
        frames: frames_of(alloc, newest, links, keys, seen, 0, random)?,
    })
}

// Times all ticks of an hour.
fn time_ticks<H: Hour>(
    rt: &HostRuntime,
    keys: &[Key32],
    hour: &mut H,
) -> Result<(Duration, usize), Stop> {
    let mut random = Random(keys.len() as u64);
    let mut seen = timestamps(rt.alloc(), keys.len())?;
    let links = keys.len().min(LINKS);
    let mut time = Duration::ZERO;
    let mut done = 0usize;
    for number in 0..TICKS {
        let tick = tick_of(rt.alloc(), number, links, keys, &mut seen, &mut random)?;
        let start = Instant::now(rt)?;
        let did = hour.tick(tick)?;
        time = time.saturating_add(start.elapsed(rt)?);
        done = done.saturating_add(did);
    }
    Ok((time, done))
}

// The settings of a driver for an hour: a tick of ten seconds, in which four frames may come.
fn hour_pace(alloc: Global) -> Pace {
    let mut pace = pace(alloc);
    pace.tick = Duration::from_secs(10);
    pace.refill = Duration::from_millis(2_500);
    pace
}

// Gives a driver its sets and its links, and times an hour of it.
fn time_driver(
    rt: &HostRuntime,
    keys: &[Key32],
    driver: &mut Driver<Key32>,
) -> Result<(Duration, usize), Stop> {
    begin(rt.alloc(), driver, keys)?;
    time_ticks(rt, keys, driver)
}

// Gives a node its sets and its connections, and times an hour of it.
fn time_node(
    rt: &HostRuntime,
    keys: &[Key32],
    node: &mut Node<Key32>,
) -> Result<(Duration, usize), Stop> {
    let linked = keys.get(..LINKS).unwrap_or(keys);
    fill(rt.alloc(), node, keys)?;
    node.step(Command::UpdatePeers(infos_of(rt.alloc(), linked, 1)?));
    connect(node, linked);
    time_ticks(rt, keys, node)
}

fn by_driver(rt: &HostRuntime, keys: &[Key32]) -> Result<(Duration, usize), Stop> {
    let mut driver = driver_of(rt.alloc(), hour_pace(rt.alloc()))?;
    let timed = time_driver(rt, keys, &mut driver);
    finish(driver);
    timed
}

fn by_hand(rt: &HostRuntime, keys: &[Key32]) -> Result<(Duration, usize), Stop> {
    let mut node = node(rt.alloc(), 9, 1, LINKS + 1)?;
    let timed = time_node(rt, keys, &mut node);
    end(node);
    timed
}

/// Times so many hours with so many peers in each of four sets, of whom at most 64 have links. Each
/// minute the next set comes, of the same peers. Each tick of ten seconds the peer of each link is
/// asked, and says a list of infos, of which one in ten is newer than before, and a question.
pub(crate) fn driven_hours(
    rt: &HostRuntime,
    count: usize,
    samples: usize,
    who: Who,
) -> Result<Times, Stop> {
    let keys = keys(rt.alloc(), count)?;
    let mut times = Times::new(rt.alloc());
    for _ in 0..samples {
        let (time, done) = match who {
            Who::Driver => by_driver(rt, &keys)?,
            Who::Hand => by_hand(rt, &keys)?,
        };
        times.add(time, done)?;
    }
    Ok(times)
}
