//! An hour of a tracker within Rattle.

use crate::keys::{Key32, keys};
use crate::made::{end, node, tracked};
use crate::scenarios::frames::{
    Frames, INFOS, Random, TICKS, TICKS_A_MINUTE, frames_of, timestamps,
};
use crate::stop::Stop;
use crate::times::Times;
use p2p_directory::directory::TrackedPeers;
use p2p_directory::node::{Node, Received};
use p2p_directory::run::Reply;
use p2p_discovery::sets::OrderedSet;
use std::alloc::Global;
use std::time::{Duration, Instant};

// How many connections there are at most.
const CONNECTIONS: usize = 64;

// A tracker, and how much it did.
struct Tracker {
    node: Node<Key32>,
    slots: Vec<Option<Key32>>,
    done: usize,
}

// What happens in a tick, chosen before its time is taken.
#[derive(Drop)]
struct Tick {
    now: Duration,
    new_set: Option<(u64, TrackedPeers<Key32>)>,
    first_slot: usize,
    dials: Vec<(u64, Duration)>,
    inbound: Vec<(Key32, Duration)>,
    asked: Vec<Key32>,
    bad: Option<Key32>,
}

impl Tracker {
    fn count(&mut self, more: usize) {
        self.done = self.done.saturating_add(more);
    }

    // Releases what is held in a slot during the timed hour, and returns whether anything was.
    fn release(&mut self, place: usize) -> bool {
        let Some(slot) = self.slots.get_mut(place) else {
            return false;
        };
        let Some(peer) = slot.take() else {
            return false;
        };
        let _ = self.node.release(&peer);
        true
    }

    fn held(&self, place: usize) -> Option<Key32> {
        self.slots.get(place).copied()?
    }

    // Releases the peers of a set that must be disconnected during the timed hour.
    fn release_torn(&mut self, torn: &OrderedSet<Key32>) {
        for place in 0..CONNECTIONS {
            let Some(peer) = self.held(place) else {
                continue;
            };
            if torn.position(&peer).is_some() && self.release(place) {
                self.count(1);
            }
        }
    }

    fn free_slot(&self) -> Option<usize> {
        self.slots.iter().position(|slot| slot.is_none())
    }

    // Connects a peer that was reserved during the timed hour if it may stay and a slot is free,
    // and else releases it.
    fn keep(&mut self, peer: Key32, is_dialer: bool, may_stay: bool) {
        self.count(1);
        let place = self.free_slot().unwrap_or(CONNECTIONS);
        if let Some(slot) = self.slots.get_mut(place) {
            if may_stay {
                *slot = Some(peer);
                let _ = self.node.connect(&peer, is_dialer);
                return;
            }
        }
        let _ = self.node.release(&peer);
    }

    fn track(&mut self, index: u64, peers: TrackedPeers<Key32>, now: Duration) {
        if let Reply::Track(Some(torn)) = self.node.track(index, peers) {
            self.node.forget_cooled(now);
            self.release_torn(&torn);
        }
    }

    fn dial(&mut self, dials: &[(u64, Duration)], now: Duration) -> Result<(), Stop> {
        let dialable = self.node.directory().dialable(now)?.peers;
        self.count(dialable.len());
        for (how, draw) in dials {
            let place = (how / 2 % (dialable.len() as u64).max(1)) as usize;
            let Some(peer) = dialable.get(place).copied() else {
                return Ok(());
            };
            if let Reply::Dial(true) = self.node.dial(&peer, now, *draw) {
                self.keep(peer, true, how % 2 == 0);
            }
        }
        Ok(())
    }

    fn listen(&mut self, inbound: &[(Key32, Duration)], now: Duration) {
        for (peer, draw) in inbound {
            if !self.node.acceptable(peer, now) {
                continue;
            }
            if let Reply::Listen(true) = self.node.listen(peer, now, *draw) {
                self.keep(*peer, false, true);
            }
        }
    }

    fn block(&mut self, bad: Key32, now: Duration) {
        let _ = self.node.block(&bad, now);
        for place in 0..CONNECTIONS {
            if self.held(place) == Some(bad) {
                self.release(place);
            }
        }
    }

    fn call(&mut self, tick: Tick) -> Result<(), Stop> {
        let Tick {
            now,
            new_set,
            first_slot,
            dials,
            inbound,
            asked,
            bad,
        } = tick;
        match new_set {
            Some((index, peers)) => self.track(index, peers, now),
            None => {}
        }
        let has_ended = self.node.unblock_expired(now);
        self.count(usize::from(has_ended));
        for place in 0..8usize {
            self.release(first_slot.saturating_add(place) % CONNECTIONS);
        }
        self.dial(&dials, now)?;
        self.listen(&inbound, now);
        for peer in &asked {
            let is_eligible = self.node.eligible(peer, now);
            self.count(usize::from(is_eligible));
        }
        if let Some(bad) = bad {
            self.block(bad, now);
        }
        Ok(())
    }

    fn gossip(&mut self, frames: Frames, now: Duration) -> Result<(), Stop> {
        match self.node.receive(frames.infos, now) {
            Received::Applied(count) => self.count(count),
            _ => return Err(Stop::Words),
        }
        match self.node.receive(frames.question, now) {
            Received::Reply(reply) => self.count(reply.len()),
            _ => return Err(Stop::Words),
        }
        if let Some(question) = self.node.ask(frames.place)? {
            self.count(question.len());
        }
        Ok(())
    }
}

fn some_of(
    alloc: Global,
    here: &[Key32],
    count: usize,
    random: &mut Random,
) -> Result<Vec<Key32>, Stop> {
    let mut some = Vec::with_capacity(alloc, count)?;
    for _ in 0..count {
        if let Some(peer) = random.one_of(here) {
            some.push(peer)?;
        }
    }
    Ok(some)
}

fn dials_of(alloc: Global, random: &mut Random) -> Result<Vec<(u64, Duration)>, Stop> {
    let mut dials = Vec::with_capacity(alloc, 4)?;
    for _ in 0..4 {
        let how = random.next();
        dials.push((how, random.draw()))?;
    }
    Ok(dials)
}

fn inbound_of(
    alloc: Global,
    peers: &[Key32],
    random: &mut Random,
) -> Result<Vec<(Key32, Duration)>, Stop> {
    let mut inbound = Vec::with_capacity(alloc, peers.len())?;
    for peer in peers {
        random.next();
        inbound.push((*peer, random.draw()))?;
    }
    Ok(inbound)
}

// What happens in a tick of the timed hour among the peers that are in the set.
fn tick_of(
    alloc: Global,
    number: usize,
    here: &[Key32],
    random: &mut Random,
) -> Result<Tick, Stop> {
    let inbound = some_of(alloc, here, 8, random)?;
    let asked = some_of(alloc, here, 8, random)?;
    let bad = random.one_of(here);
    let dials = dials_of(alloc, random)?;
    let inbound = inbound_of(alloc, &inbound, random)?;
    let new_set = if number % TICKS_A_MINUTE == 0 {
        Some(((number / TICKS_A_MINUTE) as u64, tracked(alloc, here)?))
    } else {
        None
    };
    let seconds = (number as u64).saturating_mul(10).saturating_add(1_000_000);
    Ok(Tick {
        now: Duration::from_secs(seconds),
        new_set,
        first_slot: number.saturating_mul(8),
        dials,
        inbound,
        asked,
        bad,
    })
}

// The time of all ticks of the timed hour.
fn time_ticks(rt: &HostRuntime, tracker: &mut Tracker, count: usize) -> Result<Duration, Stop> {
    let mut random = Random(count as u64);
    let all = keys(rt.alloc(), count.saturating_mul(2))?;
    let mut seen = timestamps(rt.alloc(), all.len())?;
    let mut time = Duration::ZERO;
    for number in 0..TICKS {
        let minute = number / TICKS_A_MINUTE;
        let from = minute.saturating_mul(count / 16) % count.max(1);
        let end = from.saturating_add(count);
        let Some(here) = all.get(from..end) else {
            return Err(Stop::Words);
        };
        let tick = tick_of(rt.alloc(), number, here, &mut random)?;
        let now = tick.now;
        let start = Instant::now(rt)?;
        tracker.call(tick)?;
        time = time.saturating_add(start.elapsed(rt)?);
        let connected = CONNECTIONS.saturating_sub(free_slots(tracker));
        let frames = frames_of(
            rt.alloc(),
            minute,
            connected,
            here,
            &mut seen,
            from,
            &mut random,
        )?;
        let start = Instant::now(rt)?;
        for frames in frames {
            tracker.gossip(frames, now)?;
        }
        time = time.saturating_add(start.elapsed(rt)?);
    }
    Ok(time)
}

fn free_slots(tracker: &Tracker) -> usize {
    let mut free = 0usize;
    for place in 0..CONNECTIONS {
        if tracker.held(place).is_none() {
            free = free.saturating_add(1);
        }
    }
    free
}

fn hour(rt: &HostRuntime, count: usize) -> Result<(Duration, usize), Stop> {
    let mut slots = Vec::with_capacity(rt.alloc(), CONNECTIONS)?;
    for _ in 0..CONNECTIONS {
        slots.push(None)?;
    }
    let mut tracker = Tracker {
        node: node(rt.alloc(), 9, 1, count.max(INFOS))?,
        slots,
        done: 0,
    };
    let time = time_ticks(rt, &mut tracker, count);
    let Tracker {
        node,
        slots: _slots,
        done,
    } = tracker;
    end(node);
    Ok((time?, done))
}

/// Times so many hours of a tracker with so many peers in a set: each minute a set of whom a
/// sixteenth are new; each tick of ten seconds blocks that end, eight connections that end, four
/// dials of which half fail, eight inbound peers, eight that are asked about, one block; and of
/// each connection a frame of infos, a question, and a question to it.
pub(crate) fn hours(rt: &HostRuntime, count: usize, samples: usize) -> Result<Times, Stop> {
    let mut times = Times::new(rt.alloc());
    for _ in 0..samples {
        let (time, done) = hour(rt, count)?;
        times.add(time, done)?;
    }
    Ok(times)
}
