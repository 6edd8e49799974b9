//! The frames that peers send in a timed hour.

use crate::keys::Key32;
use crate::made::info_of;
use crate::stop::Stop;
use bytes::Bytes;
use p2p_discovery::codec::Write;
use p2p_discovery::discovery::{BitVec, Infos, Payload};
use p2p_discovery::sets::BitMap;
use std::alloc::Global;
use std::time::Duration;

/// How many infos a peer sends at a time.
pub(crate) const INFOS: usize = 32;

/// How many ticks of ten seconds an hour has.
pub(crate) const TICKS: usize = 360;

/// How many of these a minute has.
pub(crate) const TICKS_A_MINUTE: usize = 6;

/// SplitMix64: numbers that depend on the first alone.
#[derive(Drop)]
pub(crate) struct Random(pub(crate) u64);

impl Random {
    /// A number of 64 bits.
    pub(crate) fn next(&mut self) -> u64 {
        self.0 = self.0.wrapping_add(0x9e37_79b9_7f4a_7c15);
        let z = (self.0 ^ (self.0 >> 30)).wrapping_mul(0xbf58_476d_1ce4_e5b9);
        let z = (z ^ (z >> 27)).wrapping_mul(0x94d0_49bb_1331_11eb);
        z ^ (z >> 31)
    }

    /// A number below the end.
    pub(crate) fn below(&mut self, end: usize) -> usize {
        let end = (end as u64).max(1);
        (self.next() % end) as usize
    }

    /// One of the keys, if there is one.
    pub(crate) fn one_of(&mut self, keys: &[Key32]) -> Option<Key32> {
        keys.get(self.below(keys.len())).copied()
    }

    /// A time of less than five seconds.
    pub(crate) fn draw(&mut self) -> Duration {
        Duration::from_nanos(self.below(5_000_000_000) as u64)
    }
}

/// The frames of a connection in a tick, and about which set it is asked.
#[derive(Drop)]
pub(crate) struct Frames {
    /// Infos.
    pub(crate) infos: Bytes,
    /// A question.
    pub(crate) question: Bytes,
    /// The position of the set that it is asked about.
    pub(crate) place: usize,
}

/// The timestamps that the infos of so many peers have before the timed hour.
pub(crate) fn timestamps(alloc: Global, count: usize) -> Result<Vec<u64>, Stop> {
    let mut seen = Vec::with_capacity(alloc, count)?;
    for _ in 0..count {
        seen.push(1000u64)?;
    }
    Ok(seen)
}

// A frame of the timed hour with infos of those in the set, whose timestamps begin at a position:
// one in ten is newer than before.
fn infos_of(
    alloc: Global,
    here: &[Key32],
    seen: &mut [u64],
    from: usize,
    random: &mut Random,
) -> Result<Bytes, Stop> {
    let mut infos = Vec::with_capacity(alloc, INFOS)?;
    for _ in 0..INFOS {
        let place = random.below(here.len());
        let newer = u64::from(random.below(10) == 0);
        if let (Some(peer), Some(timestamp)) = (
            here.get(place),
            seen.get_mut(from.saturating_add(place)),
        ) {
            *timestamp = timestamp.saturating_add(newer);
            infos.push(info_of(*peer, *timestamp))?;
        }
    }
    if infos.len() >= 4_294_967_296 {
        return Err(Stop::Words);
    }
    Ok(Payload::Peers(Infos::from_vec(infos)).encode(alloc)?)
}

fn question_of(
    alloc: Global,
    index: u64,
    count: usize,
    random: &mut Random,
) -> Result<Bytes, Stop> {
    let mut bools = Vec::with_capacity(alloc, count)?;
    for _ in 0..count {
        bools.push(random.below(2) == 0)?;
    }
    let bits = BitMap::from_bools(alloc, &bools)?;
    let question: Payload<Key32> = Payload::BitVec(BitVec { index, bits });
    Ok(question.encode(alloc)?)
}

/// The frames that each connection receives in a tick of the timed hour, in which the newest set
/// has this index.
pub(crate) fn frames_of(
    alloc: Global,
    newest: usize,
    connected: usize,
    here: &[Key32],
    seen: &mut [u64],
    from: usize,
    random: &mut Random,
) -> Result<Vec<Frames>, Stop> {
    let mut frames = Vec::with_capacity(alloc, connected)?;
    for _ in 0..connected {
        let infos = infos_of(alloc, here, seen, from, random)?;
        let question = question_of(alloc, newest as u64, here.len(), random)?;
        let place = random.below(4).min(newest);
        frames.push(Frames {
            infos,
            question,
            place,
        })?;
    }
    Ok(frames)
}
