//! The inbound streams whose key isn't proved yet.

ghost use Rattle.std.specs.Prelude.{ℕ, ◌≡◌, ◌≤◌, ◌<◌, ◌&&◌, ◌||◌, not, nat_le, max, List, []};
ghost use Rattle.std.specs.Prelude.{find, length, is_some, option_map, IfOk, OnErr};
ghost use Rattle.std.specs.Prelude.{vec_len, vec_capacity};
ghost use Rattle.std.specs.Duration.{as_nanos};
ghost use Rattle.std.specs.List.{count_by, filter};
ghost use Rattle.p2p_driver.specs.Arrivals.{has_number, is_unclaimed, is_of, is_older};
ghost use Rattle.p2p_driver.specs.Arrivals.{deadline_of, lesser_of, IsLeastDeadline};
ghost use Rattle.p2p_driver.specs.Arrivals.{count_older, has_most, crowded_of};
ghost use Rattle.p2p_driver.specs.Arrivals.{gives_way, arrival_of, room_of, arrived};
ghost use Rattle.p2p_driver.specs.Arrivals.{Gives, AreYoung, with_claim, claimed};

use crate::origin::Origin;
use crate::pace::Pace;
use std::alloc::{AllocError, Global};
use std::marker::Model;
use std::time::Duration;

/// An inbound stream whose key isn't proved yet.
#[derive(Clone, Copy, Debug)]
pub struct Arrival<K> {
    /// Its number, of those of links.
    pub number: u64,
    /// By what it is counted.
    pub origin: Origin,
    /// When it came, a steady time.
    pub came: Duration,
    /// Whose it says that it is, if it has.
    pub claim: Option<K>,
}

impl<K> Arrival<K> {
    // A stream that came at this time, and hasn't claimed.
    fn new(number: u64, origin: Origin, came: Duration) -> Self
        ensures { result ≡ arrival_of number origin came }
    {
        Arrival {
            number,
            origin,
            came,
            claim: None,
        }
    }
}

/// The inbound streams whose key isn't proved yet, in the order in which they came. A contract sees
/// the list of them.
#[derive(Debug, Drop)]
pub struct Arrivals<K> {
    streams: Vec<Arrival<K>>,
}

impl<K> Model for Arrivals<K> {
    ghost use Rattle.std.specs.Prelude.{List};
    ghost use Rattle.p2p_driver.specs.declared.arrivals.Arrival.{Arrival};

    ghost Value = { List (Arrival K) };

    ghost view = { λ a. a.streams.items };

    ghost invariant = { λ a. Unit {0} };
}

impl<K: Copy> Arrivals<K> {
    /// No streams. It doesn't allocate.
    pub fn new(alloc: Global) -> Self
        ensures { result ≡ [] }
    {
        Arrivals {
            streams: Vec::new(alloc),
        }
    }

    /// The streams, in the order in which they came.
    pub fn as_slice(&self) -> &[Arrival<K>]
        ensures { result.now ≡ self.now }
    {
        &self.streams
    }

    /// How many streams haven't claimed.
    ///
    /// # Cost
    ///
    /// One pass over the streams.
    pub fn unclaimed(&self) -> usize
        ensures { result ≡ count_by is_unclaimed self.now }
    {
        self.streams
            .iter()
            .filter(|stream| stream.claim.is_none())
            .count()
    }

    /// How many streams there are. It doesn't allocate.
    pub fn len(&self) -> usize
        ensures { result ≡ length self.now }
    {
        self.streams.len()
    }

    /// Takes a stream that came from the origin at the steady time `now`, under a number above all
    /// others, if there is room for it. Returns whether there is, and the number of the stream that
    /// gives way to it, if one does: that one is no longer kept.
    ///
    /// There is no room if the origin has `by_address` streams. If all `arrivals` are taken, of the
    /// streams that came longer ago than `grace` one gives way, of an origin that has most of
    /// these: first one that hasn't claimed, and of these the oldest. If all came within `grace`,
    /// there is no room. Nothing changes then.
    ///
    /// # Errors
    ///
    /// `AllocError` if an allocation fails. Nothing changes then.
    ///
    /// # Cost
    ///
    /// Two passes over the streams. If all are taken, one for each of them.
    pub fn arrive(
        &mut self,
        number: u64,
        origin: Origin,
        pace: &Pace,
        now: Duration,
    ) -> Result<Room, AllocError>
        ensures room { IfOk result (λ room.
            room ≡ room_of pace.now (as_nanos now) self.old origin) }
        ensures taken { IfOk result (λ room. self.new
            ≡ arrived (arrival_of number origin now) room self.old) }
        ensures err { OnErr result (self.new ≡ self.old) }
    {
        let room = room_for(&self.streams, origin, pace, now);
        match room {
            Room::None => {}
            Room::Free => self.streams.push(Arrival::new(number, origin, now))?,
            Room::Of(crowded) => {
                self.streams.reserve(1)?;
                remove(&mut self.streams, crowded);
                self.streams
                    .push_reserved(Arrival::new(number, origin, now));
            }
        }
        Ok(room)
    }

    /// The stream with the number, or `None` if no stream has it.
    ///
    /// # Cost
    ///
    /// One pass over the streams, up to that one.
    pub fn get(&self, number: u64) -> Option<Arrival<K>>
        ensures { result ≡ find (has_number number) self.now }
    {
        get(&self.streams, number)
    }

    /// From now on the stream with the number, if there is one, has claimed to be the peer's.
    /// Nothing else changes. It doesn't allocate.
    ///
    /// # Cost
    ///
    /// One pass over the streams.
    pub fn claim(&mut self, number: u64, peer: K)
        ensures { self.new ≡ claimed number peer self.old }
    {
        claim(&mut self.streams, number, peer);
    }

    /// The number of the first stream that is late at the steady time `now`, if one is: one that
    /// has claimed is `handshake` after it came, another is `first` or `handshake` after it,
    /// whichever is sooner.
    ///
    /// # Cost
    ///
    /// One pass over the streams.
    pub fn late(&self, pace: &Pace, now: Duration) -> Option<u64>
        ensures { result ≡ option_map (λ a. a.number) (find (λ a. nat_le
            (deadline_of (as_nanos pace.now.first) (as_nanos pace.now.handshake) a) (as_nanos now))
            self.now) }
    {
        late(&self.streams, pace.first, pace.handshake, now)
    }

    /// The first moment, in nanoseconds, at which a stream is late, or `None` if there is no
    /// stream.
    ///
    /// # Cost
    ///
    /// One pass over the streams.
    pub fn next_late(&self, pace: &Pace) -> Option<u128>
        ensures { IsLeastDeadline (as_nanos pace.now.first) (as_nanos pace.now.handshake)
            self.now result }
    {
        next_late(&self.streams, pace.first, pace.handshake)
    }

    /// Keeps the stream with the number no longer.
    ///
    /// # Cost
    ///
    /// One pass over the streams.
    pub fn remove(&mut self, number: u64)
        ensures { self.new ≡ filter (λ a. not (has_number number a)) self.old }
    {
        remove(&mut self.streams, number);
    }
}

/// Whether there is room for a stream that comes.
#[derive(Clone, Copy, Debug, PartialEq, Eq)]
pub enum Room {
    /// There is none.
    None,
    /// There is.
    Free,
    /// There is that of the stream with the number, which gives way.
    Of(u64),
}

// The stream with the number.
fn get<K: Copy>(streams: &[Arrival<K>], number: u64) -> Option<Arrival<K>>
    ensures { result ≡ find (has_number number) streams.now }
{
    for stream in streams {
        if stream.number == number {
            return Some(*stream);
        }
    }
    None
}

// The stream with the number has claimed.
fn claim<K: Copy>(streams: &mut [Arrival<K>], number: u64, peer: K)
    ensures { streams.new ≡ claimed number peer streams.old }
{
    for stream in streams.iter_mut() {
        claim_as(stream, number, peer);
    }
}

// The stream has claimed, if it has the number.
fn claim_as<K: Copy>(stream: &mut Arrival<K>, number: u64, peer: K)
    ensures { stream.new ≡ with_claim number peer stream.old }
{
    if stream.number == number {
        stream.claim = Some(peer);
    }
}

// Keeps the stream with the number no longer.
fn remove<K: Copy>(streams: &mut Vec<Arrival<K>>, number: u64)
    ensures items { streams.new.items ≡ filter (λ a. not (has_number number a)) streams.old.items }
    ensures capacity { vec_capacity streams.new ≡ vec_capacity streams.old }
    ensures length { vec_len streams.new ≤ vec_len streams.old }
{
    streams.retain(|stream| stream.number != number);
}

// Whether there is room for a stream that comes from the origin.
fn room_for<K: Copy>(streams: &[Arrival<K>], origin: Origin, pace: &Pace, now: Duration) -> Room
    ensures { result ≡ room_of pace.now (as_nanos now) streams.now origin }
{
    if pace.by_address <= count_of(streams, origin) {
        return Room::None;
    }
    if streams.len() < pace.arrivals {
        return Room::Free;
    }
    match crowded(streams, pace.grace, now) {
        Some(number) => Room::Of(number),
        None => Room::None,
    }
}

// How many of the streams are of the origin.
fn count_of<K: Copy>(arrivals: &[Arrival<K>], origin: Origin) -> usize
    ensures { result ≡ count_by (is_of origin) arrivals.now }
{
    arrivals
        .iter()
        .filter(|arrival| arrival.origin == origin)
        .count()
}

// The number of the stream that gives way to a new one, if one does. Of those that came longer ago
// than `grace` it is one of an origin that has most of these, first one that hasn't claimed, and of
// these the oldest.
fn crowded<K: Copy>(arrivals: &[Arrival<K>], grace: Duration, now: Duration) -> Option<u64>
    ensures { result ≡ crowded_of (as_nanos grace) (as_nanos now) arrivals.now }
{
    let most = greatest(arrivals, grace, now);
    match first_of(arrivals, grace, now, most, false) {
        Some(number) => Some(number),
        None => first_of(arrivals, grace, now, most, true),
    }
}

// The first of the streams that claims too late, or is proved too late.
fn late<K: Copy>(
    arrivals: &[Arrival<K>],
    first: Duration,
    handshake: Duration,
    now: Duration,
) -> Option<u64>
    ensures { result ≡ option_map (λ a. a.number)
        (find (λ a. nat_le (deadline_of (as_nanos first) (as_nanos handshake) a) (as_nanos now))
        arrivals.now) }
{
    arrivals
        .iter()
        .find(|arrival| deadline(**arrival, first, handshake) <= now.as_nanos())
        .map(|arrival| arrival.number)
}

// The moment, in nanoseconds, at which the first of the streams is late.
fn next_late<K: Copy>(arrivals: &[Arrival<K>], first: Duration, handshake: Duration) -> Option<u128>
    ensures { IsLeastDeadline (as_nanos first) (as_nanos handshake) arrivals.now result }
{
    let mut next = None;
    for arrival in arrivals {
        next = Some(lesser(next, deadline(*arrival, first, handshake)));
    }
    next
}

// The lesser of a moment and another, if there is another.
fn lesser(other: Option<u128>, moment: u128) -> u128
    ensures { result ≡ lesser_of other moment }
{
    match other {
        Some(other) => other.min(moment),
        None => moment,
    }
}

// The moment, in nanoseconds, by which the stream has to claim, or if it has, to be proved.
fn deadline<K: Copy>(arrival: Arrival<K>, first: Duration, handshake: Duration) -> u128
    ensures { result ≡ deadline_of (as_nanos first) (as_nanos handshake) arrival }
{
    let handshake = handshake.as_nanos();
    let within = match arrival.claim {
        Some(_) => handshake,
        None => first.as_nanos().min(handshake),
    };
    arrival.came.as_nanos() + within
}

// Whether the stream came longer ago than this.
fn is_older<K: Copy>(arrival: &Arrival<K>, grace: Duration, now: Duration) -> bool
    ensures { result ≡ is_older (as_nanos grace) (as_nanos now) arrival.now }
{
    grace.as_nanos() < now.saturating_sub(arrival.came).as_nanos()
}

// How many of the streams that came longer ago than this are of the origin.
fn count_older<K: Copy>(
    arrivals: &[Arrival<K>],
    origin: Origin,
    grace: Duration,
    now: Duration,
) -> usize
    ensures { result ≡ count_older (as_nanos grace) (as_nanos now) arrivals.now origin }
{
    arrivals
        .iter()
        .filter(|arrival| is_older(arrival, grace, now) && arrival.origin == origin)
        .count()
}

// How many the origin has that has most of those that came longer ago than this.
fn greatest<K: Copy>(arrivals: &[Arrival<K>], grace: Duration, now: Duration) -> usize
    ensures { (a : _) → has_most (as_nanos grace) (as_nanos now) arrivals.now a
        ≡ nat_le result (count_older (as_nanos grace) (as_nanos now) arrivals.now a.origin) }
{
    let mut most = 0;
    for arrival in arrivals {
        if is_older(arrival, grace, now) {
            most = greater(most, count_older(arrivals, arrival.origin, grace, now));
        }
    }
    most
}

// The greater of two counts.
fn greater(one: usize, other: usize) -> usize
    ensures { result ≡ max one other }
{
    one.max(other)
}

// The first of the streams that came longer ago than this and whose origin has so many of these,
// and that hasn't claimed, or of all.
fn first_of<K: Copy>(
    arrivals: &[Arrival<K>],
    grace: Duration,
    now: Duration,
    most: usize,
    all: bool,
) -> Option<u64>
    ensures { result ≡ option_map (λ a. a.number)
        (find (gives_way (as_nanos grace) (as_nanos now) arrivals.now most all) arrivals.now) }
{
    for arrival in arrivals {
        if gives_way(arrivals, arrival, grace, now, most, all) {
            return Some(arrival.number);
        }
    }
    None
}

// Whether the stream came longer ago than this, its origin has so many of these, and it hasn't
// claimed, or that doesn't matter.
fn gives_way<K: Copy>(
    arrivals: &[Arrival<K>],
    arrival: &Arrival<K>,
    grace: Duration,
    now: Duration,
    most: usize,
    all: bool,
) -> bool
    ensures { result ≡
        gives_way (as_nanos grace) (as_nanos now) arrivals.now most all arrival.now }
{
    is_older(arrival, grace, now)
        && most <= count_older(arrivals, arrival.origin, grace, now)
        && (all || arrival.claim.is_none())
}

/// By laws of inbound streams, whatever came before:
///
/// - One that gives way came longer ago than `grace`.
/// - A stream that is refused has an origin with `by_address` streams, or all streams came within
///   `grace`: nobody is kept out by idle streams of others.
/// - There are at most `arrivals` streams, if there were before.
/// - There are at most `by_address` streams of each origin, if there were before.
pub fn streams_have_room<K: Copy>()
    ensures spared { (pace : Pace) (now : ℕ) (arrivals : List (Arrival K)) (origin : Origin)
        (n : ℕ) →
        room_of pace now arrivals origin ≡ Room.Of n → Gives (as_nanos pace.grace) now arrivals n }
    ensures let_in { (pace : Pace) (now : ℕ) (arrivals : List (Arrival K)) (origin : Origin) →
        room_of pace now arrivals origin ≡ Room.None →
        count_by (is_of origin) arrivals < pace.by_address →
        AreYoung (as_nanos pace.grace) now arrivals }
    ensures bounded { (pace : Pace) (now : ℕ) (arrivals : List (Arrival K)) (new : Arrival K) →
        length arrivals ≤ pace.arrivals →
        length (arrived new (room_of pace now arrivals new.origin) arrivals) ≤ pace.arrivals }
    ensures of_one { (pace : Pace) (now : ℕ) (arrivals : List (Arrival K)) (new : Arrival K) →
        ((origin : Origin) → count_by (is_of origin) arrivals ≤ pace.by_address) →
        (origin : Origin) → count_by (is_of origin)
        (arrived new (room_of pace now arrivals new.origin) arrivals) ≤ pace.by_address }
{}
