//! The settings of a driver, and the conditions on them.

ghost use Rattle.std.specs.Prelude.{◌≡◌, ◌*◌, not, None, find, nat_le, nat_lt};
ghost use Rattle.std.specs.Duration.{as_nanos};
ghost use Rattle.p2p_driver.specs.Paces.{meets, settings, AreMet, is_none_or_above};

use crate::channels;
use crate::rate::Rate;
use p2p_discovery::discovery::PayloadConfig;
use std::num::NonZeroU32;
use std::time::Duration;

/// A channel of the application.
#[derive(Clone, Copy, Debug, PartialEq, Eq)]
pub struct Channel {
    /// Its number, which messages name.
    pub number: u64,
    /// The length of the longest message, in bytes.
    pub longest: u32,
    /// How many messages of a link are read at once.
    pub burst: NonZeroU32,
    /// The time in which one more is.
    pub refill: Duration,
}

/// The settings of a driver: how many connections there are, and when what is due.
#[derive(Debug, Drop)]
pub struct Pace {
    /// The most inbound streams whose key isn't proved yet.
    pub arrivals: usize,
    /// The most of these of one address.
    pub by_address: usize,
    /// How long an inbound stream isn't crowded out.
    pub grace: Duration,
    /// The rate at which claims are answered.
    pub answers: Rate,
    /// The rate at which claims of one address are answered.
    pub answers_of_address: Rate,
    /// The time from the arrival of a stream to its claim.
    pub first: Duration,
    /// The time from the arrival of a stream to its proof, and from the grant of a dial to it.
    pub handshake: Duration,
    /// The most links that hold a reservation and a stream, dials included.
    pub links: usize,
    /// The most of these that are inbound.
    pub inbound: usize,
    /// The most of these that are outbound.
    pub outbound: usize,
    /// The most arrivals beyond these that are answered once, without room for them.
    pub guests: usize,
    /// The most dials under way.
    pub dials: usize,
    /// The most dials that are begun in a window.
    pub batch: usize,
    /// The length of that window.
    pub batch_window: Duration,
    /// The time from the proof of a link to the greeting of its peer.
    pub greeting: Duration,
    /// The time from one question on a link to the next.
    pub tick: Duration,
    /// The time from the last frame of a peer to the end of its link.
    pub silence: Duration,
    /// How many frames of gossip of a link are read at once.
    pub burst: NonZeroU32,
    /// The time in which one more is.
    pub refill: Duration,
    /// How many own questions on a link may wait for their replies.
    pub owed: usize,
    /// Each so many rounds of the newest set its question is a full one. 0 is never.
    pub refresh: u32,
    /// The most frames of a link that were said and aren't written.
    pub queue: usize,
    /// How long a greeted link stays before it may give way, if it ever does.
    pub life: Option<Duration>,
    /// The channels of the application.
    pub channels: Vec<Channel>,
}

/// A setting of which there is a condition, in the order in which they are looked at.
#[derive(Clone, Copy, Debug, PartialEq, Eq)]
pub enum Setting {
    /// At most `arrivals`.
    ByAddress,
    /// Above 0.
    Grace,
    /// Its refill is above 0.
    Answers,
    /// Its refill is above 0.
    AnswersOfAddress,
    /// Above 0.
    First,
    /// Above 0, and at most a quarter of the cooldown of a peer's connections.
    Handshake,
    /// One more is at most `max_peers` of the limits, and at most `peer_gossip_max_count`: a reply
    /// has infos of connected peers and the own one, so none has to be cut.
    Links,
    /// At most `links`.
    Inbound,
    /// At most `links`.
    Outbound,
    /// At most `outbound`.
    Dials,
    /// Above 0.
    Batch,
    /// Above 0.
    BatchWindow,
    /// Above 0.
    Greeting,
    /// Above 0.
    Tick,
    /// At least three ticks.
    Silence,
    /// At least 4.
    Burst,
    /// Above 0, and at most a quarter of `tick`.
    Refill,
    /// At least 1.
    Owed,
    /// At least 4.
    Queue,
    /// Above 0, if there is one.
    Life,
    /// Of each channel `longest` is at most `max_data_length` of the limits, `burst` at least 2,
    /// `refill` above 0 and at most `tick`, and no number stands twice.
    Channels,
}

/// All settings of which there is a condition, in their order.
const SETTINGS: [Setting; 21] = [
    Setting::ByAddress,
    Setting::Grace,
    Setting::Answers,
    Setting::AnswersOfAddress,
    Setting::First,
    Setting::Handshake,
    Setting::Links,
    Setting::Inbound,
    Setting::Outbound,
    Setting::Dials,
    Setting::Batch,
    Setting::BatchWindow,
    Setting::Greeting,
    Setting::Tick,
    Setting::Silence,
    Setting::Burst,
    Setting::Refill,
    Setting::Owed,
    Setting::Queue,
    Setting::Life,
    Setting::Channels,
];

/// The limits of a node that settings of a driver have to fit.
#[derive(Clone, Copy)]
pub struct Limits {
    /// The minimum time between two reservations of one peer.
    pub cooldown: Duration,
    /// Under which frames are read.
    pub payload: PayloadConfig,
    /// The maximum number of infos of a list.
    pub peer_gossip_max_count: usize,
}

impl Pace {
    /// The first setting, in the order of [`Setting`], whose condition isn't met under these limits
    /// of a node, or `None` if all are. It doesn't allocate.
    ///
    /// # Cost
    ///
    /// Quadratic in the number of channels.
    pub fn fault(&self, limits: &Limits) -> Option<Setting>
        ensures met { result ≡ None → AreMet limits.now self.now }
        ensures first { result ≡ find (λ s. not (meets limits.now self.now s)) settings }
    {
        for setting in SETTINGS {
            if !self.meets(limits, setting) {
                return Some(setting);
            }
        }
        None
    }

    /// Whether the condition of a setting is met under these limits of a node.
    fn meets(&self, limits: &Limits, setting: Setting) -> bool
        ensures { result ≡ meets limits.now self.now setting }
    {
        match setting {
            Setting::ByAddress => self.by_address <= self.arrivals,
            Setting::Grace => is_some_time(self.grace),
            Setting::Answers => is_some_time(self.answers.refill),
            Setting::AnswersOfAddress => is_some_time(self.answers_of_address.refill),
            Setting::First => is_some_time(self.first),
            Setting::Handshake => {
                is_some_time(self.handshake) && fit(4, self.handshake, limits.cooldown)
            }
            Setting::Links => {
                self.links < limits.payload.max_peers && self.links < limits.peer_gossip_max_count
            }
            Setting::Inbound => self.inbound <= self.links,
            Setting::Outbound => self.outbound <= self.links,
            Setting::Dials => self.dials <= self.outbound,
            Setting::Batch => 0 < self.batch,
            Setting::BatchWindow => is_some_time(self.batch_window),
            Setting::Greeting => is_some_time(self.greeting),
            Setting::Tick => is_some_time(self.tick),
            Setting::Silence => fit(3, self.tick, self.silence),
            Setting::Burst => 4 <= self.burst.get(),
            Setting::Refill => is_some_time(self.refill) && fit(4, self.refill, self.tick),
            Setting::Owed => 0 < self.owed,
            Setting::Queue => 4 <= self.queue,
            Setting::Life => is_none_or_some_time(self.life),
            Setting::Channels => {
                channels::fit(&self.channels, limits.payload.max_data_length, self.tick)
            }
        }
    }
}

// Whether it is above 0.
fn is_some_time(time: Duration) -> bool
    ensures { result ≡ nat_lt 0 (as_nanos time) }
{
    0 < time.as_nanos()
}

// Whether it is above 0, if there is one.
fn is_none_or_some_time(time: Option<Duration>) -> bool
    ensures { result ≡ is_none_or_above time }
{
    match time {
        Some(time) => is_some_time(time),
        None => true,
    }
}

// Whether so many of these fit another.
fn fit(count: u8, time: Duration, other: Duration) -> bool
    ensures { result ≡ nat_le (count * as_nanos time) (as_nanos other) }
{
    count as u128 * time.as_nanos() <= other.as_nanos()
}
