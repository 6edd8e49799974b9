//! Settings of a driver to begin with.

ghost use Rattle.std.specs.Prelude.{◌≡◌, ◌≤◌, ◌<◌, ◌*◌, ◌/◌, ◌^◌, ℕ, min};
ghost use Rattle.std.specs.Duration.{as_nanos};
ghost use Rattle.std.specs.Int.{IsNextPowerOfTwo};
ghost use Rattle.std.specs.Int.NonZero.{non_zero_u32_get};
ghost use Rattle.p2p_driver.specs.Paces.{AreMet};
ghost use Rattle.p2p_driver.specs.Recommended.{IsRecommended, IsOfTable, limits_of};

use crate::pace::Pace;
use crate::rate::Rate;
use p2p_discovery::discovery::PayloadConfig;
use std::alloc::Global;
use std::num::NonZeroU32;
use std::time::Duration;

/// Settings of a driver, with the limits of its node that fit them.
#[derive(Drop)]
pub struct Recommended {
    /// The settings.
    pub pace: Pace,
    /// The limits under which frames are read.
    pub payload: PayloadConfig,
    /// The maximum number of infos of a list.
    pub peer_gossip_max_count: usize,
}

impl Pace {
    /// Settings for a network in which all retained sets and the bootstrappers have at most
    /// `largest_set` peers, with this minimum time between two reservations of one peer.
    ///
    /// The number of peers is rounded up to a power of two, so that nodes that count a few more or
    /// less have the same limits, and is at most 2^31. Up to 256 peers each may have a link, and no
    /// link gives way. Above that there are 64 links, 48 of each direction, and a link may give way
    /// after ten ticks. A message has at most 1 MiB, and there is no channel. The settings meet
    /// their conditions if the cooldown is at least 4 ns.
    pub fn recommended(alloc: Global, largest_set: usize, cooldown: Duration) -> Recommended
        ensures recommended { (n : ℕ) × IsNextPowerOfTwo (min largest_set (2 ^ 31)) n
            × IsRecommended n (as_nanos cooldown) result }
        ensures met { 4 ≤ as_nanos cooldown → AreMet (limits_of cooldown result) result.pace }
    {
        let peers = largest_set.min(1 << 31).next_power_of_two();
        let few = peers <= 256;
        let links = if few { peers } else { 64 };
        let life = if few {
            None
        } else {
            Some(Duration::from_secs(300))
        };
        Recommended {
            pace: of_table(
                alloc,
                links,
                if few { peers } else { 48 },
                handshake(cooldown),
                life,
            ),
            payload: PayloadConfig {
                max_bit_vec: peers as u64,
                max_peers: links + 1,
                max_data_length: 1 << 20,
            },
            peer_gossip_max_count: links + 1,
        }
    }
}

// 5 seconds, or a quarter of the cooldown if that is less.
fn handshake(cooldown: Duration) -> Duration
    ensures { as_nanos result ≡ min 5_000_000_000 (as_nanos cooldown / 4) }
{
    let quarter = cooldown.as_nanos() / 4;
    Duration::from_nanos_u128(quarter.min(5_000_000_000))
}

// The settings of the table, with so many links, of either direction, and these times.
fn of_table(
    alloc: Global,
    links: usize,
    side: usize,
    handshake: Duration,
    life: Option<Duration>,
) -> Pace
    ensures { IsOfTable links side handshake life result }
{
    Pace {
        arrivals: 64,
        by_address: 32,
        grace: Duration::from_millis(500),
        answers: rate(64, 10),
        answers_of_address: rate(16, 40),
        first: Duration::from_secs(3),
        handshake,
        links,
        inbound: side,
        outbound: side,
        guests: 8,
        dials: side.min(16),
        batch: 16,
        batch_window: Duration::from_secs(1),
        greeting: Duration::from_secs(5),
        tick: Duration::from_secs(30),
        silence: Duration::from_secs(120),
        burst: NonZeroU32::MIN.saturating_add(7),
        refill: Duration::from_millis(7_500),
        owed: 2,
        refresh: 10,
        queue: 16,
        life,
        channels: Vec::new(alloc),
    }
}

// A rate of so many at once, and one more in so many milliseconds.
fn rate(burst: u32, millis: u64) -> Rate
    requires { 0 < burst }
    ensures burst { non_zero_u32_get result.burst ≡ burst }
    ensures refill { as_nanos result.refill ≡ millis * 1_000_000 }
{
    Rate {
        burst: NonZeroU32::MIN.saturating_add(burst - 1),
        refill: Duration::from_millis(millis),
    }
}
