//! The settings that are recommended, and each condition on settings.

use p2p_discovery::discovery::PayloadConfig;
use p2p_driver::pace::{Channel, Limits, Pace, Setting};
use p2p_driver::rate::Rate;
use p2p_driver::recommended::Recommended;
use std::alloc::{AllocError, Global};
use std::num::NonZeroU32;
use std::process::Abort;
use std::test::Fail;
use std::time::Duration;

// What is tested of the settings for so many peers: links, inbound, outbound, dials, and the
// limits.
fn sizes(alloc: Global, largest_set: usize) -> [usize; 7] {
    let recommended = Pace::recommended(alloc, largest_set, Duration::from_secs(60));
    let Recommended {
        pace,
        payload,
        peer_gossip_max_count,
    } = recommended;
    [
        pace.links,
        pace.inbound,
        pace.outbound,
        pace.dials,
        payload.max_bit_vec as usize,
        payload.max_peers,
        peer_gossip_max_count,
    ]
}

#[test]
fn up_to_256_peers_each_may_have_a_link(rt: HostRuntime) {
    let alloc = rt.alloc();
    assert!(rt; sizes(alloc, 0) == [1, 1, 1, 1, 1, 2, 2]);
    assert!(rt; sizes(alloc, 5) == [8, 8, 8, 8, 8, 9, 9]);
    assert!(rt; sizes(alloc, 256) == [256, 256, 256, 16, 256, 257, 257]);
    assert!(rt; sizes(alloc, 257) == [64, 48, 48, 16, 512, 65, 65]);
    assert!(rt; sizes(alloc, usize::MAX) == [64, 48, 48, 16, 1 << 31, 65, 65]);
}

// The handshake and the life of a link, in milliseconds, of the tested settings.
fn times(alloc: Global, largest_set: usize, cooldown: u64) -> (u128, Option<u128>) {
    let pace = Pace::recommended(alloc, largest_set, Duration::from_secs(cooldown)).pace;
    let life = pace.life.map(|life| life.as_millis());
    (pace.handshake.as_millis(), life)
}

#[test]
fn a_handshake_takes_at_most_a_quarter_of_the_cooldown(rt: HostRuntime) {
    let alloc = rt.alloc();
    assert!(rt; times(alloc, 256, 60) == (5_000, None));
    assert!(rt; times(alloc, 257, 8) == (2_000, Some(300_000)));
}

// The limits that fit the tested settings.
fn limits() -> Limits {
    Limits {
        cooldown: Duration::from_secs(60),
        payload: PayloadConfig {
            max_bit_vec: 8,
            max_peers: 9,
            max_data_length: 1_000,
        },
        peer_gossip_max_count: 9,
    }
}

// What is at fault in settings for eight peers, once they are changed.
fn fault<Change: FnOnce(&mut Pace)>(alloc: Global, change: Change) -> Option<Setting>
    requires { Change.IsAlwaysCallable change }
{
    let mut pace = Pace::recommended(alloc, 8, Duration::from_secs(60)).pace;
    change(&mut pace);
    pace.fault(&limits())
}

#[test]
fn each_count_has_its_condition(rt: HostRuntime) {
    let alloc = rt.alloc();
    assert!(rt; fault(alloc, |_| {}) == None);
    assert!(rt; fault(alloc, |pace| pace.by_address = 65) == Some(Setting::ByAddress));
    assert!(rt; fault(alloc, |pace| pace.links = 9) == Some(Setting::Links));
    assert!(rt; fault(alloc, |pace| pace.inbound = 9) == Some(Setting::Inbound));
    assert!(rt; fault(alloc, |pace| pace.outbound = 9) == Some(Setting::Outbound));
    assert!(rt; fault(alloc, |pace| pace.dials = 9) == Some(Setting::Dials));
    assert!(rt; fault(alloc, |pace| pace.batch = 0) == Some(Setting::Batch));
    assert!(rt; fault(alloc, |pace| pace.burst = few(3)) == Some(Setting::Burst));
    assert!(rt; fault(alloc, |pace| pace.owed = 0) == Some(Setting::Owed));
    assert!(rt; fault(alloc, |pace| pace.queue = 3) == Some(Setting::Queue));
}

fn few(count: u32) -> NonZeroU32 {
    NonZeroU32::new(count).unwrap_or(NonZeroU32::MIN)
}

// A rate with no time.
fn timeless() -> Rate {
    Rate {
        burst: NonZeroU32::MIN,
        refill: Duration::ZERO,
    }
}

#[test]
fn each_time_has_its_condition(rt: HostRuntime) {
    let alloc = rt.alloc();
    let (none, long) = (Duration::ZERO, Duration::from_secs(16));
    assert!(rt; fault(alloc, |pace| pace.grace = none) == Some(Setting::Grace));
    assert!(rt; fault(alloc, |pace| pace.answers = timeless()) == Some(Setting::Answers));
    assert!(rt;
        fault(alloc, |pace| pace.answers_of_address = timeless()) == Some(Setting::AnswersOfAddress)
    );
    assert!(rt; fault(alloc, |pace| pace.first = none) == Some(Setting::First));
    assert!(rt; fault(alloc, |pace| pace.handshake = none) == Some(Setting::Handshake));
    assert!(rt; fault(alloc, |pace| pace.handshake = long) == Some(Setting::Handshake));
    assert!(rt; fault(alloc, |pace| pace.batch_window = none) == Some(Setting::BatchWindow));
    assert!(rt; fault(alloc, |pace| pace.greeting = none) == Some(Setting::Greeting));
    assert!(rt; fault(alloc, |pace| pace.tick = none) == Some(Setting::Tick));
    assert!(rt;
        fault(alloc, |pace| pace.silence = Duration::from_secs(89)) == Some(Setting::Silence)
    );
    assert!(rt; fault(alloc, |pace| pace.refill = none) == Some(Setting::Refill));
    assert!(rt; fault(alloc, |pace| pace.refill = Duration::from_secs(8)) == Some(Setting::Refill));
    assert!(rt; fault(alloc, |pace| pace.life = Some(none)) == Some(Setting::Life));
}

fn channel(number: u64, longest: u32, burst: u32, refill: u64) -> Channel {
    Channel {
        number,
        longest,
        burst: few(burst),
        refill: Duration::from_secs(refill),
    }
}

// What is at fault in settings for eight peers with these channels.
fn fault_with(alloc: Global, channels: &[Channel]) -> Result<Option<Setting>, AllocError> {
    let mut pace = Pace::recommended(alloc, 8, Duration::from_secs(60)).pace;
    for channel in channels {
        pace.channels.push(*channel)?;
    }
    Ok(pace.fault(&limits()))
}

#[test]
fn channels_have_their_conditions(rt: HostRuntime) -> Result<(), Fail> {
    let alloc = rt.alloc();
    let (one, other) = (channel(1, 1_000, 2, 30), channel(0, 0, 9, 1));
    assert!(rt; fault_with(alloc, &[one, other])? == None);
    for refused in [
        channel(2, 1_001, 2, 30),
        channel(2, 1_000, 1, 30),
        channel(2, 1_000, 2, 31),
        channel(2, 1_000, 2, 0),
        channel(1, 10, 5, 5),
    ] {
        assert!(rt; fault_with(alloc, &[one, other, refused])? == Some(Setting::Channels));
    }
    Ok(())
}

// The digests of settings for eight peers, and of these with a channel, worked out from the words:
// 8, 9, 1000, 9, 30, 0, 120, 0, then 0, or 1 and 7, 100, 3, 1, 500000000.
fn digests(alloc: Global) -> Result<[u64; 2], AllocError> {
    let mut pace = Pace::recommended(alloc, 8, Duration::from_secs(60)).pace;
    let none = pace.digest(&limits());
    let mut channel = channel(7, 100, 3, 0);
    channel.refill = Duration::from_millis(1_500);
    pace.channels.push(channel)?;
    Ok([none, pace.digest(&limits())])
}

#[test]
fn a_digest_is_of_what_nodes_share(rt: HostRuntime) -> Result<(), Fail> {
    assert!(rt; digests(rt.alloc())? == [12570511863230608696, 8989683541890963560]);
    Ok(())
}
