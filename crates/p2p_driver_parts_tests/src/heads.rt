//! What a frame is, by its head and its length. The lengths are those of docs/FORMATS.md.

use p2p_discovery::codec::TestKey;
use p2p_discovery::discovery::PayloadConfig;
use p2p_driver::heads::{Kind, kind_of};
use p2p_driver::pace::{Channel, Pace};
use std::alloc::{AllocError, Global};
use std::num::NonZeroU32;
use std::process::Abort;
use std::test::Fail;
use std::time::Duration;

fn channel(number: u64, longest: u32) -> Channel {
    Channel {
        number,
        longest,
        burst: NonZeroU32::MIN.saturating_add(1),
        refill: Duration::from_secs(1),
    }
}

// Settings with the tested channels: 7, without any bytes in a message, 300, and the greatest.
fn pace(alloc: Global) -> Result<Pace, AllocError> {
    let mut pace = Pace::recommended(alloc, 8, Duration::from_secs(60)).pace;
    pace.channels.push(channel(7, 0))?;
    pace.channels.push(channel(300, 1_000))?;
    pace.channels.push(channel(u64::MAX, 200))?;
    Ok(pace)
}

fn limits(max_bit_vec: u64, max_peers: usize) -> PayloadConfig {
    PayloadConfig {
        max_bit_vec,
        max_peers,
        max_data_length: 1_000,
    }
}

// An info has at most 261 + 10 bytes, and those of a key and a signature, here 8 each.
const INFO: usize = 287;

#[test]
fn the_first_frame_is_no_longer_than_a_greeting(rt: HostRuntime) -> Result<(), Fail> {
    let pace = pace(rt.alloc())?;
    let first = |head: &[u8], length| kind_of::<TestKey>(&pace, &limits(8, 9), false, head, length);
    assert!(rt; first(&[1, 0], 1 + INFO) == Kind::Greeting);
    assert!(rt; first(&[1, 0], 2 + INFO) == Kind::NoGreeting);
    assert!(rt; first(&[0, 7], 3) == Kind::Greeting);
    assert!(rt; first(&[0, 7], 4) == Kind::Greeting);
    assert!(rt; first(&[0, 8], usize::MAX) == Kind::NoGreeting);
    Ok(())
}

#[test]
fn gossip_is_no_longer_than_the_limits_admit(rt: HostRuntime) -> Result<(), Fail> {
    let pace = pace(rt.alloc())?;
    let next = |max_bit_vec, max_peers, length| {
        kind_of::<TestKey>(&pace, &limits(max_bit_vec, max_peers), true, &[3], length)
    };
    assert!(rt; next(8, 9, 1 + 9 * INFO + 5) == Kind::Gossip);
    assert!(rt; next(8, 9, 1 + 9 * INFO + 6) == Kind::TooLong);
    assert!(rt; next(8, 0, 1 + INFO) == Kind::Gossip);
    assert!(rt; next(8, 0, 2 + INFO) == Kind::TooLong);
    assert!(rt; next(1 << 40, 0, 1 + 10 + 6 + (1 << 37)) == Kind::Gossip);
    assert!(rt; next(1 << 40, 0, 2 + 10 + 6 + (1 << 37)) == Kind::TooLong);
    assert!(rt; next(u64::MAX, usize::MAX, usize::MAX) == Kind::Gossip);
    Ok(())
}

#[test]
fn a_message_is_no_longer_than_its_channel_says(rt: HostRuntime) -> Result<(), Fail> {
    let pace = pace(rt.alloc())?;
    let next = |head: &[u8], length| kind_of::<TestKey>(&pace, &limits(8, 9), true, head, length);
    let greatest = [0, 255, 255, 255, 255, 255, 255, 255, 255, 255, 1];
    assert!(rt; next(&[0, 7, 0], 3) == Kind::Message(0));
    assert!(rt; next(&[0, 7, 1], 4) == Kind::TooLong);
    assert!(rt; next(&[0, 0xac, 2, 232, 7, 1], 1 + 2 + 2 + 1_000) == Kind::Message(1));
    assert!(rt; next(&[0, 0xac, 2], 1 + 2 + 2 + 1_001) == Kind::TooLong);
    assert!(rt; next(&greatest, 1 + 10 + 2 + 200) == Kind::Message(2));
    assert!(rt; next(&greatest, 1 + 10 + 2 + 201) == Kind::TooLong);
    assert!(rt; next(&[0, 8], usize::MAX) == Kind::NoChannel);
    Ok(())
}

#[test]
fn what_spells_no_channel_is_gossip(rt: HostRuntime) -> Result<(), Fail> {
    let pace = pace(rt.alloc())?;
    let next = |head: &[u8]| kind_of::<TestKey>(&pace, &limits(8, 9), true, head, 1_000);
    let padded = [0, 0x87, 0];
    let above = [0, 255, 255, 255, 255, 255, 255, 255, 255, 255, 2];
    let longer = [0, 255, 255, 255, 255, 255, 255, 255, 255, 255, 128];
    assert!(rt; next(&[]) == Kind::Gossip);
    assert!(rt; next(&[0]) == Kind::Gossip);
    assert!(rt; next(&[0, 0xac]) == Kind::Gossip);
    assert!(rt; next(&padded) == Kind::Gossip);
    assert!(rt; next(&above) == Kind::Gossip);
    assert!(rt; next(&longer) == Kind::Gossip);
    assert!(rt; next(&[1, 7]) == Kind::Gossip);
    assert!(rt; next(&[2, 7]) == Kind::Gossip);
    assert!(rt; next(&[4, 7]) == Kind::Gossip);
    Ok(())
}
