//! A number of the settings that two nodes must share.

ghost use Rattle.std.specs.Prelude.{◌≡◌, ◌∷◌, length};
ghost use Rattle.std.specs.Duration.{as_nanos};
ghost use Rattle.p2p_driver.specs.Digests.{digest_of, digest_on, mixed, shared_words};
ghost use Rattle.p2p_driver.specs.Digests.{channel_words, time_words, words_of};

use crate::pace::{Channel, Limits, Pace};
use std::time::Duration;

// An odd number: where two digests differ, and the words behind are the same, they go on to differ.
const FACTOR: u64 = 6_364_136_223_846_793_005;

impl Pace {
    /// A number of all settings that two nodes must share: the limits of their frames, the maximum
    /// number of infos of a list, the tick, the silence, and the channels in their order. Two nodes
    /// with one digest may differ all the same: it keeps no one from cheating. It doesn't allocate.
    ///
    /// # Cost
    ///
    /// One pass over the channels.
    pub fn digest(&self, limits: &Limits) -> u64
        ensures { result ≡ digest_of (shared_words limits.now self.now) }
    {
        let payload = limits.payload;
        let hash = mix(0, payload.max_bit_vec);
        let hash = mix(hash, payload.max_peers as u64);
        let hash = mix(hash, payload.max_data_length as u64);
        let hash = mix(hash, limits.peer_gossip_max_count as u64);
        let hash = mix_time(hash, self.tick);
        let hash = mix_time(hash, self.silence);
        mix_channels(hash, &self.channels)
    }
}

// The digest with one more word.
fn mix(hash: u64, word: u64) -> u64
    ensures { result ≡ mixed hash word }
{
    hash.wrapping_mul(FACTOR).wrapping_add(word)
}

// The digest with a time: its seconds, then the nanoseconds that are left.
fn mix_time(hash: u64, time: Duration) -> u64
    ensures { result ≡ digest_on hash (time_words (as_nanos time)) }
{
    let nanos = time.as_nanos();
    let hash = mix(hash, (nanos / 1_000_000_000) as u64);
    mix(hash, (nanos % 1_000_000_000) as u64)
}

// The digest with how many channels there are, and each of them.
fn mix_channels(hash: u64, channels: &[Channel]) -> u64
    ensures { result ≡ digest_on hash (length channels.now ∷ words_of channels.now) }
{
    let mut hash = mix(hash, channels.len() as u64);
    for channel in channels {
        hash = mix_channel(hash, *channel);
    }
    hash
}

// The digest with a channel.
fn mix_channel(hash: u64, channel: Channel) -> u64
    ensures { result ≡ digest_on hash (channel_words channel) }
{
    let hash = mix(hash, channel.number);
    let hash = mix(hash, channel.longest as u64);
    let hash = mix(hash, channel.burst.get() as u64);
    mix_time(hash, channel.refill)
}
