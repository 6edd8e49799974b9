//! The conditions on the channels of a driver's settings.

ghost use Rattle.std.specs.Prelude.{◌≡◌, ◌≤◌, ◌<◌, ◌^◌, IfSome, slice_get, length};
ghost use Rattle.std.specs.Option.{IsSomeAnd};
ghost use Rattle.std.specs.List.{list_all};
ghost use Rattle.std.specs.Duration.{as_nanos};
ghost use Rattle.p2p_driver.specs.Paces.{are_distinct, has_number, is_channel, are_channels};

use crate::pace::Channel;
use std::time::Duration;

// Whether each of the channels meets the conditions on it, and no number stands twice.
pub(crate) fn fit(channels: &[Channel], longest: usize, tick: Duration) -> bool
    ensures { result ≡ are_channels longest (as_nanos tick) channels.now }
{
    all_fit(channels, longest, tick) && distinct(channels)
}

// Whether each of the channels meets the conditions on one.
fn all_fit(channels: &[Channel], longest: usize, tick: Duration) -> bool
    ensures { result ≡ list_all (is_channel longest (as_nanos tick)) channels.now }
{
    channels.iter().all(|channel| fits(channel, longest, tick))
}

// Whether a channel meets the conditions on it.
fn fits(channel: &Channel, longest: usize, tick: Duration) -> bool
    ensures { result ≡ is_channel longest (as_nanos tick) channel.now }
{
    let refill = channel.refill.as_nanos();
    channel.longest as usize <= longest
        && 2 <= channel.burst.get()
        && 0 < refill
        && refill <= tick.as_nanos()
}

// At which position the channel with the number stands, if one does on which a message of so many
// bytes may be said.
pub(crate) fn place_for(channels: &[Channel], number: u64, size: usize) -> Option<usize>
    ensures found { IfSome result (λ place. IsSomeAnd (slice_get channels.now place)
        (λ c. (c.number ≡ number) × (size ≤ c.longest))) }
    ensures within { IfSome result (λ place. place < length channels.now) }
    ensures fits { IfSome result (λ place. size < 2 ^ 32) }
{
    let place = channels
        .iter()
        .position(|channel| channel.number == number)?;
    if size <= channels[place].longest as usize {
        Some(place)
    } else {
        None
    }
}

// Whether no number stands twice.
fn distinct(channels: &[Channel]) -> bool
    ensures { result ≡ are_distinct channels.now }
{
    let mut rest = channels;
    while let Some((channel, others)) = rest.split_first() {
        if has(others, channel.number) {
            return false;
        }
        rest = others;
    }
    true
}

// Whether one of the channels has the number.
fn has(channels: &[Channel], number: u64) -> bool
    ensures { result ≡ has_number number channels.now }
{
    channels.iter().any(|channel| channel.number == number)
}
