//! The times that follow from a grant.

ghost use Rattle.std.specs.Prelude.{◌≡◌, ◌+◌};
ghost use Rattle.std.specs.Duration.{as_nanos};
ghost use Rattle.p2p_tracker.specs.Moments.{cap, jitter, moments_after};
ghost use Rattle.p2p_tracker.specs.Cooldowns.{cooldown_view};

use std::time::Duration;

/// The moments that follow for a record from a grant at the time `now`: from when a peer may be
/// reserved again, and from when it may be dialled again.
pub(crate) fn next_moments(
    now: Duration,
    draw: Duration,
    interval: Duration,
) -> (Duration, Duration)
    ensures { cooldown_view result ≡
        moments_after (as_nanos now) (as_nanos draw) (as_nanos interval) }
{
    let reservable = now.saturating_add(interval);
    (reservable, jittered(reservable, draw, interval))
}

// The moment for a record with the jitter added.
fn jittered(moment: Duration, draw: Duration, cooldown: Duration) -> Duration
    ensures { as_nanos result ≡ cap (as_nanos moment + jitter (as_nanos draw) (as_nanos cooldown)) }
{
    let width = (cooldown / 2).saturating_mul(2);
    if draw.as_nanos() < width.as_nanos() {
        moment.saturating_add(draw)
    } else {
        moment.saturating_add(width)
    }
}
