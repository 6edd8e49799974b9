//! What is read of one link: of gossip and of each channel a burst at once, and one more for each
//! refill.

ghost use Rattle.std.specs.Prelude.{◌≡◌, ◌<◌, length};

use failing_alloc::{FailingAlloc, STEP};
use p2p_driver::meters::Meters;
use p2p_driver::rate::Rate;
use std::alloc::{AllocError, Global};
use std::num::NonZeroU32;
use std::process::Abort;
use std::test::Fail;
use std::time::Duration;

// The tested rate of gossip: three at once, and one more in 10 s.
fn gossip() -> Rate {
    Rate {
        burst: NonZeroU32::MIN.saturating_add(2),
        refill: Duration::from_secs(10),
    }
}

// The tested rate of messages: two at once, and one more in a second.
fn messages() -> Rate {
    Rate {
        burst: NonZeroU32::MIN.saturating_add(1),
        refill: Duration::from_secs(1),
    }
}

// When the next frame of gossip may be read, in milliseconds, if not at so many.
fn read_gossip(meters: &mut Meters, millis: u64) -> Option<u128>
    ensures { length meters.new.channels ≡ length meters.old.channels }
{
    meters
        .take_gossip(gossip(), Duration::from_millis(millis))
        .map(|next| next.as_millis())
}

// When the next message of channel 0 or 1 may be read, in milliseconds, if not at so many.
fn read_message(meters: &mut Meters, place: usize, millis: u64) -> Option<u128>
    requires { place < length meters.old.channels }
    ensures { length meters.new.channels ≡ length meters.old.channels }
{
    meters
        .take_message(place, messages(), Duration::from_millis(millis))
        .map(|next| next.as_millis())
}

// When the next frame of gossip may be read: three times at 1 s, a fourth time, just before the one
// that is said, at it, and again.
fn gossip_read(alloc: Global) -> Result<[Option<u128>; 7], AllocError> {
    let mut meters = Meters::new(alloc, 0)?;
    Ok([
        read_gossip(&mut meters, 1_000),
        read_gossip(&mut meters, 1_000),
        read_gossip(&mut meters, 1_000),
        read_gossip(&mut meters, 1_000),
        read_gossip(&mut meters, 10_999),
        read_gossip(&mut meters, 11_000),
        read_gossip(&mut meters, 11_000),
    ])
}

#[test]
fn gossip_is_read_in_a_burst_and_once_a_refill(rt: HostRuntime) -> Result<(), Fail> {
    let read = gossip_read(rt.alloc())?;
    let (next, later) = (Some(11_000), Some(21_000));
    assert!(rt; read == [None, None, None, next, next, None, later]);
    Ok(())
}

// When the next message may be read: of channel 1 three times at 5 s, of channel 0 then, of gossip
// then, and of channel 1 at 6 s twice.
fn messages_read(alloc: Global) -> Result<[Option<u128>; 7], AllocError> {
    let mut meters = Meters::new(alloc, 2)?;
    Ok([
        read_message(&mut meters, 1, 5_000),
        read_message(&mut meters, 1, 5_000),
        read_message(&mut meters, 1, 5_000),
        read_message(&mut meters, 0, 5_000),
        read_gossip(&mut meters, 5_000),
        read_message(&mut meters, 1, 6_000),
        read_message(&mut meters, 1, 6_000),
    ])
}

#[test]
fn each_channel_has_a_rate_of_its_own(rt: HostRuntime) -> Result<(), Fail> {
    let read = messages_read(rt.alloc())?;
    let (next, later) = (Some(6_000), Some(7_000));
    assert!(rt; read == [None, None, next, None, None, None, later]);
    Ok(())
}

// When the next frame may be read once one was, if one is in the longest time there is.
fn seldom(alloc: Global) -> Result<[Option<Duration>; 2], AllocError> {
    let mut meters = Meters::new(alloc, 0)?;
    let rate = Rate {
        burst: NonZeroU32::MIN,
        refill: Duration::MAX,
    };
    Ok([
        meters.take_gossip(rate, Duration::from_secs(1)),
        meters.take_gossip(rate, Duration::from_secs(2)),
    ])
}

#[test]
fn no_time_is_above_the_greatest(rt: HostRuntime) -> Result<(), Fail> {
    let read = seldom(rt.alloc())?;
    assert!(rt; read == [None, Some(Duration::MAX)]);
    Ok(())
}

// Whether one more message of channel 0 or 1 may be read at so many milliseconds, and then one more
// at once, if three are read at once, and one more in a second.
fn may_two(meters: &Meters, place: usize, millis: u64) -> bool
    requires { place < length meters.now.channels }
{
    let rate = Rate {
        burst: NonZeroU32::MIN.saturating_add(2),
        refill: Duration::from_secs(1),
    };
    meters.may_take_two(place, rate, Duration::from_millis(millis))
}

// Whether two may be, and the next one at that rate is read at so many milliseconds.
fn read_of_three(meters: &mut Meters, place: usize, millis: u64) -> (bool, bool)
    requires { place < length meters.old.channels }
    ensures { length meters.new.channels ≡ length meters.old.channels }
{
    let two = may_two(meters, place, millis);
    let rate = Rate {
        burst: NonZeroU32::MIN.saturating_add(2),
        refill: Duration::from_secs(1),
    };
    let next = meters.take_message(place, rate, Duration::from_millis(millis));
    (two, next.is_none())
}

// Of channel 1: four times at 5 s, and of channel 0 then, whether two may be read and one is; and
// of channel 1 just before two refills, and at them.
type Twos = ([(bool, bool); 4], (bool, bool), [bool; 2]);

fn twos(alloc: Global) -> Result<Twos, AllocError> {
    let mut meters = Meters::new(alloc, 2)?;
    let of_1 = [
        read_of_three(&mut meters, 1, 5_000),
        read_of_three(&mut meters, 1, 5_000),
        read_of_three(&mut meters, 1, 5_000),
        read_of_three(&mut meters, 1, 5_000),
    ];
    let of_0 = read_of_three(&mut meters, 0, 5_000);
    let later = [may_two(&meters, 1, 6_999), may_two(&meters, 1, 7_000)];
    Ok((of_1, of_0, later))
}

#[test]
fn two_may_be_read_until_one_is_left(rt: HostRuntime) -> Result<(), Fail> {
    let (of_1, of_0, later) = twos(rt.alloc())?;
    let (both, one, none) = ((true, true), (false, true), (false, false));
    assert!(rt; of_1 == [both, both, one, none]);
    assert!(rt; of_0 == both);
    assert!(rt; later == [false, true]);
    Ok(())
}

// Whether two may be read at a rate of one at once, asked twice, and when one may be read then.
fn one_at_once(alloc: Global) -> Result<([bool; 2], Option<Duration>), AllocError> {
    let mut meters = Meters::new(alloc, 1)?;
    let rate = Rate {
        burst: NonZeroU32::MIN,
        refill: Duration::from_secs(1),
    };
    let now = Duration::from_secs(5);
    let two = [
        meters.may_take_two(0, rate, now),
        meters.may_take_two(0, rate, now),
    ];
    Ok((two, meters.take_message(0, rate, now)))
}

#[test]
fn two_are_never_read_of_a_burst_of_one(rt: HostRuntime) -> Result<(), Fail> {
    let found = one_at_once(rt.alloc())?;
    assert!(rt; found == ([false, false], None));
    Ok(())
}

#[test]
fn meters_have_as_many_channels_as_they_were_made_with(rt: HostRuntime) -> Result<(), Fail> {
    let alloc = rt.alloc();
    for channels in [0usize, 1usize, 2usize, 7usize] {
        let meters = Meters::new(alloc, channels)?;
        assert!(rt; meters.len() == channels);
    }
    Ok(())
}

const STEPS: usize = 64;

// At how many budgets there are no meters of so many channels, before there are.
fn refused(alloc: Global, memory: &mut FailingAlloc, channels: usize) -> Result<usize, AllocError> {
    for step in 0..STEPS {
        memory.limit(alloc, step.saturating_mul(STEP))?;
        let made = Meters::new(alloc, channels);
        memory.lift();
        if made.is_ok() {
            return Ok(step);
        }
    }
    Ok(STEPS)
}

#[test]
fn meters_are_made_if_memory_suffices(rt: HostRuntime) -> Result<(), Fail> {
    let alloc = rt.alloc();
    let mut memory = FailingAlloc::new(alloc)?;
    let (none, some) = (
        refused(alloc, &mut memory, 0)?,
        refused(alloc, &mut memory, 4)?,
    );
    assert!(rt; none == 0);
    assert!(rt; some > 0 && some < STEPS, "{some} refused");
    Ok(())
}
