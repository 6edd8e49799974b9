//! Rates: a burst at once, and one more for each refill.

use p2p_driver::rate::{Bucket, Rate};
use std::num::NonZeroU32;
use std::process::Abort;
use std::time::Duration;

// The tested rate: four at once, and one more in 10 ms.
fn rate() -> Rate {
    Rate {
        burst: NonZeroU32::MIN.saturating_add(3),
        refill: Duration::from_millis(10),
    }
}

// Takes of the tested bucket as long as there is one, and returns how many there were.
fn taken(bucket: &mut Bucket, millis: u64) -> u32 {
    for count in 0..10 {
        if !bucket.take(rate(), Duration::from_millis(millis)) {
            return count;
        }
    }
    10
}

// How many are taken at once at the start, then 9 ms, 10 ms, 30 ms and 100 ms later.
fn counts() -> [u32; 5] {
    let mut bucket = Bucket::new();
    let first = taken(&mut bucket, 1_000);
    let early = taken(&mut bucket, 1_009);
    let one = taken(&mut bucket, 1_010);
    let two = taken(&mut bucket, 1_030);
    let all = taken(&mut bucket, 1_130);
    [first, early, one, two, all]
}

#[test]
fn a_burst_is_taken_and_one_more_for_each_refill(rt: HostRuntime) {
    assert!(rt; counts() == [4, 0, 1, 2, 4]);
}

// When the next may be taken, in nanoseconds, and whether the bucket is full: of a new one, once
// one was taken at 1 s, once four were, and 40 ms later.
fn nexts() -> [(u128, bool); 4] {
    let mut bucket = Bucket::new();
    let (now, later) = (Duration::from_secs(1), Duration::from_millis(1_040));
    let new = (bucket.next(rate()), bucket.is_full(now));
    let is_taken = bucket.take(rate(), now);
    let one = (bucket.next(rate()), bucket.is_full(now) || !is_taken);
    let _more = taken(&mut bucket, 1_000);
    let four = (bucket.next(rate()), bucket.is_full(now));
    [new, one, four, (bucket.next(rate()), bucket.is_full(later))]
}

#[test]
fn the_next_may_be_taken_when_it_is_said(rt: HostRuntime) {
    let after_four = 1_010_000_000;
    assert!(rt;
        nexts()
            == [
                (0, true),
                (980_000_000, false),
                (after_four, false),
                (after_four, true)
            ]
    );
}
