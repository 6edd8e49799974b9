//! Inbound streams: who is let in while none is proved, and who gives way.

use p2p_driver::arrivals::{Arrivals, Room};
use p2p_driver::origin::Origin;
use p2p_driver::pace::Pace;
use std::alloc::{AllocError, Global};
use std::process::Abort;
use std::test::Fail;
use std::time::Duration;

fn ipv4(last: u8) -> Origin {
    Origin::of([0, 0, 0, 0, 0, 0, 0, 0, 0, 0, 255, 255, 10, 0, 0, last])
}

fn translated(last: u8) -> Origin {
    Origin::of([0, 0x64, 0xff, 0x9b, 0, 0, 0, 0, 0, 0, 0, 0, 10, 0, 0, last])
}

fn ipv6(net: u8, last: u8) -> Origin {
    Origin::of([0x20, 1, 0xd, 0xb8, 0, 0, 0, net, 1, 2, 3, 4, 5, 6, 7, last])
}

#[test]
fn a_prefix_of_64_bits_counts_as_one_address(rt: HostRuntime) {
    assert!(rt; ipv6(1, 1) == ipv6(1, 2) && ipv6(1, 1) != ipv6(2, 1));
    assert!(rt; ipv4(1) == ipv4(1) && ipv4(1) != ipv4(2));
    assert!(rt; translated(1) != translated(2) && translated(1) != ipv4(1));
}

fn pace(alloc: Global) -> Pace {
    Pace::recommended(alloc, 64, Duration::from_secs(60)).pace
}

// Lets streams of an origin come at this time, so many, with these numbers, and returns how many
// there was room for.
fn come(
    arrivals: &mut Arrivals<u64>,
    pace: &Pace,
    origin: Origin,
    numbers: (u64, u64),
    millis: u64,
) -> Result<usize, AllocError> {
    let mut count = 0;
    for number in numbers.0..numbers.1 {
        let room = arrivals.arrive(number, origin, pace, Duration::from_millis(millis))?;
        if room != Room::None && count < 100 {
            count += 1;
        }
    }
    Ok(count)
}

// 80 idle streams of one address and 80 of another, of which 32 each have room. A newcomer has none
// while all came within 500 ms. Then the oldest of the first gives way, and then that of the
// second, of which more are left.
fn flooded(alloc: Global) -> Result<([usize; 2], [Room; 3]), AllocError> {
    let pace = pace(alloc);
    let mut arrivals = Arrivals::new(alloc);
    let counts = [
        come(&mut arrivals, &pace, ipv4(1), (1, 81), 0)?,
        come(&mut arrivals, &pace, ipv4(2), (101, 181), 0)?,
    ];
    let young = arrivals.arrive(201, ipv4(3), &pace, Duration::from_millis(500))?;
    let first = arrivals.arrive(202, ipv4(3), &pace, Duration::from_millis(501))?;
    let second = arrivals.arrive(203, ipv4(3), &pace, Duration::from_millis(501))?;
    Ok((counts, [young, first, second]))
}

#[test]
fn idle_streams_keep_no_newcomer_out(rt: HostRuntime) -> Result<(), Fail> {
    let (counts, rooms) = flooded(rt.alloc())?;
    assert!(rt; counts == [32, 32]);
    assert!(rt; rooms == [Room::None, Room::Of(1), Room::Of(101)]);
    Ok(())
}

// Who is late 2,999 ms and 3 s after the first of two streams came, which came a second apart; when
// the first is, in milliseconds; and once it is gone, who is late 4 s after it came, and when.
type Lates = ([Option<u64>; 2], Option<u128>, Option<u64>, Option<u128>);

fn lates(alloc: Global) -> Result<Lates, AllocError> {
    let pace = pace(alloc);
    let mut arrivals = Arrivals::<u64>::new(alloc);
    arrivals.arrive(1, ipv4(1), &pace, Duration::from_secs(10))?;
    arrivals.arrive(2, ipv6(1, 1), &pace, Duration::from_secs(11))?;
    let late = [
        arrivals.late(&pace, Duration::from_millis(12_999)),
        arrivals.late(&pace, Duration::from_secs(13)),
    ];
    let next = arrivals.next_late(&pace).map(|nanos| nanos / 1_000_000);
    arrivals.remove(1);
    let second = arrivals.late(&pace, Duration::from_secs(14));
    let is_second = arrivals.as_slice().len() == 1;
    let last = arrivals.next_late(&pace).filter(|_| is_second);
    Ok((late, next, second, last.map(|nanos| nanos / 1_000_000)))
}

#[test]
fn a_stream_that_does_not_claim_is_late(rt: HostRuntime) -> Result<(), Fail> {
    let found = lates(rt.alloc())?;
    assert!(rt; found == ([None, Some(1)], Some(13_000), Some(2), Some(14_000)));
    Ok(())
}

// Of two streams that came a second apart the first claims to be peer 7's. Who is late 3, 4 and 5 s
// after it came; what is kept that each claims; and whether a third stream isn't found, of which a
// claim changes nothing.
type Claims = ([Option<u64>; 3], [Option<u64>; 2], bool);

fn claims(alloc: Global) -> Result<Claims, AllocError> {
    let pace = pace(alloc);
    let mut arrivals = Arrivals::<u64>::new(alloc);
    arrivals.arrive(1, ipv4(1), &pace, Duration::from_secs(10))?;
    arrivals.arrive(2, ipv6(1, 1), &pace, Duration::from_secs(11))?;
    arrivals.claim(1, 7);
    arrivals.claim(3, 8);
    let late = [
        arrivals.late(&pace, Duration::from_secs(13)),
        arrivals.late(&pace, Duration::from_secs(14)),
        arrivals.late(&pace, Duration::from_secs(15)),
    ];
    let kept = [
        arrivals.get(1).and_then(|arrival| arrival.claim),
        arrivals.get(2).and_then(|arrival| arrival.claim),
    ];
    Ok((late, kept, arrivals.get(3).is_none()))
}

#[test]
fn a_stream_that_claims_has_longer(rt: HostRuntime) -> Result<(), Fail> {
    let found = claims(rt.alloc())?;
    assert!(rt; found == ([None, Some(2), Some(1)], [Some(7), None], true));
    Ok(())
}
