//! Links of dials: how many there are of each direction, when they are proved, when they are late,
//! and what is said on them.

use failing_alloc::{FailingAlloc, STEP};
use p2p_driver::links::{Asked, Direction, Links, Phase};
use p2p_driver::pace::Pace;
use std::alloc::{AllocError, Global};
use std::process::Abort;
use std::test::Fail;
use std::time::Duration;

// Keeps a link of a peer, whose dial began at this time, if it has none and no other link has the
// number. Returns whether it does.
fn dial(links: &mut Links<u64>, peer: u64, number: u64, millis: u64) -> Result<bool, AllocError> {
    let None = links.get(&peer) else {
        return Ok(false);
    };
    let None = links.find(number) else {
        return Ok(false);
    };
    links.dial(peer, number, Duration::from_millis(millis))?;
    Ok(true)
}

// .. of a stream that came in, and was proved at this time.
fn put(links: &mut Links<u64>, peer: u64, number: u64, millis: u64) -> Result<bool, AllocError> {
    let None = links.get(&peer) else {
        return Ok(false);
    };
    let None = links.find(number) else {
        return Ok(false);
    };
    let since = Duration::from_millis(millis);
    links.put(peer, number, Direction::Inbound, since)?;
    Ok(true)
}

// What is kept of the link of a peer: its direction, how far it is, since when, when its peer was
// heard last, and how many frames aren't written.
type Kept = Option<(Direction, Phase, Duration, Duration, usize)>;

fn kept(links: &Links<u64>, peer: u64) -> Kept {
    links.get(&peer).map(|held| {
        let unwritten = held.unwritten.len();
        (
            held.direction,
            held.phase,
            held.since,
            held.heard,
            unwritten,
        )
    })
}

// So many frames aren't written of a link of this direction, on which nobody has greeted, since so
// many seconds.
fn greeting(direction: Direction, seconds: u64, unwritten: usize) -> Kept {
    let since = Duration::from_secs(seconds);
    Some((direction, Phase::Greeting, since, since, unwritten))
}

// What is kept of a dial of 8 s: at first, once it is proved at 9 s, and of another; whether a peer
// without a link is proved; and what is kept of the first once it is closed, and is removed.
type Lives = ([Kept; 4], [bool; 2], Kept);

fn lives(alloc: Global) -> Result<Lives, AllocError> {
    let mut links = Links::new(alloc);
    dial(&mut links, 70, 1, 8_000)?;
    dial(&mut links, 50, 2, 8_000)?;
    let first = kept(&links, 70);
    let now = Duration::from_secs(9);
    let reached = [links.reach(&70, now), links.reach(&60, now)];
    let all = [first, kept(&links, 70), kept(&links, 50), kept(&links, 60)];
    links.close(&70);
    let closed = kept(&links, 70);
    Ok((all, reached, closed))
}

#[test]
fn a_dial_is_outbound_once_it_is_proved(rt: HostRuntime) -> Result<(), Fail> {
    let (all, reached, closed) = lives(rt.alloc())?;
    let dialing = greeting(Direction::Dialing, 8, 0);
    let outbound = greeting(Direction::Outbound, 9, 1);
    assert!(rt; all == [dialing, outbound, dialing, None]);
    assert!(rt; reached == [true, false]);
    let since = Duration::from_secs(9);
    assert!(rt; closed == Some((Direction::Outbound, Phase::Closing, since, since, 1)));
    Ok(())
}

// How many links are inbound, are dials under way, and are outbound.
fn counts(links: &Links<u64>) -> [usize; 3] {
    [
        links.count_of(Direction::Inbound),
        links.count_of(Direction::Dialing),
        links.count_of(Direction::Outbound),
    ]
}

// At first; with a link that came in, and two dials; once one of these is proved; once it has
// greeted, and the other is closed; and once all are removed in turn. Whether a second link of a
// dialled peer is kept, and one with its number.
type Counts = ([[usize; 3]; 7], [bool; 2]);

fn counted(alloc: Global) -> Result<Counts, AllocError> {
    let mut links = Links::new(alloc);
    let none = counts(&links);
    put(&mut links, 50, 1, 0)?;
    dial(&mut links, 60, 2, 0)?;
    dial(&mut links, 70, 3, 0)?;
    let three = counts(&links);
    let more = [dial(&mut links, 70, 4, 0)?, put(&mut links, 80, 3, 0)?];
    links.reach(&70, Duration::from_secs(1));
    let reached = counts(&links);
    let asked = Asked {
        at: Duration::from_secs(2),
        index: None,
        rounds: 0,
    };
    links.open(&70, Duration::from_secs(2), 1, asked);
    links.close(&60);
    let closed = counts(&links);
    links.remove(&60);
    let second = counts(&links);
    links.remove(&70);
    let third = counts(&links);
    links.remove(&50);
    let all = [none, three, reached, closed, second, third, counts(&links)];
    Ok((all, more))
}

#[test]
fn links_are_counted_by_direction(rt: HostRuntime) -> Result<(), Fail> {
    let (found, more) = counted(rt.alloc())?;
    assert!(rt;
        found
            == [
                [0, 0, 0],
                [1, 2, 0],
                [1, 1, 1],
                [1, 1, 1],
                [1, 0, 1],
                [1, 0, 0],
                [0, 0, 0],
            ]
    );
    assert!(rt; more == [false, false]);
    Ok(())
}

// Settings by which dials have so many nanoseconds to be proved, and their peers then 5 s to greet.
fn pace(alloc: Global, handshake: u64) -> Pace {
    let mut pace = Pace::recommended(alloc, 4, Duration::from_secs(60)).pace;
    pace.handshake = Duration::from_nanos(handshake);
    pace.greeting = Duration::from_secs(5);
    pace
}

// Who of two peers, of which the second was dialled at 8 s and the first at 9 s, is late, and when
// somebody is next: 2,999,999,999 ns and 3 s after the second was; once that is proved at 10 s; and
// once the first is closed, 4,999,999,999 ns and 5 s after that.
type Lates = ([Option<u64>; 4], [Option<u128>; 3]);

fn lates(alloc: Global) -> Result<Lates, AllocError> {
    let mut links = Links::new(alloc);
    let pace = pace(alloc, 3_000_000_000);
    dial(&mut links, 70, 1, 8_000)?;
    dial(&mut links, 50, 2, 9_000)?;
    let early = links.late(&pace, Duration::from_nanos(10_999_999_999));
    let late = links.late(&pace, Duration::from_secs(11));
    let first = links.next_due(&pace);
    links.reach(&70, Duration::from_secs(10));
    let second = links.next_due(&pace);
    links.close(&50);
    let found = [
        early,
        late,
        links.late(&pace, Duration::from_nanos(14_999_999_999)),
        links.late(&pace, Duration::from_secs(15)),
    ];
    Ok((found, [first, second, links.next_due(&pace)]))
}

#[test]
fn a_dial_is_late_until_it_is_proved(rt: HostRuntime) -> Result<(), Fail> {
    let (found, due) = lates(rt.alloc())?;
    assert!(rt; found == [None, Some(70), None, Some(70)]);
    let nanos = [
        Some(11_000_000_000),
        Some(12_000_000_000),
        Some(15_000_000_000),
    ];
    assert!(rt; due == nanos);
    Ok(())
}

// Who is late when a dial began, if it has no time to be proved, and a nanosecond later; and when
// that is due.
fn instant(alloc: Global) -> Result<([Option<u64>; 2], Option<u128>), AllocError> {
    let mut links = Links::new(alloc);
    let pace = pace(alloc, 0);
    dial(&mut links, 70, 1, 8_000)?;
    let found = [
        links.late(&pace, Duration::from_nanos(8_000_000_000)),
        links.late(&pace, Duration::from_nanos(8_000_000_001)),
    ];
    Ok((found, links.next_due(&pace)))
}

#[test]
fn a_dial_has_a_nanosecond_at_least(rt: HostRuntime) -> Result<(), Fail> {
    let found = instant(rt.alloc())?;
    assert!(rt; found == ([None, Some(70)], Some(8_000_000_001)));
    Ok(())
}

const STEPS: usize = 2_048;

// Keeps a dial with more and more memory until that isn't refused. Returns how often it was, and
// whether nothing was kept until then.
fn dials(
    alloc: Global,
    memory: &mut FailingAlloc,
    links: &mut Links<u64>,
) -> Result<(usize, bool), AllocError> {
    let mut same = true;
    for step in 0..STEPS {
        memory.limit(alloc, step.saturating_mul(STEP))?;
        let kept = dial(links, 70, 1, 8_000).is_ok();
        memory.lift();
        if kept {
            return Ok((step, same));
        }
        same = same && links.len() == 0 && links.find(1).is_none();
    }
    Ok((STEPS, same))
}

// .. has it proved.
fn reaches(
    alloc: Global,
    memory: &mut FailingAlloc,
    links: &mut Links<u64>,
) -> Result<(usize, bool), AllocError> {
    let before = kept(links, 70);
    let mut same = true;
    for step in 0..STEPS {
        memory.limit(alloc, step.saturating_mul(STEP))?;
        let reached = links.reach(&70, Duration::from_secs(9));
        memory.lift();
        if reached {
            return Ok((step, same));
        }
        same = same && kept(links, 70) == before;
    }
    Ok((STEPS, same))
}

// What becomes of a dial, and of its proof, with more and more memory; and what is kept then.
type Famine = ([(usize, bool); 2], Kept);

fn famine(alloc: Global) -> Result<Famine, AllocError> {
    let mut memory = FailingAlloc::new(alloc)?;
    let mut links = Links::new(alloc);
    let dialed = dials(alloc, &mut memory, &mut links)?;
    let reached = reaches(alloc, &mut memory, &mut links)?;
    Ok(([dialed, reached], kept(&links, 70)))
}

#[test]
fn a_dial_is_kept_and_proved_if_there_is_memory(rt: HostRuntime) -> Result<(), Fail> {
    let (found, last) = famine(rt.alloc())?;
    for (refused, same) in found {
        assert!(rt; same && refused > 0 && refused < STEPS, "{refused} refused");
    }
    assert!(rt; last == greeting(Direction::Outbound, 9, 1));
    Ok(())
}
