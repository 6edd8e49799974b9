//! Links: by peer and by number, how far each is, how its peer was heard, which frames aren't
//! written, who is late, and who is to be asked.

use bytes::Bytes;
use failing_alloc::{FailingAlloc, STEP};
use p2p_driver::links::{Asked, Direction, Links, Phase, Waiting};
use p2p_driver::pace::Pace;
use std::alloc::{AllocError, Global};
use std::process::Abort;
use std::test::Fail;
use std::time::Duration;

// Keeps a link of a peer, whose key was proved at this time, if it has none and no other link has
// the number. Returns whether it does.
fn put(links: &mut Links<u64>, peer: u64, number: u64, millis: u64) -> Result<bool, AllocError> {
    let None = links.get(&peer) else {
        return Ok(false);
    };
    let None = links.find(number) else {
        return Ok(false);
    };
    let since = Duration::from_millis(millis);
    links.put(peer, number, Direction::Inbound, since)?;
    Ok(true)
}

// What is kept of questions, if one was asked at a time in milliseconds for the set at index 7, and
// the newest set was asked for so often.
fn asked(millis: u64, rounds: u64) -> Asked {
    Asked {
        at: Duration::from_millis(millis),
        index: Some(7),
        rounds,
    }
}

// How far the link of a peer is.
fn phase(links: &Links<u64>, peer: u64) -> Option<Phase> {
    links.get(&peer).map(|held| held.phase)
}

// Whether a second link of a peer, and one with the number of another, are kept; whose the numbers
// are; which number a link has that is removed, and whose it is then; and whether it may come back.
type Numbers = (
    [bool; 4],
    [Option<u64>; 2],
    Option<u64>,
    Option<u64>,
    bool,
    usize,
);

fn numbers(alloc: Global) -> Result<Numbers, AllocError> {
    let mut links = Links::new(alloc);
    let kept = [
        put(&mut links, 70, 1, 0)?,
        put(&mut links, 50, 2, 0)?,
        put(&mut links, 70, 3, 0)?,
        put(&mut links, 60, 2, 0)?,
    ];
    let found = [links.find(1), links.find(2)];
    let removed = links.remove(&70).map(|held| held.number);
    let gone = links.find(1);
    let back = put(&mut links, 70, 1, 0)?;
    Ok((kept, found, removed, gone, back, links.len()))
}

#[test]
fn a_link_is_found_by_its_peer_and_by_its_number(rt: HostRuntime) -> Result<(), Fail> {
    let found = numbers(rt.alloc())?;
    let kept = [true, true, false, false];
    assert!(rt; found == (kept, [Some(70), Some(50)], Some(1), None, true, 2));
    Ok(())
}

// How far a link is once its peer has greeted, while that of another is not, and once it is closed,
// and its peer greets then.
fn phases(alloc: Global) -> Result<[Option<Phase>; 5], AllocError> {
    let mut links = Links::new(alloc);
    put(&mut links, 70, 1, 0)?;
    put(&mut links, 50, 2, 0)?;
    links.open(&70, Duration::from_secs(1), 1, asked(1_000, 1));
    let opened = [phase(&links, 70), phase(&links, 50), phase(&links, 60)];
    links.close(&50);
    let closed = phase(&links, 50);
    links.open(&50, Duration::from_secs(1), 1, asked(1_000, 1));
    let [first, second, none] = opened;
    Ok([first, second, none, closed, phase(&links, 50)])
}

#[test]
fn a_link_opens_and_closes(rt: HostRuntime) -> Result<(), Fail> {
    let found = phases(rt.alloc())?;
    assert!(rt;
        found
            == [
                Some(Phase::Open),
                Some(Phase::Greeting),
                None,
                Some(Phase::Closing),
                Some(Phase::Closing),
            ]
    );
    Ok(())
}

// What waits: a frame with 3 infos, of which 2 are new, which came at 1 s since the epoch.
fn waiting(alloc: Global) -> Result<Option<Waiting>, AllocError> {
    Ok(Some(Waiting {
        frame: Bytes::copy_from_slice(alloc, b"\x03")?,
        wall: Duration::from_secs(1),
        infos: 3,
        count: 2,
    }))
}

// When the peer of a link was heard last, how many questions wait for their replies, and how many
// infos the frame has that waits.
type Kept = (Duration, usize, Option<usize>);

fn kept(links: &Links<u64>, peer: u64) -> Option<Kept> {
    links.get(&peer).map(|held| {
        let waiting = held.waiting.as_ref().map(|waiting| waiting.infos);
        (held.heard, held.owed, waiting)
    })
}

// What is kept of the link of a peer whose key was proved at 8 s, and which is heard at 9 s, with 2
// questions and a frame that waits; of another; of the first once it has greeted at 10 s, with 3
// questions; once it is heard again at 11 s, and its link is closed; and once it is heard at 12 s.
fn heard(alloc: Global) -> Result<[Option<Kept>; 5], AllocError> {
    let mut links = Links::new(alloc);
    put(&mut links, 70, 1, 8_000)?;
    put(&mut links, 50, 2, 8_000)?;
    links.hear(&70, Duration::from_secs(9), 2, waiting(alloc)?);
    let first = kept(&links, 70);
    let other = kept(&links, 50);
    links.open(&70, Duration::from_secs(10), 3, asked(10_000, 1));
    let opened = kept(&links, 70);
    links.hear(&70, Duration::from_secs(11), 1, waiting(alloc)?);
    links.close(&70);
    let closed = kept(&links, 70);
    links.hear(&70, Duration::from_secs(12), 0, waiting(alloc)?);
    Ok([first, other, opened, closed, kept(&links, 70)])
}

#[test]
fn what_is_heard_is_kept_until_a_link_is_closed(rt: HostRuntime) -> Result<(), Fail> {
    let found = heard(rt.alloc())?;
    assert!(rt;
        found
            == [
                Some((Duration::from_secs(9), 2, Some(3))),
                Some((Duration::from_secs(8), 0, None)),
                Some((Duration::from_secs(10), 3, None)),
                Some((Duration::from_secs(11), 1, None)),
                Some((Duration::from_secs(12), 0, None)),
            ]
    );
    Ok(())
}

// An hour, in nanoseconds.
const HOUR: u64 = 3_600_000_000_000;

// The tested settings: peers have 5 s to greet, may be silent for 30 s, and are asked with a tick
// of so many nanoseconds; dials have 3 s to be proved.
fn pace(alloc: Global, tick: u64) -> Pace {
    let mut pace = Pace::recommended(alloc, 4, Duration::from_secs(60)).pace;
    pace.greeting = Duration::from_secs(5);
    pace.silence = Duration::from_secs(30);
    pace.tick = Duration::from_nanos(tick);
    pace.handshake = Duration::from_secs(3);
    pace
}

// Who is late at a time in milliseconds.
fn late(alloc: Global, links: &Links<u64>, millis: u64) -> Option<u64> {
    links.late(&pace(alloc, HOUR), Duration::from_millis(millis))
}

// When something is due next, in nanoseconds, with a tick of so many.
fn next_due(alloc: Global, links: &Links<u64>, tick: u64) -> Option<u128> {
    links.next_due(&pace(alloc, tick))
}

// When the next is late, in milliseconds, where nobody is asked within an hour.
fn next_late(alloc: Global, links: &Links<u64>) -> Option<u128> {
    next_due(alloc, links, HOUR).map(|nanos| nanos / 1_000_000)
}

// Who is late 4,999 ms and 5 s after the key of one of two peers was proved, which was the first;
// and when the next is: before, once the first has greeted, and once both links are closed.
type Lates = ([Option<u64>; 2], [Option<u128>; 3]);

fn lates(alloc: Global) -> Result<Lates, AllocError> {
    let mut links = Links::new(alloc);
    put(&mut links, 70, 1, 8_000)?;
    put(&mut links, 50, 2, 10_000)?;
    let found = [late(alloc, &links, 12_999), late(alloc, &links, 13_000)];
    let first = next_late(alloc, &links);
    links.open(&70, Duration::from_secs(9), 1, asked(9_000, 1));
    let second = next_late(alloc, &links);
    links.close(&50);
    links.close(&70);
    Ok((found, [first, second, next_late(alloc, &links)]))
}

#[test]
fn a_peer_that_does_not_greet_is_late(rt: HostRuntime) -> Result<(), Fail> {
    let found = lates(rt.alloc())?;
    assert!(rt; found == ([None, Some(70)], [Some(13_000), Some(15_000), None]));
    Ok(())
}

// Who is late 29,999 ms and 30 s after a peer was heard that has greeted, and when the next is:
// once it has greeted, once it was heard again, while the greeting of another waits, whose key was
// proved before, and once it waits no longer. What was said is written.
type Silents = ([Option<u64>; 2], [Option<u128>; 4]);

fn silents(alloc: Global) -> Result<Silents, AllocError> {
    let mut links = Links::new(alloc);
    put(&mut links, 70, 1, 8_000)?;
    links.write(&70);
    links.open(&70, Duration::from_secs(9), 1, asked(9_000, 1));
    let first = next_late(alloc, &links);
    links.hear(&70, Duration::from_secs(20), 0, None);
    let second = next_late(alloc, &links);
    let found = [late(alloc, &links, 49_999), late(alloc, &links, 50_000)];
    put(&mut links, 50, 2, 7_000)?;
    links.write(&50);
    links.hear(&50, Duration::from_secs(11), 0, waiting(alloc)?);
    let third = next_late(alloc, &links);
    links.hear(&50, Duration::from_secs(11), 0, None);
    Ok((found, [first, second, third, next_late(alloc, &links)]))
}

#[test]
fn a_peer_that_is_silent_is_late(rt: HostRuntime) -> Result<(), Fail> {
    let found = silents(rt.alloc())?;
    let next = [Some(39_000), Some(50_000), Some(41_000), Some(12_000)];
    assert!(rt; found == ([None, Some(70)], next));
    Ok(())
}

// Whether the link of a peer has room for another frame, if at most 0, 1, 2 or 3 aren't written.
fn rooms(links: &Links<u64>, peer: u64) -> [bool; 4] {
    [
        links.has_room(&peer, 0),
        links.has_room(&peer, 1),
        links.has_room(&peer, 2),
        links.has_room(&peer, 3),
    ]
}

// Room on the link of a peer: at first, once a second frame is said, which is on no other link,
// once one of them is written, once both are, and once one more is, which there isn't; and that of
// another link, and of a peer without one, on which nothing is said.
type Rooms = ([[bool; 4]; 5], [bool; 4], [bool; 4], [bool; 2]);

fn queues(alloc: Global) -> Result<Rooms, AllocError> {
    let mut links = Links::new(alloc);
    put(&mut links, 70, 1, 8_000)?;
    put(&mut links, 50, 2, 8_000)?;
    let first = rooms(&links, 70);
    let said = [
        links.say(&70, Duration::from_secs(9)),
        links.say(&60, Duration::from_secs(9)),
    ];
    let second = rooms(&links, 70);
    links.write(&70);
    let third = rooms(&links, 70);
    links.write(&70);
    links.write(&60);
    let fourth = rooms(&links, 70);
    links.write(&70);
    let all = [first, second, third, fourth, rooms(&links, 70)];
    Ok((all, rooms(&links, 50), rooms(&links, 60), said))
}

#[test]
fn a_queue_has_room_for_so_many_frames(rt: HostRuntime) -> Result<(), Fail> {
    let (found, other, none, said) = queues(rt.alloc())?;
    let none_unwritten = [false, true, true, true];
    let one = [false, false, true, true];
    let two = [false, false, false, true];
    assert!(rt; found == [one, two, one, none_unwritten, none_unwritten]);
    assert!(rt; other == one && none == [false, false, false, false]);
    assert!(rt; said == [true, false]);
    Ok(())
}

// Who is late 29,999 ms and 30 s after a frame was said at 8 s, if its peer was heard at 20 s, and
// another one is said at 25 s; and when the next is: then, once the first is written, once the peer
// is heard at 40 s, once both are written, and once a third is said at 45 s, and the link is
// closed.
type Unwritten = ([Option<u64>; 2], [Option<u128>; 5]);

fn unwritten(alloc: Global) -> Result<Unwritten, AllocError> {
    let mut links = Links::new(alloc);
    put(&mut links, 70, 1, 8_000)?;
    links.open(&70, Duration::from_secs(9), 1, asked(9_000, 1));
    links.hear(&70, Duration::from_secs(20), 0, None);
    links.say(&70, Duration::from_secs(25));
    let found = [late(alloc, &links, 37_999), late(alloc, &links, 38_000)];
    let first = next_late(alloc, &links);
    links.write(&70);
    let second = next_late(alloc, &links);
    links.hear(&70, Duration::from_secs(40), 0, None);
    let third = next_late(alloc, &links);
    links.write(&70);
    let fourth = next_late(alloc, &links);
    links.say(&70, Duration::from_secs(45));
    links.close(&70);
    Ok((
        found,
        [first, second, third, fourth, next_late(alloc, &links)],
    ))
}

#[test]
fn a_link_with_a_frame_that_is_not_written_is_late(rt: HostRuntime) -> Result<(), Fail> {
    let found = unwritten(rt.alloc())?;
    let next = [Some(38_000), Some(50_000), Some(55_000), Some(70_000), None];
    assert!(rt; found == ([None, Some(70)], next));
    Ok(())
}

// Whether a closing link counts frames, which its end takes along: room on it at first, once a
// frame is said, once that is written; and on the next link of its peer.
fn ends(alloc: Global) -> Result<[[bool; 4]; 4], AllocError> {
    let mut links = Links::new(alloc);
    put(&mut links, 70, 1, 8_000)?;
    links.close(&70);
    let first = rooms(&links, 70);
    links.say(&70, Duration::from_secs(9));
    let second = rooms(&links, 70);
    links.write(&70);
    let third = rooms(&links, 70);
    links.say(&70, Duration::from_secs(9));
    links.remove(&70);
    put(&mut links, 70, 3, 9_000)?;
    Ok([first, second, third, rooms(&links, 70)])
}

#[test]
fn frames_are_counted_until_a_link_ends(rt: HostRuntime) -> Result<(), Fail> {
    let found = ends(rt.alloc())?;
    let one = [false, false, true, true];
    let two = [false, false, false, true];
    assert!(rt; found == [one, two, one, one]);
    Ok(())
}

const STEPS: usize = 2_048;

// Keeps a link with more and more memory until that isn't refused. Returns how often it was, and
// whether nothing was kept until then.
fn puts(
    alloc: Global,
    memory: &mut FailingAlloc,
    links: &mut Links<u64>,
) -> Result<(usize, bool), AllocError> {
    let mut same = true;
    for step in 0..STEPS {
        memory.limit(alloc, step.saturating_mul(STEP))?;
        let kept = put(links, 70, 1, 8_000).is_ok();
        memory.lift();
        if kept {
            return Ok((step, same));
        }
        same = same && links.len() == 0 && links.find(1).is_none();
    }
    Ok((STEPS, same))
}

// .. says a frame on it.
fn says(
    alloc: Global,
    memory: &mut FailingAlloc,
    links: &mut Links<u64>,
) -> Result<(usize, bool), AllocError> {
    let before = rooms(links, 70);
    let mut same = true;
    for step in 0..STEPS {
        memory.limit(alloc, step.saturating_mul(STEP))?;
        let said = links.say(&70, Duration::from_secs(9));
        memory.lift();
        if said {
            return Ok((step, same));
        }
        same = same && rooms(links, 70) == before;
    }
    Ok((STEPS, same))
}

// What becomes of a link, and of a frame on it, with more and more memory; and room on it then.
type Famine = ([(usize, bool); 2], [bool; 4]);

fn famine(alloc: Global) -> Result<Famine, AllocError> {
    let mut memory = FailingAlloc::new(alloc)?;
    let mut links = Links::new(alloc);
    let kept = puts(alloc, &mut memory, &mut links)?;
    let said = says(alloc, &mut memory, &mut links)?;
    Ok(([kept, said], rooms(&links, 70)))
}

#[test]
fn a_link_is_kept_and_a_frame_said_if_there_is_memory(rt: HostRuntime) -> Result<(), Fail> {
    let (found, room) = famine(rt.alloc())?;
    for (refused, same) in found {
        assert!(rt; same && refused > 0 && refused < STEPS, "{refused} refused");
    }
    assert!(rt; room == [false, false, false, true]);
    Ok(())
}

// Who is to be asked at a time in nanoseconds, with a tick of so many.
fn to_ask(links: &Links<u64>, tick: u64, nanos: u64) -> Option<u64> {
    links.to_ask(Duration::from_nanos(tick), Duration::from_nanos(nanos))
}

// Who of two peers is to be asked a nanosecond before a tick after the first of them was asked, and
// then, if neither has greeted; if the first has; once it was asked; once the other has greeted,
// which was asked before; and once both links are closed. When something is due next each time.
type Due = [([Option<u64>; 2], Option<u128>); 5];

fn ticks(alloc: Global) -> Result<Due, AllocError> {
    let mut links = Links::new(alloc);
    put(&mut links, 70, 1, 0)?;
    put(&mut links, 50, 2, 0)?;
    let (tick, before, then) = (2_000_000_000u64, 3_999_999_999u64, 4_000_000_000u64);
    let asks = |links: &Links<u64>| [to_ask(links, tick, before), to_ask(links, tick, then)];
    let first = (asks(&links), next_due(alloc, &links, tick));
    links.open(&70, Duration::from_secs(9), 1, asked(2_000, 1));
    let second = (asks(&links), next_due(alloc, &links, tick));
    links.ask(&70, 2, asked(2_001, 2));
    let third = (asks(&links), next_due(alloc, &links, tick));
    links.open(&50, Duration::from_secs(9), 1, asked(1_000, 1));
    let fourth = (asks(&links), next_due(alloc, &links, tick));
    links.close(&50);
    links.close(&70);
    Ok([
        first,
        second,
        third,
        fourth,
        (asks(&links), next_due(alloc, &links, tick)),
    ])
}

#[test]
fn who_has_greeted_is_to_be_asked_a_tick_later(rt: HostRuntime) -> Result<(), Fail> {
    let [first, second, third, fourth, last] = ticks(rt.alloc())?;
    // The greeting is due 5 s after the proof.
    assert!(rt; first == ([None, None], Some(5_000_000_000)));
    assert!(rt; second == ([None, Some(70)], Some(4_000_000_000)));
    assert!(rt; third == ([None, None], Some(4_001_000_000)));
    assert!(rt; fourth == ([Some(50), Some(50)], Some(3_000_000_000)));
    assert!(rt; last == ([None, None], None));
    Ok(())
}

// Who is to be asked with a tick of 0 when it was asked, and a nanosecond later; when that is due;
// and what is kept of its link then.
type Instant = ([Option<u64>; 2], Option<u128>, Option<(usize, Asked)>);

fn instant(alloc: Global) -> Result<Instant, AllocError> {
    let mut links = Links::new(alloc);
    put(&mut links, 70, 1, 0)?;
    links.open(&70, Duration::from_secs(1), 1, asked(2_000, 1));
    links.ask(&70, 2, asked(3_000, 5));
    links.ask(&50, 9, asked(9_000, 9));
    let found = [
        to_ask(&links, 0, 3_000_000_000),
        to_ask(&links, 0, 3_000_000_001),
    ];
    let kept = links.get(&70).map(|held| (held.owed, held.asked));
    Ok((found, next_due(alloc, &links, 0), kept))
}

#[test]
fn a_peer_is_asked_once_at_a_time(rt: HostRuntime) -> Result<(), Fail> {
    let found = instant(rt.alloc())?;
    let kept = Some((2, asked(3_000, 5)));
    assert!(rt; found == ([None, Some(70)], Some(3_000_000_001), kept));
    Ok(())
}

// Who is to be asked 4 s after all were asked, with a tick of 2 s, if that is searched from these
// peers on: of three that are open, of which the last one was asked just now, and once nobody is.
fn from_each(alloc: Global) -> Result<[[Option<u64>; 5]; 2], AllocError> {
    let mut links = Links::new(alloc);
    for (number, peer) in (1u64..).zip([50u64, 60, 70]) {
        put(&mut links, peer, number, 0)?;
        links.open(&peer, Duration::from_secs(0), 1, asked(0, 1));
    }
    links.ask(&70, 1, asked(4_000, 1));
    let (tick, now) = (Duration::from_secs(2), Duration::from_secs(4));
    let search = |links: &Links<u64>| {
        [None, Some(10), Some(51), Some(60), Some(61)].map(|from| links.to_ask_from(
            from, tick, now,
        ))
    };
    let some = search(&links);
    links.ask(&50, 1, asked(4_000, 1));
    links.ask(&60, 1, asked(4_000, 1));
    Ok([some, search(&links)])
}

#[test]
fn who_is_to_be_asked_is_searched_from_a_peer_on(rt: HostRuntime) -> Result<(), Fail> {
    let [some, none] = from_each(rt.alloc())?;
    assert!(rt; some == [Some(50), Some(50), Some(60), Some(60), Some(50)]);
    assert!(rt; none == [None; 5]);
    Ok(())
}
