//! Frames that a host writes: which of them `written` counts, and how many may wait.

use p2p_directory::record::Status;
use p2p_discovery::codec::TestKey;
use p2p_driver::actions::{Breach, Event, Why};
use p2p_driver::admission::{Admission, Heard, Misjudged};
use p2p_driver::driver::{Counts, Driver};
use p2p_driver::link::Link;
use p2p_driver::pace::Pace;
use p2p_driver_fixtures::{
    SETTINGS, Said, admit, admitted, at, claim, driven, frame, greet, ipv4, length, list, next,
    pace, prove, sends, take, take_all, tested, track, with_channels,
};
use std::alloc::{AllocError, Global};
use std::num::NonZeroU32;
use std::test::Fail;
use std::time::Duration;

// The empty list, a question, and a question whose bits fit no set.
const EMPTY: &'static [u8] = &[3, 0];

const QUESTION: &'static [u8] = &[2, 0, 2, 0];

const MALFORMED: &'static [u8] = &[2, 0, 3, 0];

const ANSWERED: Admission = Admission::Heard(Heard::Answered);

const DROPPED: Admission = Admission::Heard(Heard::Dropped);

// The recommended settings, but that at most so many frames of a link may wait to be written.
fn queued(alloc: Global, queue: usize) -> Pace {
    let mut pace = pace(alloc);
    pace.queue = queue;
    pace
}

// Whether the tested driver counts a frame of a link as written, and then one more.
fn twice(driver: &mut Driver<TestKey>, link: u64) -> [bool; 2] {
    [
        driver.written(Link(link), at(0)),
        driver.written(Link(link), at(0)),
    ]
}

const NONE: [bool; 2] = [false, false];

const ONE: [bool; 2] = [true, false];

// How many frames of link 1 the tested driver counts as written: before there is a stream, while it
// is one, once the greeting is said, and once it is taken; once the peer has greeted, once it is
// taken that the link is up, and once the question is taken; once a reply is said, and once it is
// taken; and once the link has ended.
type Life = ([[bool; 2]; 4], [[bool; 2]; 3], [[bool; 2]; 2], [bool; 2]);

fn life(alloc: Global, driver: &mut Driver<TestKey>) -> Result<Life, Fail> {
    let never = twice(driver, 1);
    track(alloc, driver, "track 0 1,2", 0)?;
    claim(driver, 1, 1, 1_000)?;
    let stream = twice(driver, 1);
    driver.proved(Link(1), TestKey(1), 0, at(1_000))?;
    let said = twice(driver, 1);
    take(driver);
    let proof = [never, stream, said, twice(driver, 1)];
    let _greeted = greet(alloc, driver, "1@1000", 2_000)?;
    let asked = twice(driver, 1);
    take(driver);
    let up = twice(driver, 1);
    take(driver);
    let greeting = [asked, up, twice(driver, 1)];
    admit(alloc, driver, QUESTION, 3_000)?;
    let answered = twice(driver, 1);
    take(driver);
    let reply = [answered, twice(driver, 1)];
    admit(alloc, driver, QUESTION, 4_000)?;
    take(driver);
    driver.ended(Link(1), at(5_000));
    Ok((proof, greeting, reply, twice(driver, 1)))
}

#[test]
fn a_frame_is_written_once_it_is_taken(rt: HostRuntime) -> Result<(), Fail> {
    let alloc = rt.alloc();
    let found = driven(alloc, SETTINGS, pace(alloc), |driver| life(alloc, driver))??;
    let (proof, greeting, reply, ended) = found;
    assert_eq!(rt; proof, [NONE, NONE, NONE, ONE]);
    assert_eq!(rt; greeting, [NONE, NONE, ONE]);
    assert_eq!(rt; (reply, ended), ([NONE, ONE], NONE));
    Ok(())
}

// Says the greeting at 1 s, a question at 2 s and a reply at 3 s on link 1 of a tested driver, and
// tells between the first two that it's up. Peer 1 says the empty list at 4 s.
fn says_three(alloc: Global, driver: &mut Driver<TestKey>) -> Result<(), Fail> {
    track(alloc, driver, "track 0 1,2", 0)?;
    prove(driver, 1, 1, 1_000)?;
    let _greeted = greet(alloc, driver, "1@1000", 2_000)?;
    admit(alloc, driver, QUESTION, 3_000)?;
    admit(alloc, driver, EMPTY, 4_000)?;
    Ok(())
}

// How often the tested driver counts a frame as written, of four times, if so many of these actions
// are taken.
fn counted(alloc: Global, driver: &mut Driver<TestKey>, taken: usize) -> Result<u32, Fail> {
    says_three(alloc, driver)?;
    take_all(driver, taken);
    let mut count = 0u32;
    for _ in 0..4u32 {
        if driver.written(Link(1), at(4_000)) {
            count = count.saturating_add(1);
        }
    }
    Ok(count)
}

#[test]
fn no_more_frames_are_written_than_are_taken(rt: HostRuntime) -> Result<(), Fail> {
    let alloc = rt.alloc();
    let cases = [
        (0usize, 0u32),
        (1usize, 1u32),
        (2usize, 1u32),
        (3usize, 2u32),
        (4usize, 3u32),
    ];
    for (taken, count) in cases {
        let found = tested(alloc, pace(alloc), |driver| {
            counted(alloc, driver, taken)
        })??;
        assert_eq!(rt; (taken, found), (taken, count));
    }
    Ok(())
}

// When the tested driver wakes once these three are taken, and once each is written.
fn wakes(alloc: Global, driver: &mut Driver<TestKey>) -> Result<[Option<Duration>; 4], Fail> {
    says_three(alloc, driver)?;
    take_all(driver, 4);
    let none = driver.next_timeout();
    driver.written(Link(1), at(4_000));
    let one = driver.next_timeout();
    driver.written(Link(1), at(4_000));
    let two = driver.next_timeout();
    driver.written(Link(1), at(4_000));
    Ok([none, one, two, driver.next_timeout()])
}

#[test]
fn frames_are_written_in_the_order_in_which_they_are_said(rt: HostRuntime) -> Result<(), Fail> {
    let alloc = rt.alloc();
    let mut pace = pace(alloc);
    // Before the next question, and before the cooldown is over.
    pace.silence = Duration::from_secs(20);
    let found = driven(alloc, SETTINGS, pace, |driver| wakes(alloc, driver))??;
    // 20 s after each was said, and at last 20 s after the peer was heard.
    let expected = [
        Some(Duration::from_secs(21)),
        Some(Duration::from_secs(22)),
        Some(Duration::from_secs(23)),
        Some(Duration::from_secs(24)),
    ];
    assert_eq!(rt; found, expected);
    Ok(())
}

// How many frames of links 1 and 2 the tested driver counts as written once the greeting of link 1
// is taken, and once that of 2 is.
fn two_links(alloc: Global, driver: &mut Driver<TestKey>) -> Result<[[bool; 2]; 4], Fail> {
    track(alloc, driver, "track 0 1,2", 0)?;
    prove(driver, 1, 1, 1_000)?;
    prove(driver, 2, 2, 1_000)?;
    take(driver);
    let first = [twice(driver, 2), twice(driver, 1)];
    take(driver);
    let [other, one] = first;
    Ok([other, one, twice(driver, 1), twice(driver, 2)])
}

#[test]
fn each_link_has_frames_of_its_own(rt: HostRuntime) -> Result<(), Fail> {
    let alloc = rt.alloc();
    let found = driven(alloc, SETTINGS, pace(alloc), |driver| {
        two_links(alloc, driver)
    })??;
    assert_eq!(rt; found, [NONE, ONE, NONE, ONE]);
    Ok(())
}

// How many of two frames of link 1, which closes at 3 s, the tested driver counts as written before
// they are taken, and then, of three times; and how many actions there are at 900 s.
type Closing = ([bool; 2], [bool; 3], usize);

fn closing(alloc: Global, driver: &mut Driver<TestKey>) -> Result<Closing, Fail> {
    track(alloc, driver, "track 0 1,2", 0)?;
    prove(driver, 1, 1, 1_000)?;
    let _greeted = greet(alloc, driver, "1@1000", 2_000)?;
    driver.part(&TestKey(1), at(3_000));
    let untaken = twice(driver, 1);
    take_all(driver, 5);
    let [first, second] = twice(driver, 1);
    let written = [first, second, driver.written(Link(1), at(0))];
    driver.timeout(&[], at(900_000))?;
    Ok((untaken, written, driver.counts().actions))
}

#[test]
fn frames_of_a_link_that_is_closing_are_written(rt: HostRuntime) -> Result<(), Fail> {
    let alloc = rt.alloc();
    let found = driven(
        alloc,
        SETTINGS,
        pace(alloc),
        |driver| closing(alloc, driver),
    )??;
    assert_eq!(rt; found, (NONE, [true, true, false], 0));
    Ok(())
}

// Whether the tested driver, whose latest time is 1 s, counts the greeting of link 1 as written at
// a time, and a frame of link 7; and when a stream is late that comes at 500 ms, once link 1 has
// ended.
fn moves(
    alloc: Global,
    driver: &mut Driver<TestKey>,
    is_taken: bool,
    millis: u64,
) -> Result<([bool; 2], Option<Duration>), Fail> {
    track(alloc, driver, "track 0 1,2", 0)?;
    prove(driver, 1, 1, 1_000)?;
    if is_taken {
        take(driver);
    }
    let written = [
        driver.written(Link(1), at(millis)),
        driver.written(Link(7), at(900_000)),
    ];
    driver.ended(Link(1), at(500));
    driver.arrived(ipv4(2), at(500))?;
    Ok((written, driver.next_timeout()))
}

#[test]
fn only_a_frame_that_is_written_moves_the_time(rt: HostRuntime) -> Result<(), Fail> {
    let alloc = rt.alloc();
    let cases = [
        (true, 10_000u64, 13u64),
        (true, 999u64, 4u64),
        (false, 900_000u64, 4u64),
    ];
    for (is_taken, millis, late) in cases {
        let found = tested(alloc, pace(alloc), |driver| {
            moves(alloc, driver, is_taken, millis)
        })??;
        let expected = ([is_taken, false], Some(Duration::from_secs(late)));
        assert_eq!(rt; found, expected);
    }
    Ok(())
}

// What is seen of the tested driver: how much there is, when it wakes, and how peer 1 stands.
type Seen = (Counts, Option<Duration>, Option<Status>);

fn seen(driver: &Driver<TestKey>) -> Seen {
    (
        driver.counts(),
        driver.next_timeout(),
        driver.node().status(&TestKey(1)),
    )
}

// Hands in a question of link 1, and doesn't ask about it before.
fn again(alloc: Global, driver: &mut Driver<TestKey>, millis: u64) -> Result<Admission, Fail> {
    let question = frame(alloc, QUESTION)?;
    Ok(driver.admit(Link(1), &question, at(millis)))
}

// What becomes of three questions of link 1 of the tested driver, with a greeting and a question
// that aren't written; of the third again, at 900 s, and whether what is seen stays the same; once
// the greeting is taken, once it is written, and once more; and of a fourth.
type Full = ([Admission; 3], (Admission, bool), [Admission; 3], Admission);

fn full(alloc: Global, driver: &mut Driver<TestKey>) -> Result<Full, Fail> {
    track(alloc, driver, "track 0 1,2", 0)?;
    prove(driver, 1, 1, 1_000)?;
    let _greeted = greet(alloc, driver, "1@1000", 2_000)?;
    let first = [
        admit(alloc, driver, QUESTION, 3_000)?,
        admit(alloc, driver, QUESTION, 3_000)?,
        admit(alloc, driver, QUESTION, 3_000)?,
    ];
    let before = seen(driver);
    let late = again(alloc, driver, 900_000)?;
    let same = seen(driver) == before;
    take(driver);
    let taken = again(alloc, driver, 3_000)?;
    driver.written(Link(1), at(3_000));
    let written = again(alloc, driver, 3_000)?;
    let more = again(alloc, driver, 3_000)?;
    let last = admit(alloc, driver, QUESTION, 3_000)?;
    Ok((first, (late, same), [taken, written, more], last))
}

#[test]
fn a_reply_beyond_the_queue_is_dropped(rt: HostRuntime) -> Result<(), Fail> {
    let alloc = rt.alloc();
    let pace = queued(alloc, 4);
    let (first, late, then, last) = driven(alloc, SETTINGS, pace, |driver| full(alloc, driver))??;
    assert_eq!(rt; first, [ANSWERED, ANSWERED, DROPPED]);
    assert_eq!(rt; late, (DROPPED, true));
    assert_eq!(rt; then, [DROPPED, ANSWERED, Admission::Unasked]);
    assert_eq!(rt; last, DROPPED);
    Ok(())
}

// When a stream is late that comes to the tested driver at 3 s, after a reply found the queue full
// at 900 s.
fn drops_late(alloc: Global, driver: &mut Driver<TestKey>) -> Result<Option<Duration>, Fail> {
    track(alloc, driver, "track 0 1,2", 0)?;
    prove(driver, 1, 1, 1_000)?;
    let _greeted = greet(alloc, driver, "1@1000", 2_000)?;
    length(driver, Link(1), QUESTION, at(3_000));
    again(alloc, driver, 900_000)?;
    driver.arrived(ipv4(2), at(3_000))?;
    Ok(driver.next_timeout())
}

#[test]
fn a_reply_that_is_dropped_moves_no_time(rt: HostRuntime) -> Result<(), Fail> {
    let alloc = rt.alloc();
    let found = driven(alloc, SETTINGS, queued(alloc, 1), |driver| {
        drops_late(alloc, driver)
    })??;
    assert_eq!(rt; found, Some(Duration::from_secs(6)));
    Ok(())
}

// How many of 40 questions of link 1 are answered at once by the tested driver, with a greeting and
// a question that aren't written.
fn answers(alloc: Global, driver: &mut Driver<TestKey>) -> Result<u32, Fail> {
    track(alloc, driver, "track 0 1,2", 0)?;
    prove(driver, 1, 1, 1_000)?;
    let _greeted = greet(alloc, driver, "1@1000", 2_000)?;
    let mut count = 0u32;
    for _ in 0..40u32 {
        if admit(alloc, driver, QUESTION, 3_000)? == ANSWERED {
            count = count.saturating_add(1);
        }
    }
    Ok(count)
}

#[test]
fn sixteen_frames_may_wait_as_recommended(rt: HostRuntime) -> Result<(), Fail> {
    let alloc = rt.alloc();
    for (queue, count) in [(None, 14u32), (Some(4usize), 2u32), (Some(5usize), 3u32)] {
        let mut pace = pace(alloc);
        pace.burst = NonZeroU32::MIN.saturating_add(99);
        if let Some(queue) = queue {
            pace.queue = queue;
        }
        let found = tested(alloc, pace, |driver| answers(alloc, driver))??;
        assert_eq!(rt; found, count);
    }
    Ok(())
}

// Has the tested driver track peers by a line, lets peer 1 in at 1 s, and has it greet at 2 s. What
// is said is written at once, so a queue of one frame has room for the question.
fn enter(alloc: Global, driver: &mut Driver<TestKey>, line: &'static str) -> Result<(), Fail> {
    track(alloc, driver, line, 0)?;
    prove(driver, 1, 1, 1_000)?;
    next(driver);
    let _greeted = greet(alloc, driver, "1@1000", 2_000)?;
    next(driver);
    next(driver);
    Ok(())
}

// What the tested driver, on whose link 1 a reply waits, which fills its queue, says to the empty
// list, a message, a list that it asked for and one that it didn't, and a question that fits no
// set; and the reply and the close that it says.
type Others = ([Admission; 2], [Admission; 2], Admission, [Said; 2]);

fn others(alloc: Global, driver: &mut Driver<TestKey>) -> Result<Others, Fail> {
    enter(alloc, driver, "track 0 1,2")?;
    admit(alloc, driver, QUESTION, 3_000)?;
    let heard = [
        admit(alloc, driver, EMPTY, 3_001)?,
        admit(alloc, driver, &[0, 3, 0], 3_002)?,
    ];
    let asked = admitted(driver, Link(1), &list(alloc, &["2@1000"])?, at(3_003));
    let _heard = driver.judged(Link(1), &[true], at(3_003));
    let lists = [asked, admit(alloc, driver, &[3, 1], 3_004)?];
    let broken = admit(alloc, driver, MALFORMED, 3_005)?;
    let said = [take(driver), take(driver)];
    Ok((heard, lists, broken, said))
}

#[test]
fn what_is_not_answered_needs_no_room(rt: HostRuntime) -> Result<(), Fail> {
    let alloc = rt.alloc();
    let mut pace = with_channels(alloc)?;
    pace.queue = 1;
    let found = driven(alloc, SETTINGS, pace, |driver| others(alloc, driver))??;
    let (heard, lists, broken, said) = found;
    let message = 3usize..3;
    let delivered = Heard::Message {
        channel: 3,
        message,
    };
    let applied = Admission::Heard(Heard::Applied(0));
    assert_eq!(rt; heard, [applied, Admission::Heard(delivered)]);
    assert_eq!(rt; lists, [Admission::Verify(1), Admission::Ignored]);
    let why = Why::Breach(Breach::Malformed);
    assert_eq!(rt; broken, Admission::Heard(Heard::Closing(why)));
    assert_eq!(rt; said, [Said::Sent(1), Said::Closed(1, why)]);
    Ok(())
}

// Whether the tested driver is told the time without an error, and what it says. Nothing of that is
// written.
fn told(driver: &mut Driver<TestKey>, millis: u64) -> (bool, Said) {
    let told = driver.timeout(&[], at(millis)).is_ok();
    (told, take(driver))
}

// What the tested driver says a millisecond before a tick has passed since it asked peer 1 at 2 s,
// and then, if its queue is full; when it wakes after the cooldown; and what it says at the two
// ticks after that, the first of them once the greeting is written.
type Ticks = ([(bool, Said); 3], Option<Duration>, [(bool, Said); 3]);

fn ticks(alloc: Global, driver: &mut Driver<TestKey>) -> Result<Ticks, Fail> {
    track(alloc, driver, "track 0 1,2", 0)?;
    prove(driver, 1, 1, 1_000)?;
    let _greeted = greet(alloc, driver, "1@1000", 2_000)?;
    admit(alloc, driver, QUESTION, 3_000)?;
    admit(alloc, driver, QUESTION, 3_000)?;
    take_all(driver, 5);
    let first = [
        told(driver, 31_999),
        told(driver, 32_000),
        told(driver, 61_000),
    ];
    let wake = driver.next_timeout();
    driver.written(Link(1), at(61_000));
    let then = [
        told(driver, 61_999),
        told(driver, 62_000),
        told(driver, 92_000),
    ];
    Ok((first, wake, then))
}

#[test]
fn a_question_beyond_the_queue_comes_a_tick_later(rt: HostRuntime) -> Result<(), Fail> {
    let alloc = rt.alloc();
    let found = driven(alloc, SETTINGS, queued(alloc, 4), |driver| {
        ticks(alloc, driver)
    })??;
    let (first, wake, then) = found;
    let none = (true, Said::Nothing);
    assert_eq!(rt; first, [none, none, none]);
    assert_eq!(rt; wake, Some(Duration::from_secs(62)));
    assert_eq!(rt; then, [none, (true, Said::Sent(1)), none]);
    Ok(())
}

// What the tested driver, which asked peer 1 for set 3, says at the tick at which a reply fills its
// queue, and whether it asks for set 7 at the next one, once that reply is written.
fn turns(alloc: Global, driver: &mut Driver<TestKey>) -> Result<((bool, Said), bool), Fail> {
    track(alloc, driver, "track 3 1", 0)?;
    enter(alloc, driver, "track 7 1,2")?;
    admit(alloc, driver, QUESTION, 3_000)?;
    take(driver);
    let full = told(driver, 32_000);
    driver.written(Link(1), at(61_000));
    driver.timeout(&[], at(62_000))?;
    Ok((full, sends(driver, &[2, 7, 2, 1])))
}

#[test]
fn a_question_beyond_the_queue_keeps_its_turn(rt: HostRuntime) -> Result<(), Fail> {
    let alloc = rt.alloc();
    let settings = "cooldown=60 max_sets=2";
    let found = driven(alloc, settings, queued(alloc, 1), |driver| {
        turns(alloc, driver)
    })??;
    assert_eq!(rt; found, ((true, Said::Nothing), true));
    Ok(())
}

// What becomes of a list after the tick at which a reply fills the queue of the tested driver, to
// which no list is owed, and of one after the next tick, once that reply is written.
fn owes(alloc: Global, driver: &mut Driver<TestKey>) -> Result<[Admission; 2], Fail> {
    enter(alloc, driver, "track 0 1,2")?;
    admitted(driver, Link(1), &list(alloc, &["2@1000"])?, at(3_000));
    let _heard = driver.judged(Link(1), &[true], at(3_000));
    admit(alloc, driver, QUESTION, 3_000)?;
    driver.timeout(&[], at(32_000))?;
    let unasked = admitted(driver, Link(1), &list(alloc, &["2@2000"])?, at(33_000));
    next(driver);
    driver.timeout(&[], at(62_000))?;
    let asked = admitted(driver, Link(1), &list(alloc, &["2@2000"])?, at(63_000));
    Ok([unasked, asked])
}

#[test]
fn no_list_is_owed_to_a_question_beyond_the_queue(rt: HostRuntime) -> Result<(), Fail> {
    let alloc = rt.alloc();
    let found = driven(alloc, SETTINGS, queued(alloc, 1), |driver| {
        owes(alloc, driver)
    })??;
    assert_eq!(rt; found, [Admission::Ignored, Admission::Verify(1)]);
    Ok(())
}

// What comes of the greeting of peer 1 at 2 s, if the own greeting fills the queue of the tested
// driver; what it says; what becomes of a list; and what it says around the tick after that, once
// its greeting is written.
type First = (
    (Admission, Result<Heard, Misjudged>),
    [Said; 3],
    Admission,
    [(bool, Said); 2],
);

fn first(alloc: Global, driver: &mut Driver<TestKey>) -> Result<First, Fail> {
    track(alloc, driver, "track 0 1,2", 0)?;
    prove(driver, 1, 1, 1_000)?;
    let greeted = greet(alloc, driver, "1@1000", 2_000)?;
    let said = [take(driver), take(driver), take(driver)];
    let unasked = admitted(driver, Link(1), &list(alloc, &["2@1000"])?, at(3_000));
    driver.written(Link(1), at(3_001));
    let ticks = [told(driver, 31_999), told(driver, 32_000)];
    Ok((greeted, said, unasked, ticks))
}

#[test]
fn a_first_question_beyond_the_queue_comes_a_tick_later(rt: HostRuntime) -> Result<(), Fail> {
    let alloc = rt.alloc();
    let found = driven(alloc, SETTINGS, queued(alloc, 1), |driver| {
        first(alloc, driver)
    })??;
    let (greeted, said, unasked, ticks) = found;
    assert_eq!(rt; greeted, (Admission::Verify(1), Ok(Heard::Greeted)));
    let up = Said::Told(Event::Up(Link(1), TestKey(1)));
    assert_eq!(rt; said, [Said::Sent(1), up, Said::Nothing]);
    assert_eq!(rt; unasked, Admission::Ignored);
    let sent = (true, Said::Sent(1));
    assert_eq!(rt; ticks, [(true, Said::Nothing), sent]);
    Ok(())
}
