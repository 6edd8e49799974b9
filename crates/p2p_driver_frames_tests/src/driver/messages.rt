//! Messages that the application says: when their header is returned, which bytes it has, and what
//! counts them.

use p2p_directory::record::Status;
use p2p_discovery::codec::TestKey;
use p2p_driver::actions::{Event, Why};
use p2p_driver::admission::{Admission, Heard, Read};
use p2p_driver::driver::{Counts, Driver};
use p2p_driver::link::{Link, Now};
use p2p_driver::pace::Pace;
use p2p_driver_fixtures::{
    SETTINGS, Said, admit, admitted, at, channel, driven, greet, greeting, ipv4, next, open, pace,
    prove, reads, take, take_all, tested, track,
};
use std::alloc::{AllocError, Global};
use std::test::Fail;
use std::time::Duration;

// A message on channel 7, as it is read, and the empty list.
const ON_7: &'static [u8] = &[0, 7, 0];

const EMPTY: &'static [u8] = &[3, 0];

// The recommended settings with three channels: 7, of at most 200 bytes, three at once, and one
// more in 2 s; 300, of at most 300 bytes, two at once, and one more in a second; and 8, of at most
// 9 bytes, 20 at once, and one more in a second.
fn speaking(alloc: Global) -> Result<Pace, AllocError> {
    let mut pace = pace(alloc);
    pace.channels.push(channel(7, 200, 3, 2))?;
    pace.channels.push(channel(300, 300, 2, 1))?;
    pace.channels.push(channel(8, 9, 20, 1))?;
    Ok(pace)
}

// Those settings, but that at most so many frames of a link may wait to be written.
fn queued(alloc: Global, queue: usize) -> Result<Pace, AllocError> {
    let mut pace = speaking(alloc)?;
    pace.queue = queue;
    Ok(pace)
}

// The times of a tested call: a steady one of so many nanoseconds after 3 s.
fn after(nanos: u64) -> Now {
    Now {
        steady: Duration::from_nanos(3_000_000_000u64.saturating_add(nanos)),
        wall: Duration::from_secs(900),
    }
}

// On which link the tested driver says a message of so many bytes to a peer, if it does.
fn says_to(
    driver: &mut Driver<TestKey>,
    peer: u64,
    channel: u64,
    size: usize,
    now: Now,
) -> Option<u64> {
    match driver.say(&TestKey(peer), channel, size, now) {
        Some((link, _data)) => Some(link.0),
        None => None,
    }
}

// Whether the tested driver says a message of so many bytes to peer 1, on link 1.
fn says(driver: &mut Driver<TestKey>, channel: u64, size: usize, now: Now) -> bool {
    says_to(driver, 1, channel, size, now) == Some(1)
}

// How many empty messages on a channel the tested driver says to peer 1 at once, at most 40.
fn count(driver: &mut Driver<TestKey>, channel: u64, now: Now) -> u32 {
    let mut count = 0u32;
    for _ in 0..40u32 {
        if !says(driver, channel, 0, now) {
            return count;
        }
        count = count.saturating_add(1);
    }
    count
}

// Whether the tested driver says a message to peer 1 on link 1, with this header alone.
fn has_header(driver: &mut Driver<TestKey>, channel: u64, size: usize, header: &[u8]) -> bool {
    let Some((link, data)) = driver.say(&TestKey(1), channel, size, at(3_000)) else {
        return false;
    };
    let Some(first) = data.payload.front() else {
        return false;
    };
    link == Link(1)
        && data.channel == channel
        && data.payload.len() == 1
        && first.as_slice() == header
}

// Whether a message is said with its header: on channel 7, of 65 bytes, and of 200, a number of two
// bytes; on channel 8, of none, and of 9; and of 300 on channel 300, both of two bytes.
type Headers = ([bool; 2], [bool; 2], bool);

fn headers(alloc: Global, driver: &mut Driver<TestKey>) -> Result<Headers, Fail> {
    open(alloc, driver, "track 0 1,2")?;
    Ok((
        [
            has_header(driver, 7, 65, &[0, 7, 65]),
            has_header(driver, 7, 200, &[0, 7, 200, 1]),
        ],
        [
            has_header(driver, 8, 0, &[0, 8, 0]),
            has_header(driver, 8, 9, &[0, 8, 9]),
        ],
        has_header(driver, 300, 300, &[0, 172, 2, 172, 2]),
    ))
}

#[test]
fn the_header_has_the_prefix_the_channel_and_the_size(rt: HostRuntime) -> Result<(), Fail> {
    let alloc = rt.alloc();
    let pace = speaking(alloc)?;
    let found = driven(alloc, SETTINGS, pace, |driver| headers(alloc, driver))??;
    assert_eq!(rt; found, ([true, true], [true, true], true));
    Ok(())
}

// On which link a message is said to peer 1: before there is a stream; once the own greeting is
// said, and once it is taken and written; once the peer has greeted, once it is taken that the link
// is up, and once the question is taken, which isn't written.
type Begins = ([Option<u64>; 3], [Option<u64>; 3]);

fn begins(alloc: Global, driver: &mut Driver<TestKey>) -> Result<Begins, Fail> {
    track(alloc, driver, "track 0 1,2", 0)?;
    let never = says_to(driver, 1, 7, 5, at(1_000));
    prove(driver, 1, 1, 1_000)?;
    let said = says_to(driver, 1, 7, 5, at(1_000));
    next(driver);
    let proof = [never, said, says_to(driver, 1, 7, 5, at(1_000))];
    let _greeted = greet(alloc, driver, "1@1000", 2_000)?;
    let asked = says_to(driver, 1, 7, 5, at(2_000));
    take(driver);
    let up = says_to(driver, 1, 7, 5, at(2_000));
    take(driver);
    Ok((proof, [asked, up, says_to(driver, 1, 7, 5, at(2_000))]))
}

#[test]
fn a_message_is_said_once_all_actions_of_the_link_are_taken(rt: HostRuntime) -> Result<(), Fail> {
    let alloc = rt.alloc();
    let pace = speaking(alloc)?;
    let found = driven(alloc, SETTINGS, pace, |driver| begins(alloc, driver))??;
    assert_eq!(rt; found, ([None, None, None], [None, None, Some(1)]));
    Ok(())
}

// On which link a message is said to peers 2 and 1 of the tested driver, while the own greeting of
// link 2 waits to be taken; to peer 2, once it is taken; and to peer 3, which has no link.
fn two_links(alloc: Global, driver: &mut Driver<TestKey>) -> Result<[Option<u64>; 4], Fail> {
    open(alloc, driver, "track 0 1,2")?;
    prove(driver, 2, 2, 3_000)?;
    let waits = says_to(driver, 2, 7, 5, at(3_000));
    let other = says_to(driver, 1, 7, 5, at(3_000));
    next(driver);
    let taken = says_to(driver, 2, 7, 5, at(3_000));
    Ok([waits, other, taken, says_to(driver, 3, 7, 5, at(3_000))])
}

#[test]
fn actions_of_another_link_may_wait(rt: HostRuntime) -> Result<(), Fail> {
    let alloc = rt.alloc();
    let pace = speaking(alloc)?;
    let found = driven(alloc, SETTINGS, pace, |driver| two_links(alloc, driver))??;
    assert_eq!(rt; found, [None, Some(1), None, None]);
    Ok(())
}

// Whether a message is said on a channel that isn't in the settings; and one of a byte more than
// the longest, of far more, of the longest, and of none.
fn sizes(alloc: Global, driver: &mut Driver<TestKey>) -> Result<(bool, [bool; 4]), Fail> {
    open(alloc, driver, "track 0 1,2")?;
    let unknown = says(driver, 9, 0, at(3_000));
    let known = [
        says(driver, 7, 201, at(3_000)),
        says(driver, 7, 4_294_967_296, at(3_000)),
        says(driver, 7, 200, at(3_000)),
        says(driver, 7, 0, at(3_000)),
    ];
    Ok((unknown, known))
}

#[test]
fn a_message_is_at_most_as_long_as_the_longest_of_its_channel(rt: HostRuntime) -> Result<(), Fail> {
    let alloc = rt.alloc();
    let pace = speaking(alloc)?;
    let found = driven(alloc, SETTINGS, pace, |driver| sizes(alloc, driver))??;
    assert_eq!(rt; found, (false, [false, false, true, true]));
    Ok(())
}

// How many messages are said on channel 7 at once at 3 s; a nanosecond before one refill, and at
// it; and a nanosecond before two refills after that, and at them.
fn bursts(alloc: Global, driver: &mut Driver<TestKey>) -> Result<[u32; 5], Fail> {
    open(alloc, driver, "track 0 1,2")?;
    Ok([
        count(driver, 7, after(0)),
        count(driver, 7, after(1_999_999_999)),
        count(driver, 7, after(2_000_000_000)),
        count(driver, 7, after(5_999_999_999)),
        count(driver, 7, after(6_000_000_000)),
    ])
}

#[test]
fn one_message_less_than_a_burst_is_said_at_once(rt: HostRuntime) -> Result<(), Fail> {
    let alloc = rt.alloc();
    let pace = speaking(alloc)?;
    let found = driven(alloc, SETTINGS, pace, |driver| bursts(alloc, driver))??;
    // Two at once of a burst of three, and then one more each 2 s.
    assert_eq!(rt; found, [2, 0, 1, 1, 1]);
    Ok(())
}

// How many messages are said at once on channel 7, on channel 300 then, and on channel 7 again.
fn apart(alloc: Global, driver: &mut Driver<TestKey>) -> Result<[u32; 3], Fail> {
    open(alloc, driver, "track 0 1,2")?;
    Ok([
        count(driver, 7, after(0)),
        count(driver, 300, after(0)),
        count(driver, 7, after(0)),
    ])
}

#[test]
fn each_channel_has_a_rate_of_its_own(rt: HostRuntime) -> Result<(), Fail> {
    let alloc = rt.alloc();
    let pace = speaking(alloc)?;
    let found = driven(alloc, SETTINGS, pace, |driver| apart(alloc, driver))??;
    assert_eq!(rt; found, [2, 1, 0]);
    Ok(())
}

// On which link a message is said to peer 2, which has greeted, once two are said to peer 1; to
// peer 1; and to peer 2 twice.
fn each_link(alloc: Global, driver: &mut Driver<TestKey>) -> Result<[Option<u64>; 4], Fail> {
    open(alloc, driver, "track 0 1,2")?;
    prove(driver, 2, 2, 2_000)?;
    admitted(driver, Link(2), &greeting(alloc, "2@1000")?, at(2_000));
    let _heard = driver.judged(Link(2), &[true], at(2_000));
    take_all(driver, 3);
    count(driver, 7, at(3_000));
    Ok([
        says_to(driver, 2, 7, 5, at(3_000)),
        says_to(driver, 1, 7, 5, at(3_000)),
        says_to(driver, 2, 7, 5, at(3_000)),
        says_to(driver, 2, 7, 5, at(3_000)),
    ])
}

#[test]
fn each_link_has_rates_of_its_own(rt: HostRuntime) -> Result<(), Fail> {
    let alloc = rt.alloc();
    let pace = speaking(alloc)?;
    let found = driven(alloc, SETTINGS, pace, |driver| each_link(alloc, driver))??;
    assert_eq!(rt; found, [Some(2), None, Some(2), None]);
    Ok(())
}

// How many messages on channel 7 the tested driver reads at once, says then, and reads then; and,
// a refill later, says, and reads then.
type Ways = ((u32, Read), u32, (u32, Read), u32, (u32, Read));

fn ways(alloc: Global, driver: &mut Driver<TestKey>) -> Result<Ways, Fail> {
    open(alloc, driver, "track 0 1,2")?;
    let read = reads(driver, Link(1), ON_7, after(0));
    let said = count(driver, 7, after(0));
    let more = reads(driver, Link(1), ON_7, after(0));
    let later = count(driver, 7, after(2_000_000_000));
    let last = reads(driver, Link(1), ON_7, after(2_000_000_000));
    Ok((read, said, more, later, last))
}

#[test]
fn messages_that_were_read_do_not_count_for_those_that_are_said(
    rt: HostRuntime,
) -> Result<(), Fail> {
    let alloc = rt.alloc();
    let pace = speaking(alloc)?;
    let found = driven(alloc, SETTINGS, pace, |driver| ways(alloc, driver))??;
    let (read, said, more, later, last) = found;
    let (five, seven) = (Duration::from_secs(5), Duration::from_secs(7));
    assert_eq!(rt; (read, said), ((3, Read::After(five)), 2));
    assert_eq!(rt; more, (0, Read::After(five)));
    assert_eq!(rt; (later, last), (1, (1, Read::After(seven))));
    Ok(())
}

// How many messages are said on channel 8 at once, if at most four frames may wait; whether one is
// written then; how many more are said; whether five are written then; and how many more are said.
type Rooms = (u32, bool, u32, [bool; 5], u32);

fn rooms(alloc: Global, driver: &mut Driver<TestKey>) -> Result<Rooms, Fail> {
    open(alloc, driver, "track 0 1,2")?;
    let full = count(driver, 8, at(3_000));
    let written = driver.written(Link(1), at(3_000));
    let one = count(driver, 8, at(3_000));
    let all = [
        driver.written(Link(1), at(3_000)),
        driver.written(Link(1), at(3_000)),
        driver.written(Link(1), at(3_000)),
        driver.written(Link(1), at(3_000)),
        driver.written(Link(1), at(3_000)),
    ];
    Ok((full, written, one, all, count(driver, 8, at(3_000))))
}

#[test]
fn the_queue_has_messages_that_are_not_written(rt: HostRuntime) -> Result<(), Fail> {
    let alloc = rt.alloc();
    let pace = queued(alloc, 4)?;
    let found = driven(alloc, SETTINGS, pace, |driver| rooms(alloc, driver))??;
    let (full, written, one, all, more) = found;
    assert_eq!(rt; (full, written, one), (4, true, 1));
    assert_eq!(rt; (all, more), ([true, true, true, true, false], 4));
    Ok(())
}

// How many messages are said beside a greeting and a question that aren't written, and what becomes
// of a question of the peer then.
fn shares(alloc: Global, driver: &mut Driver<TestKey>) -> Result<(u32, Admission), Fail> {
    track(alloc, driver, "track 0 1,2", 0)?;
    prove(driver, 1, 1, 1_000)?;
    let _greeted = greet(alloc, driver, "1@1000", 2_000)?;
    take_all(driver, 3);
    let said = count(driver, 8, at(3_000));
    Ok((said, admit(alloc, driver, &[2, 0, 2, 0], 3_000)?))
}

#[test]
fn messages_share_the_queue_with_all_frames(rt: HostRuntime) -> Result<(), Fail> {
    let alloc = rt.alloc();
    let pace = queued(alloc, 4)?;
    let found = driven(alloc, SETTINGS, pace, |driver| shares(alloc, driver))??;
    assert_eq!(rt; found, (2, Admission::Heard(Heard::Dropped)));
    Ok(())
}

// When the tested driver wakes, on whose link 1 a message was said at 3 s, and whose peer was heard
// at 4 s; and what it says a nanosecond before 23 s, and at it.
type Late = (Option<Duration>, Said, [Said; 3]);

fn late(alloc: Global, driver: &mut Driver<TestKey>) -> Result<Late, Fail> {
    open(alloc, driver, "track 0 1,2")?;
    says(driver, 7, 5, at(3_000));
    admit(alloc, driver, EMPTY, 4_000)?;
    let wake = driver.next_timeout();
    driver.timeout(&[], after(19_999_999_999))?;
    let before = take(driver);
    driver.timeout(&[], after(20_000_000_000))?;
    Ok((wake, before, [take(driver), take(driver), take(driver)]))
}

#[test]
fn a_message_that_is_not_written_is_slow(rt: HostRuntime) -> Result<(), Fail> {
    let alloc = rt.alloc();
    let mut pace = speaking(alloc)?;
    pace.silence = Duration::from_secs(20);
    let found = driven(alloc, SETTINGS, pace, |driver| late(alloc, driver))??;
    let (wake, before, said) = found;
    let why = Why::Slow;
    let down = Event::Down(Link(1), TestKey(1), Some(why));
    assert_eq!(rt;
        (wake, before),
        (Some(Duration::from_secs(23)), Said::Nothing)
    );
    assert_eq!(rt;
        said,
        [Said::Closed(1, why), Said::Told(down), Said::Nothing]
    );
    Ok(())
}

// When the tested driver wakes with a message said at 3 s and one at 3.5 s, its peer heard at 4 s;
// and once each of them is written.
fn wakes(alloc: Global, driver: &mut Driver<TestKey>) -> Result<[Option<Duration>; 3], Fail> {
    open(alloc, driver, "track 0 1,2")?;
    says(driver, 7, 5, at(3_000));
    says(driver, 300, 5, at(3_500));
    admit(alloc, driver, EMPTY, 4_000)?;
    let none = driver.next_timeout();
    driver.written(Link(1), at(4_000));
    let one = driver.next_timeout();
    driver.written(Link(1), at(4_000));
    Ok([none, one, driver.next_timeout()])
}

#[test]
fn messages_are_written_in_the_order_in_which_they_are_said(rt: HostRuntime) -> Result<(), Fail> {
    let alloc = rt.alloc();
    let mut pace = speaking(alloc)?;
    pace.silence = Duration::from_secs(20);
    let found = driven(alloc, SETTINGS, pace, |driver| wakes(alloc, driver))??;
    let expected = [
        Some(Duration::from_secs(23)),
        Some(Duration::from_millis(23_500)),
        Some(Duration::from_secs(24)),
    ];
    assert_eq!(rt; found, expected);
    Ok(())
}

// Whether a message is said on link 1 at 3 s; once the application has parted from its peer, and
// once what was said of that is taken; whether the message is written then; and once it has ended.
fn closing(alloc: Global, driver: &mut Driver<TestKey>) -> Result<[bool; 5], Fail> {
    open(alloc, driver, "track 0 1,2")?;
    let said = says(driver, 7, 5, at(3_000));
    driver.part(&TestKey(1), at(3_000));
    let parted = says(driver, 8, 5, at(3_000));
    take_all(driver, 2);
    let taken = says(driver, 8, 5, at(3_000));
    let written = driver.written(Link(1), at(3_000));
    driver.ended(Link(1), at(3_000));
    Ok([said, parted, taken, written, says(driver, 8, 5, at(3_000))])
}

#[test]
fn nothing_is_said_on_a_link_that_is_closing(rt: HostRuntime) -> Result<(), Fail> {
    let alloc = rt.alloc();
    let pace = speaking(alloc)?;
    let found = driven(alloc, SETTINGS, pace, |driver| closing(alloc, driver))??;
    assert_eq!(rt; found, [true, false, false, true, false]);
    Ok(())
}

// What is seen of the tested driver: how much there is, when it wakes, and how peer 1 stands.
type Seen = (Counts, Option<Duration>, Option<Status>);

fn seen(driver: &Driver<TestKey>) -> Seen {
    (
        driver.counts(),
        driver.next_timeout(),
        driver.node().status(&TestKey(1)),
    )
}

// A message to a peer, on a channel, of so many bytes; and whether all actions of link 1 are taken.
type Case = (u64, u64, usize, bool);

// Whether it is said at 900 s, once two messages were said at 3 s on channel 5; whether what is
// seen stays the same; and when a stream is late that comes at 3 s.
type Nothing = (bool, bool, Option<Duration>);

fn nothing(alloc: Global, driver: &mut Driver<TestKey>, case: Case) -> Result<Nothing, Fail> {
    let (peer, channel, size, is_taken) = case;
    open(alloc, driver, "track 0 1,2")?;
    count(driver, 5, at(3_000));
    if !is_taken {
        admit(alloc, driver, &[2, 0, 2, 0], 3_000)?;
    }
    let before = seen(driver);
    let said = says_to(driver, peer, channel, size, at(900_000)).is_some();
    let same = seen(driver) == before;
    driver.arrived(ipv4(2), at(3_000))?;
    Ok((said, same, driver.next_timeout()))
}

#[test]
fn a_message_that_is_not_said_changes_nothing(rt: HostRuntime) -> Result<(), Fail> {
    let alloc = rt.alloc();
    // No link, no such channel, too long, an action that waits, above the rate of channel 5, and a
    // queue that is full of two messages.
    let cases = [
        ((2u64, 7u64, 5usize, true), 16usize),
        ((1u64, 9u64, 5usize, true), 16usize),
        ((1u64, 7u64, 201usize, true), 16usize),
        ((1u64, 7u64, 5usize, false), 16usize),
        ((1u64, 5u64, 0usize, true), 16usize),
        ((1u64, 7u64, 5usize, true), 2usize),
    ];
    for (case, queue) in cases {
        let mut pace = queued(alloc, queue)?;
        pace.channels.push(channel(5, 9, 3, 1_000))?;
        let found = tested(alloc, pace, |driver| nothing(alloc, driver, case))??;
        let expected = (false, true, Some(Duration::from_secs(6)));
        assert_eq!(rt; (case, found), (case, expected));
    }
    Ok(())
}

// Whether the tested driver, whose latest time is 2 s, says a message at a time; and when a stream
// is late that comes at 500 ms.
fn moves(
    alloc: Global,
    driver: &mut Driver<TestKey>,
    millis: u64,
) -> Result<(bool, Option<Duration>), Fail> {
    open(alloc, driver, "track 0 1,2")?;
    let said = says(driver, 7, 5, at(millis));
    driver.arrived(ipv4(2), at(500))?;
    Ok((said, driver.next_timeout()))
}

#[test]
fn a_message_that_is_said_moves_the_time(rt: HostRuntime) -> Result<(), Fail> {
    let alloc = rt.alloc();
    for (millis, late) in [(10_000u64, 13u64), (1_000u64, 5u64)] {
        let pace = speaking(alloc)?;
        let found = tested(alloc, pace, |driver| moves(alloc, driver, millis))??;
        assert_eq!(rt; found, (true, Some(Duration::from_secs(late))));
    }
    Ok(())
}

// How many messages the tested driver says at once, how much there is then, and its next action.
fn unsaid(alloc: Global, driver: &mut Driver<TestKey>) -> Result<(u32, Counts, Said), Fail> {
    open(alloc, driver, "track 0 1,2")?;
    let said = count(driver, 7, at(3_000));
    Ok((said, driver.counts(), take(driver)))
}

#[test]
fn a_message_is_no_action(rt: HostRuntime) -> Result<(), Fail> {
    let alloc = rt.alloc();
    let pace = speaking(alloc)?;
    let found = driven(alloc, SETTINGS, pace, |driver| unsaid(alloc, driver))??;
    let (said, counts, next) = found;
    assert_eq!(rt; (said, counts.links, counts.actions), (2, 1, 0));
    assert_eq!(rt; next, Said::Nothing);
    Ok(())
}
