//! Dials that are proved: what becomes of their links, and when they are late.

use lines::setup;
use p2p_directory::record::Status;
use p2p_discovery::codec::{TestKey, Write};
use p2p_discovery::discovery::Payload;
use p2p_driver::actions::{Action, Event, Why};
use p2p_driver::admission::{Admission, Heard, Misjudged, Read};
use p2p_driver::driver::{Counts, Driver};
use p2p_driver::link::Link;
use p2p_driver::pace::Pace;
use p2p_driver_fixtures::{
    SETTINGS, Said, admitted, at, dialing, driven, frame, greet, greeting, know, length, list,
    next, next_two, reads, sends, tested, with_channels,
};
use std::alloc::{AllocError, Global};
use std::test::Fail;
use std::time::Duration;

const SILENT: [Said; 2] = [Said::Nothing, Said::Nothing];

// Settings by which peers are dialled, with channels 3 and 300.
fn with_channels_dialing(alloc: Global) -> Result<Pace, AllocError> {
    let mut pace = with_channels(alloc)?;
    pace.dials = 4;
    Ok(pace)
}

// Has the tested driver, which tracks and knows peers 1 and 2, dial peer 1 at 1 s, on link 1.
// Returns whether that is all that it says.
fn dial(alloc: Global, driver: &mut Driver<TestKey>) -> Result<bool, Fail> {
    know(alloc, driver, "track 0 1,2", &["1@1000", "2@1000"])?;
    driver.timeout(&[0], at(1_000))?;
    Ok(next_two(driver) == [Said::Dialed(1, 1), Said::Nothing])
}

// .. and lets its stream be proved at 2 s. Returns whether it is, and the own greeting is all that
// is said.
fn reach(alloc: Global, driver: &mut Driver<TestKey>) -> Result<bool, Fail> {
    let greeting = Payload::<TestKey>::Greeting(setup(alloc, SETTINGS)?.myself).encode(alloc)?;
    let dialed = dial(alloc, driver)?;
    let proved = driver.proved(Link(1), TestKey(1), 0, at(2_000))?;
    let said = sends(driver, greeting.as_slice()) && next(driver) == Said::Nothing;
    Ok(dialed && proved && said)
}

// How peer 1 stands, its link, how much there is, and how many actions of link 1 wait.
type Seen = (Option<Status>, Option<Link>, Counts, usize);

fn seen(driver: &Driver<TestKey>) -> Seen {
    (
        driver.node().status(&TestKey(1)),
        driver.link_of(&TestKey(1)),
        driver.counts(),
        driver.pending(Link(1)),
    )
}

// Peer 1 stands so with link 1, of which so many actions wait, and no others.
fn linked(status: Status, actions: usize) -> Seen {
    let counts = Counts {
        arrivals: 0,
        links: 1,
        actions,
    };
    (Some(status), Some(Link(1)), counts, actions)
}

// What is seen once peer 1 is dialled, and that is taken; once its stream is proved, and the
// greeting taken; once it has greeted, and what is said then; and once it ended.
fn life(alloc: Global, driver: &mut Driver<TestKey>) -> Result<([Seen; 6], [Said; 4]), Fail> {
    know(alloc, driver, "track 0 1,2", &["1@1000"])?;
    driver.timeout(&[0], at(1_000))?;
    let dialed = seen(driver);
    next(driver);
    let taken = seen(driver);
    driver.proved(Link(1), TestKey(1), 0, at(2_000))?;
    let proved = seen(driver);
    next(driver);
    let greeted = greet(alloc, driver, "1@1000", 3_000)?;
    let up = seen(driver);
    let [told, asked] = next_two(driver);
    driver.timeout(&[], at(33_000))?;
    let again = next(driver);
    driver.ended(Link(1), at(34_000));
    let down = seen(driver);
    let said = [told, asked, again, next(driver)];
    let all = [dialed, taken, proved, up, down, seen(driver)];
    match greeted {
        (Admission::Verify(1), Ok(Heard::Greeted)) => Ok((all, said)),
        _ => Ok((all, [Said::Nothing; 4])),
    }
}

#[test]
fn a_dial_becomes_a_link_that_is_up(rt: HostRuntime) -> Result<(), Fail> {
    let alloc = rt.alloc();
    let found = driven(
        alloc,
        SETTINGS,
        dialing(alloc),
        |driver| life(alloc, driver),
    )??;
    let (seen, said) = found;
    let [dialed, taken, proved, up, down, last] = seen;
    let reserved = Status::Reserved;
    assert_eq!(rt; (dialed, taken), (linked(reserved, 1), linked(reserved, 0)));
    assert_eq!(rt;
        (proved, up),
        (linked(reserved, 1), linked(Status::Active, 2))
    );
    let counts = |actions| Counts {
        arrivals: 0,
        links: 0,
        actions,
    };
    let inert = Some(Status::Inert);
    assert_eq!(rt;
        (down, last),
        ((inert, None, counts(1), 1), (inert, None, counts(0), 0))
    );
    assert_eq!(rt;
        said,
        [
            Said::Told(Event::Up(Link(1), TestKey(1))),
            Said::Sent(1),
            Said::Sent(1),
            Said::Told(Event::Down(Link(1), TestKey(1), None)),
        ]
    );
    Ok(())
}

// Whether the tested driver says its greeting once a dial is proved; whether proofs of it then, as
// that peer and as another, of a link that there isn't, and of the dial once it ended are taken;
// what is said then; and when it wakes before the end.
type Once = (bool, [bool; 4], [Said; 2], Option<Duration>);

fn once(alloc: Global, driver: &mut Driver<TestKey>) -> Result<Once, Fail> {
    let reached = reach(alloc, driver)?;
    driver.timeout(&[0, 0], at(2_000))?;
    next(driver);
    let again = driver.proved(Link(1), TestKey(1), 0, at(3_000))?;
    let other = driver.proved(Link(1), TestKey(2), 0, at(3_000))?;
    let none = driver.proved(Link(3), TestKey(1), 0, at(3_000))?;
    let wake = driver.next_timeout();
    driver.ended(Link(1), at(3_000));
    let ended = driver.proved(Link(1), TestKey(1), 0, at(3_000))?;
    Ok((reached, [again, other, none, ended], next_two(driver), wake))
}

#[test]
fn a_dial_is_proved_once(rt: HostRuntime) -> Result<(), Fail> {
    let alloc = rt.alloc();
    let found = driven(
        alloc,
        SETTINGS,
        dialing(alloc),
        |driver| once(alloc, driver),
    )??;
    // Peer 1 has to greet, and peer 2, dialled at 2 s, to be proved, 5 s later.
    let wake = Some(Duration::from_secs(7));
    assert_eq!(rt; found, (true, [false, false, false, false], SILENT, wake));
    Ok(())
}

// Whether the stream of a dial of peer 1 that is proved as another peer's is taken, what is said,
// and whether it is taken once more as peer 1's; how peers 1 and 2 stand then; whether it ends; and
// how peer 1 stands then.
type Wrong = (
    bool,
    [Said; 2],
    (bool, Said),
    [Option<Status>; 2],
    bool,
    Option<Status>,
);

fn wrong(alloc: Global, driver: &mut Driver<TestKey>, peer: u64) -> Result<Wrong, Fail> {
    dial(alloc, driver)?;
    let taken = driver.proved(Link(1), TestKey(peer), 0, at(2_000))?;
    let said = next_two(driver);
    let again = driver.proved(Link(1), TestKey(1), 0, at(2_001))?;
    let silent = next(driver);
    let statuses = [
        driver.node().status(&TestKey(1)),
        driver.node().status(&TestKey(2)),
    ];
    let ended = driver.ended(Link(1), at(3_000));
    let last = driver.node().status(&TestKey(1));
    Ok((taken, said, (again, silent), statuses, ended, last))
}

#[test]
fn a_dial_of_another_key_is_closed(rt: HostRuntime) -> Result<(), Fail> {
    let alloc = rt.alloc();
    // One that is tracked, one that isn't, and the own key.
    for peer in [2u64, 5, 9] {
        let found = tested(alloc, dialing(alloc), |driver| wrong(alloc, driver, peer))??;
        let said = [Said::Closed(1, Why::WrongKey), Said::Nothing];
        let statuses = [Some(Status::Reserved), Some(Status::Inert)];
        let kept = Some(Status::Reserved);
        assert_eq!(rt;
            found,
            (false, said, (false, Said::Nothing), statuses, true, kept)
        );
    }
    Ok(())
}

// What is said of a frame, and becomes of it, and of a verdict, on a dial that isn't proved;
// whether a frame was written there; whether a message may be said to its peer; whether it may be
// claimed; and whether it was changed by that.
type Early = (
    Read,
    Admission,
    Result<Heard, Misjudged>,
    [bool; 3],
    (bool, bool),
);

fn early(alloc: Global, driver: &mut Driver<TestKey>) -> Result<Early, Fail> {
    dial(alloc, driver)?;
    let frame = greeting(alloc, "1@1000")?;
    let before = (seen(driver), driver.next_timeout());
    let read = length(driver, Link(1), frame.as_slice(), at(2_000));
    let admission = driver.admit(Link(1), &frame, at(2_000));
    let heard = driver.judged(Link(1), &[true], at(2_000));
    let answers = [
        driver.written(Link(1), at(2_000)),
        driver.say(&TestKey(1), 3, 1, at(2_000)).is_some(),
        driver.claimed(Link(1), TestKey(1), at(2_000)),
    ];
    let same = (seen(driver), driver.next_timeout()) == before;
    let reached = driver.proved(Link(1), TestKey(1), 0, at(3_000))?;
    Ok((read, admission, heard, answers, (same, reached)))
}

#[test]
fn nothing_comes_on_a_dial_before_its_proof(rt: HostRuntime) -> Result<(), Fail> {
    let alloc = rt.alloc();
    let pace = with_channels_dialing(alloc)?;
    let found = driven(alloc, SETTINGS, pace, |driver| early(alloc, driver))??;
    let (read, admission, heard, answers, kept) = found;
    assert_eq!(rt; (read, admission), (Read::Unknown, Admission::Unknown));
    assert_eq!(rt; (heard, answers), (Err(Misjudged), [false, false, false]));
    assert_eq!(rt; kept, (true, true));
    Ok(())
}

// Whether a message may be said on a link that was dialled and has greeted; how much gossip and how
// many messages are read at once on it; and what becomes of a list that was asked for, and of a
// message.
type Like = (bool, [(u32, Read); 2], Admission, Admission);

fn like(alloc: Global, driver: &mut Driver<TestKey>) -> Result<Like, Fail> {
    reach(alloc, driver)?;
    let _ = greet(alloc, driver, "1@1000", 3_000)?;
    next_two(driver);
    let said = driver.say(&TestKey(1), 3, 1, at(3_000)).is_some();
    let asked = list(alloc, &["2@2000"])?;
    let list = admitted(driver, Link(1), &asked, at(3_000));
    let _heard = driver.judged(Link(1), &[true], at(3_000));
    let message = frame(alloc, &[0, 3, 1, 7])?;
    let heard = admitted(driver, Link(1), &message, at(3_000));
    let read = [
        reads(driver, Link(1), &[3, 0], at(3_000)),
        reads(driver, Link(1), message.as_slice(), at(3_000)),
    ];
    Ok((said, read, list, heard))
}

#[test]
fn a_dialled_link_is_like_any_other(rt: HostRuntime) -> Result<(), Fail> {
    let alloc = rt.alloc();
    let pace = with_channels_dialing(alloc)?;
    let found = driven(alloc, SETTINGS, pace, |driver| like(alloc, driver))??;
    // The list took one of the 8 of gossip, of which one more is read in 7.5 s, and the message one
    // of the 2 of channel 3, of which one more is in 1 s.
    let read = [
        (7, Read::After(Duration::from_millis(10_500))),
        (1, Read::After(Duration::from_millis(4_000))),
    ];
    let message = Heard::Message {
        channel: 3,
        message: 3..4,
    };
    let taken = (Admission::Verify(1), Admission::Heard(message));
    assert_eq!(rt; found, (true, read, taken.0, taken.1));
    Ok(())
}

// When the tested driver wakes once peer 1 is dialled at 1 s and proved at 2 s by a steady clock
// that was at 10 s before, and at 12 s between.
fn back(alloc: Global, driver: &mut Driver<TestKey>) -> Result<[Option<Duration>; 2], Fail> {
    know(alloc, driver, "track 0 1", &["1@1000"])?;
    driver.timeout(&[], at(10_000))?;
    driver.timeout(&[0, 0], at(1_000))?;
    next(driver);
    let dialed = driver.next_timeout();
    driver.timeout(&[], at(12_000))?;
    driver.proved(Link(1), TestKey(1), 0, at(2_000))?;
    next(driver);
    Ok([dialed, driver.next_timeout()])
}

#[test]
fn dials_go_by_the_latest_time(rt: HostRuntime) -> Result<(), Fail> {
    let alloc = rt.alloc();
    let found = driven(
        alloc,
        SETTINGS,
        dialing(alloc),
        |driver| back(alloc, driver),
    )??;
    assert_eq!(rt;
        found,
        [Some(Duration::from_secs(15)), Some(Duration::from_secs(17))]
    );
    Ok(())
}

// When the tested driver wakes once peer 1 is dialled at 1 s; what it says a millisecond before
// that, and then; whether the dial may be proved; and when it wakes next, with no word.
type Slow = (Option<Duration>, [[Said; 2]; 2], bool, Option<Duration>);

fn slow(alloc: Global, driver: &mut Driver<TestKey>, millis: u64) -> Result<Slow, Fail> {
    know(alloc, driver, "track 0 1", &["1@1000"])?;
    driver.timeout(&[0, 0], at(1_000))?;
    next(driver);
    let wake = driver.next_timeout();
    driver.timeout(&[0], at(millis.saturating_sub(1)))?;
    let before = next_two(driver);
    driver.timeout(&[0], at(millis))?;
    let said = next_two(driver);
    let proved = driver.proved(Link(1), TestKey(1), 0, at(millis))?;
    Ok((wake, [before, said], proved, driver.next_timeout()))
}

#[test]
fn a_dial_that_is_not_proved_is_slow(rt: HostRuntime) -> Result<(), Fail> {
    let alloc = rt.alloc();
    for handshake in [1u64, 5_000, 15_000] {
        let mut pace = dialing(alloc);
        pace.handshake = Duration::from_millis(handshake);
        let millis = handshake.saturating_add(1_000);
        let found = tested(alloc, pace, |driver| slow(alloc, driver, millis))??;
        let wake = Some(Duration::from_millis(millis));
        let closed = [Said::Closed(1, Why::Slow), Said::Nothing];
        // Then the cooldown is over, which began at 1 s.
        let last = Some(Duration::from_secs(61));
        assert_eq!(rt; found, (wake, [SILENT, closed], false, last));
    }
    Ok(())
}

// When the tested driver wakes once a dial of 1 s is proved at 5,999 ms; what it says a millisecond
// before, and then; and once the dial ended.
type Greets = (bool, Option<Duration>, [[Said; 2]; 2], bool, Said);

fn greets(alloc: Global, driver: &mut Driver<TestKey>) -> Result<Greets, Fail> {
    know(alloc, driver, "track 0 1", &["1@1000"])?;
    driver.timeout(&[0, 0], at(1_000))?;
    next(driver);
    let proved = driver.proved(Link(1), TestKey(1), 0, at(5_999))?;
    next(driver);
    let wake = driver.next_timeout();
    driver.timeout(&[0], at(10_998))?;
    let before = next_two(driver);
    driver.timeout(&[0], at(10_999))?;
    let said = next_two(driver);
    let ended = driver.ended(Link(1), at(11_000));
    Ok((proved, wake, [before, said], ended, next(driver)))
}

#[test]
fn who_was_dialled_has_time_to_greet(rt: HostRuntime) -> Result<(), Fail> {
    let alloc = rt.alloc();
    let found = driven(alloc, SETTINGS, dialing(alloc), |driver| {
        greets(alloc, driver)
    })??;
    let wake = Some(Duration::from_millis(10_999));
    let closed = [Said::Closed(1, Why::Slow), Said::Nothing];
    assert_eq!(rt; found, (true, wake, [SILENT, closed], true, Said::Nothing));
    Ok(())
}

// Whether the next action of the tested driver sends this frame on link 2.
fn is_sent_on_two(driver: &mut Driver<TestKey>, frame: &[u8]) -> bool {
    match driver.next_action() {
        Some(Action::Send { link, frame: sent }) => link == Link(2) && sent.as_slice() == frame,
        _ => false,
    }
}

// Whether peer 1 is asked for the info of 2 alone once it has greeted with the one that is known,
// after a dial of 1 s that failed, and a second one of 61 s; and what is told.
fn asks(alloc: Global, driver: &mut Driver<TestKey>) -> Result<(bool, Said), Fail> {
    know(alloc, driver, "track 0 1,2", &["1@1000"])?;
    driver.timeout(&[0], at(1_000))?;
    driver.ended(Link(1), at(1_001));
    next(driver);
    driver.timeout(&[0], at(61_000))?;
    next(driver);
    driver.proved(Link(2), TestKey(1), 0, at(61_001))?;
    next(driver);
    admitted(driver, Link(2), &greeting(alloc, "1@1000")?, at(61_002));
    let _heard = driver.judged(Link(2), &[true], at(61_002));
    let up = next(driver);
    Ok((is_sent_on_two(driver, &[2, 0, 2, 1]), up))
}

// Else its info would be wanted, since a dial of it has failed.
#[test]
fn a_peer_that_greets_was_dialled_well(rt: HostRuntime) -> Result<(), Fail> {
    let alloc = rt.alloc();
    let found = driven(
        alloc,
        SETTINGS,
        dialing(alloc),
        |driver| asks(alloc, driver),
    )??;
    assert_eq!(rt; found, (true, Said::Told(Event::Up(Link(2), TestKey(1)))));
    Ok(())
}
