//! Frames of a link: a greeting, then messages, and lists of infos that were asked for.

use p2p_directory::record::Status;
use p2p_discovery::codec::TestKey;
use p2p_driver::actions::{Event, Why};
use p2p_driver::admission::{Admission, Heard, Misjudged};
use p2p_driver::driver::Driver;
use p2p_driver::link::Link;
use p2p_driver_fixtures::{
    SETTINGS, Said, admit, admitted, at, claim, driven, frame, greeting, list, next, next_two,
    open, pace, prove, sends, track, with_channels,
};
use std::alloc::Global;
use std::test::Fail;

// What is heard of peer 1.
type Answer = Result<Heard, Misjudged>;

// What the tested driver answers to the greeting of peer 1, what is said, and how peer 1 stands
// until the verdict; what comes of that; whether it is told that the link is up, and whether the
// peer is asked for the infos of the set at index 0, of which that of the first peer is known; and
// how peer 1 stands.
type Greeted = (
    Admission,
    [Said; 2],
    Option<Status>,
    Answer,
    (Said, bool, Said),
    Option<Status>,
);

fn greeted(alloc: Global, driver: &mut Driver<TestKey>) -> Result<Greeted, Fail> {
    track(alloc, driver, "track 0 1,2", 0)?;
    prove(driver, 1, 1, 1_000)?;
    let came = admitted(driver, Link(1), &greeting(alloc, "1@1000")?, at(2_000));
    let said = next_two(driver);
    let before = driver.node().status(&TestKey(1));
    let heard = driver.judged(Link(1), &[true], at(3_000));
    let up = next(driver);
    let asked = sends(driver, &[2, 0, 2, 1]);
    let after = driver.node().status(&TestKey(1));
    Ok((came, said, before, heard, (up, asked, next(driver)), after))
}

#[test]
fn a_peer_greets_and_is_asked(rt: HostRuntime) -> Result<(), Fail> {
    let alloc = rt.alloc();
    let found = driven(
        alloc,
        SETTINGS,
        pace(alloc),
        |driver| greeted(alloc, driver),
    )??;
    let (came, said, before, heard, told, after) = found;
    assert_eq!(rt; came, Admission::Verify(1));
    assert_eq!(rt; said, [Said::Sent(1), Said::Nothing]);
    assert_eq!(rt; before, Some(Status::Reserved));
    assert_eq!(rt; heard, Ok(Heard::Greeted));
    let up = Said::Told(Event::Up(Link(1), TestKey(1)));
    assert_eq!(rt; told, (up, true, Said::Nothing));
    assert_eq!(rt; after, Some(Status::Active));
    Ok(())
}

// What the tested driver answers to a list of two infos that it asked for, to the verdicts, to the
// same list when no question is owed any more, and what is said of all that; and whether the
// address of each of the two peers is known then.
type Asked = (Admission, Answer, Admission, Said, [bool; 2]);

fn asked(alloc: Global, driver: &mut Driver<TestKey>) -> Result<Asked, Fail> {
    open(alloc, driver, "track 0 1,2,3")?;
    let infos = list(alloc, &["2@1000", "3@2000"])?;
    let first = admitted(driver, Link(1), &infos, at(3_000));
    let heard = driver.judged(Link(1), &[true, true], at(4_000));
    let second = admitted(driver, Link(1), &infos, at(5_000));
    let known = [
        driver.node().ingress(&TestKey(2))?.is_some(),
        driver.node().ingress(&TestKey(3))?.is_some(),
    ];
    Ok((first, heard, second, next(driver), known))
}

#[test]
fn a_list_is_taken_once_for_a_question(rt: HostRuntime) -> Result<(), Fail> {
    let alloc = rt.alloc();
    let found = driven(alloc, SETTINGS, pace(alloc), |driver| asked(alloc, driver))??;
    assert_eq!(rt;
        found,
        (
            Admission::Verify(2),
            Ok(Heard::Applied(2)),
            Admission::Ignored,
            Said::Nothing,
            [true, true],
        )
    );
    Ok(())
}

// What the tested driver answers to two empty lists, to a list of an info that it asked for, to the
// verdict, to the empty list then, and to a list that is cut short; and what is said.
type Empty = ([Admission; 3], Answer, [Admission; 2], Said);

fn empty(alloc: Global, driver: &mut Driver<TestKey>) -> Result<Empty, Fail> {
    open(alloc, driver, "track 0 1,2")?;
    let asked = [
        admit(alloc, driver, &[3, 0], 3_000)?,
        admit(alloc, driver, &[3, 0], 3_001)?,
        admitted(driver, Link(1), &list(alloc, &["2@1000"])?, at(3_002)),
    ];
    let heard = driver.judged(Link(1), &[true], at(3_003));
    let unasked = [
        admit(alloc, driver, &[3, 0], 3_004)?,
        admit(alloc, driver, &[3, 1], 3_005)?,
    ];
    Ok((asked, heard, unasked, next(driver)))
}

#[test]
fn an_empty_list_answers_no_question(rt: HostRuntime) -> Result<(), Fail> {
    let alloc = rt.alloc();
    let found = driven(alloc, SETTINGS, pace(alloc), |driver| empty(alloc, driver))??;
    let (asked, heard, unasked, said) = found;
    let applied = Admission::Heard(Heard::Applied(0));
    let again = Admission::Heard(Heard::Applied(0));
    let last = Admission::Heard(Heard::Applied(0));
    assert_eq!(rt; asked, [applied, again, Admission::Verify(1)]);
    assert_eq!(rt; heard, Ok(Heard::Applied(1)));
    assert_eq!(rt; unasked, [last, Admission::Ignored]);
    assert_eq!(rt; said, Said::Nothing);
    Ok(())
}

// A message of this channel, and where it is in its frame.
fn message(channel: u64, start: usize, end: usize) -> Admission {
    let message = start..end;
    Admission::Heard(Heard::Message { channel, message })
}

// What the tested driver answers to a message of two bytes on channel 3, an empty one, and one of a
// byte on channel 300; and what is said.
type Messages = ([Admission; 3], Said);

fn messages(alloc: Global, driver: &mut Driver<TestKey>) -> Result<Messages, Fail> {
    open(alloc, driver, "track 0 1,2")?;
    let answers = [
        admit(alloc, driver, &[0, 3, 2, 7, 7], 3_000)?,
        admit(alloc, driver, &[0, 3, 0], 3_001)?,
        admit(alloc, driver, &[0, 172, 2, 1, 7], 3_002)?,
    ];
    Ok((answers, next(driver)))
}

#[test]
fn a_message_is_a_range_of_its_frame(rt: HostRuntime) -> Result<(), Fail> {
    let alloc = rt.alloc();
    let found = driven(
        alloc,
        SETTINGS,
        with_channels(alloc)?,
        |driver| messages(alloc, driver),
    )??;
    let answers = [message(3, 3, 5), message(3, 3, 3), message(300, 4, 5)];
    assert_eq!(rt; found, (answers, Said::Nothing));
    Ok(())
}

// What the tested driver answers to a question and to the same greeting while a greeting waits; to
// a question and to a message while a list waits.
type Waits = ([Admission; 2], [Admission; 2]);

fn waits(alloc: Global, driver: &mut Driver<TestKey>) -> Result<Waits, Fail> {
    track(alloc, driver, "track 0 1,2", 0)?;
    prove(driver, 1, 1, 1_000)?;
    let greeting = greeting(alloc, "1@1000")?;
    admitted(driver, Link(1), &greeting, at(2_000));
    let early = [
        admit(alloc, driver, &[2, 0, 2, 0], 2_001)?,
        admitted(driver, Link(1), &greeting, at(2_002)),
    ];
    let _heard = driver.judged(Link(1), &[true], at(2_003));
    admitted(driver, Link(1), &list(alloc, &["2@1000"])?, at(2_004));
    let late = [
        admit(alloc, driver, &[2, 0, 2, 0], 2_005)?,
        admit(alloc, driver, &[0, 3, 0], 2_006)?,
    ];
    Ok((early, late))
}

#[test]
fn no_frame_comes_while_one_waits(rt: HostRuntime) -> Result<(), Fail> {
    let alloc = rt.alloc();
    let found = driven(alloc, SETTINGS, pace(alloc), |driver| waits(alloc, driver))??;
    assert_eq!(rt;
        found,
        (
            [Admission::Unasked, Admission::Unasked],
            [Admission::Unasked, Admission::Unasked],
        )
    );
    Ok(())
}

// What the tested driver answers to a frame on a link that there never was, on a stream that isn't
// proved, on a link that is closing, and on it once it ended.
fn nowhere(alloc: Global, driver: &mut Driver<TestKey>) -> Result<[Admission; 4], Fail> {
    let message = frame(alloc, &[0, 3, 0])?;
    let never = admitted(driver, Link(1), &message, at(0));
    track(alloc, driver, "track 0 1,2", 0)?;
    claim(driver, 1, 1, 1_000)?;
    let unproved = admitted(driver, Link(1), &message, at(1_000));
    driver.proved(Link(1), TestKey(1), 0, at(1_000))?;
    driver.part(&TestKey(1), at(1_001));
    let closing = admitted(driver, Link(1), &message, at(1_002));
    driver.ended(Link(1), at(1_003));
    Ok([
        never,
        unproved,
        closing,
        admitted(driver, Link(1), &message, at(1_004)),
    ])
}

#[test]
fn frames_come_on_links_that_are_not_closing(rt: HostRuntime) -> Result<(), Fail> {
    let alloc = rt.alloc();
    let found = driven(
        alloc,
        SETTINGS,
        pace(alloc),
        |driver| nowhere(alloc, driver),
    )??;
    assert_eq!(rt;
        found,
        [
            Admission::Unknown,
            Admission::Unknown,
            Admission::Closing,
            Admission::Unknown,
        ]
    );
    Ok(())
}

// Whether the tested driver refuses verdicts on a link that there never was, on one of which
// nothing waits, none and two for a greeting, and a second one; and on a link that was closed while
// a list waited.
fn misjudges(alloc: Global, driver: &mut Driver<TestKey>) -> Result<[bool; 6], Fail> {
    track(alloc, driver, "track 0 1,2", 0)?;
    prove(driver, 1, 1, 1_000)?;
    let never = driver.judged(Link(2), &[true], at(1_001)) == Err(Misjudged);
    let nothing = driver.judged(Link(1), &[], at(1_002)) == Err(Misjudged);
    admitted(driver, Link(1), &greeting(alloc, "1@1000")?, at(2_000));
    let none = driver.judged(Link(1), &[], at(2_001)) == Err(Misjudged);
    let two = driver.judged(Link(1), &[true, true], at(2_002)) == Err(Misjudged);
    let _heard = driver.judged(Link(1), &[true], at(2_003));
    let twice = driver.judged(Link(1), &[true], at(2_004)) == Err(Misjudged);
    admitted(driver, Link(1), &list(alloc, &["2@1000"])?, at(2_005));
    driver.part(&TestKey(1), at(2_006));
    let closed = driver.judged(Link(1), &[true], at(2_007)) == Err(Misjudged);
    Ok([never, nothing, none, two, twice, closed])
}

// What the tested driver says after these refusals: the greeting, then that the link is up and the
// question, and that it is closed and down.
fn misjudged(alloc: Global, driver: &mut Driver<TestKey>) -> Result<([bool; 6], [Said; 6]), Fail> {
    let refused = misjudges(alloc, driver)?;
    let [first, second] = next_two(driver);
    let [third, fourth] = next_two(driver);
    let [fifth, sixth] = next_two(driver);
    Ok((refused, [first, second, third, fourth, fifth, sixth]))
}

#[test]
fn verdicts_are_of_a_frame_that_waits(rt: HostRuntime) -> Result<(), Fail> {
    let alloc = rt.alloc();
    let (refused, said) = driven(
        alloc,
        SETTINGS,
        pace(alloc),
        |driver| misjudged(alloc, driver),
    )??;
    assert_eq!(rt; refused, [true; 6]);
    let why = Why::Application;
    assert_eq!(rt;
        said,
        [
            Said::Sent(1),
            Said::Told(Event::Up(Link(1), TestKey(1))),
            Said::Sent(1),
            Said::Closed(1, why),
            Said::Told(Event::Down(Link(1), TestKey(1), Some(why))),
            Said::Nothing,
        ]
    );
    Ok(())
}
