//! Rules that a peer breaks: it is blocked, and its link is closed.

use p2p_directory::record::Status;
use p2p_discovery::codec::{CodecError, TestKey, What};
use p2p_driver::actions::{Breach, Event, Why};
use p2p_driver::admission::{Admission, Heard, Misjudged};
use p2p_driver::driver::Driver;
use p2p_driver::link::Link;
use p2p_driver_fixtures::{
    SETTINGS, Said, admit, admitted, at, claim, driven, greet, greeting, next_two, open, pace,
    prove, tested, track, with_channels,
};
use std::alloc::Global;
use std::test::Fail;
use std::time::Duration;

// First frames, and which rule they break: none at all, a question, the empty list, a message, and
// a prefix that there isn't; greetings that are cut short, and with an address of no form.
static FIRST: [(&'static [u8], Breach); 8] = [
    (&[], Breach::NoGreeting),
    (&[2, 0, 2, 0], Breach::NoGreeting),
    (&[3, 0], Breach::NoGreeting),
    (&[0, 3, 2, 7, 7], Breach::NoGreeting),
    (&[9], Breach::NoGreeting),
    (&[1], Breach::Codec(CodecError::EndOfBuffer)),
    (&[1, 0, 4, 1], Breach::Codec(CodecError::EndOfBuffer)),
    (&[1, 5], Breach::Codec(CodecError::InvalidEnum(5))),
];

// What becomes of a frame at 2 s, what is said then, and when the peer's block ends.
type Broken = (Admission, [Said; 2], [Said; 2], Option<Duration>);

fn first(alloc: Global, driver: &mut Driver<TestKey>, bytes: &[u8]) -> Result<Broken, Fail> {
    track(alloc, driver, "track 0 1,2", 0)?;
    prove(driver, 1, 1, 1_000)?;
    let came = admit(alloc, driver, bytes, 2_000)?;
    let said = next_two(driver);
    Ok((came, said, next_two(driver), driver.node().next_unblock()))
}

#[test]
fn a_peer_greets_first(rt: HostRuntime) -> Result<(), Fail> {
    let alloc = rt.alloc();
    for (bytes, breach) in FIRST {
        let found = tested(alloc, pace(alloc), |driver| { first(alloc, driver, bytes) })??;
        let (came, said, then, until) = found;
        let why = Why::Breach(breach);
        assert_eq!(rt; came, Admission::Heard(Heard::Closing(why)));
        assert_eq!(rt; said, [Said::Sent(1), Said::Closed(1, why)]);
        let blocked = Said::Told(Event::Blocked(TestKey(1), breach));
        assert_eq!(rt; then, [blocked, Said::Nothing]);
        assert_eq!(rt; until, Some(Duration::from_secs(62)));
    }
    Ok(())
}

// Frames of a peer that has greeted and is asked, and which rule they break: none at all; a
// question and a list that are cut short; a prefix that there isn't; a byte behind a list; 9 bits
// of at most 8; a bit behind 2; a message of 33 bytes of at most 32; bits for 1 and for 3 peers of
// 2; and one that begins as a greeting.
static NEXT: [(&'static [u8], Breach); 11] = [
    (&[], Breach::Codec(CodecError::EndOfBuffer)),
    (&[2], Breach::Codec(CodecError::EndOfBuffer)),
    (&[3], Breach::Codec(CodecError::EndOfBuffer)),
    (&[4], Breach::Codec(CodecError::InvalidEnum(4))),
    (&[3, 0, 0], Breach::Codec(CodecError::ExtraData(1))),
    (
        &[2, 0, 9, 0, 0],
        Breach::Codec(CodecError::InvalidLength(9)),
    ),
    (
        &[2, 0, 2, 4],
        Breach::Codec(CodecError::Invalid(What::Padding)),
    ),
    (&[0, 3, 33], Breach::Codec(CodecError::InvalidLength(33))),
    (&[2, 0, 1, 0], Breach::Malformed),
    (&[2, 0, 3, 0], Breach::Malformed),
    (&[1], Breach::SecondGreeting),
];

fn after(alloc: Global, driver: &mut Driver<TestKey>, bytes: &[u8]) -> Result<Broken, Fail> {
    open(alloc, driver, "track 0 1,2")?;
    let came = admit(alloc, driver, bytes, 3_000)?;
    let said = next_two(driver);
    Ok((came, said, next_two(driver), driver.node().next_unblock()))
}

#[test]
fn a_peer_that_has_greeted_breaks_rules(rt: HostRuntime) -> Result<(), Fail> {
    let alloc = rt.alloc();
    for (bytes, breach) in NEXT {
        let pace = with_channels(alloc)?;
        let found = tested(alloc, pace, |driver| { after(alloc, driver, bytes) })??;
        let (came, said, then, until) = found;
        let why = Why::Breach(breach);
        assert_eq!(rt; came, Admission::Heard(Heard::Closing(why)));
        let down = Said::Told(Event::Down(Link(1), TestKey(1), Some(why)));
        assert_eq!(rt; said, [Said::Closed(1, why), down]);
        let blocked = Said::Told(Event::Blocked(TestKey(1), breach));
        assert_eq!(rt; then, [blocked, Said::Nothing]);
        assert_eq!(rt; until, Some(Duration::from_secs(63)));
    }
    Ok(())
}

// What becomes of a greeting of peer 1 at 2 s by the tested driver with the info of another key,
// and whether the verdict on it is refused; what is said; whether the address of peer 2 is known.
type Other = ((Admission, Result<Heard, Misjudged>), [Said; 2], Said, bool);

fn other(alloc: Global, driver: &mut Driver<TestKey>, word: &'static str) -> Result<Other, Fail> {
    track(alloc, driver, "track 0 1,2", 0)?;
    prove(driver, 1, 1, 1_000)?;
    let came = greet(alloc, driver, word, 2_000)?;
    let said = next_two(driver);
    let [blocked, _] = next_two(driver);
    let known = driver.node().ingress(&TestKey(2))?.is_some();
    Ok((came, said, blocked, known))
}

#[test]
fn a_peer_greets_with_its_own_key(rt: HostRuntime) -> Result<(), Fail> {
    let alloc = rt.alloc();
    // The key of another peer, and the node's own.
    for word in ["2@1000", "9@1000"] {
        let found = driven(alloc, SETTINGS, pace(alloc), |driver| {
            other(alloc, driver, word)
        })??;
        let (came, said, blocked, known) = found;
        let why = Why::Breach(Breach::OtherGreeting);
        let closing = Admission::Heard(Heard::Closing(why));
        assert_eq!(rt; came, (closing, Err(Misjudged)));
        assert_eq!(rt; said, [Said::Sent(1), Said::Closed(1, why)]);
        let told = Said::Told(Event::Blocked(TestKey(1), Breach::OtherGreeting));
        assert_eq!(rt; (blocked, known), (told, false));
    }
    Ok(())
}

// What becomes of a second greeting of peer 1 at 3 s by the tested driver, with the same info and
// with a later one; of a frame after that; how the peer stands then, and once its link ended; and
// whether it may come in 59,999 ms and 60 s after it broke the rule.
type Second = ([Admission; 2], [Option<Status>; 2], [bool; 2]);

fn second(alloc: Global, driver: &mut Driver<TestKey>, word: &'static str) -> Result<Second, Fail> {
    open(alloc, driver, "track 0 1,2")?;
    let again = admitted(driver, Link(1), &greeting(alloc, word)?, at(3_000));
    let closing = admit(alloc, driver, &[0, 3, 0], 3_001)?;
    let before = driver.node().status(&TestKey(1));
    driver.ended(Link(1), at(3_002));
    let after = driver.node().status(&TestKey(1));
    let (_, early) = claim(driver, 1, 1, 62_999)?;
    let (_, late) = claim(driver, 1, 1, 63_000)?;
    Ok(([again, closing], [before, after], [early, late]))
}

#[test]
fn a_peer_greets_once(rt: HostRuntime) -> Result<(), Fail> {
    let alloc = rt.alloc();
    for word in ["1@1000", "1@2000"] {
        let found = driven(alloc, SETTINGS, pace(alloc), |driver| {
            second(alloc, driver, word)
        })??;
        let (came, statuses, claims) = found;
        let why = Why::Breach(Breach::SecondGreeting);
        let broken = Admission::Heard(Heard::Closing(why));
        assert_eq!(rt; came, [broken, Admission::Closing]);
        assert_eq!(rt; statuses, [Some(Status::Active), Some(Status::Inert)]);
        assert_eq!(rt; claims, [false, true]);
    }
    Ok(())
}
