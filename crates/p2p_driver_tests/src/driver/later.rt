//! Links that are up, when they end, when a set closes them, and when there are two.

use p2p_directory::record::Status;
use p2p_discovery::codec::TestKey;
use p2p_driver::actions::{Breach, Event, Why};
use p2p_driver::admission::{Admission, Heard, Misjudged};
use p2p_driver::driver::Driver;
use p2p_driver::link::Link;
use p2p_driver_fixtures::{
    SETTINGS, Said, admit, admitted, at, driven, frame, greeting, list, next, next_two, open, pace,
    prove, track, with_channels,
};
use std::alloc::Global;
use std::test::Fail;

// Whether the link of peer 1 ends, on which a list waits, what the tested driver says, and how the
// peer stands; what comes of the verdict then; and what becomes of a question first on the next
// link, after the cooldown.
type Anew = (
    bool,
    [Said; 2],
    Option<Status>,
    Result<Heard, Misjudged>,
    Admission,
);

fn anew(alloc: Global, driver: &mut Driver<TestKey>) -> Result<Anew, Fail> {
    open(alloc, driver, "track 0 1,2")?;
    admitted(driver, Link(1), &list(alloc, &["2@1000"])?, at(3_000));
    let ended = driver.ended(Link(1), at(4_000));
    let said = next_two(driver);
    let status = driver.node().status(&TestKey(1));
    let verdict = driver.judged(Link(1), &[true], at(4_001));
    prove(driver, 1, 1, 61_000)?;
    let question = frame(alloc, &[2, 0, 2, 0])?;
    let first = admitted(driver, Link(2), &question, at(61_001));
    Ok((ended, said, status, verdict, first))
}

#[test]
fn a_peer_greets_on_each_of_its_links(rt: HostRuntime) -> Result<(), Fail> {
    let alloc = rt.alloc();
    let found = driven(alloc, SETTINGS, pace(alloc), |driver| anew(alloc, driver))??;
    let (ended, said, status, verdict, first) = found;
    let down = Said::Told(Event::Down(Link(1), TestKey(1), None));
    assert_eq!(rt; (ended, said), (true, [down, Said::Nothing]));
    assert_eq!(rt; (status, verdict), (Some(Status::Inert), Err(Misjudged)));
    let why = Why::Breach(Breach::NoGreeting);
    assert_eq!(rt; first, Admission::Heard(Heard::Closing(why)));
    Ok(())
}

// What the tested driver says when a set comes without peer 1, which is up, and when its link ends
// then.
fn without(alloc: Global, driver: &mut Driver<TestKey>) -> Result<([Said; 2], Said), Fail> {
    open(alloc, driver, "track 0 1,2")?;
    track(alloc, driver, "track 1 2,3", 3_000)?;
    let closed = next_two(driver);
    driver.ended(Link(1), at(4_000));
    Ok((closed, next(driver)))
}

#[test]
fn who_is_up_is_down_once(rt: HostRuntime) -> Result<(), Fail> {
    let alloc = rt.alloc();
    let found = driven(
        alloc,
        SETTINGS,
        pace(alloc),
        |driver| without(alloc, driver),
    )??;
    let down = Said::Told(Event::Down(Link(1), TestKey(1), Some(Why::NoSet)));
    let closed = [Said::Closed(1, Why::NoSet), down];
    assert_eq!(rt; found, (closed, Said::Nothing));
    Ok(())
}

// What the tested driver answers on link 2 to a greeting of peer 2 while a list waits on link 1, to
// the verdict, and to a list that it asked for; then on link 1 to the verdict that waits, and to a
// breach; and then on link 2 to a message.
type Two = (
    (Admission, Result<Heard, Misjudged>, Admission),
    (Result<Heard, Misjudged>, Admission),
    Admission,
);

fn two(alloc: Global, driver: &mut Driver<TestKey>) -> Result<Two, Fail> {
    open(alloc, driver, "track 0 1,2,3")?;
    prove(driver, 2, 2, 2_000)?;
    admitted(driver, Link(1), &list(alloc, &["3@1000"])?, at(3_000));
    let came = admitted(driver, Link(2), &greeting(alloc, "2@1000")?, at(3_001));
    let heard = driver.judged(Link(2), &[true], at(3_002));
    let asked = admitted(driver, Link(2), &list(alloc, &["3@2000"])?, at(3_003));
    let waited = driver.judged(Link(1), &[true], at(3_004));
    let broken = admit(alloc, driver, &[1], 3_005)?;
    let _heard = driver.judged(Link(2), &[true], at(3_006));
    let message = frame(alloc, &[0, 3, 0])?;
    let last = admitted(driver, Link(2), &message, at(3_007));
    Ok(((came, heard, asked), (waited, broken), last))
}

#[test]
fn links_of_two_peers_do_not_meet(rt: HostRuntime) -> Result<(), Fail> {
    let alloc = rt.alloc();
    let found = driven(alloc, SETTINGS, with_channels(alloc)?, |driver| {
        two(alloc, driver)
    })??;
    let (second, first, last) = found;
    let (came, heard, asked) = second;
    assert_eq!(rt; (came, heard), (Admission::Verify(1), Ok(Heard::Greeted)));
    assert_eq!(rt; asked, Admission::Verify(1));
    let why = Why::Breach(Breach::SecondGreeting);
    let broken = Admission::Heard(Heard::Closing(why));
    assert_eq!(rt; first, (Ok(Heard::Applied(1)), broken));
    let message = 3usize..3;
    let delivered = Heard::Message {
        channel: 3,
        message,
    };
    assert_eq!(rt; last, Admission::Heard(delivered));
    Ok(())
}

// What the tested driver says of links 1 and 2 when each of two peers asks.
fn both_ask(alloc: Global, driver: &mut Driver<TestKey>) -> Result<([Said; 3], [Said; 2]), Fail> {
    open(alloc, driver, "track 0 1,2")?;
    prove(driver, 2, 2, 2_000)?;
    admitted(driver, Link(2), &greeting(alloc, "2@1000")?, at(3_001));
    let _heard = driver.judged(Link(2), &[true], at(3_002));
    let [first, second] = next_two(driver);
    let third = next(driver);
    let question = frame(alloc, &[2, 0, 2, 0])?;
    admitted(driver, Link(2), &question, at(3_003));
    admitted(driver, Link(1), &question, at(3_004));
    Ok(([first, second, third], next_two(driver)))
}

#[test]
fn a_reply_goes_to_who_asked(rt: HostRuntime) -> Result<(), Fail> {
    let alloc = rt.alloc();
    let found = driven(
        alloc,
        SETTINGS,
        pace(alloc),
        |driver| both_ask(alloc, driver),
    )??;
    let up = Said::Told(Event::Up(Link(2), TestKey(2)));
    let greeted = [Said::Sent(2), up, Said::Sent(2)];
    assert_eq!(rt; found, (greeted, [Said::Sent(2), Said::Sent(1)]));
    Ok(())
}
