//! Dials that end, or are given up, and arrivals of peers beside dials.

use p2p_directory::record::Status;
use p2p_discovery::codec::TestKey;
use p2p_driver::actions::Why;
use p2p_driver::driver::{Driver, Tracked};
use p2p_driver::link::Link;
use p2p_driver::pace::Pace;
use p2p_driver_fixtures::{
    SETTINGS, Said, at, claim, dialing, driven, greet, know, next, next_two, prove, tested, track,
};
use std::alloc::Global;
use std::test::Fail;
use std::time::Duration;

// Has the tested driver, which tracks and knows peers 1 and 2, dial peer 1 at 1 s, on link 1.
fn dial(alloc: Global, driver: &mut Driver<TestKey>) -> Result<(), Fail> {
    know(alloc, driver, "track 0 1,2", &["1@1000", "2@1000"])?;
    driver.timeout(&[0], at(1_000))?;
    next(driver);
    Ok(())
}

// How peer 1 stands, and its link.
fn seen(driver: &Driver<TestKey>) -> (Option<Status>, Option<Link>) {
    (
        driver.node().status(&TestKey(1)),
        driver.link_of(&TestKey(1)),
    )
}

// Peer 1 has no link, and is reserved.
const KEPT: (Option<Status>, Option<Link>) = (Some(Status::Reserved), None);

// Whether a dial ends that failed, and once more, and what is said; what is seen of its peer; who
// is dialled then, and at 60,999 ms and 61 s.
type Fails = (
    [bool; 2],
    Said,
    (Option<Status>, Option<Link>),
    [[Said; 2]; 3],
);

fn fails(alloc: Global, driver: &mut Driver<TestKey>) -> Result<Fails, Fail> {
    dial(alloc, driver)?;
    let ended = [
        driver.ended(Link(1), at(2_000)),
        driver.ended(Link(1), at(2_000)),
    ];
    let silent = next(driver);
    let kept = seen(driver);
    driver.timeout(&[0, 0], at(2_000))?;
    let other = next_two(driver);
    driver.ended(Link(2), at(3_000));
    driver.timeout(&[0, 0], at(60_999))?;
    let early = next_two(driver);
    driver.timeout(&[0, 0], at(61_000))?;
    Ok((ended, silent, kept, [other, early, next_two(driver)]))
}

#[test]
fn a_dial_that_failed_keeps_its_grant(rt: HostRuntime) -> Result<(), Fail> {
    let alloc = rt.alloc();
    let found = driven(alloc, SETTINGS, dialing(alloc), |driver| {
        fails(alloc, driver)
    })??;
    let said = [
        [Said::Dialed(2, 2), Said::Nothing],
        [Said::Nothing, Said::Nothing],
        [Said::Dialed(3, 1), Said::Nothing],
    ];
    assert_eq!(rt; found, ([true, false], Said::Nothing, KEPT, said));
    Ok(())
}

// What gives a dial up.
#[derive(Clone, Copy)]
enum Gives {
    Parting,
    Block,
    Set,
    Time,
}

// Gives the dial of peer 1 up at 2 s, or when it is late. Returns whether that is so.
fn give_up(alloc: Global, driver: &mut Driver<TestKey>, gives: Gives) -> Result<bool, Fail> {
    Ok(match gives {
        Gives::Parting => driver.part(&TestKey(1), at(2_000)),
        Gives::Block => driver.block(&TestKey(1), at(2_000))?,
        Gives::Set => track(alloc, driver, "track 1 2,3", 2_000)? == Some(Tracked::Accepted),
        Gives::Time => driver.timeout(&[], at(6_000)).is_ok(),
    })
}

// Whether the dial of peer 1 is given up, and what is said; whether it may be proved then, by its
// own key and by another; what is said when all of these but a proof happen once more; what is seen
// while it is closing; whether it ends, and what is said; and what is seen then.
type Given = (
    bool,
    [Said; 2],
    [bool; 2],
    Said,
    (Option<Status>, Option<Link>),
    (bool, Said),
    Option<Link>,
);

fn given(alloc: Global, driver: &mut Driver<TestKey>, gives: Gives) -> Result<Given, Fail> {
    dial(alloc, driver)?;
    let given = give_up(alloc, driver, gives)?;
    let said = next_two(driver);
    let proofs = [
        driver.proved(Link(1), TestKey(1), 0, at(6_001))?,
        driver.proved(Link(1), TestKey(2), 0, at(6_001))?,
    ];
    driver.part(&TestKey(1), at(6_001));
    driver.block(&TestKey(1), at(6_001))?;
    track(alloc, driver, "track 2 2,3", 6_001)?;
    driver.timeout(&[], at(20_000))?;
    let silent = next(driver);
    let closing = seen(driver);
    let ended = (driver.ended(Link(1), at(21_000)), next(driver));
    let last = driver.link_of(&TestKey(1));
    Ok((given, said, proofs, silent, closing, ended, last))
}

#[test]
fn a_dial_is_given_up_once(rt: HostRuntime) -> Result<(), Fail> {
    let alloc = rt.alloc();
    let cases = [
        (Gives::Parting, Why::Application),
        (Gives::Block, Why::Blocked),
        (Gives::Set, Why::NoSet),
        (Gives::Time, Why::Slow),
    ];
    for (gives, why) in cases {
        let found = tested(alloc, dialing(alloc), |driver| given(alloc, driver, gives))??;
        let said = [Said::Closed(1, why), Said::Nothing];
        let closing = (Some(Status::Reserved), Some(Link(1)));
        let ended = (true, Said::Nothing);
        assert_eq!(rt;
            found,
            (
                true,
                said,
                [false, false],
                Said::Nothing,
                closing,
                ended,
                None
            )
        );
    }
    Ok(())
}

// What the tested driver says with a word while the dial of peer 1 is closing, which is the only
// one that has a place; and once it ended.
fn counted(alloc: Global, driver: &mut Driver<TestKey>) -> Result<[[Said; 2]; 2], Fail> {
    dial(alloc, driver)?;
    driver.part(&TestKey(1), at(2_000));
    next(driver);
    driver.timeout(&[0, 0], at(3_000))?;
    let closing = next_two(driver);
    driver.ended(Link(1), at(4_000));
    driver.timeout(&[0, 0], at(4_000))?;
    Ok([closing, next_two(driver)])
}

// The recommended settings, but for so many links, inbound ones among them, and one dial.
fn narrow(alloc: Global, links: usize, inbound: usize) -> Pace {
    let mut pace = dialing(alloc);
    pace.links = links;
    pace.inbound = inbound;
    pace.outbound = links;
    pace.dials = 1;
    pace
}

#[test]
fn a_dial_that_is_closing_counts(rt: HostRuntime) -> Result<(), Fail> {
    let alloc = rt.alloc();
    let pace = narrow(alloc, 4, 4);
    let found = driven(alloc, SETTINGS, pace, |driver| counted(alloc, driver))??;
    let silent = [Said::Nothing, Said::Nothing];
    assert_eq!(rt; found, [silent, [Said::Dialed(2, 2), Said::Nothing]]);
    Ok(())
}

// When peer 1, from which the application parted at 2 s, is dialled again: what is said at
// 60,999 ms and 61 s. Peer 2 has a link meanwhile.
fn parted(alloc: Global, driver: &mut Driver<TestKey>) -> Result<[[Said; 2]; 2], Fail> {
    dial(alloc, driver)?;
    driver.part(&TestKey(1), at(2_000));
    driver.ended(Link(1), at(2_001));
    next(driver);
    prove(driver, 1, 2, 59_000)?;
    next(driver);
    driver.timeout(&[0], at(60_999))?;
    let early = next_two(driver);
    driver.timeout(&[0], at(61_000))?;
    Ok([early, next_two(driver)])
}

#[test]
fn who_was_parted_from_may_be_dialled_again(rt: HostRuntime) -> Result<(), Fail> {
    let alloc = rt.alloc();
    let found = driven(alloc, SETTINGS, dialing(alloc), |driver| {
        parted(alloc, driver)
    })??;
    let silent = [Said::Nothing, Said::Nothing];
    assert_eq!(rt; found, [silent, [Said::Dialed(3, 1), Said::Nothing]]);
    Ok(())
}

// What becomes of streams of peer 10, whose key is above the own one: of one that has claimed
// before it is dialled, its proof; and of one that comes while the dial is under way, once its
// stream is proved, and once it ended, when its grant is kept, its claim; and what is said of each.
type Beside = ([bool; 2], [[Said; 2]; 4], [bool; 3]);

fn beside(alloc: Global, driver: &mut Driver<TestKey>) -> Result<Beside, Fail> {
    know(alloc, driver, "track 0 10", &["10@1000"])?;
    let (_, claimed) = claim(driver, 1, 10, 900)?;
    driver.timeout(&[0], at(1_000))?;
    next(driver);
    let proved = driver.proved(Link(1), TestKey(10), 0, at(1_001))?;
    let first = next_two(driver);
    let (_, dialed) = claim(driver, 1, 10, 1_002)?;
    let second = next_two(driver);
    driver.proved(Link(2), TestKey(10), 0, at(2_000))?;
    next(driver);
    let (_, reached) = claim(driver, 1, 10, 2_001)?;
    let third = next_two(driver);
    driver.ended(Link(2), at(3_000));
    let (_, ended) = claim(driver, 1, 10, 3_001)?;
    let all = [first, second, third, next_two(driver)];
    Ok(([claimed, proved], all, [dialed, reached, ended]))
}

#[test]
fn who_is_dialled_is_let_in_once_that_ended(rt: HostRuntime) -> Result<(), Fail> {
    let alloc = rt.alloc();
    let found = driven(alloc, SETTINGS, dialing(alloc), |driver| {
        beside(alloc, driver)
    })??;
    let refused = |link| [Said::Closed(link, Why::NotGranted), Said::Nothing];
    let silent = [Said::Nothing, Said::Nothing];
    let said = [refused(1), refused(3), refused(4), silent];
    assert_eq!(rt; found, ([true, false], said, [false, false, true]));
    Ok(())
}

// Whether peer 2 is let in while peer 1 is dialled, and once it is proved; and what is said with a
// word then.
type Places = ([(u64, bool); 2], [Said; 2], bool);

fn places(alloc: Global, driver: &mut Driver<TestKey>) -> Result<Places, Fail> {
    dial(alloc, driver)?;
    let first = claim(driver, 1, 2, 1_001)?;
    driver.proved(Link(1), TestKey(1), 0, at(2_000))?;
    let second = claim(driver, 1, 2, 2_001)?;
    let proved = driver.proved(Link(3), TestKey(2), 0, at(2_002))?;
    Ok(([first, second], next_two(driver), proved))
}

#[test]
fn dials_are_no_inbound_links(rt: HostRuntime) -> Result<(), Fail> {
    let alloc = rt.alloc();
    let pace = narrow(alloc, 2, 1);
    let found = driven(alloc, SETTINGS, pace, |driver| places(alloc, driver))??;
    let said = [Said::Sent(1), Said::Sent(3)];
    assert_eq!(rt; found, ([(2, true), (3, true)], said, true));
    Ok(())
}

#[test]
fn dials_take_places_of_links(rt: HostRuntime) -> Result<(), Fail> {
    let alloc = rt.alloc();
    let pace = narrow(alloc, 1, 1);
    let found = driven(alloc, SETTINGS, pace, |driver| places(alloc, driver))??;
    let said = [Said::Closed(2, Why::NotGranted), Said::Sent(1)];
    assert_eq!(rt; found, ([(2, false), (3, false)], said, false));
    Ok(())
}

// Whether a link to peer 1, which was dialled and has greeted, is closed by a set without it, and
// what is said; who is dialled when it ended; and when the tested driver wakes then.
type Torn = (bool, [Said; 2], [Said; 2], Option<Duration>);

fn torn(alloc: Global, driver: &mut Driver<TestKey>) -> Result<Torn, Fail> {
    dial(alloc, driver)?;
    driver.proved(Link(1), TestKey(1), 0, at(2_000))?;
    let _ = greet(alloc, driver, "1@1000", 3_000)?;
    next_two(driver);
    next(driver);
    let tracked = track(alloc, driver, "track 1 2,3", 4_000)? == Some(Tracked::Accepted);
    let [closed, _] = next_two(driver);
    driver.ended(Link(1), at(5_000));
    driver.timeout(&[0, 0, 0], at(5_000))?;
    let dialed = next_two(driver);
    Ok((
        tracked,
        [closed, next(driver)],
        dialed,
        driver.next_timeout(),
    ))
}

#[test]
fn a_dialled_link_is_closed_by_a_set(rt: HostRuntime) -> Result<(), Fail> {
    let alloc = rt.alloc();
    let found = driven(
        alloc,
        SETTINGS,
        dialing(alloc),
        |driver| torn(alloc, driver),
    )??;
    let closed = [Said::Closed(1, Why::NoSet), Said::Nothing];
    let dialed = [Said::Dialed(2, 2), Said::Nothing];
    let wake = Some(Duration::from_secs(10));
    assert_eq!(rt; found, (true, closed, dialed, wake));
    Ok(())
}
