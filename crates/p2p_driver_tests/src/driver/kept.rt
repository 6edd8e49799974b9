//! Grants that are kept of dials that came to nothing: until when, and who comes in by one.

use p2p_directory::record::Status;
use p2p_discovery::codec::TestKey;
use p2p_driver::actions::{Event, Why};
use p2p_driver::admission::Heard;
use p2p_driver::driver::Driver;
use p2p_driver::link::Link;
use p2p_driver::pace::Pace;
use p2p_driver_fixtures::{
    Said, admitted, at, claim, dialing, greeting, know, next, next_two, pass, prove, tested, track,
};
use std::alloc::Global;
use std::test::Fail;
use std::time::Duration;

// Has the tested driver, which tracks and knows peers 1, 2 and 10, dial one of them at 1 s, on link
// 1: the one at this place. The dial fails at 2 s.
fn fail(alloc: Global, driver: &mut Driver<TestKey>, place: u64) -> Result<(), Fail> {
    know(
        alloc,
        driver,
        "track 0 1,2,10",
        &["1@1000", "2@1000", "10@1000"],
    )?;
    driver.timeout(&[place], at(1_000))?;
    next(driver);
    driver.ended(Link(1), at(2_000));
    Ok(())
}

// The recommended settings, but for one dial.
fn one_dial(alloc: Global) -> Pace {
    let mut pace = dialing(alloc);
    pace.dials = 1;
    pace
}

// How a peer stands, and its link.
type Seen = (Option<Status>, Option<Link>);

fn seen(driver: &Driver<TestKey>, peer: u64) -> Seen {
    let key = TestKey(peer);
    (driver.node().status(&key), driver.link_of(&key))
}

// It is reserved, and has no link; it isn't; and there is no such peer.
const KEPT: Seen = (Some(Status::Reserved), None);

const FREE: Seen = (Some(Status::Inert), None);

const UNKNOWN: Seen = (None, None);

// A stream of the peer whose dial failed at 2 s comes at 3 s: whether it claims and is proved, what
// is said, and how its peer stands; whether it greets at 4 s, and what is said; and how its peer
// stands then.
type Back = ((u64, bool, bool), [Said; 2], Seen, bool, [Said; 2], Seen);

fn comes_back(
    alloc: Global,
    driver: &mut Driver<TestKey>,
    place: u64,
    peer: u64,
    word: &'static str,
) -> Result<Back, Fail> {
    fail(alloc, driver, place)?;
    let proved = prove(driver, 1, peer, 3_000)?;
    let said = next_two(driver);
    let reserved = seen(driver, peer);
    let _ = admitted(driver, Link(2), &greeting(alloc, word)?, at(4_000));
    let greeted = driver.judged(Link(2), &[true], at(4_000)) == Ok(Heard::Greeted);
    let told = next_two(driver);
    Ok((proved, said, reserved, greeted, told, seen(driver, peer)))
}

// Of peers whose keys are below and above the own one.
static KNOCKS: [(u64, u64, &'static str); 2] = [(0, 1, "1@1000"), (2, 10, "10@1000")];

#[test]
fn who_was_dialled_in_vain_is_let_in_at_its_first_knock(rt: HostRuntime) -> Result<(), Fail> {
    let alloc = rt.alloc();
    for (place, peer, word) in &KNOCKS {
        let found = tested(alloc, one_dial(alloc), |driver| {
            comes_back(alloc, driver, *place, *peer, *word)
        })??;
        let up = Said::Told(Event::Up(Link(2), TestKey(*peer)));
        assert_eq!(rt;
            found,
            (
                (2, true, true),
                [Said::Sent(2), Said::Nothing],
                (Some(Status::Reserved), Some(Link(2))),
                true,
                [up, Said::Sent(2)],
                (Some(Status::Active), Some(Link(2)))
            )
        );
    }
    Ok(())
}

// How peer 1 stands when its dial of 1 s failed, which had a jitter of 5 ns, and 59 s later; when
// the tested driver wakes; how the peer stands then; and when the driver wakes after that.
type Until = ([Seen; 2], Option<Duration>, Seen, Option<Duration>);

fn until(alloc: Global, driver: &mut Driver<TestKey>) -> Result<Until, Fail> {
    know(alloc, driver, "track 0 1", &["1@1000"])?;
    driver.timeout(&[5], at(1_000))?;
    driver.ended(Link(1), at(2_000));
    let failed = seen(driver, 1);
    driver.timeout(&[0], at(60_999))?;
    let last = seen(driver, 1);
    let wake = driver.next_timeout();
    driver.timeout(&[0], at(61_000))?;
    Ok(([failed, last], wake, seen(driver, 1), driver.next_timeout()))
}

#[test]
fn a_grant_is_kept_until_its_cooldown_is_over(rt: HostRuntime) -> Result<(), Fail> {
    let alloc = rt.alloc();
    let found = tested(alloc, one_dial(alloc), |driver| until(alloc, driver))??;
    let over = Some(Duration::from_secs(61));
    let dialable = Some(Duration::from_nanos(61_000_000_005));
    assert_eq!(rt; found, ([KEPT, KEPT], over, FREE, dialable));
    Ok(())
}

// What gives a kept grant up, or doesn't.
#[derive(Clone, Copy)]
enum Gives {
    Block,
    Set,
    SetWithIt,
    Parting,
}

// How peer 1 stands whose dial failed, once that came.
fn given_up(alloc: Global, driver: &mut Driver<TestKey>, gives: Gives) -> Result<Seen, Fail> {
    fail(alloc, driver, 0)?;
    match gives {
        Gives::Block => {
            driver.block(&TestKey(1), at(3_000))?;
        }
        Gives::Set => {
            track(alloc, driver, "track 1 2,3", 3_000)?;
        }
        Gives::SetWithIt => {
            track(alloc, driver, "track 1 1,3", 3_000)?;
        }
        Gives::Parting => {
            driver.part(&TestKey(1), at(3_000));
        }
    }
    Ok(seen(driver, 1))
}

#[test]
fn a_grant_is_kept_of_who_may_be_connected(rt: HostRuntime) -> Result<(), Fail> {
    let alloc = rt.alloc();
    let cases = [
        (Gives::Block, FREE),
        (Gives::Set, UNKNOWN),
        (Gives::SetWithIt, KEPT),
        (Gives::Parting, KEPT),
    ];
    for (gives, expected) in cases {
        let found = tested(alloc, one_dial(alloc), |driver| {
            given_up(alloc, driver, gives)
        })??;
        assert_eq!(rt; found, expected);
    }
    Ok(())
}

// How peer 1 stands once its dial, which began at 1 s, ended: when the cooldown is over; when it is
// blocked; and when it has greeted. And once a stream ended that had taken the grant over.
fn ends(alloc: Global, driver: &mut Driver<TestKey>, case: u32) -> Result<Seen, Fail> {
    know(alloc, driver, "track 0 1", &["1@1000"])?;
    driver.timeout(&[0], at(1_000))?;
    match case {
        0 => {
            driver.ended(Link(1), at(61_000));
        }
        1 => {
            driver.block(&TestKey(1), at(2_000))?;
            driver.ended(Link(1), at(3_000));
        }
        2 => {
            driver.proved(Link(1), TestKey(1), 0, at(2_000))?;
            let _ = admitted(driver, Link(1), &greeting(alloc, "1@1000")?, at(3_000));
            let _ = driver.judged(Link(1), &[true], at(3_000));
            driver.ended(Link(1), at(4_000));
        }
        _ => {
            driver.ended(Link(1), at(2_000));
            prove(driver, 1, 1, 3_000)?;
            driver.ended(Link(2), at(4_000));
        }
    }
    Ok(seen(driver, 1))
}

#[test]
fn only_a_dial_in_vain_keeps_its_grant(rt: HostRuntime) -> Result<(), Fail> {
    let alloc = rt.alloc();
    for case in 0..4u32 {
        let found = tested(alloc, dialing(alloc), |driver| ends(alloc, driver, case))??;
        assert_eq!(rt; found, FREE);
    }
    Ok(())
}

// Peer 1 comes back while its grant is kept, and then peer 2 comes: what is answered to their
// claims and proofs, and who is dialled with a word after that.
type Comes = ([(u64, bool, bool); 2], [Said; 5]);

fn come(alloc: Global, driver: &mut Driver<TestKey>) -> Result<Comes, Fail> {
    fail(alloc, driver, 0)?;
    let first = prove(driver, 1, 1, 3_000)?;
    let second = prove(driver, 1, 2, 3_000)?;
    for _ in 0..8u32 {
        next(driver);
    }
    Ok(([first, second], pass(driver, &[0], 3_000)?))
}

// Settings of so many links, inbound ones and outbound ones among them, and one dial.
fn narrow(alloc: Global, links: usize, inbound: usize, outbound: usize) -> Pace {
    let mut pace = one_dial(alloc);
    pace.links = links;
    pace.inbound = inbound;
    pace.outbound = outbound;
    pace
}

#[test]
fn who_comes_back_has_an_outbound_place(rt: HostRuntime) -> Result<(), Fail> {
    let alloc = rt.alloc();
    let pace = narrow(alloc, 3, 1, 1);
    let found = tested(alloc, pace, |driver| come(alloc, driver))??;
    let silent = Said::Nothing;
    let proved = [(2, true, true), (3, true, true)];
    assert_eq!(rt; found, (proved, [silent, silent, silent, silent, silent]));
    Ok(())
}

// Peer 10 is dialled meanwhile, and has the outbound place: whether peer 1 comes back as inbound,
// and then peer 2.
fn come_beside(
    alloc: Global,
    driver: &mut Driver<TestKey>,
) -> Result<([(u64, bool, bool); 2], Seen), Fail> {
    fail(alloc, driver, 0)?;
    driver.timeout(&[1], at(2_500))?;
    next(driver);
    let first = prove(driver, 1, 1, 3_000)?;
    let second = prove(driver, 1, 2, 3_000)?;
    Ok(([first, second], seen(driver, 1)))
}

#[test]
fn who_comes_back_has_an_inbound_place_if_no_outbound_is_free(rt: HostRuntime) -> Result<(), Fail> {
    let alloc = rt.alloc();
    let pace = narrow(alloc, 3, 1, 1);
    let found = tested(alloc, pace, |driver| come_beside(alloc, driver))??;
    let reserved = (Some(Status::Reserved), Some(Link(3)));
    assert_eq!(rt; found, ([(3, true, true), (4, false, false)], reserved));
    Ok(())
}

#[test]
fn who_comes_back_without_a_place_is_closed(rt: HostRuntime) -> Result<(), Fail> {
    let alloc = rt.alloc();
    let pace = narrow(alloc, 3, 0, 1);
    let found = tested(alloc, pace, |driver| {
        let found = come_beside(alloc, driver)?;
        let said = next_two(driver);
        Ok::<_, Fail>((found, said))
    })??;
    let refused = |link| Said::Closed(link, Why::NotGranted);
    let streams = [(3, false, false), (4, false, false)];
    assert_eq!(rt; found, ((streams, KEPT), [refused(3), refused(4)]));
    Ok(())
}

// What is answered to a claim of peer 1, and to a proof of peer 2 on its stream.
#[test]
fn a_kept_grant_is_of_its_own_peer(rt: HostRuntime) -> Result<(), Fail> {
    let alloc = rt.alloc();
    let found = tested(alloc, one_dial(alloc), |driver| {
        fail(alloc, driver, 0)?;
        let claimed = claim(driver, 1, 1, 3_000)?;
        let proved = driver.proved(Link(2), TestKey(2), 0, at(3_000))?;
        Ok::<_, Fail>((claimed, proved, next(driver), seen(driver, 1)))
    })??;
    let closed = Said::Closed(2, Why::WrongKey);
    assert_eq!(rt; found, ((2, true), false, closed, KEPT));
    Ok(())
}
