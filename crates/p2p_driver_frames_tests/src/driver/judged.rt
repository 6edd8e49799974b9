//! Verdicts: infos that are refused, and those of the future.

use p2p_discovery::codec::TestKey;
use p2p_discovery::discovery::Error;
use p2p_driver::actions::{Breach, Event, Why};
use p2p_driver::admission::{Admission, Heard, Misjudged};
use p2p_driver::driver::Driver;
use p2p_driver::link::Link;
use p2p_driver_fixtures::{
    SETTINGS, Said, admitted, at, driven, greeting, list, next, next_two, open, pace, prove,
    tested, track,
};
use std::alloc::Global;
use std::test::Fail;
use std::time::Duration;

// What the tested driver answers to the greeting of peer 1 at 2 s, and to the verdict at 3 s; what
// is said behind its own greeting; when a block ends; and whether the address of peer 1 is known.
type Greeting = (
    Admission,
    Result<Heard, Misjudged>,
    ([Said; 2], Said),
    Option<Duration>,
    bool,
);

fn greets(
    alloc: Global,
    driver: &mut Driver<TestKey>,
    word: &'static str,
    right: bool,
) -> Result<Greeting, Fail> {
    track(alloc, driver, "track 0 1,2", 0)?;
    prove(driver, 1, 1, 1_000)?;
    next(driver);
    let came = admitted(driver, Link(1), &greeting(alloc, word)?, at(2_000));
    let heard = driver.judged(Link(1), &[right], at(3_000));
    let said = next_two(driver);
    let known = driver.node().ingress(&TestKey(1))?.is_some();
    let until = driver.node().next_unblock();
    Ok((came, heard, (said, next(driver)), until, known))
}

#[test]
fn a_greeting_with_a_false_signature_is_a_breach(rt: HostRuntime) -> Result<(), Fail> {
    let alloc = rt.alloc();
    let found = driven(alloc, SETTINGS, pace(alloc), |driver| {
        greets(alloc, driver, "1@1000", false)
    })??;
    let (came, heard, said, until, known) = found;
    let breach = Breach::Invalid(Error::InvalidSignature);
    let why = Why::Breach(breach);
    assert_eq!(rt; came, Admission::Verify(1));
    assert_eq!(rt; heard, Ok(Heard::Closing(why)));
    let blocked = Said::Told(Event::Blocked(TestKey(1), breach));
    assert_eq!(rt; said, ([Said::Closed(1, why), blocked], Said::Nothing));
    assert_eq!(rt; (until, known), (Some(Duration::from_secs(63)), false));
    Ok(())
}

#[test]
fn a_greeting_of_the_future_is_closed_alone(rt: HostRuntime) -> Result<(), Fail> {
    let alloc = rt.alloc();
    // It came at 998 s, and the bound is 30 s.
    for right in [true, false] {
        let found = tested(alloc, pace(alloc), |driver| {
            greets(alloc, driver, "1@1028001", right)
        })??;
        let (came, heard, said, until, known) = found;
        assert_eq!(rt; came, Admission::Verify(1));
        assert_eq!(rt; heard, Ok(Heard::Closing(Why::Future)));
        let closed = [Said::Closed(1, Why::Future), Said::Nothing];
        assert_eq!(rt; said, (closed, Said::Nothing));
        assert_eq!(rt; (until, known), (None, false));
    }
    Ok(())
}

#[test]
fn a_greeting_is_judged_by_the_time_at_which_it_came(rt: HostRuntime) -> Result<(), Fail> {
    let alloc = rt.alloc();
    // The bound at 998 s. The wall clock went back to 997 s before the verdict.
    let found = driven(alloc, SETTINGS, pace(alloc), |driver| {
        greets(alloc, driver, "1@1028000", true)
    })??;
    let (came, heard, said, until, known) = found;
    assert_eq!(rt; came, Admission::Verify(1));
    assert_eq!(rt; heard, Ok(Heard::Greeted));
    let up = Said::Told(Event::Up(Link(1), TestKey(1)));
    assert_eq!(rt; said, ([up, Said::Sent(1)], Said::Nothing));
    assert_eq!(rt; (until, known), (None, true));
    Ok(())
}

// A list that was asked for, and what comes of it.
struct Case {
    words: &'static [&'static str],
    // The verdicts, none if it isn't to be verified.
    verdicts: &'static [bool],
    why: Why,
}

const SIGNATURE: Why = Why::Breach(Breach::Invalid(Error::InvalidSignature));

const SELF: Why = Why::Breach(Breach::Invalid(Error::ReceivedSelf));

// Lists that come at 996 s, with a bound of 30 s, of peers 2 and 3 and of the node's own key, 9.
static CASES: [Case; 9] = [
    Case {
        words: &["2@1000"],
        verdicts: &[false],
        why: SIGNATURE,
    },
    Case {
        words: &["2@1000", "3@1000"],
        verdicts: &[true, false],
        why: SIGNATURE,
    },
    Case {
        words: &["2@1000", "9@1000"],
        verdicts: &[true],
        why: SELF,
    },
    Case {
        words: &["2@1000", "9@1000"],
        verdicts: &[false],
        why: SIGNATURE,
    },
    Case {
        words: &["9@1000", "2@1000"],
        verdicts: &[],
        why: SELF,
    },
    Case {
        words: &["2@1026001"],
        verdicts: &[],
        why: Why::Future,
    },
    Case {
        words: &["2@1000", "3@1026001"],
        verdicts: &[true],
        why: Why::Future,
    },
    Case {
        words: &["2@1000", "3@1026001"],
        verdicts: &[false],
        why: SIGNATURE,
    },
    Case {
        words: &["9@1026001"],
        verdicts: &[],
        why: SELF,
    },
];

// What is said of a list that is refused by the tested driver, and whether the address of peer 2 is
// known then.
type Refused = (Admission, Result<Heard, Misjudged>, ([Said; 2], Said), bool);

fn refused(
    alloc: Global,
    driver: &mut Driver<TestKey>,
    words: &[&'static str],
    verdicts: &[bool],
) -> Result<Refused, Fail> {
    open(alloc, driver, "track 0 1,2,3")?;
    let came = admitted(driver, Link(1), &list(alloc, words)?, at(4_000));
    let heard = driver.judged(Link(1), verdicts, at(5_000));
    let said = next_two(driver);
    let known = driver.node().ingress(&TestKey(2))?.is_some();
    Ok((came, heard, (said, next(driver)), known))
}

// What is said last of a link that is closed so.
fn last_of(why: Why) -> Said {
    match why {
        Why::Breach(breach) => Said::Told(Event::Blocked(TestKey(1), breach)),
        _ => Said::Nothing,
    }
}

#[test]
fn a_list_is_refused_whole(rt: HostRuntime) -> Result<(), Fail> {
    let alloc = rt.alloc();
    for case in &CASES {
        let (words, verdicts, why) = (case.words, case.verdicts, case.why);
        let found = tested(alloc, pace(alloc), |driver| {
            refused(alloc, driver, words, verdicts)
        })??;
        let (came, heard, said, known) = found;
        if verdicts.is_empty() {
            assert_eq!(rt; came, Admission::Heard(Heard::Closing(why)));
            assert_eq!(rt; heard, Err(Misjudged));
        } else {
            assert_eq!(rt; came, Admission::Verify(verdicts.len()));
            assert_eq!(rt; heard, Ok(Heard::Closing(why)));
        }
        let down = Said::Told(Event::Down(Link(1), TestKey(1), Some(why)));
        assert_eq!(rt; said, ([Said::Closed(1, why), down], last_of(why)));
        assert!(rt; !known);
    }
    Ok(())
}

#[test]
fn a_list_has_no_more_infos_than_are_allowed(rt: HostRuntime) -> Result<(), Fail> {
    let alloc = rt.alloc();
    let settings = "cooldown=60 gossip=1";
    let found = driven(alloc, settings, pace(alloc), |driver| {
        refused(alloc, driver, &["2@1000", "3@1000"], &[])
    })??;
    let (came, heard, said, known) = found;
    let why = Why::Breach(Breach::Invalid(Error::TooManyPeers(2)));
    assert_eq!(rt; came, Admission::Heard(Heard::Closing(why)));
    assert_eq!(rt; heard, Err(Misjudged));
    let down = Said::Told(Event::Down(Link(1), TestKey(1), Some(why)));
    assert_eq!(rt; said, ([Said::Closed(1, why), down], last_of(why)));
    assert!(rt; !known);
    Ok(())
}

// What the tested driver answers to a list with an info at the bound of 1,026 s and to the verdict.
fn at_bound(
    alloc: Global,
    driver: &mut Driver<TestKey>,
) -> Result<(Admission, Result<Heard, Misjudged>), Fail> {
    open(alloc, driver, "track 0 1,2")?;
    let came = admitted(driver, Link(1), &list(alloc, &["2@1026000"])?, at(4_000));
    Ok((came, driver.judged(Link(1), &[true], at(5_000))))
}

#[test]
fn an_info_at_the_bound_is_taken(rt: HostRuntime) -> Result<(), Fail> {
    let alloc = rt.alloc();
    let found = driven(
        alloc,
        SETTINGS,
        pace(alloc),
        |driver| at_bound(alloc, driver),
    )??;
    assert_eq!(rt; found, (Admission::Verify(1), Ok(Heard::Applied(1))));
    Ok(())
}
