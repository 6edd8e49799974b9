//! Questions of a peer, and the first one that it is asked.

use p2p_discovery::codec::TestKey;
use p2p_driver::admission::{Admission, Heard};
use p2p_driver::driver::Driver;
use p2p_driver::link::{Link, Now};
use p2p_driver_fixtures::{
    SETTINGS, Said, admit, admitted, at, at_wall, driven, frame, greet, infos, list, next, open,
    pace, prove, sends, tested, track,
};
use std::alloc::Global;
use std::test::Fail;

// The infos of peer 1, which has greeted, and of the tested node.
const BOTH: [&'static str; 2] = ["1@1000", "9@0@8.8.8.8:9000"];

const OWN: [&'static str; 1] = ["9@0@8.8.8.8:9000"];

// What is answered to a question at this time, and whether the reply has exactly these infos and
// nothing more is said, by the tested driver, in whose set are 1, 2 and 9.
fn answered(
    alloc: Global,
    driver: &mut Driver<TestKey>,
    question: &[u8],
    now: Now,
    words: &[&'static str],
) -> Result<(Admission, bool), Fail> {
    open(alloc, driver, "track 0 1,2,9")?;
    driver.update_peers(infos(alloc, &["2@1000"])?, at(2_000));
    let came = admitted(driver, Link(1), &frame(alloc, question)?, now);
    let reply = list(alloc, words)?;
    let sent = sends(driver, reply.as_slice());
    Ok((came, sent && next(driver) == Said::Nothing))
}

// A question, the wall clock at it in milliseconds, and the infos of the reply.
struct Case {
    question: &'static [u8],
    wall: u64,
    words: &'static [&'static str],
}

// Questions for all, for those without peer 1, and for peer 2 alone, which has no link; for all,
// when the info of peer 1 is of now, and when it is of the future; and for a set that there isn't.
static CASES: [Case; 6] = [
    Case {
        question: &[2, 0, 3, 0],
        wall: 900_000,
        words: &BOTH,
    },
    Case {
        question: &[2, 0, 3, 1],
        wall: 900_000,
        words: &OWN,
    },
    Case {
        question: &[2, 0, 3, 5],
        wall: 900_000,
        words: &[],
    },
    Case {
        question: &[2, 0, 3, 0],
        wall: 1_000,
        words: &BOTH,
    },
    Case {
        question: &[2, 0, 3, 0],
        wall: 999,
        words: &OWN,
    },
    Case {
        question: &[2, 7, 3, 0],
        wall: 900_000,
        words: &[],
    },
];

#[test]
fn a_question_is_answered_with_infos_of_who_is_connected(rt: HostRuntime) -> Result<(), Fail> {
    let alloc = rt.alloc();
    for case in &CASES {
        let (question, words) = (case.question, case.words);
        let now = at_wall(3_000, case.wall);
        let found = tested(alloc, pace(alloc), |driver| {
            answered(alloc, driver, question, now, words)
        })??;
        assert_eq!(rt; found, (Admission::Heard(Heard::Answered), true));
    }
    Ok(())
}

// Whether the tested driver asks peer 1 this first, after it greeted at 2 s, and nothing more.
fn asks(
    alloc: Global,
    driver: &mut Driver<TestKey>,
    line: Option<&'static str>,
    known: &[&'static str],
    question: &[u8],
) -> Result<bool, Fail> {
    if let Some(line) = line {
        track(alloc, driver, line, 0)?;
    }
    driver.update_peers(infos(alloc, known)?, at(0));
    prove(driver, 1, 1, 1_000)?;
    let _greeted = greet(alloc, driver, "1@1000", 2_000)?;
    next(driver);
    next(driver);
    Ok(sends(driver, question) && next(driver) == Said::Nothing)
}

#[test]
fn a_peer_is_asked_for_what_is_not_known(rt: HostRuntime) -> Result<(), Fail> {
    let alloc = rt.alloc();
    let line = Some("track 5 1,2,3,9");
    // Peers 1 and 3 are known, and the own info.
    let found = tested(alloc, pace(alloc), |driver| {
        asks(alloc, driver, line, &["3@1000"], &[2, 5, 4, 13])
    })??;
    assert!(rt; found);
    Ok(())
}

#[test]
fn without_a_set_the_empty_list_is_sent(rt: HostRuntime) -> Result<(), Fail> {
    let alloc = rt.alloc();
    let settings = "cooldown=60 boot=1@1.2.3.4:8001";
    let found = driven(alloc, settings, pace(alloc), |driver| {
        asks(alloc, driver, None, &[], &[3, 0])
    })??;
    assert!(rt; found);
    Ok(())
}

// Whether the tested driver, which retains two sets, asks for that with the least index.
fn asks_least(alloc: Global, driver: &mut Driver<TestKey>) -> Result<bool, Fail> {
    track(alloc, driver, "track 3 1", 0)?;
    asks(alloc, driver, Some("track 7 1,2"), &[], &[2, 3, 1, 1])
}

#[test]
fn the_set_with_the_least_index_is_asked_for_first(rt: HostRuntime) -> Result<(), Fail> {
    let alloc = rt.alloc();
    let settings = "cooldown=60 max_sets=2";
    let found = driven(alloc, settings, pace(alloc), |driver| {
        asks_least(alloc, driver)
    })??;
    assert!(rt; found);
    Ok(())
}

// What the tested driver answers to two questions, and to a list that it asked for.
fn many(alloc: Global, driver: &mut Driver<TestKey>) -> Result<[Admission; 3], Fail> {
    open(alloc, driver, "track 0 1,2")?;
    Ok([
        admit(alloc, driver, &[2, 0, 2, 0], 3_000)?,
        admit(alloc, driver, &[2, 0, 2, 0], 3_001)?,
        admitted(driver, Link(1), &list(alloc, &["2@1000"])?, at(3_002)),
    ])
}

#[test]
fn a_question_takes_no_question_that_is_owed(rt: HostRuntime) -> Result<(), Fail> {
    let alloc = rt.alloc();
    let found = driven(alloc, SETTINGS, pace(alloc), |driver| many(alloc, driver))??;
    let [first, second, third] = found;
    assert_eq!(rt; first, Admission::Heard(Heard::Answered));
    assert_eq!(rt; second, Admission::Heard(Heard::Answered));
    assert_eq!(rt; third, Admission::Verify(1));
    Ok(())
}
