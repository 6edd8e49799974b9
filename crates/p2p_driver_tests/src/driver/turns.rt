//! Which set a peer is asked for next, and how, by the bytes of each question.

use p2p_discovery::codec::TestKey;
use p2p_driver::driver::Driver;
use p2p_driver::pace::Pace;
use p2p_driver_fixtures::{
    SETTINGS, Said, admit, at, driven, greet, next, next_two, pace, prove, sends, tested, track,
};
use std::alloc::Global;
use std::test::Fail;
use std::time::Duration;

// A tick of a tested driver: the line of a set that comes a second before, if one does, and the
// question that is asked.
type Tick = (Option<&'static str>, &'static [u8]);

// The lines of sets that a tested driver tracks first, the question that peer 1 is asked when it
// greets, and its ticks after that.
struct Turns {
    lines: &'static [&'static str],
    first: &'static [u8],
    ticks: &'static [Tick],
}

// Has peer 1 greet at 2 s, and returns whether the tested driver asks this then, and nothing more.
fn asks_first(alloc: Global, driver: &mut Driver<TestKey>, question: &[u8]) -> Result<bool, Fail> {
    prove(driver, 1, 1, 1_000)?;
    let _greeted = greet(alloc, driver, "1@1000", 2_000)?;
    next_two(driver);
    Ok(sends(driver, question) && next(driver) == Said::Nothing)
}

// Whether the tested driver asks peer 1 this at each tick after 2 s, and nothing more. Each is told
// in time, and peer 1 isn't silent.
fn asks_at(alloc: Global, driver: &mut Driver<TestKey>, ticks: &[Tick]) -> Result<bool, Fail> {
    let mut all = true;
    let mut millis = 2_000u64;
    for (line, question) in ticks {
        millis = millis.saturating_add(30_000);
        let before = millis.saturating_sub(1_000);
        if let Some(line) = line {
            track(alloc, driver, *line, before)?;
        }
        admit(alloc, driver, &[3, 0], before)?;
        driver.timeout(&[], at(millis))?;
        all = all && sends(driver, *question) && next(driver) == Said::Nothing;
    }
    Ok(all)
}

// Whether the tested driver asks peer 1 as expected.
fn asks(alloc: Global, driver: &mut Driver<TestKey>, turns: &Turns) -> Result<bool, Fail> {
    for line in turns.lines {
        track(alloc, driver, *line, 0)?;
    }
    let first = asks_first(alloc, driver, turns.first)?;
    Ok(first && asks_at(alloc, driver, turns.ticks)?)
}

// Questions for sets in which the info of peer 1 is known, and no other.
const SET_3: &'static [u8] = &[2, 3, 1, 1];

const SET_5: &'static [u8] = &[2, 5, 2, 1];

const SET_9: &'static [u8] = &[2, 9, 3, 1];

const SET_12: &'static [u8] = &[2, 12, 4, 1];

static IN_TURN: Turns = Turns {
    lines: &["track 3 1", "track 5 1,2", "track 9 1,2,3"],
    first: SET_3,
    ticks: &[
        (None, SET_5),
        (None, SET_9),
        (None, SET_3),
        (None, SET_5),
        (None, SET_9),
    ],
};

#[test]
fn sets_are_asked_for_in_turn(rt: HostRuntime) -> Result<(), Fail> {
    let alloc = rt.alloc();
    let found = driven(alloc, "cooldown=60 max_sets=3", pace(alloc), |driver| {
        asks(alloc, driver, &IN_TURN)
    })??;
    assert!(rt; found);
    Ok(())
}

static COMING: Turns = Turns {
    lines: &["track 3 1", "track 5 1,2"],
    first: SET_3,
    ticks: &[
        (Some("track 9 1,2,3"), SET_5),
        (Some("track 12 1,2,3,4"), SET_9),
        (None, SET_12),
        (None, SET_3),
        (None, SET_5),
        (None, SET_9),
    ],
};

#[test]
fn a_set_that_comes_is_asked_for_in_its_turn(rt: HostRuntime) -> Result<(), Fail> {
    let alloc = rt.alloc();
    let found = driven(alloc, "cooldown=60 max_sets=4", pace(alloc), |driver| {
        asks(alloc, driver, &COMING)
    })??;
    assert!(rt; found);
    Ok(())
}

// Where two sets are retained, that which was asked for last is gone at each tick but the last.
static TWO: Turns = Turns {
    lines: &["track 3 1", "track 5 1,2"],
    first: SET_3,
    ticks: &[
        (Some("track 9 1,2,3"), SET_5),
        (Some("track 12 1,2,3,4"), SET_9),
        (Some("track 14 1"), SET_12),
        (Some("track 20 1,2"), &[2, 14, 1, 1]),
        (None, &[2, 20, 2, 1]),
    ],
};

static ONE: Turns = Turns {
    lines: &["track 5 1,2"],
    first: SET_5,
    ticks: &[(None, SET_5), (Some("track 12 1,2,3,4"), SET_12)],
};

#[test]
fn after_a_set_that_is_gone_the_next_greater_one_comes(rt: HostRuntime) -> Result<(), Fail> {
    let alloc = rt.alloc();
    let two = driven(alloc, "cooldown=60 max_sets=2", pace(alloc), |driver| {
        asks(alloc, driver, &TWO)
    })??;
    let one = driven(alloc, SETTINGS, pace(alloc), |driver| {
        asks(alloc, driver, &ONE)
    })??;
    assert_eq!(rt; (two, one), (true, true));
    Ok(())
}

// The recommended settings, with so many rounds from one full question to the next.
fn refreshed(alloc: Global, refresh: u32) -> Pace {
    let mut pace = pace(alloc);
    pace.refresh = refresh;
    pace
}

// Questions for the set of 1, 2 and 9, in which the infos of 1 and of the tested node itself are
// known: for those that are wanted, and for all.
const WANTED: &'static [u8] = &[2, 0, 3, 5];

const FULL: &'static [u8] = &[2, 0, 3, 4];

// Questions of which none is full, each, each second one, and each third.
static FULL_ONES: [(u32, [&'static [u8]; 5]); 5] = [
    (0, [WANTED, WANTED, WANTED, WANTED, WANTED]),
    (1, [FULL, FULL, FULL, FULL, FULL]),
    (2, [FULL, WANTED, FULL, WANTED, FULL]),
    (3, [WANTED, FULL, WANTED, WANTED, FULL]),
    (u32::MAX, [WANTED, WANTED, WANTED, WANTED, WANTED]),
];

// Whether the tested driver, whose set is that of 1, 2 and 9, asks these in five rounds after the
// first, which isn't full.
fn rounds(
    alloc: Global,
    driver: &mut Driver<TestKey>,
    questions: &[&'static [u8]; 5],
) -> Result<bool, Fail> {
    track(alloc, driver, "track 0 1,2,9", 0)?;
    let first = asks_first(alloc, driver, WANTED)?;
    let ticks: [Tick; 5] = [
        (None, questions[0]),
        (None, questions[1]),
        (None, questions[2]),
        (None, questions[3]),
        (None, questions[4]),
    ];
    Ok(first && asks_at(alloc, driver, &ticks)?)
}

#[test]
fn some_rounds_ask_for_all_infos(rt: HostRuntime) -> Result<(), Fail> {
    let alloc = rt.alloc();
    for (refresh, questions) in &FULL_ONES {
        let found = tested(alloc, refreshed(alloc, *refresh), |driver| {
            rounds(alloc, driver, questions)
        })??;
        assert_eq!(rt; (*refresh, found), (*refresh, true));
    }
    Ok(())
}

// Where each second round of the newest set is full: of 5, and then of 9.
static NEWEST: Turns = Turns {
    lines: &["track 3 1", "track 5 1,2"],
    first: SET_3,
    ticks: &[
        (None, SET_5),
        (None, SET_3),
        (None, &[2, 5, 2, 0]),
        (Some("track 9 1,2,3"), SET_9),
        (None, SET_3),
        (None, SET_5),
        (None, &[2, 9, 3, 0]),
    ],
};

#[test]
fn only_questions_for_the_newest_set_are_full(rt: HostRuntime) -> Result<(), Fail> {
    let alloc = rt.alloc();
    let settings = "cooldown=60 max_sets=3";
    let found = driven(alloc, settings, refreshed(alloc, 2), |driver| {
        asks(alloc, driver, &NEWEST)
    })??;
    assert!(rt; found);
    Ok(())
}

// Of 41 rounds of the one set of the tested driver, the first that asks for all infos, and how many
// do.
fn full_rounds(alloc: Global, driver: &mut Driver<TestKey>) -> Result<(u64, u64), Fail> {
    track(alloc, driver, "track 0 1,2,9", 0)?;
    asks_first(alloc, driver, WANTED)?;
    let (mut first, mut count) = (0u64, 0u64);
    for round in 2..=41u64 {
        driver.timeout(&[], at(round.saturating_mul(30_000)))?;
        if sends(driver, FULL) {
            count = count.saturating_add(1);
            if first == 0 {
                first = round;
            }
        }
    }
    Ok((first, count))
}

#[test]
fn each_tenth_round_is_full_as_recommended(rt: HostRuntime) -> Result<(), Fail> {
    let alloc = rt.alloc();
    let mut pace = pace(alloc);
    pace.silence = Duration::from_secs(3_600);
    let found = driven(alloc, SETTINGS, pace, |driver| full_rounds(alloc, driver))??;
    // Rounds 10, 20, 30 and 40.
    assert_eq!(rt; found, (10, 4));
    Ok(())
}

static EMPTY: Turns = Turns {
    lines: &[],
    first: &[3, 0],
    ticks: &[
        (None, &[3, 0]),
        (None, &[3, 0]),
        (Some("track 0 1,2,9"), WANTED),
        (None, FULL),
    ],
};

#[test]
fn without_a_set_each_question_is_the_empty_list(rt: HostRuntime) -> Result<(), Fail> {
    let alloc = rt.alloc();
    let settings = "cooldown=60 boot=1@1.2.3.4:8001";
    let found = driven(alloc, settings, refreshed(alloc, 2), |driver| {
        asks(alloc, driver, &EMPTY)
    })??;
    assert!(rt; found);
    Ok(())
}
