//! Questions about frames that change nothing, and frames that aren't taken: what is seen of a
//! driver stays the same, and so does its latest time.

use p2p_directory::record::Status;
use p2p_discovery::codec::TestKey;
use p2p_driver::admission::{Admission, Read};
use p2p_driver::driver::{Counts, Driver};
use p2p_driver::link::Link;
use p2p_driver_fixtures::{
    SETTINGS, admitted, at, claim, driven, frame, ipv4, length, list, next_two, open, pace, tested,
    track,
};
use std::alloc::{AllocError, Global};
use std::test::Fail;
use std::time::Duration;

// A question.
const QUESTION: &'static [u8] = &[2, 0, 2, 0];

// How link 1 of a tested driver is.
#[derive(Clone, Copy)]
enum State {
    // There never was one.
    Never,
    // The stream has claimed, and isn't proved.
    Claimed,
    // A list waits on it.
    Waiting,
    // The application parted from its peer.
    Closing,
    // It has ended.
    Ended,
}

fn bring(alloc: Global, driver: &mut Driver<TestKey>, state: State) -> Result<(), Fail> {
    if matches!(state, State::Never | State::Claimed) {
        track(alloc, driver, "track 0 1,2", 0)?;
    } else {
        open(alloc, driver, "track 0 1,2")?;
    }
    match state {
        State::Never => {}
        State::Claimed => {
            claim(driver, 1, 1, 1_000)?;
        }
        State::Waiting => {
            admitted(driver, Link(1), &list(alloc, &["2@1000"])?, at(3_000));
        }
        State::Closing => {
            driver.part(&TestKey(1), at(3_000));
        }
        State::Ended => {
            driver.ended(Link(1), at(3_000));
        }
    }
    next_two(driver);
    next_two(driver);
    Ok(())
}

// What is seen of the tested driver: how much there is, when it wakes, how peer 1 stands, and when
// a block ends.
type Seen = (Counts, Option<Duration>, Option<Status>, Option<Duration>);

fn seen(driver: &Driver<TestKey>) -> Seen {
    (
        driver.counts(),
        driver.next_timeout(),
        driver.node().status(&TestKey(1)),
        driver.node().next_unblock(),
    )
}

// When a stream is late that comes at 5 s, once link 1 has ended.
fn late(driver: &mut Driver<TestKey>) -> Result<Option<Duration>, AllocError> {
    driver.ended(Link(1), at(5_000));
    driver.arrived(ipv4(2), at(5_000))?;
    Ok(driver.next_timeout())
}

// What is said at 900 s of a question on link 1, and of a frame that is far too long; whether what
// is seen stays the same; and when a stream is late.
type Idle = ([Read; 2], bool, Option<Duration>);

fn idle(alloc: Global, driver: &mut Driver<TestKey>, state: State) -> Result<Idle, Fail> {
    bring(alloc, driver, state)?;
    let before = seen(driver);
    let read = [
        length(driver, Link(1), QUESTION, at(900_000)),
        driver.length(Link(1), QUESTION, usize::MAX, at(900_000)),
    ];
    let same = seen(driver) == before;
    Ok((read, same, late(driver)?))
}

#[test]
fn where_no_frame_is_read_nothing_changes(rt: HostRuntime) -> Result<(), Fail> {
    let alloc = rt.alloc();
    let cases = [
        (State::Never, Read::Unknown),
        (State::Claimed, Read::Unknown),
        (State::Waiting, Read::Judging),
        (State::Closing, Read::Closing),
        (State::Ended, Read::Unknown),
    ];
    for (state, read) in cases {
        let found = tested(alloc, pace(alloc), |driver| idle(alloc, driver, state))??;
        assert_eq!(rt; found, ([read, read], true, Some(Duration::from_secs(8))));
    }
    Ok(())
}

// What becomes at 900 s of a question that wasn't to be read; whether what is seen stays the same;
// and when a stream is late.
fn unasked(
    alloc: Global,
    driver: &mut Driver<TestKey>,
) -> Result<(Admission, bool, Option<Duration>), Fail> {
    open(alloc, driver, "track 0 1,2")?;
    let before = seen(driver);
    let came = driver.admit(Link(1), &frame(alloc, QUESTION)?, at(900_000));
    let same = seen(driver) == before;
    Ok((came, same, late(driver)?))
}

#[test]
fn a_frame_that_is_not_taken_changes_nothing(rt: HostRuntime) -> Result<(), Fail> {
    let alloc = rt.alloc();
    let found = driven(
        alloc,
        SETTINGS,
        pace(alloc),
        |driver| unasked(alloc, driver),
    )??;
    let late = Some(Duration::from_secs(8));
    assert_eq!(rt; found, (Admission::Unasked, true, late));
    Ok(())
}
