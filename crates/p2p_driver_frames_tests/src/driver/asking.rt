//! Which frames are taken: each that was to be read, once.

use p2p_discovery::codec::TestKey;
use p2p_driver::admission::{Admission, Heard, Misjudged, Read};
use p2p_driver::driver::Driver;
use p2p_driver::link::Link;
use p2p_driver_fixtures::{
    SETTINGS, admit, admitted, at, driven, frame, greeting, length, list, open, pace, prove,
    tested, track, with_channels,
};
use std::alloc::{AllocError, Global};
use std::test::Fail;

// The empty list, and a question.
const EMPTY: &'static [u8] = &[3, 0];

const QUESTION: &'static [u8] = &[2, 0, 2, 0];

// A message of nine bytes on channel 3, and such with another last byte, and another one before it.
const MESSAGE: &'static [u8] = &[0, 3, 9, 1, 2, 3, 4, 5, 6, 7, 8, 9];

const LAST: &'static [u8] = &[0, 3, 9, 1, 2, 3, 4, 5, 6, 7, 8, 0];

const ELEVENTH: &'static [u8] = &[0, 3, 9, 1, 2, 3, 4, 5, 6, 7, 0, 9];

// What the tested driver is asked about, each of a head and a length, and which frame comes then.
struct Case {
    asked: &'static [(&'static [u8], usize)],
    frame: &'static [u8],
}

// Frames that are taken: the only one that it was asked about, one that begins as it was told, the
// last, or one with the same first 11 bytes.
static TAKEN: [Case; 7] = [
    Case {
        asked: &[(EMPTY, 2)],
        frame: EMPTY,
    },
    Case {
        asked: &[(&[3], 2)],
        frame: EMPTY,
    },
    Case {
        asked: &[(QUESTION, 4), (EMPTY, 2)],
        frame: EMPTY,
    },
    Case {
        asked: &[(EMPTY, 2), (EMPTY, 2)],
        frame: EMPTY,
    },
    Case {
        asked: &[(&[0, 3, 9, 1, 2, 3, 4, 5, 6, 7, 8], 12)],
        frame: MESSAGE,
    },
    Case {
        asked: &[(&[0, 3, 9, 1, 2, 3, 4, 5, 6, 7, 8], 12)],
        frame: LAST,
    },
    Case {
        asked: &[(MESSAGE, 12)],
        frame: LAST,
    },
];

// Others: none that it was asked about, one that is longer or shorter, one with another head, one
// before the last, and one with another eleventh byte.
static OTHERS: [Case; 7] = [
    Case {
        asked: &[],
        frame: EMPTY,
    },
    Case {
        asked: &[(EMPTY, 3)],
        frame: EMPTY,
    },
    Case {
        asked: &[(QUESTION, 3)],
        frame: QUESTION,
    },
    Case {
        asked: &[(&[3, 1], 2)],
        frame: EMPTY,
    },
    Case {
        asked: &[(EMPTY, 2), (QUESTION, 4)],
        frame: EMPTY,
    },
    Case {
        asked: &[(EMPTY, 2), (&[0, 3, 0], 3)],
        frame: EMPTY,
    },
    Case {
        asked: &[(&[0, 3, 9, 1, 2, 3, 4, 5, 6, 7, 8], 12)],
        frame: ELEVENTH,
    },
];

// Whether all that the tested driver is asked about is to be read, and what becomes of the frame.
fn comes(
    alloc: Global,
    driver: &mut Driver<TestKey>,
    case: &Case,
) -> Result<(bool, Admission), Fail> {
    open(alloc, driver, "track 0 1,2")?;
    let mut all = true;
    for (head, length) in case.asked {
        all = all && driver.length(Link(1), *head, *length, at(3_000)) == Read::Now;
    }
    let frame = frame(alloc, case.frame)?;
    Ok((all, driver.admit(Link(1), &frame, at(3_001))))
}

#[test]
fn a_frame_is_taken_that_was_to_be_read(rt: HostRuntime) -> Result<(), Fail> {
    let alloc = rt.alloc();
    for case in &TAKEN {
        let found = tested(alloc, with_channels(alloc)?, |driver| {
            comes(alloc, driver, case)
        })??;
        let (all, came) = found;
        assert!(rt; all && matches!(came, Admission::Heard(_)));
    }
    Ok(())
}

#[test]
fn another_frame_is_not_taken(rt: HostRuntime) -> Result<(), Fail> {
    let alloc = rt.alloc();
    for case in &OTHERS {
        let found = tested(alloc, with_channels(alloc)?, |driver| {
            comes(alloc, driver, case)
        })??;
        assert_eq!(rt; found, (true, Admission::Unasked));
    }
    Ok(())
}

// Hands in a frame of link 1, and doesn't ask about it before.
fn comes_unasked(
    alloc: Global,
    driver: &mut Driver<TestKey>,
    bytes: &[u8],
    millis: u64,
) -> Result<Admission, AllocError> {
    Ok(driver.admit(Link(1), &frame(alloc, bytes)?, at(millis)))
}

// What becomes of a second frame like one that is ignored, applied, answered, or delivered.
fn twice(
    alloc: Global,
    driver: &mut Driver<TestKey>,
    bytes: &[u8],
) -> Result<(bool, Admission), Fail> {
    open(alloc, driver, "track 0 1,2")?;
    admitted(driver, Link(1), &list(alloc, &["2@1000"])?, at(3_000));
    let _heard = driver.judged(Link(1), &[true], at(3_000));
    let first = admit(alloc, driver, bytes, 3_001)?;
    let second = comes_unasked(alloc, driver, bytes, 3_001)?;
    Ok((first == Admission::Unasked, second))
}

#[test]
fn one_frame_is_taken(rt: HostRuntime) -> Result<(), Fail> {
    let alloc = rt.alloc();
    let frames: [&'static [u8]; 4] = [&[3, 1], EMPTY, QUESTION, MESSAGE];
    for bytes in frames {
        let found = tested(alloc, with_channels(alloc)?, |driver| {
            twice(alloc, driver, bytes)
        })??;
        assert_eq!(rt; found, (false, Admission::Unasked));
    }
    Ok(())
}

// What is said of a question while a list waits, and becomes of it; what comes of the verdict on
// the list, and becomes of the list once more, unasked; and what is said of the question then.
type Waits = ((Read, Admission), Result<Heard, Misjudged>, Admission, Read);

fn waits(alloc: Global, driver: &mut Driver<TestKey>) -> Result<Waits, Fail> {
    open(alloc, driver, "track 0 1,2")?;
    let list = list(alloc, &["2@1000"])?;
    admitted(driver, Link(1), &list, at(3_000));
    let waits = length(driver, Link(1), QUESTION, at(3_001));
    let came = comes_unasked(alloc, driver, QUESTION, 3_001)?;
    let heard = driver.judged(Link(1), &[true], at(3_002));
    let again = driver.admit(Link(1), &list, at(3_003));
    let read = length(driver, Link(1), QUESTION, at(3_003));
    Ok(((waits, came), heard, again, read))
}

#[test]
fn no_frame_is_read_while_one_waits(rt: HostRuntime) -> Result<(), Fail> {
    let alloc = rt.alloc();
    let found = driven(alloc, SETTINGS, pace(alloc), |driver| waits(alloc, driver))??;
    let (waits, heard, again, read) = found;
    assert_eq!(rt; waits, (Read::Judging, Admission::Unasked));
    assert_eq!(rt; heard, Ok(Heard::Applied(1)));
    assert_eq!(rt; (again, read), (Admission::Unasked, Read::Now));
    Ok(())
}

// What is said of a frame that is far too long, while a greeting waits and after the verdict on it.
fn too_long(alloc: Global, driver: &mut Driver<TestKey>) -> Result<[Read; 2], Fail> {
    track(alloc, driver, "track 0 1,2", 0)?;
    prove(driver, 1, 1, 1_000)?;
    admitted(driver, Link(1), &greeting(alloc, "1@1000")?, at(2_000));
    let waits = driver.length(Link(1), EMPTY, usize::MAX, at(2_001));
    let _heard = driver.judged(Link(1), &[true], at(2_002));
    Ok([waits, driver.length(Link(1), EMPTY, usize::MAX, at(2_003))])
}

#[test]
fn a_frame_that_is_too_long_waits_as_others_do(rt: HostRuntime) -> Result<(), Fail> {
    let alloc = rt.alloc();
    let found = driven(alloc, SETTINGS, pace(alloc), |driver| {
        too_long(alloc, driver)
    })??;
    assert_eq!(rt; found, [Read::Judging, Read::Closing]);
    Ok(())
}
