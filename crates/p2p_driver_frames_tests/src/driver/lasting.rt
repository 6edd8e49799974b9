//! How long a frame may be handed in that was to be read.

use p2p_discovery::codec::TestKey;
use p2p_driver::admission::{Admission, Heard, Read};
use p2p_driver::driver::Driver;
use p2p_driver::link::Link;
use p2p_driver_fixtures::{
    SETTINGS, at, driven, frame, greeting, infos, length, open, pace, prove, reads, track,
};
use std::alloc::{AllocError, Global};
use std::test::Fail;
use std::time::Duration;

// The empty list, and a question.
const EMPTY: &'static [u8] = &[3, 0];

const QUESTION: &'static [u8] = &[2, 0, 2, 0];

// Hands in a frame of link 1, and doesn't ask about it before.
fn comes_unasked(
    alloc: Global,
    driver: &mut Driver<TestKey>,
    bytes: &[u8],
    millis: u64,
) -> Result<Admission, AllocError> {
    Ok(driver.admit(Link(1), &frame(alloc, bytes)?, at(millis)))
}

// What becomes of a frame that was to be read, once it has to wait, and once it is to be read
// again; and what the tested driver says of it each time.
type Late = ((u32, Read), Admission, Read, Admission);

fn late(alloc: Global, driver: &mut Driver<TestKey>) -> Result<Late, Fail> {
    open(alloc, driver, "track 0 1,2")?;
    let read = reads(driver, Link(1), EMPTY, at(3_000));
    let early = comes_unasked(alloc, driver, EMPTY, 3_000)?;
    let again = length(driver, Link(1), EMPTY, at(10_500));
    Ok((
        read,
        early,
        again,
        comes_unasked(alloc, driver, EMPTY, 10_500)?,
    ))
}

#[test]
fn a_frame_that_has_to_wait_is_not_taken(rt: HostRuntime) -> Result<(), Fail> {
    let alloc = rt.alloc();
    let found = driven(alloc, SETTINGS, pace(alloc), |driver| late(alloc, driver))??;
    let (read, early, again, came) = found;
    let next = Read::After(Duration::from_millis(10_500));
    assert_eq!(rt; (read, early), ((8, next), Admission::Unasked));
    let applied = Admission::Heard(Heard::Applied(0));
    assert_eq!(rt; (again, came), (Read::Now, applied));
    Ok(())
}

// What becomes of another frame than the greeting, which is to be read; and of the greeting then,
// four seconds later.
fn stands(alloc: Global, driver: &mut Driver<TestKey>) -> Result<[Admission; 2], Fail> {
    track(alloc, driver, "track 0 1,2", 0)?;
    prove(driver, 1, 1, 1_000)?;
    let greeting = greeting(alloc, "1@1000")?;
    length(driver, Link(1), greeting.as_slice(), at(2_000));
    let other = comes_unasked(alloc, driver, QUESTION, 2_001)?;
    driver.timeout(&[], at(5_000))?;
    Ok([other, driver.admit(Link(1), &greeting, at(5_999))])
}

#[test]
fn what_is_to_be_read_stays_so(rt: HostRuntime) -> Result<(), Fail> {
    let alloc = rt.alloc();
    let found = driven(alloc, SETTINGS, pace(alloc), |driver| stands(alloc, driver))??;
    assert_eq!(rt; found, [Admission::Unasked, Admission::Verify(1)]);
    Ok(())
}

// What becomes on links 1 and 2 of a frame that was to be read of link 1; and of one that was to be
// read before link 1 was closed.
fn elsewhere(alloc: Global, driver: &mut Driver<TestKey>) -> Result<[Admission; 3], Fail> {
    open(alloc, driver, "track 0 1,2")?;
    prove(driver, 2, 2, 2_000)?;
    let empty = frame(alloc, EMPTY)?;
    length(driver, Link(1), EMPTY, at(3_000));
    let other = driver.admit(Link(2), &empty, at(3_000));
    let same = driver.admit(Link(1), &empty, at(3_000));
    length(driver, Link(1), EMPTY, at(3_001));
    driver.part(&TestKey(1), at(3_002));
    Ok([other, same, driver.admit(Link(1), &empty, at(3_003))])
}

#[test]
fn each_link_has_a_frame_of_its_own(rt: HostRuntime) -> Result<(), Fail> {
    let alloc = rt.alloc();
    let found = driven(alloc, SETTINGS, pace(alloc), |driver| {
        elsewhere(alloc, driver)
    })??;
    let applied = Admission::Heard(Heard::Applied(0));
    assert_eq!(rt; found, [Admission::Unasked, applied, Admission::Closing]);
    Ok(())
}

// What becomes of a frame of peer 1 that was to be read, once a set came, another peer was blocked,
// peer 1 was asked, and the application had its info.
fn meanwhile(alloc: Global, driver: &mut Driver<TestKey>) -> Result<Admission, Fail> {
    open(alloc, driver, "track 0 1,2")?;
    length(driver, Link(1), EMPTY, at(31_000));
    track(alloc, driver, "track 1 1,3", 31_001)?;
    driver.block(&TestKey(3), at(31_002))?;
    driver.timeout(&[], at(32_000))?;
    driver.update_peers(infos(alloc, &["1@2000"])?, at(32_001));
    Ok(comes_unasked(alloc, driver, EMPTY, 32_002)?)
}

#[test]
fn other_calls_leave_what_is_to_be_read(rt: HostRuntime) -> Result<(), Fail> {
    let alloc = rt.alloc();
    let found = driven(alloc, SETTINGS, pace(alloc), |driver| {
        meanwhile(alloc, driver)
    })??;
    assert_eq!(rt; found, Admission::Heard(Heard::Applied(0)));
    Ok(())
}
