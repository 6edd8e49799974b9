//! Deadlines: who is late, and when a driver wakes.

use p2p_discovery::codec::TestKey;
use p2p_driver::actions::Why;
use p2p_driver::driver::Driver;
use p2p_driver::link::Link;
use p2p_driver_fixtures::{
    SETTINGS, Said, at, claim, driven, ipv4, next, next_two, pace, prove, track,
};
use std::alloc::{AllocError, Global};
use std::test::Fail;
use std::time::Duration;

// When the tested driver wakes, in milliseconds.
fn wake(driver: &Driver<TestKey>) -> Option<u128> {
    driver
        .next_timeout()
        .map(|time| time.as_nanos() / 1_000_000)
}

// Tells the tested driver the time, and returns what it says, and when it wakes next.
fn woken(
    driver: &mut Driver<TestKey>,
    millis: u64,
) -> Result<([Said; 2], Option<u128>), AllocError> {
    driver.timeout(&[], at(millis))?;
    Ok((next_two(driver), wake(driver)))
}

// When the tested driver wakes first; what it says, and when it wakes next, at each moment at which
// one is late of three streams, of which the second claims, and the third is proved, and doesn't
// greet, and a millisecond before; and afterwards.
type Lates = (
    [Option<u128>; 2],
    [([Said; 2], Option<u128>); 6],
    [Said; 2],
    [bool; 3],
);

fn lates(alloc: Global, driver: &mut Driver<TestKey>) -> Result<Lates, Fail> {
    track(alloc, driver, "track 0 1,2", 0)?;
    let idle = wake(driver);
    driver.arrived(ipv4(1), at(10_000))?;
    claim(driver, 2, 1, 10_500)?;
    prove(driver, 3, 2, 12_000)?;
    next(driver);
    let first = wake(driver);
    let told = [
        woken(driver, 12_999)?,
        woken(driver, 13_000)?,
        woken(driver, 15_499)?,
        woken(driver, 15_500)?,
        woken(driver, 16_999)?,
        woken(driver, 17_000)?,
    ];
    driver.timeout(&[], at(20_000))?;
    let silent = next_two(driver);
    let ended = [
        driver.ended(Link(1), at(20_001)),
        driver.ended(Link(2), at(20_001)),
        driver.ended(Link(3), at(20_001)),
    ];
    Ok(([idle, first], told, silent, ended))
}

#[test]
fn who_is_late_is_closed_once(rt: HostRuntime) -> Result<(), Fail> {
    let alloc = rt.alloc();
    let found = driven(alloc, SETTINGS, pace(alloc), |driver| lates(alloc, driver))??;
    let (wakes, told, silent, ended) = found;
    let none = [Said::Nothing, Said::Nothing];
    let [_, _, _, _, _, (last, later)] = told;
    assert_eq!(rt; wakes, [None, Some(13_000)]);
    assert_eq!(rt; told[0], (none, Some(13_000)));
    assert_eq!(rt;
        told[1],
        ([Said::Closed(1, Why::Slow), Said::Nothing], Some(15_500))
    );
    assert_eq!(rt; told[2], (none, Some(15_500)));
    assert_eq!(rt;
        told[3],
        ([Said::Closed(2, Why::Slow), Said::Nothing], Some(17_000))
    );
    assert_eq!(rt; told[4], (none, Some(17_000)));
    assert_eq!(rt; last, [Said::Closed(3, Why::Slow), Said::Nothing]);
    // The cooldown of the grant at 12 s with a word of 0.
    assert_eq!(rt; later, Some(72_000));
    assert_eq!(rt; silent, none);
    assert_eq!(rt; ended, [false, false, true]);
    Ok(())
}

// Whether these actions of the test close the link.
fn is_closed(said: &[Said], link: u64) -> bool {
    said.contains(&Said::Closed(link, Why::Slow))
}

// What the tested driver says if it is told the time at which all three are late.
fn late_together(alloc: Global, driver: &mut Driver<TestKey>) -> Result<([Said; 3], Said), Fail> {
    track(alloc, driver, "track 0 1,2", 0)?;
    driver.arrived(ipv4(1), at(10_000))?;
    claim(driver, 2, 1, 10_000)?;
    prove(driver, 3, 2, 10_000)?;
    next(driver);
    driver.timeout(&[], at(15_000))?;
    let [first, second] = next_two(driver);
    let [third, last] = next_two(driver);
    Ok(([first, second, third], last))
}

#[test]
fn all_that_is_late_is_closed_at_once(rt: HostRuntime) -> Result<(), Fail> {
    let alloc = rt.alloc();
    let (found, last) = driven(alloc, SETTINGS, pace(alloc), |driver| {
        late_together(alloc, driver)
    })??;
    assert!(rt; is_closed(&found, 1) && is_closed(&found, 2) && is_closed(&found, 3));
    assert_eq!(rt; last, Said::Nothing);
    Ok(())
}

// When the tested driver wakes once a grant at 1 s, with a word of 0, has ended; once it is told
// that the cooldown of 60 s is over; and whether the peer may come a millisecond before, and then.
type Cooled = ([Option<u128>; 2], [bool; 2]);

fn cooled(alloc: Global, driver: &mut Driver<TestKey>) -> Result<Cooled, Fail> {
    track(alloc, driver, "track 0 1,2", 0)?;
    prove(driver, 1, 1, 1_000)?;
    driver.ended(Link(1), at(1_000));
    let before = wake(driver);
    let (_, early) = claim(driver, 1, 1, 60_999)?;
    driver.timeout(&[], at(61_000))?;
    let after = wake(driver);
    let (_, late) = claim(driver, 1, 1, 61_000)?;
    Ok(([before, after], [early, late]))
}

#[test]
fn a_cooldown_ends(rt: HostRuntime) -> Result<(), Fail> {
    let alloc = rt.alloc();
    let found = driven(alloc, SETTINGS, pace(alloc), |driver| cooled(alloc, driver))??;
    assert_eq!(rt; found, ([Some(61_000), None], [false, true]));
    Ok(())
}

// When the tested driver wakes for a stream that came at 10 s and claims nothing; for one that came
// at 5 s by the steady clock after that; and whether 8 s is late for that one, told after the
// latest time, and 13 s is.
type Back = ([Option<u128>; 2], Said, [Said; 2]);

fn back(driver: &mut Driver<TestKey>) -> Result<Back, AllocError> {
    driver.arrived(ipv4(1), at(10_000))?;
    let first = wake(driver);
    driver.ended(Link(1), at(9_000));
    driver.arrived(ipv4(1), at(5_000))?;
    let second = wake(driver);
    driver.timeout(&[], at(8_000))?;
    let silent = next(driver);
    driver.timeout(&[], at(13_000))?;
    Ok(([first, second], silent, next_two(driver)))
}

#[test]
fn a_steady_clock_that_goes_back_counts_as_the_latest(rt: HostRuntime) -> Result<(), Fail> {
    let alloc = rt.alloc();
    let found = driven(alloc, SETTINGS, pace(alloc), |driver| back(driver))??;
    assert_eq!(rt;
        found,
        (
            [Some(13_000), Some(13_000)],
            Said::Nothing,
            [Said::Closed(2, Why::Slow), Said::Nothing],
        )
    );
    Ok(())
}

// Whether the tested driver lets a peer come that was in once, told a time before the end of the
// cooldown after one at its end.
fn back_in_cooldown(alloc: Global, driver: &mut Driver<TestKey>) -> Result<bool, Fail> {
    track(alloc, driver, "track 0 1,2", 0)?;
    prove(driver, 1, 1, 1_000)?;
    driver.ended(Link(1), at(61_000));
    let (_, claimed) = claim(driver, 1, 1, 2_000)?;
    Ok(claimed)
}

#[test]
fn a_cooldown_that_is_over_stays_over(rt: HostRuntime) -> Result<(), Fail> {
    let alloc = rt.alloc();
    let found = driven(alloc, SETTINGS, pace(alloc), |driver| {
        back_in_cooldown(alloc, driver)
    })??;
    assert!(rt; found);
    Ok(())
}
