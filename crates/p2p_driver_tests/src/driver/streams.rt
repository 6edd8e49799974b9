//! Streams that claim and are proved, or aren't.

use lines::setup;
use p2p_discovery::codec::{TestKey, Write};
use p2p_discovery::discovery::Payload;
use p2p_driver::actions::Why;
use p2p_driver::driver::Driver;
use p2p_driver::link::Link;
use p2p_driver_fixtures::{
    SETTINGS, Said, at, claim, driven, ipv4, next, next_two, pace, prove, sends, track,
};
use std::alloc::Global;
use std::test::Fail;

// Whether a stream of peer 1 comes, claims and is proved at 1 s by the tested driver; the actions
// then; whether it ended at 2 s, and what is said; and what is answered to two more streams of peer
// 1, 59,999 ms and 60 s after the proof, with two actions after each.
type Visits = (
    (u64, bool, bool),
    [Said; 2],
    (bool, Said),
    (u64, bool, bool),
    [Said; 2],
    (u64, bool, bool),
    [Said; 2],
);

fn visits(alloc: Global, driver: &mut Driver<TestKey>) -> Result<Visits, Fail> {
    track(alloc, driver, "track 0 1,2", 0)?;
    let first = prove(driver, 1, 1, 1_000)?;
    let greeted = next_two(driver);
    let ended = driver.ended(Link(first.0), at(2_000));
    let silent = next(driver);
    let early = prove(driver, 1, 1, 60_999)?;
    let refused = next_two(driver);
    let late = prove(driver, 1, 1, 61_000)?;
    Ok((
        first,
        greeted,
        (ended, silent),
        early,
        refused,
        late,
        next_two(driver),
    ))
}

#[test]
fn a_peer_comes_in_once_in_a_cooldown(rt: HostRuntime) -> Result<(), Fail> {
    let alloc = rt.alloc();
    let found = driven(alloc, SETTINGS, pace(alloc), |driver| visits(alloc, driver))??;
    assert_eq!(rt;
        found,
        (
            (1, true, true),
            [Said::Sent(1), Said::Nothing],
            (true, Said::Nothing),
            (2, false, false),
            [Said::Closed(2, Why::NotGranted), Said::Nothing],
            (3, true, true),
            [Said::Sent(3), Said::Nothing],
        )
    );
    Ok(())
}

// Whether the tested driver sends its greeting, and says nothing more.
fn greets(alloc: Global, driver: &mut Driver<TestKey>) -> Result<bool, Fail> {
    let greeting = Payload::<TestKey>::Greeting(setup(alloc, SETTINGS)?.myself).encode(alloc)?;
    track(alloc, driver, "track 0 1,2", 0)?;
    prove(driver, 1, 2, 1_000)?;
    Ok(sends(driver, greeting.as_slice()) && next(driver) == Said::Nothing)
}

#[test]
fn the_own_info_is_the_first_frame_of_a_link(rt: HostRuntime) -> Result<(), Fail> {
    let alloc = rt.alloc();
    let found = driven(alloc, SETTINGS, pace(alloc), |driver| greets(alloc, driver))??;
    assert!(rt; found);
    Ok(())
}

// What is answered to the claim of peer 3 by the tested driver, which tracks 1 and 2, and said; and
// whether the stream may claim again, is proved, or ends then, and what is said of that.
type Stranger = ((u64, bool), [Said; 2], (bool, bool, bool), Said);

fn stranger(alloc: Global, driver: &mut Driver<TestKey>) -> Result<Stranger, Fail> {
    track(alloc, driver, "track 0 1,2", 0)?;
    let claimed = claim(driver, 1, 3, 1_000)?;
    let said = next_two(driver);
    let again = driver.claimed(Link(1), TestKey(1), at(1_001));
    let proved = driver.proved(Link(1), TestKey(1), 0, at(1_001))?;
    let ended = driver.ended(Link(1), at(1_002));
    Ok((claimed, said, (again, proved, ended), next(driver)))
}

#[test]
fn a_stranger_is_not_granted(rt: HostRuntime) -> Result<(), Fail> {
    let alloc = rt.alloc();
    let found = driven(
        alloc,
        SETTINGS,
        pace(alloc),
        |driver| stranger(alloc, driver),
    )??;
    assert_eq!(rt;
        found,
        (
            (1, false),
            [Said::Closed(1, Why::NotGranted), Said::Nothing],
            (false, false, false),
            Said::Nothing,
        )
    );
    Ok(())
}

// What is said, and whether it is accepted, when the tested driver is told that a stream is proved
// to be peer 2's that claimed to be 1's, and that one is that claimed nothing; whether these end
// then; and the same of a stream that there never was.
type Unproved = ([bool; 2], [Said; 2], [bool; 2], (bool, Said));

fn unproved(alloc: Global, driver: &mut Driver<TestKey>) -> Result<Unproved, Fail> {
    track(alloc, driver, "track 0 1,2", 0)?;
    claim(driver, 1, 1, 1_000)?;
    driver.arrived(ipv4(1), at(1_000))?;
    let other = driver.proved(Link(1), TestKey(2), 0, at(1_001))?;
    let unclaimed = driver.proved(Link(2), TestKey(2), 0, at(1_001))?;
    let said = next_two(driver);
    let ended = [
        driver.ended(Link(1), at(1_002)),
        driver.ended(Link(2), at(1_002)),
    ];
    let unknown = driver.proved(Link(3), TestKey(2), 0, at(1_003))?;
    Ok(([other, unclaimed], said, ended, (unknown, next(driver))))
}

#[test]
fn a_proof_is_of_the_key_that_was_claimed(rt: HostRuntime) -> Result<(), Fail> {
    let alloc = rt.alloc();
    let found = driven(
        alloc,
        SETTINGS,
        pace(alloc),
        |driver| unproved(alloc, driver),
    )??;
    assert_eq!(rt;
        found,
        (
            [false, false],
            [
                Said::Closed(1, Why::WrongKey),
                Said::Closed(2, Why::WrongKey),
            ],
            [false, false],
            (false, Said::Nothing),
        )
    );
    Ok(())
}

// What the tested driver answers to calls out of place of a stream of peer 1: a second claim, of
// another peer, the proof, a second proof, a claim of a link, the end, and a second end. What is
// said: the greeting alone.
type Twice = ([bool; 6], [Said; 2]);

fn twice(alloc: Global, driver: &mut Driver<TestKey>) -> Result<Twice, Fail> {
    track(alloc, driver, "track 0 1,2", 0)?;
    claim(driver, 1, 1, 1_000)?;
    let claimed = driver.claimed(Link(1), TestKey(2), at(1_001));
    let proved = driver.proved(Link(1), TestKey(1), 0, at(1_002))?;
    let again = driver.proved(Link(1), TestKey(1), 0, at(1_003))?;
    let late = driver.claimed(Link(1), TestKey(1), at(1_004));
    let ended = driver.ended(Link(1), at(1_005));
    let twice = driver.ended(Link(1), at(1_006));
    Ok((
        [claimed, proved, again, late, ended, twice],
        next_two(driver),
    ))
}

#[test]
fn calls_out_of_place_change_nothing(rt: HostRuntime) -> Result<(), Fail> {
    let alloc = rt.alloc();
    let found = driven(alloc, SETTINGS, pace(alloc), |driver| twice(alloc, driver))??;
    assert_eq!(rt;
        found,
        (
            [false, true, false, false, true, false],
            [Said::Sent(1), Said::Nothing],
        )
    );
    Ok(())
}
