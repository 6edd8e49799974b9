//! Room for streams, and for claims.

use p2p_discovery::codec::TestKey;
use p2p_driver::actions::Why;
use p2p_driver::driver::Driver;
use p2p_driver::link::Link;
use p2p_driver::pace::Pace;
use p2p_driver::rate::Rate;
use p2p_driver_fixtures::{SETTINGS, Said, at, claim, driven, ipv4, next, next_two, pace, track};
use std::alloc::{AllocError, Global};
use std::num::NonZeroU32;
use std::test::Fail;
use std::time::Duration;

// Lets a stream come to the tested driver from an address, and returns its number, 0 if there is no
// room for it.
fn come(driver: &mut Driver<TestKey>, last: u8, millis: u64) -> Result<u64, AllocError> {
    Ok(
        driver
            .arrived(ipv4(last), at(millis))?
            .map_or(0, |link| link.0),
    )
}

// Lets so many streams come to the tested driver from an address, and returns the number of the
// last one, 0 if there is no room for it.
fn come_often(
    driver: &mut Driver<TestKey>,
    last: u8,
    count: u64,
    millis: u64,
) -> Result<u64, AllocError> {
    let mut number = 0;
    for _ in 0..count {
        number = come(driver, last, millis)?;
    }
    Ok(number)
}

// The number of the 31st stream of address 1 to come to the tested driver, of the 32nd of address 2
// then, and of the first of 3; whether the first of address 2 claims; of one more of address 2 and
// of 4 500 ms later; of two of address 4 a millisecond after that; and what is said in between, and
// of whether the streams that gave way end.
type Rooms = (
    [u64; 3],
    bool,
    [u64; 2],
    Said,
    [u64; 2],
    [Said; 2],
    [bool; 2],
);

fn rooms(alloc: Global, driver: &mut Driver<TestKey>) -> Result<Rooms, Fail> {
    track(alloc, driver, "track 0 1,2", 0)?;
    let all = [
        come_often(driver, 1, 31, 1_000)?,
        come_often(driver, 2, 32, 1_000)?,
        come(driver, 3, 1_000)?,
    ];
    let claimed = driver.claimed(Link(32), TestKey(1), at(1_000));
    let early = [come(driver, 2, 1_501)?, come(driver, 4, 1_500)?];
    let silent = next(driver);
    let late = [come(driver, 4, 1_501)?, come(driver, 4, 1_501)?];
    let said = next_two(driver);
    let ended = [
        driver.ended(Link(33), at(1_502)),
        driver.ended(Link(1), at(1_502)),
    ];
    Ok((all, claimed, early, silent, late, said, ended))
}

#[test]
fn the_oldest_of_the_fullest_address_gives_way(rt: HostRuntime) -> Result<(), Fail> {
    let alloc = rt.alloc();
    let found = driven(alloc, SETTINGS, pace(alloc), |driver| rooms(alloc, driver))??;
    assert_eq!(rt;
        found,
        (
            [31, 63, 64],
            true,
            [0, 0],
            Said::Nothing,
            [65, 66],
            [
                Said::Closed(33, Why::Crowded),
                Said::Closed(1, Why::Crowded),
            ],
            [false, false],
        )
    );
    Ok(())
}

// Settings of a tested driver with room for one stream.
fn lonely(alloc: Global) -> Pace {
    let mut pace = pace(alloc);
    pace.arrivals = 1;
    pace.by_address = 1;
    pace
}

// The numbers of four streams that come to the tested driver one after the other, of strangers that
// are refused, while no action is taken; of a fifth, for which there is no room then; of the same
// once an action is taken; and that action.
type Waiting = ([(u64, bool); 4], (u64, bool), Said, (u64, bool));

fn waiting(driver: &mut Driver<TestKey>) -> Result<Waiting, AllocError> {
    let strangers = [
        claim(driver, 1, 1, 1_000)?,
        claim(driver, 1, 1, 1_000)?,
        claim(driver, 1, 1, 1_000)?,
        claim(driver, 1, 1, 1_000)?,
    ];
    let fifth = claim(driver, 1, 1, 1_000)?;
    let said = next(driver);
    Ok((strangers, fifth, said, claim(driver, 1, 1, 1_000)?))
}

#[test]
fn no_stream_comes_while_many_actions_wait(rt: HostRuntime) -> Result<(), Fail> {
    let alloc = rt.alloc();
    let found = driven(alloc, SETTINGS, lonely(alloc), |driver| waiting(driver))??;
    assert_eq!(rt;
        found,
        (
            [(1, false), (2, false), (3, false), (4, false)],
            (0, false),
            Said::Closed(1, Why::NotGranted),
            (5, false),
        )
    );
    Ok(())
}

// Settings of a tested driver that answers two claims at once, and one more in 10 ms.
fn slow_to_answer(alloc: Global) -> Pace {
    let mut pace = pace(alloc);
    pace.answers = Rate {
        burst: NonZeroU32::MIN.saturating_add(1),
        refill: Duration::from_millis(10),
    };
    pace
}

// What is answered by the tested driver to the claim of a stranger, which takes no answer, to the
// claims of peers 1 to 3 then, and to those of 4 and 3 9 and 10 ms later; and what is said.
type Answered = ([(u64, bool); 4], [(u64, bool); 2], [Said; 2], [Said; 2]);

fn answered(alloc: Global, driver: &mut Driver<TestKey>) -> Result<Answered, Fail> {
    track(alloc, driver, "track 0 1,2,3,4", 0)?;
    let at_once = [
        claim(driver, 1, 5, 1_000)?,
        claim(driver, 2, 1, 1_000)?,
        claim(driver, 3, 2, 1_000)?,
        claim(driver, 4, 3, 1_000)?,
    ];
    let later = [claim(driver, 5, 4, 1_009)?, claim(driver, 6, 3, 1_010)?];
    let said = next_two(driver);
    Ok((at_once, later, said, next_two(driver)))
}

#[test]
fn a_claim_above_the_rate_is_crowded(rt: HostRuntime) -> Result<(), Fail> {
    let alloc = rt.alloc();
    let pace = slow_to_answer(alloc);
    let found = driven(alloc, SETTINGS, pace, |driver| answered(alloc, driver))??;
    assert_eq!(rt;
        found,
        (
            [(1, false), (2, true), (3, true), (4, false)],
            [(5, false), (6, true)],
            [
                Said::Closed(1, Why::NotGranted),
                Said::Closed(4, Why::Crowded),
            ],
            [Said::Closed(5, Why::Crowded), Said::Nothing],
        )
    );
    Ok(())
}
