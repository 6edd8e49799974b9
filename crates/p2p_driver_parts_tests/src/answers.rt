//! Claims: 64 at once and one more in 10 ms, and of one address 16 and one more in 40 ms.

use p2p_driver::answers::Answers;
use p2p_driver::origin::Origin;
use p2p_driver::pace::Pace;
use std::alloc::{AllocError, Global};
use std::process::Abort;
use std::test::Fail;
use std::time::Duration;

// Has claims of addresses from one on answered at this time, one of each, until one isn't, and
// returns how many were.
fn answered(
    answers: &mut Answers,
    pace: &Pace,
    first: u8,
    same: bool,
    millis: u64,
) -> Result<u8, AllocError> {
    for count in 0..100 {
        let last = if same {
            first
        } else {
            first.wrapping_add(count)
        };
        let origin = Origin::of([0, 0, 0, 0, 0, 0, 0, 0, 0, 0, 255, 255, 10, 0, 0, last]);
        answers.reserve()?;
        if !answers.answer(origin, pace, Duration::from_millis(millis)) {
            return Ok(count);
        }
    }
    Ok(100)
}

// How many claims of address 1 are answered at once, and then of others, one each; of another 10 ms
// later; of address 1 then, since it waits longer, 39 ms after its own, and 40 ms after.
fn counts(alloc: Global) -> Result<[u8; 5], AllocError> {
    let pace = Pace::recommended(alloc, 64, Duration::from_secs(60)).pace;
    let mut answers = Answers::new(alloc);
    Ok([
        answered(&mut answers, &pace, 1, true, 1_000)?,
        answered(&mut answers, &pace, 2, false, 1_000)?,
        answered(&mut answers, &pace, 200, false, 1_010)?,
        answered(&mut answers, &pace, 1, true, 1_039)?,
        answered(&mut answers, &pace, 1, true, 1_040)?,
    ])
}

#[test]
fn claims_of_one_address_and_of_all_are_bounded(rt: HostRuntime) -> Result<(), Fail> {
    let found = counts(rt.alloc())?;
    assert!(rt; found == [16, 48, 1, 0, 1]);
    Ok(())
}
