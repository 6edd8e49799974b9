//! Frames of a link that aren't written: how many there are, by when the oldest has to be written,
//! and since when it waits.

use failing_alloc::{FailingAlloc, STEP};
use p2p_driver::unwritten::Unwritten;
use std::alloc::{AllocError, Global};
use std::process::Abort;
use std::test::Fail;
use std::time::Duration;

// How many frames there are; by when the oldest has to be written, 2 s after it was said; and
// whether one was said at 5 s or before.
type Seen = (usize, Option<u128>, bool);

fn seen(unwritten: &Unwritten) -> Seen {
    (
        unwritten.len(),
        unwritten.write_by(Duration::from_secs(2)),
        unwritten.is_since(Duration::from_secs(5)),
    )
}

// One frame of 5 s; with one of 6 s; once the first is written; once both are; once one more is,
// which there isn't; and with another one, of 4 s.
fn life(alloc: Global) -> Result<[Seen; 6], AllocError> {
    let mut unwritten = Unwritten::new(alloc, Duration::from_secs(5))?;
    let first = seen(&unwritten);
    unwritten.push(Duration::from_secs(6))?;
    let second = seen(&unwritten);
    unwritten.pop();
    let third = seen(&unwritten);
    unwritten.pop();
    let none = seen(&unwritten);
    unwritten.pop();
    let still = seen(&unwritten);
    unwritten.push(Duration::from_secs(4))?;
    Ok([first, second, third, none, still, seen(&unwritten)])
}

#[test]
fn the_oldest_frame_is_written_first(rt: HostRuntime) -> Result<(), Fail> {
    let found = life(rt.alloc())?;
    assert!(rt;
        found
            == [
                (1, Some(7_000_000_000), true),
                (2, Some(7_000_000_000), true),
                (1, Some(8_000_000_000), false),
                (0, None, false),
                (0, None, false),
                (1, Some(6_000_000_000), true),
            ]
    );
    Ok(())
}

// No frame; and with one of 6 s.
fn empty(alloc: Global) -> Result<[Seen; 2], AllocError> {
    let mut unwritten = Unwritten::none(alloc);
    let none = seen(&unwritten);
    unwritten.push(Duration::from_secs(6))?;
    Ok([none, seen(&unwritten)])
}

#[test]
fn at_first_no_frame_was_said(rt: HostRuntime) -> Result<(), Fail> {
    let found = empty(rt.alloc())?;
    assert!(rt; found == [(0, None, false), (1, Some(8_000_000_000), false)]);
    Ok(())
}

// Whether a frame of 5 s was said a nanosecond before that or earlier, then or earlier, and a
// nanosecond later or earlier.
fn since(alloc: Global) -> Result<[bool; 3], AllocError> {
    let unwritten = Unwritten::new(alloc, Duration::from_secs(5))?;
    Ok([
        unwritten.is_since(Duration::from_nanos(4_999_999_999)),
        unwritten.is_since(Duration::from_nanos(5_000_000_000)),
        unwritten.is_since(Duration::from_nanos(5_000_000_001)),
    ])
}

#[test]
fn a_frame_is_said_at_a_time(rt: HostRuntime) -> Result<(), Fail> {
    let found = since(rt.alloc())?;
    assert!(rt; found == [false, true, true]);
    Ok(())
}

// By when a frame has to be written that was said at this time, if it may take so many nanoseconds.
fn write_by(alloc: Global, said: u64, silence: u64) -> Result<Option<u128>, AllocError> {
    let unwritten = Unwritten::new(alloc, Duration::from_nanos(said))?;
    Ok(unwritten.write_by(Duration::from_nanos(silence)))
}

#[test]
fn a_frame_may_take_a_nanosecond_at_least(rt: HostRuntime) -> Result<(), Fail> {
    let alloc = rt.alloc();
    assert_eq!(rt; write_by(alloc, 7, 0)?, Some(8));
    assert_eq!(rt; write_by(alloc, 7, 1)?, Some(8));
    assert_eq!(rt; write_by(alloc, 7, 2)?, Some(9));
    // 2^64 - 1 ns, twice.
    let most = write_by(alloc, u64::MAX, u64::MAX)?;
    assert_eq!(rt; most, Some(36_893_488_147_419_103_230));
    Ok(())
}

const STEPS: usize = 2_048;

// At how many budgets a second frame isn't added, and whether what is seen stays the same.
fn adds(alloc: Global, memory: &mut FailingAlloc) -> Result<(usize, bool, Seen), AllocError> {
    let mut unwritten = Unwritten::new(alloc, Duration::from_secs(5))?;
    let before = seen(&unwritten);
    let mut same = true;
    for step in 0..STEPS {
        memory.limit(alloc, step.saturating_mul(STEP))?;
        let added = unwritten.push(Duration::from_secs(6)).is_ok();
        memory.lift();
        if added {
            return Ok((step, same, seen(&unwritten)));
        }
        same = same && seen(&unwritten) == before;
    }
    Ok((STEPS, same, seen(&unwritten)))
}

#[test]
fn a_frame_is_added_if_there_is_memory(rt: HostRuntime) -> Result<(), Fail> {
    let alloc = rt.alloc();
    let mut memory = FailingAlloc::new(alloc)?;
    let (refused, same, seen) = adds(alloc, &mut memory)?;
    assert!(rt; refused > 0 && refused < STEPS, "{refused} refused");
    assert!(rt; same && seen == (2, Some(7_000_000_000), true));
    Ok(())
}
