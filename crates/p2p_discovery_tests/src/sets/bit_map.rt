//! Lists of bits.

use crate::assertions::assert_holds;
use crate::out_of_memory::{STEPS, Tally};
use failing_alloc::{FailingAlloc, STEP};
use p2p_discovery::sets::BitMap;
use std::test::Fail;

#[test]
fn maps_places_to_values(rt: HostRuntime) -> Result<(), Fail> {
    let alloc = rt.alloc();
    let mut bits = BitMap::zeroes(alloc, 11)?;
    if bits.len() > 9 {
        bits.set(9, true);
    }
    if bits.len() > 9 {
        assert!(rt; bits.get(9) && !bits.get(8));
    }
    let same = [
        false, false, false, false, false, false, false, false, false, true, false,
    ];
    assert!(rt; bits == BitMap::from_bools(alloc, &same)?);
    assert!(rt; bits.clone()? == bits);
    assert!(rt; BitMap::ones(alloc, 3)? == BitMap::from_bools(alloc, &[true, true, true])?);
    assert!(rt; BitMap::ones(alloc, 8)? != BitMap::ones(alloc, 9)?);
    assert!(rt; BitMap::zeroes(alloc, 8)? != BitMap::zeroes(alloc, 9)?);
    Ok(())
}

#[test]
fn a_copy_of_bits_is_whole_or_refused_for_memory(rt: HostRuntime) -> Result<(), Fail> {
    let alloc = rt.alloc();
    let whole = BitMap::ones(alloc, 100)?;
    let mut memory = FailingAlloc::new(alloc)?;
    let mut tally = Tally::EMPTY;
    for step in 0..STEPS {
        memory.limit(alloc, step.saturating_mul(STEP))?;
        let copy = whole.clone();
        memory.lift();
        tally.count(copy.is_err());
        if let Ok(bits) = copy {
            assert_holds(&rt, bits == whole, step);
        }
    }
    tally.is_mixed(&rt);
    Ok(())
}
