//! No size alone makes a call run out of memory, and no more is allocated than the bytes can hold.

use crate::assertions::assert_same;
use bytes::Bytes;
use failing_alloc::FailingAlloc;
use p2p_discovery::codec::{CodecError, RangeCfg, TestKey};
use p2p_discovery::discovery::PayloadConfig;
use p2p_discovery::discovery::laws::{bounded_infos, bounded_payload};
use p2p_discovery::sets::{BitMap, OrderedSet};
use std::test::Fail;

const LIMITS: PayloadConfig = PayloadConfig {
    max_bit_vec: u32::MAX as u64,
    max_peers: u32::MAX as usize,
    max_data_length: u32::MAX as usize,
};

const MANY: u64 = 120_000;

#[test]
fn no_number_of_bits_wants_memory(rt: HostRuntime) -> Result<(), Fail> {
    let alloc = rt.alloc();
    let ones = BitMap::ones(alloc, MANY)?;
    let bools: Vec<bool> = (0..MANY).map(|_place| true).collect(alloc)?;
    assert!(rt; ones.len() == MANY && ones.clone()? == ones);
    assert!(rt; BitMap::from_bools(alloc, &bools)? == ones);
    assert_same(&rt, BitMap::zeroes(alloc, MANY)?.len(), MANY);
    Ok(())
}

// A list with the count `u32::MAX`, and bytes for less than one info. There is no memory for that
// count.
static SHORT_LIST: &[u8] =
    b"\xff\xff\xff\xff\x0f\0\x04\x01\x02\x03\x04\x1f\x41\xe8\x07\0\0\0\0\0\0\0\x01\0\0\0\0";

#[test]
fn asks_for_no_more_room_than_bytes_can_hold(rt: HostRuntime) -> Result<(), Fail> {
    let alloc = rt.alloc();
    let mut frame = [3u8].as_slice().to_vec(alloc)?;
    frame.extend_from_slice(SHORT_LIST)?;
    let payload = bounded_payload::<TestKey>(alloc, Bytes::from_vec(frame)?, &LIMITS);
    assert_same(&rt, payload.err(), Some(CodecError::EndOfBuffer));
    let mut list = Bytes::copy_from_slice(alloc, SHORT_LIST)?;
    let limit = RangeCfg {
        least: 0,
        greatest: LIMITS.max_peers,
    };
    let infos = bounded_infos::<TestKey>(alloc, &mut list, &limit);
    assert_same(&rt, infos.err(), Some(CodecError::EndOfBuffer));
    assert_same(&rt, list.as_slice(), SHORT_LIST);
    Ok(())
}

#[test]
fn a_set_of_nobody_takes_no_memory(rt: HostRuntime) -> Result<(), Fail> {
    let alloc = rt.alloc();
    let mut memory = FailingAlloc::new(alloc)?;
    memory.limit(alloc, 0)?;
    let nobody = OrderedSet::from_iter_dedup(alloc, [].into_iter().map(TestKey));
    let somebody = OrderedSet::from_iter_dedup(alloc, [1].into_iter().map(TestKey));
    memory.lift();
    assert!(rt; nobody?.is_empty());
    assert!(rt; somebody.is_err());
    Ok(())
}
