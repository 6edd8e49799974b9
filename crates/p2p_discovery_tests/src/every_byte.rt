//! Mutated frames: each truncation, and each change, insertion and deletion of one byte.

ghost use Rattle.p2p_discovery.specs.Payload.{CanSpell};

use crate::assertions::{assert_holds, assert_same, assert_same_for};
use bytes::Bytes;
use failing_alloc::FailingAlloc;
use p2p_discovery::codec::{CodecError, Read, TestKey, What, Write};
use p2p_discovery::discovery::{Payload, PayloadConfig};
use std::alloc::{AllocError, Global};
use std::process::Abort;
use std::test::Fail;

// Each of the frames is within these limits.
const LIMITS: PayloadConfig = PayloadConfig {
    max_bit_vec: 64,
    max_peers: 8,
    max_data_length: 32,
};

// Payloads of each kind, among them frames of an exchange of two nodes. Their infos have IP
// addresses of both versions and a host name.
static FRAMES: [&'static [u8]; 18] = [
    b"\0\x01\x05hello",
    b"\0\xff\xff\xff\xff\xff\xff\xff\xff\xff\x01\0",
    b"\x02\x05\x09\xff\x01",
    b"\x02\0\0",
    b"\x02\0\x02\0",
    b"\x02\0\x02\x01",
    b"\x02\x07\0",
    b"\x02\0\x01\0",
    b"\x02\0\x09\0\0",
    b"\x02\xe8\x07\x08\x5a",
    b"\x03\0",
    b"\x03\x01\0\x04\x01\x02\x03\x04\x1f\x41\xa0\x8d\x06\0\0\0\0\0\0\0\x01u\x9b\x13:,\x03}u",
    b"\x01\0\x04\x01\x02\x03\x04\x1f\x41\xe8\x07\0\0\0\0\0\0\0\x01u\x9b\x13:,\x01\xf89",
    b"\x01\x01\x03a.b\x1f\x42\xe8\x07\0\0\0\0\0\0\0\x02c\xc9\xc9\x91#O\x1e!",
    b"\x01\0\x06\0\0\0\0\0\0\0\0\0\0\0\0\0\0\0\x01\x01\xbb\0\0\0\0\0\0\0\0\x03\xc2\xecV\xc9\xa4\x07\xb8\xb1",
    b"\x03\x02\0\x04\x01\x02\x03\x04\x1f\x41\xa0\x8d\x06\0\0\0\0\0\0\0\x01u\x9b\x13:,\x03}u\x01\x03a.b\x1f\x42\xe8\x07\0\0\0\0\0\0\0\x02c\xc9\xc9\x91#O\x1e!",
    b"\x03\x02\x00\x04\x01\x02\x03\x04\x1f\x41\xe8\x07\x00\x00\x00\x00\x00\x00\x00\x01\x75\x9b\x13\x3a\x2c\x01\xf8\x39\x00\x04\x01\x02\x03\x04\x1f\x49\xe8\x07\x00\x00\x00\x00\x00\x00\x00\x09\xf3\xa1\xec\xf7\x92\xd2\xd8\x49",
    b"\x03\x02\x00\x04\x01\x02\x03\x04\x1f\x42\xe8\x07\x00\x00\x00\x00\x00\x00\x00\x02\xe5\x5b\xee\x71\xd8\xdc\x14\x3b\x00\x04\x01\x02\x03\x04\x1f\x43\xe8\x07\x00\x00\x00\x00\x00\x00\x00\x03\x55\x1c\xc9\xa9\x85\xb6\x30\x3d",
];

// Joins a prefix, a byte if one is given, and a suffix, to mutate a frame at every byte.
fn joined(
    alloc: Global,
    front: &[u8],
    byte: Option<u8>,
    back: &[u8],
) -> Result<Vec<u8>, AllocError> {
    let mut bytes = front.to_vec(alloc)?;
    if let Some(byte) = byte {
        bytes.push(byte)?;
    }
    bytes.extend_from_slice(back)?;
    Ok(bytes)
}

// Whether these bytes, mutated at one byte, are the encoding of the payload.
fn is_spelled_by(
    alloc: Global,
    payload: &Payload<TestKey>,
    bytes: &[u8],
) -> Result<bool, AllocError>
    requires { CanSpell payload.now }
{
    Ok(payload.encode(alloc)?.as_slice() == bytes)
}

// Reads bytes that were mutated at one byte. Asserts that a value encodes to the bytes that were
// read, and that an error is not `Memory` and leaves the buffer unchanged. Returns whether all
// bytes were read.
fn assert_judged(rt: &impl Abort, alloc: Global, bytes: &[u8]) -> Result<bool, Fail> {
    let mut buf = Bytes::copy_from_slice(alloc, bytes)?;
    match Payload::<TestKey>::read_cfg(alloc, &mut buf, &LIMITS) {
        Ok(payload) => {
            let rest = buf.len();
            let (read, left) = bytes.split_at(bytes.len().saturating_sub(rest));
            assert_holds(rt, is_spelled_by(alloc, &payload, read)?, bytes);
            assert_same_for(rt, buf.as_slice(), left, bytes);
            Ok(rest == 0)
        }
        Err(fault) => {
            assert_holds(rt, fault != CodecError::Memory, bytes);
            assert_same_for(rt, buf.as_slice(), bytes, fault);
            Ok(false)
        }
    }
}

// Asserts of bytes that were mutated at one byte that `decode_cfg` succeeds exactly if all were
// read.
fn assert_decoded(rt: &impl Abort, alloc: Global, bytes: Vec<u8>) -> Result<(), Fail> {
    let whole = assert_judged(rt, alloc, &bytes)?;
    let frame = Bytes::from_vec(bytes)?;
    let decoded = Payload::<TestKey>::decode_cfg(alloc, frame, &LIMITS);
    assert_same(rt, decoded.is_ok(), whole);
    Ok(())
}

// Asserts the results for every byte at this position: inserted, and in place of the next byte.
fn assert_each_value(
    rt: &impl Abort,
    alloc: Global,
    front: &[u8],
    back: &[u8],
) -> Result<(), Fail> {
    for value in 0..=u8::MAX {
        assert_decoded(rt, alloc, joined(alloc, front, Some(value), back)?)?;
        if let Some((_, behind)) = back.split_first() {
            assert_decoded(rt, alloc, joined(alloc, front, Some(value), behind)?)?;
        }
    }
    Ok(())
}

fn assert_each_byte(rt: &impl Abort, alloc: Global, frame: &[u8]) -> Result<(), Fail> {
    for at in 0..=frame.len() {
        let (front, back) = frame.split_at(at);
        assert_each_value(rt, alloc, front, back)?;
        if let Some((_, behind)) = back.split_first() {
            assert_decoded(rt, alloc, joined(alloc, front, None, behind)?)?;
        }
    }
    Ok(())
}

#[test]
fn each_byte_of_each_frame_is_judged(rt: HostRuntime) -> Result<(), Fail> {
    let alloc = rt.alloc();
    for frame in FRAMES {
        assert_holds(&rt, assert_judged(&rt, alloc, frame)?, frame);
        assert_each_byte(&rt, alloc, frame)?;
    }
    Ok(())
}

#[test]
fn each_proper_front_ends_too_early(rt: HostRuntime) -> Result<(), Fail> {
    let alloc = rt.alloc();
    for frame in FRAMES {
        for at in 0..frame.len() {
            let front = Bytes::copy_from_slice(alloc, &frame[..at])?;
            let read = Payload::<TestKey>::decode_cfg(alloc, front, &LIMITS);
            assert_same_for(&rt, read.err(), Some(CodecError::EndOfBuffer), (at, frame));
        }
    }
    Ok(())
}

const GREATEST: PayloadConfig = PayloadConfig {
    max_bit_vec: u64::MAX,
    max_peers: u32::MAX as usize,
    max_data_length: u32::MAX as usize,
};

const FEW: PayloadConfig = PayloadConfig {
    max_bit_vec: 8,
    max_peers: 8,
    max_data_length: 8,
};

const NINE: PayloadConfig = PayloadConfig {
    max_bit_vec: 9,
    max_peers: 8,
    max_data_length: 8,
};

// Counts and lengths that no data follows, some of them invalid, and bits with wrong padding.
static HOSTILE: [(&'static [u8], PayloadConfig, CodecError); 9] = [
    (
        b"\x03\xff\xff\xff\xff\x0f",
        GREATEST,
        CodecError::EndOfBuffer,
    ),
    (
        b"\x03\xff\xff\xff\xff\x0f",
        FEW,
        CodecError::InvalidLength(4_294_967_295),
    ),
    (
        b"\x02\0\xff\xff\xff\xff\xff\xff\xff\xff\xff\x01",
        GREATEST,
        CodecError::EndOfBuffer,
    ),
    (
        b"\x02\0\xff\xff\xff\xff\xff\xff\xff\xff\xff\x01",
        FEW,
        CodecError::InvalidLength(18_446_744_073_709_551_615),
    ),
    (
        b"\0\0\xff\xff\xff\xff\x0f",
        GREATEST,
        CodecError::EndOfBuffer,
    ),
    (
        b"\0\0\xff\xff\xff\xff\x1f",
        FEW,
        CodecError::InvalidVarint(5),
    ),
    (
        b"\0\0\x80\x80\x80\x80\x80",
        FEW,
        CodecError::InvalidVarint(5),
    ),
    (b"\0\0\x80\x80", FEW, CodecError::EndOfBuffer),
    (
        b"\x02\x05\x09\xff\x02",
        NINE,
        CodecError::Invalid(What::Padding),
    ),
];

// Tests that each frame with hostile counts is rejected with its error if memory is ample, and if
// every allocation fails.
#[test]
fn hostile_counts_ask_for_no_memory(rt: HostRuntime) -> Result<(), Fail> {
    let alloc = rt.alloc();
    let mut memory = FailingAlloc::new(alloc)?;
    for (bytes, limits, fault) in HOSTILE {
        let ample = Payload::<TestKey>::decode_cfg(alloc, Bytes::from_static(bytes), &limits);
        memory.limit(alloc, 0)?;
        let scarce = Payload::<TestKey>::decode_cfg(alloc, Bytes::from_static(bytes), &limits);
        memory.lift();
        assert_same_for(&rt, ample.err(), Some(fault), bytes);
        assert_same_for(&rt, scarce.err(), Some(fault), bytes);
    }
    Ok(())
}

#[test]
fn a_byte_too_many_is_told(rt: HostRuntime) -> Result<(), Fail> {
    let frame = Bytes::from_static(b"\x02\x05\x09\xff\x01\0");
    let read = Payload::<TestKey>::decode_cfg(rt.alloc(), frame, &NINE);
    assert_same(&rt, read.err(), Some(CodecError::ExtraData(1)));
    Ok(())
}
