//! Codecs: the bytes that they read and write.

ghost use Rattle.std.specs.Prelude.{◌<◌, ◌^◌};

pub(crate) mod array_keys;
pub(crate) mod small_keys;

use crate::assertions::{assert_same, assert_same_for};
use bytes::{Bytes, BytesMut};
use p2p_discovery::codec::{
    CodecError, EncodeSize, FixedBytes, PublicKey, RangeCfg, Read, Reader, TestKey, TestSignature,
    What, Write, bounded_size, cut_short, read_back,
};
use std::alloc::Global;
use std::fmt::Debug;
use std::process::Abort;
use std::test::Fail;

/// Bytes that follow a value that is read.
const REST: &[u8] = b"\xff\x00";

/// Asserts that the codec gives the value this encoding, and reads it again with and without bytes
/// after it.
pub(crate) fn is_spelled<T: Write + Read<Cfg = ()> + PartialEq + Debug>(
    rt: &impl Abort,
    alloc: Global,
    value: &T,
    spelling: &[u8],
) -> Result<(), Fail>
    requires { T.CanSpell value.now }
{
    let bytes = value.encode(alloc)?;
    assert_same(rt, bytes.as_slice(), spelling);
    assert_same_for(rt, value.encode_size(), spelling.len(), spelling);
    assert_same(rt, &T::decode(alloc, bytes)?, value);
    is_read_before_others(rt, alloc, value, spelling)
}

/// Asserts that the codec reads the value again with bytes after it, which `decode` rejects.
fn is_read_before_others<T: Read<Cfg = ()> + PartialEq + Debug>(
    rt: &impl Abort,
    alloc: Global,
    value: &T,
    spelling: &[u8],
) -> Result<(), Fail> {
    let mut longer = spelling.to_vec(alloc)?;
    longer.extend_from_slice(REST)?;
    let mut buf = Bytes::copy_from_slice(alloc, &longer)?;
    assert_same(rt, &T::read_cfg(alloc, &mut buf, &())?, value);
    assert_same_for(rt, buf.as_slice(), REST, spelling);
    assert_same_for(
        rt,
        T::decode(alloc, Bytes::copy_from_slice(alloc, &longer)?).err(),
        Some(CodecError::ExtraData(2)),
        longer.as_slice(),
    );
    Ok(())
}

/// Asserts that the codec's `decode` and `read_cfg` reject the bytes with this error, and that
/// `read_cfg` leaves its buffer unchanged.
pub(crate) fn is_refused<T: Read<Cfg = ()>>(
    rt: &impl Abort,
    alloc: Global,
    bytes: &[u8],
    fault: CodecError,
) -> Result<(), Fail> {
    let mut buf = Bytes::copy_from_slice(alloc, bytes)?;
    assert_same_for(rt, T::decode(alloc, buf.clone()?).err(), Some(fault), bytes);
    assert_same_for(
        rt,
        T::read_cfg(alloc, &mut buf, &()).err(),
        Some(fault),
        bytes,
    );
    assert_same_for(rt, buf.as_slice(), bytes, "after a refusal");
    Ok(())
}

static SPELLED_NUMBERS: [(u64, &'static [u8]); 9] = [
    (0u64, b"\x00"),
    (127, b"\x7f"),
    (128, b"\x80\x01"),
    (253, b"\xfd\x01"),
    (300, b"\xac\x02"),
    (1000, b"\xe8\x07"),
    (12345, b"\xb9\x60"),
    (100_000, b"\xa0\x8d\x06"),
    (u64::MAX, b"\xff\xff\xff\xff\xff\xff\xff\xff\xff\x01"),
];

#[test]
fn spells_whole_numbers(rt: HostRuntime) -> Result<(), Fail> {
    for (number, spelling) in SPELLED_NUMBERS {
        is_spelled(&rt, rt.alloc(), &number, spelling)?;
    }
    is_spelled(&rt, rt.alloc(), &u32::MAX, b"\xff\xff\xff\xff\x0f")
}

static REFUSED_NUMBERS_64: [(&'static [u8], CodecError); 6] = [
    (b"", CodecError::EndOfBuffer),
    (b"\x80", CodecError::EndOfBuffer),
    (b"\x80\x00", CodecError::InvalidVarint(10)),
    (b"\x81\x80\x00", CodecError::InvalidVarint(10)),
    (
        b"\xff\xff\xff\xff\xff\xff\xff\xff\xff\x02",
        CodecError::InvalidVarint(10),
    ),
    (
        b"\xff\xff\xff\xff\xff\xff\xff\xff\xff\x81\x00",
        CodecError::InvalidVarint(10),
    ),
];

static REFUSED_NUMBERS_32: [(&'static [u8], CodecError); 4] = [
    (b"\xff\xff\xff\xff", CodecError::EndOfBuffer),
    (b"\xff\xff\xff\xff\x10", CodecError::InvalidVarint(5)),
    (b"\xff\xff\xff\xff\x80\x00", CodecError::InvalidVarint(5)),
    (b"\x80\x00", CodecError::InvalidVarint(5)),
];

#[test]
fn refuses_other_spellings_of_numbers(rt: HostRuntime) -> Result<(), Fail> {
    for (bytes, fault) in REFUSED_NUMBERS_64 {
        is_refused::<u64>(&rt, rt.alloc(), bytes, fault)?;
    }
    for (bytes, fault) in REFUSED_NUMBERS_32 {
        is_refused::<u32>(&rt, rt.alloc(), bytes, fault)?;
    }
    Ok(())
}

#[test]
#[tactic(auto, unfolding(p2p_discovery::specs::Varint::groups))]
fn writes_behind_what_is_there(rt: HostRuntime) -> Result<(), Fail> {
    let mut buf = BytesMut::with_capacity(rt.alloc(), 16)?;
    300u64.write(&mut buf);
    7u32.write(&mut buf);
    assert_same(&rt, buf.as_slice(), b"\xac\x02\x07".as_slice());
    assert_same(&rt, bounded_size(&300u64), 2);
    assert_same(&rt, read_back(rt.alloc(), &300u64, &())?, 300);
    let cut = cut_short::<u64>(rt.alloc(), Bytes::from_static(b"\xac"), &());
    assert_same(&rt, cut.err(), Some(CodecError::EndOfBuffer));
    Ok(())
}

#[test]
fn reads_from_left_to_right(rt: HostRuntime) -> Result<(), Fail> {
    let bytes = Bytes::from_static(b"\x05abc");
    let mut reader = Reader::new(&bytes);
    assert_same(&rt, reader.len(), 4);
    assert_same(&rt, reader.byte()?, 5);
    assert_same(&rt, reader.counted(4).err(), Some(CodecError::EndOfBuffer));
    assert_same(&rt, reader.counted(1)?, b"a".as_slice());
    assert_same(&rt, reader.rest(), b"bc".as_slice());
    assert_same(&rt, reader.cut(3).err(), Some(CodecError::EndOfBuffer));
    assert_same(&rt, reader.cut(2)?.as_slice(), b"bc".as_slice());
    assert!(rt; reader.is_empty());
    assert_same(&rt, reader.byte().err(), Some(CodecError::EndOfBuffer));
    Ok(())
}

#[test]
fn allows_both_ends_of_a_limit(rt: HostRuntime) {
    let limit = RangeCfg {
        least: 2,
        greatest: 4,
    };
    for (length, allowed) in [(1, false), (2, true), (4, true), (5, false)] {
        assert_same_for(&rt, limit.contains(length), allowed, length);
    }
}

#[test]
fn spells_test_keys(rt: HostRuntime) -> Result<(), Fail> {
    let mut out = [0u8; 8];
    TestKey(0x0102_0304_0506_0708).write_fixed(&mut out);
    assert_same(&rt, out, [1, 2, 3, 4, 5, 6, 7, 8]);
    assert_same(
        &rt,
        TestKey::read_fixed(&out),
        Some(TestKey(0x0102_0304_0506_0708)),
    );
    TestSignature(256).write_fixed(&mut out);
    assert_same(&rt, out, [0, 0, 0, 0, 0, 0, 1, 0]);
    assert_same(
        &rt,
        TestSignature::read_fixed(&out),
        Some(TestSignature(256)),
    );
    Ok(())
}

/// Tests the codec's test keys: for `ab`, key 1 gives `1 * 257 + 97 + 1` after `a`, and after `b`
/// that times 257, plus 98 and 1. Key `u64::MAX` gives `257 * 2^64 - 257 + 256` for one byte 255,
/// which is `2^64 - 1` modulo `2^64`.
#[test]
fn signs_by_the_bytes(rt: HostRuntime) {
    assert_same(&rt, TestKey(0).sign(b"", b""), TestSignature(0));
    assert_same(&rt, TestKey(1).sign(b"", b""), TestSignature(1));
    assert_same(
        &rt,
        TestKey(1).sign(b"rows", b""),
        TestSignature(6_321_977_040),
    );
    assert_same(
        &rt,
        TestKey(1).sign(b"r", b"ows"),
        TestSignature(0x0000_0001_78d1_b6d0),
    );
    assert_same(&rt, TestKey(1).sign(b"a", b"b"), TestSignature(91_334));
    assert_same(&rt, TestKey(1).sign(b"", b"ab"), TestSignature(91_334));
    assert_same(
        &rt,
        TestKey(u64::MAX).sign(b"\xff", b""),
        TestSignature(u64::MAX),
    );
    assert!(rt; TestKey(1).verify(b"a", b"b", &TestSignature(91_334)));
    assert!(rt; !TestKey(1).verify(b"a", b"b", &TestSignature(91_335)));
}

#[test]
fn tells_why_bytes_are_refused(rt: HostRuntime) -> Result<(), Fail> {
    let cases = [
        (CodecError::EndOfBuffer, "the bytes end within a field"),
        (CodecError::ExtraData(9), "9 bytes behind the value"),
        (
            CodecError::InvalidLength(13),
            "a length of 13 is not allowed",
        ),
        (
            CodecError::InvalidVarint(10),
            "no whole number of at most 10 bytes",
        ),
        (CodecError::InvalidEnum(5), "no form has the prefix 5"),
        (
            CodecError::Invalid(What::Hostname),
            "not the proper form: Hostname",
        ),
        (CodecError::Memory, "memory was refused"),
    ];
    for (error, text) in cases {
        let told = format!(in rt.alloc(); "{error}")?;
        assert_same(&rt, told.as_str(), text);
    }
    Ok(())
}
