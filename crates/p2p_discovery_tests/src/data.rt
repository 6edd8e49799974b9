//! Data frames: their encoding and their buffers.

ghost use Rattle.std.specs.Prelude.{◌≡◌, ◌<◌, ◌^◌, length, IfOk};
ghost use Rattle.std.specs.List.{concat};

use crate::assertions::{assert_same, assert_same_for};
use bytes::Bytes;
use p2p_discovery::codec::{CodecError, EncodeSize, RangeCfg, Read, Write};
use p2p_discovery::data::{Data, EncodedData, Upgrader, max_size};
use std::alloc::Global;
use std::collections::VecDeque;
use std::process::Abort;
use std::test::Fail;

const ANY: RangeCfg = RangeCfg {
    least: 0,
    greatest: 4_294_967_295,
};

const HELLO: &[u8] = b"\xb9\x60\x0dHello, world!";

fn hello() -> Data
    ensures { length result.message ≡ 13 }
{
    Data {
        channel: 12345,
        message: Bytes::from_static(b"Hello, world!"),
    }
}

/// Repeats these buffers for tests of data frames. Fails if they are too long for a frame together.
pub(crate) fn repeated(
    alloc: Global,
    parts: &[&'static [u8]],
    times: usize,
) -> Result<VecDeque<Bytes>, Fail>
    ensures { IfOk result (λ v. length (concat v.items) < 2 ^ 32) }
{
    let mut buffers = VecDeque::new(alloc);
    let mut total = 0usize;
    for _ in 0..times {
        for part in parts {
            if part.len() > 2_000_000 || total > 1_000_000_000 {
                return Err("the buffers are too long".into());
            }
            total += part.len();
            buffers.push_back(Bytes::from_static(*part))?;
        }
    }
    Ok(buffers)
}

/// The buffers of a message, for tests of data frames.
pub(crate) fn buffers(alloc: Global, parts: &[&'static [u8]]) -> Result<VecDeque<Bytes>, Fail>
    ensures { IfOk result (λ v. length (concat v.items) < 2 ^ 32) }
{
    repeated(alloc, parts, 1)
}

#[test]
fn spells_data(rt: HostRuntime) -> Result<(), Fail> {
    let bytes = hello().encode(rt.alloc())?;
    assert_same(&rt, bytes.as_slice(), HELLO);
    assert_same(&rt, hello().encode_size(), 16);
    for (least, greatest) in [(13, 13), (0, 13), (13, 4_294_967_295)] {
        let limit = RangeCfg { least, greatest };
        let read = Data::decode_cfg(rt.alloc(), bytes.clone()?, &limit);
        assert_same_for(&rt, &read?, &hello(), (least, greatest));
    }
    for (least, greatest) in [(0, 12), (14, 4_294_967_295), (14, 13)] {
        let limit = RangeCfg { least, greatest };
        let mut buf = bytes.clone()?;
        let read = Data::read_cfg(rt.alloc(), &mut buf, &limit);
        assert_same_for(
            &rt,
            read.err(),
            Some(CodecError::InvalidLength(13)),
            (least, greatest),
        );
        assert_same(&rt, buf.as_slice(), HELLO);
    }
    Ok(())
}

#[test]
fn leaves_what_stands_behind_data(rt: HostRuntime) -> Result<(), Fail> {
    let mut buf: Bytes = Bytes::from_static(b"\x03\0\x01\x02\x03\x04\x05\x06\x07\x08\x09");
    let whole = Data::decode_cfg(rt.alloc(), buf.clone()?, &ANY);
    assert_same(&rt, whole.err(), Some(CodecError::ExtraData(9)));
    let read = Data::read_cfg(rt.alloc(), &mut buf, &ANY)?;
    assert_same(&rt, read.channel, 3);
    assert!(rt; read.message.is_empty());
    assert_same(
        &rt,
        buf.as_slice(),
        b"\x01\x02\x03\x04\x05\x06\x07\x08\x09".as_slice(),
    );
    Ok(())
}

static REFUSED_DATA: [(&'static [u8], CodecError); 7] = [
    (b"", CodecError::EndOfBuffer),
    (b"\x80\0\0", CodecError::InvalidVarint(10)),
    (
        b"\xff\xff\xff\xff\xff\xff\xff\xff\xff\x02\0",
        CodecError::InvalidVarint(10),
    ),
    (b"\x01\x05hello", CodecError::InvalidLength(5)),
    (b"\x01\x05", CodecError::InvalidLength(5)),
    (b"\x01\x04hel", CodecError::EndOfBuffer),
    (b"\x01\xff\xff\xff\xff\x1f", CodecError::InvalidVarint(5)),
];

#[test]
fn refuses_data(rt: HostRuntime) -> Result<(), Fail> {
    let limit = RangeCfg {
        least: 0,
        greatest: 4,
    };
    for (bytes, fault) in REFUSED_DATA {
        let bytes = Bytes::copy_from_slice(rt.alloc(), bytes)?;
        let read = Data::decode_cfg(rt.alloc(), bytes, &limit);
        assert_same(&rt, read.err(), Some(fault));
    }
    let widest = Bytes::from_static(b"\xff\xff\xff\xff\xff\xff\xff\xff\xff\x01\0");
    assert_same(
        &rt,
        Data::decode_cfg(rt.alloc(), widest, &limit)?.channel,
        u64::MAX,
    );
    Ok(())
}

/// Tests that a message of a data frame that was read shares the memory of its buffer, which
/// therefore has two owners.
#[test]
fn cuts_messages_out_of_their_buffer(rt: HostRuntime) -> Result<(), Fail> {
    let mut longer = HELLO.to_vec(rt.alloc())?;
    longer.push(7)?;
    let mut buf = Bytes::from_vec(longer)?;
    let read = Data::read_cfg(rt.alloc(), &mut buf, &ANY)?;
    assert!(rt; !read.message.is_unique());
    assert_same(&rt, buf.as_slice(), [7].as_slice());
    drop(buf);
    assert!(rt; read.message.is_unique());
    assert_same(&rt, &read, &hello());
    Ok(())
}

struct Narrow;

impl Upgrader for Narrow {
    ghost MAX_SIZE = { 16 };

    const MAX_SIZE: u32 = 16;
}

struct Next;

impl Upgrader for Next {
    ghost MAX_SIZE = { 17 };

    const MAX_SIZE: u32 = 17;
}

struct Wide;

impl Upgrader for Wide {
    ghost MAX_SIZE = { 1_048_576 };

    const MAX_SIZE: u32 = 1_048_576;
}

#[test]
fn leaves_room_for_the_overhead(rt: HostRuntime) {
    assert_same(&rt, max_size::<Narrow>(), 0);
    assert_same(&rt, max_size::<Next>(), 1);
    assert_same(&rt, max_size::<Wide>(), 1_048_560);
}

/// Asserts that the data frame of a message on this channel has these buffers.
fn assert_framed(
    rt: &impl Abort,
    alloc: Global,
    channel: u64,
    parts: &[&'static [u8]],
    framed: &[&'static [u8]],
) -> Result<(), Fail> {
    let want = buffers(alloc, framed)?;
    match EncodedData::new(alloc, channel, buffers(alloc, parts)?) {
        Ok(encoded) => {
            assert_same(rt, encoded.channel, channel);
            assert_same(rt, &encoded.payload, &want);
            Ok(())
        }
        Err(_) => Err("no memory".into()),
    }
}

#[test]
fn puts_a_header_before_the_buffers(rt: HostRuntime) -> Result<(), Fail> {
    let alloc = rt.alloc();
    let parts = [b"hello ".as_slice(), b"world", b"!"];
    let framed = [b"\x00\xb9\x60\x0c".as_slice(), b"hello ", b"world", b"!"];
    assert_framed(&rt, alloc, 12345, &parts, &framed)?;
    assert_framed(&rt, alloc, 12345, &[], &[b"\x00\xb9\x60\x00"])?;
    assert_framed(
        &rt,
        alloc,
        1,
        &[b"", b"hello"],
        &[b"\0\x01\x05", b"", b"hello"],
    )
}

static LONG: [u8; 1_048_576] = [0; 1_048_576];

/// Tests that the bytes in the buffers of data are neither read nor copied, so this takes no longer
/// than with short ones.
#[test]
fn puts_a_header_before_many_long_buffers(rt: HostRuntime) -> Result<(), Fail> {
    let alloc = rt.alloc();
    let message = repeated(alloc, &[LONG.as_slice()], 512)?;
    let encoded = EncodedData::new(alloc, u64::MAX, message)
        .ok()
        .ok_or("no memory")?;
    assert_same(&rt, encoded.payload.len(), 513);
    let total = encoded
        .payload
        .iter()
        .fold(0usize, |total, buffer| total.saturating_add(buffer.len()));
    assert_same(&rt, total, 536_870_928);
    let header = encoded.payload.front().ok_or("no header")?;
    assert_same(
        &rt,
        header.as_slice(),
        b"\x00\xff\xff\xff\xff\xff\xff\xff\xff\xff\x01\x80\x80\x80\x80\x02".as_slice(),
    );
    Ok(())
}
