//! Bytes after their length, and the limit of a length.

ghost use Rattle.std.specs.Prelude.{◌≡◌, ◌+◌, ◌<◌, ◌≤◌, ◌^◌, ◌++◌, length, true, IfOk};
ghost use Rattle.p2p_discovery.specs.Reading.{Gives, is_within};
ghost use Rattle.p2p_discovery.specs.Counted.{counted_spelling, length_at};

use crate::codec::{CodecError, EncodeSize, RangeCfg, Read, Reader, Write};
use bytes::BytesMut;
use std::alloc::Global;

// Reads the length of counted bytes, which must be within the limit.
#[inline(always)]
#[tactic(auto, unfolding(crate::specs::Counted::length_at))]
pub(crate) fn read_length(
    alloc: Global,
    reader: &mut Reader<'_>,
    limit: &RangeCfg,
) -> Result<usize, CodecError>
    ensures exact { Gives result reader.new (length_at limit.now reader.old) }
    ensures allowed { IfOk result (λ n. is_within limit.now n ≡ true) }
{
    let length = u32::read(alloc, reader, &())? as usize;
    if !limit.contains(length) {
        return Err(CodecError::InvalidLength(length));
    }
    Ok(length)
}

// The size of counted bytes: the number of the bytes and of those of their length.
pub(crate) fn counted_size(bytes: &[u8]) -> usize
    requires { length bytes.now < 2 ^ 32 }
    ensures size { result ≡ length (counted_spelling bytes.now) }
    ensures bound { result ≤ length bytes.now + 5 }
{
    let length = bytes.len();
    (length as u32).encode_size() + length
}

// Appends counted bytes: their length, and the bytes.
pub(crate) fn write_counted(bytes: &[u8], buf: &mut BytesMut)
    requires small { length bytes.now < 2 ^ 32 }
    requires room { length (counted_spelling bytes.now) ≤ buf.old.spare }
    ensures items { buf.new.items ≡ buf.old.items ++ counted_spelling bytes.now }
    ensures spare { buf.new.spare + length (counted_spelling bytes.now) ≡ buf.old.spare }
{
    (bytes.len() as u32).write(buf);
    buf.extend_reserved(bytes);
}
