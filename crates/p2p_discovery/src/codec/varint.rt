//! Integers as varints: groups of seven bits, the least significant first.

ghost use Rattle.std.specs.Prelude.{◌≡◌, ℕ, ◌+◌, ◌*◌, ◌^◌, ◌<◌, ◌≤◌, true, false, List, ◌∷◌, ◌++◌};
ghost use Rattle.std.specs.Prelude.{length, IfOk};
ghost use Rattle.std.proofs.Common.{lit<};
ghost use Rattle.p2p_discovery.specs.Reading.{Gives};
ghost use Rattle.p2p_discovery.specs.Laws.Fields.{lawful_unlimited};
ghost use Rattle.p2p_discovery.specs.Varint.{groups, groups_at, last_group, varint64, varint64_at};
ghost use Rattle.p2p_discovery.specs.Varint.{varint32, varint32_at};
ghost use Rattle.p2p_discovery.specs.Laws.Varint.{groups_lawful, groups_short};

use crate::codec::{CodecError, EncodeSize, MaxEncodeSize, Read, Reader, Write};
use bytes::BytesMut;
use std::alloc::Global;

// How many groups the varint of a number has.
fn group_count(n: u64) -> usize
    ensures size { (most : ℕ) → 0 < most → n < 128 ^ most → result ≡ length (groups most n) }
    ensures bound { result ≤ n + 1 }
    ensures short { (most : ℕ) → 0 < most → n < 128 ^ most → result ≤ most }
{
    if n < 128 { 1 } else { 1 + group_count(n / 128) }
}

// Appends the groups of a varint, two at a time.
fn write_groups(n: u64, buf: &mut BytesMut)
    requires { (most : ℕ) × (0 < most) × (n < 128 ^ most)
        × (length (groups most n) ≤ buf.old.spare) }
    ensures { (most : ℕ) → 0 < most → n < 128 ^ most
        → (buf.new.items ≡ buf.old.items ++ groups most n)
        × (buf.new.spare + length (groups most n) ≡ buf.old.spare) }
{
    let low = (n % 128) as u8;
    let high = n / 128;
    if high == 0 {
        buf.extend_reserved(&[low]);
    } else if high < 128 {
        buf.extend_reserved(&[low + 128, high as u8]);
    } else {
        buf.extend_reserved(&[low + 128, (high % 128) as u8 + 128]);
        write_groups(high / 128, buf);
    }
}

// Reads the groups of a varint that has at most `most`. At most `left` bytes may follow the first
// one, of which the last possible one is at most `top`.
#[inline(always)]
fn read_groups(reader: &mut Reader<'_>, most: usize, top: u8, left: u32) -> Result<u64, CodecError>
    requires some { (0 < left) × (0 < top) }
    requires fits { (top + 1) * 128 ^ left ≤ 2 ^ 64 }
    ensures exact { Gives result reader.new (groups_at most top false left reader.old) }
    ensures bound { IfOk result (λ n. n < (top + 1) * 128 ^ left) }
{
    let byte = reader.byte()?;
    if byte < 128 {
        return Ok(byte as u64);
    }
    read_more(reader, most, top, left - 1, byte)
}

// Reads the groups of a varint behind the first one, as `read_groups` does.
fn read_more(
    reader: &mut Reader<'_>,
    most: usize,
    top: u8,
    left: u32,
    first: u8,
) -> Result<u64, CodecError>
    requires more { (128 ≤ first) × (0 < top) }
    requires fits { (top + 1) * 128 ^ (left + 1) ≤ 2 ^ 64 }
    ensures exact { Gives result reader.new
        (groups_at most top false (left + 1) (first ∷ reader.old)) }
    ensures bound { IfOk result (λ n. n < (top + 1) * 128 ^ (left + 1)) }
{
    let mut sum = first as u64 - 128;
    let mut unit = 128;
    for _ in 0..left {
        let byte = reader.byte()?;
        if byte < 128 {
            return Ok(sum + unit * checked_last(byte, most, 127)?);
        }
        sum += unit * (byte as u64 - 128);
        unit *= 128;
    }
    let byte = reader.byte()?;
    Ok(sum + unit * checked_last(byte, most, top)?)
}

// The last group of a varint of several, which is at most `top`, and not 0.
#[inline(always)]
fn checked_last(byte: u8, most: usize, top: u8) -> Result<u64, CodecError>
    ensures exact { (rest : List ℕ) → Gives result rest (last_group most top true byte rest) }
    ensures bound { IfOk result (λ n. n ≤ top) }
{
    if byte > top || byte == 0 {
        return Err(CodecError::InvalidVarint(most));
    }
    Ok(byte as u64)
}

impl EncodeSize for u64 {
    ghost IsValue = { λ n. n < 2 ^ 64 };

    ghost CanSpell = { λ _. Unit {0} };

    ghost spelling = { varint64 };

    fn encode_size(&self) -> usize
        ensures size { result ≡ length (varint64 self.now) }
        ensures value { self.now < 2 ^ 64 }
        ensures bound { result ≤ 10 }
    {
        group_count(*self)
    }
}

impl MaxEncodeSize for u64 {
    ghost MAX_ENCODE_SIZE = { 10 };

    const MAX_ENCODE_SIZE: usize = 10;

    ghost at_most_max = { λ n _. groups_short 10 n };
}

impl Write for u64 {
    fn write(&self, buf: &mut BytesMut) {
        write_groups(*self, buf);
    }
}

impl Read for u64 {
    type Cfg = ();

    ghost Admits = { λ _ _. Unit {0} };

    ghost reading = { λ _. varint64_at };

    fn read(_alloc: Global, reader: &mut Reader<'_>, _cfg: &()) -> Result<u64, CodecError> {
        read_groups(reader, 10, 1, 9)
    }

    ghost lawful = { λ _. lawful_unlimited (groups_lawful 10 1 9 (lit< tt)) };
}

impl EncodeSize for u32 {
    ghost IsValue = { λ n. n < 2 ^ 32 };

    ghost CanSpell = { λ _. Unit {0} };

    ghost spelling = { varint32 };

    fn encode_size(&self) -> usize
        ensures size { result ≡ length (varint32 self.now) }
        ensures value { self.now < 2 ^ 32 }
        ensures bound { result ≤ 5 }
    {
        group_count(*self as u64)
    }
}

impl MaxEncodeSize for u32 {
    ghost MAX_ENCODE_SIZE = { 5 };

    const MAX_ENCODE_SIZE: usize = 5;

    ghost at_most_max = { λ n _. groups_short 5 n };
}

impl Write for u32 {
    fn write(&self, buf: &mut BytesMut) {
        write_groups(*self as u64, buf);
    }
}

impl Read for u32 {
    type Cfg = ();

    ghost Admits = { λ _ _. Unit {0} };

    ghost reading = { λ _. varint32_at };

    fn read(_alloc: Global, reader: &mut Reader<'_>, _cfg: &()) -> Result<u32, CodecError> {
        Ok(read_groups(reader, 5, 15, 4)? as u32)
    }

    ghost lawful = { λ _. lawful_unlimited (groups_lawful 5 15 4 (lit< tt)) };
}
