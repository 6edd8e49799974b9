//! How bits and their index are encoded.

ghost use Rattle.std.specs.Prelude.{◌≡◌, ◌+◌, ◌<◌, ◌^◌, length};
ghost use Rattle.p2p_discovery.specs.Reading.{Gives};
ghost use Rattle.p2p_discovery.specs.BitVec.{bit_vec_spelling, IsBitVecAllowed, bits_read_at};
ghost use Rattle.p2p_discovery.specs.BitVec.{bit_vec_read_at};
ghost use Rattle.p2p_discovery.specs.Laws.BitVec.{lawful_bit_vec};

use crate::codec::{CodecError, EncodeSize, Read, Reader, Write};
use crate::discovery::BitVec;
use crate::sets::{BitMap, bytes_for};
use bytes::BytesMut;
use std::alloc::Global;

impl EncodeSize for BitVec {
    ghost use Rattle.std.specs.Prelude.{◌<◌, ◌^◌};

    ghost IsValue = { λ v. v.index < 2 ^ 64 };

    ghost CanSpell = { λ _. Unit {0} };

    ghost spelling = { bit_vec_spelling };

    fn encode_size(&self) -> usize
        ensures size { result ≡ length (bit_vec_spelling self.now) }
        ensures value { self.now.index < 2 ^ 64 }
        ensures bound { result < 2 ^ 62 }
    {
        self.index.encode_size() + self.bits.len().encode_size() + self.bits.as_bytes().len()
    }
}

impl Write for BitVec {
    fn write(&self, buf: &mut BytesMut) {
        self.index.write(buf);
        self.bits.len().write(buf);
        buf.extend_reserved(self.bits.as_bytes());
    }
}

impl Read for BitVec {
    type Cfg = u64;

    ghost Admits = { IsBitVecAllowed };

    ghost reading = { bit_vec_read_at };

    #[tactic(auto, unfolding(crate::specs::BitVec::bit_vec_read_at))]
    fn read(alloc: Global, reader: &mut Reader<'_>, limit: &u64) -> Result<BitVec, CodecError> {
        let index = u64::read(alloc, reader, &())?;
        let bits = read_bits(alloc, reader, *limit)?;
        Ok(BitVec { index, bits })
    }

    ghost lawful = { lawful_bit_vec };
}

// Reads the number of encoded bits, and as many of them: at most so many.
#[tactic(auto, unfolding(crate::specs::BitVec::bits_read_at))]
fn read_bits(alloc: Global, reader: &mut Reader<'_>, limit: u64) -> Result<BitMap, CodecError>
    ensures { Gives result reader.new (bits_read_at limit reader.old) }
{
    let count = u64::read(alloc, reader, &())?;
    if count > limit {
        return Err(CodecError::InvalidLength(count as usize));
    }
    let bytes = reader.counted(bytes_for(count))?;
    BitMap::from_bytes(alloc, bytes, count)
}
