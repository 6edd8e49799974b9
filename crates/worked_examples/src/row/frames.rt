//! Worked examples of frames and encodings.

ghost use Rattle.std.specs.Prelude.{◌<◌, ◌^◌, length};
ghost use Rattle.std.specs.List.{concat};

use crate::row::{Stop, print};
use bytes::Bytes;
use lines::{Hex, Line};
use p2p_discovery::codec::{CodecError, EncodeSize, RangeCfg, Read, TestKey, Write as _};
use p2p_discovery::data::{Data, EncodedData};
use p2p_discovery::discovery::{Payload, PayloadConfig};
use p2p_discovery::types::Ingress;
use std::alloc::{AllocError, Global};
use std::collections::VecDeque;
use std::fmt;
use std::io::Write;

const ANY_LENGTH: RangeCfg = RangeCfg {
    least: 0,
    greatest: usize::MAX,
};

/// Why nothing was decoded.
#[derive(Drop)]
struct Refused(CodecError);

impl fmt::Display for Refused {
    fn fmt<W: fmt::Write>(&self, f: &mut fmt::Formatter<W>) -> fmt::Result {
        let error = self.0;
        write!(f, "{error:?}")
    }
}

// Prints what was decoded from the frame of a row, or ends the row if an allocation failed.
fn print_decoded<W: Write>(out: &mut W, decoded: Result<Data, CodecError>) -> Result<(), Stop> {
    match decoded {
        Ok(data) => print(out, &Line(&data)),
        Err(error) => print_refused(out, error),
    }
}

// Prints why nothing was decoded from the frame of a row, or ends the row if an allocation failed.
fn print_refused<W: Write>(out: &mut W, error: CodecError) -> Result<(), Stop> {
    match error {
        CodecError::Memory => Err(Stop::Memory),
        error => print(out, &Refused(error)),
    }
}

/// Prints the row of a data frame, decoded under several limits on its message.
pub fn data_frame<W: Write>(alloc: Global, out: &mut W) -> Result<(), Stop> {
    let data = Data {
        channel: 12_345,
        message: Bytes::from_static(b"Hello, world!"),
    };
    let frame = data.encode(alloc)?;
    print(out, &Hex(frame.as_slice()))?;
    for (least, greatest) in [(13, 13), (0, 12), (14, usize::MAX)] {
        let limit = RangeCfg { least, greatest };
        print_decoded(out, Data::decode_cfg(alloc, frame.clone()?, &limit))?;
    }
    Ok(())
}

/// Prints the row of what remains after a frame.
pub fn rest_of_a_frame<W: Write>(alloc: Global, out: &mut W) -> Result<(), Stop> {
    let frame: Bytes = Bytes::from_static(b"\x03\0\x01\x02\x03\x04\x05\x06\x07\x08\x09");
    let mut rest = frame.clone()?;
    print_decoded(out, Data::read_cfg(alloc, &mut rest, &ANY_LENGTH))?;
    print(out, &Hex(rest.as_slice()))?;
    print_decoded(out, Data::decode_cfg(alloc, frame, &ANY_LENGTH))
}

/// Prints the row of a frame's buffers in encoded data.
pub fn encoded_data<W: Write>(alloc: Global, out: &mut W) -> Result<(), Stop> {
    let mut message = VecDeque::new(alloc);
    message.push_back(Bytes::from_static(b"hello "))?;
    message.push_back(Bytes::from_static(b"world"))?;
    message.push_back(Bytes::from_static(b"!"))?;
    print_buffers(alloc, message, out)?;
    print_buffers(alloc, VecDeque::new(alloc), out)
}

fn print_buffers<W: Write>(alloc: Global, message: VecDeque<Bytes>, out: &mut W) -> Result<(), Stop>
    requires { length (concat message.items) < 2 ^ 32 }
{
    let Ok(encoded) = EncodedData::new(alloc, 12_345, message) else {
        return Err(Stop::Memory);
    };
    for buffer in &encoded.payload {
        print(out, &Hex(buffer.as_slice()))?;
    }
    Ok(())
}

/// Prints the row of frames of bits under a limit, of bits that are padded wrongly, and of a prefix
/// that doesn't exist.
pub fn payloads<W: Write>(alloc: Global, out: &mut W) -> Result<(), Stop> {
    for (frame, max_bit_vec) in [
        (b"\x02\x05\x09\xff\x01".as_slice(), 8),
        (b"\x02\x05\x09\xff\x01", 9),
        (b"\x02\x05\x09\xff\x03", 9),
        (b"\x04\0\x01", 9),
    ] {
        let limits = PayloadConfig {
            max_bit_vec,
            max_peers: 8,
            max_data_length: 32,
        };
        match Payload::<TestKey>::decode_cfg(alloc, Bytes::from_static(frame), &limits) {
            Ok(Payload::BitVec(bits)) => print(out, &Line(&bits))?,
            Ok(_) => return Ok(()),
            Err(error) => print_refused(out, error)?,
        }
    }
    Ok(())
}

/// Prints the row of frames with numbers in non-canonical encodings, with the longest name, and
/// with one too long.
pub fn odd_numbers<W: Write>(alloc: Global, out: &mut W) -> Result<(), Stop> {
    for frame in [
        b"\x80\0\0".as_slice(),
        b"\xff\xff\xff\xff\xff\xff\xff\xff\xff\x01\0",
        b"\xff\xff\xff\xff\xff\xff\xff\xff\xff\x02\0",
    ] {
        print_decoded(
            out,
            Data::decode_cfg(alloc, Bytes::from_static(frame), &ANY_LENGTH),
        )?;
    }
    print_ingress_size(alloc, longest_name(alloc)?, out)?;
    let mut long = Vec::new(alloc);
    long.extend_from_slice(b"\x01\xac\x02")?;
    extend(&mut long, b'a', 302)?;
    print_ingress_size(alloc, Bytes::copy_from_slice(alloc, &long)?, out)
}

// A frame of a row, of a name of 253 bytes, with its port.
fn longest_name(alloc: Global) -> Result<Bytes, AllocError> {
    let mut frame = Vec::new(alloc);
    frame.extend_from_slice(b"\x01\xfd\x01")?;
    for (letter, count) in [(b'a', 63), (b'b', 63), (b'c', 63)] {
        extend(&mut frame, letter, count)?;
        frame.push(b'.')?;
    }
    extend(&mut frame, b'd', 61)?;
    frame.extend_from_slice(&[0, 80])?;
    Bytes::copy_from_slice(alloc, &frame)
}

fn extend(frame: &mut Vec<u8>, byte: u8, count: usize) -> Result<(), AllocError> {
    for _ in 0..count {
        frame.push(byte)?;
    }
    Ok(())
}

// Prints the size of the ingress that the frame of a row encodes, or why it isn't one.
fn print_ingress_size<W: Write>(alloc: Global, frame: Bytes, out: &mut W) -> Result<(), Stop> {
    match Ingress::decode(alloc, frame) {
        Ok(ingress) => print(out, &ingress.encode_size()),
        Err(error) => print_refused(out, error),
    }
}
