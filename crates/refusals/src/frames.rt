//! Frames that are made from a message's buffers.

ghost use Rattle.std.specs.Prelude.{◌<◌, ◌^◌, length, IfOk};
ghost use Rattle.std.specs.List.{concat};

use crate::told::mark;
use bytes::Bytes;
use p2p_discovery::data::EncodedData;
use std::alloc::{AllocError, Global};
use std::collections::VecDeque;
use std::fmt::Write;

// These buffers of a frame to which memory may be refused, repeated so many times; together they
// are not too long for it.
fn repeated(
    alloc: Global,
    parts: &[&'static [u8]],
    times: usize,
) -> Result<VecDeque<Bytes>, AllocError>
    ensures { IfOk result (λ v. length (concat v.items) < 2 ^ 32) }
{
    let mut buffers = VecDeque::new(alloc);
    let mut total = 0usize;
    for _ in 0..times {
        for part in parts {
            if part.len() > 2_000_000 || total > 1_000_000_000 {
                return Err(AllocError);
            }
            total += part.len();
            buffers.push_back(Bytes::from_static(*part))?;
        }
    }
    Ok(buffers)
}

// Four buffers of a frame to which memory may be refused, in a list that has no capacity for
// another.
fn buffers(alloc: Global) -> Result<VecDeque<Bytes>, AllocError>
    ensures { IfOk result (λ v. length (concat v.items) < 2 ^ 32) }
{
    repeated(alloc, &[b"hello ", b"!"], 2)
}

/// Makes a frame by `EncodedData::new` while memory may be refused: on failure it returns buffers
/// that equal those passed in.
pub fn encoded(alloc: Global, text: &mut String) -> Result<bool, AllocError> {
    let message = buffers(alloc)?;
    let same = buffers(alloc)?;
    mark(alloc);
    let made = EncodedData::new(alloc, 12_345, message);
    mark(alloc);
    match made {
        Ok(encoded) => {
            write!(text, "a frame of {} buffers\n", encoded.payload.len())?;
            Ok(encoded.payload.len() == 5)
        }
        Err(back) => {
            let is_same = back == same;
            write!(text, "out of memory\nthe same buffers: {is_same}\n")?;
            Ok(is_same)
        }
    }
}
