//! Messages on channels, and the frames that carry them.
//!
//! docs/FORMATS.md says how they are encoded.

ghost use Rattle.std.specs.Prelude.{◌≡◌, ℕ, ◌+◌, ◌-◌, ◌<◌, ◌≤◌, ◌^◌, ◌∷◌, length, IfOk, IfErr};
ghost use Rattle.std.specs.List.{concat};
ghost use Rattle.p2p_discovery.specs.Data.{data_spelling, IsDataAllowed, data_at, header};
ghost use Rattle.p2p_discovery.specs.Data.{data_payload};
ghost use Rattle.p2p_discovery.specs.Laws.Data.{lawful_data};

use crate::codec::{
    CodecError, EncodeSize, RangeCfg, Read, Reader, Write, counted_size, read_length, write_counted,
};
use bytes::{Bytes, BytesMut};
use std::alloc::{AllocError, Global};
use std::collections::VecDeque;

/// A message on a channel.
///
/// It is decoded under a limit for the length of the message. A decoded message shares the memory
/// of the buffer that it is read from, which a test shows and no contract claims.
#[derive(Debug, PartialEq, Drop)]
pub struct Data {
    /// The channel that the message is sent on.
    pub channel: u64,
    /// The message.
    pub message: Bytes,
}

impl EncodeSize for Data {
    ghost use Rattle.std.specs.Prelude.{◌<◌, ◌^◌, length};

    ghost IsValue = { λ d. d.channel < 2 ^ 64 };

    ghost CanSpell = { λ d. length d.message < 2 ^ 32 };

    ghost spelling = { data_spelling };

    fn encode_size(&self) -> usize
        requires { length self.now.message < 2 ^ 32 }
        ensures size { result ≡ length (data_spelling self.now) }
        ensures value { self.now.channel < 2 ^ 64 }
        ensures bound { result ≤ length self.now.message + 15 }
    {
        self.channel.encode_size() + counted_size(self.message.as_slice())
    }
}

impl Write for Data {
    fn write(&self, buf: &mut BytesMut) {
        self.channel.write(buf);
        write_counted(self.message.as_slice(), buf);
    }
}

impl Read for Data {
    type Cfg = RangeCfg;

    ghost Admits = { IsDataAllowed };

    ghost reading = { data_at };

    #[tactic(auto, unfolding(crate::specs::Data::data_at, crate::specs::Data::message_at))]
    fn read(alloc: Global, reader: &mut Reader<'_>, limit: &RangeCfg) -> Result<Data, CodecError> {
        let channel = u64::read(alloc, reader, &())?;
        let length = read_length(alloc, reader, limit)?;
        let message = reader.cut(length)?;
        Ok(Data { channel, message })
    }

    ghost lawful = { lawful_data };
}

/// The prefix byte of a payload that is data.
pub const DATA_PREFIX: u8 = 0;

const _: () = prove!(DATA_PREFIX == 0);

/// By how many bytes a data frame exceeds its message at most: 1 of the prefix, 10 of the channel
/// and 5 of the length.
pub const MAX_PAYLOAD_OVERHEAD: u32 = 1 + 10 + 5;

const _: () = prove!(MAX_PAYLOAD_OVERHEAD == 16);

/// What carries frames, each of a limited size.
pub trait Upgrader {
    ghost MAX_SIZE: { ℕ };

    /// The maximum number of bytes of a frame.
    const MAX_SIZE: u32;
}

/// The longest message of data that always fits a frame of this carrier.
///
/// # Conditions
///
/// A frame may have at least [`MAX_PAYLOAD_OVERHEAD`] bytes.
pub const fn max_size<U: Upgrader>() -> u32
    requires { 16 ≤ U.MAX_SIZE }
    ensures { result ≡ U.MAX_SIZE - 16 }
{
    U::MAX_SIZE - MAX_PAYLOAD_OVERHEAD
}

/// A message with the header of its frame, ready to be sent.
#[derive(Debug, Drop)]
pub struct EncodedData {
    /// The channel that the message is sent on.
    pub channel: u64,
    /// The frame: its header, then the buffers of the message.
    pub payload: VecDeque<Bytes>,
}

impl EncodedData {
    /// Encodes a message as data, by one header buffer before the buffers of the message, which are
    /// unchanged. Joined, the frame is the payload of data. The bytes in the buffers are neither
    /// read nor copied.
    ///
    /// # Conditions
    ///
    /// The length of the whole message fits `u32`.
    ///
    /// # Errors
    ///
    /// The buffers that were passed in, if allocation fails.
    ///
    /// # Cost
    ///
    /// One look at the length of each buffer, one small buffer for the header, and capacity for one
    /// more element of the list.
    #[tactic(auto, using(crate::specs::Laws::Data::frame_is, crate::specs::Laws::Data::frame_short))]
    pub fn new(
        alloc: Global,
        channel: u64,
        mut message: VecDeque<Bytes>,
    ) -> Result<EncodedData, VecDeque<Bytes>>
        requires { length (concat message.items) < 2 ^ 32 }
        ensures channel { IfOk result (λ e. e.channel ≡ channel) }
        ensures buffers { IfOk result (λ e. e.payload.items
            ≡ header channel (length (concat message.items)) ∷ message.items) }
        ensures frame { IfOk result (λ e. concat e.payload.items
            ≡ data_payload (record { channel = channel; message = concat message.items })) }
        ensures short { IfOk result (λ e.
            length (concat e.payload.items) ≤ length (concat message.items) + 16) }
        ensures refused { IfErr result (λ back. back.items ≡ message.items) }
    {
        let total = total_len(&message);
        let Ok(header) = encoded_header(alloc, channel, total) else {
            return Err(message);
        };
        if message.push_front(header).is_err() {
            return Err(message);
        }
        Ok(EncodedData {
            channel,
            payload: message,
        })
    }
}

// The number of bytes in all of the buffers of a data message.
#[tactic(auto, using(crate::specs::Laws::Data::joined_len))]
fn total_len(buffers: &VecDeque<Bytes>) -> u32
    requires { length (concat buffers.now.items) < 2 ^ 32 }
    ensures { result ≡ length (concat buffers.now.items) }
{
    let total: usize = buffers.iter().map(|buffer| buffer.len()).sum();
    total as u32
}

// The header of a data frame whose message has so many bytes.
fn encoded_header(alloc: Global, channel: u64, total: u32) -> Result<Bytes, AllocError>
    ensures { IfOk result (λ b. b ≡ header channel total) }
{
    let size = 1 + channel.encode_size() + total.encode_size();
    let mut buf = BytesMut::with_capacity(alloc, size)?;
    buf.extend_reserved(&[DATA_PREFIX]);
    channel.write(&mut buf);
    total.write(&mut buf);
    Ok(buf.freeze()?)
}
