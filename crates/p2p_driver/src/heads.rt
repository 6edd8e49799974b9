//! What a frame of a link is, by its first bytes and its length, before the rest of it is read.

ghost use Rattle.std.specs.Prelude.{◌≡◌, ◌↔◌, ℕ, ◌+◌, ◌*◌, ◌<◌, ◌≤◌, ◌^◌, List, IfSome, Some};
ghost use Rattle.std.specs.Prelude.{Bool, true, false, find, take, slice_get, length as count};
ghost use Rattle.std.specs.List.{position, position_or_len};
ghost use Rattle.p2p_discovery.specs.declared.data.Data.{Data};
ghost use Rattle.p2p_discovery.specs.declared.discovery.Info.{Info};
ghost use Rattle.p2p_discovery.specs.declared.discovery.Payload.{Payload};
ghost use Rattle.p2p_discovery.specs.declared.discovery.PayloadConfig.{PayloadConfig};
ghost use Rattle.p2p_discovery.specs.Info.{IsInfo};
ghost use Rattle.p2p_discovery.specs.Payload.{IsPayload, IsAdmitted, prefix_of, payload_spelling};
ghost use Rattle.p2p_discovery.specs.Payload.{gossip_size};
ghost use Rattle.p2p_discovery.specs.Reading.{IsBytes};
ghost use Rattle.p2p_discovery.specs.Varint.{groups_at, last_group};
ghost use Rattle.p2p_driver.specs.declared.heads.Kind.TheVariants.{Greeting, Gossip, Message};
ghost use Rattle.p2p_driver.specs.declared.pace.Channel.{Channel};
ghost use Rattle.p2p_driver.specs.Heads.{value_of, channel_of, BeginsOn, is_numbered};
ghost use Rattle.p2p_driver.specs.Heads.{longest_frame, message_kind, gossip_kind, first_kind};
ghost use Rattle.p2p_driver.specs.Heads.{kind_of};

use crate::pace::{Channel, Pace};
use p2p_discovery::codec::{EncodeSize, MaxEncodeSize, PublicKey};
use p2p_discovery::data::DATA_PREFIX;
use p2p_discovery::discovery::{Info, PayloadConfig};

/// What a frame of a link is, by its first bytes and its length.
#[derive(Clone, Copy, Debug, PartialEq, Eq)]
pub enum Kind {
    /// It is the first of its peer, and longer than a greeting may be.
    NoGreeting,
    /// It is longer than what it is may be.
    TooLong,
    /// It is a message on a channel that isn't in the settings.
    NoChannel,
    /// It is the first of its peer, and no longer than a greeting may be.
    Greeting,
    /// It is gossip, or spells no prefix or no channel.
    Gossip,
    /// It is a message on the channel at this position of the settings.
    Message(usize),
}

/// What a frame of so many bytes is, by its first bytes, of which 11 are enough: a prefix and a
/// channel. `greeted` says whether its peer has greeted. It doesn't allocate.
///
/// - Before the greeting it is `NoGreeting` if it is longer than a greeting may be, else
///   `Greeting`.
/// - Then, if its head spells a channel, it is `NoChannel` if no channel of the settings has that
///   number, `TooLong` above the length of the longest message's frame on it, else `Message`.
/// - Whatever else it is, it is `TooLong` above the length of the longest frame of gossip under
///   these limits, else `Gossip`.
///
/// # Cost
///
/// One look at the head, and one pass over the channels.
pub fn kind_of<C: PublicKey>(
    pace: &Pace,
    limits: &PayloadConfig,
    greeted: bool,
    head: &[u8],
    length: usize,
) -> Kind
    ensures value { result ≡ kind_of (261 + 10 + C.SIZE + C.Signature.SIZE)
        pace.now.channels.items limits.now greeted head.now length }
    ensures place { (place : ℕ) → result ≡ Message place → place < count pace.now.channels.items }
{
    if !greeted {
        return first::<C>(length);
    }
    match channel(head) {
        Some(number) => message(&pace.channels, number, length),
        None => gossip::<C>(limits, length),
    }
}

// What the first frame of a peer is.
fn first<C: PublicKey>(length: usize) -> Kind
    ensures { result ≡ first_kind (261 + 10 + C.SIZE + C.Signature.SIZE) length }
{
    let longest = 1 + Info::<C>::max_encode_size();
    if longest < length {
        Kind::NoGreeting
    } else {
        Kind::Greeting
    }
}

// What a frame of gossip is.
fn gossip<C: PublicKey>(limits: &PayloadConfig, length: usize) -> Kind
    ensures { result ≡ gossip_kind (261 + 10 + C.SIZE + C.Signature.SIZE) limits.now length }
{
    if longest_gossip::<C>(limits) < length as u128 {
        Kind::TooLong
    } else {
        Kind::Gossip
    }
}

// The length of the longest frame of gossip, which may be above `usize`.
fn longest_gossip<C: PublicKey>(limits: &PayloadConfig) -> u128
    ensures { result ≡ gossip_size (261 + 10 + C.SIZE + C.Signature.SIZE)
        limits.now.max_bit_vec limits.now.max_peers }
{
    let info = Info::<C>::max_encode_size() as u128;
    let count = limits.max_bit_vec;
    let bits = u64::MAX_ENCODE_SIZE + (count.encode_size() + count.div_ceil(8) as usize);
    let peers = limits.max_peers as u128 * info + u32::MAX_ENCODE_SIZE as u128;
    1 + info.max((bits as u128).max(peers))
}

// What a message's frame is, by the number of its channel.
fn message(channels: &[Channel], number: u64, length: usize) -> Kind
    ensures value { result ≡ message_kind channels.now number length }
    ensures place { (place : ℕ) → result ≡ Message place → place < count channels.now }
{
    let Some(place) = place(channels, number) else {
        return Kind::NoChannel;
    };
    if longest_frame(&channels[place]) < length {
        Kind::TooLong
    } else {
        Kind::Message(place)
    }
}

// The position of the channel of a number.
fn place(channels: &[Channel], number: u64) -> Option<usize>
    ensures { result ≡ position (is_numbered number) channels.now }
{
    channels.iter().position(|channel| channel.number == number)
}

// The length of the longest message's frame on a channel.
fn longest_frame(channel: &Channel) -> usize
    ensures { result ≡ longest_frame channel.now }
{
    let header = 1 + channel.number.encode_size() + channel.longest.encode_size();
    header + channel.longest as usize
}

// The channel that a head spells.
fn channel(head: &[u8]) -> Option<u64>
    ensures { result ≡ channel_of head.now }
{
    let Some((prefix, rest)) = head.split_first() else {
        return None;
    };
    if *prefix != DATA_PREFIX {
        return None;
    }
    number(rest, 9, false)
}

// The number that a varint spells, of whose bytes at most so many are behind the first one.
// `more` says whether that one follows an earlier one.
fn number(bytes: &[u8], left: u32, more: bool) -> Option<u64>
    requires { 2 * 128 ^ left ≤ 2 ^ 64 }
    ensures value { result ≡ value_of (groups_at 10 1 more left bytes.now).outcome }
    ensures bound { IfSome result (λ n. n < 2 * 128 ^ left) }
{
    let Some((byte, rest)) = bytes.split_first() else {
        return None;
    };
    if left == 0 {
        return last(*byte, 1, more);
    }
    if *byte < 128 {
        return last(*byte, 127, more);
    }
    let Some(high) = number(rest, left - 1, true) else {
        return None;
    };
    Some(*byte as u64 - 128 + 128 * high)
}

// The last byte of a varint, as a number: it is at most `top`, and not 0 if it follows another one.
fn last(byte: u8, top: u8, more: bool) -> Option<u64>
    ensures value { (rest : List ℕ) →
        result ≡ value_of (last_group 10 top more byte rest).outcome }
    ensures bound { IfSome result (λ n. n ≤ top) }
{
    if byte > top || (more && byte == 0) {
        return None;
    }
    Some(byte as u64)
}

/// By a law of frames, what a peer sends within the limits is read: a greeting as the first frame,
/// then gossip that the limits admit, and a message no longer than the longest of its channel.
pub fn right_frames_are_read<C: PublicKey>()
    ensures greeting { (channels : List Channel) (limits : PayloadConfig)
        (info : Info C C.Signature) → IsInfo info →
        let frame = payload_spelling C.spelled C.Signature.spelled (Payload.Greeting info) in
        kind_of (261 + 10 + C.SIZE + C.Signature.SIZE) channels limits false frame (count frame)
        ≡ Greeting }
    ensures gossip { (channels : List Channel) (limits : PayloadConfig)
        (p : Payload C C.Signature) → IsPayload p →
        IsAdmitted C.IsValue C.Signature.IsValue limits p → 0 < prefix_of p →
        let frame = payload_spelling C.spelled C.Signature.spelled p in
        kind_of (261 + 10 + C.SIZE + C.Signature.SIZE) channels limits true frame (count frame)
        ≡ Gossip }
    ensures message { (channels : List Channel) (limits : PayloadConfig) (sent : Data)
        (c : Channel) → sent.channel < 2 ^ 64 →
        find (is_numbered sent.channel) channels ≡ Some c → count sent.message ≤ c.longest →
        let frame = payload_spelling C.spelled C.Signature.spelled (Payload.Data sent) in
        kind_of (261 + 10 + C.SIZE + C.Signature.SIZE) channels limits true frame (count frame)
        ≡ Message (position_or_len (is_numbered sent.channel) channels) }
{}

/// By a law of frames, the first 11 bytes of a frame say what it is, and with them its length.
pub fn eleven_bytes_are_enough()
    ensures { (info : ℕ) (channels : List Channel) (limits : PayloadConfig) (greeted : Bool)
        (frame : List ℕ) (size : ℕ) → kind_of info channels limits greeted (take 11 frame) size
        ≡ kind_of info channels limits greeted frame size }
{}

/// By a law of frames, a head spells a channel exactly if it begins with the prefix of a message
/// and the channel's one encoding. What is taken for a message begins with those of the channel at
/// that position, and is no longer than the longest frame on it.
pub fn messages_name_channels()
    ensures spelled { (head : List ℕ) (number : ℕ) → IsBytes head →
        channel_of head ≡ Some number ↔ ((number < 2 ^ 64) × BeginsOn number head) }
    ensures found { (info : ℕ) (channels : List Channel) (limits : PayloadConfig)
        (head : List ℕ) (size place : ℕ) → IsBytes head →
        kind_of info channels limits true head size ≡ Message place →
        (c : Channel) × (slice_get channels place ≡ Some c) × BeginsOn c.number head
        × (size ≤ longest_frame c) }
{}
