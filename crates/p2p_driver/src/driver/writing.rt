//! Frames of a driver that its host writes, and messages among them.

ghost use Rattle.std.specs.Prelude.{◌≡◌, ◌<◌, ◌^◌, [], ◌∷◌, IfOk, IfSome, option_map};
ghost use Rattle.std.specs.Duration.{as_nanos};
ghost use Rattle.p2p_discovery.specs.Data.{header};
ghost use Rattle.p2p_driver.specs.Drivers.{AnswersSay, AnswersWritten};

use crate::driver::reading::rate_of;
use crate::driver::{Driver, later};
use crate::link::{Link, Now};
use crate::{channels, hearing};
use bytes::{Bytes, BytesMut};
use p2p_directory::node::wire::Frames;
use p2p_discovery::codec::{EncodeSize, PublicKey, Write};
use p2p_discovery::data::{DATA_PREFIX, EncodedData};
use std::alloc::{AllocError, Global};
use std::collections::VecDeque;

impl<C: PublicKey> Driver<C> {
    /// The application has a message of so many bytes for a peer, on a channel. It returns the link
    /// on which it is sent, and the header of its frame: the host writes that and then the message,
    /// at once, and calls [`Driver::written`] when they are in the hands of the socket. The message
    /// counts as said, and as taken.
    ///
    /// `None`, and nothing changes, unless the peer's link is open, the host has taken all actions
    /// of it, fewer than `queue` frames that were said on it aren't written, the channel is in the
    /// settings, and the message is no longer than one may be on it. Or its rate doesn't allow it:
    /// a message is said if one more might be read by the peer after it. Or an allocation fails.
    ///
    /// # Cost
    ///
    /// Some searches among the links, one pass over the actions that wait, and one over the
    /// channels.
    pub fn say(
        &mut self,
        peer: &C,
        channel: u64,
        size: usize,
        now: Now,
    ) -> Option<(Link, EncodedData)>
        ensures { let wire = ⟦<C as Frames>⟧.wire in AnswersSay C.cmp wire peer.now channel size
            (as_nanos now.steady) (option_map (λ r. (r.0.0, r.1)) result) self.old self.new }
    {
        let held = self.links.get(peer)?;
        let (number, open) = (held.number, held.is_open());
        if !open || self.actions.count_of(Link(number)) != 0 {
            return None;
        }
        let place = channels::place_for(self.pace.channels.as_slice(), channel, size)?;
        let data = encoded(self.node.directory().allocator(), channel, size)?;
        let rate = rate_of(&self.pace, place);
        let said_at = place.checked_add(self.pace.channels.len())?;
        let time = later(self.latest, now.steady);
        if !self.reads.may_take_two(number, said_at, rate, time) {
            return None;
        }
        if !hearing::say(&mut self.links, &self.pace, peer, time) {
            return None;
        }
        let _taken = self.reads.take(number, Some(said_at), rate, time);
        self.latest = time;
        Some((Link(number), data))
    }

    /// A frame was written: it is in the hands of the socket. It is the oldest one that the host
    /// took of the link, an [`Action::Send`](crate::actions::Action::Send), and that wasn't
    /// written. It returns whether there is such a frame; nothing changes if there is none.
    ///
    /// At most `queue` frames of a link that were said aren't written, as the settings say: no
    /// question is asked and no reply sent beyond these. A frame that isn't written within
    /// `silence` closes its link as `Slow`. It doesn't allocate.
    ///
    /// # Cost
    ///
    /// Three searches among the links, and one pass over the actions that wait.
    pub fn written(&mut self, link: Link, now: Now) -> bool
        ensures { let wire = ⟦<C as Frames>⟧.wire in AnswersWritten C.cmp wire link.0
            (as_nanos now.steady) result self.old self.new }
    {
        let Some(peer) = self.links.find(link.0) else {
            return false;
        };
        let Some(held) = self.links.get(&peer) else {
            return false;
        };
        if held.unwritten.len() <= self.actions.sends_on(link) {
            return false;
        }
        self.latest = later(self.latest, now.steady);
        self.links.write(&peer);
        true
    }
}

// The header of a message of so many bytes on a channel. `None` if an allocation fails.
fn encoded(alloc: Global, channel: u64, size: usize) -> Option<EncodedData>
    requires { size < 2 ^ 32 }
    ensures { IfSome result (λ made. (made.channel ≡ channel)
        × (made.payload.items ≡ header channel size ∷ [])) }
{
    let header = header(alloc, channel, size as u32).ok()?;
    let mut payload = VecDeque::with_capacity(alloc, 1).ok()?;
    match payload.push_back(header) {
        Ok(()) => Some(EncodedData { channel, payload }),
        Err(_refused) => None,
    }
}

// The header of the frame of a message of so many bytes.
fn header(alloc: Global, channel: u64, size: u32) -> Result<Bytes, AllocError>
    ensures { IfOk result (λ bytes. bytes ≡ header channel size) }
{
    let count = 1 + channel.encode_size() + size.encode_size();
    let mut buf = BytesMut::with_capacity(alloc, count)?;
    buf.extend_reserved(&[DATA_PREFIX]);
    channel.write(&mut buf);
    size.write(&mut buf);
    Ok(buf.freeze()?)
}
