//! Which frames may be read of the links of a driver.

ghost use Rattle.std.specs.Prelude.{ℕ, ◌≡◌, ◌+◌, ◌<◌, Some, IfSome, length as count};
ghost use Rattle.std.specs.Duration.{as_nanos};
ghost use Rattle.p2p_driver.specs.Admissions.{AnswersLength, LooksOn};
ghost use Rattle.p2p_driver.specs.Reading.{kind_at_rate, rate_at, said_at};
ghost use Rattle.p2p_driver.specs.declared.heads.Kind.TheVariants as Kind;

use crate::actions::Breach;
use crate::admission::Read;
use crate::driver::{Driver, later};
use crate::heads::{self, Kind};
use crate::hearing;
use crate::link::{Link, Now};
use crate::links::Phase;
use crate::looked::Looked;
use crate::pace::Pace;
use crate::rate::Rate;
use p2p_directory::node::wire::Frames;
use p2p_discovery::codec::PublicKey;
use std::time::Duration;

impl<C: PublicKey> Driver<C> {
    /// A frame of `length` bytes is to come on a link, of which the first bytes are there: its
    /// prefix and its channel, for which 11 bytes are enough. It returns whether the frame may be
    /// read now. It is to be asked for each frame, before the rest of it is read.
    ///
    /// Once the peer has greeted, each frame of gossip takes one of the link's rate, `burst` and
    /// `refill` of the settings, and each message one of its channel's. If there is none, nothing
    /// is taken, and `After` says at which time there is. The peer counts as heard then. Before the
    /// greeting nothing is taken.
    ///
    /// A frame that is longer than what it is may be is a breach, `FrameLength`, or `NoGreeting`
    /// before the greeting: the peer is blocked, and its link is closed. If an allocation for the
    /// block fails, the link is closed all the same. A message on a channel that isn't in the
    /// settings closes the link as `NoChannel`. What a frame is, [`kind_of`](heads::kind_of) says.
    ///
    /// After `Now`, [`Driver::admit`] takes this frame alone. Nothing changes if the answer is
    /// `Judging` or `Unknown`, or if the link was closing.
    ///
    /// # Cost
    ///
    /// One pass over the channels, and some searches among the links.
    pub fn length(&mut self, link: Link, head: &[u8], length: usize, now: Now) -> Read
        ensures { let wire = ⟦<C as Frames>⟧.wire in AnswersLength C.cmp wire
            (261 + 10 + C.SIZE + C.Signature.SIZE) link.0 head.now length (as_nanos now.steady)
            result self.old self.new }
    {
        let Some(peer) = self.links.find(link.0) else {
            return Read::Unknown;
        };
        let Some(held) = self.links.get(&peer) else {
            return Read::Unknown;
        };
        if held.is_dialing() {
            return Read::Unknown;
        }
        if held.phase == Phase::Closing {
            return Read::Closing;
        }
        if held.waiting.is_some() {
            return Read::Judging;
        }
        let (greeted, owed) = (held.is_open(), held.owed);
        let kind = heads::kind_of::<C>(&self.pace, &self.node.limits(), greeted, head, length);
        self.looked(link, &peer, owed, kind, head, length, now)
    }

    // What becomes of a frame of this kind that is to come on the link of a peer, of which nothing
    // waits.
    fn looked(
        &mut self,
        link: Link,
        peer: &C,
        owed: usize,
        kind: Kind,
        head: &[u8],
        length: usize,
        now: Now,
    ) -> Read
        requires looks { LooksOn C.cmp (261 + 10 + C.SIZE + C.Signature.SIZE) link.0 peer.now owed
            head.now length kind self.old }
        requires place { (place : ℕ) → kind ≡ Kind.Message place →
            place < count self.old.pace.channels.items }
        ensures { let wire = ⟦<C as Frames>⟧.wire in AnswersLength C.cmp wire
            (261 + 10 + C.SIZE + C.Signature.SIZE) link.0 head.now length (as_nanos now.steady)
            result self.old self.new }
    {
        let time = later(self.latest, now.steady);
        match kind {
            Kind::Message(place) => {
                self.metered(link, peer, owed, Some(place), head, length, now)
            }
            Kind::Gossip => self.metered(link, peer, owed, None, head, length, now),
            Kind::Greeting => {
                self.latest = time;
                self.links.look(peer, Looked::new(head, length));
                Read::Now
            }
            Kind::NoChannel => {
                self.latest = time;
                hearing::shut_unknown(&mut self.links, &mut self.actions, peer, time);
                Read::Closing
            }
            Kind::NoGreeting => {
                self.latest = time;
                self.next_dial.from = Some(Duration::ZERO);
                let (node, links) = (&mut self.node, &mut self.links);
                let breach = Breach::NoGreeting;
                hearing::break_off(node, links, &mut self.actions, peer, breach, time);
                Read::Closing
            }
            Kind::TooLong => {
                self.latest = time;
                self.next_dial.from = Some(Duration::ZERO);
                let (node, links) = (&mut self.node, &mut self.links);
                let breach = Breach::FrameLength;
                hearing::break_off(node, links, &mut self.actions, peer, breach, time);
                Read::Closing
            }
        }
    }

    // Whether a frame may be read now that is of gossip, or a message of the channel at a position.
    fn metered(
        &mut self,
        link: Link,
        peer: &C,
        owed: usize,
        place: Option<usize>,
        head: &[u8],
        length: usize,
        now: Now,
    ) -> Read
        requires looks { LooksOn C.cmp (261 + 10 + C.SIZE + C.Signature.SIZE) link.0 peer.now owed
            head.now length (kind_at_rate place) self.old }
        requires place { IfSome place (λ place. place < count self.old.pace.channels.items) }
        ensures { let wire = ⟦<C as Frames>⟧.wire in AnswersLength C.cmp wire
            (261 + 10 + C.SIZE + C.Signature.SIZE) link.0 head.now length (as_nanos now.steady)
            result self.old self.new }
    {
        let time = later(self.latest, now.steady);
        let rate = rate_at(&self.pace, place);
        match self.reads.take(link.0, place, rate, time) {
            None => {
                self.latest = time;
                self.links.look(peer, Looked::new(head, length));
                Read::Now
            }
            Some(next) => {
                self.latest = time;
                self.links.hear(peer, time, owed, None);
                Read::After(next)
            }
        }
    }
}

// The rate of the channel at a position of the settings.
pub(crate) fn rate_of(pace: &Pace, place: usize) -> Rate
    requires { place < count pace.now.channels.items }
    ensures read { rate_at pace.now (Some place) ≡ Some result }
    ensures said { rate_at pace.now (Some (said_at pace.now.channels.items place)) ≡ Some result }
{
    let channel = &pace.channels[place];
    Rate {
        burst: channel.burst,
        refill: channel.refill,
    }
}

// The rate of gossip, or of the channel at a position.
fn rate_at(pace: &Pace, place: Option<usize>) -> Rate
    requires { IfSome place (λ place. place < count pace.now.channels.items) }
    ensures { rate_at pace.now place ≡ Some result }
{
    match place {
        None => Rate {
            burst: pace.burst,
            refill: pace.refill,
        },
        Some(place) => rate_of(pace, place),
    }
}
