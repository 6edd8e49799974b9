//! Frames that come to a driver.

ghost use Rattle.std.specs.Duration.{as_nanos};
ghost use Rattle.p2p_driver.specs.Admissions.{AnswersFrame, AnswersVerdicts, CameOn};
ghost use Rattle.p2p_driver.specs.declared.frames.Came.TheVariants as Came;

use crate::actions::{Action, Breach, Why};
use crate::admission::{Admission, Heard, Misjudged};
use crate::driver::{Driver, later};
use crate::frames::{self, Came};
use crate::hearing;
use crate::link::{Link, Now};
use crate::links::Phase;
use crate::serving::{self, Judged, Served};
use bytes::Bytes;
use p2p_directory::node::wire::Frames;
use p2p_discovery::codec::PublicKey;
use std::time::Duration;

impl<C: PublicKey> Driver<C> {
    /// A frame came on a link: that for which [`Driver::length`] said `Now` last on this link, of
    /// that length and those first bytes. It returns what becomes of it. Each other frame is
    /// `Unasked`, and nothing changes.
    ///
    /// The first frame of a peer has to be a greeting with the info of its own key. It waits for a
    /// verdict on its signature, which [`Driver::judged`] brings. After that a message is to be
    /// delivered, a question is answered, and a list of infos waits for verdicts, if a question is
    /// owed. A list that nobody asked for is ignored, but the empty one is heard. A question that
    /// finds `queue` frames that were said on the link and aren't written is `Dropped`: nothing
    /// changes, and it may be handed in again.
    ///
    /// A peer that breaks a rule is blocked, and its link is closed as a breach: `NoGreeting`,
    /// `OtherGreeting`, `SecondGreeting`, `Codec`, `Malformed` or `Invalid`. If an allocation for
    /// the block fails, the link is closed all the same. An info of the future closes the link as
    /// `Future`.
    ///
    /// Infos are shared and judged by `now.wall`, a time since the epoch, and by nothing else.
    ///
    /// # Cost
    ///
    /// Some passes over the frame, some searches among the links, and that of
    /// [`Node::receive`](p2p_directory::node::Node::receive) for a question.
    pub fn admit(&mut self, link: Link, frame: &Bytes, now: Now) -> Admission
        ensures { let wire = ⟦<C as Frames>⟧.wire in AnswersFrame C.cmp wire link.0 frame.now
            now.wall (as_nanos now.steady) result self.old self.new }
    {
        let Some(peer) = self.links.find(link.0) else {
            return Admission::Unknown;
        };
        let Some(held) = self.links.get(&peer) else {
            return Admission::Unknown;
        };
        if held.is_dialing() {
            return Admission::Unknown;
        }
        if held.waiting.is_some() {
            return Admission::Unasked;
        }
        if held.is_unexpected(frame.as_slice()) {
            return Admission::Unasked;
        }
        let owed = held.owed;
        match held.phase {
            Phase::Closing => Admission::Closing,
            Phase::Greeting => {
                let came = frames::first(&self.node, &peer, frame, now.wall);
                self.came(link, &peer, owed, frame, came, now)
            }
            Phase::Open => {
                let came = frames::next(&self.node, owed, frame, now.wall);
                self.came(link, &peer, owed, frame, came, now)
            }
        }
    }

    // What is seen of a frame is done: it came on the link of a peer, of which nothing waits.
    fn came(
        &mut self,
        link: Link,
        peer: &C,
        owed: usize,
        frame: &Bytes,
        came: Came,
        now: Now,
    ) -> Admission
        requires { let wire = ⟦<C as Frames>⟧.wire in CameOn C.cmp wire link.0 peer.now owed
            frame.now now.wall came self.old }
        ensures { let wire = ⟦<C as Frames>⟧.wire in AnswersFrame C.cmp wire link.0 frame.now
            now.wall (as_nanos now.steady) result self.old self.new }
    {
        let time = later(self.latest, now.steady);
        match came {
            Came::Memory => Admission::Heard(Heard::Dropped),
            Came::Served => self.served(link, peer, owed, frame, now),
            Came::Waits(waiting) => {
                let count = waiting.count;
                self.latest = time;
                self.links
                    .hear(peer, time, owed.saturating_sub(1), Some(waiting));
                Admission::Verify(count)
            }
            Came::Ignored => {
                self.latest = time;
                self.links.hear(peer, time, owed, None);
                Admission::Ignored
            }
            Came::Message(channel, start) => {
                self.latest = time;
                self.links.hear(peer, time, owed, None);
                let message = start..frame.len();
                Admission::Heard(Heard::Message { channel, message })
            }
            Came::Early => {
                self.latest = time;
                hearing::shut_early(&mut self.links, &mut self.actions, peer, time);
                Admission::Heard(Heard::Closing(Why::Future))
            }
            Came::Breach(breach) => {
                self.latest = time;
                self.next_dial.from = Some(Duration::ZERO);
                let (node, links) = (&mut self.node, &mut self.links);
                hearing::break_off(node, links, &mut self.actions, peer, breach, time);
                Admission::Heard(Heard::Closing(Why::Breach(breach)))
            }
        }
    }

    // Has the node answer a question, or apply the empty list, of a peer that has greeted, and of
    // which nothing waits.
    fn served(&mut self, link: Link, peer: &C, owed: usize, frame: &Bytes, now: Now) -> Admission
        requires { let wire = ⟦<C as Frames>⟧.wire in CameOn C.cmp wire link.0 peer.now owed
            frame.now now.wall Came.Served self.old }
        ensures { let wire = ⟦<C as Frames>⟧.wire in AnswersFrame C.cmp wire link.0 frame.now
            now.wall (as_nanos now.steady) result self.old self.new }
    {
        if self.actions.reserve(1).is_err() {
            return Admission::Heard(Heard::Dropped);
        }
        let time = later(self.latest, now.steady);
        match serving::serve(&mut self.node, frame, now.wall) {
            Served::Memory => {
                self.actions.give_back(1);
                Admission::Heard(Heard::Dropped)
            }
            Served::Reply(frame) => {
                if !hearing::say(&mut self.links, &self.pace, peer, time) {
                    self.actions.give_back(1);
                    return Admission::Heard(Heard::Dropped);
                }
                self.latest = time;
                self.links.hear(peer, time, owed, None);
                self.actions.push(Action::Send { link, frame });
                Admission::Heard(Heard::Answered)
            }
            Served::Applied => {
                self.latest = time;
                self.next_dial.from = Some(Duration::ZERO);
                self.actions.give_back(1);
                self.links.hear(peer, time, owed, None);
                Admission::Heard(Heard::Applied(0))
            }
            Served::Malformed => {
                self.latest = time;
                self.next_dial.from = Some(Duration::ZERO);
                self.actions.give_back(1);
                let (node, links) = (&mut self.node, &mut self.links);
                let breach = Breach::Malformed;
                hearing::break_off(node, links, &mut self.actions, peer, breach, time);
                Admission::Heard(Heard::Closing(Why::Breach(breach)))
            }
        }
    }

    /// It is told which signatures are valid in the frame that waits on a link: those of its first
    /// infos, as many as [`Admission::Verify`] said. It returns what comes of the frame.
    ///
    /// The info of a greeting is applied, and the peer is connected, told to be up, and asked for
    /// the infos that are wanted of its first retained set. The infos of a list are applied. If one
    /// is refused, the peer is blocked and its link is closed as a breach, `Invalid`; an info of
    /// the future closes the link as `Future` alone. Infos are judged by the wall time at which
    /// their frame came.
    ///
    /// The first question is left out if `queue` frames that were said on the link aren't written.
    /// If an allocation fails, nothing has changed, but that the first question may be left out,
    /// or a block.
    ///
    /// # Errors
    ///
    /// `Misjudged` if there is no such link, no frame of it waits, or there are more or fewer
    /// verdicts. Nothing has changed.
    ///
    /// # Cost
    ///
    /// That of [`Node::answer_with_verdicts`](p2p_directory::node::Node::answer_with_verdicts) and
    /// of [`Node::ask`](p2p_directory::node::Node::ask), and some searches among the links.
    pub fn judged(&mut self, link: Link, verdicts: &[bool], now: Now) -> Result<Heard, Misjudged>
        ensures { let wire = ⟦<C as Frames>⟧.wire in AnswersVerdicts C.cmp wire link.0 verdicts.now
            (as_nanos now.steady) result self.old self.new }
    {
        let Some(peer) = self.links.find(link.0) else {
            return Err(Misjudged);
        };
        let Some(held) = self.links.get(&peer) else {
            return Err(Misjudged);
        };
        let Some(waiting) = &held.waiting else {
            return Err(Misjudged);
        };
        if verdicts.len() != waiting.count {
            return Err(Misjudged);
        }
        if self.actions.reserve(3).is_err() {
            return Ok(Heard::Dropped);
        }
        let (phase, owed, asked) = (held.phase, held.owed, held.asked);
        let dialer = held.is_dialer();
        let judged = serving::judge(&mut self.node, phase, &peer, waiting, verdicts);
        let time = later(self.latest, now.steady);
        match judged {
            Judged::Memory => {
                self.actions.give_back(3);
                Ok(Heard::Dropped)
            }
            Judged::Greeted => {
                self.latest = time;
                hearing::greet(
                    &mut self.node,
                    &mut self.links,
                    &mut self.actions,
                    &self.pace,
                    asked,
                    owed,
                    &peer,
                    link.0,
                    dialer,
                    time,
                );
                self.next_dial.grants.remove(&peer);
                self.next_dial.from = Some(Duration::ZERO);
                Ok(Heard::Greeted)
            }
            Judged::Applied(count) => {
                self.latest = time;
                self.actions.give_back(3);
                self.links.hear(&peer, time, owed, None);
                self.next_dial.from = Some(Duration::ZERO);
                Ok(Heard::Applied(count))
            }
            Judged::Refused(error) if frames::is_early(error) => {
                self.latest = time;
                self.actions.give_back(3);
                hearing::shut_early(&mut self.links, &mut self.actions, &peer, time);
                Ok(Heard::Closing(Why::Future))
            }
            Judged::Refused(error) => {
                self.latest = time;
                self.next_dial.from = Some(Duration::ZERO);
                self.actions.give_back(3);
                let breach = Breach::Invalid(error);
                let (node, links) = (&mut self.node, &mut self.links);
                hearing::break_off(node, links, &mut self.actions, &peer, breach, time);
                Ok(Heard::Closing(Why::Breach(breach)))
            }
        }
    }
}
