//! A driver of a node: events come in, actions go out.

ghost use Rattle.std.specs.Prelude.{◌≡◌, ◌≤◌, ◌<◌, ◌-◌, ◌^◌, [], None, Ok};
ghost use Rattle.std.specs.Prelude.{IfOk, IfSome, IfNone, OnOk, OnErr, max, length, find};
ghost use Rattle.std.specs.Prelude.{true, is_some, Bool};
ghost use Rattle.std.specs.Int.{w128, from_be_bytes};
ghost use Rattle.std.specs.Duration.{as_nanos};
ghost use Rattle.std.specs.Int.NonZero.{non_zero_usize_get};
ghost use Rattle.p2p_directory.specs.Nodes.{NodeView, AtEach};
ghost use Rattle.p2p_driver.specs.Drivers.{DriverStandsAt, base_of, Comes, HasNoRoom};
ghost use Rattle.p2p_driver.specs.Drivers.{AnswersClaim, AnswersProof, AnswersEnd, AnswersNext};
ghost use Rattle.p2p_driver.specs.Drivers.{jitter_of, DialProvedBy, Does, EndsAt, is_claim_by};
ghost use Rattle.p2p_tracker.specs.Answers.{may_listen_at, is_eligible_at};
ghost use Rattle.p2p_directory.specs.Run.{world_after};
ghost use Rattle.p2p_driver.specs.Arrivals.{has_number};
ghost use Rattle.p2p_driver.specs.Grants.{kept_grant};
ghost use Rattle.p2p_driver.specs.Happenings.Happening.{Proved, Adopted};
ghost use Rattle.p2p_driver.specs.Links.{link_of};
ghost use Rattle.p2p_driver.specs.Steps.{adopts_by, comes_by};
ghost use Rattle.std.specs.Option.{IsSomeAnd};
ghost use Rattle.p2p_directory.specs.Held.{ReleasesAll};
ghost use Rattle.p2p_driver.specs.Origins.{origin_of};

use crate::actions::{Action, Actions, Why};
use crate::answers::Answers;
use crate::arrivals::{Arrivals, Room};
use crate::grants::Grants;
use crate::link::{Link, Now};
use crate::links::Links;
use crate::next_dial::NextDial;
use crate::origin::Origin;
use crate::pace::Pace;
use crate::reads::Reads;
use crate::{connections, streams};
use bytes::Bytes;
use p2p_directory::node::wire::Frames;
use p2p_directory::node::{Node, Setup};
use p2p_discovery::codec::{PublicKey, Write};
use p2p_discovery::discovery::Payload;
use p2p_tracker::directory::Directory;
use std::alloc::{AllocError, Global};
use std::marker::Model;
use std::time::Duration;

mod application;
mod dialing;
mod frames;
mod keeping;
mod queries;
mod reading;
mod sets;
mod timers;
mod writing;

pub use crate::driver::queries::Counts;
pub use crate::driver::sets::Tracked;

/// A driver of a node: what a program with sockets, the host, decides about streams, their proofs
/// and their ends. Each event is a call, and the host takes what is to be done by
/// [`Driver::next_action`]. It must be consumed by [`Driver::finish`].
///
/// A contract speaks of histories: lists of what the driver did. Wherever a history led to it
/// before a call, it stands after one more happening afterwards, and the result is that of the
/// happening; or nothing changed.
pub struct Driver<C: PublicKey> {
    node: Node<C>,
    pace: Pace,
    greeting: Bytes,
    // Between two reservations of one peer.
    cooldown: Duration,
    next_dial: NextDial<C>,
    latest: Duration,
    next: u64,
    arrivals: Arrivals<C>,
    answers: Answers,
    reads: Reads,
    links: Links<C>,
    actions: Actions<C>,
}

impl<C: PublicKey> Model for Driver<C> {
    ghost use Rattle.std.specs.Duration.{as_nanos};
    ghost use Rattle.p2p_driver.specs.Drivers.{DriverView, DriverStands, HasRoom, seen, wire_with};

    ghost Value = { DriverView C C.Signature };

    ghost view = { λ d. seen d.node d.pace d.greeting (as_nanos d.cooldown) d.next_dial
        (as_nanos d.latest) d.next d.arrivals d.answers d.reads d.links d.actions.items };

    ghost invariant = { λ d. DriverStands C.cmp (wire_with C.verifies C.spelled C.Signature.spelled
        C.SIZE C.value C.Signature.SIZE C.Signature.value) (seen d.node d.pace d.greeting
        (as_nanos d.cooldown) d.next_dial (as_nanos d.latest) d.next d.arrivals d.answers d.reads
        d.links d.actions.items)
        × HasRoom d.arrivals d.answers d.links d.actions };
}

impl<C: PublicKey> Driver<C> {
    /// A driver of a new node of this setup, with these settings. There are no streams.
    ///
    /// # Conditions
    ///
    /// Those of [`Node::new`].
    ///
    /// # Errors
    ///
    /// `AllocError` if an allocation fails.
    ///
    /// # Cost
    ///
    /// That of [`Node::new`], and the encoding of the local info.
    pub fn new(alloc: Global, setup: Setup<C>, pace: Pace) -> Result<Self, AllocError>
        requires sets { non_zero_usize_get setup.cfg.max_sets < 2 ^ 64 - 1 }
        requires bits { setup.payload.max_bit_vec < 2 ^ 32 }
        ensures stands { let wire = ⟦<C as Frames>⟧.wire in IfOk result (λ driver.
            DriverStandsAt (base_of C.cmp wire setup pace) [] driver) }
    {
        let greeting = Payload::<C>::Greeting(setup.myself.clone()?).encode(alloc)?;
        let cooldown = setup.cfg.peer_connection_cooldown;
        let node = Node::new(alloc, setup)?;
        Ok(Driver {
            node,
            pace,
            greeting,
            cooldown,
            next_dial: NextDial {
                from: Some(Duration::ZERO),
                retry: 0,
                grants: Grants::new(alloc),
            },
            latest: Duration::ZERO,
            next: 1,
            arrivals: Arrivals::new(alloc),
            answers: Answers::new(alloc),
            reads: Reads::new(alloc),
            links: Links::new(alloc),
            actions: Actions::new(alloc),
        })
    }

    /// A stream came in from this address: an IPv6 one, its first byte first. It returns the number
    /// of the stream if there is room for it. Another one may give way to it, which is closed as
    /// `Crowded`.
    ///
    /// `None` if there is no room, as [`Arrivals::arrive`] says, or four times `arrivals` actions
    /// wait, or no number is left. Nothing has changed then.
    ///
    /// # Errors
    ///
    /// `AllocError` if an allocation fails. Nothing has changed then.
    ///
    /// # Cost
    ///
    /// That of [`Arrivals::arrive`].
    pub fn arrived(&mut self, address: [u8; 16], now: Now) -> Result<Option<Link>, AllocError>
        ensures came { let wire = ⟦<C as Frames>⟧.wire in IfOk result (λ link. IfSome link (λ link.
            Comes C.cmp wire link.0 (origin_of (from_be_bytes w128 address))
            (as_nanos now.steady) self.old self.new)) }
        ensures none { result ≡ Ok None → (self.new ≡ self.old)
            × HasNoRoom (origin_of (from_be_bytes w128 address)) (as_nanos now.steady) self.old }
        ensures err { OnErr result (self.new ≡ self.old) }
    {
        let number = self.next;
        let Some(next) = number.checked_add(1) else {
            return Ok(None);
        };
        if 4 * self.pace.arrivals as u128 <= self.actions.len() as u128 {
            return Ok(None);
        }
        let now = later(self.latest, now.steady);
        let room = streams::take(
            &mut self.arrivals,
            &mut self.answers,
            &mut self.actions,
            &self.pace,
            number,
            Origin::of(address),
            now,
        )?;
        match room {
            Room::None => Ok(None),
            _ => {
                self.next = next;
                self.latest = now;
                Ok(Some(Link(number)))
            }
        }
    }

    /// The stream said that it is the peer's, before anything is signed. It returns whether it goes
    /// on: whether [`Driver::proved`] of it now would be granted if memory suffices, and the rates
    /// of claims allow an answer. Else the stream is closed, as `NotGranted` or `Crowded`, and its
    /// number is unknown from now on. No rate is touched by a claim that isn't granted.
    ///
    /// False, and nothing changes, if there is no such stream, or it has claimed. It doesn't
    /// allocate.
    ///
    /// # Cost
    ///
    /// That of [`Node::may_listen`], and some passes over the streams.
    pub fn claimed(&mut self, link: Link, peer: C, now: Now) -> bool
        ensures { let wire = ⟦<C as Frames>⟧.wire in AnswersClaim C.cmp wire link.0 peer
            (as_nanos now.steady) result self.old self.new }
    {
        let Some(stream) = self.arrivals.get(link.0) else {
            return false;
        };
        if stream.claim.is_some() {
            return false;
        }
        let now = later(self.latest, now.steady);
        let grants = &self.next_dial.grants;
        let may = connections::may_come(&self.node, &self.links, grants, &self.pace, &peer, now);
        let closed = streams::claim(
            &mut self.arrivals,
            &mut self.answers,
            &mut self.actions,
            &self.pace,
            stream,
            peer,
            may,
            now,
        );
        self.latest = now;
        closed.is_none()
    }

    /// The stream is authenticated as the peer's. It returns whether it is a link from now on: the
    /// own greeting is sent on it then. That is so if the stream has claimed to be the peer's, and
    /// one of these holds, which are looked at in this order. Else the stream is closed, as
    /// `WrongKey` if it hasn't claimed to be that peer's, or as `NotGranted`, and its number is
    /// unknown from now on.
    ///
    /// - The grant of a dial is kept of the peer, there is a place, outbound or inbound, and the
    ///   peer is eligible. The link takes the grant over: the peer stays reserved, and the word has
    ///   no effect. The link has an outbound place if one is free, else an inbound one.
    /// - There is a place, inbound, the peer has no link, and the directory grants a
    ///   [`Directory::listen`]. The peer is then reserved, with a jitter by the random word.
    ///
    /// The stream of a dial becomes outbound if it is authenticated as the peer's that was dialled,
    /// and the own greeting is sent on it. Else it is closed as `WrongKey`.
    ///
    /// False, and nothing changes, if there is no such stream, or it is a link that was proved or
    /// that is closing.
    ///
    /// # Errors
    ///
    /// `AllocError` if an allocation fails. Nothing has changed then.
    ///
    /// # Cost
    ///
    /// That of [`Node::listen`], two searches among the links, and some passes over the streams.
    pub fn proved(&mut self, link: Link, peer: C, word: u64, now: Now) -> Result<bool, AllocError>
        ensures { let wire = ⟦<C as Frames>⟧.wire in AnswersProof C.cmp wire link.0 peer word
            (as_nanos now.steady) result self.old self.new }
    {
        let now = later(self.latest, now.steady);
        let Some(stream) = self.arrivals.get(link.0) else {
            return self.reached(link, &peer, now);
        };
        let grants = &self.next_dial.grants;
        if let Some(why) = connections::no_proof(
            &self.node,
            &self.links,
            grants,
            &self.pace,
            stream.claim,
            &peer,
            now,
        ) {
            streams::close(
                &mut self.arrivals,
                &mut self.answers,
                &mut self.actions,
                link.0,
                why,
            );
            self.latest = now;
            return Ok(false);
        }
        if connections::may_adopt(&self.node, &self.links, grants, &self.pace, &peer, now) {
            self.adopt(link, peer, now)?;
        } else {
            self.begin(link, peer, word, now)?;
        }
        Ok(true)
    }

    // A stream has claimed to be the peer's, and is: the peer is reserved for it, with the jitter
    // of a random word.
    fn begin(&mut self, link: Link, peer: C, word: u64, now: Duration) -> Result<(), AllocError>
        requires time { self.old.latest ≤ as_nanos now }
        requires claimed { is_claim_by C.cmp peer
            (find (has_number link.0) self.old.arrivals) ≡ true }
        requires may { AtEach C.cmp self.old.node (λ m calls. comes_by C.cmp self.old.pace
            self.old.links peer (may_listen_at m.directory (world_after m.directory calls) peer
            (as_nanos now)) ≡ true) }
        ensures did { let wire = ⟦<C as Frames>⟧.wire in OnOk result ((draw : Duration)
            × (as_nanos draw ≡ jitter_of self.old.cooldown word)
            × Does C.cmp wire (Proved link.0 peer now draw) self.old self.new) }
        ensures err { OnErr result (self.new ≡ self.old) }
    {
        connections::begin(
            &mut self.node,
            &mut self.reads,
            &mut self.links,
            &mut self.actions,
            &self.greeting,
            peer,
            link.0,
            self.pace.channels.as_slice(),
            now,
            jitter(self.cooldown, word),
        )?;
        streams::leave(&mut self.arrivals, &mut self.answers, link.0);
        self.latest = now;
        self.next_dial.from = Some(Duration::ZERO);
        Ok(())
    }

    // A stream has claimed to be the peer's, and is: it takes over the grant that is kept of it.
    fn adopt(&mut self, link: Link, peer: C, now: Duration) -> Result<(), AllocError>
        requires time { self.old.latest ≤ as_nanos now }
        requires claimed { is_claim_by C.cmp peer
            (find (has_number link.0) self.old.arrivals) ≡ true }
        requires may { AtEach C.cmp self.old.node (λ m calls. adopts_by self.old.pace
            self.old.links
            (is_some (kept_grant C.cmp self.old.links self.old.next_dial.grants peer))
            (is_eligible_at m.directory (world_after m.directory calls) peer (as_nanos now))
            ≡ true) }
        ensures did { let wire = ⟦<C as Frames>⟧.wire in OnOk result ((outbound : Bool)
            × Does C.cmp wire (Adopted link.0 peer now outbound) self.old self.new) }
        ensures err { OnErr result (self.new ≡ self.old) }
    {
        let direction = connections::adopts_as(&self.links, &self.pace);
        connections::adopt(
            &mut self.reads,
            &mut self.links,
            &mut self.next_dial.grants,
            &mut self.actions,
            &self.greeting,
            peer,
            link.0,
            direction,
            self.pace.channels.as_slice(),
            now,
        )?;
        streams::leave(&mut self.arrivals, &mut self.answers, link.0);
        self.latest = now;
        Ok(())
    }

    // The stream of a dial is authenticated as the peer's: it is outbound from now on if that peer
    // was dialled, else it is closed.
    fn reached(&mut self, link: Link, peer: &C, now: Duration) -> Result<bool, AllocError>
        requires { self.old.latest ≤ as_nanos now }
        ensures { let wire = ⟦<C as Frames>⟧.wire in DialProvedBy C.cmp wire result link.0 peer.now
            (as_nanos now) self.old self.new }
    {
        let Some(dialed) = self.links.find(link.0) else {
            return Ok(false);
        };
        let Some(held) = self.links.get(&dialed) else {
            return Ok(false);
        };
        if !held.is_dialing() {
            return Ok(false);
        }
        if !held.is_timed() {
            return Ok(false);
        }
        if dialed.cmp(peer).is_eq() {
            let (links, actions) = (&mut self.links, &mut self.actions);
            connections::reach(links, actions, &self.greeting, peer, link.0, now)?;
            self.latest = now;
            return Ok(true);
        }
        self.latest = now;
        connections::shut(&mut self.links, &mut self.actions, &dialed, Why::WrongKey);
        Ok(false)
    }

    /// The stream has ended, or the dial failed. It returns whether there was such a stream or
    /// link: its number is unknown from now on. Nothing changes if there was none. It doesn't
    /// allocate.
    ///
    /// A link releases its peer. But if it is a dial on which the peer hasn't greeted, less time
    /// than the cooldown has passed since it was granted, and the peer is eligible, the grant is
    /// kept: the peer stays reserved, and may come in by it.
    ///
    /// # Cost
    ///
    /// That of [`Node::release`], some searches among the links and the grants of dials, and two
    /// passes over the streams.
    pub fn ended(&mut self, link: Link, now: Now) -> bool
        ensures { let wire = ⟦<C as Frames>⟧.wire in AnswersEnd C.cmp wire link.0
            (as_nanos now.steady) result self.old self.new }
    {
        if self.arrivals.get(link.0).is_some() {
            streams::leave(&mut self.arrivals, &mut self.answers, link.0);
            self.actions.give_back(1);
            self.latest = later(self.latest, now.steady);
            return true;
        }
        let Some(peer) = self.links.find(link.0) else {
            return false;
        };
        let now = later(self.latest, now.steady);
        self.end(link, &peer, now);
        true
    }

    // The link of a peer ended: the grant of a dial that came to nothing is kept, else the peer is
    // released.
    fn end(&mut self, link: Link, peer: &C, now: Duration)
        requires time { self.old.latest ≤ as_nanos now }
        requires linked { IsSomeAnd (link_of C.cmp self.old.links peer.now)
            (λ held. held.number ≡ link.0) }
        ensures { let wire = ⟦<C as Frames>⟧.wire in
            IsSomeAnd (link_of C.cmp self.old.links peer.now)
            (λ held. EndsAt C.cmp wire link.0 peer.now (as_nanos now) held self.old self.new) }
    {
        let grants = &self.next_dial.grants;
        let stays = connections::stays(&self.node, grants, self.cooldown, peer, now);
        self.reads.end(link.0);
        self.latest = now;
        if stays {
            connections::fail(&mut self.links, &mut self.actions, peer);
            return;
        }
        connections::end(&mut self.node, &mut self.links, &mut self.actions, peer);
        self.next_dial.grants.remove(peer);
        self.next_dial.from = Some(Duration::ZERO);
    }

    /// Takes the first action that waits, which the host is to do, or `None` if none waits. Those
    /// of one link come in their order. It doesn't allocate.
    pub fn next_action(&mut self) -> Option<Action<C>>
        ensures { let wire = ⟦<C as Frames>⟧.wire in
            AnswersNext C.cmp wire result self.old self.new }
    {
        self.actions.pop()
    }

    /// Ends the driver: all reservations are released. It returns the directory.
    ///
    /// # Cost
    ///
    /// That of [`Node::finish`].
    pub fn finish(self) -> Directory<C>
        ensures { ReleasesAll C.cmp self.node.held self.node.directory result }
    {
        let Driver {
            node,
            pace: _,
            greeting: _,
            cooldown: _,
            next_dial: _,
            latest: _,
            next: _,
            arrivals: _,
            answers: _,
            reads: _,
            links: _,
            actions: _,
        } = self;
        node.finish()
    }
}

// The jitter of a grant, by a random word.
pub(crate) fn jitter(cooldown: Duration, word: u64) -> Duration
    ensures { as_nanos result ≡ jitter_of (as_nanos cooldown) word }
{
    let nanos = word as u128 % (cooldown.as_nanos() / 2 * 2 + 1);
    Duration::from_nanos(nanos as u64)
}

// The later of two times.
fn later(one: Duration, other: Duration) -> Duration
    ensures { as_nanos result ≡ max (as_nanos one) (as_nanos other) }
{
    if one.as_nanos() < other.as_nanos() {
        other
    } else {
        one
    }
}
