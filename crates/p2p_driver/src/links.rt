//! The links: the peers whose streams are proved.

ghost use Rattle.std.specs.Prelude.{◌≡◌, ◌≤◌, ◌<◌, ◌+◌, [], ℕ, length, true, false, Some, None};
ghost use Rattle.std.specs.Prelude.{OnOk, OnErr, IfSome, IfNone, if◌then◌else◌, is_some};
ghost use Rattle.std.specs.Prelude.{option_map, find, max};
ghost use Rattle.std.specs.Duration.{as_nanos};
ghost use Rattle.std.specs.List.Sorted.{IsStrictlySortedBy};
ghost use Rattle.std.specs.Map.{keys_of, values_of, remove_entry, set_value};
ghost use Rattle.std.specs.Option.{IsSomeAnd};
ghost use Rattle.std.specs.BTreeMap.{is_at, get, insert_entry};
ghost use Rattle.p2p_driver.specs.Links.{link_of, need_at, needs, link_as, one_if_greeting};
ghost use Rattle.p2p_driver.specs.Links.{opened, hearing, asking, allowing, saying, writing};
ghost use Rattle.p2p_driver.specs.Links.{closed, changed, has_room, has_room_at};
ghost use Rattle.p2p_driver.specs.Links.{is_ungreeted, is_slow, is_timed, greets_in};
ghost use Rattle.p2p_driver.specs.Links.{begun, dial_with, reached, is_way, is_dialing, is_dialer};
ghost use Rattle.p2p_driver.specs.Links.{count_of};
ghost use Rattle.p2p_driver.specs.Links.{is_open, ask_at, is_to_ask, to_ask, next_of};
ghost use Rattle.p2p_driver.specs.Links.{is_unexpected, hear_by, due, is_late};
ghost use Rattle.p2p_driver.specs.Links.{AreNumbered, AreAlike, IsLeastDue};
ghost use Rattle.p2p_driver.specs.declared.links.Held.{Held};

use crate::deadlines::{count_of, first_late, first_to_ask, first_to_ask_from, next_due};
use crate::looked::Looked;
use crate::pace::Pace;
use crate::rate::after;
use crate::unwritten::Unwritten;
use bytes::Bytes;
use std::alloc::{AllocError, Global};
use std::collections::BTreeMap;
use std::marker::Model;
use std::time::Duration;

/// How far a link is.
#[derive(Clone, Copy, Debug, PartialEq, Eq)]
pub enum Phase {
    /// The peer hasn't greeted yet.
    Greeting,
    /// The peer has greeted.
    Open,
    /// It was closed: its stream ends.
    Closing,
}

/// How a link came about.
#[derive(Clone, Copy, Debug, PartialEq, Eq)]
pub enum Direction {
    /// A stream came in, and was proved.
    Inbound,
    /// A dial is under way: its stream isn't proved.
    Dialing,
    /// A dial, whose stream was proved.
    Outbound,
    /// A stream came in, and was proved to be of a peer of which the grant of a dial was kept. It
    /// took that over, and has an outbound place.
    TakenOver,
}

/// A frame that waits until it is told which signatures in it are valid.
#[derive(Debug, Drop)]
pub struct Waiting {
    /// The frame.
    pub frame: Bytes,
    /// When it came, a time since the epoch: its infos are judged by it.
    pub wall: Duration,
    /// How many infos it has.
    pub infos: usize,
    /// How many signatures decide: those of its first infos.
    pub count: usize,
}

/// What is kept of the questions that a peer is asked on its link.
#[derive(Clone, Copy, Debug, PartialEq, Eq)]
pub struct Asked {
    /// When a question was due last, a steady time: it was asked then, unless an allocation failed,
    /// or too many frames weren't written. At first, when the peer's key was proved.
    pub at: Duration,
    /// The index of the set that was asked for last, if one was.
    pub index: Option<u64>,
    /// How often the newest set was asked for.
    pub rounds: u64,
}

/// What is kept of a link.
#[derive(Debug, Drop)]
pub struct Held {
    /// Its number, which no other link has.
    pub number: u64,
    /// How it came about.
    pub direction: Direction,
    /// How far it is.
    pub phase: Phase,
    /// When its peer's key was proved, a steady time, or for a dial under way, when it began.
    pub since: Duration,
    /// When its peer was heard last, a steady time: at first, when its key was proved.
    pub heard: Duration,
    /// How many questions wait for their replies.
    pub owed: usize,
    /// The frame that waits on it, if one does.
    pub waiting: Option<Waiting>,
    /// The questions that its peer is asked.
    pub asked: Asked,
    /// The frame that may be handed in next, if one may.
    pub looked: Option<Looked>,
    /// The frames that were said on it and aren't written: first, once its peer's key is proved,
    /// the own greeting.
    pub unwritten: Unwritten,
}

// What becomes of a link.
#[derive(Drop)]
pub(crate) enum Change {
    // The peer has greeted: when, how many questions wait for their replies then, and what is kept
    // of them.
    Opens(Duration, usize, Asked),
    // The peer is heard: when, how many questions wait for their replies then, and what waits.
    Hears(Duration, usize, Option<Waiting>),
    // The peer is asked: how many questions wait for their replies then, and what is kept of them.
    Asks(usize, Asked),
    // This frame may be handed in.
    Looks(Looked),
    // The oldest frame that was said is written.
    Writes,
    // It is closed.
    Closes,
}

impl Held {
    // What is kept of the link after a change.
    fn change(&mut self, change: Change)
        ensures { self.new ≡ changed change self.old }
    {
        match change {
            Change::Opens(now, owed, asked) => self.open(now, owed, asked),
            Change::Hears(now, owed, waiting) => self.hear(now, owed, waiting),
            Change::Asks(owed, asked) => {
                self.owed = owed;
                self.asked = asked;
            }
            Change::Looks(looked) => {
                self.looked = match self.phase {
                    Phase::Closing => None,
                    _ => Some(looked),
                };
            }
            Change::Writes => self.unwritten.pop(),
            Change::Closes => self.close(),
        }
    }

    // The peer has greeted.
    fn open(&mut self, now: Duration, owed: usize, asked: Asked)
        ensures { self.new ≡ opened now owed asked self.old }
    {
        if self.phase == Phase::Greeting {
            self.phase = Phase::Open;
        }
        self.heard = now;
        self.owed = owed;
        self.waiting = None;
        self.asked = asked;
        self.looked = None;
    }

    // The peer is heard.
    fn hear(&mut self, now: Duration, owed: usize, waiting: Option<Waiting>)
        ensures { self.new ≡ hearing now owed waiting self.old }
    {
        self.heard = now;
        self.owed = owed;
        self.waiting = match self.phase {
            Phase::Closing => None,
            _ => waiting,
        };
        self.looked = None;
    }

    // The stream of a dial is proved, and the own greeting said, if memory suffices. False, and
    // nothing changes, if it doesn't.
    fn reach(&mut self, now: Duration) -> bool
        ensures reached { result ≡ true → self.new ≡ saying (Some now) (reached now self.old) }
        ensures unchanged { result ≡ false → self.new ≡ self.old }
    {
        if !self.say(now) {
            return false;
        }
        if self.direction == Direction::Dialing {
            self.direction = Direction::Outbound;
        }
        self.since = now;
        self.heard = now;
        self.waiting = None;
        true
    }

    // The link is closed.
    fn close(&mut self)
        ensures { self.new ≡ closed self.old }
    {
        self.phase = Phase::Closing;
        self.waiting = None;
        self.looked = None;
    }

    // A frame is said, if memory suffices. False, and nothing changes, if it doesn't.
    fn say(&mut self, now: Duration) -> bool
        ensures said { result ≡ true → self.new ≡ saying (Some now) self.old }
        ensures unchanged { result ≡ false → self.new ≡ self.old }
    {
        self.unwritten.push(now).is_ok()
    }

    // Whether another frame may be said, if at most `queue` aren't written.
    pub(crate) fn has_room(&self, queue: usize) -> bool
        ensures { result ≡ has_room queue self.now }
    {
        self.unwritten.len() < queue
    }

    // Whether the link isn't closed, and the frame isn't the one that may be handed in.
    pub(crate) fn is_unexpected(&self, frame: &[u8]) -> bool
        ensures { result ≡ is_unexpected frame.now self.now }
    {
        if !self.is_timed() {
            return false;
        }
        match &self.looked {
            Some(looked) => !looked.is_of(frame),
            None => true,
        }
    }

    // Whether the peer hasn't greeted yet, and nothing of it waits.
    pub(crate) fn is_ungreeted(&self) -> bool
        ensures { result ≡ is_ungreeted self.now }
    {
        self.phase == Phase::Greeting && self.waiting.is_none()
    }

    // Whether the link is a dial whose stream isn't proved.
    pub(crate) fn is_dialing(&self) -> bool
        ensures { result ≡ is_dialing self.now }
    {
        self.direction == Direction::Dialing
    }

    // Whether the link is a dial whose stream was proved.
    pub(crate) fn is_dialer(&self) -> bool
        ensures { result ≡ is_dialer self.now }
    {
        self.direction == Direction::Outbound
    }

    // Whether the link isn't closed.
    pub(crate) fn is_timed(&self) -> bool
        ensures { result ≡ is_timed self.now.phase }
    {
        self.phase != Phase::Closing
    }

    // Whether the link is slow, if it is late.
    pub(crate) fn is_slow(&self) -> bool
        ensures { result ≡ is_slow self.now }
    {
        self.is_ungreeted() || self.unwritten.is_since(self.heard)
    }

    // By when the peer has to greet, or to be proved if it was dialled, in nanoseconds.
    fn greet_by(&self, pace: &Pace) -> u128
        ensures { result ≡ as_nanos self.now.since + greets_in pace.now self.now.direction }
    {
        match self.direction {
            Direction::Dialing => {
                let shortest = Duration::from_nanos(1);
                after(self.since, pace.handshake).max(after(self.since, shortest))
            }
            _ => after(self.since, pace.greeting),
        }
    }

    // By when the peer has to be heard, in nanoseconds.
    fn hear_by(&self, pace: &Pace) -> u128
        ensures { result ≡ hear_by pace.now self.now }
    {
        if self.is_ungreeted() {
            self.greet_by(pace)
        } else {
            after(self.heard, pace.silence)
        }
    }

    // By when the peer has to be heard, or a frame to be written, in nanoseconds.
    fn due(&self, pace: &Pace) -> u128
        ensures { result ≡ due pace.now self.now }
    {
        let hear_by = self.hear_by(pace);
        match self.unwritten.write_by(pace.silence) {
            Some(write_by) => write_by.min(hear_by),
            None => hear_by,
        }
    }

    // Whether the peer has greeted, and its link isn't closed.
    pub(crate) fn is_open(&self) -> bool
        ensures { result ≡ is_open self.now.phase }
    {
        self.phase == Phase::Open
    }

    // When the peer is to be asked next, in nanoseconds: a tick later, which takes some time.
    fn ask_at(&self, tick: Duration) -> u128
        ensures { result ≡ ask_at (as_nanos tick) self.now }
    {
        let shortest = Duration::from_nanos(1);
        after(self.asked.at, tick).max(after(self.asked.at, shortest))
    }

    // Whether the peer is to be asked.
    pub(crate) fn is_to_ask(&self, tick: Duration, now: Duration) -> bool
        ensures { result ≡ is_to_ask (as_nanos tick) (as_nanos now) self.now }
    {
        self.is_open() && self.ask_at(tick) <= now.as_nanos()
    }

    // When something is due of the link next, in nanoseconds.
    pub(crate) fn next(&self, pace: &Pace) -> u128
        ensures { result ≡ next_of pace.now self.now }
    {
        let due = self.due(pace);
        if self.is_open() {
            due.min(self.ask_at(pace.tick))
        } else {
            due
        }
    }

    // Whether the link is late.
    pub(crate) fn is_late(&self, pace: &Pace, now: Duration) -> bool
        ensures { result ≡ is_late pace.now (as_nanos now) self.now }
    {
        self.is_timed() && self.due(pace) <= now.as_nanos()
    }
}

/// The links: peers whose streams are proved, each with what is kept of its link. A peer has at
/// most one, and no two have one number. A contract sees the list of them in ascending order of
/// the peers' keys.
#[derive(Drop)]
pub struct Links<C: Ord + Copy> {
    alloc: Global,
    of_peers: BTreeMap<C, Held>,
    // By number.
    peers: BTreeMap<u64, C>,
}

impl<C: Ord + Copy> Model for Links<C> {
    ghost use Rattle.std.specs.Prelude.{List};
    ghost use Rattle.std.specs.Map.{lookup};
    ghost use Rattle.std.specs.Ordering.{nat_cmp};
    ghost use Rattle.std.specs.BTreeMap.{is_at};
    ghost use Rattle.p2p_driver.specs.declared.links.Held.{Held};

    ghost Value = { List (C × Held) };

    ghost use Rattle.p2p_driver.specs.Links.{AreInverse};

    ghost view = { λ l. l.of_peers.entries };

    ghost invariant = { λ l. AreInverse C.cmp l.of_peers.entries
        (λ n. lookup (is_at (nat_cmp n)) l.peers.entries) };
}

impl<C: Ord + Copy> Links<C> {
    /// No links. It doesn't allocate.
    pub fn new(alloc: Global) -> Self
        ensures { result ≡ [] }
    {
        Links {
            alloc,
            of_peers: BTreeMap::new(alloc),
            peers: BTreeMap::new(alloc),
        }
    }

    /// What is kept of the peer's link, or `None` if it has none. It doesn't allocate.
    ///
    /// # Cost
    ///
    /// One search among the links.
    pub fn get(&self, peer: &C) -> Option<&Held>
        ensures { option_map (λ h. h.now) result ≡ link_of C.cmp self.now peer.now }
    {
        self.of_peers.get(peer)
    }

    /// The peer whose link has the number, or `None` if none has. It doesn't allocate.
    ///
    /// # Cost
    ///
    /// One search among the links.
    pub fn find(&self, number: u64) -> Option<C>
        ensures found { IfSome result (λ peer.
            IsSomeAnd (link_of C.cmp self.now peer) (λ held. held.number ≡ number)) }
        ensures only { IfSome result (λ peer. (q : C) (held : Held) →
            link_of C.cmp self.now q ≡ Some held → held.number ≡ number →
            is_at (C.cmp peer) q ≡ true) }
        ensures none { IfNone result ((q : C) (held : Held) →
            link_of C.cmp self.now q ≡ Some held → held.number ≡ number → ⊥) }
    {
        self.peers.get(&number).copied()
    }

    /// How many links there are. It doesn't allocate.
    pub fn len(&self) -> usize
        ensures { result ≡ length self.now }
    {
        self.of_peers.len()
    }

    /// How many links came about so. It doesn't allocate.
    ///
    /// # Cost
    ///
    /// One pass over the links.
    pub fn count_of(&self, direction: Direction) -> usize
        ensures { result ≡ count_of direction self.now }
    {
        count_of(&self.of_peers, direction)
    }

    /// Does nothing. By a law of links, a peer has one link, by whichever of equal keys it is asked
    /// for, and no two links have one number.
    pub fn agrees(&self)
        ensures sorted { IsStrictlySortedBy C.cmp (keys_of self.now) }
        ensures alike { AreAlike C.cmp self.now }
        ensures numbered { AreNumbered C.cmp self.now }
        ensures needs { (q : C) → need_at (link_of C.cmp self.now q) ≤ needs self.now }
    {
        let _peers = &self.peers;
        // For the proof: the contract of `len` says that the keys are in order.
        let _count = self.of_peers.len();
    }

    /// Keeps a link of the peer, of a stream that came in and was proved at the steady time
    /// `since`, and that came about so. The peer hasn't greeted. The own greeting is said on the
    /// link then. All other links stay.
    ///
    /// # Conditions
    ///
    /// The peer has no link, and no link has the number.
    ///
    /// # Errors
    ///
    /// `AllocError` if an allocation fails. Nothing changes then.
    ///
    /// # Cost
    ///
    /// Two searches among the links.
    pub fn put(
        &mut self,
        peer: C,
        number: u64,
        direction: Direction,
        since: Duration,
    ) -> Result<(), AllocError>
        requires unlinked { link_of C.cmp self.old peer ≡ None }
        requires unused { (q : C) (held : Held) → link_of C.cmp self.old q ≡ Some held →
            held.number ≡ number → ⊥ }
        ensures ok { OnOk result ((q : C) → link_of C.cmp self.new q ≡
            (if is_at (C.cmp peer) q then Some (link_as direction number since)
            else link_of C.cmp self.old q)) }
        ensures entries { OnOk result (self.new ≡
            insert_entry C.cmp self.old peer (link_as direction number since)) }
        ensures count { OnOk result (length self.new ≡ length self.old + 1) }
        ensures counts { OnOk result ((way : Direction) → count_of way self.new
            ≡ count_of way self.old + (if is_way way direction then 1 else 0)) }
        ensures needs { OnOk result (needs self.new ≡ needs self.old + 1) }
        ensures err { OnErr result (self.new ≡ self.old) }
    {
        let unwritten = Unwritten::new(self.alloc, since)?;
        self.keep(peer, begun(number, direction, since, unwritten))
    }

    /// Keeps a link of the peer, whose dial began at the steady time `since`: its stream isn't
    /// proved. Nothing is said on it. All other links stay.
    ///
    /// # Conditions
    ///
    /// The peer has no link, and no link has the number.
    ///
    /// # Errors
    ///
    /// `AllocError` if an allocation fails. Nothing changes then.
    ///
    /// # Cost
    ///
    /// Two searches among the links.
    pub fn dial(&mut self, peer: C, number: u64, since: Duration) -> Result<(), AllocError>
        requires unlinked { link_of C.cmp self.old peer ≡ None }
        requires unused { (q : C) (held : Held) → link_of C.cmp self.old q ≡ Some held →
            held.number ≡ number → ⊥ }
        ensures ok { OnOk result ((q : C) → link_of C.cmp self.new q ≡
            (if is_at (C.cmp peer) q then Some (dial_with number since)
            else link_of C.cmp self.old q)) }
        ensures entries { OnOk result (self.new ≡
            insert_entry C.cmp self.old peer (dial_with number since)) }
        ensures count { OnOk result (length self.new ≡ length self.old + 1) }
        ensures counts { OnOk result ((way : Direction) → count_of way self.new
            ≡ count_of way self.old + (if is_way way Direction.Dialing then 1 else 0)) }
        ensures needs { OnOk result (needs self.new ≡ needs self.old + 1) }
        ensures err { OnErr result (self.new ≡ self.old) }
    {
        let unwritten = Unwritten::none(self.alloc);
        self.keep(peer, begun(number, Direction::Dialing, since, unwritten))
    }

    // Keeps a link of the peer that begins so.
    fn keep(&mut self, peer: C, held: Held) -> Result<(), AllocError>
        requires unlinked { link_of C.cmp self.old peer ≡ None }
        requires unused { (q : C) (other : Held) → link_of C.cmp self.old q ≡ Some other →
            other.number ≡ held.number → ⊥ }
        requires begins { held.phase ≡ Phase.Greeting }
        ensures ok { OnOk result ((q : C) → link_of C.cmp self.new q ≡
            (if is_at (C.cmp peer) q then Some held else link_of C.cmp self.old q)) }
        ensures entries { OnOk result (self.new ≡ insert_entry C.cmp self.old peer held) }
        ensures count { OnOk result (length self.new ≡ length self.old + 1) }
        ensures counts { OnOk result ((way : Direction) → count_of way self.new
            ≡ count_of way self.old + (if is_way way held.direction then 1 else 0)) }
        ensures needs { OnOk result (needs self.new ≡ needs self.old + 1) }
        ensures err { OnErr result (self.new ≡ self.old) }
    {
        let number = held.number;
        insert(&mut self.peers, number, peer)?;
        if let Err(failed) = insert(&mut self.of_peers, peer, held) {
            let _peer = self.peers.remove(&number);
            return Err(failed);
        }
        Ok(())
    }

    /// Notes that the peer has greeted, how many questions wait for their replies now, and what is
    /// kept of its questions: its link is open, if it has one that isn't closed, and nothing waits
    /// on it. All other links stay. It doesn't allocate.
    ///
    /// # Cost
    ///
    /// Two searches among the links.
    pub fn open(&mut self, peer: &C, now: Duration, owed: usize, asked: Asked)
        ensures links { (q : C) → link_of C.cmp self.new q ≡ (if is_at (C.cmp peer.now) q
            then option_map (opened now owed asked) (link_of C.cmp self.old q)
            else link_of C.cmp self.old q) }
        ensures counts { (way : Direction) → count_of way self.new ≡ count_of way self.old }
        ensures needs { needs self.new ≡
            needs self.old + one_if_greeting (link_of C.cmp self.old peer.now) }
    {
        apply(&mut self.of_peers, peer, Change::Opens(now, owed, asked));
    }

    /// Notes that the peer was asked, if it has a link: how many questions wait for their replies
    /// now, and what is kept of its questions. All other links stay. It doesn't allocate.
    ///
    /// # Cost
    ///
    /// Two searches among the links.
    pub fn ask(&mut self, peer: &C, owed: usize, asked: Asked)
        ensures links { (q : C) → link_of C.cmp self.new q ≡ (if is_at (C.cmp peer.now) q
            then option_map (asking owed asked) (link_of C.cmp self.old q)
            else link_of C.cmp self.old q) }
        ensures counts { (way : Direction) → count_of way self.new ≡ count_of way self.old }
        ensures needs { needs self.new ≡ needs self.old }
        ensures fewer { (tick now : ℕ) → now < as_nanos asked.at + max tick 1 →
            IsSomeAnd (link_of C.cmp self.old peer.now) (λ h. is_to_ask tick now h ≡ true) →
            to_ask tick now self.new + 1 ≡ to_ask tick now self.old }
    {
        apply(&mut self.of_peers, peer, Change::Asks(owed, asked));
    }

    /// Notes that the peer was heard, if it has a link: when, how many questions wait for their
    /// replies now, and what waits on its link. All other links stay. It doesn't allocate.
    ///
    /// # Cost
    ///
    /// Two searches among the links.
    pub fn hear(&mut self, peer: &C, now: Duration, owed: usize, waiting: Option<Waiting>)
        ensures links { (q : C) → link_of C.cmp self.new q ≡ (if is_at (C.cmp peer.now) q
            then option_map (hearing now owed waiting) (link_of C.cmp self.old q)
            else link_of C.cmp self.old q) }
        ensures counts { (way : Direction) → count_of way self.new ≡ count_of way self.old }
        ensures needs { needs self.new ≡ needs self.old }
    {
        apply(&mut self.of_peers, peer, Change::Hears(now, owed, waiting));
    }

    /// Notes that this frame may be handed in on the peer's link, if it has one that isn't closed.
    /// All other links stay. It doesn't allocate.
    ///
    /// # Cost
    ///
    /// Two searches among the links.
    pub fn look(&mut self, peer: &C, looked: Looked)
        ensures links { (q : C) → link_of C.cmp self.new q ≡ (if is_at (C.cmp peer.now) q
            then option_map (allowing looked) (link_of C.cmp self.old q)
            else link_of C.cmp self.old q) }
        ensures counts { (way : Direction) → count_of way self.new ≡ count_of way self.old }
        ensures needs { needs self.new ≡ needs self.old }
    {
        apply(&mut self.of_peers, peer, Change::Looks(looked));
    }

    /// Whether another frame may be said on the peer's link, if at most `queue` that were said on
    /// it aren't written. False if it has no link. It doesn't allocate.
    ///
    /// # Cost
    ///
    /// One search among the links.
    pub fn has_room(&self, peer: &C, queue: usize) -> bool
        ensures { result ≡ has_room_at queue (link_of C.cmp self.now peer.now) }
    {
        match self.of_peers.get(peer) {
            Some(held) => held.has_room(queue),
            None => false,
        }
    }

    /// Notes that a frame is said on the peer's link at this time, if it has one. All other links
    /// stay. It returns whether memory suffices, and the peer has a link. If not, nothing changes.
    ///
    /// # Cost
    ///
    /// One search among the links. The times of the frames that aren't written may be moved once.
    pub fn say(&mut self, peer: &C, now: Duration) -> bool
        ensures links { result ≡ true → (q : C) → link_of C.cmp self.new q ≡
            (if is_at (C.cmp peer.now) q
            then option_map (saying (Some now)) (link_of C.cmp self.old q)
            else link_of C.cmp self.old q) }
        ensures linked { result ≡ true → is_some (link_of C.cmp self.old peer.now) ≡ true }
        ensures unchanged { result ≡ false → self.new ≡ self.old }
        ensures counts { (way : Direction) → count_of way self.new ≡ count_of way self.old }
        ensures needs { needs self.new ≡ needs self.old }
        ensures to_ask { (tick t : ℕ) → to_ask tick t self.new ≡ to_ask tick t self.old }
    {
        say(&mut self.of_peers, peer, now)
    }

    /// Notes that the stream of a dial of the peer is proved at this time, if the peer has a link:
    /// it is outbound then, and the own greeting is said on it. All other links stay. It returns
    /// whether memory suffices, and the peer has a link. If not, nothing changes.
    ///
    /// # Cost
    ///
    /// One search among the links. The times of the frames that aren't written may be moved once.
    pub fn reach(&mut self, peer: &C, now: Duration) -> bool
        ensures links { result ≡ true → (q : C) → link_of C.cmp self.new q ≡
            (if is_at (C.cmp peer.now) q
            then option_map (λ h. saying (Some now) (reached now h)) (link_of C.cmp self.old q)
            else link_of C.cmp self.old q) }
        ensures linked { result ≡ true → is_some (link_of C.cmp self.old peer.now) ≡ true }
        ensures unchanged { result ≡ false → self.new ≡ self.old }
        ensures counts { result ≡ true →
            IsSomeAnd (link_of C.cmp self.old peer.now) (λ h. is_dialing h ≡ true) →
            (way : Direction) →
            count_of way self.new + (if is_way way Direction.Dialing then 1 else 0)
            ≡ count_of way self.old + (if is_way way Direction.Outbound then 1 else 0) }
        ensures needs { needs self.new ≡ needs self.old }
    {
        reach(&mut self.of_peers, peer, now)
    }

    /// Notes that the oldest frame that was said on the peer's link is written, if it has a link,
    /// and there is such a frame. All other links stay. It doesn't allocate.
    ///
    /// # Cost
    ///
    /// One search among the links.
    pub fn write(&mut self, peer: &C)
        ensures links { (q : C) → link_of C.cmp self.new q ≡ (if is_at (C.cmp peer.now) q
            then option_map writing (link_of C.cmp self.old q)
            else link_of C.cmp self.old q) }
        ensures counts { (way : Direction) → count_of way self.new ≡ count_of way self.old }
        ensures needs { needs self.new ≡ needs self.old }
    {
        apply(&mut self.of_peers, peer, Change::Writes);
    }

    /// Notes that the peer's link is closed, if it has one. All other links stay. It doesn't
    /// allocate.
    ///
    /// # Cost
    ///
    /// Two searches among the links.
    pub fn close(&mut self, peer: &C)
        ensures links { (q : C) → link_of C.cmp self.new q ≡
            (if is_at (C.cmp peer.now) q then option_map closed (link_of C.cmp self.old q)
            else link_of C.cmp self.old q) }
        ensures counts { (way : Direction) → count_of way self.new ≡ count_of way self.old }
        ensures needs { needs self.new + need_at (link_of C.cmp self.old peer.now) ≡
            needs self.old }
    {
        apply(&mut self.of_peers, peer, Change::Closes);
    }

    /// Keeps the peer's link no longer, and returns what was kept of it, or `None` if it has none.
    /// All other links stay. It doesn't allocate.
    ///
    /// # Cost
    ///
    /// Two searches among the links.
    pub fn remove(&mut self, peer: &C) -> Option<Held>
        ensures removed { result ≡ link_of C.cmp self.old peer.now }
        ensures links { (q : C) → link_of C.cmp self.new q ≡
            (if is_at (C.cmp peer.now) q then None else link_of C.cmp self.old q) }
        ensures entries { self.new ≡ remove_entry (is_at (C.cmp peer.now)) self.old }
        ensures count { length self.new + (if is_some result then 1 else 0) ≡ length self.old }
        ensures counts { IfSome result (λ held. (way : Direction) →
            count_of way self.new + (if is_way way held.direction then 1 else 0)
            ≡ count_of way self.old) }
        ensures needs { needs self.new + need_at result ≡ needs self.old }
    {
        let Some(held) = self.of_peers.remove(peer) else {
            return None;
        };
        let _peer = self.peers.remove(&held.number);
        Some(held)
    }

    /// The first peer, in ascending order of the keys, whose link is late at the steady time `now`:
    /// it isn't closed, and before the peer has greeted, and while nothing of it waits, `greeting`
    /// has passed since its key was proved, else `silence` since it was heard last. Of a dial whose
    /// stream isn't proved, `handshake` has passed since it began, or a nanosecond if that is 0. Or
    /// `silence`, or a nanosecond if that is 0, has passed since the oldest frame was said on it
    /// that isn't written. `None` if none is late. It doesn't allocate.
    ///
    /// # Cost
    ///
    /// One pass over the links.
    pub fn late(&self, pace: &Pace, now: Duration) -> Option<C>
        ensures late { IfSome result (λ peer. IsSomeAnd (link_of C.cmp self.now peer)
            (λ held. is_late pace.now (as_nanos now) held ≡ true)) }
        ensures none { IfNone result ((q : C) (held : Held) →
            link_of C.cmp self.now q ≡ Some held →
            is_late pace.now (as_nanos now) held ≡ false) }
        ensures first { result ≡ option_map (λ e. e.0)
            (find (λ e. is_late pace.now (as_nanos now) e.1) self.now) }
    {
        // For the proof: the contract of `len` says that the keys are in order.
        let _count = self.of_peers.len();
        first_late(&self.of_peers, pace, now)
    }

    /// The first peer, in ascending order of the keys, that is to be asked at the steady time
    /// `now`: its link is open, and a `tick` has passed since it was asked last, or a nanosecond,
    /// if ticks are 0. `None` if none is. It doesn't allocate.
    ///
    /// # Cost
    ///
    /// One pass over the links.
    pub fn to_ask(&self, tick: Duration, now: Duration) -> Option<C>
        ensures found { IfSome result (λ peer. IsSomeAnd (link_of C.cmp self.now peer)
            (λ held. is_to_ask (as_nanos tick) (as_nanos now) held ≡ true)) }
        ensures none { IfNone result ((q : C) (held : Held) →
            link_of C.cmp self.now q ≡ Some held →
            is_to_ask (as_nanos tick) (as_nanos now) held ≡ false) }
        ensures first { result ≡ option_map (λ e. e.0)
            (find (λ e. is_to_ask (as_nanos tick) (as_nanos now) e.1) self.now) }
    {
        // For the proof: the contract of `len` says that the keys are in order.
        let _count = self.of_peers.len();
        first_to_ask(&self.of_peers, tick, now)
    }

    /// A peer that is to be asked at the steady time `now`, as in [`to_ask`](Self::to_ask), or
    /// `None` if none is. They are searched from the key `from` on, and then all of them, which no
    /// contract claims. It doesn't allocate.
    ///
    /// # Cost
    ///
    /// One search, and a pass over the links from there on to the peer; if there is none, one pass
    /// over the links.
    pub fn to_ask_from(&self, from: Option<C>, tick: Duration, now: Duration) -> Option<C>
        ensures found { IfSome result (λ peer. IsSomeAnd (link_of C.cmp self.now peer)
            (λ held. is_to_ask (as_nanos tick) (as_nanos now) held ≡ true)) }
        ensures none { IfNone result ((q : C) (held : Held) →
            link_of C.cmp self.now q ≡ Some held →
            is_to_ask (as_nanos tick) (as_nanos now) held ≡ false) }
    {
        if let Some(from) = from {
            if let Some(peer) = first_to_ask_from(&self.of_peers, from, tick, now) {
                return Some(peer);
            }
        }
        self.to_ask(tick, now)
    }

    /// The first moment, in nanoseconds, at which a link is late, as in [`late`](Self::late), or
    /// its peer is to be asked, as in [`to_ask`](Self::to_ask). `None` if there is no link that
    /// isn't closed. It doesn't allocate.
    ///
    /// # Cost
    ///
    /// One pass over the links.
    pub fn next_due(&self, pace: &Pace) -> Option<u128>
        ensures { IsLeastDue C.cmp (next_of pace.now) self.now result }
    {
        // For the proof: the contract of `len` says that the keys are in order.
        let _count = self.of_peers.len();
        next_due(&self.of_peers, pace)
    }
}

// A link that begins: its peer hasn't greeted, and nothing was heard of it, or asked.
fn begun(number: u64, direction: Direction, since: Duration, unwritten: Unwritten) -> Held
    ensures { result ≡ begun direction number since unwritten }
{
    Held {
        number,
        direction,
        phase: Phase::Greeting,
        since,
        heard: since,
        owed: 0,
        waiting: None,
        asked: Asked {
            at: since,
            index: None,
            rounds: 0,
        },
        looked: None,
        unwritten,
    }
}

// Inserts a value at a key of which there is none.
fn insert<K: Ord + Copy, V: Drop>(
    map: &mut BTreeMap<K, V>,
    key: K,
    value: V,
) -> Result<(), AllocError>
    requires { get K.cmp map.old key ≡ None }
    ensures ok { OnOk result ((q : K) → get K.cmp map.new q ≡
        (if is_at (K.cmp key) q then Some value else get K.cmp map.old q)) }
    ensures entries { OnOk result (map.new.entries
        ≡ insert_entry K.cmp map.old.entries key value) }
    ensures count { OnOk result (length map.new.entries ≡ length map.old.entries + 1) }
    ensures err { OnErr result (map.new.entries ≡ map.old.entries) }
    ensures ordered { IsStrictlySortedBy K.cmp (keys_of map.old.entries) }
{
    match map.insert(key, value) {
        Ok(_before) => Ok(()),
        Err(_refused) => Err(AllocError),
    }
}

// Changes what is kept of the peer's link, if it is kept.
fn apply<C: Ord>(of_peers: &mut BTreeMap<C, Held>, peer: &C, change: Change)
    ensures noted { (held : Held) → link_of C.cmp of_peers.old.entries peer.now ≡ Some held →
        of_peers.new.entries
        ≡ set_value (is_at (C.cmp peer.now)) of_peers.old.entries (changed change held) }
    ensures none { link_of C.cmp of_peers.old.entries peer.now ≡ None →
        of_peers.new.entries ≡ of_peers.old.entries }
{
    if let Some(kept) = of_peers.get_mut(peer) {
        kept.change(change);
    }
}

// Notes that a frame is said on the peer's link, if it is kept, and memory suffices.
fn say<C: Ord>(of_peers: &mut BTreeMap<C, Held>, peer: &C, now: Duration) -> bool
    ensures said { result ≡ true → (held : Held) →
        link_of C.cmp of_peers.old.entries peer.now ≡ Some held → of_peers.new.entries
        ≡ set_value (is_at (C.cmp peer.now)) of_peers.old.entries (saying (Some now) held) }
    ensures linked { result ≡ true →
        is_some (link_of C.cmp of_peers.old.entries peer.now) ≡ true }
    ensures unchanged { result ≡ false → of_peers.new.entries ≡ of_peers.old.entries }
{
    match of_peers.get_mut(peer) {
        Some(kept) => kept.say(now),
        None => false,
    }
}

// Notes that the stream of a dial of the peer is proved, if the peer's link is kept, and memory
// suffices.
fn reach<C: Ord>(of_peers: &mut BTreeMap<C, Held>, peer: &C, now: Duration) -> bool
    ensures reached { result ≡ true → (held : Held) →
        link_of C.cmp of_peers.old.entries peer.now ≡ Some held → of_peers.new.entries
        ≡ set_value (is_at (C.cmp peer.now)) of_peers.old.entries
        (saying (Some now) (reached now held)) }
    ensures linked { result ≡ true →
        is_some (link_of C.cmp of_peers.old.entries peer.now) ≡ true }
    ensures unchanged { result ≡ false → of_peers.new.entries ≡ of_peers.old.entries }
{
    match of_peers.get_mut(peer) {
        Some(kept) => kept.reach(now),
        None => false,
    }
}
