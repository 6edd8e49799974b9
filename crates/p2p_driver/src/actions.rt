//! What a host does next.

ghost use Rattle.std.specs.Prelude.{ℕ, ◌≡◌, ◌≤◌, ◌<◌, ◌+◌, ◌-◌, [], ◌∷◌, ◌++◌, length, None};
ghost use Rattle.std.specs.Prelude.{OnOk, OnErr};
ghost use Rattle.std.specs.List.{count_by};
ghost use Rattle.std.specs.Option.{option_to_list};
ghost use Rattle.p2p_driver.specs.Actions.{is_of_link, is_sent_on, is_told_of};

use crate::link::Link;
use bytes::Bytes;
use p2p_discovery::codec::CodecError;
use p2p_discovery::discovery::Error;
use p2p_discovery::types::Ingress;
use std::alloc::{AllocError, Global};
use std::collections::VecDeque;
use std::marker::Model;

/// What a host does next.
#[derive(Debug, Drop)]
pub enum Action<C> {
    /// It connects to the peer at the address, and authenticates it as that peer.
    Dial {
        /// Which link.
        link: Link,
        /// The peer.
        peer: C,
        /// Its address.
        ingress: Ingress,
    },
    /// It sends the frame on the link.
    Send {
        /// On which link.
        link: Link,
        /// The bytes that are sent.
        frame: Bytes,
    },
    /// It closes the link, or gives the dial up.
    Close {
        /// Which link.
        link: Link,
        /// Why.
        why: Why,
    },
    /// It tells the application.
    Told(Event<C>),
}

/// What the application is told.
#[derive(Clone, Copy, Debug, PartialEq, Eq)]
pub enum Event<C> {
    /// The link to the peer is up.
    Up(Link, C),
    /// The link to the peer, which was up, is no longer: why it was closed, or `None` if it ended.
    Down(Link, C, Option<Why>),
    /// The peer is blocked, since it broke a rule.
    Blocked(C, Breach),
}

/// Why a link or a stream is closed.
#[derive(Clone, Copy, Debug, PartialEq, Eq)]
pub enum Why {
    /// Others need its place, or too many claims were answered.
    Crowded,
    /// A claim, a proof or a greeting came too late, a dial took too long, or a frame wasn't
    /// written in time.
    Slow,
    /// Nothing was heard of its peer for too long.
    Silent,
    /// The peer proved as another key than it claimed, or than was dialled, or without a claim.
    WrongKey,
    /// The peer isn't let in now.
    NotGranted,
    /// The peer is in no retained set any more.
    NoSet,
    /// The peer is blocked.
    Blocked,
    /// The peer's info is of the future.
    Future,
    /// The peer sends a message on a channel that isn't in the settings.
    NoChannel,
    /// The application wants it closed.
    Application,
    /// The peer broke a rule.
    Breach(Breach),
}

/// Which rule a peer broke.
#[derive(Clone, Copy, Debug, PartialEq, Eq)]
pub enum Breach {
    /// Its first frame is no greeting, or longer than one may be.
    NoGreeting,
    /// It greeted with the info of another key.
    OtherGreeting,
    /// It greeted a second time.
    SecondGreeting,
    /// Its frame is longer than what it is may be.
    FrameLength,
    /// Its bytes are no message.
    Codec(CodecError),
    /// Its message has bits that fit no set.
    Malformed,
    /// It sent an info that is refused, or too many.
    Invalid(Error),
}

/// The actions that wait, the first in first, and the room that is promised for more of them. A
/// contract sees both. Actions are added and taken without an allocation, which `reserve` makes
/// beforehand.
#[derive(Drop)]
pub struct Actions<C> {
    waiting: VecDeque<Action<C>>,
    promised: usize,
}

impl<C> Model for Actions<C> {
    ghost use Rattle.std.specs.Prelude.{◌≤◌, ◌+◌};
    ghost use Rattle.std.specs.VecDeque.{deque_len, deque_capacity};
    ghost use Rattle.p2p_driver.specs.Actions.{ActionsView};

    ghost Value = { ActionsView C };

    ghost view = { λ a. record { items = a.waiting.items; room = a.promised } };

    ghost invariant = { λ a. deque_len a.waiting + a.promised ≤ deque_capacity a.waiting };
}

impl<C> Actions<C> {
    /// No action waits, and no room is promised. It doesn't allocate.
    pub fn new(alloc: Global) -> Self
        ensures items { result.items ≡ [] }
        ensures room { result.room ≡ 0 }
    {
        Actions {
            waiting: VecDeque::new(alloc),
            promised: 0,
        }
    }

    /// Promises room for so many more actions. Those that wait stay.
    ///
    /// # Errors
    ///
    /// `AllocError` if an allocation fails. Nothing changes then.
    ///
    /// # Cost
    ///
    /// The actions that wait may be moved once.
    pub fn reserve(&mut self, count: usize) -> Result<(), AllocError>
        ensures items { OnOk result (self.new.items ≡ self.old.items) }
        ensures room { OnOk result (self.new.room ≡ self.old.room + count) }
        ensures err { OnErr result (self.new ≡ self.old) }
    {
        let Some(promised) = self.promised.checked_add(count) else {
            return Err(AllocError);
        };
        self.waiting.reserve(promised)?;
        self.promised = promised;
        Ok(())
    }

    /// Adds an action, the last one, in room that was promised for it. It doesn't allocate.
    pub fn push(&mut self, action: Action<C>)
        requires { 0 < self.old.room }
        ensures items { self.new.items ≡ self.old.items ++ action ∷ [] }
        ensures room { self.new.room + 1 ≡ self.old.room }
    {
        self.promised -= 1;
        self.waiting.push_back_reserved(action);
    }

    /// Gives back the room for so many actions, which isn't needed. Those that wait stay.
    pub fn give_back(&mut self, count: usize)
        requires { count ≤ self.old.room }
        ensures items { self.new.items ≡ self.old.items }
        ensures room { self.new.room + count ≡ self.old.room }
    {
        self.promised -= count;
    }

    /// Takes the first action, or returns `None` if none waits. The room that is promised stays. It
    /// doesn't allocate.
    pub fn pop(&mut self) -> Option<Action<C>>
        ensures items { option_to_list result ++ self.new.items ≡ self.old.items }
        ensures none { result ≡ None → self.old.items ≡ [] }
        ensures room { self.new.room ≡ self.old.room }
    {
        self.waiting.pop_front()
    }

    /// How many actions wait that are of a link: what is sent on it, its close, and what is told of
    /// it. It doesn't allocate.
    ///
    /// # Cost
    ///
    /// One pass over the actions that wait.
    pub fn count_of(&self, link: Link) -> usize
        ensures { result ≡ count_by (is_of_link link.0) self.now.items }
    {
        self.waiting
            .iter()
            .filter(|action| is_of(action, link))
            .count()
    }

    /// How many frames wait that are to be sent on a link. It doesn't allocate.
    ///
    /// # Cost
    ///
    /// One pass over the actions that wait.
    pub fn sends_on(&self, link: Link) -> usize
        ensures { result ≡ count_by (is_sent_on link.0) self.now.items }
    {
        self.waiting
            .iter()
            .filter(|action| is_sent_on(action, link))
            .count()
    }

    /// How many actions wait.
    pub fn len(&self) -> usize
        ensures { result ≡ length self.now.items }
    {
        self.waiting.len()
    }
}

// Whether a frame is sent on a link.
fn is_sent_on<C>(action: &Action<C>, link: Link) -> bool
    ensures { result ≡ is_sent_on link.0 action.now }
{
    match action {
        Action::Send {
            link: other,
            frame: _,
        } => other.0 == link.0,
        _ => false,
    }
}

// Whether an action is of a link.
fn is_of<C>(action: &Action<C>, link: Link) -> bool
    ensures { result ≡ is_of_link link.0 action.now }
{
    match action {
        Action::Dial {
            link: other,
            peer: _,
            ingress: _,
        } => other.0 == link.0,
        Action::Send {
            link: other,
            frame: _,
        } => other.0 == link.0,
        Action::Close {
            link: other,
            why: _,
        } => other.0 == link.0,
        Action::Told(event) => is_told_of(event, link),
    }
}

// Whether it is told of a link.
fn is_told_of<C>(event: &Event<C>, link: Link) -> bool
    ensures { result ≡ is_told_of link.0 event.now }
{
    match event {
        Event::Up(other, _) => other.0 == link.0,
        Event::Down(other, _, _) => other.0 == link.0,
        Event::Blocked(_, _) => false,
    }
}
