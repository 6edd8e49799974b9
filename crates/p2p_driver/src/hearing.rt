//! What becomes of a link when its peer is heard, and what is said then.

ghost use Rattle.std.specs.Prelude.{◌≡◌, ◌≤◌, ◌+◌, ◌++◌, [], ◌∷◌};
ghost use Rattle.std.specs.Prelude.{ℕ, Option, IfSome, is_some, option_map};
ghost use Rattle.std.specs.Prelude.{true, false, if◌then◌else◌};
ghost use Rattle.std.specs.BTreeMap.{is_at};
ghost use Rattle.std.specs.Duration.{as_nanos};
ghost use Rattle.std.specs.Option.{IsSomeAnd};
ghost use Rattle.p2p_discovery.specs.declared.discovery.Info.{Info};
ghost use Rattle.p2p_tracker.specs.Calls.Call.{Connect};
ghost use Rattle.p2p_driver.specs.Links.{link_of, count_of, needs, has_room_at, asking, saying};
ghost use Rattle.p2p_driver.specs.Links.{is_to_ask, to_ask};
ghost use Rattle.p2p_driver.specs.Frames.{owed_after};
ghost use Rattle.p2p_driver.specs.Frames.Outcome.{Breaks, Greets, IsEarly, LacksChannel};
ghost use Rattle.p2p_driver.specs.Happenings.{asking_on, said_with};
ghost use Rattle.p2p_driver.specs.Hearing.{Follows};
ghost use Rattle.p2p_driver.specs.Questions.{asked_after, owed_with, IsNextQuestion};
ghost use Rattle.p2p_driver.specs.Steps.{IsBlocked, Makes, MakesFor, MayConnect};
ghost use Rattle.p2p_driver.specs.declared.links.Direction.{Direction};
ghost use Rattle.p2p_driver.specs.declared.links.Phase.TheVariants as Phase;
ghost use Rattle.p2p_driver.specs.declared.questions.Question.{Question};

use crate::actions::{Action, Actions, Breach, Event, Why};
use crate::link::Link;
use crate::links::{Asked, Links};
use crate::pace::Pace;
use crate::questions::Question;
use crate::{connections, questions, steps};
use p2p_directory::node::Node;
use p2p_directory::node::wire::Frames;
use p2p_discovery::codec::PublicKey;
use std::time::Duration;

// The peer broke a rule: its link is closed, and if memory suffices the peer is blocked, of which
// the application is told. It returns whether the block was accepted, if there was one.
pub(crate) fn break_off<C: PublicKey>(
    node: &mut Node<C>,
    links: &mut Links<C>,
    actions: &mut Actions<C>,
    peer: &C,
    breach: Breach,
    now: Duration,
) -> Option<bool>
    requires { needs links.old ≤ actions.old.room }
    ensures made { MakesFor C.cmp peer.now now (Breaks breach result) node.old node.new }
    ensures taken { IsBlocked C.cmp peer.now (as_nanos now) result node.old }
    ensures follows { (n owed : ℕ) → Follows {S = C.Signature} C.cmp n peer.now now owed
        (Breaks breach result) links.old links.new actions.old.items actions.new.items }
    ensures room { needs links.new + actions.old.room ≡ actions.new.room + needs links.old }
{
    if actions.reserve(1).is_err() {
        connections::shut(links, actions, peer, Why::Breach(breach));
        return None;
    }
    let blocked = steps::block(node, peer, now);
    connections::shut(links, actions, peer, Why::Breach(breach));
    match blocked {
        Some(true) => actions.push(Action::Told(Event::Blocked(*peer, breach))),
        _ => actions.give_back(1),
    }
    blocked
}

// An info is of the future: the link is closed.
pub(crate) fn shut_early<C: PublicKey>(
    links: &mut Links<C>,
    actions: &mut Actions<C>,
    peer: &C,
    now: Duration,
)
    requires { needs links.old ≤ actions.old.room }
    ensures follows { (n owed : ℕ) → Follows {S = C.Signature} C.cmp n peer.now now owed
        IsEarly links.old links.new actions.old.items actions.new.items }
    ensures room { needs links.new + actions.old.room ≡ actions.new.room + needs links.old }
{
    connections::shut(links, actions, peer, Why::Future);
}

// The peer sends a message on a channel that isn't in the settings: its link is closed.
pub(crate) fn shut_unknown<C: PublicKey>(
    links: &mut Links<C>,
    actions: &mut Actions<C>,
    peer: &C,
    now: Duration,
)
    requires { needs links.old ≤ actions.old.room }
    ensures follows { (n owed : ℕ) → Follows {S = C.Signature} C.cmp n peer.now now owed
        LacksChannel links.old links.new actions.old.items actions.new.items }
    ensures room { needs links.new + actions.old.room ≡ actions.new.room + needs links.old }
{
    connections::shut(links, actions, peer, Why::NoChannel);
}

// A frame is said on the link of a peer: if the queue of the link has room, and memory suffices.
// False, and nothing changes, if not.
pub(crate) fn say<C: PublicKey>(links: &mut Links<C>, pace: &Pace, peer: &C, now: Duration) -> bool
    ensures links { result ≡ true → (q : C) → link_of C.cmp links.new q ≡
        (if is_at (C.cmp peer.now) q then option_map (saying (Some now)) (link_of C.cmp links.old q)
        else link_of C.cmp links.old q) }
    ensures room { result ≡ true →
        has_room_at pace.now.queue (link_of C.cmp links.old peer.now) ≡ true }
    ensures unchanged { result ≡ false → links.new ≡ links.old }
    ensures counts { (way : Direction) → count_of way links.new ≡ count_of way links.old }
    ensures needs { needs links.new ≡ needs links.old }
    ensures to_ask { (tick t : ℕ) → to_ask tick t links.new ≡ to_ask tick t links.old }
{
    links.has_room(peer, pace.queue) && links.say(peer, now)
}

// The question that is due next for the peer of a link, which is said on it: if the queue of the
// link has room, and memory suffices. Else nothing changes.
fn say_question<C: PublicKey>(
    node: &Node<C>,
    links: &mut Links<C>,
    pace: &Pace,
    asked: &Asked,
    peer: &C,
    now: Duration,
) -> Option<Question>
    ensures next { IfSome result (λ question. IsNextQuestion C.cmp ⟦<C as Frames>⟧.wire
        pace.now.refresh asked.now question node.now) }
    ensures room { IfSome result (λ question.
        has_room_at pace.now.queue (link_of C.cmp links.old peer.now) ≡ true) }
    ensures links { (q : C) → link_of C.cmp links.new q ≡ (if is_at (C.cmp peer.now) q
        then option_map (saying (said_with now result)) (link_of C.cmp links.old q)
        else link_of C.cmp links.old q) }
    ensures counts { (way : Direction) → count_of way links.new ≡ count_of way links.old }
    ensures needs { needs links.new ≡ needs links.old }
    ensures to_ask { (tick t : ℕ) → to_ask tick t links.new ≡ to_ask tick t links.old }
{
    let question = questions::next(node, asked, pace.refresh)?;
    if say(links, pace, peer, now) {
        Some(question)
    } else {
        None
    }
}

// The peer of a link has greeted, and its info is applied: it is connected, as one that was dialled
// or not, told to be up, and asked, if the queue of its link has room, and memory suffices. There
// is room for three actions more than links need.
pub(crate) fn greet<C: PublicKey>(
    node: &mut Node<C>,
    links: &mut Links<C>,
    actions: &mut Actions<C>,
    pace: &Pace,
    asked: Asked,
    owed: usize,
    peer: &C,
    number: u64,
    dialer: bool,
    now: Duration,
)
    requires may { MayConnect C.cmp peer.now node.old }
    requires asked { IsSomeAnd (link_of C.cmp links.old peer.now) (λ held. held.asked ≡ asked) }
    requires fit { needs links.old + 3 ≤ actions.old.room }
    ensures made { Makes C.cmp (Connect peer.now dialer ∷ []) node.old node.new }
    ensures greets { (info : Info C C.Signature) → (question : Option Question)
        × IfSome question (λ question. IsNextQuestion C.cmp ⟦<C as Frames>⟧.wire
        pace.now.refresh asked question node.new)
        × IfSome question (λ question.
        has_room_at pace.now.queue (link_of C.cmp links.old peer.now) ≡ true)
        × Follows C.cmp number peer.now now
        (owed_after Phase.Greeting (Greets dialer info question) pace.now.owed owed)
        (Greets dialer info question) links.old links.new actions.old.items actions.new.items }
    ensures room { needs links.new + actions.old.room ≤ actions.new.room + needs links.old + 3 }
{
    steps::connect(node, peer, dialer);
    actions.push(Action::Told(Event::Up(Link(number), *peer)));
    match say_question(node, links, pace, &asked, peer, now) {
        Some(question) => {
            let owed = question.owed(owed, pace.owed);
            links.open(peer, now, owed, question.after(&asked, now));
            actions.push(Action::Send {
                link: Link(number),
                frame: question.frame,
            });
        }
        None => {
            links.open(peer, now, owed, questions::tried(&asked, now));
            actions.give_back(1);
        }
    }
}

// A question is due for the peer of an open link: it is asked, if the queue of its link has room,
// and memory suffices. It returns whether it was. There is room for one action more than links
// need.
pub(crate) fn ask<C: PublicKey>(
    node: &Node<C>,
    links: &mut Links<C>,
    actions: &mut Actions<C>,
    pace: &Pace,
    asked: Asked,
    owed: usize,
    peer: &C,
    number: u64,
    now: Duration,
) -> bool
    requires fit { needs links.old + 1 ≤ actions.old.room }
    ensures asks { (question : Option Question) × (is_some question ≡ result)
        × IfSome question (λ question. IsNextQuestion C.cmp ⟦<C as Frames>⟧.wire
        pace.now.refresh asked question node.now)
        × IfSome question (λ question.
        has_room_at pace.now.queue (link_of C.cmp links.old peer.now) ≡ true)
        × ((q : C) → link_of C.cmp links.new q ≡ (if is_at (C.cmp peer.now) q
        then option_map (λ h. asking (owed_with question pace.now.owed owed)
        (asked_after now question asked) (saying (said_with now question) h))
        (link_of C.cmp links.old q) else link_of C.cmp links.old q))
        × (actions.new.items ≡ actions.old.items ++ asking_on number question) }
    ensures counts { (way : Direction) → count_of way links.new ≡ count_of way links.old }
    ensures needs { needs links.new ≡ needs links.old }
    ensures room { actions.new.room + 1 ≡ actions.old.room }
    ensures fewer { (tick : ℕ) → let t = as_nanos now in
        IsSomeAnd (link_of C.cmp links.old peer.now) (λ h. is_to_ask tick t h ≡ true) →
        to_ask tick t links.new + 1 ≡ to_ask tick t links.old }
{
    match say_question(node, links, pace, &asked, peer, now) {
        Some(question) => {
            let owed = question.owed(owed, pace.owed);
            links.ask(peer, owed, question.after(&asked, now));
            actions.push(Action::Send {
                link: Link(number),
                frame: question.frame,
            });
            true
        }
        None => {
            links.ask(peer, owed, questions::tried(&asked, now));
            actions.give_back(1);
            false
        }
    }
}
