//! The streams of a driver: room for what has to be said when one goes is promised when it comes.

ghost use Rattle.std.specs.Prelude.{◌≡◌, ◌≤◌, ◌+◌, ◌++◌, true, IfOk, OnErr, find, is_some, length};
ghost use Rattle.std.specs.Prelude.{ℕ, List, ◌∷◌, not, Some, None, IfSome};
ghost use Rattle.std.specs.List.{count_by, filter};
ghost use Rattle.std.specs.Duration.{as_nanos};
ghost use Rattle.p2p_driver.specs.Arrivals.{has_number, is_unclaimed, arrival_of, room_of, arrived};
ghost use Rattle.p2p_driver.specs.Arrivals.{claimed};
ghost use Rattle.p2p_driver.specs.Answers.{roomless, AreKept, MayAnswer, IsClaimRefusal};
ghost use Rattle.p2p_driver.specs.Happenings.{crowded_out, closing};

use crate::actions::{Action, Actions, Why};
use crate::answers::Answers;
use crate::arrivals::{Arrival, Arrivals, Room};
use crate::link::Link;
use crate::origin::Origin;
use crate::pace::Pace;
use std::alloc::AllocError;
use std::time::Duration;

// Takes a stream that comes, if there is room for it, and closes the one that gives way.
pub(crate) fn take<C: Copy>(
    arrivals: &mut Arrivals<C>,
    answers: &mut Answers,
    actions: &mut Actions<C>,
    pace: &Pace,
    number: u64,
    origin: Origin,
    now: Duration,
) -> Result<Room, AllocError>
    requires actions_fit { length arrivals.old ≤ actions.old.room }
    requires answers_fit { count_by is_unclaimed arrivals.old ≤ answers.old.room }
    ensures room { IfOk result (λ room.
        room_of pace.now (as_nanos now) arrivals.old origin ≡ room) }
    ensures arrivals { IfOk result (λ room.
        arrivals.new ≡ arrived (arrival_of number origin now) room arrivals.old) }
    ensures said { IfOk result (λ room.
        actions.new.items ≡ actions.old.items ++ crowded_out room) }
    ensures answers { roomless answers.new ≡ roomless answers.old }
    ensures err { OnErr result ((arrivals.new ≡ arrivals.old)
        × (actions.new.items ≡ actions.old.items)) }
    ensures actions_room { length arrivals.new + actions.old.room
        ≤ actions.new.room + length arrivals.old }
    ensures answers_room { count_by is_unclaimed arrivals.new ≤ answers.new.room }
{
    actions.reserve(1)?;
    if let Err(failed) = answers.reserve() {
        actions.give_back(1);
        return Err(failed);
    }
    match arrivals.arrive(number, origin, pace, now) {
        Err(failed) => {
            actions.give_back(1);
            answers.give_back();
            Err(failed)
        }
        Ok(Room::None) => {
            actions.give_back(1);
            answers.give_back();
            Ok(Room::None)
        }
        Ok(Room::Free) => Ok(Room::Free),
        Ok(Room::Of(crowded)) => {
            actions.push(Action::Close {
                link: Link(crowded),
                why: Why::Crowded,
            });
            answers.settle(arrivals.unclaimed());
            Ok(Room::Of(crowded))
        }
    }
}

// Closes a stream that there is.
pub(crate) fn close<C: Copy>(
    arrivals: &mut Arrivals<C>,
    answers: &mut Answers,
    actions: &mut Actions<C>,
    number: u64,
    why: Why,
)
    requires there { is_some (find (has_number number) arrivals.old) ≡ true }
    requires actions_fit { length arrivals.old ≤ actions.old.room }
    requires answers_fit { count_by is_unclaimed arrivals.old ≤ answers.old.room }
    ensures arrivals { arrivals.new ≡ filter (λ a. not (has_number number a)) arrivals.old }
    ensures said { actions.new.items ≡ actions.old.items ++ closing number why }
    ensures answers { roomless answers.new ≡ roomless answers.old }
    ensures actions_room { length arrivals.new + actions.old.room
        ≤ actions.new.room + length arrivals.old }
    ensures answers_room { count_by is_unclaimed arrivals.new ≤ answers.new.room }
{
    arrivals.remove(number);
    actions.push(Action::Close {
        link: Link(number),
        why,
    });
    answers.settle(arrivals.unclaimed());
}

// Keeps a stream that there is no longer. The room for its end stays.
pub(crate) fn leave<C: Copy>(arrivals: &mut Arrivals<C>, answers: &mut Answers, number: u64)
    requires there { is_some (find (has_number number) arrivals.old) ≡ true }
    requires answers_fit { count_by is_unclaimed arrivals.old ≤ answers.old.room }
    ensures arrivals { arrivals.new ≡ filter (λ a. not (has_number number a)) arrivals.old }
    ensures answers { roomless answers.new ≡ roomless answers.old }
    ensures fewer { length arrivals.new + 1 ≤ length arrivals.old }
    ensures answers_room { count_by is_unclaimed arrivals.new ≤ answers.new.room }
{
    arrivals.remove(number);
    answers.settle(arrivals.unclaimed());
}

// A stream that there is, and that hasn't claimed, claims to be the peer's: it goes on if the peer
// may come in and the rate of claims allows it, else it's closed. Why, if it's closed.
pub(crate) fn claim<C: Copy>(
    arrivals: &mut Arrivals<C>,
    answers: &mut Answers,
    actions: &mut Actions<C>,
    pace: &Pace,
    stream: Arrival<C>,
    peer: C,
    may: bool,
    now: Duration,
) -> Option<Why>
    requires there { find (has_number stream.number) arrivals.old ≡ Some stream }
    requires unclaimed { stream.claim ≡ None }
    requires actions_fit { length arrivals.old ≤ actions.old.room }
    requires answers_fit { count_by is_unclaimed arrivals.old ≤ answers.old.room }
    ensures claimed { result ≡ None → (may ≡ true)
        × (arrivals.new ≡ claimed stream.number peer arrivals.old)
        × (actions.new.items ≡ actions.old.items)
        × ((claims : List (ℕ × ℕ)) → AreKept pace.now (as_nanos now) claims answers.old →
        MayAnswer pace.now (as_nanos now) stream.origin.0 claims
        × AreKept pace.now (as_nanos now) ((stream.origin.0, as_nanos now) ∷ claims) answers.new) }
    ensures closed { IfSome result (λ why.
        (arrivals.new ≡ filter (λ a. not (has_number stream.number a)) arrivals.old)
        × (actions.new.items ≡ actions.old.items ++ closing stream.number why)
        × ((claims : List (ℕ × ℕ)) → AreKept pace.now (as_nanos now) claims answers.old →
        IsClaimRefusal pace.now (as_nanos now) stream.origin.0 claims may why
        × AreKept pace.now (as_nanos now) claims answers.new)) }
    ensures actions_room { length arrivals.new + actions.old.room
        ≤ actions.new.room + length arrivals.old }
    ensures answers_room { count_by is_unclaimed arrivals.new ≤ answers.new.room }
{
    if !may {
        close(arrivals, answers, actions, stream.number, Why::NotGranted);
        return Some(Why::NotGranted);
    }
    if answers.answer(stream.origin, pace, now) {
        arrivals.claim(stream.number, peer);
        return None;
    }
    arrivals.remove(stream.number);
    actions.push(Action::Close {
        link: Link(stream.number),
        why: Why::Crowded,
    });
    Some(Why::Crowded)
}
