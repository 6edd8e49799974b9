//! The questions that a peer is asked on its link: which set is asked for next.

ghost use Rattle.std.specs.Prelude.{◌≡◌, [], None, Some, IfSome, slice_get};
ghost use Rattle.p2p_discovery.specs.declared.discovery.Payload.TheVariants.{Peers};
ghost use Rattle.p2p_driver.specs.Questions.{next_set, is_some_above, is_newest, is_full};
ghost use Rattle.p2p_driver.specs.Questions.{no_question, owed_with, asked_after, IsNextQuestion};

use crate::links::Asked;
use bytes::Bytes;
use p2p_directory::node::Node;
use p2p_directory::node::wire::Frames;
use p2p_discovery::codec::{PublicKey, Write};
use p2p_discovery::discovery::{Infos, Payload};
use p2p_tracker::directory::Directory;
use std::alloc::{AllocError, Global};
use std::time::Duration;

// A question for a peer.
#[derive(Debug, Drop)]
pub(crate) struct Question {
    // The index of the set that is asked for, or `None` if there is no set.
    pub(crate) index: Option<u64>,
    // Whether that is the newest set.
    pub(crate) newest: bool,
    // The bytes that are sent.
    pub(crate) frame: Bytes,
}

// The question that a peer is asked next, or `None` if an allocation fails.
pub(crate) fn next<C: PublicKey>(node: &Node<C>, asked: &Asked, refresh: u32) -> Option<Question>
    ensures { IfSome result (λ question. IsNextQuestion C.cmp ⟦<C as Frames>⟧.wire refresh
        asked.now question node.now) }
{
    let directory = node.directory();
    let place = next_place(directory, asked.index);
    let Some(index) = directory.set_index(place) else {
        return empty_list::<C>(directory.allocator());
    };
    let newest = is_newest(directory, index);
    let frame = if newest && is_full(refresh, asked.rounds) {
        node.ask_all(place)
    } else {
        node.ask(place)
    };
    match frame {
        Ok(Some(frame)) => Some(Question {
            index: Some(index),
            newest,
            frame,
        }),
        _ => None,
    }
}

// The position of the first retained set whose index is above this one, or else 0.
fn next_place<C: PublicKey>(directory: &Directory<C>, last: Option<u64>) -> usize
    ensures { slice_get directory.now.sets result ≡ next_set last directory.now.sets }
{
    for place in 0..directory.retained() {
        if is_above(directory.set_index(place), last) {
            return place;
        }
    }
    0
}

// Whether there is an index, and it is above the last one, if there is one.
fn is_above(index: Option<u64>, last: Option<u64>) -> bool
    ensures { result ≡ is_some_above last index }
{
    match index {
        Some(index) => match last {
            Some(last) => last < index,
            None => true,
        },
        None => false,
    }
}

// Whether the index is that of the newest set.
fn is_newest<C: PublicKey>(directory: &Directory<C>, index: u64) -> bool
    ensures { result ≡ is_newest directory.now.sets index }
{
    match directory.latest_set_index() {
        Some(latest) => latest == index,
        None => false,
    }
}

// Whether all infos of the newest set are asked for in the next round, after so many.
fn is_full(refresh: u32, rounds: u64) -> bool
    ensures { result ≡ is_full refresh rounds }
{
    0 < refresh && 0 < rounds && (rounds as u128 + 1) % refresh as u128 == 0
}

// The question if there is no set: the empty list. `None` if an allocation fails.
fn empty_list<C: PublicKey>(alloc: Global) -> Option<Question>
    ensures { IfSome result (λ question. question
        ≡ no_question (⟦<C as Frames>⟧.wire.spelling (Peers []))) }
{
    let infos = Infos::<C>::from_vec(Vec::new(alloc));
    match Payload::Peers(infos).encode(alloc) {
        Ok(frame) => Some(Question {
            index: None,
            newest: false,
            frame,
        }),
        Err(AllocError) => None,
    }
}

impl Question {
    // How many questions are owed once it is asked: one more, but at most so many.
    pub(crate) fn owed(&self, owed: usize, most: usize) -> usize
        ensures { result ≡ owed_with (Some self.now) most owed }
    {
        if self.index.is_none() {
            owed
        } else if owed < most {
            owed + 1
        } else {
            most
        }
    }

    // What is kept of a link's questions once it is asked.
    pub(crate) fn after(&self, asked: &Asked, now: Duration) -> Asked
        ensures { result ≡ asked_after now (Some self.now) asked.now }
    {
        let rounds = if self.newest {
            asked.rounds.saturating_add(1)
        } else {
            asked.rounds
        };
        Asked {
            at: now,
            index: self.index.or(asked.index),
            rounds,
        }
    }
}

// What is kept of a link's questions once one was due that isn't asked: an allocation failed, or
// the queue of its link has no room.
pub(crate) fn tried(asked: &Asked, now: Duration) -> Asked
    ensures { result ≡ asked_after now None asked.now }
{
    Asked {
        at: now,
        index: asked.index,
        rounds: asked.rounds,
    }
}
