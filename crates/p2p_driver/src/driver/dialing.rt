//! Dials of a driver.

ghost use Rattle.std.specs.Prelude.{◌≡◌, ◌≤◌, ◌+◌, true, length, max};
ghost use Rattle.std.specs.Duration.{as_nanos};
ghost use Rattle.p2p_driver.specs.Steps.{IsChosen};
ghost use Rattle.p2p_driver.specs.Timers.{NoneLate, NoneToAsk, NoneToDial, DialsOne, DialsAll};
ghost use Rattle.p2p_driver.specs.Timers.{is_to_dial, Begins, NoneCooled};

use crate::driver::{Driver, jitter};
use crate::rate::after;
use crate::{connections, steps};
use p2p_directory::laws::dialable_are_granted;
use p2p_directory::node::wire::Frames;
use p2p_discovery::codec::PublicKey;
use std::alloc::AllocError;
use std::time::Duration;

// What came of looking for somebody to dial.
#[derive(Clone, Copy, Debug, PartialEq, Eq)]
pub(crate) enum Dialed {
    // A dial began.
    Begun,
    // It isn't time, no dial has a place, or nobody may be dialled.
    Nobody,
    // Memory was refused.
    Memory,
}

impl<C: PublicKey> Driver<C> {
    // Dials somebody for each word, while somebody is to be dialled now. An error, if an allocation
    // fails for one.
    pub(crate) fn dial_all_due(&mut self, words: &[u64], now: Duration) -> Result<(), AllocError>
        requires { self.old.latest ≡ as_nanos now }
        ensures did { let wire = ⟦<C as Frames>⟧.wire in
            DialsAll C.cmp wire now words.now result self.old self.new }
        ensures none { self.old.pace.dials ≤ length words.now →
            NoneToDial (as_nanos now) self.new }
        ensures late { NoneLate C.cmp (as_nanos now) self.old →
            NoneLate C.cmp (as_nanos now) self.new }
        ensures to_ask { NoneToAsk C.cmp (as_nanos now) self.old →
            NoneToAsk C.cmp (as_nanos now) self.new }
        ensures kept { NoneCooled C.cmp (as_nanos now) self.old →
            NoneCooled C.cmp (as_nanos now) self.new }
        ensures same { NoneToDial (as_nanos now) self.old → self.new ≡ self.old }
    {
        let mut all = Ok(());
        'words: for word in words {
            if let Dialed::Memory = self.dial(*word, now) {
                all = Err(AllocError);
            }
        }
        all
    }

    // Looks for somebody to dial now, with a random word.
    fn dial(&mut self, word: u64, now: Duration) -> Dialed
        requires { self.old.latest ≡ as_nanos now }
        ensures { let wire = ⟦<C as Frames>⟧.wire in
            DialsOne C.cmp wire now word result self.old self.new }
    {
        if !self.is_to_dial(now) {
            return Dialed::Nobody;
        }
        let Ok(dialable) = steps::dialable(&self.node, now) else {
            self.next_dial.retry = retry(self.pace.tick, now);
            return Dialed::Memory;
        };
        let peers = dialable.peers.as_slice();
        if peers.is_empty() {
            self.next_dial.from = dialable.next_query_at;
            return Dialed::Nobody;
        }
        let peer = peers[(word % peers.len() as u64) as usize];
        if self.begin_dial(peer, word, now).is_err() {
            self.next_dial.retry = retry(self.pace.tick, now);
            return Dialed::Memory;
        }
        Dialed::Begun
    }

    // Whether somebody is to be dialled now.
    fn is_to_dial(&self, now: Duration) -> bool
        ensures { result ≡ is_to_dial (as_nanos now) self.now }
    {
        let Some(from) = self.next_dial.from else {
            return false;
        };
        let due = from.as_nanos().max(self.next_dial.retry);
        due <= now.as_nanos() && connections::has_dial_place(&self.links, &self.pace)
    }

    // Dials a peer that may be dialled now, with the jitter of a random word.
    fn begin_dial(&mut self, peer: C, word: u64, now: Duration) -> Result<(), AllocError>
        requires time { self.old.latest ≡ as_nanos now }
        requires due { is_to_dial (as_nanos now) self.old ≡ true }
        requires chosen { IsChosen C.cmp (as_nanos now) word peer self.old.node }
        ensures { let wire = ⟦<C as Frames>⟧.wire in
            Begins C.cmp wire now word peer result self.old self.new }
    {
        // For the proof: whoever may be dialled is granted.
        dialable_are_granted::<C>();
        let number = self.next;
        let next = number.checked_add(1).ok_or(AllocError)?;
        let _ingress = connections::dial(
            &mut self.node,
            &mut self.reads,
            &mut self.links,
            &mut self.next_dial.grants,
            &mut self.actions,
            peer,
            number,
            self.pace.channels.as_slice(),
            now,
            jitter(self.cooldown, word),
        )?;
        self.next = next;
        self.next_dial.from = Some(Duration::ZERO);
        Ok(())
    }
}

// From when on it is tried again since memory was refused: a tick later, which takes some time.
fn retry(tick: Duration, now: Duration) -> u128
    ensures { result ≡ as_nanos now + max (as_nanos tick) 1 }
{
    let shortest = Duration::from_nanos(1);
    after(now, tick).max(after(now, shortest))
}
