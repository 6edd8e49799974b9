//! What a driver does when time passes.

ghost use Rattle.std.specs.Prelude.{ℕ, ◌≡◌, ◌≤◌, ◌<◌, true, false, max, Option, option_map};
ghost use Rattle.std.specs.Prelude.{length};
ghost use Rattle.std.specs.Prelude.{IfSome};
ghost use Rattle.std.specs.Duration.{as_nanos, max_nanos};
ghost use Rattle.std.specs.Option.{IsSomeAnd};
ghost use Rattle.p2p_driver.specs.Drivers.{Does};
ghost use Rattle.p2p_driver.specs.Happenings.Happening.{Passed};
ghost use Rattle.p2p_driver.specs.Links.{link_of, is_to_ask};
ghost use Rattle.p2p_driver.specs.Timers.{NoneLate, NoneToAsk, NoneDue, IsAsBefore};
ghost use Rattle.p2p_driver.specs.Timers.{ClosesOne, ClosesLate, AsksOne, AsksAll, TimesOut};
ghost use Rattle.p2p_driver.specs.Timers.{earlier, held_moment, IsNextTimeout, NoneToDial};
ghost use Rattle.p2p_driver.specs.Timers.{dial_due};

use crate::actions::Why;
use crate::driver::{Driver, later};
use crate::link::Now;
use crate::rate::saturated;
use crate::{connections, hearing, questions, steps, streams};
use p2p_directory::node::wire::Frames;
use p2p_discovery::codec::PublicKey;
use std::alloc::AllocError;
use std::time::Duration;

impl<C: PublicKey> Driver<C> {
    /// Does what is due: cooldowns are forgotten and blocks end whose time is over, and each
    /// stream that is late is closed as `Slow`: one that hasn't claimed in time, or hasn't been
    /// proved in time. So is each link whose peer hasn't greeted in time, or of which a frame isn't
    /// written within `silence` after it was said. A link whose peer wasn't heard for too long is
    /// closed as `Silent`: after its greeting, or while it waits for its verdict.
    ///
    /// Each peer whose link is open, and for which a question was due a `tick` ago, is asked for
    /// the infos that are wanted of the next set: that with the next greater index than the one
    /// that it was asked for last, or else with the least. Each `refresh`-th round of the newest
    /// set asks for all its infos, but the first doesn't. If there is no set, the empty list is
    /// sent. A peer isn't asked if `queue` frames of its link were said and aren't written: it is
    /// as if it had been, and the next question is due a `tick` later.
    ///
    /// The grant of a dial that came to nothing is kept until its cooldown is over: then its peer
    /// is released.
    ///
    /// While a dial has a place, by `links`, `outbound` and `dials` of the settings, and somebody
    /// may be dialled, by [`Directory::dialable`](p2p_tracker::directory::Directory::dialable), one
    /// of these is, for each random word: it says which one, and the jitter.
    ///
    /// None of these is due afterwards if there are at least `dials` words: then
    /// [`Driver::next_timeout`] is later than now, unless that is the greatest `Duration`, or peers
    /// need no time to cool. Before the time that it returns, nothing is due: only the time goes
    /// on.
    ///
    /// # Errors
    ///
    /// `AllocError` if an allocation fails for a question: it is as if it had been asked, and the
    /// next one is due a `tick` later. So it is if one fails for a dial: nobody is dialled for a
    /// `tick`. All else is done.
    ///
    /// # Cost
    ///
    /// One pass over the grants of dials for each that is given up, and one more. One pass over the
    /// streams and the links for each that is closed, and three more. Some searches among the links
    /// and that of [`Node::ask`](p2p_directory::node::Node::ask) for each that is asked. That of
    /// [`Node::forget_cooled`](p2p_directory::node::Node::forget_cooled), and that of
    /// [`Node::unblock_expired`](p2p_directory::node::Node::unblock_expired). For each word two
    /// passes over the links, if it is time to dial; then, if a dial has a place, that of
    /// [`Directory::dialable`](p2p_tracker::directory::Directory::dialable); and then, if somebody
    /// may be dialled, that of [`Node::dial`](p2p_directory::node::Node::dial).
    pub fn timeout(&mut self, words: &[u64], now: Now) -> Result<(), AllocError>
        ensures did { let wire = ⟦<C as Frames>⟧.wire in
            TimesOut C.cmp wire (as_nanos now.steady) words.now result self.old self.new }
        ensures done { NoneDue C.cmp (max self.old.latest (as_nanos now.steady)) self.new }
        ensures dialed { self.old.pace.dials ≤ length words.now →
            NoneToDial (max self.old.latest (as_nanos now.steady)) self.new }
        ensures later { let t = max self.old.latest (as_nanos now.steady) in t < max_nanos →
            self.old.pace.dials ≤ length words.now → 0 < self.old.cooldown →
            (next : Option ℕ) → IsNextTimeout C.cmp self.new next → IfSome next (λ n. t < n) }
        ensures early { let t = max self.old.latest (as_nanos now.steady) in
            (next : Option ℕ) → IsNextTimeout C.cmp self.old next → IfSome next (λ n. t < n) →
            IsAsBefore C.cmp t self.old self.new }
    {
        let now = later(self.latest, now.steady);
        self.pass(now);
        self.close_all_late(now);
        let asked = self.ask_all_due(now);
        self.free_all_cooled(now);
        let dialed = self.dial_all_due(words, now);
        asked.and(dialed)
    }

    /// When something is due next, a steady time: a stream or a link is late, a peer is to be
    /// asked, a block or a cooldown ends, that of a grant that is kept too, or somebody may be
    /// dialled. `None` if there is nothing that may become due. A moment above the greatest
    /// `Duration` is that one. It doesn't allocate, and changes nothing.
    ///
    /// # Cost
    ///
    /// One pass over the streams, some over the links, and one over the grants of dials with a
    /// search among the links for each.
    pub fn next_timeout(&self) -> Option<Duration>
        ensures { IsNextTimeout C.cmp self.now (option_map as_nanos result) }
    {
        let stream = self.arrivals.next_late(&self.pace);
        let link = self.links.next_due(&self.pace);
        let block = self.node.directory().next_unblock();
        let cooldown = self.node.next_cooled();
        let kept = self
            .next_dial
            .grants
            .next_cooled(&self.links, self.cooldown);
        earlier(
            earlier(moment(self.dial_due()), moment(kept)),
            earlier(
                earlier(moment(stream), moment(link)),
                earlier(block, cooldown),
            ),
        )
    }

    // From when on somebody may be dialled, in nanoseconds, if somebody may.
    fn dial_due(&self) -> Option<u128>
        ensures { result ≡ dial_due self.now }
    {
        let from = self.next_dial.from?;
        if connections::has_dial_place(&self.links, &self.pace) {
            Some(from.as_nanos().max(self.next_dial.retry))
        } else {
            None
        }
    }

    // Ends what ends by now: cooldowns and blocks.
    fn pass(&mut self, now: Duration)
        requires { self.old.latest ≤ as_nanos now }
        ensures did { let wire = ⟦<C as Frames>⟧.wire in
            Does C.cmp wire (Passed now) self.old self.new }
        ensures latest { self.new.latest ≡ as_nanos now }
        ensures rest { self.new ≡ record self.old { node = self.new.node; latest = as_nanos now } }
    {
        steps::pass(&mut self.node, now);
        self.latest = now;
    }

    // Closes each stream and each link that is late now.
    fn close_all_late(&mut self, now: Duration)
        requires { self.old.latest ≡ as_nanos now }
        ensures did { let wire = ⟦<C as Frames>⟧.wire in
            ClosesLate C.cmp wire now self.old self.new }
        ensures none { NoneLate C.cmp (as_nanos now) self.new }
        ensures same { NoneLate C.cmp (as_nanos now) self.old → self.new ≡ self.old }
    {
        'late: while self.close_late(now) {}
    }

    // Closes the first stream that is late now, or if none is, the first such link. False if there
    // is none either.
    fn close_late(&mut self, now: Duration) -> bool
        requires { self.old.latest ≡ as_nanos now }
        ensures one { let wire = ⟦<C as Frames>⟧.wire in result ≡ true →
            ClosesOne C.cmp wire now self.old self.new }
        ensures same { result ≡ false → self.new ≡ self.old }
        ensures none { result ≡ false → NoneLate C.cmp (as_nanos now) self.new }
        ensures late { result ≡ true → ¬ (NoneLate C.cmp (as_nanos now) self.old) }
    {
        if let Some(number) = self.arrivals.late(&self.pace, now) {
            streams::close(
                &mut self.arrivals,
                &mut self.answers,
                &mut self.actions,
                number,
                Why::Slow,
            );
            return true;
        }
        if let Some(peer) = self.links.late(&self.pace, now) {
            let why = connections::why_late(&self.links, &peer);
            connections::shut(&mut self.links, &mut self.actions, &peer, why);
            return true;
        }
        false
    }

    // Asks each peer that is to be asked now. An error, if an allocation fails for one.
    fn ask_all_due(&mut self, now: Duration) -> Result<(), AllocError>
        requires { self.old.latest ≡ as_nanos now }
        ensures did { let wire = ⟦<C as Frames>⟧.wire in
            AsksAll C.cmp wire now result self.old self.new }
        ensures none { NoneToAsk C.cmp (as_nanos now) self.new }
        ensures late { NoneLate C.cmp (as_nanos now) self.old →
            NoneLate C.cmp (as_nanos now) self.new }
        ensures same { NoneToAsk C.cmp (as_nanos now) self.old → self.new ≡ self.old }
    {
        let mut all = Ok(());
        let mut last = None;
        'due: while let Some(peer) = self.links.to_ask_from(last, self.pace.tick, now) {
            last = Some(peer);
            if !self.ask(&peer, now) {
                all = Err(AllocError);
            }
        }
        all
    }

    // Asks a peer that is to be asked now, if the queue of its link has room. False if an
    // allocation fails.
    fn ask(&mut self, peer: &C, now: Duration) -> bool
        requires time { self.old.latest ≡ as_nanos now }
        requires due { IsSomeAnd (link_of C.cmp self.old.links peer.now) (λ held.
            is_to_ask (as_nanos self.old.pace.tick) (as_nanos now) held ≡ true) }
        ensures { let wire = ⟦<C as Frames>⟧.wire in
            AsksOne C.cmp wire now result self.old self.new }
    {
        let Some(held) = self.links.get(peer) else {
            return false;
        };
        let (number, owed, asked) = (held.number, held.owed, held.asked);
        if !held.has_room(self.pace.queue) {
            self.links.ask(peer, owed, questions::tried(&asked, now));
            return true;
        }
        if self.actions.reserve(1).is_err() {
            self.links.ask(peer, owed, questions::tried(&asked, now));
            return false;
        }
        hearing::ask(
            &self.node,
            &mut self.links,
            &mut self.actions,
            &self.pace,
            asked,
            owed,
            peer,
            number,
            now,
        )
    }
}

// The earlier of two moments, if there are some.
fn earlier(one: Option<Duration>, other: Option<Duration>) -> Option<Duration>
    ensures { option_map as_nanos result
        ≡ earlier (option_map as_nanos one) (option_map as_nanos other) }
{
    let Some(moment) = one else {
        return other;
    };
    match other {
        Some(other) if other.as_nanos() < moment.as_nanos() => Some(other),
        _ => Some(moment),
    }
}

// The moment of so many nanoseconds, if there is one.
fn moment(nanos: Option<u128>) -> Option<Duration>
    ensures { option_map as_nanos result ≡ held_moment nanos }
{
    match nanos {
        Some(nanos) => Some(saturated(nanos)),
        None => None,
    }
}
