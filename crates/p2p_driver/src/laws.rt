//! Laws of drivers, over what they did.

ghost use Rattle.std.specs.Prelude.{ℕ, ◌≡◌, ◌≤◌, ◌&&◌, not, if◌then◌else◌, true, List, ◌∷◌, ◌++◌};
ghost use Rattle.std.specs.Prelude.{◌<◌, ◌+◌, ◌-◌, ◌*◌, false, length, map, Some, None, is_some};
ghost use Rattle.std.specs.Prelude.{Option, [], option_map, drop, max, ◌||◌};
ghost use Rattle.std.specs.Duration.{as_nanos};
ghost use Rattle.std.specs.Int.NonZero.{non_zero_u32_get};
ghost use Rattle.std.specs.List.{Contains, count_by};
ghost use Rattle.std.specs.Option.{IsSomeAnd};
ghost use Rattle.p2p_discovery.specs.Ordered.{has_key};
ghost use Rattle.p2p_tracker.specs.Calls.Call.{Block};
ghost use Rattle.p2p_tracker.specs.History.{is_entitled, same};
ghost use Rattle.p2p_tracker.specs.Status.{is_active};
ghost use Rattle.p2p_directory.specs.Held.{held_of};
ghost use Rattle.p2p_directory.specs.Laws.Grants.{NeverGoBack};
ghost use Rattle.p2p_directory.specs.Laws.Steps.{is_busy_in};
ghost use Rattle.p2p_directory.specs.Nodes.{NodeStandsAt};
ghost use Rattle.p2p_directory.specs.Run.{world_after};
ghost use Rattle.p2p_driver.specs.Arrivals.{is_of};
ghost use Rattle.p2p_driver.specs.Happenings.{Happening, calls_of, latest_at, link_count};
ghost use Rattle.p2p_driver.specs.Happenings.{inbound_count, outbound_count, dial_count};
ghost use Rattle.p2p_driver.specs.Happenings.{next_at, stream_at, said, says_by, taken};
ghost use Rattle.p2p_driver.specs.Happenings.{answered_in};
ghost use Rattle.p2p_driver.specs.Happenings.Happening.{Arrived, SetCame, Claimed, Refused, Heard};
ghost use Rattle.p2p_driver.specs.Frames.{Cause, Outcome};
ghost use Rattle.p2p_driver.specs.Links.{link_of, closed, is_dialing};
ghost use Rattle.p2p_driver.specs.Laws.{Begins, closes, is_served, is_set, HasGreeted};
ghost use Rattle.p2p_driver.specs.Laws.{has_greeted, cut_by, Blames, bare, asked_on, lists_on};
ghost use Rattle.p2p_driver.specs.Laws.{is_head, first_on, said_since, written_since};
ghost use Rattle.p2p_driver.specs.Reading.{rate_at, frames_read};
ghost use Rattle.p2p_driver.specs.Drivers.{DriverView, Base, DriverStandsAt, AreRight, link};
ghost use Rattle.p2p_driver.specs.Drivers.{IsRight, may_come, no_proof, kept};
ghost use Rattle.p2p_driver.specs.Grants.{kept_grant};
ghost use Rattle.p2p_driver.specs.declared.arrivals.Room.TheVariants as Room;
ghost use Rattle.p2p_driver.specs.Answers.{times_of};
ghost use Rattle.p2p_driver.specs.Rates.{count_in};

use crate::actions::Why;
use crate::links::{Held, Phase, Waiting};
use crate::origin::Origin;
use crate::rate::Rate;
use p2p_directory::node::wire::Frames;
use p2p_discovery::codec::PublicKey;
use std::time::Duration;

/// By a law of drivers, there is one link or one kept grant for each reservation, whatever a driver
/// did that it might do. Its node retains a set or more.
///
/// - By what it did, a peer has a link, or the grant of a dial is kept of it, exactly if it is
///   reserved or connected in the world that the calls of its node make. It never has both.
/// - It is connected there exactly if it has a link on which it has greeted.
/// - The node of a driver that did it holds reservations of exactly the peers that have a link, or
///   of which a grant is kept.
/// - The links that the driver keeps are those by what it did, and so are the grants.
/// - The calls are accepted calls of the node, so all laws of runs hold of them.
/// - Their moments never go back.
pub fn links_are_reservations<C: PublicKey>()
    ensures world { (b : Base C C.Signature) → b.made.directory.cmp ≡ C.cmp →
        1 ≤ b.made.directory.max_sets → (h : List (Happening C C.Signature)) → AreRight b h →
        (p : C) → (is_some (link b p h) || is_some (kept b p h))
        ≡ is_busy_in (world_after b.made.directory (calls_of h)) p }
    ensures one { (b : Base C C.Signature) (h : List (Happening C C.Signature)) (p : C) →
        (is_some (link b p h) && is_some (kept b p h)) ≡ false }
    ensures connected { (b : Base C C.Signature) → b.made.directory.cmp ≡ C.cmp →
        1 ≤ b.made.directory.max_sets → (h : List (Happening C C.Signature)) → AreRight b h →
        (p : C) → let s = b.made.directory in
        is_active ((world_after s (calls_of h)).peer p).status
        ≡ (is_some (link b p h) && has_greeted s p h) }
    ensures held { (b : Base C C.Signature) → b.made.directory.cmp ≡ C.cmp →
        1 ≤ b.made.directory.max_sets → (h : List (Happening C C.Signature))
        (v : DriverView C C.Signature) → DriverStandsAt b h v → (p : C) →
        is_some (held_of C.cmp v.node.held p) ≡ (is_some (link_of C.cmp v.links p)
        || is_some (kept_grant C.cmp v.links v.next_dial.grants p)) }
    ensures kept { (b : Base C C.Signature) → b.made.directory.cmp ≡ C.cmp →
        (h : List (Happening C C.Signature)) (v : DriverView C C.Signature) →
        DriverStandsAt b h v → (p : C) → (link_of C.cmp v.links p ≡ link b p h)
        × (kept_grant C.cmp v.links v.next_dial.grants p ≡ kept b p h) }
    ensures run { (b : Base C C.Signature) (h : List (Happening C C.Signature))
        (v : DriverView C C.Signature) → DriverStandsAt b h v →
        NodeStandsAt b.made (calls_of h) v.node }
    ensures in_time { (b : Base C C.Signature) (h : List (Happening C C.Signature)) →
        AreRight b h → NeverGoBack b.made.directory (latest_at h) (calls_of h) }
{}

/// By a law of drivers, each link has a number of its own, whatever it did that it might do.
///
/// - No stream that came in and whose key isn't proved has the number of a link, and it is lower
///   than that of the next stream or dial.
/// - Two links with one number are of one peer.
pub fn one_link<C: PublicKey>()
    ensures proved { (b : Base C C.Signature) (h : List (Happening C C.Signature)) →
        AreRight b h → (p : C) (held : Held) → link b p h ≡ Some held →
        (stream_at held.number h ≡ None) × (held.number < next_at h) }
    ensures one { (b : Base C C.Signature) → b.made.directory.cmp ≡ C.cmp →
        (h : List (Happening C C.Signature)) → AreRight b h → (p q : C) (held other : Held) →
        link b p h ≡ Some held → link b q h ≡ Some other → held.number ≡ other.number →
        same b.made.directory p q ≡ true }
{}

/// By a law of drivers, a set of peers that is accepted closes at once the links of those that it
/// tears down.
///
/// - It tears down exactly those peers with a link, or of which a grant is kept, that were entitled
///   before it, and aren't after it. A peer is entitled if a retained set names it or it is a
///   bootstrapper. The node retains a set or more.
/// - The link of each of these is closing then, and every other link is as before.
/// - If it wasn't closing before, its close is said.
///
/// It closes at once the link of a peer that the application blocks or parts from, that broke a
/// rule, or that sent an info of the future, and a dial whose stream is proved to be another's.
///
/// - If that peer has a link, it is closing then.
/// - If it wasn't closing before, its close is said, for that reason.
pub fn closed_at_once<C: PublicKey>()
    ensures torn { (b : Base C C.Signature) → b.made.directory.cmp ≡ C.cmp →
        1 ≤ b.made.directory.max_sets → (h : List (Happening C C.Signature))
        (t : Duration) (index : ℕ) (primary secondary torn : List C) →
        let s = b.made.directory in let e = SetCame t index primary secondary torn in
        AreRight b (e ∷ h) → (p : C) → has_key s.cmp torn p
        ≡ ((is_some (link b p h) || is_some (kept b p h))
        && is_entitled s p (world_after s (calls_of h)).sets
        && not (is_entitled s p (world_after s (calls_of (e ∷ h))).sets)) }
    ensures closing { (b : Base C C.Signature) (h : List (Happening C C.Signature))
        (t : Duration) (index : ℕ) (primary secondary torn : List C) (p : C) →
        let e = SetCame t index primary secondary torn in
        link b p (e ∷ h) ≡ (if has_key b.made.directory.cmp torn p
        then option_map closed (link b p h) else link b p h) }
    ensures said { (b : Base C C.Signature) → b.made.directory.cmp ≡ C.cmp →
        (h : List (Happening C C.Signature))
        (t : Duration) (index : ℕ) (primary secondary torn : List C) (p : C) (held : Held) →
        let s = b.made.directory in let e = SetCame t index primary secondary torn in
        has_key s.cmp torn p ≡ true → link b p h ≡ Some held → ¬ (held.phase ≡ Phase.Closing) →
        Contains (says_by s b.greeting h e) (closes held.number Why.NoSet) }
    ensures cut { (b : Base C C.Signature) (h : List (Happening C C.Signature))
        (e : Happening C C.Signature) (p : C) (why : Why) →
        cut_by b.made.directory p e ≡ Some why →
        link b p (e ∷ h) ≡ option_map closed (link b p h) }
    ensures cut_said { (b : Base C C.Signature) → b.made.directory.cmp ≡ C.cmp →
        (h : List (Happening C C.Signature)) (e : Happening C C.Signature) (p : C) (why : Why)
        (held : Held) → let s = b.made.directory in cut_by s p e ≡ Some why →
        link b p h ≡ Some held → ¬ (held.phase ≡ Phase.Closing) →
        Contains (says_by s b.greeting h e) (closes held.number why) }
{}

/// By a law of drivers, no more is kept than the settings say, whatever it did that it might do.
///
/// - There are at most `links` links. At most `inbound` are inbound, and at most `outbound` are
///   outbound, of which at most `dials` are dials whose streams aren't proved.
/// - A driver keeps as many links as there are by what it did.
/// - It keeps at most `arrivals` streams that aren't proved, at most `by_address` of each origin.
pub fn budget<C: PublicKey>()
    ensures links { (b : Base C C.Signature) (h : List (Happening C C.Signature)) →
        AreRight b h → link_count h ≤ b.pace.links }
    ensures inbound { (b : Base C C.Signature) (h : List (Happening C C.Signature)) →
        AreRight b h → inbound_count h ≤ b.pace.inbound }
    ensures outbound { (b : Base C C.Signature) (h : List (Happening C C.Signature)) →
        AreRight b h → outbound_count h ≤ b.pace.outbound }
    ensures dials { (b : Base C C.Signature) (h : List (Happening C C.Signature)) →
        AreRight b h → dial_count h ≤ b.pace.dials }
    ensures kept { (b : Base C C.Signature) (h : List (Happening C C.Signature))
        (v : DriverView C C.Signature) → DriverStandsAt b h v → length v.links ≡ link_count h }
    ensures arrivals { (b : Base C C.Signature) (h : List (Happening C C.Signature))
        (v : DriverView C C.Signature) → DriverStandsAt b h v →
        length v.arrivals ≤ b.pace.arrivals }
    ensures by_address { (b : Base C C.Signature) (h : List (Happening C C.Signature))
        (v : DriverView C C.Signature) → DriverStandsAt b h v → (origin : Origin) →
        count_by (is_of origin) v.arrivals ≤ b.pace.by_address }
{}

/// By a law of drivers, a stream that gives way to another one came longer ago than `grace`.
pub fn grace_is_kept<C: PublicKey>()
    ensures { (b : Base C C.Signature) (h : List (Happening C C.Signature)) (n : ℕ)
        (origin : Origin) (t : Duration) (m : ℕ) → IsRight b h (Arrived n origin t (Room.Of m)) →
        IsSomeAnd (stream_at m h)
        (λ stream. as_nanos b.pace.grace < as_nanos t - as_nanos stream.came) }
{}

/// By a law of drivers, a claim that goes on is kept: the stream becomes a link if it is proved at
/// once to be that peer's, unless an allocation fails. One that is closed as `NotGranted` wouldn't.
/// One that is closed as `Crowded` would, but its rate has no more.
pub fn claims_are_exact<C: PublicKey>()
    ensures goes_on { (b : Base C C.Signature) → b.made.directory.cmp ≡ C.cmp →
        (h : List (Happening C C.Signature)) (n : ℕ) (p : C) (origin : Origin) (t : Duration) →
        AreRight b (Claimed n p origin t ∷ h) →
        no_proof b (Claimed n p origin t ∷ h) n p (as_nanos t) ≡ None }
    ensures not_granted { (b : Base C C.Signature) (h : List (Happening C C.Signature)) (n : ℕ)
        (p : C) (t : Duration) → AreRight b (Refused n p t Why.NotGranted ∷ h) →
        may_come b h p (as_nanos t) ≡ false }
    ensures crowded { (b : Base C C.Signature) (h : List (Happening C C.Signature)) (n : ℕ)
        (p : C) (t : Duration) → AreRight b (Refused n p t Why.Crowded ∷ h) →
        may_come b h p (as_nanos t) ≡ true }
{}

/// By a law of drivers, of the claims that it answered there are in a window of time no more than a
/// burst, and one more for each refill of the window's length, at the rate of all, and of those of
/// one origin at its rate, whatever it did that it might do.
pub fn claims_in_time<C: PublicKey>()
    ensures all { (b : Base C C.Signature) (h : List (Happening C C.Signature)) → AreRight b h →
        let burst = non_zero_u32_get b.pace.answers.burst in
        let refill = as_nanos b.pace.answers.refill in (from size : ℕ) →
        count_in from size (map (λ c. c.1) (answered_in h)) * refill ≤ burst * refill + size }
    ensures of_origin { (b : Base C C.Signature) (h : List (Happening C C.Signature)) →
        AreRight b h → let burst = non_zero_u32_get b.pace.answers_of_address.burst in
        let refill = as_nanos b.pace.answers_of_address.refill in (o from size : ℕ) →
        count_in from size (times_of o (answered_in h)) * refill ≤ burst * refill + size }
{}

/// By a law of drivers, no more frames of a link are read in a window of time than a burst, and one
/// more for each refill of the window's length: of gossip at the rate of the settings, and of the
/// messages of a channel at its rate, whatever a driver did that it might do. So it is of the
/// messages that are said on a channel. Frames count from when the link began.
pub fn frames_in_time<C: PublicKey>()
    ensures { (b : Base C C.Signature) (h : List (Happening C C.Signature)) → AreRight b h →
        (n : ℕ) (place : Option ℕ) (rate : Rate) → rate_at b.pace place ≡ Some rate →
        let burst = non_zero_u32_get rate.burst in let refill = as_nanos rate.refill in
        (from size : ℕ) →
        count_in from size (frames_read n place h) * refill ≤ burst * refill + size }
{}

/// By a law of drivers, a peer is served only once it has greeted, whatever a driver did that it
/// might do. It is served if its infos are taken, its question is answered, or its message is
/// delivered.
///
/// - Its link is open then.
/// - Since that link began, it has greeted on it, with an info of its own key.
/// - It is connected in the world that the calls of the node make. The node retains a set or more.
pub fn greeting_first<C: PublicKey>()
    ensures open { (b : Base C C.Signature) → b.made.directory.cmp ≡ C.cmp →
        (h : List (Happening C C.Signature)) (n : ℕ) (p : C) (t : Duration) (owed : ℕ)
        (cause : Cause) (outcome : Outcome C C.Signature) →
        AreRight b (Heard n p t owed cause outcome ∷ h) → is_served outcome ≡ true →
        IsSomeAnd (link b p h) (λ held. held.phase ≡ Phase.Open) }
    ensures greeted { (b : Base C C.Signature) → b.made.directory.cmp ≡ C.cmp →
        (h : List (Happening C C.Signature)) (n : ℕ) (p : C) (t : Duration) (owed : ℕ)
        (cause : Cause) (outcome : Outcome C C.Signature) →
        AreRight b (Heard n p t owed cause outcome ∷ h) → is_served outcome ≡ true →
        HasGreeted b.made.directory p h }
    ensures connected { (b : Base C C.Signature) → b.made.directory.cmp ≡ C.cmp →
        1 ≤ b.made.directory.max_sets → (h : List (Happening C C.Signature)) (n : ℕ) (p : C)
        (t : Duration) (owed : ℕ) (cause : Cause) (outcome : Outcome C C.Signature) →
        AreRight b (Heard n p t owed cause outcome ∷ h) → is_served outcome ≡ true →
        is_active ((world_after b.made.directory (calls_of h)).peer p).status ≡ true }
{}

/// By a law of drivers, a peer is blocked only for what it did, or since the application asks for
/// that.
///
/// - Each block that the node is called for was asked for by the application, or its peer broke a
///   rule on its link then.
/// - Of a link, what was done before and what came decide what comes of it, but for whether memory
///   is there to block, and memory and room in the queue to ask. Frames are those of nodes.
/// - Of the first bytes of a frame these, its length and the time decide.
pub fn blame<C: PublicKey>()
    ensures blocks { (h : List (Happening C C.Signature)) (p : C) (now : ℕ) →
        Contains (calls_of h) (Block p now) →
        (e : Happening C C.Signature) × Contains h e × Blames p now e }
    ensures one_cause { let wire = ⟦<C as Frames>⟧.wire in (b : Base C C.Signature) →
        b.wire ≡ wire → (h : List (Happening C C.Signature)) (n m : ℕ) (p : C)
        (t u : Duration) (owed other : ℕ) (cause : Cause) (x y : Outcome C C.Signature) →
        is_head cause ≡ false →
        IsRight b h (Heard n p t owed cause x) → IsRight b h (Heard m p u other cause y) →
        bare x ≡ bare y }
    ensures one_head { (b : Base C C.Signature) (h : List (Happening C C.Signature)) (n m : ℕ)
        (p : C) (t : Duration) (owed other : ℕ) (cause : Cause) (x y : Outcome C C.Signature) →
        is_head cause ≡ true →
        IsRight b h (Heard n p t owed cause x) → IsRight b h (Heard m p t other cause y) →
        bare x ≡ bare y }
{}

/// By a law of drivers, a peer sends on its link no more lists of infos that are judged than it was
/// asked for, whatever a driver did that it might do. Frames are those of nodes.
pub fn lists_are_asked<C: PublicKey>()
    ensures { let wire = ⟦<C as Frames>⟧.wire in (b : Base C C.Signature) →
        b.made.directory.cmp ≡ C.cmp → b.wire ≡ wire → (h : List (Happening C C.Signature)) →
        AreRight b h → (p : C) → let s = b.made.directory in lists_on s p h ≤ asked_on s p h }
{}

/// By a law of drivers, few signatures are verified of what a peer sends on its link: one of its
/// greeting, and of a list at most as many as the node takes infos at a time, its
/// `peer_gossip_max_count`.
pub fn few_signatures<C: PublicKey>()
    ensures greeting { (b : Base C C.Signature) (h : List (Happening C C.Signature)) (n : ℕ) (p : C)
        (t : Duration) (owed : ℕ) (cause : Cause) (w : Waiting) →
        IsRight b h (Heard n p t owed cause (Outcome.Waits w)) →
        IsSomeAnd (link b p h) (λ held. held.phase ≡ Phase.Greeting) → w.count ≡ 1 }
    ensures list { (b : Base C C.Signature) (h : List (Happening C C.Signature)) (n : ℕ) (p : C)
        (t : Duration) (owed : ℕ) (cause : Cause) (w : Waiting) →
        IsRight b h (Heard n p t owed cause (Outcome.Waits w)) →
        IsSomeAnd (link b p h) (λ held. held.phase ≡ Phase.Open) →
        w.count ≤ b.made.verifier.greatest_count }
{}

/// By a law of drivers, few frames of a link were said and aren't written, whatever a driver did
/// that it might do.
///
/// - There are at most `queue` of them, or one, if `queue` is 0: the own greeting.
/// - They are the frames that were said on the link, but for as many of the first as were written.
///   The own greeting is the first: on an inbound link it is said as that begins, on a dial as its
///   stream is proved, before which nothing is said.
/// - No more were written than were said.
pub fn few_unwritten<C: PublicKey>()
    ensures bound { (b : Base C C.Signature) → b.made.directory.cmp ≡ C.cmp →
        (h : List (Happening C C.Signature)) → AreRight b h → (p : C) (held : Held) →
        link b p h ≡ Some held → length held.unwritten ≤ max b.pace.queue 1 }
    ensures are { (b : Base C C.Signature) → b.made.directory.cmp ≡ C.cmp →
        (h : List (Happening C C.Signature)) → AreRight b h → (p : C) (held : Held) →
        link b p h ≡ Some held → let s = b.made.directory in
        held.unwritten ≡ drop (written_since s p h) (first_on held ++ said_since s p h) }
    ensures within { (b : Base C C.Signature) → b.made.directory.cmp ≡ C.cmp →
        (h : List (Happening C C.Signature)) → AreRight b h → (p : C) (held : Held) →
        link b p h ≡ Some held → let s = b.made.directory in
        written_since s p h ≤ length (first_on held ++ said_since s p h) }
    ensures proved_first { (b : Base C C.Signature) → b.made.directory.cmp ≡ C.cmp →
        (h : List (Happening C C.Signature)) → AreRight b h → (p : C) (held : Held) →
        link b p h ≡ Some held → is_dialing held ≡ true →
        said_since b.made.directory p h ≡ [] }
{}

/// By a law of drivers, little is said at a time.
///
/// - A set that is accepted says at most two actions for each link.
/// - Each other happening says at most three.
pub fn little_is_said<C: PublicKey>()
    ensures sets { (b : Base C C.Signature) → b.made.directory.cmp ≡ C.cmp →
        (h : List (Happening C C.Signature)) (v : DriverView C C.Signature) →
        DriverStandsAt b h v → (t : Duration) (index : ℕ) (primary secondary torn : List C) →
        let e = SetCame t index primary secondary torn in
        length (says_by b.made.directory b.greeting h e) ≤ 2 * length v.links }
    ensures others { (b : Base C C.Signature) (h : List (Happening C C.Signature))
        (e : Happening C C.Signature) → is_set e ≡ false →
        length (says_by b.made.directory b.greeting h e) ≤ 3 }
{}

/// By a law of drivers, the host takes what was said, all of it and in order.
///
/// - Of a driver, what was taken and the actions that wait are all that was said.
/// - What was taken is a beginning of what was said, whatever it did that it might do.
pub fn taken_in_order<C: PublicKey>()
    ensures stands { (b : Base C C.Signature) (h : List (Happening C C.Signature))
        (v : DriverView C C.Signature) → DriverStandsAt b h v →
        taken h ++ v.actions ≡ said b.made.directory b.greeting h }
    ensures begins { (b : Base C C.Signature) (h : List (Happening C C.Signature)) →
        AreRight b h → Begins (taken h) (said b.made.directory b.greeting h) }
{}
