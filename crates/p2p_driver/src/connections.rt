//! The links of a driver with what its node holds of their peers, and what is said when they begin
//! and end. Room for what has to be said when a link ends is promised when it begins.

ghost use Rattle.std.specs.Prelude.{◌≡◌, ◌≤◌, ◌+◌, ◌++◌, [], ◌∷◌, None, Some, OnOk, OnErr, length};
ghost use Rattle.std.specs.Prelude.{IfOk, IfSome};
ghost use Rattle.std.specs.Option.{IsSomeAnd};
ghost use Rattle.std.specs.Prelude.{if◌then◌else◌, is_some, option_map, true, ℕ, ◌==◌, ◌||◌, ◌&&◌};
ghost use Rattle.std.specs.BTreeMap.{is_at, insert_entry};
ghost use Rattle.std.specs.Duration.{as_nanos};
ghost use Rattle.std.specs.Ordering.{nat_cmp};
ghost use Rattle.p2p_discovery.specs.Ordered.{has_key};
ghost use Rattle.p2p_tracker.specs.Calls.Call.{Dial, Listen, Release};
ghost use Rattle.p2p_tracker.specs.Answers.{may_listen_at, is_eligible_at};
ghost use Rattle.p2p_directory.specs.Nodes.{AtEach, IsSame};
ghost use Rattle.p2p_directory.specs.Run.{world_after};
ghost use Rattle.p2p_driver.specs.Grants.{grant_of, kept_grant, is_cooling};
ghost use Rattle.p2p_driver.specs.Steps.{adopts_by, is_outbound_free};
ghost use Rattle.p2p_driver.specs.Steps.{comes_by, dials_by, is_claim_of, no_proof_of};
ghost use Rattle.p2p_driver.specs.Happenings.{shut, shut_all, shut_in, closed_at};
ghost use Rattle.p2p_driver.specs.Happenings.{parted, downed, dialing, sent, why_late};
ghost use Rattle.p2p_driver.specs.Links.{link_of, link_as, link_with, taken_way, need_of, need_at};
ghost use Rattle.p2p_driver.specs.Links.{needs, closed};
ghost use Rattle.p2p_driver.specs.Links.{count_of, is_way, dial_with, saying, reached, is_dialing};
ghost use Rattle.p2p_driver.specs.Reads.{reads_of, unread};
ghost use Rattle.p2p_driver.specs.Steps.{IsBusy, Makes, MayListen, IsGranted};
ghost use Rattle.p2p_driver.specs.Steps.{IsAddress};
ghost use Rattle.p2p_driver.specs.declared.links.Direction.{Direction};
ghost use Rattle.p2p_driver.specs.declared.links.Direction.TheVariants as Direction;
ghost use Rattle.p2p_driver.specs.declared.links.Held.{Held};

use crate::actions::{Action, Actions, Event, Why};
use crate::grants::Grants;
use crate::link::Link;
use crate::links::{Direction, Links, Phase};
use crate::pace::{Channel, Pace};
use crate::rate::after;
use crate::reads::Reads;
use crate::steps;
use bytes::Bytes;
use p2p_directory::node::Node;
use p2p_discovery::codec::PublicKey;
use p2p_discovery::types::Ingress;
use std::alloc::AllocError;
use std::time::Duration;

// Keeps the link of a peer, of a stream that came in, came about so, and of which nothing was read,
// and promises room for one action more.
fn keep<C: PublicKey>(
    reads: &mut Reads,
    links: &mut Links<C>,
    actions: &mut Actions<C>,
    peer: C,
    number: u64,
    direction: Direction,
    channels: &[Channel],
    now: Duration,
) -> Result<(), AllocError>
    requires unread { reads_of reads.old number ≡ None }
    requires unlinked { link_of C.cmp links.old peer ≡ None }
    requires unused { (q : C) (held : Held) → link_of C.cmp links.old q ≡ Some held →
        held.number ≡ number → ⊥ }
    ensures reads { OnOk result ((n : ℕ) → reads_of reads.new n ≡
        (if n == number then Some (unread (length channels.now + length channels.now))
        else reads_of reads.old n)) }
    ensures read { OnOk result (reads.new ≡ insert_entry nat_cmp reads.old number
        (unread (length channels.now + length channels.now))) }
    ensures links { OnOk result ((q : C) → link_of C.cmp links.new q ≡ (if is_at (C.cmp peer) q
        then Some (link_as direction number now) else link_of C.cmp links.old q)) }
    ensures entries { OnOk result (links.new
        ≡ insert_entry C.cmp links.old peer (link_as direction number now)) }
    ensures counts { OnOk result ((way : Direction) → count_of way links.new
        ≡ count_of way links.old + (if is_way way direction then 1 else 0)) }
    ensures needs { OnOk result (needs links.new ≡ needs links.old + 1) }
    ensures said { actions.new.items ≡ actions.old.items }
    ensures room { OnOk result (actions.new.room ≡ actions.old.room + 1) }
    ensures err { OnErr result ((reads.new ≡ reads.old) × (links.new ≡ links.old)
        × (actions.new.room ≡ actions.old.room)) }
{
    // Those that are read, and those that are said.
    let Some(places) = channels.len().checked_add(channels.len()) else {
        return Err(AllocError);
    };
    reads.begin(number, places)?;
    if let Err(failed) = links.put(peer, number, direction, now) {
        reads.end(number);
        return Err(failed);
    }
    if actions.reserve(1).is_err() {
        let _held = links.remove(&peer);
        reads.end(number);
        return Err(AllocError);
    }
    Ok(())
}

// Reserves a peer that may come, keeps its link, of which nothing was read, and sends the greeting
// on it.
pub(crate) fn begin<C: PublicKey>(
    node: &mut Node<C>,
    reads: &mut Reads,
    links: &mut Links<C>,
    actions: &mut Actions<C>,
    greeting: &Bytes,
    peer: C,
    number: u64,
    channels: &[Channel],
    now: Duration,
    draw: Duration,
) -> Result<(), AllocError>
    requires unread { reads_of reads.old number ≡ None }
    requires unlinked { link_of C.cmp links.old peer ≡ None }
    requires unused { (q : C) (held : Held) → link_of C.cmp links.old q ≡ Some held →
        held.number ≡ number → ⊥ }
    requires may { MayListen C.cmp peer (as_nanos now) node.old }
    ensures reads { OnOk result ((n : ℕ) → reads_of reads.new n ≡
        (if n == number then Some (unread (length channels.now + length channels.now))
        else reads_of reads.old n)) }
    ensures made { OnOk result (Makes C.cmp
        (Listen peer (as_nanos now) (as_nanos draw) ∷ []) node.old node.new) }
    ensures links { OnOk result ((q : C) → link_of C.cmp links.new q ≡
        (if is_at (C.cmp peer) q then Some (link_with number now) else link_of C.cmp links.old q)) }
    ensures counts { OnOk result ((way : Direction) → count_of way links.new
        ≡ count_of way links.old + (if is_way way Direction.Inbound then 1 else 0)) }
    ensures said { OnOk result (actions.new.items
        ≡ actions.old.items ++ sent number greeting.now) }
    ensures needs { OnOk result (needs links.new ≡ needs links.old + 1) }
    ensures room { actions.new.room ≡ actions.old.room }
    ensures err { OnErr result (IsSame node.old node.new × (reads.new ≡ reads.old)
        × (links.new ≡ links.old) × (actions.new.items ≡ actions.old.items)) }
{
    let frame = greeting.clone()?;
    let direction = Direction::Inbound;
    if let Err(failed) = keep(
        reads, links, actions, peer, number, direction, channels, now,
    ) {
        return Err(failed);
    }
    if !steps::listen(node, &peer, now, draw) {
        let _held = links.remove(&peer);
        reads.end(number);
        actions.give_back(1);
        return Err(AllocError);
    }
    actions.push(Action::Send {
        link: Link(number),
        frame,
    });
    Ok(())
}

// Keeps the link of a peer of which a grant is kept, and of which nothing was read, and sends the
// greeting on it. The peer stays reserved, and that grant is none of a dial any more.
pub(crate) fn adopt<C: PublicKey>(
    reads: &mut Reads,
    links: &mut Links<C>,
    grants: &mut Grants<C>,
    actions: &mut Actions<C>,
    greeting: &Bytes,
    peer: C,
    number: u64,
    direction: Direction,
    channels: &[Channel],
    now: Duration,
) -> Result<(), AllocError>
    requires unread { reads_of reads.old number ≡ None }
    requires unlinked { link_of C.cmp links.old peer ≡ None }
    requires unused { (q : C) (held : Held) → link_of C.cmp links.old q ≡ Some held →
        held.number ≡ number → ⊥ }
    ensures reads { OnOk result ((n : ℕ) → reads_of reads.new n ≡
        (if n == number then Some (unread (length channels.now + length channels.now))
        else reads_of reads.old n)) }
    ensures links { OnOk result ((q : C) → link_of C.cmp links.new q ≡ (if is_at (C.cmp peer) q
        then Some (link_as direction number now) else link_of C.cmp links.old q)) }
    ensures grants { OnOk result ((q : C) → grant_of C.cmp grants.new q ≡
        (if is_at (C.cmp peer) q then None else grant_of C.cmp grants.old q)) }
    ensures counts { OnOk result ((way : Direction) → count_of way links.new
        ≡ count_of way links.old + (if is_way way direction then 1 else 0)) }
    ensures said { OnOk result (actions.new.items
        ≡ actions.old.items ++ sent number greeting.now) }
    ensures needs { OnOk result (needs links.new ≡ needs links.old + 1) }
    ensures room { actions.new.room ≡ actions.old.room }
    ensures err { OnErr result ((reads.new ≡ reads.old) × (links.new ≡ links.old)
        × (grants.new ≡ grants.old) × (actions.new.items ≡ actions.old.items)) }
{
    let frame = greeting.clone()?;
    if let Err(failed) = keep(
        reads, links, actions, peer, number, direction, channels, now,
    ) {
        return Err(failed);
    }
    grants.remove(&peer);
    actions.push(Action::Send {
        link: Link(number),
        frame,
    });
    Ok(())
}

// Reserves a peer for a dial, keeps its link, of which nothing was read, and its grant, and has it
// dialled at its address.
pub(crate) fn dial<C: PublicKey>(
    node: &mut Node<C>,
    reads: &mut Reads,
    links: &mut Links<C>,
    grants: &mut Grants<C>,
    actions: &mut Actions<C>,
    peer: C,
    number: u64,
    channels: &[Channel],
    now: Duration,
    draw: Duration,
) -> Result<Ingress, AllocError>
    requires unread { reads_of reads.old number ≡ None }
    requires unlinked { link_of C.cmp links.old peer ≡ None }
    requires unused { (q : C) (held : Held) → link_of C.cmp links.old q ≡ Some held →
        held.number ≡ number → ⊥ }
    requires ungranted { grant_of C.cmp grants.old peer ≡ None }
    requires granted { IsGranted C.cmp peer (as_nanos now) (as_nanos draw) node.old }
    ensures reads { OnOk result ((n : ℕ) → reads_of reads.new n ≡
        (if n == number then Some (unread (length channels.now + length channels.now))
        else reads_of reads.old n)) }
    ensures made { OnOk result (Makes C.cmp
        (Dial peer (as_nanos now) (as_nanos draw) ∷ []) node.old node.new) }
    ensures address { IfOk result (λ ingress. IsAddress C.cmp peer ingress node.old) }
    ensures links { OnOk result ((q : C) → link_of C.cmp links.new q ≡
        (if is_at (C.cmp peer) q then Some (dial_with number now) else link_of C.cmp links.old q)) }
    ensures grants { OnOk result ((q : C) → grant_of C.cmp grants.new q ≡
        (if is_at (C.cmp peer) q then Some now else grant_of C.cmp grants.old q)) }
    ensures counts { OnOk result ((way : Direction) → count_of way links.new
        ≡ count_of way links.old + (if is_way way Direction.Dialing then 1 else 0)) }
    ensures said { IfOk result (λ ingress. actions.new.items
        ≡ actions.old.items ++ dialing number peer ingress) }
    ensures needs { OnOk result (needs links.new ≡ needs links.old + 1) }
    ensures room { OnOk result (actions.new.room ≡ actions.old.room + 1) }
    ensures err { OnErr result (IsSame node.old node.new × (reads.new ≡ reads.old)
        × (links.new ≡ links.old) × (grants.new ≡ grants.old)
        × (actions.new.items ≡ actions.old.items) × (actions.new.room ≡ actions.old.room)) }
{
    let Some(ingress) = steps::ingress(node, &peer) else {
        return Err(AllocError);
    };
    let said = ingress.clone()?;
    // Those that are read, and those that are said.
    let Some(places) = channels.len().checked_add(channels.len()) else {
        return Err(AllocError);
    };
    grants.put(peer, now)?;
    if let Err(failed) = reads.begin(number, places) {
        grants.remove(&peer);
        return Err(failed);
    }
    if let Err(failed) = links.dial(peer, number, now) {
        grants.remove(&peer);
        reads.end(number);
        return Err(failed);
    }
    if actions.reserve(2).is_err() {
        let _held = links.remove(&peer);
        grants.remove(&peer);
        reads.end(number);
        return Err(AllocError);
    }
    if !steps::dial(node, &peer, now, draw) {
        let _held = links.remove(&peer);
        grants.remove(&peer);
        reads.end(number);
        actions.give_back(2);
        return Err(AllocError);
    }
    actions.push(Action::Dial {
        link: Link(number),
        peer,
        ingress,
    });
    Ok(said)
}

// The stream of a dial of the peer is proved: the greeting is sent on it.
pub(crate) fn reach<C: PublicKey>(
    links: &mut Links<C>,
    actions: &mut Actions<C>,
    greeting: &Bytes,
    peer: &C,
    number: u64,
    now: Duration,
) -> Result<(), AllocError>
    ensures links { OnOk result ((q : C) → link_of C.cmp links.new q ≡
        (if is_at (C.cmp peer.now) q
        then option_map (λ h. saying (Some now) (reached now h)) (link_of C.cmp links.old q)
        else link_of C.cmp links.old q)) }
    ensures counts { OnOk result
        (IsSomeAnd (link_of C.cmp links.old peer.now) (λ h. is_dialing h ≡ true) →
        (way : Direction) → count_of way links.new + (if is_way way Direction.Dialing then 1 else 0)
        ≡ count_of way links.old + (if is_way way Direction.Outbound then 1 else 0)) }
    ensures said { OnOk result (actions.new.items ≡ actions.old.items ++ sent number greeting.now) }
    ensures needs { needs links.new ≡ needs links.old }
    ensures room { actions.new.room ≡ actions.old.room }
    ensures err { OnErr result ((links.new ≡ links.old) × (actions.new.items ≡ actions.old.items)) }
{
    let frame = greeting.clone()?;
    actions.reserve(1)?;
    if !links.reach(peer, now) {
        actions.give_back(1);
        return Err(AllocError);
    }
    actions.push(Action::Send {
        link: Link(number),
        frame,
    });
    Ok(())
}

// Releases a peer whose link ended. Who was told that it's up is told that it's down.
pub(crate) fn end<C: PublicKey>(
    node: &mut Node<C>,
    links: &mut Links<C>,
    actions: &mut Actions<C>,
    peer: &C,
)
    requires busy { IsBusy C.cmp peer.now node.old }
    requires linked { is_some (link_of C.cmp links.old peer.now) ≡ true }
    requires fit { needs links.old ≤ actions.old.room }
    ensures made { Makes C.cmp (Release peer.now ∷ []) node.old node.new }
    ensures links { (q : C) → link_of C.cmp links.new q ≡
        (if is_at (C.cmp peer.now) q then None else link_of C.cmp links.old q) }
    ensures counts { IfSome (link_of C.cmp links.old peer.now) (λ held. (way : Direction) →
        count_of way links.new + (if is_way way held.direction then 1 else 0)
        ≡ count_of way links.old) }
    ensures said { actions.new.items
        ≡ actions.old.items ++ parted peer.now (link_of C.cmp links.old peer.now) }
    ensures room { needs links.new + actions.old.room ≡ actions.new.room + needs links.old }
{
    steps::release(node, peer);
    fail(links, actions, peer);
}

// Forgets the link of a peer that ended, and that stays reserved. Who was told that it's up is told
// that it's down.
pub(crate) fn fail<C: PublicKey>(links: &mut Links<C>, actions: &mut Actions<C>, peer: &C)
    requires linked { is_some (link_of C.cmp links.old peer.now) ≡ true }
    requires fit { needs links.old ≤ actions.old.room }
    ensures links { (q : C) → link_of C.cmp links.new q ≡
        (if is_at (C.cmp peer.now) q then None else link_of C.cmp links.old q) }
    ensures counts { IfSome (link_of C.cmp links.old peer.now) (λ held. (way : Direction) →
        count_of way links.new + (if is_way way held.direction then 1 else 0)
        ≡ count_of way links.old) }
    ensures said { actions.new.items
        ≡ actions.old.items ++ parted peer.now (link_of C.cmp links.old peer.now) }
    ensures room { needs links.new + actions.old.room ≡ actions.new.room + needs links.old }
{
    // For the proof: what a link needs is no more than what all need.
    links.agrees();
    if let Some(held) = links.remove(peer) {
        tell_end(actions, held.number, held.phase, peer);
    }
}

// Tells that a link ended, if it was told to be up, and gives back the room that was promised.
fn tell_end<C: Copy>(actions: &mut Actions<C>, number: u64, phase: Phase, peer: &C)
    requires { need_of phase ≤ actions.old.room }
    ensures said { actions.new.items
        ≡ actions.old.items ++ downed number peer.now None phase }
    ensures room { actions.new.room + need_of phase ≡ actions.old.room }
{
    match phase {
        Phase::Greeting => actions.give_back(1),
        Phase::Open => {
            actions.push(Action::Told(Event::Down(Link(number), *peer, None)));
            actions.give_back(1);
        }
        Phase::Closing => {}
    }
}

// Closes the link of a peer, if it has one that isn't closed.
pub(crate) fn shut<C: PublicKey>(links: &mut Links<C>, actions: &mut Actions<C>, peer: &C, why: Why)
    requires { needs links.old ≤ actions.old.room }
    ensures links { (q : C) → link_of C.cmp links.new q ≡
        closed_at C.cmp peer.now (link_of C.cmp links.old) q }
    ensures counts { (way : Direction) → count_of way links.new ≡ count_of way links.old }
    ensures said { actions.new.items
        ≡ actions.old.items ++ shut peer.now why (link_of C.cmp links.old peer.now) }
    ensures room { needs links.new + actions.old.room ≡ actions.new.room + needs links.old }
    ensures needs { needs links.new + need_at (link_of C.cmp links.old peer.now) ≡ needs links.old }
{
    // For the proof: what a link needs is no more than what all need.
    links.agrees();
    if let Some(held) = links.get(peer) {
        tell_close(actions, held.number, held.phase, peer, why);
    }
    links.close(peer);
}

// Tells that a link is closed, unless it was.
fn tell_close<C: Copy>(actions: &mut Actions<C>, number: u64, phase: Phase, peer: &C, why: Why)
    requires { need_of phase ≤ actions.old.room }
    ensures said { actions.new.items
        ≡ actions.old.items ++ shut_in number peer.now why phase }
    ensures room { actions.new.room + need_of phase ≡ actions.old.room }
{
    let link = Link(number);
    match phase {
        Phase::Greeting => actions.push(Action::Close { link, why }),
        Phase::Open => {
            actions.push(Action::Close { link, why });
            actions.push(Action::Told(Event::Down(link, *peer, Some(why))));
        }
        Phase::Closing => {}
    }
}

// Why the late link of a peer is closed: the peer hasn't greeted or a frame isn't written in time,
// or it is silent.
pub(crate) fn why_late<C: PublicKey>(links: &Links<C>, peer: &C) -> Why
    ensures { result ≡ why_late (link_of C.cmp links.now peer.now) }
{
    match links.get(peer) {
        Some(held) if !held.is_slow() => Why::Silent,
        _ => Why::Slow,
    }
}

// Closes the links of these peers, since no set has them any more.
pub(crate) fn shut_all<C: PublicKey>(links: &mut Links<C>, actions: &mut Actions<C>, peers: &[C])
    requires { needs links.old ≤ actions.old.room }
    ensures links { (q : C) → link_of C.cmp links.new q ≡
        (if has_key C.cmp peers.now q then option_map closed (link_of C.cmp links.old q)
        else link_of C.cmp links.old q) }
    ensures counts { (way : Direction) → count_of way links.new ≡ count_of way links.old }
    ensures said { actions.new.items
        ≡ actions.old.items ++ shut_all C.cmp peers.now (link_of C.cmp links.old) }
    ensures room { needs links.new + actions.old.room ≡ actions.new.room + needs links.old }
{
    for peer in peers {
        shut(links, actions, peer, Why::NoSet);
    }
}

// Whether a peer may come in: by a grant that is kept of it, or by one of its own.
pub(crate) fn may_come<C: PublicKey>(
    node: &Node<C>,
    links: &Links<C>,
    grants: &Grants<C>,
    pace: &Pace,
    peer: &C,
    now: Duration,
) -> bool
    ensures { AtEach C.cmp node.now (λ m calls. let w = world_after m.directory calls in result
        ≡ (adopts_by pace.now links.now (is_some (kept_grant C.cmp links.now grants.now peer.now))
        (is_eligible_at m.directory w peer.now (as_nanos now))
        || comes_by C.cmp pace.now links.now peer.now
        (may_listen_at m.directory w peer.now (as_nanos now)))) }
{
    may_adopt(node, links, grants, pace, peer, now) || may_begin(node, links, pace, peer, now)
}

// Whether a peer may come in by a grant that is kept of it: there is a place, and it is eligible.
pub(crate) fn may_adopt<C: PublicKey>(
    node: &Node<C>,
    links: &Links<C>,
    grants: &Grants<C>,
    pace: &Pace,
    peer: &C,
    now: Duration,
) -> bool
    ensures { AtEach C.cmp node.now (λ m calls. result
        ≡ adopts_by pace.now links.now (is_some (kept_grant C.cmp links.now grants.now peer.now))
        (is_eligible_at m.directory (world_after m.directory calls) peer.now (as_nanos now))) }
{
    links.len() < pace.links
        && (is_outbound_free(links, pace) || links.count_of(Direction::Inbound) < pace.inbound)
        && grants.kept(links, peer).is_some()
        && steps::is_eligible(node, peer, now)
}

// Whether the grant of a dial of the peer is kept if that ends now: the peer hasn't greeted on it,
// the cooldown of the grant isn't over, and the peer is eligible.
pub(crate) fn stays<C: PublicKey>(
    node: &Node<C>,
    grants: &Grants<C>,
    cooldown: Duration,
    peer: &C,
    now: Duration,
) -> bool
    ensures { AtEach C.cmp node.now (λ m calls. result
        ≡ (is_cooling (as_nanos cooldown) (as_nanos now) (grant_of C.cmp grants.now peer.now)
        && is_eligible_at m.directory (world_after m.directory calls) peer.now (as_nanos now))) }
{
    match grants.get(peer) {
        Some(granted) if now.as_nanos() < after(granted, cooldown) => {
            steps::is_eligible(node, peer, now)
        }
        _ => false,
    }
}

// How the link of a peer comes about that comes in by a grant that is kept of it.
pub(crate) fn adopts_as<C: PublicKey>(links: &Links<C>, pace: &Pace) -> Direction
    ensures { result ≡ taken_way (is_outbound_free pace.now links.now) }
{
    if is_outbound_free(links, pace) {
        Direction::TakenOver
    } else {
        Direction::Inbound
    }
}

// Whether a peer may be reserved for its stream: there is a place, it has no link, and a listen
// would be granted.
pub(crate) fn may_begin<C: PublicKey>(
    node: &Node<C>,
    links: &Links<C>,
    pace: &Pace,
    peer: &C,
    now: Duration,
) -> bool
    ensures { AtEach C.cmp node.now (λ m calls. result ≡ comes_by C.cmp pace.now links.now peer.now
        (may_listen_at m.directory (world_after m.directory calls) peer.now (as_nanos now))) }
{
    links.len() < pace.links
        && links.count_of(Direction::Inbound) < pace.inbound
        && links.get(peer).is_none()
        && node.may_listen(peer, now)
}

// Whether another dial has a place.
pub(crate) fn has_dial_place<C: PublicKey>(links: &Links<C>, pace: &Pace) -> bool
    ensures { result ≡ dials_by pace.now links.now }
{
    links.len() < pace.links
        && is_outbound_free(links, pace)
        && links.count_of(Direction::Dialing) < pace.dials
}

// Whether another link has an outbound place.
fn is_outbound_free<C: PublicKey>(links: &Links<C>, pace: &Pace) -> bool
    ensures { result ≡ is_outbound_free pace.now links.now }
{
    let dialing = links.count_of(Direction::Dialing) as u128;
    let outbound = links.count_of(Direction::Outbound) as u128;
    let taken_over = links.count_of(Direction::TakenOver) as u128;
    dialing + outbound + taken_over < pace.outbound as u128
}

// Why a stream that is proved to be of a peer doesn't become a link, if it doesn't: it didn't claim
// to be that peer's, or the peer may not come in.
pub(crate) fn no_proof<C: PublicKey>(
    node: &Node<C>,
    links: &Links<C>,
    grants: &Grants<C>,
    pace: &Pace,
    claim: Option<C>,
    peer: &C,
    now: Duration,
) -> Option<Why>
    ensures { AtEach C.cmp node.now (λ m calls. let w = world_after m.directory calls in result
        ≡ no_proof_of (is_claim_of C.cmp peer.now claim)
        (adopts_by pace.now links.now (is_some (kept_grant C.cmp links.now grants.now peer.now))
        (is_eligible_at m.directory w peer.now (as_nanos now))
        || comes_by C.cmp pace.now links.now peer.now
        (may_listen_at m.directory w peer.now (as_nanos now)))) }
{
    if !is_claim_of(claim, peer) {
        return Some(Why::WrongKey);
    }
    if !may_come(node, links, grants, pace, peer, now) {
        return Some(Why::NotGranted);
    }
    None
}

// Whether a stream has claimed to be the peer's.
fn is_claim_of<C: Ord + Copy>(claim: Option<C>, peer: &C) -> bool
    ensures { result ≡ is_claim_of C.cmp peer.now claim }
{
    match claim {
        Some(claimed) => claimed.cmp(peer).is_eq(),
        None => false,
    }
}
