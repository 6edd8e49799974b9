//! The calls of a node that a driver makes, by what they make of it.

ghost use Rattle.std.specs.Prelude.{◌≡◌, [], ◌∷◌, true, false, Some, None, IfSome, IfOk, OnErr};
ghost use Rattle.std.specs.Prelude.{option_map};
ghost use Rattle.std.specs.Duration.{as_nanos};
ghost use Rattle.p2p_tracker.specs.Calls.Call.{Dial, Listen, Release, Track, UnblockExpired};
ghost use Rattle.p2p_tracker.specs.Calls.Call.{ForgetCooled, Block, Update, Connect};
ghost use Rattle.p2p_directory.specs.Nodes.{IsSame};
ghost use Rattle.p2p_driver.specs.Steps.{Makes, MayListen, IsBusy, IsTaken, TearsDown};
ghost use Rattle.p2p_driver.specs.Steps.{IsBlocked, MayBlock, MayConnect};
ghost use Rattle.p2p_driver.specs.Steps.{IsGranted, AreDialable, StaysQuiet, MayBeDialled};
ghost use Rattle.p2p_driver.specs.Steps.{IsAddress, IsEligible, is_before};

use p2p_directory::node::Node;
use p2p_directory::run::{Command, Reply};
use p2p_discovery::codec::PublicKey;
use p2p_discovery::discovery::Info;
use p2p_discovery::sets::OrderedSet;
use p2p_discovery::types::Ingress;
use p2p_tracker::directory::TrackedPeers;
use p2p_tracker::record::Dialable;
use std::alloc::AllocError;
use std::time::Duration;

// Reserves a peer that may come. False if an allocation fails.
pub(crate) fn listen<C: PublicKey>(
    node: &mut Node<C>,
    peer: &C,
    now: Duration,
    draw: Duration,
) -> bool
    requires { MayListen C.cmp peer.now (as_nanos now) node.old }
    ensures made { result ≡ true → Makes C.cmp
        (Listen peer.now (as_nanos now) (as_nanos draw) ∷ []) node.old node.new }
    ensures none { result ≡ false → IsSame node.old node.new }
{
    // For the proof: the node stands somewhere.
    node.stands();
    matches!(node.listen(peer, now, draw).granted(), Some(true))
}

// Reserves a peer for a dial that is granted. False if an allocation fails.
pub(crate) fn dial<C: PublicKey>(
    node: &mut Node<C>,
    peer: &C,
    now: Duration,
    draw: Duration,
) -> bool
    requires { IsGranted C.cmp peer.now (as_nanos now) (as_nanos draw) node.old }
    ensures made { result ≡ true → Makes C.cmp
        (Dial peer.now (as_nanos now) (as_nanos draw) ∷ []) node.old node.new }
    ensures none { result ≡ false → IsSame node.old node.new }
{
    // For the proof: the node stands somewhere.
    node.stands();
    matches!(node.dial(peer, now, draw).granted(), Some(true))
}

// Who may be dialled now, and when to ask again if nobody may.
pub(crate) fn dialable<C: PublicKey>(
    node: &Node<C>,
    now: Duration,
) -> Result<Dialable<C>, AllocError>
    ensures dialable { IfOk result (λ answer. AreDialable C.cmp (as_nanos now)
        answer.peers.items (option_map as_nanos answer.next_query_at) node.now) }
    ensures quiet { IfOk result (λ answer. answer.peers.items ≡ [] → StaysQuiet C.cmp
        (as_nanos now) (option_map as_nanos answer.next_query_at) node.now) }
    ensures later { IfOk result (λ answer.
        is_before (as_nanos now) (option_map as_nanos answer.next_query_at) ≡ true) }
    ensures err { OnErr result (MayBeDialled C.cmp (as_nanos now) node.now) }
{
    // For the proof: the node stands somewhere.
    node.stands();
    node.directory().dialable(now)
}

// The address of a peer, or `None` if there is none, or an allocation fails.
pub(crate) fn ingress<C: PublicKey>(node: &Node<C>, peer: &C) -> Option<Ingress>
    ensures { IfSome result (λ ingress. IsAddress C.cmp peer.now ingress node.now) }
{
    node.ingress(peer).ok()?
}

// Whether a peer may be connected now.
pub(crate) fn is_eligible<C: PublicKey>(node: &Node<C>, peer: &C, now: Duration) -> bool
    ensures { IsEligible C.cmp peer.now (as_nanos now) result node.now }
{
    node.eligible(peer, now)
}

// Releases a peer that is reserved or connected.
pub(crate) fn release<C: PublicKey>(node: &mut Node<C>, peer: &C)
    requires { IsBusy C.cmp peer.now node.old }
    ensures { Makes C.cmp (Release peer.now ∷ []) node.old node.new }
{
    spend(node.release(peer));
}

// Registers a set of peers. Whom it tears down if it is accepted, or `None` if an allocation fails.
pub(crate) fn track<C: PublicKey>(
    node: &mut Node<C>,
    index: u64,
    peers: TrackedPeers<C>,
) -> Option<Option<OrderedSet<C>>>
    ensures made { IfSome result (λ torn. Makes C.cmp
        (Track index peers.primary peers.secondary ∷ []) node.old node.new) }
    ensures torn { IfSome result (λ torn. TearsDown C.cmp index peers.primary peers.secondary
        torn node.old) }
    ensures none { result ≡ None → node.new ≡ node.old }
    ensures taken { result ≡ None →
        IsTaken C.cmp index peers.primary peers.secondary node.old }
{
    // For the proof: the node stands somewhere.
    node.stands();
    node.track(index, peers).torn()
}

// Blocks a peer. Whether that was accepted, or `None` if an allocation fails.
pub(crate) fn block<C: PublicKey>(node: &mut Node<C>, peer: &C, now: Duration) -> Option<bool>
    ensures made { IfSome result (λ taken. Makes C.cmp (Block peer.now (as_nanos now) ∷ [])
        node.old node.new) }
    ensures taken { IsBlocked C.cmp peer.now (as_nanos now) result node.old }
    ensures none { result ≡ None → node.new ≡ node.old }
    ensures wanted { result ≡ None → MayBlock C.cmp peer.now (as_nanos now) node.old }
{
    // For the proof: the node stands somewhere.
    node.stands();
    node.block(peer, now).blocked()
}

// Applies infos that are known to be valid.
pub(crate) fn update<C: PublicKey>(node: &mut Node<C>, infos: Vec<Info<C>>)
    ensures { Makes C.cmp (Update infos.items ∷ []) node.old node.new }
{
    spend(node.step(Command::UpdatePeers(infos)));
}

// Connects a peer that is reserved: whether it was dialled.
pub(crate) fn connect<C: PublicKey>(node: &mut Node<C>, peer: &C, dialer: bool)
    requires { MayConnect C.cmp peer.now node.old }
    ensures { Makes C.cmp (Connect peer.now dialer ∷ []) node.old node.new }
{
    spend(node.connect(peer, dialer));
}

// Ends what ends by now: cooldowns and blocks.
pub(crate) fn pass<C: PublicKey>(node: &mut Node<C>, now: Duration)
    ensures { Makes C.cmp (UnblockExpired (as_nanos now) ∷ ForgetCooled (as_nanos now) ∷ [])
        node.old node.new }
{
    let _forgotten = node.forget_cooled(now);
    let _any = node.unblock_expired(now);
}

// Drops a reply. Its drop, which branches on the contents, is here and not in the caller.
fn spend<C: PublicKey>(_reply: Reply<C>) {}
