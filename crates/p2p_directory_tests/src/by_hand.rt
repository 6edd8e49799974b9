//! A caller that makes the calls of a directory itself: it has what the definitions compute from
//! them.

ghost use Rattle.std.specs.Prelude.{◌≡◌, ◌<◌, ◌-◌, ◌^◌, ◌∷◌, [], false, IfOk};
ghost use Rattle.std.specs.Duration.{as_nanos};
ghost use Rattle.std.specs.Int.NonZero.{non_zero_usize_get};
ghost use Rattle.p2p_directory.specs.Calls.Call.{Track, Listen, Connect, Release};
ghost use Rattle.p2p_directory.specs.Answers.{status_in};
ghost use Rattle.p2p_directory.specs.Run.{settings, world_after};

use lines::setup;
use p2p_directory::directory::{Config, Directory, TrackedPeers};
use p2p_directory::laws::{effects_refine, refined_answers};
use p2p_directory::node::Setup;
use p2p_directory::record::Status;
use p2p_discovery::codec::{PublicKey, TestKey};
use p2p_discovery::discovery::Info;
use p2p_discovery::sets::OrderedSet;
use std::alloc::{AllocError, Global};
use std::test::Fail;
use std::time::Duration;

// Why no connection was made.
#[derive(Clone, Copy, Debug, PartialEq, Eq)]
enum Refused {
    OutOfMemory,
    NotGranted,
}

impl From<AllocError> for Refused {
    fn from(_: AllocError) -> Self {
        Refused::OutOfMemory
    }
}

// The status of a peer at two times.
#[derive(Clone, Copy, Debug, PartialEq, Eq)]
struct Statuses {
    connected: Option<Status>,
    afterwards: Option<Status>,
}

// Makes the calls of a tested directory by hand: registers the set at index 0, accepts a connection
// of the inbound peer, and closes it. Returns the status of the peer while it is connected and
// afterwards, which are those in the worlds of the calls made so far.
fn visit<C: PublicKey>(
    alloc: Global,
    myself: Info<C>,
    cfg: Config,
    peers: TrackedPeers<C>,
    peer: C,
    now: Duration,
    draw: Duration,
) -> Result<Statuses, Refused>
    requires { non_zero_usize_get cfg.max_sets < 2 ^ 64 - 1 }
    ensures connected { IfOk result (λ statuses. let s = settings C.cmp [] myself cfg in
        statuses.connected ≡ status_in s (world_after s (Connect peer false ∷
        Listen peer (as_nanos now) (as_nanos draw) ∷ Track 0 peers.primary peers.secondary ∷ []))
        peer) }
    ensures afterwards { IfOk result (λ statuses. let s = settings C.cmp [] myself cfg in
        statuses.afterwards ≡ status_in s (world_after s (Release peer ∷ Connect peer false ∷
        Listen peer (as_nanos now) (as_nanos draw) ∷ Track 0 peers.primary peers.secondary ∷ []))
        peer) }
{
    // For the proof: each call leads to the world with it, which has the same status of a peer.
    effects_refine::<C>();
    refined_answers::<C>();
    let mut directory = Directory::init(alloc, Vec::new(alloc), myself, cfg)?;
    directory.track(0, peers)?;
    let Some(reservation) = directory.listen(&peer, now, draw)? else {
        return Err(Refused::NotGranted);
    };
    directory.connect(&peer, false);
    let connected = directory.status(&peer);
    directory.release(reservation);
    let afterwards = directory.status(&peer);
    Ok(Statuses {
        connected,
        afterwards,
    })
}

// Makes calls by hand that let the peer visit a tested node that tracks 1 and 2, at 100 s.
fn visited_by(alloc: Global, peer: u64) -> Result<Statuses, Refused> {
    let Ok(setup) = setup(alloc, "") else {
        return Err(Refused::OutOfMemory);
    };
    let Setup { myself, cfg, .. } = setup;
    let primary = OrderedSet::from_iter_dedup(alloc, [1, 2].into_iter().map(TestKey))?;
    let secondary = OrderedSet::from_iter_dedup(alloc, [].into_iter().map(TestKey))?;
    visit(
        alloc,
        myself,
        cfg,
        TrackedPeers::new(primary, secondary),
        TestKey(peer),
        Duration::from_secs(100),
        Duration::ZERO,
    )
}

#[test]
fn a_visitor_is_inert_afterwards(rt: HostRuntime) -> Result<(), Fail> {
    let expected = Statuses {
        connected: Some(Status::Active),
        afterwards: Some(Status::Inert),
    };
    assert_eq!(rt; visited_by(rt.alloc(), 1), Ok(expected));
    assert_eq!(rt; visited_by(rt.alloc(), 3), Err(Refused::NotGranted));
    Ok(())
}
