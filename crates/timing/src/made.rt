//! What calls are timed on: infos, sets, nodes.

ghost use Rattle.std.specs.Prelude.{◌≡◌, ◌<◌, ◌^◌, IfOk};
ghost use Rattle.std.specs.Int.NonZero.{non_zero_usize_get};

use crate::keys::Key32;
use p2p_directory::directory::{Config, TrackedPeers};
use p2p_directory::node::{Node, Setup};
use p2p_discovery::discovery::{Info, PayloadConfig};
use p2p_discovery::sets::OrderedSet;
use p2p_discovery::types::{Ingress, IpAddr, SocketAddr};
use std::alloc::{AllocError, Global};
use std::num::NonZeroUsize;
use std::time::Duration;

/// The namespace in which infos are signed.
pub(crate) const NAMESPACE: &[u8] = b"rows";

/// How many sets are retained.
pub(crate) const SETS: usize = 4;

/// Makes, for timing, a configuration that retains four sets.
pub(crate) fn config() -> Config
    ensures { non_zero_usize_get result.max_sets ≡ 4 }
{
    Config {
        allow_private_ips: true,
        allow_dns: true,
        max_sets: NonZeroUsize::MIN.saturating_add(3),
        dial_fail_limit: 1,
        peer_connection_cooldown: Duration::from_secs(10),
        block_duration: Duration::from_secs(60),
    }
}

/// Makes, for timing, an address at which peers can be dialled, with this last byte.
pub(crate) fn ingress(last: u8) -> Ingress {
    Ingress::Socket(SocketAddr::new(IpAddr::V4([1, 2, 3, last]), 8000))
}

/// Makes, for timing, the info of a key, signed.
pub(crate) fn info_of(key: Key32, timestamp: u64) -> Info<Key32> {
    let ingress = ingress(key.last_byte());
    Info::sign(key, NAMESPACE, ingress, timestamp, |_, _| key.sign())
}

/// Makes, for timing, the infos of peers.
pub(crate) fn infos_of(
    alloc: Global,
    keys: &[Key32],
    timestamp: u64,
) -> Result<Vec<Info<Key32>>, AllocError> {
    let mut infos = Vec::with_capacity(alloc, keys.len())?;
    for key in keys {
        infos.push(info_of(*key, timestamp))?;
    }
    Ok(infos)
}

/// Makes, for timing, a set of these primary peers alone.
pub(crate) fn tracked(alloc: Global, keys: &[Key32]) -> Result<TrackedPeers<Key32>, AllocError> {
    let primary = OrderedSet::from_iter_dedup(alloc, keys.iter().copied())?;
    let nobody: Vec<Key32> = Vec::new(alloc);
    let secondary = OrderedSet::from_iter_dedup(alloc, nobody.into_iter())?;
    Ok(TrackedPeers::new(primary, secondary))
}

/// Makes, for timing, the setup of a node of this number, which accepts so many infos at a time.
pub(crate) fn setup(
    alloc: Global,
    number: u64,
    dial_fail_limit: usize,
    count: usize,
) -> Result<Setup<Key32>, AllocError>
    ensures sets { IfOk result (λ setup. non_zero_usize_get setup.cfg.max_sets ≡ 4) }
    ensures bits { IfOk result (λ setup. setup.payload.max_bit_vec < 2 ^ 32) }
{
    let mut cfg = config();
    cfg.dial_fail_limit = dial_fail_limit;
    Ok(Setup {
        bootstrappers: Vec::new(alloc),
        myself: info_of(Key32::numbered(number), 0),
        cfg,
        payload: PayloadConfig {
            max_bit_vec: 1_000_000,
            max_peers: 1_000_000,
            max_data_length: 1_000_000,
        },
        peer_gossip_max_count: count,
        synchrony_bound: Duration::from_secs(30),
        namespace: NAMESPACE.to_vec(alloc)?,
    })
}

/// Ends a node on which calls were timed, and drops its directory. It is dropped here alone: a place
/// where one is takes a check as long as that of a whole function.
pub(crate) fn end(node: Node<Key32>) {
    node.finish();
}

/// Makes, for timing, a node of this number, which accepts so many infos at a time.
pub(crate) fn node(
    alloc: Global,
    number: u64,
    dial_fail_limit: usize,
    count: usize,
) -> Result<Node<Key32>, AllocError> {
    Node::new(alloc, setup(alloc, number, dial_fail_limit, count)?)
}
