//! What the tests share: keys from numbers, addresses at 1.2.3.4, and 9 as the local key.

use p2p_discovery::codec::{TestKey, TestSignature};
use p2p_discovery::discovery::Info;
use p2p_discovery::sets::OrderedSet;
use p2p_discovery::types::{Ingress, IpAddr, SocketAddr};
use p2p_tracker::directory::{Config, Directory, TrackedPeers};
use std::alloc::{AllocError, Global};
use std::num::NonZeroUsize;
use std::time::Duration;

/// The address 1.2.3.4 with a port, a fixture of the tracker's tests.
pub fn ingress(port: u16) -> Ingress {
    Ingress::Socket(SocketAddr::new(IpAddr::V4([1, 2, 3, 4]), port))
}

/// The info of a peer at 1.2.3.4 with a port, a fixture of the tracker's tests.
pub fn info(key: u64, port: u16, timestamp: u64) -> Info<TestKey> {
    Info {
        ingress: ingress(port),
        timestamp,
        public_key: TestKey(key),
        signature: TestSignature(timestamp),
    }
}

/// A peer set with primary peers only, a fixture of the tracker's tests.
pub fn tracked(alloc: Global, numbers: &[u64]) -> Result<TrackedPeers<TestKey>, AllocError> {
    let primary = OrderedSet::from_iter_dedup(
        alloc,
        numbers.iter().map(|number| TestKey(*number)),
    )?;
    let secondary = OrderedSet::from_iter_dedup(alloc, [].into_iter().map(TestKey))?;
    Ok(TrackedPeers::new(primary, secondary))
}

/// A directory that retains so many sets more than one and requests an info again after one failed
/// dial, a fixture of the tracker's tests. Its bootstrappers are given as keys and ports.
fn directory_from(
    alloc: Global,
    more: u8,
    peers: &[(u64, u16)],
) -> Result<Directory<TestKey>, AllocError> {
    let mut bootstrappers = Vec::new(alloc);
    for (key, port) in peers {
        bootstrappers.push((TestKey(*key), ingress(*port)))?;
    }
    let config = Config {
        allow_private_ips: true,
        allow_dns: true,
        max_sets: NonZeroUsize::MIN.saturating_add(more as usize),
        dial_fail_limit: 1,
        peer_connection_cooldown: Duration::from_secs(10),
        block_duration: Duration::from_secs(60),
    };
    Directory::init(alloc, bootstrappers, info(9, 8000, 0), config)
}

/// What is found in such a directory that retains one set, a fixture of the tracker's tests.
pub fn found_in<T, F: FnOnce(&mut Directory<TestKey>) -> Result<T, AllocError>>(
    alloc: Global,
    peers: &[(u64, u16)],
    find: F,
) -> Result<T, AllocError>
    requires { F.IsAlwaysCallable find }
{
    found_retaining(alloc, 0, peers, find)
}

/// What is found in one that retains so many sets more, which is dropped here alone, a fixture of
/// the tracker's tests: each place where one is dropped takes a check as long as that of a test.
pub fn found_retaining<T, F: FnOnce(&mut Directory<TestKey>) -> Result<T, AllocError>>(
    alloc: Global,
    more: u8,
    peers: &[(u64, u16)],
    find: F,
) -> Result<T, AllocError>
    requires { F.IsAlwaysCallable find }
{
    let mut directory = directory_from(alloc, more, peers)?;
    find(&mut directory)
}
