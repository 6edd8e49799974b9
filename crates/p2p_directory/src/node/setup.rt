//! What a node is made from.

use p2p_discovery::codec::PublicKey;
use p2p_discovery::discovery::{Info, PayloadConfig};
use p2p_discovery::types::Ingress;
use p2p_tracker::directory::Config;
use std::time::Duration;

/// What a node is made from.
#[derive(Drop)]
pub struct Setup<C: PublicKey> {
    /// The bootstrappers of its directory; if a key occurs twice, the later one counts.
    pub bootstrappers: Vec<(C, Ingress)>,
    /// The local info.
    pub myself: Info<C>,
    /// How its directory behaves.
    pub cfg: Config,
    /// The limits under which it reads frames.
    pub payload: PayloadConfig,
    /// How many infos it accepts at a time.
    pub peer_gossip_max_count: usize,
    /// How far ahead the timestamp of an info may be.
    pub synchrony_bound: Duration,
    /// The namespace in which infos are signed.
    pub namespace: Vec<u8>,
}
