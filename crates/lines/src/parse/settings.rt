//! Settings of a node.

ghost use Rattle.std.specs.Prelude.{◌≡◌, ◌<◌, ◌-◌, ◌^◌, IfOk};
ghost use Rattle.std.specs.Int.NonZero.{non_zero_usize_get};

use crate::fault::Fault;
use crate::parse::infos::{bootstrappers, ingress, signed};
use crate::parse::nearest::nearest_setting;
use crate::parse::words::{moment, number, size, truth};
use p2p_directory::directory::Config;
use p2p_directory::node::Setup;
use p2p_discovery::codec::TestKey;
use p2p_discovery::discovery::{Info, PayloadConfig};
use p2p_discovery::types::{Ingress, IpAddr, SocketAddr};
use std::alloc::{AllocError, Global};
use std::num::NonZeroUsize;
use std::str::SplitWhitespace;
use std::time::Duration;

/// The namespace of a node whose settings name none.
pub const NAMESPACE: &[u8] = b"rows";

/// The settings of a node, with their default values.
pub static SETTINGS: [(&'static str, &'static str); 16] = [
    ("max_sets", "1"),
    ("dial_fail_limit", "1"),
    ("cooldown", "10"),
    ("block", "60"),
    ("private", "true"),
    ("dns", "true"),
    ("own", "9"),
    ("own_at", "8.8.8.8:9000"),
    ("own_ts", "0"),
    ("boot", "-"),
    ("max_bit_vec", "8"),
    ("max_peers", "8"),
    ("max_data_length", "32"),
    ("gossip", "8"),
    ("bound", "30"),
    ("namespace", "rows"),
];

/// The setup of a node for which a line has no settings.
pub fn default_setup(alloc: Global) -> Result<Setup<TestKey>, AllocError>
    ensures sets { IfOk result (λ s. non_zero_usize_get s.cfg.max_sets < 2 ^ 64 - 1) }
    ensures bits { IfOk result (λ s. s.payload.max_bit_vec < 2 ^ 32) }
{
    let ingress = Ingress::Socket(SocketAddr::new(IpAddr::V4([8, 8, 8, 8]), 9_000));
    Ok(Setup {
        bootstrappers: Vec::new(alloc),
        myself: signed(TestKey(9), NAMESPACE, ingress, 0),
        cfg: Config {
            allow_private_ips: true,
            allow_dns: true,
            max_sets: NonZeroUsize::MIN,
            dial_fail_limit: 1,
            peer_connection_cooldown: Duration::from_secs(10),
            block_duration: Duration::from_secs(60),
        },
        payload: PayloadConfig {
            max_bit_vec: 8,
            max_peers: 8,
            max_data_length: 32,
        },
        peer_gossip_max_count: 8,
        synchrony_bound: Duration::from_secs(30),
        namespace: NAMESPACE.to_vec(alloc)?,
    })
}

/// Parses the words of settings as the setup of a node. Its local info is signed in its namespace.
pub fn setup_of(alloc: Global, settings: SplitWhitespace<'_>) -> Result<Setup<TestKey>, Fault>
    ensures sets { IfOk result (λ s. non_zero_usize_get s.cfg.max_sets < 2 ^ 64 - 1) }
    ensures bits { IfOk result (λ s. s.payload.max_bit_vec < 2 ^ 32) }
{
    let mut setup = default_setup(alloc)?;
    for word in settings {
        let Some((name, value)) = word.split_once('=') else {
            return Err(Fault::Form("a setting as cooldown=10"));
        };
        set(alloc, &mut setup, name, value)?;
    }
    if setup.cfg.max_sets.get() == usize::MAX {
        return Err(Fault::TooLarge("max_sets", u64::MAX - 1));
    }
    if setup.payload.max_bit_vec > u64::from(u32::MAX) {
        return Err(Fault::TooLarge("max_bit_vec", u64::from(u32::MAX)));
    }
    Ok(signed_anew(setup))
}

fn signed_anew(setup: Setup<TestKey>) -> Setup<TestKey>
    ensures sets { result.cfg ≡ setup.cfg }
    ensures bits { result.payload ≡ setup.payload }
{
    let Setup {
        bootstrappers,
        myself,
        cfg,
        payload,
        peer_gossip_max_count,
        synchrony_bound,
        namespace,
    } = setup;
    let Info {
        ingress,
        timestamp,
        public_key,
        signature: _,
    } = myself;
    Setup {
        bootstrappers,
        myself: signed(public_key, namespace.as_slice(), ingress, timestamp),
        cfg,
        payload,
        peer_gossip_max_count,
        synchrony_bound,
        namespace,
    }
}

// Parses one setting of a node, and changes it in the setup.
fn set(alloc: Global, setup: &mut Setup<TestKey>, name: &str, value: &str) -> Result<(), Fault> {
    match name {
        "max_sets" => setup.cfg.max_sets = max_sets(value)?,
        "dial_fail_limit" => setup.cfg.dial_fail_limit = size(value)?,
        "cooldown" => setup.cfg.peer_connection_cooldown = moment(value)?,
        "block" => setup.cfg.block_duration = moment(value)?,
        "private" => setup.cfg.allow_private_ips = truth(value)?,
        "dns" => setup.cfg.allow_dns = truth(value)?,
        "own" => setup.myself.public_key = TestKey(number(value)?),
        "own_at" => setup.myself.ingress = ingress(alloc, value)?,
        "own_ts" => setup.myself.timestamp = number(value)?,
        "boot" => setup.bootstrappers = bootstrappers(alloc, value)?,
        _ => return set_limit(alloc, setup, name, value),
    }
    Ok(())
}

fn set_limit(
    alloc: Global,
    setup: &mut Setup<TestKey>,
    name: &str,
    value: &str,
) -> Result<(), Fault> {
    match name {
        "max_bit_vec" => setup.payload.max_bit_vec = number(value)?,
        "max_peers" => setup.payload.max_peers = size(value)?,
        "max_data_length" => setup.payload.max_data_length = size(value)?,
        "gossip" => setup.peer_gossip_max_count = size(value)?,
        "bound" => setup.synchrony_bound = moment(value)?,
        "namespace" => setup.namespace = value.as_bytes().to_vec(alloc)?,
        _ => return Err(Fault::Unknown("setting", nearest_setting(name))),
    }
    Ok(())
}

fn max_sets(value: &str) -> Result<NonZeroUsize, Fault> {
    match NonZeroUsize::new(size(value)?) {
        Some(sets) => Ok(sets),
        None => Err(Fault::Form("max_sets of at least 1")),
    }
}
