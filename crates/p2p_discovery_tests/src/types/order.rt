//! The order of addresses.

use crate::assertions::assert_holds;
use crate::types::fixtures::{LOCAL_V6, dns, v4};
use p2p_discovery::types::{Address, Ingress, SocketAddr};
use std::alloc::Global;
use std::test::Fail;

/// Ingresses in ascending order, for the test of the order of addresses.
fn rising(alloc: Global) -> Result<Vec<Ingress>, Fail> {
    let mut rising = Vec::new(alloc);
    for socket in [
        v4(1, 2, 3, 4, 9),
        v4(1, 2, 4, 0, 1),
        v4(255, 255, 255, 255, 1),
        SocketAddr::new(LOCAL_V6, 1),
        SocketAddr::new(LOCAL_V6, 2),
    ] {
        rising.push(Ingress::Socket(socket))?;
    }
    for (host, port) in [("a", 2), ("a.b", 1), ("b", 1)] {
        rising.push(dns(alloc, host, port)?)?;
    }
    Ok(rising)
}

#[test]
fn orders_addresses(rt: HostRuntime) -> Result<(), Fail> {
    let alloc = rt.alloc();
    let rising = rising(alloc)?;
    for pair in rising.as_slice().windows(2) {
        if let [low, high] = pair {
            assert_holds(&rt, low < high, (low, high));
        }
    }
    let symmetric = Address::Symmetric(SocketAddr::new(LOCAL_V6, 1));
    let asymmetric = Address::Asymmetric {
        ingress: Ingress::Socket(v4(0, 0, 0, 0, 0)),
        egress: v4(0, 0, 0, 0, 0),
    };
    assert!(rt; symmetric < asymmetric);
    Ok(())
}
