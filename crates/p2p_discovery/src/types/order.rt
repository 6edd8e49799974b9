//! The order of addresses, for users.

ghost use Rattle.std.specs.Prelude.{◌≡◌};
ghost use Rattle.p2p_discovery.specs.Order.{bytes_cmp, ip_cmp, socket_cmp, ingress_cmp};
ghost use Rattle.p2p_discovery.specs.Order.{address_cmp};
ghost use Rattle.p2p_discovery.specs.declared.types.socket.IpAddr.{IpAddr};
ghost use Rattle.p2p_discovery.specs.declared.types.socket.SocketAddr.{SocketAddr};
ghost use Rattle.p2p_discovery.specs.declared.types.hostname.Hostname.{Hostname};
ghost use Rattle.p2p_discovery.specs.declared.types.ingress.Ingress.{Ingress};
ghost use Rattle.p2p_discovery.specs.declared.types.address.Address.{Address};

use crate::types::{Address, Hostname, Ingress, IpAddr, SocketAddr};

/// States the order of addresses; this contract is all that the function has.
///
/// Version 4 sorts before version 6, then bytes decide, then ports. Sockets sort before names, and
/// symmetric addresses before asymmetric ones.
pub fn address_order()
    ensures ip { (a b : IpAddr) → ⟦<IpAddr as Ord>⟧.cmp a b ≡ ip_cmp a b }
    ensures socket { (a b : SocketAddr) → ⟦<SocketAddr as Ord>⟧.cmp a b ≡ socket_cmp a b }
    ensures hostname { (a b : Hostname) → ⟦<Hostname as Ord>⟧.cmp a b ≡ bytes_cmp a b }
    ensures ingress { (a b : Ingress) → ⟦<Ingress as Ord>⟧.cmp a b ≡ ingress_cmp a b }
    ensures address { (a b : Address) → ⟦<Address as Ord>⟧.cmp a b ≡ address_cmp a b }
{}
