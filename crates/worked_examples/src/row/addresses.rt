//! Worked examples of addresses.

use crate::row::{Stop, print};
use p2p_discovery::types::{Hostname, Ingress, IpAddr, SocketAddr};
use std::alloc::Global;
use std::fmt;
use std::io::Write;

/// Whether an ingress is valid if private addresses and names are both not allowed, if only names
/// are, if only private addresses are, and if both are.
#[derive(Drop)]
struct Validity([bool; 4]);

impl fmt::Display for Validity {
    fn fmt<W: fmt::Write>(&self, f: &mut fmt::Formatter<W>) -> fmt::Result {
        let Validity([neither, names, private, both]) = self;
        write!(f, "{neither} {names} {private} {both}")
    }
}

fn validity_of(ingress: &Ingress) -> Validity {
    Validity([
        ingress.is_valid(false, false),
        ingress.is_valid(false, true),
        ingress.is_valid(true, false),
        ingress.is_valid(true, true),
    ])
}

fn socket(address: [u8; 4]) -> Ingress {
    Ingress::Socket(SocketAddr::new(IpAddr::V4(address), 8080))
}

/// Prints the row of addresses: which are valid under the configuration.
pub fn valid_addresses<W: Write>(alloc: Global, out: &mut W) -> Result<(), Stop> {
    let host = match Hostname::new(alloc, "example.com") {
        Ok(host) => host,
        Err(_) => return Err(Stop::Memory),
    };
    print(out, &validity_of(&socket([100, 128, 0, 0])))?;
    print(out, &validity_of(&socket([100, 127, 255, 255])))?;
    print(out, &validity_of(&Ingress::Dns { host, port: 8080 }))
}
