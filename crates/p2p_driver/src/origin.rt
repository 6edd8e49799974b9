//! The addresses of inbound streams, as they are counted.

ghost use Rattle.std.specs.Prelude.{◌≡◌};
ghost use Rattle.std.specs.Int.{w128, from_be_bytes};
ghost use Rattle.p2p_driver.specs.Origins.{origin_of, counts_whole};

/// The part of an address by which streams are counted. An IPv4 address, which is written
/// `::ffff:a.b.c.d`, counts whole, and so does one of `64:ff9b::/96`, behind which there is one.
/// Others count by their first 64 bits: a host has all addresses of such a prefix.
#[derive(Clone, Copy, Debug, PartialEq, Eq)]
pub struct Origin(pub(crate) u128);

impl Origin {
    /// The part of this address that counts. The address is an IPv6 one, its first byte first.
    pub fn of(address: [u8; 16]) -> Self
        ensures { result.0 ≡ origin_of (from_be_bytes w128 address) }
    {
        let address = u128::from_be_bytes(address);
        if counts_whole(address) {
            Origin(address)
        } else {
            Origin(address >> 64 << 64)
        }
    }
}

// Whether all of the address counts.
fn counts_whole(address: u128) -> bool
    ensures { result ≡ counts_whole address }
{
    let prefix = address >> 32;
    prefix == 0xffff || prefix == 0x0064_ff9b_0000_0000_0000_0000
}
