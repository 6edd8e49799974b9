//! The addresses that are not global.

ghost use Rattle.std.specs.Prelude.{◌≡◌, ◌-◌, ◌/◌, ◌^◌};
ghost use Rattle.std.specs.Int.{w32, w128};
ghost use Rattle.std.specs.List.{list_any};
ghost use Rattle.p2p_discovery.specs.Global.{lies_in, not_global_v4, not_global_v6};

// Ranges a/n: a, and n.
const NOT_GLOBAL_V4: [([u8; 4], u32); 13] = [
    ([0, 0, 0, 0], 8),
    ([10, 0, 0, 0], 8),
    ([100, 64, 0, 0], 10),
    ([127, 0, 0, 0], 8),
    ([169, 254, 0, 0], 16),
    ([172, 16, 0, 0], 12),
    ([192, 0, 0, 0], 24),
    ([192, 0, 2, 0], 24),
    ([192, 168, 0, 0], 16),
    ([198, 18, 0, 0], 15),
    ([198, 51, 100, 0], 24),
    ([203, 0, 113, 0], 24),
    ([240, 0, 0, 0], 4),
];

const NOT_GLOBAL_V6: [([u8; 16], u32); 10] = [
    ([0, 0, 0, 0, 0, 0, 0, 0, 0, 0, 0, 0, 0, 0, 0, 0], 128),
    ([0, 0, 0, 0, 0, 0, 0, 0, 0, 0, 0, 0, 0, 0, 0, 1], 128),
    ([0, 0, 0, 0, 0, 0, 0, 0, 0, 0, 0xff, 0xff, 0, 0, 0, 0], 96),
    (
        [0, 0x64, 0xff, 0x9b, 0, 1, 0, 0, 0, 0, 0, 0, 0, 0, 0, 0],
        48,
    ),
    ([1, 0, 0, 0, 0, 0, 0, 0, 0, 0, 0, 0, 0, 0, 0, 0], 64),
    ([0x20, 1, 0, 0, 0, 0, 0, 0, 0, 0, 0, 0, 0, 0, 0, 0], 23),
    (
        [0x20, 1, 0x0d, 0xb8, 0, 0, 0, 0, 0, 0, 0, 0, 0, 0, 0, 0],
        32,
    ),
    ([0x20, 2, 0, 0, 0, 0, 0, 0, 0, 0, 0, 0, 0, 0, 0, 0], 16),
    ([0xfc, 0, 0, 0, 0, 0, 0, 0, 0, 0, 0, 0, 0, 0, 0, 0], 7),
    ([0xfe, 0x80, 0, 0, 0, 0, 0, 0, 0, 0, 0, 0, 0, 0, 0, 0], 10),
];

// Whether the address lies in a range of version 4 that isn't global.
pub(crate) fn is_listed_v4(address: [u8; 4]) -> bool
    ensures { result ≡ list_any (lies_in w32 address) not_global_v4 }
{
    let number = u32::from_be_bytes(address);
    NOT_GLOBAL_V4.iter().any(|(first, bits)| {
        first_bits_v4(number, *bits) == first_bits_v4(u32::from_be_bytes(*first), *bits)
    })
}

// Whether the address lies in a range of version 6 that isn't global.
pub(crate) fn is_listed_v6(address: [u8; 16]) -> bool
    ensures { result ≡ list_any (lies_in w128 address) not_global_v6 }
{
    let number = u128::from_be_bytes(address);
    NOT_GLOBAL_V6.iter().any(|(first, bits)| {
        first_bits_v6(number, *bits) == first_bits_v6(u128::from_be_bytes(*first), *bits)
    })
}

fn first_bits_v4(address: u32, bits: u32) -> u32
    ensures { result ≡ address / 2 ^ (32 - bits) }
{
    address.checked_shr(32u32.saturating_sub(bits)).unwrap_or(0)
}

fn first_bits_v6(address: u128, bits: u32) -> u128
    ensures { result ≡ address / 2 ^ (128 - bits) }
{
    address
        .checked_shr(128u32.saturating_sub(bits))
        .unwrap_or(0)
}
