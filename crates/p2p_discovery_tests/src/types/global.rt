//! Which addresses are global.

use crate::assertions::{assert_holds, assert_same_for};
use p2p_discovery::types::IpAddr;

// The ranges that are not global, each as the numbers of its first and its last address. No two
// ranges of version 4 touch. In version 6 the first two are written as one. Addresses next to each
// range and at both its ends are tested.
const RANGES_4: [(u32, u32); 13] = [
    (0, 0x00ff_ffff),
    (0x0a00_0000, 0x0aff_ffff),
    (0x6440_0000, 0x647f_ffff),
    (0x7f00_0000, 0x7fff_ffff),
    (0xa9fe_0000, 0xa9fe_ffff),
    (0xac10_0000, 0xac1f_ffff),
    (0xc000_0000, 0xc000_00ff),
    (0xc000_0200, 0xc000_02ff),
    (0xc0a8_0000, 0xc0a8_ffff),
    (0xc612_0000, 0xc613_ffff),
    (0xc633_6400, 0xc633_64ff),
    (0xcb00_7100, 0xcb00_71ff),
    (0xf000_0000, 0xffff_ffff),
];

const RANGES_6: [(u128, u128); 9] = [
    (0, 1),
    (0xffff_0000_0000, 0xffff_ffff_ffff),
    (
        0x0064_ff9b_0001_0000_0000_0000_0000_0000,
        0x0064_ff9b_0001_ffff_ffff_ffff_ffff_ffff,
    ),
    (
        0x0100_0000_0000_0000_0000_0000_0000_0000,
        0x0100_0000_0000_0000_ffff_ffff_ffff_ffff,
    ),
    (
        0x2001_0000_0000_0000_0000_0000_0000_0000,
        0x2001_01ff_ffff_ffff_ffff_ffff_ffff_ffff,
    ),
    (
        0x2001_0db8_0000_0000_0000_0000_0000_0000,
        0x2001_0db8_ffff_ffff_ffff_ffff_ffff_ffff,
    ),
    (
        0x2002_0000_0000_0000_0000_0000_0000_0000,
        0x2002_ffff_ffff_ffff_ffff_ffff_ffff_ffff,
    ),
    (
        0xfc00_0000_0000_0000_0000_0000_0000_0000,
        0xfdff_ffff_ffff_ffff_ffff_ffff_ffff_ffff,
    ),
    (
        0xfe80_0000_0000_0000_0000_0000_0000_0000,
        0xfebf_ffff_ffff_ffff_ffff_ffff_ffff_ffff,
    ),
];

fn is_global_4(number: u32) -> bool {
    IpAddr::V4(number.to_be_bytes()).is_global()
}

fn is_global_6(number: u128) -> bool {
    IpAddr::V6(number.to_be_bytes()).is_global()
}

#[test]
fn knows_both_ends_of_each_range(rt: HostRuntime) {
    for (first, last) in RANGES_4 {
        assert_holds(&rt, !is_global_4(first), ("the first", first));
        assert_holds(&rt, !is_global_4(last), ("the last", last));
        if let Some(before) = first.checked_sub(1) {
            assert_holds(&rt, is_global_4(before), ("before", first));
        }
        if let Some(behind) = last.checked_add(1) {
            assert_holds(&rt, is_global_4(behind), ("behind", last));
        }
    }
    for (first, last) in RANGES_6 {
        assert_holds(&rt, !is_global_6(first), ("the first", first));
        assert_holds(&rt, !is_global_6(last), ("the last", last));
        if let Some(before) = first.checked_sub(1) {
            assert_holds(&rt, is_global_6(before), ("before", first));
        }
        if let Some(behind) = last.checked_add(1) {
            assert_holds(&rt, is_global_6(behind), ("behind", last));
        }
    }
}

static GLOBAL_4: [([u8; 4], bool); 29] = [
    ([0, 0, 0, 0], false),
    ([0, 255, 255, 255], false),
    ([1, 0, 0, 0], true),
    ([9, 255, 255, 255], true),
    ([10, 255, 255, 255], false),
    ([11, 0, 0, 0], true),
    ([100, 63, 255, 255], true),
    ([100, 64, 0, 0], false),
    ([100, 127, 255, 255], false),
    ([100, 128, 0, 0], true),
    ([127, 255, 255, 255], false),
    ([169, 254, 255, 255], false),
    ([169, 255, 0, 0], true),
    ([172, 15, 255, 255], true),
    ([172, 31, 255, 255], false),
    ([172, 32, 0, 0], true),
    ([192, 0, 0, 255], false),
    ([192, 0, 1, 0], true),
    ([192, 0, 2, 255], false),
    ([192, 168, 255, 255], false),
    ([192, 169, 0, 0], true),
    ([198, 17, 255, 255], true),
    ([198, 19, 255, 255], false),
    ([198, 51, 100, 255], false),
    ([203, 0, 113, 255], false),
    ([203, 0, 114, 0], true),
    ([239, 255, 255, 255], true),
    ([240, 0, 0, 0], false),
    ([255, 255, 255, 255], false),
];

static GLOBAL_6: [([u8; 16], bool); 20] = [
    ([0, 0, 0, 0, 0, 0, 0, 0, 0, 0, 0, 0, 0, 0, 0, 0], false),
    ([0, 0, 0, 0, 0, 0, 0, 0, 0, 0, 0, 0, 0, 0, 0, 1], false),
    ([0, 0, 0, 0, 0, 0, 0, 0, 0, 0, 0, 0, 0, 0, 0, 2], true),
    (
        [0, 0, 0, 0, 0, 0, 0, 0, 0, 0, 0xff, 0xff, 8, 8, 8, 8],
        false,
    ),
    ([0, 0, 0, 0, 0, 0, 0, 0, 0, 0, 0xff, 0xfe, 8, 8, 8, 8], true),
    (
        [0, 0x64, 0xff, 0x9b, 0, 1, 0xff, 0, 0, 0, 0, 0, 0, 0, 0, 0],
        false,
    ),
    (
        [0, 0x64, 0xff, 0x9b, 0, 2, 0, 0, 0, 0, 0, 0, 0, 0, 0, 0],
        true,
    ),
    ([1, 0, 0, 0, 0, 0, 0, 0, 0xff, 0, 0, 0, 0, 0, 0, 0], false),
    ([1, 0, 0, 0, 0, 0, 0, 1, 0, 0, 0, 0, 0, 0, 0, 0], true),
    (
        [0x20, 1, 1, 0xff, 0, 0, 0, 0, 0, 0, 0, 0, 0, 0, 0, 0],
        false,
    ),
    ([0x20, 1, 2, 0, 0, 0, 0, 0, 0, 0, 0, 0, 0, 0, 0, 0], true),
    (
        [0x20, 1, 0x0d, 0xb8, 0xff, 0, 0, 0, 0, 0, 0, 0, 0, 0, 0, 0],
        false,
    ),
    (
        [0x20, 1, 0x0d, 0xb9, 0, 0, 0, 0, 0, 0, 0, 0, 0, 0, 0, 0],
        true,
    ),
    (
        [0x20, 2, 0xff, 0, 0, 0, 0, 0, 0, 0, 0, 0, 0, 0, 0, 0],
        false,
    ),
    ([0x20, 3, 0, 0, 0, 0, 0, 0, 0, 0, 0, 0, 0, 0, 0, 0], true),
    ([0xfb, 0xff, 0, 0, 0, 0, 0, 0, 0, 0, 0, 0, 0, 0, 0, 0], true),
    (
        [0xfd, 0xff, 0, 0, 0, 0, 0, 0, 0, 0, 0, 0, 0, 0, 0, 0],
        false,
    ),
    ([0xfe, 0x7f, 0, 0, 0, 0, 0, 0, 0, 0, 0, 0, 0, 0, 0, 0], true),
    (
        [0xfe, 0xbf, 0, 0, 0, 0, 0, 0, 0, 0, 0, 0, 0, 0, 0, 0],
        false,
    ),
    ([0xfe, 0xc0, 0, 0, 0, 0, 0, 0, 0, 0, 0, 0, 0, 0, 0, 0], true),
];

#[test]
fn knows_global_addresses(rt: HostRuntime) {
    for (address, want) in GLOBAL_4 {
        assert_same_for(&rt, IpAddr::V4(address).is_global(), want, address);
    }
    for (address, want) in GLOBAL_6 {
        assert_same_for(&rt, IpAddr::V6(address).is_global(), want, address);
    }
}
