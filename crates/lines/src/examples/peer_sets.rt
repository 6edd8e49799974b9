//! Worked examples of the retained sets.

use crate::examples::Row;

/// After index `u64::MAX` no set is accepted, and a peer that may not be reserved is refused.
pub static GREATEST_INDEX: Row = Row {
    settings: "",
    prepared: &[],
    steps: &[
        "track 18446744073709551615 1",
        "track 0 2",
        "track 18446744073709551615 2",
        "connect 1 true",
        "release 1",
        "listen 9 100",
        "listen 2 100",
        "dial 1 100",
        "bits 1",
        "latest_set_index",
    ],
};

/// A peer in both roles is primary only, and a secondary peer is accepted but not dialled.
pub static ROLES: Row = Row {
    settings: "max_sets=2",
    prepared: &[],
    steps: &[
        "track 0 1 / 1,2",
        "get_peer_set 0",
        "update 2@1000",
        "dial 2 100",
        "listen 2 100",
        "track 1 2",
        "all",
        "latest_update",
        "track 2 -",
        "track 3 -",
    ],
};
