//! Worked examples of blocks.

use crate::examples::Row;

/// A block of zero duration is accepted and stored, though it blocks nobody.
pub static BLOCK_OF_NO_TIME: Row = Row {
    settings: "block=0",
    prepared: &["track 0 1"],
    steps: &[
        "block 1 100",
        "eligible 1 100",
        "blocked_peers 100",
        "next_unblock",
        "unblock_expired 100",
        "unblock_expired 100",
    ],
};

/// A block outlasts the record of its peer, and its peer is disconnected like any other.
pub static BLOCK_OVER_REBIRTH: Row = Row {
    settings: "",
    prepared: &[],
    steps: &[
        "track 0 1",
        "block 1 100",
        "track 1 2",
        "status 1",
        "track 2 1",
        "listen 1 159.999999999",
        "listen 1 160",
        "connect 1 false",
        "block 1 161",
        "track 3 2",
        "release 1",
        "status 1",
        "blocked_peers 170",
    ],
};

/// The next query may be due to a blocked peer that is not to be dialled.
pub static QUERY_AFTER_A_BLOCK: Row = Row {
    settings: "",
    prepared: &["track 0 1 / 2", "update 1@1000"],
    steps: &[
        "block 2 100",
        "dialable 100",
        "dialable 160",
        "next_unblock",
    ],
};
