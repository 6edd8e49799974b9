//! Worked examples of what a directory shares with other nodes.

use crate::examples::Row;

/// For a peer that sent some bits, the other infos that may be shared are returned: the local one
/// and those of connected peers, not above the present millisecond.
pub static INFOS_FOR_BITS: Row = Row {
    settings: "",
    prepared: &[
        "track 5 1,2,3,9",
        "listen 1 50",
        "connect 1 false",
        "listen 2 50",
        "connect 2 false",
        "listen 3 50",
        "update 1@100000,2@100001,3@50000",
    ],
    steps: &[
        "infos 4 0000 100",
        "infos 5 000 100",
        "infos 5 0000 100",
        "infos 5 1001 100.000999999",
        "infos 5 1001 100.001",
    ],
};
