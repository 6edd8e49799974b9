//! Worked examples of two nodes: one asks, the other replies.

use crate::examples::Part;

// The settings of the replier, which is the right node. Those of the asker, the left one, are
// nothing unless a part says so.
const REPLIER: &str = "own=8 own_at=8.8.4.4:9000";

/// Each result of an exchange. If the replier is connected to peer 1, it knows its info, which is of
/// time 100.
pub static PARTS: [Part; 7] = [
    // The info that the asker wants is rejected as long as it is too far ahead, and then applied.
    Part {
        asker: "",
        replier: REPLIER,
        prepared: &[
            "left: track 0 1,2",
            "right: track 0 1,2",
            "right: update 1@100000",
            "right: listen 1 50",
            "right: connect 1 false",
        ],
        steps: &[
            "left: ask 0",
            "left: exchange right 0 69.999 100",
            "left: exchange right 0 69.999999999 100",
            "left: bits 0",
            "left: exchange right 0 70 100",
            "left: bits 0",
            "left: exchange right 0 70 100",
        ],
    },
    // The replier's set has the asker in the position of another peer in the asker's.
    Part {
        asker: "",
        replier: REPLIER,
        prepared: &[
            "left: track 0 1,2",
            "right: track 0 1,9",
            "right: update 9@1000",
            "right: listen 9 50",
            "right: connect 9 false",
        ],
        steps: &["left: exchange right 0 100 100"],
    },
    // Another number of peers.
    Part {
        asker: "",
        replier: REPLIER,
        prepared: &["left: track 0 1,2", "right: track 0 1"],
        steps: &["left: exchange right 0 100 100"],
    },
    // More bits than the replier decodes.
    Part {
        asker: "",
        replier: "own=8 own_at=8.8.4.4:9000 max_bit_vec=1",
        prepared: &["left: track 0 1,2", "right: track 0 1,2"],
        steps: &["left: exchange right 0 100 100"],
    },
    // No set.
    Part {
        asker: "",
        replier: REPLIER,
        prepared: &[],
        steps: &["left: exchange right 0 100 100"],
    },
    // Another index.
    Part {
        asker: "",
        replier: REPLIER,
        prepared: &["left: track 0 1,2", "right: track 4 1,2"],
        steps: &["left: exchange right 0 100 100"],
    },
    // More infos than the asker decodes.
    Part {
        asker: "max_peers=0",
        replier: REPLIER,
        prepared: &[
            "left: track 0 1,2",
            "right: track 0 1,2",
            "right: update 1@100000",
            "right: listen 1 50",
            "right: connect 1 false",
        ],
        steps: &["left: exchange right 0 70 100"],
    },
];
