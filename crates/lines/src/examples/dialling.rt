//! Worked examples of dials, and of what is known of a peer that is dialled.

use crate::examples::Row;

/// A peer may be dialled before it is listed as dialable, once it may be reserved.
pub static DIAL_BEFORE_LISTED: Row = Row {
    settings: "",
    prepared: &[],
    steps: &[
        "track 0 1",
        "update 1@1000",
        "dial 1 100 10",
        "release 1",
        "dialable 115",
        "dial 1 115",
    ],
};

/// The jitter is at most twice half the cooldown, rounded down, and times are capped at the last
/// one.
pub static JITTER_AND_LAST_MOMENT: Row = Row {
    settings: "cooldown=0.000000005",
    prepared: &["track 0 1", "update 1@1000"],
    steps: &[
        "listen 1 100 0.000000009",
        "release 1",
        "dialable 100.000000005",
        "dialable 100.000000009",
        "listen 1 M 0.000000009",
        "release 1",
        "listen 1 M 0.000000009",
    ],
};

/// The release of a dialled peer counts a failure, even after it was connected.
pub static FAILED_DIALS: Row = Row {
    settings: "",
    prepared: &["track 0 1", "update 1@1000"],
    steps: &[
        "bits 0",
        "dial 1 100",
        "connect 1 true",
        "bits 0",
        "release 1",
        "bits 0",
    ],
};

/// With a failure limit of 0 an info is wanted at once.
pub static NO_FAILURE_ALLOWED: Row = Row {
    settings: "dial_fail_limit=0",
    prepared: &["track 0 1", "update 1@1000"],
    steps: &["bits 0"],
};

/// The first info with the greatest timestamp is kept, and failures are those of its address.
pub static NEWEST_INFO: Row = Row {
    settings: "",
    prepared: &[
        "track 0 1",
        "listen 1 100",
        "connect 1 false",
        "update 1@1000:8001,1@1000:8002",
    ],
    steps: &[
        "info 1",
        "update 1@999:8003",
        "info 1",
        "update 1@1001:8004",
        "info 1",
        "release 1",
        "dial 1 110",
        "release 1",
        "bits 0",
        "update 1@1002:8004",
        "bits 0",
    ],
};
