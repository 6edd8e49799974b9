//! Worked examples as lines: what is done to a directory, or to two nodes.

use std::alloc::{AllocError, Global};

pub mod blocks;
pub mod dialling;
pub mod exchanges;
pub mod gossip;
pub mod peer_sets;

/// What is done to the directory of a node with some settings: the preparation gets replies, too,
/// which are not printed.
#[derive(Clone, Copy)]
pub struct Row {
    /// The settings.
    pub settings: &'static str,
    /// What is done first.
    pub prepared: &'static [&'static str],
    /// What is done then.
    pub steps: &'static [&'static str],
}

/// What is done to two nodes with some settings: an asker, which is the left one, and a replier.
/// The preparation is not printed.
#[derive(Clone, Copy)]
pub struct Part {
    /// The settings of the asker.
    pub asker: &'static str,
    /// The settings of the replier.
    pub replier: &'static str,
    /// What is done first.
    pub prepared: &'static [&'static str],
    /// What is done then.
    pub steps: &'static [&'static str],
}

/// All lines of a worked example, those of its preparation, and then its steps.
pub fn all_lines(
    alloc: Global,
    prepared: &[&'static str],
    steps: &[&'static str],
) -> Result<Vec<&'static str>, AllocError> {
    let mut lines = Vec::new(alloc);
    lines.extend_from_slice(prepared)?;
    lines.extend_from_slice(steps)?;
    Ok(lines)
}

/// A reserved peer must be disconnected with the last set that names it, and its release removes
/// its record.
pub static TEARDOWN: Row = Row {
    settings: "",
    prepared: &[],
    steps: &[
        "track 0 1",
        "listen 1 100",
        "track 0 2",
        "track 1 2",
        "status 1",
        "release 1",
        "status 1",
        "track 2 1",
        "listen 1 105",
    ],
};

/// A new set is counted before the oldest is dropped, so what is known of a peer of both stays.
pub static KNOWLEDGE: Row = Row {
    settings: "",
    prepared: &[],
    steps: &[
        "track 0 1",
        "update 1@1000",
        "track 1 1,2",
        "bits 0",
        "tracked",
    ],
};

/// A peer is reserved again after the cooldown, even if its record is made again.
pub static COOLDOWN: Row = Row {
    settings: "",
    prepared: &[],
    steps: &[
        "track 0 1",
        "listen 1 100",
        "release 1",
        "listen 1 109.999999999",
        "listen 1 110",
        "release 1",
        "track 1 2",
        "track 2 1",
        "listen 1 111",
    ],
};

/// A cooldown outlives the record of its peer; from its dial time on it can be forgotten.
pub static FORGOTTEN_COOLDOWN: Row = Row {
    settings: "",
    prepared: &[],
    steps: &[
        "track 0 1",
        "listen 1 100 4",
        "release 1",
        "track 1 2",
        "tracked",
        "forget_cooled 113.999999999",
        "track 2 1",
        "update 1@1000",
        "dialable 112",
        "listen 1 109.999999999",
        "forget_cooled 114",
        "forget_cooled 114",
        "listen 1 105",
    ],
};
