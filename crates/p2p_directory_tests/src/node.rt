//! Messages that share memory with their frames, and an exchange of two nodes.

use crate::fixtures::found_by;
use bytes::Bytes;
use lines::command;
use p2p_directory::node::{Exchanged, Node, Received, exchange};
use p2p_directory::run::Command;
use p2p_discovery::codec::TestKey;
use std::alloc::Global;
use std::test::Fail;
use std::time::Duration;

mod asks;
mod decoded;
mod network;
mod questions;

const MEBIBYTE: usize = 1 << 20;

/// A time for the tests of a node, 100 seconds.
pub fn hundred() -> Duration {
    Duration::from_secs(100)
}

fn long_frame(alloc: Global) -> Result<Bytes, Fail> {
    let mut bytes = b"\0\x01\x80\x80\x40".as_slice().to_vec(alloc)?;
    bytes.resize(MEBIBYTE + 5, 7)?;
    Ok(Bytes::from_vec(bytes)?)
}

// Whether a tested node's message has all its bytes, and shares memory with the kept frame until it
// is dropped.
fn is_cut(received: Received<TestKey>, kept: &Bytes) -> bool {
    match received {
        Received::Data(data) => {
            let shared = data.message.len() == MEBIBYTE && !kept.is_unique();
            drop(data);
            shared && kept.is_unique()
        }
        _ => false,
    }
}

#[test]
fn a_message_is_a_cut_of_its_frame(rt: HostRuntime) -> Result<(), Fail> {
    let alloc = rt.alloc();
    let frame = long_frame(alloc)?;
    let kept = frame.clone()?;
    let received = found_by(alloc, "max_data_length=1048576", &[], |node| {
        node.receive(frame, hundred())
    })?;
    assert!(rt; is_cut(received, &kept));
    Ok(())
}

/// Lines after which the replier is connected to peer 1 and knows its info.
pub const REPLIER: [&str; 4] = [
    "track 0 1,2",
    "listen 1 100",
    "connect 1 false",
    "update 1@1000",
];

// Whether an exchange of the tested nodes returns exactly one info, that of peer 1.
fn brings_one(asker: &mut Node<TestKey>, replier: &Node<TestKey>) -> bool {
    match exchange(asker, replier, 0, hundred(), hundred()) {
        Exchanged::Applied(infos) => match infos.as_slice() {
            [only] => only.public_key == TestKey(1) && only.timestamp == 1_000,
            _ => false,
        },
        _ => false,
    }
}

fn finds_no_set(asker: &mut Node<TestKey>, replier: &Node<TestKey>) -> bool {
    matches!(
        exchange(asker, replier, 0, hundred(), hundred()),
        Exchanged::NoSet
    )
}

fn exchanges(asker: &mut Node<TestKey>, replier: &Node<TestKey>, set: Command<TestKey>) -> bool {
    let first = finds_no_set(asker, replier);
    asker.step(set);
    first && brings_one(asker, replier)
}

#[test]
fn an_exchange_brings_what_is_wanted(rt: HostRuntime) -> Result<(), Fail> {
    let alloc = rt.alloc();
    let set = command(alloc, "track 0 1,2")?;
    let exchanged = found_by(alloc, "own=8", &REPLIER, |replier| {
        found_by(alloc, "", &[], |asker| exchanges(asker, replier, set))
    })??;
    assert!(rt; exchanged);
    Ok(())
}
