//! Single measurements, each by a word.

mod driven;
mod drivers;
mod frames;
mod hour;
mod nodes;
mod runs;
mod wire;

use crate::scenarios::driven::{Who, driven_hours};
use crate::scenarios::drivers::{Passing, passings};
use crate::scenarios::hour::hours;
use crate::scenarios::nodes::{Call, of_nodes};
use crate::scenarios::runs::{Kind, runs};
use crate::scenarios::wire::{Way, bits, infos, ingresses, judgements, peers};
use crate::stop::Stop;
use crate::times::Times;

const NAMES: [&str; 27] = [
    "encode",
    "decode",
    "encode_names",
    "decode_names",
    "encode_info",
    "decode_info",
    "encode_peers",
    "decode_peers",
    "encode_bits",
    "decode_bits",
    "validate",
    "exchange",
    "node_status",
    "node_listen",
    "node_track",
    "node_dialable",
    "receive",
    "run_tracks",
    "run_listens",
    "run_cycles",
    "whole_run",
    "day",
    "driver",
    "driver_by_hand",
    "driver_idle",
    "driver_asks",
    "asks_by_hand",
];

fn of_bytes(rt: &HostRuntime, name: &str, count: usize, samples: usize) -> Result<Times, Stop> {
    match name {
        "encode" => ingresses(rt, count, samples, false, Way::Encode),
        "decode" => ingresses(rt, count, samples, false, Way::Decode),
        "encode_names" => ingresses(rt, count, samples, true, Way::Encode),
        "decode_names" => ingresses(rt, count, samples, true, Way::Decode),
        "encode_info" => infos(rt, count, samples, Way::Encode),
        "decode_info" => infos(rt, count, samples, Way::Decode),
        "encode_peers" => peers(rt, count, samples, Way::Encode),
        "decode_peers" => peers(rt, count, samples, Way::Decode),
        "encode_bits" => bits(rt, count, samples, Way::Encode),
        "decode_bits" => bits(rt, count, samples, Way::Decode),
        "validate" => judgements(rt, count, samples),
        _ => of_calls(rt, name, count, samples),
    }
}

fn of_calls(rt: &HostRuntime, name: &str, count: usize, samples: usize) -> Result<Times, Stop> {
    match name {
        "exchange" => of_nodes(rt, count, samples, Call::Exchange),
        "node_status" => of_nodes(rt, count, samples, Call::Status),
        "node_listen" => of_nodes(rt, count, samples, Call::Listen),
        "node_track" => of_nodes(rt, count, samples, Call::Track),
        "node_dialable" => of_nodes(rt, count, samples, Call::Dialable),
        "receive" => of_nodes(rt, count, samples, Call::Receive),
        "run_tracks" => runs(rt, count, samples, Kind::Tracks),
        "run_listens" => runs(rt, count, samples, Kind::Listens),
        "run_cycles" => runs(rt, count, samples, Kind::Cycles),
        "whole_run" => runs(rt, count, samples, Kind::Whole),
        "day" => hours(rt, count, samples),
        "driver" => driven_hours(rt, count, samples, Who::Driver),
        "driver_by_hand" => driven_hours(rt, count, samples, Who::Hand),
        "driver_idle" => passings(rt, count, samples, Passing::Idle),
        "driver_asks" => passings(rt, count, samples, Passing::Asks),
        "asks_by_hand" => passings(rt, count, samples, Passing::ByHand),
        _ => Err(Stop::Words),
    }
}

/// Times one of the scenarios, and prints the minimum, the median, and how much was done. A dot
/// before its name is ignored.
pub(crate) fn measure(
    rt: &HostRuntime,
    name: &str,
    count: &str,
    samples: &str,
) -> Result<(), Stop> {
    let (Ok(count), Ok(samples)) = (count.parse::<usize>(), samples.parse::<usize>()) else {
        return Err(Stop::Words);
    };
    let name = name.strip_prefix('.').unwrap_or(name);
    let summary = of_bytes(rt, name, count, samples)?.summary();
    let (least, median, done) = (summary.least, summary.median, summary.done);
    println!(rt; "{least} {median} {done}")?;
    Ok(())
}

/// Makes the calls of all timing scenarios with few peers, and prints what was done.
pub(crate) fn measure_few(rt: &HostRuntime) -> Result<(), Stop> {
    for name in &NAMES {
        let done = of_bytes(rt, name, 10, 2)?.summary().done;
        println!(rt; "{name}, 10 peers: {done} done")?;
    }
    Ok(())
}
