//! Tests of a driver, with moments and numbers of the rules: of streams, links, sets, questions,
//! dials and timers. They may use the crates of the library, `lines`, `failing_alloc` and
//! `p2p_driver_fixtures`; no crate uses them.
#![tactic(auto)]

#[cfg(test)]
mod driver;
