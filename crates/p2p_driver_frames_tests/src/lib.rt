//! Tests of frames of a driver, with moments and numbers of the rules: those that are read, handed
//! in, judged, said and written. They may use the crates of the library, `lines`, `failing_alloc`
//! and `p2p_driver_fixtures`; no crate uses them.
#![tactic(auto)]

#[cfg(test)]
mod driver;
