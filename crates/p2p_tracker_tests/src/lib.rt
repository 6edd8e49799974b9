//! Tests of each call of a record, and of what no script can express about directories. They may use
//! `p2p_discovery` and `p2p_tracker`; no crate uses them.
//!
//! They are in a crate of their own, so that the library is proved once, and its mutants wait for
//! no test.
#![tactic(auto)]

#[cfg(test)]
mod directory;
#[cfg(test)]
mod examples;
#[cfg(test)]
mod fixtures;
#[cfg(test)]
mod record;
