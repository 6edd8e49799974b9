//! Tests of codecs, addresses, sets, infos and sizes through the public calls of `p2p_discovery`.
//! They may use `bytes` and `failing_alloc`, too; no crate uses them.
//!
//! They are in a crate of their own, so that the library is proved once, and its mutants wait for
//! no test.
#![tactic(auto)]

#[cfg(test)]
mod assertions;
#[cfg(test)]
mod codec;
#[cfg(test)]
mod data;
#[cfg(test)]
mod discovery;
#[cfg(test)]
mod every_byte;
#[cfg(test)]
mod out_of_memory;
#[cfg(test)]
mod sets;
#[cfg(test)]
mod sizes;
#[cfg(test)]
mod sizing;
#[cfg(test)]
mod types;
