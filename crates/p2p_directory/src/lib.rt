//! The directory of peers: who may be dialled or accepted, and what is known of each.
#![tactic(auto)]

pub mod laws;
pub mod node;
pub mod run;

pub use p2p_tracker::{directory, record};
