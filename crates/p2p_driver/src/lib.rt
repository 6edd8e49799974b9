//! The driver: what a program with sockets has to decide about connections, greetings, rates,
//! timers and dials, as a state machine over one node. It may use `p2p_discovery`, `p2p_tracker`
//! and `p2p_directory`.
#![tactic(auto)]

pub mod actions;
pub mod admission;
pub mod answers;
pub mod arrivals;
mod channels;
mod connections;
mod deadlines;
pub mod digest;
pub mod driver;
mod frames;
pub mod grants;
pub mod heads;
mod hearing;
pub mod laws;
pub mod link;
pub mod links;
pub mod looked;
pub mod meters;
pub mod next_dial;
pub mod origin;
pub mod pace;
mod questions;
pub mod rate;
pub mod reads;
pub mod recommended;
mod serving;
mod steps;
mod streams;
pub mod unwritten;
