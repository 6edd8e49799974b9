//! Drivers: each answer and each action of streams, of their proofs, of dials, of links, of sets
//! and of time, by the rules.

mod application;
mod clocks;
mod dial_ends;
mod dial_famine;
mod dialed;
mod dials;
mod famine;
mod kept;
mod late;
mod later;
mod links;
mod queries;
mod questions;
mod rooms;
mod sets;
mod slow;
mod streams;
mod ticks;
mod turns;
