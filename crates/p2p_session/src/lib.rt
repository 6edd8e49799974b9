//! A node behind calls that pass only bytes and numbers, for hosts in C and Rust.
//!
//! A [`Session`] holds one node with keys of one type. Each call decodes its arguments, makes one
//! call of the node and returns a number. It is a count, a bool as 0 or 1, the length in bytes of
//! an answer that it wrote at the start of the host's buffer, or the number of a [`Refusal`].
//! docs/C.md has all of these forms.
//!
//! A query whose answer doesn't fit the buffer returns its length and writes nothing; it can be
//! called again with a longer buffer. A call that changes something allocates before it takes
//! effect, and checks the length of its buffer beforehand, so no answer is lost.
//!
//! The host verifies signatures: [`Session::check`] lists which ones, and [`Session::receive`] is
//! given the results. There is no signature scheme in here.
#![tactic(auto)]

mod address;
mod answer;
mod checked;
mod commands;
mod frames;
mod given;
pub mod key;
pub mod laws;
mod refusal;
mod reply;
pub mod scheme;
pub mod session;
mod setup;

pub use crate::address::{is_global, is_valid};
pub use crate::key::{KEY_SIZE, Key, SIGNATURE_SIZE, Signature};
pub use crate::refusal::Refusal;
pub use crate::session::Session;
