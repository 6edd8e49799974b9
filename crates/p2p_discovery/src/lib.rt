//! What peers tell each other: keys, addresses, signed infos and sets of peers, with their bytes.
//! It may use `bytes` and `thiserror`; the crates above use it.
#![tactic(auto)]

pub mod codec;
pub mod data;
pub mod discovery;
pub mod sets;
pub mod sizing;
pub mod types;
