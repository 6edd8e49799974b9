//! One directory of peers: who may be dialled or accepted, what is known of each peer, and what is
//! remembered when its record is removed. It may use `p2p_discovery`; `p2p_directory` re-exports
//! its modules and serves lists of calls on them.
#![tactic(auto)]

pub mod directory;
mod kept;
pub mod record;
