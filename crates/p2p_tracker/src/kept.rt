//! What is kept beside the records: retained peer sets with their bits, ends of blocks, and
//! cooldowns. This module doesn't know of records.

pub mod blocks;
pub mod cooldowns;
pub mod maps;
pub mod peer_set;
pub mod places;
pub mod window;
