//! Values as bytes, and bytes as values.
//!
//! docs/FORMATS.md says how each value is encoded.

mod counted;
mod decode;
mod encode;
mod error;
mod fixed;
mod laws;
mod lists;
mod reader;
mod test_key;
mod varint;

pub(crate) use counted::{counted_size, read_length, write_counted};
pub use decode::Read;
pub use encode::{EncodeSize, MaxEncodeSize, Write};
pub use error::{CodecError, RangeCfg, What};
pub(crate) use fixed::write_value;
pub use fixed::{FixedBytes, PublicKey, read_array, write_array};
pub use laws::{bounded_size, cut_short, one_spelling, read_back, test_key_order, varint_grammar};
pub(crate) use lists::write_items;
pub use reader::Reader;
pub(crate) use reader::are_bytes;
pub use test_key::{TestKey, TestSignature};
