//! What a node returns for a frame.

use bytes::Bytes;
use p2p_discovery::codec::{CodecError, PublicKey};
use p2p_discovery::data::Data;
use p2p_discovery::discovery::{Error, Infos};
use std::fmt;

/// What a node returns for a frame.
#[derive(Drop)]
pub enum Received<C: PublicKey> {
    /// A message on a channel, which is a slice of the frame. Nothing has changed.
    Data(Data),
    /// The info of a greeting was applied: the key of its peer.
    Greeted(C),
    /// A frame with the infos for the bits that were received. Nothing has changed.
    Reply(Bytes),
    /// All infos of the frame were applied: their number.
    Applied(usize),
    /// The frame encodes no payload within the limits: its first error. Nothing has changed.
    Codec(CodecError),
    /// The number of bits that were received differs from the number of primary peers. Nothing has
    /// changed.
    Malformed,
    /// An info or the number of infos is invalid. Nothing has changed.
    Invalid(Error),
    /// An allocation failed. Nothing has changed.
    Memory,
}

impl<C: PublicKey> fmt::Debug for Received<C> {
    /// Writes what a node returned for a frame, by the name of the variant alone.
    fn fmt<W: fmt::Write>(&self, f: &mut fmt::Formatter<W>) -> fmt::Result {
        f.write_str(match self {
            Received::Data(_) => "Data",
            Received::Greeted(_) => "Greeted",
            Received::Reply(_) => "Reply",
            Received::Applied(_) => "Applied",
            Received::Codec(_) => "Codec",
            Received::Malformed => "Malformed",
            Received::Invalid(_) => "Invalid",
            Received::Memory => "Memory",
        })
    }
}

/// What a node returns for a frame that was decoded. The infos of a reply aren't encoded yet.
#[derive(Drop)]
pub enum Answer<C: PublicKey> {
    /// The infos for the bits that were received: encoded, they are a [`Received::Reply`]. Nothing
    /// has changed.
    Infos(Infos<C>),
    /// Any other result.
    Received(Received<C>),
}

/// The number of verification results that were passed differs from the number of infos of the
/// frame. Nothing has changed.
#[derive(Clone, Copy, Debug, PartialEq, Eq)]
pub struct Miscounted;
