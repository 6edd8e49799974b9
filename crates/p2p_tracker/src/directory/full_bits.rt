//! The bits by which all infos of a set are asked for.

ghost use Rattle.std.specs.Prelude.{◌≡◌, slice_get, None, map, IfOk, IsOk};
ghost use Rattle.std.specs.BTreeMap.{is_at};

use crate::directory::Directory;
use p2p_discovery::codec::PublicKey;
use p2p_discovery::discovery::BitVec;
use p2p_discovery::sets::{BitMap, OrderedSet};
use std::alloc::{AllocError, Global};
use std::cmp::Ordering;

impl<C: PublicKey> Directory<C> {
    ghost use Rattle.p2p_tracker.specs.Directory.{full_bit_vec_at};

    /// The bits of the directory's retained set at a position, counted from 0 in order of index,
    /// with its index, by which all infos of its peers are asked for. They are 0 for each primary
    /// peer in order, and 1 for the local node if it is one. `None` if there is no such position.
    ///
    /// # Errors
    ///
    /// `AllocError` if an allocation fails.
    ///
    /// # Cost
    ///
    /// One comparison of keys for each primary peer of the set.
    pub fn get_full_bit_vec(&self, place: usize) -> Result<Option<BitVec>, AllocError>
        ensures bits { IfOk result (λ bits. bits ≡ full_bit_vec_at C.cmp self.now place) }
        ensures none { slice_get self.now.sets place ≡ None → IsOk result }
    {
        match self.sets.at(place) {
            Some(set) => Ok(Some(BitVec {
                index: set.index(),
                bits: bits_at(self.alloc, set.primary().ordered(), &self.own)?,
            })),
            None => Ok(None),
        }
    }
}

// A bit for each of the peers in order: 1 for this key, 0 for each other one.
fn bits_at<C: PublicKey>(
    alloc: Global,
    peers: &OrderedSet<C>,
    own: &C,
) -> Result<BitMap, AllocError>
    ensures { IfOk result (λ bits. bits ≡ map (is_at (C.cmp own.now)) peers.now) }
{
    let peers = peers.as_slice();
    let mut bits = BitMap::zeroes(alloc, peers.len() as u64)?;
    for place in 0..peers.len() {
        bits.set(place as u64, own.cmp(&peers[place]) == Ordering::Equal);
    }
    Ok(bits)
}
