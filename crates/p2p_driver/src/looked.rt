//! The frame that may be handed in next on a link.

ghost use Rattle.std.specs.Prelude.{◌≡◌};
ghost use Rattle.p2p_driver.specs.Looked.{looked_of, is_frame_of};

use std::marker::Model;

// So many first bytes of a frame are kept at most.
const KEPT: usize = 11;

/// The frame that may be handed in next on a link: its first bytes, of which at most 11 are kept,
/// and its length in bytes. A contract sees both.
#[derive(Clone, Copy, Debug)]
pub struct Looked {
    // The first bytes, and then zeros.
    head: [u8; KEPT],
    // How many first bytes are kept.
    count: usize,
    size: usize,
}

impl Model for Looked {
    ghost use Rattle.std.specs.Prelude.{◌≡◌, ◌-◌, ◌≤◌, ◌++◌, take, length, replicate};
    ghost use Rattle.p2p_driver.specs.Looked.{LookedView, padded};

    ghost Value = { LookedView };

    ghost view = { λ l. record { head = take l.count l.head; length = l.size } };

    ghost inverse = { λ v. record {
      head = padded v.head;
      count = length v.head;
      size = v.length;
    } };

    ghost invariant = { λ l. (l.count ≤ 11) × (length (take l.count l.head) ≡ l.count)
        × (padded (take l.count l.head) ≡ l.head) };

    ghost inverse_ok = { λ l h i. record { head = h.2 i; count = h.1 i; size = l.size } };
}

impl Looked {
    /// A frame of this length that begins with these bytes.
    pub fn new(head: &[u8], length: usize) -> Self
        ensures { result ≡ looked_of head.now length }
    {
        let count = head.len().min(KEPT);
        let mut kept = [0; KEPT];
        kept[..count].copy_from_slice(&head[..count]);
        Looked {
            head: kept,
            count,
            size: length,
        }
    }

    /// Whether this is the frame: it has that length, and begins with those bytes.
    pub fn is_of(&self, frame: &[u8]) -> bool
        ensures { result ≡ is_frame_of self.now frame.now }
    {
        frame.len() == self.size && frame.starts_with(&self.head[..self.count])
    }
}
