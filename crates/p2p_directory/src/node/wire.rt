//! The wire of the frames of nodes, as contracts name it.

ghost use Rattle.p2p_directory.specs.Received.{Wire, wire_of};

use p2p_discovery::codec::PublicKey;

/// The frames of nodes with keys of one type. Each type of keys has them, and contracts name them.
/// There is nothing to call.
pub trait Frames: PublicKey {
    // How frames are read and encoded, and which signatures in them are valid.
    ghost wire: { Wire Self Self.Signature };
}

impl<C: PublicKey> Frames for C {
    ghost wire = { wire_of C.verifies C.FixedBytes C.Signature.FixedBytes };
}
