//! The signature scheme of a session's keys, as contracts name it.

ghost use Rattle.p2p_session.specs.Schemes.{Scheme, scheme};

use p2p_discovery::codec::PublicKey;

/// The scheme of a type of keys. Each type of keys has one, and contracts name it. There is nothing
/// to call.
pub trait Keys: PublicKey {
    // How keys and signatures are encoded, the order of keys, and which signatures are valid.
    ghost scheme: { Scheme Self Self.Signature };
}

impl<C: PublicKey> Keys for C {
    ghost scheme = { scheme C.PublicKey C.Signature.FixedBytes };
}
