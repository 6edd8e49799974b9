//! What a reply says, for a caller that knows the command.

ghost use Rattle.std.specs.Prelude.{◌≡◌, ◌⊎◌, Bool, true, Some, Option, List};

use crate::run::commands::Reply;
use p2p_discovery::codec::PublicKey;
use p2p_discovery::sets::OrderedSet;

impl<C: PublicKey> Reply<C> {
    /// Whether the reservation was granted, if this is the reply to a `Dial` or a `Listen` that
    /// didn't run out of memory. `None` for each other reply.
    pub fn granted(self) -> Option<bool>
        ensures some { (granted : Bool) → result ≡ Some granted →
            (self ≡ Reply.Dial granted) ⊎ (self ≡ Reply.Listen granted) }
        ensures dialled { (granted : Bool) → self ≡ Reply.Dial granted → result ≡ Some granted }
        ensures listened { (granted : Bool) → self ≡ Reply.Listen granted → result ≡ Some granted }
    {
        match self {
            Reply::Dial(granted) | Reply::Listen(granted) => Some(granted),
            _ => None,
        }
    }

    /// The result of [`Directory::track`](p2p_tracker::directory::Directory::track), if this is the
    /// reply to a `Track` that didn't run out of memory: the peers that must be disconnected, or
    /// `None` if the set was not accepted. `None` for each other reply.
    pub fn torn(self) -> Option<Option<OrderedSet<C>>>
        ensures some { (torn : Option (List C)) → result ≡ Some torn → self ≡ Reply.Track torn }
        ensures tracked { (torn : Option (List C)) → self ≡ Reply.Track torn → result ≡ Some torn }
    {
        match self {
            Reply::Track(torn) => Some(torn),
            _ => None,
        }
    }

    /// Whether the block was accepted, if this is the reply to a `Block` that didn't run out of
    /// memory. `None` for each other reply.
    pub fn blocked(self) -> Option<bool>
        ensures some { (taken : Bool) → result ≡ Some taken → self ≡ Reply.Block taken }
        ensures block { (taken : Bool) → self ≡ Reply.Block taken → result ≡ Some taken }
    {
        match self {
            Reply::Block(taken) => Some(taken),
            _ => None,
        }
    }

    /// Whether an allocation failed, so that nothing has changed.
    pub fn is_out_of_memory(&self) -> bool
        ensures yes { result ≡ true → self.now ≡ Reply.OutOfMemory }
        ensures back { self.now ≡ Reply.OutOfMemory → result ≡ true }
    {
        matches!(self, Reply::OutOfMemory)
    }
}
