//! An exchange of infos between two nodes.

ghost use Rattle.std.specs.Prelude.{◌≡◌, None};
ghost use Rattle.std.specs.Duration.{as_nanos};
ghost use Rattle.p2p_directory.specs.Exchange.{Exchanges, IsExchanged, Carries, infos_applied};

use crate::node::Node;
use crate::node::wire::Frames;
use p2p_discovery::codec::{CodecError, PublicKey};
use p2p_discovery::discovery::{Error, Info};
use std::fmt;
use std::time::Duration;

/// The result of an exchange.
#[derive(Drop)]
pub enum Exchanged<C: PublicKey> {
    /// The asker retains no set at the position. Nothing has changed.
    NoSet,
    /// The asker's bits are not within the replier's limits: the first error. Nothing has changed.
    AskRefused(CodecError),
    /// The replier has another number of primary peers at the index. Nothing has changed.
    Malformed,
    /// The reply is not within the asker's limits: the first error. Nothing has changed.
    ReplyRefused(CodecError),
    /// The asker finds an info of the reply, or their number, invalid. Nothing has changed.
    Invalid(Error),
    /// An allocation failed. Nothing has changed.
    Memory,
    /// All infos of the reply were applied: these, in their order.
    Applied(Vec<Info<C>>),
}

impl<C: PublicKey> fmt::Debug for Exchanged<C> {
    /// Writes what two nodes exchanged, by the name of the variant alone.
    fn fmt<W: fmt::Write>(&self, f: &mut fmt::Formatter<W>) -> fmt::Result {
        f.write_str(match self {
            Exchanged::NoSet => "NoSet",
            Exchanged::AskRefused(_) => "AskRefused",
            Exchanged::Malformed => "Malformed",
            Exchanged::ReplyRefused(_) => "ReplyRefused",
            Exchanged::Invalid(_) => "Invalid",
            Exchanged::Memory => "Memory",
            Exchanged::Applied(_) => "Applied",
        })
    }
}

/// Lets two nodes exchange infos, and returns what they exchanged. The asker asks the replier for
/// the wanted infos of the asker's retained set at a position, counted from 0 in order of index,
/// and applies the reply. This is [`Node::ask`] of the asker, [`Node::receive`] of that frame by
/// the replier, and of its reply by the asker: the result is read off theirs, and the asker is left
/// as by the last. The replier replies at `replier_now`, and the asker verifies at `asker_now`,
/// durations since the epoch. The replier stays as it was.
///
/// The result is the first of these that holds, unless an allocation fails:
///
/// - `NoSet`: there is no such position. It doesn't allocate.
/// - `AskRefused`: the bits, one for each primary peer of the set, are not within the replier's
///   limits. The error is `InvalidLength` of their number.
/// - `Malformed`: the replier retains a set of the index, with another number of primary peers.
/// - `ReplyRefused`: the infos that [`infos`](p2p_tracker::directory::Directory::infos) of the
///   replier returns for the bits are not within the asker's limits. The error is `InvalidLength`
///   of their number.
/// - `Invalid`: the asker rejects the infos, by
///   [`validate`](p2p_discovery::discovery::InfoVerifier::validate), for the first reason.
/// - `Applied`: the asker applied the infos, even if there are none, by
///   [`update_peers`](p2p_tracker::directory::Directory::update_peers).
///
/// # Errors
///
/// `Memory` if an allocation fails. It allocates only if there is such a position. All but
/// `Applied` leave the asker as it was.
///
/// # Cost
///
/// That of [`Node::ask`] and of [`Node::receive`] of each frame, and a copy of the infos.
pub fn exchange<C: PublicKey>(
    asker: &mut Node<C>,
    replier: &Node<C>,
    place: usize,
    asker_now: Duration,
    replier_now: Duration,
) -> Exchanged<C>
    ensures seen { Exchanges C.cmp ⟦<C as Frames>⟧.wire place (as_nanos asker_now)
        (as_nanos replier_now) result asker.old replier.now asker.new }
    ensures unchanged { infos_applied result ≡ None → asker.new ≡ asker.old }
    ensures exchanged { IsExchanged C.cmp ⟦<C as Frames>⟧.wire place (as_nanos asker_now)
        (as_nanos replier_now) result asker.old replier.now asker.new }
    ensures carried { Carries C.cmp ⟦<C as Frames>⟧.wire place (as_nanos asker_now)
        (as_nanos replier_now) result asker.old replier.now asker.new }
{
    asker.exchange_with(replier, place, asker_now, replier_now)
}
