//! What a run leaves, and how it is released.

ghost use Rattle.p2p_directory.specs.Held.{held_of, AreHeld};

use crate::run::commands::Reply;
use crate::run::held::Held;
use p2p_discovery::codec::PublicKey;
use p2p_tracker::directory::Directory;

/// What a run leaves. A reservation is held of exactly the peers that are reserved or connected in
/// the directory.
pub struct Run<C: PublicKey> {
    /// The directory after the last command.
    pub directory: Directory<C>,
    /// The reservations that were granted and not released.
    pub held: Held<C>,
    /// One reply for each command, in their order.
    pub replies: Vec<Reply<C>>,
    pub ghost agree: { AreHeld C.cmp directory (held_of C.cmp held) },
}

impl<C: PublicKey> Run<C> {
    ghost use Rattle.p2p_directory.specs.Held.{ReleasesAll};

    /// Releases all reservations of a run's outcome, and returns its directory. It doesn't
    /// allocate. The replies are dropped.
    ///
    /// # Cost
    ///
    /// That of [`Held::release_all`].
    pub fn finish(self) -> Directory<C>
        ensures { ReleasesAll C.cmp self.held self.directory result }
    {
        let Run {
            mut directory,
            held,
            replies: _,
        } = self;
        held.release_all(&mut directory);
        directory
    }
}
