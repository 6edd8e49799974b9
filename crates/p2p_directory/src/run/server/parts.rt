//! The parts of a server: its directory and its reservations.

ghost use Rattle.std.specs.Prelude.{◌≡◌, ◌<◌, IfOk, OnErr, length, option_map};
ghost use Rattle.std.specs.Duration.{as_nanos};
ghost use Rattle.std.specs.Option.{IsSomeAnd};
ghost use Rattle.p2p_tracker.specs.Directory.{infos_in, Updates};
ghost use Rattle.p2p_directory.specs.Held.{held_of, AreHeld};
ghost use Rattle.p2p_directory.specs.Private.Slots.{held_in};

use crate::run::commands::Reply;
use crate::run::held::Held;
use crate::run::outcome::Run;
use crate::run::server::Server;
use p2p_discovery::codec::PublicKey;
use p2p_discovery::discovery::{BitVec, Info};
use p2p_tracker::directory::{Directory, Metadata};
use std::alloc::AllocError;
use std::time::Duration;

impl<C: PublicKey> Server<C> {
    /// The directory of the server.
    pub fn directory(&self) -> &Directory<C>
        ensures { result.now ≡ self.now.directory }
    {
        &self.directory
    }

    /// Whom the reservation of the peer that the server holds is for, if it holds one. It doesn't
    /// allocate.
    pub fn held(&self, peer: &C) -> Option<&Metadata<C>>
        ensures { option_map (λ m. m.now) result ≡ held_in C.cmp self.now.slots peer.now }
    {
        self.slots.held(peer)
    }

    /// The infos that [`Directory::infos`] of the server's directory returns. It looks only at who
    /// is reserved or connected, if that is less work.
    pub fn infos_for(
        &self,
        bit_vec: &BitVec,
        now: Duration,
    ) -> Result<Option<Vec<Info<C>>>, AllocError>
        ensures infos { IfOk result (λ infos. option_map (λ v. v.items) infos ≡ infos_in C.cmp
            self.now.directory bit_vec.now.index bit_vec.now.bits (as_nanos now)) }
        ensures err { OnErr result (IsSomeAnd (infos_in C.cmp
            self.now.directory bit_vec.now.index bit_vec.now.bits (as_nanos now))
            (λ infos. 0 < length infos)) }
    {
        self.slots.infos(&self.directory, bit_vec, now)
    }

    /// Offers infos to the records of their peers in the server's directory. It doesn't allocate.
    pub fn update(&mut self, infos: Vec<Info<C>>)
        ensures updated { Updates C.cmp self.old.directory self.new.directory infos.items }
        ensures slots { self.new.slots ≡ self.old.slots }
    {
        self.directory.update_peers(infos);
    }

    /// The directory of the server, and its reservations. It doesn't allocate.
    pub fn into_parts(self) -> (Directory<C>, Held<C>)
        ensures directory { result.0 ≡ self.directory }
        ensures held { (q : C) → held_of C.cmp result.1 q ≡ held_in C.cmp self.slots q }
        ensures agree { AreHeld C.cmp result.0 (held_of C.cmp result.1) }
    {
        let Server { directory, slots } = self;
        (directory, slots.into_held())
    }

    /// The run that the server leaves: its directory, its reservations, and these replies. It
    /// doesn't allocate.
    pub fn into_run(self, replies: Vec<Reply<C>>) -> Run<C>
        ensures directory { result.directory ≡ self.directory }
        ensures held { (q : C) → held_of C.cmp result.held q ≡ held_in C.cmp self.slots q }
        ensures replies { result.replies ≡ replies }
    {
        let Server { directory, slots } = self;
        Run {
            directory,
            held: slots.into_held(),
            replies,
        }
    }
}
