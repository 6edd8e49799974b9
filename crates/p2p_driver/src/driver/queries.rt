//! What may be asked of a driver.

ghost use Rattle.std.specs.Prelude.{◌≡◌, [], length, option_map};
ghost use Rattle.std.specs.List.{count_by};
ghost use Rattle.p2p_driver.specs.Actions.{is_of_link};
ghost use Rattle.p2p_driver.specs.Links.{link_of};

use crate::driver::Driver;
use crate::link::Link;
use p2p_directory::node::Node;
use p2p_discovery::codec::PublicKey;

/// How much there is of a driver.
#[derive(Clone, Copy, Debug, PartialEq, Eq)]
pub struct Counts {
    /// Inbound streams whose key isn't proved yet.
    pub arrivals: usize,
    /// Links: those that are closing count until their streams end.
    pub links: usize,
    /// Actions that the host hasn't taken.
    pub actions: usize,
}

impl<C: PublicKey> Driver<C> {
    /// The driver's node, for queries.
    pub fn node(&self) -> &Node<C>
        ensures { record result.now { slots = [] } ≡ self.now.node }
    {
        &self.node
    }

    /// The link of a peer, or `None` if it has none. It may be closing. It doesn't allocate.
    ///
    /// # Cost
    ///
    /// One search among the links.
    pub fn link_of(&self, peer: &C) -> Option<Link>
        ensures { option_map (λ l. l.0) result
            ≡ option_map (λ held. held.number) (link_of C.cmp self.now.links peer.now) }
    {
        match self.links.get(peer) {
            Some(held) => Some(Link(held.number)),
            None => None,
        }
    }

    /// How many actions of a stream or a link the host hasn't taken: what is sent on it, its close,
    /// and what the application is told of it. 0 if there is no such link. It doesn't allocate.
    ///
    /// # Cost
    ///
    /// One pass over the actions that wait.
    pub fn pending(&self, link: Link) -> usize
        ensures { result ≡ count_by (is_of_link link.0) self.now.actions }
    {
        self.actions.count_of(link)
    }

    /// How many streams, links and actions there are. It doesn't allocate.
    pub fn counts(&self) -> Counts
        ensures arrivals { result.arrivals ≡ length self.now.arrivals }
        ensures links { result.links ≡ length self.now.links }
        ensures actions { result.actions ≡ length self.now.actions }
    {
        Counts {
            arrivals: self.arrivals.len(),
            links: self.links.len(),
            actions: self.actions.len(),
        }
    }
}
