//! Nodes with names.

ghost use Rattle.std.specs.Prelude.{◌≡◌, ◌<◌, ◌-◌, ◌^◌, [], IfSome, IfNone, OnOk, OnErr};
ghost use Rattle.std.specs.Prelude.{IfOk, length, slice_index_or, string_bytes};
ghost use Rattle.std.specs.List.{All};
ghost use Rattle.std.specs.Int.NonZero.{non_zero_usize_get};
ghost use Rattle.p2p_directory.specs.Network.{IsServedAmong};
ghost use Rattle.p2p_directory.specs.Received.{wire_of};
ghost use Rattle.play.specs.Session.{IsPut, IsCalled};

use crate::label::Label;
use lines::Nodes;
use p2p_directory::node::{Network, NetworkCommand, NetworkReply, Setup};
use p2p_discovery::codec::PublicKey;
use std::alloc::{AllocError, Global};
use std::marker::Model;

/// Nodes with names, which are all different. A contract sees the names and the nodes. It must be
/// consumed by [`Session::finish`].
pub struct Session<C: PublicKey> {
    labels: Vec<Label>,
    nodes: Network<C>,
    // The node that was last made or named.
    latest: usize,
}

impl<C: PublicKey> Model for Session<C> {
    ghost use Rattle.std.specs.Prelude.{◌≡◌, length};
    ghost use Rattle.play.specs.Session.{SessionView};

    ghost Value = { SessionView C C.Signature };

    ghost view = { λ s. record { labels = s.labels.items; nodes = s.nodes } };

    ghost invariant = { λ s. length s.labels.items ≡ length s.nodes };
}

impl<C: PublicKey> Session<C> {
    /// A session of `play` without nodes.
    pub fn new(alloc: Global) -> Session<C>
        ensures { result ≡ record { labels = []; nodes = [] } }
    {
        Session {
            labels: Vec::new(alloc),
            nodes: Network::empty(alloc),
            latest: 0,
        }
    }

    /// The number of the node of this name in the session of `play`, or `None` if no node has it.
    pub fn place_of(&self, name: &str) -> Option<usize>
        ensures found { IfSome result (λ i. i < length self.now.labels) }
        ensures called { IfSome result (λ i. (l : Label) →
            string_bytes (slice_index_or self.now.labels i l).name ≡ name.now) }
        ensures none { IfNone result
            (All (λ l. ¬ (string_bytes l.name ≡ name.now)) self.now.labels) }
    {
        place_in(&self.labels, name)
    }

    /// Adds a new node of this name and setup to the session of `play`. If there is one of that
    /// name, it is replaced, and all its reservations are released.
    ///
    /// # Conditions
    ///
    /// Those of [`Network::add`].
    ///
    /// # Errors
    ///
    /// `AllocError` if an allocation fails. Nothing has changed.
    pub fn put(&mut self, alloc: Global, name: &str, setup: Setup<C>) -> Result<(), AllocError>
        requires sets { non_zero_usize_get setup.cfg.max_sets < 2 ^ 64 - 1 }
        requires bits { setup.payload.max_bit_vec < 2 ^ 32 }
        ensures ok { OnOk result (IsPut C.cmp name.now setup self.old self.new) }
        ensures err { OnErr result (self.new ≡ self.old) }
    {
        let label = label_of(alloc, name, &setup)?;
        match self.place_of(name) {
            Some(place) => {
                self.nodes.replace(alloc, place, setup)?;
                self.labels[place] = label;
                self.latest = place;
                Ok(())
            }
            None => {
                self.labels.reserve(1)?;
                let place = self.nodes.len();
                self.nodes.add(alloc, setup)?;
                self.labels.push_reserved(label);
                self.latest = place;
                Ok(())
            }
        }
    }

    /// Passes the command to the node or the nodes of the session of `play` that it names by their
    /// numbers. The reply to a command to a node that doesn't exist, or to an exchange of a node
    /// with itself, is `NoNode`.
    pub fn serve(&mut self, command: NetworkCommand<C>) -> NetworkReply<C>
        ensures labels { self.new.labels ≡ self.old.labels }
        ensures served { let wire = wire_of C.verifies C.FixedBytes C.Signature.FixedBytes in
            IsServedAmong C.cmp wire command result self.old.nodes self.new.nodes }
    {
        self.latest = named_by(&command);
        self.nodes.serve(command)
    }

    /// Releases all reservations of the session of `play`.
    pub fn finish(self) {
        let Session {
            labels: _,
            nodes,
            latest: _,
        } = self;
        nodes.finish();
    }
}

impl<C: PublicKey> Nodes for Session<C> {
    fn node_of(&self, name: &str) -> Option<usize> {
        self.place_of(name)
    }

    fn latest_node(&self) -> usize {
        self.latest
    }

    fn namespace_of(&self, node: usize) -> &[u8] {
        match self.labels.get(node) {
            Some(label) => label.namespace.as_slice(),
            None => b"",
        }
    }
}

// The node of the session of `play` that the command names first.
fn named_by<C: PublicKey>(command: &NetworkCommand<C>) -> usize {
    match command {
        NetworkCommand::Call(node, _)
        | NetworkCommand::Ask(node, _)
        | NetworkCommand::Frame(node, _, _)
        | NetworkCommand::Exchange { asker: node, .. } => *node,
    }
}

// The position of the label with this name in the session of `play`.
fn place_in(labels: &[Label], name: &str) -> Option<usize>
    ensures found { IfSome result (λ i. i < length labels.now) }
    ensures called { IfSome result (λ i. (l : Label) →
        string_bytes (slice_index_or labels.now i l).name ≡ name.now) }
    ensures none { IfNone result (All (λ l. ¬ (string_bytes l.name ≡ name.now)) labels.now) }
{
    labels.iter().position(|label| label.name.as_str() == name)
}

// The label, in the session of `play`, with this name and the namespace of the setup.
fn label_of<C: PublicKey>(alloc: Global, name: &str, setup: &Setup<C>) -> Result<Label, AllocError>
    ensures { IfOk result (IsCalled name.now setup.now) }
{
    Ok(Label {
        name: String::from_str(alloc, name)?,
        namespace: setup.namespace.clone()?,
    })
}
