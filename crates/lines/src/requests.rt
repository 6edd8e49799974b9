//! What a line requests, and of which nodes.

use crate::value::{Kind, Value};
use bytes::Bytes;
use p2p_directory::node::{NetworkCommand, Setup};
use p2p_discovery::codec::PublicKey;

/// The nodes that lines name.
pub trait Nodes {
    /// The number of the node that a line's request names so, or `None` if no node has this name.
    fn node_of(&self, name: &str) -> Option<usize>;

    /// The number of the node of which a line without a name requests something.
    fn latest_node(&self) -> usize;

    /// The namespace in which infos are signed that a line requests for a node.
    fn namespace_of(&self, node: usize) -> &[u8];
}

/// What a line requests.
#[derive(Drop)]
pub enum Request<C: PublicKey> {
    /// A new node of this name and setup.
    Node(String, Setup<C>),
    /// A command to one node or to two.
    Command(NetworkCommand<C>),
    /// The value of a kind that these bytes encode.
    Decode(Kind, Bytes),
    /// The bytes of that value.
    Recode(Kind, Bytes),
    /// The bytes of a value.
    Encode(Value<C>),
}
