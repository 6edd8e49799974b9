//! The label of a node.

/// The name of a node, and the namespace in which infos for it are signed.
#[derive(Drop)]
pub struct Label {
    /// The name.
    pub name: String,
    /// The namespace.
    pub namespace: Vec<u8>,
}
