//! A step in the growth of a tree.

/// The attaching of one node by a link to a node that is attached already.
#[derive(Clone, Copy)]
pub(crate) struct Attaching {
    /// The node that is attached.
    pub(crate) node: u16,
    /// The node that it is attached to.
    pub(crate) parent: u16,
    /// The link between them.
    pub(crate) link: u16,
}
