//! Why links make no tree of the nodes.
use srm_scenario::file_key::FileKey;

/// Why links make no tree of the nodes.
#[derive(Drop)]
pub enum Flaw {
    /// An end of a link is no node.
    NoEnd {
        /// The number of the link.
        link: usize,
        /// The key of that end: `a` or `b`.
        key: FileKey,
        /// How many nodes there are.
        nodes: u16,
    },
    /// The parent of a node is no node.
    NoParent {
        /// The node.
        node: usize,
        /// How many nodes there are.
        nodes: u16,
    },
    /// Some nodes make a circle.
    Circle {
        /// Those nodes, each the child of the next one, and the last one that of the first.
        nodes: Vec<u16>,
    },
    /// A link closes a circle with earlier ones.
    Closing {
        /// The number of the link.
        link: u16,
        /// Those that lead from its second end to its first: none where that is one node.
        earlier: Vec<u16>,
    },
    /// There is not one link fewer than nodes.
    LinkCount {
        /// How many nodes there are.
        nodes: u16,
        /// How many links there are.
        links: usize,
    },
    /// Some nodes are not reached from node 0.
    Unreached {
        /// Those nodes.
        nodes: Vec<u16>,
    },
}
