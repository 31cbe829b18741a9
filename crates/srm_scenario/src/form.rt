//! How a top table says what its network is.

/// What a top table says of its network. It decides on the keys that the table must have, and those that it may have.
#[derive(Clone, Copy, Debug, PartialEq, Eq)]
pub struct Form {
    /// Whether it names a topology.
    pub shaped: bool,
    /// Whether that is a chain, a star or a tree, which are made of their size.
    pub sized: bool,
    /// Whether that is a tree.
    pub tree: bool,
    /// Whether the topology is that the parents of nodes are given.
    pub parents: bool,
    /// How many parents it lists.
    pub listed: u64,
    /// Whether it lists a delay for each link.
    pub delays: bool,
    /// Whether it lists a delay in the other direction for each link.
    pub backs: bool,
}
