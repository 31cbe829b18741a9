//! The delays of a topology's links.

/// How long a packet takes over each link of a topology, in ticks.
#[derive(Clone, Copy, Debug, PartialEq, Eq)]
pub struct Delays {
    /// From a node's parent to the node.
    pub delay: u64,
    /// From a node to its parent.
    pub back: u64,
}
