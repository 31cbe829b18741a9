//! Where a node is in a rooted tree.
ghost use Rattle.std.specs.Prelude.{◌≡◌, ◌≤◌, ◌<◌, true};

/// The position of a node in a tree that is rooted at node 0. The root is above every node, and itself counts as its own parent.
#[derive(Clone, Copy)]
pub(crate) struct Position {
    /// The node's place in the order in which the nodes are attached, from 0 for the root.
    pub(crate) place: u16,
    /// One more than the last place of the nodes below it. The places from its own up to this one are those of the node and of
    /// all below it, since nodes are attached in preorder.
    pub(crate) end: u16,
    /// How many links there are between the node and the root.
    pub(crate) depth: u16,
    /// The node above it.
    pub(crate) parent: u16,
    /// The link to that.
    pub(crate) link: u16,
    /// A node above it, mostly much further, over which a climb may skip the nodes between.
    pub(crate) jump: u16,
    /// How long a packet takes from the node to the root, in ticks.
    pub(crate) up: u64,
    /// How long one takes from the root to the node, in ticks.
    pub(crate) down: u64,
}

impl Position {
    /// Whether the node of this place is the node of the position or below it.
    pub(crate) fn holds(self, place: u16) -> bool
        ensures within { result ≡ true → (self.place ≤ place) × (place < self.end) }
        ensures whole { self.place ≤ place → place < self.end → result ≡ true }
    {
        self.place <= place && place < self.end
    }
}
