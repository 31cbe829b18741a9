//! What workers do with an item.

/// The work on an item.
pub trait Work<T, D> {
    // The item may be worked on.
    ghost ready: { Self → T → Type 0 };

    // This may come of the item.
    ghost gives: { Self → T → D → Type 0 };

    /// Works on an item.
    fn work(&self, item: T) -> D
        requires { ready self.now item }
        ensures { gives self.now item result };
}
