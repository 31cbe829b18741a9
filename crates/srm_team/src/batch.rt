//! What one call asks of a team.

/// Some items, and the work on each of them.
#[derive(Drop)]
pub struct Batch<W, T> {
    /// The work.
    pub work: W,
    /// The items, each at its place.
    pub items: Vec<T>,
}
