//! Work on numbers.
use srm_team::work::Work;

/// Adds a number to each item. What it gives the tests look at, and no clause.
#[derive(Clone, Copy)]
pub(crate) struct Adding {
    /// What is added.
    pub(crate) more: u64,
}

impl Work<u64, u64> for Adding {
    ghost ready = { λ w x. Unit {0} };

    ghost gives = { λ w x sum. Unit {0} };

    fn work(&self, item: u64) -> u64 {
        item.wrapping_add(self.more)
    }
}
