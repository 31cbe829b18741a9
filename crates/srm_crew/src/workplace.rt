//! Where workers work.
ghost use Rattle.std.specs.Prelude.{◌≡◌, ⊤};

use crate::bag::Bag;
use srm_ledger::ledger::Ledger;
use std::alloc::AllocError;

/// Where workers work: the bag from which they take items, the gate that they pass with each, and the ledger in which they count.
#[derive(Drop)]
pub(crate) struct Workplace<'a, T, G> {
    pub(crate) bag: &'a Bag<T>,
    pub(crate) gate: &'a G,
    pub(crate) ledger: &'a Ledger,
}

impl<'a, T, G> Copy for Workplace<'a, T, G> {}

impl<'a, T, G> Clone for Workplace<'a, T, G> {
    ghost is_clone = { λ x y. y ≡ x };

    ghost is_infallible = { λ _. ⊤ };

    fn clone(&self) -> Result<Workplace<'a, T, G>, AllocError> {
        Ok(*self)
    }
}
