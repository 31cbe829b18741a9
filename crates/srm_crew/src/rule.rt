//! The rule of a bag's queue, which each step of each thread keeps.

use crossbeam_queue::protocol::{Join, Lesson, Outcome, Protocol, Split};
use std::collections::LinkedList;

/// What the rule knows of a pass. No value of it is made.
pub struct Hold<T> {
    /// Its weight, 0 where it was joined away.
    pub weight: u64,
    /// The items that were put, each at its index.
    pub put: LinkedList<T>,
    /// The indices of the items that it took.
    pub taken: LinkedList<usize>,
}

/// An item in the queue, with its index.
#[derive(Drop)]
pub struct Spot<T> {
    /// How many items were put before it.
    pub index: usize,
    /// The item.
    pub item: T,
}

/// The rule: the index of each item put stands exactly once, in the queue with the item, or in one pass's list.
pub struct StandOnce;

impl<T> Protocol<Spot<T>, Hold<T>> for StandOnce {
    ghost use Rattle.srm_crew.specs.Indices.{Kept, first_whole};

    ghost holds = { Kept };

    ghost first = { first_whole };
}

// A push, by `put`.
pub(crate) struct Puts;

impl<T> Outcome<Spot<T>, Hold<T>> for Puts {
    ghost use Rattle.srm_crew.specs.Indices.{puts};

    ghost then = { puts };
}

impl<T> Lesson<Spot<T>, Hold<T>> for Puts {
    ghost use Rattle.srm_crew.specs.Indices.{short};

    ghost fact = { short };
}

// A pop, by `take`.
pub(crate) struct TakesSpot;

impl<T> Outcome<Spot<T>, Hold<T>> for TakesSpot {
    ghost use Rattle.srm_crew.specs.Indices.{takes_spot};

    ghost then = { takes_spot };
}

impl<T> Lesson<Spot<T>, Hold<T>> for TakesSpot {
    ghost use Rattle.srm_crew.specs.Indices.{rests};

    ghost fact = { rests };
}

// A look at what one pass took, by `join`.
pub(crate) struct Fits;

impl<T> Lesson<Spot<T>, Hold<T>> for Fits {
    ghost use Rattle.srm_crew.specs.Indices.{fits};

    ghost fact = { fits };
}

// A pass's halves, by `split`.
pub(crate) struct Halves;

impl<T> Split<Hold<T>> for Halves {
    ghost use Rattle.srm_crew.specs.Indices.{first_hold, second_hold};

    ghost left = { first_hold };

    ghost right = { second_hold };
}

// Two passes in one, by `join`.
pub(crate) struct Both;

impl<T> Join<Hold<T>> for Both {
    ghost use Rattle.srm_crew.specs.Indices.{both_holds, spent_hold};

    ghost both = { both_holds };

    ghost spent = { spent_hold };
}
