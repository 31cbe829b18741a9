//! What comes back from the workers.
use crate::front::Front;
use crate::naming::Naming;
use crate::work::Work;
use std::marker::Model;

/// What came of an item, and where the item stands in the history. Clauses see nothing of it.
#[derive(Drop)]
pub struct Answer<W: Work<T, D> + Copy, T: Drop, D: Drop, J: Naming> {
    pub(crate) number: u64,
    pub(crate) place: usize,
    pub(crate) done: D,
    pub(crate) front: Front<W, T, J>,
}

impl<W: Work<T, D> + Copy, T: Drop, D: Drop, J: Naming> Model for Answer<W, T, D, J> {
    ghost use Rattle.std.specs.Prelude.{⊤, ◌<◌, length};
    ghost use Rattle.srm_team.specs.Tells.{Answers};

    ghost Value = { ⊤ };

    ghost view = { λ _. tt };

    ghost invariant = { λ a. (a.number < length a.front)
        × Answers (λ w x d. W.gives w x d) a.front a.number a.place a.done };
}
