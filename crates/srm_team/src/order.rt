//! What goes from the leader to the workers.
ghost use Rattle.std.specs.Prelude.{◌<◌, length};
ghost use Rattle.srm_team.specs.Tells.{Asks};

use crate::answer::Answer;
use crate::front::Front;
use crate::naming::Naming;
use crate::work::Work;
use std::marker::{Model, PhantomData};

/// An item, the work on it, and where both stand in the history. Clauses see nothing of it.
#[derive(Drop)]
pub struct Order<W: Work<T, D> + Copy, T: Drop, D, J: Naming> {
    number: u64,
    place: usize,
    work: W,
    item: T,
    front: Front<W, T, J>,
    of: PhantomData<D>,
}

impl<W: Work<T, D> + Copy, T: Drop, D, J: Naming> Model for Order<W, T, D, J> {
    ghost use Rattle.std.specs.Prelude.{⊤, ◌<◌, length};
    ghost use Rattle.srm_team.specs.Tells.{Asks};

    ghost Value = { ⊤ };

    ghost view = { λ _. tt };

    ghost invariant = { λ o. (o.number < length o.front) × Asks o.front o.number o.place o.work o.item
        × W.ready o.work o.item };
}

impl<W: Work<T, D> + Copy, T: Drop, D: Drop, J: Naming> Order<W, T, D, J> {
    /// The order for the item at a place of the list with a number.
    pub(crate) fn new(
        number: u64,
        place: usize,
        work: W,
        item: T,
        front: Front<W, T, J>,
    ) -> Order<W, T, D, J>
        requires known { number < length front }
        requires asked { Asks front number place work item }
        requires ready { W.ready work item }
    {
        Order {
            number,
            place,
            work,
            item,
            front,
            of: PhantomData,
        }
    }

    /// Does the work.
    pub(crate) fn carry_out(self) -> Answer<W, T, D, J> {
        let Order {
            number,
            place,
            work,
            item,
            front,
            of: _,
        } = self;
        let done = work.work(item);
        Answer {
            number,
            place,
            done,
            front,
        }
    }
}
