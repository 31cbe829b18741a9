//! What the rows of one member tell of operations, taken in as they come.
use crate::losses::by_loss::ByLoss;
use crate::losses::course::Course;
use crate::losses::courses::note;
use crate::operations::sendings::note_sent;
use crate::operations::sent_for_name::SentForName;
use srm_member::named::Named;
use srm_member::row::Row;
use std::alloc::{AllocError, Global};

/// What became of the losses of one member, what it sent for each name, and whether it left.
#[derive(Drop)]
pub struct MemberOperations {
    pub(crate) losses: ByLoss<Course>,
    pub(crate) sent: Named<SentForName>,
    pub(crate) left: bool,
}

impl MemberOperations {
    ghost use Rattle.std.specs.Prelude.{◌∷◌, [], OnOk};
    ghost use Rattle.srm_report.specs.KeptOperations.{KeepsMore, KeepsOperations};

    /// Of no row. It does not allocate.
    pub(crate) fn new(alloc: Global) -> Self
        ensures { KeepsOperations [] result }
    {
        MemberOperations {
            losses: ByLoss::new(alloc),
            sent: Named::new(alloc),
            left: false,
        }
    }

    /// Takes in what one more row of the member tells. It answers no memory also where a count would be too great for its number.
    pub(crate) fn take_row(&mut self, row: &Row) -> Result<(), AllocError>
        ensures { OnOk result (KeepsMore self.old (row.now ∷ []) self.new) }
    {
        note(&mut self.losses, row)?;
        note_sent(&mut self.sent, row)?;
        self.left = self.left || row.cause.is_leave();
        Ok(())
    }
}
