//! What the rows of one member say of it, counted as they come.
ghost use Rattle.srm_report.specs.Counted.{IsAtMost};

use crate::members::counts::Counts;
use srm_member::row::Row;
use std::alloc::AllocError;

// How many rows are counted at most, so that no count of them is too great for its number.
const MOST_ROWS: u64 = 1 << 63;

/// What was counted of the rows of one member.
#[derive(Drop)]
pub struct MemberCount {
    pub(crate) counts: Counts,
    // How many rows were counted.
    taken: u64,
    ghost bound: { IsAtMost taken counts },
}

impl MemberCount {
    ghost use Rattle.std.specs.Prelude.{◌∷◌, [], OnOk};
    ghost use Rattle.srm_report.specs.MemberCounts.{CountsOn, IsCountOf};

    /// Of no row.
    pub(crate) fn new() -> Self
        ensures { IsCountOf [] result }
    {
        MemberCount {
            counts: Counts::new(),
            taken: 0,
        }
    }

    /// Counts one more row of the member. It answers no memory where that would be more than 2^63 rows.
    pub(crate) fn count(&mut self, row: &Row) -> Result<(), AllocError>
        ensures { OnOk result (CountsOn self.old (row.now ∷ []) self.new) }
    {
        if self.taken >= MOST_ROWS {
            return Err(AllocError);
        }
        self.counts.add(row);
        self.taken += 1;
        Ok(())
    }
}
