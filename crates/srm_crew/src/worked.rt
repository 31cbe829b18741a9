//! What a team's worker gives back.
ghost use Rattle.std.specs.Prelude.{MatchOption};
ghost use Rattle.srm_crew.specs.Pieces.{IsAdvanced, IsAdvancedAs, IsHeard, IsHeardAs};

use srm_cell::cell::Cell;
use srm_cell::fault::CellFault;
use srm_interfaces::watched::WatchedDone;
use srm_member::participant::Participant;
use std::alloc::AllocError;

/// What came of a piece.
#[derive(Drop)]
pub enum Worked<M, K> {
    /// What was done of jobs.
    Advanced {
        /// What was done of each, or why not.
        done: Result<Vec<WatchedDone<M, K>>, CellFault>,
    },
    /// Cells that heard what was sent.
    Heard {
        /// Their groups.
        groups: Result<Vec<Vec<Cell<M>>>, AllocError>,
    },
}

impl<M: Participant, K: Drop> Worked<M, K> {
    /// What came of jobs. `None` where cells heard.
    pub(crate) fn into_advanced(self) -> Option<Result<Vec<WatchedDone<M, K>>, CellFault>>
        ensures { MatchOption result (IsHeard self) (λ r. IsAdvancedAs r self) }
    {
        match self {
            Worked::Advanced { done } => Some(done),
            Worked::Heard { .. } => None,
        }
    }

    /// What came of cells that heard. `None` where jobs were done.
    pub(crate) fn into_heard(self) -> Option<Result<Vec<Vec<Cell<M>>>, AllocError>>
        ensures { MatchOption result (IsAdvanced self) (λ r. IsHeardAs r self) }
    {
        match self {
            Worked::Heard { groups } => Some(groups),
            Worked::Advanced { .. } => None,
        }
    }
}
