//! Jobs of whose rows a watch keeps what tests look at.
ghost use Rattle.std.specs.Prelude.{◌≡◌, IfOk, length};
ghost use Rattle.std.specs.List.{AllZip};
ghost use Rattle.srm_crew_tests.specs.Handed.{IsWatchedAs};

use crate::crew_tests::seen::{Seen, row_seen};
use srm_cell::job::Job;
use srm_interfaces::watch::Watch;
use srm_interfaces::watched::WatchedJob;
use srm_member::participant::Participant;
use srm_member::row::Row;
use std::alloc::{AllocError, Global};

/// Keeps of each row what tests look at.
#[derive(Clone, Copy)]
pub(crate) struct KeepSeen {
    /// The memory that is taken for it.
    pub(crate) alloc: Global,
}

impl Watch<Vec<Seen>> for KeepSeen {
    ghost keeps = { λ _ _ _. Unit {0} };

    ghost closes = { λ _ _ _. Unit {0} };

    ghost may_stand = { λ _ _. tt };

    fn none(&self) -> Vec<Seen> {
        Vec::new(self.alloc)
    }

    fn clear(&self, kept: &mut Vec<Seen>) {
        kept.clear();
    }

    fn add(&self, kept: &mut Vec<Seen>, rows: &[Row]) -> Result<(), AllocError> {
        for row in rows {
            kept.push(row_seen(row))?;
        }
        Ok(())
    }

    fn close(&self, _kept: &mut [Vec<Seen>]) -> Result<(), AllocError> {
        Ok(())
    }
}

// Nothing, so many times.
fn none_of(alloc: Global, many: usize) -> Result<Vec<Vec<Seen>>, AllocError>
    ensures { IfOk result (λ own. length own.items ≡ many) }
{
    let mut own = Vec::new(alloc);
    for _ in 0..many {
        own.push(Vec::new(alloc))?;
    }
    Ok(own)
}

/// The jobs, of whose cells nothing is kept so far.
pub(crate) fn watched<M: Participant>(
    alloc: Global,
    jobs: Vec<Job<M>>,
) -> Result<Vec<WatchedJob<M, Vec<Seen>>>, AllocError>
    ensures { IfOk result (λ all. AllZip (λ j w. IsWatchedAs j w) jobs.items all.items) }
{
    let mut all = Vec::new(alloc);
    for job in jobs {
        let Job { place, till, cells } = job;
        let kept = none_of(alloc, cells.len())?;
        all.push(WatchedJob {
            place,
            till,
            soon: 0,
            cells,
            kept,
        })?;
    }
    Ok(all)
}
