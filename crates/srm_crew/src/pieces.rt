//! The work of a call in pieces, and what comes of them.
ghost use Rattle.std.specs.Prelude.{◌≡◌, ◌≤◌, ◌+◌, ◌-◌, ◌*◌, length, IfOk, map, All};
ghost use Rattle.std.specs.List.{AllZip};
ghost use Rattle.std.specs.Option.{is_some};
ghost use Rattle.srm_cell.specs.Cells.{before};
ghost use Rattle.srm_cell.specs.Crossings.{joined};
ghost use Rattle.srm_cell.specs.Views.{IsSoundCell, event_of};
ghost use Rattle.srm_crew.specs.Pieces.{IsJobsOf, AreHearersOf, IsAdvanced, IsHeard, IsAdvancedAs, HeardTogether};
ghost use Rattle.srm_crew.specs.Pieces.{PutTogether};

use crate::piece::Piece;
use crate::worked::Worked;
use srm_cell::cell::Cell;
use srm_cell::fault::CellFault;
use srm_cell::sent::Sent;
use srm_interfaces::watched::{WatchedDone, WatchedJob};
use srm_member::participant::Participant;
use std::alloc::{AllocError, Global};
use std::sync::Arc;

/// Whether fewer than about `few` events are due in the jobs before their ends: as it is written, one in each cell where
/// something is due, and one for each packet that arrives there by then. It looks at no more jobs than it has to: what a cell
/// holds is seldom in the cache of the thread that asks.
pub(crate) fn are_few_due<M: Participant, K: Drop>(jobs: &[WatchedJob<M, K>], few: usize) -> bool {
    let mut due: usize = 0;
    for job in jobs {
        if due >= few {
            return false;
        }
        due = due.saturating_add(due_in(job));
    }
    due < few
}

// About how many events are due in one job before its end.
fn due_in<M: Participant, K: Drop>(job: &WatchedJob<M, K>) -> usize {
    if !is_job_due(job) {
        return 0;
    }
    let mut due: usize = 0;
    for cell in job.cells.iter() {
        if is_due(cell, job.till) {
            due = due
                .saturating_add(cell.arriving_before(job.till))
                .saturating_add(1);
        }
    }
    due
}

// Whether something may be due in the job before its end.
fn is_job_due<M: Participant, K: Drop>(job: &WatchedJob<M, K>) -> bool {
    job.soon < job.till
}

/// In how many of the jobs something may be due before their ends.
pub(crate) fn jobs_due<M: Participant, K: Drop>(jobs: &[WatchedJob<M, K>]) -> usize {
    let mut due: usize = 0;
    for job in jobs {
        if is_job_due(job) {
            due = due.saturating_add(1);
        }
    }
    due
}

/// Whether something is due in the cell before tick `till`.
pub(crate) fn is_due<M: Participant>(cell: &Cell<M>, till: u64) -> bool
    ensures { IsSoundCell M.plain cell.now → result ≡ is_some (before till (event_of M.plain cell.now)) }
{
    match cell.next_time() {
        Some(time) => time < till,
        None => false,
    }
}

/// How many cells there are in the groups.
pub(crate) fn cells_in<M: Participant>(groups: &[Vec<Cell<M>>]) -> usize {
    let mut cells: usize = 0;
    for group in groups {
        cells = cells.saturating_add(group.len());
    }
    cells
}

/// The jobs in pieces, in order. A piece ends once something may be due in `share` of its jobs; but the one after so many `cuts`
/// has all jobs that are left.
pub(crate) fn pieces_of<M: Participant, K: Drop>(
    alloc: Global,
    jobs: Vec<WatchedJob<M, K>>,
    share: usize,
    cuts: usize,
) -> Result<Vec<Vec<WatchedJob<M, K>>>, AllocError>
    ensures all { IfOk result (λ pieces. joined (map (λ p. p.items) pieces.items) ≡ jobs.items) }
    ensures few { IfOk result (λ pieces. length pieces.items ≤ cuts + 1) }
{
    let mut pieces = Vec::new(alloc);
    let mut piece = Vec::new(alloc);
    let mut due: usize = 0;
    for job in jobs {
        if due >= share && pieces.len() < cuts {
            pieces.push(piece)?;
            piece = Vec::new(alloc);
            due = 0;
        }
        if is_job_due(&job) {
            due = due.saturating_add(1);
        }
        piece.push(job)?;
    }
    pieces.push(piece)?;
    Ok(pieces)
}

/// The groups in pieces of `size` groups, in order. The last piece may have fewer.
pub(crate) fn even_pieces<M: Participant>(
    alloc: Global,
    groups: Vec<Vec<Cell<M>>>,
    size: usize,
) -> Result<Vec<Vec<Vec<Cell<M>>>>, AllocError>
    ensures all { IfOk result (λ pieces. joined (map (λ p. p.items) pieces.items) ≡ groups.items) }
    ensures few { IfOk result (λ pieces. (length pieces.items - 1) * size ≤ length groups.items - 1) }
{
    let mut pieces = Vec::new(alloc);
    let mut piece = Vec::new(alloc);
    for group in groups {
        if piece.len() >= size {
            pieces.push(piece)?;
            piece = Vec::new(alloc);
        }
        piece.push(group)?;
    }
    pieces.push(piece)?;
    Ok(pieces)
}

/// The jobs of each piece, to be advanced.
pub(crate) fn to_advance<M: Participant, K: Drop>(
    alloc: Global,
    pieces: Vec<Vec<WatchedJob<M, K>>>,
) -> Result<Vec<Piece<M, K>>, AllocError>
    ensures { IfOk result (λ all. AllZip (λ js p. IsJobsOf js p) pieces.items all.items) }
{
    let mut all = Vec::new(alloc);
    for jobs in pieces {
        all.push(Piece::Jobs { jobs })?;
    }
    Ok(all)
}

/// The groups of each piece, to hear what was sent.
pub(crate) fn to_hear<M: Participant, K: Drop>(
    alloc: Global,
    sent: Vec<Sent>,
    pieces: Vec<Vec<Vec<Cell<M>>>>,
) -> Result<Vec<Piece<M, K>>, AllocError>
    ensures { IfOk result (λ all. AllZip (λ gs p. AreHearersOf sent.items gs p) pieces.items all.items) }
{
    let shared = Arc::new(alloc, sent)?;
    let mut all = Vec::new(alloc);
    for groups in pieces {
        let sent = Arc::try_clone(&shared)?;
        all.push(Piece::Hearers { sent, groups })?;
    }
    Ok(all)
}

/// What came of the jobs of each piece.
pub(crate) fn advanced_of<M: Participant, K: Drop>(
    alloc: Global,
    all: Vec<Worked<M, K>>,
) -> Result<Vec<Result<Vec<WatchedDone<M, K>>, CellFault>>, AllocError>
    requires { All (λ w. IsAdvanced w) all.items }
    ensures { IfOk result (λ rs. AllZip (λ w r. IsAdvancedAs r w) all.items rs.items) }
{
    let mut results = Vec::new(alloc);
    for worked in all {
        results.push(worked.into_advanced().unwrap())?;
    }
    Ok(results)
}

/// What is done of all pieces, in order.
///
/// # Errors
/// The first refusal that stands there; or `NoMemory`.
pub(crate) fn put_together<D: Drop>(
    alloc: Global,
    pieces: Vec<Result<Vec<D>, CellFault>>,
) -> Result<Vec<D>, CellFault>
    ensures { PutTogether pieces.items result }
{
    let mut all = Vec::new(alloc);
    for told in pieces {
        let mut piece = match told {
            Ok(piece) => piece,
            Err(fault) => return Err(fault),
        };
        if all.append(&mut piece).is_err() {
            return Err(CellFault::NoMemory);
        }
    }
    Ok(all)
}

/// The groups of all pieces that heard, in order.
pub(crate) fn heard_of<M: Participant, K: Drop>(
    alloc: Global,
    all: Vec<Worked<M, K>>,
) -> Result<Vec<Vec<Cell<M>>>, AllocError>
    requires { All (λ w. IsHeard w) all.items }
    ensures { IfOk result (λ heard. HeardTogether all.items heard.items) }
{
    let mut heard = Vec::new(alloc);
    for worked in all {
        let mut groups = worked.into_heard().unwrap()?;
        heard.append(&mut groups)?;
    }
    Ok(heard)
}
