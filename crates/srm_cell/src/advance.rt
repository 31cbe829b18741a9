//! Own runs of a job's cells.
ghost use Rattle.std.specs.Prelude.{◌≡◌, ◌<◌, ◌≤◌, ◌+◌, ◌^◌, length, All, IfOk, IfErr};
ghost use Rattle.srm_net.specs.Limits.{end_of_time};
ghost use Rattle.srm_cell.specs.Setting.{traffic_of};
ghost use Rattle.srm_cell.specs.Crossings.{packets_of, joined, crossings};
ghost use Rattle.srm_cell.specs.Totalled.{IsSentBelow};
ghost use Rattle.srm_cell.specs.Jobs.{MayAdvance, Advances, RunEach};

use crate::cell::Cell;
use crate::crossings::Crossings;
use crate::fault::CellFault;
use crate::job::{Done, Job};
use srm_member::participant::Participant;
use srm_member::row::Row;
use srm_net::net::Net;
use srm_net::sequence::Sequence;
use srm_scenario::scenario::Scenario;
use std::alloc::{AllocError, Global};

/// Each cell of the job handles its own events before the job's tick `till`, in key order, and none of another cell.
///
/// # Errors
/// `Spent` or `CountFull`, that of the first cell, one after the other, whose own run is refused; or `NoMemory`, but not where
/// there is no cell, or where the first has an event and no member to answer it. The job, its cells and their boxes are gone.
pub fn advance<M: Participant>(
    alloc: Global,
    scenario: &Scenario,
    net: &Net,
    job: Job<M>,
) -> Result<Done<M>, CellFault>
    requires { MayAdvance M.plain (length net.now.hosts) job }
    ensures { Advances M.plain scenario.now net.now job result }
{
    let Job { place, till, cells } = job;
    let mut cells = cells;
    let rows = match run_each(alloc, till, cells.as_mut_slice()) {
        Ok(rows) => rows,
        Err(fault) => return Err(fault),
    };
    let Ok(crossings) = crossings_of(alloc, scenario, net, rows.as_slice()) else {
        return Err(CellFault::NoMemory);
    };
    Ok(Done {
        place,
        cells,
        rows,
        crossings,
    })
}

/// The cells' own runs, one after the other: each handles its own events before tick `till`, in key order, and none of another
/// cell. A list of rows for each cell.
///
/// # Errors
/// `Spent` or `CountFull`, that of the first cell whose own run is refused; or `NoMemory`, but not where there is no cell, or
/// where the first has an event and no member to answer it. Nothing is known of the cells then, and they are of no more use.
pub fn run_each<M: Participant>(
    alloc: Global,
    till: u64,
    cells: &mut [Cell<M>],
) -> Result<Vec<Sequence<Row>>, CellFault>
    requires { till ≤ end_of_time }
    ensures many { length cells.new ≡ length cells.old }
    ensures runs { RunEach M.plain till cells.old result cells.new }
{
    let mut rows = Vec::new(alloc);
    for cell in cells.iter_mut() {
        let new = match cell.run(alloc, till) {
            Ok(new) => new,
            Err(fault) => return Err(fault),
        };
        if rows.push(new).is_err() {
            return Err(CellFault::NoMemory);
        }
    }
    Ok(rows)
}

/// The crossings of all these rows. Where nothing was sent they do not allocate.
///
/// # Errors
/// [`AllocError`].
pub fn crossings_of(
    alloc: Global,
    scenario: &Scenario,
    net: &Net,
    lists: &[Sequence<Row>],
) -> Result<Crossings, AllocError>
    requires senders { All (λ rs. All (λ r. IsSentBelow (length net.now.hosts) r.sent) rs) lists.now }
    requires few { length (packets_of (joined lists.now)) + 2 < 2 ^ 64 }
    ensures counted { IfOk result (λ c. c ≡ crossings (traffic_of scenario.now net.now) (joined lists.now)) }
    ensures asked { IfErr result (λ _. 0 < length (packets_of (joined lists.now))) }
{
    let mut crossings = Crossings::none(net.links().len() as u16);
    for rows in lists {
        crossings.count_rows(alloc, scenario, net, rows.as_slice())?;
    }
    Ok(crossings)
}
