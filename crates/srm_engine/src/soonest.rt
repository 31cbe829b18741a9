//! How soon something is due in the cells of each group.
ghost use Rattle.std.specs.Prelude.{◌≡◌, ◌+◌, ◌<◌, ◌≤◌, ℕ, IfOk, length};
ghost use Rattle.srm_cell.specs.Jobs.{own_cells};
ghost use Rattle.srm_model.specs.Windows.{promise_by, least_with as lesser};
ghost use Rattle.srm_engine.specs.Starts.{setting_on};
ghost use Rattle.srm_engine.specs.Seen.{AreFrom};
ghost use Rattle.srm_engine.specs.Groups.{AreCuts, AreGrouped, sizes, all_in};
ghost use Rattle.srm_engine.specs.Soonest.{first_promise, first_time, soon_in, soonest_of};

use crate::ends::way;
use srm_cell::cell::Cell;
use srm_member::participant::Participant;
use srm_scenario::session::Session;
use std::alloc::{AllocError, Global};

/// How soon something is due in some cells, at the end of the run at the latest.
#[derive(Clone, Copy)]
pub(crate) struct Soonest {
    /// The least of their next times, in ticks.
    pub(crate) time: u64,
    /// The least of their promises, in ticks: before it no packet arrives anywhere that one of their members is yet to send.
    pub(crate) promise: u64,
}

impl Soonest {
    /// The same with one cell more, of which this is the next time and the way that its member's packets have before them.
    pub(crate) fn with(self, next: Option<u64>, way: Option<u64>) -> Soonest
        ensures time { result.time ≡ lesser self.time next }
        ensures promise { result.promise ≡ lesser self.promise (promise_by next way) }
    {
        Soonest {
            time: least_with(self.time, next),
            promise: least_with_sum(self.promise, next, way),
        }
    }
}

// The lesser of a time and another, if there is another.
fn least_with(time: u64, other: Option<u64>) -> u64
    ensures { result ≡ lesser time other }
{
    match other {
        Some(other) if other < time => other,
        _ => time,
    }
}

// The lesser of a time and the sum of another and a way, if there are both.
fn least_with_sum(time: u64, next: Option<u64>, way: Option<u64>) -> u64
    ensures { result ≡ lesser time (promise_by next way) }
{
    match (next, way) {
        (Some(next), Some(way)) if next < time && way < time - next => next + way,
        _ => time,
    }
}

/// How soon something is due in the cells of the members from `first` on, in a run that ends at tick `until`.
pub(crate) fn soonest_in<M: Participant>(
    session: Session,
    cells: &[Cell<M>],
    first: usize,
    until: u64,
) -> Soonest
    requires until { until ≡ session.scenario.now.until }
    requires members { first + length cells.now ≤ length session.scenario.now.members }
    requires few { length session.scenario.now.members < 65536 }
    ensures { (seed : ℕ) → AreFrom M.plain first cells.now
        → result ≡ soonest_of (setting_on session.entry seed) (own_cells M.plain cells.now) }
{
    let mut soonest = Soonest {
        time: until,
        promise: until,
    };
    for (index, cell) in cells.iter().enumerate() {
        let way = way(session, (first + index) as u16);
        soonest = soonest.with(cell.next_time(), way);
    }
    soonest
}

/// How soon something is due in each group of `cut` cells.
pub(crate) fn soonest_of_each<M: Participant>(
    alloc: Global,
    session: Session,
    groups: &[Vec<Cell<M>>],
    cut: usize,
) -> Result<Vec<Soonest>, AllocError>
    requires cut { 0 < cut }
    requires cuts { AreCuts cut (sizes groups.now) }
    requires members { length (all_in groups.now) ≤ length session.scenario.now.members }
    ensures { IfOk result (λ xs. (seed : ℕ) → AreGrouped M.plain cut groups.now
        → xs.items ≡ soon_in M.plain (setting_on session.entry seed) groups.now) }
{
    let until = session.scenario.until();
    let mut soonest = Vec::new(alloc);
    for (index, group) in groups.iter().enumerate() {
        soonest.push(soonest_in(session, group.as_slice(), index * cut, until))?;
    }
    Ok(soonest)
}

/// When the next window begins, or the run ends: the least of the end of the run and of the next times of all cells.
pub(crate) fn least(soon: &[Soonest], until: u64) -> u64
    ensures { result ≡ first_time until soon.now }
{
    let mut best = until;
    for soonest in soon {
        best = least_with(best, Some(soonest.time));
    }
    best
}

/// The least of the end of the run and of the promises of all cells.
pub(crate) fn least_promise(soon: &[Soonest], until: u64) -> u64
    ensures { result ≡ first_promise until soon.now }
{
    let mut best = until;
    for soonest in soon {
        best = least_with(best, Some(soonest.promise));
    }
    best
}
