//! What a team's worker does.
ghost use Rattle.std.specs.Prelude.{◌≡◌, ◌≢◌, ◌≤◌, ◌++◌, List, Ok, Err, IfErr, OnOk, length, All};
ghost use Rattle.srm_net.specs.Limits.{end_of_time};
ghost use Rattle.srm_member.specs.declared.row.Row.{Row as OneRow};
ghost use Rattle.srm_cell.specs.Crossings.{packets_of};
ghost use Rattle.srm_cell.specs.Hearing.{IsSent, packets_in};
ghost use Rattle.srm_cell.specs.Jobs.{MayAdvance, Runs};
ghost use Rattle.srm_interfaces.specs.Watches.{job_in, AdvanceWatched, IsSoundJob, KeepClosed};
ghost use Rattle.srm_crew.specs.Watched.{AdvanceOne, IsOfMember, MayWatch};

use crate::gathered::Gathered;
use crate::piece::Piece;
use crate::pieces::is_due;
use crate::worked::Worked;
use srm_cell::cell::Cell;
use srm_cell::crossings::Crossings;
use srm_cell::fault::CellFault;
use srm_interfaces::hearing::hear_groups;
use srm_interfaces::watch::Watch;
use srm_interfaces::watched::{WatchedDone, WatchedJob, add_sent};
use srm_member::participant::Participant;
use srm_scenario::session::Session;
use srm_team::work::Work;
use std::alloc::Global;
use std::marker::Copy;
use std::mem::replace;

/// Work on pieces, in runs of one scenario on its network: watched jobs advance, and cells hear what was sent, one after the other.
#[derive(Clone, Copy)]
pub struct Watching<'a, W> {
    /// The memory that workers take.
    pub alloc: Global,
    /// What is run.
    pub session: Session<'a>,
    /// What is kept of rows.
    pub watch: W,
}

/// Advances each job, one after the other, and keeps of the rows what the watch keeps. Only the rows of one cell are there at a
/// time.
pub(crate) fn advance_watched<M: Participant, K: Drop, W: Watch<K>>(
    work: &Watching<W>,
    jobs: Vec<WatchedJob<M, K>>,
) -> Result<Vec<WatchedDone<M, K>>, CellFault>
    requires { MayWatch M.plain work.now.session.net.now jobs.items }
    ensures { AdvanceWatched M.plain (KeepClosed (W.keeps work.now.watch) (W.closes work.now.watch))
        work.now.session.scenario.now work.now.session.net.now jobs.items result }
{
    let mut all = Vec::new(work.alloc);
    let mut gathered = Gathered {
        rows: Vec::new(work.alloc),
        sent: Vec::new(work.alloc),
    };
    for job in jobs {
        let done = match advance_one(work, job, &mut gathered) {
            Ok(done) => done,
            Err(fault) => return Err(fault),
        };
        if all.push(done).is_err() {
            return Err(CellFault::NoMemory);
        }
    }
    Ok(all)
}

// Advances a job cell by cell, and keeps of the rows what the watch keeps. Only the rows of one cell are there at a time. What is
// kept is closed at the end. Where nothing is due no cell is looked at.
fn advance_one<M: Participant, K: Drop, W: Watch<K>>(
    work: &Watching<W>,
    job: WatchedJob<M, K>,
    gathered: &mut Gathered,
) -> Result<WatchedDone<M, K>, CellFault>
    requires job { MayAdvance M.plain (length work.now.session.net.now.hosts) (job_in job) }
    requires sound { IsSoundJob M.plain job }
    ensures { AdvanceOne M.plain (KeepClosed (W.keeps work.now.watch) (W.closes work.now.watch))
        work.now.session.scenario.now work.now.session.net.now job result }
{
    if job.till <= job.soon {
        return Ok(idle(work, job));
    }
    let WatchedJob {
        place,
        till,
        cells,
        kept,
        ..
    } = job;
    let mut cells = cells;
    let mut kept = kept;
    gathered.sent.clear();
    let mut index = 0;
    for cell in cells.iter_mut() {
        match run_watched(work, till, cell, &mut kept[index], gathered) {
            Ok(()) => {}
            Err(fault) => return Err(fault),
        }
        index += 1;
    }
    if work.watch.close(kept.as_mut_slice()).is_err() {
        return Err(CellFault::NoMemory);
    }
    let Ok(crossings) = Crossings::of(work.alloc, work.session, gathered.sent.as_slice()) else {
        return Err(CellFault::NoMemory);
    };
    let sent = replace(&mut gathered.sent, Vec::new(work.alloc));
    Ok(WatchedDone {
        place,
        cells,
        kept,
        sent,
        crossings,
    })
}

// What is done of a job in which nothing is due: all is as it was.
fn idle<M: Participant, K: Drop, W: Watch<K>>(
    work: &Watching<W>,
    job: WatchedJob<M, K>,
) -> WatchedDone<M, K>
    requires job { MayAdvance M.plain (length work.now.session.net.now.hosts) (job_in job) }
    requires sound { IsSoundJob M.plain job }
    requires idle { job.till ≤ job.soon }
    ensures { AdvanceOne M.plain (KeepClosed (W.keeps work.now.watch) (W.closes work.now.watch))
        work.now.session.scenario.now work.now.session.net.now job (Ok result) }
{
    let WatchedJob {
        place,
        cells,
        kept,
        ..
    } = job;
    WatchedDone {
        place,
        cells,
        kept,
        sent: Vec::new(work.alloc),
        crossings: Crossings::none(work.session.net.links().len() as u16),
    }
}

// Runs a cell to tick `till`. The watch takes in its rows, and what was sent in them is put behind what was sent before. Where
// nothing is due, all stays as it is.
fn run_watched<M: Participant, K, W: Watch<K>>(
    work: &Watching<W>,
    till: u64,
    cell: &mut Cell<M>,
    kept: &mut K,
    gathered: &mut Gathered,
) -> Result<(), CellFault>
    requires till { till ≤ end_of_time }
    requires member { IsOfMember M.plain (length work.now.session.net.now.hosts) cell.old }
    requires sent { All (λ x. IsSent work.now.session.scenario.now work.now.session.net.now x) gathered.old.sent.items }
    ensures ran { OnOk result ((rows : List OneRow) × Runs M.plain till cell.old (Ok rows) cell.new
        × ((before : List OneRow) → W.keeps work.now.watch kept.old before → W.keeps work.now.watch kept.new (before ++ rows))
        × (packets_in gathered.new.sent.items ≡ packets_in gathered.old.sent.items ++ packets_of rows)) }
    ensures sent { OnOk result (All (λ x. IsSent work.now.session.scenario.now work.now.session.net.now x)
        gathered.new.sent.items) }
    ensures refused { IfErr result (λ e. e ≢ CellFault.NoMemory → Runs M.plain till cell.old (Err e) cell.new) }
{
    if !is_due(cell, till) {
        return Ok(());
    }
    let Gathered { rows, sent } = gathered;
    cell.run_into(work.alloc, till, rows)?;
    let rows = rows.as_slice();
    if work.watch.add(kept, rows).is_err()
        || add_sent(work.alloc, work.session, rows, sent).is_err()
    {
        return Err(CellFault::NoMemory);
    }
    Ok(())
}

impl<'a, M: Participant, K: Drop, W: Watch<K> + Copy> Work<Piece<M, K>, Worked<M, K>>
    for Watching<'a, W> {
    ghost use Rattle.std.specs.Prelude.{All, length};
    ghost use Rattle.srm_interfaces.specs.Watches.{KeepClosed};
    ghost use Rattle.srm_crew.specs.Pieces.{MayWork, ComesOfPiece};

    ghost ready = { λ w p. MayWork M.plain w.session.scenario.now w.session.net.now p };

    ghost gives = { λ w p r. ComesOfPiece M.plain (KeepClosed (W.keeps w.watch) (W.closes w.watch)) w.session.scenario.now
        w.session.net.now p r };

    fn work(&self, piece: Piece<M, K>) -> Worked<M, K> {
        match piece {
            Piece::Jobs { jobs } => Worked::Advanced {
                done: advance_watched(self, jobs),
            },
            Piece::Hearers { sent, groups } => Worked::Heard {
                groups: hear_groups(self.alloc, self.session, sent.as_slice(), groups),
            },
        }
    }
}
