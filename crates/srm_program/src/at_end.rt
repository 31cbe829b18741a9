//! Tables written at the end of a run.
ghost use Rattle.std.specs.Prelude.{◌≡◌, ◌<◌, ◌-◌, ◌^◌, List, map};
ghost use Rattle.srm_member.specs.Record.{Record};
ghost use Rattle.srm_engine.specs.Openings.{IsOpening};
ghost use Rattle.srm_options.specs.declared.options.Engine.TheVariants.{Window};
ghost use Rattle.srm_interfaces.specs.Watches.{MayLead};
ghost use Rattle.srm_program.specs.Askings.{IsKept, MayStep, Reports};

use crate::asked::Asked;
use crate::end_table::EndTable;
use crate::fault::LabFault;
use crate::keep_run::{keep_steps, keep_windows};
use crate::report::write_text;
use crate::task::Task;
use srm_interfaces::watch_crew::WatchCrew;
use srm_ledger::totals::Totals;
use srm_member::participant::Participant;
use srm_report::outlet::Outlet;
use std::alloc::Global;
use std::marker::Copy;

/// Writes this table of the sequential run.
pub(crate) fn write_steps<M: Participant, K: Drop, T: EndTable<K> + Copy, O: Outlet>(
    alloc: Global,
    task: Task,
    members: Vec<M>,
    table: T,
    outlet: &mut O,
) -> Result<(), LabFault>
    requires opening { IsOpening task.session.scenario.now (map M.plain members.items) }
    requires may { MayStep O.Outlet task outlet.old }
    requires shown { task.options.show ≡ T.table }
    ensures { Reports O.Outlet task.entry (map M.plain members.items) outlet.old result outlet.new }
{
    let kept = keep_steps(alloc, Asked { task, members }, table);
    write_kept(alloc, task, table, kept, outlet)
}

/// Writes this table of the run in windows of time that is asked for, led by this crew.
pub(crate) fn write_windows<
    M: Participant,
    K: Drop,
    T: EndTable<K> + Copy,
    C: WatchCrew<M, K, T>,
    O: Outlet,
>(alloc: Global, asked: Asked<M>, crew: &mut C, table: T, outlet: &mut O) -> Result<(), LabFault>
    requires windows { asked.task.options.engine ≡ Window }
    requires lead { MayLead C.ready C.serves crew.old asked.task.session }
    requires count { O.failures outlet.old < 2 ^ 64 - 1 }
    requires shown { asked.task.options.show ≡ T.table }
    ensures { Reports O.Outlet asked.entry.task (map M.plain asked.entry.members.items) outlet.old result outlet.new }
{
    let task = asked.task;
    let kept = keep_windows(alloc, asked, crew, table);
    write_kept(alloc, task, table, kept, outlet)
}

// Writes this table of what was kept of a run, unless it was refused.
fn write_kept<K: Drop, T: EndTable<K> + Copy, O: Outlet>(
    alloc: Global,
    task: Task,
    table: T,
    kept: Result<(Vec<K>, Totals), LabFault>,
    outlet: &mut O,
) -> Result<(), LabFault>
    requires kept { (rs : List Record) × IsOpening task.session.scenario.now rs × IsKept (T.keeps table) task rs kept }
    requires count { O.failures outlet.old < 2 ^ 64 - 1 }
    requires shown { task.options.show ≡ T.table }
    ensures { (rs : List Record) → IsOpening task.entry.session.scenario.now rs → IsKept (T.keeps table) task.entry rs kept
        → Reports O.Outlet task.entry rs outlet.old result outlet.new }
{
    let (kept, totals) = kept?;
    write_text(
        table.text(alloc, task.session, kept.as_slice(), &totals),
        outlet,
    )
}
