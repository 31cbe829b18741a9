//! The table of a run in windows of time, of what a watch keeps of each member's rows, by the crew that is asked for.
ghost use Rattle.std.specs.Prelude.{◌≡◌, ◌<◌, ◌-◌, ◌^◌, map};
ghost use Rattle.srm_engine.specs.Openings.{IsOpening};
ghost use Rattle.srm_options.specs.declared.options.Engine.TheVariants.{Window};
ghost use Rattle.srm_program.specs.Askings.{MayTabulate, Reports};

use crate::asked::Asked;
use crate::by_watch::by_watch;
use crate::fault::LabFault;
use crate::options::{CrewKind, Show};
use crate::task::Task;
use crate::watched_table::WatchedTable;
use srm_crew::bag_crew::BagCrew;
use srm_crew::gate::OpenGate;
use srm_crew::plain::PlainCrew;
use srm_crew::pool::PoolCrew;
use srm_engine::by_rows::ByRows;
use srm_interfaces::crew::Crew;
use srm_member::member::Member;
use srm_member::participant::Participant;
use srm_report::links::keep_nothing::KeepNothing;
use srm_report::listing::keep_lines::KeepLines;
use srm_report::listing::timers::TimersListing;
use srm_report::listing::trace::TraceListing;
use srm_report::losses::find_losses::FindLosses;
use srm_report::members::count_rows::CountRows;
use srm_report::operations::find_operations::FindOperations;
use srm_report::outlet::Outlet;
use srm_report::scopes::find_scopes::FindScopes;
use std::alloc::Global;
use std::marker::{Copy, Send, Sync};
use std::sync::Wait;
use std::thread::Threads;

/// The table that is shown of a run in windows of time.
pub(crate) fn in_windows<R: Threads + Wait + Sync, O: Outlet>(
    rt: &R,
    alloc: Global,
    task: Task,
    members: Vec<Box<dyn Member>>,
    outlet: &mut O,
) -> Result<(), LabFault>
    requires opening { IsOpening task.session.scenario.now (map (λ b. plain b) members.items) }
    requires windows { task.options.engine ≡ Window }
    requires count { O.failures outlet.old < 2 ^ 64 - 1 }
    ensures { Reports O.Outlet task.entry (map (λ b. plain b) members.items) outlet.old result outlet.new }
{
    // Several threads put lines together beside the one that writes them.
    let joins = matches!(task.options.crew, CrewKind::Team) && task.options.workers > 1;
    match task.options.show {
        Show::Members => by_crew(rt, alloc, task, members, CountRows, outlet),
        Show::Losses => by_crew(rt, alloc, task, members, FindLosses { alloc }, outlet),
        Show::Operations => by_crew(rt, alloc, task, members, FindOperations { alloc }, outlet),
        Show::Links => by_crew(rt, alloc, task, members, KeepNothing, outlet),
        Show::Scopes => by_crew(rt, alloc, task, members, FindScopes { alloc }, outlet),
        Show::Trace => {
            let listing = TraceListing;
            by_crew(
                rt,
                alloc,
                task,
                members,
                KeepLines {
                    alloc,
                    listing,
                    joins,
                },
                outlet,
            )
        }
        Show::Timers => {
            let listing = TimersListing;
            by_crew(
                rt,
                alloc,
                task,
                members,
                KeepLines {
                    alloc,
                    listing,
                    joins,
                },
                outlet,
            )
        }
    }
}

// The table of this watch, by the crew that is asked for.
fn by_crew<
    R: Threads + Wait + Sync,
    K: Drop + Send,
    W: WatchedTable<K> + Copy + Send + Sync,
    O: Outlet,
>(
    rt: &R,
    alloc: Global,
    task: Task,
    members: Vec<Box<dyn Member>>,
    watch: W,
    outlet: &mut O,
) -> Result<(), LabFault>
    requires opening { IsOpening task.session.scenario.now (map (λ b. plain b) members.items) }
    requires may { MayTabulate O.Outlet W.show task outlet.old }
    ensures { Reports O.Outlet task.entry (map (λ b. plain b) members.items) outlet.old result outlet.new }
{
    match task.options.crew {
        CrewKind::Plain => by_row_crew(alloc, task, members, PlainCrew::new(), watch, outlet),
        CrewKind::Pool => by_row_crew(alloc, task, members, PoolCrew::new(rt), watch, outlet),
        CrewKind::Bag => {
            let crew = BagCrew::new(rt, OpenGate, task.options.workers);
            by_row_crew(alloc, task, members, crew, watch, outlet)
        }
        CrewKind::Team => by_watch(rt, alloc, task, members, watch, outlet),
    }
}

/// The table by a crew that keeps rows: the watch sees those of a job once it is done.
pub(crate) fn by_row_crew<
    M: Participant,
    K: Drop,
    W: WatchedTable<K> + Copy,
    C: Crew<M> + Drop,
    O: Outlet,
>(
    alloc: Global,
    task: Task,
    members: Vec<M>,
    crew: C,
    watch: W,
    outlet: &mut O,
) -> Result<(), LabFault>
    requires opening { IsOpening task.session.scenario.now (map M.plain members.items) }
    requires ready { C.ready crew }
    requires may { MayTabulate O.Outlet W.show task outlet.old }
    ensures { Reports O.Outlet task.entry (map M.plain members.items) outlet.old result outlet.new }
{
    let mut crew = crew;
    let mut watched = ByRows { crew: &mut crew };
    let answer = watch.write(alloc, Asked { task, members }, &mut watched, outlet);
    let ByRows { crew: _crew } = watched;
    answer
}
