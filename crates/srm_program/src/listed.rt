//! Tables that list rows, written as the rows of a run come.
ghost use Rattle.std.specs.Prelude.{◌≡◌, ◌<◌, ◌-◌, ◌^◌, List, IfOk, map};
ghost use Rattle.srm_member.specs.Record.{Record};
ghost use Rattle.srm_interfaces.specs.Sinks.{IsOpen};
ghost use Rattle.srm_options.specs.declared.options.Engine.TheVariants.{Window};
ghost use Rattle.srm_report.specs.declared.listing.listing_sink.ListingSink.{ListingSink as ASink};
ghost use Rattle.srm_report.specs.ListingSinks.{stage_of, outlet_under, AreOverOne};
ghost use Rattle.srm_engine.specs.Openings.{IsOpening};
ghost use Rattle.srm_program.specs.declared.task.Task.{Task as ATask};
ghost use Rattle.srm_interfaces.specs.Watches.{MayLead};
ghost use Rattle.srm_program.specs.Askings.{HandsOn, IsFresh, IsListed, MayStep};

use crate::asked::Asked;
use crate::fault::LabFault;
use crate::hand_rows::{hand_kept, hand_rows};
use crate::task::Task;
use crate::watched_table::WatchedTable;
use srm_interfaces::sink::RowSink;
use srm_interfaces::watch_crew::WatchCrew;
use srm_ledger::totals::Totals;
use srm_member::participant::Participant;
use srm_report::listing::Listing;
use srm_report::listing::keep_lines::KeepLines;
use srm_report::listing::lines::Lines;
use srm_report::listing::listing_sink::ListingSink;
use srm_report::listing::timers::TimersListing;
use srm_report::listing::trace::TraceListing;
use srm_report::outlet::Outlet;
use srm_report::writing::WriteFault;
use std::alloc::Global;
use std::marker::Copy;

// How many bytes of a table that lists rows are gathered before they are written.
const GATHERED: usize = 8_192;

// Writes what a sink gathered, once all rows of a run were handed to it.
fn flushed<'a, L: Listing, O: Outlet>(
    sink: &mut ListingSink<'a, L, O>,
    handed: Result<Totals, LabFault>,
) -> Result<(), LabFault>
    requires open { IfOk handed (λ _. IsOpen (stage_of sink.old)) }
    requires failures { IfOk handed (λ _. O.failures (outlet_under sink.old) < 2 ^ 64 - 1) }
    ensures outlet { AreOverOne sink.old sink.new }
    ensures listed { (task : ATask) (rs : List Record) (first : ASink L O) → IsFresh first
        → HandsOn ⟦<ListingSink<'a, L, O> as RowSink>⟧ task rs first handed sink.old
        → IsListed O.Outlet L.form task rs (outlet_under first) result (outlet_under sink.new) }
{
    match handed {
        Ok(_) => match sink.flush() {
            Ok(()) => Ok(()),
            Err(WriteFault { written }) => Err(LabFault::WriteFault { written }),
        },
        Err(fault) => Err(fault),
    }
}

/// Writes a table that lists rows, as the rows of the sequential run come, through a sink of its own.
pub(crate) fn write_listing<M: Participant, L: Listing, O: Outlet>(
    alloc: Global,
    task: Task,
    members: Vec<M>,
    listing: L,
    outlet: &mut O,
) -> Result<(), LabFault>
    requires opening { IsOpening task.session.scenario.now (map M.plain members.items) }
    requires may { MayStep O.Outlet task outlet.old }
    ensures { IsListed O.Outlet L.form task.entry (map M.plain members.items) outlet.old result outlet.new }
{
    let mut sink = ListingSink::gathering(alloc, listing, outlet, GATHERED);
    let handed = hand_rows(alloc, Asked { task, members }, &mut sink);
    let answer = flushed(&mut sink, handed);
    // By its contract, the outlet is then as the sink left it.
    let _outlet = sink.into_outlet();
    answer
}

// The same of the lines that are kept of a run in windows of time.
fn write_lines<M: Participant, L: Listing + Copy, C: WatchCrew<M, Lines, KeepLines<L>>, O: Outlet>(
    alloc: Global,
    asked: Asked<M>,
    crew: &mut C,
    watch: KeepLines<L>,
    outlet: &mut O,
) -> Result<(), LabFault>
    requires windows { asked.task.options.engine ≡ Window }
    requires lead { MayLead C.ready C.serves crew.old asked.task.session }
    requires count { O.failures outlet.old < 2 ^ 64 - 1 }
    ensures { IsListed O.Outlet L.form asked.entry.task (map M.plain asked.entry.members.items)
        outlet.old result outlet.new }
{
    let mut sink = ListingSink::gathering(alloc, watch.listing, outlet, GATHERED);
    let handed = hand_kept(alloc, asked, crew, watch, &mut sink);
    let answer = flushed(&mut sink, handed);
    // By its contract, the outlet is then as the sink left it.
    let _outlet = sink.into_outlet();
    answer
}

/// The trace, of the lines of each member.
impl WatchedTable<Lines> for KeepLines<TraceListing> {
    ghost use Rattle.srm_options.specs.declared.options.Show.TheVariants.{Trace};

    ghost show = { Trace };

    fn write<M: Participant, C: WatchCrew<M, Lines, KeepLines<TraceListing>>, O: Outlet>(
        self,
        alloc: Global,
        asked: Asked<M>,
        crew: &mut C,
        outlet: &mut O,
    ) -> Result<(), LabFault> {
        write_lines(alloc, asked, crew, self, outlet)
    }
}

/// The table of timers, of the lines of each member.
impl WatchedTable<Lines> for KeepLines<TimersListing> {
    ghost use Rattle.srm_options.specs.declared.options.Show.TheVariants.{Timers};

    ghost show = { Timers };

    fn write<M: Participant, C: WatchCrew<M, Lines, KeepLines<TimersListing>>, O: Outlet>(
        self,
        alloc: Global,
        asked: Asked<M>,
        crew: &mut C,
        outlet: &mut O,
    ) -> Result<(), LabFault> {
        write_lines(alloc, asked, crew, self, outlet)
    }
}
