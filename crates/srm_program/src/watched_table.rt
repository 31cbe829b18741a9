//! Tables that are made of what a watch keeps.
ghost use Rattle.std.specs.Prelude.{map};
ghost use Rattle.srm_options.specs.declared.options.Show.{Show};
ghost use Rattle.srm_interfaces.specs.Watches.{MayLead};
ghost use Rattle.srm_program.specs.Askings.{MayTabulate, Reports};

use crate::asked::Asked;
use crate::fault::LabFault;
use srm_interfaces::watch::Watch;
use srm_interfaces::watch_crew::WatchCrew;
use srm_member::participant::Participant;
use srm_report::outlet::Outlet;
use std::alloc::Global;

/// A table of a run in windows of time that is made of what a watch keeps of each member's rows: a `K`.
pub(crate) trait WatchedTable<K>: Watch<K> {
    // Which table it is.
    ghost show: { Show };

    /// Runs the scenario in windows of time, led by this crew, and writes the table.
    fn write<M: Participant, C: WatchCrew<M, K, Self>, O: Outlet>(
        self,
        alloc: Global,
        asked: Asked<M>,
        crew: &mut C,
        outlet: &mut O,
    ) -> Result<(), LabFault>
        requires lead { MayLead C.ready C.serves crew.old asked.task.session }
        requires may { MayTabulate O.Outlet show asked.task outlet.old }
        ensures { Reports O.Outlet asked.entry.task (map M.plain asked.entry.members.items) outlet.old result outlet.new };
}
