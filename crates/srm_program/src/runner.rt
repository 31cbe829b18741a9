//! Who runs the members of a task.
ghost use Rattle.std.specs.Prelude.{◌<◌, ◌-◌, ◌^◌, ℕ, map};
ghost use Rattle.srm_engine.specs.Openings.{HoldOpeningRecords};
ghost use Rattle.srm_options.specs.declared.options.Options.{Options};
ghost use Rattle.srm_program.specs.Askings.{Reports};

use crate::fault::LabFault;
use crate::task::Task;
use srm_member::member::Member;
use srm_report::outlet::Outlet;
use std::alloc::Global;

/// Who runs the members of a task, each in its box, and writes the report of the run. Replications have one that makes steps
/// alone, so that no engine of windows is compiled a second time for them.
pub(crate) trait Runner {
    // It serves tasks with these options.
    ghost ready: { Self → Options → Type 0 };

    /// Writes the report of the run of a task.
    ///
    /// # Errors
    /// As of [`run`](crate::run::run).
    fn report<O: Outlet>(
        self,
        alloc: Global,
        task: Task,
        members: Vec<Box<dyn Member>>,
        outlet: &mut O,
    ) -> Result<(), LabFault>
        requires ready { ready self task.options }
        requires boxes { (seed : ℕ) × HoldOpeningRecords task.session.scenario.now seed (map (λ b. plain b) members.items) }
        requires count { O.failures outlet.old < 2 ^ 64 - 1 }
        ensures { Reports O.Outlet task.entry (map (λ b. plain b) members.items) outlet.old result outlet.new };
}
