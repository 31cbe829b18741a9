//! The table of a run of one event after the other.
use crate::at_end::write_steps;
use crate::fault::LabFault;
use crate::listed::write_listing;
use crate::options::Show;
use crate::runner::Runner;
use crate::task::Task;
use srm_member::member::Member;
use srm_report::links::keep_nothing::KeepNothing;
use srm_report::listing::timers::TimersListing;
use srm_report::listing::trace::TraceListing;
use srm_report::losses::find_losses::FindLosses;
use srm_report::members::count_rows::CountRows;
use srm_report::operations::find_operations::FindOperations;
use srm_report::outlet::Outlet;
use srm_report::scopes::find_scopes::FindScopes;
use std::alloc::Global;

/// Runs one event after the other. It serves tasks for which that is asked for.
#[derive(Drop)]
pub(crate) struct BySteps {}

impl Runner for BySteps {
    ghost use Rattle.std.specs.Prelude.{◌≡◌};
    ghost use Rattle.srm_options.specs.declared.options.Engine.TheVariants.{Step};

    ghost ready = { λ _ o. o.engine ≡ Step };

    fn report<O: Outlet>(
        self,
        alloc: Global,
        task: Task,
        members: Vec<Box<dyn Member>>,
        outlet: &mut O,
    ) -> Result<(), LabFault> {
        match task.options.show {
            Show::Trace => write_listing(alloc, task, members, TraceListing, outlet),
            Show::Members => write_steps(alloc, task, members, CountRows, outlet),
            Show::Losses => write_steps(alloc, task, members, FindLosses { alloc }, outlet),
            Show::Operations => write_steps(alloc, task, members, FindOperations { alloc }, outlet),
            Show::Links => write_steps(alloc, task, members, KeepNothing, outlet),
            Show::Timers => write_listing(alloc, task, members, TimersListing, outlet),
            Show::Scopes => write_steps(alloc, task, members, FindScopes { alloc }, outlet),
        }
    }
}
