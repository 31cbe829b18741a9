//! The run of one seed, as a team's worker makes it.
ghost use Rattle.std.specs.Prelude.{◌≡◌, ℕ};
ghost use Rattle.srm_program.specs.Replications.{GivesLines, MakesLines, MayReplicate};

use crate::fault::{Fault, LabFault};
use crate::in_steps::BySteps;
use crate::members::run_members;
use crate::options::Options;
use srm_report::outlet::WriteOutlet;
use srm_report::seeds::seeded_lines;
use srm_scenario::session::Session;
use srm_team::work::Work;
use std::alloc::Global;

/// Runs of a scenario on its network, one event after the other. Of each seed it gives the lines of the run's table.
#[derive(Clone, Copy)]
pub(crate) struct Replicating<'a> {
    /// The memory that workers take.
    pub alloc: Global,
    /// What is run.
    pub session: Session<'a>,
    /// What is shown of each run.
    pub options: Options,
}

impl<'a> Work<u64, Result<Vec<u8>, LabFault>> for Replicating<'a> {
    ghost use Rattle.srm_program.specs.Replications.{MakesLines, MayReplicate};

    ghost ready = { λ w _. MayReplicate w.options };

    ghost gives = { λ w seed r. MakesLines w.session.scenario.now w.options.show seed r };

    fn work(&self, seed: u64) -> Result<Vec<u8>, LabFault> {
        lines_of_seed(self.alloc, self.session, seed, self.options)
    }
}

/// The run of a seed, which is that of its members' words and of its losses, into memory: the lines of its table's rows, each
/// with the seed in front.
///
/// # Errors
/// `NoMemory` or `CountFull`.
fn lines_of_seed(
    alloc: Global,
    session: Session,
    seed: u64,
    options: Options,
) -> Result<Vec<u8>, LabFault>
    requires { MayReplicate options }
    ensures { MakesLines session.entry.scenario.now options.show seed result }
{
    let Ok(shared) = session.scenario.share() else {
        return Err(LabFault::NoMemory);
    };
    let seeded = shared.with_seed(seed);
    let of_seed = Session {
        scenario: &seeded,
        net: session.net,
    };
    lines_of_run(alloc, of_seed, seed, options)
}

/// The run of a session, whose losses have their seed, into memory.
///
/// # Errors
/// `NoMemory` or `CountFull`.
fn lines_of_run(
    alloc: Global,
    session: Session,
    seed: u64,
    options: Options,
) -> Result<Vec<u8>, LabFault>
    requires { MayReplicate options }
    ensures { GivesLines session.entry.scenario.now options.show seed result }
{
    let mut outlet = WriteOutlet::new(Vec::new(alloc));
    match run_members(BySteps {}, alloc, session, seed, options, &mut outlet) {
        Ok(()) => {
            let table = outlet.into_inner();
            match seeded_lines(alloc, seed, table.as_slice()) {
                Ok(lines) => Ok(lines),
                Err(_) => Err(LabFault::NoMemory),
            }
        }
        Err(Fault::Lab(LabFault::CountFull)) => Err(LabFault::CountFull),
        Err(_) => Err(LabFault::NoMemory),
    }
}
