//! The sequential run.
ghost use Rattle.std.specs.Prelude.{◌≡◌, ℕ, map};
ghost use Rattle.srm_scenario.specs.Plain.{network_of};
ghost use Rattle.srm_engine.specs.Openings.{HoldOpeningRecords, InRuns};
ghost use Rattle.srm_engine.specs.Outcomes.{TellsOutcome};

use crate::fault::RunFault;
use crate::kept_rows::KeptRows;
use crate::outcome::Outcome;
use crate::step_stream::step_stream;
use srm_member::member::Member;
use srm_net::net::Net;
use srm_scenario::scenario::Scenario;
use std::alloc::Global;

/// The sequential run of a scenario: its least pending event is taken, one after another, until none is pending before the end.
///
/// There is one box for each member, in order of their numbers, each holding its opening record for this scenario and one seed.
///
/// # Errors
/// `CountFull` only where the run comes to a member that is to send a packet with its packet count used up; else `NoMemory`. The
/// boxes are then gone.
pub fn step_run(
    alloc: Global,
    scenario: &Scenario,
    net: &Net,
    members: Vec<Box<dyn Member>>,
) -> Result<Outcome, RunFault>
    requires network { net.now ≡ network_of scenario.now }
    requires boxes { (seed : ℕ) × HoldOpeningRecords scenario.now seed (map (λ b. plain b) members.items) }
    ensures { InRuns scenario.now (map (λ b. plain b) members.items) (λ s. TellsOutcome s result) }
{
    let mut kept = KeptRows::new(alloc);
    match step_stream(alloc, scenario, net, members, &mut kept) {
        Ok((exits, totals)) => Ok(Outcome {
            trace: kept.into_rows(),
            exits,
            totals,
        }),
        // The sink has no device that fails.
        Err(fault) => Err(fault.run_fault().unwrap()),
    }
}
