//! The run in windows.
ghost use Rattle.std.specs.Prelude.{◌≡◌, ℕ, map, IfErr, IfOk, OnOk};
ghost use Rattle.srm_scenario.specs.Plain.{network_of};
ghost use Rattle.srm_model.specs.World.{IsOutcome};
ghost use Rattle.srm_engine.specs.Openings.{HoldOpeningRecords, InRuns};
ghost use Rattle.srm_engine.specs.Windowed.{rule_of, IsHandedWindows, MayRefuse, TellsRunAsked};

use crate::fault::RunFault;
use crate::kept_rows::KeptRows;
use crate::outcome::Outcome;
use crate::width::Windows;
use crate::window_stream::window_stream;
use srm_interfaces::crew::Crew;
use srm_member::participant::Participant;
use srm_net::net::Net;
use srm_scenario::scenario::Scenario;
use std::alloc::Global;

/// The run of a scenario in windows of time: in each window every member handles its own events, those of a job on whatever thread
/// the crew takes for it. The outcome is that of the sequential run.
///
/// There is one member of type `M` for each number, in order, each holding its opening record for this scenario and one seed. After
/// an error the members are gone.
///
/// # Errors
/// 1. `BadCut`: exactly where the cut is none of 1 to 1,024 members.
/// 2. `BadWidth`: exactly where the width is none that the network allows.
/// 3. As met: `ShareFull`, only where the crossings up to a window, with those of some of its jobs, are more than 2^47 of a kind
///    at some link; `CountFull`, only where the sequential run meets a packet count that is used up; and `NoMemory`.
///
/// The first two come before any work and whatever the memory, and the crew is then as it was; after the others it may be called
/// again. The members are gone.
pub fn window_run<M: Participant, C: Crew<M>>(
    alloc: Global,
    scenario: &Scenario,
    net: &Net,
    members: Vec<M>,
    crew: &mut C,
    asked: Windows,
) -> Result<Outcome, RunFault>
    requires ready { C.ready crew.old }
    requires network { net.now ≡ network_of scenario.now }
    requires boxes { (seed : ℕ) × HoldOpeningRecords scenario.now seed (map M.plain members.items) }
    ensures ready { C.ready crew.new }
    ensures asked { TellsRunAsked scenario.now asked result }
    ensures outcome { InRuns scenario.now (map M.plain members.items)
        (λ s. IfOk result (λ v. IsOutcome s v.trace.items v.exits.items v.totals)) }
    ensures windows { InRuns scenario.now (map M.plain members.items)
        (λ s. OnOk result (IsHandedWindows C.handed s (rule_of s scenario.now asked.width) asked.cut crew.old crew.new)) }
    ensures refused { InRuns scenario.now (map M.plain members.items)
        (λ s. IfErr result (λ e. MayRefuse s (rule_of s scenario.now asked.width) asked.cut crew.old e crew.new)) }
{
    let mut kept = KeptRows::new(alloc);
    match window_stream(alloc, scenario, net, members, crew, asked, &mut kept) {
        Ok((exits, totals)) => Ok(Outcome {
            trace: kept.into_rows(),
            exits,
            totals,
        }),
        // The sink has no device that fails.
        Err(fault) => Err(fault.run_fault().unwrap()),
    }
}
