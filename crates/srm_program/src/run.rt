//! One run of a scenario, and its report.
ghost use Rattle.std.specs.Prelude.{◌≡◌, ◌<◌, ◌-◌, ◌^◌, ℕ, map};
ghost use Rattle.srm_scenario.specs.Plain.{network_of};
ghost use Rattle.srm_engine.specs.Openings.{HoldOpeningRecords};
ghost use Rattle.srm_program.specs.Reports.{failures_after_run, TellsReport};
ghost use Rattle.srm_program.specs.Runs.{MayShareBag, TellsRefusals};

use crate::fault::LabFault;
use crate::in_steps::BySteps;
use crate::in_windows::in_windows;
use crate::options::{Engine, Options};
use crate::runner::Runner;
use crate::task::Task;
use srm_member::member::Member;
use srm_net::net::Net;
use srm_report::outlet::Outlet;
use srm_scenario::scenario::Scenario;
use srm_scenario::session::Session;
use std::alloc::Global;
use std::marker::Sync;
use std::sync::Wait;
use std::thread::Threads;

/// Runs by the engine that is asked for, as [`run`] does.
#[derive(Drop)]
pub(crate) struct ByEngine<'a, R> {
    pub rt: &'a R,
}

impl<'a, R: Threads + Wait + Sync> Runner for ByEngine<'a, R> {
    ghost use Rattle.std.specs.Thread.{IsSync};

    ghost ready = { λ _ _. IsSync R.row };

    fn report<O: Outlet>(
        self,
        alloc: Global,
        task: Task,
        members: Vec<Box<dyn Member>>,
        outlet: &mut O,
    ) -> Result<(), LabFault> {
        let Session { scenario, net } = task.session;
        run(self.rt, alloc, scenario, net, members, task.options, outlet)
    }
}

/// Runs the members of a scenario with the engine that is asked for, and writes the report of the run. Both engines write the
/// same bytes: the report is that of the sequential run, for every seed whose opening records the boxes hold. As it is written,
/// the trace and the table of timers are written as rows come, some 8 KiB at a time (`GATHERED`), and each other table at the
/// end.
///
/// There is one box for each member, in order of their numbers. Each holds its opening record for this scenario, all for one
/// seed.
///
/// # Errors
/// 1. `BadCut` and 2. `BadWidth`, with the engine of windows alone, exactly where they are so.
/// 3. As met: `ShareFull`, only with that engine; `CountFull`, only where the sequential run meets it; and `NoMemory`.
/// 4. `WriteFault`: exactly where the outlet failed in the call.
///
/// The boxes are then gone. Of the trace and the table of timers the outlet took a prefix, and nothing after `BadCut` and
/// `BadWidth`. After `CountFull` and `ShareFull` it took the table of the rows up to where the run broke off, but for at most its
/// last 8,192 bytes. With the sequential engine that is fewer than 32 rows before the step for which the packet count is used up;
/// with the engine of windows it is where a window begins of which a job meets such a step, or the crossings of some jobs are too
/// many.
///
/// Of another table it took nothing, unless it failed: then it took a prefix, fewer bytes than all. After `WriteFault` it took
/// exactly as many bytes as the fault counts, up to 2^64 - 1, and its count of failures is one higher.
pub fn run<R: Threads + Wait + Sync, O: Outlet>(
    rt: &R,
    alloc: Global,
    scenario: &Scenario,
    net: &Net,
    members: Vec<Box<dyn Member>>,
    options: Options,
    outlet: &mut O,
) -> Result<(), LabFault>
    requires network { net.now ≡ network_of scenario.now }
    requires boxes { (seed : ℕ) × HoldOpeningRecords scenario.now seed (map (λ b. plain b) members.items) }
    requires workers { MayShareBag options.workers }
    requires count { O.failures outlet.old < 2 ^ 64 - 1 }
    // The count rises exactly where the answer is `WriteFault`, and then by one.
    ensures failures { O.failures outlet.new ≡ failures_after_run result (O.failures outlet.old) }
    ensures report { (seed : ℕ) → HoldOpeningRecords scenario.now seed (map (λ b. plain b) members.items)
        → TellsReport scenario.now seed options.show (O.taken outlet.old) (O.taken outlet.new) result }
    ensures refusals { (seed : ℕ) → HoldOpeningRecords scenario.now seed (map (λ b. plain b) members.items)
        → TellsRefusals scenario.now seed options (O.taken outlet.old) (O.taken outlet.new) result }
{
    let session = Session { scenario, net };
    let task = Task { session, options };
    match options.engine {
        Engine::Step => BySteps {}.report(alloc, task, members, outlet),
        Engine::Window => in_windows(rt, alloc, task, members, outlet),
    }
}
