//! The members of a scenario, made by their roles.
ghost use Rattle.std.specs.Prelude.{◌≡◌, ◌<◌, ◌-◌, ◌^◌};
ghost use Rattle.srm_program.specs.Runs.{MayShareBag, TellsRefusals};
ghost use Rattle.srm_program.specs.Sessions.{session_failures, OfRun, TellsSession};

use crate::fault::Fault;
use crate::options::Options;
use crate::runner::Runner;
use crate::task::Task;
use srm_member::member::Member;
use srm_net::role::Role;
use srm_report::outlet::Outlet;
use srm_roles::late::Late;
use srm_roles::listener::Listener;
use srm_roles::receiver::Receiver;
use srm_roles::sender::Sender;
use srm_scenario::session::Session;
use std::alloc::Global;

/// Makes each member of a session by its role, with random words of this seed, has them run in boxes, and the report of
/// the run written.
///
/// # Errors
/// Memory runs out before the run, and nothing is written; or the run is refused, as [`run`](crate::run::run) says.
pub(crate) fn run_members<E: Runner + Drop, O: Outlet>(
    runner: E,
    alloc: Global,
    session: Session,
    seed: u64,
    options: Options,
    outlet: &mut O,
) -> Result<(), Fault>
    requires workers { MayShareBag options.workers }
    requires ready { E.ready runner options }
    requires count { O.failures outlet.old < 2 ^ 64 - 1 }
    ensures failures { O.failures outlet.new ≡ session_failures result (O.failures outlet.old) }
    ensures report { TellsSession session.entry.scenario.now seed options.show (O.taken outlet.old) (O.taken outlet.new) result }
    ensures refusals { OfRun (TellsRefusals session.entry.scenario.now seed options
        (O.taken outlet.old) (O.taken outlet.new)) result }
{
    let Session { scenario, net } = session;
    let mut members: Vec<Box<dyn Member>> = Vec::with_capacity(
        alloc,
        usize::from(scenario.members()),
    )?;
    for m in 0..scenario.members() {
        let member: Box<dyn Member> = match scenario.role(m) {
            Role::Sender => Box::new(alloc, Sender::new(alloc, scenario, net, seed, m)?)?,
            Role::Receiver => Box::new(alloc, Receiver::new(alloc, scenario, net, seed, m)?)?,
            Role::Late => Box::new(alloc, Late::new(alloc, scenario, net, seed, m)?)?,
            Role::Listener => Box::new(alloc, Listener::new(alloc, scenario, net, seed, m)?)?,
        };
        members.push(member)?;
    }
    match runner.report(alloc, Task { session, options }, members, outlet) {
        Ok(()) => Ok(()),
        Err(fault) => Err(Fault::Lab(fault)),
    }
}
