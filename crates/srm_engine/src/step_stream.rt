//! The sequential run, its rows handed on as they come.
ghost use Rattle.std.specs.Prelude.{◌≡◌, ℕ, map};
ghost use Rattle.srm_scenario.specs.Plain.{network_of};
ghost use Rattle.srm_interfaces.specs.Sinks.{IsReady};
ghost use Rattle.srm_engine.specs.Openings.{HoldOpeningRecords, InRuns};
ghost use Rattle.srm_engine.specs.Streams.{LeavesSink, TellsStream, TellsRefusal};

use crate::cells::finish_cells;
use crate::simulation::Simulation;
use crate::stream_fault::StreamFault;
use srm_interfaces::sink::RowSink;
use srm_ledger::totals::Totals;
use srm_member::exit::Exit;
use srm_member::member::Member;
use srm_net::net::Net;
use srm_scenario::scenario::Scenario;
use srm_scenario::session::Session;
use std::alloc::Global;

/// The sequential run of a scenario, as `step_run`'s, its rows handed to a sink as they come: first none, and then all of them, in
/// order, 32 at a time. So no more than these are in memory at once. What is answered are the exits of the members, in order
/// of their numbers, and the crossings and drops of the trace's packets.
///
/// There is one box for each member, in order of their numbers, each holding its opening record for this scenario and one seed.
///
/// # Errors
/// As met: `Stopped`, exactly where the device under the sink failed, with the number that the sink told; `Run` with `CountFull`,
/// only where the run comes to a member that is to send a packet with its packet count used up, fewer than 32 rows after those that
/// the sink took; `Run` with `NoMemory`, also where memory was refused to the sink, or there were 2^62 rows.
///
/// The boxes are then gone. The sink took no more than a front of the trace. After `CountFull` it may be asked for more; after
/// `Stopped` it stands refused, and its count of failures is one higher.
pub fn step_stream<S: RowSink>(
    alloc: Global,
    scenario: &Scenario,
    net: &Net,
    members: Vec<Box<dyn Member>>,
    sink: &mut S,
) -> Result<(Vec<Exit>, Totals), StreamFault>
    requires network { net.now ≡ network_of scenario.now }
    requires boxes { (seed : ℕ) × HoldOpeningRecords scenario.now seed (map (λ b. plain b) members.items) }
    requires sink { IsReady (S.stage sink.old) (S.failures sink.old) }
    ensures sink { LeavesSink S.RowSink sink.old result sink.new }
    ensures stream { InRuns scenario.now (map (λ b. plain b) members.items)
        (λ s. TellsStream S.took S.part s sink.old result sink.new) }
    ensures refused { InRuns scenario.now (map (λ b. plain b) members.items)
        (λ s. TellsRefusal S.took S.part s sink.old result sink.new) }
{
    let ran = match Simulation::run(alloc, Session { scenario, net }, members, sink) {
        Ok(ran) => ran,
        Err(fault) => return Err(fault),
    };
    let Simulation {
        session,
        cells,
        tally,
    } = ran;
    match finish_cells(alloc, cells.cells) {
        Ok(exits) => Ok((exits, tally.into_totals(session.as_session().net))),
        Err(error) => Err(error.into()),
    }
}
