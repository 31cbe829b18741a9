//! The sequential run of those who ask for no exits, its rows handed on as they come.
ghost use Rattle.srm_interfaces.specs.Sinks.{IsReady};
ghost use Rattle.srm_engine.specs.Streams.{LeavesSink, MayLackSteps, TellsRefusal};
ghost use Rattle.srm_engine.specs.RowRuns.{TellsTotals, TellsUndone};
ghost use Rattle.srm_engine.specs.Starts.{InRunsOf};

use crate::simulation::Simulation;
use crate::start::Start;
use crate::stream_fault::StreamFault;
use srm_interfaces::sink::RowSink;
use srm_ledger::totals::Totals;
use srm_member::participant::Participant;
use std::alloc::Global;

/// The sequential run of a scenario, its rows handed to a sink as [`step_stream`](crate::step_stream::step_stream) hands them
/// on. What is answered are the crossings and drops of the trace's packets. The members are dropped, and not asked what they
/// end with: once the sink took the last row, no memory is asked for.
///
/// # Errors
/// As of [`step_stream`](crate::step_stream::step_stream), but `Run` with `NoMemory` only where something is left undone: the
/// sink is as it was; or it took the rows so far, and there is a step to take, or there were 2^62 rows; or it was itself
/// refused memory. So memory is refused to no run of fewer rows once a sink that tells its rows apart took the last one and
/// refused nothing.
///
/// The boxes are then gone, and the sink stands as after `step_stream`.
pub fn step_rows<M: Participant, S: RowSink>(
    alloc: Global,
    start: Start<M>,
    sink: &mut S,
) -> Result<Totals, StreamFault>
    requires sink { IsReady (S.stage sink.old) (S.failures sink.old) }
    ensures sink { LeavesSink S.RowSink sink.old result sink.new }
    ensures totals { InRunsOf start.entry (λ s. TellsTotals S.took S.part s sink.old result sink.new) }
    ensures refused { InRunsOf start.entry (λ s. TellsRefusal S.took S.part s sink.old result sink.new) }
    ensures undone { InRunsOf start.entry (λ s. TellsUndone S.stage S.took S.part (MayLackSteps s) s sink.old result sink.new) }
{
    let Start { session, members } = start;
    match Simulation::run(alloc, session, members, sink) {
        Ok(ran) => {
            let Simulation { session, tally, .. } = ran;
            Ok(tally.into_totals(session.as_session().net))
        }
        Err(fault) => Err(fault),
    }
}
