//! The run in windows whose rows stay where they were made, and what is kept of them is handed on.
ghost use Rattle.std.specs.Prelude.{List};
ghost use Rattle.std.specs.Global.{Vec as AVec};
ghost use Rattle.srm_member.specs.declared.row.Row.{Row as OneRow};
ghost use Rattle.srm_interfaces.specs.Watches.{MayLead};
ghost use Rattle.srm_engine.specs.Streams.{LeavesSink};
ghost use Rattle.srm_interfaces.specs.Sinks.{IsReady};
ghost use Rattle.srm_engine.specs.Starts.{InRunsOf};
ghost use Rattle.srm_interfaces.specs.InTurn.{KeepInGroups};
ghost use Rattle.srm_engine.specs.WindowStreams.{IsLeft, TellsStreamAsked, CallsInWindows, RefusedInWindows};
ghost use Rattle.srm_engine.specs.RowRuns.{TellsTotals, MayLackWindow, TellsUndone};

use crate::start::Start;
use crate::stream_fault::StreamFault;
use crate::watch_engine::WatchEngine;
use crate::width::Windows;
use srm_interfaces::kept_sink::KeptSink;
use srm_interfaces::watch::Watch;
use srm_interfaces::watch_crew::WatchCrew;
use srm_ledger::totals::Totals;
use srm_member::participant::Participant;
use std::alloc::Global;
use std::marker::Copy;

/// The run of a scenario in windows of time, as [`window_stream`](crate::window_stream::window_stream)'s, but no row leaves the
/// worker that made it: the sink is handed, as each window ends, what the watch keeps of each member's rows of that window,
/// closed job by job, in order of the members' numbers. What it took is the trace of the sequential run all the same. What is
/// answered are the crossings and drops of the trace's packets. The members are dropped, and not asked what they end with:
/// once the sink took the last row, no memory is asked for.
///
/// # Errors
/// As of [`window_stream`](crate::window_stream::window_stream), but `Run` with `NoMemory` only where something is left undone: the
/// sink is as it was; or it took the rows so far, and a window is to come; or it was itself refused memory. So memory is refused to
/// no run once a sink that tells its rows apart took the last one and refused nothing. `NoMemory` also where memory was refused to
/// the watch.
///
/// The members are then gone, and the sink stands as after `window_stream`.
pub fn window_kept<
    M: Participant,
    K: Drop,
    W: Watch<K> + Copy,
    C: WatchCrew<M, K, W>,
    S: KeptSink<K>,
>(
    alloc: Global,
    start: Start<M>,
    crew: &mut C,
    asked: Windows,
    watch: W,
    sink: &mut S,
) -> Result<Totals, StreamFault>
    requires lead { MayLead C.ready C.serves crew.old start.session }
    requires keeps { (groups : List (AVec K)) (rows : List OneRow)
        → KeepInGroups (W.keeps watch) (W.closes watch) groups rows → S.keeps groups rows }
    requires sink { IsReady (S.stage sink.old) (S.failures sink.old) }
    ensures lead { MayLead C.ready C.serves crew.new start.entry.session }
    ensures sink { LeavesSink S.RowSink sink.old result sink.new }
    ensures asked { TellsStreamAsked start.entry.session.scenario.now asked result }
    ensures left { IsLeft sink.old result sink.new }
    ensures totals { InRunsOf start.entry (λ s. TellsTotals S.took S.part s sink.old result sink.new) }
    ensures windows { InRunsOf start.entry (λ s. CallsInWindows C.handed s start.entry.session.scenario.now asked
        crew.old result crew.new) }
    ensures refused { InRunsOf start.entry (λ s. RefusedInWindows S.took S.part s start.entry.session.scenario.now asked
        sink.old result sink.new) }
    ensures undone { InRunsOf start.entry (λ s. TellsUndone S.stage S.took S.part
        (MayLackWindow s start.entry.session.scenario.now asked) s sink.old result sink.new) }
{
    match WatchEngine::run(alloc, start, crew, asked, watch, sink) {
        Ok(ran) => Ok(ran.into_totals()),
        Err(fault) => Err(fault),
    }
}
