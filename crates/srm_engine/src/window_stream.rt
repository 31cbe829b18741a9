//! The run in windows, its rows handed on as they come.
ghost use Rattle.std.specs.Prelude.{◌≡◌, ℕ, map};
ghost use Rattle.srm_scenario.specs.Plain.{network_of};
ghost use Rattle.srm_interfaces.specs.Sinks.{IsReady};
ghost use Rattle.srm_engine.specs.Openings.{HoldOpeningRecords, InRuns};
ghost use Rattle.srm_engine.specs.Streams.{LeavesSink, TellsStream};
ghost use Rattle.srm_engine.specs.WindowStreams.{IsLeft, TellsStreamAsked, CallsInWindows, RefusedInWindows};

use crate::by_rows::ByRows;
use crate::keep_rows::KeepRows;
use crate::merged_rows::MergedRows;
use crate::start::Start;
use crate::stream_fault::StreamFault;
use crate::watch_engine::WatchEngine;
use crate::width::Windows;
use srm_interfaces::crew::Crew;
use srm_interfaces::sink::RowSink;
use srm_ledger::totals::Totals;
use srm_member::exit::Exit;
use srm_member::participant::Participant;
use srm_net::net::Net;
use srm_scenario::scenario::Scenario;
use srm_scenario::session::Session;
use std::alloc::Global;

/// The run of a scenario in windows of time, as `window_run`'s, its rows handed to a sink as they come: first none, and then
/// those of each window, in order, once it has ended. So no more than one window's rows are in memory at once. What is answered are
/// the exits of the members, in order of their numbers, and the crossings and drops of the trace's packets: those of the sequential
/// run, as the trace is.
///
/// There is one member of type `M` for each number, in order, each holding its opening record for this scenario and one seed. After
/// an error the members are gone, and the sink has taken no more than a front of the trace.
///
/// # Errors
/// 1. `Run` with `BadCut`, and 2. `Run` with `BadWidth`, as of [`window_run`](crate::window_run::window_run): the sink and the
///    crew are then as they were.
/// 3. As met: `Stopped`, exactly where the device under the sink failed, with the number that the sink told; `Run` with
///    `ShareFull`, only where the crossings of the rows that the sink took, all of the windows so far, with those of some jobs
///    of the next window are more than 2^47 of a kind at some link; `Run` with `CountFull`, only where a job of that window
///    meets a packet count that is used up; `Run` with `NoMemory`, also where memory was refused to the sink.
///
/// The members are then gone. The sink stands as after [`step_stream`](crate::step_stream::step_stream), after `ShareFull` as after
/// `CountFull`.
pub fn window_stream<M: Participant, C: Crew<M>, S: RowSink>(
    alloc: Global,
    scenario: &Scenario,
    net: &Net,
    members: Vec<M>,
    crew: &mut C,
    asked: Windows,
    sink: &mut S,
) -> Result<(Vec<Exit>, Totals), StreamFault>
    requires ready { C.ready crew.old }
    requires network { net.now ≡ network_of scenario.now }
    requires boxes { (seed : ℕ) × HoldOpeningRecords scenario.now seed (map M.plain members.items) }
    requires sink { IsReady (S.stage sink.old) (S.failures sink.old) }
    ensures ready { C.ready crew.new }
    ensures sink { LeavesSink S.RowSink sink.old result sink.new }
    ensures asked { TellsStreamAsked scenario.now asked result }
    ensures left { IsLeft sink.old result sink.new }
    ensures stream { InRuns scenario.now (map M.plain members.items) (λ s. TellsStream S.took S.part s sink.old result sink.new) }
    ensures windows { InRuns scenario.now (map M.plain members.items)
        (λ s. CallsInWindows C.handed s scenario.now asked crew.old result crew.new) }
    ensures refused { InRuns scenario.now (map M.plain members.items)
        (λ s. RefusedInWindows S.took S.part s scenario.now asked sink.old result sink.new) }
{
    let session = Session { scenario, net };
    let start = Start { session, members };
    let mut watched = ByRows { crew };
    let mut merged = MergedRows {
        sink,
        is_refused: false,
    };
    let ran = WatchEngine::run(
        alloc,
        start,
        &mut watched,
        asked,
        KeepRows { alloc },
        &mut merged,
    );
    // By its contract, crew and sink are then as the run left them.
    let ByRows { crew: _crew } = watched;
    let MergedRows {
        sink: _sink,
        is_refused: _,
    } = merged;
    let ran = match ran {
        Ok(ran) => ran,
        Err(fault) => return Err(fault),
    };
    match ran.finish(alloc) {
        Ok(ends) => Ok(ends),
        Err(error) => Err(error.into()),
    }
}
