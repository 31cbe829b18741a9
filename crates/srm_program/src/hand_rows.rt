//! The rows of a run, or what a watch keeps of them, handed to a sink.
ghost use Rattle.std.specs.Prelude.{◌≡◌, List, map};
ghost use Rattle.std.specs.Global.{Vec as AVec};
ghost use Rattle.srm_member.specs.declared.row.Row.{Row as OneRow};
ghost use Rattle.srm_interfaces.specs.InTurn.{KeepInGroups};
ghost use Rattle.srm_interfaces.specs.Watches.{MayLead};
ghost use Rattle.srm_program.specs.Askings.{HandsOn};
ghost use Rattle.srm_program.specs.Runs.{fault_of_stream};
ghost use Rattle.srm_interfaces.specs.Sinks.{IsReady};

use crate::asked::Asked;
use crate::fault::LabFault;
use crate::keep_run::fault_of;
use crate::options::{Engine, Options};
use srm_engine::start::Start;
use srm_engine::step_rows::step_rows;
use srm_engine::stream_fault::StreamFault;
use srm_engine::width::Windows;
use srm_engine::window_kept::window_kept;
use srm_interfaces::kept_sink::KeptSink;
use srm_interfaces::sink::RowSink;
use srm_interfaces::watch::Watch;
use srm_interfaces::watch_crew::WatchCrew;
use srm_ledger::totals::Totals;
use srm_member::participant::Participant;
use std::alloc::Global;
use std::marker::Copy;

// The sequential run, its rows handed to a sink.
pub(crate) fn hand_rows<M: Participant, S: RowSink>(
    alloc: Global,
    asked: Asked<M>,
    sink: &mut S,
) -> Result<Totals, LabFault>
    requires steps { asked.task.options.engine ≡ Engine.Step }
    requires sink { IsReady (S.stage sink.old) (S.failures sink.old) }
    ensures { HandsOn S.RowSink asked.entry.task (map M.plain asked.entry.members.items) sink.old result sink.new }
{
    let Asked { task, members } = asked;
    let start = Start {
        session: task.session,
        members,
    };
    match step_rows(alloc, start, sink) {
        Ok(totals) => Ok(totals),
        Err(fault) => Err(lab_fault(fault)),
    }
}

// The run in windows of time, what this watch keeps of its rows handed to a sink. This crew leads it.
pub(crate) fn hand_kept<
    M: Participant,
    K: Drop,
    W: Watch<K> + Copy,
    C: WatchCrew<M, K, W>,
    S: KeptSink<K>,
>(alloc: Global, asked: Asked<M>, crew: &mut C, watch: W, sink: &mut S) -> Result<Totals, LabFault>
    requires windows { asked.task.options.engine ≡ Engine.Window }
    requires crew { MayLead C.ready C.serves crew.old asked.task.session }
    requires keeps { (groups : List (AVec K)) (rows : List OneRow)
        → KeepInGroups (W.keeps watch) (W.closes watch) groups rows → S.keeps groups rows }
    requires sink { IsReady (S.stage sink.old) (S.failures sink.old) }
    ensures { HandsOn S.RowSink asked.entry.task (map M.plain asked.entry.members.items) sink.old result sink.new }
{
    let Asked { task, members } = asked;
    let Options { cut, width, .. } = task.options;
    let start = Start {
        session: task.session,
        members,
    };
    match window_kept(alloc, start, crew, Windows { cut, width }, watch, sink) {
        Ok(totals) => Ok(totals),
        Err(fault) => Err(lab_fault(fault)),
    }
}

// What a refusal of an engine that hands rows to a sink is to the program.
fn lab_fault(fault: StreamFault) -> LabFault
    ensures { result ≡ fault_of_stream fault }
{
    match fault {
        StreamFault::Run { fault } => fault_of(fault),
        StreamFault::Stopped { written } => LabFault::WriteFault { written },
    }
}
