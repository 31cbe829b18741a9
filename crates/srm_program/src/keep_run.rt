//! What a watch keeps of the rows of a run.
ghost use Rattle.std.specs.Prelude.{◌≡◌, map};
ghost use Rattle.srm_interfaces.specs.Watches.{MayLead};
ghost use Rattle.srm_program.specs.Askings.{IsKept};
ghost use Rattle.srm_program.specs.Runs.{fault_of_run};

use crate::asked::Asked;
use crate::fault::LabFault;
use crate::hand_rows::hand_rows;
use crate::options::{Engine, Options};
use srm_engine::fault::RunFault;
use srm_engine::start::Start;
use srm_engine::width::Windows;
use srm_engine::window_watch::window_watch;
use srm_interfaces::watch::{MemberWatch, Watch};
use srm_interfaces::watch_crew::WatchCrew;
use srm_interfaces::watch_sink::WatchSink;
use srm_ledger::totals::Totals;
use srm_member::participant::Participant;
use std::alloc::Global;
use std::marker::Copy;

// The run in windows of time that is asked for, led by this crew: what the watch keeps of each member's rows, in order of their
// numbers, and the totals.
pub(crate) fn keep_windows<
    M: Participant,
    K: Drop,
    W: MemberWatch<K> + Copy,
    C: WatchCrew<M, K, W>,
>(alloc: Global, asked: Asked<M>, crew: &mut C, watch: W) -> Result<(Vec<K>, Totals), LabFault>
    requires windows { asked.task.options.engine ≡ Engine.Window }
    requires lead { MayLead C.ready C.serves crew.old asked.task.session }
    ensures { IsKept (W.keeps watch) asked.entry.task (map M.plain asked.entry.members.items) result }
{
    let Asked { task, members } = asked;
    let Options { cut, width, .. } = task.options;
    let start = Start {
        session: task.session,
        members,
    };
    match window_watch(alloc, start, crew, Windows { cut, width }, watch) {
        Ok(kept) => Ok(kept),
        Err(fault) => Err(fault_of(fault)),
    }
}

// The sequential run: what the watch keeps of each member's rows, in order of their numbers, and the totals.
pub(crate) fn keep_steps<M: Participant, K: Drop, W: Watch<K> + Copy>(
    alloc: Global,
    asked: Asked<M>,
    watch: W,
) -> Result<(Vec<K>, Totals), LabFault>
    requires steps { asked.task.options.engine ≡ Engine.Step }
    ensures { IsKept (W.keeps watch) asked.entry.task (map M.plain asked.entry.members.items) result }
{
    let members = usize::from(asked.task.session.scenario.members());
    let Ok(sink) = WatchSink::new(alloc, watch, members) else {
        return Err(LabFault::NoMemory);
    };
    let mut sink = sink;
    let totals = hand_rows(alloc, asked, &mut sink)?;
    Ok((sink.into_kept(), totals))
}

// What a refusal of an engine is to the program.
pub(crate) fn fault_of(fault: RunFault) -> LabFault
    ensures { result ≡ fault_of_run fault }
{
    match fault {
        RunFault::BadCut => LabFault::BadCut,
        RunFault::BadWidth => LabFault::BadWidth,
        RunFault::ShareFull => LabFault::ShareFull,
        RunFault::NoMemory => LabFault::NoMemory,
        RunFault::CountFull => LabFault::CountFull,
    }
}
