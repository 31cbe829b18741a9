//! The run in windows whose rows are not handed on, but watched.
ghost use Rattle.srm_interfaces.specs.Watches.{MayLead};
ghost use Rattle.srm_engine.specs.Starts.{InRunsOf};
ghost use Rattle.srm_engine.specs.WindowWatches.{TellsWatchAsked, TellsKept, CallsOfWatch};

use crate::cutting::Cutting;
use crate::fault::RunFault;
use crate::start::Start;
use crate::watch_engine::WatchEngine;
use crate::watched_groups::in_one;
use crate::width::Windows;
use srm_interfaces::watch::MemberWatch;
use srm_interfaces::watch_crew::WatchCrew;
use srm_ledger::totals::Totals;
use srm_member::participant::Participant;
use std::alloc::Global;
use std::marker::Copy;

/// The run of a scenario in windows of time, of whose rows is kept what a watch keeps of each member. No row leaves the worker that
/// made it. What is answered is what is kept of each member, in order of their numbers, and the crossings and drops of the trace's
/// packets: what the watch keeps of the member's rows of the sequential run, and the crossings and drops of that run. The members
/// are dropped, and not asked what they end with.
///
/// # Errors
/// 1. `BadCut`, and 2. `BadWidth`, as of [`window_run`](crate::window_run::window_run): the crew is then as it was.
/// 3. As met: `ShareFull`, only where the crossings of the windows so far, with those of some jobs of the next, are more than 2^47
///    of a kind at some link; `CountFull`, only where a job of that window meets a packet count that is used up; and `NoMemory`,
///    also where memory was refused to the watch.
///
/// The members and what was kept of them are then gone.
pub fn window_watch<M: Participant, K: Drop, W: MemberWatch<K> + Copy, C: WatchCrew<M, K, W>>(
    alloc: Global,
    start: Start<M>,
    crew: &mut C,
    asked: Windows,
    watch: W,
) -> Result<(Vec<K>, Totals), RunFault>
    requires lead { MayLead C.ready C.serves crew.old start.session }
    ensures lead { MayLead C.ready C.serves crew.new start.entry.session }
    ensures asked { TellsWatchAsked start.entry.session.scenario.now asked result }
    ensures kept { InRunsOf start.entry (λ s. TellsKept (W.keeps watch) s result) }
    ensures windows { InRunsOf start.entry (λ s. CallsOfWatch C.handed s start.entry.session.scenario.now asked
        crew.old result crew.new) }
{
    let cutting = Cutting::of(start.session, asked)?;
    let engine = WatchEngine::open(alloc, start, cutting, &watch)?;
    let ran = engine.windows(alloc, crew, watch)?;
    let WatchEngine { engine, kept } = ran;
    let kept = in_one(alloc, kept)?;
    Ok((kept, engine.into_totals()))
}
