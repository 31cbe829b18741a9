//! The engine in windows that keeps no rows, but what a watch keeps of them.
ghost use Rattle.std.specs.Prelude.{◌≡◌, ◌<◌, ◌+◌, ◌-◌, ◌^◌, [], ℕ, List, IfOk, MatchResult};
ghost use Rattle.std.specs.Global.{Vec as AVec};
ghost use Rattle.srm_member.specs.declared.row.Row.{Row as OneRow};
ghost use Rattle.srm_interfaces.specs.declared.sink.Stage.{Stage as AStage};
ghost use Rattle.srm_interfaces.specs.Sinks.{IsReady, stage_after, stops_in};
ghost use Rattle.srm_interfaces.specs.InTurn.{KeepInGroups};
ghost use Rattle.srm_interfaces.specs.Watches.{MayLead};
ghost use Rattle.srm_engine.specs.Streams.{LeavesSink, sink_in};
ghost use Rattle.srm_engine.specs.Starts.{BeginsWith, InRunsOf};
ghost use Rattle.srm_engine.specs.WindowStreams.{IsLeft, TellsStreamAsked, CallsInWindows, RefusedInWindows};
ghost use Rattle.srm_engine.specs.RowRuns.{TellsLast, MayLackWindow, TellsUndone};
ghost use Rattle.srm_engine.specs.Ends.{MayCut};
ghost use Rattle.srm_engine.specs.WindowEngines.{frame_of, IsUnderWay, IsAt, OpensAt, BeginsNext, TellsWindows};
ghost use Rattle.srm_engine.specs.WatchEngines.{IsWatching, KeepsRows, TellsWatched, TellsAllWatched};

use crate::cutting::Cutting;
use crate::fault::RunFault;
use crate::groups::Groups;
use crate::halt::Halt;
use crate::handing::hand_none;
use crate::start::Start;
use crate::stream_fault::StreamFault;
use crate::watched_groups::{clear_each, none_of_each, taken_apart, watched_jobs};
use crate::width::Windows;
use crate::window_engine::WindowEngine;
use srm_interfaces::kept_sink::KeptSink;
use srm_interfaces::sink::SinkFault;
use srm_interfaces::watch::{MemberWatch, Watch};
use srm_interfaces::watch_crew::WatchCrew;
use srm_member::participant::Participant;
use std::alloc::{AllocError, Global};
use std::marker::Copy;

/// A run of a scenario in windows, and what is kept of each member's rows so far, beside the cells of its groups.
#[derive(Drop)]
pub(crate) struct WatchEngine<'a, M, K> {
    pub(crate) engine: WindowEngine<'a, M>,
    pub(crate) kept: Vec<Vec<K>>,
}

impl<'a, M: Participant, K: Drop> WatchEngine<'a, M, K> {
    /// The cells of all members at the beginning, and what a watch keeps of no row.
    pub(crate) fn open<W: Watch<K>>(
        alloc: Global,
        start: Start<'a, M>,
        cutting: Cutting,
        watch: &W,
    ) -> Result<WatchEngine<'a, M, K>, AllocError>
        requires cutting { MayCut start.session.scenario.now cutting }
        ensures frame { IfOk result (λ e. frame_of e.engine ≡ (start.entry.session, cutting.cut, cutting.ends)) }
        ensures stands { IfOk result (λ e. IsWatching M.plain e) }
        ensures opened { IfOk result (λ e. (seed : ℕ) → BeginsWith start.entry seed → OpensAt M.plain seed e.engine) }
        ensures none { IfOk result (λ e. KeepsRows (W.keeps watch.now) e []) }
    {
        let engine = WindowEngine::open(alloc, start, cutting)?;
        let kept = none_of_each(alloc, watch, engine.groups.groups.as_slice())?;
        Ok(WatchEngine { engine, kept })
    }

    /// The whole run in windows, as is asked for. A sink is handed first no row, and then what the watch keeps of the rows of each
    /// window as it ends.
    pub(crate) fn run<W: Watch<K> + Copy, C: WatchCrew<M, K, W>, S: KeptSink<K>>(
        alloc: Global,
        start: Start<'a, M>,
        crew: &mut C,
        asked: Windows,
        watch: W,
        sink: &mut S,
    ) -> Result<WindowEngine<'a, M>, StreamFault>
        requires lead { MayLead C.ready C.serves crew.old start.session }
        requires keeps { (groups : List (AVec K)) (rows : List OneRow)
            → KeepInGroups (W.keeps watch) (W.closes watch) groups rows → S.keeps groups rows }
        requires sink { IsReady (S.stage sink.old) (S.failures sink.old) }
        ensures lead { MayLead C.ready C.serves crew.new start.entry.session }
        ensures same { C.same crew.old crew.new }
        ensures under_way { IfOk result (λ e. IsUnderWay M.plain e) }
        ensures sink { LeavesSink S.RowSink sink.old result sink.new }
        ensures asked { TellsStreamAsked start.entry.session.scenario.now asked result }
        ensures left { IsLeft sink.old result sink.new }
        ensures last { InRunsOf start.entry (λ s. TellsLast S.took S.part (IsAt M.plain s) s sink.old result sink.new) }
        ensures windows { InRunsOf start.entry (λ s. CallsInWindows C.handed s start.entry.session.scenario.now asked
            crew.old result crew.new) }
        ensures refused { InRunsOf start.entry (λ s. RefusedInWindows S.took S.part s start.entry.session.scenario.now asked
            sink.old result sink.new) }
        ensures undone { InRunsOf start.entry (λ s. TellsUndone S.stage S.took S.part
            (MayLackWindow s start.entry.session.scenario.now asked) s sink.old result sink.new) }
    {
        let cutting = match Cutting::of(start.session, asked) {
            Ok(cutting) => cutting,
            Err(fault) => return Err(fault.into()),
        };
        let engine = match WatchEngine::open(alloc, start, cutting, &watch) {
            Ok(opened) => opened,
            Err(error) => return Err(error.into()),
        };
        match engine.stream(alloc, crew, watch, sink) {
            Ok(ran) => Ok(ran),
            Err(halt) => Err(halt.into()),
        }
    }

    // The window that begins at this tick: every cell runs alone to its end, and then hears all packets that were sent in it.
    fn window<W: Watch<K> + Copy, C: WatchCrew<M, K, W>>(
        self,
        alloc: Global,
        crew: &mut C,
        watch: W,
        begin: u64,
    ) -> Result<WatchEngine<'a, M, K>, RunFault>
        requires lead { MayLead C.ready C.serves crew.old self.engine.session }
        requires stands { IsWatching M.plain self }
        requires begin { BeginsNext M.plain self.engine begin }
        requires early { begin < self.engine.session.scenario.now.until }
        ensures lead { MayLead C.ready C.serves crew.new self.entry.engine.session }
        ensures same { C.same crew.old crew.new }
        ensures frame { IfOk result (λ e. frame_of e.engine ≡ frame_of self.entry.engine) }
        ensures stands { IfOk result (λ e. IsWatching M.plain e) }
        ensures later { IfOk result (λ e. (next : ℕ) → BeginsNext M.plain e.engine next → begin < next) }
        ensures window { TellsWatched C.handed M.plain (W.keeps watch) (W.closes watch) self.entry crew.old result
            crew.new }
    {
        let WatchEngine { engine, kept } = self;
        let end = engine.end(begin);
        let WindowEngine {
            session,
            ledger,
            seat,
            groups,
            ends,
        } = engine;
        let Groups { cut, groups, soon } = groups;
        let jobs = watched_jobs(alloc, groups, kept, soon.as_slice(), end)?;
        let (all, seat) = match crew.map(alloc, session, &ledger, seat, watch, jobs) {
            Ok(done) => done,
            Err(fault) => return Err(RunFault::of(fault).unwrap()),
        };
        let (groups, kept, sent) = taken_apart(alloc, all)?;
        let groups = Groups { cut, groups, soon }.look_again(session, end);
        let groups = groups.heard_from(alloc, session, crew, sent)?;
        let engine = WindowEngine {
            session,
            ledger,
            seat,
            groups,
            ends,
        };
        Ok(WatchEngine { engine, kept })
    }

    /// Windows, one after the other, until nothing is pending before the end of the run.
    pub(crate) fn windows<W: MemberWatch<K> + Copy, C: WatchCrew<M, K, W>>(
        self,
        alloc: Global,
        crew: &mut C,
        watch: W,
    ) -> Result<WatchEngine<'a, M, K>, RunFault>
        requires lead { MayLead C.ready C.serves crew.old self.engine.session }
        requires stands { IsWatching M.plain self }
        ensures lead { MayLead C.ready C.serves crew.new self.entry.engine.session }
        ensures frame { IfOk result (λ e. frame_of e.engine ≡ frame_of self.entry.engine) }
        ensures stands { IfOk result (λ e. IsWatching M.plain e) }
        ensures windows { TellsAllWatched C.handed M.plain (W.keeps watch) self.entry crew.old result crew.new }
    {
        let until = self.engine.session.scenario.until();
        let mut ran = self;
        let mut begin = ran.engine.begin();
        while begin < until {
            let next = match ran.window(alloc, crew, watch, begin) {
                Ok(next) => next,
                Err(fault) => return Err(fault),
            };
            begin = next.engine.begin();
            ran = next;
        }
        Ok(ran)
    }

    // Hands a sink what is kept, which is of the rows of a window. What is kept then is of no row.
    fn handed_on<W: Watch<K>, S: KeptSink<K>>(
        self,
        alloc: Global,
        watch: &W,
        sink: &mut S,
    ) -> Result<WatchEngine<'a, M, K>, SinkFault>
        requires stands { IsWatching M.plain self }
        requires live { S.stage sink.old ≡ AStage.Live }
        requires failures { S.failures sink.old < 2 ^ 64 - 1 }
        ensures engine { IfOk result (λ e. e.engine ≡ self.entry.engine) }
        ensures stands { IfOk result (λ e. IsWatching M.plain e) }
        ensures none { IfOk result (λ e. KeepsRows (W.keeps watch.now) e []) }
        ensures device { S.same sink.old sink.new }
        ensures stage { S.stage sink.new ≡ stage_after result }
        ensures failures { S.failures sink.new ≡ S.failures sink.old + stops_in result }
        ensures rows { (rows : List OneRow) → S.keeps self.entry.kept.items rows
            → MatchResult result (λ _. S.took sink.old rows sink.new) (λ _. S.part sink.old rows sink.new) }
    {
        let WatchEngine { engine, kept } = self;
        let mut kept = kept;
        sink.kept(alloc, kept.as_mut_slice())?;
        clear_each(watch, kept.as_mut_slice());
        Ok(WatchEngine { engine, kept })
    }

    // Windows, one after the other, until nothing is pending before the end of the run. A sink is handed first no row, and then
    // what is kept of the rows of each window as it ends: each begins with what is kept of none.
    fn stream<W: Watch<K> + Copy, C: WatchCrew<M, K, W>, S: KeptSink<K>>(
        self,
        alloc: Global,
        crew: &mut C,
        watch: W,
        sink: &mut S,
    ) -> Result<WindowEngine<'a, M>, Halt>
        requires lead { MayLead C.ready C.serves crew.old self.engine.session }
        requires stands { IsWatching M.plain self }
        requires none { KeepsRows (W.keeps watch) self [] }
        requires keeps { (groups : List (AVec K)) (rows : List OneRow)
            → KeepInGroups (W.keeps watch) (W.closes watch) groups rows → S.keeps groups rows }
        requires sink { IsReady (S.stage sink.old) (S.failures sink.old) }
        ensures lead { MayLead C.ready C.serves crew.new self.entry.engine.session }
        ensures same { C.same crew.old crew.new }
        ensures stands { IfOk result (λ e. IsUnderWay M.plain e) }
        ensures frame { IfOk result (λ e. frame_of e ≡ frame_of self.entry.engine) }
        ensures device { S.same sink.old sink.new }
        ensures stage { S.stage sink.new ≡ stage_after (sink_in result) }
        ensures failures { S.failures sink.new ≡ S.failures sink.old + stops_in (sink_in result) }
        ensures windows { TellsWindows C.handed S.took S.part M.plain self.entry.engine crew.old
            sink.old result sink.new crew.new }
    {
        if let Err(fault) = hand_none(alloc, sink) {
            return Err(Halt::Sink(fault));
        }
        let until = self.engine.session.scenario.until();
        let mut ran = self;
        let mut begin = ran.engine.begin();
        while begin < until {
            let ended = match ran.window(alloc, crew, watch, begin) {
                Ok(ended) => ended,
                Err(fault) => return Err(Halt::Run(fault)),
            };
            let next = match ended.handed_on(alloc, &watch, sink) {
                Ok(next) => next,
                Err(fault) => return Err(Halt::Sink(fault)),
            };
            begin = next.engine.begin();
            ran = next;
        }
        let WatchEngine { engine, .. } = ran;
        Ok(engine)
    }
}
