//! Runs of a scenario that differ in their seed alone, made side by side, and their table.
ghost use Rattle.std.specs.Prelude.{◌≡◌, ◌<◌, ◌≤◌, ◌+◌, ◌-◌, ◌^◌, ◌++◌, ◌∷◌, [], ℕ, Some, Ok, Err, codes, IfOk, IfErr, MatchResult};
ghost use Rattle.std.specs.List.{range_with_len};
ghost use Rattle.csv.specs.Writing.{default_writer, row_text};
ghost use Rattle.srm_program.specs.Reports.{columns_shown, failures_after_run};
ghost use Rattle.srm_options.specs.declared.options.Show.{Show as AShow};
ghost use Rattle.srm_scenario.specs.Plain.{PlainScenario};
ghost use Rattle.srm_program.specs.Runs.{MayShareBag};
ghost use Rattle.srm_program.specs.Replications.{series_of, AreReplicated, MakesEach, MakesLines, MayReplicate, PutsNext, TellsReplications};

use crate::fault::LabFault;
use crate::options::{Options, Show};
use crate::replicating::Replicating;
use srm_report::listing::{timers, trace};
use srm_report::outlet::Outlet;
use srm_report::writing::{WriteFault, write_out};
use srm_report::{links, losses, members, operations, scopes};
use srm_scenario::session::Session;
use srm_team::bench::{Bench, serve_all};
use srm_team::naming::Naming;
use srm_team::opened::Opened;
use srm_team::relay::{Relay, open_relay};
use srm_team::work::Work;
use std::alloc::{AllocError, Global};
use std::marker::{Brand, Send, Sync};
use std::sync::Wait;
use std::thread::{Threads, join_mut};

// How many runs a worker has at most under way, or done and not written.
const RUNS: usize = 4;

// The line of the columns.
fn columns(show: Show) -> &'static [u8]
    ensures { result.now ≡ row_text default_writer (columns_shown show) }
{
    match show {
        Show::Trace => trace::HEADER,
        Show::Members => members::HEADER,
        Show::Losses => losses::HEADER,
        Show::Operations => operations::HEADER,
        Show::Links => links::HEADER,
        Show::Timers => timers::HEADER,
        Show::Scopes => scopes::HEADER,
    }
}

// The same, with the column of the seed in front.
fn header(alloc: Global, show: Show) -> Result<Vec<u8>, AllocError>
    ensures { IfOk result (λ text. text.items ≡ row_text default_writer (codes "seed" ∷ columns_shown show)) }
{
    let mut text = Vec::from_slice(alloc, b"seed,")?;
    text.extend_from_slice(columns(show))?;
    Ok(text)
}

// Writes a text, and counts the bytes that were taken.
fn put<O: Outlet>(outlet: &mut O, written: &mut u64, text: &[u8]) -> Result<(), LabFault>
    requires { O.failures outlet.old < 2 ^ 64 - 1 }
    ensures failures { O.failures outlet.new ≡ failures_after_run result (O.failures outlet.old) }
    ensures taken { PutsNext (O.taken outlet.old) written.old text.now result (O.taken outlet.new) written.new }
{
    match write_out(outlet, text) {
        Ok(()) => {
            *written = written.saturating_add(text.len() as u64);
            Ok(())
        }
        Err(WriteFault { written: more }) => {
            let written = written.saturating_add(more);
            Err(LabFault::WriteFault { written })
        }
    }
}

/// Seeds that rise by one.
#[derive(Clone, Copy, Debug, PartialEq, Eq)]
pub struct Seeds {
    /// The first.
    pub first: u64,
    /// How many there are.
    pub count: u32,
}

// Which runs are shown, and what of each.
#[derive(Clone, Copy)]
pub(crate) struct ShownRuns {
    pub show: Show,
    // The first seed.
    pub first: u64,
    // One more than the last.
    pub end: u64,
}

// Begins runs of the seeds from `next` on, up to `end`, while there is room. Gives the first seed that was not begun.
fn begin_runs<W: Work<u64, Result<Vec<u8>, LabFault>> + Copy, J: Naming, R: Wait>(
    rt: &R,
    alloc: Global,
    relay: &mut Relay<W, u64, Result<Vec<u8>, LabFault>, J>,
    next: u64,
    end: u64,
) -> Result<u64, LabFault>
    requires ready { (seed : ℕ) → W.ready relay.old.work seed }
    requires seeds { next ≤ end }
    ensures work { relay.new.work ≡ relay.old.work }
    ensures begun { IfOk result (λ n. (next ≤ n) × (n ≤ end)
        × (relay.new.under_way ≡ relay.old.under_way ++ range_with_len next (n - next))) }
    ensures fault { IfErr result (λ e. e ≡ LabFault.NoMemory) }
{
    let mut seed = next;
    while seed < end && relay.has_room() {
        match relay.begin(rt, alloc, seed) {
            Ok(()) => {}
            Err(_) => return Err(LabFault::NoMemory),
        }
        seed += 1;
    }
    Ok(seed)
}

// Waits for the lines of the run of the next seed, and begins others meanwhile. Gives the lines, and the first seed that was not
// begun.
fn next_lines<W: Work<u64, Result<Vec<u8>, LabFault>> + Copy, J: Naming, R: Wait>(
    rt: &R,
    alloc: Global,
    relay: &mut Relay<W, u64, Result<Vec<u8>, LabFault>, J>,
    seed: u64,
    next: u64,
    end: u64,
) -> Result<(Vec<u8>, u64), LabFault>
    requires ready { (seed : ℕ) → W.ready relay.old.work seed }
    requires order { (seed ≤ next) × (next ≤ end) }
    requires under_way { relay.old.under_way ≡ range_with_len seed (next - seed) }
    ensures work { relay.new.work ≡ relay.old.work }
    ensures under_way { IfOk result (λ r. (seed + 1 ≤ r.1) × (r.1 ≤ end)
        × (relay.new.under_way ≡ range_with_len (seed + 1) (r.1 - (seed + 1)))) }
    ensures lines { (p : PlainScenario) (show : AShow) → MakesEach (W.gives relay.old.work) p show
        → MatchResult result (λ r. MakesLines p show seed (Ok r.0)) (λ e. MakesLines p show seed (Err e)) }
{
    let next = match begin_runs(rt, alloc, relay, next, end) {
        Ok(next) => next,
        Err(fault) => return Err(fault),
    };
    let Ok(made) = relay.next(rt) else {
        return Err(LabFault::NoMemory);
    };
    match made {
        Ok(lines) => Ok((lines, next)),
        Err(fault) => Err(fault),
    }
}

// Writes the header, and then the lines of each run, in order of the seeds.
fn lead<W: Work<u64, Result<Vec<u8>, LabFault>> + Copy, J: Naming, R: Wait, O: Outlet>(
    rt: &R,
    alloc: Global,
    relay: Relay<W, u64, Result<Vec<u8>, LabFault>, J>,
    span: ShownRuns,
    outlet: &mut O,
) -> Result<(), LabFault>
    requires ready { (seed : ℕ) → W.ready relay.work seed }
    requires fresh { relay.under_way ≡ [] }
    requires seeds { span.first ≤ span.end }
    requires count { O.failures outlet.old < 2 ^ 64 - 1 }
    ensures { (p : PlainScenario) → MakesEach (W.gives relay.work) p span.show
        → AreReplicated O.Outlet (series_of p span) outlet.old result outlet.new }
{
    let mut relay = relay;
    let mut written = 0;
    let Ok(columns) = header(alloc, span.show) else {
        return Err(LabFault::NoMemory);
    };
    match put(outlet, &mut written, columns.as_slice()) {
        Ok(()) => {}
        Err(fault) => return Err(fault),
    }
    let mut next = span.first;
    for seed in span.first..span.end {
        let lines = match next_lines(rt, alloc, &mut relay, seed, next, span.end) {
            Ok((lines, begun)) => {
                next = begun;
                lines
            }
            Err(fault) => return Err(fault),
        };
        match put(outlet, &mut written, lines.as_slice()) {
            Ok(()) => {}
            Err(fault) => return Err(fault),
        }
    }
    Ok(())
}

// The same of a relay that waits.
fn lead_waiting<W: Work<u64, Result<Vec<u8>, LabFault>> + Copy, J: Naming, R: Wait, O: Outlet>(
    rt: &R,
    alloc: Global,
    waiting: &mut Option<Relay<W, u64, Result<Vec<u8>, LabFault>, J>>,
    span: ShownRuns,
    outlet: &mut O,
) -> Result<(), LabFault>
    requires waiting { (l : _) × (waiting.old ≡ Some l) × ((seed : ℕ) → W.ready l.work seed) × (l.under_way ≡ []) }
    requires seeds { span.first ≤ span.end }
    requires count { O.failures outlet.old < 2 ^ 64 - 1 }
    ensures { (l : _) → waiting.old ≡ Some l
        → (p : PlainScenario) → MakesEach (W.gives l.work) p span.show
        → AreReplicated O.Outlet (series_of p span) outlet.old result outlet.new }
{
    let relay = waiting.take().unwrap();
    lead(rt, alloc, relay, span, outlet)
}

// The same beside so many threads, of which there may be none. They serve at the bench until all is written.
fn lead_beside<
    W: Work<u64, Result<Vec<u8>, LabFault>> + Copy + Send + Sync,
    J: Naming + Send + Sync,
    R: Threads + Wait + Sync,
    O: Outlet,
>(
    rt: &R,
    alloc: Global,
    threads: usize,
    bench: &Bench<W, u64, Result<Vec<u8>, LabFault>, J>,
    relay: Relay<W, u64, Result<Vec<u8>, LabFault>, J>,
    span: ShownRuns,
    outlet: &mut O,
) -> Result<(), LabFault>
    requires ready { (seed : ℕ) → W.ready relay.work seed }
    requires fresh { relay.under_way ≡ [] }
    requires seeds { span.first ≤ span.end }
    requires count { O.failures outlet.old < 2 ^ 64 - 1 }
    ensures { (p : PlainScenario) → MakesEach (W.gives relay.work) p span.show
        → AreReplicated O.Outlet (series_of p span) outlet.old result outlet.new }
{
    if threads == 0 {
        return lead(rt, alloc, relay, span, outlet);
    }
    let mut waiting = Some(relay);
    // The first closure borrows the other ones.
    let own = alloc;
    let own_rt = rt;
    let ((), answer) = join_mut(
        rt,
        &mut || serve_all(rt, alloc, threads, bench),
        &mut ||
            requires { (l : _) × (waiting ≡ Some l) × ((seed : ℕ) → W.ready l.work seed)
                × (l.under_way ≡ []) × (span.first ≤ span.end) × (O.failures outlet.now < 2 ^ 64 - 1) }
            ensures { (l : _) → waiting.entry ≡ Some l
                → (p : PlainScenario) → MakesEach (W.gives l.work) p span.show
                → AreReplicated O.Outlet (series_of p span) outlet.entry.now result outlet.exit.now }
        { lead_waiting(own_rt, own, &mut waiting, span, outlet) },
    );
    answer
}

// Runs by a team that has this history, of so many workers.
fn by_team<
    W: Work<u64, Result<Vec<u8>, LabFault>> + Copy + Send + Sync,
    J: Naming + Send + Sync,
    R: Threads + Wait + Sync,
    O: Outlet,
>(
    rt: &R,
    alloc: Global,
    opened: Opened<W, u64>,
    work: W,
    workers: u8,
    span: ShownRuns,
    outlet: &mut O,
) -> Result<(), LabFault>
    requires history { opened ≡ J.book }
    requires ready { (seed : ℕ) → W.ready work seed }
    requires workers { MayShareBag workers }
    requires seeds { span.first ≤ span.end }
    requires count { O.failures outlet.old < 2 ^ 64 - 1 }
    ensures { (p : PlainScenario) → MakesEach (W.gives work) p span.show
        → AreReplicated O.Outlet (series_of p span) outlet.old result outlet.new }
{
    let workers = usize::from(workers);
    match open_relay::<W, u64, Result<Vec<u8>, LabFault>, J>(alloc, opened, work, RUNS * workers) {
        Ok((relay, bench)) => lead_beside(rt, alloc, workers - 1, &bench, relay, span, outlet),
        Err(_) => Err(LabFault::NoMemory),
    }
}

/// Runs a scenario on its network once for each of these seeds, and writes one table of all runs: the columns of the table that
/// is asked for behind one for the seed, and then, in order of the seeds, the rows of each run behind its seed. A run is the
/// sequential one. `options.workers` runs are made at a time, by threads that last and by the thread that calls, or by that alone
/// where no other can be made. A worker that comes free begins the next run, as long as fewer than four for each worker are begun
/// and not written.
///
/// # Errors
/// As met:
/// 1. `CountFull`: the run of a seed meets it. The outlet took the table of all runs before.
/// 2. `NoMemory`: the outlet took the table of some first runs, or nothing.
/// 3. `WriteFault`: exactly where the outlet failed in the call. It took a front of the table, as many bytes as the fault tells,
///    up to 2^64 - 1, and its count of failures is one higher.
pub fn replicate<R: Threads + Wait + Sync, O: Outlet>(
    rt: &R,
    alloc: Global,
    session: Session,
    seeds: Seeds,
    options: Options,
    outlet: &mut O,
) -> Result<(), LabFault>
    requires run { MayReplicate options }
    requires seeds { seeds.first + seeds.count < 2 ^ 64 }
    requires count { O.failures outlet.old < 2 ^ 64 - 1 }
    ensures failures { O.failures outlet.new ≡ failures_after_run result (O.failures outlet.old) }
    ensures report { TellsReplications (record {
      scenario = session.entry.scenario.now;
      first = seeds.first;
      count = seeds.count;
      show = options.show;
    }) (O.taken outlet.old) (O.taken outlet.new) result }
{
    let work = Replicating {
        alloc,
        session,
        options,
    };
    let span = ShownRuns {
        show: options.show,
        first: seeds.first,
        end: seeds.first + u64::from(seeds.count),
    };
    by_team::<Replicating, Brand, R, O>(
        rt,
        alloc,
        Opened::new(),
        work,
        options.workers,
        span,
        outlet,
    )
}
