//! The run in windows of time, by a team of threads that live as long as it and keep of rows what a watch keeps.
ghost use Rattle.std.specs.Prelude.{◌≡◌, Some, map};
ghost use Rattle.srm_engine.specs.Openings.{IsOpening};
ghost use Rattle.srm_interfaces.specs.Watches.{MayLead};
ghost use Rattle.srm_program.specs.Askings.{MayTabulate, Reports};

use crate::asked::Asked;
use crate::fault::LabFault;
use crate::in_windows::by_row_crew;
use crate::task::Task;
use crate::watched_table::WatchedTable;
use srm_crew::piece::Piece;
use srm_crew::plain::PlainCrew;
use srm_crew::watch_team::WatchTeam;
use srm_crew::watching::Watching;
use srm_crew::worked::Worked;
use srm_interfaces::watch_crew::WatchCrew;
use srm_member::participant::Participant;
use srm_report::outlet::Outlet;
use srm_team::bench::{Bench, serve_all};
use srm_team::naming::Naming;
use srm_team::opened::Opened;
use srm_team::team::open_team;
use srm_team::work::Work;
use std::alloc::Global;
use std::marker::{Brand, Copy, Send, Sync};
use std::sync::Wait;
use std::thread::{Threads, join_mut};

/// How many pieces a worker has of the jobs, or the rows, of a window. Workers take them as they come free.
pub(crate) const PIECES: usize = 4;

// About how many events are due at least where the workers are woken.
const ENOUGH: usize = 700;

// The table of a run led by this crew, of these members. They are taken out of an `Option`, since a closure that calls
// this cannot give them away.
fn lead<
    M: Participant,
    K: Drop,
    W: WatchedTable<K> + Copy,
    C: WatchCrew<M, K, W> + Drop,
    O: Outlet,
>(
    alloc: Global,
    task: &Task,
    watch: W,
    waiting: &mut Option<(C, Vec<M>)>,
    outlet: &mut O,
) -> Result<(), LabFault>
    requires waiting { (l : _) × (waiting.old ≡ Some l) × MayLead C.ready C.serves l.0 task.now.session
        × IsOpening task.now.session.scenario.now (map M.plain l.1.items) }
    requires may { MayTabulate O.Outlet W.show task.now outlet.old }
    ensures { (l : _) → waiting.old ≡ Some l
        → Reports O.Outlet task.now (map M.plain l.1.items) outlet.old result outlet.new }
{
    let (mut crew, members) = waiting.take().unwrap();
    let asked = Asked {
        task: *task,
        members,
    };
    watch.write(alloc, asked, &mut crew, outlet)
}

// The same beside a team's other threads, of which there may be none. They serve at the bench until the crew is gone.
fn lead_beside<
    A: Work<T, D> + Copy + Send + Sync,
    T: Drop + Send,
    D: Drop + Send,
    J: Naming + Send + Sync,
    R: Threads + Wait + Sync,
    M: Participant,
    K: Drop,
    W: WatchedTable<K> + Copy,
    C: WatchCrew<M, K, W> + Drop,
    O: Outlet,
>(
    rt: &R,
    alloc: Global,
    bench: &Bench<A, T, D, J>,
    task: &Task,
    watch: W,
    waiting: (C, Vec<M>),
    outlet: &mut O,
) -> Result<(), LabFault>
    requires opening { IsOpening task.now.session.scenario.now (map M.plain waiting.1.items) }
    requires lead { MayLead C.ready C.serves waiting.0 task.now.session }
    requires may { MayTabulate O.Outlet W.show task.now outlet.old }
    ensures { Reports O.Outlet task.now (map M.plain waiting.1.items) outlet.old result outlet.new }
{
    let threads = usize::from(task.options.workers) - 1;
    let mut waiting = Some(waiting);
    if threads == 0 {
        return lead(alloc, task, watch, &mut waiting, outlet);
    }
    // The first closure borrows the other one.
    let own = alloc;
    let ((), answer) = join_mut(
        rt,
        &mut || serve_all(rt, alloc, threads, bench),
        &mut ||
            requires { (l : _) × (waiting ≡ Some l) × MayLead C.ready C.serves l.0 task.now.session
                × IsOpening task.now.session.scenario.now (map M.plain l.1.items) × MayTabulate O.Outlet W.show task.now outlet.now }
            ensures { (l : _) → waiting.entry ≡ Some l
                → Reports O.Outlet task.entry.now (map M.plain l.1.items) outlet.entry.now result outlet.exit.now }
        { lead(own, task, watch, &mut waiting, outlet) },
    );
    answer
}

// The table by a team that has this history. Where memory for a team is refused, one thread does all the work.
fn by_team<
    'a,
    J: Naming + Send + Sync,
    R: Threads + Wait + Sync,
    M: Participant + Send,
    K: Drop + Send,
    W: WatchedTable<K> + Copy + Send + Sync,
    O: Outlet,
>(
    rt: &R,
    alloc: Global,
    opened: Opened<Watching<'a, W>, Piece<M, K>>,
    asked: Asked<'a, M>,
    watch: W,
    outlet: &mut O,
) -> Result<(), LabFault>
    requires history { opened ≡ J.book }
    requires may { MayTabulate O.Outlet W.show asked.task outlet.old }
    ensures { Reports O.Outlet asked.entry.task (map M.plain asked.entry.members.items) outlet.old result outlet.new }
{
    let Asked { task, members } = asked;
    let work = Watching {
        alloc,
        session: task.session,
        watch,
    };
    // A thread that has no others does all the work as it stands: it cuts no pieces, and counts no events.
    let (pieces, few) = match usize::from(task.options.workers) {
        1 => (0, 0),
        workers => (PIECES * workers, ENOUGH),
    };
    match open_team::<Watching<W>, Piece<M, K>, Worked<M, K>, J>(alloc, opened, pieces) {
        Ok((team, bench)) => {
            let crew = WatchTeam::new(rt, team, work, few);
            lead_beside(rt, alloc, &bench, &task, watch, (crew, members), outlet)
        }
        Err(_) => by_row_crew(alloc, task, members, PlainCrew::new(), watch, outlet),
    }
}

/// The table of a run in windows of time, by a team of workers that lives as long as the run. The thread that calls leads it and
/// is one of the workers. Where no thread can be made, or memory for a team is refused, that thread does all the work.
pub(crate) fn by_watch<
    R: Threads + Wait + Sync,
    M: Participant + Send,
    K: Drop + Send,
    W: WatchedTable<K> + Copy + Send + Sync,
    O: Outlet,
>(
    rt: &R,
    alloc: Global,
    task: Task,
    members: Vec<M>,
    watch: W,
    outlet: &mut O,
) -> Result<(), LabFault>
    requires opening { IsOpening task.session.scenario.now (map M.plain members.items) }
    requires may { MayTabulate O.Outlet W.show task outlet.old }
    ensures { Reports O.Outlet task.entry (map M.plain members.items) outlet.old result outlet.new }
{
    let asked = Asked { task, members };
    by_team::<Brand, R, M, K, W, O>(rt, alloc, Opened::new(), asked, watch, outlet)
}
