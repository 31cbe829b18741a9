//! What a crew of a team gives for a window. Its type names the box, so it can't have the trait that crews of boxes have.
ghost use Rattle.std.specs.Prelude.{◌≡◌};
ghost use Rattle.srm_scenario.specs.Plain.{network_of};
ghost use Rattle.srm_interfaces.specs.Watches.{MayMapWatched};

use crate::crew_tests::case::Case;
use crate::crew_tests::cases::CASES;
use crate::crew_tests::handing::opened;
use crate::crew_tests::keep_seen::{KeepSeen, watched};
use crate::crew_tests::mapped::first_jobs;
use crate::crew_tests::run_context::RunContext;
use crate::crew_tests::seats::{counted, ledger_of};
use crate::crew_tests::seen::{Seen, Window};
use srm_crew::piece::Piece;
use srm_crew::watch_team::WatchTeam;
use srm_crew::watching::Watching;
use srm_crew::worked::Worked;
use srm_examples::watched::MemberWatch;
use srm_interfaces::fault::CrewFault;
use srm_interfaces::watch_crew::WatchCrew;
use srm_interfaces::watched::{WatchedDone, WatchedJob};
use srm_ledger::ledger::Seat;
use srm_member::member::Member;
use srm_member::participant::Participant;
use srm_scenario::session::Session;
use srm_team::naming::Naming;
use srm_team::opened::Opened;
use srm_team::team::open_team;
use std::alloc::{AllocError, Global};
use std::marker::Brand;
use std::process::Abort;
use std::sync::Wait;

// As many pieces as a team has room for, more than a case has jobs.
const ROOM: usize = 8;

// What a crew of a team with this history gives for jobs. The thread that calls is the team's one worker.
fn map_by_team<'a, M: Participant, J: Naming, R: Wait>(
    rt: &R,
    alloc: Global,
    history: Opened<Watching<'a, KeepSeen>, Piece<M, Vec<Seen>>>,
    context: &RunContext<'a>,
    seat: Seat,
    jobs: Vec<WatchedJob<M, Vec<Seen>>>,
) -> Result<(Vec<WatchedDone<M, Vec<Seen>>>, Seat), CrewFault>
    requires network { context.now.net.now ≡ network_of context.now.scenario.now }
    requires history { history ≡ J.book }
    requires jobs { MayMapWatched M.plain context.now.net.now context.now.ledger.now seat jobs.items }
{
    let session = Session {
        scenario: context.scenario,
        net: context.net,
    };
    let watch = KeepSeen { alloc };
    let (team, _bench) = match open_team::<
        Watching<KeepSeen>,
        Piece<M, Vec<Seen>>,
        Worked<M, Vec<Seen>>,
        J,
    >(alloc, history, ROOM)
    {
        Ok(both) => both,
        Err(AllocError) => return Err(CrewFault::NoMemory),
    };
    let work = Watching {
        alloc,
        session,
        watch,
    };
    let mut crew = WatchTeam::new(rt, team, work, 0);
    crew.map(alloc, session, context.ledger, seat, watch, jobs)
}

// Hands a case's jobs to a crew of a team, and asserts that what the case says comes of them.
fn map_first<R: Wait + Abort>(
    rt: &R,
    alloc: Global,
    case: &Case,
    watch: &mut MemberWatch,
) -> Result<(), AllocError> {
    let (scenario, net) = opened(rt, alloc, case.scenario)?;
    let jobs = first_jobs(rt, alloc, &scenario, &net, case, watch)?;
    let (ledger, seat) = ledger_of(rt, alloc, &net)?;
    let seat = counted(rt, &ledger, seat, case.counted);
    let jobs = watched(alloc, jobs)?;
    let history = Opened::new();
    let context = RunContext {
        scenario: &scenario,
        net: &net,
        ledger: &ledger,
    };
    match map_by_team::<Box<dyn Member>, Brand, R>(rt, alloc, history, &context, seat, jobs) {
        Ok((all, _seat)) => case.expect(rt, &Window::of_watched(alloc, all)?),
        Err(fault) => case.expect_fault(rt, fault)?,
    }
    Ok(())
}

// The same. Each box is dropped once, whatever comes of it.
fn map_once<R: Wait + Abort>(rt: &R, alloc: Global, case: &Case) -> Result<(), AllocError> {
    let mut watch = MemberWatch::new(alloc)?;
    let answer = map_first(rt, alloc, case, &mut watch);
    assert!(rt; watch.saw_each_dropped_once());
    answer
}

// The same, and once more where memory was refused.
fn map_case<R: Wait + Abort>(rt: &R, alloc: Global, case: &Case) -> Result<(), AllocError> {
    match map_once(rt, alloc, case) {
        Ok(()) => Ok(()),
        Err(_) => map_once(rt, alloc, case),
    }
}

#[test]
fn a_crew_of_a_team_maps_a_window(rt: HostRuntime) -> Result<(), AllocError> {
    for case in &CASES {
        map_case(&rt, rt.alloc(), case)?;
    }
    Ok(())
}
