//! Jobs that wait for each other at the gate.
ghost use Rattle.std.specs.Prelude.{◌≡◌, ◌≤◌, length, IfOk};
ghost use denote.Param.Send.{IsSync};
ghost use Rattle.srm_crew_tests.specs.Handed.{AreInPlace};

use crate::crew_tests::handing::{idle_jobs, opened};
use crate::crew_tests::run_context::RunContext;
use crate::crew_tests::seats::ledger_of;
use srm_cell::job::{Done, Job};
use srm_crew::bag_crew::BagCrew;
use srm_crew::gate::Gate;
use srm_crew::pass::Pass;
use srm_examples::meeting::Meeting;
use srm_examples::scenarios::TWO_NODES;
use srm_interfaces::fault::CrewFault;
use srm_ledger::seat::Seat;
use srm_member::member::Member;
use std::alloc::{AllocError, Global};
use std::marker::Sync;
use std::process::Abort;
use std::sync::{Arc, Wait};
use std::thread::Threads;

// Hands jobs to a crew with a gate of its own.
fn map_jobs<R: Threads + Wait + Sync, G: Gate + Sync>(
    rt: &impl Abort,
    alloc: Global,
    crew: &BagCrew<R, G>,
    context: &RunContext,
    seat: Seat,
    jobs: Vec<Job>,
) -> Result<(Vec<Done>, Seat), AllocError>
    requires ready { IsSync R.row }
    requires links { context.now.ledger.now.links ≡ length context.now.net.now.links }
    requires seat { seat.ledger ≡ context.now.ledger.now.name }
    requires jobs { AreInPlace (λ b. (⟦<dyn Member as Member>⟧ b.vtable).plain b.value)
        (length context.now.net.now.hosts) jobs.items }
    ensures { IfOk result (λ r. r.1.ledger ≡ context.now.ledger.now.name) }
{
    match crew.map_with_gate(
        alloc,
        context.scenario,
        context.net,
        context.ledger,
        seat,
        jobs,
    ) {
        Ok(mapped) => Ok(mapped),
        Err(fault) => {
            assert_eq!(rt; fault, CrewFault::NoMemory);
            Err(AllocError)
        }
    }
}

/// A gate at which the jobs of two places wait for each other.
#[derive(Drop)]
struct MeetingGate {
    meeting: Arc<Meeting>,
}

impl Gate for MeetingGate {
    fn enter<T, R: Wait>(&self, _rt: &R, place: usize, _pass: &Pass<T>) {
        self.meeting.come(place);
    }
}

// Hands so many jobs to a crew with that gate.
fn meet<R: Threads + Wait + Sync>(
    rt: &impl Abort,
    alloc: Global,
    crew: &BagCrew<R, MeetingGate>,
    context: &RunContext,
    seat: Seat,
    count: usize,
) -> Result<Seat, AllocError>
    requires ready { IsSync R.row }
    requires links { context.now.ledger.now.links ≡ length context.now.net.now.links }
    requires seat { seat.ledger ≡ context.now.ledger.now.name }
    ensures { IfOk result (λ s. s.ledger ≡ context.now.ledger.now.name) }
{
    let jobs = idle_jobs(rt, alloc, context.net, count)?;
    let (done, seat) = map_jobs(rt, alloc, crew, context, seat, jobs)?;
    assert_eq!(rt; done.len(), count);
    Ok(seat)
}

// How often jobs are handed to a crew.
const TIMES: u64 = 100;

// Hands so many jobs to it again and again.
fn meet_again<R: Threads + Wait + Sync>(
    rt: &impl Abort,
    alloc: Global,
    crew: &BagCrew<R, MeetingGate>,
    context: &RunContext,
    seat: Seat,
    count: usize,
) -> Result<(), AllocError>
    requires ready { IsSync R.row }
    requires links { context.now.ledger.now.links ≡ length context.now.net.now.links }
    requires seat { seat.ledger ≡ context.now.ledger.now.name }
{
    let mut back = seat;
    for _ in 0..TIMES {
        back = meet(rt, alloc, crew, context, back, count)?;
    }
    Ok(())
}

// The same, with a ledger of its own.
fn meet_on_two_nodes<R: Threads + Wait + Sync>(
    rt: &impl Abort,
    alloc: Global,
    crew: &BagCrew<R, MeetingGate>,
    count: usize,
) -> Result<(), AllocError>
    requires { IsSync R.row }
{
    let (scenario, net) = opened(rt, alloc, TWO_NODES)?;
    let (ledger, seat) = ledger_of(rt, alloc, &net)?;
    let context = RunContext {
        scenario: &scenario,
        net: &net,
        ledger: &ledger,
    };
    meet_again(rt, alloc, crew, &context, seat, count)
}

// So many jobs, with so many workers, again and again. Each time the jobs of this place and of the next one are under way at
// once.
fn meet_often<R: Abort + Threads + Wait + Sync>(
    rt: &R,
    alloc: Global,
    workers: u8,
    count: usize,
    place: usize,
) -> Result<(), AllocError>
    requires { (2 ≤ workers) × (workers ≤ 64) }
{
    let meeting = Meeting::new(alloc, place)?;
    let gate = MeetingGate {
        meeting: Arc::try_clone(&meeting)?,
    };
    meet_on_two_nodes(rt, alloc, &BagCrew::new(rt, gate, workers), count)?;
    let entries = meeting.entries();
    let counts = [entries.missed, entries.first, entries.second];
    assert_eq!(rt; counts, [0, TIMES, TIMES]);
    Ok(())
}

#[test]
fn two_workers_meet_at_the_gate(rt: HostRuntime) -> Result<(), AllocError> {
    meet_often(&rt, rt.alloc(), 2, 2, 0)?;
    meet_often(&rt, rt.alloc(), 64, 2, 0)?;
    // Each worker has to take a job more than its first.
    meet_often(&rt, rt.alloc(), 2, 4, 2)
}
