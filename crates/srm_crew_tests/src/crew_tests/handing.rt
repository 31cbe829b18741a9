//! Jobs of single cells, as crews are handed them.
ghost use Rattle.std.specs.Prelude.{◌≡◌, ◌≤◌, ◌<◌, length, map, IfOk};
ghost use Rattle.srm_net.specs.Limits.{end_of_time, most_sent};
ghost use Rattle.srm_net.specs.Orders.{Rises};
ghost use Rattle.srm_scenario.specs.Plain.{mark_cmp, network_of};
ghost use Rattle.srm_member.specs.Record.{fixed_part};
ghost use Rattle.srm_crew_tests.specs.Handed.{AreInPlace, AreKnown};

use crate::crew_tests::boxed::BoxCrew;
use crate::crew_tests::run_context::RunContext;
use srm_cell::cell::Cell;
use srm_cell::job::{Done, Job};
use srm_interfaces::fault::CrewFault;
use srm_ledger::ledger::Seat;
use srm_member::member::Member;
use srm_net::net::Net;
use srm_scenario::fault::ScenarioFault;
use srm_scenario::feed::ReadFeed;
use srm_scenario::mark::Mark;
use srm_scenario::reading::read_scenario;
use srm_scenario::scenario::Scenario;
use std::alloc::{AllocError, Global};
use std::process::Abort;

// A scenario that is accepted.
fn accepted(rt: &impl Abort, alloc: Global, text: &str) -> Result<Scenario, AllocError> {
    let mut feed = ReadFeed::new(text.as_bytes());
    match read_scenario(alloc, &mut feed) {
        Ok(scenario) => Ok(scenario),
        Err(fault) => {
            assert_eq!(rt; fault, ScenarioFault::NoMemory);
            Err(AllocError)
        }
    }
}

/// A scenario that is accepted, and its network.
pub(crate) fn opened(
    rt: &impl Abort,
    alloc: Global,
    text: &str,
) -> Result<(Scenario, Net), AllocError>
    ensures { IfOk result (λ r. r.1 ≡ network_of r.0) }
{
    let scenario = accepted(rt, alloc, text)?;
    match scenario.net(alloc) {
        Ok(net) => Ok((scenario, net)),
        Err(_) => Err(AllocError),
    }
}

// As many jobs as a crew is handed at most.
const MOST_JOBS: usize = 1024;

// The number of the member in a box.
fn number_of(member: &Box<dyn Member>) -> u16
    ensures { result ≡ (fixed_part ((⟦<dyn Member as Member>⟧ member.now.vtable).plain member.now.value)).member }
{
    member.number()
}

// The cell of a member, alone.
fn cell_of(
    rt: &impl Abort,
    alloc: Global,
    net: &Net,
    member: Box<dyn Member>,
    script: Vec<Mark>,
    sent: u64,
) -> Result<Vec<Cell>, AllocError>
    requires sent { sent ≤ most_sent }
    requires script { Rises mark_cmp script.items }
    ensures { IfOk result (λ cells. AreKnown (λ b. (⟦<dyn Member as Member>⟧ b.vtable).plain b.value)
        (length net.now.hosts) cells.items) }
{
    let number = number_of(&member);
    let members = net.members();
    if number >= members {
        assert!(rt; false, "no member {number}");
        return Err(AllocError);
    }
    let mut cells = Vec::new(alloc);
    cells.push(Cell::new(alloc, member, script, sent))?;
    Ok(cells)
}

/// Adds a job of these cells, of which there may be none.
pub(crate) fn add_job(
    rt: &impl Abort,
    net: &Net,
    jobs: &mut Vec<Job>,
    till: u64,
    cells: Vec<Cell>,
) -> Result<(), AllocError>
    requires jobs { AreInPlace (λ b. (⟦<dyn Member as Member>⟧ b.vtable).plain b.value)
        (length net.now.hosts) jobs.old.items }
    requires till { till ≤ end_of_time }
    requires known { AreKnown (λ b. (⟦<dyn Member as Member>⟧ b.vtable).plain b.value)
        (length net.now.hosts) cells.items }
    ensures { IfOk result (λ _. AreInPlace (λ b. (⟦<dyn Member as Member>⟧ b.vtable).plain b.value)
        (length net.now.hosts) jobs.new.items) }
{
    let place = jobs.len();
    if place >= MOST_JOBS {
        assert!(rt; false, "too many jobs");
        return Err(AllocError);
    }
    jobs.push(Job { place, till, cells })?;
    Ok(())
}

/// The cells of a job of member m alone: its own, with its script.
pub(crate) fn cells_of_member(
    rt: &impl Abort,
    alloc: Global,
    scenario: &Scenario,
    net: &Net,
    member: Box<dyn Member>,
    m: u16,
    sent: u64,
) -> Result<Vec<Cell>, AllocError>
    requires member { m < length scenario.now.members }
    requires sent { sent ≤ most_sent }
    ensures { IfOk result (λ cells. AreKnown (λ b. (⟦<dyn Member as Member>⟧ b.vtable).plain b.value)
        (length net.now.hosts) cells.items) }
{
    let Ok(script) = scenario.script(alloc, m) else {
        return Err(AllocError);
    };
    cell_of(rt, alloc, net, member, script, sent)
}

/// Jobs that have no cells.
pub(crate) fn idle_jobs(
    rt: &impl Abort,
    alloc: Global,
    net: &Net,
    count: usize,
) -> Result<Vec<Job>, AllocError>
    ensures { IfOk result (λ jobs. AreInPlace (λ b. (⟦<dyn Member as Member>⟧ b.vtable).plain b.value)
        (length net.now.hosts) jobs.items) }
{
    let mut jobs = Vec::new(alloc);
    for _ in 0..count {
        add_job(rt, net, &mut jobs, 0, Vec::new(alloc))?;
    }
    Ok(jobs)
}

/// Hands jobs to a crew. Gives what was done of them, and the seat.
pub(crate) fn map_jobs<C: BoxCrew>(
    alloc: Global,
    crew: &mut C,
    context: &RunContext,
    seat: Seat,
    jobs: Vec<Job>,
) -> Result<(Vec<Done>, Seat), CrewFault>
    requires ready { C.ready crew.old }
    requires jobs { AreInPlace (λ b. (⟦<dyn Member as Member>⟧ b.vtable).plain b.value)
        (length context.now.net.now.hosts) jobs.items }
    requires links { context.now.ledger.now.links ≡ length context.now.net.now.links }
    requires seat { seat.ledger ≡ context.now.ledger.now.name }
    ensures ready { C.ready crew.new }
    ensures seat { IfOk result (λ r. r.1.ledger ≡ context.now.ledger.now.name) }
{
    match crew.map_boxes(
        alloc,
        context.scenario,
        context.net,
        context.ledger,
        seat,
        jobs,
    ) {
        Ok(mapped) => Ok(mapped),
        Err(fault) => Err(fault),
    }
}
