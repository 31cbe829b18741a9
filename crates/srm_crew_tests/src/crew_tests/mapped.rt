//! What each crew gives for a window.
ghost use Rattle.std.specs.Prelude.{◌≡◌, ◌<◌, length, IfOk};
ghost use Rattle.srm_scenario.specs.Plain.{network_of};
ghost use Rattle.srm_crew_tests.specs.Handed.{AreInPlace};

use crate::crew_tests::boxed::BoxCrew;
use crate::crew_tests::case::Case;
use crate::crew_tests::cases::CASES;
use crate::crew_tests::handing::{add_job, cells_of_member, map_jobs, opened};
use crate::crew_tests::run_context::RunContext;
use crate::crew_tests::seats::{counted, ledger_of};
use crate::crew_tests::seen::Window;
use srm_cell::job::Job;
use srm_crew::bag_crew::BagCrew;
use srm_crew::gate::OpenGate;
use srm_crew::plain::PlainCrew;
use srm_crew::pool::PoolCrew;
use srm_examples::watched::{MemberWatch, Watched};
use srm_ledger::ledger::{Ledger, Seat};
use srm_member::fault::MemberFault;
use srm_member::member::Member;
use srm_net::net::Net;
use srm_net::role::Role;
use srm_roles::listener::Listener;
use srm_roles::receiver::Receiver;
use srm_roles::sender::Sender;
use srm_scenario::scenario::Scenario;
use std::alloc::{AllocError, Global};
use std::process::Abort;

// No run ends later, in ticks, and no member sends more packets.
const LAST_END: u64 = 1_099_511_627_776;

const MOST_PACKETS: u64 = 281_474_976_710_656;

// A member that is watched from now on.
fn watched<M: Member>(
    alloc: Global,
    watch: &mut MemberWatch,
    member: Result<M, MemberFault>,
) -> Result<Watched<M>, AllocError> {
    match member {
        Ok(member) => watch.over(alloc, member),
        Err(_) => Err(AllocError),
    }
}

// Member m of a scenario, watched.
fn member_of(
    rt: &impl Abort,
    alloc: Global,
    scenario: &Scenario,
    net: &Net,
    m: u16,
    watch: &mut MemberWatch,
) -> Result<Box<dyn Member>, AllocError>
    requires member { m < length scenario.now.members }
    requires network { net.now ≡ network_of scenario.now }
{
    let member: Box<dyn Member> = match scenario.role(m) {
        Role::Sender => {
            let sender = Sender::new(alloc, scenario, net, 0, m);
            Box::new(alloc, watched(alloc, watch, sender)?)?
        }
        Role::Receiver => {
            let receiver = Receiver::new(alloc, scenario, net, 0, m);
            Box::new(alloc, watched(alloc, watch, receiver)?)?
        }
        Role::Listener => {
            let listener = Listener::new(alloc, scenario, net, 0, m);
            Box::new(alloc, watched(alloc, watch, listener)?)?
        }
        Role::Late => panic!(rt; "a late joiner"),
    };
    Ok(member)
}

// Member m as it is at a case's beginning.
fn first_member(
    rt: &impl Abort,
    alloc: Global,
    scenario: &Scenario,
    net: &Net,
    m: u16,
    case: &Case,
    watch: &mut MemberWatch,
) -> Result<Box<dyn Member>, AllocError>
    requires member { m < length scenario.now.members }
    requires network { net.now ≡ network_of scenario.now }
{
    let mut member = member_of(rt, alloc, scenario, net, m, watch)?;
    if case.is_over && member.finish(alloc).is_err() {
        return Err(AllocError);
    }
    Ok(member)
}

/// The jobs of a case: the cell of each member, alone.
pub(crate) fn first_jobs(
    rt: &impl Abort,
    alloc: Global,
    scenario: &Scenario,
    net: &Net,
    case: &Case,
    watch: &mut MemberWatch,
) -> Result<Vec<Job>, AllocError>
    requires { net.now ≡ network_of scenario.now }
    ensures { IfOk result (λ jobs. AreInPlace (λ b. (⟦<dyn Member as Member>⟧ b.vtable).plain b.value)
        (length net.now.hosts) jobs.items) }
{
    assert!(rt; case.till <= LAST_END);
    assert!(rt; case.sent <= MOST_PACKETS);
    let mut jobs = Vec::new(alloc);
    for m in 0..scenario.members() {
        let member = first_member(rt, alloc, scenario, net, m, case, watch)?;
        let cells = cells_of_member(rt, alloc, scenario, net, member, m, case.sent)?;
        add_job(rt, net, &mut jobs, case.till, cells)?;
    }
    Ok(jobs)
}

// Asserts that the seat can close its ledger, and that the case's totals were counted.
fn expect_end(rt: &impl Abort, ledger: Ledger, seat: Seat, case: &Case)
    requires { seat.ledger ≡ ledger.name }
{
    match ledger.close(seat) {
        Ok(totals) => case.expect_totals(rt, &totals),
        Err(_) => panic!(rt; "not closed"),
    }
}

// Hands a case's jobs to a crew, and asserts that what the case says comes of them.
fn map_members<C: BoxCrew>(
    rt: &impl Abort,
    alloc: Global,
    crew: &mut C,
    scenario: &Scenario,
    net: &Net,
    case: &Case,
    watch: &mut MemberWatch,
) -> Result<(), AllocError>
    requires ready { C.ready crew.old }
    requires network { net.now ≡ network_of scenario.now }
    ensures { C.ready crew.new }
{
    let jobs = first_jobs(rt, alloc, scenario, net, case, watch)?;
    let (ledger, seat) = ledger_of(rt, alloc, net)?;
    let seat = counted(rt, &ledger, seat, case.counted);
    let context = RunContext {
        scenario,
        net,
        ledger: &ledger,
    };
    match map_jobs(alloc, crew, &context, seat, jobs) {
        Ok((all, seat)) => {
            case.expect(rt, &Window::of(alloc, all.as_slice())?);
            expect_end(rt, ledger, seat, case);
        }
        Err(fault) => case.expect_fault(rt, fault)?,
    }
    Ok(())
}

// The same, of the case's scenario. Each box is dropped once, whatever comes of it.
fn map_once<C: BoxCrew>(
    rt: &impl Abort,
    alloc: Global,
    crew: &mut C,
    case: &Case,
) -> Result<(), AllocError>
    requires { C.ready crew.old }
    ensures { C.ready crew.new }
{
    let (scenario, net) = opened(rt, alloc, case.scenario)?;
    let mut watch = MemberWatch::new(alloc)?;
    let answer = map_members(rt, alloc, crew, &scenario, &net, case, &mut watch);
    assert!(rt; watch.saw_each_dropped_once());
    answer
}

// The same, and once more where memory was refused.
fn map_case<C: BoxCrew>(
    rt: &impl Abort,
    alloc: Global,
    crew: &mut C,
    case: &Case,
) -> Result<(), AllocError>
    requires { C.ready crew.old }
    ensures { C.ready crew.new }
{
    match map_once(rt, alloc, crew, case) {
        Ok(()) => Ok(()),
        Err(_) => map_once(rt, alloc, crew, case),
    }
}

// The same, of each case.
fn map_cases<C: BoxCrew>(rt: &impl Abort, alloc: Global, crew: &mut C) -> Result<(), AllocError>
    requires { C.ready crew.old }
{
    for case in &CASES {
        map_case(rt, alloc, crew, case)?;
    }
    Ok(())
}

#[test]
fn a_plain_crew_maps_a_window(rt: HostRuntime) -> Result<(), AllocError> {
    map_cases(&rt, rt.alloc(), &mut PlainCrew::new())
}

#[test]
fn a_crew_of_pool_threads_maps_a_window(rt: HostRuntime) -> Result<(), AllocError> {
    map_cases(&rt, rt.alloc(), &mut PoolCrew::new(&rt))
}

#[test]
fn a_crew_of_workers_maps_a_window(rt: HostRuntime) -> Result<(), AllocError> {
    map_cases(&rt, rt.alloc(), &mut BagCrew::new(&rt, OpenGate, 3))
}
