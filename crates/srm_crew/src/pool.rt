//! A crew of the threads that `rayon` runs.
ghost use Rattle.std.specs.Prelude.{◌≡◌, length, map, All, IfOk};
ghost use Rattle.std.specs.List.{range_with_len};
ghost use denote.Param.Send.{IsSync};
ghost use Rattle.srm_cell.specs.Jobs.{MayAdvance, Advances};
ghost use Rattle.srm_interfaces.specs.Crews.{AdvanceEach, GathersEach, Maps, MayMap};

use crate::add::settle;
use rayon::current_num_threads;
use rayon::prelude::*;
use srm_cell::advance::advance;
use srm_cell::fault::CellFault;
use srm_cell::job::{Done, Job};
use srm_interfaces::crew::Crew;
use srm_interfaces::fault::CrewFault;
use srm_ledger::ledger::{Ledger, Seat};
use srm_member::member::Member;
use srm_net::net::Net;
use srm_scenario::scenario::Scenario;
use std::alloc::{AllocError, Global};
use std::marker::{Send, Sync};
use std::thread::Threads;

// Each job, handed to `work` on some thread of a pool.
fn in_pool<J: Send + Drop, D: Send + Drop, F: Fn(J) -> Result<D, CellFault> + Copy + Send + Sync>(
    rt: &(impl Threads + Sync),
    alloc: Global,
    jobs: Vec<J>,
    work: F,
) -> Result<Vec<D>, CellFault>
    requires { All (λ j. F.pre work j) jobs.items }
    ensures { GathersEach (λ j r. F.post work j r) jobs.items result }
{
    // A piece has at least a processor's share of the jobs: each costs a thread of its own, since none are kept.
    let piece = jobs.len() / current_num_threads(rt);
    let all: Result<Result<Vec<D>, CellFault>, AllocError> = jobs
        .into_par_iter()
        .with_min_len(piece.max(1))
        .map(work)
        .collect(rt, alloc);
    match all {
        Ok(done) => done,
        Err(AllocError) => Err(CellFault::NoMemory),
    }
}

/// Advances each job, on some thread of a pool.
pub(crate) fn advance_in_pool(
    rt: &(impl Threads + Sync),
    alloc: Global,
    scenario: &Scenario,
    net: &Net,
    jobs: Vec<Job>,
) -> Result<Vec<Done>, CellFault>
    requires { All (λ j. MayAdvance (λ b. (⟦<dyn Member as Member>⟧ b.vtable).plain b.value)
        (length net.now.hosts) j) jobs.items }
    ensures { AdvanceEach (λ b. (⟦<dyn Member as Member>⟧ b.vtable).plain b.value) scenario.now net.now
        jobs.items result }
{
    in_pool(
        rt,
        alloc,
        jobs,
        move |job: Job| -> Result<Done, CellFault>
            requires { MayAdvance (λ b. plain b) (length net.now.hosts) job }
            ensures { Advances (λ b. plain b) scenario.entry.now net.entry.now job result }
        { advance(alloc, scenario, net, job) },
    )
}

/// Advances jobs on the threads of a pool.
#[derive(Drop)]
pub struct PoolCrew<R> {
    rt: R,
}

impl<R: Threads + Sync> PoolCrew<R> {
    /// It does not allocate.
    pub fn new(rt: R) -> PoolCrew<R>
        ensures { IsSync R.row }
    {
        PoolCrew { rt }
    }
}

impl<R: Threads + Sync> Crew<Box<dyn Member>> for PoolCrew<R> {
    ghost use Rattle.std.specs.Prelude.{refl};
    ghost use Rattle.std.proofs.Common.{◌∙◌};

    ghost ready = { λ _. IsSync R.row };

    // It keeps no record of its calls, and one that it answers leaves it as it was.
    ghost handed = { λ a _ b. b ≡ a };

    ghost handed_none = { λ c. refl };

    ghost handed_more = { λ a b c xs ys p q. q ∙ p };

    fn map(
        &mut self,
        alloc: Global,
        scenario: &Scenario,
        net: &Net,
        ledger: &Ledger,
        seat: Seat,
        jobs: Vec<Job>,
    ) -> Result<(Vec<Done>, Seat), CrewFault>
        requires ready { IsSync R.row }
        requires may { MayMap (λ b. (⟦<dyn Member as Member>⟧ b.vtable).plain b.value) net.now ledger.now seat
            jobs.items }
        requires places { map (λ j. j.place) jobs.items ≡ range_with_len 0 (length jobs.items) }
        ensures ready { IsSync R.row }
        ensures done { Maps (λ b. (⟦<dyn Member as Member>⟧ b.vtable).plain b.value) scenario.now net.now seat
            jobs.items result }
        ensures handed { IfOk result (λ _. self.new ≡ self.old) }
    {
        let advanced = advance_in_pool(&self.rt, alloc, scenario, net, jobs);
        settle(ledger, seat, advanced)
    }
}
