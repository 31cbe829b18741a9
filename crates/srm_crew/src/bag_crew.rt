//! A crew of threads of its own, which take jobs from a bag.
ghost use Rattle.std.specs.Prelude.{◌≡◌, ◌≤◌, ◌*◌, length, map, All, Ok, IfOk};
ghost use Rattle.std.specs.List.{range_with_len};
ghost use Rattle.srm_net.specs.Limits.{most_nodes};
ghost use denote.Param.Send.{IsSync};
ghost use Rattle.srm_cell.specs.Jobs.{MayAdvance, Advances};
ghost use Rattle.srm_interfaces.specs.Crews.{MayMap, Maps};
ghost use Rattle.srm_crew.specs.Shared.{TellsAll};

use crate::bag::Bag;
use crate::counted::Counted;
use crate::gate::{Gate, OpenGate};
use crate::order::in_order;
use crate::shared::{put_all, share_all};
use crate::workplace::Workplace;
use srm_cell::advance::advance;
use srm_cell::fault::CellFault;
use srm_cell::job::{Done, Job};
use srm_interfaces::crew::Crew;
use srm_interfaces::fault::CrewFault;
use srm_ledger::ledger::{Ledger, Seat};
use srm_member::member::Member;
use srm_net::net::Net;
use srm_scenario::scenario::Scenario;
use std::alloc::{AllocError, Global};
use std::marker::{Send, Sync};
use std::sync::Wait;
use std::thread::Threads;

/// Advances jobs on scoped threads, each of which takes the oldest job left from a bag, passes the gate with it, advances it,
/// and adds its crossings with a seat of its own.
#[derive(Drop)]
pub struct BagCrew<R, G> {
    rt: R,
    gate: G,
    workers: u8,
}

impl<R: Threads + Wait + Sync, G: Gate + Sync> BagCrew<R, G> {
    /// A crew of 1 to 64 workers. It does not allocate.
    pub fn new(rt: R, gate: G, workers: u8) -> BagCrew<R, G>
        requires { (1 ≤ workers) × (workers ≤ 64) }
        ensures shared { IsSync R.row }
        ensures gate { result.gate ≡ gate }
        ensures workers { result.workers ≡ workers }
    {
        BagCrew { rt, gate, workers }
    }

    /// As [`Crew::map`], whatever the gate is: a crew with a gate of its own calls it.
    ///
    /// # Errors
    /// `Spent`, `CountFull`, `ShareFull` and `NoMemory`, as of [`Crew::map`].
    pub fn map_with_gate(
        &self,
        alloc: Global,
        scenario: &Scenario,
        net: &Net,
        ledger: &Ledger,
        seat: Seat,
        jobs: Vec<Job>,
    ) -> Result<(Vec<Done>, Seat), CrewFault>
        requires { MayMap (λ b. (⟦<dyn Member as Member>⟧ b.vtable).plain b.value) net.now ledger.now seat
            jobs.items }
        ensures { Maps (λ b. (⟦<dyn Member as Member>⟧ b.vtable).plain b.value) scenario.now net.now seat
            jobs.items result }
    {
        self.by_workers(
            alloc,
            ledger,
            move |job: Job| -> Result<Done, CellFault>
                requires { MayAdvance (λ b. plain b) (length net.now.hosts) job }
                ensures { Advances (λ b. plain b) scenario.entry.now net.entry.now job result }
            { advance(alloc, scenario, net, job) },
            seat,
            jobs,
        )
    }

    // Works on each item, by the workers, and adds the numbers of what comes of each.
    fn by_workers<
        T: Send + Drop,
        D: Counted + Send + Drop,
        F: Fn(T) -> Result<D, CellFault> + Copy + Send + Sync,
    >(
        &self,
        alloc: Global,
        ledger: &Ledger,
        work: F,
        seat: Seat,
        items: Vec<T>,
    ) -> Result<(Vec<D>, Seat), CrewFault>
        requires many { length items.items ≤ most_nodes }
        requires seat { seat.ledger ≡ ledger.now.name }
        requires ready { All (λ x. F.pre work x) items.items }
        requires long { (x : T) (d : D) → F.pre work x → F.post work x (Ok d)
            → length (D.numbers d) ≡ 5 * ledger.now.links }
        ensures { TellsAll (λ x r. F.post work x r) D.numbers items.items seat result }
    {
        if items.is_empty() {
            return Ok((Vec::new(alloc), seat));
        }
        let Ok((bag, pass)) = Bag::open(alloc, items.len()) else {
            return Err(CrewFault::NoMemory);
        };
        let pass = put_all(&self.rt, &bag, pass, items);
        let workplace = Workplace {
            bag: &bag,
            gate: &self.gate,
            ledger,
        };
        let shared = share_all(&self.rt, alloc, self.workers, workplace, work, pass, seat);
        let (pass, seat, results) = match shared {
            Ok(shared) => shared,
            Err(fault) => return Err(fault),
        };
        let taken = bag.empty(pass).unwrap();
        match in_order(alloc, taken.indices.as_slice(), results) {
            Ok(all) => Ok((all, seat)),
            Err(AllocError) => Err(CrewFault::NoMemory),
        }
    }
}

impl<R: Threads + Wait + Sync> Crew<Box<dyn Member>> for BagCrew<R, OpenGate> {
    ghost use Rattle.std.specs.Prelude.{refl};
    ghost use Rattle.std.proofs.Common.{◌∙◌};

    ghost ready = { λ _. IsSync R.row };

    // It keeps no record of its calls, and one that it answers leaves it as it was.
    ghost handed = { λ a _ b. b ≡ a };

    ghost handed_none = { λ c. refl };

    ghost handed_more = { λ a b c xs ys p q. q ∙ p };

    fn map(
        &mut self,
        alloc: Global,
        scenario: &Scenario,
        net: &Net,
        ledger: &Ledger,
        seat: Seat,
        jobs: Vec<Job>,
    ) -> Result<(Vec<Done>, Seat), CrewFault>
        requires ready { IsSync R.row }
        requires may { MayMap (λ b. (⟦<dyn Member as Member>⟧ b.vtable).plain b.value) net.now ledger.now seat
            jobs.items }
        requires places { map (λ j. j.place) jobs.items ≡ range_with_len 0 (length jobs.items) }
        ensures ready { IsSync R.row }
        ensures done { Maps (λ b. (⟦<dyn Member as Member>⟧ b.vtable).plain b.value) scenario.now net.now seat
            jobs.items result }
        ensures handed { IfOk result (λ _. self.new ≡ self.old) }
    {
        self.map_with_gate(alloc, scenario, net, ledger, seat, jobs)
    }
}
