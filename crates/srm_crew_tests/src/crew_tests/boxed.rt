//! Crews of boxes, whichever they are: no bound names a box, so one that is to stand in a bound has a trait that names none.
ghost use Rattle.std.specs.Prelude.{◌≡◌, length, map};
ghost use Rattle.std.specs.List.{range_with_len};
ghost use denote.Param.Send.{IsSync};
ghost use Rattle.srm_interfaces.specs.Crews.{MayMap, Maps};

use srm_cell::job::{Done, Job};
use srm_crew::bag_crew::BagCrew;
use srm_crew::gate::OpenGate;
use srm_crew::plain::PlainCrew;
use srm_crew::pool::PoolCrew;
use srm_interfaces::crew::Crew;
use srm_interfaces::fault::CrewFault;
use srm_ledger::ledger::{Ledger, Seat};
use srm_member::member::Member;
use srm_net::net::Net;
use srm_scenario::scenario::Scenario;
use std::alloc::Global;
use std::marker::Sync;
use std::sync::Wait;
use std::thread::Threads;

/// A crew of boxes.
pub(crate) trait BoxCrew {
    // It may be called.
    ghost ready: { Self → Type 0 };

    /// As [`Crew::map`].
    fn map_boxes(
        &mut self,
        alloc: Global,
        scenario: &Scenario,
        net: &Net,
        ledger: &Ledger,
        seat: Seat,
        jobs: Vec<Job>,
    ) -> Result<(Vec<Done>, Seat), CrewFault>
        requires ready { ready self.old }
        requires may { MayMap (λ b. (⟦<dyn Member as Member>⟧ b.vtable).plain b.value) net.now ledger.now seat
            jobs.items }
        requires places { map (λ j. j.place) jobs.items ≡ range_with_len 0 (length jobs.items) }
        ensures ready { ready self.new }
        ensures done { Maps (λ b. (⟦<dyn Member as Member>⟧ b.vtable).plain b.value) scenario.now net.now seat
            jobs.items result };
}

impl BoxCrew for PlainCrew {
    ghost ready = { λ _. Unit {0} };

    fn map_boxes(
        &mut self,
        alloc: Global,
        scenario: &Scenario,
        net: &Net,
        ledger: &Ledger,
        seat: Seat,
        jobs: Vec<Job>,
    ) -> Result<(Vec<Done>, Seat), CrewFault> {
        self.map(alloc, scenario, net, ledger, seat, jobs)
    }
}

impl<R: Threads + Sync> BoxCrew for PoolCrew<R> {
    ghost ready = { λ _. IsSync R.row };

    fn map_boxes(
        &mut self,
        alloc: Global,
        scenario: &Scenario,
        net: &Net,
        ledger: &Ledger,
        seat: Seat,
        jobs: Vec<Job>,
    ) -> Result<(Vec<Done>, Seat), CrewFault> {
        self.map(alloc, scenario, net, ledger, seat, jobs)
    }
}

impl<R: Threads + Wait + Sync> BoxCrew for BagCrew<R, OpenGate> {
    ghost ready = { λ _. IsSync R.row };

    fn map_boxes(
        &mut self,
        alloc: Global,
        scenario: &Scenario,
        net: &Net,
        ledger: &Ledger,
        seat: Seat,
        jobs: Vec<Job>,
    ) -> Result<(Vec<Done>, Seat), CrewFault> {
        self.map(alloc, scenario, net, ledger, seat, jobs)
    }
}
