//! A crew of one.
ghost use Rattle.std.specs.Prelude.{◌≡◌, length, map, IfOk};
ghost use Rattle.std.specs.List.{range_with_len};
ghost use Rattle.srm_interfaces.specs.Crews.{MayMap, Maps};

use crate::add::settle;
use crate::each::advance_each;
use srm_cell::job::{Done, Job};
use srm_interfaces::crew::Crew;
use srm_interfaces::fault::CrewFault;
use srm_ledger::ledger::{Ledger, Seat};
use srm_member::participant::Participant;
use srm_net::net::Net;
use srm_scenario::scenario::Scenario;
use std::alloc::Global;

/// Advances one job after the other, on the thread that calls it.
#[derive(Drop)]
pub struct PlainCrew {}

impl PlainCrew {
    /// It does not allocate.
    pub fn new() -> PlainCrew {
        PlainCrew {}
    }
}

impl<M: Participant> Crew<M> for PlainCrew {
    ghost use Rattle.std.specs.Prelude.{refl};
    ghost use Rattle.std.proofs.Common.{◌∙◌};

    ghost ready = { λ _. Unit {0} };

    // It keeps no record of its calls, and one that it answers leaves it as it was.
    ghost handed = { λ a _ b. b ≡ a };

    ghost handed_none = { λ c. refl };

    ghost handed_more = { λ a b c xs ys p q. q ∙ p };

    fn map(
        &mut self,
        alloc: Global,
        scenario: &Scenario,
        net: &Net,
        ledger: &Ledger,
        seat: Seat,
        jobs: Vec<Job<M>>,
    ) -> Result<(Vec<Done<M>>, Seat), CrewFault>
        requires ready { Unit {0} }
        requires may { MayMap M.plain net.now ledger.now seat jobs.items }
        requires places { map (λ j. j.place) jobs.items ≡ range_with_len 0 (length jobs.items) }
        ensures ready { Unit {0} }
        ensures done { Maps M.plain scenario.now net.now seat jobs.items result }
        ensures handed { IfOk result (λ _. self.new ≡ self.old) }
    {
        let advanced = advance_each(alloc, scenario, net, jobs);
        settle(ledger, seat, advanced)
    }
}
