//! Jobs, advanced one after the other.
ghost use Rattle.std.specs.Prelude.{length, All};
ghost use Rattle.srm_cell.specs.Jobs.{MayAdvance};
ghost use Rattle.srm_interfaces.specs.Crews.{AdvanceEach};

use srm_cell::advance::advance;
use srm_cell::fault::CellFault;
use srm_cell::job::{Done, Job};
use srm_member::participant::Participant;
use srm_net::net::Net;
use srm_scenario::scenario::Scenario;
use std::alloc::Global;

/// Advances each job, one after the other.
pub(crate) fn advance_each<M: Participant>(
    alloc: Global,
    scenario: &Scenario,
    net: &Net,
    jobs: Vec<Job<M>>,
) -> Result<Vec<Done<M>>, CellFault>
    requires { All (λ j. MayAdvance M.plain (length net.now.hosts) j) jobs.items }
    ensures { AdvanceEach M.plain scenario.now net.now jobs.items result }
{
    let mut all = Vec::new(alloc);
    for job in jobs {
        let done = match advance(alloc, scenario, net, job) {
            Ok(done) => done,
            Err(fault) => return Err(fault),
        };
        if all.push(done).is_err() {
            return Err(CellFault::NoMemory);
        }
    }
    Ok(all)
}
