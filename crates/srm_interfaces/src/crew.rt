//! What a crew is.
ghost use Rattle.std.specs.Prelude.{◌≡◌, ◌∷◌, ◌++◌, [], List, length, map, IfOk};
ghost use Rattle.std.specs.List.{range_with_len};
ghost use Rattle.srm_cell.specs.Jobs.{PlainJob};
ghost use Rattle.srm_interfaces.specs.Crews.{Maps, MayMap, plain_jobs};

use crate::fault::CrewFault;
use srm_cell::job::{Done, Job};
use srm_ledger::ledger::{Ledger, Seat};
use srm_member::participant::Participant;
use srm_net::net::Net;
use srm_scenario::scenario::Scenario;
use std::alloc::Global;

/// Who advances jobs whose cells hold members of type `M`.
pub trait Crew<M: Participant> {
    // It may be called.
    ghost ready: { Self → Type 0 };

    // Between these two values it was handed exactly these calls of `map`, each the list of its jobs.
    ghost handed: { Self → List (List PlainJob) → Self → Type 0 };

    /// For each job, in order of places, what `advance` gives. The seat's shares grow by the crossings of all their rows, and
    /// nothing else of it changes: it comes back as one by which nothing was read.
    ///
    /// # Errors
    /// [`CrewFault::Spent`] only where a job meets an event of a member that is gone; [`CrewFault::CountFull`] only
    /// where one meets a packet count that is used up; [`CrewFault::ShareFull`] only where the seat's share of a word,
    /// with the crossings of some of the rows, is above [`SHARE_MOST`](srm_ledger::seat::SHARE_MOST); and
    /// [`CrewFault::NoMemory`]. Which of several comes is open. After each the jobs and the seat are gone.
    fn map(
        &mut self,
        alloc: Global,
        scenario: &Scenario,
        net: &Net,
        ledger: &Ledger,
        seat: Seat,
        jobs: Vec<Job<M>>,
    ) -> Result<(Vec<Done<M>>, Seat), CrewFault>
        requires ready { ready self.old }
        requires may { MayMap M.plain net.now ledger.now seat jobs.items }
        requires places { map (λ j. j.place) jobs.items ≡ range_with_len 0 (length jobs.items) }
        ensures ready { ready self.new }
        ensures done { Maps M.plain scenario.now net.now seat jobs.items result }
        ensures handed { IfOk result (λ _. handed self.old (plain_jobs M.plain jobs.items ∷ []) self.new) };

    ghost handed_none: { (c : Self) → handed c [] c };

    ghost handed_more: { (a b c : Self) (xs ys : List (List PlainJob)) → handed a xs b → handed b ys c
        → handed a (xs ++ ys) c };
}
