//! A crew that notes what it is handed.
ghost use Rattle.std.specs.Prelude.{◌≡◌, ◌∷◌, ◌++◌, [], length, map, IfOk};
ghost use Rattle.std.specs.List.{range_with_len};
ghost use Rattle.srm_interfaces.specs.Crews.{Maps, MayMap, plain_jobs};
ghost use Rattle.srm_engine_and_report_tests.specs.Recorded.{notes_of, noted_none, noted_more};

use srm_cell::job::{Done, Job};
use srm_crew::plain::PlainCrew;
use srm_interfaces::crew::Crew;
use srm_interfaces::fault::CrewFault;
use srm_ledger::ledger::{Ledger, Seat};
use srm_member::participant::Participant;
use srm_net::net::Net;
use srm_net::sequence::Sequence;
use srm_scenario::scenario::Scenario;
use std::alloc::{AllocError, Global};

/// What is noted of a job.
#[derive(Clone, Copy, Debug, PartialEq, Eq)]
pub struct Note {
    /// Its place.
    pub place: usize,
    /// Its end.
    pub till: u64,
    /// How many cells it has.
    pub cells: usize,
}

/// A plain crew that notes its calls, to be compared with those that were due: exactly the calls, as long as each is answered.
#[derive(Drop)]
pub struct Recording {
    inner: PlainCrew,
    calls: Vec<Sequence<Note>>,
}

impl Recording {
    ghost use Rattle.srm_engine_and_report_tests.specs.Recorded.{calls_kept};

    /// It has noted nothing yet.
    pub fn new(alloc: Global) -> Recording
        ensures { calls_kept result ≡ [] }
    {
        Recording {
            inner: PlainCrew::new(),
            calls: Vec::new(alloc),
        }
    }

    /// The calls so far.
    pub fn calls(&self) -> &[Sequence<Note>]
        ensures { result.now ≡ calls_kept self.now }
    {
        self.calls.as_slice()
    }
}

// A note of each job.
fn notes<M: Participant>(alloc: Global, jobs: &[Job<M>]) -> Result<Sequence<Note>, AllocError>
    ensures { IfOk result (λ v. v ≡ notes_of (plain_jobs M.plain jobs.now)) }
{
    let mut all = Sequence::new(alloc);
    for job in jobs {
        let note = Note {
            place: job.place,
            till: job.till,
            cells: job.cells.len(),
        };
        all.push(note)?;
    }
    Ok(all)
}

impl<M: Participant> Crew<M> for Recording {
    ghost ready = { λ _. Unit {0} };

    ghost handed = { λ a calls b. b.calls.items ≡ a.calls.items ++ map notes_of calls };

    ghost handed_none = { λ c. noted_none c.calls.items };

    ghost handed_more = { λ a b c xs ys p q. noted_more a.calls.items b.calls.items c.calls.items xs ys p q };

    fn map(
        &mut self,
        alloc: Global,
        scenario: &Scenario,
        net: &Net,
        ledger: &Ledger,
        seat: Seat,
        jobs: Vec<Job<M>>,
    ) -> Result<(Vec<Done<M>>, Seat), CrewFault>
        requires ready { Unit {0} }
        requires may { MayMap M.plain net.now ledger.now seat jobs.items }
        requires places { map (λ j. j.place) jobs.items ≡ range_with_len 0 (length jobs.items) }
        ensures ready { Unit {0} }
        ensures done { Maps M.plain scenario.now net.now seat jobs.items result }
        ensures handed { IfOk result (λ _. self.new.calls.items
            ≡ self.old.calls.items ++ map notes_of (plain_jobs M.plain jobs.items ∷ [])) }
    {
        let Ok(call) = notes(alloc, jobs.as_slice()) else {
            return Err(CrewFault::NoMemory);
        };
        if self.calls.push(call).is_err() {
            return Err(CrewFault::NoMemory);
        }
        self.inner.map(alloc, scenario, net, ledger, seat, jobs)
    }
}
