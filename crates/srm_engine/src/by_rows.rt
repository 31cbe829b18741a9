//! A crew that keeps rows, as one that keeps what a watch keeps of them.
ghost use Rattle.std.specs.Prelude.{◌≡◌, ◌∷◌, [], map, All, IfOk};
ghost use Rattle.srm_cell.specs.Setting.{traffic_of};
ghost use Rattle.srm_cell.specs.Hearing.{IsSent, packets_in};
ghost use Rattle.srm_interfaces.specs.Crews.{plain_jobs};
ghost use Rattle.srm_interfaces.specs.Hearers.{GroupsMayHear, TellsHeard};
ghost use Rattle.srm_interfaces.specs.Watches.{jobs_in, KeepClosed, MayMapWatched, MapsWatched};
ghost use Rattle.srm_engine.specs.ByRows.{kept_in, LeftEach, MayLeave};

use srm_cell::cell::Cell;
use srm_cell::job::{Done, Job};
use srm_cell::sent::Sent;
use srm_interfaces::crew::Crew;
use srm_interfaces::fault::CrewFault;
use srm_interfaces::hearing::hear_groups;
use srm_interfaces::watch::Watch;
use srm_interfaces::watch_crew::WatchCrew;
use srm_interfaces::watched::{WatchedDone, WatchedJob};
use srm_ledger::ledger::{Ledger, Seat};
use srm_member::participant::Participant;
use srm_scenario::session::Session;
use std::alloc::{AllocError, Global};

/// A crew whose rows are seen by a watch once they are made, and are then let go.
pub struct ByRows<'a, C> {
    /// The crew.
    pub crew: &'a mut C,
}

// The jobs, and what is kept of the cells of each.
fn jobs_and_kept<M: Participant, K: Drop>(
    alloc: Global,
    jobs: Vec<WatchedJob<M, K>>,
) -> Result<(Vec<Job<M>>, Vec<Vec<K>>), AllocError>
    ensures jobs { IfOk result (λ r. r.0.items ≡ jobs_in jobs.items) }
    ensures kept { IfOk result (λ r. map (λ v. v.items) r.1.items ≡ kept_in jobs.items) }
{
    let mut plain = Vec::new(alloc);
    let mut all = Vec::new(alloc);
    for job in jobs {
        let WatchedJob {
            place,
            till,
            cells,
            kept,
            ..
        } = job;
        plain.push(Job { place, till, cells })?;
        all.push(kept)?;
    }
    Ok((plain, all))
}

// What is left of all that is done, where this was kept of the cells of each job.
fn leave<M: Participant, K: Drop, W: Watch<K>>(
    alloc: Global,
    session: Session,
    watch: &W,
    kept: Vec<Vec<K>>,
    all: Vec<Done<M>>,
) -> Result<Vec<WatchedDone<M, K>>, AllocError>
    requires may { MayLeave session.scenario.now (map (λ v. v.items) kept.items) all.items }
    ensures { IfOk result (λ es. LeftEach (KeepClosed (W.keeps watch.now) (W.closes watch.now)) session.entry.scenario.now
        session.entry.net.now (map (λ v. v.items) kept.items) all.items es.items) }
{
    let mut left = Vec::new(alloc);
    for (own, done) in kept.into_iter().zip(all) {
        let one = WatchedDone::of(alloc, session, watch, own, done)?;
        left.push(one)?;
    }
    Ok(left)
}

impl<'a, M: Participant, K: Drop, W: Watch<K> + Drop, C: Crew<M>> WatchCrew<M, K, W>
    for ByRows<'a, C> {
    ghost use Rattle.std.specs.Prelude.{refl};
    ghost use Rattle.std.proofs.Common.{◌∙◌};

    ghost ready = { λ c. C.ready c.crew.now };

    ghost serves = { λ _ _ _. Unit {0} };

    ghost same = { λ a b. b.crew.ghost_name ≡ a.crew.ghost_name };

    ghost handed = { λ a xs b. C.handed a.crew.now xs b.crew.now };

    ghost same_self = { λ a. refl };

    ghost same_more = { λ a b c p q. q ∙ p };

    ghost handed_none = { λ c. C.handed_none c.crew.now };

    ghost handed_more = { λ a b c xs ys p q. C.handed_more a.crew.now b.crew.now c.crew.now xs ys p q };

    fn map(
        &mut self,
        alloc: Global,
        session: Session,
        ledger: &Ledger,
        seat: Seat,
        watch: W,
        jobs: Vec<WatchedJob<M, K>>,
    ) -> Result<(Vec<WatchedDone<M, K>>, Seat), CrewFault>
        requires ready { C.ready self.old.crew.now }
        requires serves { Unit {0} }
        requires may { MayMapWatched M.plain session.net.now ledger.now seat jobs.items }
        ensures ready { C.ready self.new.crew.now }
        ensures serves { Unit {0} }
        ensures same { self.new.crew.ghost_name ≡ self.old.crew.ghost_name }
        ensures done { MapsWatched M.plain (KeepClosed (W.keeps watch) (W.closes watch)) session.entry.scenario.now
            session.entry.net.now seat jobs.items result }
        ensures handed { IfOk result (λ _.
            C.handed self.old.crew.now (plain_jobs M.plain (jobs_in jobs.items) ∷ []) self.new.crew.now) }
    {
        let Ok((jobs, kept)) = jobs_and_kept(alloc, jobs) else {
            return Err(CrewFault::NoMemory);
        };
        let (all, seat) = match self
            .crew
            .map(alloc, session.scenario, session.net, ledger, seat, jobs)
        {
            Ok(done) => done,
            Err(fault) => return Err(fault),
        };
        match leave(alloc, session, &watch, kept, all) {
            Ok(left) => Ok((left, seat)),
            Err(AllocError) => Err(CrewFault::NoMemory),
        }
    }

    fn hear(
        &mut self,
        alloc: Global,
        session: Session,
        sent: Vec<Sent>,
        groups: Vec<Vec<Cell<M>>>,
    ) -> Result<Vec<Vec<Cell<M>>>, AllocError>
        requires ready { C.ready self.old.crew.now }
        requires serves { Unit {0} }
        requires sent { All (λ x. IsSent session.scenario.now session.net.now x) sent.items }
        requires groups { GroupsMayHear M.plain (traffic_of session.scenario.now session.net.now)
            (packets_in sent.items) groups.items }
        ensures ready { C.ready self.new.crew.now }
        ensures serves { Unit {0} }
        ensures same { self.new.crew.ghost_name ≡ self.old.crew.ghost_name }
        ensures heard { TellsHeard M.plain (traffic_of session.entry.scenario.now session.entry.net.now)
            (packets_in sent.items) groups.items result }
        ensures handed { C.handed self.old.crew.now [] self.new.crew.now }
    {
        hear_groups(alloc, session, sent.as_slice(), groups)
    }
}
