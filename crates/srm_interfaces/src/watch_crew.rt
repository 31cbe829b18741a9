//! What a crew is that keeps no rows, but what a watch keeps of them.
ghost use Rattle.std.specs.Prelude.{◌∷◌, ◌++◌, [], List, All, IfOk};
ghost use Rattle.srm_net.specs.Network.{Network};
ghost use Rattle.srm_scenario.specs.Plain.{PlainScenario};
ghost use Rattle.srm_cell.specs.Setting.{traffic_of};
ghost use Rattle.srm_cell.specs.Jobs.{PlainJob};
ghost use Rattle.srm_cell.specs.Hearing.{IsSent, packets_in};
ghost use Rattle.srm_interfaces.specs.Crews.{plain_jobs};
ghost use Rattle.srm_interfaces.specs.Hearers.{GroupsMayHear, TellsHeard};
ghost use Rattle.srm_interfaces.specs.Watches.{jobs_in, MayMapWatched, MapsWatched, KeepClosed};

use crate::fault::CrewFault;
use crate::watch::Watch;
use crate::watched::{WatchedDone, WatchedJob};
use srm_cell::cell::Cell;
use srm_cell::sent::Sent;
use srm_ledger::ledger::{Ledger, Seat};
use srm_member::participant::Participant;
use srm_scenario::session::Session;
use std::alloc::{AllocError, Global};

/// Who advances jobs whose cells hold members of type `M`, and keeps of their rows what a watch keeps: a `K` of each member. What
/// is kept of a job's members is closed as the job is done.
pub trait WatchCrew<M: Participant, K, W: Watch<K>> {
    // It may be called.
    ghost ready: { Self → Type 0 };

    // It serves runs of this scenario on this network.
    ghost serves: { Self → PlainScenario → Network → Type 0 };

    // Both are of one crew.
    ghost same: { Self → Self → Type 0 };

    // Between these two values it was handed exactly these calls of `map`, each the list of its jobs.
    ghost handed: { Self → List (List PlainJob) → Self → Type 0 };

    /// For each job, in order of places, what `advance` gives, with what the watch keeps in place of the rows.
    ///
    /// # Errors
    /// As `Crew::map`.
    fn map(
        &mut self,
        alloc: Global,
        session: Session,
        ledger: &Ledger,
        seat: Seat,
        watch: W,
        jobs: Vec<WatchedJob<M, K>>,
    ) -> Result<(Vec<WatchedDone<M, K>>, Seat), CrewFault>
        requires ready { ready self.old }
        requires serves { serves self.old session.scenario.now session.net.now }
        requires may { MayMapWatched M.plain session.net.now ledger.now seat jobs.items }
        ensures ready { ready self.new }
        ensures serves { serves self.new session.entry.scenario.now session.entry.net.now }
        ensures same { same self.old self.new }
        ensures done { MapsWatched M.plain (KeepClosed (W.keeps watch) (W.closes watch)) session.entry.scenario.now
            session.entry.net.now seat jobs.items result }
        ensures handed { IfOk result (λ _. handed self.old (plain_jobs M.plain (jobs_in jobs.items) ∷ []) self.new) };

    /// The groups after each of their cells heard what was sent, one packet after the other. Groups and cells stay in their order.
    ///
    /// # Errors
    /// [`AllocError`]: the cells are gone.
    fn hear(
        &mut self,
        alloc: Global,
        session: Session,
        sent: Vec<Sent>,
        groups: Vec<Vec<Cell<M>>>,
    ) -> Result<Vec<Vec<Cell<M>>>, AllocError>
        requires ready { ready self.old }
        requires serves { serves self.old session.scenario.now session.net.now }
        requires sent { All (λ x. IsSent session.scenario.now session.net.now x) sent.items }
        requires groups { GroupsMayHear M.plain (traffic_of session.scenario.now session.net.now) (packets_in sent.items)
            groups.items }
        ensures ready { ready self.new }
        ensures serves { serves self.new session.entry.scenario.now session.entry.net.now }
        ensures same { same self.old self.new }
        ensures heard { TellsHeard M.plain (traffic_of session.entry.scenario.now session.entry.net.now) (packets_in sent.items)
            groups.items result }
        ensures handed { handed self.old [] self.new };

    ghost same_self: { (c : Self) → same c c };

    ghost same_more: { (a b c : Self) → same a b → same b c → same a c };

    ghost handed_none: { (c : Self) → handed c [] c };

    ghost handed_more: { (a b c : Self) (xs ys : List (List PlainJob)) → handed a xs b → handed b ys c
        → handed a (xs ++ ys) c };
}
