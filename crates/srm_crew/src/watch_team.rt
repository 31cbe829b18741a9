//! A crew of threads that live for a whole run, and keep of rows what a watch keeps.
ghost use Rattle.std.specs.Prelude.{◌≡◌, ◌≤◌, length, All, IfOk};
ghost use Rattle.std.specs.List.{AllZip};
ghost use Rattle.srm_cell.specs.Setting.{traffic_of};
ghost use Rattle.srm_cell.specs.Hearing.{IsSent, packets_in};
ghost use Rattle.srm_interfaces.specs.Hearers.{GroupsMayHear, TellsHeard};
ghost use Rattle.srm_interfaces.specs.Watches.{AdvanceWatched, KeepClosed, MayMapWatched, MapsWatched};
ghost use Rattle.srm_crew.specs.Watched.{IsWatchOn, MayWatch};

use crate::add::settle;
use crate::piece::Piece;
use crate::pieces::{
    advanced_of, are_few_due, cells_in, even_pieces, heard_of, jobs_due, pieces_of, put_together,
    to_advance, to_hear,
};
use crate::watching::{Watching, advance_watched};
use crate::worked::Worked;
use srm_cell::cell::Cell;
use srm_cell::fault::CellFault;
use srm_cell::sent::Sent;
use srm_interfaces::fault::CrewFault;
use srm_interfaces::hearing::hear_groups;
use srm_interfaces::watch::Watch;
use srm_interfaces::watch_crew::WatchCrew;
use srm_interfaces::watched::{WatchedDone, WatchedJob};
use srm_ledger::ledger::{Ledger, Seat};
use srm_member::participant::Participant;
use srm_scenario::session::Session;
use srm_team::fault::TeamFault;
use srm_team::naming::Naming;
use srm_team::team::Team;
use srm_team::work::Work;
use std::alloc::{AllocError, Global};
use std::marker::Copy;
use std::sync::Wait;

/// Advances watched jobs on the threads of a team, which stay for the next call. It serves runs of one scenario, which it keeps
/// with its network. What a call hands to the team is in no more pieces than it has room for. As it is written, the thread that
/// calls does all the work where few events are due, or little is heard: to wake the others would take longer.
#[derive(Drop)]
pub struct WatchTeam<'a, R: Wait, M: Participant, K: Drop, W: Watch<K> + Copy, J: Naming> {
    rt: R,
    team: Team<Watching<'a, W>, Piece<M, K>, Worked<M, K>, J>,
    work: Watching<'a, W>,
    few: usize,
}

// From so many hearings on, of a packet by a cell each, the team shares them.
const ENOUGH: usize = 8_192;

// What comes of pieces that a team works on. They are no more than it has room for, so what is refused is memory, or as it is
// written the team is worn or a channel was closed.
fn work_in_team<
    R: Wait,
    A: Work<Piece<M, K>, Worked<M, K>> + Copy,
    M: Participant,
    K: Drop,
    J: Naming,
>(
    rt: &R,
    alloc: Global,
    team: &mut Team<A, Piece<M, K>, Worked<M, K>, J>,
    work: A,
    pieces: Vec<Piece<M, K>>,
) -> Result<Vec<Worked<M, K>>, AllocError>
    requires few { length pieces.items ≤ team.old.room }
    requires ready { All (λ p. A.ready work p) pieces.items }
    ensures given { IfOk result (λ all. AllZip (λ p w. A.gives work p w) pieces.items all.items) }
    ensures room { team.new.room ≡ team.old.room }
{
    match team.map(rt, alloc, work, pieces) {
        Ok(all) => Ok(all),
        Err(fault) => {
            prove!(fault != TeamFault::TooMany);
            Err(AllocError)
        }
    }
}

// Advances each job, in pieces that a team works on. In each about as many jobs have something that is due.
fn advance_in_team<'a, R: Wait, M: Participant, K: Drop, W: Watch<K> + Copy, J: Naming>(
    rt: &R,
    team: &mut Team<Watching<'a, W>, Piece<M, K>, Worked<M, K>, J>,
    work: Watching<'a, W>,
    jobs: Vec<WatchedJob<M, K>>,
) -> Result<Vec<WatchedDone<M, K>>, CellFault>
    requires { MayWatch M.plain work.session.net.now jobs.items }
    ensures advanced { AdvanceWatched M.plain (KeepClosed (W.keeps work.entry.watch) (W.closes work.entry.watch))
        work.entry.session.scenario.now work.entry.session.net.now jobs.items result }
    ensures room { team.new.room ≡ team.old.room }
{
    let alloc = work.alloc;
    let room = team.room();
    if room == 0 {
        return advance_watched(&work, jobs);
    }
    let share = jobs_due(jobs.as_slice()).div_ceil(room).max(1);
    let Ok(pieces) = pieces_of(alloc, jobs, share, room - 1) else {
        return Err(CellFault::NoMemory);
    };
    let Ok(given) = to_advance(alloc, pieces) else {
        return Err(CellFault::NoMemory);
    };
    let Ok(all) = work_in_team(rt, alloc, team, work, given) else {
        return Err(CellFault::NoMemory);
    };
    let Ok(results) = advanced_of(alloc, all) else {
        return Err(CellFault::NoMemory);
    };
    put_together(alloc, results)
}

// The groups after each of their cells heard what was sent, in pieces that a team works on.
fn hear_in_team<'a, R: Wait, M: Participant, K: Drop, W: Watch<K> + Copy, J: Naming>(
    rt: &R,
    alloc: Global,
    team: &mut Team<Watching<'a, W>, Piece<M, K>, Worked<M, K>, J>,
    work: Watching<'a, W>,
    sent: Vec<Sent>,
    groups: Vec<Vec<Cell<M>>>,
) -> Result<Vec<Vec<Cell<M>>>, AllocError>
    requires sent { All (λ x. IsSent work.session.scenario.now work.session.net.now x) sent.items }
    requires groups { GroupsMayHear M.plain (traffic_of work.session.scenario.now work.session.net.now)
        (packets_in sent.items) groups.items }
    ensures heard { TellsHeard M.plain (traffic_of work.entry.session.scenario.now work.entry.session.net.now)
        (packets_in sent.items) groups.items result }
    ensures room { team.new.room ≡ team.old.room }
{
    let room = team.room();
    if room == 0 {
        return hear_groups(alloc, work.session, sent.as_slice(), groups);
    }
    let size = groups.len() / room + 1;
    let pieces = even_pieces(alloc, groups, size)?;
    let given = to_hear(alloc, sent, pieces)?;
    let all = work_in_team(rt, alloc, team, work, given)?;
    heard_of(alloc, all)
}

impl<'a, R: Wait, M: Participant, K: Drop, W: Watch<K> + Copy, J: Naming> WatchTeam<
    'a,
    R,
    M,
    K,
    W,
    J,
> {
    /// A crew that has this team, and does this work. As it is written, the thread that calls does it where fewer than about
    /// `few` events are due, where all cells together hear fewer than 8,192 packets, or where the team has room for no item. It
    /// does not allocate.
    ///
    /// A call of it is refused with `NoMemory` also where its team is `Worn` or `Left`, and never for `TooMany`.
    pub fn new(
        rt: R,
        team: Team<Watching<'a, W>, Piece<M, K>, Worked<M, K>, J>,
        work: Watching<'a, W>,
        few: usize,
    ) -> WatchTeam<'a, R, M, K, W, J>
        ensures work { result.work ≡ work.entry }
        ensures team { result.team ≡ team.entry }
        ensures few { result.few ≡ few }
    {
        WatchTeam {
            rt,
            team,
            work,
            few,
        }
    }
}

impl<'a, R: Wait, M: Participant, K: Drop, W: Watch<K> + Copy, J: Naming> WatchCrew<M, K, W>
    for WatchTeam<'a, R, M, K, W, J> {
    ghost use Rattle.std.specs.Prelude.{refl};
    ghost use Rattle.std.proofs.Common.{◌∙◌};

    ghost ready = { λ _. Unit {0} };

    ghost serves = { λ c k net. IsWatchOn c.work k net };

    // Which calls it was handed it does not keep, and no call changes its work, the room of its team, or how many events
    // are few.
    ghost handed = { λ a _ b. (b.work ≡ a.work) × (b.team.room ≡ a.team.room) × (b.few ≡ a.few) };

    ghost same = { λ a b. (b.work ≡ a.work) × (b.team.room ≡ a.team.room) × (b.few ≡ a.few) };

    ghost same_self = { λ c. (refl, refl, refl) };

    ghost same_more = { λ a b c p q. (q.0 ∙ p.0, q.1 ∙ p.1, q.2 ∙ p.2) };

    ghost handed_none = { λ c. (refl, refl, refl) };

    ghost handed_more = { λ a b c xs ys p q. (q.0 ∙ p.0, q.1 ∙ p.1, q.2 ∙ p.2) };

    fn map(
        &mut self,
        alloc: Global,
        session: Session,
        ledger: &Ledger,
        seat: Seat,
        watch: W,
        jobs: Vec<WatchedJob<M, K>>,
    ) -> Result<(Vec<WatchedDone<M, K>>, Seat), CrewFault>
        requires ready { Unit {0} }
        requires serves { IsWatchOn self.old.work session.scenario.now session.net.now }
        requires may { MayMapWatched M.plain session.net.now ledger.now seat jobs.items }
        ensures ready { Unit {0} }
        ensures serves { IsWatchOn self.new.work session.entry.scenario.now session.entry.net.now }
        ensures done { MapsWatched M.plain (KeepClosed (W.keeps watch) (W.closes watch)) session.entry.scenario.now
            session.entry.net.now seat jobs.items result }
        ensures handed { IfOk result (λ _. (self.new.work ≡ self.old.work) × (self.new.team.room ≡ self.old.team.room)
            × (self.new.few ≡ self.old.few)) }
        ensures same { (self.new.work ≡ self.old.work) × (self.new.team.room ≡ self.old.team.room)
            × (self.new.few ≡ self.old.few) }
    {
        let work = Watching {
            alloc,
            session: self.work.session,
            watch,
        };
        let advanced = if are_few_due(jobs.as_slice(), self.few) {
            advance_watched(&work, jobs)
        } else {
            advance_in_team(&self.rt, &mut self.team, work, jobs)
        };
        settle(ledger, seat, advanced)
    }

    fn hear(
        &mut self,
        alloc: Global,
        session: Session,
        sent: Vec<Sent>,
        groups: Vec<Vec<Cell<M>>>,
    ) -> Result<Vec<Vec<Cell<M>>>, AllocError>
        requires ready { Unit {0} }
        requires serves { IsWatchOn self.old.work session.scenario.now session.net.now }
        requires sent { All (λ x. IsSent session.scenario.now session.net.now x) sent.items }
        requires groups { GroupsMayHear M.plain (traffic_of session.scenario.now session.net.now)
            (packets_in sent.items) groups.items }
        ensures ready { Unit {0} }
        ensures serves { IsWatchOn self.new.work session.entry.scenario.now session.entry.net.now }
        ensures heard { TellsHeard M.plain (traffic_of session.entry.scenario.now session.entry.net.now)
            (packets_in sent.items) groups.items result }
        ensures same { (self.new.work ≡ self.old.work) × (self.new.team.room ≡ self.old.team.room)
            × (self.new.few ≡ self.old.few) }
        ensures handed { (self.new.work ≡ self.old.work) × (self.new.team.room ≡ self.old.team.room)
            × (self.new.few ≡ self.old.few) }
    {
        if sent.len().saturating_mul(cells_in(groups.as_slice())) < ENOUGH {
            return hear_groups(alloc, session, sent.as_slice(), groups);
        }
        let work = Watching {
            alloc: self.work.alloc,
            session: self.work.session,
            watch: self.work.watch,
        };
        hear_in_team(&self.rt, alloc, &mut self.team, work, sent, groups)
    }
}
