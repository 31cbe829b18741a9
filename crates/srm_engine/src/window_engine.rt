//! The engine in windows.
ghost use Rattle.std.specs.Prelude.{◌≡◌, ◌<◌, ◌-◌, ◌*◌, ℕ, IfOk, length};
ghost use Rattle.srm_engine.specs.Starts.{BeginsWith};
ghost use Rattle.srm_engine.specs.Ends.{MayCut};
ghost use Rattle.srm_engine.specs.WindowEngines.{IsUnderWay, frame_of, OpensAt, BeginsNext, EndsNext};
ghost use Rattle.srm_engine.specs.WindowEngines.{TellsCounted, TellsEnd};
ghost use Rattle.srm_ledger.specs.Seats.{totals_of};
ghost use Rattle.srm_ledger.specs.Weights.{whole_weight};

use crate::cells::{finish_cells, open_cells};
use crate::cutting::Cutting;
use crate::ends::Ends;
use crate::groups::Groups;
use crate::soonest::least;
use crate::start::Start;
use srm_ledger::ledger::{Ledger, Seat};
use srm_ledger::totals::Totals;
use srm_member::exit::Exit;
use srm_member::participant::Participant;
use srm_scenario::session::Session;
use std::alloc::{AllocError, Global};

/// A run of a scenario in windows: the cells of all members in the groups of its jobs, the ledger with its whole seat, and where
/// windows end.
#[derive(Drop)]
pub(crate) struct WindowEngine<'a, M> {
    pub(crate) session: Session<'a>,
    pub(crate) ledger: Ledger,
    pub(crate) seat: Seat,
    pub(crate) groups: Groups<M>,
    pub(crate) ends: Ends,
}

impl<'a, M: Participant> WindowEngine<'a, M> {
    /// The cells of all members at the beginning, nothing counted.
    pub(crate) fn open(
        alloc: Global,
        start: Start<'a, M>,
        cutting: Cutting,
    ) -> Result<WindowEngine<'a, M>, AllocError>
        requires cutting { MayCut start.session.scenario.now cutting }
        ensures frame { IfOk result (λ e. frame_of e ≡ (start.entry.session, cutting.cut, cutting.ends)) }
        ensures stands { IfOk result (λ e. IsUnderWay M.plain e) }
        ensures opened { IfOk result (λ e. (seed : ℕ) → BeginsWith start.entry seed → OpensAt M.plain seed e) }
    {
        let Start { session, members } = start;
        let _until = session.scenario.until();
        let Ok((ledger, seat)) = Ledger::open(alloc, session.net.links().len()) else {
            return Err(AllocError);
        };
        let cells = open_cells(alloc, session.scenario, members)?;
        let Cutting { cut, ends } = cutting;
        let groups = Groups::of(alloc, session, cells, cut)?;
        Ok(WindowEngine {
            session,
            ledger,
            seat,
            groups,
            ends,
        })
    }

    /// When the next window begins: at the least of the next times of all cells, or with the end of the run.
    pub(crate) fn begin(&self) -> u64
        ensures { BeginsNext M.plain self.now result }
    {
        least(self.groups.soon.as_slice(), self.session.scenario.until())
    }

    /// When the window ends that begins at this tick.
    pub(crate) fn end(&self, begin: u64) -> u64
        requires stands { IsUnderWay M.plain self.now }
        requires begin { BeginsNext M.plain self.now begin }
        requires early { begin < self.now.session.scenario.now.until }
        ensures { EndsNext M.plain self.now result }
    {
        self.ends.end(
            self.groups.soon.as_slice(),
            begin,
            self.session.scenario.until(),
        )
    }

    /// What each member ends with, and what was counted.
    pub(crate) fn finish(self, alloc: Global) -> Result<(Vec<Exit>, Totals), AllocError>
        requires stands { IsUnderWay M.plain self }
        ensures { IfOk result (λ ends. TellsEnd M.plain self.entry ends.0.items ends.1) }
    {
        let WindowEngine {
            ledger,
            seat,
            groups,
            ..
        } = self;
        let exits = finish_cells(alloc, groups.into_cells(alloc)?)?;
        Ok((exits, counted(ledger, seat)))
    }

    /// What was counted. The members are dropped, and no memory is asked for.
    pub(crate) fn into_totals(self) -> Totals
        requires stands { IsUnderWay M.plain self }
        ensures { TellsCounted M.plain self.entry result }
    {
        let WindowEngine { ledger, seat, .. } = self;
        counted(ledger, seat)
    }
}

// What was counted with this seat, the whole one of this ledger.
fn counted(ledger: Ledger, seat: Seat) -> Totals
    requires ledger { seat.ledger ≡ ledger.name }
    requires whole { seat.weight ≡ whole_weight }
    ensures long { length result ≡ 5 * ledger.links }
    ensures totals { result ≡ totals_of seat }
{
    ledger.close(seat).unwrap()
}
