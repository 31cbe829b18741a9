//! The cells of all members.
ghost use Rattle.std.specs.Prelude.{◌≡◌, ◌<◌, ◌≤◌, IfOk, length, map};
ghost use Rattle.srm_net.specs.Limits.{end_of_time};
ghost use Rattle.srm_cell.specs.PutRows.{PutsStep};
ghost use Rattle.srm_engine.specs.Seen.{AreNextTimes, HandsTo, TakesStep, IsIndexOf, IsNewAt};
ghost use Rattle.srm_engine.specs.Openings.{MayOpen, Opens};
ghost use Rattle.srm_engine.specs.Outcomes.{AllEnd, ends_of};

use crate::next_times::NextTimes;
use srm_cell::cell::Cell;
use srm_cell::fault::CellFault;
use srm_member::exit::Exit;
use srm_member::participant::Participant;
use srm_member::row::Row;
use srm_net::packet::Packet;
use srm_scenario::scenario::Scenario;
use std::alloc::{AllocError, Global};

/// The cells of all members at the beginning of a run, in order of the members' numbers.
pub(crate) fn open_cells<M: Participant>(
    alloc: Global,
    scenario: &Scenario,
    members: Vec<M>,
) -> Result<Vec<Cell<M>>, AllocError>
    requires { MayOpen scenario.now (map M.plain members.items) }
    ensures few { IfOk result (λ cells. length cells.items < 65536) }
    ensures opened { IfOk result (λ cells. Opens M.plain scenario.now (map M.plain members.items) cells.items) }
{
    let Ok(scripts) = scenario.scripts(alloc) else {
        return Err(AllocError);
    };
    let mut cells = Vec::with_capacity(alloc, usize::from(scenario.members()))?;
    for (member, script) in members.into_iter().zip(scripts) {
        cells.push(Cell::new(alloc, member, script, 0))?;
    }
    Ok(cells)
}

/// What each member ends with, as it left or as it is, in order of the cells.
pub(crate) fn finish_cells<M: Participant>(
    alloc: Global,
    cells: Vec<Cell<M>>,
) -> Result<Vec<Exit>, AllocError>
    requires { AllEnd M.plain cells.items }
    ensures { IfOk result (λ exits. exits.items ≡ ends_of M.plain cells.items) }
{
    let mut exits = Vec::with_capacity(alloc, cells.len())?;
    for cell in cells {
        let exit = match cell.finish(alloc) {
            Ok(exit) => exit,
            Err(fault) => {
                // The cell has its member, or its exit.
                prove!(fault == CellFault::NoMemory);
                return Err(AllocError);
            }
        };
        exits.push(exit)?;
    }
    Ok(exits)
}

/// The cells of all members in order of their numbers, and their next times.
#[derive(Drop)]
pub(crate) struct Cells<M> {
    pub(crate) cells: Vec<Cell<M>>,
    pub(crate) times: NextTimes,
}

impl<M: Participant> Cells<M> {
    /// These cells, their next times found.
    pub(crate) fn of(alloc: Global, cells: Vec<Cell<M>>) -> Result<Cells<M>, AllocError>
        requires { length cells.items ≤ 65536 }
        ensures { IfOk result (λ indexed. IsIndexOf M.plain cells.items indexed) }
    {
        let times = NextTimes::of(alloc, next_times(alloc, cells.as_slice())?)?;
        Ok(Cells { cells, times })
    }

    /// A member's own step to tick `till`, where the row is put behind others. Tells whether there was an event.
    pub(crate) fn step(
        &mut self,
        alloc: Global,
        member: u16,
        till: u64,
        rows: &mut Vec<Row>,
    ) -> Result<bool, CellFault>
        requires till { till ≤ end_of_time }
        requires cell { member < length self.old.cells.items }
        requires time { member < length self.old.times }
        ensures { PutsStep (λ r. TakesStep M.plain member till self.old r self.new) rows.old.items result rows.new.items }
    {
        let cell = &mut self.cells[usize::from(member)];
        let is_event = match cell.step_onto(alloc, till, rows) {
            Ok(is_event) => is_event,
            Err(fault) => return Err(fault),
        };
        let next = cell.next_time();
        self.times.set(member, next);
        Ok(is_event)
    }

    /// A member is handed a packet, which arrives at tick `at`.
    pub(crate) fn hand(&mut self, member: u16, packet: &Packet, at: u64) -> Result<(), AllocError>
        requires cell { member < length self.old.cells.items }
        requires time { member < length self.old.times }
        requires new { IsNewAt member packet.now.id self.old }
        ensures { IfOk result (λ _. HandsTo M.plain member packet.now at self.old self.new) }
    {
        let cell = &mut self.cells[usize::from(member)];
        let Ok(()) = cell.accept(packet, at) else {
            return Err(AllocError);
        };
        let next = cell.next_time();
        self.times.set(member, next);
        Ok(())
    }
}

// The next time of each cell, in order.
fn next_times<M: Participant>(
    alloc: Global,
    cells: &[Cell<M>],
) -> Result<Vec<Option<u64>>, AllocError>
    ensures { IfOk result (λ times. AreNextTimes M.plain cells.now times.items) }
{
    let mut times = Vec::with_capacity(alloc, cells.len())?;
    for cell in cells {
        times.push(cell.next_time())?;
    }
    Ok(times)
}
