//! The sequential engine.
ghost use Rattle.std.specs.Prelude.{◌≡◌, ◌≤◌, ◌+◌, ℕ, IfOk, length, map};
ghost use Rattle.srm_net.specs.Scopes.{scope_of};
ghost use Rattle.srm_net.specs.Spreads.{IsSpread};
ghost use Rattle.srm_cell.specs.PutRows.{PutsStep};
ghost use Rattle.srm_engine.specs.Openings.{InRuns, IsOpening};
ghost use Rattle.srm_engine.specs.Engines.{MayStep, StepsOn, MaySendNow, Sends, MayDeliver, Delivers, IsOpened};
ghost use Rattle.srm_engine.specs.Engines.{Shows};
ghost use Rattle.srm_interfaces.specs.Sinks.{IsReady, stage_after, stops_in};
ghost use Rattle.srm_engine.specs.Streams.{LeavesSink, sink_in, MayTake, TakesSteps, StreamsRows, MayLackSteps};
ghost use Rattle.srm_engine.specs.Streams.{TellsRefusal};
ghost use Rattle.srm_engine.specs.RowRuns.{TellsLast, TellsUndone};
ghost use Rattle.srm_model.specs.World.{opening};

use crate::cells::{Cells, open_cells};
use crate::fault::RunFault;
use crate::halt::Halt;
use crate::handing::hand_none;
use crate::session_distances::{SessionDistances, arrival_by};
use crate::stream_fault::StreamFault;
use srm_cell::tally::Tally;
use srm_interfaces::sink::RowSink;
use srm_member::participant::Participant;
use srm_member::row::Row;
use srm_net::packet::Packet;
use srm_net::spread::Spread;
use srm_scenario::session::Session;
use std::alloc::{AllocError, Global};

// How many rows are handed on at a time.
const PIECE: usize = 32;

// No run has so many pieces: 2^62 rows.
const MOST_PIECES: u64 = 144_115_188_075_855_872;

/// A run of a scenario: the cells of all members, and the totals so far.
#[derive(Drop)]
pub(crate) struct Simulation<'a, M> {
    pub(crate) session: SessionDistances<'a>,
    pub(crate) cells: Cells<M>,
    pub(crate) tally: Tally,
}

impl<'a, M: Participant> Simulation<'a, M> {
    /// The cells of all members at the beginning, nothing counted.
    pub(crate) fn open(
        alloc: Global,
        session: Session<'a>,
        members: Vec<M>,
    ) -> Result<Simulation<'a, M>, AllocError>
        requires boxes { IsOpening session.scenario.now (map M.plain members.items) }
        ensures session { IfOk result (λ e. e.session ≡ session.entry) }
        ensures opened { IfOk result (λ e. InRuns session.entry.scenario.now (map M.plain members.items)
            (λ s. Shows M.plain e (opening s))) }
    {
        let tally = Tally::new(alloc, session.net.links().len() as u16)?;
        let cells = Cells::of(alloc, open_cells(alloc, session.scenario, members)?)?;
        let session = SessionDistances::new(alloc, session);
        Ok(Simulation {
            session,
            cells,
            tally,
        })
    }

    /// The whole run, its rows handed to a sink in pieces: first none, and then all of them, in order, no more than 32 at a time.
    /// After the last of them it asks for no memory.
    pub(crate) fn run<S: RowSink>(
        alloc: Global,
        session: Session<'a>,
        members: Vec<M>,
        sink: &mut S,
    ) -> Result<Simulation<'a, M>, StreamFault>
        requires boxes { IsOpening session.scenario.now (map M.plain members.items) }
        requires sink { IsReady (S.stage sink.old) (S.failures sink.old) }
        ensures session { IfOk result (λ e. e.session ≡ session.entry) }
        ensures sink { LeavesSink S.RowSink sink.old result sink.new }
        ensures last { InRuns session.entry.scenario.now (map M.plain members.items)
            (λ s. TellsLast S.took S.part (Shows M.plain) s sink.old result sink.new) }
        ensures refused { InRuns session.entry.scenario.now (map M.plain members.items)
            (λ s. TellsRefusal S.took S.part s sink.old result sink.new) }
        ensures undone { InRuns session.entry.scenario.now (map M.plain members.items)
            (λ s. TellsUndone S.stage S.took S.part (MayLackSteps s) s sink.old result sink.new) }
    {
        let mut simulation = match Simulation::open(alloc, session, members) {
            Ok(opened) => opened,
            Err(error) => return Err(error.into()),
        };
        if let Err(halt) = simulation.stream(alloc, sink) {
            return Err(halt.into());
        }
        Ok(simulation)
    }

    /// Steps, one after the other, until nothing is pending before the end of the run. The rows are handed to a sink in pieces:
    /// first none, and then all of them, in order, no more than 32 at a time.
    pub(crate) fn stream<S: RowSink>(&mut self, alloc: Global, sink: &mut S) -> Result<(), Halt>
        requires opened { (seed : ℕ) × IsOpened M.plain seed self.old }
        requires sink { IsReady (S.stage sink.old) (S.failures sink.old) }
        ensures session { self.new.session ≡ self.old.session }
        ensures device { S.same sink.old sink.new }
        ensures stage { S.stage sink.new ≡ stage_after (sink_in result) }
        ensures failures { S.failures sink.new ≡ S.failures sink.old + stops_in (sink_in result) }
        ensures rows { StreamsRows S.took S.part M.plain self.old sink.old result
            sink.new self.new }
    {
        if let Err(fault) = hand_none(alloc, sink) {
            return Err(Halt::Sink(fault));
        }
        let mut left = MOST_PIECES;
        while left > 0 {
            let rows = match self.steps(alloc, PIECE) {
                Ok(rows) => rows,
                Err(fault) => return Err(Halt::Run(fault)),
            };
            let is_last = rows.len() < PIECE;
            if let Err(fault) = sink.rows(alloc, rows) {
                return Err(Halt::Sink(fault));
            }
            if is_last {
                return Ok(());
            }
            left -= 1;
        }
        Err(Halt::Run(RunFault::NoMemory))
    }

    /// Steps, one after the other, until nothing is pending before the end of the run, or there are so many rows.
    pub(crate) fn steps(&mut self, alloc: Global, most: usize) -> Result<Vec<Row>, RunFault>
        requires known { MayTake M.plain self.old }
        ensures session { self.new.session ≡ self.old.session }
        ensures few { IfOk result (λ rows. length rows.items ≤ most) }
        ensures steps { TakesSteps M.plain most self.old result self.new }
    {
        let mut rows = Vec::new(alloc);
        while rows.len() < most {
            match self.step(alloc, &mut rows) {
                Ok(true) => make_room(&mut rows, most)?,
                Ok(false) => return Ok(rows),
                Err(fault) => return Err(fault),
            }
        }
        Ok(rows)
    }

    /// The step of the sequential run: the least pending event of all is taken, its row put behind others, and its packet handed
    /// out. Tells whether there was an event.
    pub(crate) fn step(&mut self, alloc: Global, rows: &mut Vec<Row>) -> Result<bool, RunFault>
        requires known { MayStep M.plain self.old }
        ensures session { self.new.session ≡ self.old.session }
        ensures step { PutsStep (λ r. StepsOn M.plain self.old r self.new) rows.old.items result rows.new.items }
    {
        let until = self.session.until();
        let Some((time, member)) = self.cells.times.least() else {
            return Ok(false);
        };
        if time >= until {
            return Ok(false);
        }
        match self.cells.step(alloc, member, until, rows) {
            Ok(true) => {}
            Ok(false) => return Ok(false),
            Err(fault) => return Err(RunFault::of(fault.into()).unwrap()),
        }
        let row = rows.last().unwrap();
        self.send(alloc, row)?;
        Ok(true)
    }

    // Counts and hands out the packet that a row sent, if any.
    fn send(&mut self, alloc: Global, row: &Row) -> Result<(), AllocError>
        requires may { MaySendNow M.plain self.old row.now.sent }
        ensures session { self.new.session ≡ self.old.session }
        ensures sent { IfOk result (λ _. Sends M.plain row.now.sent self.old self.new) }
    {
        let Some(packet) = &row.sent else {
            return Ok(());
        };
        let Session { scenario, net, .. } = self.session.as_session();
        let spread = net.spread(
            alloc,
            scenario.drops(),
            packet.id,
            packet.sent,
            packet.body.scope(),
        )?;
        self.tally.count(net, &spread, packet);
        self.deliver(alloc, packet, &spread)?;
        Ok(())
    }

    // Every member to which a packet, of which this is the spread, has a flight is handed it.
    fn deliver(&mut self, alloc: Global, packet: &Packet, spread: &Spread) -> Result<(), AllocError>
        requires spread { IsSpread self.old.session.net.now self.old.session.scenario.now.drops packet.now.id packet.now.sent
            (scope_of packet.now.body) spread.now }
        requires may { MayDeliver M.plain packet.now self.old }
        ensures session { self.new.session ≡ self.old.session }
        ensures tally { self.new.tally ≡ self.old.tally }
        ensures heard { IfOk result (λ _. Delivers M.plain packet.now self.old self.new) }
    {
        self.session.note(alloc, packet.id.sender)?;
        let session = self.session.as_session();
        let distances = self.session.distances_for(spread);
        let cells = &mut self.cells;
        for member in 0..session.scenario.members() {
            if let Some(at) = arrival_by(session, packet, spread, distances, member) {
                cells.hand(member, packet, at)?;
            }
        }
        Ok(())
    }
}

// Makes room for the most rows that there may be, once there is one: mostly there are as many, and none is moved again.
fn make_room(rows: &mut Vec<Row>, most: usize) -> Result<(), AllocError>
    ensures { rows.new.items ≡ rows.old.items }
{
    if rows.len() == 1 {
        rows.reserve(most.saturating_sub(1))?;
    }
    Ok(())
}
