//! What no clause says of cells: when a box is dropped, and that the calls answer with ample memory.
ghost use Rattle.std.specs.Prelude.{◌≡◌, ◌<◌, [], IfOk};
ghost use Rattle.srm_net.specs.Orders.{Rises};
ghost use Rattle.srm_net.specs.declared.rank.Rank.TheVariants.{Report, Leave};
ghost use Rattle.srm_scenario.specs.Plain.{mark_cmp};
ghost use Rattle.srm_cell.specs.Probes.{probe_record, reporter_record};

use srm_cell::cell::Cell;
use srm_cell::fault::CellFault;
use srm_member::cause::Cause;
use srm_member::due::Due;
use srm_member::exit::Exit;
use srm_member::fault::MemberFault;
use srm_member::gone::begin;
use srm_member::member::Member;
use srm_member::react::React;
use srm_member::told::Told;
use srm_net::packet::{Body, Name, Packet, PacketId};
use srm_net::rank::Rank;
use srm_net::sequence::Sequence;
use srm_scenario::mark::Mark;
use std::alloc::{AllocError, Global};
use std::process::Abort;
use std::sync::Arc;
use std::sync::atomic::{AtomicU64, Ordering};
use std::test::Fail;

/// A member that only leaves, and counts the drops of its box.
struct Probe {
    drops: Arc<AtomicU64>,
    number: u16,
    gone: bool,
}

impl Drop for Probe {
    fn drop(self) {
        self.drops.fetch_add(1, Ordering::SeqCst);
        let Probe {
            drops: _,
            number: _,
            gone: _,
        } = self;
    }
}

impl Member for Probe {
    ghost plain = { λ p. probe_record p.number p.gone };

    fn number(&self) -> u16 {
        self.number
    }

    fn due(&self) -> Option<Due> {
        None
    }

    fn react(&mut self, _alloc: Global, _at: u64, _cause: &Cause) -> Result<React, MemberFault> {
        if self.gone {
            return Err(MemberFault::Spent);
        }
        self.gone = true;
        Err(MemberFault::NoMemory)
    }

    fn finish(&mut self, alloc: Global) -> Result<Exit, MemberFault> {
        if self.gone {
            return Err(MemberFault::Spent);
        }
        self.gone = true;
        Ok(Exit {
            member: self.number,
            held: Sequence::new(alloc),
            missing: Sequence::new(alloc),
        })
    }
}

const fn leave(at: u64) -> Mark
    ensures { result ≡ record { at = at; rank = Leave; place = 0; page = 0; ink = 0 } }
{
    Mark {
        at,
        rank: Rank::Leave,
        place: 0,
        page: 0,
        ink: 0,
    }
}

const fn report(at: u64) -> Mark
    ensures { result ≡ record { at = at; rank = Report; place = 0; page = 0; ink = 0 } }
{
    Mark {
        at,
        rank: Rank::Report,
        place: 0,
        page: 0,
        ink: 0,
    }
}

fn cell_of(alloc: Global, drops: &Arc<AtomicU64>, script: Vec<Mark>) -> Result<Cell, Fail>
    requires { Rises mark_cmp script.items }
    ensures { IfOk result (λ c. [] ≡ c.inbox) }
{
    let probe = Probe {
        drops: Arc::try_clone(drops)?,
        number: 7,
        gone: false,
    };
    Ok(Cell::new(alloc, Box::new(alloc, probe)?, script, 0))
}

// What came of an event, and which packet was sent.
type RowSeen = (Told, Option<PacketId>);

// What came of the cell's next event, if it has one before this tick.
fn step_before(alloc: Global, cell: &mut Cell, till: u32) -> Result<Option<RowSeen>, CellFault> {
    let Some(row) = cell.step(alloc, u64::from(till))? else {
        return Ok(None);
    };
    let sent = match &row.sent {
        Some(packet) => Some(packet.id),
        None => None,
    };
    Ok(Some((row.told, sent)))
}

// The number in what the cell's member ends with.
fn ended_number(alloc: Global, cell: Cell) -> Result<u16, CellFault> {
    let exit = cell.finish(alloc)?;
    Ok(exit.member)
}

// When a cell's next event is, what came of it, and how often the box was dropped after it.
type StepSeen = (Option<u64>, Result<Option<RowSeen>, CellFault>, u64);

// Asserts what comes of steps of a cell, each before a tick.
fn expect_steps(
    rt: &impl Abort,
    alloc: Global,
    cell: &mut Cell,
    drops: &AtomicU64,
    steps: &[(u32, StepSeen)],
) {
    for (till, expected) in steps {
        let next_time = cell.next_time();
        let outcome = step_before(alloc, cell, *till);
        let step = (next_time, outcome, drops.load(Ordering::SeqCst));
        assert_eq!(rt; step, *expected, "before tick {till}");
    }
}

const LEAVE_AND_REPORT: [(u32, StepSeen); 3] = [
    (3, (Some(3), Ok(None), 0)),
    (4, (Some(3), Ok(Some((Told::Parted, None))), 1)),
    (5, (Some(4), Err(CellFault::Spent), 1)),
];

#[test]
fn a_box_is_dropped_before_the_row_after_its_leave(rt: HostRuntime) -> Result<(), Fail> {
    let alloc = rt.alloc();
    let drops = Arc::new(alloc, AtomicU64::new(0))?;
    let script = Vec::from_array(alloc, [leave(3), report(4)])?;
    let mut cell = cell_of(alloc, &drops, script)?;
    expect_steps(&rt, alloc, &mut cell, &drops, &LEAVE_AND_REPORT);
    let number = ended_number(alloc, cell);
    assert_eq!(rt; (number, drops.load(Ordering::SeqCst)), (Ok(7), 1));
    Ok(())
}

// A cell whose member leaves at tick 9.
fn staying_cell(alloc: Global, drops: &Arc<AtomicU64>) -> Result<Cell, Fail>
    ensures { IfOk result (λ c. [] ≡ c.inbox) }
{
    let script = Vec::from_array(alloc, [leave(9), report(10)])?;
    cell_of(alloc, drops, script)
}

// A request of member 1, its first packet.
const REQUEST: Packet = Packet {
    id: PacketId {
        sender: 1,
        count: 0,
    },
    sent: 1,
    body: Body::Request {
        name: Name {
            source: 1,
            page: 0,
            number: 0,
        },
        scope: None,
    },
};

#[test]
fn a_box_that_stays_is_dropped_as_its_cell_ends(rt: HostRuntime) -> Result<(), Fail> {
    let alloc = rt.alloc();
    let drops = Arc::new(alloc, AtomicU64::new(0))?;
    let mut cell = staying_cell(alloc, &drops)?;
    let accepted = cell.accept(&REQUEST, 2);
    assert_eq!(rt; (accepted, cell.next_time()), (Ok(()), Some(2)));
    let number = ended_number(alloc, cell);
    assert_eq!(rt; (number, drops.load(Ordering::SeqCst)), (Ok(7), 1));
    Ok(())
}

#[test]
fn a_box_that_stays_is_dropped_with_its_cell(rt: HostRuntime) -> Result<(), Fail> {
    let drops = Arc::new(rt.alloc(), AtomicU64::new(0))?;
    drop(staying_cell(rt.alloc(), &drops)?);
    assert_eq!(rt; drops.load(Ordering::SeqCst), 1);
    Ok(())
}

/// A member that has heard of no page, and sends a session message at each report.
struct Reporter {
    number: u16,
    gone: bool,
}

impl Drop for Reporter {
    fn drop(self) {
        let Reporter { number: _, gone: _ } = self;
    }
}

impl Member for Reporter {
    ghost plain = { λ p. reporter_record p.number p.gone };

    fn number(&self) -> u16 {
        self.number
    }

    fn due(&self) -> Option<Due> {
        None
    }

    fn react(&mut self, alloc: Global, _at: u64, cause: &Cause) -> Result<React, MemberFault> {
        begin(&mut self.gone)?;
        let Cause::Report = cause else {
            return Err(MemberFault::NoMemory);
        };
        let heard = Sequence::new(alloc);
        let react = React::sent(alloc, Body::Session { heard })?;
        self.gone = false;
        Ok(react)
    }

    fn finish(&mut self, alloc: Global) -> Result<Exit, MemberFault> {
        if self.gone {
            return Err(MemberFault::Spent);
        }
        self.gone = true;
        Ok(Exit {
            member: self.number,
            held: Sequence::new(alloc),
            missing: Sequence::new(alloc),
        })
    }
}

// A cell of a member that reports at ticks 4 and 6, and has one packet left to send.
fn last_packet(alloc: Global) -> Result<Cell, AllocError> {
    let script = Vec::from_array(alloc, [report(4), report(6)])?;
    let reporter = Reporter {
        number: 1,
        gone: false,
    };
    let sent = 281_474_976_710_655;
    Ok(Cell::new(alloc, Box::new(alloc, reporter)?, script, sent))
}

#[test]
fn a_cell_sends_its_last_packet_and_then_answers_count_full(rt: HostRuntime) -> Result<(), Fail> {
    let mut cell = last_packet(rt.alloc())?;
    let last = PacketId {
        sender: 1,
        count: 281_474_976_710_655,
    };
    let sent = Ok(Some((Told::Sent, Some(last))));
    for outcome in [sent, Err(CellFault::CountFull)] {
        assert_eq!(rt; step_before(rt.alloc(), &mut cell, 20), outcome);
    }
    Ok(())
}
