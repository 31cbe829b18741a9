//! The packets on their way to one member.
ghost use Rattle.std.specs.Prelude.{◌≡◌, List, [], ◌∷◌, MatchOption, OnOk, OnErr, min, slice_get};
ghost use Rattle.std.specs.Option.{option_map};
ghost use Rattle.srm_cell.specs.Flights.{with_flight, arriving_before, BringsNone};
ghost use Rattle.srm_cell.specs.InboxLines.{leads, follows};

use crate::compact_flight::CompactFlight;
use crate::flight::{Flight, is_before};
use crate::line::Line;
use crate::strays::Strays;
use srm_net::packet::{Packet, PacketId};
use std::alloc::{AllocError, Global};
use std::marker::Model;

/// The packets on their way to one member, by arrival, sender and count. Contracts see them as a list of flights.
///
/// Packets are mostly accepted in this order or nearly so, and then stand in a line, if they have short flights. The others are
/// kept in a heap.
#[derive(Drop)]
pub struct Inbox {
    line: Line,
    strays: Strays,
}

impl Model for Inbox {
    ghost use Rattle.std.specs.Prelude.{List, ◌++◌};
    ghost use Rattle.srm_net.specs.Orders.{ordered, Rises};
    ghost use Rattle.srm_cell.specs.declared.flight.Flight.{Flight};
    ghost use Rattle.srm_cell.specs.Flights.{flight_cmp};

    ghost Value = { List Flight };

    ghost view = { λ i. ordered flight_cmp (i.strays ++ i.line) };

    ghost invariant = { λ i. Rises flight_cmp i.strays × Rises flight_cmp i.line };
}

impl Inbox {
    /// The empty inbox. As it is written, it asks for no memory.
    pub fn new(alloc: Global) -> Self
        ensures { result ≡ [] }
    {
        Inbox {
            line: Line::new(alloc),
            strays: Strays::new(alloc),
        }
    }

    /// How many packets arrive before tick `till`, or the greatest number of a `usize`. It does not allocate.
    pub fn arriving_before(&self, till: u64) -> usize
        ensures { result ≡ min (arriving_before till self.now) usize.MAX }
    {
        let in_turn = self.line.arriving_before(till);
        in_turn.saturating_add(self.strays.arriving_before(till))
    }

    /// Adds a packet that arrives at tick `arrival`.
    ///
    /// # Errors
    /// [`AllocError`]: the inbox is then as it was.
    pub fn accept(&mut self, packet: &Packet, arrival: u64) -> Result<(), AllocError>
        requires { BringsNone packet.now.id self.old }
        ensures ok { OnOk result (self.new ≡ with_flight packet.now arrival self.old) }
        ensures err { OnErr result (self.new ≡ self.old) }
    {
        if is_in_turn(&self.line, (arrival, packet.id))
            && CompactFlight::is_short(packet, arrival)
        {
            let flight = CompactFlight::new(self.line.allocator(), packet, arrival)?;
            self.line.push(flight)?;
            return Ok(());
        }
        self.accept_by_place(packet, arrival)
    }

    // The same of a packet that may go before others.
    #[inline(never)]
    fn accept_by_place(&mut self, packet: &Packet, arrival: u64) -> Result<(), AllocError>
        requires { BringsNone packet.now.id self.old }
        ensures ok { OnOk result (self.new ≡ with_flight packet.now arrival self.old) }
        ensures err { OnErr result (self.new ≡ self.old) }
    {
        let is_in = self.line.put_near_end(packet, arrival)?;
        if is_in {
            return Ok(());
        }
        self.strays.accept(packet, arrival)
    }

    /// When the first packet arrives, in ticks, and which it is.
    #[inline(always)]
    pub fn first(&self) -> Option<(u64, PacketId)>
        ensures { result ≡ option_map (λ f. (f.arrival, f.packet.id)) (slice_get self.now 0) }
    {
        if !is_line_next(&self.line, &self.strays) {
            return self.strays.first();
        }
        let flight = self.line.front()?;
        Some(flight.place())
    }

    /// Takes the first packet out.
    #[inline(always)]
    pub fn pop_first(&mut self) -> Option<Flight>
        ensures { MatchOption result ((self.old ≡ []) × (self.new ≡ [])) (λ f. self.old ≡ f ∷ self.new) }
    {
        if is_line_next(&self.line, &self.strays) {
            let flight = self.line.pop()?;
            Some(flight.into_flight())
        } else {
            self.strays.pop_first()
        }
    }
}

// Whether a flight goes behind a whole line.
fn is_in_turn(line: &Line, flight: (u64, PacketId)) -> bool
    ensures { result ≡ follows flight line.now }
{
    match line.back() {
        None => true,
        Some(last) => is_before(last.place(), flight),
    }
}

// Whether the first of a line goes before all others.
#[inline(always)]
fn is_line_next(line: &Line, strays: &Strays) -> bool
    ensures { result ≡ leads line.now strays.now }
{
    let Some(flight) = line.front() else {
        return false;
    };
    let Some(stray) = strays.first() else {
        return true;
    };
    is_before(flight.place(), stray)
}
