//! Packets on their way to one member that were accepted out of turn.
ghost use Rattle.std.specs.Prelude.{◌≡◌, List, [], ◌∷◌, MatchOption, OnOk, OnErr, slice_get, Option, map};
ghost use Rattle.std.specs.Option.{option_map};
ghost use Rattle.srm_cell.specs.Flights.{with_flight, arriving_before, BringsNone};

use crate::flight::Flight;
use crate::stray::Stray;
use srm_net::packet::{Packet, PacketId};
use std::alloc::{AllocError, Global};
use std::collections::BinaryHeap;
use std::marker::Model;

/// Packets that go before one that was accepted earlier, by arrival, sender and count. Contracts see them as a list of flights.
///
/// Only the first is asked for, so they are kept in a heap: an ordered map moves more of them at a time.
#[derive(Drop)]
pub(crate) struct Strays {
    waiting: BinaryHeap<Stray>,
}

impl Model for Strays {
    ghost use Rattle.std.specs.Prelude.{List};
    ghost use Rattle.std.specs.BinaryHeap.{heap_items, IsHeap};
    ghost use Rattle.std.specs.List.{IsDistinct};
    ghost use Rattle.std.specs.Ordering.{eq_by_cmp};
    ghost use Rattle.srm_net.specs.Orders.{ordered};
    ghost use Rattle.srm_cell.specs.declared.flight.Flight.{Flight};
    ghost use Rattle.srm_cell.specs.Flights.{flight_cmp, later_cmp};

    ghost Value = { List Flight };

    ghost view = { λ s. ordered flight_cmp (heap_items s.waiting) };

    ghost invariant = { λ s. IsHeap later_cmp (heap_items s.waiting) × IsDistinct (eq_by_cmp flight_cmp) (heap_items s.waiting) };
}

impl Strays {
    /// No packet. As it is written, it asks for no memory.
    pub(crate) fn new(alloc: Global) -> Self
        ensures { result ≡ [] }
    {
        Strays {
            waiting: BinaryHeap::new(alloc),
        }
    }

    /// How many packets arrive before tick `till`. It does not allocate.
    pub(crate) fn arriving_before(&self, till: u64) -> usize
        ensures { result ≡ arriving_before till self.now }
    {
        let strays = self.waiting.as_slice();
        let mut count: usize = 0;
        for i in 0..strays.len() {
            if strays[i].place().0 < till {
                count += 1;
            }
        }
        count
    }

    /// Adds a packet that arrives at tick `arrival`.
    ///
    /// # Errors
    /// Memory was refused; all is then as it was.
    #[inline(never)]
    pub(crate) fn accept(&mut self, packet: &Packet, arrival: u64) -> Result<(), AllocError>
        requires { BringsNone packet.now.id self.old }
        ensures ok { OnOk result (self.new ≡ with_flight packet.now arrival self.old) }
        ensures err { OnErr result (self.new ≡ self.old) }
    {
        let packet = packet.clone()?;
        self.waiting.push(Stray::new(packet, arrival))?;
        Ok(())
    }

    /// When the first packet arrives, in ticks, and which it is.
    pub(crate) fn first(&self) -> Option<(u64, PacketId)>
        ensures { result ≡ option_map (λ f. (f.arrival, f.packet.id)) (slice_get self.now 0) }
    {
        let stray = self.waiting.peek()?;
        Some(stray.place())
    }

    /// Takes the first packet out.
    #[inline(always)]
    pub(crate) fn pop_first(&mut self) -> Option<Flight>
        ensures { MatchOption result ((self.old ≡ []) × (self.new ≡ [])) (λ f. self.old ≡ f ∷ self.new) }
    {
        let stray = self.pop()?;
        Some(stray.into_flight())
    }

    // The same, in a call of its own: so a packet that is taken elsewhere does not go through memory.
    #[inline(never)]
    fn pop(&mut self) -> Option<Stray>
        ensures { MatchOption result ((self.old ≡ []) × (self.new ≡ [])) (λ f. self.old ≡ f ∷ self.new) }
    {
        self.waiting.pop()
    }
}
