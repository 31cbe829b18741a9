//! Flights that come and go in turn.
ghost use Rattle.std.specs.Prelude.{◌≡◌, ◌<◌, ◌-◌, ◌↔◌, [], ◌∷◌, ◌++◌, OnOk, OnErr, IfOk, IsSome, IfSome, MatchOption};
ghost use Rattle.std.specs.Prelude.{length, min, slice_index_or, if◌then◌else◌, ◌⊎◌, IsTrue};
ghost use Rattle.srm_net.specs.Orders.{Rises};
ghost use Rattle.srm_cell.specs.Flights.{arriving_before, flight_cmp, with_flight};
ghost use Rattle.srm_cell.specs.InboxLines.{goes_before, IsPlaceIn};
ghost use Rattle.srm_cell.specs.Lines.{in_box};

use crate::blocks::{Blocks, count_before};
use crate::compact_flight::CompactFlight;
use crate::flight::is_before;
use srm_net::packet::{Packet, PacketId};
use std::alloc::{AllocError, Global};
use std::collections::VecDeque;
use std::marker::Model;
use std::mem;

// So many flights a block has.
const BLOCK: usize = 32;

// So many flights are moved by one at most, to make room for another.
const MOST_MOVED: usize = 8;

/// Flights that come and go in turn. Contracts see them as a list.
///
/// They come to a ring, and where they are more than a block has it becomes a block itself: so none is moved as more come.
#[derive(Drop)]
pub(crate) struct Line {
    // those that go before the last ones, once there were more than a block has; few lines have any
    blocks: Option<Box<Blocks>>,
    last: VecDeque<CompactFlight>,
}

impl Model for Line {
    ghost use Rattle.std.specs.Prelude.{◌≡◌, List, [], ◌++◌};
    ghost use Rattle.srm_cell.specs.declared.flight.Flight.{Flight};
    ghost use Rattle.srm_cell.specs.Lines.{in_box};

    ghost Value = { List Flight };

    ghost view = { λ l. in_box l.blocks ++ l.last.items };

    ghost invariant = { λ l. l.last.items ≡ [] → in_box l.blocks ≡ [] };
}

impl Line {
    /// No flight. It does not allocate.
    pub(crate) fn new(alloc: Global) -> Self
        ensures { result ≡ [] }
    {
        Line {
            blocks: None,
            last: VecDeque::new(alloc),
        }
    }

    /// Where flights are kept.
    pub(crate) fn allocator(&self) -> Global {
        *self.last.allocator()
    }

    /// How many arrive before tick `till`, or the greatest number of a `usize`. It does not allocate.
    pub(crate) fn arriving_before(&self, till: u64) -> usize
        requires { Rises flight_cmp self.now }
        ensures { result ≡ min (arriving_before till self.now) usize.MAX }
    {
        let last = count_before(&self.last, till);
        match &self.blocks {
            Some(blocks) => blocks.arriving_before(till).saturating_add(last),
            None => last,
        }
    }

    /// The first flight.
    #[inline(always)]
    pub(crate) fn front(&self) -> Option<&CompactFlight>
        ensures some { IsSome result ↔ (0 < length self.now) }
        ensures lookup { IfSome result (λ x. x.now ≡ slice_index_or self.now 0 x.now) }
    {
        let Some(blocks) = &self.blocks else {
            return self.last.front();
        };
        match blocks.front() {
            Some(flight) => Some(flight),
            None => self.last.front(),
        }
    }

    /// The last flight.
    pub(crate) fn back(&self) -> Option<&CompactFlight>
        ensures some { IsSome result ↔ (0 < length self.now) }
        ensures lookup { IfSome result (λ x. x.now ≡ slice_index_or self.now (length self.now - 1) x.now) }
    {
        self.last.back()
    }

    /// Puts a flight behind the others.
    ///
    /// # Errors
    /// [`AllocError`]: all is then as it was.
    pub(crate) fn push(&mut self, flight: CompactFlight) -> Result<(), AllocError>
        ensures ok { OnOk result (self.new ≡ self.old ++ flight ∷ []) }
        ensures err { OnErr result (self.new ≡ self.old) }
    {
        if self.last.len() < BLOCK {
            self.last.push_back(flight)?;
            return Ok(());
        }
        self.begin(flight)
    }

    // Begins a block with a flight.
    #[inline(never)]
    fn begin(&mut self, flight: CompactFlight) -> Result<(), AllocError>
        ensures ok { OnOk result (self.new ≡ self.old ++ flight ∷ []) }
        ensures err { OnErr result (self.new ≡ self.old) }
    {
        let alloc = self.allocator();
        let mut block = empty_block(alloc, &mut self.blocks)?;
        block.push_back(flight)?;
        let mut blocks = match self.blocks.take() {
            Some(blocks) => blocks,
            None => Box::new(alloc, Blocks::new(alloc))?,
        };
        let full = mem::replace(&mut self.last, block);
        let pushed = blocks.push(full);
        self.blocks = Some(blocks);
        match pushed {
            Ok(()) => Ok(()),
            Err(full) => {
                self.last = full;
                Err(AllocError)
            }
        }
    }

    /// Takes the first flight out.
    #[inline(always)]
    pub(crate) fn pop(&mut self) -> Option<CompactFlight>
        ensures { MatchOption result ((self.old ≡ []) × (self.new ≡ [])) (λ x. self.old ≡ x ∷ self.new) }
    {
        if let Some(blocks) = &mut self.blocks {
            if let Some(flight) = blocks.pop() {
                return Some(flight);
            }
        }
        self.last.pop_front()
    }

    /// Puts a packet into its place, where that is near the end. Tells whether it is there.
    ///
    /// # Errors
    /// [`AllocError`]: all is then as it was.
    pub(crate) fn put_near_end(&mut self, packet: &Packet, arrival: u64) -> Result<bool, AllocError>
        requires { Rises flight_cmp self.old }
        ensures ok { IfOk result (λ is_in. self.new ≡ (if is_in then with_flight packet.now arrival self.old else self.old)) }
        ensures err { OnErr result (self.new ≡ self.old) }
    {
        let place = place_in(&self.last, (arrival, packet.id));
        if !is_behind_some(place, &self.blocks) {
            return Ok(false);
        }
        if self.last.len() - place > MOST_MOVED || !CompactFlight::is_short(packet, arrival) {
            return Ok(false);
        }
        let flight = CompactFlight::new(self.allocator(), packet, arrival)?;
        self.last.insert(place, flight)?;
        Ok(true)
    }
}

// A block without a flight, one that was emptied if there is any.
fn empty_block(
    alloc: Global,
    blocks: &mut Option<Box<Blocks>>,
) -> Result<VecDeque<CompactFlight>, AllocError>
    ensures block { IfOk result (λ block. block.items ≡ []) }
    ensures same { in_box blocks.new ≡ in_box blocks.old }
{
    if let Some(blocks) = blocks {
        if let Some(block) = blocks.take_spare() {
            return Ok(block);
        }
    }
    VecDeque::with_capacity(alloc, BLOCK)
}

// Whether a place among the last flights has one of them before it, or these are all.
fn is_behind_some(place: usize, blocks: &Option<Box<Blocks>>) -> bool
    ensures { IsTrue result → (0 < place) ⊎ (in_box blocks.now ≡ []) }
{
    if place > 0 {
        return true;
    }
    match blocks {
        Some(blocks) => blocks.front().is_none(),
        None => true,
    }
}

// How many flights of a ring go before one with this arrival and packet.
fn place_in(ring: &VecDeque<CompactFlight>, flight: (u64, PacketId)) -> usize
    requires { Rises flight_cmp ring.now.items }
    ensures { IsPlaceIn flight ring.now.items result }
{
    ring.partition_point(
        |other: &CompactFlight| -> bool
            ensures { result ≡ goes_before flight other.now }
        { is_before(other.place(), flight) },
    )
}
