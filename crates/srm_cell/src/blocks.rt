//! Flights in blocks.
ghost use Rattle.std.specs.Prelude.{◌≡◌, ◌<◌, ◌↔◌, [], ◌∷◌, ◌++◌, IsSome, IfSome, MatchOption, MatchResult};
ghost use Rattle.std.specs.Prelude.{length, min, nat_lt, slice_index_or};
ghost use Rattle.srm_net.specs.Orders.{Rises};
ghost use Rattle.srm_cell.specs.Flights.{arriving_before, flight_cmp};
ghost use Rattle.srm_cell.specs.Lines.{in_blocks, AreFilled};

use crate::compact_flight::CompactFlight;
use std::alloc::Global;
use std::collections::VecDeque;
use std::marker::Model;
use std::mem;

// So many emptied blocks are kept at most: each takes a kilobyte of every member whose flights fill blocks.
const MOST_SPARE: usize = 1;

/// Flights in blocks, of which none is moved as more come. Contracts see them as a list.
#[derive(Drop)]
pub(crate) struct Blocks {
    // those that go next
    first: VecDeque<CompactFlight>,
    others: VecDeque<VecDeque<CompactFlight>>,
    // emptied blocks, for those to come: threads wait for each other where one gives back memory that another one took
    spare: Vec<VecDeque<CompactFlight>>,
}

impl Model for Blocks {
    ghost use Rattle.std.specs.Prelude.{List, ◌++◌};
    ghost use Rattle.srm_cell.specs.declared.flight.Flight.{Flight};
    ghost use Rattle.srm_cell.specs.Lines.{in_blocks, AreInTurn};

    ghost Value = { List Flight };

    ghost view = { λ b. b.first.items ++ in_blocks b.others.items };

    ghost invariant = { λ b. AreInTurn b.first.items b.others.items };
}

impl Blocks {
    /// No flight. It does not allocate.
    pub(crate) fn new(alloc: Global) -> Self
        ensures { result ≡ [] }
    {
        Blocks {
            first: VecDeque::new(alloc),
            others: VecDeque::new(alloc),
            spare: Vec::new(alloc),
        }
    }

    /// How many arrive before tick `till`, or the greatest number of a `usize`. It does not allocate.
    pub(crate) fn arriving_before(&self, till: u64) -> usize
        requires { Rises flight_cmp self.now }
        ensures { result ≡ min (arriving_before till self.now) usize.MAX }
    {
        let next = count_before(&self.first, till);
        if next < self.first.len() {
            return next;
        }
        next.saturating_add(count_in(&self.others, till))
    }

    /// The first flight.
    #[inline(always)]
    pub(crate) fn front(&self) -> Option<&CompactFlight>
        ensures some { IsSome result ↔ (0 < length self.now) }
        ensures lookup { IfSome result (λ x. x.now ≡ slice_index_or self.now 0 x.now) }
    {
        self.first.front()
    }

    /// Takes the first flight out.
    #[inline(always)]
    pub(crate) fn pop(&mut self) -> Option<CompactFlight>
        ensures { MatchOption result ((self.old ≡ []) × (self.new ≡ [])) (λ x. self.old ≡ x ∷ self.new) }
    {
        let flight = self.first.pop_front()?;
        if self.first.is_empty() {
            take_next(&mut self.first, &mut self.others, &mut self.spare);
        }
        Some(flight)
    }

    /// A block without a flight: one that was emptied, if there is any.
    pub(crate) fn take_spare(&mut self) -> Option<VecDeque<CompactFlight>>
        ensures block { IfSome result (λ block. block.items ≡ []) }
        ensures same { self.new ≡ self.old }
    {
        let mut block = self.spare.pop()?;
        block.clear();
        Some(block)
    }

    /// Puts a block behind the others.
    ///
    /// # Errors
    /// The block, where memory is refused: all is then as it was.
    pub(crate) fn push(
        &mut self,
        block: VecDeque<CompactFlight>,
    ) -> Result<(), VecDeque<CompactFlight>>
        requires { block.items ≡ [] → self.old ≡ [] }
        ensures { MatchResult result (λ _. self.new ≡ self.old ++ block.items)
            (λ b. (b.items ≡ block.items) × (self.new ≡ self.old)) }
    {
        if self.first.is_empty() {
            keep(&mut self.spare, mem::replace(&mut self.first, block));
            return Ok(());
        }
        match self.others.push_back(block) {
            Ok(()) => return Ok(()),
            Err(refused) => return Err(refused.value),
        }
    }
}

// Takes the next block, if there is one, in place of one that is empty.
#[inline(never)]
fn take_next(
    first: &mut VecDeque<CompactFlight>,
    others: &mut VecDeque<VecDeque<CompactFlight>>,
    spare: &mut Vec<VecDeque<CompactFlight>>,
)
    requires { first.old.items ≡ [] }
    ensures values { first.new.items ++ in_blocks others.new.items ≡ in_blocks others.old.items }
    ensures filled { AreFilled others.old.items → AreFilled others.new.items }
    ensures some { AreFilled others.old.items → first.new.items ≡ [] → others.new.items ≡ [] }
{
    if let Some(block) = others.pop_front() {
        keep(spare, mem::replace(first, block));
    }
}

// Keeps an emptied block. One of which there are enough, or for which memory is refused, is given back.
fn keep(spare: &mut Vec<VecDeque<CompactFlight>>, block: VecDeque<CompactFlight>) {
    if spare.len() < MOST_SPARE && spare.push(block).is_err() {}
}

/// How many flights of a ring arrive before tick `till`. It does not allocate.
pub(crate) fn count_before(ring: &VecDeque<CompactFlight>, till: u64) -> usize
    requires { Rises flight_cmp ring.now.items }
    ensures { result ≡ arriving_before till ring.now.items }
{
    ring.partition_point(
        |flight: &CompactFlight| -> bool
            ensures { result ≡ nat_lt flight.now.arrival till }
        { flight.place().0 < till },
    )
}

// The same of blocks, or the greatest number of a `usize`. None arrives behind a block of which not all do.
fn count_in(blocks: &VecDeque<VecDeque<CompactFlight>>, till: u64) -> usize
    requires { Rises flight_cmp (in_blocks blocks.now.items) }
    ensures { result ≡ min (arriving_before till (in_blocks blocks.now.items)) usize.MAX }
{
    let mut count: usize = 0;
    for i in 0..blocks.len() {
        let block = &blocks[i];
        let here = count_before(block, till);
        count = count.saturating_add(here);
        if here < block.len() {
            return count;
        }
    }
    count
}
