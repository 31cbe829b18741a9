//! A bag of items, each with an index, from which threads take the oldest.
ghost use Rattle.std.specs.Prelude.{◌≡◌, ◌<◌, ◌≤◌, ◌+◌, ◌++◌, ◌⊎◌, ◌↔◌, ℕ, Some, length, slice_get, vec_capacity};
ghost use Rattle.std.specs.Prelude.{IfOk, MatchOption, MatchResult};
ghost use Rattle.srm_net.specs.Limits.{most_nodes};
ghost use Rattle.srm_crew.specs.Indices.{EachOnce, AllBelow};
ghost use Rattle.srm_crew.specs.Passes.{PassView, fresh_pass, with_put, with_taken, half_with_list, half_without_list};
ghost use Rattle.srm_crew.specs.Passes.{both_passes, TellsPut, TellsTake, TellsEmpty, TookEachAtMostOnce};

use crate::bag_fault::{BagFault, EmptyFault, PutFault, SplitFault};
use crate::pass::{Pass, WHOLE};
use crate::rule::{Both, Fits, Halves, Hold, Puts, Spot, StandOnce, TakesSpot};
use crate::taken::Taken;
use crossbeam_queue::RuledArrayQueue;
use srm_net::sequence::Sequence;
use std::alloc::Global;
use std::marker::Model;
use std::sync::Wait;

/// A bag of items. Each item has an index: how many were put before it.
#[derive(Drop)]
pub struct Bag<T> {
    queue: RuledArrayQueue<Spot<T>, Hold<T>, StandOnce>,
    room: usize,
}

impl<T> Model for Bag<T> {
    ghost use Rattle.std.specs.Prelude.{◌≡◌};
    ghost use Rattle.crossbeam_queue.specs.Passes.{ruled_capacity};
    ghost use Rattle.srm_crew.specs.Passes.{BagView};

    ghost Value = { BagView };

    ghost view = { λ b. record { name = b.queue.table.shared.table_id; room = b.room } };

    ghost invariant = { λ b. ruled_capacity b.queue ≡ b.room };
}

impl<T> Bag<T> {
    /// An empty bag, into which `room` items can be put in all, and its one pass.
    ///
    /// # Errors
    /// `NoMemory`.
    pub fn open(alloc: Global, room: usize) -> Result<(Bag<T>, Pass<T>), BagFault>
        requires { (1 ≤ room) × (room ≤ most_nodes) }
        ensures { IfOk result (λ r. (r.0.room ≡ room) × (r.1 ≡ fresh_pass r.0.name)) }
    {
        let Ok(taken) = Vec::with_capacity(alloc, room) else {
            return Err(BagFault::NoMemory);
        };
        let Ok((queue, hold)) = RuledArrayQueue::ruled(alloc, room) else {
            return Err(BagFault::NoMemory);
        };
        let pass = Pass {
            hold,
            room,
            weight: WHOLE,
            puts: 0,
            taken,
        };
        Ok((Bag { queue, room }, pass))
    }

    /// Puts an item, which has the next index. Only the whole pass puts, and no more than the room in all. It does not allocate.
    ///
    /// # Errors
    /// Refused exactly where one of these is so, the first first: `NotWhole`, the pass is not the whole; `Full`, as many items
    /// were put as there is room for. The item comes back, and the pass is as it was.
    pub fn put<R: Wait>(&self, rt: &R, pass: &mut Pass<T>, item: T) -> Result<(), (T, PutFault)>
        requires { pass.old.bag ≡ self.now.name }
        ensures bag { pass.new.bag ≡ pass.old.bag }
        ensures put { TellsPut self.now.room pass.old item result pass.new }
    {
        if pass.weight < WHOLE {
            return Err((item, PutFault::NotWhole));
        }
        if pass.puts == self.room {
            return Err((item, PutFault::Full));
        }
        let spot = Spot {
            index: pass.puts,
            item,
        };
        self.queue
            .push_as::<Puts, R>(rt, &mut pass.hold, spot)
            .unwrap();
        pass.puts += 1;
        Ok(())
    }

    /// An item that was put, as it is written the oldest left. Its index is above all in the pass's list, and goes to its end. At
    /// `None` a whole pass has taken every item; as it is written, the queue was empty at one moment of the call. It does not
    /// allocate.
    pub fn take<R: Wait>(&self, rt: &R, pass: &mut Pass<T>) -> Option<T>
        requires { pass.old.bag ≡ self.now.name }
        ensures bag { pass.new.bag ≡ pass.old.bag }
        ensures taken { TellsTake pass.old result pass.new }
    {
        let Spot { index, item } = self.queue.pop_as::<TakesSpot, R>(rt, &mut pass.hold)?;
        pass.taken.push_reserved(index);
        Some(item)
    }

    /// Two passes of half the weight each, the larger one first, which keeps the list.
    ///
    /// # Errors
    /// `TooManySeats` exactly where the pass's weight is 1, and `NoMemory` only where it is more. The pass comes back as it was.
    pub fn split(
        &self,
        alloc: Global,
        pass: Pass<T>,
    ) -> Result<(Pass<T>, Pass<T>), (Pass<T>, SplitFault)>
        requires { pass.bag ≡ self.now.name }
        ensures { MatchResult result
            (λ h. (2 ≤ pass.weight) × (h.0 ≡ half_with_list pass) × (h.1 ≡ half_without_list pass))
            (λ e. (e.0 ≡ pass) × (e.1 ≡ SplitFault.TooManySeats ↔ pass.weight ≡ 1)) }
    {
        if pass.weight < 2 {
            return Err((pass, SplitFault::TooManySeats));
        }
        let Ok(new_taken) = Vec::with_capacity(alloc, pass.room) else {
            return Err((pass, SplitFault::NoMemory));
        };
        let Pass {
            hold: mut mine,
            room,
            weight,
            puts,
            taken,
        } = pass;
        let theirs = self.queue.another::<Halves>(&mut mine);
        let half = weight / 2;
        let first = Pass {
            hold: mine,
            room,
            weight: weight - half,
            puts,
            taken,
        };
        let second = Pass {
            hold: theirs,
            room,
            weight: half,
            puts,
            taken: new_taken,
        };
        Ok((first, second))
    }

    /// The weights are added, and the second list goes to the end of the first. It does not allocate.
    pub fn join(&self, first: Pass<T>, second: Pass<T>) -> Pass<T>
        requires first { first.bag ≡ self.now.name }
        requires second { second.bag ≡ self.now.name }
        ensures both { result ≡ both_passes first second }
        ensures fit { TookEachAtMostOnce result }
    {
        let Pass {
            hold: mut mine,
            room,
            weight,
            puts,
            mut taken,
        } = first;
        let Pass {
            hold: theirs,
            room: _,
            weight: other_weight,
            puts: _,
            taken: other_taken,
        } = second;
        self.queue.absorb::<Both>(&mut mine, theirs);
        // This look shows that the two weigh no more than the whole, and took no item twice.
        self.queue.learn_as::<Fits>(&mut mine);
        append(&mut taken, &other_taken);
        Pass {
            hold: mine,
            room,
            weight: weight + other_weight,
            puts,
            taken,
        }
    }

    /// The list of the whole pass, where as many items were taken as put. It does not allocate.
    ///
    /// # Errors
    /// Refused exactly where one of these is so, the first first: `NotWhole`, the pass is not the whole; `NotEmpty`, fewer items
    /// were taken than put. Bag and pass come back as they were.
    pub fn empty(self, pass: Pass<T>) -> Result<Taken, (Bag<T>, Pass<T>, EmptyFault)>
    where
        T: Drop,
        requires { pass.bag ≡ self.name }
        ensures { TellsEmpty self pass result }
    {
        if pass.weight < WHOLE {
            return Err((self, pass, EmptyFault::NotWhole));
        }
        if pass.taken.len() < pass.puts {
            return Err((self, pass, EmptyFault::NotEmpty));
        }
        let Pass {
            hold: mut mine,
            room: _,
            weight: _,
            puts: _,
            taken,
        } = pass;
        self.queue.learn_as::<TakesSpot>(&mut mine);
        Ok(Taken {
            indices: Sequence::from_vec(taken),
        })
    }
}

// The numbers of the second list go to the end of the first, which has room for them.
fn append(to: &mut Vec<usize>, more: &Vec<usize>)
    requires { length to.old.items + length more.now.items ≤ vec_capacity to.old }
    ensures items { to.new.items ≡ to.old.items ++ more.now.items }
    ensures room { vec_capacity to.new ≡ vec_capacity to.old }
{
    for i in 0..more.len() {
        to.push_reserved(more[i]);
    }
}
