//! Passes: leave to take from a bag, and with the whole of them to put into it.
ghost use Rattle.std.specs.Prelude.{◌≡◌, [], MatchOption};
ghost use Rattle.srm_crew.specs.Passes.{IsLastTaken};

use crate::rule::{Hold, Spot};
use std::marker::Model;

/// The weights of all passes of a bag, added up.
pub const WHOLE: u64 = srm_ledger::seat::WHOLE;

/// Leave to take items from a bag. It has a weight, knows what was put, and lists the indices of the items that it took.
#[derive(Drop)]
pub struct Pass<T> {
    pub(crate) hold: crossbeam_queue::Pass<Spot<T>, Hold<T>>,
    pub(crate) room: usize,
    pub(crate) weight: u64,
    pub(crate) puts: usize,
    pub(crate) taken: Vec<usize>,
}

impl<T> Model for Pass<T> {
    ghost use Rattle.std.specs.Prelude.{◌≡◌, ◌≤◌, [], length, vec_capacity};
    ghost use Rattle.crossbeam_queue.specs.Passes.{view as known};
    ghost use Rattle.srm_ledger.specs.Weights.{whole_weight};
    ghost use Rattle.srm_crew.specs.Indices.{hold_of};
    ghost use Rattle.srm_crew.specs.Passes.{PassView};

    ghost Value = { PassView T };

    ghost view = { λ p. record {
      bag = p.hold.table_id;
      weight = p.weight;
      put = (known p.hold).put;
      taken = p.taken.items;
    } };

    ghost invariant = { λ p. (p.hold.me.1 ≡ []) × (known p.hold ≡ hold_of p.weight (known p.hold).put p.taken.items)
        × (p.puts ≡ length (known p.hold).put) × (p.puts ≤ p.room) × (p.room ≤ vec_capacity p.taken)
        × (p.room ≡ p.hold.table_id.slots) × (1 ≤ p.weight) × (p.weight ≤ whole_weight) };
}

impl<T> Pass<T> {
    /// The index of the item that it took last, if it took any.
    pub fn last(&self) -> Option<usize>
        ensures { MatchOption result (self.now.taken ≡ []) (λ index. IsLastTaken index self.now) }
    {
        if self.taken.is_empty() {
            return None;
        }
        Some(self.taken[self.taken.len() - 1])
    }
}
