//! An index of timers by time.
ghost use Rattle.std.specs.Prelude.{◌≡◌, [], OnErr, OnOk, false, true, cond};
ghost use Rattle.std.specs.Ordering.{eq_by_cmp};
ghost use Rattle.srm_member.specs.declared.due.Due.{Due as D};
ghost use Rattle.srm_member.specs.Record.{due_cmp};
ghost use Rattle.srm_member.specs.Pending.{has, IsFirst};

use crate::due::Due;
use std::alloc::{AllocError, Global};
use std::cmp::Ordering;
use std::collections::BTreeSet;
use std::marker::Model;

/// Timers in the order of time, rank and name, which contracts see as a list.
///
/// The first stands apart: mostly it is the only one, and a set asks for memory for 15 at once.
#[derive(Debug, Drop)]
pub struct Index {
    first: Option<Due>,
    others: BTreeSet<Due>,
}

impl Model for Index {
    ghost use Rattle.std.specs.Prelude.{List, ◌++◌};
    ghost use Rattle.std.specs.Option.{option_to_list};
    ghost use Rattle.srm_member.specs.declared.due.Due.{Due as Timer};
    ghost use Rattle.srm_member.specs.Pending.{Leads};

    ghost Value = { List Timer };

    ghost view = { λ t. option_to_list t.first ++ t.others.keys };

    ghost invariant = { λ t. Leads t.first t.others.keys };
}

impl Index {
    /// No timer. It does not allocate.
    pub fn new(alloc: Global) -> Self
        ensures { result ≡ [] }
    {
        Index {
            first: None,
            others: BTreeSet::new(alloc),
        }
    }

    /// The first timer.
    pub fn first(&self) -> Option<Due>
        ensures { IsFirst self.now result }
    {
        self.first
    }

    /// Puts a timer in. After an error the index is as it was.
    pub fn insert(&mut self, due: Due) -> Result<(), AllocError>
        ensures ok { OnOk result ((d : D) → has self.new d ≡ cond (eq_by_cmp due_cmp due d) true (has self.old d)) }
        ensures err { OnErr result (self.new ≡ self.old) }
    {
        let Some(first) = self.first else {
            self.first = Some(due);
            return Ok(());
        };
        match due.cmp(&first) {
            Ordering::Less => {
                self.others.insert(first)?;
                self.first = Some(due);
            }
            Ordering::Equal => {}
            Ordering::Greater => {
                self.others.insert(due)?;
            }
        }
        Ok(())
    }

    /// Takes a timer out.
    pub fn remove(&mut self, due: Due)
        ensures { (d : D) → has self.new d ≡ cond (eq_by_cmp due_cmp due d) false (has self.old d) }
    {
        let Some(first) = self.first else {
            return;
        };
        if due.cmp(&first).is_eq() {
            self.first = self.others.pop_first();
        } else {
            self.others.remove(&due);
        }
    }
}
