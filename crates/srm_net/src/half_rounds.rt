//! Half the round trips of a member.
ghost use Rattle.std.specs.Prelude.{◌≡◌, ◌<◌, IfOk, length, slice_get};
ghost use Rattle.std.specs.Arc.{arc_value};
ghost use Rattle.srm_net.specs.Paths.{half_rounds_from};

use crate::tree::Tree;
use std::alloc::AllocError;
use std::fmt;
use std::fmt::{Debug, Formatter, Write};
use std::marker::Model;
use std::sync::Arc;

/// Half the round trip between a member and each member in turn, rounded down, in ticks. Contracts see them as the list.
///
/// They are told on demand, from tables that they share with the network and with those of its other members.
#[derive(Drop)]
pub struct HalfRounds {
    tree: Arc<Tree>,
    member: u16,
}

impl Model for HalfRounds {
    ghost use Rattle.std.specs.Prelude.{ℕ, ◌<◌, List, length};
    ghost use Rattle.std.specs.Arc.{arc_value};
    ghost use Rattle.srm_net.specs.Paths.{half_rounds_from};

    ghost Value = { List ℕ };

    ghost view = { λ h. half_rounds_from (arc_value h.tree) h.member };

    ghost invariant = { λ h. h.member < length (arc_value h.tree).hosts };
}

impl HalfRounds {
    /// Those of a member.
    ///
    /// # Errors
    /// [`AllocError`], only where too many share the tables.
    pub(crate) fn of(tree: &Arc<Tree>, member: u16) -> Result<HalfRounds, AllocError>
        requires { member < length (arc_value tree.now).hosts }
        ensures { IfOk result (λ ds. ds ≡ half_rounds_from (arc_value tree.now) member) }
    {
        Ok(HalfRounds {
            tree: Arc::try_clone(tree)?,
            member,
        })
    }

    /// Half the round trip to a member, rounded down, in ticks and at most 65,534,000,000, or none where there is no such member.
    /// It takes a number of steps that grows as the logarithm of the number of nodes.
    pub fn get(&self, member: u16) -> Option<u64>
        ensures { result ≡ slice_get self.now member }
    {
        if member < self.tree.members() {
            Some(self.tree.round(self.member, member) / 2)
        } else {
            None
        }
    }
}

impl Debug for HalfRounds {
    fn fmt<W: Write>(&self, f: &mut Formatter<W>) -> fmt::Result {
        let mut list = f.debug_list();
        for member in 0..self.tree.members() {
            list.entry(&self.get(member));
        }
        list.finish()
    }
}
