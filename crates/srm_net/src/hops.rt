//! The hops from a member.
ghost use Rattle.std.specs.Prelude.{◌≡◌, ◌<◌, IfOk, IfSome, length, slice_get};
ghost use Rattle.std.specs.Arc.{arc_value};
ghost use Rattle.srm_net.specs.Limits.{most_nodes};
ghost use Rattle.srm_net.specs.Paths.{hops_from};

use crate::tree::Tree;
use std::alloc::AllocError;
use std::fmt;
use std::fmt::{Debug, Formatter, Write};
use std::marker::Model;
use std::sync::Arc;

/// How many hops each member in turn is from a member. Contracts see them as the list.
///
/// They are told on demand, from tables that they share with the network and with those of its other members.
#[derive(Drop)]
pub struct HopsFrom {
    tree: Arc<Tree>,
    member: u16,
}

impl Model for HopsFrom {
    ghost use Rattle.std.specs.Prelude.{ℕ, ◌<◌, List, length};
    ghost use Rattle.std.specs.Arc.{arc_value};
    ghost use Rattle.srm_net.specs.Paths.{hops_from};

    ghost Value = { List ℕ };

    ghost view = { λ h. hops_from (arc_value h.tree) h.member };

    ghost invariant = { λ h. h.member < length (arc_value h.tree).hosts };
}

impl HopsFrom {
    /// Those from a member.
    ///
    /// # Errors
    /// [`AllocError`], only where too many share the tables.
    pub(crate) fn of(tree: &Arc<Tree>, member: u16) -> Result<HopsFrom, AllocError>
        requires { member < length (arc_value tree.now).hosts }
        ensures { IfOk result (λ hs. hs ≡ hops_from (arc_value tree.now) member) }
    {
        Ok(HopsFrom {
            tree: Arc::try_clone(tree)?,
            member,
        })
    }

    /// How many hops a member is away, at most 65,534, or none where there is no such member. It takes a number of steps that
    /// grows as the logarithm of the number of nodes.
    pub fn get(&self, member: u16) -> Option<u16>
        ensures value { result ≡ slice_get self.now member }
        ensures bounded { IfSome result (λ n. n < most_nodes) }
    {
        if member < self.tree.members() {
            Some(self.tree.hops(self.member, member))
        } else {
            None
        }
    }
}

impl Debug for HopsFrom {
    fn fmt<W: Write>(&self, f: &mut Formatter<W>) -> fmt::Result {
        let mut list = f.debug_list();
        for member in 0..self.tree.members() {
            list.entry(&self.get(member));
        }
        list.finish()
    }
}
