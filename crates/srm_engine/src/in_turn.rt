//! Lists, merged.
ghost use Rattle.std.specs.Prelude.{Bool, IfOk, IsPermutation, All, map};
ghost use Rattle.std.specs.List.Sorted.{IsSortedBy};
ghost use Rattle.std.specs.Cmp.{IsStrictWeakOrder};
ghost use Rattle.srm_interfaces.specs.Grouped.{all_in};

use itertools::{Itertools, MergePredicate};
use std::alloc::{AllocError, Global};

/// What is in lists, merged: always next is an item that stands first in its list, and that none of the others comes before. Items
/// are moved; an only list is let through as it is.
pub(crate) fn in_turn<T: Drop, F: MergePredicate<T>>(
    alloc: Global,
    lists: Vec<Vec<T>>,
    first: F,
) -> Result<Vec<T>, AllocError>
    requires can { F.can_test first }
    ensures all { IfOk result (λ all. IsPermutation (all_in lists.items) all.items) }
    ensures in_order { (lt : T → T → Bool) → F.computes first lt → IsStrictWeakOrder lt
        → All (IsSortedBy lt) (map (λ l. l.items) lists.items) → IfOk result (λ all. IsSortedBy lt all.items) }
{
    let mut lists = lists;
    if lists.len() > 1 {
        return lists
            .into_iter()
            .kmerge_by(alloc, first)?
            .collect_vec(alloc);
    }
    match lists.pop() {
        Some(only) => Ok(only),
        None => Ok(Vec::new(alloc)),
    }
}
