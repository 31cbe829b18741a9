//! The rows of all members, merged.
ghost use Rattle.std.specs.Prelude.{◌≡◌, ◌++◌, List, IfOk, OnOk, length};
ghost use Rattle.std.specs.Ordering.{is_lt};
ghost use Rattle.srm_member.specs.declared.row.Row.{Row as OneRow};
ghost use Rattle.srm_interfaces.specs.Grouped.{all_in, sizes};
ghost use Rattle.srm_interfaces.specs.InTurn.{KeepInTurn};
ghost use Rattle.srm_model.specs.World.{row_cmp};

use crate::in_turn::in_turn;
use srm_member::row::Row;
use std::alloc::{AllocError, Global};
use std::mem;

/// The rows of all members, moved out, in order of their keys: whatever the rows are, where each member's list has those of its own.
pub(crate) fn merge(alloc: Global, groups: &mut [Vec<Vec<Row>>]) -> Result<Vec<Row>, AllocError>
    ensures each { sizes groups.new ≡ sizes groups.old }
    ensures rows { (rows : List OneRow) → KeepInTurn (λ list own. list.items ≡ own) (all_in groups.old) rows
        → IfOk result (λ all. all.items ≡ rows) }
{
    let mut lists = Vec::new(alloc);
    for group in groups.iter_mut() {
        take_out(alloc, group.as_mut_slice(), &mut lists)?;
    }
    in_turn(
        alloc,
        lists,
        |a: &Row, b: &Row| -> bool
            ensures { result ≡ is_lt (row_cmp a.now b.now) }
        { comes_first(a, b) },
    )
}

// Moves the rows of a group's members out, behind lists.
fn take_out(
    alloc: Global,
    group: &mut [Vec<Row>],
    lists: &mut Vec<Vec<Row>>,
) -> Result<(), AllocError>
    ensures many { length group.new ≡ length group.old }
    ensures moved { OnOk result (lists.new.items ≡ lists.old.items ++ group.old) }
{
    for own in group.iter_mut() {
        lists.push(mem::replace(own, Vec::new(alloc)))?;
    }
    Ok(())
}

// Whether a row has the lesser key.
fn comes_first(a: &Row, b: &Row) -> bool
    ensures { result ≡ is_lt (row_cmp a.now b.now) }
{
    a.key.cmp(&b.key).is_lt()
}
