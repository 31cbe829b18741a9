//! What a watch keeps of the rows of all members.
ghost use Rattle.std.specs.Prelude.{◌≡◌, ◌<◌, ◌∷◌, [], All, IfOk, OnOk, OnErr, length};
ghost use Rattle.srm_interfaces.specs.Watches.{KeepMembers, KeepOn};

use crate::watch::Watch;
use srm_member::row::Row;
use std::alloc::{AllocError, Global};
use std::slice::from_ref;

/// What a watch keeps of no row, so many times.
///
/// # Errors
/// [`AllocError`].
pub fn none_of<K: Drop, W: Watch<K>>(
    alloc: Global,
    watch: &W,
    many: usize,
) -> Result<Vec<K>, AllocError>
    ensures many { IfOk result (λ own. length own.items ≡ many) }
    ensures none { IfOk result (λ own. All (λ k. W.keeps watch.now k []) own.items) }
{
    let mut own = Vec::with_capacity(alloc, many)?;
    for _ in 0..many {
        own.push(watch.none())?;
    }
    Ok(own)
}

/// What a watch keeps of each of so many members of these rows, in order of their numbers. Nothing is kept of other members.
///
/// # Errors
/// [`AllocError`].
pub fn kept_of<K: Drop, W: Watch<K>>(
    alloc: Global,
    watch: &W,
    members: usize,
    rows: &[Row],
) -> Result<Vec<K>, AllocError>
    ensures many { IfOk result (λ kept. length kept.items ≡ members) }
    ensures kept { IfOk result (λ kept. KeepMembers (W.keeps watch.now) 0 kept.items rows.now) }
{
    let mut kept = none_of(alloc, watch, members)?;
    take_rows(watch, kept.as_mut_slice(), rows)?;
    Ok(kept)
}

/// The watch takes in these rows, each behind those of its member before. Rows of members of whom nothing is kept are let be.
///
/// # Errors
/// [`AllocError`], only where there are rows: what is kept is of no more use.
pub(crate) fn take_rows<K, W: Watch<K>>(
    watch: &W,
    kept: &mut [K],
    rows: &[Row],
) -> Result<(), AllocError>
    ensures long { length kept.new ≡ length kept.old }
    ensures kept { OnOk result (KeepOn (W.keeps watch.now) kept.old rows.now kept.new) }
    ensures some { OnErr result (0 < length rows.now) }
{
    for row in rows {
        take_row(watch, kept, row)?;
    }
    Ok(())
}

// The same of one row.
fn take_row<K, W: Watch<K>>(watch: &W, kept: &mut [K], row: &Row) -> Result<(), AllocError>
    ensures long { length kept.new ≡ length kept.old }
    ensures kept { OnOk result (KeepOn (W.keeps watch.now) kept.old (row.now ∷ []) kept.new) }
{
    let member = usize::from(row.key.member);
    if member < kept.len() {
        watch.add(&mut kept[member], from_ref(row))?;
    }
    Ok(())
}
