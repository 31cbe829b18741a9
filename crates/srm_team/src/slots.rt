//! Slots that results are put into.
ghost use Rattle.std.specs.Prelude.{◌≡◌, length, map, Some, None, Err, Contains, IfOk, IfErr};
ghost use Rattle.srm_team.specs.Tells.{AllNone, IsMidway};

use crate::fault::TeamFault;
use std::alloc::{AllocError, Global};

/// So many empty slots.
///
/// # Errors
/// [`AllocError`].
pub fn empty_slots<D: Drop>(alloc: Global, count: usize) -> Result<Vec<Option<D>>, AllocError>
    ensures { IfOk result (λ v. (length v.items ≡ count) × AllNone v.items) }
{
    let mut slots: Vec<Option<D>> = Vec::new(alloc);
    for _ in 0..count {
        slots.push(None)?;
    }
    Ok(slots)
}

/// What the slots hold.
///
/// # Errors
/// `Left`, only where one is empty, or `NoMemory`.
pub fn collect<D: Drop>(alloc: Global, slots: Vec<Option<D>>) -> Result<Vec<D>, TeamFault>
    ensures held { IfOk result (λ v. map Some v.items ≡ slots.items) }
    ensures fault { IfErr result IsMidway }
    ensures left { result ≡ Err TeamFault.Left → Contains slots.items None }
{
    let mut all: Vec<D> = Vec::new(alloc);
    for slot in slots {
        let Some(result) = slot else {
            return Err(TeamFault::Left);
        };
        if all.push(result).is_err() {
            return Err(TeamFault::NoMemory);
        }
    }
    Ok(all)
}
