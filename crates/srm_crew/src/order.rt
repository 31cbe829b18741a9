//! Results, put in order.
ghost use Rattle.std.specs.Prelude.{◌≡◌, ◌<◌, ℕ, length, Some, slice_get, slice_index, IfOk};
ghost use Rattle.srm_crew.specs.Indices.{EachOnce};
ghost use Rattle.srm_crew.specs.Shared.{InOrder};

use srm_team::fault::TeamFault;
use srm_team::slots::{collect, empty_slots};
use std::alloc::{AllocError, Global};

// Puts each result into the slot of its index.
fn scatter<D: Drop>(indices: &[usize], slots: &mut Vec<Option<D>>, mut results: Vec<D>)
    requires once { EachOnce indices.now (length results.items) }
    requires indices { length indices.now ≡ length results.items }
    requires slots { length slots.old.items ≡ length results.items }
    ensures long { length slots.new.items ≡ length results.items }
    ensures filled { (k : ℕ) → k < length results.items
        → slice_get slots.new.items (slice_index indices.now k) ≡ Some (slice_get results.items k) }
{
    while let Some(last) = results.pop() {
        slots[indices[results.len()]] = Some(last);
    }
}

/// Each result, at its index.
pub(crate) fn in_order<D: Drop>(
    alloc: Global,
    indices: &[usize],
    results: Vec<D>,
) -> Result<Vec<D>, AllocError>
    requires once { EachOnce indices.now (length results.items) }
    requires indices { length indices.now ≡ length results.items }
    ensures { IfOk result (λ v. InOrder indices.now results.items v.items) }
{
    let mut slots = empty_slots(alloc, results.len())?;
    scatter(indices, &mut slots, results);
    match collect(alloc, slots) {
        Ok(all) => Ok(all),
        Err(fault) => {
            // Each slot is full, so what is refused is memory.
            prove!(fault != TeamFault::Left);
            Err(AllocError)
        }
    }
}
