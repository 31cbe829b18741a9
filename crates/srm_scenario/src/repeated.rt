//! Elements that may stand for several.
ghost use Rattle.std.specs.Prelude.{◌≡◌, ◌++◌, ◌+◌, ◌*◌, ◌-◌, ◌^◌, ◌≤◌, true, false, Some, None, IfOk, IfErr, IsTrue, MatchOption, [], map, flat_map, nat_le, if◌then◌else◌};
ghost use Rattle.std.specs.List.{list_all};
ghost use Rattle.toml.specs.View.{view, table_view};
ghost use Rattle.srm_scenario.specs.Described.{array_at, copies, every_of, repeated, repeated_at, version_of};
ghost use Rattle.srm_scenario.specs.Faults.{repeated_faults, IsFault};
ghost use Rattle.srm_scenario.specs.Keys.{name_of};

use crate::element::{Element, read_element};
use crate::fault::{Part, ScenarioFault};
use crate::file_key::FileKey;
use crate::table::{array, every_in, times_repeated};
use crate::version::Version;
use std::alloc::{AllocError, Global};
use toml::{Table, Value};

/// An element that may stand for several.
pub(crate) trait Repeated: Element {
    ghost use Rattle.std.specs.Prelude.{ℕ, Bool};

    // Its copies by their numbers, counted from 0, and how far apart they are.
    ghost copy: { ℕ → ℕ → Self → Self };

    // Whether the numbers that rise from copy to copy are in their ranges.
    ghost in_range: { Self → Bool };

    /// The copy of a number, if its numbers are in range.
    fn copied(&self, alloc: Global, k: u64, every: u64) -> Result<Option<Self>, AllocError>
        ensures { IfOk result (λ o. o ≡ (if in_range (copy k every self.now) then Some (copy k every self.now) else None)) };
}

/// A number that is higher by a step, if it is at most the last one.
pub(crate) fn risen(first: u64, step: u128, last: u64) -> Option<u64>
    requires { step ≤ (2 ^ 64 - 1) * (2 ^ 64 - 1) }
    ensures { MatchOption result (nat_le (first + step) last ≡ false)
        (λ n. (n ≡ first + step) × (nat_le (first + step) last ≡ true)) }
{
    let higher = u128::from(first) + step;
    if higher <= u128::from(last) {
        Some(higher as u64)
    } else {
        None
    }
}

/// By how much the copy of a number is higher, where copies are so far apart.
pub(crate) fn step_of(k: u64, every: u64) -> u128
    ensures step { result ≡ k * every }
    ensures few { result ≤ (2 ^ 64 - 1) * (2 ^ 64 - 1) }
{
    u128::from(k) * u128::from(every)
}

/// How far apart the elements are for which a value stands.
fn every_of(value: &Value) -> u64
    ensures { result ≡ every_of (view value.now) }
{
    match value {
        Value::Table(table) => every_in(table),
        _ => 1,
    }
}

/// Appends so many copies of an element, up to the first whose numbers pass their ranges, and answers whether none does.
fn push_copies<E: Repeated>(
    alloc: Global,
    elements: &mut Vec<E>,
    element: &E,
    times: u64,
    every: u64,
) -> Result<bool, AllocError>
    ensures fit { IfOk result (λ fit. fit ≡ list_all E.in_range (copies (λ k. E.copy k every element.now) 0 times)) }
    ensures pushed { IfOk result (λ fit. IsTrue fit
        → elements.new.items ≡ elements.old.items ++ copies (λ k. E.copy k every element.now) 0 times) }
{
    for k in 0..times {
        let Some(copy) = element.copied(alloc, k, every)? else {
            return Ok(false);
        };
        elements.push(copy)?;
    }
    Ok(true)
}

/// Reads what the elements of an array stand for, one after the other. The first that does not fit the rules of its part, or stands
/// for one whose numbers pass their ranges, is a fault.
fn read_repeated<E: Repeated>(
    alloc: Global,
    part: Part,
    version: Version,
    values: &[Value],
) -> Result<Vec<E>, ScenarioFault>
    ensures no_fault { IfOk result (λ _. repeated_faults part (E.rules version) E.reading E.copy E.in_range
        (map view values.now) ≡ []) }
    ensures read { IfOk result (λ elements. elements.items ≡ flat_map (λ v. repeated E.copy E.reading (view v)) values.now) }
    ensures fault { IfErr result (λ e. IsFault e (repeated_faults part (E.rules version) E.reading E.copy E.in_range
        (map view values.now))) }
{
    let mut elements = Vec::new(alloc);
    for (place, value) in values.iter().enumerate() {
        let Some(element) = read_element::<E>(alloc, version, value)? else {
            return Err(ScenarioFault::BadKey { part, place });
        };
        let fit = push_copies(
            alloc,
            &mut elements,
            &element,
            times_repeated(value),
            every_of(value),
        )?;
        if !fit {
            return Err(ScenarioFault::BadKey { part, place });
        }
    }
    Ok(elements)
}

/// Reads what the elements of the array at a key stand for, as the version of the table has them.
pub(crate) fn read_array<E: Repeated>(
    alloc: Global,
    part: Part,
    version: Version,
    table: &Table,
    key: FileKey,
) -> Result<Vec<E>, ScenarioFault>
    requires { version_of (table_view table.now) ≡ version }
    ensures no_fault { let ms = table_view table.now in IfOk result (λ _. repeated_faults part (E.rules (version_of ms))
        E.reading E.copy E.in_range (array_at (name_of key) ms) ≡ []) }
    ensures read { IfOk result (λ elements. elements.items
        ≡ repeated_at (name_of key) E.copy E.reading (table_view table.now)) }
    ensures fault { let ms = table_view table.now in IfErr result (λ e. IsFault e (repeated_faults part
        (E.rules (version_of ms)) E.reading E.copy E.in_range (array_at (name_of key) ms))) }
{
    read_repeated(alloc, part, version, array(table, key))
}
