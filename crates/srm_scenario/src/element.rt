//! The elements of a scenario file's arrays.
ghost use Rattle.std.specs.Prelude.{◌≡◌, IfOk, IfErr, [], map};
ghost use Rattle.toml.specs.View.{table_view, items_view, view};
ghost use Rattle.srm_scenario.specs.Faults.{accepted, accepted_element, element_faults, IsFault};
ghost use Rattle.srm_scenario.specs.Described.{table_of};

use crate::fault::{Part, ScenarioFault};
use crate::version::Version;
use std::alloc::{AllocError, Global};
use toml::{Table, Value};

/// An element of one of the arrays.
pub(crate) trait Element: Sized + Drop {
    ghost use Rattle.std.specs.Prelude.{List};
    ghost use Rattle.srm_scenario.specs.declared.version.Version.{Version};
    ghost use Rattle.srm_scenario.specs.declared.rule.Rule.{Rule};
    ghost use Rattle.toml.specs.Data.{Members};

    // What its table is to have, in each version of the format.
    ghost rules: { Version → List Rule };

    // What such a table is read as.
    ghost reading: { Members → Self };

    /// Reads the element's table, if it fits the rules.
    fn read(alloc: Global, version: Version, table: &Table) -> Result<Option<Self>, AllocError>
        ensures { IfOk result (λ o. o ≡ accepted (rules version) reading (table_view table.now)) };
}

/// Reads the elements of an array. The first that does not fit the rules of its part is a fault.
pub(crate) fn read_elements<E: Element>(
    alloc: Global,
    part: Part,
    version: Version,
    values: &[Value],
) -> Result<Vec<E>, ScenarioFault>
    ensures no_fault { IfOk result (λ _. element_faults part (E.rules version) (map view values.now) ≡ []) }
    ensures read { IfOk result (λ elements. elements.items ≡ map (λ d. E.reading (table_of (view d))) values.now) }
    ensures fault { IfErr result (λ e. IsFault e (element_faults part (E.rules version) (map view values.now))) }
{
    let mut elements = Vec::new(alloc);
    for (place, value) in values.iter().enumerate() {
        let Some(element) = read_element(alloc, version, value)? else {
            return Err(ScenarioFault::BadKey { part, place });
        };
        elements.push(element)?;
    }
    Ok(elements)
}

/// Reads one element, if it is a table that fits the rules.
pub(crate) fn read_element<E: Element>(
    alloc: Global,
    version: Version,
    value: &Value,
) -> Result<Option<E>, AllocError>
    ensures { IfOk result (λ o. o ≡ accepted_element (E.rules version) E.reading (view value.now)) }
{
    match value {
        Value::Table(table) => E::read(alloc, version, table),
        _ => Ok(None),
    }
}
