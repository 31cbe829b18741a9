//! Keys of the top table that stand in an element of one of its arrays.
ghost use Rattle.std.specs.Prelude.{◌≡◌, IfSome, map};
ghost use Rattle.toml.specs.View.{table_view, view};
ghost use Rattle.srm_explain.specs.Findings.{holds_key, HoldsAt, StandsBelow};

use crate::keys::array_key;
use srm_scenario::fault::Part;
use srm_scenario::file_key::FileKey;
use srm_scenario::table::{array, has_key};
use toml::{Table, Value};

/// An element of an array of the top table.
#[derive(Clone, Copy)]
pub(crate) struct Place {
    /// The array.
    pub(crate) part: Part,
    /// The place of the element.
    pub(crate) place: usize,
}

/// The parts that are elements of arrays.
const ELEMENTS: [Part; 7] = [
    Part::Link,
    Part::Member,
    Part::Draw,
    Part::Session,
    Part::Drop,
    Part::Outage,
    Part::Loss,
];

/// The first element of an array of a table that has this key, if there is one.
pub(crate) fn below(table: &Table, key: FileKey) -> Option<Place>
    ensures { IfSome result (λ at. StandsBelow (table_view table.now) key at.part at.place) }
{
    for part in ELEMENTS {
        if let Some(place) = place_in(table, part, key) {
            return Some(Place { part, place });
        }
    }
    None
}

// The place of the first element of a part that has this key, if there is one.
fn place_in(table: &Table, part: Part, key: FileKey) -> Option<usize>
    ensures { IfSome result (λ place. StandsBelow (table_view table.now) key part place) }
{
    let array_key = array_key(part)?;
    place_among(array(table, array_key), key)
}

// The place of the first of these values that is a table with this key, if there is one.
fn place_among(values: &[Value], key: FileKey) -> Option<usize>
    ensures { IfSome result (HoldsAt key (map view values.now)) }
{
    for (place, value) in values.iter().enumerate() {
        if holds_key(value, key) {
            return Some(place);
        }
    }
    None
}

// Whether a value is a table with this key.
fn holds_key(value: &Value, key: FileKey) -> bool
    ensures { result ≡ holds_key key (view value.now) }
{
    match value {
        Value::Table(table) => has_key(table, key),
        _ => false,
    }
}
