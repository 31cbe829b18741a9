//! What is wrong with the elements of an array, or with their number.
ghost use Rattle.std.specs.Prelude.{◌≡◌, IfSome, map, sum_by};
ghost use Rattle.toml.specs.View.{view};
ghost use Rattle.srm_scenario.specs.Rules.{times_repeated};
ghost use Rattle.srm_explain.specs.Findings.{is_item, is_length, length_by, BreaksArray, IsBadItem};

use crate::finding::Finding;
use srm_scenario::rule::{Rule, ValueKind};
use srm_scenario::table::{is_kind, times_repeated};
use toml::Value;

/// How the elements of an array break the kind of a rule, as far as their number tells it, or one of them.
pub(crate) fn broken_array(values: &[Value], rule: Rule) -> Option<Finding>
    ensures { IfSome result (BreaksArray rule (map view values.now)) }
{
    let length = length_by(values, rule.kind)?;
    if !is_length(rule.kind, length) {
        return Some(Finding::BadLength { rule, length });
    }
    let item = bad_item(values, rule.kind)?;
    Some(Finding::BadItem { rule, item })
}

// How many values there are; where a kind says for how many they stand, for how many they do.
fn length_by(values: &[Value], kind: ValueKind) -> Option<u64>
    ensures { IfSome result (λ n. n ≡ length_by kind (map view values.now)) }
{
    match kind {
        ValueKind::Repeated(_) => made_by(values),
        _ => Some(values.len() as u64),
    }
}

// For how many elements values stand together.
fn made_by(values: &[Value]) -> Option<u64>
    ensures { IfSome result (λ n. n ≡ sum_by times_repeated (map view values.now)) }
{
    let mut made: u64 = 0;
    for value in values {
        made = made.checked_add(times_repeated(value))?;
    }
    Some(made)
}

// Whether an array of a kind may have so many elements, or stand for so many.
fn is_length(kind: ValueKind, length: u64) -> bool
    ensures { result ≡ is_length kind length }
{
    match kind {
        ValueKind::Each(count, _, _) => length == count,
        ValueKind::Numbers(most, _) => length <= most,
        ValueKind::Elements(most) | ValueKind::Repeated(most) => length <= most,
        ValueKind::Whole(_, _) | ValueKind::Word(_) => true,
    }
}

// Whether an array of a kind may have this element.
fn is_item(kind: ValueKind, value: &Value) -> bool
    ensures { result ≡ is_item kind (view value.now) }
{
    match kind {
        ValueKind::Numbers(_, high) => is_kind(value, ValueKind::Whole(0, high)),
        ValueKind::Each(_, low, high) => is_kind(value, ValueKind::Whole(low, high)),
        _ => true,
    }
}

// The place of the first element that an array of a kind may not have, if there is one.
fn bad_item(values: &[Value], kind: ValueKind) -> Option<usize>
    ensures { IfSome result (IsBadItem kind (map view values.now)) }
{
    for (item, value) in values.iter().enumerate() {
        if !is_item(kind, value) {
            return Some(item);
        }
    }
    None
}
