//! What is wrong with the keys of a table, beside the rules of its part.
ghost use Rattle.std.specs.Prelude.{◌≡◌, false, Some, None, IfOk, IfSome, option_map};
ghost use Rattle.toml.specs.Data.{get_member};
ghost use Rattle.toml.specs.View.{table_view, view};
ghost use Rattle.srm_scenario.specs.declared.rule.Need.TheVariants.{Required};
ghost use Rattle.srm_scenario.specs.Keys.{name_of};
ghost use Rattle.srm_scenario.specs.Rules.{is_kind};
ghost use Rattle.srm_explain.specs.Findings.{array_key, element_of, BreaksKind, FindsAt, FindsIn, IsBroken, IsFinding};

use crate::arrays::broken_array;
use crate::below::{Place, below};
use crate::finding::Finding;
use crate::nearest::nearest;
use crate::passing::passed_in;
use srm_scenario::fault::Part;
use srm_scenario::file_key::FileKey;
use srm_scenario::rule::{Need, Rule};
use srm_scenario::table::{array, has_only, is_kind, is_known, values_of};
use std::alloc::{AllocError, Global};
use toml::{Table, Value};

/// What is wrong with the table at a place of a part, by the rules of that part. The first of these that applies is told: it is
/// no table; a key of it is none of the part's; what stands at a key breaks its rule, by the first such rule; a key is missing,
/// by the first such rule; it stands for several, and the number at a key passes its range in one of them, by the first such
/// rule. Where none applies nothing is told.
///
/// # Errors
/// Memory ran out.
pub(crate) fn finding_at(
    alloc: Global,
    top: &Table,
    part: Part,
    place: usize,
    rules: &[Rule],
) -> Result<Option<Finding>, AllocError>
    ensures { IfOk result (λ f. IfSome f (FindsAt rules.now part place (table_view top.now))) }
{
    let Some(key) = array_key(part) else {
        return finding_of(alloc, top, rules);
    };
    match element_at(top, key, place) {
        Some(value) => finding_of_value(alloc, value, rules),
        None => Ok(None),
    }
}

// The element at a place of the array at a key.
fn element_at(top: &Table, key: FileKey, place: usize) -> Option<&Value>
    ensures { option_map (λ v. view v.now) result ≡ element_of (Some key) place (table_view top.now) }
{
    array(top, key).get(place)
}

// What is wrong with an element beside these rules, if something is.
fn finding_of_value(
    alloc: Global,
    value: &Value,
    rules: &[Rule],
) -> Result<Option<Finding>, AllocError>
    ensures { IfOk result (λ f. IfSome f (FindsIn rules.now (view value.now))) }
{
    match value {
        Value::Table(table) => finding_of(alloc, table, rules),
        _ => Ok(Some(Finding::NoTable)),
    }
}

/// The key of the array whose elements a part is.
pub(crate) fn array_key(part: Part) -> Option<FileKey>
    ensures { result ≡ array_key part }
{
    match part {
        Part::Top => None,
        Part::Link => Some(FileKey::Link),
        Part::Member => Some(FileKey::Member),
        Part::Draw => Some(FileKey::Draw),
        Part::Session => Some(FileKey::Session),
        Part::Drop => Some(FileKey::Drop),
        Part::Outage => Some(FileKey::Outage),
        Part::Loss => Some(FileKey::Loss),
    }
}

// What is wrong with a table beside these rules, if something is.
fn finding_of(alloc: Global, table: &Table, rules: &[Rule]) -> Result<Option<Finding>, AllocError>
    ensures { IfOk result (λ f. IfSome f (IsFinding rules.now (table_view table.now))) }
{
    if has_only(table, rules) {
        return Ok(match wrong_in(table, rules) {
            Some(found) => Some(found),
            None => match missing_in(table, rules) {
                Some(found) => Some(found),
                None => passed_in(table, rules),
            },
        });
    }
    for (key, _value) in table.iter() {
        if !is_known(key.as_str(), rules) {
            let near = nearest(alloc, key.as_str(), rules)?;
            let key = key.clone()?;
            return Ok(Some(Finding::Unknown { key, near }));
        }
    }
    Ok(None)
}

// The first of these rules that what stands at its key breaks, if one is.
fn wrong_in(table: &Table, rules: &[Rule]) -> Option<Finding>
    ensures { IfSome result (IsFinding rules.now (table_view table.now)) }
{
    for rule in rules {
        let found = wrong_at(table, *rule);
        if found.is_some() {
            return found;
        }
    }
    None
}

// How what stands at a rule's key breaks the rule, if it does.
fn wrong_at(table: &Table, rule: Rule) -> Option<Finding>
    ensures { IfSome result (IsBroken rule (table_view table.now)) }
{
    match table.get(rule.key.name()) {
        None => None,
        Some(value) => match rule.need {
            Need::Refused => Some(Finding::Refused(rule)),
            Need::Required | Need::Optional => {
                if is_kind(value, rule.kind) {
                    None
                } else {
                    Some(broken_value(value, rule))
                }
            }
        },
    }
}

// How a value breaks the kind of a rule.
fn broken_value(value: &Value, rule: Rule) -> Finding
    requires { is_kind rule.kind (view value.now) ≡ false }
    ensures { BreaksKind rule (view value.now) result }
{
    match broken_elements(value, rule) {
        Some(found) => found,
        None => Finding::Wrong(rule),
    }
}

// How the elements of an array break the kind of a rule, if a value is one and they do.
fn broken_elements(value: &Value, rule: Rule) -> Option<Finding>
    ensures { IfSome result (BreaksKind rule (view value.now)) }
{
    let values = values_of(value)?;
    broken_array(values, rule)
}

// The first of these rules whose key the table lacks, if one is.
fn missing_in(table: &Table, rules: &[Rule]) -> Option<Finding>
    ensures { IfSome result (IsFinding rules.now (table_view table.now)) }
{
    for rule in rules {
        let found = missing_at(table, *rule);
        if found.is_some() {
            return found;
        }
    }
    None
}

// That the table lacks a rule's key, if it does.
fn missing_at(table: &Table, rule: Rule) -> Option<Finding>
    ensures { IfSome result (IsBroken rule (table_view table.now)) }
{
    match table.get(rule.key.name()) {
        Some(_) => None,
        None => match rule.need {
            Need::Required => Some(lacking(table, rule)),
            Need::Optional | Need::Refused => None,
        },
    }
}

// That the table lacks the key of a rule, and in which element that stands, if it stands in one.
fn lacking(table: &Table, rule: Rule) -> Finding
    requires need { rule.need ≡ Required }
    requires lacks { get_member (name_of rule.key) (table_view table.now) ≡ None }
    ensures { IsBroken rule (table_view table.now) result }
{
    match below(table, rule.key) {
        Some(Place { part, place }) => Finding::Below { rule, part, place },
        None => Finding::Missing(rule),
    }
}
