//! Tables beside the rules of their keys, and the values at their keys.
ghost use Rattle.std.specs.Prelude.{◌≡◌, ◌≤◌, Some, None, MatchOption, map, is_some, nat_le, unwrap_or};
ghost use Rattle.std.specs.List.{list_any, list_all};
ghost use Rattle.std.specs.Str.{bytes_eq};
ghost use Rattle.toml.specs.Data.{as_array, get_member};
ghost use Rattle.toml.specs.View.{view, items_view, table_view};
ghost use Rattle.srm_scenario.specs.declared.rule.ValueKind.TheVariants.{Numbers, Each, Elements, Repeated};
ghost use Rattle.srm_scenario.specs.declared.file_key.FileKey.TheVariants.{Times, Every};
ghost use Rattle.srm_scenario.specs.KeyLimits.{most_times};
ghost use Rattle.srm_scenario.specs.Keys.{name_of};
ghost use Rattle.srm_scenario.specs.Rules.{fits_rules, has_only, is_met, is_kind, is_whole, is_text, spellings_of, times_repeated, times_said, count_made};
ghost use Rattle.srm_scenario.specs.Described.{number, whole_number_of, number_or, optional_number, array_at, says};

use crate::file_key::FileKey;
use crate::limits::MOST_TIMES;
use crate::rule::{Need, Rule, ValueKind, Words};
use toml::{Table, Value};

/// Whether the table has no unknown key, and each rule is met.
pub(crate) fn fits_rules(table: &Table, rules: &[Rule]) -> bool
    ensures { result ≡ fits_rules rules.now (table_view table.now) }
{
    has_only(table, rules) && are_met(table, rules)
}

/// Whether each rule is met.
fn are_met(table: &Table, rules: &[Rule]) -> bool
    ensures { result ≡ list_all (is_met (table_view table.now)) rules.now }
{
    rules.iter().all(|rule| is_met(table, *rule))
}

/// Whether these rules have the key.
pub fn is_known(key: &str, rules: &[Rule]) -> bool
    ensures { result ≡ list_any (λ r. bytes_eq (name_of r.key) key.now) rules.now }
{
    rules.iter().any(|rule| rule.key.name() == key)
}

/// Whether the table has no keys but those of the rules.
pub fn has_only(table: &Table, rules: &[Rule]) -> bool
    ensures { result ≡ has_only (map (λ r. name_of r.key) rules.now) (table_view table.now) }
{
    for (key, _value) in table.iter() {
        if !is_known(key.as_str(), rules) {
            return false;
        }
    }
    true
}

/// Whether what stands at a rule's key, if anything, is as it must be.
fn is_met(table: &Table, rule: Rule) -> bool
    ensures { result ≡ is_met (table_view table.now) rule }
{
    match table.get(rule.key.name()) {
        Some(value) => match rule.need {
            Need::Required | Need::Optional => is_kind(value, rule.kind),
            Need::Refused => false,
        },
        None => match rule.need {
            Need::Required => false,
            Need::Optional | Need::Refused => true,
        },
    }
}

/// Whether a value is of a kind.
pub fn is_kind(value: &Value, kind: ValueKind) -> bool
    ensures { result ≡ is_kind kind (view value.now) }
{
    match kind {
        ValueKind::Whole(low, high) => is_whole(value, low, high),
        ValueKind::Word(words) => is_word(value, words),
        ValueKind::Numbers(most, high) => are_numbers(value, most, high),
        ValueKind::Each(count, low, high) => are_each(value, count, low, high),
        ValueKind::Elements(most) => are_elements(value, most),
        ValueKind::Repeated(most) => are_repeated(value, most),
    }
}

/// The values of an array, if a value is one.
pub fn values_of(value: &Value) -> Option<&[Value]>
    ensures { MatchOption result (None ≡ as_array (view value.now))
        (λ values. Some (items_view values.now) ≡ as_array (view value.now)) }
{
    match value.as_array() {
        Some(values) => Some(values.as_slice()),
        None => None,
    }
}

/// For how many elements a value stands: for as many as its `times` says, and for itself alone where that does not say so
/// rightly.
pub fn times_repeated(value: &Value) -> u64
    ensures times { result ≡ times_repeated (view value.now) }
    ensures some { 1 ≤ result }
    ensures few { result ≤ most_times }
{
    match value {
        Value::Table(table) => times_in(table),
        _ => 1,
    }
}

/// For how many elements an element's table stands: for as many as its `times` says, and for itself alone where that does not say
/// so rightly.
pub fn times_in(table: &Table) -> u64
    ensures times { result ≡ times_said (optional_number (name_of Times) (table_view table.now)) }
    ensures some { 1 ≤ result }
    ensures few { result ≤ most_times }
{
    match optional_number(table, FileKey::Times) {
        Some(times) if times >= 1 && times <= MOST_TIMES => times,
        _ => 1,
    }
}

/// How far apart the elements are for which an element's table stands, as its `every` says: 1 where it does not.
pub fn every_in(table: &Table) -> u64
    ensures { result ≡ unwrap_or (optional_number (name_of Every) (table_view table.now)) 1 }
{
    optional_number(table, FileKey::Every).unwrap_or(1)
}

/// Whether values stand together for at most so many elements.
fn make_at_most(values: &[Value], most: u64) -> bool
    ensures { result ≡ nat_le (count_made (items_view values.now)) most }
{
    let mut left = most;
    for value in values {
        let times = times_repeated(value);
        if times > left {
            return false;
        }
        left -= times;
    }
    true
}

/// Whether a value is an array of elements that stand for at most so many.
fn are_repeated(value: &Value, most: u64) -> bool
    ensures { result ≡ is_kind (Repeated most) (view value.now) }
{
    match values_of(value) {
        Some(values) => make_at_most(values, most),
        None => false,
    }
}

/// Whether a value is an array of at most so many elements.
fn are_elements(value: &Value, most: u64) -> bool
    ensures { result ≡ is_kind (Elements most) (view value.now) }
{
    match values_of(value) {
        Some(values) => values.len() as u64 <= most,
        None => false,
    }
}

/// Whether a value is an array of at most so many whole numbers, none above `high`.
fn are_numbers(value: &Value, most: u64, high: u64) -> bool
    ensures { result ≡ is_kind (Numbers most high) (view value.now) }
{
    match values_of(value) {
        Some(values) => values.len() as u64 <= most && are_whole(values, 0, high),
        None => false,
    }
}

/// Whether a value is an array of exactly so many whole numbers from `low` to `high`.
fn are_each(value: &Value, count: u64, low: u64, high: u64) -> bool
    ensures { result ≡ is_kind (Each count low high) (view value.now) }
{
    match values_of(value) {
        Some(values) => values.len() as u64 == count && are_whole(values, low, high),
        None => false,
    }
}

/// Whether each value is a whole number from `low` to `high`.
fn are_whole(values: &[Value], low: u64, high: u64) -> bool
    ensures { result ≡ list_all (λ v. is_whole low high (view v)) values.now }
{
    values.iter().all(|value| is_whole(value, low, high))
}

/// Whether a value is a whole number from `low` to `high`.
fn is_whole(value: &Value, low: u64, high: u64) -> bool
    ensures { result ≡ is_whole low high (view value.now) }
{
    match whole_number_of(value) {
        Some(number) => low <= number && number <= high,
        None => false,
    }
}

/// Whether a value is this text.
fn is_text(value: &Value, word: &str) -> bool
    ensures { result ≡ is_text word.now (view value.now) }
{
    match value {
        Value::String(text) => text.as_str() == word,
        _ => false,
    }
}

/// Whether a value is a word of a set.
fn is_word(value: &Value, words: Words) -> bool
    ensures { result ≡ list_any (λ w. is_text w (view value.now)) (spellings_of words) }
{
    match words {
        Words::Roles => {
            is_text(value, "sender")
                || is_text(value, "receiver")
                || is_text(value, "late")
                || is_text(value, "listener")
        }
        Words::Topologies => {
            is_text(value, "chain") || is_text(value, "star") || is_text(value, "tree")
        }
        Words::TopologiesAndParents => {
            is_text(value, "chain")
                || is_text(value, "star")
                || is_text(value, "tree")
                || is_text(value, "parents")
        }
    }
}

/// The whole number that a value is, if it is one.
pub fn whole_number_of(value: &Value) -> Option<u64>
    ensures { result ≡ whole_number_of (view value.now) }
{
    match value {
        Value::Integer(number) if *number >= 0 => Some(*number as u64),
        _ => None,
    }
}

/// The whole number at a key, if there is one.
pub(crate) fn optional_number(table: &Table, key: FileKey) -> Option<u64>
    ensures { result ≡ optional_number (name_of key) (table_view table.now) }
{
    match table.get(key.name()) {
        Some(value) => whole_number_of(value),
        None => None,
    }
}

/// The whole number at a key, or 0.
pub fn number(table: &Table, key: FileKey) -> u64
    ensures { result ≡ number (name_of key) (table_view table.now) }
{
    optional_number(table, key).unwrap_or(0)
}

/// The whole number at a key, or that at another key where there is none.
pub(crate) fn number_or(table: &Table, key: FileKey, other: FileKey) -> u64
    ensures { result ≡ number_or (name_of key) (name_of other) (table_view table.now) }
{
    match optional_number(table, key) {
        Some(number) => number,
        None => number(table, other),
    }
}

/// Whether the table has a key.
pub fn has_key(table: &Table, key: FileKey) -> bool
    ensures { result ≡ is_some (get_member (name_of key) (table_view table.now)) }
{
    table.get(key.name()).is_some()
}

/// Whether this word stands at a key.
pub fn says(table: &Table, key: FileKey, word: &str) -> bool
    ensures { result ≡ says (name_of key) word.now (table_view table.now) }
{
    match table.get(key.name()) {
        Some(value) => is_text(value, word),
        None => false,
    }
}

/// The values of the array at a key: none where no array is there.
pub fn array(table: &Table, key: FileKey) -> &[Value]
    ensures { map view result.now ≡ array_at (name_of key) (table_view table.now) }
{
    match table.get(key.name()) {
        Some(value) => match values_of(value) {
            Some(values) => values,
            None => &[],
        },
        None => &[],
    }
}
