//! What is said of what is wrong with the keys of a table.
ghost use Rattle.std.specs.Prelude.{◌≡◌, IfOk, string_bytes};
ghost use Rattle.srm_scenario.specs.declared.rule.ValueKind.TheVariants.{Word};
ghost use Rattle.srm_explain.specs.Findings.{allowed, below_sentence, item_sentence, keys_of, length_sentence, passed_sentence, sentence_of, word_of};

use crate::finding::Finding;
use crate::keys::array_key;
use srm_scenario::fault::Part;
use srm_scenario::rule::{Need, Rule, ValueKind, Words};
use std::alloc::{AllocError, Global};

/// What is said of what is wrong with a table beside these rules.
///
/// # Errors
/// Memory ran out.
pub(crate) fn sentence_of(
    alloc: Global,
    rules: &[Rule],
    finding: &Finding,
) -> Result<String, AllocError>
    ensures { IfOk result (λ s. string_bytes s ≡ sentence_of rules.now finding.now) }
{
    match finding {
        Finding::NoTable => {
            let keys = keys_of(alloc, rules)?;
            format!(in alloc; "this is no table\n  the keys of one here are{keys}")
        }
        Finding::Unknown { near, .. } => match near {
            None => {
                let keys = keys_of(alloc, rules)?;
                format!(in alloc; "there is no such key here\n  the keys here are{keys}")
            }
            Some(near) => {
                let keys = keys_of(alloc, rules)?;
                let near = near.name();
                format!(in alloc;
                    "there is no such key here; did you mean {near}?\n  the keys here are{keys}"
                )
            }
        },
        Finding::Missing(rule) => {
            let name = rule.key.name();
            let allowed = allowed(alloc, rule.kind)?;
            format!(in alloc; "{name} is missing: it is {allowed}")
        }
        Finding::Below { rule, part, place } => below_sentence(alloc, *rule, *part, *place),
        Finding::Wrong(rule) => {
            let name = rule.key.name();
            let allowed = allowed(alloc, rule.kind)?;
            format!(in alloc; "{name} is {allowed}")
        }
        Finding::BadItem { rule, item } => item_sentence(alloc, *rule, *item),
        Finding::BadLength { rule, length } => length_sentence(alloc, *rule, *length),
        Finding::Refused(rule) => {
            let name = rule.key.name();
            format!(in alloc; "{name} is not allowed")
        }
        Finding::Passed { rule, copy, number } => passed_sentence(alloc, *rule, *copy, *number),
    }
}

// What is said of a key that stands in an element of a part.
fn below_sentence(alloc: Global, rule: Rule, part: Part, place: usize) -> Result<String, AllocError>
    ensures { IfOk result (λ s. string_bytes s ≡ below_sentence rule part place) }
{
    let name = rule.key.name();
    let word = word_of(part);
    let told = format!(in alloc;
        "{name} is missing: it stands in {word} {place}, and keys of the top table come before the first [[{word}]]"
    )?;
    Ok(told)
}

/// The name of the array whose elements a part is; empty of the top table.
pub(crate) fn word_of(part: Part) -> &'static str
    ensures { result.now ≡ word_of part }
{
    match array_key(part) {
        Some(key) => key.name(),
        None => "",
    }
}

// What is said of a copy whose number passes the range of its key's rule.
fn passed_sentence(alloc: Global, rule: Rule, copy: u64, number: u128) -> Result<String, AllocError>
    ensures { IfOk result (λ s. string_bytes s ≡ passed_sentence rule copy number) }
{
    let name = rule.key.name();
    let allowed = allowed(alloc, rule.kind)?;
    let told = format!(in alloc;
        "{name} is {allowed}; copy {copy}, counted from 0, would have {number}"
    )?;
    Ok(told)
}

// What is said of an element of an array that its key may not hold.
fn item_sentence(alloc: Global, rule: Rule, item: usize) -> Result<String, AllocError>
    ensures { IfOk result (λ s. string_bytes s ≡ item_sentence rule item) }
{
    let name = rule.key.name();
    let allowed = allowed(alloc, rule.kind)?;
    let told = format!(in alloc;
        "{name} is {allowed}; element {item} of it, counted from 0, is none"
    )?;
    Ok(told)
}

// What is said of how many elements an array has, or for how many they stand.
fn length_sentence(alloc: Global, rule: Rule, length: u64) -> Result<String, AllocError>
    ensures { IfOk result (λ s. string_bytes s ≡ length_sentence rule length) }
{
    let name = rule.key.name();
    let allowed = allowed(alloc, rule.kind)?;
    let told = format!(in alloc; "{name} is {allowed}; these are {length}")?;
    Ok(told)
}

// What a key may hold.
fn allowed(alloc: Global, kind: ValueKind) -> Result<String, AllocError>
    ensures { IfOk result (λ s. string_bytes s ≡ allowed kind) }
{
    match kind {
        ValueKind::Whole(low, high) => {
            let allowed = format!(in alloc; "a whole number from {low} to {high}")?;
            Ok(allowed)
        }
        ValueKind::Word(words) => {
            let allowed = String::from_str(alloc, allowed_words(words))?;
            Ok(allowed)
        }
        ValueKind::Numbers(most, high) => {
            let allowed = format!(in alloc;
                "an array of at most {most} whole numbers from 0 to {high}"
            )?;
            Ok(allowed)
        }
        ValueKind::Each(count, low, high) => {
            let allowed = format!(in alloc;
                "an array with one number for each of {count} links, from {low} to {high}"
            )?;
            Ok(allowed)
        }
        ValueKind::Elements(most) => {
            let allowed = format!(in alloc; "an array of at most {most} tables")?;
            Ok(allowed)
        }
        ValueKind::Repeated(most) => {
            let allowed = format!(in alloc; "an array of tables that stand for at most {most}")?;
            Ok(allowed)
        }
    }
}

// The words that a key may hold.
fn allowed_words(words: Words) -> &'static str
    ensures { result.now ≡ allowed (Word words) }
{
    match words {
        Words::Roles => "one of \"sender\", \"receiver\", \"late\", \"listener\"",
        Words::Topologies => "one of \"chain\", \"star\", \"tree\"",
        Words::TopologiesAndParents => "one of \"chain\", \"star\", \"tree\", \"parents\"",
    }
}

// The keys that rules allow, each with a space in front.
fn keys_of(alloc: Global, rules: &[Rule]) -> Result<String, AllocError>
    ensures { IfOk result (λ s. string_bytes s ≡ keys_of rules.now) }
{
    let mut keys = String::new(alloc);
    for rule in rules {
        if !matches!(rule.need, Need::Refused) {
            keys.push_str(" ")?;
            keys.push_str(rule.key.name())?;
        }
    }
    Ok(keys)
}
