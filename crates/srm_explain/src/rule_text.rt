//! The rule of a key, as an object of JSON.
ghost use Rattle.std.specs.Prelude.{◌≡◌, IfOk, string_bytes};
ghost use Rattle.srm_explain.specs.RuleTexts.{bound_text, default_text, first_constants, kind_text, line_end, need_text, parents_listed, rule_lines, rule_text, span_text, words_text};

use srm_scenario::fault::Part;
use srm_scenario::file_key::FileKey;
use srm_scenario::parts::Constants;
use srm_scenario::rule::{Need, Rule, ValueKind, Words};
use std::alloc::{AllocError, Global};

/// The constants of a top table, by numbers that no file can have: they stand for what the table's keys hold.
pub(crate) const FIRST: Constants = Constants {
    c1: 9_223_372_036_854_775_808,
    c2: 9_223_372_036_854_775_809,
    d1: 9_223_372_036_854_775_810,
    d2: 9_223_372_036_854_775_811,
};

/// Such a number for how many parents there are.
pub(crate) const PARENTS: u64 = 9_223_372_036_854_775_812;

/// The rules of a table of a part, but for those of keys that must not be there: each in a line of its own, with commas between.
///
/// # Errors
/// Memory ran out.
pub(crate) fn rule_lines(alloc: Global, part: Part, rules: &[Rule]) -> Result<String, AllocError>
    ensures { IfOk result (λ s. string_bytes s ≡ rule_lines part rules.now) }
{
    let mut told = String::new(alloc);
    let mut is_first = true;
    for rule in rules {
        if !matches!(rule.need, Need::Refused) {
            let text = rule_text(alloc, part, *rule)?;
            told.push_str(line_end(is_first))?;
            told.push_str(text.as_str())?;
            is_first = false;
        }
    }
    Ok(told)
}

// What stands before a rule.
fn line_end(is_first: bool) -> &'static str
    ensures { result.now ≡ line_end is_first }
{
    if is_first { "\n" } else { ",\n" }
}

// The rule of a key of a part.
fn rule_text(alloc: Global, part: Part, rule: Rule) -> Result<String, AllocError>
    ensures { IfOk result (λ s. string_bytes s ≡ rule_text part rule) }
{
    let name = rule.key.name();
    let need = need_text(rule.need);
    let kind = kind_text(alloc, rule.kind)?;
    let default = default_text(part, rule.key);
    let told = format!(in alloc; "{{\"key\": \"{name}\", \"needed\": {need}, {kind}{default}}}")?;
    Ok(told)
}

// Whether a key must be there.
fn need_text(need: Need) -> &'static str
    ensures { result.now ≡ need_text need }
{
    match need {
        Need::Required => "true",
        Need::Optional | Need::Refused => "false",
    }
}

// What a key may hold.
fn kind_text(alloc: Global, kind: ValueKind) -> Result<String, AllocError>
    ensures { IfOk result (λ s. string_bytes s ≡ kind_text kind) }
{
    match kind {
        ValueKind::Whole(low, high) => {
            let span = span_text(alloc, low, high)?;
            let told = format!(in alloc; "\"type\": \"number\", {span}")?;
            Ok(told)
        }
        ValueKind::Word(words) => String::from_str(alloc, words_text(words)),
        ValueKind::Numbers(most, high) => {
            let span = span_text(alloc, 0, high)?;
            let told = format!(in alloc; "\"type\": \"numbers\", {span}, \"longest\": {most}")?;
            Ok(told)
        }
        ValueKind::Each(count, low, high) => {
            let span = span_text(alloc, low, high)?;
            let count = bound_text(alloc, count)?;
            let told = format!(in alloc; "\"type\": \"numbers\", {span}, \"length\": {count}")?;
            Ok(told)
        }
        ValueKind::Elements(most) => {
            let told = format!(in alloc; "\"type\": \"tables\", \"longest\": {most}")?;
            Ok(told)
        }
        ValueKind::Repeated(most) => {
            let told = format!(in alloc;
                "\"type\": \"tables\", \"longest\": {most}, \"repeated\": true"
            )?;
            Ok(told)
        }
    }
}

// The words that a key may hold.
fn words_text(words: Words) -> &'static str
    ensures { result.now ≡ words_text words }
{
    match words {
        Words::Roles =>
            "\"type\": \"word\", \"words\": [\"sender\", \"receiver\", \"late\", \"listener\"]",
        Words::Topologies => "\"type\": \"word\", \"words\": [\"chain\", \"star\", \"tree\"]",
        Words::TopologiesAndParents =>
            "\"type\": \"word\", \"words\": [\"chain\", \"star\", \"tree\", \"parents\"]",
    }
}

// From where to where numbers go.
fn span_text(alloc: Global, low: u64, high: u64) -> Result<String, AllocError>
    ensures { IfOk result (λ s. string_bytes s ≡ span_text low high) }
{
    let least = bound_text(alloc, low)?;
    let most = bound_text(alloc, high)?;
    let told = format!(in alloc; "\"least\": {least}, \"most\": {most}")?;
    Ok(told)
}

// A number; or the key of the same table that it stands for, of `parent` for how many it holds.
fn bound_text(alloc: Global, number: u64) -> Result<String, AllocError>
    ensures { IfOk result (λ s. string_bytes s ≡ bound_text number) }
{
    if number == FIRST.c1 {
        return String::from_str(alloc, "\"c1\"");
    }
    if number == FIRST.c2 {
        return String::from_str(alloc, "\"c2\"");
    }
    if number == FIRST.d1 {
        return String::from_str(alloc, "\"d1\"");
    }
    if number == FIRST.d2 {
        return String::from_str(alloc, "\"d2\"");
    }
    if number == PARENTS {
        return String::from_str(alloc, "\"parent\"");
    }
    let told = format!(in alloc; "{number}")?;
    Ok(told)
}

// What a key of a part is where it is not given, if it is a number then: a number, or the key whose number it is.
fn default_text(part: Part, key: FileKey) -> &'static str
    ensures { result.now ≡ default_text part key }
{
    match (part, key) {
        (Part::Top, FileKey::C1Least | FileKey::C1Most) => ", \"default\": \"c1\"",
        (Part::Top, FileKey::C2Least | FileKey::C2Most) => ", \"default\": \"c2\"",
        (Part::Top, FileKey::D1Least | FileKey::D1Most) => ", \"default\": \"d1\"",
        (Part::Top, FileKey::D2Least | FileKey::D2Most) => ", \"default\": \"d2\"",
        (Part::Top, FileKey::Backoff | FileKey::Steps) => ", \"default\": 2",
        (Part::Top, FileKey::Scope | FileKey::Widen) => ", \"default\": 0",
        (Part::Top, FileKey::Tries) => ", \"default\": 1",
        (Part::Link, FileKey::Back) => ", \"default\": \"delay\"",
        (Part::Member, FileKey::Join) => ", \"default\": 0",
        (Part::Loss, FileKey::Stream | FileKey::From) => ", \"default\": 0",
        (_, FileKey::Times | FileKey::Every) => ", \"default\": 1",
        _ => "",
    }
}
