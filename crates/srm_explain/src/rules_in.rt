//! The rules of a part of a file.
ghost use Rattle.std.specs.Prelude.{◌≡◌, true, IfOk, is_some, codes};
ghost use Rattle.std.specs.List.{list_any};
ghost use Rattle.toml.specs.Data.{get_member};
ghost use Rattle.toml.specs.View.{table_view};
ghost use Rattle.srm_explain.specs.Findings.{allows, rules_for, rules_in, rules_with, FollowsSentence, first_version_with, IsReason, IsReasonSince, IsReasonOfForm, IsReasonOfKind, IsReasonOfUnknown, IsTopologyReason, is_for_parents, is_shaped};

use crate::finding::Finding;
use srm_scenario::fault::Part;
use srm_scenario::file_key::FileKey;
use srm_scenario::form::Form;
use srm_scenario::parts::Constants;
use srm_scenario::rule::{Need, Rule, ValueKind, Words};
use srm_scenario::rules::{
    draw_rules, drop_rules, link_rules, loss_rules, member_rules, outage_rules, session_rules,
    top_rules,
};
use srm_scenario::table::{has_key, is_known, number, says};
use srm_scenario::top::{constants_of, form_of};
use srm_scenario::version::Version;
use std::alloc::{AllocError, Global};
use toml::Table;

/// The rules of a part of a file, where this is its top table.
///
/// # Errors
/// Memory ran out.
pub(crate) fn rules_in(alloc: Global, part: Part, top: &Table) -> Result<Vec<Rule>, AllocError>
    ensures { IfOk result (λ rules. rules.items ≡ rules_in part (table_view top.now)) }
{
    rules_for(alloc, Version::of(number(top, FileKey::Version)), part, top)
}

// The rules of a part in a version of the format, where this is the top table.
fn rules_for(
    alloc: Global,
    version: Version,
    part: Part,
    top: &Table,
) -> Result<Vec<Rule>, AllocError>
    ensures { IfOk result (λ rules. rules.items ≡ rules_for version part (table_view top.now)) }
{
    rules_with(alloc, version, part, constants_of(top), form_of(top))
}

/// The rules of a part in a version of the format, where the top table has these constants and this form.
///
/// # Errors
/// Memory ran out.
pub(crate) fn rules_with(
    alloc: Global,
    version: Version,
    part: Part,
    first: Constants,
    form: Form,
) -> Result<Vec<Rule>, AllocError>
    ensures { IfOk result (λ rules. rules.items ≡ rules_with version part first form) }
{
    match part {
        Part::Top => Vec::from_slice(alloc, &top_rules(version, first, form)),
        Part::Link => Vec::from_slice(alloc, &link_rules(version)),
        Part::Member => Vec::from_slice(alloc, &member_rules(version)),
        Part::Draw => Vec::from_slice(alloc, &draw_rules(version)),
        Part::Session => Vec::from_slice(alloc, &session_rules(version)),
        Part::Drop => Vec::from_slice(alloc, &drop_rules(version)),
        Part::Outage => Vec::from_slice(alloc, &outage_rules(version)),
        Part::Loss => Vec::from_slice(alloc, &loss_rules(version)),
    }
}

// Whether rules allow a key.
fn allows(rules: &[Rule], key: FileKey) -> bool
    ensures { result ≡ allows rules.now key }
{
    rules.iter().any(|rule| rule.key.name() == key.name() && !matches!(rule.need, Need::Refused))
}

/// What follows the sentence of a finding: of a key that is not allowed the reason, and of an unknown one whether the top
/// table has it.
///
/// # Errors
/// Memory ran out.
pub(crate) fn reason_after(
    alloc: Global,
    part: Part,
    top: &Table,
    finding: &Finding,
) -> Result<&'static str, AllocError>
    ensures { IfOk result (λ reason. FollowsSentence part (table_view top.now) finding.now reason.now) }
{
    match finding {
        Finding::Refused(rule) => reason_for(alloc, part, top, rule.key),
        Finding::Wrong(rule) => Ok(reason_of_kind(top, rule.kind)),
        Finding::Unknown { key, .. } => reason_of_unknown(alloc, top, key.as_str()),
        _ => Ok(""),
    }
}

// What follows the sentence of an unknown key: of one of the top table, that it is one.
fn reason_of_unknown(alloc: Global, top: &Table, key: &str) -> Result<&'static str, AllocError>
    ensures { IfOk result (λ reason. IsReasonOfUnknown (table_view top.now) key.now reason.now) }
{
    let rules = rules_in(alloc, Part::Top, top)?;
    if is_known(key, &rules) {
        return Ok("\n  it is a key of the top table, whose keys come before the first [[..]]");
    }
    Ok("")
}

// What follows the sentence of a value that is not of its rule's kind: of a topology that a later version has, that it has it.
fn reason_of_kind(top: &Table, kind: ValueKind) -> &'static str
    ensures { IsReasonOfKind (table_view top.now) kind result.now }
{
    match kind {
        ValueKind::Word(Words::Topologies) if says(top, FileKey::Topology, "parents") =>
            "; version 3 has \"parents\" too",
        _ => "",
    }
}

// Whether a key says something of the parents of nodes, or of the links to them.
fn is_for_parents(key: FileKey) -> bool
    ensures { result ≡ is_for_parents key }
{
    matches!(key, FileKey::Parent | FileKey::Delays | FileKey::Backs)
}

// Why a key is not allowed in a table that names a topology.
fn topology_reason(top: &Table, key: FileKey) -> &'static str
    requires { is_shaped (table_view top.now) ≡ true }
    ensures { IsTopologyReason (table_view top.now) key result.now }
{
    if matches!(key, FileKey::Degree) {
        " unless topology is \"tree\""
    } else if matches!(key, FileKey::Size) && says(top, FileKey::Topology, "parents") {
        " beside parent: there is one node more than parents"
    } else if matches!(key, FileKey::Delay) && has_key(top, FileKey::Delays) {
        " beside delays"
    } else if matches!(key, FileKey::Back) && has_key(top, FileKey::Backs) {
        " beside backs"
    } else {
        " beside topology"
    }
}

// Whether a version has a key of a part.
fn has_in(
    alloc: Global,
    version: Version,
    part: Part,
    top: &Table,
    key: FileKey,
) -> Result<bool, AllocError>
    ensures { IfOk result (λ has. has ≡ allows (rules_for version part (table_view top.now)) key) }
{
    let rules = rules_for(alloc, version, part, top)?;
    Ok(allows(&rules, key))
}

// The first version after version 1 that has a key of a part, if one has it.
fn first_version_with(
    alloc: Global,
    part: Part,
    top: &Table,
    key: FileKey,
) -> Result<Option<Version>, AllocError>
    ensures { IfOk result (λ since. since ≡ first_version_with part (table_view top.now) key) }
{
    if has_in(alloc, Version::Two, part, top, key)? {
        return Ok(Some(Version::Two));
    }
    if has_in(alloc, Version::Three, part, top, key)? {
        return Ok(Some(Version::Three));
    }
    if has_in(alloc, Version::Four, part, top, key)? {
        return Ok(Some(Version::Four));
    }
    if has_in(alloc, Version::Five, part, top, key)? {
        return Ok(Some(Version::Five));
    }
    Ok(None)
}

// Why a key is not allowed that no version has beside such a topology.
fn reason_of_form(top: &Table, key: FileKey) -> &'static str
    ensures { IsReasonOfForm (table_view top.now) key result.now }
{
    if is_for_parents(key) && !says(top, FileKey::Topology, "parents") {
        " unless topology is \"parents\", which version 3 has"
    } else if !has_key(top, FileKey::Topology) {
        " without topology"
    } else {
        topology_reason(top, key)
    }
}

// Why a key is not allowed, where this is the first version after version 1 that has it.
fn reason_since(since: Option<Version>, top: &Table, key: FileKey) -> &'static str
    ensures { IsReasonSince since (table_view top.now) key result.now }
{
    match since {
        Some(Version::Two) => " in version 1; version 2 has it",
        Some(Version::Three) => " in this version; version 3 has it",
        Some(Version::Four) => " in this version; version 4 has it",
        Some(Version::Five) => " in this version; version 5 has it",
        Some(Version::One) | None => reason_of_form(top, key),
    }
}

// Why a key of this part is not allowed, where its rule refuses it.
fn reason_for(
    alloc: Global,
    part: Part,
    top: &Table,
    key: FileKey,
) -> Result<&'static str, AllocError>
    ensures { IfOk result (λ reason. IsReason part (table_view top.now) key reason.now) }
{
    let since = first_version_with(alloc, part, top, key)?;
    Ok(reason_since(since, top, key))
}
