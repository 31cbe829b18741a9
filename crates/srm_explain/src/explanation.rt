//! Explanations of refused scenarios.
ghost use Rattle.std.specs.Prelude.{◌≡◌, IfOk, IfSome, string_bytes};
ghost use Rattle.srm_scenario.specs.declared.fault.ScenarioFault.TheVariants.{BadKey, NotToml, NotTree};
ghost use Rattle.toml.specs.View.{table_view};
ghost use Rattle.srm_explain.specs.Copies.{IsCopied};
ghost use Rattle.srm_explain.specs.Findings.{TellsNotes};
ghost use Rattle.srm_explain.specs.Explanations.{general_sentence, note, written_in, Explains, ExplainsMisfit, IsCopyNote, TellsBroken, TellsFlaws};

use crate::copies::{Copied, copied_at, copy_sentence, risen_numbers};
use crate::finding::Finding;
use crate::flaw::Flaw;
use crate::flaw_sentence::flaw_notes;
use crate::flaws::flaws_in;
use crate::general::general_sentence;
use crate::keys::{array_key, finding_at};
use crate::misfit_sentence::misfit_sentence;
use crate::misfits::misfit_of;
use crate::parsed_text::ParsedText;
use crate::picture::picture_of;
use crate::pictures::{picture_of_finding, picture_of_flaw, picture_of_value};
use crate::rules_in::{reason_after, rules_in};
use crate::sentence::sentence_of;
use crate::span::Span;
use srm_scenario::draft::Draft;
use srm_scenario::fault::{Part, ScenarioFault};
use srm_scenario::file_key::FileKey;
use srm_scenario::rule::Rule;
use srm_scenario::table::{array, says};
use std::alloc::{AllocError, Global};
use toml::Table;

/// Explains why a text is refused with this fault: some lines, each with its line feed.
///
/// # Errors
/// [`AllocError`].
pub fn explain(alloc: Global, fault: ScenarioFault, text: &[u8]) -> Result<String, AllocError>
    ensures { IfOk result (λ told. Explains fault text.now (string_bytes told)) }
{
    match fault {
        ScenarioFault::NotToml => explain_toml(alloc, text),
        ScenarioFault::BadKey { part, place } => explain_key(alloc, part, place, text),
        ScenarioFault::NotTree => explain_tree(alloc, text),
        ScenarioFault::BadMember { place } => explain_misfit(
            alloc,
            fault,
            Part::Member,
            place,
            text,
        ),
        ScenarioFault::BadDraw { place } => explain_misfit(alloc, fault, Part::Draw, place, text),
        ScenarioFault::BadSession { place } => explain_misfit(
            alloc,
            fault,
            Part::Session,
            place,
            text,
        ),
        ScenarioFault::BadDrop { place } => explain_misfit(alloc, fault, Part::Drop, place, text),
        ScenarioFault::BadOutage { place } => explain_misfit(
            alloc,
            fault,
            Part::Outage,
            place,
            text,
        ),
        ScenarioFault::BadLoss { place } => explain_misfit(alloc, fault, Part::Loss, place, text),
        _ => general(alloc, fault),
    }
}

// What can be said of a fault without its text.
fn general(alloc: Global, fault: ScenarioFault) -> Result<String, AllocError>
    ensures { IfOk result (λ told. string_bytes told ≡ note (general_sentence fault)) }
{
    let sentence = general_sentence(fault);
    format!(in alloc; "  {sentence}\n")
}

// Explains why a text is no TOML, with the words of the library that reads it.
fn explain_toml(alloc: Global, text: &[u8]) -> Result<String, AllocError>
    ensures { IfOk result (λ told. Explains NotToml text.now (string_bytes told)) }
{
    let Err(error) = toml::table_from_slice(alloc, text) else {
        return general(alloc, ScenarioFault::NotToml);
    };
    let Some(range) = error.span() else {
        return Err(AllocError);
    };
    let picture = picture_of(
        alloc,
        text,
        Span {
            start: range.start,
            end: range.end,
        },
    )?;
    let message = error.message();
    format!(in alloc; "{picture}  {message}\n")
}

// Explains what is wrong with the keys of a table.
fn explain_key(alloc: Global, part: Part, place: usize, text: &[u8]) -> Result<String, AllocError>
    ensures { IfOk result (λ told. Explains (BadKey part place) text.now (string_bytes told)) }
{
    let Ok(top) = toml::table_from_slice(alloc, text) else {
        return general(alloc, ScenarioFault::BadKey { part, place });
    };
    let rules = rules_in(alloc, part, &top)?;
    let Some(finding) = finding_at(alloc, &top, part, place, &rules)? else {
        return general(alloc, ScenarioFault::BadKey { part, place });
    };
    let picture = picture_of_finding(alloc, text, part, place, &finding)?;
    let notes = notes_of(alloc, part, &top, &rules, &finding)?;
    let told = format!(in alloc; "{picture}{notes}")?;
    Ok(told)
}

// Explains which rule the element at a place of a part breaks beside the rest of the scenario.
fn explain_misfit(
    alloc: Global,
    fault: ScenarioFault,
    part: Part,
    place: usize,
    text: &[u8],
) -> Result<String, AllocError>
    ensures { IfOk result (λ told. ExplainsMisfit fault part place text.now (string_bytes told)) }
{
    let Ok(top) = toml::table_from_slice(alloc, text) else {
        return general(alloc, fault);
    };
    let Ok(draft) = Draft::read(alloc, &top) else {
        return general(alloc, fault);
    };
    let parsed = ParsedText {
        text,
        top: &top,
        draft: &draft,
    };
    let Some(told) = told_of_misfit(alloc, fault, part, place, parsed)? else {
        return general(alloc, fault);
    };
    Ok(told)
}

// The line in which the value stands that breaks a rule, which rule it is, and which copy of an element, if a rule is broken.
fn told_of_misfit(
    alloc: Global,
    fault: ScenarioFault,
    part: Part,
    place: usize,
    parsed: ParsedText,
) -> Result<Option<String>, AllocError>
    ensures { IfOk result (λ told. IfSome told (λ t. TellsBroken parsed.entry.draft.now fault
        (written_in part (table_view parsed.entry.top.now)) place (string_bytes t))) }
{
    let Some(misfit) = misfit_of(parsed.draft, fault) else {
        return Ok(None);
    };
    let copied = copied_in(parsed.top, part, place);
    let written = place_in_text(copied, place);
    let picture = picture_of_value(alloc, parsed.text, part, written, misfit.key(part))?;
    let sentence = misfit_sentence(alloc, misfit)?;
    let note = format!(in alloc; "  {sentence}\n")?;
    let copy = copy_note(alloc, parsed.draft, fault, copied)?;
    let told = format!(in alloc; "{picture}{note}{copy}")?;
    Ok(Some(told))
}

// Which copy of which element of the text the element at a place of a part is, if it is known.
fn copied_in(top: &Table, part: Part, place: usize) -> Option<Copied>
    ensures { IfSome result (IsCopied (written_in part (table_view top.now)) place) }
{
    match array_key(part) {
        Some(key) => copied_at(array(top, key), place),
        None => None,
    }
}

// The place in the text of the element of a place, where it is this copy.
fn place_in_text(copied: Option<Copied>, place: usize) -> usize {
    match copied {
        Some(copied) => copied.written,
        None => place,
    }
}

// The line that tells which copy the element of a fault is, where it is one of several.
fn copy_note(
    alloc: Global,
    draft: &Draft,
    fault: ScenarioFault,
    copied: Option<Copied>,
) -> Result<String, AllocError>
    ensures { IfOk result (λ told. IsCopyNote draft.now fault copied (string_bytes told)) }
{
    let Some(copied) = copied else {
        return Ok(String::new(alloc));
    };
    if copied.times == 1 {
        return Ok(String::new(alloc));
    }
    let Some(numbers) = risen_numbers(alloc, draft, fault)? else {
        return Ok(String::new(alloc));
    };
    let sentence = copy_sentence(alloc, copied, numbers.as_str())?;
    let told = format!(in alloc; "  {sentence}\n")?;
    Ok(told)
}

// Explains why the links make no tree of the nodes.
fn explain_tree(alloc: Global, text: &[u8]) -> Result<String, AllocError>
    ensures { IfOk result (λ told. Explains NotTree text.now (string_bytes told)) }
{
    let Ok(top) = toml::table_from_slice(alloc, text) else {
        return general(alloc, ScenarioFault::NotTree);
    };
    let Ok(draft) = Draft::read(alloc, &top) else {
        return general(alloc, ScenarioFault::NotTree);
    };
    let parents = says(&top, FileKey::Topology, "parents");
    let flaws = flaws_in(alloc, &draft, parents)?;
    let Some(told) = told_of_flaws(alloc, text, &flaws)? else {
        return general(alloc, ScenarioFault::NotTree);
    };
    Ok(told)
}

// The line in which the first of these reasons stands, and what is said of each, if there is one.
fn told_of_flaws(alloc: Global, text: &[u8], flaws: &[Flaw]) -> Result<Option<String>, AllocError>
    ensures { IfOk result (λ told. IfSome told (λ t. TellsFlaws flaws.now (string_bytes t))) }
{
    if flaws.is_empty() {
        return Ok(None);
    }
    let picture = picture_of_flaw(alloc, text, &flaws[0])?;
    let notes = flaw_notes(alloc, flaws)?;
    let told = format!(in alloc; "{picture}{notes}")?;
    Ok(Some(told))
}

// The lines below the picture of a finding.
fn notes_of(
    alloc: Global,
    part: Part,
    top: &Table,
    rules: &[Rule],
    finding: &Finding,
) -> Result<String, AllocError>
    ensures { IfOk result (λ s. TellsNotes rules.now part (table_view top.now) finding.now (string_bytes s)) }
{
    let sentence = sentence_of(alloc, rules, finding)?;
    let reason = reason_after(alloc, part, top, finding)?;
    let notes = format!(in alloc; "  {sentence}{reason}\n")?;
    Ok(notes)
}
