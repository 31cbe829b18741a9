//! The rules of scenario files as a JSON document.
ghost use Rattle.std.specs.Prelude.{◌≡◌, IfOk, string_bytes};
ghost use Rattle.srm_explain.specs.RuleDocument.{element_table, element_tables, elements_in, form_with, layout_text, layouts_in, number_of, rule_document, table_of, top_table, top_tables, version_text, version_texts};

use crate::rule_text::{FIRST, PARENTS, rule_lines};
use crate::rules_in::rules_with;
use crate::sentence::word_of;
use srm_scenario::bytes::LONGEST_TEXT;
use srm_scenario::fault::Part;
use srm_scenario::form::Form;
use srm_scenario::rule::Rule;
use srm_scenario::version::Version;
use std::alloc::{AllocError, Global};

/// What a top table says of its network, as its keys depend on it.
#[derive(Clone, Copy)]
pub(crate) enum Layout {
    /// Its links.
    Links,
    /// A chain or a star, and its size.
    Sized,
    /// A tree, and its size.
    Tree,
    /// The parents of its nodes.
    Parents {
        /// And a delay for each.
        delays: bool,
        /// And a delay in the other direction for each.
        backs: bool,
    },
}

/// The rules that the reader of scenarios has for each table, in each version of the format: which keys the table may have,
/// whether they must be there, and what they may hold. Keys that must not be there are left out.
///
/// # Errors
/// [`AllocError`].
pub fn rule_document(alloc: Global) -> Result<String, AllocError>
    ensures { IfOk result (λ s. string_bytes s ≡ rule_document) }
{
    let bytes = LONGEST_TEXT;
    let one = version_text(alloc, Version::One)?;
    let later = [Version::Two, Version::Three, Version::Four, Version::Five];
    let others = version_texts(alloc, &later)?;
    let told = format!(in alloc; "{{\"bytes\": {bytes}, \"versions\": [\n{one}{others}\n]}}\n")?;
    Ok(told)
}

// The tables of several versions, each after a comma.
fn version_texts(alloc: Global, versions: &[Version]) -> Result<String, AllocError>
    ensures { IfOk result (λ s. string_bytes s ≡ version_texts versions.now) }
{
    let mut told = String::new(alloc);
    for version in versions {
        let text = version_text(alloc, *version)?;
        told.push_str(",\n")?;
        told.push_str(text.as_str())?;
    }
    Ok(told)
}

// The number of a version.
fn number_of(version: Version) -> u64
    ensures { result ≡ number_of version }
{
    match version {
        Version::One => 1,
        Version::Two => 2,
        Version::Three => 3,
        Version::Four => 4,
        Version::Five => 5,
    }
}

// The tables of a version.
fn version_text(alloc: Global, version: Version) -> Result<String, AllocError>
    ensures { IfOk result (λ s. string_bytes s ≡ version_text version) }
{
    let number = number_of(version);
    let links = top_table(alloc, version, Layout::Links)?;
    let others = top_tables(alloc, version, layouts_in(version))?;
    let elements = element_tables(alloc, version, elements_in(version))?;
    let told = format!(in alloc;
        "{{\"version\": {number}, \"tables\": [\n{links}{others}{elements}\n]}}"
    )?;
    Ok(told)
}

// The layouts of a version beside links.
fn layouts_in(version: Version) -> &'static [Layout]
    ensures { result.now ≡ layouts_in version }
{
    if version.allows_parents() {
        &[
            Layout::Sized,
            Layout::Tree,
            Layout::Parents {
                delays: false,
                backs: false,
            },
            Layout::Parents {
                delays: false,
                backs: true,
            },
            Layout::Parents {
                delays: true,
                backs: false,
            },
            Layout::Parents {
                delays: true,
                backs: true,
            },
        ]
    } else {
        &[Layout::Sized, Layout::Tree]
    }
}

// The elements of a version.
fn elements_in(version: Version) -> &'static [Part]
    ensures { result.now ≡ elements_in version }
{
    if version.allows_losses() {
        &[
            Part::Link,
            Part::Member,
            Part::Draw,
            Part::Session,
            Part::Drop,
            Part::Outage,
            Part::Loss,
        ]
    } else if version.allows_outages() {
        &[
            Part::Link,
            Part::Member,
            Part::Draw,
            Part::Session,
            Part::Drop,
            Part::Outage,
        ]
    } else {
        &[
            Part::Link,
            Part::Member,
            Part::Draw,
            Part::Session,
            Part::Drop,
        ]
    }
}

// Top tables of these layouts, each after a comma.
fn top_tables(alloc: Global, version: Version, layouts: &[Layout]) -> Result<String, AllocError>
    ensures { IfOk result (λ s. string_bytes s ≡ top_tables version layouts.now) }
{
    let mut told = String::new(alloc);
    for layout in layouts {
        let table = top_table(alloc, version, *layout)?;
        told.push_str(",\n")?;
        told.push_str(table.as_str())?;
    }
    Ok(told)
}

// Elements of these parts, each after a comma.
fn element_tables(alloc: Global, version: Version, parts: &[Part]) -> Result<String, AllocError>
    ensures { IfOk result (λ s. string_bytes s ≡ element_tables version parts.now) }
{
    let mut told = String::new(alloc);
    for part in parts {
        let table = element_table(alloc, version, *part)?;
        told.push_str(",\n")?;
        told.push_str(table.as_str())?;
    }
    Ok(told)
}

// The top table of a layout.
fn top_table(alloc: Global, version: Version, layout: Layout) -> Result<String, AllocError>
    ensures { IfOk result (λ s. string_bytes s ≡ top_table version layout) }
{
    let rules = rules_with(alloc, version, Part::Top, FIRST, form_with(layout))?;
    let front = layout_text(layout);
    table_of(alloc, front, Part::Top, &rules)
}

// An element of a part, whose keys do not depend on the network.
fn element_table(alloc: Global, version: Version, part: Part) -> Result<String, AllocError>
    ensures { IfOk result (λ s. string_bytes s ≡ element_table version part) }
{
    let rules = rules_with(alloc, version, part, FIRST, form_with(Layout::Links))?;
    let word = word_of(part);
    let front = format!(in alloc; "\"table\": \"{word}\"")?;
    table_of(alloc, front.as_str(), part, &rules)
}

// A table of a part with these rules.
fn table_of(alloc: Global, front: &str, part: Part, rules: &[Rule]) -> Result<String, AllocError>
    ensures { IfOk result (λ s. string_bytes s ≡ table_of front.now part rules.now) }
{
    let lines = rule_lines(alloc, part, rules)?;
    let told = format!(in alloc; "{{{front}, \"keys\": [{lines}]}}")?;
    Ok(told)
}

// The form of a top table of this layout.
fn form_with(layout: Layout) -> Form
    ensures { result ≡ form_with layout }
{
    let links = Form {
        shaped: false,
        sized: false,
        tree: false,
        parents: false,
        listed: PARENTS,
        delays: false,
        backs: false,
    };
    match layout {
        Layout::Links => links,
        Layout::Sized => Form {
            shaped: true,
            sized: true,
            ..links
        },
        Layout::Tree => Form {
            shaped: true,
            sized: true,
            tree: true,
            ..links
        },
        Layout::Parents { delays, backs } => Form {
            shaped: true,
            parents: true,
            delays,
            backs,
            ..links
        },
    }
}

// How a top table of this layout is told apart.
fn layout_text(layout: Layout) -> &'static str
    ensures { result.now ≡ layout_text layout }
{
    match layout {
        Layout::Links => "\"table\": \"top\", \"topology\": []",
        Layout::Sized => "\"table\": \"top\", \"topology\": [\"chain\", \"star\"]",
        Layout::Tree => "\"table\": \"top\", \"topology\": [\"tree\"]",
        Layout::Parents {
            delays: false,
            backs: false,
        } => "\"table\": \"top\", \"topology\": [\"parents\"], \"beside\": []",
        Layout::Parents {
            delays: false,
            backs: true,
        } => "\"table\": \"top\", \"topology\": [\"parents\"], \"beside\": [\"backs\"]",
        Layout::Parents {
            delays: true,
            backs: false,
        } => "\"table\": \"top\", \"topology\": [\"parents\"], \"beside\": [\"delays\"]",
        Layout::Parents {
            delays: true,
            backs: true,
        } => "\"table\": \"top\", \"topology\": [\"parents\"], \"beside\": [\"delays\", \"backs\"]",
    }
}
