//! What is said of what keeps links from making a tree of the nodes.
ghost use Rattle.std.specs.Prelude.{◌≡◌, IfOk, string_bytes};
ghost use Rattle.srm_explain.specs.Flaws.{circle_sentence, closing_sentence, first_spaced, flaw_sentence, spaced};
ghost use Rattle.srm_explain.specs.Explanations.{flaw_notes};

use crate::flaw::Flaw;
use std::alloc::{AllocError, Global};

/// What is said of several reasons, each in a line of its own.
///
/// # Errors
/// Memory ran out.
pub(crate) fn flaw_notes(alloc: Global, flaws: &[Flaw]) -> Result<String, AllocError>
    ensures { IfOk result (λ s. string_bytes s ≡ flaw_notes flaws.now) }
{
    let mut notes = String::new(alloc);
    for flaw in flaws {
        let sentence = flaw_sentence(alloc, flaw)?;
        notes.push_str("  ")?;
        notes.push_str(sentence.as_str())?;
        notes.push_str("\n")?;
    }
    Ok(notes)
}

// What is said of a reason.
fn flaw_sentence(alloc: Global, flaw: &Flaw) -> Result<String, AllocError>
    ensures { IfOk result (λ s. string_bytes s ≡ flaw_sentence flaw.now) }
{
    match flaw {
        Flaw::NoEnd { link, nodes, .. } => format!(in alloc;
            "link {link} ends at no node: {nodes} in all, numbered from 0"
        ),
        Flaw::LinkCount { nodes, links } => {
            format!(in alloc;
                "nodes: {nodes}, links: {links}; a tree has one link fewer than nodes"
            )
        }
        Flaw::NoParent { node, nodes } => format!(in alloc;
            "the parent of node {node} is no node: {nodes} in all, numbered from 0"
        ),
        Flaw::Circle { nodes } => circle_sentence(alloc, nodes),
        Flaw::Closing { link, earlier } => closing_sentence(alloc, *link, earlier),
        Flaw::Unreached { nodes } => {
            let numbers = first_spaced(alloc, nodes)?;
            format!(in alloc; "not reached from node 0:{numbers}")
        }
    }
}

// What is said of nodes that make a circle.
fn circle_sentence(alloc: Global, nodes: &[u16]) -> Result<String, AllocError>
    ensures { IfOk result (λ s. string_bytes s ≡ circle_sentence nodes.now) }
{
    if nodes.len() == 1 {
        let node = nodes[0];
        return format!(in alloc; "node {node} is its own parent");
    }
    let numbers = first_spaced(alloc, nodes)?;
    let told = format!(in alloc;
        "these nodes make a circle, each a child of the next, the last of the first:{numbers}"
    )?;
    Ok(told)
}

// What is said of a link that closes a circle with these.
fn closing_sentence(alloc: Global, link: u16, earlier: &[u16]) -> Result<String, AllocError>
    ensures { IfOk result (λ s. string_bytes s ≡ closing_sentence link earlier.now) }
{
    if earlier.is_empty() {
        return format!(in alloc; "link {link} joins a node to itself");
    }
    let numbers = first_spaced(alloc, earlier)?;
    let told = format!(in alloc; "link {link} closes a circle with links before it:{numbers}")?;
    Ok(told)
}

/// So many numbers are told at most.
const MOST_TOLD: usize = 20;

// Numbers, each with a space in front; of many the first, and how many more there are.
fn first_spaced(alloc: Global, numbers: &[u16]) -> Result<String, AllocError>
    ensures { IfOk result (λ s. string_bytes s ≡ first_spaced numbers.now) }
{
    if numbers.len() <= MOST_TOLD {
        return spaced(alloc, numbers);
    }
    let first = spaced(alloc, &numbers[..MOST_TOLD])?;
    let more = numbers.len() - MOST_TOLD;
    let told = format!(in alloc; "{first} and {more} more")?;
    Ok(told)
}

// Numbers, each with a space in front.
fn spaced(alloc: Global, numbers: &[u16]) -> Result<String, AllocError>
    ensures { IfOk result (λ s. string_bytes s ≡ spaced numbers.now) }
{
    let mut told = String::new(alloc);
    for number in numbers {
        let one = format!(in alloc; " {number}")?;
        told.push_str(one.as_str())?;
    }
    Ok(told)
}
