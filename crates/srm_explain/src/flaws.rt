//! What keeps links from making a tree of the nodes.
ghost use Rattle.std.specs.Prelude.{◌≡◌, ◌<◌, true, false, IfOk, IfSome};
ghost use Rattle.std.specs.List.{list_all, AllByRecursion};
ghost use Rattle.srm_explain.specs.Misfits.{links_of};
ghost use Rattle.srm_explain.specs.Flaws.{is_closed, is_even, IsFlaw, IsUnreached};

use crate::circles::circle_in;
use crate::closing::closing_in;
use crate::flaw::Flaw;
use crate::reached::{is_reached, reached_from_0};
use srm_net::link::LinkSpec;
use srm_scenario::draft::Draft;
use srm_scenario::file_key::FileKey;
use std::alloc::{AllocError, Global};

/// Why the links of a draft make no tree of its nodes, where they are those to the parents that its table lists, or else those
/// that it lists. If an end of a link is no node, that is told alone. Else of parents it is told which nodes make a circle; and
/// of other links which one is the first to close a circle, how many there are, where these are too many or too few, and which
/// nodes are not reached from node 0. The links of a topology make a tree.
///
/// # Errors
/// Memory ran out.
pub(crate) fn flaws_in(alloc: Global, draft: &Draft, parents: bool) -> Result<Vec<Flaw>, AllocError>
    ensures { IfOk result (λ flaws. AllByRecursion (IsFlaw parents draft.now.nodes (links_of draft.now)) flaws.items) }
{
    match draft.topology {
        Some(_) => Ok(Vec::new(alloc)),
        None => flaws_of(alloc, parents, draft.nodes, &draft.links),
    }
}

// Why links make no tree of so many nodes, where they are those to parents or not.
fn flaws_of(
    alloc: Global,
    parents: bool,
    nodes: u16,
    links: &[LinkSpec],
) -> Result<Vec<Flaw>, AllocError>
    ensures { IfOk result (λ flaws. AllByRecursion (IsFlaw parents nodes links.now) flaws.items) }
{
    if parents {
        flaws_of_parents(alloc, nodes, links)
    } else {
        flaws_of_links(alloc, nodes, links)
    }
}

// Why the links to parents make no tree of so many nodes.
fn flaws_of_parents(alloc: Global, nodes: u16, links: &[LinkSpec]) -> Result<Vec<Flaw>, AllocError>
    ensures { IfOk result (λ flaws. AllByRecursion (IsFlaw true nodes links.now) flaws.items) }
{
    let mut flaws = Vec::new(alloc);
    if let Some(flaw) = parent_in(nodes, links) {
        flaws.push(flaw)?;
    } else if let Some(nodes) = circle_in(alloc, nodes, links)? {
        flaws.push(Flaw::Circle { nodes })?;
    }
    Ok(flaws)
}

// The first parent that is no node, if there is one.
fn parent_in(nodes: u16, links: &[LinkSpec]) -> Option<Flaw>
    ensures { IfSome result (IsFlaw true nodes links.now) }
{
    for (link, spec) in links.iter().enumerate() {
        if spec.a >= nodes {
            let node = link + 1;
            return Some(Flaw::NoParent { node, nodes });
        }
    }
    None
}

// Why listed links make no tree of so many nodes.
fn flaws_of_links(alloc: Global, nodes: u16, links: &[LinkSpec]) -> Result<Vec<Flaw>, AllocError>
    ensures { IfOk result (λ flaws. AllByRecursion (IsFlaw false nodes links.now) flaws.items) }
{
    let mut flaws = Vec::new(alloc);
    if let Some(flaw) = end_in(nodes, links) {
        flaws.push(flaw)?;
        return Ok(flaws);
    }
    if let Some(flaw) = closing_in(alloc, nodes, links)? {
        flaws.push(flaw)?;
    }
    if let Some(flaw) = count_in(nodes, links) {
        flaws.push(flaw)?;
    }
    if let Some(flaw) = unreached_in(alloc, nodes, links)? {
        flaws.push(flaw)?;
    }
    Ok(flaws)
}

// The first end of a link that is no node, if there is one.
fn end_in(nodes: u16, links: &[LinkSpec]) -> Option<Flaw>
    ensures { IfSome result (IsFlaw false nodes links.now) }
{
    for (link, spec) in links.iter().enumerate() {
        if spec.a >= nodes {
            return Some(Flaw::NoEnd {
                link,
                key: FileKey::A,
                nodes,
            });
        }
        if spec.b >= nodes {
            return Some(Flaw::NoEnd {
                link,
                key: FileKey::B,
                nodes,
            });
        }
    }
    None
}

// That there is not one link fewer than nodes, if it is so.
fn count_in(nodes: u16, links: &[LinkSpec]) -> Option<Flaw>
    ensures { IfSome result (IsFlaw false nodes links.now) }
{
    if links.len().saturating_add(1) == usize::from(nodes) {
        None
    } else {
        let links = links.len();
        Some(Flaw::LinkCount { nodes, links })
    }
}

// Which nodes are not reached from node 0, if some are not.
fn unreached_in(alloc: Global, nodes: u16, links: &[LinkSpec]) -> Result<Option<Flaw>, AllocError>
    ensures { IfOk result (λ flaw. IfSome flaw (IsFlaw false nodes links.now)) }
{
    let reached = reached_from_0(alloc, nodes, links)?;
    if !is_closed(&reached, links) {
        return Ok(None);
    }
    let mut unreached = Vec::new(alloc);
    for node in 0..nodes {
        unreached = with_unmarked(unreached, nodes, links, &reached, node)?;
    }
    if unreached.is_empty() {
        Ok(None)
    } else {
        Ok(Some(Flaw::Unreached { nodes: unreached }))
    }
}

// The nodes so far, with this one where it is not marked.
fn with_unmarked(
    mut unreached: Vec<u16>,
    nodes: u16,
    links: &[LinkSpec],
    reached: &[bool],
    node: u16,
) -> Result<Vec<u16>, AllocError>
    requires before { AllByRecursion (IsUnreached nodes links.now) unreached.items }
    requires closed { is_closed reached.now links.now ≡ true }
    requires node { node < nodes }
    ensures { IfOk result (λ after. AllByRecursion (IsUnreached nodes links.now) after.items) }
{
    if is_reached(reached, node) {
        return Ok(unreached);
    }
    unreached.push(node)?;
    Ok(unreached)
}

// Whether both ends of a link are marked, or neither.
fn is_even(reached: &[bool], link: LinkSpec) -> bool
    ensures { result ≡ is_even reached.now link }
{
    let a = is_reached(reached, link.a);
    let b = is_reached(reached, link.b);
    (!a || b) && (!b || a)
}

// Whether node 0 is marked, and of each link both ends or neither.
fn is_closed(reached: &[bool], links: &[LinkSpec]) -> bool
    ensures { result ≡ is_closed reached.now links.now }
{
    is_reached(reached, 0) && are_even(reached, links)
}

// Whether of each link both ends are marked, or neither.
fn are_even(reached: &[bool], links: &[LinkSpec]) -> bool
    ensures { result ≡ list_all (is_even reached.now) links.now }
{
    links.iter().all(|link| is_even(reached, *link))
}
