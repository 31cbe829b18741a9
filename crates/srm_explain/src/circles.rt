//! Circles of nodes, each the child of the next one.
ghost use Rattle.std.specs.Prelude.{◌≡◌, IfOk, IfSome};
ghost use Rattle.srm_explain.specs.Flaws.{parent_of, IsCircle};

use crate::element::element;
use crate::reached::{is_reached, reached_from_0};
use srm_net::link::LinkSpec;
use std::alloc::{AllocError, Global};

/// The parent of a node, where link k joins node k + 1 to its parent.
fn parent_of(links: &[LinkSpec], node: u16) -> Option<u16>
    ensures { result ≡ parent_of links.now node }
{
    if node == 0 {
        return None;
    }
    match element(links, usize::from(node - 1)) {
        Some(link) => Some(link.a),
        None => None,
    }
}

/// A circle of nodes, each the child of the next one, where link k joins node k + 1 to its parent. If a node is not reached from
/// node 0, and each parent is a node, there is one.
///
/// # Errors
/// Memory ran out.
pub(crate) fn circle_in(
    alloc: Global,
    nodes: u16,
    links: &[LinkSpec],
) -> Result<Option<Vec<u16>>, AllocError>
    ensures { IfOk result (λ circle. IfSome circle (λ vs. IsCircle links.now vs.items)) }
{
    let reached = reached_from_0(alloc, nodes, links)?;
    for node in 0..nodes {
        if !is_reached(&reached, node) {
            return circle_from(alloc, nodes, links, above(nodes, links, node));
        }
    }
    Ok(None)
}

// The node so many parents above a node, or the highest.
fn above(nodes: u16, links: &[LinkSpec], node: u16) -> u16 {
    let mut above = node;
    for _node in 0..nodes {
        match parent_of(links, above) {
            Some(parent) => above = parent,
            None => return above,
        }
    }
    above
}

// The circle of so many nodes or fewer in which a node is, if it is in one.
fn circle_from(
    alloc: Global,
    nodes: u16,
    links: &[LinkSpec],
    start: u16,
) -> Result<Option<Vec<u16>>, AllocError>
    ensures { IfOk result (λ circle. IfSome circle (λ vs. IsCircle links.now vs.items)) }
{
    let mut circle = Vec::new(alloc);
    let mut node = start;
    for _node in 0..nodes {
        circle.push(node)?;
        let Some(parent) = parent_of(links, node) else {
            return Ok(None);
        };
        if parent == start {
            return Ok(Some(circle));
        }
        node = parent;
    }
    Ok(None)
}
