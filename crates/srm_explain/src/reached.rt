//! Nodes that are reached from node 0.
ghost use Rattle.std.specs.Prelude.{◌≡◌};
ghost use Rattle.srm_explain.specs.Flaws.{is_reached};

use crate::element::element;
use srm_net::link::LinkSpec;
use std::alloc::{AllocError, Global};

/// Whether a node is marked.
pub(crate) fn is_reached(reached: &[bool], node: u16) -> bool
    ensures { result ≡ is_reached reached.now node }
{
    match element(reached, usize::from(node)) {
        Some(reached) => *reached,
        None => false,
    }
}

/// Marks of the nodes that are reached from node 0.
///
/// # Errors
/// Memory ran out.
pub(crate) fn reached_from_0(
    alloc: Global,
    nodes: u16,
    links: &[LinkSpec],
) -> Result<Vec<bool>, AllocError> {
    let neighbours = neighbours_of(alloc, nodes, links)?;
    let mut reached = vec![in alloc; false; usize::from(nodes)]?;
    let mut waiting = Vec::new(alloc);
    reach(&mut reached, &mut waiting, 0)?;
    for _node in 0..nodes {
        let Some(node) = waiting.pop() else {
            return Ok(reached);
        };
        if let Some(others) = neighbours.get(usize::from(node)) {
            reach_all(&mut reached, &mut waiting, others)?;
        }
    }
    Ok(reached)
}

// Lists, one for each node, of which none has a node yet.
fn no_neighbours(alloc: Global, nodes: u16) -> Result<Vec<Vec<u16>>, AllocError> {
    let mut neighbours = Vec::new(alloc);
    for _node in 0..nodes {
        neighbours.push(Vec::new(alloc))?;
    }
    Ok(neighbours)
}

// The nodes to which each node is joined.
fn neighbours_of(
    alloc: Global,
    nodes: u16,
    links: &[LinkSpec],
) -> Result<Vec<Vec<u16>>, AllocError> {
    let mut neighbours = no_neighbours(alloc, nodes)?;
    for link in links {
        join(&mut neighbours, link.a, link.b)?;
        join(&mut neighbours, link.b, link.a)?;
    }
    Ok(neighbours)
}

// Puts a node among the neighbours of another.
fn join(neighbours: &mut Vec<Vec<u16>>, node: u16, other: u16) -> Result<(), AllocError> {
    if let Some(others) = neighbours.get_mut(usize::from(node)) {
        others.push(other)?;
    }
    Ok(())
}

// Marks these nodes.
fn reach_all(
    reached: &mut Vec<bool>,
    waiting: &mut Vec<u16>,
    nodes: &[u16],
) -> Result<(), AllocError> {
    for node in nodes {
        reach(reached, waiting, *node)?;
    }
    Ok(())
}

// Marks a node that was not marked, and puts it among those whose neighbours are still to be marked.
fn reach(reached: &mut Vec<bool>, waiting: &mut Vec<u16>, node: u16) -> Result<(), AllocError> {
    if is_reached(reached, node) {
        return Ok(());
    }
    if let Some(mark) = reached.get_mut(usize::from(node)) {
        *mark = true;
        waiting.push(node)?;
    }
    Ok(())
}
