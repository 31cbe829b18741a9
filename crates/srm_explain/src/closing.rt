//! Links that close a circle with those before them.
ghost use Rattle.std.specs.Prelude.{◌≡◌, false, ℕ, Some, IfOk, IfSome, slice_get};
ghost use Rattle.srm_net.specs.declared.link.LinkSpec.{LinkSpec as OneLink};
ghost use Rattle.srm_net.specs.Network.{Joins};
ghost use Rattle.srm_explain.specs.Flaws.{Closes, IsFlaw};

use crate::element::element;
use crate::flaw::Flaw;
use srm_net::link::LinkSpec;
use std::alloc::{AllocError, Global};

/// The links at a node of which no end was stripped off.
#[derive(Clone, Copy)]
struct Joint {
    /// How many there are; one that joins the node to itself counts twice.
    many: usize,
    /// Their numbers, combined by exclusive or: of one link its number, and of two that of either combined with the other's.
    links: u16,
}

/// The first link that closes a circle with links before it, and those, if there is one.
///
/// # Errors
/// Memory ran out.
pub(crate) fn closing_in(
    alloc: Global,
    nodes: u16,
    links: &[LinkSpec],
) -> Result<Option<Flaw>, AllocError>
    ensures { IfOk result (λ flaw. IfSome flaw (IsFlaw false nodes links.now)) }
{
    let Some(link) = first_closing(alloc, nodes, links)? else {
        return Ok(None);
    };
    let joints = circle_at(alloc, nodes, links, link)?;
    match way_between(alloc, links, &joints, link)? {
        Some(earlier) => Ok(Some(Flaw::Closing { link, earlier })),
        None => Ok(None),
    }
}

// The first link whose ends are joined by those before it, if there is one.
fn first_closing(alloc: Global, nodes: u16, links: &[LinkSpec]) -> Result<Option<u16>, AllocError> {
    let mut above = each_itself(alloc, nodes)?;
    for (place, link) in links.iter().enumerate() {
        let a = root_of(&mut above, link.a);
        let b = root_of(&mut above, link.b);
        if a == b {
            return Ok(u16::try_from(place).ok());
        }
        put_below(&mut above, a, b);
    }
    Ok(None)
}

// For each node itself.
fn each_itself(alloc: Global, nodes: u16) -> Result<Vec<u16>, AllocError> {
    let mut above = Vec::new(alloc);
    for node in 0..nodes {
        above.push(node)?;
    }
    Ok(above)
}

// The highest node above a node, which is its own. Nodes on the way are put below those above the next ones.
fn root_of(above: &mut Vec<u16>, node: u16) -> u16 {
    let mut node = node;
    for _node in 0..above.len() {
        let next = node_above(above, node);
        if next == node {
            return node;
        }
        let higher = node_above(above, next);
        put_below(above, node, higher);
        node = higher;
    }
    node
}

// The node above a node.
fn node_above(above: &[u16], node: u16) -> u16 {
    match element(above, usize::from(node)) {
        Some(above) => *above,
        None => node,
    }
}

// Puts a node below another.
fn put_below(above: &mut Vec<u16>, node: u16, higher: u16) {
    if let Some(place) = above.get_mut(usize::from(node)) {
        *place = higher;
    }
}

// The joints of the links up to this one that make circles, so that two of them meet at each of its nodes.
fn circle_at(
    alloc: Global,
    nodes: u16,
    links: &[LinkSpec],
    last: u16,
) -> Result<Vec<Joint>, AllocError> {
    let mut joints = joints_of(alloc, nodes, links, last)?;
    for node in 0..nodes {
        strip_from(&mut joints, links, node);
    }
    Ok(joints)
}

// The joints of the links up to this one.
fn joints_of(
    alloc: Global,
    nodes: u16,
    links: &[LinkSpec],
    last: u16,
) -> Result<Vec<Joint>, AllocError> {
    let none = Joint { many: 0, links: 0 };
    let mut joints = vec![in alloc; none; usize::from(nodes)]?;
    for link in 0..=last {
        if let Some(spec) = element(links, usize::from(link)) {
            add(&mut joints, spec.a, link);
            add(&mut joints, spec.b, link);
        }
    }
    Ok(joints)
}

// Adds a link at a node.
fn add(joints: &mut Vec<Joint>, node: u16, link: u16) {
    if let Some(joint) = joints.get_mut(usize::from(node)) {
        joint.many = joint.many.saturating_add(1);
        joint.links ^= link;
    }
}

// Strips a link off at a node.
fn strip(joints: &mut Vec<Joint>, node: u16, link: u16) {
    if let Some(joint) = joints.get_mut(usize::from(node)) {
        joint.many = joint.many.saturating_sub(1);
        joint.links ^= link;
    }
}

// Strips off the links from a node on at which there is one alone.
fn strip_from(joints: &mut Vec<Joint>, links: &[LinkSpec], node: u16) {
    let mut node = node;
    for _link in 0..links.len() {
        let Some(next) = strip_last(joints, links, node) else {
            return;
        };
        node = next;
    }
}

// Strips off the link at a node at which there is one alone. Gives its other end.
fn strip_last(joints: &mut Vec<Joint>, links: &[LinkSpec], node: u16) -> Option<u16> {
    let joint = *element(joints, usize::from(node))?;
    if joint.many != 1 {
        return None;
    }
    let other = other_end(links, joint.links, node)?;
    strip(joints, node, joint.links);
    strip(joints, other, joint.links);
    Some(other)
}

// The other end of a link that has this one.
fn other_end(links: &[LinkSpec], link: u16, node: u16) -> Option<u16>
    ensures { IfSome result (λ other. (k : OneLink) × (slice_get links.now link ≡ Some k) × Joins k node other) }
{
    let spec = *element(links, usize::from(link))?;
    if spec.a == node {
        Some(spec.b)
    } else if spec.b == node {
        Some(spec.a)
    } else {
        None
    }
}

// The other link at a node at which two meet, of which this is one.
fn other_link(joints: &[Joint], node: u16, link: u16) -> Option<u16> {
    let joint = element(joints, usize::from(node))?;
    Some(joint.links ^ link)
}

// The links before one that lead from its second end to its first, where two meet at each node of their circle.
fn way_between(
    alloc: Global,
    links: &[LinkSpec],
    joints: &[Joint],
    last: u16,
) -> Result<Option<Vec<u16>>, AllocError>
    ensures { IfOk result (λ way. IfSome way (λ ls. Closes links.now last ls.items)) }
{
    let Some(closing) = element(links, usize::from(last)) else {
        return Ok(None);
    };
    let LinkSpec {
        a: end,
        b: start,
        ..
    } = *closing;
    let mut way = Vec::new(alloc);
    let mut node = start;
    let mut by = last;
    for _link in 0..links.len() {
        if node == end {
            return Ok(Some(way));
        }
        let Some((link, other)) = step_on(links, joints, node, by) else {
            return Ok(None);
        };
        if link >= last {
            return Ok(None);
        }
        way.push(link)?;
        node = other;
        by = link;
    }
    Ok(None)
}

// The other link at a node than the one that led there, and its other end.
fn step_on(links: &[LinkSpec], joints: &[Joint], node: u16, by: u16) -> Option<(u16, u16)>
    ensures { IfSome result (λ to. (k : OneLink) × (slice_get links.now to.0 ≡ Some k) × Joins k node to.1) }
{
    let link = other_link(joints, node, by)?;
    let other = other_end(links, link, node)?;
    Some((link, other))
}
