//! The order in which the nodes of a tree are attached to one another.
ghost use Rattle.std.specs.Prelude.{◌≡◌, ◌⊎◌, ◌+◌, [], IfOk, IfErr, length, reverse};
ghost use Rattle.srm_net.specs.Network.{plain_network, IsTree};
ghost use Rattle.srm_net.specs.Growth.{Grows, IsInPreorder};

use crate::adjacency::Adjacency;
use crate::attaching::Attaching;
use crate::checks::are_within;
use crate::fault::NetFault;
use crate::growing_tree::GrowingTree;
use crate::link::LinkSpec;
use std::alloc::Global;

/// The steps by which the tree of these links grows from node 0, one for each other node, in preorder. It takes a number of steps
/// that grows as the number of links.
///
/// [`NetFault::NotTree`] where it is no tree of 1 to [`MOST_NODES`](crate::limits::MOST_NODES) nodes.
pub(crate) fn attaching_order(
    alloc: Global,
    nodes: u16,
    links: &[LinkSpec],
) -> Result<Vec<Attaching>, NetFault>
    ensures grows { IfOk result (λ steps. Grows links.now (reverse steps.items)) }
    ensures preorder { IfOk result (λ steps. IsInPreorder (reverse steps.items)) }
    ensures all { IfOk result (λ steps. length steps.items + 1 ≡ nodes) }
    ensures tree { IfOk result (λ _. IsTree (plain_network nodes links.now [])) }
    ensures fault { IfErr result (λ e. (e ≡ NetFault.NoMemory)
        ⊎ ((e ≡ NetFault.NotTree) × (¬ IsTree (plain_network nodes links.now [])))) }
{
    if nodes < 1 || links.len() + 1 != usize::from(nodes) || !are_within(nodes, links) {
        return Err(NetFault::NotTree);
    }
    let adjacency = Adjacency::of(alloc, nodes, links)?;
    let mut growing = GrowingTree::at_root(alloc, nodes, links, &adjacency)?;
    while let Some(step) = growing.pending.pop() {
        growing.take(links, &adjacency, step)?;
    }
    if growing.steps.len() + 1 != usize::from(nodes) {
        return Err(NetFault::NotTree);
    }
    Ok(growing.steps)
}
