//! The links that meet each node of a network.
ghost use Rattle.std.specs.Prelude.{◌≡◌, ◌<◌, All, IfOk, length};
ghost use Rattle.srm_net.specs.Network.{IsWithin};
ghost use Rattle.srm_net.specs.Adjacencies.{TellsLinks};
ghost use Rattle.srm_net.specs.Waiting.{AddsSteps};

use crate::attaching::Attaching;
use crate::earlier::Earlier;
use crate::link::LinkSpec;
use std::alloc::{AllocError, Global};

/// For each node the last link that meets it, and for each link the one before it at each of its ends. So the links that meet
/// a node are found one after the other, the last of them first.
///
/// A link is told as one more than its number, and 0 tells that there is none.
#[derive(Drop)]
pub(crate) struct Adjacency {
    pub(crate) last: Vec<u16>,
    pub(crate) earlier: Vec<Earlier>,
}

impl Adjacency {
    /// Those of these links.
    pub(crate) fn of(alloc: Global, nodes: u16, links: &[LinkSpec]) -> Result<Adjacency, AllocError>
        requires few { length links.now < 65535 }
        requires ends { All (IsWithin nodes) links.now }
        ensures { IfOk result (TellsLinks nodes links.now) }
    {
        let mut last = vec![in alloc; 0u16; usize::from(nodes)]?;
        let mut earlier: Vec<Earlier> = Vec::new(alloc);
        for (number, link) in links.iter().enumerate() {
            let a = usize::from(link.a);
            let b = usize::from(link.b);
            let before = Earlier {
                a: last[a],
                b: last[b],
            };
            earlier.push(before)?;
            let told = number as u16 + 1;
            last[a] = told;
            last[b] = told;
        }
        Ok(Adjacency { last, earlier })
    }

    /// Puts onto the pending steps one over each link that leads from a node to another that is not known.
    pub(crate) fn push_steps(
        &self,
        links: &[LinkSpec],
        known: &[bool],
        node: u16,
        pending: &mut Vec<Attaching>,
    ) -> Result<(), AllocError>
        requires ends { All (IsWithin (length known.now)) links.now }
        requires node { node < length known.now }
        requires told { TellsLinks (length known.now) links.now self.now }
        ensures { IfOk result (λ _. AddsSteps links.now known.now node pending.old.items pending.new.items) }
    {
        let mut next = self.last[usize::from(node)];
        while next > 0 {
            let link = next - 1;
            let spec = links[usize::from(link)];
            let other = spec.far_from(node);
            if !known[usize::from(other)] {
                pending.push(Attaching {
                    node: other,
                    parent: node,
                    link,
                })?;
            }
            next = self.earlier[usize::from(link)].at(spec, node);
        }
        Ok(())
    }
}
