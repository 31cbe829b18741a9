//! Topologies that a scenario may name.
ghost use Rattle.std.specs.Prelude.{◌≡◌, ◌≤◌, ◌<◌, ◌-◌, IfOk, Some};
ghost use Rattle.srm_scenario.specs.Described.{parent_in, links_to_parents};
ghost use Rattle.srm_scenario.specs.LookUps.{HasDegree};

use crate::delays::Delays;
use srm_net::link::LinkSpec;
use std::alloc::{AllocError, Global};

/// A topology with its own numbering of nodes and links: link i joins node i + 1 to its parent.
#[derive(Clone, Copy, Debug, PartialEq, Eq)]
pub enum Topology {
    /// Nodes one after the other.
    Chain,
    /// Node 0 is the hub, to which every other node is joined. It hosts nobody.
    Star,
    /// A tree numbered breadth first.
    Tree {
        /// How many children the root has: 2 to 65,534. Every other inner node has one fewer.
        degree: u16,
    },
}

impl Topology {
    /// The node to which node `v` is joined.
    pub(crate) fn parent(self, v: u16) -> u16
        requires node { 1 ≤ v }
        requires degree { HasDegree (Some self) }
        ensures { result ≡ parent_in self v }
    {
        match self {
            Topology::Chain => v - 1,
            Topology::Star => 0,
            Topology::Tree { degree } => {
                if v <= degree {
                    0
                } else {
                    1 + (v - degree - 1) / (degree - 1)
                }
            }
        }
    }

    /// The links of the topology with `size` nodes, each of these delays.
    pub(crate) fn links(
        self,
        alloc: Global,
        size: u16,
        delays: Delays,
    ) -> Result<Vec<LinkSpec>, AllocError>
        requires size { 1 ≤ size }
        requires degree { HasDegree (Some self) }
        ensures { IfOk result (λ links. links.items ≡ links_to_parents self delays 1 (size - 1)) }
    {
        let mut links = Vec::new(alloc);
        for v in 1..size {
            links.push(LinkSpec {
                a: self.parent(v),
                b: v,
                delay: delays.delay,
                back: delays.back,
            })?;
        }
        Ok(links)
    }
}
