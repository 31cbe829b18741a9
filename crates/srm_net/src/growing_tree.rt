//! A tree that grows by steps that wait.
ghost use Rattle.std.specs.Prelude.{◌≡◌, ℕ, ◌∷◌, ◌++◌, [], ◌<◌, ◌≤◌, All, IfOk, OnOk, reverse};
ghost use Rattle.srm_net.specs.Adjacencies.{TellsLinks};
ghost use Rattle.srm_net.specs.Network.{IsWithin};
ghost use Rattle.srm_net.specs.Waiting.{IsGrowing, steps_left};

use crate::adjacency::Adjacency;
use crate::attaching::Attaching;
use crate::link::LinkSpec;
use std::alloc::{AllocError, Global};

/// A tree that grows from node 0, and the steps that wait, the next of them at the end.
#[derive(Drop)]
pub(crate) struct GrowingTree {
    /// Whether each node is attached.
    pub(crate) known: Vec<bool>,
    /// The steps that attached nodes, in order.
    pub(crate) steps: Vec<Attaching>,
    /// The steps that wait, each over a link from an attached node.
    pub(crate) pending: Vec<Attaching>,
}

impl GrowingTree {
    /// Node 0 alone, with a step to each of its neighbours.
    pub(crate) fn at_root(
        alloc: Global,
        nodes: u16,
        links: &[LinkSpec],
        adjacency: &Adjacency,
    ) -> Result<GrowingTree, AllocError>
        requires some { 1 ≤ nodes }
        requires ends { All (IsWithin nodes) links.now }
        requires told { TellsLinks nodes links.now adjacency.now }
        ensures { IfOk result (λ g. IsGrowing nodes links.now g.known.items (reverse g.steps.items) g.pending.items) }
    {
        let mut known = vec![in alloc; false; usize::from(nodes)]?;
        known[0] = true;
        let mut pending = Vec::new(alloc);
        adjacency.push_steps(links, known.as_slice(), 0, &mut pending)?;
        Ok(GrowingTree {
            known,
            steps: Vec::new(alloc),
            pending,
        })
    }

    /// Takes the step that comes next: its node is attached, unless it is already, and then a step to each of its neighbours
    /// waits.
    pub(crate) fn take(
        &mut self,
        links: &[LinkSpec],
        adjacency: &Adjacency,
        step: Attaching,
    ) -> Result<(), AllocError>
        requires { (nodes : ℕ) × TellsLinks nodes links.now adjacency.now × IsGrowing nodes links.now self.old.known.items
            (reverse self.old.steps.items) (self.old.pending.items ++ step ∷ []) }
        ensures growing { (nodes : ℕ) → IsGrowing nodes links.now self.old.known.items (reverse self.old.steps.items)
            (self.old.pending.items ++ step ∷ []) → OnOk result (IsGrowing nodes links.now self.new.known.items
            (reverse self.new.steps.items) self.new.pending.items) }
        ensures fewer { (nodes : ℕ) → IsGrowing nodes links.now self.old.known.items (reverse self.old.steps.items)
            (self.old.pending.items ++ step ∷ [])
            → OnOk result (steps_left nodes links.now self.new.steps.items self.new.pending.items
            < steps_left nodes links.now self.old.steps.items (self.old.pending.items ++ step ∷ [])) }
    {
        if self.known[usize::from(step.node)] {
            return Ok(());
        }
        self.known[usize::from(step.node)] = true;
        self.steps.push(step)?;
        adjacency.push_steps(links, self.known.as_slice(), step.node, &mut self.pending)?;
        Ok(())
    }
}
