//! A tree that is rooted at node 0.
ghost use Rattle.std.specs.Prelude.{◌≡◌, ◌≢◌, ◌⊎◌, ℕ, ◌+◌, ◌≤◌, ◌<◌, [], List, All, Some, IfOk, length, reverse, slice_get};
ghost use Rattle.srm_net.specs.Growth.{attached, Grows, IsInPreorder, TellsEnds};
ghost use Rattle.srm_net.specs.declared.link.LinkSpec.{LinkSpec};
ghost use Rattle.srm_net.specs.Limits.{end_of_time};
ghost use Rattle.srm_net.specs.Listed.{is_listed_somewhere};
ghost use Rattle.srm_net.specs.Network.{Network, HasDelays, IsNetwork, IsTree, IsWithin, plain_network};
ghost use Rattle.srm_net.specs.Paths.{hops_between, takes_out};
ghost use Rattle.srm_net.specs.Rooting.{takes, at, IsRooted, TellsTree, IsMeeting, IsFirstLink, IsHeld, IsChildAbove, MayFollow, Follows};
ghost use Rattle.srm_net.specs.Spreads.{TellsArrivals, TellsAbove, TellsFirst, TellsHops};

use crate::attaching::Attaching;
use crate::drops::Drops;
use crate::link::LinkSpec;
use crate::position::Position;
use crate::sending::Sending;
use std::alloc::{AllocError, Global};

/// The position of each node, and the nodes in the order of their places.
#[derive(Drop)]
pub(crate) struct Rooted {
    pub(crate) positions: Vec<Position>,
    pub(crate) order: Vec<u16>,
}

impl Rooted {
    /// The positions in the tree that grows by these steps.
    pub(crate) fn of(
        alloc: Global,
        nodes: u16,
        links: &[LinkSpec],
        steps: &[Attaching],
    ) -> Result<Rooted, AllocError>
        requires tree { IsTree (plain_network nodes links.now []) }
        requires delays { All HasDelays links.now }
        requires grows { Grows links.now (reverse steps.now) }
        requires preorder { IsInPreorder (reverse steps.now) }
        requires all { length steps.now + 1 ≡ nodes }
        ensures { IfOk result (TellsTree (plain_network nodes links.now [])) }
    {
        let order = in_order(alloc, steps)?;
        let ends = subtree_ends(alloc, nodes, steps)?;
        let whole = ends[0];
        let root = Position {
            place: 0,
            end: whole,
            depth: 0,
            parent: 0,
            link: 0,
            jump: 0,
            up: 0,
            down: 0,
        };
        let mut positions = vec![in alloc; root; usize::from(nodes)]?;
        for (index, step) in steps.iter().enumerate() {
            let end = ends[usize::from(step.node)];
            let new = attached_position(positions.as_slice(), links, *step, index as u16 + 1, end);
            positions[usize::from(step.node)] = new;
        }
        Ok(Rooted { positions, order })
    }

    /// The position of a node.
    pub(crate) fn position(&self, node: u16) -> Position
        requires { node < length self.now.positions.items }
        ensures { result ≡ at self.now.positions.items node }
    {
        self.positions[usize::from(node)]
    }

    /// How long a packet takes from one node to another, in ticks. It takes a number of steps that grows as the logarithm of the
    /// number of nodes, and where one of the two nodes is below the other, or both are next below one node, it takes no climb.
    pub(crate) fn delay(&self, from: u16, to: u16) -> u64
        requires rooted { (w : Network) × IsNetwork w × IsRooted w self.now.positions.items × (from < w.nodes) × (to < w.nodes) }
        ensures { (w : Network) → IsRooted w self.now.positions.items → from < w.nodes → to < w.nodes
            → result ≡ takes w from to }
    {
        self.there_and_back(from, to).0
    }

    /// How long a packet takes from one node to another, and another one back, in ticks. It takes as many steps as one
    /// [`delay`](Rooted::delay).
    pub(crate) fn round(&self, from: u16, to: u16) -> u64
        requires rooted { (w : Network) × IsNetwork w × IsRooted w self.now.positions.items × (from < w.nodes) × (to < w.nodes) }
        ensures { (w : Network) → IsRooted w self.now.positions.items → from < w.nodes → to < w.nodes
            → result ≡ takes w from to + takes w to from }
    {
        let (there, back) = self.there_and_back(from, to);
        there + back
    }

    /// How long a packet takes from one node to another, and how long another one takes back, in ticks.
    #[inline(always)]
    fn there_and_back(&self, from: u16, to: u16) -> (u64, u64)
        requires rooted { (w : Network) × IsNetwork w × IsRooted w self.now.positions.items × (from < w.nodes) × (to < w.nodes) }
        ensures { (w : Network) → IsRooted w self.now.positions.items → from < w.nodes → to < w.nodes
            → (result.0 ≡ takes w from to) × (result.1 ≡ takes w to from) }
    {
        let here = self.position(from);
        let there = self.position(to);
        let meeting = self.meeting(from, to);
        let shared = meeting.up + meeting.down;
        let forth = here.up + there.down - shared;
        let back = there.up + here.down - shared;
        (forth, back)
    }

    /// How many links there are on the way from one node to another. It takes as many steps as one [`delay`](Rooted::delay).
    pub(crate) fn hops(&self, from: u16, to: u16) -> u16
        requires rooted { (w : Network) × IsNetwork w × IsRooted w self.now.positions.items × (from < w.nodes) × (to < w.nodes) }
        ensures { (w : Network) → IsRooted w self.now.positions.items → from < w.nodes → to < w.nodes
            → result ≡ hops_between w from to }
    {
        let here = self.position(from);
        let there = self.position(to);
        let meeting = self.meeting(from, to);
        (u32::from(here.depth) + u32::from(there.depth) - 2 * u32::from(meeting.depth)) as u16
    }

    /// The position of the node where the ways up from two nodes meet: the way from one to the other leads up to it, and down
    /// from there.
    #[inline(always)]
    fn meeting(&self, from: u16, to: u16) -> Position
        requires rooted { (w : Network) × IsRooted w self.now.positions.items × (from < w.nodes) × (to < w.nodes) }
        ensures { (w : Network) → IsRooted w self.now.positions.items → from < w.nodes → to < w.nodes
            → IsMeeting w self.now.positions.items from to result }
    {
        let here = self.position(from);
        let there = self.position(to);
        if here.holds(there.place) {
            here
        } else if there.holds(here.place) {
            there
        } else if here.parent == there.parent {
            self.position(here.parent)
        } else {
            self.climb(from, to)
        }
    }

    /// The same, told by a climb from both nodes until they meet.
    #[inline(never)]
    fn climb(&self, from: u16, to: u16) -> Position
        requires rooted { (w : Network) × IsRooted w self.now.positions.items × (from < w.nodes) × (to < w.nodes) }
        ensures { (w : Network) → IsRooted w self.now.positions.items → from < w.nodes → to < w.nodes
            → IsMeeting w self.now.positions.items from to result }
    {
        let mut near = from;
        let mut far = to;
        while near != far {
            let here = self.position(near);
            let there = self.position(far);
            if here.place > there.place {
                near = self.above(here, there.place);
            } else {
                far = self.above(there, here.place);
            }
        }
        self.position(near)
    }

    /// When a packet comes to each node, in ticks, or none where it does not come there. It takes a number of steps that grows as
    /// the number of nodes: a climb from its sender tells of those above that, and then each other node is told by the one above
    /// it.
    ///
    /// # Errors
    /// [`AllocError`].
    pub(crate) fn arrivals(
        &self,
        alloc: Global,
        drops: &Drops,
        packet: Sending,
    ) -> Result<Vec<Option<u64>>, AllocError>
        requires rooted { (w : Network) × IsNetwork w × TellsTree w self.now × (packet.from < w.nodes) }
        requires sent { packet.sent < end_of_time }
        requires listed { packet.is_listed ≡ is_listed_somewhere drops.now.listed packet.id }
        ensures { (w : Network) → TellsTree w self.now → packet.from < w.nodes
            → IfOk result (λ all. TellsArrivals w (takes_out drops.now packet.id) packet.from packet.sent all.items) }
    {
        let mut arrivals = vec![in alloc; None; self.positions.len()]?;
        arrivals[usize::from(packet.from)] = Some(packet.sent);
        self.arrive_above(drops, packet, arrivals.as_mut_slice());
        self.arrive_below(drops, packet, arrivals.as_mut_slice());
        Ok(arrivals)
    }

    /// How many links there are on the way from a node to each node. It takes a number of steps that grows as the number of
    /// nodes.
    ///
    /// # Errors
    /// [`AllocError`].
    pub(crate) fn hops_from(&self, alloc: Global, from: u16) -> Result<Vec<u16>, AllocError>
        requires rooted { (w : Network) × IsNetwork w × TellsTree w self.now × (from < w.nodes) }
        ensures { (w : Network) → TellsTree w self.now → from < w.nodes → IfOk result (λ hops. TellsHops w from hops.items) }
    {
        let here = self.position(from);
        let mut hops = vec![in alloc; 0; self.positions.len()]?;
        for node in self.order.as_slice() {
            let there = self.position(*node);
            if there.holds(here.place) {
                hops[usize::from(*node)] = here.depth - there.depth;
                continue;
            }
            hops[usize::from(*node)] = hops[usize::from(there.parent)] + 1;
        }
        Ok(hops)
    }

    /// Tells when a packet comes to each node above its sender, of which it is told already.
    fn arrive_above(&self, drops: &Drops, packet: Sending, arrivals: &mut [Option<u64>])
        requires rooted { (w : Network) × IsNetwork w × IsRooted w self.now.positions.items × (packet.from < w.nodes) }
        requires sent { packet.sent < end_of_time }
        requires listed { packet.is_listed ≡ is_listed_somewhere drops.now.listed packet.id }
        requires size { length arrivals.old ≡ length self.now.positions.items }
        requires home { slice_get arrivals.old packet.from ≡ Some (Some packet.sent) }
        ensures { (w : Network) → IsRooted w self.now.positions.items → packet.from < w.nodes
            → TellsAbove w self.now.positions.items (takes_out drops.now packet.id) packet.from packet.sent arrivals.new }
    {
        let mut node = packet.from;
        while node != 0 {
            let here = self.position(node);
            let ticks = here.up - self.position(here.parent).up;
            let at = arrivals[usize::from(node)];
            arrivals[usize::from(here.parent)] = packet.past(drops, here.link, ticks, at);
            node = here.parent;
        }
    }

    /// Tells when a packet comes to each node, where it is told of those above its sender.
    fn arrive_below(&self, drops: &Drops, packet: Sending, arrivals: &mut [Option<u64>])
        requires rooted { (w : Network) × IsNetwork w × TellsTree w self.now × (packet.from < w.nodes)
            × TellsAbove w self.now.positions.items (takes_out drops.now packet.id) packet.from packet.sent arrivals.old }
        requires sent { packet.sent < end_of_time }
        requires listed { packet.is_listed ≡ is_listed_somewhere drops.now.listed packet.id }
        ensures { (w : Network) → TellsTree w self.now → packet.from < w.nodes
            → TellsAbove w self.now.positions.items (takes_out drops.now packet.id) packet.from packet.sent arrivals.old
            → TellsArrivals w (takes_out drops.now packet.id) packet.from packet.sent arrivals.new }
    {
        let from = self.position(packet.from).place;
        for node in self.order.as_slice() {
            if self.position(*node).holds(from) {
                continue;
            }
            self.arrive_at(drops, packet, *node, arrivals);
        }
    }

    /// Tells when a packet comes to a node that is not above its sender, where it is told of the nodes at earlier places.
    #[inline(always)]
    fn arrive_at(&self, drops: &Drops, packet: Sending, node: u16, arrivals: &mut [Option<u64>])
        requires rooted { (w : Network) × IsNetwork w × IsRooted w self.now.positions.items × (packet.from < w.nodes) × (node < w.nodes)
            × TellsFirst w self.now.positions.items (takes_out drops.now packet.id) packet.from packet.sent
            (at self.now.positions.items node).place arrivals.old }
        requires apart { ¬ IsHeld (at self.now.positions.items node) (at self.now.positions.items packet.from) }
        requires sent { packet.sent < end_of_time }
        requires listed { packet.is_listed ≡ is_listed_somewhere drops.now.listed packet.id }
        ensures { (w : Network) → IsRooted w self.now.positions.items → packet.from < w.nodes → node < w.nodes
            → TellsFirst w self.now.positions.items (takes_out drops.now packet.id) packet.from packet.sent
            (at self.now.positions.items node).place arrivals.old
            → TellsFirst w self.now.positions.items (takes_out drops.now packet.id) packet.from packet.sent
            ((at self.now.positions.items node).place + 1) arrivals.new }
    {
        let here = self.position(node);
        let ticks = here.down - self.position(here.parent).down;
        let at = arrivals[usize::from(here.parent)];
        arrivals[usize::from(node)] = packet.past(drops, here.link, ticks, at);
    }

    /// The link by which the way from one node to another begins, and the node to which it leads. It takes a number of steps that
    /// grows as the logarithm of the number of nodes.
    pub(crate) fn first_step(&self, from: u16, to: u16) -> (u16, u16)
        requires rooted { (w : Network) × IsRooted w self.now.positions.items × (from < w.nodes) × (to < w.nodes) }
        requires apart { from ≢ to }
        ensures { (w : Network) → IsRooted w self.now.positions.items → from < w.nodes → to < w.nodes
            → IsFirstLink w from to result.0 result.1 }
    {
        let here = self.position(from);
        if here.holds(self.position(to).place) {
            let child = self.child_above(from, to);
            (self.position(child).link, child)
        } else {
            (here.link, here.parent)
        }
    }

    /// The node next below `from` that is `to` or above it, which is below `from`.
    fn child_above(&self, from: u16, to: u16) -> u16
        requires rooted { (w : Network) × IsRooted w self.now.positions.items × (from < w.nodes) × (to < w.nodes) }
        requires apart { from ≢ to }
        requires below { IsHeld (at self.now.positions.items from) (at self.now.positions.items to) }
        ensures { (w : Network) → IsRooted w self.now.positions.items → from < w.nodes → to < w.nodes
            → IsChildAbove w self.now.positions.items from to result }
    {
        let mut node = to;
        while self.position(node).parent != from {
            node = self.above_within(self.position(node), from, to);
        }
        node
    }

    /// A node above one of this position: the one to which it jumps, where that is below `from` and `to` is it or below it, and
    /// else its parent.
    fn above_within(&self, position: Position, from: u16, to: u16) -> u16
        requires jump { position.jump < length self.now.positions.items }
        requires from { from < length self.now.positions.items }
        requires to { to < length self.now.positions.items }
        ensures { ((result ≡ position.jump) × (position.jump ≢ from)
            × IsHeld (at self.now.positions.items from) (at self.now.positions.items position.jump)
            × IsHeld (at self.now.positions.items position.jump) (at self.now.positions.items to))
            ⊎ (result ≡ position.parent) }
    {
        let far = self.position(position.jump);
        let top = self.position(from);
        let low = self.position(to);
        if position.jump != from && top.holds(far.place) && far.holds(low.place) {
            position.jump
        } else {
            position.parent
        }
    }

    /// A node above one of this position, on the way from it to a node of an earlier place.
    fn above(&self, position: Position, place: u16) -> u16
        requires { position.jump < length self.now.positions.items }
        ensures { ((result ≡ position.jump) × (place ≤ (at self.now.positions.items position.jump).place))
            ⊎ (result ≡ position.parent) }
    {
        if self.position(position.jump).place >= place {
            position.jump
        } else {
            position.parent
        }
    }
}

// The nodes in the order in which these steps attach them, node 0 the first.
fn in_order(alloc: Global, steps: &[Attaching]) -> Result<Vec<u16>, AllocError>
    ensures { IfOk result (λ order. order.items ≡ reverse (attached (reverse steps.now))) }
{
    let mut order = vec![in alloc; 0u16]?;
    for step in steps {
        order.push(step.node)?;
    }
    Ok(order)
}

// The position of the node that this step attaches, with its place and its end, by those of its parent and of the jump from
// there.
fn attached_position(
    positions: &[Position],
    links: &[LinkSpec],
    step: Attaching,
    place: u16,
    end: u16,
) -> Position
    requires { MayFollow links.now positions.now step }
    ensures { Follows links.now place end step (at positions.now step.parent)
        (at positions.now (at positions.now step.parent).jump) result }
{
    let link = links[usize::from(step.link)];
    let above = positions[usize::from(step.parent)];
    let far = positions[usize::from(above.jump)];
    let farther = positions[usize::from(far.jump)];
    Position {
        place,
        end,
        depth: above.depth + 1,
        parent: step.parent,
        link: step.link,
        jump: jump_of(step.parent, above, far, farther),
        up: link.delay_from(step.node) + above.up,
        down: above.down + link.delay_from(step.parent),
    }
}

// The node to which one below a node of the position `above` jumps: as far as the next two jumps from there together, where these
// are equally far, so that a climb over jumps takes a number of steps that grows as the logarithm of the depth.
fn jump_of(parent: u16, above: Position, far: Position, farther: Position) -> u16
    ensures { (result ≡ parent) ⊎ (result ≡ far.jump) }
{
    if u32::from(above.depth) + u32::from(farther.depth) == 2 * u32::from(far.depth) {
        far.jump
    } else {
        parent
    }
}

// For each node one more than the last place of the nodes that are it or below it. The steps are seen from the last to the
// first: so all nodes below one are seen before it.
fn subtree_ends(alloc: Global, nodes: u16, steps: &[Attaching]) -> Result<Vec<u16>, AllocError>
    requires grows { (links : List LinkSpec) × IsTree (plain_network nodes links []) × Grows links (reverse steps.now) }
    requires preorder { IsInPreorder (reverse steps.now) }
    requires all { length steps.now + 1 ≡ nodes }
    ensures long { IfOk result (λ ends. length ends.items ≡ nodes) }
    ensures ends { IfOk result (λ ends. TellsEnds steps.now ends.items) }
{
    let mut ends = vec![in alloc; 0u16; usize::from(nodes)]?;
    ends[0] = 1;
    for index in (0..steps.len()).rev() {
        let step = steps[index];
        let own = ends[usize::from(step.node)].max(index as u16 + 2);
        ends[usize::from(step.node)] = own;
        let above = ends[usize::from(step.parent)].max(own);
        ends[usize::from(step.parent)] = above;
    }
    Ok(ends)
}
