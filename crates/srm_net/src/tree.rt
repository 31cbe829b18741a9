//! A tree of nodes and links with members on some nodes, and the ways in it.
ghost use Rattle.std.specs.Prelude.{◌≡◌, ◌≢◌, ◌+◌, ◌<◌, ◌≤◌, ◌*◌, not, [], ◌∷◌, All, Some, IfOk, length, reverse, slice_get, IfSome};
ghost use Rattle.std.specs.List.{list_any};
ghost use Rattle.srm_net.specs.Limits.{end_of_time, greatest_distance};
ghost use Rattle.srm_net.specs.declared.link.LinkSpec.{LinkSpec};
ghost use Rattle.srm_net.specs.Growth.{Grows, IsInPreorder};
ghost use Rattle.srm_net.specs.Network.{plain_network, IsNetwork, IsTree, HasDelays, AreHosts};
ghost use Rattle.srm_net.specs.Paths.{host, route, end_of, delay_along, distance, round, hops, is_within, stops, takes_out};
ghost use Rattle.srm_net.specs.Listed.{is_listed_somewhere};
ghost use Rattle.srm_net.specs.Spreads.{TellsArrivals, TellsHops};
ghost use Rattle.srm_net.specs.Least.{least_delay};
ghost use Rattle.srm_net.specs.Tables.{covers, is_beyond, TellsAllSides, TellsOuts};

use crate::attaching::Attaching;
use crate::drops::Drops;
use crate::link::LinkSpec;
use crate::occupied::Occupied;
use crate::outs;
use crate::packet::PacketId;
use crate::rooted::Rooted;
use crate::sending::Sending;
use crate::sequence::Sequence;
use crate::sides::Sides;
use std::alloc::{AllocError, Global};
use std::marker::Model;

/// A tree of nodes and links, with members on some nodes, and the positions of the nodes where it is rooted at node 0.
#[derive(Drop)]
pub(crate) struct Tree {
    pub(crate) nodes: u16,
    pub(crate) links: Vec<LinkSpec>,
    pub(crate) hosts: Vec<u16>,
    pub(crate) rooted: Rooted,
}

impl Model for Tree {
    ghost use Rattle.srm_net.specs.Network.{Network};

    ghost Value = { Network };

    ghost use Rattle.srm_net.specs.Built.{network_inside, IsBuilt};

    ghost view = { network_inside };

    ghost invariant = { IsBuilt };
}

impl Tree {
    /// The tree that grows by these steps, whose links and hosts were checked.
    pub(crate) fn of(
        alloc: Global,
        nodes: u16,
        links: &[LinkSpec],
        hosts: &[u16],
        steps: &[Attaching],
    ) -> Result<Tree, AllocError>
        requires tree { IsTree (plain_network nodes links.now []) }
        requires delays { All HasDelays links.now }
        requires placed { AreHosts nodes hosts.now }
        requires grows { Grows links.now (reverse steps.now) }
        requires preorder { IsInPreorder (reverse steps.now) }
        requires all { length steps.now + 1 ≡ nodes }
        ensures { IfOk result (λ tree. tree ≡ plain_network nodes links.now hosts.now) }
    {
        Ok(Tree {
            nodes,
            links: links.to_vec(alloc)?,
            hosts: hosts.to_vec(alloc)?,
            rooted: Rooted::of(alloc, nodes, links, steps)?,
        })
    }

    /// How many members there are: at most [`MOST_NODES`](crate::limits::MOST_NODES).
    pub(crate) fn members(&self) -> u16
        ensures members { result ≡ length self.now.hosts }
        ensures network { IsNetwork self.now }
    {
        self.hosts.len() as u16
    }

    /// How many nodes there are.
    pub(crate) fn nodes(&self) -> u16
        ensures { result ≡ self.now.nodes }
    {
        self.nodes
    }

    /// The links, in the order of their numbers.
    pub(crate) fn links(&self) -> &[LinkSpec]
        ensures links { result.now ≡ self.now.links }
        ensures network { IsNetwork self.now }
    {
        self.links.as_slice()
    }

    /// A link by its number.
    pub(crate) fn link(&self, link: u16) -> LinkSpec
        requires { link < length self.now.links }
        ensures { slice_get self.now.links link ≡ Some result }
    {
        self.links[usize::from(link)]
    }

    /// The node of a member.
    pub(crate) fn host(&self, m: u16) -> u16
        requires { m < length self.now.hosts }
        ensures value { result ≡ host self.now m }
        ensures node { result < self.now.nodes }
    {
        self.hosts[usize::from(m)]
    }

    /// How long a packet takes from member `a` to member `b`, in ticks.
    pub(crate) fn distance(&self, a: u16, b: u16) -> u64
        requires a { a < length self.now.hosts }
        requires b { b < length self.now.hosts }
        ensures value { result ≡ distance self.now a b }
        ensures apart { a ≢ b → 1 ≤ result }
        ensures bounded { result ≤ greatest_distance }
        ensures network { IsNetwork self.now }
    {
        self.delay(self.host(a), self.host(b))
    }

    /// The round trip between members `a` and `b`: how long a packet takes from `a` to `b`, and another one back, in ticks.
    pub(crate) fn round(&self, a: u16, b: u16) -> u64
        requires a { a < length self.now.hosts }
        requires b { b < length self.now.hosts }
        ensures value { result ≡ round self.now a b }
        ensures apart { a ≢ b → 2 ≤ result }
        ensures bounded { result ≤ 2 * greatest_distance }
        ensures network { IsNetwork self.now }
    {
        self.rooted.round(self.host(a), self.host(b))
    }

    /// How many links there are on the way from member `a` to member `b`.
    pub(crate) fn hops(&self, a: u16, b: u16) -> u16
        requires a { a < length self.now.hosts }
        requires b { b < length self.now.hosts }
        ensures value { result ≡ hops self.now a b }
        ensures network { IsNetwork self.now }
    {
        self.rooted.hops(self.host(a), self.host(b))
    }

    /// How long a packet takes from one node to another, in ticks.
    pub(crate) fn delay(&self, from: u16, to: u16) -> u64
        requires from { from < self.now.nodes }
        requires to { to < self.now.nodes }
        ensures value { result ≡ delay_along self.now.links from (route self.now from to) }
        ensures bounded { result ≤ greatest_distance }
        ensures network { IsNetwork self.now }
    {
        self.rooted.delay(from, to)
    }

    /// Whether member `b` is within a scope of member `a`.
    #[inline(never)]
    pub(crate) fn is_within(&self, scope: Option<u32>, a: u16, b: u16) -> bool
        requires a { a < length self.now.hosts }
        requires b { b < length self.now.hosts }
        ensures { result ≡ is_within scope (hops self.now a b) }
    {
        match scope {
            None => true,
            Some(most) => u32::from(self.hops(a, b)) <= most,
        }
    }

    /// Whether the farther end of a link is within a scope of a member.
    pub(crate) fn covers(&self, scope: Option<u32>, m: u16, link: u16) -> bool
        requires member { m < length self.now.hosts }
        requires link { link < length self.now.links }
        ensures { (k : LinkSpec) → slice_get self.now.links link ≡ Some k → result ≡ covers self.now scope (host self.now m) k }
    {
        let Some(most) = scope else {
            return true;
        };
        let from = self.host(m);
        let ends = self.link(link);
        let to_a = self.rooted.hops(from, ends.a);
        let to_b = self.rooted.hops(from, ends.b);
        let farther = to_a.max(to_b);
        u32::from(farther) <= most
    }

    /// The first link of the way between two nodes, and the node to which it leads.
    fn first_step(&self, from: u16, to: u16) -> (u16, u16)
        requires from { from < self.now.nodes }
        requires to { to < self.now.nodes }
        requires apart { from ≢ to }
        ensures route { route self.now from to ≡ result.0 ∷ route self.now result.1 to }
        ensures link { result.0 < length self.now.links }
        ensures end { end_of from (slice_get self.now.links result.0) ≡ result.1 }
        ensures node { result.1 < self.now.nodes }
    {
        self.rooted.first_step(from, to)
    }

    /// Whether no link of the way between two nodes takes out a packet that is at the first of them at the tick `sent`. Where the
    /// packet may not be dropped at all this takes no walk.
    pub(crate) fn is_clear(
        &self,
        drops: &Drops,
        id: PacketId,
        sent: u64,
        from: u16,
        to: u16,
    ) -> bool
        requires sent { sent < end_of_time }
        requires from { from < self.now.nodes }
        requires to { to < self.now.nodes }
        ensures { result ≡ not (list_any (takes_out drops.now id)
            (stops self.now.links from sent (route self.now from to))) }
    {
        if !drops.may_drop(id, sent) {
            return true;
        }
        let _ = &self.nodes; // a tree: so no way takes longer than a distance may be
        let mut at = from;
        let mut tick = sent;
        while at != to {
            let (link, next) = self.first_step(at, to);
            if drops.takes_out(id, link, tick) {
                return false;
            }
            tick += self.link(link).delay_from(at);
            at = next;
        }
        true
    }

    /// Of a packet with a scope, how many links there are on the way from a node to each node. Of another one it does not
    /// allocate.
    ///
    /// # Errors
    /// [`AllocError`].
    pub(crate) fn hops_for(
        &self,
        alloc: Global,
        scope: Option<u32>,
        from: u16,
    ) -> Result<Option<Sequence<u16>>, AllocError>
        requires { from < self.now.nodes }
        ensures { IfOk result (λ hops. IfSome hops (TellsHops self.now from)) }
    {
        if scope.is_none() {
            return Ok(None);
        }
        let hops = self.rooted.hops_from(alloc, from)?;
        Ok(Some(Sequence::from_vec(hops)))
    }

    /// When a packet comes to each node, in ticks, or none where it does not come there. Each link is looked at once.
    pub(crate) fn arrivals(
        &self,
        alloc: Global,
        drops: &Drops,
        packet: Sending,
    ) -> Result<Vec<Option<u64>>, AllocError>
        requires sent { packet.sent < end_of_time }
        requires from { packet.from < self.now.nodes }
        requires listed { packet.is_listed ≡ is_listed_somewhere drops.now.listed packet.id }
        ensures { IfOk result (λ all. TellsArrivals self.now (takes_out drops.now packet.id) packet.from packet.sent all.items) }
    {
        self.rooted.arrivals(alloc, drops, packet)
    }

    /// Whether a node is beyond a link, as seen from the link's end `a`.
    pub(crate) fn is_beyond(&self, link: u16, node: u16) -> bool
        requires link { link < length self.now.links }
        requires node { node < self.now.nodes }
        ensures { (k : LinkSpec) → slice_get self.now.links link ≡ Some k → result ≡ is_beyond self.now link k node }
    {
        let spec = self.link(link);
        let near = self.rooted.position(spec.a);
        let far = self.rooted.position(spec.b);
        let place = self.rooted.position(node).place;
        if near.place < far.place {
            far.holds(place)
        } else {
            !near.holds(place)
        }
    }

    /// Whether members are on the two sides of each link. It takes a number of steps that grows as the numbers of nodes and
    /// members.
    pub(crate) fn all_sides(&self, alloc: Global) -> Result<Vec<Sides>, AllocError>
        ensures { IfOk result (λ all. TellsAllSides self.now all.items) }
    {
        let occupied = Occupied::of(alloc, &self.rooted, self.hosts.as_slice())?;
        let mut all = Vec::new(alloc);
        for link in 0..self.links().len() as u16 {
            all.push(occupied.sides(&self.rooted, self.link(link)))?;
        }
        Ok(all)
    }

    /// Each member's least distance to another. It takes a number of steps that grows as the numbers of nodes and members.
    pub(crate) fn all_outs(&self, alloc: Global) -> Result<Vec<Option<u64>>, AllocError>
        ensures { IfOk result (λ all. TellsOuts self.now all.items) }
    {
        outs::all_outs(alloc, &self.rooted, self.hosts.as_slice())
    }

    /// The least delay of a link in either direction, in ticks, or none where there is no link.
    pub(crate) fn least_delay(&self) -> Option<u64>
        ensures value { result ≡ least_delay self.now }
        ensures network { IsNetwork self.now }
    {
        let mut least = None;
        for link in self.links() {
            least = match least {
                None => Some(link.lesser_delay()),
                Some(known) => Some(known.min(link.lesser_delay())),
            };
        }
        least
    }
}
