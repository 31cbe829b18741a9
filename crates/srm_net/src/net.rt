//! A tree of nodes and links with members on some nodes, and what becomes of packets in it.
ghost use Rattle.std.specs.Prelude.{◌≡◌, ◌≢◌, ◌↔◌, ℕ, ◌+◌, ◌<◌, ◌≤◌, ◌*◌, true, false, not, [], ◌∷◌, All, IfOk, IfErr, IfSome, IfNone};
ghost use Rattle.std.specs.Prelude.{IsTrue, Option, Some, None, length, slice_get, if◌then◌else◌};
ghost use Rattle.srm_net.specs.Limits.{end_of_time, greatest_distance, most_nodes};
ghost use Rattle.srm_net.specs.Network.{plain_network, IsTree, HasDelays, AreHosts, IsNetwork};
ghost use Rattle.srm_net.specs.Paths.{host, distance, round, hops, half_rounds_from, hops_from};
ghost use Rattle.srm_net.specs.Paths.{is_within, stop, takes_out, reaches, crosses, drops_at};
ghost use Rattle.srm_net.specs.Fates.{is_crossing, is_dropping, is_on_way, joins_members};
ghost use Rattle.srm_net.specs.declared.link.LinkSpec.{LinkSpec};
ghost use Rattle.srm_net.specs.declared.packet.PacketId.{PacketId};
ghost use Rattle.srm_net.specs.DropRules.{DropRules, may_drop};
ghost use Rattle.srm_net.specs.Spreads.{IsSpread, FitsIn};
ghost use Rattle.srm_net.specs.Tables.{covers, near_end, some_beyond};
ghost use Rattle.srm_net.specs.Least.{least_delay, out};

use crate::checks::{are_hosts, have_delays};
use crate::drops::Drops;
use crate::fate::Fate;
use crate::fault::NetFault;
use crate::half_rounds::HalfRounds;
use crate::hops::HopsFrom;
use crate::link::LinkSpec;
use crate::order::attaching_order;
use crate::packet::PacketId;
use crate::sending::Sending;
use crate::sides::Sides;
use crate::spread::Spread;
use crate::tree::Tree;
use std::alloc::{AllocError, Global};
use std::marker::Model;
use std::sync::Arc;

/// A tree of nodes and links, with members on some nodes. Contracts see it as its plain network.
///
/// Each member is on a node of its own. A packet takes each link's delay in the direction in which it crosses it, in ticks.
#[derive(Drop)]
pub struct Net {
    tree: Arc<Tree>,
    sides: Vec<Sides>,
    outs: Vec<Option<u64>>,
    least: Option<u64>,
}

impl Model for Net {
    ghost use Rattle.srm_net.specs.Network.{Network};

    ghost Value = { Network };

    ghost use Rattle.srm_net.specs.Told.{tree_of, IsTold};

    ghost view = { tree_of };

    ghost invariant = { IsTold };
}

impl Net {
    /// Whether these links make a tree of nodes 0 to `nodes - 1`: what [`build`](Net::build) tests first, without the network. It
    /// takes a number of steps that grows as the number of links.
    ///
    /// # Errors
    /// [`AllocError`].
    pub fn is_tree(alloc: Global, nodes: u16, links: &[LinkSpec]) -> Result<bool, AllocError>
        ensures { IfOk result (λ is. IsTrue is ↔ IsTree (plain_network nodes links.now [])) }
    {
        match attaching_order(alloc, nodes, links) {
            Ok(_) => Ok(true),
            Err(NetFault::NoMemory) => Err(AllocError),
            Err(_) => Ok(false),
        }
    }

    /// The network of nodes 0 to `nodes - 1` with these links, and member m on the node `hosts[m]`.
    ///
    /// # Errors
    ///
    /// The first of these that applies, though memory may run out at any step:
    ///
    /// 1. [`NetFault::NotTree`]: `nodes` is not 1 to [`MOST_NODES`](crate::limits::MOST_NODES), an end of a link is no node,
    ///    there are not `nodes - 1` links, or they do not connect the nodes.
    /// 2. [`NetFault::BadDelay`]: a delay, in either direction, is not 1 to
    ///    [`GREATEST_LINK_DELAY`](crate::limits::GREATEST_LINK_DELAY) ticks.
    /// 3. [`NetFault::BadHost`]: a member is on no node, or two members share one.
    /// 4. [`NetFault::NoMemory`].
    pub fn build(
        alloc: Global,
        nodes: u16,
        links: &[LinkSpec],
        hosts: &[u16],
    ) -> Result<Net, NetFault>
        ensures same { IfOk result (λ net. net ≡ plain_network nodes links.now hosts.now) }
        ensures network { IfOk result IsNetwork }

        // each refusal comes only where it is the first
        ensures not_tree { result ≡ Err NetFault.NotTree → ¬ IsTree (plain_network nodes links.now hosts.now) }
        ensures bad_delay { result ≡ Err NetFault.BadDelay
            → IsTree (plain_network nodes links.now hosts.now) × (¬ All HasDelays links.now) }
        ensures bad_host { result ≡ Err NetFault.BadHost
            → IsTree (plain_network nodes links.now hosts.now) × All HasDelays links.now × (¬ AreHosts nodes hosts.now) }

        // and none but that memory ran out where the network is as it should be
        ensures accepted { IsNetwork (plain_network nodes links.now hosts.now)
            → IfErr result (λ e. e ≡ NetFault.NoMemory) }
    {
        let steps = attaching_order(alloc, nodes, links)?;
        if !have_delays(links) {
            return Err(NetFault::BadDelay);
        }
        let are_fit = are_hosts(alloc, nodes, hosts)?;
        if !are_fit {
            return Err(NetFault::BadHost);
        }
        let tree = Tree::of(alloc, nodes, links, hosts, steps.as_slice())?;
        Ok(Net::of_tree(alloc, tree)?)
    }

    /// The network of a tree, with the tables that it tells from.
    fn of_tree(alloc: Global, tree: Tree) -> Result<Net, AllocError>
        ensures { IfOk result (λ net. net ≡ tree) }
    {
        let sides = tree.all_sides(alloc)?;
        let outs = tree.all_outs(alloc)?;
        let least = tree.least_delay();
        let Ok(tree) = Arc::new(alloc, tree) else {
            return Err(AllocError);
        };
        Ok(Net {
            tree,
            sides,
            outs,
            least,
        })
    }

    /// How many members there are: at most [`MOST_NODES`](crate::limits::MOST_NODES).
    pub fn members(&self) -> u16
        ensures members { result ≡ length self.now.hosts }
        ensures network { IsNetwork self.now }
    {
        self.tree.members()
    }

    /// The links, in the order of their numbers: fewer than [`MOST_NODES`](crate::limits::MOST_NODES).
    pub fn links(&self) -> &[LinkSpec]
        ensures links { result.now ≡ self.now.links }
        ensures network { IsNetwork self.now }
    {
        self.tree.links()
    }

    /// The node of member `m`.
    pub fn host(&self, m: u16) -> u16
        requires { m < length self.now.hosts }
        ensures value { result ≡ host self.now m }
        ensures node { result < self.now.nodes }
    {
        self.tree.host(m)
    }

    /// How long a packet takes from member `a` to member `b`, in ticks: at most 65,534,000,000.
    pub fn distance(&self, a: u16, b: u16) -> u64
        requires a { a < length self.now.hosts }
        requires b { b < length self.now.hosts }
        ensures value { result ≡ distance self.now a b }
        ensures apart { a ≢ b → 1 ≤ result }
        ensures bounded { result ≤ greatest_distance }
        ensures network { IsNetwork self.now }
    {
        self.tree.distance(a, b)
    }

    /// The round trip between members `a` and `b`: how long a packet takes from `a` to `b`, and another one back, in ticks. It is
    /// at most 131,068,000,000, and the same from either end.
    pub fn round(&self, a: u16, b: u16) -> u64
        requires a { a < length self.now.hosts }
        requires b { b < length self.now.hosts }
        ensures value { result ≡ round self.now a b }
        ensures apart { a ≢ b → 2 ≤ result }
        ensures bounded { result ≤ 2 * greatest_distance }
        ensures network { IsNetwork self.now }
    {
        self.tree.round(a, b)
    }

    /// How many hops member `b` is from member `a`: the links on the way between them, whatever their delays. There are at most
    /// 65,534, as many from either end, and no more than by way of a third member
    /// ([`hops_are_a_metric`](crate::laws::hops_are_a_metric)).
    pub fn hops(&self, a: u16, b: u16) -> u16
        requires a { a < length self.now.hosts }
        requires b { b < length self.now.hosts }
        ensures value { result ≡ hops self.now a b }
        ensures network { IsNetwork self.now }
    {
        self.tree.hops(a, b)
    }

    /// Half the round trip between member `m` and each member in turn, rounded down, in ticks: at most 65,534,000,000 each. They
    /// are told on demand, and share the network's tables, which stay as long as one of them is used.
    ///
    /// # Errors
    /// [`AllocError`]; as it is written, only where some 2^63 share the tables, and no memory is asked for.
    pub fn half_rounds(&self, m: u16) -> Result<HalfRounds, AllocError>
        requires { m < length self.now.hosts }
        ensures value { IfOk result (λ ds. ds ≡ half_rounds_from self.now m) }
        ensures bounded { IfOk result (All (λ d. d ≤ greatest_distance)) }
    {
        HalfRounds::of(&self.tree, m)
    }

    /// How many hops each member in turn is from member `m`: at most 65,534 each. They are told on demand, and share the
    /// network's tables, which stay as long as one of them is used.
    ///
    /// # Errors
    /// [`AllocError`]; as it is written, only where some 2^63 share the tables, and no memory is asked for.
    pub fn hops_from(&self, m: u16) -> Result<HopsFrom, AllocError>
        requires { m < length self.now.hosts }
        ensures value { IfOk result (λ hs. hs ≡ hops_from self.now m) }
        ensures bounded { IfOk result (All (λ n. n < most_nodes)) }
    {
        HopsFrom::of(&self.tree, m)
    }

    /// The least delay of a link in either direction, in ticks and 1 to 1,000,000, or none where there is no link.
    pub fn least_delay(&self) -> Option<u64>
        ensures value { result ≡ least_delay self.now }
        ensures network { IsNetwork self.now }
    {
        self.least
    }

    /// The least distance from member `m` to another, in ticks and 1 to 65,534,000,000, or none where there is no other.
    pub fn out(&self, m: u16) -> Option<u64>
        requires { m < length self.now.hosts }
        ensures value { result ≡ out self.now m }
        ensures network { IsNetwork self.now }
    {
        self.outs[usize::from(m)]
    }

    /// Whether a packet of this scope, in hops, that is sent at the tick `sent` reaches member `m`: the member is within the
    /// scope, and no link of the way from its sender [takes it out](Drops::takes_out) when it comes there. It reaches its sender.
    pub fn reaches(
        &self,
        drops: &Drops,
        id: PacketId,
        sent: u64,
        scope: Option<u32>,
        m: u16,
    ) -> bool
        requires sent { sent < end_of_time }
        requires sender { id.sender < length self.now.hosts }
        requires member { m < length self.now.hosts }
        ensures { result ≡ reaches self.now drops.now id sent scope m }
    {
        if !self.tree.is_within(scope, id.sender, m) {
            return false;
        }
        let from = self.tree.host(id.sender);
        self.tree.is_clear(drops, id, sent, from, self.tree.host(m))
    }

    /// Whether a packet of this scope that is sent at the tick `sent` crosses a link: the link is on the way from its sender to
    /// some member, present or not, as far as the scope goes, and neither it nor an earlier link of that way
    /// [takes it out](Drops::takes_out) when it comes there.
    pub fn crosses(
        &self,
        drops: &Drops,
        id: PacketId,
        sent: u64,
        scope: Option<u32>,
        link: u16,
    ) -> bool
        requires sent { sent < end_of_time }
        requires sender { id.sender < length self.now.hosts }
        requires link { link < length self.now.links }
        ensures { result ≡ crosses self.now drops.now id sent scope link }
    {
        matches!(self.fate(drops, id, sent, scope, link), Fate::Crosses)
    }

    /// Whether a packet of this scope that is sent at the tick `sent` is dropped at a link: the link is on the way from its
    /// sender to some member, present or not, as far as the scope goes, and is the first of that way that
    /// [takes it out](Drops::takes_out) when it comes there.
    pub fn drops_at(
        &self,
        drops: &Drops,
        id: PacketId,
        sent: u64,
        scope: Option<u32>,
        link: u16,
    ) -> bool
        requires sent { sent < end_of_time }
        requires sender { id.sender < length self.now.hosts }
        requires link { link < length self.now.links }
        ensures { result ≡ drops_at self.now drops.now id sent scope link }
    {
        matches!(self.fate(drops, id, sent, scope, link), Fate::Dropped)
    }

    /// What becomes of a packet of this scope that is sent at the tick `sent` at a link, by one walk: whether it crosses the
    /// link, or is dropped there, on its way to some member, present or not.
    ///
    /// Of a packet without scope that may not be dropped at all, [`is_on_way`](Net::is_on_way) tells the same without a look at
    /// the drops.
    pub fn fate(
        &self,
        drops: &Drops,
        id: PacketId,
        sent: u64,
        scope: Option<u32>,
        link: u16,
    ) -> Fate
        requires sent { sent < end_of_time }
        requires sender { id.sender < length self.now.hosts }
        requires link { link < length self.now.links }
        ensures crosses { is_crossing result ≡ crosses self.now drops.now id sent scope link }
        ensures dropped { is_dropping result ≡ drops_at self.now drops.now id sent scope link }
    {
        match self.comes_to(drops, id, sent, scope, link) {
            None => Fate::Neither,
            Some(at) if drops.takes_out(id, link, at) => Fate::Dropped,
            Some(_) => Fate::Crosses,
        }
    }

    /// What becomes of a packet of this scope that is sent at the tick `sent`, at every node and link. Each link is looked at
    /// once; where the packet may not be dropped at all, none is, and no memory is asked for.
    ///
    /// # Errors
    /// [`AllocError`], only where the packet may be dropped.
    pub fn spread(
        &self,
        alloc: Global,
        drops: &Drops,
        id: PacketId,
        sent: u64,
        scope: Option<u32>,
    ) -> Result<Spread, AllocError>
        requires sent { sent < end_of_time }
        requires sender { id.sender < length self.now.hosts }
        ensures spread { IfOk result (IsSpread self.now drops.now id sent scope) }
        ensures fits { IfOk result (FitsIn self.now) }
        ensures asked { IfErr result (λ _. may_drop drops.now id sent ≡ true) }
    {
        let nodes = self.tree.nodes();
        if !drops.may_drop(id, sent) {
            return Ok(Spread::everywhere(id.sender, scope, nodes));
        }
        let packet = Sending {
            id,
            sent,
            from: self.host(id.sender),
            is_listed: drops.lists_somewhere(id),
        };
        let arrivals = self.tree.arrivals(alloc, drops, packet)?;
        let hops = self.tree.hops_for(alloc, scope, packet.from)?;
        Ok(Spread::told(id.sender, scope, nodes, arrivals, hops))
    }

    // Whether a member is within the scope of the packet of a spread.
    fn is_near(&self, spread: &Spread, m: u16) -> bool
        requires spread { FitsIn self.now spread.now }
        requires member { m < length self.now.hosts }
        ensures { (rules : DropRules) (p : PacketId) (sent : ℕ) (scope : Option ℕ) → IsSpread self.now rules p sent scope spread.now
            → result ≡ is_within scope (hops self.now p.sender m) }
    {
        match (spread.scope, &spread.hops) {
            (None, _) => true,
            (Some(most), Some(hops)) => {
                u32::from(hops.as_slice()[usize::from(self.host(m))]) <= most
            }
            (Some(_), None) => self.tree.is_within(spread.scope, spread.sender(), m),
        }
    }

    // Whether the farther end of a link is.
    fn is_link_near(&self, spread: &Spread, link: u16) -> bool
        requires spread { FitsIn self.now spread.now }
        requires link { link < length self.now.links }
        ensures { (k : LinkSpec) → slice_get self.now.links link ≡ Some k
            → (rules : DropRules) (p : PacketId) (sent : ℕ) (scope : Option ℕ) → IsSpread self.now rules p sent scope spread.now
            → result ≡ covers self.now scope (host self.now p.sender) k }
    {
        match (spread.scope, &spread.hops) {
            (None, _) => true,
            (Some(most), Some(hops)) => {
                let ends = self.tree.link(link);
                let hops = hops.as_slice();
                let farther = hops[usize::from(ends.a)].max(hops[usize::from(ends.b)]);
                u32::from(farther) <= most
            }
            (Some(_), None) => self.tree.covers(spread.scope, spread.sender(), link),
        }
    }

    /// When the packet of a spread, which is sent at the tick `sent`, comes to member `m`, in ticks, if it
    /// [`reaches`](Net::reaches) it. Where the packet might have been dropped this takes no walk.
    #[inline(always)]
    pub fn arrival(&self, spread: &Spread, sent: u64, m: u16) -> Option<u64>
        requires sent { sent < end_of_time }
        requires spread { FitsIn self.now spread.now }
        requires member { m < length self.now.hosts }
        ensures { (rules : DropRules) (p : PacketId) (scope : Option ℕ) → IsSpread self.now rules p sent scope spread.now
            → result ≡ (if reaches self.now rules p sent scope m then Some (sent + distance self.now p.sender m) else None) }
    {
        if !self.is_near(spread, m) {
            return None;
        }
        let Some(arrivals) = &spread.arrivals else {
            return Some(sent + self.distance(spread.sender(), m));
        };
        arrivals.as_slice()[usize::from(self.host(m))]
    }

    /// What becomes of the packet of a spread at a link, as [`fate`](Net::fate) tells it. It takes no walk, and no look at the
    /// drops.
    pub fn fate_in(&self, spread: &Spread, link: u16) -> Fate
        requires spread { FitsIn self.now spread.now }
        requires link { link < length self.now.links }
        ensures crosses { (rules : DropRules) (p : PacketId) (sent : ℕ) (scope : Option ℕ)
            → IsSpread self.now rules p sent scope spread.now → is_crossing result ≡ crosses self.now rules p sent scope link }
        ensures dropped { (rules : DropRules) (p : PacketId) (sent : ℕ) (scope : Option ℕ)
            → IsSpread self.now rules p sent scope spread.now → is_dropping result ≡ drops_at self.now rules p sent scope link }
    {
        if !self.joins_members(link) {
            return Fate::Neither;
        }
        if !self.is_link_near(spread, link) {
            return Fate::Neither;
        }
        let ends = self.tree.link(link);
        Fate::by_ends(spread.comes_to(ends.a), spread.comes_to(ends.b))
    }

    /// Whether a link is on the way from member `m` to some member, present or not. It takes no walk.
    ///
    /// A packet of `m` without scope that may not be dropped at all crosses exactly these links
    /// ([`unlisted_packets_go_everywhere`](crate::laws::unlisted_packets_go_everywhere)).
    pub fn is_on_way(&self, m: u16, link: u16) -> bool
        requires member { m < length self.now.hosts }
        requires link { link < length self.now.links }
        ensures { result ≡ is_on_way self.now m link }
    {
        let (_, is_any_beyond) = self.beyond(link, self.host(m));
        is_any_beyond
    }

    /// Whether a link is on the way between some two members, present or not: members are on both its sides. It takes no walk.
    ///
    /// These links are on the ways of every member, and no others are: every packet without scope that comes to all nodes crosses
    /// them ([`packets_cross_the_same_links`](crate::laws::packets_cross_the_same_links)).
    pub fn joins_members(&self, link: u16) -> bool
        requires link { link < length self.now.links }
        ensures value { result ≡ joins_members self.now link }
        ensures network { IsNetwork self.now }
    {
        let sides = self.sides[usize::from(link)];
        sides.a && sides.b
    }

    /// The end of a link that is nearer to a node, and whether any member is beyond the link from there.
    fn beyond(&self, link: u16, node: u16) -> (u16, bool)
        requires link { link < length self.now.links }
        requires node { node < self.now.nodes }
        ensures near { (k : LinkSpec) → slice_get self.now.links link ≡ Some k
            → result.0 ≡ near_end self.now link k node }
        ensures below { result.0 < self.now.nodes }
        ensures any { (k : LinkSpec) → slice_get self.now.links link ≡ Some k
            → result.1 ≡ some_beyond self.now link k node }
        ensures network { IsNetwork self.now }
    {
        let spec = self.tree.link(link);
        let sides = self.sides[usize::from(link)];
        if self.tree.is_beyond(link, node) {
            (spec.b, sides.a)
        } else {
            (spec.a, sides.b)
        }
    }

    /// The tick at which a packet comes to a link on its way to some member, where the link may yet drop it, or none where it
    /// does not come there.
    fn comes_to(
        &self,
        drops: &Drops,
        id: PacketId,
        sent: u64,
        scope: Option<u32>,
        link: u16,
    ) -> Option<u64>
        requires sent { sent < end_of_time }
        requires sender { id.sender < length self.now.hosts }
        requires link { link < length self.now.links }
        ensures crossed { IfSome result (λ at. crosses self.now drops.now id sent scope link
            ≡ not (takes_out drops.now id (stop link at))) }
        ensures dropped { IfSome result (λ at. drops_at self.now drops.now id sent scope link
            ≡ takes_out drops.now id (stop link at)) }
        ensures not_crossed { IfNone result (crosses self.now drops.now id sent scope link ≡ false) }
        ensures not_dropped { IfNone result (drops_at self.now drops.now id sent scope link ≡ false) }
    {
        if !self.tree.covers(scope, id.sender, link) {
            return None;
        }
        let from = self.host(id.sender);
        let (near, is_any_beyond) = self.beyond(link, from);
        if is_any_beyond && self.tree.is_clear(drops, id, sent, from, near) {
            Some(sent + self.tree.delay(from, near))
        } else {
            None
        }
    }
}
