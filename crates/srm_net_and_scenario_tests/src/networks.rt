//! Networks whose links drop packets, and what tests ask of them. A question has no answer where there is no network, or it has
//! no such member or link.
use srm_net::drops::Drops;
use srm_net::fate::Fate;
use srm_net::fault::NetFault;
use srm_net::link::{DropSpec, LinkSpec, OutageSpec};
use srm_net::net::Net;
use srm_net::packet::PacketId;
use std::alloc::{AllocError, Global};

/// Packets are sent before this tick.
pub const END_OF_TIME: u64 = 1 << 40;

/// The links between these pairs of nodes, which take `delay` ticks from the first node of a pair to the second, and `back` ticks
/// the other way.
pub fn links_between(
    alloc: Global,
    pairs: &[(u16, u16)],
    delay: u64,
    back: u64,
) -> Result<Vec<LinkSpec>, AllocError> {
    let mut links = Vec::new(alloc);
    for (a, b) in pairs {
        links.push(LinkSpec {
            a: *a,
            b: *b,
            delay,
            back,
        })?;
    }
    Ok(links)
}

/// The links of a path of nodes 0 to `links`, with the same delays as those of [`links_between`].
pub fn path(alloc: Global, links: u16, delay: u64, back: u64) -> Result<Vec<LinkSpec>, AllocError> {
    let mut path = Vec::new(alloc);
    for node in 0..links {
        path.push(LinkSpec {
            a: node,
            b: node + 1,
            delay,
            back,
        })?;
    }
    Ok(path)
}

/// The packet of a member that it sends after so many others.
pub const fn packet(sender: u16, count: u64) -> PacketId {
    PacketId { sender, count }
}

/// The ticks from one member to another, those from there back, and those of the round trip.
pub fn ticks_between(net: Result<Net, NetFault>, a: u16, b: u16) -> Option<(u64, u64, u64)> {
    let net = net.ok()?;
    if a < net.members() && b < net.members() {
        Some((net.distance(a, b), net.distance(b, a), net.round(a, b)))
    } else {
        None
    }
}

/// How many hops one member is from another, where the list of those from it tells the same.
pub fn hops_between(net: Result<Net, NetFault>, a: u16, b: u16) -> Option<u16> {
    let net = net.ok()?;
    if a >= net.members() || b >= net.members() {
        return None;
    }
    let hops = net.hops(a, b);
    let listed = net.hops_from(a).ok()?.get(b);
    (listed == Some(hops)).then_some(hops)
}

/// The node of a member, the least ticks from it to another, and the least delay of a link.
pub fn place_of(net: Result<Net, NetFault>, m: u16) -> Option<(u16, Option<u64>, Option<u64>)> {
    let net = net.ok()?;
    if m < net.members() {
        Some((net.host(m), net.out(m), net.least_delay()))
    } else {
        None
    }
}

/// A network, and what its links drop.
#[derive(Drop)]
pub struct LossyNet {
    /// The network.
    pub net: Net,
    /// What its links drop.
    pub drops: Drops,
}

impl LossyNet {
    /// The network of these links, whose nodes are one more, with members on these nodes.
    pub fn build(
        alloc: Global,
        links: &[LinkSpec],
        hosts: &[u16],
        drops: &[DropSpec],
        outages: &[OutageSpec],
    ) -> Result<LossyNet, NetFault> {
        let nodes = u16::try_from(links.len()).unwrap_or(0).saturating_add(1);
        Ok(LossyNet {
            net: Net::build(alloc, nodes, links, hosts)?,
            drops: Drops::of(alloc, drops, outages, &[], 0)?,
        })
    }

    /// Whether a packet reaches a member.
    pub fn reaches(&self, id: PacketId, sent: u64, m: u16) -> Option<bool> {
        let members = self.net.members();
        if sent < END_OF_TIME && id.sender < members && m < members {
            Some(self.net.reaches(&self.drops, id, sent, None, m))
        } else {
            None
        }
    }
}

/// Whether a packet reaches a member.
pub fn reaches(on: Result<LossyNet, NetFault>, id: PacketId, sent: u64, m: u16) -> Option<bool> {
    on.ok()?.reaches(id, sent, m)
}

/// What becomes of a packet at a link, by the three calls that tell it. There is no answer where they tell anything else.
pub fn fate(on: Result<LossyNet, NetFault>, id: PacketId, sent: u64, link: u16) -> Option<Fate> {
    let LossyNet { net, drops } = on.ok()?;
    if sent >= END_OF_TIME || id.sender >= net.members() || usize::from(link) >= net.links().len() {
        return None;
    }
    let fate = net.fate(&drops, id, sent, None, link);
    let crosses = net.crosses(&drops, id, sent, None, link);
    let dropped = net.drops_at(&drops, id, sent, None, link);
    let agree = (crosses, dropped) == (fate == Fate::Crosses, fate == Fate::Dropped);
    agree.then_some(fate)
}

/// Whether a link is on the way from a member to some member.
pub fn is_on_way(net: Result<LossyNet, NetFault>, m: u16, link: u16) -> Option<bool> {
    let LossyNet { net, drops: _ } = net.ok()?;
    if m < net.members() && usize::from(link) < net.links().len() {
        Some(net.is_on_way(m, link))
    } else {
        None
    }
}
