//! The spread of a packet on small networks.
ghost use Rattle.std.specs.Prelude.{◌≡◌};

use crate::networks::{END_OF_TIME, LossyNet, links_between, path};
use srm_net::drops::Drops;
use srm_net::fate::Fate;
use srm_net::fault::NetFault;
use srm_net::link::DropSpec;
use srm_net::net::Net;
use srm_net::packet::PacketId;
use std::alloc::Global;
use std::test::Fail;

// The first packet of member 0.
const fn first_packet() -> PacketId
    ensures { result.sender ≡ 0 }
{
    PacketId {
        sender: 0,
        count: 0,
    }
}

// Whether the spread of that packet, of this scope, reaches a member. There is no answer where there is no network, or it has no
// such member.
fn is_reached(
    alloc: Global,
    on: Result<LossyNet, NetFault>,
    sent: u64,
    scope: Option<u32>,
    m: u16,
) -> Option<bool> {
    let LossyNet { net, drops } = on.ok()?;
    if sent >= END_OF_TIME || m >= net.members() {
        return None;
    }
    let Ok(spread) = net.spread(alloc, &drops, first_packet(), sent, scope) else {
        return None;
    };
    Some(net.arrival(&spread, sent, m).is_some())
}

// What the same spread tells of a link. There is no answer where there is no network, or it has no member or no such link.
fn fate(
    alloc: Global,
    on: Result<LossyNet, NetFault>,
    sent: u64,
    scope: Option<u32>,
    link: u16,
) -> Option<Fate> {
    let LossyNet { net, drops } = on.ok()?;
    if sent >= END_OF_TIME || net.members() == 0 || usize::from(link) >= net.links().len() {
        return None;
    }
    let Ok(spread) = net.spread(alloc, &drops, first_packet(), sent, scope) else {
        return None;
    };
    Some(net.fate_in(&spread, link))
}

// A star of links from node 0, which hosts nobody, to nodes 1 to 4, of which node 4 hosts nobody either. Link 1, to member 1,
// drops a packet of member 0.
fn star_with_a_drop(alloc: Global) -> Result<LossyNet, NetFault> {
    let drop = DropSpec {
        link: 1,
        id: first_packet(),
    };
    let links = links_between(alloc, &[(0, 1), (2, 0), (0, 3), (0, 4)], 1, 3)?;
    LossyNet::build(alloc, &links, &[1, 2, 3], &[drop], &[])
}

#[test]
fn members_of_a_star(rt: HostRuntime) {
    let alloc = rt.alloc();
    for (scope, m, want) in [
        (None, 0, true),
        (None, 1, false),
        (Some(1), 2, false),
        (Some(2), 2, true),
    ] {
        let told = is_reached(alloc, star_with_a_drop(alloc), 7, scope, m);
        assert_eq!(rt; told, Some(want), "member {m}, scope {scope:?}");
    }
}

#[test]
fn links_of_a_star(rt: HostRuntime) {
    let alloc = rt.alloc();
    for (scope, link, want) in [
        (None, 1, Fate::Dropped),
        (None, 3, Fate::Neither),
        (Some(1), 0, Fate::Crosses),
        (Some(1), 1, Fate::Neither),
        (Some(2), 1, Fate::Dropped),
    ] {
        let told = fate(alloc, star_with_a_drop(alloc), 7, scope, link);
        assert_eq!(rt; told, Some(want), "link {link}, scope {scope:?}");
    }
}

// The last link of a path of 1,024 nodes drops a packet of the member on its first node.
fn drop_at_the_end() -> DropSpec {
    DropSpec {
        link: 1022,
        id: first_packet(),
    }
}

#[test]
fn the_link_before_a_drop_at_the_end_of_the_longest_chain(rt: HostRuntime) -> Result<(), Fail> {
    let links = path(rt.alloc(), 1023, 1, 3)?;
    let net = Net::build(rt.alloc(), 1024, &links, &[0, 512, 1023])?;
    let drops = Drops::of(rt.alloc(), &[drop_at_the_end()], &[], &[], 0)?;
    let told = fate(rt.alloc(), Ok(LossyNet { net, drops }), 0, None, 1021);
    assert_eq!(rt; told, Some(Fate::Crosses));
    Ok(())
}
