//! What becomes of packets that links drop.
use crate::networks::{LossyNet, fate, links_between, packet, reaches};
use srm_net::drops::Drops;
use srm_net::fate::Fate;
use srm_net::fault::NetFault;
use srm_net::link::{DropSpec, OutageSpec};
use std::alloc::Global;

// Link 1 drops the first packet of member 0.
fn listed_drop() -> DropSpec {
    DropSpec {
        link: 1,
        id: packet(0, 0),
    }
}

const fn outage(link: u16, from: u64, to: u64) -> OutageSpec {
    OutageSpec { link, from, to }
}

// The listed drop, which stands in the list twice.
fn listed_twice(alloc: Global) -> Result<Drops, NetFault> {
    Drops::of(alloc, &[listed_drop(), listed_drop()], &[], &[], 0)
}

// Whether a link lists a packet of member 0, and takes it out at tick 0.
fn is_listed(drops: Result<Drops, NetFault>, count: u64, link: u16) -> Option<(bool, bool)> {
    let drops = drops.ok()?;
    let id = packet(0, count);
    Some((drops.lists(link, id), drops.takes_out(id, link, 0)))
}

#[test]
fn a_drop_that_is_listed_twice(rt: HostRuntime) {
    for (count, link, want) in [(0, 1, true), (0, 0, false), (1, 1, false)] {
        let told = is_listed(listed_twice(rt.alloc()), count, link);
        assert_eq!(rt; told, Some((want, want)), "packet {count} at link {link}");
    }
}

// A chain of nodes 0 to 3 with a member on each but node 2, and the listed drop.
fn chain_with_a_drop(alloc: Global) -> Result<LossyNet, NetFault> {
    let links = links_between(alloc, &[(0, 1), (2, 1), (2, 3)], 2, 2)?;
    LossyNet::build(alloc, &links, &[0, 1, 3], &[listed_drop()], &[])
}

#[test]
fn members_before_and_behind_a_drop(rt: HostRuntime) {
    for (count, m, want) in [(0, 0, true), (0, 1, true), (0, 2, false), (1, 2, true)] {
        let told = reaches(chain_with_a_drop(rt.alloc()), packet(0, count), 0, m);
        assert_eq!(rt; told, Some(want), "packet {count} to member {m}");
    }
}

#[test]
fn links_before_at_and_behind_a_drop(rt: HostRuntime) {
    for (count, link, want) in [
        (0, 0, Fate::Crosses),
        (0, 1, Fate::Dropped),
        (0, 2, Fate::Neither),
        (1, 1, Fate::Crosses),
        (1, 2, Fate::Crosses),
    ] {
        let told = fate(chain_with_a_drop(rt.alloc()), packet(0, count), 0, link);
        assert_eq!(rt; told, Some(want), "packet {count} at link {link}");
    }
}

// A chain of nodes 0 to 2 with a member on each, whose links take 1 tick from the node in the middle and 3 to it. A link is out
// for the tick `at`. A packet of member 0 comes to link 1 three ticks after it is sent, and one of member 2 at once.
fn chain_to_the_middle(alloc: Global, link: u16, at: u64) -> Result<LossyNet, NetFault> {
    let links = links_between(alloc, &[(1, 0), (1, 2)], 1, 3)?;
    let outage = outage(link, at, at.saturating_add(1));
    LossyNet::build(alloc, &links, &[0, 1, 2], &[], &[outage])
}

#[test]
fn an_outage_in_either_direction(rt: HostRuntime) {
    for (sender, sent, want) in [
        (0, 0, Fate::Dropped),
        (2, 2, Fate::Crosses),
        (2, 3, Fate::Dropped),
    ] {
        let told = fate(
            chain_to_the_middle(rt.alloc(), 1, 3),
            packet(sender, 0),
            sent,
            1,
        );
        assert_eq!(rt; told, Some(want), "from member {sender} at {sent}");
    }
}

// Several outages of a link, of which the first to begin lasts longest, with others of links beside it; and a listed drop.
fn many_outages(alloc: Global) -> Result<Drops, NetFault> {
    let outages = [
        outage(2, 0, 90),
        outage(1, 30, 40),
        outage(1, 10, 60),
        outage(0, 55, 99),
        outage(1, 20, 25),
        outage(1, 70, 71),
    ];
    let drop = DropSpec {
        link: 0,
        id: packet(0, 0),
    };
    Drops::of(alloc, &[drop], &outages, &[], 0)
}

// Whether a link takes out the first packet of member 0 at a tick.
fn takes_out(drops: Result<Drops, NetFault>, link: u16, at: u64) -> Option<bool> {
    Some(drops.ok()?.takes_out(packet(0, 0), link, at))
}

#[test]
fn ticks_in_and_beside_many_outages(rt: HostRuntime) {
    for (link, tick, want) in [
        (1, 0, false),
        (1, 9, false),
        (1, 10, true),
        (1, 29, true),
        (1, 50, true),
        (1, 59, true),
        (1, 60, false),
        (1, 69, false),
        (1, 70, true),
        (1, 71, false),
        (1, 1 << 40, false),
        (0, 0, true),
        (2, 0, true),
        (2, 90, false),
        (3, 50, false),
    ] {
        let told = takes_out(many_outages(rt.alloc()), link, tick);
        assert_eq!(rt; told, Some(want), "link {link} at {tick}");
    }
}
