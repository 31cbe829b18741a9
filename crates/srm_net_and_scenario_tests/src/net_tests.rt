//! The calls on small networks, and on the longest path.
use crate::networks::{
    LossyNet, fate, hops_between, is_on_way, links_between, packet, path, place_of, ticks_between,
};
use srm_net::drops::Drops;
use srm_net::fate::Fate;
use srm_net::fault::NetFault;
use srm_net::link::OutageSpec;
use srm_net::net::Net;
use srm_net::sequence::Sequence;
use std::alloc::Global;
use std::test::Fail;

// A tree of nodes 0 to 7 with a member on each, whose links all take two ticks.
fn tree_of_eight(alloc: Global) -> Result<Net, NetFault> {
    let pairs = [(1, 0), (2, 0), (3, 0), (4, 1), (5, 1), (6, 2), (7, 2)];
    let links = links_between(alloc, &pairs, 2, 2)?;
    Net::build(alloc, 8, &links, &[0, 1, 2, 3, 4, 5, 6, 7])
}

#[test]
fn members_and_links_of_a_tree(rt: HostRuntime) -> Result<(), Fail> {
    let net = tree_of_eight(rt.alloc())?;
    assert_eq!(rt; (net.members(), net.links().len()), (8, 7));
    Ok(())
}

#[test]
fn places_in_a_tree(rt: HostRuntime) {
    for m in [3, 5] {
        let place = place_of(tree_of_eight(rt.alloc()), m);
        assert_eq!(rt; place, Some((m, Some(2), Some(2))));
    }
}

#[test]
fn ticks_in_a_tree(rt: HostRuntime) {
    for (a, b, want) in [(4, 7, (8, 8, 16)), (4, 5, (4, 4, 8)), (6, 6, (0, 0, 0))] {
        let ticks = ticks_between(tree_of_eight(rt.alloc()), a, b);
        assert_eq!(rt; ticks, Some(want), "from {a} to {b}");
    }
}

// A chain of nodes 0 to 2 with a member on each. Its links take a tick one way, from node 0 to node 1 and from node 2 to
// node 1, and three ticks the other.
fn uneven_chain(alloc: Global) -> Result<Net, NetFault> {
    let links = links_between(alloc, &[(0, 1), (2, 1)], 1, 3)?;
    Net::build(alloc, 3, &links, &[0, 1, 2])
}

#[test]
fn ticks_in_an_uneven_chain(rt: HostRuntime) {
    for (a, b, want) in [(0, 1, (1, 3, 4)), (1, 2, (3, 1, 4)), (2, 0, (4, 4, 8))] {
        let ticks = ticks_between(uneven_chain(rt.alloc()), a, b);
        assert_eq!(rt; ticks, Some(want), "from {a} to {b}");
    }
}

#[test]
fn least_ticks_in_an_uneven_chain(rt: HostRuntime) {
    for (m, out) in [(0, 1), (1, 3), (2, 1)] {
        let place = place_of(uneven_chain(rt.alloc()), m);
        assert_eq!(rt; place, Some((m, Some(out), Some(1))));
    }
}

#[test]
fn lone_node(rt: HostRuntime) {
    let place = place_of(Net::build(rt.alloc(), 1, &[], &[0]), 0);
    assert_eq!(rt; place, Some((0, None, None)));
}

#[test]
fn no_member(rt: HostRuntime) -> Result<(), Fail> {
    let links = path(rt.alloc(), 1, 2, 2)?;
    let net = Net::build(rt.alloc(), 2, &links, &[])?;
    assert_eq!(rt; net.members(), 0);
    Ok(())
}

// Why there is no network of these links, all of two ticks, without members.
fn fault_of(alloc: Global, nodes: u16, pairs: &[(u16, u16)]) -> Option<NetFault> {
    let links = links_between(alloc, pairs, 2, 2).ok()?;
    Net::build(alloc, nodes, &links, &[]).err()
}

#[test]
fn links_that_make_no_tree(rt: HostRuntime) {
    let not_tree = Some(NetFault::NotTree);
    assert_eq!(rt; fault_of(rt.alloc(), 3, &[(0, 1), (1, 0)]), not_tree);
    assert_eq!(rt; fault_of(rt.alloc(), 0, &[]), not_tree);
    assert_eq!(rt; fault_of(rt.alloc(), 2, &[(0, 2)]), not_tree);
}

// Why there is no network of nodes 0 and 1 with a link of these delays, and members on these nodes.
fn fault_of_pair(alloc: Global, delay: u64, back: u64, hosts: &[u16]) -> Option<NetFault> {
    let links = path(alloc, 1, delay, back).ok()?;
    Net::build(alloc, 2, &links, hosts).err()
}

#[test]
fn delays_out_of_range(rt: HostRuntime) {
    for (delay, back) in [(0, 1), (1, 1_000_001)] {
        let fault = fault_of_pair(rt.alloc(), delay, back, &[0, 0]);
        assert_eq!(rt; fault, Some(NetFault::BadDelay), "{delay} and {back} ticks");
    }
}

#[test]
fn members_on_one_node_or_on_none(rt: HostRuntime) {
    let bad_host = Some(NetFault::BadHost);
    assert_eq!(rt; fault_of_pair(rt.alloc(), 2, 2, &[0, 0]), bad_host);
    assert_eq!(rt; fault_of_pair(rt.alloc(), 2, 2, &[2]), bad_host);
}

// A path of 65,535 nodes is a network: there are no more numbers of nodes. Its last link, to which a packet from the first node
// comes after 65,533 links of 1,000,000 ticks, is out for a tick.
fn longest_path(alloc: Global) -> Result<LossyNet, NetFault> {
    let links = path(alloc, 65_534, 1_000_000, 1)?;
    let outage = OutageSpec {
        link: 65_533,
        from: 65_533_000_000,
        to: 65_533_000_001,
    };
    LossyNet::build(alloc, &links, &[0, 65_534], &[], &[outage])
}

#[test]
fn ticks_over_most_nodes(rt: HostRuntime) {
    let net = longest_path(rt.alloc()).map(|path| path.net);
    let ticks = (65_534_000_000, 65_534, 65_534_065_534);
    assert_eq!(rt; ticks_between(net, 0, 1), Some(ticks));
}

#[test]
fn hops_whatever_the_delays(rt: HostRuntime) {
    for (a, b, want) in [(4, 7, 4), (4, 5, 2), (0, 3, 1), (6, 6, 0)] {
        let hops = hops_between(tree_of_eight(rt.alloc()), a, b);
        assert_eq!(rt; hops, Some(want), "from {a} to {b}");
    }
    assert_eq!(rt; hops_between(uneven_chain(rt.alloc()), 2, 0), Some(2));
    let net = longest_path(rt.alloc()).map(|path| path.net);
    assert_eq!(rt; hops_between(net, 1, 0), Some(65_534));
}

#[test]
fn outage_behind_most_nodes(rt: HostRuntime) -> Result<(), Fail> {
    let path = longest_path(rt.alloc())?;
    let id = packet(0, 0);
    let told = [path.reaches(id, 0, 1), path.reaches(id, 1, 1)];
    assert_eq!(rt; told, [Some(false), Some(true)]);
    Ok(())
}

// A path of 65,536 nodes is none.
#[test]
fn more_nodes_than_there_are_numbers(rt: HostRuntime) -> Result<(), Fail> {
    let links = path(rt.alloc(), 65_535, 2, 2)?;
    let fault = Net::build(rt.alloc(), 65_535, &links, &[0]).err();
    assert_eq!(rt; fault, Some(NetFault::NotTree));
    Ok(())
}

// A chain of nodes 0 to 2 with members on nodes 0 and 1: link 1 leads to nobody.
fn chain_to_nobody(alloc: Global) -> Result<LossyNet, NetFault> {
    let links = path(alloc, 2, 2, 2)?;
    LossyNet::build(alloc, &links, &[0, 1], &[], &[])
}

#[test]
fn link_to_nobody(rt: HostRuntime) {
    for (m, link, is_way) in [(0, 0, true), (1, 0, true), (0, 1, false), (1, 1, false)] {
        let told = is_on_way(chain_to_nobody(rt.alloc()), m, link);
        assert_eq!(rt; told, Some(is_way), "from member {m} at link {link}");
    }
}

#[test]
fn fates_at_a_link_to_nobody(rt: HostRuntime) {
    for (link, want) in [(0, Fate::Crosses), (1, Fate::Neither)] {
        let told = fate(chain_to_nobody(rt.alloc()), packet(1, 0), 0, link);
        assert_eq!(rt; told, Some(want), "at link {link}");
    }
}

#[test]
fn sequences(rt: HostRuntime) -> Result<(), Fail> {
    let mut numbers: Sequence<u8> = Sequence::new(rt.alloc());
    assert!(rt; numbers.is_empty());
    numbers.push(7)?;
    let copy = numbers.clone()?;
    assert_eq!(rt; copy.len(), 1);
    assert_eq!(rt; copy.as_slice(), [7].as_slice());
    let whole = Sequence::from_vec(numbers.into_vec());
    assert_eq!(rt; whole.as_slice(), [7].as_slice());
    Ok(())
}

fn is_shared<T: Sync + Send>(_value: &T) -> bool {
    true
}

#[test]
fn shared_between_threads(rt: HostRuntime) -> Result<(), Fail> {
    let net = Net::build(rt.alloc(), 1, &[], &[0])?;
    let drops = Drops::of(rt.alloc(), &[], &[], &[], 0)?;
    assert!(rt; is_shared(&net) && is_shared(&drops));
    Ok(())
}
