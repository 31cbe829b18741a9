//! What becomes of packets that links lose at random. The words are worked out by hand, in another language.
use crate::networks::{LossyNet, fate, packet, path, reaches};
use srm_net::drops::Drops;
use srm_net::fate::Fate;
use srm_net::fault::NetFault;
use srm_net::link::{DropSpec, LossSpec, OutageSpec};
use srm_net::net::Net;
use srm_net::packet::PacketId;
use std::alloc::Global;
use std::test::Fail;

const SEED: u64 = 9;

// The greatest rate, at which every packet is lost.
const ALL: u32 = 1_000_000;

const fn loss(link: u16, rate: u32, stream: u64) -> LossSpec {
    LossSpec {
        link,
        rate,
        stream,
        from: 0,
        to: None,
        burst: None,
    }
}

// One that is on from the tick `from` up to below `to`.
const fn loss_of_all(link: u16, from: u64, to: Option<u64>) -> LossSpec {
    LossSpec {
        link,
        rate: ALL,
        stream: 0,
        from,
        to,
        burst: None,
    }
}

// A chain of nodes 0 to 2 with a member on each, whose links take 5 ticks.
fn chain(alloc: Global, drops: Drops) -> Result<LossyNet, NetFault> {
    let links = path(alloc, 2, 5, 5)?;
    Ok(LossyNet {
        net: Net::build(alloc, 3, &links, &[0, 1, 2])?,
        drops,
    })
}

// The chain with a loss of each link: of 3 packets in 10 at link 0, and of 6 in 10 at link 1.
fn chain_with_two_losses(alloc: Global) -> Result<LossyNet, NetFault> {
    let losses = [loss(0, 300_000, 5), loss(1, 600_000, 6)];
    let drops = Drops::of(alloc, &[], &[], &losses, SEED)?;
    chain(alloc, drops)
}

#[test]
fn packets_on_a_chain_with_two_losses(rt: HostRuntime) {
    let (crosses, dropped, neither) = (Fate::Crosses, Fate::Dropped, Fate::Neither);
    for (id, at_0, at_1) in [
        (packet(0, 0), crosses, crosses),
        (packet(0, 3), dropped, neither),
        (packet(0, 5), crosses, dropped),
        (packet(1, 0), crosses, dropped),
        (packet(1, 3), crosses, crosses),
        (packet(2, 0), neither, dropped),
        (packet(2, 2), dropped, crosses),
        (packet(2, 3), crosses, crosses),
    ] {
        let first = fate(chain_with_two_losses(rt.alloc()), id, 0, 0);
        let second = fate(chain_with_two_losses(rt.alloc()), id, 0, 1);
        assert_eq!(rt; first, Some(at_0), "{id:?} at link 0");
        assert_eq!(rt; second, Some(at_1), "{id:?} at link 1");
    }
}

#[test]
fn members_behind_two_losses(rt: HostRuntime) {
    for (id, reached) in [
        (packet(0, 0), [true, true, true]),
        (packet(0, 3), [true, false, false]),
        (packet(0, 5), [true, true, false]),
        (packet(2, 0), [false, false, true]),
        (packet(2, 2), [false, true, true]),
    ] {
        for (m, want) in reached.iter().enumerate() {
            let told = reaches(chain_with_two_losses(rt.alloc()), id, 0, m as u16);
            assert_eq!(rt; told, Some(*want), "{id:?} to member {m}");
        }
    }
}

// Whether link 1 takes out a packet that comes there at a tick.
fn takes_out(drops: Result<Drops, NetFault>, id: PacketId, at: u64) -> Option<bool> {
    Some(drops.ok()?.takes_out(id, 1, at))
}

// The word of the first packet of member 0 at link 1 is 0x9a19b87a for seed 42 and stream 54.
#[test]
fn rates_at_both_sides_of_a_word(rt: HostRuntime) {
    for (rate, want) in [(1, false), (601_954, false), (601_955, true), (ALL, true)] {
        let drops = Drops::of(rt.alloc(), &[], &[], &[loss(1, rate, 54)], 42);
        assert_eq!(rt;
            takes_out(drops, packet(0, 0), 0),
            Some(want),
            "rate {rate}"
        );
    }
}

#[test]
fn what_the_word_depends_on(rt: HostRuntime) {
    for (seed, stream, id, want) in [
        (42, 54, packet(0, 0), true),
        (43, 54, packet(0, 0), false),
        (42, 55, packet(0, 0), false),
        (42, 54, packet(0, 1), false),
    ] {
        let drops = Drops::of(rt.alloc(), &[], &[], &[loss(1, 601_955, stream)], seed);
        let told = takes_out(drops, id, 0);
        assert_eq!(rt; told, Some(want), "seed {seed}, stream {stream}, {id:?}");
    }
}

// Of slots 0 to 4 of 40 ticks, slot 1 alone has a word that a rate of a tenth takes, for seed 0 and stream 1 at link 1.
#[test]
fn slots_of_a_loss(rt: HostRuntime) {
    let slots = LossSpec {
        burst: Some(40),
        ..loss(1, 100_000, 1)
    };
    for id in [packet(0, 0), packet(1, 0), packet(2, 7)] {
        for (at, want) in [
            (0, false),
            (39, false),
            (40, true),
            (50, true),
            (79, true),
            (80, false),
            (199, false),
        ] {
            let drops = Drops::of(rt.alloc(), &[], &[], &[slots], 0);
            assert_eq!(rt; takes_out(drops, id, at), Some(want), "{id:?} at {at}");
        }
    }
}

#[test]
fn another_seed_afterwards(rt: HostRuntime) {
    for (seed, want) in [(42, true), (43, false)] {
        let drops = Drops::of(rt.alloc(), &[], &[], &[loss(1, 601_955, 54)], 7);
        let drops = drops.map(|drops| drops.with_seed(seed));
        assert_eq!(rt;
            takes_out(drops, packet(0, 0), 0),
            Some(want),
            "seed {seed}"
        );
    }
}

#[test]
fn two_seeds_share_their_losses(rt: HostRuntime) -> Result<(), Fail> {
    let one = Drops::of(rt.alloc(), &[], &[], &[loss(1, 601_955, 54)], 43)?;
    let other = one.share()?.with_seed(42);
    let id = packet(0, 0);
    assert!(rt; !one.takes_out(id, 1, 0) && other.takes_out(id, 1, 0));
    Ok(())
}

#[test]
fn the_greatest_rate_drops_all(rt: HostRuntime) {
    let whole = OutageSpec {
        link: 1,
        from: 0,
        to: 1 << 41,
    };
    for id in [packet(0, 0), packet(0, 7), packet(1, 1), packet(2, 1 << 40)] {
        let listed = DropSpec { link: 1, id };
        for drops in [
            Drops::of(rt.alloc(), &[], &[], &[loss(1, ALL, 3)], SEED),
            Drops::of(rt.alloc(), &[], &[whole], &[], SEED),
            Drops::of(rt.alloc(), &[listed], &[], &[], SEED),
        ] {
            assert_eq!(rt; takes_out(drops, id, 12), Some(true), "{id:?}");
        }
    }
}

#[test]
fn ticks_at_both_edges_of_a_loss(rt: HostRuntime) {
    for (from, to, at, want) in [
        (5, Some(6), 4, false),
        (5, Some(6), 5, true),
        (5, Some(6), 6, false),
        (6, Some(8), 7, true),
        (6, Some(8), 8, false),
        (6, None, 5, false),
        (6, None, 6, true),
        (0, None, u64::MAX, true),
    ] {
        let drops = Drops::of(rt.alloc(), &[], &[], &[loss_of_all(1, from, to)], SEED);
        let told = takes_out(drops, packet(0, 0), at);
        assert_eq!(rt; told, Some(want), "from {from} to {to:?} at {at}");
    }
}

// Several losses of link 1, with others of links beside it.
fn many_losses(alloc: Global) -> Result<Drops, NetFault> {
    let losses = [
        loss_of_all(2, 0, Some(90)),
        loss_of_all(1, 30, Some(40)),
        loss(0, ALL, 4),
        loss_of_all(1, 10, Some(12)),
        loss_of_all(7, 50, None),
        loss_of_all(1, 70, Some(71)),
    ];
    Drops::of(alloc, &[], &[], &losses, SEED)
}

#[test]
fn ticks_in_and_beside_many_losses(rt: HostRuntime) {
    for (link, at, want) in [
        (1, 9, false),
        (1, 10, true),
        (1, 12, false),
        (1, 30, true),
        (1, 39, true),
        (1, 40, false),
        (1, 70, true),
        (1, 71, false),
        (0, 71, true),
        (2, 89, true),
        (2, 90, false),
        (3, 10, false),
        (7, 49, false),
        (7, 50, true),
        (8, 50, false),
        (u16::MAX, 50, false),
    ] {
        let told = many_losses(rt.alloc()).map(|drops| drops.takes_out(packet(1, 2), link, at));
        assert_eq!(rt; told.ok(), Some(want), "link {link} at {at}");
    }
}

#[test]
fn packets_that_a_loss_may_drop(rt: HostRuntime) {
    for (to, sent, want) in [
        (Some(6), 5, true),
        (Some(6), 6, false),
        (None, 1 << 40, true),
    ] {
        let losses = [loss_of_all(1, 5, to), loss_of_all(0, 0, Some(3))];
        let told = Drops::of(rt.alloc(), &[], &[], &losses, SEED);
        let told = told.map(|drops| drops.may_drop(packet(0, 0), sent));
        assert_eq!(rt; told.ok(), Some(want), "to {to:?} sent at {sent}");
    }
}
