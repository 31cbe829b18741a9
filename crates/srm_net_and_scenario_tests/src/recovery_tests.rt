//! What a scenario of version 5 answers of scopes, of how members ask again and repairs come back, and of losses in bursts.
use crate::networks::packet;
use srm_scenario::feed::ReadFeed;
use srm_scenario::reading::read_scenario;
use srm_scenario::scenario::Scenario;
use std::alloc::Global;
use std::test::Fail;

// A chain of nine nodes.
const CHAIN: &str = "until = 200\nc1 = 1000\nc2 = 0\nd1 = 1000\nd2 = 0
topology = \"chain\"
size = 9
delay = 5
";

// The scenario of a version on that chain, with these lines.
fn scenario(alloc: Global, version: u64, lines: &str) -> Result<Scenario, Fail> {
    let text = format!(in alloc; "version = {version}\n{CHAIN}{lines}")?;
    Ok(read_scenario(alloc, &mut ReadFeed::new(text.as_str().as_bytes()))?)
}

// Members with and without a scope of their own, two of which stand for two.
const MEMBERS: &str = "member = [
  { node = 0, role = \"sender\", stream = 1 },
  { node = 1, role = \"receiver\", stream = 2, scope = 0 },
  { node = 2, role = \"late\", stream = 3, scope = 65535, times = 2 },
  { node = 4, role = \"receiver\", stream = 5, times = 2, every = 2 },
  { node = 5, role = \"listener\", stream = 7 },
]
";

// The scope of a member, if there is one.
fn scope_of(s: &Scenario, m: u16) -> Option<u16> {
    if m < s.members() {
        Some(s.scope(m))
    } else {
        None
    }
}

#[test]
fn each_member_has_its_own_scope_or_that_of_all(rt: HostRuntime) -> Result<(), Fail> {
    let lines = format!(in rt.alloc(); "scope = 3\n{MEMBERS}")?;
    let s = scenario(rt.alloc(), 5, lines.as_str())?.with_seed(7);
    for (m, want) in [
        (0, 3),
        (1, 0),
        (2, 65_535),
        (3, 65_535),
        (4, 3),
        (5, 3),
        (6, 3),
    ] {
        assert_eq!(rt; scope_of(&s, m), Some(want), "member {m}");
    }
    let s = scenario(rt.alloc(), 5, MEMBERS)?;
    for (m, want) in [(0, 0), (1, 0), (2, 65_535), (5, 0)] {
        assert_eq!(rt; scope_of(&s, m), Some(want), "member {m}");
    }
    Ok(())
}

#[test]
fn a_scenario_answers_how_members_recover(rt: HostRuntime) -> Result<(), Fail> {
    for (version, lines, want) in [
        (4, "", (0, 1, 2)),
        (5, "", (0, 1, 2)),
        (5, "widen = 65535\ntries = 10\nsteps = 1\n", (65_535, 10, 1)),
        (5, "widen = 0\ntries = 1\nsteps = 2\n", (0, 1, 2)),
    ] {
        let s = scenario(rt.alloc(), version, lines)?.share()?;
        assert_eq!(rt;
            (s.widen(), s.tries(), s.steps()),
            want,
            "version {version}: {lines}"
        );
    }
    Ok(())
}

// Whether a link of a scenario takes out a packet of member 0 at a tick.
fn takes_out(s: &Scenario, count: u64, link: u16, at: u64) -> bool {
    s.drops().takes_out(packet(0, count), link, at)
}

// On link 1 the words of stream 1 and seed 0 are ddf66d04, 0f7bf471, 5edac5a1, .. in slots 0, 1, 2, .., of which the loss takes
// that of slot 1.
#[test]
fn a_loss_in_bursts_takes_whole_slots(rt: HostRuntime) -> Result<(), Fail> {
    let bursts = "loss = [{ link = 0, rate = 100000, stream = 1, burst = 40, times = 2 }]\n";
    let s = scenario(rt.alloc(), 5, bursts)?;
    for (count, at, want) in [
        (2, 39, false),
        (0, 40, true),
        (3, 59, true),
        (5, 79, true),
        (6, 80, false),
        (7, 120, false),
        (8, 199, false),
    ] {
        assert_eq!(rt; takes_out(&s, count, 1, at), want, "packet {count} at {at}");
    }
    Ok(())
}

// Of a slot as long as time the words of link 0 and stream 0 are 6c0750d5, 1d4bd91e, 8be9bcfe, .. for seeds 0, 1, 2, ..
#[test]
fn the_longest_burst_takes_all_or_nothing(rt: HostRuntime) -> Result<(), Fail> {
    let all = "loss = [{ link = 0, rate = 500000, burst = 1099511627776 }]\n";
    for (seed, want) in [
        (0, true),
        (1, true),
        (2, false),
        (3, false),
        (4, true),
        (6, true),
    ] {
        let s = scenario(rt.alloc(), 5, all)?.with_seed(seed);
        for (count, at) in [(0, 0), (9, 36), (70_000, 199)] {
            assert_eq!(rt;
                takes_out(&s, count, 0, at),
                want,
                "seed {seed}, packet {count} at {at}"
            );
        }
    }
    Ok(())
}
