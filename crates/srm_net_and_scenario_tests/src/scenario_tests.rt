//! What is told of texts that are not read, and what a scenario that was read answers. The faults, one of each kind, each end of
//! each range and each two neighbours in their order, stand in tests/program/refusals.txt: the built program is run on them.
use crate::networks::{links_between, packet, ticks_between};
use srm_net::link::LinkSpec;
use srm_net::rank::Rank;
use srm_net::role::Role;
use srm_scenario::fault::{Part, ScenarioFault};
use srm_scenario::feed::ReadFeed;
use srm_scenario::mark::Mark;
use srm_scenario::reading::{read_scenario, scenario_of};
use srm_scenario::scenario::Scenario;
use std::alloc::Global;
use std::test::Fail;

const TOP: &str = "version = 1\nuntil = 100\nc1 = 1000\nc2 = 0\nd1 = 1000\nd2 = 0\n";

#[test]
fn a_table_is_a_scenario_or_has_a_fault(rt: HostRuntime) -> Result<(), Fail> {
    let alloc = rt.alloc();
    let not_tree = ScenarioFault::NotTree;
    for (nodes, want) in [("nodes = 1", None), ("nodes = 2", Some(not_tree))] {
        let text = format!(in alloc; "{TOP}{nodes}")?;
        let table = toml::table_from_str(alloc, text.as_str())?;
        assert_eq!(rt; scenario_of(alloc, &table).err(), want, "{nodes}");
    }
    Ok(())
}

// Fails at its first call.
#[derive(Drop)]
struct Broken;

impl std::io::Read for Broken {
    fn read(&mut self, _buf: &mut [u8]) -> std::io::Result<usize> {
        Err(std::io::Error::from(std::io::ErrorKind::Other))
    }
}

#[test]
fn a_feed_that_fails(rt: HostRuntime) {
    let fault = read_scenario(rt.alloc(), &mut ReadFeed::new(Broken)).err();
    assert_eq!(rt; fault, Some(ScenarioFault::ReadFault));
}

// Why no scenario is read from a text.
fn fault_of(alloc: Global, text: &[u8]) -> Option<ScenarioFault> {
    read_scenario(alloc, &mut ReadFeed::new(text)).err()
}

// Too long, and brackets that are no TOML.
#[test]
fn texts_that_are_too_long(rt: HostRuntime) -> Result<(), Fail> {
    for byte in [b' ', b'['] {
        let long = vec![in rt.alloc(); byte; 1_048_577]?;
        let fault = fault_of(rt.alloc(), long.as_slice());
        assert_eq!(rt; fault, Some(ScenarioFault::TooLong));
    }
    Ok(())
}

#[test]
fn texts_that_are_not_toml(rt: HostRuntime) {
    let not_toml = Some(ScenarioFault::NotToml);
    assert_eq!(rt; fault_of(rt.alloc(), b"version = 1\n[[member"), not_toml);
    // Not UTF-8, with an unknown key.
    assert_eq!(rt; fault_of(rt.alloc(), b"color = 1 # \xff\n"), not_toml);
}

#[test]
fn the_empty_text(rt: HostRuntime) {
    let nothing = ScenarioFault::BadKey {
        part: Part::Top,
        place: 0,
    };
    assert_eq!(rt; fault_of(rt.alloc(), b""), Some(nothing));
}

// The scenario of lines below the numbers of the top table.
fn scenario(alloc: Global, lines: &str) -> Result<Scenario, Fail> {
    let text = format!(in alloc; "{TOP}{lines}")?;
    Ok(read_scenario(alloc, &mut ReadFeed::new(text.as_str().as_bytes()))?)
}

// A chain of three nodes with a sender, a late member and a listener; two draws by member 0, two session messages, and a drop
// that is listed twice.
const SAMPLE: &str = "topology = \"chain\"
size = 3
delay = 1
member = [
  { node = 0, role = \"sender\", stream = 1, leave = 60 },
  { node = 1, role = \"late\", stream = 2, join = 20, pages = [1, 65535] },
  { node = 2, role = \"listener\", stream = 3 },
]
draw = [{ member = 0, page = 5, ink = 7, at = 9 }, { member = 0, page = 6, ink = 8, at = 3 }]
session = [{ member = 0, at = 3 }, { member = 1, at = 70 }]
drop = [{ link = 1, sender = 0, count = 4 }, { link = 1, sender = 0, count = 4 }]
";

// The scenario of that text.
fn sample(alloc: Global) -> Result<Scenario, Fail> {
    scenario(alloc, SAMPLE)
}

#[test]
fn a_scenario_answers_its_numbers(rt: HostRuntime) -> Result<(), Fail> {
    let s = sample(rt.alloc())?;
    assert_eq!(rt; (s.until(), s.members()), (100, 3));
    let constants = s.constants();
    assert_eq!(rt; (constants.c1, constants.d2), (1000, 0));
    Ok(())
}

// What a scenario answers of a member, if it has it: its role, node, stream, join and leave.
fn fields_of(s: &Scenario, m: u16) -> Option<(Role, u16, u64, u64, Option<u64>)> {
    if m < s.members() {
        Some((s.role(m), s.node(m), s.stream(m), s.join(m), s.leave(m)))
    } else {
        None
    }
}

#[test]
fn a_scenario_answers_the_fields_of_a_member(rt: HostRuntime) -> Result<(), Fail> {
    let s = sample(rt.alloc())?;
    assert_eq!(rt; fields_of(&s, 1), Some((Role::Late, 1, 2, 20, None)));
    Ok(())
}

// Whether a member, if there is one, wants a page.
fn wants(s: &Scenario, m: u16, page: u16) -> Option<bool> {
    if m < s.members() {
        Some(s.wants(m, page))
    } else {
        None
    }
}

#[test]
fn a_scenario_answers_the_pages_of_a_member(rt: HostRuntime) -> Result<(), Fail> {
    let s = sample(rt.alloc())?;
    assert_eq!(rt;
        (wants(&s, 1, 65535), wants(&s, 1, 2)),
        (Some(true), Some(false))
    );
    Ok(())
}

#[test]
fn a_scenario_lists_its_drops(rt: HostRuntime) -> Result<(), Fail> {
    let s = sample(rt.alloc())?;
    let id = packet(0, 4);
    assert!(rt; s.drops().lists(1, id) && !s.drops().lists(0, id));
    Ok(())
}

// A loss of each of two links, by words of stream 54.
const LOSSY: &str = "version = 4\nuntil = 100\nc1 = 1000\nc2 = 0\nd1 = 1000\nd2 = 0
topology = \"chain\"
size = 4
delay = 1
loss = [{ link = 1, rate = 601955, stream = 54, from = 5, to = 9, times = 2 }]
";

// Whether a link of that scenario takes out the first packet of member 0 at a tick, by the words of a seed, or of the one that
// the scenario has when it is read.
fn takes_out(alloc: Global, seed: Option<u64>, link: u16, at: u64) -> Result<bool, Fail> {
    let s = read_scenario(alloc, &mut ReadFeed::new(LOSSY.as_bytes()))?;
    let s = match seed {
        Some(seed) => s.share()?.with_seed(seed),
        None => s,
    };
    Ok(s.drops().takes_out(packet(0, 0), link, at))
}

#[test]
fn a_scenario_has_its_losses(rt: HostRuntime) -> Result<(), Fail> {
    for (seed, link, at, want) in [
        (Some(42), 1, 4, false),
        (Some(42), 1, 5, true),
        (Some(42), 1, 8, true),
        (Some(42), 1, 9, false),
        (Some(43), 1, 5, false),
        (Some(42), 2, 5, false),
        (Some(44), 2, 5, true),
        (Some(44), 0, 5, false),
        (None, 1, 5, true),
        (Some(0), 1, 5, true),
        (Some(2), 1, 5, false),
    ] {
        let told = takes_out(rt.alloc(), seed, link, at)?;
        assert_eq!(rt; told, want, "seed {seed:?}, link {link} at {at}");
    }
    Ok(())
}

#[test]
fn network_of_a_scenario(rt: HostRuntime) -> Result<(), Fail> {
    let s = sample(rt.alloc())?;
    assert_eq!(rt; s.net(rt.alloc()).map(|net| net.members()), Ok(3));
    assert_eq!(rt; ticks_between(s.net(rt.alloc()), 0, 2), Some((2, 2, 4)));
    Ok(())
}

const fn mark(at: u64, rank: Rank, place: u16, page: u16, ink: u32) -> Mark {
    Mark {
        at,
        rank,
        place,
        page,
        ink,
    }
}

// The join at tick 0 where none is given, the leave at 60, and draws and session messages by time, rank and place.
fn script_of_the_sender() -> [Mark; 5] {
    [
        mark(0, Rank::Join, 0, 0, 0),
        mark(3, Rank::Draw, 1, 6, 8),
        mark(3, Rank::Report, 0, 0, 0),
        mark(9, Rank::Draw, 0, 5, 7),
        mark(60, Rank::Leave, 0, 0, 0),
    ]
}

#[test]
fn script_of_a_member(rt: HostRuntime) -> Result<(), Fail> {
    let s = sample(rt.alloc())?;
    assert_eq!(rt; s.members(), 3);
    let script = s.script(rt.alloc(), 0)?;
    assert_eq!(rt; script.as_slice(), script_of_the_sender().as_slice());
    Ok(())
}

// The scripts of all members of the sample.
fn scripts(alloc: Global) -> Result<Vec<Vec<Mark>>, Fail> {
    Ok(sample(alloc)?.scripts(alloc)?)
}

#[test]
fn each_member_has_its_own_script(rt: HostRuntime) -> Result<(), Fail> {
    let scripts = scripts(rt.alloc())?;
    assert_eq!(rt; scripts.len(), 3);
    assert_eq!(rt; scripts[0].as_slice(), script_of_the_sender().as_slice());
    let late = [
        mark(20, Rank::Join, 0, 0, 0),
        mark(70, Rank::Report, 1, 0, 0),
    ];
    assert_eq!(rt; scripts[1].as_slice(), late.as_slice());
    assert_eq!(rt;
        scripts[2].as_slice(),
        [mark(0, Rank::Join, 0, 0, 0)].as_slice()
    );
    Ok(())
}

// The links of five nodes in a topology.
fn links_of(alloc: Global, topology: &str) -> Result<Vec<LinkSpec>, Fail> {
    let lines = format!(in alloc; "size = 5\ndelay = 1\n{topology}\n")?;
    let s = scenario(alloc, lines.as_str())?;
    Ok(s.links().to_vec(alloc)?)
}

#[test]
fn links_of_topologies(rt: HostRuntime) -> Result<(), Fail> {
    for (topology, pairs) in [
        ("topology = \"chain\"", [(0, 1), (1, 2), (2, 3), (3, 4)]),
        ("topology = \"star\"", [(0, 1), (0, 2), (0, 3), (0, 4)]),
        (
            "topology = \"tree\"\ndegree = 2",
            [(0, 1), (0, 2), (1, 3), (2, 4)],
        ),
        (
            "topology = \"tree\"\ndegree = 3",
            [(0, 1), (0, 2), (0, 3), (1, 4)],
        ),
    ] {
        let links = links_of(rt.alloc(), topology)?;
        let want = links_between(rt.alloc(), pairs.as_slice(), 1, 1)?;
        assert_eq!(rt; links.as_slice(), want.as_slice(), "{topology}");
    }
    Ok(())
}
