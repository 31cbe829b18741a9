//! The four roles as boxed members.
ghost use Rattle.std.specs.Prelude.{◌≡◌, ◌<◌, length, IfOk};
ghost use Rattle.srm_scenario.specs.Plain.{network_of};

use crate::stories::following::{attempt_twice, follow};
use crate::stories::late::LATE;
use crate::stories::listener::LISTENER;
use crate::stories::local::{NEIGHBOUR, REQUESTER};
use crate::stories::receiver::RECEIVER;
use crate::stories::sender::SENDER;
use crate::stories::story::Story;
use srm_member::fault::MemberFault;
use srm_member::fixed::Fixed;
use srm_member::member::Member;
use srm_net::net::Net;
use srm_net::role::Role;
use srm_roles::fixed::fixed_of;
use srm_roles::late::Late;
use srm_roles::listener::Listener;
use srm_roles::receiver::Receiver;
use srm_roles::sender::Sender;
use srm_scenario::feed::ReadFeed;
use srm_scenario::reading::read_scenario;
use srm_scenario::scenario::Scenario;
use std::alloc::{AllocError, Global};
use std::process::Abort;

const SCENARIO: &str = r#"version = 1
until = 100
c1 = 2000
c2 = 2000
d1 = 1000
d2 = 0
topology = "chain"
size = 4
delay = 5
member = [
  { node = 0, role = "sender", stream = 54 },
  { node = 1, role = "receiver", stream = 54 },
  { node = 2, role = "late", stream = 54, pages = [1] },
  { node = 3, role = "listener", stream = 54 },
]
"#;

// A chain on which requests of receivers go one hop.
const LOCAL: &str = r#"version = 5
until = 1000
c1 = 1000
c2 = 0
d1 = 1000
d2 = 0
topology = "chain"
size = 5
delay = 1
scope = 1
member = [
  { node = 0, role = "sender", stream = 1 },
  { node = 1, role = "receiver", stream = 2, times = 4 },
]
"#;

// A member that was made, unless memory was refused.
fn made<M: Member>(answer: Result<M, MemberFault>) -> Result<M, AllocError> {
    match answer {
        Ok(member) => Ok(member),
        Err(_) => Err(AllocError),
    }
}

// Leads the member of a story, of whichever role, through it in a box.
fn lead(
    rt: &impl Abort,
    alloc: Global,
    scenario: &Scenario,
    net: &Net,
    story: &Story,
) -> Result<(), AllocError>
    requires member { story.now.member < length scenario.now.members }
    requires network { net.now ≡ network_of scenario.now }
{
    let m = story.member;
    let mut member: Box<dyn Member> = match scenario.role(m) {
        Role::Sender => Box::new(alloc, made(Sender::new(alloc, scenario, net, 42, m))?)?,
        Role::Receiver => Box::new(alloc, made(Receiver::new(alloc, scenario, net, 42, m))?)?,
        Role::Late => Box::new(alloc, made(Late::new(alloc, scenario, net, 42, m))?)?,
        Role::Listener => Box::new(alloc, made(Listener::new(alloc, scenario, net, 42, m))?)?,
    };
    follow(rt, alloc, &mut member, story)
}

// The scenario of a text, and its network.
fn opened(alloc: Global, text: &str) -> Result<(Scenario, Net), AllocError>
    ensures { IfOk result (λ r. r.1 ≡ network_of r.0) }
{
    let mut feed = ReadFeed::new(text.as_bytes());
    let Ok(scenario) = read_scenario(alloc, &mut feed) else {
        return Err(AllocError);
    };
    match scenario.net(alloc) {
        Ok(net) => Ok((scenario, net)),
        Err(_) => Err(AllocError),
    }
}

// Asserts that the constants of the timers in a fixed part are those of the scenario.
fn expect_constants(rt: &impl Abort, fixed: &Fixed) {
    for (constant, first) in [
        (fixed.c1, 2000),
        (fixed.c2, 2000),
        (fixed.d1, 1000),
        (fixed.d2, 0),
    ] {
        assert_eq!(rt; constant.first(), first, "{constant:?}");
    }
}

// Asserts that the distances in a fixed part are those of member 2.
fn expect_distances(rt: &impl Abort, fixed: &Fixed) {
    for (member, distance) in [
        (0, Some(10)),
        (1, Some(5)),
        (2, Some(0)),
        (3, Some(5)),
        (4, None),
    ] {
        assert_eq!(rt; fixed.dist.get(member), distance, "to member {member}");
    }
}

// Asserts that the hops in a fixed part are those of member 2, and that its requests go to all.
fn expect_hops(rt: &impl Abort, fixed: &Fixed) {
    for (member, hops) in [
        (0, Some(2)),
        (1, Some(1)),
        (2, Some(0)),
        (3, Some(1)),
        (4, None),
    ] {
        assert_eq!(rt; fixed.hops.get(member), hops, "to member {member}");
    }
    assert_eq!(rt; fixed.scope, 0);
}

// Asserts that a fixed part is that of member 2.
fn expect_member_two(rt: &impl Abort, fixed: &Fixed) {
    assert_eq!(rt; (fixed.member, fixed.role), (2, Role::Late));
    assert_eq!(rt; fixed.pages.as_slice(), [1].as_slice());
    assert_eq!(rt; (fixed.seed, fixed.stream), (42, 54));
    expect_constants(rt, fixed);
    expect_distances(rt, fixed);
    expect_hops(rt, fixed);
}

// The fixed part of member 2.
fn fixed_part(rt: &impl Abort, alloc: Global) -> Result<(), AllocError> {
    let (scenario, net) = opened(alloc, SCENARIO)?;
    assert!(rt; 2 < scenario.members());
    let fixed = fixed_of(alloc, &scenario, &net, 42, 2)?;
    expect_member_two(rt, &fixed);
    Ok(())
}

#[test]
fn the_fixed_part_is_that_of_the_scenario(rt: HostRuntime) -> Result<(), AllocError> {
    attempt_twice(&rt, || fixed_part(&rt, rt.alloc()))
}

// Leads a member of a text's scenario through its story.
fn attempt(rt: &impl Abort, alloc: Global, text: &str, story: &Story) -> Result<(), AllocError> {
    let (scenario, net) = opened(alloc, text)?;
    assert!(rt; story.member < scenario.members());
    lead(rt, alloc, &scenario, &net, story)
}

// Attempts it, and once more where memory is refused.
fn tell<R: Abort + Eprint>(
    rt: &R,
    alloc: Global,
    text: &str,
    story: &Story,
) -> Result<(), AllocError> {
    attempt_twice(rt, || attempt(rt, alloc, text, story))
}

#[test]
fn a_sender_answers_by_its_table(rt: HostRuntime) -> Result<(), AllocError> {
    tell(&rt, rt.alloc(), SCENARIO, &SENDER)
}

#[test]
fn a_receiver_answers_by_its_table(rt: HostRuntime) -> Result<(), AllocError> {
    tell(&rt, rt.alloc(), SCENARIO, &RECEIVER)
}

#[test]
fn a_late_joiner_answers_by_its_table(rt: HostRuntime) -> Result<(), AllocError> {
    tell(&rt, rt.alloc(), SCENARIO, &LATE)
}

#[test]
fn a_listener_answers_by_its_table(rt: HostRuntime) -> Result<(), AllocError> {
    tell(&rt, rt.alloc(), SCENARIO, &LISTENER)
}

#[test]
fn a_receiver_sends_a_local_repair_on(rt: HostRuntime) -> Result<(), AllocError> {
    tell(&rt, rt.alloc(), LOCAL, &REQUESTER)
}

#[test]
fn a_receiver_rests_for_some_requests_alone(rt: HostRuntime) -> Result<(), AllocError> {
    tell(&rt, rt.alloc(), LOCAL, &NEIGHBOUR)
}
