//! Loss recovery, call by call.
ghost use Rattle.std.specs.Prelude.{◌≡◌, ◌≢◌, ◌≤◌, All, IfOk};
ghost use Rattle.srm_net.specs.Limits.{greatest_distance};
ghost use Rattle.srm_member.specs.Intervals.{greatest_adapted};
ghost use Rattle.srm_net.specs.declared.role.Role.TheVariants.{Listener};

use crate::stories::called::Called;
use crate::stories::following::{attempt_twice, follow};
use crate::stories::late::LATE;
use crate::stories::losses::{BACKING_OFF, DRAWN};
use crate::stories::receiver::RECEIVER;
use crate::stories::sender::SENDER;
use crate::stories::story::Story;
use srm_member::backoff::BackoffFactor;
use srm_member::distances::Distances;
use srm_member::fixed::Fixed;
use srm_member::hops::Hops;
use srm_member::limits::Limits;
use srm_member::member::Member;
use srm_member::recovery::Recovery;
use srm_member::steps::Steps;
use srm_net::role::Role;
use srm_net::sequence::Sequence;
use std::alloc::{AllocError, Global};
use std::process::Abort;

// The fixed part of a member with seed 42 and stream 54. Its constants d1 and d2 are 1000 and 0.
fn fixed_part(
    alloc: Global,
    member: u16,
    role: Role,
    c1: u32,
    c2: u32,
    dist: &[u64],
) -> Result<Fixed, AllocError>
    requires least { c1 ≤ greatest_adapted }
    requires more { c2 ≤ greatest_adapted }
    ensures role { IfOk result (λ fixed. fixed.role ≡ role) }
    ensures distances { IfOk result (λ fixed. fixed.dist ≡ dist.now) }
{
    let dist = Distances::from(Sequence::from_vec(dist.to_vec(alloc)?));
    let pages = Sequence::from_vec([1].to_vec(alloc)?);
    Ok(Fixed {
        member,
        role,
        backoff: BackoffFactor::Two,
        c1: Limits::without_room(c1),
        c2: Limits::without_room(c2),
        d1: Limits::without_room(1000),
        d2: Limits::without_room(0),
        dist,
        hops: Hops::from(Sequence::new(alloc)),
        scope: 0,
        widen: 0,
        tries: 1,
        steps: Steps::Two,
        pages,
        seed: 42,
        stream: 54,
    })
}

// Leads a recovery with this fixed part through a story.
fn lead(
    rt: &impl Abort,
    alloc: Global,
    role: Role,
    c1: u32,
    c2: u32,
    dist: &[u64],
    story: &Story,
) -> Result<(), AllocError>
    requires active { role ≢ Listener }
    requires least { c1 ≤ greatest_adapted }
    requires more { c2 ≤ greatest_adapted }
    requires distances { All (λ d. d ≤ greatest_distance) dist.now }
{
    let fixed = fixed_part(alloc, story.member, role, c1, c2, dist)?;
    let recovery = Recovery::new(alloc, fixed);
    let mut member: Box<dyn Member> = Box::new(alloc, Called { recovery })?;
    follow(rt, alloc, &mut member, story)
}

// Leads a recovery through a story, and another one where memory is refused to the first.
fn tell<R: Abort + Eprint>(
    rt: &R,
    alloc: Global,
    role: Role,
    c1: u32,
    c2: u32,
    dist: &[u64],
    story: &Story,
) -> Result<(), AllocError>
    requires active { role ≢ Listener }
    requires least { c1 ≤ greatest_adapted }
    requires more { c2 ≤ greatest_adapted }
    requires distances { All (λ d. d ≤ greatest_distance) dist.now }
{
    attempt_twice(rt, || lead(rt, alloc, role, c1, c2, dist, story))
}

#[test]
fn a_request_timer_is_drawn(rt: HostRuntime) -> Result<(), AllocError> {
    let dist = [10, 0];
    tell(&rt, rt.alloc(), Role::Receiver, 2000, 2000, &dist, &DRAWN)
}

#[test]
fn a_request_backs_off_once(rt: HostRuntime) -> Result<(), AllocError> {
    let dist = [10, 0, 15];
    tell(
        &rt,
        rt.alloc(),
        Role::Receiver,
        1000,
        0,
        &dist,
        &BACKING_OFF,
    )
}

#[test]
fn a_sender_answers_call_by_call(rt: HostRuntime) -> Result<(), AllocError> {
    let dist = [0, 5, 10, 15];
    tell(&rt, rt.alloc(), Role::Sender, 2000, 2000, &dist, &SENDER)
}

#[test]
fn a_receiver_answers_call_by_call(rt: HostRuntime) -> Result<(), AllocError> {
    let dist = [5, 0, 5, 10];
    tell(
        &rt,
        rt.alloc(),
        Role::Receiver,
        2000,
        2000,
        &dist,
        &RECEIVER,
    )
}

#[test]
fn a_late_joiner_answers_call_by_call(rt: HostRuntime) -> Result<(), AllocError> {
    let dist = [10, 5, 0, 5];
    tell(&rt, rt.alloc(), Role::Late, 2000, 2000, &dist, &LATE)
}
