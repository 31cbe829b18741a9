//! Rounds of sums, by teams of 0 to 64 threads.
ghost use Rattle.std.specs.Prelude.{◌≡◌, ◌≤◌};

use crate::adding::Adding;
use srm_team::bench::{Bench, serve_all};
use srm_team::fault::TeamFault;
use srm_team::naming::Naming;
use srm_team::opened::Opened;
use srm_team::team::{Team, open_team};
use std::alloc::{AllocError, Global};
use std::marker::{Brand, Send, Sync};
use std::process::Abort;
use std::sync::Wait;
use std::thread::{Threads, join};

// How many lists each team is given.
const ROUNDS: usize = 50;

// How many items a list may have.
const ROOM: usize = 40;

// What the team gives for so many items, 0, 7, 14 and so on, each with a number added.
fn sums<R: Wait, J: Naming>(
    rt: &R,
    alloc: Global,
    team: &mut Team<Adding, u64, u64, J>,
    count: usize,
    more: u64,
) -> Result<Result<Vec<u64>, TeamFault>, AllocError>
    requires { count ≤ 64 }
{
    let mut items = Vec::new(alloc);
    for i in 0..count {
        items.push(7 * i as u64)?;
    }
    Ok(team.map(rt, alloc, Adding { more }, items))
}

// One round. Each sum stands at the place of its item, and is of this round: `more` differs from round to round.
fn round<R: Wait + Abort, J: Naming>(
    rt: &R,
    alloc: Global,
    team: &mut Team<Adding, u64, u64, J>,
    count: usize,
    more: u64,
) -> Result<(), AllocError>
    requires { count ≤ 64 }
{
    let given = match sums(rt, alloc, team, count, more)? {
        Ok(given) => given,
        Err(fault) => {
            assert_eq!(rt; fault, TeamFault::NoMemory);
            return Err(AllocError);
        }
    };
    assert!(rt; given.len() == count);
    for i in 0..count {
        assert_eq!(rt; given[i], more.wrapping_add(7 * i as u64));
    }
    Ok(())
}

// Rounds of 0 to 40 items, in turn, and a list that is too long between.
fn lead<R: Wait + Abort, J: Naming>(
    rt: &R,
    alloc: Global,
    mut team: Team<Adding, u64, u64, J>,
) -> Result<(), AllocError> {
    for turn in 0..ROUNDS {
        round(
            rt,
            alloc,
            &mut team,
            turn * 13 % 41,
            1_000_000 * turn as u64,
        )?;
    }
    let refused = sums(rt, alloc, &mut team, 41, 1)?;
    assert!(rt; refused == Err(TeamFault::TooMany));
    round(rt, alloc, &mut team, 40, 3)
}

// A team of so many threads, from its first list to its end: `join` gives no result before each worker has ended.
fn run<J: Naming + Send + Sync, R: Threads + Wait + Abort + Sync>(
    rt: &R,
    alloc: Global,
    opened: Opened<Adding, u64>,
    threads: usize,
) -> Result<(), AllocError>
    requires { opened ≡ J.book }
{
    let (team, bench): (Team<Adding, u64, u64, J>, Bench<Adding, u64, u64, J>) = open_team(
        alloc, opened, ROOM,
    )?;
    let ((), led) = join(
        rt,
        move || serve_all(rt, alloc, threads, &bench),
        move || lead(rt, alloc, team),
    );
    led
}

// The same, with a history of its own. Once more where memory was refused.
fn run_once_more<R: Threads + Wait + Abort + Sync>(
    rt: &R,
    alloc: Global,
    threads: usize,
) -> Result<(), AllocError> {
    for _ in 0..2 {
        if run::<Brand, R>(rt, alloc, Opened::new(), threads).is_ok() {
            return Ok(());
        }
    }
    Err(AllocError)
}

#[test]
fn without_a_thread_the_leader_does_all_the_work(rt: HostRuntime) -> Result<(), AllocError> {
    run_once_more(&rt, rt.alloc(), 0)
}

#[test]
fn one_thread_beside_the_leader(rt: HostRuntime) -> Result<(), AllocError> {
    run_once_more(&rt, rt.alloc(), 1)
}

#[test]
fn two_threads(rt: HostRuntime) -> Result<(), AllocError> {
    run_once_more(&rt, rt.alloc(), 2)
}

#[test]
fn four_threads(rt: HostRuntime) -> Result<(), AllocError> {
    run_once_more(&rt, rt.alloc(), 4)
}

#[test]
fn sixty_four_threads(rt: HostRuntime) -> Result<(), AllocError> {
    run_once_more(&rt, rt.alloc(), 64)
}

// A team that is dropped at once: its workers end without an order.
fn idle<J: Naming + Send + Sync, R: Threads + Wait + Sync>(
    rt: &R,
    alloc: Global,
    opened: Opened<Adding, u64>,
) -> Result<(), AllocError>
    requires { opened ≡ J.book }
{
    let (team, bench): (Team<Adding, u64, u64, J>, Bench<Adding, u64, u64, J>) = open_team(
        alloc, opened, ROOM,
    )?;
    let ((), ()) = join(
        rt,
        move || serve_all(rt, alloc, 3, &bench),
        move || drop(team),
    );
    Ok(())
}

// The same, with a history of its own. Once more where memory was refused.
fn idle_once_more<R: Threads + Wait + Sync>(rt: &R, alloc: Global) -> Result<(), AllocError> {
    for _ in 0..2 {
        if idle::<Brand, R>(rt, alloc, Opened::new()).is_ok() {
            return Ok(());
        }
    }
    Err(AllocError)
}

#[test]
fn workers_end_with_a_team_that_was_given_nothing(rt: HostRuntime) -> Result<(), AllocError> {
    idle_once_more(&rt, rt.alloc())
}
