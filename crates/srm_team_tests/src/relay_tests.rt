//! Sums one after the other, by relays of 0 to 64 threads.
ghost use Rattle.std.specs.Prelude.{◌≡◌};

use crate::adding::Adding;
use srm_team::bench::{Bench, serve_all};
use srm_team::fault::TeamFault;
use srm_team::naming::Naming;
use srm_team::opened::Opened;
use srm_team::relay::{Relay, open_relay};
use std::alloc::{AllocError, Global};
use std::marker::{Brand, Send, Sync};
use std::process::Abort;
use std::sync::Wait;
use std::thread::{Threads, join};

// How many items may be under way.
const ROOM: usize = 8;

// How many items each relay is given.
const ITEMS: u64 = 300;

// What is added to each.
const MORE: u64 = 1_000_000;

// Gives a relay the items from `next` on, as long as there is room. Gives the first that it has not begun.
fn begin_items<R: Wait + Abort, J: Naming>(
    rt: &R,
    alloc: Global,
    relay: &mut Relay<Adding, u64, u64, J>,
    next: u64,
) -> Result<u64, AllocError> {
    for item in next..ITEMS {
        if !relay.has_room() {
            return Ok(item);
        }
        if let Err(fault) = relay.begin(rt, alloc, item) {
            assert_eq!(rt; fault, TeamFault::NoMemory);
            return Err(AllocError);
        }
    }
    Ok(ITEMS)
}

// All items. Their sums come in order, eight are under way from the first on, and no ninth is taken.
fn lead<R: Wait + Abort, J: Naming>(
    rt: &R,
    alloc: Global,
    mut relay: Relay<Adding, u64, u64, J>,
) -> Result<(), AllocError> {
    let mut next = 0;
    for item in 0..ITEMS {
        next = begin_items(rt, alloc, &mut relay, next)?;
        assert_eq!(rt; next, ITEMS.min(item.saturating_add(8)));
        assert!(rt; next == ITEMS || relay.begin(rt, alloc, 1) == Err(TeamFault::TooMany));
        assert!(rt; relay.next(rt) == Ok(item.wrapping_add(MORE)));
    }
    assert!(rt; relay.next(rt) == Err(TeamFault::Left));
    Ok(())
}

// A relay of so many threads, from its first item to its end: `join` gives no result before each worker has ended.
fn run<J: Naming + Send + Sync, R: Threads + Wait + Abort + Sync>(
    rt: &R,
    alloc: Global,
    opened: Opened<Adding, u64>,
    threads: usize,
) -> Result<(), AllocError>
    requires { opened ≡ J.book }
{
    let (relay, bench): (Relay<Adding, u64, u64, J>, Bench<Adding, u64, u64, J>) = open_relay(
        alloc,
        opened,
        Adding { more: MORE },
        ROOM,
    )?;
    let ((), led) = join(
        rt,
        move || serve_all(rt, alloc, threads, &bench),
        move || lead(rt, alloc, relay),
    );
    led
}

// The same, with a history of its own. Once more where memory was refused.
fn run_once_more<R: Threads + Wait + Abort + Sync>(
    rt: &R,
    alloc: Global,
    threads: usize,
) -> Result<(), AllocError> {
    for _ in 0..2 {
        if run::<Brand, R>(rt, alloc, Opened::new(), threads).is_ok() {
            return Ok(());
        }
    }
    Err(AllocError)
}

#[test]
fn without_a_thread_the_leader_makes_all_sums(rt: HostRuntime) -> Result<(), AllocError> {
    run_once_more(&rt, rt.alloc(), 0)
}

#[test]
fn sums_come_in_order_of_one_thread(rt: HostRuntime) -> Result<(), AllocError> {
    run_once_more(&rt, rt.alloc(), 1)
}

#[test]
fn sums_come_in_order_of_four_threads(rt: HostRuntime) -> Result<(), AllocError> {
    run_once_more(&rt, rt.alloc(), 4)
}

#[test]
fn sums_come_in_order_of_more_threads_than_items_under_way(
    rt: HostRuntime,
) -> Result<(), AllocError> {
    run_once_more(&rt, rt.alloc(), 64)
}
