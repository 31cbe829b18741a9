//! A ledger of one link, worked by hand.
ghost use Rattle.std.specs.Prelude.{◌≡◌, ◌<◌, IfOk};

use crate::ledger_tests::stories::{attempt_twice, halves, joined, open};
use srm_ledger::fault::{NotWhole, ShareFull, SplitFault};
use srm_ledger::kind::Kind;
use srm_ledger::ledger::Ledger;
use srm_ledger::seat::Seat;
use std::alloc::{AllocError, Global};
use std::process::Abort;

// Asserts that a number of packets of a kind is added to the one link.
fn expect_added(rt: &impl Abort, ledger: &Ledger, seat: &mut Seat, kind: Kind, n: u64)
    requires seat { seat.old.ledger ≡ ledger.now.name }
    requires link { 0 < ledger.now.links }
    ensures { seat.new.ledger ≡ ledger.now.name }
{
    assert_eq!(rt; ledger.add(seat, 0, kind, n), Ok(()));
}

// Asserts that a packet more of a kind would pass the most that the seat may have added.
fn expect_full(rt: &impl Abort, ledger: &Ledger, seat: &mut Seat, kind: Kind)
    requires seat { seat.old.ledger ≡ ledger.now.name }
    requires link { 0 < ledger.now.links }
    ensures { seat.new.ledger ≡ ledger.now.name }
{
    assert_eq!(rt; ledger.add(seat, 0, kind, 1), Err(ShareFull));
}

// Asserts that so many packets of a kind were added by all seats.
fn expect_read(rt: &impl Abort, ledger: &Ledger, seat: &mut Seat, kind: Kind, n: u64)
    requires seat { seat.old.ledger ≡ ledger.now.name }
    requires link { 0 < ledger.now.links }
    ensures { seat.new.ledger ≡ ledger.now.name }
{
    assert_eq!(rt; ledger.read(seat, 0, kind), n);
}

// Asserts that the seat is not the whole one, which alone closes a ledger. Both come back.
fn expect_not_closed(rt: &impl Abort, ledger: Ledger, seat: Seat) -> (Ledger, Seat)
    requires { seat.ledger ≡ ledger.name }
    ensures ledger { result.0 ≡ ledger }
    ensures seat { result.1.ledger ≡ ledger.name }
{
    match ledger.close(seat) {
        Ok(_) => panic!(rt; "closed by a half"),
        Err((ledger, seat, NotWhole)) => (ledger, seat),
    }
}

// Closes a ledger whose one link has these totals.
fn close_at(rt: &impl Abort, ledger: Ledger, seat: Seat, totals: [u64; 5])
    requires { seat.ledger ≡ ledger.name }
{
    match ledger.close(seat) {
        Ok(closed) => assert_eq!(rt; closed.links(), [totals].as_slice()),
        Err(_) => panic!(rt; "not closed"),
    }
}

// Each half reads what both added, so the words are really written.
fn add_by_both(rt: &impl Abort, ledger: &Ledger, first: &mut Seat, second: &mut Seat)
    requires first { first.old.ledger ≡ ledger.now.name }
    requires second { second.old.ledger ≡ ledger.now.name }
    requires link { 0 < ledger.now.links }
    ensures first { first.new.ledger ≡ ledger.now.name }
    ensures second { second.new.ledger ≡ ledger.now.name }
{
    expect_added(rt, ledger, first, Kind::Request, 2);
    expect_added(rt, ledger, second, Kind::Request, 5);
    expect_read(rt, ledger, first, Kind::Request, 7);
    expect_read(rt, ledger, second, Kind::Request, 7);
}

fn add_by_halves(rt: &impl Abort, alloc: Global) -> Result<(), AllocError> {
    let (ledger, mut seat) = open(alloc, 1)?;
    expect_added(rt, &ledger, &mut seat, Kind::Drawop, 3);
    expect_read(rt, &ledger, &mut seat, Kind::Drawop, 3);
    let (mut first, mut second) = halves(rt, alloc, &ledger, seat)?;
    add_by_both(rt, &ledger, &mut first, &mut second);
    let (ledger, first) = expect_not_closed(rt, ledger, first);
    let seat = joined(rt, &ledger, first, second);
    close_at(rt, ledger, seat, [3, 7, 0, 0, 0]);
    Ok(())
}

#[test]
fn halves_add_and_read(rt: HostRuntime) -> Result<(), AllocError> {
    attempt_twice(&rt, || add_by_halves(&rt, rt.alloc()))
}

// Asserts that the seat can't be split, and adds by it.
fn add_by_least(rt: &impl Abort, alloc: Global, ledger: &Ledger, seat: Seat) -> Seat
    requires seat { seat.ledger ≡ ledger.now.name }
    requires link { 0 < ledger.now.links }
    ensures { result.ledger ≡ ledger.now.name }
{
    let Err((mut least, SplitFault::TooManySeats)) = ledger.split(alloc, seat) else {
        panic!(rt; "one seat too many");
    };
    expect_added(rt, ledger, &mut least, Kind::Session, 1);
    least
}

// Splits the first half of the one before, so often, until it can't be split any more; adds by it, and joins all seats
// again.
fn split_and_join(
    rt: &impl Abort,
    alloc: Global,
    ledger: &Ledger,
    seat: Seat,
    times: u32,
) -> Result<Seat, AllocError>
    requires ledger { seat.ledger ≡ ledger.now.name }
    requires link { 0 < ledger.now.links }
    ensures { IfOk result (λ s. s.ledger ≡ ledger.now.name) }
{
    if times == 0 {
        return Ok(add_by_least(rt, alloc, ledger, seat));
    }
    let (first, second) = halves(rt, alloc, ledger, seat)?;
    let first = split_and_join(rt, alloc, ledger, first, times - 1)?;
    Ok(joined(rt, ledger, first, second))
}

fn split_sixteen_times(rt: &impl Abort, alloc: Global) -> Result<(), AllocError> {
    let (ledger, seat) = open(alloc, 1)?;
    let seat = split_and_join(rt, alloc, &ledger, seat, 16)?;
    close_at(rt, ledger, seat, [0, 0, 0, 1, 0]);
    Ok(())
}

#[test]
fn sixteen_splits_and_no_more(rt: HostRuntime) -> Result<(), AllocError> {
    attempt_twice(&rt, || split_sixteen_times(&rt, rt.alloc()))
}

fn fill_a_share(rt: &impl Abort, alloc: Global) -> Result<(), AllocError> {
    let (ledger, mut seat) = open(alloc, 1)?;
    expect_added(rt, &ledger, &mut seat, Kind::Repair, 1 << 47);
    expect_full(rt, &ledger, &mut seat, Kind::Repair);
    expect_read(rt, &ledger, &mut seat, Kind::Repair, 1 << 47);
    close_at(rt, ledger, seat, [0, 0, 1 << 47, 0, 0]);
    Ok(())
}

#[test]
fn a_share_is_full_at_two_to_the_47(rt: HostRuntime) -> Result<(), AllocError> {
    attempt_twice(&rt, || fill_a_share(&rt, rt.alloc()))
}

// Asserts that the seats are not joined. Both come back.
fn expect_not_joined(rt: &impl Abort, ledger: &Ledger, first: Seat, second: Seat) -> (Seat, Seat)
    requires first { first.ledger ≡ ledger.now.name }
    requires second { second.ledger ≡ ledger.now.name }
    ensures first { result.0.ledger ≡ ledger.now.name }
    ensures second { result.1.ledger ≡ ledger.now.name }
{
    match ledger.join(first, second) {
        Ok(_) => panic!(rt; "joined"),
        Err(both) => both,
    }
}

// Both seats come back with their shares: the first is still full, and the second is not.
fn join_past_the_most(rt: &impl Abort, alloc: Global) -> Result<(), AllocError> {
    let (ledger, seat) = open(alloc, 1)?;
    let (mut first, mut second) = halves(rt, alloc, &ledger, seat)?;
    expect_added(rt, &ledger, &mut first, Kind::Dropped, 1 << 47);
    expect_added(rt, &ledger, &mut second, Kind::Dropped, 1);
    let (mut first, mut second) = expect_not_joined(rt, &ledger, first, second);
    expect_full(rt, &ledger, &mut first, Kind::Dropped);
    expect_added(rt, &ledger, &mut second, Kind::Dropped, 1);
    expect_read(rt, &ledger, &mut first, Kind::Dropped, (1 << 47) + 2);
    expect_read(rt, &ledger, &mut second, Kind::Dropped, (1 << 47) + 2);
    Ok(())
}

#[test]
fn no_join_past_two_to_the_47(rt: HostRuntime) -> Result<(), AllocError> {
    attempt_twice(&rt, || join_past_the_most(&rt, rt.alloc()))
}

// A seat that is refused memory comes back with its share and its whole weight, and the words are as they were.
fn split_once(rt: &impl Abort, alloc: Global) -> Result<(), AllocError> {
    let (ledger, mut seat) = open(alloc, 1)?;
    expect_added(rt, &ledger, &mut seat, Kind::Session, 3);
    match ledger.split(alloc, seat) {
        Ok((first, second)) => {
            let seat = joined(rt, &ledger, first, second);
            close_at(rt, ledger, seat, [0, 0, 0, 3, 0]);
            Ok(())
        }
        Err((mut seat, fault)) => {
            assert_eq!(rt; fault, SplitFault::NoMemory);
            expect_read(rt, &ledger, &mut seat, Kind::Session, 3);
            close_at(rt, ledger, seat, [0, 0, 0, 3, 0]);
            Err(AllocError)
        }
    }
}

#[test]
fn a_refused_split_leaves_the_seat(rt: HostRuntime) -> Result<(), AllocError> {
    attempt_twice(&rt, || split_once(&rt, rt.alloc()))
}
