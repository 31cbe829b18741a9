//! Threads that add at once, each with a seat of its own.
ghost use Rattle.std.specs.Prelude.{◌≡◌, ◌<◌, ◌≤◌, ◌+◌, ◌*◌, length, IfOk};
ghost use denote.Param.Send.{IsSync};

use crate::ledger_tests::stories::{attempt_twice, halves, joined, open};
use srm_ledger::kind::Kind;
use srm_ledger::ledger::Ledger;
use srm_ledger::seat::Seat;
use srm_ledger::totals::Totals;
use std::alloc::{AllocError, Global};
use std::process::Abort;
use std::thread::{Threads, join};

// The kinds in the order of their places.
const KINDS: [Kind; 5] = [
    Kind::Drawop,
    Kind::Request,
    Kind::Repair,
    Kind::Session,
    Kind::Dropped,
];

// What each thread adds.
#[derive(Clone, Copy)]
enum Addition {
    // 1 to the requests of the first link, so often.
    Requests { times: u32 },
    // 1 to the first number of the first link, 2 to its second, and so on over all links, so often.
    Everywhere { times: u32 },
}

// The number that is added to a kind of a link.
fn number(link: usize, kind: usize) -> u64
    requires { (link < 65534) × (kind < 5) }
    ensures { result ≡ 5 * link + kind + 1 }
{
    (5 * link + kind + 1) as u64
}

fn add_requests(ledger: &Ledger, seat: Seat, times: u32) -> Seat
    requires ledger { seat.ledger ≡ ledger.now.name }
    requires link { 0 < ledger.now.links }
    ensures { result.ledger ≡ ledger.now.name }
{
    let mut seat = seat;
    for _ in 0..times {
        let _ = ledger.add(&mut seat, 0, Kind::Request, 1);
    }
    seat
}

fn add_to_link(ledger: &Ledger, seat: Seat, link: usize) -> Seat
    requires ledger { seat.ledger ≡ ledger.now.name }
    requires link { (link < ledger.now.links) × (ledger.now.links ≤ 65534) }
    ensures { result.ledger ≡ ledger.now.name }
{
    let mut seat = seat;
    for kind in 0..5 {
        let _ = ledger.add(&mut seat, link, KINDS[kind], number(link, kind));
    }
    seat
}

fn add_to_all(ledger: &Ledger, seat: Seat) -> Seat
    requires { seat.ledger ≡ ledger.now.name }
    ensures { result.ledger ≡ ledger.now.name }
{
    let mut seat = seat;
    for link in 0..ledger.links() {
        seat = add_to_link(ledger, seat, link);
    }
    seat
}

fn add_everywhere(ledger: &Ledger, seat: Seat, times: u32) -> Seat
    requires { seat.ledger ≡ ledger.now.name }
    ensures { result.ledger ≡ ledger.now.name }
{
    let mut seat = seat;
    for _ in 0..times {
        seat = add_to_all(ledger, seat);
    }
    seat
}

fn add_work(ledger: &Ledger, seat: Seat, work: Addition) -> Seat
    requires ledger { seat.ledger ≡ ledger.now.name }
    requires link { 0 < ledger.now.links }
    ensures { result.ledger ≡ ledger.now.name }
{
    match work {
        Addition::Requests { times } => add_requests(ledger, seat, times),
        Addition::Everywhere { times } => add_everywhere(ledger, seat, times),
    }
}

// So many threads, each with a seat of its own, and all seats in one again.
fn add_in_threads<R: Abort + Threads + Sync>(
    rt: &R,
    alloc: Global,
    ledger: &Ledger,
    seat: Seat,
    threads: u8,
    work: Addition,
) -> Result<Seat, AllocError>
    requires ledger { seat.ledger ≡ ledger.now.name }
    requires link { 0 < ledger.now.links }
    ensures { IfOk result (λ s. s.ledger ≡ ledger.now.name) }
{
    if threads <= 1 {
        return Ok(add_work(ledger, seat, work));
    }
    let (seat, other) = halves(rt, alloc, ledger, seat)?;
    let less = threads / 2;
    let more = threads - less;
    let (first, second) = join(
        rt,
        move || -> Result<Seat, AllocError>
            requires { IsSync R.row × (seat.ledger ≡ ledger.now.name) × (0 < ledger.now.links) }
            ensures { IfOk result (λ s. s.ledger ≡ ledger.entry.now.name) }
        { add_in_threads(rt, alloc, ledger, seat, more, work) },
        move || -> Result<Seat, AllocError>
            requires { IsSync R.row × (other.ledger ≡ ledger.now.name) × (0 < ledger.now.links) }
            ensures { IfOk result (λ s. s.ledger ≡ ledger.entry.now.name) }
        { add_in_threads(rt, alloc, ledger, other, less, work) },
    );
    Ok(joined(rt, ledger, first?, second?))
}

// What a ledger closes at after threads have added.
fn totals_of_threads<R: Abort + Threads + Sync>(
    rt: &R,
    alloc: Global,
    links: usize,
    threads: u8,
    work: Addition,
) -> Result<Totals, AllocError>
    requires { (0 < links) × (links ≤ 1023) }
    ensures { IfOk result (λ t. length t ≡ 5 * links) }
{
    let (ledger, seat) = open(alloc, links)?;
    let seat = add_in_threads(rt, alloc, &ledger, seat, threads, work)?;
    match ledger.close(seat) {
        Ok(totals) => Ok(totals),
        Err(_) => panic!(rt; "not closed"),
    }
}

fn add_from_two<R: Abort + Threads + Sync>(rt: &R, alloc: Global) -> Result<(), AllocError> {
    let work = Addition::Requests { times: 1000 };
    let totals = totals_of_threads(rt, alloc, 1, 2, work)?;
    assert_eq!(rt; totals.links(), [[0, 2000, 0, 0, 0]].as_slice());
    Ok(())
}

#[test]
fn two_threads_add_a_thousand_each(rt: HostRuntime) -> Result<(), AllocError> {
    attempt_twice(&rt, || add_from_two(&rt, rt.alloc()))
}

// Asserts that a link has so many times what is added to its kinds once.
fn expect_times(rt: &impl Abort, totals: &Totals, link: u16, times: u64)
    requires link { (link < 255) × (5 * link + 4 < length totals.now) }
    requires times { times ≤ 160 }
{
    for kind in 0..5 {
        let total = totals.number(link, KINDS[kind]);
        assert_eq!(rt; total, times * number(usize::from(link), kind));
    }
}

fn add_from_eight<R: Abort + Threads + Sync>(rt: &R, alloc: Global) -> Result<(), AllocError> {
    let work = Addition::Everywhere { times: 20 };
    let totals = totals_of_threads(rt, alloc, 255, 8, work)?;
    for link in 0..255 {
        expect_times(rt, &totals, link, 160);
    }
    Ok(())
}

#[test]
fn eight_threads_add_to_all_kinds_of_all_links(rt: HostRuntime) -> Result<(), AllocError> {
    attempt_twice(&rt, || add_from_eight(&rt, rt.alloc()))
}
