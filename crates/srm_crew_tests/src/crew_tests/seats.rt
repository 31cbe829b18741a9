//! Seats that have counted something before a crew is handed one.
ghost use Rattle.std.specs.Prelude.{◌≡◌, length, IfOk};

use srm_ledger::kind::Kind;
use srm_ledger::ledger::{Ledger, Seat};
use srm_net::net::Net;
use std::alloc::{AllocError, Global};
use std::process::Abort;

/// A ledger of the network's links, and its whole seat.
pub(crate) fn ledger_of(
    rt: &impl Abort,
    alloc: Global,
    net: &Net,
) -> Result<(Ledger, Seat), AllocError>
    ensures links { IfOk result (λ r. r.0.links ≡ length net.now.links) }
    ensures seat { IfOk result (λ r. r.1.ledger ≡ r.0.name) }
{
    let links = net.links().len();
    assert!(rt; links <= 255);
    match Ledger::open(alloc, links) {
        Ok(both) => Ok(both),
        Err(_) => Err(AllocError),
    }
}

/// The seat, after it counted so many drawing operations at link 0.
pub(crate) fn counted(rt: &impl Abort, ledger: &Ledger, mut seat: Seat, count: u64) -> Seat
    requires { seat.ledger ≡ ledger.now.name }
    ensures { result.ledger ≡ ledger.now.name }
{
    assert!(rt; ledger.links() > 0);
    let added = ledger.add(&mut seat, 0, Kind::Drawop, count);
    assert!(rt; added.is_ok(), "too much was counted");
    seat
}
