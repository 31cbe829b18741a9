//! What the tests of the ledger share.
ghost use Rattle.std.specs.Prelude.{◌≡◌, ◌≤◌, IfOk};

use srm_ledger::fault::{LedgerFault, SplitFault};
use srm_ledger::ledger::Ledger;
use srm_ledger::seat::Seat;
use std::alloc::{AllocError, Global};
use std::process::Abort;

/// Makes an attempt, and another one where the first is refused memory, which is then told on standard error.
pub(crate) fn attempt_twice<F: Fn() -> Result<(), AllocError>>(
    rt: &impl Eprint,
    attempt: F,
) -> Result<(), AllocError>
    requires { F.IsAlwaysCallable attempt }
{
    match attempt() {
        Ok(()) => Ok(()),
        Err(_) => {
            let _ = eprintln!(rt; "memory was refused");
            attempt()
        }
    }
}

/// A ledger of so many links, and its whole seat.
pub(crate) fn open(alloc: Global, links: usize) -> Result<(Ledger, Seat), AllocError>
    requires { links ≤ 1023 }
    ensures { IfOk result (λ r. (r.0.links ≡ links) × (r.1.ledger ≡ r.0.name)) }
{
    match Ledger::open(alloc, links) {
        Ok(both) => Ok(both),
        Err(LedgerFault::NoMemory) => Err(AllocError),
    }
}

/// The two halves of a seat of more than one part.
pub(crate) fn halves(
    rt: &impl Abort,
    alloc: Global,
    ledger: &Ledger,
    seat: Seat,
) -> Result<(Seat, Seat), AllocError>
    requires { seat.ledger ≡ ledger.now.name }
    ensures { IfOk result (λ h. (h.0.ledger ≡ ledger.now.name) × (h.1.ledger ≡ ledger.now.name)) }
{
    match ledger.split(alloc, seat) {
        Ok(both) => Ok(both),
        Err((_, fault)) => {
            assert_eq!(rt; fault, SplitFault::NoMemory);
            Err(AllocError)
        }
    }
}

/// The seat of these two.
pub(crate) fn joined(rt: &impl Abort, ledger: &Ledger, first: Seat, second: Seat) -> Seat
    requires first { first.ledger ≡ ledger.now.name }
    requires second { second.ledger ≡ ledger.now.name }
    ensures { result.ledger ≡ ledger.now.name }
{
    match ledger.join(first, second) {
        Ok(both) => both,
        Err(_) => panic!(rt; "not joined"),
    }
}
