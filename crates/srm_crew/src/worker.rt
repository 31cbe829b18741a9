//! One worker: it takes items from a bag until there are none.
ghost use Rattle.std.specs.Prelude.{◌≡◌, ◌*◌, ℕ, List, length, All, Ok, IfOk};
ghost use Rattle.srm_crew.specs.Indices.{EachOnce};
ghost use Rattle.srm_crew.specs.Shared.{TellsItem, TellsWork};

use crate::add::add_crossings;
use crate::counted::Counted;
use crate::gate::Gate;
use crate::pass::Pass;
use crate::workplace::Workplace;
use srm_cell::fault::CellFault;
use srm_interfaces::fault::CrewFault;
use srm_ledger::ledger::{Ledger, Seat};
use std::sync::Wait;

// Works on an item, adds the numbers of what comes of it, and keeps that.
fn work_on<T, D: Counted + Drop, F: Fn(T) -> Result<D, CellFault>>(
    ledger: &Ledger,
    seat: &mut Seat,
    results: &mut Vec<D>,
    work: F,
    item: T,
) -> Result<(), CrewFault>
    requires seat { seat.old.ledger ≡ ledger.now.name }
    requires ready { F.pre work item }
    requires long { (d : D) → F.post work item (Ok d) → length (D.numbers d) ≡ 5 * ledger.now.links }
    ensures { TellsItem (λ r. F.post work item r) D.numbers seat.old results.old result seat.new results.new }
{
    let done = work(item)?;
    add_crossings(ledger, seat, done.crossings())?;
    match results.push(done) {
        Ok(()) => Ok(()),
        Err(_) => Err(CrewFault::NoMemory),
    }
}

/// Takes items until there are none, passes the gate with each, works on it, and adds the numbers of what comes of it.
pub(crate) fn work_alone<
    R: Wait,
    T,
    D: Counted + Drop,
    G: Gate,
    F: Fn(T) -> Result<D, CellFault> + Copy,
>(
    rt: &R,
    workplace: Workplace<T, G>,
    work: F,
    mut pass: Pass<T>,
    mut seat: Seat,
    mut results: Vec<D>,
) -> Result<(Pass<T>, Seat, Vec<D>), CrewFault>
    requires bag { pass.bag ≡ workplace.bag.now.name }
    requires seat { seat.ledger ≡ workplace.ledger.now.name }
    requires ready { All (λ x. F.pre work x) pass.put }
    requires long { (x : T) (d : D) → F.pre work x → F.post work x (Ok d)
        → length (D.numbers d) ≡ 5 * workplace.ledger.now.links }
    ensures work { TellsWork (λ x r. F.post work x r) D.numbers pass seat results.items result }
    ensures whole { IfOk result (λ v. v.0.weight ≡ 65536 → EachOnce v.0.taken (length v.0.put)) }
{
    let Workplace { bag, gate, ledger } = workplace;
    for _ in rt.forever() {
        let Some(item) = bag.take(rt, &mut pass) else {
            return Ok((pass, seat, results));
        };
        let index = pass.last().unwrap();
        gate.enter(rt, index, &pass);
        match work_on(ledger, &mut seat, &mut results, work, item) {
            Ok(()) => {}
            Err(fault) => return Err(fault),
        }
    }
    unreachable!()
}
