//! Items of a bag, shared among workers.
ghost use Rattle.std.specs.Prelude.{◌≡◌, ◌≤◌, ◌*◌, ℕ, List, [], length, All, Ok, IfOk};
ghost use Rattle.srm_crew.specs.Indices.{EachOnce};
ghost use Rattle.srm_crew.specs.Passes.{fresh_pass};
ghost use Rattle.srm_crew.specs.Shared.{TellsWork};

use crate::bag::Bag;
use crate::counted::Counted;
use crate::gate::Gate;
use crate::pass::Pass;
use crate::worker::work_alone;
use crate::workers::share_out;
use crate::workplace::Workplace;
use srm_cell::fault::CellFault;
use srm_interfaces::fault::CrewFault;
use srm_ledger::ledger::Seat;
use std::alloc::Global;
use std::marker::{Send, Sync};
use std::sync::Wait;
use std::thread::Threads;

/// Puts all items with the whole pass.
pub(crate) fn put_all<R: Wait, T: Drop>(
    rt: &R,
    bag: &Bag<T>,
    mut pass: Pass<T>,
    items: Vec<T>,
) -> Pass<T>
    requires pass { pass ≡ fresh_pass bag.now.name }
    requires room { length items.items ≤ bag.now.room }
    ensures { (result.bag ≡ pass.bag) × (result.weight ≡ 65536) × (result.put ≡ items.items) × (result.taken ≡ []) }
{
    for item in items {
        bag.put(rt, &mut pass, item).unwrap();
    }
    pass
}

/// So many workers, and then, with the pass that is whole again, one that sees that nothing is left.
pub(crate) fn share_all<
    R: Threads + Wait + Sync,
    T: Send + Drop,
    D: Counted + Send + Drop,
    G: Gate + Sync,
    F: Fn(T) -> Result<D, CellFault> + Copy + Send + Sync,
>(
    rt: &R,
    alloc: Global,
    workers: u8,
    workplace: Workplace<T, G>,
    work: F,
    pass: Pass<T>,
    seat: Seat,
) -> Result<(Pass<T>, Seat, Vec<D>), CrewFault>
    requires bag { (pass.bag ≡ workplace.bag.now.name) × (pass.taken ≡ []) }
    requires seat { seat.ledger ≡ workplace.ledger.now.name }
    requires ready { All (λ x. F.pre work x) pass.put }
    requires long { (x : T) (d : D) → F.pre work x → F.post work x (Ok d)
        → length (D.numbers d) ≡ 5 * workplace.ledger.now.links }
    ensures work { TellsWork (λ x r. F.post work x r) D.numbers pass seat [] result }
    ensures whole { IfOk result (λ v. v.0.weight ≡ 65536 → EachOnce v.0.taken (length v.0.put)) }
{
    let shared = share_out(rt, alloc, workers, workplace, work, pass, seat);
    let (pass, seat, results) = match shared {
        Ok(shared) => shared,
        Err(fault) => return Err(fault),
    };
    work_alone(rt, workplace, work, pass, seat, results)
}
