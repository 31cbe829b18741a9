//! Workers made by halving: each has a pass and a seat of its own, split off from one of each, and joined again.
ghost use Rattle.std.specs.Prelude.{◌≡◌, ◌≤◌, ◌*◌, ℕ, List, [], length, All, Ok, IfOk, MatchResult};
ghost use denote.Param.Send.{IsSend, IsSync};
ghost use Rattle.srm_ledger.specs.Seats.{half_with_shares};
ghost use Rattle.srm_ledger.specs.Seats as seats;
ghost use Rattle.srm_crew.specs.Passes.{half_with_list, half_without_list};
ghost use Rattle.srm_crew.specs.Shared.{TellsWork, TellsBoth, MayNotHalve};

use crate::bag::Bag;
use crate::bag_fault::SplitFault;
use crate::counted::Counted;
use crate::gate::Gate;
use crate::pass::Pass;
use crate::worker::work_alone;
use crate::workplace::Workplace;
use srm_cell::fault::CellFault;
use srm_interfaces::fault::CrewFault;
use srm_ledger::ledger as ledgers;
use srm_ledger::ledger::{Ledger, Seat};
use std::alloc::Global;
use std::marker::{Send, Sync};
use std::sync::Wait;
use std::thread::{Threads, join};

// The halves of a pass and of a seat; or both back as they were.
fn halves<T>(
    alloc: Global,
    bag: &Bag<T>,
    ledger: &Ledger,
    pass: Pass<T>,
    seat: Seat,
) -> Result<((Pass<T>, Seat), (Pass<T>, Seat)), (Pass<T>, Seat, SplitFault)>
    requires bag { pass.bag ≡ bag.now.name }
    requires seat { seat.ledger ≡ ledger.now.name }
    ensures { MatchResult result (λ h. (h.0.0 ≡ half_with_list pass) × (h.0.1 ≡ half_with_shares seat)
        × (h.1.0 ≡ half_without_list pass) × (h.1.1 ≡ seats.half_without seat))
        (λ e. (e.0 ≡ pass) × (e.1 ≡ seat) × MayNotHalve pass.weight seat.weight e.2) }
{
    let (mine, theirs) = match bag.split(alloc, pass) {
        Ok(halves) => halves,
        Err((pass, fault)) => return Err((pass, seat, fault)),
    };
    let (seat, other) = match ledger.split(alloc, seat) {
        Ok(halves) => halves,
        Err((seat, ledgers::SplitFault::TooManySeats)) => {
            return Err((bag.join(mine, theirs), seat, SplitFault::TooManySeats));
        }
        Err((seat, ledgers::SplitFault::NoMemory)) => {
            return Err((bag.join(mine, theirs), seat, SplitFault::NoMemory));
        }
    };
    Ok(((mine, seat), (theirs, other)))
}

// What comes of two workers.
fn gather<T, D: Drop>(
    bag: &Bag<T>,
    ledger: &Ledger,
    first: Result<(Pass<T>, Seat, Vec<D>), CrewFault>,
    second: Result<(Pass<T>, Seat, Vec<D>), CrewFault>,
) -> Result<(Pass<T>, Seat, Vec<D>), CrewFault>
    requires first { IfOk first (λ v. (v.0.bag ≡ bag.now.name) × (v.1.ledger ≡ ledger.now.name)) }
    requires second { IfOk second (λ v. (v.0.bag ≡ bag.now.name) × (v.1.ledger ≡ ledger.now.name)) }
    ensures { TellsBoth first second result }
{
    let (pass, seat, mut results) = match first {
        Ok(first) => first,
        Err(fault) => return Err(fault),
    };
    let (other_pass, other_seat, mut other_results) = match second {
        Ok(second) => second,
        Err(fault) => return Err(fault),
    };
    let pass = bag.join(pass, other_pass);
    let seat = match ledger.join(seat, other_seat) {
        Ok(seat) => seat,
        Err(_) => return Err(CrewFault::ShareFull),
    };
    match results.append(&mut other_results) {
        Ok(()) => Ok((pass, seat, results)),
        Err(_) => Err(CrewFault::NoMemory),
    }
}

/// So many workers, which take items until there are none. Where the pass or the seat is not split any more there are fewer.
pub(crate) fn share_out<
    R: Threads + Wait + Sync,
    T: Send + Drop,
    D: Counted + Send + Drop,
    G: Gate + Sync,
    F: Fn(T) -> Result<D, CellFault> + Copy + Send + Sync,
>(
    rt: &R,
    alloc: Global,
    workers: u8,
    workplace: Workplace<T, G>,
    work: F,
    pass: Pass<T>,
    seat: Seat,
) -> Result<(Pass<T>, Seat, Vec<D>), CrewFault>
    requires bag { (pass.bag ≡ workplace.bag.now.name) × (pass.taken ≡ []) }
    requires seat { seat.ledger ≡ workplace.ledger.now.name }
    requires ready { All (λ x. F.pre work x) pass.put }
    requires long { (x : T) (d : D) → F.pre work x → F.post work x (Ok d)
        → length (D.numbers d) ≡ 5 * workplace.ledger.now.links }
    ensures { TellsWork (λ x r. F.post work x r) D.numbers pass seat [] result }
{
    if workers <= 1 {
        return work_alone(rt, workplace, work, pass, seat, Vec::new(alloc));
    }
    let ((mine, seat), (theirs, other)) = match halves(
        alloc,
        workplace.bag,
        workplace.ledger,
        pass,
        seat,
    ) {
        Ok(halves) => halves,
        Err((pass, seat, SplitFault::TooManySeats)) => {
            return work_alone(rt, workplace, work, pass, seat, Vec::new(alloc));
        }
        Err((_, _, SplitFault::NoMemory)) => return Err(CrewFault::NoMemory),
    };
    let less = workers / 2;
    let more = workers - less;
    let (second, first) = join(
        rt,
        move || -> Result<(Pass<T>, Seat, Vec<D>), CrewFault>
            requires { IsSync R.row × IsSync G.row × IsSend F.row × IsSync F.row × (theirs.bag ≡ workplace.bag.now.name)
                × (theirs.taken ≡ []) × (other.ledger ≡ workplace.ledger.now.name) × All (λ x. F.pre work x) theirs.put
                × ((x : T) (d : D) → F.pre work x → F.post work x (Ok d)
                → length (D.numbers d) ≡ 5 * workplace.ledger.now.links) }
            ensures { TellsWork (λ x r. F.post work x r) D.numbers theirs other [] result }
        { share_out(rt, alloc, less, workplace, work, theirs, other) },
        move || -> Result<(Pass<T>, Seat, Vec<D>), CrewFault>
            requires { IsSync R.row × IsSync G.row × IsSend F.row × IsSync F.row × (mine.bag ≡ workplace.bag.now.name)
                × (mine.taken ≡ []) × (seat.ledger ≡ workplace.ledger.now.name) × All (λ x. F.pre work x) mine.put
                × ((x : T) (d : D) → F.pre work x → F.post work x (Ok d)
                → length (D.numbers d) ≡ 5 * workplace.ledger.now.links) }
            ensures { TellsWork (λ x r. F.post work x r) D.numbers mine seat [] result }
        { share_out(rt, alloc, more, workplace, work, mine, seat) },
    );
    gather(workplace.bag, workplace.ledger, first, second)
}
