//! Crossings, added to a ledger.
ghost use Rattle.std.specs.Prelude.{◌≡◌, ◌<◌, ◌*◌, length, All, IfOk, MatchResult};
ghost use Rattle.srm_ledger.specs.Counts.{place_of};
ghost use Rattle.srm_interfaces.specs.Crews.{HasGrown, IsPast, counted_in};
ghost use Rattle.srm_crew.specs.Shared.{counted_from, sum_of, Settles};

use crate::counted::Counted;
use srm_cell::crossings::Crossings;
use srm_cell::fault::CellFault;
use srm_interfaces::fault::CrewFault;
use srm_ledger::kind::Kind;
use srm_ledger::ledger::{Ledger, Seat, ShareFull};
use srm_ledger::totals::Totals;

// The kind whose number stands at an index of a link's five.
fn kind_at(index: usize) -> Kind
    requires { index < 5 }
    ensures { place_of result ≡ index }
{
    match index {
        0 => Kind::Drawop,
        1 => Kind::Request,
        2 => Kind::Repair,
        3 => Kind::Session,
        _ => Kind::Dropped,
    }
}

// Adds the five numbers of a link.
fn add_link(ledger: &Ledger, seat: &mut Seat, totals: &Totals, link: u16) -> Result<(), ShareFull>
    requires seat { seat.old.ledger ≡ ledger.now.name }
    requires link { link < ledger.now.links }
    requires long { length totals.now ≡ 5 * ledger.now.links }
    ensures { MatchResult result (λ _. HasGrown (counted_from (5 * link) 5 totals.now) seat.old seat.new)
        (λ _. IsPast (counted_from (5 * link) 5 totals.now) seat.old) }
{
    for index in 0..5 {
        let kind = kind_at(index);
        let number = totals.number(link, kind);
        // most numbers are 0: few links have packets of each kind in one window
        if number > 0 && ledger.add(seat, usize::from(link), kind, number).is_err() {
            return Err(ShareFull);
        }
    }
    Ok(())
}

// Adds each number of the totals.
fn add_totals(ledger: &Ledger, seat: &mut Seat, totals: &Totals) -> Result<(), ShareFull>
    requires seat { seat.old.ledger ≡ ledger.now.name }
    requires long { length totals.now ≡ 5 * ledger.now.links }
    ensures { MatchResult result (λ _. HasGrown (counted_in totals.now) seat.old seat.new)
        (λ _. IsPast (counted_in totals.now) seat.old) }
{
    for link in 0..ledger.links() {
        match add_link(ledger, seat, totals, link as u16) {
            Ok(()) => {}
            Err(full) => return Err(full),
        }
    }
    Ok(())
}

/// Adds crossings, of which there may be none.
pub(crate) fn add_crossings(
    ledger: &Ledger,
    seat: &mut Seat,
    crossings: &Crossings,
) -> Result<(), ShareFull>
    requires seat { seat.old.ledger ≡ ledger.now.name }
    requires long { length crossings.now ≡ 5 * ledger.now.links }
    ensures { MatchResult result (λ _. HasGrown (counted_in crossings.now) seat.old seat.new)
        (λ _. IsPast (counted_in crossings.now) seat.old) }
{
    match crossings.counted() {
        None => Ok(()),
        Some(totals) => add_totals(ledger, seat, totals),
    }
}

/// Adds the crossings of all that is done.
pub(crate) fn add_each<D: Counted>(
    ledger: &Ledger,
    seat: &mut Seat,
    all: &[D],
) -> Result<(), ShareFull>
    requires seat { seat.old.ledger ≡ ledger.now.name }
    requires long { All (λ d. length (D.numbers d) ≡ 5 * ledger.now.links) all.now }
    ensures { MatchResult result (λ _. HasGrown (λ k. sum_of D.numbers k all.now) seat.old seat.new)
        (λ _. IsPast (λ k. sum_of D.numbers k all.now) seat.old) }
{
    for done in all {
        match add_crossings(ledger, seat, done.crossings()) {
            Ok(()) => {}
            Err(full) => return Err(full),
        }
    }
    Ok(())
}

/// All that was given, with a seat that has grown by its crossings. It does not allocate.
///
/// # Errors
/// The cells' refusal, where they were refused; and else `ShareFull` alone.
pub(crate) fn settle<D: Counted + Drop>(
    ledger: &Ledger,
    seat: Seat,
    advanced: Result<Vec<D>, CellFault>,
) -> Result<(Vec<D>, Seat), CrewFault>
    requires seat { seat.ledger ≡ ledger.now.name }
    requires long { IfOk advanced (λ all. All (λ d. length (D.numbers d) ≡ 5 * ledger.now.links) all.items) }
    ensures { Settles D.numbers seat advanced result }
{
    let all = match advanced {
        Ok(all) => all,
        Err(fault) => return Err(CrewFault::from(fault)),
    };
    let mut seat = seat;
    match add_each(ledger, &mut seat, all.as_slice()) {
        Ok(()) => Ok((all, seat)),
        Err(full) => Err(CrewFault::from(full)),
    }
}
