//! Totals of one thread.
ghost use Rattle.std.specs.Prelude.{◌≡◌, length, IfOk};

use crate::ledger_tests::stories::attempt_twice;
use srm_ledger::kind::Kind;
use srm_ledger::totals::Totals;
use std::alloc::{AllocError, Global};
use std::process::Abort;

// What is counted of two links: a drawing operation at the first, and two repairs and a drop at the second.
fn four_packets(alloc: Global) -> Result<Totals, AllocError>
    ensures { IfOk result (λ t. length t ≡ 10) }
{
    let mut totals = Totals::new(alloc, 2)?;
    totals.count(1, Kind::Repair);
    totals.count(0, Kind::Drawop);
    totals.count(1, Kind::Repair);
    totals.count(1, Kind::Dropped);
    Ok(totals)
}

fn count_on_two_links(rt: &impl Abort, alloc: Global) -> Result<(), AllocError> {
    let totals = four_packets(alloc)?;
    let repairs = [
        totals.number(1, Kind::Repair),
        totals.number(0, Kind::Repair),
    ];
    assert_eq!(rt; repairs, [2, 0]);
    assert_eq!(rt;
        totals.links(),
        [[1, 0, 0, 0, 0], [0, 0, 2, 0, 1]].as_slice()
    );
    Ok(())
}

#[test]
fn counts_of_two_links(rt: HostRuntime) -> Result<(), AllocError> {
    attempt_twice(&rt, || count_on_two_links(&rt, rt.alloc()))
}

fn have_no_links(rt: &impl Abort, alloc: Global) -> Result<(), AllocError> {
    assert!(rt; Totals::new(alloc, 0)?.links().is_empty());
    Ok(())
}

#[test]
fn totals_of_no_links(rt: HostRuntime) -> Result<(), AllocError> {
    attempt_twice(&rt, || have_no_links(&rt, rt.alloc()))
}
