//! The losses of each name, counted one after the other.
ghost use Rattle.std.specs.Prelude.{◌≡◌, List, Some, IfOk, IfSome, false, get_or};
ghost use Rattle.srm_member.specs.declared.row.Row.{Row as R};
ghost use Rattle.srm_report.specs.Courses.{TellLosses};
ghost use Rattle.srm_report.specs.Losses.{recovery_by};
ghost use Rattle.srm_report.specs.Operations.{later};
ghost use Rattle.srm_report.specs.Sendings.{TellLeft};
ghost use Rattle.srm_report.specs.Tallies.{AreTallies, tallied as tallied_by, tally_in, all_losses};

use crate::losses::course::Course;
use crate::losses::loss::Loss;
use crate::losses::loss_tally::LossTally;
use crate::losses::mended_loss::MendedLoss;
use crate::operations::sendings::sooner_of;
use srm_member::named::Named;
use srm_net::packet::Name;
use std::alloc::{AllocError, Global};

// The losses of each name, counted. `left` tells of each member whether it left.
pub(crate) fn tallies(
    alloc: Global,
    entries: &[(Loss, Course)],
    left: &[bool],
) -> Result<Named<LossTally>, AllocError>
    ensures { (rows : List R) → TellLosses rows entries.now → TellLeft rows left.now
        → IfOk result (AreTallies rows (all_losses rows)) }
{
    let mut all = Named::new(alloc);
    for entry in entries {
        let (loss, course) = *entry;
        let before = tally(&all, loss.name);
        let Some(after) = tallied(before, loss, course, has_left(left, loss.member)) else {
            return Err(AllocError);
        };
        all.put(loss.name, after)?;
    }
    Ok(all)
}

// What a map tells of a name.
pub(crate) fn tally(all: &Named<LossTally>, name: Name) -> LossTally
    ensures { result ≡ tally_in all.now name }
{
    match all.get(name) {
        Some(tally) => tally,
        None => LossTally {
            losers: 0,
            recovered: 0,
            left: 0,
            is_pending: false,
            detected: None,
            last: None,
        },
    }
}

// Whether a member left.
fn has_left(left: &[bool], member: u16) -> bool
    ensures { result ≡ get_or left.now member false }
{
    let member = usize::from(member);
    if member < left.len() {
        left[member]
    } else {
        false
    }
}

// A tally with a loss more, if its counts have room.
fn tallied(tally: LossTally, loss: Loss, course: Course, gone: bool) -> Option<LossTally>
    ensures { IfSome result (λ t. t ≡ tallied_by tally loss course gone) }
{
    let losers = tally.losers.checked_add(1)?;
    let recovered = if course.recovered.is_some() {
        tally.recovered.checked_add(1)?
    } else {
        tally.recovered
    };
    let left = if course.recovered.is_none() && gone {
        tally.left.checked_add(1)?
    } else {
        tally.left
    };
    Some(LossTally {
        losers,
        recovered,
        left,
        is_pending: tally.is_pending || (course.recovered.is_none() && !gone),
        detected: sooner_of(tally.detected, course.detected),
        last: later_of(tally.last, recovery(loss.member, course)),
    })
}

// How a member recovered, if it did.
pub(crate) fn recovery(member: u16, course: Course) -> Option<MendedLoss>
    ensures { result ≡ recovery_by member (Some course.detected) course.recovered }
{
    let Some(recovered) = course.recovered else {
        return None;
    };
    let detected = course.detected;
    Some(MendedLoss {
        member,
        detected,
        recovered,
    })
}

// The later of two recoveries, and the former of two at one time.
fn later_of(last: Option<MendedLoss>, next: Option<MendedLoss>) -> Option<MendedLoss>
    ensures { result ≡ later last next }
{
    let Some(next) = next else {
        return last;
    };
    match last {
        Some(last) if last.recovered >= next.recovered => Some(last),
        _ => Some(next),
    }
}
