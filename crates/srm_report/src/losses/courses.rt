//! What became of losses, row by row.
ghost use Rattle.std.specs.Prelude.{◌≡◌, ◌++◌, ◌∷◌, [], List, OnOk};
ghost use Rattle.srm_member.specs.declared.row.Row.{Row as R};
ghost use Rattle.srm_report.specs.Courses.{TellLosses, LoseInTurn, after_fix, losing, name_fixed};

use crate::losses::by_loss::ByLoss;
use crate::losses::course::Course;
use crate::losses::loss::Loss;
use srm_member::row::{About, Row};
use srm_member::told::Told;
use srm_net::packet::{Body, Name};
use std::alloc::AllocError;

// Takes in the losses of one more row, and what it says became of earlier ones.
pub(crate) fn note(losses: &mut ByLoss<Course>, row: &Row) -> Result<(), AllocError>
    ensures { (rows after : List R) → LoseInTurn (rows ++ row.now ∷ after)
        → TellLosses rows losses.old → OnOk result (TellLosses (rows ++ row.now ∷ []) losses.new) }
{
    detect(losses, row)?;
    match fixed_name(row) {
        None => Ok(()),
        Some(name) => {
            let member = row.key.member;
            recover(losses, Loss { member, name }, row.key.time)?;
            Ok(())
        }
    }
}

// Takes in the losses of a row.
fn detect(losses: &mut ByLoss<Course>, row: &Row) -> Result<(), AllocError>
    ensures { (rows after : List R) → LoseInTurn (rows ++ row.now ∷ after)
        → TellLosses rows losses.old → OnOk result (TellLosses (rows ++ losing row.now row.now.lost ∷ []) losses.new) }
{
    let member = row.key.member;
    let course = Course {
        detected: row.key.time,
        recovered: None,
    };
    for name in row.lost.as_slice() {
        let name = *name;
        losses.put(Loss { member, name }, course)?;
    }
    Ok(())
}

// The loss was fixed at this time, if it is one.
fn recover(losses: &mut ByLoss<Course>, loss: Loss, at: u64) -> Result<(), AllocError>
    ensures { OnOk result (losses.new ≡ after_fix at loss losses.old) }
{
    match losses.get(loss) {
        None => Ok(()),
        Some(course) => {
            let recovered = Some(at);
            losses.put(
                loss,
                Course {
                    recovered,
                    ..course
                },
            )
        }
    }
}

// The name of the operation that the row's member took in as `fixed`.
fn fixed_name(row: &Row) -> Option<Name>
    ensures { result ≡ name_fixed row.now }
{
    match row.told {
        Told::Fixed => match &row.about {
            About::Of { packet } => match packet.body {
                Body::Drawop { name, .. } | Body::Repair { name, .. } => Some(name),
                Body::Request { .. } | Body::Session { .. } => None,
            },
            About::Nothing | About::Named { .. } => None,
        },
        _ => None,
    }
}
