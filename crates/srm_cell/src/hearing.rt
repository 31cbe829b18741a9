//! Cells that hear what was sent.
ghost use Rattle.std.specs.Prelude.{◌≡◌, ◌<◌, length, All, IfOk};
ghost use Rattle.srm_cell.specs.Setting.{traffic_of};
ghost use Rattle.srm_cell.specs.Hearing.{IsSent, packets_in, AllMayHear, EachHearsAll};

use crate::cell::Cell;
use crate::sent::Sent;
use srm_member::participant::Participant;
use srm_scenario::session::Session;
use std::alloc::AllocError;

/// Each of the cells hears what was sent, one packet after the other.
///
/// # Errors
/// [`AllocError`]. Nothing is known of the cells then.
pub fn hear_each<M: Participant>(
    session: Session,
    sent: &[Sent],
    cells: &mut [Cell<M>],
) -> Result<(), AllocError>
    requires sent { All (λ x. IsSent session.scenario.now session.net.now x) sent.now }
    requires new { AllMayHear M.plain (traffic_of session.scenario.now session.net.now) (packets_in sent.now)
        cells.old }
    ensures { IfOk result (λ _. EachHearsAll M.plain (traffic_of session.entry.scenario.now session.entry.net.now)
        (packets_in sent.now) cells.old cells.new) }
{
    for cell in cells.iter_mut() {
        cell.hear(session, sent)?;
    }
    Ok(())
}
