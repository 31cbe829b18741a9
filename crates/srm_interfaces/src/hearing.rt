//! Groups of cells that hear what was sent.
ghost use Rattle.std.specs.Prelude.{All};
ghost use Rattle.srm_cell.specs.Setting.{traffic_of};
ghost use Rattle.srm_cell.specs.Hearing.{IsSent, packets_in};
ghost use Rattle.srm_interfaces.specs.Hearers.{GroupsMayHear, TellsHeard};

use srm_cell::cell::Cell;
use srm_cell::hearing::hear_each;
use srm_cell::sent::Sent;
use srm_member::participant::Participant;
use srm_scenario::session::Session;
use std::alloc::{AllocError, Global};

/// The groups after each of their cells heard what was sent, one group after the other.
///
/// # Errors
/// [`AllocError`]: the cells are gone.
pub fn hear_groups<M: Participant>(
    alloc: Global,
    session: Session,
    sent: &[Sent],
    groups: Vec<Vec<Cell<M>>>,
) -> Result<Vec<Vec<Cell<M>>>, AllocError>
    requires sent { All (λ x. IsSent session.scenario.now session.net.now x) sent.now }
    requires groups { GroupsMayHear M.plain (traffic_of session.scenario.now session.net.now) (packets_in sent.now)
        groups.items }
    ensures { TellsHeard M.plain (traffic_of session.entry.scenario.now session.entry.net.now) (packets_in sent.now)
        groups.items result }
{
    let mut heard = Vec::new(alloc);
    for group in groups {
        let mut group = group;
        hear_each(session, sent, group.as_mut_slice())?;
        heard.push(group)?;
    }
    Ok(heard)
}
