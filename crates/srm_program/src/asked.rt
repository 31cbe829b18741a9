//! What is asked of a run.
ghost use Rattle.std.specs.Prelude.{map};
ghost use Rattle.srm_engine.specs.Openings.{IsOpening};

use crate::task::Task;
use srm_member::participant::Participant;

/// A task, and its members as they are at first.
#[derive(Drop)]
pub(crate) struct Asked<'a, M: Participant> {
    /// Which session is run, and how.
    pub task: Task<'a>,
    /// The members, in order of their numbers.
    pub members: Vec<M>,
    pub ghost opening: { IsOpening task.session.scenario.now (map M.plain members.items) },
}
