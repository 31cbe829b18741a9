//! What a run starts from.
ghost use Rattle.std.specs.Prelude.{map};
ghost use Rattle.srm_engine.specs.Openings.{IsOpening};

use srm_member::participant::Participant;
use srm_scenario::session::Session;

/// What a run starts from: a session, and its members as they are at first.
#[derive(Drop)]
pub struct Start<'a, M: Participant> {
    /// The scenario on its network.
    pub session: Session<'a>,
    /// The members, in order of their numbers.
    pub members: Vec<M>,
    pub ghost opening: { IsOpening session.scenario.now (map M.plain members.items) },
}
