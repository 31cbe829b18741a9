//! Loss recovery behind the trait of members, each cause by a call of its own.
use srm_member::cause::Cause;
use srm_member::due::Due;
use srm_member::exit::Exit;
use srm_member::fault::MemberFault;
use srm_member::member::Member;
use srm_member::react::React;
use srm_member::recovery::Recovery;
use std::alloc::Global;

/// A recovery that handles each cause by the call for it.
#[derive(Drop)]
pub struct Called {
    /// The recovery.
    pub recovery: Recovery,
}

impl Member for Called {
    ghost plain = { λ c. c.recovery };

    fn number(&self) -> u16 {
        self.recovery.number()
    }

    fn due(&self) -> Option<Due> {
        self.recovery.due()
    }

    fn react(&mut self, alloc: Global, at: u64, cause: &Cause) -> Result<React, MemberFault> {
        match cause {
            Cause::Join => self.recovery.join(alloc),
            Cause::Arrival { packet } => self.recovery.hear(alloc, at, packet),
            Cause::Ask { name } => self.recovery.ask(alloc, at, *name),
            Cause::Answer { name } => self.recovery.answer(alloc, at, *name),
            Cause::Draw { page, ink } => self.recovery.draw_op(alloc, at, *page, *ink),
            Cause::Report => self.recovery.report(alloc),
        }
    }

    fn finish(&mut self, alloc: Global) -> Result<Exit, MemberFault> {
        self.recovery.finish(alloc)
    }
}
