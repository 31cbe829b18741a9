//! A whole story.
use crate::stories::step::Step;
use srm_member::exit::Exit;
use srm_net::packet::Name;

/// What happens to a member from its first event to its end.
#[derive(Clone, Copy, Debug)]
pub struct Story {
    /// The member.
    pub member: u16,
    /// What happens to it, in order.
    pub steps: &'static [Step],
    /// The names that it holds at its end, with what was drawn.
    pub held: &'static [(Name, u32)],
    /// The names that it lacks then.
    pub missing: &'static [Name],
}

impl Story {
    /// Whether a member that lived through the story ends with this, and then has this number.
    pub(crate) fn expects(&self, exit: &Exit, number: u16) -> bool {
        exit.member == self.member
            && number == self.member
            && exit.held.as_slice() == self.held
            && exit.missing.as_slice() == self.missing
    }
}
