//! One event of a story.
use crate::stories::carried::Carried;
use crate::stories::event::Event;
use srm_member::due::Due;
use srm_member::react::React;
use srm_member::told::Told;
use srm_net::packet::{Body, Name};

/// An event, and what must come of it.
#[derive(Clone, Copy, Debug)]
pub struct Step {
    /// When it happens, in ticks.
    pub at: u32,
    /// What happens.
    pub event: Event,
    /// What the member tells of it.
    pub told: Told,
    /// The names that it finds to be missing.
    pub lost: &'static [Name],
    /// What it sends, if anything.
    pub sent: Option<Carried>,
    /// Its next timer afterwards.
    pub due: Option<Due>,
}

impl Step {
    /// Whether an answer, and the next timer after it, are what must come of the event.
    pub(crate) fn expects(&self, react: &React, due: Option<Due>) -> bool {
        react.told() == self.told
            && react.lost() == self.lost
            && due == self.due
            && self.sends(react.body())
    }

    // Whether this is what must be sent, if anything must.
    fn sends(&self, body: Option<&Body>) -> bool {
        match (self.sent, body) {
            (Some(carried), Some(body)) => carried.is_in(body),
            (sent, body) => sent.is_none() && body.is_none(),
        }
    }
}
