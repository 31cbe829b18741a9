//! Rows of a trace.
ghost use Rattle.std.specs.Prelude.{◌≡◌};
ghost use Rattle.srm_member.specs.Kinds as kinds;

use crate::adapted::Adapted;
use crate::told::Told;
use srm_net::key::Key;
use srm_net::packet::{Name, Packet};
use srm_net::sequence::Sequence;

/// The kind of a row's event, as a trace names it.
#[derive(Clone, Copy, Debug, PartialEq, Eq)]
pub enum Word {
    /// `join`
    Join,
    /// `data`: a drawing operation arrived.
    Data,
    /// `request`: a request arrived.
    Request,
    /// `repair`: a repair arrived.
    Repair,
    /// `session`: a session message arrived.
    Session,
    /// `ask`: a request timer expired.
    Ask,
    /// `answer`: a repair timer expired.
    Answer,
    /// `draw`
    Draw,
    /// `report`
    Report,
    /// `leave`
    Leave,
}

impl Word {
    /// Whether a member joins.
    pub fn is_join(self) -> bool
        ensures { result ≡ kinds.is_join self }
    {
        matches!(self, Word::Join)
    }

    /// Whether a member leaves.
    pub fn is_leave(self) -> bool
        ensures { result ≡ kinds.is_leave self }
    {
        matches!(self, Word::Leave)
    }

    /// Whether a member draws.
    pub fn is_draw(self) -> bool
        ensures { result ≡ kinds.is_draw self }
    {
        matches!(self, Word::Draw)
    }

    /// Whether a request timer expires.
    pub fn is_ask(self) -> bool
        ensures { result ≡ kinds.is_ask self }
    {
        matches!(self, Word::Ask)
    }

    /// Whether a repair timer expires.
    pub fn is_answer(self) -> bool
        ensures { result ≡ kinds.is_answer self }
    {
        matches!(self, Word::Answer)
    }

    /// Whether a member reports to its session.
    pub fn is_report(self) -> bool
        ensures { result ≡ kinds.is_report self }
    {
        matches!(self, Word::Report)
    }

    /// Whether a packet arrives.
    pub fn is_arrival(self) -> bool
        ensures { result ≡ kinds.is_arrival self }
    {
        matches!(
            self,
            Word::Data | Word::Request | Word::Repair | Word::Session
        )
    }
}

/// What a row's event is about.
#[derive(Debug, Drop)]
pub enum About {
    /// Nothing.
    Nothing,
    /// A packet that arrived.
    Of {
        /// The packet.
        packet: Packet,
    },
    /// A name: that of a timer, or what was drawn.
    Named {
        /// The name.
        name: Name,
    },
}

/// A row of a trace: one event at one member.
#[derive(Debug, Drop)]
pub struct Row {
    /// The event's key.
    pub key: Key,
    /// The event's kind.
    pub cause: Word,
    /// What the event is about.
    pub about: About,
    /// What came of it.
    pub told: Told,
    /// The names that the member found to be missing, in the order in which it found them.
    pub lost: Sequence<Name>,
    /// The packet that the member sent, if any.
    pub sent: Option<Packet>,
    /// The member's intervals after the event: at its join, and where one of the constants C1, C2, D1 and D2 is another than
    /// before. Of a listener they are never told.
    pub adapted: Adapted,
}
