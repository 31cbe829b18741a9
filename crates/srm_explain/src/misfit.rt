//! Which rule an element of a scenario breaks beside the rest of it.
use srm_scenario::fault::Part;
use srm_scenario::file_key::FileKey;

/// Which rule a member, draw, session message, drop, outage or loss breaks beside the rest of the scenario.
#[derive(Clone, Copy)]
pub enum Misfit {
    /// Its node is none.
    NoNode {
        /// How many nodes there are.
        nodes: u16,
    },
    /// Its link is none.
    NoLink {
        /// How many links there are.
        links: usize,
    },
    /// Its member, which a drop names as its sender, is none.
    NoMember {
        /// How many members there are.
        members: usize,
    },
    /// Its node is the hub of a star.
    OnHub,
    /// Its node is that of an earlier member.
    Taken {
        /// The place of that member.
        earlier: usize,
    },
    /// It joins when the run is over.
    JoinsAfterEnd {
        /// When the run ends, in ticks.
        until: u64,
    },
    /// It does not leave after it joins.
    LeavesBeforeJoin {
        /// When it joins, in ticks.
        join: u64,
    },
    /// Pages are given for it, and it is not late.
    NotLate,
    /// A scope is given for it, and it is a listener.
    NeverAsks,
    /// Its member draws, and is no sender.
    NotSender,
    /// Its member is a listener, and is to send a session message.
    IsListener,
    /// It is before its member joins.
    BeforeJoin {
        /// When the member joins, in ticks.
        join: u64,
    },
    /// It is after its member leaves.
    AfterLeave {
        /// When the member leaves, in ticks.
        leave: u64,
    },
    /// It is when the run is over.
    AfterEnd {
        /// When the run ends, in ticks.
        until: u64,
    },
    /// An outage does not end after it begins.
    EndsEarly {
        /// When it begins, in ticks.
        from: u64,
    },
    /// A loss does not end after it begins.
    StopsEarly {
        /// When it begins, in ticks.
        from: u64,
    },
}

impl Misfit {
    /// The key, in the elements of this part, whose value breaks the rule.
    pub(crate) fn key(self, part: Part) -> FileKey {
        match self {
            Misfit::NoNode { .. } | Misfit::OnHub | Misfit::Taken { .. } => FileKey::Node,
            Misfit::NoLink { .. } => FileKey::Link,
            Misfit::NoMember { .. } if part == Part::Drop => FileKey::Sender,
            Misfit::NoMember { .. } | Misfit::NotSender | Misfit::IsListener => FileKey::Member,
            Misfit::JoinsAfterEnd { .. } => FileKey::Join,
            Misfit::LeavesBeforeJoin { .. } => FileKey::Leave,
            Misfit::NotLate => FileKey::Pages,
            Misfit::NeverAsks => FileKey::Scope,
            Misfit::BeforeJoin { .. } | Misfit::AfterLeave { .. } | Misfit::AfterEnd { .. } =>
                FileKey::At,
            Misfit::EndsEarly { .. } | Misfit::StopsEarly { .. } => FileKey::To,
        }
    }
}
