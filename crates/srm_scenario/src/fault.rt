//! Why a text is no scenario.
use std::alloc::{AllocError, AllocFailed};
use std::fmt;
use thiserror::Error;

/// A part of a scenario file: its top table, or the elements of one of its arrays.
#[derive(Clone, Copy, Debug, PartialEq, Eq)]
pub enum Part {
    /// The table of the whole file.
    Top,
    /// The elements of `link`.
    Link,
    /// The elements of `member`.
    Member,
    /// The elements of `draw`.
    Draw,
    /// The elements of `session`.
    Session,
    /// The elements of `drop`.
    Drop,
    /// The elements of `outage`.
    Outage,
    /// The elements of `loss`.
    Loss,
}

impl fmt::Display for Part {
    fn fmt<W: fmt::Write>(&self, f: &mut fmt::Formatter<W>) -> fmt::Result {
        f.write_str(match self {
            Part::Top => "top",
            Part::Link => "link",
            Part::Member => "member",
            Part::Draw => "draw",
            Part::Session => "session",
            Part::Drop => "drop",
            Part::Outage => "outage",
            Part::Loss => "loss",
        })
    }
}

/// Why no scenario was read. A text may have several faults: the first in this order is told, and of one kind the one at the
/// least place. Places are counted from 0 in the order of an array.
#[derive(Clone, Copy, Debug, PartialEq, Eq, Error)]
pub enum ScenarioFault {
    /// The feed failed.
    #[error("the scenario could not be read")]
    ReadFault,
    /// The text has more than [`LONGEST_TEXT`](crate::bytes::LONGEST_TEXT) bytes.
    #[error("the scenario has more than 1048576 bytes")]
    TooLong,
    /// The text is not UTF-8, or no TOML document.
    #[error("the scenario is no TOML document")]
    NotToml,
    /// A table has an unknown key, lacks a key, or has a value of a wrong type or out of its range; or no table stands there.
    #[error("a key of {part} {place} is unknown, missing or wrong")]
    BadKey {
        /// The part of the file.
        part: Part,
        /// The element of that part, and 0 for the top table.
        place: usize,
    },
    /// The links do not make a tree of the nodes.
    #[error("the links do not make a tree of the nodes")]
    NotTree,
    /// A member has no node of its own, does not join before the end of the run and before it leaves, has pages without being
    /// late, or is given a scope, even 0, and is a listener.
    #[error("member {place} does not fit the scenario")]
    BadMember {
        /// The member's place.
        place: usize,
    },
    /// A draw is by no sender, or at a time when the sender is not there.
    #[error("draw {place} does not fit the scenario")]
    BadDraw {
        /// The draw's place.
        place: usize,
    },
    /// A session message is by no member, by a listener, or at a time when the member is not there.
    #[error("session {place} does not fit the scenario")]
    BadSession {
        /// The session message's place.
        place: usize,
    },
    /// A drop names no link or no member.
    #[error("drop {place} does not fit the scenario")]
    BadDrop {
        /// The drop's place.
        place: usize,
    },
    /// An outage is of no link, or does not end after it begins.
    #[error("outage {place} does not fit the scenario")]
    BadOutage {
        /// The outage's place.
        place: usize,
    },
    /// A loss is of no link, or does not end after it begins.
    #[error("loss {place} does not fit the scenario")]
    BadLoss {
        /// The loss's place.
        place: usize,
    },
    /// Memory ran out. This may come in place of any other answer.
    #[error("out of memory")]
    NoMemory,
}

impl From<AllocError> for ScenarioFault {
    ghost use Rattle.std.specs.Prelude.{◌≡◌};
    ghost use Rattle.srm_scenario.specs.declared.fault.ScenarioFault.TheVariants.{NoMemory};

    ghost from_gives = { λ _ e. e ≡ NoMemory };

    fn from(_e: AllocError) -> ScenarioFault {
        ScenarioFault::NoMemory
    }
}

impl<T: Drop> From<AllocFailed<T>> for ScenarioFault {
    ghost use Rattle.std.specs.Prelude.{◌≡◌};
    ghost use Rattle.srm_scenario.specs.declared.fault.ScenarioFault.TheVariants.{NoMemory};

    ghost from_gives = { λ _ e. e ≡ NoMemory };

    fn from(_e: AllocFailed<T>) -> ScenarioFault {
        ScenarioFault::NoMemory
    }
}
