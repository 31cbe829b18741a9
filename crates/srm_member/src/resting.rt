//! Rests of members.

use crate::mark::RepairMark;

/// A member's rest for a name: it does not answer requests that the repair which it comes from serves.
#[derive(Clone, Copy, Debug, PartialEq, Eq)]
pub struct Resting {
    /// Before which time the member rests, in ticks: 0 where it never rested for the name.
    pub until: u64,
    /// The mark of the repair, or none where that went to all.
    pub mark: Option<RepairMark>,
}
