//! Keys of events and their order.
ghost use Rattle.std.specs.Prelude.{◌≡◌};

use crate::rank::Rank;

/// The key of an event. Keys are compared by time, then member, then rank, then the three numbers (this project's own).
///
/// | rank | event | `a`, `b`, `c` |
/// |---|---|---|
/// | `Rank::Join` | join | 0, 0, 0 |
/// | `Rank::Arrival` | arrival of a packet | its sender, 0, its count |
/// | `Rank::Request` | request timer | source, page and number of its name |
/// | `Rank::Repair` | repair timer | source, page and number of its name |
/// | `Rank::Draw` | draw | 0, 0, its place in the scenario |
/// | `Rank::Report` | report | 0, 0, its place in the scenario |
/// | `Rank::Leave` | leave | 0, 0, 0 |
#[derive(Clone, Copy, Debug, PartialEq, Eq, PartialOrd, Ord)]
pub struct Key {
    /// When the event is, in ticks.
    pub time: u64,
    /// The member that handles the event.
    pub member: u16,
    /// The rank of the event's kind among events of one member and tick.
    pub rank: Rank,
    /// The first number that tells events of one rank apart.
    pub a: u16,
    /// The second number.
    pub b: u16,
    /// The third number.
    pub c: u64,
}
