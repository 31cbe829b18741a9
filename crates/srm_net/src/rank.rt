//! The ranks of events of one member and tick.

/// The rank of an event's kind: a member handles its events of one tick in the order in which the ranks stand here.
#[derive(Clone, Copy, Debug, PartialEq, Eq, PartialOrd, Ord)]
pub enum Rank {
    /// Of a join.
    Join,
    /// Of an arrival of a packet.
    Arrival,
    /// Of a request timer that expires.
    Request,
    /// Of a repair timer that expires.
    Repair,
    /// Of a draw.
    Draw,
    /// Of a report.
    Report,
    /// Of a leave.
    Leave,
}
