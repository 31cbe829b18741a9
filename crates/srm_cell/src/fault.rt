//! Why a cell does not go on.

/// Why a cell does not go on.
#[derive(Clone, Copy, Debug, PartialEq, Eq)]
pub enum CellFault {
    /// Memory was refused.
    NoMemory,
    /// The cell's member is gone, and has no answer to its next event.
    Spent,
    /// The cell's member was to send a packet, and its packet count, 2^48, is used up.
    CountFull,
}
