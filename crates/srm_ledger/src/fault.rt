//! Refusals of a ledger.

/// Why a ledger was not opened.
#[derive(Debug, PartialEq, Eq, Drop)]
pub enum LedgerFault {
    /// Memory was refused.
    NoMemory,
}

/// The seat's share would pass [`SHARE_MOST`](crate::seat::SHARE_MOST).
#[derive(Debug, PartialEq, Eq, Drop)]
pub struct ShareFull;

/// Why a seat was not split.
#[derive(Debug, PartialEq, Eq, Drop)]
pub enum SplitFault {
    /// The seat's weight is 1.
    TooManySeats,
    /// Memory was refused.
    NoMemory,
}

/// The seat's weight is below the whole: other seats of the ledger are still held, or were dropped.
#[derive(Debug, PartialEq, Eq, Drop)]
pub struct NotWhole;
