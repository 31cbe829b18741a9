//! How many members lost an operation, and what became of that.
use crate::losses::mended_loss::MendedLoss;

/// The losses of one name, counted.
#[derive(Clone, Copy)]
pub(crate) struct LossTally {
    /// How many members lost it.
    pub losers: u64,
    /// How many of them have it again.
    pub recovered: u64,
    /// How many of the others left.
    pub left: u64,
    /// Whether some loser neither has it again nor left.
    pub is_pending: bool,
    /// When the first loser detected the loss, in ticks.
    pub detected: Option<u64>,
    /// How the last loser to recover did; of several at one time that of the least number.
    pub last: Option<MendedLoss>,
}
