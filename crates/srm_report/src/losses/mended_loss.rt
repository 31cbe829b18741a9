//! Losses that were mended.

/// A loss that was mended, in ticks.
#[derive(Clone, Copy)]
pub(crate) struct MendedLoss {
    /// The number of the member that had lost the operation.
    pub member: u16,
    /// When it detected that.
    pub detected: u64,
    /// When it took the operation in.
    pub recovered: u64,
}
