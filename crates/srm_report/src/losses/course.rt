//! What became of losses.

/// What became of a loss, in ticks.
#[derive(Clone, Copy)]
pub(crate) struct Course {
    /// When it was detected.
    pub detected: u64,
    /// When the member took in what it had lost, if it did.
    pub recovered: Option<u64>,
}
