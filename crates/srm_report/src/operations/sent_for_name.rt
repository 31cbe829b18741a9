//! What was sent for a name.

/// What all members sent for a name.
#[derive(Clone, Copy)]
pub(crate) struct SentForName {
    /// When the first request was sent, if one was, in ticks.
    pub asked: Option<u64>,
    /// How many requests were sent.
    pub requests: u64,
    /// How many repairs were sent.
    pub repairs: u64,
}
