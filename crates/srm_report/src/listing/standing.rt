//! Where a sink of a trace stands.

/// Where a sink of a trace stands.
#[derive(Clone, Copy)]
pub(crate) enum Standing {
    /// It was asked nothing yet.
    Fresh,
    /// It took all that it was asked to.
    Live,
    /// Memory was refused.
    NoMemory,
    /// Its outlet failed.
    Stopped,
}
