//! Places in a text.

/// A part of a text.
#[derive(Clone, Copy)]
pub(crate) struct Span {
    /// Where it begins, in bytes.
    pub(crate) start: usize,
    /// Where it ends, in bytes.
    pub(crate) end: usize,
}
