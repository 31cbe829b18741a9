//! A part of lines.
/// The lines of one tick.
#[derive(Clone, Copy)]
pub(crate) struct TickPart<'a> {
    /// The tick.
    pub(crate) time: u64,
    /// The lines.
    pub(crate) text: &'a [u8],
}
