//! Whether members are on the two sides of a link.

/// Whether any member is on the side of a link's end `a`, and of its end `b`.
#[derive(Clone, Copy)]
pub(crate) struct Sides {
    /// Whether a member is nearer to `a` than to `b`.
    pub(crate) a: bool,
    /// Whether a member is nearer to `b` than to `a`.
    pub(crate) b: bool,
}
