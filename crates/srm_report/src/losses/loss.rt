//! Losses.
use srm_net::packet::Name;

/// A name that a member found to be missing.
#[derive(Clone, Copy, PartialEq, Eq, PartialOrd, Ord)]
pub(crate) struct Loss {
    /// The member's number.
    pub member: u16,
    /// The name that it lost.
    pub name: Name,
}
