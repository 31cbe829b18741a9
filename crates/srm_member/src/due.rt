//! A member's next timer.
use srm_net::packet::Name;
use srm_net::rank::Rank;

/// A timer of a member.
#[derive(Clone, Copy, Debug, PartialEq, Eq, PartialOrd, Ord)]
pub struct Due {
    /// When it expires, in ticks.
    pub time: u64,
    /// The rank of its event: that of a request timer or of a repair timer.
    pub rank: Rank,
    /// The name that it asks for or answers.
    pub name: Name,
}
