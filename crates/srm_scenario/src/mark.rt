//! Marks of a member's script.
use srm_net::rank::Rank;

/// An entry of a member's script: its join, a draw, a report or its leave.
#[derive(Clone, Copy, Debug, PartialEq, Eq)]
pub struct Mark {
    /// When it is, in ticks.
    pub at: u64,
    /// The rank of its event: that of a join, of a draw, of a report or of a leave.
    pub rank: Rank,
    /// Its place among the scenario's draws or sessions, from 0; 0 for a join or a leave.
    pub place: u16,
    /// The page of a draw; otherwise 0.
    pub page: u16,
    /// The ink of a draw; otherwise 0.
    pub ink: u32,
}
