//! How wide windows are.

/// How wide windows are.
#[derive(Clone, Copy, Debug, PartialEq, Eq)]
pub enum Width {
    /// So many ticks: from 1 to the least delay of a link, or any number from 1 where there is no link.
    Ticks(u64),
    /// The least delay of a link. Where there is no link, a window ends with the run.
    Least,
    /// As wide as members promise: a member that is no listener sends nothing before its next event, and what it sends then takes
    /// at least the way to the nearest other member. A window ends at the least sum of the two, or with the run.
    Promise,
}
