//! Why a team gives no results.

/// Why a team gives no results. The items of the call are gone.
#[derive(Clone, Copy, Debug, PartialEq, Eq)]
pub enum TeamFault {
    /// Memory was refused.
    NoMemory,
    /// There are more items than the team has room for. As it is written, none was worked on.
    TooMany,
    /// The team took up 2^62 lists before. As it is written, none of the items was worked on.
    Worn,
    /// The history had lists of another leader, or a channel was closed, or a place stayed empty, while results were still to
    /// come. A team's history has no other leader, and a worker ends only when its team is dropped, so this is met nowhere; but
    /// no proof says so, since a shared word promises nothing of who writes it, and a channel nothing of when it is closed.
    Left,
}
