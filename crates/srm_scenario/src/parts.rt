//! The parts of a scenario.
ghost use Rattle.std.specs.Prelude.{◌≡◌};
ghost use Rattle.srm_scenario.specs.Presence.{is_present};

use srm_net::role::Role;
use srm_net::sequence::Sequence;

/// The constants of the timers (Floyd et al. 1997), in thousandths, each 0 to 1,024,000.
#[derive(Clone, Copy, Debug, PartialEq, Eq)]
pub struct Constants {
    /// The least length of a request timer, in thousandths of the distance to the source.
    pub c1: u64,
    /// By how much a request timer may be longer, in thousandths of the same distance.
    pub c2: u64,
    /// The least length of a repair timer, in thousandths of the distance to the requester.
    pub d1: u64,
    /// By how much a repair timer may be longer, in thousandths of the same distance.
    pub d2: u64,
}

/// How far members adapt the constants of their timers (Floyd et al. 1997). Where the least and the greatest values are the first
/// ones, timers are fixed.
#[derive(Clone, Copy, Debug, PartialEq, Eq)]
pub struct Room {
    /// The least value of each constant, in thousandths.
    pub least: Constants,
    /// The greatest value of each constant, in thousandths.
    pub most: Constants,
    /// How many times as long a backoff makes a timer: 2 or 3.
    pub backoff: u64,
}

/// How members ask again with a scope, and how repairs come back (Floyd et al. 1997, VII.B, of local recovery). It decides only
/// where a member's requests have a scope.
#[derive(Clone, Copy, Debug, PartialEq, Eq)]
pub struct LocalRecovery {
    /// By how many hops each backoff widens the scope of a request: 0 to 65,535 (this project's own).
    pub widen: u16,
    /// From how many backoffs on a request has no scope: 1 to 10 (this project's own).
    pub tries: u16,
    /// In how many steps a repair goes to those that its request was heard by: 1 or 2.
    pub steps: u16,
}

/// A member of the session.
#[derive(Clone, Debug, Drop)]
pub struct MemberSpec {
    /// The node that hosts it.
    pub node: u16,
    /// What it does.
    pub role: Role,
    /// The stream of its random words, below 2^63.
    pub stream: u64,
    /// When it joins, in ticks: in a scenario before the run ends, and so below 2^40.
    pub join: u64,
    /// When it leaves, in ticks, if it does: in a scenario after it joins, and at most 2^40.
    pub leave: Option<u64>,
    /// Of a late member, the pages whose earlier operations it asks for.
    pub pages: Sequence<u16>,
    /// The scope of its first request for a name, in hops: 0 to 65,535. Where it is 0, its requests have none.
    pub scope: u16,
}

impl MemberSpec {
    /// Whether the member is present at this tick in a run that ends at `until`: it joined by then, it leaves no earlier, and the
    /// run is not over.
    pub fn is_present(&self, until: u64, at: u64) -> bool
        ensures { result ≡ is_present self.now.join self.now.leave until at }
    {
        let stays = match self.leave {
            Some(end) => at <= end,
            None => true,
        };
        self.join <= at && stays && at < until
    }
}

/// A drawing operation.
#[derive(Clone, Copy, Debug, PartialEq, Eq)]
pub struct DrawSpec {
    /// The member that draws.
    pub member: u16,
    /// The page on which it draws.
    pub page: u16,
    /// What it draws.
    pub ink: u32,
    /// When it draws, in ticks: in a scenario before the run ends, and so below 2^40.
    pub at: u64,
}

/// A session message.
#[derive(Clone, Copy, Debug, PartialEq, Eq)]
pub struct SessionSpec {
    /// The member that sends it.
    pub member: u16,
    /// When it sends it, in ticks: in a scenario before the run ends, and so below 2^40.
    pub at: u64,
}
