//! What never changes of a member.
ghost use Rattle.std.specs.Prelude.{◌≡◌, ◌≤◌};
ghost use Rattle.srm_member.specs.LocalRecovery.{hops_to, scope_of_request, scope_of_repair, local_of, mark_from, serves, rests_for, is_duplicate, is_second_step, takes_over};

use crate::backoff::BackoffFactor;
use crate::distances::Distances;
use crate::entries::Repairing;
use crate::hops::Hops;
use crate::limits::Limits;
use crate::mark::RepairMark;
use crate::resting::Resting;
use crate::steps::Steps;
use srm_net::packet::Local;
use srm_net::role::Role;
use srm_net::sequence::Sequence;

/// The part of a member's record that never changes.
#[derive(Debug, Drop)]
pub struct Fixed {
    /// Its number.
    pub member: u16,
    /// What it does.
    pub role: Role,
    /// How many times as long a timer becomes at each backoff.
    pub backoff: BackoffFactor,
    /// The least length of a request timer, in thousandths of the distance to the source (Floyd et al. 1997: C1): its first
    /// value, and what it is adapted within.
    pub c1: Limits,
    /// By how much a request timer may be longer, in thousandths (C2).
    pub c2: Limits,
    /// The least length of a repair timer, in thousandths of the distance to the requester (D1).
    pub d1: Limits,
    /// By how much a repair timer may be longer, in thousandths (D2).
    pub d2: Limits,
    /// The distance to each member that its timers and rests go by, in ticks: at most 65,534,000,000. Of a member of a scenario
    /// it is half the round trip, rounded down.
    pub dist: Distances,
    /// The hops to each member.
    pub hops: Hops,
    /// The scope of its first request for a name, in hops (Floyd et al. 1997); 0: its requests go to all.
    pub scope: u16,
    /// By how many hops the scope grows at each backoff (this project's own).
    pub widen: u16,
    /// After how many backoffs its requests go to all: 1 to 10 (this project's own).
    pub tries: u16,
    /// In how many steps its repairs go.
    pub steps: Steps,
    /// Of a late member, the pages whose earlier operations it asks for.
    pub pages: Sequence<u16>,
    /// The seed of its generator, any number of 64 bits.
    pub seed: u64,
    /// The stream of its generator: of a member of a scenario below 2^63.
    pub stream: u64,
}

impl Fixed {
    // The hops to a member.
    fn hops_to(&self, who: u16) -> u32
        ensures value { result ≡ hops_to self.now who }
        ensures bound { result ≤ 65535 }
    {
        u32::from(self.hops.get(who).unwrap_or(0))
    }

    /// The scope of the member's request for a name after so many backoffs, in hops, or none where it goes to all. It does not
    /// allocate.
    pub fn scope_of_request(&self, backoffs: u32) -> Option<u16>
        ensures { result ≡ scope_of_request self.now backoffs }
    {
        if self.scope == 0 || backoffs >= u32::from(self.tries) {
            return None;
        }
        let scope = u64::from(self.scope) + u64::from(backoffs) * u64::from(self.widen);
        Some(scope.min(65535) as u16)
    }

    // The scope of a repair by the member for a request of this width, in hops.
    fn scope_of_repair(&self, who: u16, width: u16) -> u32
        ensures { result ≡ scope_of_repair self.now self.now.steps who width }
    {
        match self.steps {
            Steps::One => u32::from(width) + self.hops_to(who),
            Steps::Two => u32::from(width),
        }
    }

    /// What a repair carries besides, by the timer that it comes from: nothing where the request had no scope. It does not
    /// allocate.
    pub fn local_of(&self, repair: Repairing) -> Option<Local>
        ensures { result ≡ local_of self.now repair }
    {
        match repair.width {
            None => None,
            Some(width) => Some(Local {
                scope: self.scope_of_repair(repair.requester, width),
                requester: repair.requester,
                width,
            }),
        }
    }

    /// The mark of a repair from this member, where it is heard. It does not allocate.
    pub fn mark_from(&self, who: u16, local: Option<Local>) -> Option<RepairMark>
        ensures { result ≡ mark_from self.now who local }
    {
        if local.is_none() {
            // no way is looked at where it is not needed
            return None;
        }
        RepairMark::after(local, self.hops_to(who))
    }

    /// Whether the repair of this mark serves a request of this width by that member (this project's own). It does not allocate.
    pub fn serves(&self, mark: Option<RepairMark>, who: u16, width: Option<u16>) -> bool
        ensures { result ≡ serves self.now mark who width }
    {
        let Some(mark) = mark else {
            return true;
        };
        let Some(width) = width else {
            return false;
        };
        if mark.requester == who && who != self.member && width <= mark.width {
            return true;
        }
        self.hops_to(who) + u32::from(width) <= mark.left
    }

    /// Whether a rest holds at this time, in ticks, for a request of this width by that member. It does not allocate.
    pub fn rests_for(&self, at: u64, rest: Resting, who: u16, width: Option<u16>) -> bool
        ensures { result ≡ rests_for at self.now rest who width }
    {
        at < rest.until && self.serves(rest.mark, who, width)
    }

    /// Whether a repair by that member is a duplicate, after such a rest. It does not allocate.
    pub fn is_duplicate(&self, at: u64, rest: Resting, who: u16, local: Option<Local>) -> bool
        ensures { result ≡ is_duplicate at self.now rest who local }
    {
        match local {
            None => self.rests_for(at, rest, who, None),
            Some(local) => {
                local.requester != who
                    && self.rests_for(at, rest, local.requester, Some(local.width))
            }
        }
    }

    /// Whether a repair timer is that of a second step. It does not allocate.
    pub fn is_second_step(&self, repair: Repairing) -> bool
        ensures { result ≡ is_second_step self.now repair }
    {
        repair.requester == self.member
    }

    /// Whether a request of this width takes a pending repair timer over (this project's own). It does not allocate.
    pub fn takes_over(&self, width: Option<u16>, repair: Repairing) -> bool
        ensures { result ≡ takes_over self.now width repair }
    {
        if self.is_second_step(repair) {
            return false;
        }
        match (width, repair.width) {
            (_, None) => false,
            (None, Some(_)) => true,
            (Some(width), Some(than)) => width > than,
        }
    }
}
