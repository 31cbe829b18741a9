//! What is kept of repairs with a scope.
ghost use Rattle.std.specs.Prelude.{◌≡◌};
ghost use Rattle.srm_member.specs.LocalRecovery.{mark_after};

use srm_net::packet::Local;

/// What a member keeps of a repair with a scope that it sent or heard: for whom it was, and how far it went on (this project's
/// own).
#[derive(Clone, Copy, Debug, PartialEq, Eq)]
pub struct RepairMark {
    /// The member whose request the repair answered.
    pub requester: u16,
    /// The width: the scope of that request, in hops.
    pub width: u16,
    /// How many hops the repair had left here, at most 131,069.
    pub left: u32,
}

impl RepairMark {
    /// The mark of a repair after so many hops, if it has a scope. It does not allocate.
    pub fn after(local: Option<Local>, hops: u32) -> Option<Self>
        ensures { result ≡ mark_after hops local }
    {
        match local {
            None => None,
            Some(local) => Some(RepairMark {
                requester: local.requester,
                width: local.width,
                left: local.scope.saturating_sub(hops),
            }),
        }
    }
}
