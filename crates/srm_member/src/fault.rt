//! Why a member does not answer.
use std::alloc::AllocError;

/// Why a member does not answer.
#[derive(Clone, Copy, Debug, PartialEq, Eq)]
pub enum MemberFault {
    /// Memory was refused. The member is gone from here on.
    NoMemory,
    /// The member is gone.
    Spent,
}

impl From<AllocError> for MemberFault {
    ghost use Rattle.std.specs.Prelude.{◌≡◌};
    ghost use Rattle.srm_member.specs.declared.fault.MemberFault.TheVariants.{NoMemory};

    ghost from_gives = { λ _ e. e ≡ NoMemory };

    fn from(_error: AllocError) -> MemberFault {
        MemberFault::NoMemory
    }
}
