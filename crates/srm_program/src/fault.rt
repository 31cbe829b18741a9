//! Why the program refuses.
pub use srm_command_line::line_fault::LineFault;
use srm_member::fault::MemberFault;
use srm_scenario::fault::ScenarioFault;
use std::alloc::{AllocError, AllocFailed};
use thiserror::Error;

/// Why a run gave no report.
#[derive(Clone, Copy, Debug, PartialEq, Eq, Error)]
pub enum LabFault {
    /// A job of the run in windows was to have no member, or more than 1,024.
    #[error("a job is to have 1 to 1024 members")]
    BadCut,
    /// Windows were to be no tick wide, or wider than the least delay of a link.
    #[error("windows are to be 1 tick wide or more, and no wider than the least delay of a link")]
    BadWidth,
    /// In the run in windows more packets crossed a link, or were dropped at it, than are counted of a kind:
    /// [`SHARE_MOST`](srm_ledger::seat::SHARE_MOST).
    #[error("more than 140737488355328 packets of a kind were counted at a link")]
    ShareFull,
    /// Memory ran out.
    #[error("out of memory")]
    NoMemory,
    /// A member was to send a packet, and has sent 2^48 of them.
    #[error("a member sent 281474976710656 packets and was to send another")]
    CountFull,
    /// The outlet failed.
    #[error("the report could not be written past its first {written} bytes")]
    WriteFault {
        /// How many bytes of the report it had taken.
        written: u64,
    },
}

/// Why the program refuses.
#[derive(Debug, PartialEq, Eq, Drop)]
pub enum Fault {
    /// The command line is refused.
    Line(LineFault),
    /// The scenario is refused.
    Scenario(ScenarioFault),
    /// The run is refused.
    Lab(LabFault),
    /// Memory ran out elsewhere.
    NoMemory,
}

impl From<AllocError> for Fault {
    ghost use Rattle.std.specs.Prelude.{◌≡◌};
    ghost use Rattle.srm_program.specs.declared.fault.Fault.TheVariants.{NoMemory};

    ghost from_gives = { λ _ e. e ≡ NoMemory };

    fn from(_fault: AllocError) -> Fault {
        Fault::NoMemory
    }
}

impl<T: Drop> From<AllocFailed<T>> for Fault {
    ghost use Rattle.std.specs.Prelude.{◌≡◌};
    ghost use Rattle.srm_program.specs.declared.fault.Fault.TheVariants.{NoMemory};

    ghost from_gives = { λ _ e. e ≡ NoMemory };

    fn from(_fault: AllocFailed<T>) -> Fault {
        Fault::NoMemory
    }
}

// A member that was just made is not gone.
impl From<MemberFault> for Fault {
    ghost use Rattle.std.specs.Prelude.{◌≡◌};
    ghost use Rattle.srm_program.specs.declared.fault.Fault.TheVariants.{NoMemory};

    ghost from_gives = { λ _ e. e ≡ NoMemory };

    fn from(_fault: MemberFault) -> Fault {
        Fault::NoMemory
    }
}
