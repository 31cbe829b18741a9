//! Why a run gives no outcome.
ghost use Rattle.std.specs.Prelude.{◌≡◌};
ghost use Rattle.srm_engine.specs.Faults.{run_fault_of};

use srm_interfaces::fault::CrewFault;
use std::alloc::AllocError;
use thiserror::Error;

/// Why a run gives no outcome.
#[derive(Clone, Copy, Debug, PartialEq, Eq, Error)]
pub enum RunFault {
    /// A job was to have no cell, or more than 1,024.
    #[error("a job is to have 1 to 1024 cells")]
    BadCut,
    /// Windows were to be no tick wide, or wider than the least delay of a link.
    #[error("windows are to be 1 tick wide or more, and no wider than the least delay of a link")]
    BadWidth,
    /// More packets crossed a link, or were dropped at it, than the ledger counts: 2^47 of a kind.
    #[error("more than 140737488355328 packets of a kind were counted at a link")]
    ShareFull,
    /// Memory was refused.
    #[error("out of memory")]
    NoMemory,
    /// A member was to send a packet, and its packet count, 2^48, is used up.
    #[error("a member sent 281474976710656 packets and was to send another")]
    CountFull,
}

impl RunFault {
    /// What a crew's refusal is to a run: the refusal of the same name; `None` for `Spent`, which no run meets.
    pub fn of(fault: CrewFault) -> Option<RunFault>
        ensures { result ≡ run_fault_of fault }
    {
        match fault {
            CrewFault::NoMemory => Some(RunFault::NoMemory),
            CrewFault::ShareFull => Some(RunFault::ShareFull),
            CrewFault::CountFull => Some(RunFault::CountFull),
            CrewFault::Spent => None,
        }
    }
}

/// What refused memory is to a run.
impl From<AllocError> for RunFault {
    ghost use Rattle.std.specs.Prelude.{◌≡◌};
    ghost use Rattle.srm_engine.specs.declared.fault.RunFault.{RunFault};

    ghost from_gives = { λ _ told. told ≡ RunFault.NoMemory };

    fn from(_error: AllocError) -> RunFault {
        RunFault::NoMemory
    }
}
