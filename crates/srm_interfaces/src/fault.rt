//! Why a crew does not go on.
use srm_cell::fault::CellFault;
use srm_ledger::fault::ShareFull;

/// Why a crew does not go on. The jobs and the seat are gone.
#[derive(Clone, Copy, Debug, PartialEq, Eq)]
pub enum CrewFault {
    /// Memory was refused.
    NoMemory,
    /// A cell's member is gone, and has no answer to its next event.
    Spent,
    /// A seat's share of a word would pass [`SHARE_MOST`](srm_ledger::seat::SHARE_MOST).
    ShareFull,
    /// A cell's member was to send a packet, and its packet count, 2^48, is used up.
    CountFull,
}

/// What a cell's refusal is to a crew: the refusal of the same name.
impl From<CellFault> for CrewFault {
    ghost use Rattle.std.specs.Prelude.{◌≡◌};
    ghost use Rattle.srm_interfaces.specs.Faults.{crew_fault_of};

    ghost from_gives = { λ fault told. told ≡ crew_fault_of fault };

    fn from(fault: CellFault) -> CrewFault {
        match fault {
            CellFault::NoMemory => CrewFault::NoMemory,
            CellFault::Spent => CrewFault::Spent,
            CellFault::CountFull => CrewFault::CountFull,
        }
    }
}

/// What a full share is to a crew.
impl From<ShareFull> for CrewFault {
    ghost use Rattle.std.specs.Prelude.{◌≡◌};
    ghost use Rattle.srm_interfaces.specs.declared.fault.CrewFault.{CrewFault};

    ghost from_gives = { λ _ told. told ≡ CrewFault.ShareFull };

    fn from(_full: ShareFull) -> CrewFault {
        CrewFault::ShareFull
    }
}
