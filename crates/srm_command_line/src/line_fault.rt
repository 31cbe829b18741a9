//! Why nothing is run for a command line.
use std::alloc::AllocError;

/// Why nothing is run for a command line.
#[derive(Debug, PartialEq, Eq, Drop)]
pub enum LineFault {
    /// An option is unknown, stands twice or lacks its value, or a number is out of its range.
    Line,
    /// A text is none of the words that its option takes.
    BadWord,
    /// Help, or the version, is asked for.
    Help {
        /// What is to be printed.
        text: String,
    },
    /// The rules of scenarios are asked for, by words that nothing else keeps from a run.
    Rules,
    /// Memory ran out.
    NoMemory,
}

impl From<AllocError> for LineFault {
    ghost use Rattle.std.specs.Prelude.{◌≡◌};
    ghost use Rattle.srm_command_line.specs.declared.line_fault.LineFault.TheVariants.{NoMemory};

    ghost from_gives = { λ _ e. e ≡ NoMemory };

    fn from(_fault: AllocError) -> LineFault {
        LineFault::NoMemory
    }
}
