//! Why a run that hands its rows on came to no end.
ghost use Rattle.std.specs.Prelude.{◌≡◌};
ghost use Rattle.srm_engine.specs.Streams.{run_fault_in};

use crate::fault::RunFault;
use crate::halt::Halt;
use srm_interfaces::sink::SinkFault;
use std::alloc::AllocError;

/// Why a run that hands its rows on came to no end.
#[derive(Clone, Copy, Debug, PartialEq, Eq)]
pub enum StreamFault {
    /// The run gave no outcome, or memory was refused to the sink.
    Run {
        /// Why.
        fault: RunFault,
    },
    /// The device under the sink failed.
    Stopped {
        /// How much it had taken by the sink in all, as the sink told.
        written: u64,
    },
}

impl StreamFault {
    /// Why the run gave no outcome; `None` where the device under the sink failed.
    pub fn run_fault(self) -> Option<RunFault>
        ensures { result ≡ run_fault_in self }
    {
        match self {
            StreamFault::Run { fault } => Some(fault),
            StreamFault::Stopped { .. } => None,
        }
    }
}

/// What refused memory is to a run.
impl From<AllocError> for StreamFault {
    ghost use Rattle.std.specs.Prelude.{◌≡◌};
    ghost use Rattle.srm_engine.specs.declared.fault.RunFault.{RunFault};
    ghost use Rattle.srm_engine.specs.declared.stream_fault.StreamFault.{StreamFault};

    ghost from_gives = { λ _ told. told ≡ StreamFault.Run RunFault.NoMemory };

    fn from(_error: AllocError) -> StreamFault {
        StreamFault::Run {
            fault: RunFault::NoMemory,
        }
    }
}

/// What a run's refusal is where its rows are handed on.
impl From<RunFault> for StreamFault {
    ghost use Rattle.std.specs.Prelude.{◌≡◌};
    ghost use Rattle.srm_engine.specs.declared.stream_fault.StreamFault.{StreamFault};

    ghost from_gives = { λ fault told. told ≡ StreamFault.Run fault };

    fn from(fault: RunFault) -> StreamFault {
        StreamFault::Run { fault }
    }
}

/// What a halt is to those who asked for the run.
impl From<Halt> for StreamFault {
    ghost use Rattle.std.specs.Prelude.{◌≡◌};
    ghost use Rattle.srm_engine.specs.Streams.{stream_fault_of};

    ghost from_gives = { λ halt told. told ≡ stream_fault_of halt };

    fn from(halt: Halt) -> StreamFault {
        match halt {
            Halt::Run(fault) => StreamFault::Run { fault },
            Halt::Sink(SinkFault::NoMemory) => StreamFault::Run {
                fault: RunFault::NoMemory,
            },
            Halt::Sink(SinkFault::Stopped { written }) => StreamFault::Stopped { written },
        }
    }
}
