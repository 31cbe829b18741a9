//! Why a run that hands its rows on comes to no end.
use crate::fault::RunFault;
use srm_interfaces::sink::SinkFault;

/// Why a run that hands its rows on comes to no end.
#[derive(Clone, Copy)]
pub(crate) enum Halt {
    /// The run is refused.
    Run(RunFault),
    /// The sink refused rows.
    Sink(SinkFault),
}
