//! Writing the table of a run.
ghost use Rattle.std.specs.Prelude.{◌≡◌, ◌<◌, ◌-◌, ◌^◌, ℕ, List, IfOk};
ghost use Rattle.srm_program.specs.Reports.{failures_after_run, Writes};

use crate::fault::LabFault;
use srm_report::fault::ReportFault;
use srm_report::outlet::Outlet;
use srm_report::writing::{WriteFault, write_out};

/// Writes the text of a table, if it was made.
///
/// # Errors
/// In this order: memory ran out while the text was made, and nothing was written; the outlet failed, and has taken as many bytes
/// as the fault tells.
pub(crate) fn write_text<O: Outlet>(
    text: Result<Vec<u8>, ReportFault>,
    outlet: &mut O,
) -> Result<(), LabFault>
    requires { O.failures outlet.old < 2 ^ 64 - 1 }
    ensures failures { O.failures outlet.new ≡ failures_after_run result (O.failures outlet.old) }
    ensures taken { (report : List ℕ) → IfOk text (λ t. t.items ≡ report)
        → Writes (O.taken outlet.old) (O.taken outlet.new) report result }
{
    match text {
        Err(ReportFault::NoMemory) => Err(LabFault::NoMemory),
        Ok(text) => match write_out(outlet, text.as_slice()) {
            Ok(()) => Ok(()),
            Err(WriteFault { written }) => Err(LabFault::WriteFault { written }),
        },
    }
}
