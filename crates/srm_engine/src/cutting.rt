//! How a run is cut, once it was checked.
ghost use Rattle.srm_engine.specs.Ends.{TellsCutting};

use crate::ends::Ends;
use crate::fault::RunFault;
use crate::width::Windows;
use srm_scenario::session::Session;

/// How a run is cut: it was checked that it may be cut so.
#[derive(Drop)]
pub(crate) struct Cutting {
    /// How many cells a job has, 1 to 1,024.
    pub(crate) cut: usize,
    /// Where windows end.
    pub(crate) ends: Ends,
}

impl Cutting {
    /// How a run is cut that is to be cut so.
    ///
    /// # Errors
    /// `BadCut` comes before `BadWidth`.
    pub(crate) fn of(session: Session, asked: Windows) -> Result<Cutting, RunFault>
        ensures { TellsCutting session.entry.scenario.now asked result }
    {
        if asked.cut == 0 || asked.cut > 1024 {
            return Err(RunFault::BadCut);
        }
        let Some(ends) = Ends::of(session, asked.width) else {
            return Err(RunFault::BadWidth);
        };
        let cut = asked.cut as usize;
        Ok(Cutting { cut, ends })
    }
}
