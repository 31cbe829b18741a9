//! A session, and how it is run.
ghost use Rattle.srm_options.specs.Asked.{MayShareBag};

use crate::options::Options;
use srm_scenario::session::Session;

/// A session, and how it is run and shown.
#[derive(Clone, Copy)]
pub(crate) struct Task<'a> {
    /// The scenario on its network.
    pub session: Session<'a>,
    /// How it is run, and what is shown of it.
    pub options: Options,
    pub ghost workers: { MayShareBag options.workers },
}
