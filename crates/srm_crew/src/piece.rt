//! What a team's worker is given at once.
use srm_cell::cell::Cell;
use srm_cell::sent::Sent;
use srm_interfaces::watched::WatchedJob;
use std::sync::Arc;

/// Work on some of the cells of a call.
#[derive(Drop)]
pub enum Piece<M, K> {
    /// Jobs to be advanced.
    Jobs {
        /// The jobs.
        jobs: Vec<WatchedJob<M, K>>,
    },
    /// Groups of cells that are to hear what was sent.
    Hearers {
        /// What was sent, which all pieces of the call share.
        sent: Arc<Vec<Sent>>,
        /// The groups.
        groups: Vec<Vec<Cell<M>>>,
    },
}
