//! What is gathered while the cells of a job run.
use srm_cell::sent::Sent;
use srm_member::row::Row;

/// The rows of the cell that ran last, in memory that serves for all, and what was sent in the job so far.
#[derive(Drop)]
pub(crate) struct Gathered {
    pub(crate) rows: Vec<Row>,
    pub(crate) sent: Vec<Sent>,
}
