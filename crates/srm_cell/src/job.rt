//! Jobs, and what is done of them.
use crate::cell::Cell;
use crate::crossings::Crossings;
use srm_member::member::Member;
use srm_member::row::Row;
use srm_net::sequence::Sequence;

/// Some cells, each of which is to handle its own events before tick `till`.
#[derive(Drop)]
pub struct Job<M = Box<dyn Member>> {
    /// Its place among the jobs that are done together.
    pub place: usize,
    /// The tick before which the cells handle their own events.
    pub till: u64,
    /// The cells.
    pub cells: Vec<Cell<M>>,
}

/// A job whose cells have handled their events.
#[derive(Drop)]
pub struct Done<M = Box<dyn Member>> {
    /// The place of the job.
    pub place: usize,
    /// The cells, in the order in which they stood in the job.
    pub cells: Vec<Cell<M>>,
    /// The rows of each cell, in key order.
    pub rows: Vec<Sequence<Row>>,
    /// The crossings of all these rows.
    pub crossings: Crossings,
}
