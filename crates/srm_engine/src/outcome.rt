//! What a run gives.
use srm_ledger::totals::Totals;
use srm_member::exit::Exit;
use srm_member::row::Row;

/// What a run gives.
#[derive(Debug, Drop)]
pub struct Outcome {
    /// The rows of all events, in order of their keys.
    pub trace: Vec<Row>,
    /// What each member ended with, in order of the members' numbers.
    pub exits: Vec<Exit>,
    /// The crossings and drops of the trace's packets.
    pub totals: Totals,
}
