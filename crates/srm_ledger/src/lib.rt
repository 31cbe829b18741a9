//! Counts of packets on links: totals of one thread, and a ledger that threads add to at once.
#![tactic(auto)]

pub mod fault;
pub mod kind;
pub mod laws;
pub mod ledger;
pub mod rule;
pub mod seat;
pub mod totals;
mod words;
