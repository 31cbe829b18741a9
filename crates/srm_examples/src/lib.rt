//! How the crates are called, from a scenario's text to its trace (`trace_of`); and what tests of several crates take:
//! whole scenarios, members whose reactions and ends are watched, and jobs that have to be under way at once.
#![tactic(auto)]

pub mod meeting;
pub mod scenarios;
pub mod trace_of;
pub mod watched;
