//! What may be asked of a run: the engine, who works in its windows and how wide they are, and the table that is shown.
#![tactic(auto)]

pub mod options;
pub mod width;
