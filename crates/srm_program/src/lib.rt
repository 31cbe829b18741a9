//! What the program does, over devices that its caller makes: its command line, the run of a scenario, and its report.
#![tactic(auto)]

mod asked;
mod at_end;
mod by_watch;
mod end_table;
mod explained;
pub mod fault;
mod hand_rows;
mod in_steps;
mod in_windows;
mod keep_run;
mod kept_tables;
pub mod line;
mod listed;
mod members;
pub mod program;
mod replicating;
pub mod replications;
mod report;
pub mod run;
mod runner;
pub mod session;
mod task;
mod watched_table;

pub use srm_command_line::{command_line, request};
pub use srm_options::options;
