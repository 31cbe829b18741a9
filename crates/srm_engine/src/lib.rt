//! Engines: the sequential run of all members, and the run in windows of time.
//!
//! In reading order: `Start`; `step_run`, `step_stream` and `step_rows`, one event after the other; `Windows`, and `window_run`,
//! `window_stream`, `window_kept` and `window_watch`, which come to the same; `ByRows`, a crew as one of watched jobs; `RunFault`
//! and `StreamFault`. Inside, `Simulation` takes steps, and `WatchEngine` windows of `Groups`, with what is kept of each member
//! beside them.
//!
//! In their clauses `InRuns` and `InRunsOf` say what holds with each seed whose opening records the members hold. `IsOutcome` are
//! rows, exits and totals of the whole sequential run, and `IsLast` its last world. `TakesUpTo` and `TakesTraceFront` tell what a
//! sink took, and `TellsKept` what is kept of each member. `MayCome`: windows come to a world, and the next may be refused so.
//!
//! Proved: both engines give the sequential run, and are refused only where that is told. Tested, in
//! `srm_engine_and_report_tests`: that they answer where there is memory, and that each member is dropped once.
#![tactic(auto)]

pub mod by_rows;
mod cells;
mod cutting;
mod ends;
pub mod fault;
mod groups;
mod halt;
mod handing;
mod in_turn;
mod keep_rows;
pub mod kept_laws;
pub mod kept_rows;
mod merge;
mod merged_rows;
pub mod next_times;
pub mod outcome;
mod sent;
mod session_distances;
mod simulation;
mod soonest;
pub mod start;
pub mod step_rows;
pub mod step_run;
pub mod step_stream;
pub mod stream_fault;
mod watch_engine;
mod watched_groups;
pub mod width;
mod window_engine;
pub mod window_kept;
pub mod window_run;
pub mod window_stream;
pub mod window_watch;

pub use srm_interfaces::sink;
