//! Cells: a member with the packets on their way to it, the rest of its script and its packet count.
//!
//! In reading order: `Cell`, with an `Inbox` of `Flight`s and a `Script`; `Job`, cells that go on to a tick, `advance`, and
//! `Done`; `Sent`, a packet with its spread, `arrival`, when a member is handed it, and `hear_each`; `Crossings` and `Tally`,
//! which count packets at links; `laws`.
//!
//! In their clauses `plain_cell f` is a cell as it is seen, where f is what is seen of its member, and a cell that `IsSoundCell`
//! knows when its next event is. `Steps`, `Runs` and `Ends` tell what comes of a cell, and `Advances` of a job; events before
//! `till` are handled. A `Traffic` says what becomes of packets; a `Setting` adds the fixed parts of members and their scripts.
//! `crossings` are five numbers of each link, and a `Tally` that `Tallies` packets has theirs.
//!
//! Proved: rows, counts and refusals are those of the definitions. Tested, in `srm_cell_and_ledger_tests`: that calls answer
//! where there is memory. Which calls ask for none is told by some clauses, and else only by the code.
#![tactic(auto)]

pub mod advance;
pub mod arrival;
mod blocks;
mod boxes;
pub mod cell;
mod compact_body;
mod compact_flight;
pub mod count;
pub mod crossings;
pub mod everywhere;
pub mod fault;
pub mod flight;
pub mod hearing;
pub mod inbox;
pub mod job;
pub mod laws;
mod line;
mod local_repair;
mod pending_event;
mod rows;
pub mod script;
pub mod sent;
mod stray;
mod strays;
pub mod tally;
