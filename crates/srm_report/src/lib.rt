//! The report of a run: its texts as CSV, and writing them to a device.
//!
//! In reading order: `Listing`, with the tables that list rows, `trace` and `timers`; `links`, of totals; `members`, `losses`,
//! `operations` and `scopes`, each made of rows, or of what one watch kept of each member's (`CountRows`, `FindLosses`,
//! `FindOperations`, `FindScopes`); `Lines`, and `KeepLines`, the watch of a listing; `Outlet`, `write_out` and `ListingSink`;
//! `seeded_lines`.
//!
//! In their clauses a text is `table_lines` of columns and rows, each a list of fields, in the words of crate `csv`; a listing's
//! `form` has its header and each row's lines. An outlet has `taken` bytes, where they are known, and `failures`. A watch `keeps`
//! what is kept of exactly some rows, and a sink `took` them, as in `srm_interfaces`.
//!
//! Proved: each byte of a table, and what an outlet took, also after each refusal. Tested, in `srm_engine_and_report_tests` and
//! on the program: that calls answer, and that first rows are written at once.
#![tactic(auto)]

pub mod fault;
pub mod links;
pub mod listing;
pub mod losses;
pub mod members;
pub mod operations;
pub mod outlet;
mod records;
pub mod scopes;
pub mod seeds;
pub mod writing;
