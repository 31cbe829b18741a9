//! Tests of the calls of ledgers and cells: what no clause says of them, and that each answers where memory suffices.
#![tactic(auto)]

#[cfg(test)]
mod cell_tests;
#[cfg(test)]
mod ledger_tests;
