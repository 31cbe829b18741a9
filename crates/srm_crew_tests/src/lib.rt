//! Tests of the calls of crews: what no clause says of them, and that each answers where memory suffices.
#![tactic(auto)]

#[cfg(test)]
mod bag_tests;
#[cfg(test)]
mod crew_tests;
#[cfg(test)]
mod gate_tests;
