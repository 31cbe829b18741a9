//! Tests of teams and relays: what no clause says of them.
#![tactic(auto)]

#[cfg(test)]
mod adding;
#[cfg(test)]
mod relay_tests;
#[cfg(test)]
mod team_tests;
