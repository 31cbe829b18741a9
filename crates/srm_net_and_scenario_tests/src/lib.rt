//! Tests of the calls of networks and scenarios: what no clause says of them, and that each answers where memory suffices.
#![tactic(auto)]

#[cfg(test)]
mod drop_tests;
#[cfg(test)]
mod feed_tests;
#[cfg(test)]
mod loss_tests;
#[cfg(test)]
mod net_tests;
#[cfg(test)]
mod networks;
#[cfg(test)]
mod recovery_tests;
#[cfg(test)]
mod scenario_tests;
#[cfg(test)]
mod spread_tests;
#[cfg(test)]
mod text_tests;
