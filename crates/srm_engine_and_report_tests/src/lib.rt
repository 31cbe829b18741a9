//! Tests of the calls of engines and reports: what no clause says of them, and that each answers where memory suffices.
#![tactic(auto)]

#[cfg(test)]
mod drops_tests;
#[cfg(test)]
mod opening;
#[cfg(test)]
mod outlet_tests;
mod recording;
#[cfg(test)]
mod stream_tests;
#[cfg(test)]
mod trace_of_tests;
#[cfg(test)]
mod trace_sink_tests;
#[cfg(test)]
mod window_tests;
