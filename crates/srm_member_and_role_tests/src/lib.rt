//! Tests of members and roles, told as stories: what each answers, call by call.
#![tactic(auto)]

#[cfg(test)]
mod member_tests;
#[cfg(test)]
mod recovery_tests;
#[cfg(test)]
mod role_tests;
#[cfg(test)]
mod stories;
