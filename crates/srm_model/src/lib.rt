//! The model: a world of members, the sequential run, schedules and windows, and the laws that hold of them.
#![tactic(auto)]

pub mod laws;
pub mod laws_of_names;
pub mod laws_of_packets;
pub mod laws_of_scopes;
pub mod laws_of_tables;
pub mod laws_of_windows;
