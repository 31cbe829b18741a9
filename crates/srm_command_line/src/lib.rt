//! The command line of the program: what its words ask for, and what is told where they are refused.
#![tactic(auto)]

pub mod command_line;
pub mod line_fault;
pub mod request;
