//! Scenarios: what a run is given, and how it is read from TOML text.
#![tactic(auto)]

pub mod bytes;
mod checks;
pub mod delays;
pub mod draft;
mod element;
mod elements;
pub mod entry;
pub mod fault;
pub mod feed;
pub mod file_key;
pub mod form;
pub mod laws;
mod limits;
mod lists;
pub mod mark;
mod numbers;
mod parents;
pub mod parts;
pub mod reading;
mod repeated;
pub mod rule;
pub mod rules;
pub mod scenario;
pub mod script;
mod scripts;
pub mod session;
pub mod table;
pub mod top;
pub mod topology;
pub mod version;
