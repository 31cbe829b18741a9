//! Why a scenario is refused, told to the person who wrote it.
#![tactic(auto)]

mod arrays;
mod below;
mod circles;
mod closing;
mod copies;
mod element;
pub mod explanation;
mod finding;
mod flaw;
mod flaw_sentence;
mod flaws;
mod general;
mod keys;
mod locate;
mod misfit;
mod misfit_sentence;
mod misfits;
mod nearest;
mod parsed_text;
mod passing;
mod picture;
mod pictures;
mod reached;
pub mod remarks;
pub mod rule_document;
mod rule_text;
mod rules_in;
mod sentence;
mod span;
mod token;
