//! Crews on jobs, worked by hand.
pub(crate) mod boxed;
mod case;
mod cases;
pub(crate) mod handing;
mod in_team;
mod keep_seen;
mod mapped;
pub(crate) mod run_context;
pub(crate) mod seats;
mod seen;
