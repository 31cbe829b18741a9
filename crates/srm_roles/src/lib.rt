//! The members of a session by role: senders, receivers, late joiners and listeners.
#![tactic(auto)]

pub mod fixed;
pub mod late;
pub mod listener;
pub mod receiver;
pub mod sender;
