//! The names that a member holds.
use crate::rising::Rising;

/// The names that a member holds, each with its ink.
pub type Held = Rising<u32>;
