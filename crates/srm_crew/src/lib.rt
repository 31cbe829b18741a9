//! Crews: who advances a list of jobs, in a loop or on threads, and counts the crossings of their rows once.
//!
//! In reading order: `PlainCrew`, a loop; `PoolCrew`, threads of `rayon`; `Bag`, of which a worker with a `Pass` takes the oldest
//! item, `Gate`, and `BagCrew`, whose workers do so; `WatchTeam`, a crew of watched jobs over threads that last: a `Watching`
//! makes of each `Piece` what is `Worked`.
//!
//! In their clauses `Maps` and `MapsWatched`, of `srm_interfaces`, are what a crew's call tells, and `Settles` what adding all
//! crossings to a seat tells. A pass has a `weight`, and lists what was `put` and which indices it has `taken`; the rule `Kept`
//! is that each index stands once, in the queue or in one pass's list.
//!
//! Proved: every crew gives what `advance` gives of each job, in order, whichever thread took it. Tested, in `srm_crew_tests`:
//! that threads take part, and that calls answer. No clause says that a call with threads returns.
#![tactic(auto)]

mod add;
pub mod bag;
pub mod bag_crew;
pub mod bag_fault;
mod counted;
mod each;
pub mod gate;
mod gathered;
mod order;
pub mod pass;
pub mod piece;
mod pieces;
pub mod plain;
pub mod pool;
pub mod rule;
mod shared;
pub mod taken;
pub mod watch_team;
pub mod watching;
pub mod worked;
mod worker;
mod workers;
mod workplace;

pub use srm_interfaces::{crew, fault};
