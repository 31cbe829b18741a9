//! Worker threads that live for a whole run, and are given lists of owned items again and again.
//!
//! The run stands in one closure of [`std::thread::join`], beside the workers in the other:
//!
//! ```text
//! let (team, bench) = open_team::<_, _, _, J>(alloc, opened, room)?;
//! let ((), led) = join(
//!     rt,
//!     move || serve_all(rt, alloc, threads, &bench),
//!     move || lead_the_run(team, ..),
//! );
//! ```
//!
//! The leader stands in the **second** closure, which stays in its own thread and runs first where no thread can be
//! made. Then, as with no threads at all, the leader does all the work. As it is written, the workers end when the team
//! is dropped, whatever the leader returns.
#![tactic(auto)]

pub mod answer;
pub mod batch;
pub mod bench;
pub mod book;
pub mod fault;
pub mod front;
pub mod law;
mod leader_ends;
pub mod naming;
pub mod opened;
pub mod order;
mod receiving;
pub mod relay;
pub mod slots;
pub mod team;
pub mod work;
