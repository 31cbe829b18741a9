//! Stories of members: what happens to a member, and what it must answer, by the tables of the model.

pub mod called;
pub mod carried;
pub mod event;
pub mod following;
pub mod late;
pub mod listener;
pub mod local;
pub mod losses;
pub mod receiver;
pub mod sender;
pub mod step;
pub mod story;
