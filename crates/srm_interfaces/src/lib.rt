//! What a run calls: a crew, which advances its jobs, and a sink, which takes its rows.
//!
//! In reading order: `Crew` with `CrewFault`; `RowSink` with `SinkFault` and `Stage`; a `Watch`, which keeps of one member's rows
//! what a table needs, a `K`, and closes what it keeps of the members of a job as it ends, a `MemberWatch` by nothing; `keeping`,
//! for all members; `WatchedJob` and `WatchedDone`, a job whose rows are watched, and what is done of it; `WatchCrew`, a crew of
//! such jobs, and `hear_groups`; `KeptSink`, which takes rows by what is kept of the members, group after group, and `WatchSink`,
//! which keeps of rows what a watch keeps.
//!
//! In their clauses a crew is `ready` if it may be called, and `handed` tells the calls between two of its values; one of watched
//! jobs `serves` runs of a scenario. A sink `took` exactly some rows, or `part`, no more than a front of them; `stage` is where
//! it stands, and `failures` how often its device failed. A watch `keeps` what is kept of exactly some rows, and `closes` tells
//! what is kept once that was closed. `KeepMembers` says of each member what is kept, `KeepClosed` of a job's members, and
//! `KeepInGroups` of all groups. `Maps` is what a crew's call tells, and `MapsWatched` what that of one of watched jobs does.
//!
//! A trait's clauses are proved of each type that has it: `WatchSink`'s here, and the others' in the crates above. Tests of those
//! show that calls answer.
#![tactic(auto)]

pub mod crew;
pub mod fault;
pub mod hearing;
pub mod keeping;
pub mod kept_sink;
pub mod sink;
pub mod watch;
pub mod watch_crew;
pub mod watch_sink;
pub mod watched;
