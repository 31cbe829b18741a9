//! Nodes, links, paths and drops of a tree-shaped network, and the packets and event keys that travel in it.
#![tactic(auto)]

mod adjacency;
mod attaching;
mod checks;
mod drop_sets;
pub mod drops;
mod earlier;
pub mod fate;
pub mod fault;
mod growing_tree;
pub mod half_rounds;
pub mod hops;
pub mod key;
pub mod laws;
pub mod limits;
pub mod link;
mod losses;
mod near;
mod nearest;
pub mod net;
mod occupied;
mod order;
mod outages;
mod outs;
pub mod packet;
mod position;
pub mod rank;
pub mod role;
mod rooted;
mod sending;
pub mod sequence;
mod sides;
pub mod spread;
mod tree;
mod word;
