//! The numbers that bound networks.

/// How many nodes a network has at most, each of which has a number of 16 bits, and so how many members, each of which is on a
/// node of its own.
pub const MOST_NODES: u16 = 65_535;

/// How long a packet takes over a link at most, in either direction, in ticks.
pub const GREATEST_LINK_DELAY: u64 = 1_000_000;
