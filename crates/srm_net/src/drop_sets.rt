//! What links drop, but for the seed of their losses.
use crate::link::DropSpec;
use crate::losses::Losses;
use crate::outages::Outages;
use crate::packet::PacketId;
use std::collections::HashSet;

/// The packets that links are configured to drop, the outages of links, and their losses.
#[derive(Drop)]
pub(crate) struct DropSets {
    /// Each packet with a link that is configured to drop it.
    pub(crate) entries: HashSet<DropSpec>,
    /// The packets of these.
    pub(crate) packets: HashSet<PacketId>,
    pub(crate) outages: Outages,
    pub(crate) losses: Losses,
}
