//! What was taken from a bag.
use srm_net::sequence::Sequence;

/// What was taken from a bag, in the order of the list of its last pass.
#[derive(Drop)]
pub struct Taken {
    /// The indices of the items, each once.
    pub indices: Sequence<usize>,
}
