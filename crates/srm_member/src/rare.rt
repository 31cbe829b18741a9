//! What few answers tell.
use crate::adapted::Adapted;
use srm_net::packet::{Body, Name};
use srm_net::sequence::Sequence;

/// What an answer tells beside its word. Few answers have any of it.
#[derive(Debug, Drop)]
pub struct Rare {
    /// The names that the member found to be missing, in the order in which it found them.
    pub lost: Sequence<Name>,
    /// What it sends, if anything.
    pub body: Option<Body>,
    /// Its intervals after the event: at its join, and where one of the constants C1, C2, D1 and D2 is another than before. Of a
    /// listener they are never told.
    pub adapted: Adapted,
}
