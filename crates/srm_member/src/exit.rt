//! What a member ends with.
use srm_net::packet::Name;
use srm_net::sequence::Sequence;

/// What a member holds and lacks at its end.
#[derive(Debug, Drop)]
pub struct Exit {
    /// The member.
    pub member: u16,
    /// The names that it holds, rising, with what was drawn.
    pub held: Sequence<(Name, u32)>,
    /// The names that it lacks, rising.
    pub missing: Sequence<Name>,
}
