//! What is counted of a link.
ghost use Rattle.std.specs.Prelude.{◌≡◌, ◌<◌};

/// What is counted of a link: the packets that cross it, by what they carry, and those that it drops.
#[derive(Clone, Copy, Debug, PartialEq, Eq)]
pub enum Kind {
    /// Drawing operations that crossed, sent by their source.
    Drawop,
    /// Requests that crossed.
    Request,
    /// Repairs that crossed.
    Repair,
    /// Session messages that crossed.
    Session,
    /// Packets of any kind that were dropped.
    Dropped,
}

impl Kind {
    ghost use Rattle.srm_ledger.specs.Counts.{place_of};

    /// The place of this kind's number among a link's five.
    pub fn place(self) -> usize
        ensures place { result ≡ place_of self }
        ensures small { result < 5 }
    {
        match self {
            Kind::Drawop => 0,
            Kind::Request => 1,
            Kind::Repair => 2,
            Kind::Session => 3,
            Kind::Dropped => 4,
        }
    }
}
