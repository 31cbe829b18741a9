//! What becomes of a packet at a link.

/// What becomes of a packet at a link, on its ways from its sender to all members, present or not.
#[derive(Clone, Copy, Debug, PartialEq, Eq)]
pub enum Fate {
    /// The packet crosses the link.
    Crosses,
    /// The link drops the packet.
    Dropped,
    /// The packet does not come to the link: it is on none of the ways, or an earlier link of them drops the packet.
    Neither,
}

impl Fate {
    ghost use Rattle.std.specs.Prelude.{◌≡◌, ◌&&◌, not, cond};
    ghost use Rattle.srm_net.specs.Fates.{is_crossing, is_dropping};

    /// What becomes of a packet at a link that joins members, by whether it comes to each of the link's ends. It comes to the one
    /// from the other.
    pub(crate) fn by_ends(a: bool, b: bool) -> Fate
        ensures crosses { is_crossing result ≡ (a && b) }
        ensures dropped { is_dropping result ≡ cond a (not b) b }
    {
        match (a, b) {
            (true, true) => Fate::Crosses,
            (false, false) => Fate::Neither,
            _ => Fate::Dropped,
        }
    }
}
