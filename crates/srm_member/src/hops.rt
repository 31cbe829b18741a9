//! How many hops members are from a member.
ghost use Rattle.std.specs.Prelude.{◌≡◌, slice_get};

use srm_net::hops::HopsFrom;
use srm_net::sequence::Sequence;
use std::marker::Model;

// Where the hops come from.
#[derive(Debug, Drop)]
enum HopSource {
    Listed(Sequence<u16>),
    Told(HopsFrom),
}

/// The hops to each member, of a network, where they are told on demand, or of a list. Contracts see them as the list.
#[derive(Debug, Drop)]
pub struct Hops {
    source: HopSource,
}

impl Model for Hops {
    ghost use Rattle.std.specs.Prelude.{List, ℕ};
    ghost use Rattle.srm_member.specs.Listing.{hops_listed};

    ghost Value = { List ℕ };

    ghost view = { λ h. hops_listed h.source };
}

impl Hops {
    /// The hops to a member, at most 65,534 in a network, or none where there is no such member. It does not allocate.
    pub fn get(&self, member: u16) -> Option<u16>
        ensures { result ≡ slice_get self.now member }
    {
        match &self.source {
            HopSource::Listed(hops) => hops.as_slice().get(usize::from(member)).copied(),
            HopSource::Told(hops) => hops.get(member),
        }
    }
}

impl From<Sequence<u16>> for Hops {
    ghost from_gives = { λ hs h. h ≡ hs };

    fn from(hops: Sequence<u16>) -> Self {
        Hops {
            source: HopSource::Listed(hops),
        }
    }
}

impl From<HopsFrom> for Hops {
    ghost from_gives = { λ hs h. h ≡ hs };

    fn from(hops: HopsFrom) -> Self {
        Hops {
            source: HopSource::Told(hops),
        }
    }
}
