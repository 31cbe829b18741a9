//! The distances that a member's timers go by.
ghost use Rattle.std.specs.Prelude.{◌≡◌, slice_get, slice_index};
ghost use Rattle.srm_member.specs.Listing.{listed};

use srm_net::half_rounds::HalfRounds;
use srm_net::sequence::Sequence;
use std::marker::Model;

// Where the distances come from.
#[derive(Debug, Drop)]
enum DistanceSource {
    Listed(Sequence<u64>),
    Told(HalfRounds),
}

impl DistanceSource {
    // The distance to a member, in ticks, or none where there is no such member.
    fn get(&self, member: u16) -> Option<u64>
        ensures { result ≡ slice_get (listed self.now) member }
    {
        match self {
            DistanceSource::Listed(distances) => distances
                .as_slice()
                .get(usize::from(member))
                .copied(),
            DistanceSource::Told(distances) => distances.get(member),
        }
    }

    // The same, or 0 where there is no such member.
    fn to(&self, member: u16) -> u64
        ensures { result ≡ slice_index (listed self.now) member }
    {
        self.get(member).unwrap_or(0)
    }
}

/// The distance to each member that a member's timers and rests go by, in ticks. Contracts see them as the list.
///
/// They are half the round trips in a network, which are told on demand, or a list.
#[derive(Debug, Drop)]
pub struct Distances {
    source: DistanceSource,
    // the member whose distance was asked for last, and that distance
    last: (u16, u64),
}

impl Model for Distances {
    ghost use Rattle.std.specs.Prelude.{◌≡◌, List, ℕ, slice_index};
    ghost use Rattle.srm_member.specs.Listing.{listed};

    ghost Value = { List ℕ };

    ghost view = { λ d. listed d.source };

    ghost invariant = { λ d. d.last.1 ≡ slice_index (listed d.source) d.last.0 };
}

impl Distances {
    // The distances of this source.
    fn of(source: DistanceSource) -> Self
        ensures { result ≡ listed source }
    {
        let last = (0, source.to(0));
        Distances { source, last }
    }

    /// The distance to a member, in ticks, or none where there is no such member. In a network it is at most 65,534,000,000.
    pub fn get(&self, member: u16) -> Option<u64>
        ensures { result ≡ slice_get self.now member }
    {
        self.source.get(member)
    }

    // The same, or 0 where there is no such member. Mostly it is the one that was asked for last, to which no way is looked for.
    #[inline]
    pub(crate) fn to(&mut self, member: u16) -> u64
        ensures value { result ≡ slice_index self.old member }
        ensures same { self.new ≡ self.old }
    {
        if self.last.0 == member {
            return self.last.1;
        }
        let distance = self.source.to(member);
        self.last = (member, distance);
        distance
    }
}

impl From<Sequence<u64>> for Distances {
    ghost from_gives = { λ ds d. d ≡ ds };

    fn from(distances: Sequence<u64>) -> Self {
        Distances::of(DistanceSource::Listed(distances))
    }
}

impl From<HalfRounds> for Distances {
    ghost from_gives = { λ ds d. d ≡ ds };

    fn from(distances: HalfRounds) -> Self {
        Distances::of(DistanceSource::Told(distances))
    }
}
