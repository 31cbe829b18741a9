//! What becomes of one packet on its ways to all nodes.
ghost use Rattle.std.specs.Prelude.{◌≡◌, ◌<◌, Some, is_some, map, length, slice_get};
ghost use Rattle.std.specs.List.{list_all};
ghost use Rattle.srm_net.specs.Spreads.{is_everywhere};

use crate::sequence::Sequence;
use std::marker::Model;

/// What becomes of one packet: to which nodes it comes, and when. Contracts see it as its plain spread.
///
/// [`Net::spread`](crate::net::Net::spread) finds it once for the packet, so that [`Net::arrival`](crate::net::Net::arrival) and
/// [`Net::fate_in`](crate::net::Net::fate_in) take no walk.
#[derive(Drop)]
pub struct Spread {
    sender: u16,
    /// How many hops the packet goes at most, or none where it goes on to the end of its ways.
    pub(crate) scope: Option<u32>,
    nodes: u16,
    /// For each node when the packet would come there without scope, in ticks, if it does; or none where it comes to every one.
    pub(crate) arrivals: Option<Sequence<Option<u64>>>,
    /// How many hops each node is from the sender's, where that is told.
    pub(crate) hops: Option<Sequence<u16>>,
}

impl Model for Spread {
    ghost use Rattle.srm_net.specs.Spreads.{PlainSpread, comes_in};

    ghost Value = { PlainSpread };

    ghost view = { λ s.
        record { sender = s.sender; scope = s.scope; comes = comes_in s.nodes s.arrivals; arrivals = s.arrivals; hops = s.hops } };
}

impl Spread {
    ghost use Rattle.std.specs.Prelude.{None};
    ghost use Rattle.srm_net.specs.Spreads.{comes_in};

    /// That of a packet which comes to each of `nodes` nodes within its scope. It does not allocate.
    pub(crate) fn everywhere(sender: u16, scope: Option<u32>, nodes: u16) -> Self
        ensures { result ≡ record { sender = sender; scope = scope; comes = comes_in nodes None; arrivals = None; hops = None } }
    {
        Spread {
            sender,
            scope,
            nodes,
            arrivals: None,
            hops: None,
        }
    }

    /// That of a packet of which it is told for each node when it would come there without scope, if it does, and perhaps how
    /// many hops the node is away. It does not allocate.
    pub(crate) fn told(
        sender: u16,
        scope: Option<u32>,
        nodes: u16,
        arrivals: Vec<Option<u64>>,
        hops: Option<Sequence<u16>>,
    ) -> Self
        ensures { result
            ≡ record { sender = sender; scope = scope; comes = map is_some arrivals.items; arrivals = Some arrivals.items; hops = hops } }
    {
        Spread {
            sender,
            scope,
            nodes,
            arrivals: Some(Sequence::from_vec(arrivals)),
            hops,
        }
    }

    /// The member that sends the packet.
    pub fn sender(&self) -> u16
        ensures { result ≡ self.now.sender }
    {
        self.sender
    }

    /// Whether the packet has no scope and comes to every node. It takes a look at each node only where the packet might have
    /// been dropped.
    pub fn is_everywhere(&self) -> bool
        ensures { result ≡ is_everywhere self.now }
    {
        if self.scope.is_some() {
            return false;
        }
        let Some(arrivals) = &self.arrivals else {
            return true;
        };
        are_all_told(arrivals.as_slice())
    }

    /// Whether the packet would come to a node without scope.
    pub(crate) fn comes_to(&self, node: u16) -> bool
        requires { node < length self.now.comes }
        ensures { slice_get self.now.comes node ≡ Some result }
    {
        match &self.arrivals {
            None => true,
            Some(arrivals) => arrivals.as_slice()[usize::from(node)].is_some(),
        }
    }
}

// Whether there is no none among these.
fn are_all_told(arrivals: &[Option<u64>]) -> bool
    ensures { result ≡ list_all is_some arrivals.now }
{
    arrivals.iter().all(|arrival| arrival.is_some())
}
