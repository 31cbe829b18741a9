//! Which places of a rooted tree have members.
ghost use Rattle.std.specs.Prelude.{◌≡◌, ℕ, ◌+◌, ◌<◌, ◌≤◌, cond, List, Some, IfOk, length, slice_get, slice_index};
ghost use Rattle.srm_net.specs.Network.{Network, IsNetwork};
ghost use Rattle.srm_net.specs.Occupancy.{places_of, TellsNext, TellsAny, TellsOther, IsOccupied};
ghost use Rattle.srm_net.specs.Paths.{is_in};
ghost use Rattle.srm_net.specs.Rooting.{at, IsRooted};
ghost use Rattle.srm_net.specs.Tables.{TellsSides};

use crate::link::LinkSpec;
use crate::position::Position;
use crate::rooted::Rooted;
use crate::sides::Sides;
use std::alloc::{AllocError, Global};

/// For each place of a rooted tree, and for the end of them, the first place from there on whose node has a member, or the end
/// where there is none.
#[derive(Drop)]
pub(crate) struct Occupied {
    pub(crate) size: u16,
    pub(crate) next: Vec<u16>,
}

impl Occupied {
    /// The places of these hosts. It takes a number of steps that grows as the numbers of nodes and hosts.
    pub(crate) fn of(alloc: Global, rooted: &Rooted, hosts: &[u16]) -> Result<Occupied, AllocError>
        requires rooted { (w : Network) × IsNetwork w × IsRooted w rooted.now.positions.items × (w.hosts ≡ hosts.now) }
        ensures { (w : Network) → IsNetwork w → IsRooted w rooted.now.positions.items → w.hosts ≡ hosts.now
            → IfOk result (λ o. IsOccupied w rooted.now.positions.items o) }
    {
        let size = rooted.position(0).end;
        let mut next = marked(alloc, rooted, hosts)?;
        for index in (0..usize::from(size)).rev() {
            let first = next[index].min(next[index + 1]);
            next[index] = first;
        }
        Ok(Occupied { size, next })
    }

    /// Whether members are on the two sides of a link.
    pub(crate) fn sides(&self, rooted: &Rooted, link: LinkSpec) -> Sides
        requires { (w : Network) × (l : ℕ) × IsOccupied w rooted.now.positions.items self.now
            × (slice_get w.links l ≡ Some link) }
        ensures { (w : Network) (l : ℕ) → IsOccupied w rooted.now.positions.items self.now → slice_get w.links l ≡ Some link
            → TellsSides w l link result }
    {
        let a = rooted.position(link.a);
        let b = rooted.position(link.b);
        if a.place < b.place {
            Sides {
                a: self.any_outside(b),
                b: self.any_within(b.place, b.end),
            }
        } else {
            Sides {
                a: self.any_within(a.place, a.end),
                b: self.any_outside(a),
            }
        }
    }

    /// Whether there is a member at a place from the first up to below the second.
    fn any_within(&self, from: u16, to: u16) -> bool
        requires from { from < length self.now.next.items }
        requires to { to ≤ self.now.size }
        ensures { (places : List ℕ) → TellsNext places self.now.size self.now.next.items → TellsAny places from to result }
    {
        self.next[usize::from(from)] < to
    }

    /// Whether there is a member at another place than those of the node of a position and of the nodes below it.
    fn any_outside(&self, position: Position) -> bool
        requires place { position.place ≤ self.now.size }
        requires end { position.end < length self.now.next.items }
        ensures { (places : List ℕ) → TellsNext places self.now.size self.now.next.items → TellsOther places position result }
    {
        self.any_within(0, position.place) || self.any_within(position.end, self.size)
    }
}

// At each of these places the place itself, and at each other one, and at the end, the end.
fn marked(alloc: Global, rooted: &Rooted, hosts: &[u16]) -> Result<Vec<u16>, AllocError>
    requires rooted { (w : Network) × IsNetwork w × IsRooted w rooted.now.positions.items × (w.hosts ≡ hosts.now) }
    ensures long { IfOk result (λ next. length next.items ≡ (at rooted.now.positions.items 0).end + 1) }
    ensures marks { IfOk result (λ next. (i : ℕ) → i ≤ (at rooted.now.positions.items 0).end → slice_index next.items i
        ≡ cond (is_in (places_of rooted.now.positions.items hosts.now) i) i (at rooted.now.positions.items 0).end) }
{
    let size = rooted.position(0).end;
    let mut next = vec![in alloc; size; usize::from(size) + 1]?;
    for host in hosts {
        let place = rooted.position(*host).place;
        next[usize::from(place)] = place;
    }
    Ok(next)
}
