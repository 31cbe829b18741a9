//! How far it is from each member to the nearest other.
ghost use Rattle.std.specs.Prelude.{◌≡◌, ◌+◌, ◌<◌, IfOk, length, slice_set};
ghost use Rattle.srm_net.specs.Nearness.{Takes, nearest_of, IsSound, TellsOwn, TellsNearest, IsBelowRoot, TellsUpTo, TellsDownTo};
ghost use Rattle.srm_net.specs.Network.{Network, IsNetwork};
ghost use Rattle.srm_net.specs.Rooting.{at, TellsTree};
ghost use Rattle.srm_net.specs.Tables.{TellsOuts};
ghost use Rattle.srm_net.specs.declared.nearest.Nearest.{Nearest};

use crate::near::Near;
use crate::nearest::Nearest;
use crate::rooted::Rooted;
use std::alloc::{AllocError, Global};

/// The least distance of each of these hosts' members to another, in ticks. It takes a number of steps that grows as the numbers
/// of nodes and hosts: the nearest two members of each node are found among those below it first, from the last place to the
/// first, and then among all, from the first to the last. At a member's node the nearest is the member itself.
pub(crate) fn all_outs(
    alloc: Global,
    rooted: &Rooted,
    hosts: &[u16],
) -> Result<Vec<Option<u64>>, AllocError>
    requires { (w : Network) × IsNetwork w × TellsTree w rooted.now × (w.hosts ≡ hosts.now) }
    ensures { (w : Network) → IsNetwork w → TellsTree w rooted.now → w.hosts ≡ hosts.now
        → IfOk result (λ outs. TellsOuts w outs.items) }
{
    let mut table = at_home(alloc, rooted, hosts)?;
    offer_all(rooted, table.as_mut_slice());
    let mut outs = Vec::new(alloc);
    for host in hosts {
        outs.push(table[usize::from(*host)].second())?;
    }
    Ok(outs)
}

// For each node that hosts a member this one alone.
fn at_home(alloc: Global, rooted: &Rooted, hosts: &[u16]) -> Result<Vec<Nearest>, AllocError>
    requires { (w : Network) × IsNetwork w × TellsTree w rooted.now × (w.hosts ≡ hosts.now) }
    ensures sound { (w : Network) → IsNetwork w → TellsTree w rooted.now → w.hosts ≡ hosts.now
        → IfOk result (λ table. IsSound w table.items) }
    ensures own { (w : Network) → IsNetwork w → TellsTree w rooted.now → w.hosts ≡ hosts.now
        → IfOk result (λ table. TellsOwn w table.items) }
{
    let mut table = vec![in alloc; Nearest::Nobody; rooted.positions.len()]?;
    for (member, host) in hosts.iter().enumerate() {
        let own = Near {
            member: member as u16,
            ticks: 0,
        };
        table[usize::from(*host)] = Nearest::One(own);
    }
    Ok(table)
}

// Takes into account at each node all members, where each is at its own.
fn offer_all(rooted: &Rooted, table: &mut [Nearest])
    requires { (w : Network) × IsNetwork w × TellsTree w rooted.now × IsSound w table.old × TellsOwn w table.old }
    ensures sound { (w : Network) → IsNetwork w → TellsTree w rooted.now → IsSound w table.old → TellsOwn w table.old
        → IsSound w table.new }
    ensures nearest { (w : Network) → IsNetwork w → TellsTree w rooted.now → IsSound w table.old → TellsOwn w table.old
        → TellsNearest w table.new }
{
    offer_up(rooted, table);
    offer_down(rooted, table);
}

// Takes into account at each node the members below it.
fn offer_up(rooted: &Rooted, table: &mut [Nearest])
    requires { (w : Network) × IsNetwork w × TellsTree w rooted.now × IsSound w table.old × TellsOwn w table.old }
    ensures { (w : Network) → IsNetwork w → TellsTree w rooted.now → IsSound w table.old → TellsOwn w table.old
        → TellsDownTo w rooted.now.positions.items 1 table.new }
{
    let order = rooted.order.as_slice();
    for index in (1..order.len()).rev() {
        offer_to_parent(rooted, order[index], table);
    }
}

// Takes into account at each node those that are not below it.
fn offer_down(rooted: &Rooted, table: &mut [Nearest])
    requires { (w : Network) × IsNetwork w × TellsTree w rooted.now
        × TellsDownTo w rooted.now.positions.items 1 table.old }
    ensures sound { (w : Network) → IsNetwork w → TellsTree w rooted.now
        → TellsDownTo w rooted.now.positions.items 1 table.old → IsSound w table.new }
    ensures nearest { (w : Network) → IsNetwork w → TellsTree w rooted.now
        → TellsDownTo w rooted.now.positions.items 1 table.old → TellsNearest w table.new }
{
    let order = rooted.order.as_slice();
    for index in 1..order.len() {
        offer_from_parent(rooted, order[index], table);
    }
}

// Takes into account at the parent of this node the members on the node or below it.
fn offer_to_parent(rooted: &Rooted, node: u16, table: &mut [Nearest])
    requires { (w : Network) × IsBelowRoot w rooted.now.positions.items node
        × TellsUpTo w rooted.now.positions.items ((at rooted.now.positions.items node).place + 1) table.old }
    ensures { (w : Network) → IsBelowRoot w rooted.now.positions.items node
        → TellsUpTo w rooted.now.positions.items ((at rooted.now.positions.items node).place + 1) table.old
        → TellsUpTo w rooted.now.positions.items (at rooted.now.positions.items node).place table.new }
{
    let here = rooted.position(node);
    let delay = here.down - rooted.position(here.parent).down;
    offer(table, node, here.parent, delay);
}

// Takes into account at this node the members that are not below it, as its parent knows them.
fn offer_from_parent(rooted: &Rooted, node: u16, table: &mut [Nearest])
    requires { (w : Network) × IsBelowRoot w rooted.now.positions.items node
        × TellsDownTo w rooted.now.positions.items (at rooted.now.positions.items node).place table.old }
    ensures { (w : Network) → IsBelowRoot w rooted.now.positions.items node
        → TellsDownTo w rooted.now.positions.items (at rooted.now.positions.items node).place table.old
        → TellsDownTo w rooted.now.positions.items ((at rooted.now.positions.items node).place + 1) table.new }
{
    let here = rooted.position(node);
    let delay = here.up - rooted.position(here.parent).up;
    offer(table, here.parent, node, delay);
}

// Takes into account at node `to` the members that are at node `from`, to which a packet from there takes so long.
fn offer(table: &mut [Nearest], from: u16, to: u16, delay: u64)
    requires from { from < length table.old }
    requires to { to < length table.old }
    ensures { (new : Nearest) × (table.new ≡ slice_set table.old to new)
        × Takes (nearest_of table.old to) (nearest_of table.old from) delay new }
{
    let new = table[usize::from(to)].with_all(table[usize::from(from)], delay);
    table[usize::from(to)] = new;
}
