//! What links and hosts are checked for.
ghost use Rattle.std.specs.Prelude.{◌↔◌, All, IfOk, IsTrue};
ghost use Rattle.srm_net.specs.Network.{IsWithin, IsLinkDelay, HasDelays, AreHosts};

use crate::limits::GREATEST_LINK_DELAY;
use crate::link::LinkSpec;
use std::alloc::{AllocError, Global};

/// Whether both ends of each link are nodes.
pub(crate) fn are_within(nodes: u16, links: &[LinkSpec]) -> bool
    ensures { IsTrue result ↔ All (IsWithin nodes) links.now }
{
    links.iter().all(|link| link.a < nodes && link.b < nodes)
}

/// Whether a delay is 1 to [`GREATEST_LINK_DELAY`] ticks.
fn is_link_delay(delay: u64) -> bool
    ensures { IsTrue result ↔ IsLinkDelay delay }
{
    delay >= 1 && delay <= GREATEST_LINK_DELAY
}

/// Whether each link's delays are 1 to [`GREATEST_LINK_DELAY`] ticks, in both directions.
pub(crate) fn have_delays(links: &[LinkSpec]) -> bool
    ensures { IsTrue result ↔ All HasDelays links.now }
{
    links.iter().all(|link| is_link_delay(link.delay) && is_link_delay(link.back))
}

/// Whether each host is a node, and no two members share one.
pub(crate) fn are_hosts(alloc: Global, nodes: u16, hosts: &[u16]) -> Result<bool, AllocError>
    ensures { IfOk result (λ are. IsTrue are ↔ AreHosts nodes hosts.now) }
{
    let mut taken = vec![in alloc; false; usize::from(nodes)]?;
    for host in hosts {
        if *host >= nodes || taken[usize::from(*host)] {
            return Ok(false);
        }
        taken[usize::from(*host)] = true;
    }
    Ok(true)
}
