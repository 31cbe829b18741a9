//! The outages of links, in an order in which each is soon found.
ghost use Rattle.std.specs.Prelude.{◌≡◌, ℕ, ◌≤◌, ◌<◌, true, false, IfOk, length, nat_lt};
ghost use Rattle.std.specs.List.Sorted.{IsPartitionedBy, IsPartitionPoint};
ghost use Rattle.srm_net.specs.DropRules.{is_out, some_ends_after};
ghost use Rattle.srm_net.specs.Outages.{begins_by, outage_at, LastsLongest};

use crate::link::OutageSpec;
use std::alloc::{AllocError, Global};
use std::marker::Model;

/// Outages of links. Contracts see them as the list that was given.
#[derive(Drop)]
pub(crate) struct Outages {
    list: Vec<OutageSpec>,
    /// In the order of links and first ticks, each prolonged to the latest end that an outage of its link has up to there.
    spans: Vec<OutageSpec>,
    /// The tick after the last of all, or 0 where there is no outage.
    end: u64,
}

impl Model for Outages {
    ghost use Rattle.std.specs.Prelude.{List};
    ghost use Rattle.srm_net.specs.declared.link.OutageSpec.{OutageSpec};

    ghost Value = { List OutageSpec };

    ghost use Rattle.srm_net.specs.OutageTables.{outages_listed, FindsOutages};

    ghost view = { outages_listed };

    ghost invariant = { FindsOutages };
}

impl Outages {
    /// These outages.
    pub(crate) fn of(alloc: Global, list: &[OutageSpec]) -> Result<Outages, AllocError>
        ensures { IfOk result (λ outages. outages ≡ list.now) }
    {
        let mut sorted = list.to_vec(alloc)?;
        sorted.sort_by_key(|outage| (outage.link, outage.from))?;
        let spans = prolonged(alloc, sorted.as_slice())?;
        Ok(Outages {
            list: list.to_vec(alloc)?,
            spans,
            end: latest_end(list),
        })
    }

    /// Whether some outage, of whichever link, ends after a tick.
    pub(crate) fn end_after(&self, tick: u64) -> bool
        ensures { result ≡ some_ends_after self.now tick }
    {
        tick < self.end
    }

    /// Whether a link is out at a tick. It takes a number of steps that grows as the logarithm of the number of outages.
    pub(crate) fn is_out(&self, link: u16, tick: u64) -> bool
        ensures { result ≡ is_out self.now link tick }
    {
        let begun = begun_by(self.spans.as_slice(), link, tick);
        if begun == 0 {
            return false;
        }
        let last = self.spans[begun - 1];
        last.link == link && tick < last.to
    }
}

/// The latest end of outages, in ticks, or 0 where there is none.
fn latest_end(outages: &[OutageSpec]) -> u64
    ensures { (t : ℕ) → nat_lt t result ≡ some_ends_after outages.now t }
{
    let mut latest = 0;
    for outage in outages {
        latest = outage.to.max(latest);
    }
    latest
}

/// How many outages are of earlier links, or of this link and begin at the tick or before, where those stand first.
fn begun_by(outages: &[OutageSpec], link: u16, tick: u64) -> usize
    requires { IsPartitionedBy (begins_by link tick) outages.now }
    ensures bound { result ≤ length outages.now }
    ensures point { IsPartitionPoint (λ o. begins_by link tick o ≡ true) (λ o. begins_by link tick o ≡ false) outages.now result }
{
    outages.partition_point(
        |outage: &OutageSpec| -> bool
            ensures { result ≡ begins_by link tick outage.now }
        { outage.link < link || (outage.link == link && outage.from <= tick) },
    )
}

/// The outages of a list in the order of links, each prolonged to the latest end that one of its link has up to there.
fn prolonged(alloc: Global, sorted: &[OutageSpec]) -> Result<Vec<OutageSpec>, AllocError>
    requires { (i j : ℕ) → i ≤ j → j < length sorted.now
        → (outage_at sorted.now i).link ≤ (outage_at sorted.now j).link }
    ensures size { IfOk result (λ spans. length spans.items ≡ length sorted.now) }
    ensures each { IfOk result (λ spans. (i : ℕ) → i < length sorted.now → LastsLongest sorted.now spans.items i) }
{
    let mut spans: Vec<OutageSpec> = Vec::new(alloc);
    for place in 0..sorted.len() {
        let mut span = sorted[place];
        if place > 0 {
            let before = spans[place - 1];
            if before.link == span.link && span.to < before.to {
                span.to = before.to;
            }
        }
        spans.push(span)?;
    }
    Ok(spans)
}
