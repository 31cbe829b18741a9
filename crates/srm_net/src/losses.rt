//! The losses of links, in tables in which those of a link are soon found.
ghost use Rattle.std.specs.Prelude.{◌≡◌, ◌||◌, ℕ, ◌<◌, All, IfOk};
ghost use Rattle.srm_net.specs.Losses.{is_before_end, is_lost, some_goes_on_after};

use crate::link::LossSpec;
use crate::packet::PacketId;
use std::alloc::{AllocError, Global};
use std::marker::Model;

/// Losses of links. Contracts see them as the list that was given.
///
/// A loss is told as one more than its place in the list, and 0 tells that there is none.
#[derive(Drop)]
pub(crate) struct Losses {
    list: Vec<LossSpec>,
    /// For each link its last loss.
    last: Vec<usize>,
    /// For each loss the one before it of its link.
    earlier: Vec<usize>,
    /// The tick after the last of all, or 0 where there is no loss. There is none where a loss does not end.
    end: Option<u64>,
}

impl Model for Losses {
    ghost use Rattle.std.specs.Prelude.{List};
    ghost use Rattle.srm_net.specs.declared.link.LossSpec.{LossSpec};

    ghost Value = { List LossSpec };

    ghost use Rattle.srm_net.specs.LossTables.{losses_listed, FindsLosses};

    ghost view = { losses_listed };

    ghost invariant = { FindsLosses };
}

impl Losses {
    /// These losses. Where there is none, no memory is asked for.
    pub(crate) fn of(alloc: Global, list: &[LossSpec]) -> Result<Losses, AllocError>
        ensures { IfOk result (λ losses. losses ≡ list.now) }
    {
        let mut last = vec![in alloc; 0usize; links_below(list)]?;
        let mut earlier = Vec::new(alloc);
        for (place, loss) in list.iter().enumerate() {
            let link = usize::from(loss.link);
            earlier.push(last[link])?;
            last[link] = place + 1;
        }
        Ok(Losses {
            list: list.to_vec(alloc)?,
            last,
            earlier,
            end: latest_end(list),
        })
    }

    /// Whether some loss, of whichever link, goes on after a tick.
    pub(crate) fn go_on_after(&self, tick: u64) -> bool
        ensures { result ≡ some_goes_on_after self.now tick }
    {
        match self.end {
            None => true,
            Some(end) => tick < end,
        }
    }

    /// Whether a link loses a packet that comes to it at the tick `at`, by the words of a seed. It looks at the losses of that
    /// link alone.
    pub(crate) fn is_lost(&self, seed: u64, id: PacketId, link: u16, at: u64) -> bool
        ensures { result ≡ is_lost self.now seed id link at }
    {
        let mut next = match self.last.get(usize::from(link)) {
            None => 0,
            Some(last) => *last,
        };
        while next > 0 {
            let place = next - 1;
            if self.list[place].takes(seed, id, at) {
                return true;
            }
            next = self.earlier[place];
        }
        false
    }
}

/// The least number above those of the links of losses, or 0 where there is no loss.
fn links_below(losses: &[LossSpec]) -> usize
    ensures { All (λ o. o.link < result) losses.now }
{
    let mut below = 0;
    for loss in losses {
        below = below.max(usize::from(loss.link) + 1);
    }
    below
}

/// The latest end of losses, in ticks, or 0 where there is no loss. There is none where a loss does not end.
fn latest_end(losses: &[LossSpec]) -> Option<u64>
    ensures { (t : ℕ) → is_before_end result t ≡ some_goes_on_after losses.now t }
{
    let mut latest = Some(0);
    for loss in losses {
        latest = later(latest, loss.to);
    }
    latest
}

/// The later of two ends, or none where one of them is.
fn later(one: Option<u64>, other: Option<u64>) -> Option<u64>
    ensures { (t : ℕ) → is_before_end result t ≡ (is_before_end one t || is_before_end other t) }
{
    let (Some(one), Some(other)) = (one, other) else {
        return None;
    };
    Some(one.max(other))
}
