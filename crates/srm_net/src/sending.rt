//! The sending of a packet.
ghost use Rattle.std.specs.Prelude.{◌≡◌, ◌+◌, ◌<◌, ◌^◌, IfSome};
ghost use Rattle.srm_net.specs.Listed.{is_listed_somewhere};
ghost use Rattle.srm_net.specs.Paths.{takes_out};
ghost use Rattle.srm_net.specs.Spreads.{past_link};

use crate::drops::Drops;
use crate::packet::PacketId;

/// A packet that is sent to all members.
#[derive(Clone, Copy)]
pub(crate) struct Sending {
    /// The packet's identity.
    pub(crate) id: PacketId,
    /// When it is sent, in ticks.
    pub(crate) sent: u64,
    /// The node of its sender.
    pub(crate) from: u16,
    /// Whether any link is listed for it.
    pub(crate) is_listed: bool,
}

impl Sending {
    /// When the packet comes to the far end of a link that takes it so many ticks, where it comes to the link at the tick `at`,
    /// or to neither where there is no such tick.
    #[inline(always)]
    pub(crate) fn past(self, drops: &Drops, link: u16, ticks: u64, at: Option<u64>) -> Option<u64>
        requires listed { self.is_listed ≡ is_listed_somewhere drops.now.listed self.id }
        requires in_time { IfSome at (λ t. t + ticks < 2 ^ 64) }
        ensures { result ≡ past_link (takes_out drops.now self.id) link ticks at }
    {
        match at {
            Some(at) if !drops.takes_out_of(self.is_listed, self.id, link, at) => Some(at + ticks),
            _ => None,
        }
    }
}
