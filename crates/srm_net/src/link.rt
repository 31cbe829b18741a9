//! Links of a network, the packets that they are to drop, their outages, and their losses.
ghost use Rattle.std.specs.Prelude.{◌≡◌};

use crate::limits::MOST_NODES;
use crate::packet::PacketId;
use crate::word::loss_word;

/// A link between two nodes.
#[derive(Clone, Copy, Debug, PartialEq, Eq)]
pub struct LinkSpec {
    /// The node at one end.
    pub a: u16,
    /// The node at the other end.
    pub b: u16,
    /// How long a packet takes from `a` to `b`, in ticks: in a network 1 to 1,000,000.
    pub delay: u64,
    /// How long a packet takes from `b` to `a`, in ticks: in a network 1 to 1,000,000.
    pub back: u64,
}

impl LinkSpec {
    ghost use Rattle.srm_net.specs.Paths.{delay_from};
    ghost use Rattle.srm_net.specs.Least.{lesser_delay};
    ghost use Rattle.srm_net.specs.Tables.{far_from};

    /// How long a packet takes over the link from one of its ends, in ticks.
    pub(crate) fn delay_from(self, node: u16) -> u64
        ensures { result ≡ delay_from node self }
    {
        if self.a == node {
            self.delay
        } else {
            self.back
        }
    }

    /// The end other than this one.
    pub(crate) fn far_from(self, near: u16) -> u16
        ensures { result ≡ far_from self near }
    {
        if self.a == near { self.b } else { self.a }
    }

    /// The delay in the direction in which it is less, in ticks.
    pub(crate) fn lesser_delay(self) -> u64
        ensures { result ≡ lesser_delay self }
    {
        self.delay.min(self.back)
    }
}

/// A packet that a link is to drop.
#[derive(Clone, Copy, Debug, PartialEq, Eq, PartialOrd, Ord, Hash)]
pub struct DropSpec {
    /// The link's number.
    pub link: u16,
    /// The packet that it drops.
    pub id: PacketId,
}

/// A span of time in which a link drops each packet that comes to it, from the tick `from` up to below the tick `to`. Where `to`
/// is not above `from` it has no tick.
#[derive(Clone, Copy, Debug, PartialEq, Eq, Hash)]
pub struct OutageSpec {
    /// The link's number.
    pub link: u16,
    /// The first tick of the outage: in a scenario file 0 to 2^40.
    pub from: u64,
    /// The tick after its last: in a scenario file 1 to 2^40.
    pub to: u64,
}

/// A span of time in which a link loses packets at random, from the tick `from` on: each that comes to it, whatever it carries,
/// with the chance `rate`. A word of the seed, the stream, the link and the packet decides
/// ([`loss_words`](crate::laws::loss_words)), and nothing else: so two losses of one link and one stream do not take packets
/// independently of each other, and the greater rate decides there. With `burst` it is a word of the slot of time in which the
/// packet comes, in place of the packet: so a slot loses all or nothing
/// ([`losses_come_in_bursts`](crate::laws::losses_come_in_bursts)).
#[derive(Clone, Copy, Debug, PartialEq, Eq, Hash)]
pub struct LossSpec {
    /// The link's number.
    pub link: u16,
    /// The chance, in millionths: in a scenario file 1 to 1,000,000.
    pub rate: u32,
    /// The stream of its words: in a scenario file below 2^63.
    pub stream: u64,
    /// The first tick of the loss: in a scenario file 0 to 2^40.
    pub from: u64,
    /// The tick after its last, in a scenario file 1 to 2^40, or none where it does not end.
    pub to: Option<u64>,
    /// How many ticks a slot has, from tick 0 on, or none where each packet has its own word. With 0 there is one slot.
    pub burst: Option<u64>,
}

impl LossSpec {
    ghost use Rattle.srm_net.specs.Losses.{deciding, is_before_end, takes, words_taking};

    /// Whether it takes a packet that comes to its link at the tick `at`, by the words of a seed. Where it is not on then, no
    /// word is drawn.
    pub(crate) fn takes(&self, seed: u64, id: PacketId, at: u64) -> bool
        ensures { result ≡ takes seed id at self.now }
    {
        self.from <= at
            && self.ends_after(at)
            && loss_word(seed, self.stream, self.link, self.deciding(id, at)) < self.words_taking()
    }

    /// Whose word decides of a packet that comes to the link at the tick `at`.
    fn deciding(&self, id: PacketId, at: u64) -> PacketId
        ensures { result ≡ deciding self.now.burst id at }
    {
        match self.burst {
            None => id,
            Some(burst) => PacketId {
                sender: MOST_NODES,
                count: at.checked_div(burst).unwrap_or(0),
            },
        }
    }

    /// Whether it goes on after a tick.
    fn ends_after(&self, tick: u64) -> bool
        ensures { result ≡ is_before_end self.now.to tick }
    {
        match self.to {
            None => true,
            Some(to) => tick < to,
        }
    }

    /// How many of the 2^32 words take a packet.
    fn words_taking(&self) -> u64
        ensures { result ≡ words_taking self.now.rate }
    {
        u64::from(self.rate) * (1 << 32) / 1_000_000
    }
}
