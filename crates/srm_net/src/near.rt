//! A member, and how far it is.

/// A member, and how long a packet takes to it.
#[derive(Clone, Copy)]
pub(crate) struct Near {
    /// The member.
    pub(crate) member: u16,
    /// How long a packet takes to it, in ticks, or longer.
    pub(crate) ticks: u64,
}

impl Near {
    ghost use Rattle.std.specs.Prelude.{◌≡◌};
    ghost use Rattle.srm_net.specs.Nearness.{later, nearer};

    /// The member as it is seen from a node from which a packet takes so long to this one.
    pub(crate) fn after(self, delay: u64) -> Near
        ensures { result ≡ later self delay }
    {
        Near {
            member: self.member,
            ticks: self.ticks.saturating_add(delay),
        }
    }

    /// This one, unless the other is nearer.
    pub(crate) fn nearer(self, other: Near) -> Near
        ensures { result ≡ nearer self other }
    {
        if other.ticks < self.ticks {
            other
        } else {
            self
        }
    }
}
