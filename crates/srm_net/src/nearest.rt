//! The nearest two members of some.
ghost use Rattle.std.specs.Prelude.{◌≡◌};
ghost use Rattle.srm_net.specs.declared.nearest.Nearest.TheVariants.{One, Two};
ghost use Rattle.srm_net.specs.Nearness.{Offers, Takes, second_ticks};

use crate::near::Near;

/// The nearest two of some members, as they are seen from a node, or as many as there are.
#[derive(Clone, Copy)]
pub(crate) enum Nearest {
    /// There is none.
    Nobody,
    /// There is one.
    One(Near),
    /// The nearest of them, and the one after it.
    Two(Near, Near),
}

impl Nearest {
    /// Those of one member more, or of one of the same that may be nearer.
    pub(crate) fn with(self, near: Near) -> Nearest
        ensures { Offers self near result }
    {
        match self {
            Nearest::Nobody => Nearest::One(near),
            Nearest::One(first) => with_one(first, near),
            Nearest::Two(first, second) => with_two(first, second, near),
        }
    }

    /// Those of these members and of others, which are seen from a node to which a packet takes so long from this one.
    pub(crate) fn with_all(self, others: Nearest, delay: u64) -> Nearest
        ensures { Takes self others delay result }
    {
        match others {
            Nearest::Nobody => self,
            Nearest::One(first) => self.with(first.after(delay)),
            Nearest::Two(first, second) => {
                self.with(first.after(delay)).with(second.after(delay))
            }
        }
    }

    /// How long a packet takes to the member after the nearest, in ticks, if there is one.
    pub(crate) fn second(self) -> Option<u64>
        ensures { result ≡ second_ticks self }
    {
        match self {
            Nearest::Nobody => None,
            Nearest::One(_) => None,
            Nearest::Two(_, second) => Some(second.ticks),
        }
    }
}

// One member more than one.
fn with_one(first: Near, near: Near) -> Nearest
    ensures { Offers (One first) near result }
{
    if first.member == near.member {
        Nearest::One(first.nearer(near))
    } else if near.ticks < first.ticks {
        Nearest::Two(near, first)
    } else {
        Nearest::Two(first, near)
    }
}

// One member more than two.
fn with_two(first: Near, second: Near, near: Near) -> Nearest
    ensures { Offers (Two first second) near result }
{
    if first.member == near.member {
        Nearest::Two(first.nearer(near), second)
    } else if near.ticks < first.ticks {
        Nearest::Two(near, first)
    } else {
        Nearest::Two(first, second.nearer(near))
    }
}
