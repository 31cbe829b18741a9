//! The range in which a constant of timers is adapted.
ghost use Rattle.std.specs.Prelude.{◌≡◌, ◌≤◌};
ghost use Rattle.srm_member.specs.Intervals;
ghost use Rattle.srm_member.specs.Intervals.{greatest_adapted};

use std::marker::Model;

/// A constant of timers: its first value, and the least and the most that it is adapted to, in thousandths of a distance.
///
/// The least is at most the first value, that at most the most, and that at most 1,024,000.
#[derive(Clone, Copy, Debug)]
pub struct Limits {
    first: u32,
    least: u32,
    most: u32,
}

impl Model for Limits {
    ghost use Rattle.std.specs.Prelude.{◌≤◌};
    ghost use Rattle.srm_member.specs.Intervals.{Limits as Seen, greatest_adapted};

    ghost Value = { Seen };

    ghost view = { λ l. record { first = l.first; least = l.least; most = l.most } };

    ghost invariant = { λ l. (l.least ≤ l.first) × (l.first ≤ l.most) × (l.most ≤ greatest_adapted) };

    ghost inverse = { λ l. record { first = l.first; least = l.least; most = l.most } };
}

impl Limits {
    /// A constant that is adapted within limits. It does not allocate.
    pub fn new(first: u32, least: u32, most: u32) -> Self
        requires least { least ≤ first }
        requires most { first ≤ most }
        requires bound { most ≤ greatest_adapted }
        ensures { result ≡ record { first = first; least = least; most = most } }
    {
        Limits { first, least, most }
    }

    /// A constant without room, which stays as it is. It does not allocate.
    pub fn without_room(constant: u32) -> Self
        requires { constant ≤ greatest_adapted }
        ensures { result ≡ Intervals.without_room constant }
    {
        Limits::new(constant, constant, constant)
    }

    /// The first value, in thousandths. It does not allocate.
    pub fn first(self) -> u32
        ensures value { result ≡ self.first }
        ensures bound { result ≤ greatest_adapted }
    {
        self.first
    }

    /// The least where `x` is below it, the most where `x` is above it, and else `x`. It does not allocate.
    pub fn within(self, x: u32) -> u32
        ensures value { result ≡ Intervals.within self x }
        ensures bound { result ≤ greatest_adapted }
    {
        x.min(self.most).max(self.least)
    }
}
