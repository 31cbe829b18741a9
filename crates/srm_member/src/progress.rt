//! How far a member follows a page.
ghost use Rattle.std.specs.Prelude.{◌≡◌, ◌≤◌, ◌^◌};

use std::marker::Model;

/// How far a member follows a page of one source.
#[derive(Clone, Copy, Debug, Default)]
pub struct Progress {
    floor: u64,
    next: u64,
}

impl Model for Progress {
    ghost use Rattle.std.specs.Prelude.{◌≤◌, ◌^◌};
    ghost use Rattle.srm_member.specs.Record.{Progress as Seen};

    ghost Value = { Seen };

    ghost view = { λ s. record { floor = s.floor; next = s.next } };

    ghost invariant = { λ s. s.next ≤ 2 ^ 32 };

    ghost inverse = { λ s. record { floor = s.floor; next = s.next } };
}

impl Progress {
    /// Numbers below `floor` do not concern the member, and `next` is the first number not heard of.
    pub fn new(floor: u64, next: u64) -> Progress
        requires { next ≤ 2 ^ 32 }
        ensures { result ≡ record { floor = floor; next = next } }
    {
        Progress { floor, next }
    }

    /// Numbers below this one do not concern the member.
    pub fn floor(self) -> u64
        ensures { result ≡ self.floor }
    {
        self.floor
    }

    /// The first number not heard of.
    pub fn next(self) -> u64
        ensures value { result ≡ self.next }
        ensures bound { result ≤ 2 ^ 32 }
    {
        self.next
    }
}
