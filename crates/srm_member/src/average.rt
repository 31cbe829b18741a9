//! Averages of what a member sees.
ghost use Rattle.std.specs.Prelude.{◌≡◌, ℕ, ◌<◌, ◌≤◌, ◌^◌, None, Some, unwrap_or};
ghost use Rattle.srm_member.specs.Intervals.{average};

use std::marker::Model;

/// An average, none before its first value, which later values change by a quarter (Floyd et al. 1997).
///
/// One number keeps it: one more than the average, and 0 while there is none. So it takes 8 bytes instead of 16.
#[derive(Clone, Copy, Debug)]
pub(crate) struct Average {
    kept: u64,
}

impl Model for Average {
    ghost use Rattle.std.specs.Prelude.{ℕ, Option};
    ghost use Rattle.srm_member.specs.Averages.{kept_average, kept_number, number_of_average};

    ghost Value = { Option ℕ };

    ghost view = { λ a. kept_average a.kept };

    ghost inverse = { λ o. record { kept = kept_number o } };

    ghost inverse_ok = { λ a h. number_of_average (λ n. record { kept = n }) a.kept };
}

impl Average {
    /// No average yet. It does not allocate.
    pub(crate) fn new() -> Self
        ensures { result ≡ None }
    {
        Average { kept: 0 }
    }

    /// The average, if there is one. It does not allocate.
    pub(crate) fn get(self) -> Option<u64>
        ensures { result ≡ self }
    {
        self.kept.checked_sub(1)
    }

    /// Takes in `x`, with weight 1/4 (Floyd et al. 1997), rounded down (this project's own), and gives the average. It does not
    /// allocate.
    pub(crate) fn take_in(&mut self, x: u64) -> u64
        requires before { unwrap_or self.old 0 < 2 ^ 60 }
        requires next { x < 2 ^ 60 }
        ensures value { result ≡ average self.old x }
        ensures after { self.new ≡ Some result }
        ensures bound { (most : ℕ) → unwrap_or self.old 0 ≤ most → x ≤ most → result ≤ most }
    {
        let average = match self.get() {
            Some(average) => (3 * average + x) / 4,
            None => x,
        };
        self.kept = average + 1;
        average
    }
}
