//! Timers that backoffs make longer by a factor.
ghost use Rattle.std.specs.Prelude.{◌≡◌, ◌*◌, ◌/◌, ◌<◌, ◌≤◌, ◌^◌};
ghost use Rattle.srm_member.specs.Backoff;
ghost use Rattle.srm_member.specs.Backoff.{longest_way};
ghost use Rattle.srm_member.specs.Intervals.{greatest_adapted};

/// How many times as long a timer becomes at each backoff.
#[derive(Clone, Copy, Debug, PartialEq, Eq)]
pub enum BackoffFactor {
    /// Twice, as with fixed timers (Floyd et al. 1997).
    Two,
    /// Three times, as with adaptive timers (Floyd et al. 1997).
    Three,
}

impl BackoffFactor {
    /// How many times as long a timer is after `i` backoffs. Twice at each up to the tenth, or three times up to the sixth: where
    /// it stops is this project's own. It does not allocate.
    pub fn multiple(self, i: u32) -> u64
        ensures value { result ≡ Backoff.multiple self i }
        ensures bound { result ≤ 1024 }
    {
        match self {
            BackoffFactor::Two => 2u64.pow(i.min(10)),
            BackoffFactor::Three => 3u64.pow(i.min(6)),
        }
    }

    /// The least and the greatest length of a timer, in ticks, after `i` backoffs: `x` and `x + y` thousandths of the distance
    /// `d`, so many times as the backoffs make it, and rounded down to whole ticks (this project's own).
    ///
    /// `x` and `y` are thousandths, and `d` is in ticks. It does not allocate.
    pub fn span(self, i: u32, x: u32, y: u32, d: u64) -> (u64, u64)
        requires least { x ≤ greatest_adapted }
        requires more { y ≤ greatest_adapted }
        requires distance { d ≤ longest_way }
        ensures value { result ≡ Backoff.span_by self i x y d }
        ensures order { result.0 ≤ result.1 }
        ensures bound { result.1 < 2 ^ 58 }
    {
        let multiple = self.multiple(i);
        let least = u64::from(x);
        let greatest = least + u64::from(y);
        (
            thousandths(multiple, least, d),
            thousandths(multiple, greatest, d),
        )
    }
}

// `n` times `x` thousandths of `d`, rounded down. The whole thousands of `d` are taken first: so each product fits 64 bits.
fn thousandths(n: u64, x: u64, d: u64) -> u64
    requires times { n ≤ 1024 }
    requires part { x ≤ 2048000 }
    requires whole { d ≤ longest_way }
    ensures value { result ≡ n * x * d / 1000 }
    ensures bound { result < 2 ^ 58 }
{
    let part = n * x;
    part * (d / 1000) + part * (d % 1000) / 1000
}
