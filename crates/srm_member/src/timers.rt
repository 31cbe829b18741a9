//! Lengths of timers.
ghost use Rattle.std.specs.Prelude.{◌≡◌, ◌<◌, ◌≤◌, ◌^◌, max};
ghost use Rattle.srm_member.specs.Timers;

/// The length of a timer, in ticks, that a random word picks of `lo` to `hi`, and at least one tick.
///
/// Floyd et al. (1997) draw evenly; the arithmetic in whole ticks is this project's own. It does not allocate.
pub fn draw(word: u32, lo: u64, hi: u64) -> u64
    requires order { lo ≤ hi }
    requires bound { hi < 2 ^ 58 }
    ensures value { result ≡ Timers.timer_length word (lo, hi) }
    ensures at_most { result ≤ max 1 hi }
{
    let width = u128::from(hi - lo + 1);
    let above = u128::from(word) * width / (1 << 32);
    (lo + above as u64).max(1)
}
