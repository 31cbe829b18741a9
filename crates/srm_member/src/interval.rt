//! The interval that a member's timers are drawn from.
ghost use Rattle.std.specs.Prelude.{◌≡◌, ℕ, ◌+◌, ◌*◌, ◌<◌, ◌≤◌, ◌^◌, Some, unwrap_or};
ghost use Rattle.srm_net.specs.Limits.{end_of_time};
ghost use Rattle.srm_member.specs.Intervals;
ghost use Rattle.srm_member.specs.Intervals.{greatest_adapted, opening_interval, has_constants_of, adapted, adapt, begin_period, take_in_delay, send_first, hear_duplicate};

use crate::average::Average;
use crate::limits::Limits;
use std::marker::Model;

/// So many duplicates are counted in a period.
const MOST_DUPLICATES: u32 = 1_000_000;

/// The interval of a member's request timers, or that of its repair timers, and what it is adapted by (Floyd et al. 1997).
///
/// Start, width and averages are in thousandths. The steps and the targets are those of Floyd et al.; this project's own are the
/// rounding down to whole thousandths, and that nothing is adapted before a delay was averaged.
#[derive(Clone, Copy, Debug)]
pub struct Interval {
    average_delay: Average,
    average_duplicates: Average,
    start: u32,
    width: u32,
    duplicates: u32,
    sent_first: bool,
}

// each member has two of them
const _: () = prove!(size_of::<Interval>() == 32);

impl Model for Interval {
    ghost use Rattle.std.specs.Prelude.{◌≤◌, ◌*◌, unwrap_or};
    ghost use Rattle.srm_net.specs.Limits.{end_of_time};
    ghost use Rattle.srm_member.specs.Intervals.{Interval as Seen, greatest_adapted, most_duplicates};

    ghost Value = { Seen };

    ghost view = { λ i. record {
      start = i.start;
      width = i.width;
      duplicates = i.duplicates;
      sent_first = i.sent_first;
      average_duplicates = i.average_duplicates;
      average_delay = i.average_delay;
    } };

    ghost invariant = { λ i.
        (i.start ≤ greatest_adapted)
        × (i.width ≤ greatest_adapted)
        × (i.duplicates ≤ most_duplicates)
        × (unwrap_or i.average_duplicates 0 ≤ 1000 * most_duplicates)
        × (unwrap_or i.average_delay 0 ≤ 500 * end_of_time) };

    ghost inverse = { λ i. record {
      average_delay = i.average_delay;
      average_duplicates = i.average_duplicates;
      start = i.start;
      width = i.width;
      duplicates = i.duplicates;
      sent_first = i.sent_first;
    } };
}

impl Interval {
    /// An interval at first, with the limits of its start and of its width. It does not allocate.
    pub fn new(start: Limits, width: Limits) -> Self
        ensures { result ≡ opening_interval start width }
    {
        Interval {
            average_delay: Average::new(),
            average_duplicates: Average::new(),
            start: start.first(),
            width: width.first(),
            duplicates: 0,
            sent_first: false,
        }
    }

    /// The least length of a timer, in thousandths of a distance: C1 or D1. It does not allocate.
    pub fn start(self) -> u32
        ensures value { result ≡ self.start }
        ensures bound { result ≤ greatest_adapted }
    {
        self.start
    }

    /// By how much a timer may be longer, in thousandths of a distance: C2 or D2. It does not allocate.
    pub fn width(self) -> u32
        ensures value { result ≡ self.width }
        ensures bound { result ≤ greatest_adapted }
    {
        self.width
    }

    // Whether start and width are those of another.
    #[inline(always)]
    pub(crate) fn has_constants_of(self, other: Interval) -> bool
        ensures { result ≡ has_constants_of other self }
    {
        self.start == other.start && self.width == other.width
    }

    /// The average of duplicates in a period, in thousandths, if there is one. It does not allocate.
    pub fn average_duplicates(self) -> Option<u64>
        ensures { result ≡ self.average_duplicates }
    {
        self.average_duplicates.get()
    }

    /// The average delay in round trips, in thousandths, if there is one. It does not allocate.
    pub fn average_delay(self) -> Option<u64>
        ensures { result ≡ self.average_delay }
    {
        self.average_delay.get()
    }

    /// Begins a period. Where a delay was averaged, the average of duplicates takes in those of the period that ends, and start
    /// and width are adapted within their limits. It does not allocate.
    pub fn begin_period(&mut self, start: Limits, width: Limits)
        ensures { self.new ≡ begin_period start width self.old }
    {
        if let Some(delay) = self.average_delay.get() {
            self.adapt(start, width, delay);
        }
        self.duplicates = 0;
        self.sent_first = false;
    }

    // The average of duplicates takes in those of the period that ends, and start and width are adapted.
    fn adapt(&mut self, start: Limits, width: Limits, delay: u64)
        ensures { self.new ≡ adapt start width (Some delay) self.old }
    {
        let duplicates = self
            .average_duplicates
            .take_in(1000 * u64::from(self.duplicates));
        let (next_start, next_width) = self.adapted(duplicates, delay);
        self.start = start.within(next_start);
        self.width = width.within(next_width);
    }

    // Start and width for the next period, before limits.
    fn adapted(&self, duplicates: u64, delay: u64) -> (u32, u32)
        ensures { result ≡ adapted self.now duplicates delay }
    {
        if self.sent_first {
            return (self.start, self.width.saturating_sub(100));
        }
        if duplicates >= 1000 {
            return (self.start + 100, self.width + 500);
        }
        if duplicates >= 900 {
            return (self.start + 50, self.width);
        }
        let start = self
            .start
            .saturating_sub(if duplicates < 250 { 50 } else { 0 });
        let width = self
            .width
            .saturating_sub(if delay > 1000 { 100 } else { 0 });
        (start, width)
    }

    /// Takes in a delay, in ticks, over a distance, in ticks, which is half a round trip. It does not allocate.
    pub fn take_in_delay(&mut self, ticks: u64, distance: u64)
        requires { ticks < end_of_time }
        ensures { self.new ≡ take_in_delay ticks distance self.old }
    {
        let delay = 500 * ticks / distance.max(1);
        self.average_delay.take_in(delay);
    }

    /// The member itself sends first in this period: the start falls, within its limits. It does not allocate.
    pub fn send_first(&mut self, start: Limits)
        ensures { self.new ≡ send_first start self.old }
    {
        self.start = start.within(self.start.saturating_sub(50));
        self.sent_first = true;
    }

    /// Hears a duplicate, of which up to 1,000,000 (`MOST_DUPLICATES`) are counted in a period. It does not allocate.
    pub fn hear_duplicate(&mut self)
        ensures { self.new ≡ hear_duplicate self.old }
    {
        self.duplicates = (self.duplicates + 1).min(MOST_DUPLICATES);
    }
}
