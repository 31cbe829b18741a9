//! Both intervals of a member.
use crate::interval::Interval;

/// The interval of a member's request timers and that of its repair timers (Floyd et al. 1997).
#[derive(Clone, Copy, Debug)]
pub struct Intervals {
    /// That of request timers: C1 and C2, and what they are adapted by.
    pub request: Interval,
    /// That of repair timers: D1 and D2, and what they are adapted by.
    pub repair: Interval,
}
