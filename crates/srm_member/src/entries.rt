//! What stands in a member's tables.

/// A name that a member lacks, with its request timer.
#[derive(Clone, Copy, Debug, PartialEq, Eq)]
pub struct Missing {
    /// When the loss was detected, in ticks.
    pub detected: u64,
    /// When the request timer expires, in ticks.
    pub expiry: u64,
    /// How often the timer backed off, counted up to 10.
    pub backoffs: u32,
    /// Before which time a request for the name backs off no further, in ticks: halfway to the expiry (Floyd et al. 1997),
    /// rounded down (this project's own), or the time of the loss where the timer has not backed off.
    pub ignore: u64,
}

/// A repair timer.
#[derive(Clone, Copy, Debug, PartialEq, Eq)]
pub struct Repairing {
    /// When it was set, in ticks.
    pub set: u64,
    /// When it expires, in ticks.
    pub expiry: u64,
    /// The member whose request is answered: the one that set it, or a wider one that came later. A second step's is the member
    /// itself.
    pub requester: u16,
    /// The width: the scope of that request, in hops, or none where it went to all.
    pub width: Option<u16>,
}
