//! What the program is asked for.
use crate::width::Width;

/// Which engine runs a scenario. The table is the same.
#[derive(Clone, Copy, Debug, PartialEq, Eq)]
pub enum Engine {
    /// The earliest event of all members is taken each time.
    Step,
    /// In each window of time every member handles its own events.
    Window,
}

/// Who works in a window.
#[derive(Clone, Copy, Debug, PartialEq, Eq)]
pub enum CrewKind {
    /// One thread, one job after the other.
    Plain,
    /// The threads that `rayon` runs.
    Pool,
    /// Workers that take jobs from a bag.
    Bag,
    /// Workers that live as long as the run.
    Team,
}

/// What is shown of a run.
#[derive(Clone, Copy, Debug, PartialEq, Eq)]
pub enum Show {
    /// The trace: every event, in order.
    Trace,
    /// A row for each member.
    Members,
    /// A row for each name that a member lost.
    Losses,
    /// A row for each name that some member lost.
    Operations,
    /// A row for each link.
    Links,
    /// A row for each join, and each event that adapts a member's timers.
    Timers,
    /// A row for each request and each repair that was sent.
    Scopes,
}

/// What the program is asked for.
#[derive(Clone, Copy, Debug, PartialEq, Eq)]
pub struct Options {
    /// Which engine runs the scenario.
    pub engine: Engine,
    /// Who works in a window. The sequential engine does not look at it.
    pub crew: CrewKind,
    /// How many workers share a bag, are a team or make replications, 1 to 64. Nothing else looks at it.
    pub workers: u8,
    /// How many members a job of a window has, 1 to 1,024. The sequential engine does not look at it.
    pub cut: u32,
    /// How wide windows are, in ticks. The sequential engine does not look at it.
    pub width: Width,
    /// What is shown.
    pub show: Show,
    /// How many runs are made, of seeds that rise by one; or none, and then one run is, and its table has no column for the seed.
    pub replications: Option<u32>,
    /// Whether the scenario is only read and checked, and nothing is written.
    pub check: bool,
    /// Whether a refusal is explained after its line.
    pub explain: bool,
}
