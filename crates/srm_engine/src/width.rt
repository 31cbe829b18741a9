//! How a run is cut into windows and jobs.
pub use srm_options::width::Width;

/// How a run is cut into windows, and windows into jobs.
#[derive(Clone, Copy, Debug, PartialEq, Eq)]
pub struct Windows {
    /// How many cells a job has, 1 to 1,024. The last job of a window may have fewer.
    pub cut: u32,
    /// How wide windows are.
    pub width: Width,
}
