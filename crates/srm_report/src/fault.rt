//! Why a text was not made.
use std::alloc::AllocError;

/// Why a text was not made.
#[derive(Clone, Copy, Debug, PartialEq, Eq)]
pub enum ReportFault {
    /// Memory ran out.
    NoMemory,
}

impl From<AllocError> for ReportFault {
    fn from(_fault: AllocError) -> Self {
        ReportFault::NoMemory
    }
}
