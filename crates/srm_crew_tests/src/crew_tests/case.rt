//! What a test of crews hands to them, and what it wants of them.
use crate::crew_tests::seen::{Seen, Window};
use srm_interfaces::fault::CrewFault;
use srm_ledger::totals::Totals;
use std::alloc::AllocError;
use std::process::Abort;

/// What has to come of a window's jobs.
#[derive(Clone, Copy)]
pub(crate) struct Wanted {
    /// The rows, cell by cell.
    pub(crate) rows: &'static [Seen],
    /// For each job whose rows have crossings its place, with the five numbers of each link.
    pub(crate) crossings: &'static [(usize, [u64; 5])],
    /// The next time of each cell.
    pub(crate) next_times: &'static [Option<u64>],
    /// The five numbers of each link, of all jobs.
    pub(crate) totals: &'static [[u64; 5]],
}

/// A window, each of whose jobs has the cell of one member.
#[derive(Clone, Copy)]
pub(crate) struct Case {
    /// The scenario.
    pub(crate) scenario: &'static str,
    /// How many packets each member has sent at the beginning.
    pub(crate) sent: u64,
    /// Whether each member has ended at the beginning.
    pub(crate) is_over: bool,
    /// How many drawing operations the seat has counted at link 0 before.
    pub(crate) counted: u64,
    /// The end of the window, in ticks.
    pub(crate) till: u64,
    /// What has to come of it, or why it is refused.
    pub(crate) wanted: Result<Wanted, CrewFault>,
}

impl Case {
    /// Asserts that this came of the window.
    pub(crate) fn expect(&self, rt: &impl Abort, window: &Window) {
        match &self.wanted {
            Ok(wanted) => {
                let seen = (
                    window.rows.as_slice(),
                    window.crossings.as_slice(),
                    window.next_times.as_slice(),
                );
                let expected = (wanted.rows, wanted.crossings, wanted.next_times);
                assert_eq!(rt; seen, expected, "rows, crossings and next times");
            }
            Err(fault) => assert!(rt; false, "not refused for {fault:?}"),
        }
    }

    /// Asserts that the window is refused for this, unless memory was refused.
    ///
    /// # Errors
    /// Memory was refused.
    pub(crate) fn expect_fault(&self, rt: &impl Abort, fault: CrewFault) -> Result<(), AllocError> {
        if fault == CrewFault::NoMemory {
            return Err(AllocError);
        }
        match &self.wanted {
            Ok(_) => assert!(rt; false, "refused for {fault:?}"),
            Err(wanted) => assert_eq!(rt; fault, *wanted),
        }
        Ok(())
    }

    /// Asserts that these are the totals.
    pub(crate) fn expect_totals(&self, rt: &impl Abort, totals: &Totals) {
        match &self.wanted {
            Ok(wanted) => assert_eq!(rt; totals.links(), wanted.totals),
            Err(fault) => assert!(rt; false, "not refused for {fault:?}"),
        }
    }
}
