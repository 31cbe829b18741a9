//! What is told of a member's intervals.
ghost use Rattle.std.specs.Prelude.{◌≡◌, ◌≢◌, ◌↔◌, None, IsTrue, MatchResult};

use crate::intervals::Intervals;
use std::alloc::{AllocError, Global};
use std::marker::Model;

/// The intervals of a member after an event, where its answer and its row tell of them, which contracts see as an option.
///
/// They are in a box: few rows have them, and each row has the room.
#[derive(Debug, Drop)]
pub struct Adapted {
    intervals: Option<Box<Intervals>>,
}

impl Model for Adapted {
    ghost use Rattle.std.specs.Prelude.{Option};
    ghost use Rattle.srm_member.specs.declared.intervals.Intervals.{Intervals as Seen};
    ghost use Rattle.srm_member.specs.Adapted.{in_box};

    ghost Value = { Option Seen };

    ghost view = { λ a. in_box a.intervals };
}

impl Adapted {
    /// Nothing is told of intervals. It does not allocate.
    #[inline(always)]
    pub fn nothing() -> Self
        ensures { result ≡ None }
    {
        Adapted { intervals: None }
    }

    /// What is told of intervals. Where that is nothing it does not allocate.
    ///
    /// # Errors
    /// [`AllocError`], only where there are intervals.
    pub fn of(alloc: Global, intervals: Option<Intervals>) -> Result<Self, AllocError>
        ensures { MatchResult result (λ a. a ≡ intervals) (λ _. intervals ≢ None) }
    {
        let Some(intervals) = intervals else {
            return Ok(Adapted::nothing());
        };
        let intervals = Box::new(alloc, intervals)?;
        Ok(Adapted {
            intervals: Some(intervals),
        })
    }

    // Whether nothing is told of intervals.
    #[inline(always)]
    pub(crate) fn is_nothing(&self) -> bool
        ensures { IsTrue result ↔ (self.now ≡ None) }
    {
        self.intervals.is_none()
    }

    /// The intervals, if they are told. It does not allocate.
    pub fn get(&self) -> Option<Intervals>
        ensures { result ≡ self.now }
    {
        match &self.intervals {
            None => None,
            Some(intervals) => Some(**intervals),
        }
    }
}
