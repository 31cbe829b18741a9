//! The watch that keeps the lines of members' rows.
ghost use Rattle.std.specs.Prelude.{◌≡◌, [], All, length};

use crate::listing::Listing;
use crate::listing::in_order::together;
use crate::listing::line_buffer::LineBuffer;
use crate::listing::lines::Lines;
use srm_interfaces::watch::Watch;
use srm_member::row::Row;
use std::alloc::{AllocError, Global};

// Lines are put together where parts have fewer bytes on average.
const LONG_PART: usize = 4_096;

/// Keeps the lines that the rows of a member have in a table which lists rows, and no row. Where more than one of a job's members
/// have lines, in short parts, they may be put together as the job is done: then they stand in order of ticks, as what the first
/// member has.
#[derive(Clone, Copy)]
pub struct KeepLines<L> {
    /// The memory that is taken for lines.
    pub alloc: Global,
    /// Which table.
    pub listing: L,
    /// Whether lines are put together: where several threads do it, less is left to the one that writes them.
    pub joins: bool,
}

impl<L: Listing> Watch<Lines> for KeepLines<L> {
    ghost use Rattle.std.specs.Prelude.{◌≡◌, refl};
    ghost use Rattle.srm_report.specs.KeptLines.{lines_of, HaveSameTexts};

    ghost keeps = { λ _ k rows. k ≡ lines_of L.form rows };

    ghost closes = { λ _ old new. HaveSameTexts old new };

    ghost may_stand = { λ _ _ _. refl };

    fn none(&self) -> Lines {
        Lines::new(self.alloc)
    }

    fn clear(&self, kept: &mut Lines) {
        if kept.len() > 0 {
            kept.clear(self.alloc);
        }
    }

    fn add(&self, kept: &mut Lines, rows: &[Row]) -> Result<(), AllocError> {
        kept.reserve(rows.len())?;
        // each line in turn is made in the same memory
        let mut buffer = LineBuffer::new();
        for row in rows {
            kept.put::<L>(&mut buffer, row)?;
        }
        Ok(())
    }

    fn close(&self, kept: &mut [Lines]) -> Result<(), AllocError> {
        if kept.len() < 2 || !self.joins || !are_short(kept) {
            return Ok(());
        }
        let lines = together(self.alloc, kept)?;
        clear_all(self.alloc, kept);
        kept[0] = lines;
        Ok(())
    }
}

// Whether more than one of these members have lines, in parts that are short: long ones are written as they stand.
fn are_short(all: &[Lines]) -> bool {
    let mut members: usize = 0;
    let mut parts: usize = 0;
    let mut bytes: usize = 0;
    for own in all {
        members = members.saturating_add((own.len() > 0) as usize);
        parts = parts.saturating_add(own.len());
        bytes = bytes.saturating_add(own.bytes());
    }
    members > 1 && bytes < parts.saturating_mul(LONG_PART)
}

// Takes all lines out.
fn clear_all(alloc: Global, kept: &mut [Lines])
    ensures long { length kept.new ≡ length kept.old }
    ensures none { All (λ own. own ≡ []) kept.new }
{
    for own in kept.iter_mut() {
        own.clear(alloc);
    }
}
