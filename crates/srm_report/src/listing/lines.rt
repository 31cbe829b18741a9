//! Lines of rows, kept as one text, and where those of each tick end.
ghost use Rattle.std.specs.Prelude.{◌≡◌, ◌<◌, ◌≤◌, ◌++◌, ◌∷◌, [], length, is_ok, OnOk, if◌then◌else◌};
ghost use Rattle.std.proofs.Math.ListN.{get_or};
ghost use Rattle.srm_report.specs.KeptLines.{line_behind, parts_seen, start_at};

use crate::listing::line_buffer::LineBuffer;
use crate::listing::tick_part::TickPart;
use crate::listing::{Listing, USUAL_LINE};
use srm_member::row::Row;
use std::alloc::{AllocError, Global};
use std::marker::Model;

// How many bytes lines have at most whose room is kept as they are taken out.
const KEPT_ROOM: usize = 8_192;

/// A tick, and where its lines end.
#[derive(Clone, Copy)]
pub struct LineEnd {
    /// The tick.
    pub time: u64,
    /// Where they end.
    pub end: usize,
}

/// The lines of members' rows, in parts: those of one tick are together. Contracts see them as a list of ticks and texts.
#[derive(Drop)]
pub struct Lines {
    ends: Vec<LineEnd>,
    text: Vec<u8>,
}

impl Model for Lines {
    ghost use Rattle.std.specs.Prelude.{List, ℕ, length};
    ghost use Rattle.srm_report.specs.KeptLines.{cut_from, AreEnds};

    ghost Value = { List (ℕ × List ℕ) };

    ghost view = { λ l. cut_from 0 l.text.items l.ends.items };

    ghost invariant = { λ l. AreEnds 0 (length l.text.items) l.ends.items };
}

// Where a part starts.
fn start_of(ends: &[LineEnd], index: usize) -> usize
    requires { index ≤ length ends.now }
    ensures { result ≡ start_at 0 index ends.now }
{
    if index == 0 { 0 } else { ends[index - 1].end }
}

impl Lines {
    /// No line. It does not allocate.
    pub fn new(alloc: Global) -> Lines
        ensures { result ≡ [] }
    {
        Lines {
            ends: Vec::new(alloc),
            text: Vec::new(alloc),
        }
    }

    /// Takes all lines out. The room of a few is kept, and that of many is given back.
    pub fn clear(&mut self, alloc: Global)
        ensures { self.new ≡ [] }
    {
        if self.text.len() > KEPT_ROOM {
            *self = Lines::new(alloc);
            return;
        }
        self.ends.clear();
        self.text.clear();
    }

    /// Makes room for so many lines more, if most have at most 40 bytes.
    ///
    /// # Errors
    /// [`AllocError`]: the lines are as they were.
    pub fn reserve(&mut self, more: usize) -> Result<(), AllocError>
        ensures { self.new ≡ self.old }
    {
        self.text.reserve(more.saturating_mul(USUAL_LINE))
    }

    /// Puts the lines of a row in a table behind the others. They are made in `buffer`, whatever it has.
    ///
    /// # Errors
    /// [`AllocError`]: the lines are as they were.
    pub fn put<L: Listing>(&mut self, buffer: &mut LineBuffer, row: &Row) -> Result<(), AllocError>
        ensures { self.new ≡ (if is_ok result then line_behind self.old row.now.key.time (L.form.line row.now) else self.old) }
    {
        buffer.clear();
        L::put_line(buffer, row);
        self.put_part(&TickPart {
            time: row.key.time,
            text: buffer.text(),
        })
    }

    /// Puts a part behind the others.
    ///
    /// # Errors
    /// [`AllocError`]: the lines are as they were.
    // within `put`, as each row of a window comes here
    #[inline(always)]
    pub(crate) fn put_part(&mut self, part: &TickPart) -> Result<(), AllocError>
        ensures { self.new ≡ (if is_ok result then line_behind self.old part.now.time part.now.text.now else self.old) }
    {
        self.ends.reserve(1)?;
        self.text.extend_from_slice(part.text)?;
        let time = part.time;
        let end = self.text.len();
        let count = self.ends.len();
        if count > 0 && self.ends[count - 1].time == time {
            self.ends[count - 1] = LineEnd { time, end };
            return Ok(());
        }
        self.ends.push(LineEnd { time, end })?;
        Ok(())
    }

    /// Puts the parts behind others.
    ///
    /// # Errors
    /// [`AllocError`].
    pub(crate) fn put_parts<'a>(&'a self, parts: &mut Vec<TickPart<'a>>) -> Result<(), AllocError>
        ensures { OnOk result (parts_seen parts.new.items ≡ parts_seen parts.old.items ++ self.now) }
    {
        parts.reserve(self.len())?;
        for index in 0..self.len() {
            parts.push(TickPart {
                time: self.time(index),
                text: self.text(index),
            })?;
        }
        Ok(())
    }

    /// How many parts there are.
    pub fn len(&self) -> usize
        ensures { result ≡ length self.now }
    {
        self.ends.len()
    }

    /// How many bytes they have.
    pub(crate) fn bytes(&self) -> usize {
        self.text.len()
    }

    /// The tick of a part.
    pub fn time(&self, index: usize) -> u64
        requires { index < length self.now }
        ensures { (d : _) → result ≡ (get_or self.now index d).0 }
    {
        self.ends[index].time
    }

    /// The text of a part.
    pub fn text(&self, index: usize) -> &[u8]
        requires { index < length self.now }
        ensures { (d : _) → result.now ≡ (get_or self.now index d).1 }
    {
        let start = start_of(self.ends.as_slice(), index);
        &self.text[start..self.ends[index].end]
    }
}
