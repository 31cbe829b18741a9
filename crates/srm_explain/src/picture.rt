//! Lines of a text, with what is meant underlined.
use crate::span::Span;
use std::alloc::{AllocError, Global};

/// How many characters of a line are shown.
const SHOWN: usize = 100;

/// How many characters are shown before what is meant, where a line is longer.
const BEFORE: usize = 40;

/// The line of a text in which a part of it begins, with the line's number, the column, and that part underlined.
///
/// # Errors
/// Memory ran out.
pub(crate) fn picture_of(alloc: Global, text: &[u8], span: Span) -> Result<String, AllocError> {
    let (number, begin) = line_at(text, span.start);
    let end = line_end(text, begin);
    let before = String::from_utf8_lossy(alloc, part(text, begin, span.start.min(end)))?;
    let meant = String::from_utf8_lossy(alloc, part(text, span.start.min(end), span.end.min(end)))?;
    let after = String::from_utf8_lossy(alloc, part(text, span.end.min(end), end))?;
    let column = before.chars().count().saturating_add(1);
    let whole = String::from_utf8_lossy(alloc, part(text, begin, end))?;
    let from = if whole.chars().count() > SHOWN && column > SHOWN - BEFORE {
        column - BEFORE
    } else {
        0
    };
    let mut line = Underlined::new(alloc, from);
    line.push(&before, Some(' '))?;
    line.push(&meant, Some('^'))?;
    line.push(&after, None)?;
    if meant.is_empty() {
        line.under.push('^')?;
    }
    let Underlined {
        shown,
        under,
        skip: _,
        room: _,
    } = line;
    let gap = blank(alloc, number)?;
    format!(in alloc;
        "  --> standard input, line {number}, column {column}\n  {number} | {shown}\n  {gap} | {under}\n"
    )
}

// A part of a text, as far as there is one.
fn part(text: &[u8], from: usize, to: usize) -> &[u8] {
    text.get(from..to).unwrap_or(&[])
}

// The number of the line in which an offset in bytes is, from 1, and the offset at which that line begins.
fn line_at(text: &[u8], offset: usize) -> (usize, usize) {
    let mut number = 1usize;
    let mut begin = 0usize;
    for (at, byte) in text.iter().enumerate() {
        if at >= offset {
            return (number, begin);
        }
        if *byte == b'\n' {
            number = number.saturating_add(1);
            begin = at.saturating_add(1);
        }
    }
    (number, begin)
}

// The offset at which the line ends that begins at an offset.
fn line_end(text: &[u8], begin: usize) -> usize {
    for (at, byte) in text.iter().enumerate() {
        if at >= begin && *byte == b'\n' {
            return at;
        }
    }
    text.len()
}

// As many spaces as a number has digits.
fn blank(alloc: Global, number: usize) -> Result<String, AllocError> {
    let digits = format!(in alloc; "{number}")?;
    digits.chars().map(|_| ' ').collect(alloc)
}

/// A line, and what stands below it.
#[derive(Drop)]
struct Underlined {
    shown: String,
    under: String,
    /// How many characters are still left out in front.
    skip: usize,
    /// For how many there is room.
    room: usize,
}

impl Underlined {
    // An empty line, of which so many characters are left out in front.
    fn new(alloc: Global, skip: usize) -> Underlined {
        Underlined {
            shown: String::new(alloc),
            under: String::new(alloc),
            skip,
            room: SHOWN,
        }
    }

    // Adds text, with a mark below each character, if there is one. Characters that a terminal would not show are shown as
    // spaces.
    fn push(&mut self, text: &str, mark: Option<char>) -> Result<(), AllocError> {
        for c in text.chars() {
            if self.skip > 0 {
                self.skip -= 1;
            } else if self.room > 0 {
                self.room -= 1;
                self.shown.push(if c.is_control() { ' ' } else { c })?;
                if let Some(mark) = mark {
                    self.under.push(mark)?;
                }
            }
        }
        Ok(())
    }
}
