//! Tables that list rows.
mod fields;
mod in_order;
pub mod keep_lines;
pub mod line_buffer;
pub mod lines;
pub mod listing_sink;
mod standing;
mod tick_part;
pub mod timers;
pub mod trace;

ghost use Rattle.std.specs.Prelude.{◌≡◌, ◌≤◌, ◌+◌, ◌*◌, ◌++◌, length, IfOk, OnOk};
ghost use Rattle.srm_report.specs.Lines.{buffer_room, buffer_text, line_room};
ghost use Rattle.srm_report.specs.Listings.{Form, lines_in, text_in};

use crate::listing::line_buffer::{LineBuffer, MOST_LINES};
use srm_member::row::Row;
use std::alloc::{AllocError, Global};

/// How many bytes most lines have at most, to make room for them at once.
pub(crate) const USUAL_LINE: usize = 40;

/// A table that lists rows in the order of the trace, each as it comes. A contract sees how.
pub trait Listing: Drop {
    // The line of the columns, and the lines of a row.
    ghost form: { Form };

    /// The line of the columns.
    fn header() -> &'static [u8]
        ensures { result.now ≡ form.header };

    /// Puts the lines of a row before others. They take no more room than one line may.
    fn put_line(buffer: &mut LineBuffer, row: &Row)
        requires { line_room ≤ buffer_room buffer.old }
        ensures room { buffer_room buffer.old ≤ buffer_room buffer.new + line_room }
        ensures text { buffer_text buffer.new ≡ form.line row.now ++ buffer_text buffer.old };
}

// The table of these rows, as CSV with line feeds: a header, and the lines of the rows.
pub(crate) fn table_text<L: Listing>(alloc: Global, rows: &[Row]) -> Result<Vec<u8>, AllocError>
    ensures { IfOk result (λ text. text.items ≡ text_in L.form rows.now) }
{
    let mut text = Vec::from_slice(alloc, L::header())?;
    put_lines::<L>(&mut text, rows)?;
    Ok(text)
}

// Puts the lines of these rows behind a text.
pub(crate) fn put_lines<L: Listing>(text: &mut Vec<u8>, rows: &[Row]) -> Result<(), AllocError>
    ensures { OnOk result (text.new.items ≡ text.old.items ++ lines_in L.form rows.now) }
{
    text.reserve(rows.len().saturating_mul(USUAL_LINE))?;
    let mut buffer = LineBuffer::new();
    let mut rest = rows;
    // a copy of the lines of several rows takes little longer than of one
    while !rest.is_empty() {
        let (few, more) = rest.split_at(rest.len().min(MOST_LINES));
        buffer.clear();
        put_few::<L>(&mut buffer, few);
        text.extend_from_slice(buffer.text())?;
        rest = more;
    }
    Ok(())
}

// Puts the lines of a few rows before others.
fn put_few<L: Listing>(buffer: &mut LineBuffer, rows: &[Row])
    requires { length rows.now * line_room ≤ buffer_room buffer.old }
    ensures { buffer_text buffer.new ≡ lines_in L.form rows.now ++ buffer_text buffer.old }
{
    for index in (0..rows.len()).rev() {
        L::put_line(buffer, &rows[index]);
    }
}
