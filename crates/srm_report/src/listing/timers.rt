//! The table of timers as CSV.
ghost use Rattle.std.specs.Prelude.{◌≡◌, ◌≤◌, ◌+◌, ◌∷◌, ◌++◌, decimal, IfOk};
ghost use Rattle.csv.specs.Writing.{comma, default_writer, row_text};
ghost use Rattle.srm_report.specs.Lines.{buffer_room, buffer_text, buffer_written, line_room, pair_room};
ghost use Rattle.srm_report.specs.Rows.{or_dash};
ghost use Rattle.srm_report.specs.Timers.{timers_fields, timers_table};

use crate::fault::ReportFault;
use crate::listing::fields::{put_number, put_time};
use crate::listing::line_buffer::LineBuffer;
use crate::listing::trace::{put_cause, put_ref};
use crate::listing::{Listing, table_text};
use srm_member::interval::Interval;
use srm_member::intervals::Intervals;
use srm_member::row::Row;
use std::alloc::Global;

/// The line of the columns.
pub const HEADER: &[u8] =
    b"time,member,cause,ref,c1,c2,d1,d2,ave_dup_req,ave_req_delay,ave_dup_rep,ave_rep_delay\n";

/// The table of timers, as a table that lists the rows which tell of intervals.
#[derive(Clone, Copy, Debug)]
pub struct TimersListing;

impl Listing for TimersListing {
    ghost use Rattle.srm_report.specs.Timers.{timers_form};

    ghost form = { timers_form };

    fn header() -> &'static [u8] {
        HEADER
    }

    fn put_line(buffer: &mut LineBuffer, row: &Row) {
        if let Some(intervals) = row.adapted.get() {
            put_row(buffer, row, intervals);
        }
    }
}

/// The table of timers, as CSV with line feeds: a header, and a line for each join of a member that is no listener and for each
/// event after which one of the member's four constants is another than before. Lines are in the order of the trace.
///
/// | column | what it has |
/// |---|---|
/// | `time`, `member`, `cause`, `ref` | those of the trace |
/// | `c1`, `c2` | start and width of the interval of request timers after the event, in thousandths of a distance |
/// | `d1`, `d2` | those of the interval of repair timers |
/// | `ave_dup_req` | the average of duplicate requests in a period, in thousandths, or `-` |
/// | `ave_req_delay` | the average delay of requests, in thousandths of a round trip, or `-` |
/// | `ave_dup_rep`, `ave_rep_delay` | those of repairs |
///
/// # Errors
/// `NoMemory`.
pub fn timers_text(alloc: Global, rows: &[Row]) -> Result<Vec<u8>, ReportFault>
    ensures { IfOk result (λ text. text.items ≡ timers_table rows.now) }
{
    Ok(table_text::<TimersListing>(alloc, rows)?)
}

// Puts the line of a row that tells of these intervals, its fields from the last to the first.
fn put_row(buffer: &mut LineBuffer, row: &Row, intervals: Intervals)
    requires { line_room ≤ buffer_room buffer.old }
    ensures room { buffer_room buffer.old ≤ buffer_room buffer.new + line_room }
    ensures text { buffer_text buffer.new ≡ row_text default_writer (timers_fields row.now intervals) ++ buffer_text buffer.old }
{
    buffer.end_line();
    put_averages(buffer, intervals.repair);
    put_averages(buffer, intervals.request);
    put_constants(buffer, intervals.repair);
    put_constants(buffer, intervals.request);
    put_ref(buffer, &row.about);
    put_cause(buffer, row.cause);
    put_number(buffer, u64::from(row.key.member));
    put_number(buffer, row.key.time);
}

// Puts the two averages of an interval.
fn put_averages(buffer: &mut LineBuffer, interval: Interval)
    requires { pair_room ≤ buffer_room buffer.old }
    ensures room { buffer_room buffer.old ≤ buffer_room buffer.new + pair_room }
    ensures written { buffer_written buffer.new ≡ comma ∷ (or_dash decimal interval.average_duplicates
        ++ comma ∷ (or_dash decimal interval.average_delay ++ buffer_written buffer.old)) }
{
    put_time(buffer, interval.average_delay());
    put_time(buffer, interval.average_duplicates());
}

// Puts the two constants of an interval.
fn put_constants(buffer: &mut LineBuffer, interval: Interval)
    requires { pair_room ≤ buffer_room buffer.old }
    ensures room { buffer_room buffer.old ≤ buffer_room buffer.new + pair_room }
    ensures written { buffer_written buffer.new ≡ comma ∷ (decimal interval.start
        ++ comma ∷ (decimal interval.width ++ buffer_written buffer.old)) }
{
    put_number(buffer, u64::from(interval.width()));
    put_number(buffer, u64::from(interval.start()));
}
