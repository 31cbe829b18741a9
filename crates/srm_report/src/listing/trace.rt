//! The trace of a run as CSV.
ghost use Rattle.std.specs.Prelude.{◌≡◌, ◌-◌, ◌<◌, ◌≤◌, ◌∷◌, drop, IfOk};
ghost use Rattle.csv.specs.Writing.{comma};
ghost use Rattle.srm_report.specs.Lines.{PutsField, buffer_room, name_room, pair_room};
ghost use Rattle.srm_report.specs.Rows.{or_dash};
ghost use Rattle.srm_report.specs.Trace.{cause_word, packet_text, told_word, ref_text, trace_of_rows};

use crate::fault::ReportFault;
use crate::listing::fields::{put_dash, put_name, put_number, put_packet};
use crate::listing::line_buffer::LineBuffer;
use crate::listing::{Listing, table_text};
use srm_member::row::{About, Row, Word};
use srm_member::told::Told;
use srm_net::packet::Packet;
use std::alloc::Global;

/// The line of the columns.
pub const HEADER: &[u8] = b"time,member,cause,ref,result,lost,sent\n";

/// The trace, as a table that lists each row.
#[derive(Clone, Copy, Debug)]
pub struct TraceListing;

impl Listing for TraceListing {
    ghost use Rattle.srm_report.specs.Trace.{trace_form};

    ghost form = { trace_form };

    fn header() -> &'static [u8] {
        HEADER
    }

    // The fields are put from the last to the first.
    fn put_line(buffer: &mut LineBuffer, row: &Row) {
        buffer.end_line();
        put_sent(buffer, &row.sent);
        put_number(buffer, row.lost.len() as u64);
        put_told(buffer, row.told);
        put_ref(buffer, &row.about);
        put_cause(buffer, row.cause);
        put_number(buffer, u64::from(row.key.member));
        put_number(buffer, row.key.time);
    }
}

/// The text of a trace, as CSV with line feeds: a header, and a line for each row.
///
/// | column | what it has |
/// |---|---|
/// | `time` | when the event is, in ticks |
/// | `member` | the member's number |
/// | `cause` | the event's kind |
/// | `ref` | what it is about: `sender:count` of a packet, `source/page/number` of a name, or `-` |
/// | `result` | what came of it |
/// | `lost` | how many names the member found to be missing |
/// | `sent` | `sender:count` of the packet that it sent, or `-` |
///
/// # Errors
/// `NoMemory`.
pub fn trace_text(alloc: Global, rows: &[Row]) -> Result<Vec<u8>, ReportFault>
    ensures { IfOk result (λ text. text.items ≡ trace_of_rows rows.now) }
{
    Ok(table_text::<TraceListing>(alloc, rows)?)
}

// Puts what an event is about.
pub(crate) fn put_ref(buffer: &mut LineBuffer, about: &About)
    requires { name_room ≤ buffer_room buffer.old }
    ensures { PutsField name_room buffer.old (ref_text about.now) buffer.new }
{
    match about {
        About::Nothing => put_dash(buffer),
        About::Of { packet } => put_packet(buffer, packet.id),
        About::Named { name } => put_name(buffer, *name),
    }
}

// Puts the packet that an event sent.
fn put_sent(buffer: &mut LineBuffer, sent: &Option<Packet>)
    requires { pair_room ≤ buffer_room buffer.old }
    ensures { PutsField pair_room buffer.old (or_dash (λ p. packet_text p.id) sent.now) buffer.new }
{
    match sent {
        None => put_dash(buffer),
        Some(packet) => put_packet(buffer, packet.id),
    }
}

// Puts the word of an event's kind.
#[inline]
pub(crate) fn put_cause(buffer: &mut LineBuffer, cause: Word)
    requires { 8 ≤ buffer_room buffer.old }
    ensures { PutsField 8 buffer.old (cause_word cause) buffer.new }
{
    let (bytes, count) = tag_of_cause(cause);
    buffer.put_last(bytes, count);
}

// Puts the word of what came of an event.
#[inline]
fn put_told(buffer: &mut LineBuffer, told: Told)
    requires { 8 ≤ buffer_room buffer.old }
    ensures { PutsField 8 buffer.old (told_word told) buffer.new }
{
    let (bytes, count) = tag_of_told(told);
    buffer.put_last(bytes, count);
}

// The word of an event's kind with its comma, at the end of eight bytes, and how many of them these are.
#[inline]
pub(crate) fn tag_of_cause(cause: Word) -> ([u8; 8], usize)
    ensures some { 0 < result.1 }
    ensures count { result.1 ≤ 8 }
    ensures word { drop (8 - result.1) result.0 ≡ comma ∷ cause_word cause }
{
    match cause {
        Word::Join => (*b"   ,join", 5),
        Word::Data => (*b"   ,data", 5),
        Word::Request => (*b",request", 8),
        Word::Repair => (*b" ,repair", 7),
        Word::Session => (*b",session", 8),
        Word::Ask => (*b"    ,ask", 4),
        Word::Answer => (*b" ,answer", 7),
        Word::Draw => (*b"   ,draw", 5),
        Word::Report => (*b" ,report", 7),
        Word::Leave => (*b"  ,leave", 6),
    }
}

// The word of what came of an event with its comma, at the end of eight bytes, and how many of them these are.
#[inline]
fn tag_of_told(told: Told) -> ([u8; 8], usize)
    ensures count { result.1 ≤ 8 }
    ensures word { drop (8 - result.1) result.0 ≡ comma ∷ told_word told }
{
    match told {
        Told::Entered => (*b"     ,in", 3),
        Told::Parted => (*b"    ,out", 4),
        Told::Fresh => (*b"  ,fresh", 6),
        Told::Fixed => (*b"  ,fixed", 6),
        Told::Again => (*b"  ,again", 6),
        Told::Skip => (*b"   ,skip", 5),
        Told::Rest => (*b"   ,rest", 5),
        Told::Busy => (*b"   ,busy", 5),
        Told::Plan => (*b"   ,plan", 5),
        Told::Hold => (*b"   ,hold", 5),
        Told::Back => (*b"   ,back", 5),
        Told::Heard => (*b"   ,told", 5),
        Told::Sent => (*b"   ,sent", 5),
    }
}
