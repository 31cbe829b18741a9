//! The lines of the table of scopes.
ghost use Rattle.std.specs.Prelude.{◌≡◌, ◌-◌, ◌<◌, ◌≤◌, IfOk, decimal, drop, map};
ghost use Rattle.srm_report.specs.KeptScopes.{count_in};
ghost use Rattle.srm_report.specs.Records.{PutsRecord};
ghost use Rattle.srm_report.specs.Rows.{or_dash};
ghost use Rattle.srm_report.specs.Scopes.{scope_columns, scope_fields};
ghost use Rattle.srm_report.specs.Tables.{table_lines};

use crate::fault::ReportFault;
use crate::listing::trace::tag_of_cause;
use crate::records::field::Field;
use crate::records::{put_record, text_of, writer_behind};
use crate::scopes::HEADER;
use crate::scopes::heard_counts::HeardCounts;
use crate::scopes::scope_entry::ScopeEntry;
use csv::Writer;
use srm_net::packet::Local;
use std::alloc::Global;

// The table of these requests and repairs, of which so many members heard each.
pub(crate) fn table_text(
    alloc: Global,
    entries: &[ScopeEntry],
    heard: &HeardCounts,
) -> Result<Vec<u8>, ReportFault>
    ensures { IfOk result (λ text. text.items
        ≡ table_lines scope_columns (map (λ e. scope_fields e (count_in heard.now e.sent)) entries.now)) }
{
    let mut writer = writer_behind(Vec::from_slice(alloc, HEADER)?);
    for entry in entries {
        put_entry(&mut writer, entry, heard.of(entry.sent))?;
    }
    text_of(writer)
}

// Writes the record of a request or a repair.
fn put_entry(
    writer: &mut Writer<Vec<u8>>,
    entry: &ScopeEntry,
    heard: u64,
) -> Result<(), ReportFault>
    ensures { PutsRecord writer.old (scope_fields entry.now heard) result writer.new }
{
    let (cause, count) = tag_of_cause(entry.cause);
    let (requester, width) = fields_of_local(entry.local);
    put_record(
        writer,
        &[
            Field::number(entry.key.time).text(),
            Field::number(u64::from(entry.key.member)).text(),
            word_of_tag(&cause, count),
            Field::name(entry.name).text(),
            Field::packet(entry.sent).text(),
            hops(entry.scope).text(),
            requester.text(),
            width.text(),
            Field::number(heard).text(),
        ],
    )
}

// The word of a tag that is the last so many bytes, a comma and then the word.
fn word_of_tag(bytes: &[u8; 8], count: usize) -> &[u8]
    requires { (0 < count) × (count ≤ 8) }
    ensures { result.now ≡ drop (9 - count) bytes.now }
{
    &bytes[9 - count..]
}

// How many hops a packet went, or a dash where it went to all.
fn hops(scope: Option<u32>) -> Field
    ensures { result ≡ or_dash decimal scope }
{
    match scope {
        None => Field::dash(),
        Some(scope) => Field::number(u64::from(scope)),
    }
}

// Whose request a repair answered, and its width.
fn fields_of_local(local: Option<Local>) -> (Field, Field)
    ensures requester { result.0 ≡ or_dash (λ l. decimal l.requester) local }
    ensures width { result.1 ≡ or_dash (λ l. decimal l.width) local }
{
    match local {
        None => (Field::dash(), Field::dash()),
        Some(local) => (
            Field::number(u64::from(local.requester)),
            Field::number(u64::from(local.width)),
        ),
    }
}
