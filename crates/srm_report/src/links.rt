//! The table of links as CSV.
pub mod keep_nothing;

ghost use Rattle.std.specs.Prelude.{◌≡◌, IfOk, slice_index};
ghost use Rattle.srm_ledger.specs.Counts.{place_of};
ghost use Rattle.srm_report.specs.Links.{link_fields, links_table};
ghost use Rattle.srm_report.specs.Records.{PutsRecord};

use crate::fault::ReportFault;
use crate::records::field::Field;
use crate::records::{put_record, text_of, writer_behind};
use csv::Writer;
use srm_ledger::kind::Kind;
use srm_ledger::totals::Totals;
use std::alloc::Global;

/// The line of the columns.
pub const HEADER: &[u8] = b"link,data,requests,repairs,sessions,dropped\n";

/// The table of links, as CSV with line feeds: a header, and a line for each link, in the order of their numbers.
///
/// | column | what it has |
/// |---|---|
/// | `link` | the link's number |
/// | `data` | how many drawing operations from their sources crossed it |
/// | `requests` | how many requests crossed it |
/// | `repairs` | how many repairs crossed it |
/// | `sessions` | how many session messages crossed it |
/// | `dropped` | how many packets of any kind were dropped at it |
///
/// # Errors
/// `NoMemory`.
pub fn links_text(alloc: Global, totals: &Totals) -> Result<Vec<u8>, ReportFault>
    ensures { IfOk result (λ text. text.items ≡ links_table totals.now) }
{
    let mut writer = writer_behind(Vec::from_slice(alloc, HEADER)?);
    for (link, numbers) in totals.links().iter().enumerate() {
        put_link(&mut writer, link, numbers)?;
    }
    text_of(writer)
}

// Writes the record of a link with these five numbers.
fn put_link(
    writer: &mut Writer<Vec<u8>>,
    link: usize,
    numbers: &[u64; 5],
) -> Result<(), ReportFault>
    ensures { PutsRecord writer.old (link_fields link (λ k. slice_index numbers.now (place_of k))) result writer.new }
{
    put_record(
        writer,
        &[
            Field::number(link as u64).text(),
            Field::number(numbers[Kind::Drawop.place()]).text(),
            Field::number(numbers[Kind::Request.place()]).text(),
            Field::number(numbers[Kind::Repair.place()]).text(),
            Field::number(numbers[Kind::Session.place()]).text(),
            Field::number(numbers[Kind::Dropped.place()]).text(),
        ],
    )
}
