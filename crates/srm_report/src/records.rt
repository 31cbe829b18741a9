//! Records of a table that is made at the end of a run, which `csv` writes into memory. No writer is moved more often than must
//! be, since its buffer of 8 KiB goes with it.
pub(crate) mod field;

ghost use Rattle.std.specs.Prelude.{◌≡◌, ℕ, List, IfOk, map};
ghost use Rattle.srm_report.specs.Records.{HasText, PutsRecord};

use crate::fault::ReportFault;
use csv::Writer;

// A writer behind a text.
pub(crate) fn writer_behind(text: Vec<u8>) -> Writer<Vec<u8>>
    ensures { HasText result text.items }
{
    Writer::from_writer(text)
}

// Writes a record of these fields.
pub(crate) fn put_record(writer: &mut Writer<Vec<u8>>, fields: &[&[u8]]) -> Result<(), ReportFault>
    ensures { PutsRecord writer.old (map (λ f. f.now) fields.now) result writer.new }
{
    match writer.write_fields(fields) {
        Ok(()) => Ok(()),
        Err(_) => Err(ReportFault::NoMemory),
    }
}

// What was written.
pub(crate) fn text_of(writer: Writer<Vec<u8>>) -> Result<Vec<u8>, ReportFault>
    ensures { (text : List ℕ) → HasText writer text → IfOk result (λ whole. whole.items ≡ text) }
{
    match writer.into_inner() {
        Ok(text) => Ok(text),
        Err(_) => Err(ReportFault::NoMemory),
    }
}
