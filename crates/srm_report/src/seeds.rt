//! The rows of a table behind the seed of their run.
ghost use Rattle.std.specs.Prelude.{◌≡◌, ◌+◌, ◌<◌, ◌≤◌, ◌++◌, ◌∷◌, ℕ, List, drop, length, decimal, IfOk, OnOk};
ghost use Rattle.csv.specs.Machine.{line_feed};
ghost use Rattle.csv.specs.Writing.{comma, default_writer, row_text};
ghost use Rattle.srm_report.specs.Seeds.{with_seed, IsLine, AreLines};
ghost use Rattle.srm_report.specs.Tables.{lines_of, table_lines};

use crate::fault::ReportFault;
use itoa::Buffer;
use memchr::memchr;
use std::alloc::{AllocError, Global};

/// The lines of a table's rows, without that of its columns, each with the seed of the run in front. No field of the table calls
/// for quotes.
///
/// # Errors
/// `NoMemory`.
pub fn seeded_lines(alloc: Global, seed: u64, table: &[u8]) -> Result<Vec<u8>, ReportFault>
    ensures { (columns : List (List ℕ)) (rows : List (List (List ℕ))) → IsLine columns → AreLines rows
        → table.now ≡ table_lines columns rows → IfOk result (λ text. text.items ≡ lines_of (with_seed seed rows)) }
{
    let mut digits = Buffer::new();
    let digits = digits.format(seed).as_bytes();
    let mut text = Vec::new(alloc);
    let mut start = end_of_line(table, 0);
    while start < table.len() {
        let end = end_of_line(table, start);
        put_line(&mut text, digits, &table[start..end])?;
        start = end;
    }
    Ok(text)
}

// Appends a line behind these digits and a comma.
fn put_line(text: &mut Vec<u8>, digits: &[u8], line: &[u8]) -> Result<(), AllocError>
    ensures { OnOk result (text.new.items ≡ text.old.items ++ (digits.now ++ comma ∷ line.now)) }
{
    text.extend_from_slice(digits)?;
    text.push(b',')?;
    text.extend_from_slice(line)?;
    Ok(())
}

// Where the line ends that begins here: behind its line feed, or at the end of the text.
fn end_of_line(text: &[u8], start: usize) -> usize
    requires { start ≤ length text.now }
    ensures within { result ≤ length text.now }
    ensures further { start < length text.now → start < result }
    ensures line { (fields : List (List ℕ)) (rest : List ℕ) → IsLine fields → drop start text.now ≡ row_text default_writer fields ++ rest
        → result ≡ start + length (row_text default_writer fields) }
{
    match memchr(b'\n', &text[start..]) {
        Some(at) => start + at + 1,
        None => text.len(),
    }
}

/// A law: the line of a row with a seed in front is the seed in digits, a comma, and the line of the row.
pub fn seeded_row(_seed: u64)
    ensures { (fields : List (List ℕ)) → IsLine fields
        → row_text default_writer (decimal _seed ∷ fields) ≡ decimal _seed ++ comma ∷ row_text default_writer fields }
{}
