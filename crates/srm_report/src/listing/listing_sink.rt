//! A table that lists rows, written as they come.
ghost use Rattle.std.specs.Prelude.{◌≡◌, ◌<◌, ◌+◌, ◌-◌, ◌^◌, ◌≤◌, ◌==◌, ◌||◌, ◌++◌, List, [], false, true, IsTrue, is_ok, not, if◌then◌else◌, length, IfOk, OnOk};
ghost use Rattle.srm_member.specs.declared.row.Row.{Row as R};
ghost use Rattle.srm_interfaces.specs.Grouped.{sizes};
ghost use Rattle.srm_interfaces.specs.Sinks.{stops_in};
ghost use Rattle.srm_report.specs.KeptLines.{AreLinesOf, parts_text};
ghost use Rattle.srm_report.specs.Standings.{lead, text_next, after_answer, TakesText};

use crate::listing::in_order::put_in_order;
use crate::listing::lines::Lines;
use crate::listing::standing::Standing;
use crate::listing::tick_part::TickPart;
use crate::listing::{Listing, put_lines};
use crate::outlet::Outlet;
use crate::writing::{WriteFault, write_out};
use srm_interfaces::kept_sink::KeptSink;
use srm_interfaces::sink::{RowSink, SinkFault};
use srm_member::row::Row;
use std::alloc::{AllocError, Global};

// How long a text may get to which parts are put, before it is written. Each write is a call of the system.
const SHORT: usize = 65_536;

/// Writes a table that lists rows, such as a trace, to an outlet as the rows come, with the header before the first of them. Short
/// pieces may be gathered before they are written, but not the header and the first rows, so that a long run is seen to go. `flush`
/// writes what is left at the end.
#[derive(Drop)]
pub struct ListingSink<'a, L, O> {
    // Which table.
    listing: L,
    outlet: &'a mut O,
    // What is still to be written, and how long that may be.
    gathered: Vec<u8>,
    room: usize,
    // Whether it was given rows: the first of them are not gathered.
    has_begun: bool,
    // How many bytes the outlet took, up to 2^64 - 1.
    written: u64,
    standing: Standing,
    // No more is gathered than there is room for.
    pub ghost within: { length gathered.items ≤ room },
}

// What comes before the rows that a sink takes next.
fn lead_of<L: Listing>(standing: Standing) -> &'static [u8]
    ensures { result.now ≡ lead L.form standing }
{
    match standing {
        Standing::Fresh => L::header(),
        Standing::Live | Standing::NoMemory | Standing::Stopped => &[],
    }
}

// Puts the text of the rows that a sink takes next behind a text.
fn put_next<L: Listing>(
    text: &mut Vec<u8>,
    standing: Standing,
    rows: &[Row],
) -> Result<(), AllocError>
    ensures { OnOk result (text.new.items ≡ text.old.items ++ text_next L.form standing rows.now) }
{
    text.extend_from_slice(lead_of::<L>(standing))?;
    put_lines::<L>(text, rows)
}

// Puts a part behind a text if there is room, and tells whether it did.
fn is_put(text: &mut Vec<u8>, part: &[u8]) -> bool
    ensures { text.new.items ≡ (if result then text.old.items ++ part.now else text.old.items) }
{
    if text.len() + part.len() > SHORT {
        return false;
    }
    text.extend_from_slice(part).is_ok()
}

// Where a sink stands after this answer.
fn standing_after(answer: &Result<(), SinkFault>) -> Standing
    ensures { result ≡ after_answer answer.now }
{
    match answer {
        Ok(()) => Standing::Live,
        Err(SinkFault::NoMemory) => Standing::NoMemory,
        Err(SinkFault::Stopped { .. }) => Standing::Stopped,
    }
}

// Writes a text, and counts the bytes of it that were taken. A fault tells how many were in all.
fn write<O: Outlet>(outlet: &mut O, written: &mut u64, text: &[u8]) -> Result<(), SinkFault>
    requires { O.failures outlet.old < 2 ^ 64 - 1 }
    ensures failures { O.failures outlet.new ≡ O.failures outlet.old + stops_in result }
    ensures taken { TakesText O.taken outlet.old written.old text.now result outlet.new written.new [] }
{
    match write_out(outlet, text) {
        Ok(()) => {
            *written = written.saturating_add(text.len() as u64);
            Ok(())
        }
        Err(fault) => {
            *written = written.saturating_add(fault.written);
            Err(SinkFault::Stopped { written: *written })
        }
    }
}

// The same of a text and a part after it. The text is empty then.
fn write_both<O: Outlet>(
    outlet: &mut O,
    written: &mut u64,
    text: &mut Vec<u8>,
    part: &[u8],
) -> Result<(), SinkFault>
    requires { O.failures outlet.old < 2 ^ 64 - 1 }
    ensures failures { O.failures outlet.new ≡ O.failures outlet.old + stops_in result }
    ensures taken { TakesText O.taken outlet.old written.old (text.old.items ++ part.now) result outlet.new written.new
        text.new.items }
    ensures empty { text.new.items ≡ [] }
{
    let answer = write(outlet, written, text.as_slice());
    text.clear();
    match answer {
        Ok(()) => write(outlet, written, part),
        Err(fault) => Err(fault),
    }
}

// Puts parts behind a text, and writes it with each part for which it has no room. Tells whether nothing was written. After a fault
// the text is empty.
fn put_each<O: Outlet>(
    outlet: &mut O,
    written: &mut u64,
    text: &mut Vec<u8>,
    parts: &[TickPart],
) -> Result<bool, SinkFault>
    requires { O.failures outlet.old < 2 ^ 64 - 1 }
    ensures failures { O.failures outlet.new ≡ O.failures outlet.old + stops_in result }
    ensures taken { TakesText O.taken outlet.old written.old (text.old.items ++ parts_text parts.now) result outlet.new
        written.new text.new.items }
    ensures whole { IfOk result (λ is_whole. IsTrue is_whole → text.new.items ≡ text.old.items ++ parts_text parts.now) }
{
    let mut is_whole = true;
    for part in parts {
        if is_put(text, part.text) {
            continue;
        }
        is_whole = false;
        match write_both(outlet, written, text, part.text) {
            Ok(()) => {}
            Err(fault) => return Err(fault),
        }
    }
    Ok(is_whole)
}

impl<'a, L: Listing, O: Outlet> ListingSink<'a, L, O> {
    ghost use Rattle.srm_interfaces.specs.declared.sink.Stage.{Stage as AStage};
    ghost use Rattle.srm_interfaces.specs.Sinks.{IsOpen};
    ghost use Rattle.srm_report.specs.ListingSinks.{stage_of, standing_of, has_begun, outlet_under, gathered_by, gathering_room, written_by, AreOverOne, Answers, PutsText, Flushes};

    /// A sink of this table over this outlet, which took no rows yet. It writes each piece of the table as it comes. It does not
    /// allocate.
    pub fn over(alloc: Global, listing: L, outlet: &'a mut O) -> Self
        ensures outlet { result.outlet.ghost_name ≡ outlet.entry.ghost_name }
        ensures same { outlet_under result ≡ outlet.old }
        ensures stage { stage_of result ≡ AStage.Fresh }
        ensures gathered { gathered_by result ≡ [] }
        ensures room { gathering_room result ≡ 0 }
        ensures written { written_by result ≡ 0 }
        ensures begun { has_begun result ≡ false }
    {
        ListingSink::gathering(alloc, listing, outlet, 0)
    }

    /// The same, but once the first rows are written up to so many bytes are gathered before they are written.
    pub fn gathering(alloc: Global, listing: L, outlet: &'a mut O, room: usize) -> Self
        ensures outlet { result.outlet.ghost_name ≡ outlet.entry.ghost_name }
        ensures same { outlet_under result ≡ outlet.old }
        ensures stage { stage_of result ≡ AStage.Fresh }
        ensures gathered { gathered_by result ≡ [] }
        ensures room { gathering_room result ≡ room }
        ensures written { written_by result ≡ 0 }
        ensures begun { has_begun result ≡ false }
    {
        ListingSink {
            listing,
            outlet,
            gathered: Vec::new(alloc),
            room,
            has_begun: false,
            written: 0,
            standing: Standing::Fresh,
        }
    }

    /// Writes what is gathered.
    ///
    /// # Errors
    /// `WriteFault` exactly where the outlet failed in the call. The outlet has then taken a prefix of what was gathered, and its
    /// count of failures is one higher. The fault says how many bytes it took by this sink in all, up to 2^64 - 1. The sink
    /// stands refused, and may not be asked again.
    pub fn flush(&mut self) -> Result<(), WriteFault>
        requires open { IsOpen (stage_of self.old) }
        requires failures { O.failures (outlet_under self.old) < 2 ^ 64 - 1 }
        ensures outlet { AreOverOne self.old self.new }
        ensures failures { O.failures (outlet_under self.new)
            ≡ (if is_ok result then O.failures (outlet_under self.old) else O.failures (outlet_under self.old) + 1) }
        ensures flushed { Flushes O.taken self.old result self.new }
        ensures begun { has_begun self.new ≡ has_begun self.old }
    {
        match write_both(self.outlet, &mut self.written, &mut self.gathered, &[]) {
            Ok(()) => Ok(()),
            Err(_) => {
                self.standing = Standing::Stopped;
                let written = self.written;
                Err(WriteFault { written })
            }
        }
    }

    /// The outlet under the sink. What is still gathered is not written.
    pub fn into_outlet(self) -> &'a mut O
        ensures same_reference { result.ghost_name ≡ self.entry.outlet.ghost_name }
        ensures outlet { result.now ≡ outlet_under self.entry }
    {
        let ListingSink { outlet, .. } = self;
        outlet
    }

    // Puts the text of the rows that come next: gathers it, and writes all that is gathered where that is to be.
    fn put_rows(&mut self, rows: Vec<Row>) -> Result<(), SinkFault>
        requires failures { O.failures (outlet_under self.old) < 2 ^ 64 - 1 }
        ensures sink { Answers O.Outlet self.old result self.new }
        ensures text { PutsText O.taken self.old (text_next L.form (standing_of self.old) rows.items) result self.new }
    {
        let before = self.gathered.len();
        if put_next::<L>(&mut self.gathered, self.standing, rows.as_slice()).is_err() {
            self.gathered.truncate(before);
            return Err(SinkFault::NoMemory);
        }
        if self.has_begun && self.gathered.len() <= self.room {
            return Ok(());
        }
        write_both(self.outlet, &mut self.written, &mut self.gathered, &[])
    }

    // The same of rows of which these are the lines of all members.
    fn put_lines(&mut self, alloc: Global, groups: &[Vec<Lines>]) -> Result<(), SinkFault>
        requires failures { O.failures (outlet_under self.old) < 2 ^ 64 - 1 }
        ensures sink { Answers O.Outlet self.old result self.new }
        ensures text { (rows : List R) → AreLinesOf L.form rows groups.now
            → PutsText O.taken self.old (text_next L.form (standing_of self.old) rows) result self.new }
    {
        match put_in_order(alloc, lead_of::<L>(self.standing), groups) {
            Ok(parts) => self.put(parts.as_slice()),
            Err(_) => Err(SinkFault::NoMemory),
        }
    }

    // Puts a text in parts: gathers it where there is room, or writes it after what is gathered.
    fn put(&mut self, parts: &[TickPart]) -> Result<(), SinkFault>
        requires failures { O.failures (outlet_under self.old) < 2 ^ 64 - 1 }
        ensures sink { Answers O.Outlet self.old result self.new }
        ensures text { PutsText O.taken self.old (parts_text parts.now) result self.new }
    {
        let is_whole = put_each(self.outlet, &mut self.written, &mut self.gathered, parts)?;
        if is_whole && self.has_begun && self.gathered.len() <= self.room {
            return Ok(());
        }
        write_both(self.outlet, &mut self.written, &mut self.gathered, &[])
    }
}

impl<'a, L: Listing, O: Outlet> RowSink for ListingSink<'a, L, O> {
    ghost use Rattle.std.specs.Prelude.{refl};
    ghost use Rattle.std.proofs.Common.{◌∙◌};
    ghost use Rattle.std.specs.Prelude.{MatchResult};
    ghost use Rattle.srm_interfaces.specs.Sinks.{IsOpen, stage_after};
    ghost use Rattle.srm_report.specs.ListingSinks.{stage_of, standing_of, has_begun, outlet_under, AreOverOne, Gathers, LeavesOutlet, PutsRows, PutsPart};
    ghost use Rattle.srm_report.specs.SinkLaws.{one_self, over_one_more, rows_none, rows_more, part_none, part_more, part_longer};

    ghost stage = { stage_of };

    ghost failures = { λ s. O.failures (outlet_under s) };

    ghost same = { AreOverOne };

    ghost took = { PutsRows O.taken L.form };

    ghost part = { PutsPart O.taken L.form };

    ghost same_self = { one_self };

    ghost same_more = { over_one_more };

    ghost took_none = { rows_none O.taken L.form };

    ghost took_more = { rows_more O.taken L.form };

    ghost part_none = { part_none O.taken L.form };

    ghost part_more = { part_more O.taken L.form };

    ghost part_longer = { part_longer O.taken L.form };

    /// Writes the rows after those before, or gathers them. The first call puts the header before its rows, also where it has
    /// none. Where it answers `Ok`, it wrote all that was gathered, and these rows; or it wrote nothing, and gathers these rows
    /// too, which is so only of a sink that was given rows before.
    ///
    /// # Errors
    /// `Stopped` exactly where the outlet failed, with how many bytes it took by this sink in all, the header's too, up to 2^64 -
    /// 1. `NoMemory`: then the outlet took nothing in this call.
    fn rows(&mut self, _alloc: Global, rows: Vec<Row>) -> Result<(), SinkFault>
        requires open { IsOpen (stage_of self.old) }
        requires failures { O.failures (outlet_under self.old) < 2 ^ 64 - 1 }
        ensures same { AreOverOne self.old self.new }
        ensures stage { stage_of self.new ≡ stage_after result }
        ensures failures { O.failures (outlet_under self.new) ≡ O.failures (outlet_under self.old) + stops_in result }
        ensures rows { MatchResult result (λ _. PutsRows O.taken L.form self.old rows.items self.new)
            (λ _. PutsPart O.taken L.form self.old rows.items self.new) }
        ensures left { LeavesOutlet self.old result self.new }
        ensures gathered { IfOk result (λ _. Gathers self.old (text_next L.form (standing_of self.old) rows.items) self.new) }
        ensures begun { has_begun self.new ≡ (has_begun self.old || not (length rows.items == 0)) }
    {
        let has_rows = !rows.is_empty();
        let answer = self.put_rows(rows);
        self.has_begun = self.has_begun || has_rows;
        self.standing = standing_after(&answer);
        answer
    }
}

impl<'a, L: Listing, O: Outlet> KeptSink<Lines> for ListingSink<'a, L, O> {
    ghost use Rattle.std.specs.Prelude.{MatchResult};
    ghost use Rattle.srm_interfaces.specs.Sinks.{IsOpen, stage_after};
    ghost use Rattle.srm_report.specs.ListingSinks.{stage_of, standing_of, has_begun, outlet_under, AreOverOne, Gathers, LeavesOutlet, PutsRows, PutsPart};

    ghost keeps = { λ groups rows. AreLinesOf L.form rows groups };

    /// Writes the lines of the rows that come next after those before, as `rows` does, of the lines of the members.
    fn kept(&mut self, alloc: Global, groups: &mut [Vec<Lines>]) -> Result<(), SinkFault>
        requires open { IsOpen (stage_of self.old) }
        requires failures { O.failures (outlet_under self.old) < 2 ^ 64 - 1 }
        ensures same { AreOverOne self.old self.new }
        ensures stage { stage_of self.new ≡ stage_after result }
        ensures failures { O.failures (outlet_under self.new) ≡ O.failures (outlet_under self.old) + stops_in result }
        ensures each { sizes groups.new ≡ sizes groups.old }
        ensures rows { (rows : List R) → AreLinesOf L.form rows groups.old
            → MatchResult result (λ _. PutsRows O.taken L.form self.old rows self.new)
            (λ _. PutsPart O.taken L.form self.old rows self.new) }
        ensures left { LeavesOutlet self.old result self.new }
        ensures gathered { (rows : List R) → AreLinesOf L.form rows groups.old
            → IfOk result (λ _. Gathers self.old (text_next L.form (standing_of self.old) rows) self.new) }
        ensures begun { has_begun self.new ≡ true }
    {
        let answer = self.put_lines(alloc, groups);
        self.has_begun = true;
        self.standing = standing_after(&answer);
        answer
    }
}
