//! A trace that is written as its rows come.
ghost use Rattle.std.specs.Prelude.{◌<◌, ◌-◌, ◌^◌};
ghost use Rattle.srm_interfaces.specs.Sinks.{IsOpen};
ghost use Rattle.srm_report.specs.ListingSinks.{stage_of, outlet_under};

use crate::outlet_tests::{Refusal, RefusesOnce};
use srm_interfaces::sink::{RowSink, SinkFault};
use srm_member::adapted::Adapted;
use srm_member::row::{About, Row, Word};
use srm_member::told::Told;
use srm_net::key::Key;
use srm_net::rank::Rank;
use srm_net::sequence::Sequence;
use srm_report::listing::listing_sink::ListingSink;
use srm_report::listing::trace::TraceListing;
use srm_report::outlet::{Outlet, WriteOutlet};
use srm_report::writing::{WriteFault, write_out};
use std::alloc::{AllocError, Global};
use std::io;
use std::io::Write;
use std::process::Abort;

const TEXT: &[u8] =
    b"time,member,cause,ref,result,lost,sent\n0,0,join,-,in,0,-\n3,1,leave,-,out,0,-\n";

// The row of a member that joins or leaves.
fn row_of(alloc: Global, time: u64, member: u16, cause: Word, told: Told) -> Row {
    Row {
        key: Key {
            time,
            member,
            rank: Rank::Join,
            a: 0,
            b: 0,
            c: 0,
        },
        cause,
        about: About::Nothing,
        told,
        lost: Sequence::new(alloc),
        sent: None,
        adapted: Adapted::nothing(),
    }
}

// A list of one item.
fn one<T: Drop>(alloc: Global, item: T) -> Result<Vec<T>, AllocError> {
    let mut items = Vec::new(alloc);
    items.push(item)?;
    Ok(items)
}

// What a sink is handed, call by call: no rows, one row, and another.
fn calls(alloc: Global) -> Result<Vec<Vec<Row>>, AllocError> {
    let join = row_of(alloc, 0, 0, Word::Join, Told::Entered);
    let leave = row_of(alloc, 3, 1, Word::Leave, Told::Parted);
    let mut calls = one(alloc, Vec::new(alloc))?;
    calls.push(one(alloc, join)?)?;
    calls.push(one(alloc, leave)?)?;
    Ok(calls)
}

// Hands a sink the rows of these calls, and may flush it. What the first fault tells, if there is one.
fn written<O: Outlet>(
    alloc: Global,
    sink: ListingSink<TraceListing, O>,
    calls: Vec<Vec<Row>>,
    flushes: bool,
) -> Result<Option<u64>, AllocError>
    requires open { IsOpen (stage_of sink) }
    requires failures { O.failures (outlet_under sink) < 2 ^ 64 - 1 }
{
    let mut sink = sink;
    for rows in calls {
        match sink.rows(alloc, rows) {
            Ok(()) => {}
            Err(SinkFault::NoMemory) => return Err(AllocError),
            Err(SinkFault::Stopped { written }) => return Ok(Some(written)),
        }
    }
    if flushes && let Err(WriteFault { written }) = sink.flush() {
        return Ok(Some(written));
    }
    Ok(None)
}

// What an outlet took of these calls, where up to 1,000 bytes may be gathered, and what the first fault told.
fn written_to(
    alloc: Global,
    calls: Vec<Vec<Row>>,
    flushes: bool,
) -> Result<(Vec<u8>, Option<u64>), AllocError> {
    let writer = RefusesOnce::new(alloc, usize::MAX, Refusal::TakesNothing);
    let mut outlet = WriteOutlet::new(writer);
    let sink = ListingSink::gathering(alloc, TraceListing, &mut outlet, 1_000);
    let told = written(alloc, sink, calls, flushes)?;
    Ok((outlet.into_inner().taken, told))
}

// The header and the first rows are written at once, so that a run is seen to go; the rest is gathered.
#[test]
fn only_what_comes_after_the_first_rows_is_gathered(rt: HostRuntime) -> Result<(), AllocError> {
    for (handed, flushes, bytes) in [
        (1, false, 39),
        (2, false, 57),
        (3, false, 57),
        (3, true, TEXT.len()),
    ] {
        let mut calls = calls(rt.alloc())?;
        calls.truncate(handed);
        let (taken, told) = written_to(rt.alloc(), calls, flushes)?;
        assert_eq!(rt;
            (Some(taken.as_slice()), told),
            (TEXT.get(..bytes), None),
            "after {handed} calls"
        );
    }
    Ok(())
}

// Takes all bytes, and counts the writes and the bytes.
#[derive(Drop)]
struct Counting {
    writes: u64,
    bytes: usize,
}

impl Write for Counting {
    fn write(&mut self, piece: &[u8]) -> io::Result<usize> {
        self.writes = self.writes.saturating_add(1);
        self.bytes = self.bytes.saturating_add(piece.len());
        Ok(piece.len())
    }

    fn flush(&mut self) -> io::Result<()> {
        Ok(())
    }
}

// A writer that takes all that it is given is asked once.
#[test]
fn a_text_is_written_at_once(rt: HostRuntime) {
    let mut outlet = WriteOutlet::new(Counting {
        writes: 0,
        bytes: 0,
    });
    assert_eq!(rt; write_out(&mut outlet, TEXT), Ok(()));
    let Counting { writes, bytes } = outlet.into_inner();
    assert_eq!(rt; (writes, bytes), (1, TEXT.len()));
}
