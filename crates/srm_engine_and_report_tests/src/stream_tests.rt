//! Runs whose rows are written as they come: how far such a run is when the first one is.
ghost use Rattle.srm_interfaces.specs.Sinks.{IsReady};

use crate::opening::{members_of, opened};
use srm_crew::plain::PlainCrew;
use srm_engine::step_stream::step_stream;
use srm_engine::stream_fault::StreamFault;
use srm_engine::width::{Width, Windows};
use srm_engine::window_stream::window_stream;
use srm_examples::scenarios::CHAIN_OF_FIVE_ONE_LOSS;
use srm_examples::watched::MemberWatch;
use srm_interfaces::sink::RowSink;
use srm_report::listing::listing_sink::ListingSink;
use srm_report::listing::trace::TraceListing;
use srm_report::outlet::WriteOutlet;
use std::alloc::{AllocError, Global};
use std::io;
use std::io::Write;
use std::process::Abort;
use std::sync::Arc;
use std::sync::atomic::{AtomicU64, Ordering};

// Runs the watched members of a scenario's text, in windows or else in the sequential run. Why the run was refused, if it was.
fn stream_text<S: RowSink>(
    rt: &impl Abort,
    alloc: Global,
    text: &str,
    watch: &mut MemberWatch,
    asked: Option<Windows>,
    sink: &mut S,
) -> Result<Option<StreamFault>, AllocError>
    requires sink { IsReady (S.stage sink.old) (S.failures sink.old) }
{
    let (scenario, net) = opened(rt, alloc, text)?;
    let members = members_of(alloc, &scenario, &net, watch)?;
    let mut crew = PlainCrew::new();
    let fault = match asked {
        Some(windows) => {
            window_stream(alloc, &scenario, &net, members, &mut crew, windows, sink).err()
        }
        None => step_stream(alloc, &scenario, &net, members, sink).err(),
    };
    Ok(fault)
}

/// Takes all bytes, and notes a shared number when the first byte after so many comes.
#[derive(Drop)]
struct Noting {
    number: Arc<AtomicU64>,
    left: usize,
    noted: Option<u64>,
}

impl Write for Noting {
    fn write(&mut self, piece: &[u8]) -> io::Result<usize> {
        if piece.len() > self.left && self.noted.is_none() {
            self.noted = Some(self.number.load(Ordering::SeqCst));
        }
        self.left = self.left.saturating_sub(piece.len());
        Ok(piece.len())
    }

    fn flush(&mut self) -> io::Result<()> {
        Ok(())
    }
}

const HEADER: &str = "time,member,cause,ref,result,lost,sent\n";

// How often members had reacted when the first row of a run's trace was written, and when the run had ended.
fn reacts_of_run(
    rt: &impl Abort,
    alloc: Global,
    text: &str,
    asked: Option<Windows>,
) -> Result<(Option<u64>, u64), AllocError> {
    let mut watch = MemberWatch::new(alloc)?;
    let reacts = watch.reacts()?;
    let mut outlet = WriteOutlet::new(Noting {
        number: watch.reacts()?,
        left: HEADER.len(),
        noted: None,
    });
    let mut sink = ListingSink::over(alloc, TraceListing, &mut outlet);
    let fault = stream_text(rt, alloc, text, &mut watch, asked, &mut sink)?;
    assert_eq!(rt; fault, None);
    drop(sink);
    Ok((outlet.into_inner().noted, reacts.load(Ordering::SeqCst)))
}

// At tick 0 five members join, and the sender draws; the whole run has 22 events.
#[test]
fn rows_are_written_before_later_windows_are_run(rt: HostRuntime) -> Result<(), AllocError> {
    let ticks = Windows {
        cut: 64,
        width: Width::Ticks(1),
    };
    let reacts = reacts_of_run(&rt, rt.alloc(), CHAIN_OF_FIVE_ONE_LOSS, Some(ticks))?;
    assert_eq!(rt; reacts, (Some(6), 22));
    Ok(())
}

// A sender that draws at each of twenty ticks, and two listeners a tick from it.
const TWENTY_DRAWS: &str = r#"version = 1
until = 30
c1 = 0
c2 = 0
d1 = 0
d2 = 0
nodes = 3
link = [
  { a = 0, b = 1, delay = 1 },
  { a = 0, b = 2, delay = 1 },
]
member = [
  { node = 0, role = "sender", stream = 1 },
  { node = 1, role = "listener", stream = 2 },
  { node = 2, role = "listener", stream = 3 },
]
draw = [
  { member = 0, page = 0, ink = 7, at = 0 },
  { member = 0, page = 0, ink = 7, at = 1 },
  { member = 0, page = 0, ink = 7, at = 2 },
  { member = 0, page = 0, ink = 7, at = 3 },
  { member = 0, page = 0, ink = 7, at = 4 },
  { member = 0, page = 0, ink = 7, at = 5 },
  { member = 0, page = 0, ink = 7, at = 6 },
  { member = 0, page = 0, ink = 7, at = 7 },
  { member = 0, page = 0, ink = 7, at = 8 },
  { member = 0, page = 0, ink = 7, at = 9 },
  { member = 0, page = 0, ink = 7, at = 10 },
  { member = 0, page = 0, ink = 7, at = 11 },
  { member = 0, page = 0, ink = 7, at = 12 },
  { member = 0, page = 0, ink = 7, at = 13 },
  { member = 0, page = 0, ink = 7, at = 14 },
  { member = 0, page = 0, ink = 7, at = 15 },
  { member = 0, page = 0, ink = 7, at = 16 },
  { member = 0, page = 0, ink = 7, at = 17 },
  { member = 0, page = 0, ink = 7, at = 18 },
  { member = 0, page = 0, ink = 7, at = 19 },
]
"#;

// The first 32 rows are written together: three joins, eleven draws, and the arrivals of nine packets at two members. The whole
// run has three joins, twenty draws, and forty arrivals.
#[test]
fn rows_are_written_before_later_events_are_handled(rt: HostRuntime) -> Result<(), AllocError> {
    let reacts = reacts_of_run(&rt, rt.alloc(), TWENTY_DRAWS, None)?;
    assert_eq!(rt; reacts, (Some(32), 63));
    Ok(())
}
