//! Jobs whose cells' rows are watched, and what is done of them.
ghost use Rattle.std.specs.Prelude.{◌≡◌, ◌++◌, All, IfOk, OnOk, length};
ghost use Rattle.srm_cell.specs.Crossings.{joined, packets_of};
ghost use Rattle.srm_cell.specs.Hearing.{IsSent, packets_in};
ghost use Rattle.srm_cell.specs.Totalled.{IsSentBelow};
ghost use Rattle.srm_interfaces.specs.Watches.{KeepEach};

use crate::watch::Watch;
use srm_cell::cell::Cell;
use srm_cell::crossings::Crossings;
use srm_cell::job::Done;
use srm_cell::sent::Sent;
use srm_member::participant::Participant;
use srm_member::row::Row;
use srm_net::sequence::Sequence;
use srm_scenario::session::Session;
use std::alloc::{AllocError, Global};

/// A job, with what is kept of each cell's rows so far.
#[derive(Drop)]
pub struct WatchedJob<M, K> {
    /// Its place among the jobs that are done together.
    pub place: usize,
    /// The tick before which the cells handle their own events.
    pub till: u64,
    /// A tick before which nothing is due in any of the cells.
    pub soon: u64,
    /// The cells.
    pub cells: Vec<Cell<M>>,
    /// What is kept of the rows of each cell.
    pub kept: Vec<K>,
}

/// What is done of it. The rows are gone.
#[derive(Drop)]
pub struct WatchedDone<M, K> {
    /// The place of the job.
    pub place: usize,
    /// The cells, in the order in which they stood in the job.
    pub cells: Vec<Cell<M>>,
    /// What is kept of the rows of each cell, those of this job too.
    pub kept: Vec<K>,
    /// The packets that were sent in them, in order, each with its spread.
    pub sent: Vec<Sent>,
    /// The crossings of all these rows.
    pub crossings: Crossings,
}

impl<M: Participant, K: Drop> WatchedDone<M, K> {
    ghost use Rattle.srm_interfaces.specs.Watches.{KeepClosed, Watches};

    /// What is left of what is done of a job once a watch, which kept this of each cell's rows before, has seen the rows,
    /// and closed what it keeps.
    ///
    /// # Errors
    /// [`AllocError`]: the cells are gone.
    pub fn of<W: Watch<K>>(
        alloc: Global,
        session: Session,
        watch: &W,
        kept: Vec<K>,
        done: Done<M>,
    ) -> Result<Self, AllocError>
        requires many { length done.rows.items ≡ length kept.items }
        requires sent { All (λ rows. All (λ r. IsSentBelow (length session.scenario.now.members) r.sent) rows) done.rows.items }
        ensures { IfOk result (λ e. Watches (KeepClosed (W.keeps watch.now) (W.closes watch.now)) session.entry.scenario.now
            session.entry.net.now kept.items done e) }
    {
        let Done {
            place,
            cells,
            rows,
            crossings,
        } = done;
        let mut kept = kept;
        keep_each(watch, kept.as_mut_slice(), rows.as_slice())?;
        watch.close(kept.as_mut_slice())?;
        let sent = sent_in(alloc, session, rows.as_slice())?;
        Ok(WatchedDone {
            place,
            cells,
            kept,
            sent,
            crossings,
        })
    }
}

// The watch takes in each cell's rows.
fn keep_each<K, W: Watch<K>>(
    watch: &W,
    kept: &mut [K],
    lists: &[Sequence<Row>],
) -> Result<(), AllocError>
    requires { length lists.now ≡ length kept.old }
    ensures long { length kept.new ≡ length kept.old }
    ensures kept { OnOk result (KeepEach (W.keeps watch.now) kept.old lists.now kept.new) }
{
    let mut index = 0;
    for own in kept.iter_mut() {
        watch.add(own, lists[index].as_slice())?;
        index += 1;
    }
    Ok(())
}

// The packets of the lists' rows, in their order, each with its spread.
fn sent_in(
    alloc: Global,
    session: Session,
    lists: &[Sequence<Row>],
) -> Result<Vec<Sent>, AllocError>
    requires sent { All (λ rows. All (λ r. IsSentBelow (length session.scenario.now.members) r.sent) rows) lists.now }
    ensures packets { IfOk result (λ all. packets_in all.items ≡ packets_of (joined lists.now)) }
    ensures sent { IfOk result (λ all. All (λ x. IsSent session.entry.scenario.now session.entry.net.now x) all.items) }
{
    let mut all = Vec::new(alloc);
    for rows in lists {
        add_sent(alloc, session, rows.as_slice(), &mut all)?;
    }
    Ok(all)
}

/// Adds the packets of the rows, in their order, each with its spread.
///
/// # Errors
/// [`AllocError`]: nothing is known of what was there then.
pub fn add_sent(
    alloc: Global,
    session: Session,
    rows: &[Row],
    all: &mut Vec<Sent>,
) -> Result<(), AllocError>
    requires sent { All (λ r. IsSentBelow (length session.scenario.now.members) r.sent) rows.now }
    requires before { All (λ x. IsSent session.scenario.now session.net.now x) all.old.items }
    ensures packets { IfOk result (λ _. packets_in all.new.items ≡ packets_in all.old.items ++ packets_of rows.now) }
    ensures sent { IfOk result (λ _. All (λ x. IsSent session.entry.scenario.now session.entry.net.now x) all.new.items) }
{
    for row in rows {
        if let Some(packet) = &row.sent {
            let sent = Sent::of(alloc, session, packet)?;
            all.push(sent)?;
        }
    }
    Ok(())
}
