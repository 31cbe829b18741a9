//! The jobs of a window whose rows are watched, and what comes of them.
ghost use Rattle.std.specs.Prelude.{◌≡◌, ◌≤◌, [], All, IfOk, length};
ghost use Rattle.srm_engine.specs.Groups.{all_in, sizes};
ghost use Rattle.srm_engine.specs.WatchedGroups.{time_at, watched_with, groups_in, kept_of, sent_of};

use crate::sent::add_runs;
use crate::soonest::Soonest;
use srm_cell::cell::Cell;
use srm_cell::sent::Sent;
use srm_interfaces::keeping::none_of;
use srm_interfaces::watch::Watch;
use srm_interfaces::watched::{WatchedDone, WatchedJob};
use srm_member::participant::Participant;
use std::alloc::{AllocError, Global};

/// What a watch keeps of no row, for each cell of the groups.
pub(crate) fn none_of_each<M: Participant, K: Drop, W: Watch<K>>(
    alloc: Global,
    watch: &W,
    groups: &[Vec<Cell<M>>],
) -> Result<Vec<Vec<K>>, AllocError>
    ensures each { IfOk result (λ kept. sizes kept.items ≡ sizes groups.now) }
    ensures none { IfOk result (λ kept. All (λ k. W.keeps watch.now k []) (all_in kept.items)) }
{
    let mut kept = Vec::with_capacity(alloc, groups.len())?;
    for group in groups {
        let own = none_of(alloc, watch, group.len())?;
        kept.push(own)?;
    }
    Ok(kept)
}

/// Makes what is kept of each cell of the groups what the watch keeps of no row.
pub(crate) fn clear_each<K, W: Watch<K>>(watch: &W, groups: &mut [Vec<K>])
    ensures each { sizes groups.new ≡ sizes groups.old }
    ensures none { All (λ k. W.keeps watch.now k []) (all_in groups.new) }
{
    for group in groups.iter_mut() {
        clear_group(watch, group.as_mut_slice());
    }
}

// The same of the cells of one group.
fn clear_group<K, W: Watch<K>>(watch: &W, group: &mut [K])
    ensures many { length group.new ≡ length group.old }
    ensures none { All (λ k. W.keeps watch.now k []) group.new }
{
    for own in group.iter_mut() {
        watch.clear(own);
    }
}

/// The jobs of a window, one for each group, with what is kept of its cells. Something is due in each group so soon.
pub(crate) fn watched_jobs<M: Participant, K: Drop>(
    alloc: Global,
    groups: Vec<Vec<Cell<M>>>,
    kept: Vec<Vec<K>>,
    soon: &[Soonest],
    till: u64,
) -> Result<Vec<WatchedJob<M, K>>, AllocError>
    requires { length groups.items ≤ length soon.now }
    ensures { IfOk result (λ jobs. jobs.items ≡ watched_with (time_at soon.now) till 0 groups.items kept.items) }
{
    let mut jobs = Vec::with_capacity(alloc, groups.len())?;
    for (cells, own) in groups.into_iter().zip(kept) {
        let place = jobs.len();
        jobs.push(WatchedJob {
            place,
            till,
            soon: soon[place].time,
            cells,
            kept: own,
        })?;
    }
    Ok(jobs)
}

/// What is done of each job, taken apart: the groups, what is kept of their cells, and all that was sent, in lists
/// that stand in order.
pub(crate) fn taken_apart<M: Participant, K: Drop>(
    alloc: Global,
    all: Vec<WatchedDone<M, K>>,
) -> Result<(Vec<Vec<Cell<M>>>, Vec<Vec<K>>, Vec<Vec<Sent>>), AllocError>
    ensures groups { IfOk result (λ r. r.0.items ≡ groups_in all.items) }
    ensures kept { IfOk result (λ r. r.1.items ≡ kept_of all.items) }
    ensures sent { IfOk result (λ r. all_in r.2.items ≡ all_in (sent_of all.items)) }
{
    let mut groups = Vec::with_capacity(alloc, all.len())?;
    let mut each = Vec::with_capacity(alloc, all.len())?;
    let mut sent = Vec::new(alloc);
    for done in all {
        let WatchedDone {
            cells,
            kept,
            sent: own,
            ..
        } = done;
        groups.push(cells)?;
        each.push(kept)?;
        add_runs(alloc, own, &mut sent)?;
    }
    Ok((groups, each, sent))
}

/// All that is kept, in one vector.
pub(crate) fn in_one<K: Drop>(alloc: Global, each: Vec<Vec<K>>) -> Result<Vec<K>, AllocError>
    ensures { IfOk result (λ all. all.items ≡ all_in each.items) }
{
    let mut all = Vec::new(alloc);
    for own in each {
        let mut own = own;
        all.append(&mut own)?;
    }
    Ok(all)
}
