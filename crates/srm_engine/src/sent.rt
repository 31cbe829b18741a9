//! What was sent, in order.
ghost use Rattle.std.specs.Prelude.{◌≡◌, ◌++◌, IfOk, IsPermutation, OnOk};
ghost use Rattle.srm_interfaces.specs.Grouped.{all_in};

use crate::in_turn::in_turn;
use srm_cell::sent::Sent;
use std::alloc::{AllocError, Global};

/// What was sent, in lists that stand in order: all of it by the time of sending, and then by sender and count.
///
/// So most packets come to each member in order of their arrivals, which an inbox takes at the end of its line. No promise stands
/// on the order.
pub(crate) fn sent_in_turn(alloc: Global, lists: Vec<Vec<Sent>>) -> Result<Vec<Sent>, AllocError>
    ensures { IfOk result (λ all. IsPermutation (all_in lists.items) all.items) }
{
    in_turn(alloc, lists, |a: &Sent, b: &Sent| -> bool {
        comes_first(a, b)
    })
}

/// Puts what was sent in a job, member after member, behind lists that stand in order, in more of them: a new one begins where a
/// packet comes before the last one.
pub(crate) fn add_runs(
    alloc: Global,
    sent: Vec<Sent>,
    lists: &mut Vec<Vec<Sent>>,
) -> Result<(), AllocError>
    ensures { OnOk result (all_in lists.new.items ≡ all_in lists.old.items ++ sent.items) }
{
    if sent.is_empty() {
        return Ok(());
    }
    let mut run: Vec<Sent> = Vec::new(alloc);
    for one in sent {
        let ends = match run.last() {
            Some(last) => comes_first(&one, last),
            None => false,
        };
        if ends {
            lists.push(run)?;
            run = Vec::new(alloc);
        }
        run.push(one)?;
    }
    if !run.is_empty() {
        lists.push(run)?;
    }
    Ok(())
}

// Whether a packet comes before another.
fn comes_first(a: &Sent, b: &Sent) -> bool {
    (a.packet.sent, a.packet.id) < (b.packet.sent, b.packet.id)
}
