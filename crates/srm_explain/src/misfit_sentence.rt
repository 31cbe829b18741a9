//! What is said of a rule that an element breaks beside the rest of a scenario.
ghost use Rattle.std.specs.Prelude.{◌≡◌, IfOk, string_bytes};
ghost use Rattle.srm_explain.specs.Misfits.{misfit_sentence};

use crate::misfit::Misfit;
use std::alloc::{AllocError, Global};

/// What is said of a rule that is broken.
///
/// # Errors
/// Memory ran out.
pub(crate) fn misfit_sentence(alloc: Global, misfit: Misfit) -> Result<String, AllocError>
    ensures { IfOk result (λ s. string_bytes s ≡ misfit_sentence misfit) }
{
    match misfit {
        Misfit::NoNode { nodes } => {
            format!(in alloc; "there is no such node: {nodes} in all, numbered from 0")
        }
        Misfit::NoLink { links } => {
            format!(in alloc; "there is no such link: {links} in all, numbered from 0")
        }
        Misfit::NoMember { members } => {
            format!(in alloc; "there is no such member: {members} in all, numbered from 0")
        }
        Misfit::OnHub => {
            String::from_str(
                alloc,
                "node 0 is the hub of the star, on which no member may be",
            )
        }
        Misfit::Taken { earlier } => format!(in alloc;
            "member {earlier} is on this node, and each member has one of its own"
        ),
        Misfit::JoinsAfterEnd { until } => {
            format!(in alloc; "a member joins before the run is over, and until is {until}")
        }
        Misfit::LeavesBeforeJoin { join } => {
            format!(in alloc; "a member leaves after it joins, which is at {join}")
        }
        Misfit::NotLate => {
            String::from_str(
                alloc,
                "pages are given for a member with role \"late\" alone",
            )
        }
        Misfit::NeverAsks => {
            String::from_str(alloc, "this member is a listener, which sends no requests")
        }
        Misfit::NotSender => { String::from_str(alloc, "only a member with role \"sender\" draws") }
        Misfit::IsListener => {
            String::from_str(
                alloc,
                "this member is a listener, which sends no session messages",
            )
        }
        Misfit::BeforeJoin { join } => {
            format!(in alloc; "its member is not there yet: it joins at {join}")
        }
        Misfit::AfterLeave { leave } => {
            format!(in alloc; "its member is there no more: it leaves at {leave}")
        }
        Misfit::AfterEnd { until } => {
            format!(in alloc; "the run is over by then: until is {until}")
        }
        Misfit::EndsEarly { from } => {
            format!(in alloc; "an outage ends after it begins, which is at {from}")
        }
        Misfit::StopsEarly { from } => {
            format!(in alloc; "a loss ends after it begins, which is at {from}")
        }
    }
}
