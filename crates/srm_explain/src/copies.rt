//! Which copies of the elements of a text the elements of a scenario are.
ghost use Rattle.std.specs.Prelude.{◌≡◌, IfOk, IfSome, map, string_bytes};
ghost use Rattle.toml.specs.View.{view};
ghost use Rattle.srm_scenario.specs.declared.fault.ScenarioFault.TheVariants.{BadMember, BadDraw, BadSession, BadDrop, BadOutage, BadLoss};
ghost use Rattle.srm_explain.specs.Copies.{copy_sentence, draw_numbers, drop_numbers, loss_numbers, member_numbers, outage_numbers, session_numbers, IsCopied, TellsNumbers};

use crate::element::element;
use srm_net::link::{DropSpec, LossSpec, OutageSpec};
use srm_scenario::draft::Draft;
use srm_scenario::entry::MemberEntry;
use srm_scenario::fault::ScenarioFault;
use srm_scenario::parts::{DrawSpec, SessionSpec};
use srm_scenario::table::times_repeated;
use std::alloc::{AllocError, Global};
use toml::Value;

/// Which copy of an element of a text an element of the scenario is.
#[derive(Clone, Copy)]
pub struct Copied {
    /// The place of the element in the text.
    pub written: usize,
    /// For how many it stands.
    pub times: u64,
    /// Which of those it is, counted from 0.
    pub copy: u64,
}

/// Which copy of which of these elements stands at a place of the list that they make, if one does.
pub(crate) fn copied_at(values: &[Value], place: usize) -> Option<Copied>
    ensures { IfSome result (IsCopied (map view values.now) place) }
{
    let mut left = place as u64;
    for (written, value) in values.iter().enumerate() {
        let times = times_repeated(value);
        if left < times {
            return Some(Copied {
                written,
                times,
                copy: left,
            });
        }
        left -= times;
    }
    None
}

/// What is said of a copy that has these numbers.
///
/// # Errors
/// Memory ran out.
pub(crate) fn copy_sentence(
    alloc: Global,
    copied: Copied,
    numbers: &str,
) -> Result<String, AllocError>
    ensures { IfOk result (λ s. string_bytes s ≡ copy_sentence copied numbers.now) }
{
    let Copied { written, copy, .. } = copied;
    let told = format!(in alloc;
        "this is copy {copy} of element {written}, both counted from 0: {numbers}"
    )?;
    Ok(told)
}

/// The numbers of the element of a fault that rise from copy to copy, if there is such an element.
///
/// # Errors
/// Memory ran out.
pub(crate) fn risen_numbers(
    alloc: Global,
    draft: &Draft,
    fault: ScenarioFault,
) -> Result<Option<String>, AllocError>
    ensures { IfOk result (λ told. IfSome told (λ s. TellsNumbers draft.now fault (string_bytes s))) }
{
    match fault {
        ScenarioFault::BadMember { place } => told_of_member(alloc, draft, place),
        ScenarioFault::BadDraw { place } => told_of_draw(alloc, draft, place),
        ScenarioFault::BadSession { place } => told_of_session(alloc, draft, place),
        ScenarioFault::BadDrop { place } => told_of_drop(alloc, draft, place),
        ScenarioFault::BadOutage { place } => told_of_outage(alloc, draft, place),
        ScenarioFault::BadLoss { place } => told_of_loss(alloc, draft, place),
        _ => Ok(None),
    }
}

// The numbers of the member at a place that rise from copy to copy, if there is one.
fn told_of_member(alloc: Global, draft: &Draft, place: usize) -> Result<Option<String>, AllocError>
    ensures { IfOk result (λ told. IfSome told (λ s. TellsNumbers draft.now (BadMember place) (string_bytes s))) }
{
    let Some(entry) = element(&draft.members, place) else {
        return Ok(None);
    };
    let told = member_numbers(alloc, entry)?;
    Ok(Some(told))
}

// The numbers of the draw at a place that rise from copy to copy, if there is one.
fn told_of_draw(alloc: Global, draft: &Draft, place: usize) -> Result<Option<String>, AllocError>
    ensures { IfOk result (λ told. IfSome told (λ s. TellsNumbers draft.now (BadDraw place) (string_bytes s))) }
{
    let Some(draw) = element(&draft.draws, place) else {
        return Ok(None);
    };
    let told = draw_numbers(alloc, draw)?;
    Ok(Some(told))
}

// The numbers of the session message at a place that rise from copy to copy, if there is one.
fn told_of_session(alloc: Global, draft: &Draft, place: usize) -> Result<Option<String>, AllocError>
    ensures { IfOk result (λ told. IfSome told (λ s. TellsNumbers draft.now (BadSession place) (string_bytes s))) }
{
    let Some(session) = element(&draft.sessions, place) else {
        return Ok(None);
    };
    let told = session_numbers(alloc, session)?;
    Ok(Some(told))
}

// The numbers of the drop at a place that rise from copy to copy, if there is one.
fn told_of_drop(alloc: Global, draft: &Draft, place: usize) -> Result<Option<String>, AllocError>
    ensures { IfOk result (λ told. IfSome told (λ s. TellsNumbers draft.now (BadDrop place) (string_bytes s))) }
{
    let Some(drop) = element(&draft.drops, place) else {
        return Ok(None);
    };
    let told = drop_numbers(alloc, drop)?;
    Ok(Some(told))
}

// The numbers of the outage at a place that rise from copy to copy, if there is one.
fn told_of_outage(alloc: Global, draft: &Draft, place: usize) -> Result<Option<String>, AllocError>
    ensures { IfOk result (λ told. IfSome told (λ s. TellsNumbers draft.now (BadOutage place) (string_bytes s))) }
{
    let Some(outage) = element(&draft.outages, place) else {
        return Ok(None);
    };
    let told = outage_numbers(alloc, outage)?;
    Ok(Some(told))
}

// The numbers of the loss at a place that rise from copy to copy, if there is one.
fn told_of_loss(alloc: Global, draft: &Draft, place: usize) -> Result<Option<String>, AllocError>
    ensures { IfOk result (λ told. IfSome told (λ s. TellsNumbers draft.now (BadLoss place) (string_bytes s))) }
{
    let Some(loss) = element(&draft.losses, place) else {
        return Ok(None);
    };
    let told = loss_numbers(alloc, loss)?;
    Ok(Some(told))
}

// The numbers of a member that rise from copy to copy.
fn member_numbers(alloc: Global, entry: &MemberEntry) -> Result<String, AllocError>
    ensures { IfOk result (λ s. string_bytes s ≡ member_numbers entry.now) }
{
    let node = entry.spec.node;
    let stream = entry.spec.stream;
    format!(in alloc; "node {node}, stream {stream}")
}

// The number of a draw that rises from copy to copy.
fn draw_numbers(alloc: Global, draw: &DrawSpec) -> Result<String, AllocError>
    ensures { IfOk result (λ s. string_bytes s ≡ draw_numbers draw.now) }
{
    let at = draw.at;
    format!(in alloc; "at {at}")
}

// The number of a session message that rises from copy to copy.
fn session_numbers(alloc: Global, session: &SessionSpec) -> Result<String, AllocError>
    ensures { IfOk result (λ s. string_bytes s ≡ session_numbers session.now) }
{
    let at = session.at;
    format!(in alloc; "at {at}")
}

// The number of a drop that rises from copy to copy.
fn drop_numbers(alloc: Global, drop: &DropSpec) -> Result<String, AllocError>
    ensures { IfOk result (λ s. string_bytes s ≡ drop_numbers drop.now) }
{
    let count = drop.id.count;
    format!(in alloc; "count {count}")
}

// The numbers of an outage that rise from copy to copy.
fn outage_numbers(alloc: Global, outage: &OutageSpec) -> Result<String, AllocError>
    ensures { IfOk result (λ s. string_bytes s ≡ outage_numbers outage.now) }
{
    let from = outage.from;
    let to = outage.to;
    format!(in alloc; "from {from}, to {to}")
}

// The number of a loss that rises from copy to copy.
fn loss_numbers(alloc: Global, loss: &LossSpec) -> Result<String, AllocError>
    ensures { IfOk result (λ s. string_bytes s ≡ loss_numbers loss.now) }
{
    let link = loss.link;
    format!(in alloc; "link {link}")
}
