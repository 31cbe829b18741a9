//! Which rule an element of a draft breaks beside the rest of it.
ghost use Rattle.std.specs.Prelude.{◌≡◌, ◌≤◌, true, false, Some, IfSome, MatchOption, length, option_map, slice_get};
ghost use Rattle.srm_scenario.specs.declared.entry.MemberEntry.{MemberEntry};
ghost use Rattle.srm_scenario.specs.declared.fault.ScenarioFault.TheVariants.{BadMember, BadDraw, BadSession, BadDrop, BadOutage, BadLoss};
ghost use Rattle.srm_scenario.specs.Faults.{fits_draw, fits_drop, fits_loss, fits_member, fits_outage, fits_session, is_star, is_taken};
ghost use Rattle.srm_explain.specs.Misfits.{links_of, members_of, Breaks, BreaksDraw, BreaksDrop, BreaksLoss, BreaksMember, BreaksOutage, BreaksSession, IsAway};
ghost use Rattle.srm_scenario.specs.Presence.{is_present};

use crate::element::element;
use crate::misfit::Misfit;
use srm_net::link::{DropSpec, LossSpec, OutageSpec};
use srm_net::role::Role;
use srm_scenario::draft::Draft;
use srm_scenario::entry::MemberEntry;
use srm_scenario::fault::ScenarioFault;
use srm_scenario::parts::{DrawSpec, MemberSpec, SessionSpec};
use srm_scenario::topology::Topology;

/// Which rule the element of a fault breaks, if it breaks one.
pub(crate) fn misfit_of(draft: &Draft, fault: ScenarioFault) -> Option<Misfit>
    ensures { IfSome result (Breaks draft.now fault) }
{
    match fault {
        ScenarioFault::BadMember { place } => of_member(draft, place),
        ScenarioFault::BadDraw { place } => match element(&draft.draws, place) {
            Some(draw) => of_draw(draft, draw),
            None => None,
        },
        ScenarioFault::BadSession { place } => match element(&draft.sessions, place) {
            Some(session) => of_session(draft, session),
            None => None,
        },
        ScenarioFault::BadDrop { place } => match element(&draft.drops, place) {
            Some(drop) => of_drop(links_of(draft), count_of_members(draft), drop),
            None => None,
        },
        ScenarioFault::BadOutage { place } => match element(&draft.outages, place) {
            Some(outage) => of_outage(links_of(draft), outage),
            None => None,
        },
        ScenarioFault::BadLoss { place } => match element(&draft.losses, place) {
            Some(loss) => of_loss(links_of(draft), loss),
            None => None,
        },
        _ => None,
    }
}

// How many links there are: those of the topology, or else those listed.
fn links_of(draft: &Draft) -> usize
    ensures { result ≡ length (links_of draft.now) }
{
    match draft.topology {
        Some(_) => usize::from(draft.nodes).saturating_sub(1),
        None => draft.links.len(),
    }
}

// How many members there are.
fn count_of_members(draft: &Draft) -> usize
    ensures { result ≡ length (members_of draft.now) }
{
    draft.members.len()
}

// The member of a number, if there is one.
fn member_at(draft: &Draft, member: u16) -> Option<&MemberSpec>
    ensures { option_map (λ k. k.now) result ≡ slice_get (members_of draft.now) member }
{
    match element(&draft.members, usize::from(member)) {
        Some(entry) => Some(&entry.spec),
        None => None,
    }
}

// Which rule the member at a place breaks.
fn of_member(draft: &Draft, place: usize) -> Option<Misfit>
    ensures { IfSome result (Breaks draft.now (BadMember place)) }
{
    match draft.members.get(place) {
        Some(member) => {
            let star = matches!(draft.topology, Some(Topology::Star));
            of_entry(
                draft.until,
                draft.nodes,
                star,
                &draft.members[..place],
                member,
            )
        }
        None => None,
    }
}

// Which rule a member breaks beside the network, the run and the members before it.
fn of_entry(
    until: u64,
    nodes: u16,
    star: bool,
    earlier: &[MemberEntry],
    entry: &MemberEntry,
) -> Option<Misfit>
    ensures { MatchOption result (fits_member until nodes star earlier.now entry.now ≡ true)
        (λ m. (fits_member until nodes star earlier.now entry.now ≡ false)
        × BreaksMember until nodes star earlier.now entry.now m) }
{
    let member = &entry.spec;
    if member.node >= nodes {
        return Some(Misfit::NoNode { nodes });
    }
    if star && member.node == 0 {
        return Some(Misfit::OnHub);
    }
    if let Some(earlier) = place_on(earlier, member.node) {
        return Some(Misfit::Taken { earlier });
    }
    if member.join >= until {
        return Some(Misfit::JoinsAfterEnd { until });
    }
    if let Some(leave) = member.leave {
        if leave <= member.join {
            return Some(Misfit::LeavesBeforeJoin { join: member.join });
        }
    }
    if entry.has_pages && !matches!(member.role, Role::Late) {
        return Some(Misfit::NotLate);
    }
    if entry.has_scope && matches!(member.role, Role::Listener) {
        return Some(Misfit::NeverAsks);
    }
    None
}

// The place of the first member on a node, if there is one.
fn place_on(members: &[MemberEntry], node: u16) -> Option<usize>
    ensures { MatchOption result (is_taken members.now node ≡ false)
        (λ place. (is_taken members.now node ≡ true)
        × (other : MemberEntry) × (slice_get members.now place ≡ Some other) × (other.spec.node ≡ node)) }
{
    for (place, member) in members.iter().enumerate() {
        if member.spec.node == node {
            return Some(place);
        }
    }
    None
}

// Why a member is not there at a time, if it is not.
fn away(until: u64, at: u64, member: &MemberSpec) -> Option<Misfit>
    ensures { MatchOption result (is_present member.now.join member.now.leave until at ≡ true)
        (λ m. (is_present member.now.join member.now.leave until at ≡ false) × IsAway until at member.now m) }
{
    if at < member.join {
        return Some(Misfit::BeforeJoin { join: member.join });
    }
    if let Some(leave) = member.leave {
        if leave < at {
            return Some(Misfit::AfterLeave { leave });
        }
    }
    if at >= until {
        return Some(Misfit::AfterEnd { until });
    }
    None
}

// Which rule a draw breaks.
fn of_draw(draft: &Draft, draw: &DrawSpec) -> Option<Misfit>
    ensures { MatchOption result (fits_draw draft.now.until (members_of draft.now) draw.now ≡ true)
        (λ m. (fits_draw draft.now.until (members_of draft.now) draw.now ≡ false)
        × BreaksDraw draft.now.until (members_of draft.now) draw.now m) }
{
    let members = count_of_members(draft);
    match member_at(draft, draw.member) {
        None => Some(Misfit::NoMember { members }),
        Some(member) => {
            if matches!(member.role, Role::Sender) {
                away(draft.until, draw.at, member)
            } else {
                Some(Misfit::NotSender)
            }
        }
    }
}

// Which rule a session message breaks.
fn of_session(draft: &Draft, session: &SessionSpec) -> Option<Misfit>
    ensures { MatchOption result (fits_session draft.now.until (members_of draft.now) session.now ≡ true)
        (λ m. (fits_session draft.now.until (members_of draft.now) session.now ≡ false)
        × BreaksSession draft.now.until (members_of draft.now) session.now m) }
{
    let members = count_of_members(draft);
    match member_at(draft, session.member) {
        None => Some(Misfit::NoMember { members }),
        Some(member) => {
            if matches!(member.role, Role::Listener) {
                Some(Misfit::IsListener)
            } else {
                away(draft.until, session.at, member)
            }
        }
    }
}

// Which rule a drop breaks, of so many links and members.
fn of_drop(links: usize, members: usize, drop: &DropSpec) -> Option<Misfit>
    ensures { MatchOption result (fits_drop links members drop.now ≡ true)
        (λ m. (fits_drop links members drop.now ≡ false) × BreaksDrop links members drop.now m) }
{
    if usize::from(drop.link) >= links {
        return Some(Misfit::NoLink { links });
    }
    if usize::from(drop.id.sender) >= members {
        return Some(Misfit::NoMember { members });
    }
    None
}

// Which rule an outage breaks, of so many links.
fn of_outage(links: usize, outage: &OutageSpec) -> Option<Misfit>
    ensures { MatchOption result (fits_outage links outage.now ≡ true)
        (λ m. (fits_outage links outage.now ≡ false) × BreaksOutage links outage.now m) }
{
    if usize::from(outage.link) >= links {
        return Some(Misfit::NoLink { links });
    }
    if outage.to <= outage.from {
        return Some(Misfit::EndsEarly { from: outage.from });
    }
    None
}

// Which rule a loss breaks, of so many links.
fn of_loss(links: usize, loss: &LossSpec) -> Option<Misfit>
    ensures { MatchOption result (fits_loss links loss.now ≡ true)
        (λ m. (fits_loss links loss.now ≡ false) × BreaksLoss links loss.now m) }
{
    if usize::from(loss.link) >= links {
        return Some(Misfit::NoLink { links });
    }
    if let Some(to) = loss.to {
        if to <= loss.from {
            return Some(Misfit::StopsEarly { from: loss.from });
        }
    }
    None
}
