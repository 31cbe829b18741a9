//! Whether the parts of a scenario fit one another.
ghost use Rattle.std.specs.Prelude.{◌≡◌, ◌<◌, ◌≤◌, List, [], Some, MatchResult, length};
ghost use Rattle.srm_scenario.specs.declared.fault.ScenarioFault.TheVariants.{BadDraw, BadSession, BadDrop, BadOutage, BadLoss};
ghost use Rattle.srm_scenario.specs.declared.entry.MemberEntry.{MemberEntry};
ghost use Rattle.srm_scenario.specs.Faults.{first, IsFault, faults_by, is_taken, member_faults, fits_member, fits_draw, fits_session, fits_drop, fits_outage, fits_loss};
ghost use Rattle.srm_scenario.specs.Taken.{MarksNodes};

use crate::entry::MemberEntry;
use crate::fault::ScenarioFault;
use crate::parts::{DrawSpec, MemberSpec, SessionSpec};
use srm_net::link::{DropSpec, LinkSpec, LossSpec, OutageSpec};
use srm_net::role::Role;
use std::alloc::Global;

/// Whether a draw is by a sender that is there.
fn fits_draw(until: u64, members: &[MemberSpec], draw: &DrawSpec) -> bool
    ensures { result ≡ fits_draw until members.now draw.now }
{
    match members.get(draw.member as usize) {
        Some(member) => matches!(member.role, Role::Sender) && member.is_present(until, draw.at),
        None => false,
    }
}

/// Whether a session message is by a member that is there and is no listener.
fn fits_session(until: u64, members: &[MemberSpec], session: &SessionSpec) -> bool
    ensures { result ≡ fits_session until members.now session.now }
{
    match members.get(session.member as usize) {
        Some(member) => {
            !matches!(member.role, Role::Listener) && member.is_present(until, session.at)
        }
        None => false,
    }
}

/// The first draw that does not fit the members is a fault.
pub(crate) fn check_draws(
    until: u64,
    members: &[MemberSpec],
    draws: &[DrawSpec],
) -> Result<(), ScenarioFault>
    ensures { MatchResult result
        (λ _. faults_by BadDraw (fits_draw until members.now) 0 draws.now ≡ [])
        (λ e. first (faults_by BadDraw (fits_draw until members.now) 0 draws.now) ≡ Some e) }
{
    for (place, draw) in draws.iter().enumerate() {
        if !fits_draw(until, members, draw) {
            return Err(ScenarioFault::BadDraw { place });
        }
    }
    Ok(())
}

/// The first session message that does not fit the members is a fault.
pub(crate) fn check_sessions(
    until: u64,
    members: &[MemberSpec],
    sessions: &[SessionSpec],
) -> Result<(), ScenarioFault>
    ensures { MatchResult result
        (λ _. faults_by BadSession (fits_session until members.now) 0 sessions.now ≡ [])
        (λ e. first (faults_by BadSession (fits_session until members.now) 0 sessions.now) ≡ Some e) }
{
    for (place, session) in sessions.iter().enumerate() {
        if !fits_session(until, members, session) {
            return Err(ScenarioFault::BadSession { place });
        }
    }
    Ok(())
}

/// The first drop that names no link or no member is a fault.
pub(crate) fn check_drops(
    links: &[LinkSpec],
    members: &[MemberSpec],
    drops: &[DropSpec],
) -> Result<(), ScenarioFault>
    ensures { MatchResult result
        (λ _. faults_by BadDrop (fits_drop (length links.now) (length members.now)) 0 drops.now ≡ [])
        (λ e. first (faults_by BadDrop (fits_drop (length links.now) (length members.now)) 0 drops.now) ≡ Some e) }
{
    for (place, drop) in drops.iter().enumerate() {
        let fits = (drop.link as usize) < links.len() && (drop.id.sender as usize) < members.len();
        if !fits {
            return Err(ScenarioFault::BadDrop { place });
        }
    }
    Ok(())
}

/// The first outage that is of no link, or does not end after it begins, is a fault.
pub(crate) fn check_outages(links: &[LinkSpec], outages: &[OutageSpec]) -> Result<(), ScenarioFault>
    ensures { MatchResult result
        (λ _. faults_by BadOutage (fits_outage (length links.now)) 0 outages.now ≡ [])
        (λ e. first (faults_by BadOutage (fits_outage (length links.now)) 0 outages.now) ≡ Some e) }
{
    for (place, outage) in outages.iter().enumerate() {
        let fits = (outage.link as usize) < links.len() && outage.from < outage.to;
        if !fits {
            return Err(ScenarioFault::BadOutage { place });
        }
    }
    Ok(())
}

/// Whether a loss is of a link, and ends after it begins where it ends.
fn fits_loss(links: usize, loss: &LossSpec) -> bool
    ensures { result ≡ fits_loss links loss.now }
{
    let ends_later = match loss.to {
        Some(to) => loss.from < to,
        None => true,
    };
    (loss.link as usize) < links && ends_later
}

/// The first loss that is of no link, or does not end after it begins, is a fault.
pub(crate) fn check_losses(links: &[LinkSpec], losses: &[LossSpec]) -> Result<(), ScenarioFault>
    ensures { MatchResult result
        (λ _. faults_by BadLoss (fits_loss (length links.now)) 0 losses.now ≡ [])
        (λ e. first (faults_by BadLoss (fits_loss (length links.now)) 0 losses.now) ≡ Some e) }
{
    for (place, loss) in losses.iter().enumerate() {
        if !fits_loss(links.len(), loss) {
            return Err(ScenarioFault::BadLoss { place });
        }
    }
    Ok(())
}

/// Whether a node is marked.
fn is_taken(taken: &[bool], node: u16) -> bool
    requires { node < length taken.now }
    ensures { (members : List MemberEntry) → MarksNodes members taken.now → result ≡ is_taken members node }
{
    taken[usize::from(node)]
}

/// Whether a member fits the network, the run, and the members before it, of which the nodes are marked.
fn fits_member(until: u64, nodes: u16, star: bool, taken: &[bool], entry: &MemberEntry) -> bool
    requires { nodes ≤ length taken.now }
    ensures { (earlier : List MemberEntry) → MarksNodes earlier taken.now
        → result ≡ fits_member until nodes star earlier entry.now }
{
    let member = &entry.spec;
    let leaves_later = match member.leave {
        Some(end) => member.join < end,
        None => true,
    };
    member.node < nodes
        && !(star && member.node == 0)
        && !is_taken(taken, member.node)
        && member.join < until
        && leaves_later
        && (!entry.has_pages || matches!(member.role, Role::Late))
        && (!entry.has_scope || !matches!(member.role, Role::Listener))
}

/// The first member that does not fit is a fault. It takes a number of steps that grows as the numbers of nodes and members.
pub(crate) fn check_members(
    alloc: Global,
    until: u64,
    nodes: u16,
    star: bool,
    entries: &[MemberEntry],
) -> Result<(), ScenarioFault>
    ensures { MatchResult result
        (λ _. member_faults until nodes star [] 0 entries.now ≡ [])
        (λ e. IsFault e (member_faults until nodes star [] 0 entries.now)) }
{
    let mut taken = vec![in alloc; false; usize::from(nodes)]?;
    for (place, entry) in entries.iter().enumerate() {
        if !fits_member(until, nodes, star, &taken, entry) {
            return Err(ScenarioFault::BadMember { place });
        }
        taken[usize::from(entry.spec.node)] = true;
    }
    Ok(())
}
