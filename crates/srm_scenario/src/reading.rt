//! Reading scenarios.
ghost use Rattle.std.specs.Prelude.{◌≡◌, ◌⊎◌, ◌≤◌, ◌<◌, true, false, [], ◌++◌, Some, Ok, Err, length, map, IfOk, IfErr, IfSome, MatchResult, List, ℕ, ◌+◌, ◌-◌, ◌^◌};
ghost use Rattle.std.specs.Io.KnownBytes.{Consumes};
ghost use Rattle.std.specs.List.{AllByRecursion};
ghost use Rattle.toml.specs.View.{table_view};
ghost use Rattle.srm_net.specs.Network.{plain_network};
ghost use Rattle.srm_scenario.specs.Accepted.{IsAccepted};
ghost use Rattle.srm_scenario.specs.declared.fault.ScenarioFault.TheVariants.{BadDraw, BadSession, BadDrop, BadOutage, BadLoss};
ghost use Rattle.srm_scenario.specs.Faults.{IsFault, first, faults_by, fits_draw, fits_session, fits_drop, fits_outage, fits_loss, is_star, scenario_of_table, scenario_of_text, failures_after, AnswersText, ReadsToEnd, RefusesText};
ghost use Rattle.srm_scenario.specs.LookUps.{HasDegree};
ghost use Rattle.srm_scenario.specs.Drafts.{links_listed, plain_of, faults_in};
ghost use Rattle.srm_scenario.specs.Plain.{drop_rules_of};
ghost use Rattle.srm_scenario.specs.Ranges.{InRange, HasItsPages};
ghost use Rattle.srm_scenario.specs.Trees.{is_tree};

use crate::bytes::{LONGEST_TEXT, TextFault, read_text};
use crate::checks::{
    check_draws, check_drops, check_losses, check_members, check_outages, check_sessions,
};
use crate::delays::Delays;
use crate::draft::Draft;
use crate::entry::MemberEntry;
use crate::fault::ScenarioFault;
use crate::feed::Feed;
use crate::lists::Lists;
use crate::parts::{DrawSpec, MemberSpec, SessionSpec};
use crate::scenario::Scenario;
use crate::topology::Topology;
use srm_net::drops::Drops;
use srm_net::link::{DropSpec, LinkSpec, LossSpec, OutageSpec};
use srm_net::net::Net;
use std::alloc::{AllocError, Global};
use std::sync::Arc;
use toml::Table;

/// Links that do not make a tree of the nodes are a fault.
fn check_tree(alloc: Global, nodes: u16, links: &[LinkSpec]) -> Result<(), ScenarioFault>
    ensures { MatchResult result
        (λ _. is_tree (plain_network nodes links.now []) ≡ true)
        (λ e. (e ≡ ScenarioFault.NoMemory) ⊎ ((e ≡ ScenarioFault.NotTree)
        × (is_tree (plain_network nodes links.now []) ≡ false))) }
{
    let is_tree = Net::is_tree(alloc, nodes, links)?;
    if is_tree {
        Ok(())
    } else {
        Err(ScenarioFault::NotTree)
    }
}

/// The members without what is only needed to read them.
fn members_of(alloc: Global, entries: Vec<MemberEntry>) -> Result<Vec<MemberSpec>, AllocError>
    ensures { IfOk result (λ members. members.items ≡ map (λ e. e.spec) entries.items) }
{
    entries
        .into_iter()
        .map(|entry| {
            let MemberEntry {
                spec,
                has_pages: _,
                has_scope: _,
            } = entry;
            spec
        })
        .collect(alloc)
}

/// The rules by which links drop packets: each drop once, the outages, and the losses, by the words of seed 0.
fn drops_of(
    alloc: Global,
    drops: &[DropSpec],
    outages: &[OutageSpec],
    losses: &[LossSpec],
) -> Result<Drops, ScenarioFault>
    ensures { MatchResult result
        (λ rules. rules ≡ drop_rules_of drops.now outages.now losses.now)
        (λ e. e ≡ ScenarioFault.NoMemory) }
{
    match Drops::of(alloc, drops, outages, losses, 0) {
        Ok(rules) => return Ok(rules),
        Err(_) => return Err(ScenarioFault::NoMemory),
    }
}

/// The first draw, or else the first session message, that does not fit the members is a fault.
fn check_sent(
    until: u64,
    members: &[MemberSpec],
    draws: &[DrawSpec],
    sessions: &[SessionSpec],
) -> Result<(), ScenarioFault>
    ensures { MatchResult result
        (λ _. (faults_by BadDraw (fits_draw until members.now) 0 draws.now ≡ [])
        × (faults_by BadSession (fits_session until members.now) 0 sessions.now ≡ []))
        (λ e. first (faults_by BadDraw (fits_draw until members.now) 0 draws.now
        ++ faults_by BadSession (fits_session until members.now) 0 sessions.now) ≡ Some e) }
{
    check_draws(until, members, draws)?;
    check_sessions(until, members, sessions)?;
    Ok(())
}

/// The first outage, or else the first loss, that does not fit the links is a fault.
fn check_spans(
    links: &[LinkSpec],
    outages: &[OutageSpec],
    losses: &[LossSpec],
) -> Result<(), ScenarioFault>
    ensures { MatchResult result
        (λ _. (faults_by BadOutage (fits_outage (length links.now)) 0 outages.now ≡ [])
        × (faults_by BadLoss (fits_loss (length links.now)) 0 losses.now ≡ []))
        (λ e. first (faults_by BadOutage (fits_outage (length links.now)) 0 outages.now
        ++ faults_by BadLoss (fits_loss (length links.now)) 0 losses.now) ≡ Some e) }
{
    check_outages(links, outages)?;
    check_losses(links, losses)?;
    Ok(())
}

/// Whether the topology is a star, whose hub hosts nobody.
fn is_star(topology: Option<Topology>) -> bool
    ensures { result ≡ is_star topology }
{
    matches!(topology, Some(Topology::Star))
}

/// The links of the topology, or else those listed.
fn links_of(
    alloc: Global,
    topology: Option<Topology>,
    nodes: u16,
    delays: Delays,
    links: Vec<LinkSpec>,
) -> Result<Vec<LinkSpec>, AllocError>
    requires nodes { 1 ≤ nodes }
    requires degree { HasDegree topology }
    ensures { IfOk result (λ all. all.items ≡ links_listed topology nodes delays links.items) }
{
    match topology {
        Some(topology) => topology.links(alloc, nodes, delays),
        None => Ok(links),
    }
}

/// The scenario of a draft whose numbers are in range. The first element that does not fit the rest is refused.
fn scenario_from(alloc: Global, draft: Draft) -> Result<Scenario, ScenarioFault>
    requires nodes { 1 ≤ draft.nodes }
    requires degree { HasDegree draft.topology }
    requires range { InRange (plain_of draft) }
    requires pages { AllByRecursion HasItsPages draft.members.items }
    ensures no_fault { IfOk result (λ _. faults_in draft ≡ []) }
    ensures plain { IfOk result (λ s. s ≡ plain_of draft) }
    ensures fault { IfErr result (λ e. IsFault e (faults_in draft)) }
{
    let Draft {
        until,
        constants,
        room,
        recovery,
        topology,
        nodes,
        delays,
        links,
        members: entries,
        draws,
        sessions,
        drops,
        outages,
        losses,
    } = draft;
    let links = links_of(alloc, topology, nodes, delays, links)?;
    check_tree(alloc, nodes, &links)?;
    check_members(alloc, until, nodes, is_star(topology), &entries)?;
    let members = members_of(alloc, entries)?;
    check_sent(until, &members, &draws, &sessions)?;
    check_drops(&links, &members, &drops)?;
    check_spans(&links, &outages, &losses)?;
    let drops = drops_of(alloc, &drops, &outages, &losses)?;
    let lists = Lists {
        links,
        members,
        draws,
        sessions,
    };
    let lists = Arc::new(alloc, lists)?;
    Ok(Scenario {
        until,
        constants,
        room,
        recovery,
        nodes,
        lists,
        drops,
    })
}

/// The scenario of a table, the top table of a scenario file, with seed 0 of its losses.
///
/// # Errors
/// The first fault of the table, but for `NoMemory`, which may come at any place:
///
/// 1. `BadKey`: the first in the order of the parts `Top`, `Link`, `Member`, `Draw`, `Session`, `Drop`, `Outage`, `Loss`, and in
///    each by place.
/// 2. `NotTree`; 3. `BadMember`; 4. `BadDraw`; 5. `BadSession`; 6. `BadDrop`; 7. `BadOutage`; 8. `BadLoss`: each with its
///    least place.
pub fn scenario_of(alloc: Global, table: &Table) -> Result<Scenario, ScenarioFault>
    ensures scenario { IfOk result (λ s. scenario_of_table (table_view table.now) ≡ Ok s) }
    ensures accepted { IfOk result IsAccepted }
    ensures fault { IfErr result (λ e. (e ≡ ScenarioFault.NoMemory)
        ⊎ (scenario_of_table (table_view table.now) ≡ Err e)) }
{
    let draft = Draft::read(alloc, table)?;
    scenario_from(alloc, draft)
}

/// The scenario of a text.
///
/// # Errors
/// The first of these, but for `NoMemory`, which may come at any place:
///
/// 1. `TooLong`: the text has more than [`LONGEST_TEXT`] bytes.
/// 2. `NotToml`: it is not UTF-8, or no TOML document.
/// 3. Those of [`scenario_of`].
pub fn scenario_of_text(alloc: Global, text: &[u8]) -> Result<Scenario, ScenarioFault>
    ensures scenario { IfOk result (λ s. scenario_of_text text.now ≡ Ok s) }
    ensures accepted { IfOk result IsAccepted }
    ensures fault { IfErr result (λ e. RefusesText e text.now) }
{
    if text.len() > LONGEST_TEXT {
        return Err(ScenarioFault::TooLong);
    }
    match toml::table_from_slice(alloc, text) {
        Ok(table) => scenario_of(alloc, &table),
        Err(error) => {
            if error.is_memory() {
                Err(ScenarioFault::NoMemory)
            } else {
                Err(ScenarioFault::NotToml)
            }
        }
    }
}

/// Reads a scenario from a feed. It takes at most one byte more than [`LONGEST_TEXT`].
///
/// # Errors
/// The first of these, but for `NoMemory`, which may come at any place:
///
/// 1. `ReadFault`: exactly where the feed failed in the call.
/// 2. `TooLong`: more than [`LONGEST_TEXT`] bytes were still to come.
/// 3. `NotToml`: they are not UTF-8, or no TOML document.
/// 4. Those of [`scenario_of`].
///
/// As much is taken of the feed as [`read_text`] takes. Where the feed's bytes are known, nothing is left to come after a refusal
/// from `NotToml` on, but for `NoMemory`.
pub fn read_scenario<F: Feed>(alloc: Global, feed: &mut F) -> Result<Scenario, ScenarioFault>
    requires { F.failures feed.old < 2 ^ 64 - 1 }
    // The count rises exactly where the answer is `ReadFault`, and then by one.
    ensures failures { F.failures feed.new ≡ failures_after result (F.failures feed.old) }
    // What is known to be still to come decides the answer.
    ensures answer { IfSome (F.remaining feed.old) (AnswersText result) }
    ensures accepted { IfOk result IsAccepted }
    // A text that was read whole leaves nothing to come.
    ensures end { ReadsToEnd result (F.remaining feed.new) }
    // There is a text that decides the answer: what was taken of the feed, where its bytes are known.
    ensures taken { (given : List ℕ) × Consumes (F.remaining feed.old) (F.remaining feed.new) given
        × (length given ≤ LONGEST_TEXT + 1) × AnswersText result given }
{
    let text = match read_text(alloc, feed) {
        Ok(text) => text,
        Err(TextFault::ReadFault) => return Err(ScenarioFault::ReadFault),
        Err(TextFault::TooLong) => return Err(ScenarioFault::TooLong),
        Err(TextFault::NoMemory) => return Err(ScenarioFault::NoMemory),
    };
    scenario_of_text(alloc, &text)
}
