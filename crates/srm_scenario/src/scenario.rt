//! Scenarios.
ghost use Rattle.std.specs.Prelude.{◌≡◌, ◌<◌, Some, length, map, slice_get, option_map, MatchResult, IfOk, IfErr, All};
ghost use Rattle.srm_net.specs.Orders.{Rises};
ghost use Rattle.srm_scenario.specs.Accepted.{IsAccepted};
ghost use Rattle.srm_scenario.specs.Plain.{network_of, script_of, mark_cmp, with_seed};
ghost use Rattle.srm_scenario.specs.ScriptLists.{scripts_of};
ghost use Rattle.srm_scenario.specs.Pages.{wants_page};

use crate::fault::ScenarioFault;
use crate::lists::Lists;
use crate::mark::Mark;
use crate::parts::{Constants, LocalRecovery, MemberSpec, Room};
use crate::script::script_of;
use crate::scripts::scripts_of;
use srm_net::drops::Drops;
use srm_net::fault::NetFault;
use srm_net::link::LinkSpec;
use srm_net::net::Net;
use srm_net::role::Role;
use std::alloc::{AllocError, Global};
use std::marker::Model;
use std::sync::Arc;

/// What a run is given: a network, the members on it, what they draw and report, and which packets are dropped. Contracts see it
/// as one plain record. Every value of this type is an accepted scenario. Those of several seeds share all but the seed.
#[derive(Drop)]
pub struct Scenario {
    pub(crate) until: u64,
    pub(crate) constants: Constants,
    pub(crate) room: Room,
    pub(crate) recovery: LocalRecovery,
    pub(crate) nodes: u16,
    pub(crate) lists: Arc<Lists>,
    pub(crate) drops: Drops,
}

impl Model for Scenario {
    ghost use Rattle.srm_scenario.specs.Plain.{PlainScenario};

    ghost Value = { PlainScenario };

    ghost use Rattle.srm_scenario.specs.Accepted.{IsAccepted};
    ghost use Rattle.srm_scenario.specs.Sharing.{scenario_inside};

    ghost view = { scenario_inside };

    ghost invariant = { λ s. IsAccepted (scenario_inside s) };
}

impl Scenario {
    /// The tick at which the run ends: 1 to 2^40. Events before it are handled.
    pub fn until(&self) -> u64
        ensures until { result ≡ self.now.until }
        ensures accepted { IsAccepted self.now }
    {
        self.until
    }

    /// The first values of the constants of timers, in thousandths.
    pub fn constants(&self) -> Constants
        ensures constants { result ≡ self.now.constants }
        ensures accepted { IsAccepted self.now }
    {
        self.constants
    }

    /// How far members adapt the constants of their timers.
    pub fn room(&self) -> Room
        ensures room { result ≡ self.now.room }
        ensures accepted { IsAccepted self.now }
    {
        self.room
    }

    /// By how many hops each backoff widens the scope of a request: 0 to 65,535. It decides only where a member has a scope.
    pub fn widen(&self) -> u16
        ensures widen { result ≡ self.now.recovery.widen }
        ensures accepted { IsAccepted self.now }
    {
        self.recovery.widen
    }

    /// From how many backoffs on a request has no scope: 1 to 10. It decides only where a member has a scope.
    pub fn tries(&self) -> u16
        ensures tries { result ≡ self.now.recovery.tries }
        ensures accepted { IsAccepted self.now }
    {
        self.recovery.tries
    }

    /// In how many steps a repair goes to those that its request was heard by: 1 or 2. It decides only where a member has a
    /// scope.
    pub fn steps(&self) -> u16
        ensures steps { result ≡ self.now.recovery.steps }
        ensures accepted { IsAccepted self.now }
    {
        self.recovery.steps
    }

    /// How many members there are: at most [`MOST_NODES`](srm_net::limits::MOST_NODES). They are numbered from 0.
    pub fn members(&self) -> u16
        ensures { result ≡ length self.now.members }
    {
        self.lists.members.len() as u16
    }

    /// Member m.
    pub fn member(&self, m: u16) -> &MemberSpec
        requires { m < length self.now.members }
        ensures { slice_get self.now.members m ≡ Some result.now }
    {
        &self.lists.members[m as usize]
    }

    /// What member m does.
    pub fn role(&self, m: u16) -> Role
        requires { m < length self.now.members }
        ensures { option_map (λ k. k.role) (slice_get self.now.members m) ≡ Some result }
    {
        self.member(m).role
    }

    /// The node that hosts member m.
    pub fn node(&self, m: u16) -> u16
        requires { m < length self.now.members }
        ensures { option_map (λ k. k.node) (slice_get self.now.members m) ≡ Some result }
    {
        self.member(m).node
    }

    /// The stream of member m's random words, below 2^63.
    pub fn stream(&self, m: u16) -> u64
        requires { m < length self.now.members }
        ensures { option_map (λ k. k.stream) (slice_get self.now.members m) ≡ Some result }
    {
        self.member(m).stream
    }

    /// When member m joins, in ticks: before [`until`](Scenario::until), and so below 2^40.
    pub fn join(&self, m: u16) -> u64
        requires { m < length self.now.members }
        ensures { option_map (λ k. k.join) (slice_get self.now.members m) ≡ Some result }
    {
        self.member(m).join
    }

    /// When member m leaves, in ticks, if it does: after it joins, and at most 2^40.
    pub fn leave(&self, m: u16) -> Option<u64>
        requires { m < length self.now.members }
        ensures { option_map (λ k. k.leave) (slice_get self.now.members m) ≡ Some result }
    {
        self.member(m).leave
    }

    /// The scope of member m's first request for a name, in hops: 0 to 65,535. Where it is 0, its requests have none.
    pub fn scope(&self, m: u16) -> u16
        requires { m < length self.now.members }
        ensures { option_map (λ k. k.scope) (slice_get self.now.members m) ≡ Some result }
    {
        self.member(m).scope
    }

    /// Whether member m's list of pages has this page. Only a late member has one.
    pub fn wants(&self, m: u16, page: u16) -> bool
        requires { m < length self.now.members }
        ensures { result ≡ wants_page self.now m page }
    {
        self.member(m).pages.as_slice().contains(&page)
    }

    /// The links, in the order of their numbers.
    pub fn links(&self) -> &[LinkSpec]
        ensures { result.now ≡ self.now.links }
    {
        self.lists.links.as_slice()
    }

    /// The rules by which links drop packets: the drops that are listed, the outages, and the losses with their seed.
    pub fn drops(&self) -> &Drops
        ensures { result.now ≡ self.now.drops }
    {
        &self.drops
    }

    /// The same scenario with the seed of its losses. Without losses the seed decides nothing.
    pub fn with_seed(self, seed: u64) -> Scenario
        ensures { result ≡ with_seed self seed }
    {
        let drops = self.drops.with_seed(seed);
        Scenario { drops, ..self }
    }

    /// The same scenario once more. The two share what they hold, and no memory is asked for.
    ///
    /// # Errors
    /// [`AllocError`], only where some 2^63 share it.
    pub fn share(&self) -> Result<Scenario, AllocError>
        ensures { IfOk result (λ s. s ≡ self.now) }
    {
        Ok(Scenario {
            until: self.until,
            constants: self.constants,
            room: self.room,
            recovery: self.recovery,
            nodes: self.nodes,
            lists: Arc::try_clone(&self.lists)?,
            drops: self.drops.share()?,
        })
    }

    /// The scenario's network.
    ///
    /// # Errors
    /// `NoMemory`.
    pub fn net(&self, alloc: Global) -> Result<Net, NetFault>
        ensures { MatchResult result (λ net. net ≡ network_of self.now) (λ e. e ≡ NetFault.NoMemory) }
    {
        let hosts = hosts_of(alloc, &self.lists.members)?;
        Net::build(alloc, self.nodes, &self.lists.links, &hosts)
    }

    /// The script of member m: its join, draws, session messages and leave, in the order of their keys.
    ///
    /// # Errors
    /// `NoMemory`.
    pub fn script(&self, alloc: Global, m: u16) -> Result<Vec<Mark>, ScenarioFault>
        requires { m < length self.now.members }
        ensures script { IfOk result (λ marks. marks.items ≡ script_of self.now m) }
        ensures rises { IfOk result (λ marks. Rises mark_cmp marks.items) }
        ensures fault { IfErr result (λ e. e ≡ ScenarioFault.NoMemory) }
    {
        let member = self.member(m);
        let marks = script_of(
            alloc,
            m,
            member.join,
            member.leave,
            &self.lists.draws,
            &self.lists.sessions,
        )?;
        Ok(marks)
    }

    /// The scripts of all members, in order of their numbers: one for each, as [`Scenario::script`] gives it. Draws and session
    /// messages are gone over once for all of them.
    ///
    /// # Errors
    /// `NoMemory`.
    pub fn scripts(&self, alloc: Global) -> Result<Vec<Vec<Mark>>, ScenarioFault>
        ensures scripts { IfOk result (λ scripts. map (λ marks. marks.items) scripts.items ≡ scripts_of self.now) }
        ensures rise { IfOk result (λ scripts. All (λ marks. Rises mark_cmp marks.items) scripts.items) }
        ensures fault { IfErr result (λ e. e ≡ ScenarioFault.NoMemory) }
    {
        let scripts = scripts_of(
            alloc,
            &self.lists.members,
            &self.lists.draws,
            &self.lists.sessions,
        )?;
        Ok(scripts)
    }
}

/// The nodes that host members.
fn hosts_of(alloc: Global, members: &[MemberSpec]) -> Result<Vec<u16>, AllocError>
    ensures { IfOk result (λ hosts. hosts.items ≡ map (λ k. k.node) members.now) }
{
    members.iter().map(|member| member.node).collect(alloc)
}
