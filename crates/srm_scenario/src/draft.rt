//! A scenario as its table gives it, before its parts are held against one another.
ghost use Rattle.std.specs.Prelude.{◌≡◌, [], IfOk, IfErr, codes};
ghost use Rattle.toml.specs.View.{table_view};
ghost use Rattle.srm_scenario.specs.Described.{array_at, elements_at, link_of, version_of};
ghost use Rattle.srm_scenario.specs.Faults.{IsFault, faults_of_links, key_faults};
ghost use Rattle.srm_scenario.specs.Drafts.{IsDraft};

use crate::delays::Delays;
use crate::element::read_elements;
use crate::entry::{MemberEntry, read_members};
use crate::fault::{Part, ScenarioFault};
use crate::file_key::FileKey;
use crate::parents::given_links;
use crate::parts::{Constants, DrawSpec, LocalRecovery, Room, SessionSpec};
use crate::repeated::read_array;
use crate::table::array;
use crate::top::top_of;
use crate::topology::Topology;
use crate::version::Version;
use srm_net::link::{DropSpec, LinkSpec, LossSpec, OutageSpec};
use std::alloc::Global;
use toml::Table;

/// A scenario as its table gives it, before its parts are held against one another.
#[derive(Debug, Drop)]
pub struct Draft {
    /// When the run ends, in ticks.
    pub until: u64,
    /// The first values of the constants of timers.
    pub constants: Constants,
    /// How far they are adapted.
    pub room: Room,
    /// The numbers of local recovery.
    pub recovery: LocalRecovery,
    /// The topology that the table names.
    pub topology: Option<Topology>,
    /// How many nodes there are.
    pub nodes: u16,
    /// The delays of each link of the topology, in ticks.
    pub delays: Delays,
    /// The links that the table lists, or those to the parents that it lists.
    pub links: Vec<LinkSpec>,
    /// The members.
    pub members: Vec<MemberEntry>,
    /// The draws.
    pub draws: Vec<DrawSpec>,
    /// The session messages.
    pub sessions: Vec<SessionSpec>,
    /// The drops, as they are listed.
    pub drops: Vec<DropSpec>,
    /// The outages.
    pub outages: Vec<OutageSpec>,
    /// The losses.
    pub losses: Vec<LossSpec>,
}

impl Draft {
    /// The draft that a table gives. A fault of its keys is refused, the first one.
    ///
    /// # Errors
    /// `BadKey`, the first fault of the table's keys in the order of [`scenario_of`](crate::reading::scenario_of); or `NoMemory`.
    pub fn read(alloc: Global, table: &Table) -> Result<Draft, ScenarioFault>
        ensures draft { IfOk result (IsDraft (table_view table.now)) }
        ensures fault { IfErr result (λ e. IsFault e (key_faults (table_view table.now))) }
    {
        let Some(top) = top_of(table) else {
            return Err(ScenarioFault::BadKey {
                part: Part::Top,
                place: 0,
            });
        };
        let version = top.numbers.version;
        let listed = read_links(alloc, version, table)?;
        let members = read_members(alloc, version, top.numbers.scope, table)?;
        let draws = read_array(alloc, Part::Draw, version, table, FileKey::Draw)?;
        let sessions = read_array(alloc, Part::Session, version, table, FileKey::Session)?;
        let drops = read_array(alloc, Part::Drop, version, table, FileKey::Drop)?;
        let outages = read_array(alloc, Part::Outage, version, table, FileKey::Outage)?;
        let losses = read_array(alloc, Part::Loss, version, table, FileKey::Loss)?;
        let links = given_links(alloc, table, listed)?;
        Ok(Draft {
            until: top.numbers.until,
            constants: top.numbers.constants,
            room: top.numbers.room,
            recovery: top.numbers.recovery,
            topology: top.shape.topology,
            nodes: top.shape.nodes,
            delays: top.shape.delays,
            links,
            members,
            draws,
            sessions,
            drops,
            outages,
            losses,
        })
    }
}

// The links that a table lists.
fn read_links(
    alloc: Global,
    version: Version,
    table: &Table,
) -> Result<Vec<LinkSpec>, ScenarioFault>
    requires { version_of (table_view table.now) ≡ version }
    ensures no_fault { let ms = table_view table.now in IfOk result (λ _. faults_of_links (version_of ms)
        (array_at (codes "link") ms) ≡ []) }
    ensures read { IfOk result (λ links. links.items ≡ elements_at (codes "link") link_of (table_view table.now)) }
    ensures fault { let ms = table_view table.now in IfErr result (λ e. IsFault e (faults_of_links (version_of ms)
        (array_at (codes "link") ms))) }
{
    read_elements(alloc, Part::Link, version, array(table, FileKey::Link))
}
