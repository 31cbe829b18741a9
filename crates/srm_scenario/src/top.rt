//! What the top table of a scenario file holds.
ghost use Rattle.std.specs.Prelude.{◌≡◌, ◌≤◌, true, false, codes, length, MatchOption};
ghost use Rattle.toml.specs.View.{table_view};
ghost use Rattle.srm_net.specs.Limits.{most_links};
ghost use Rattle.srm_scenario.specs.Rules.{fits_rules};
ghost use Rattle.srm_scenario.specs.Described.{array_at, constants_of, form_of, given_nodes, least_of, most_of, number, recovery_of, room_of, says, topology_of};
ghost use Rattle.srm_scenario.specs.Faults.{rules_of_top};
ghost use Rattle.srm_scenario.specs.LookUps.{HasNumbers, HasShape};

use crate::delays::Delays;
use crate::file_key::FileKey;
use crate::form::Form;
use crate::parts::{Constants, LocalRecovery, Room};
use crate::rules::top_rules;
use crate::table::{array, fits_rules, has_key, number, number_or, optional_number, says};
use crate::topology::Topology;
use crate::version::Version;
use toml::Table;

/// The topology that the table names, if it names one.
fn topology(table: &Table) -> Option<Topology>
    requires { says (codes "topology") (codes "tree") (table_view table.now) ≡ true
        → number (codes "degree") (table_view table.now) ≤ most_links }
    ensures { result ≡ topology_of (table_view table.now) }
{
    if says(table, FileKey::Topology, "tree") {
        let degree = number(table, FileKey::Degree) as u16;
        Some(Topology::Tree { degree })
    } else if says(table, FileKey::Topology, "chain") {
        Some(Topology::Chain)
    } else if says(table, FileKey::Topology, "star") {
        Some(Topology::Star)
    } else {
        None
    }
}

/// The numbers of the top table.
#[derive(Clone, Copy)]
pub(crate) struct Numbers {
    /// The version of the format.
    pub(crate) version: Version,
    /// When the run ends, in ticks.
    pub(crate) until: u64,
    /// The first values of the constants of timers.
    pub(crate) constants: Constants,
    /// How far they are adapted.
    pub(crate) room: Room,
    /// The scope of members for which none is given: 0 to 65,535 hops.
    pub(crate) scope: u16,
    /// The numbers of local recovery.
    pub(crate) recovery: LocalRecovery,
}

/// The first values of the constants of timers, in range or not; 0 where there is none.
pub fn constants_of(table: &Table) -> Constants
    ensures { result ≡ constants_of (table_view table.now) }
{
    Constants {
        c1: number(table, FileKey::C1),
        c2: number(table, FileKey::C2),
        d1: number(table, FileKey::D1),
        d2: number(table, FileKey::D2),
    }
}

/// The least values of the constants.
fn least_of(table: &Table) -> Constants
    ensures { result ≡ least_of (table_view table.now) }
{
    Constants {
        c1: number_or(table, FileKey::C1Least, FileKey::C1),
        c2: number_or(table, FileKey::C2Least, FileKey::C2),
        d1: number_or(table, FileKey::D1Least, FileKey::D1),
        d2: number_or(table, FileKey::D2Least, FileKey::D2),
    }
}

/// The greatest values of the constants.
fn most_of(table: &Table) -> Constants
    ensures { result ≡ most_of (table_view table.now) }
{
    Constants {
        c1: number_or(table, FileKey::C1Most, FileKey::C1),
        c2: number_or(table, FileKey::C2Most, FileKey::C2),
        d1: number_or(table, FileKey::D1Most, FileKey::D1),
        d2: number_or(table, FileKey::D2Most, FileKey::D2),
    }
}

/// How far the constants are adapted.
fn room_of(table: &Table) -> Room
    ensures { result ≡ room_of (table_view table.now) }
{
    Room {
        least: least_of(table),
        most: most_of(table),
        backoff: optional_number(table, FileKey::Backoff).unwrap_or(2),
    }
}

/// How members ask again, and how repairs come back.
fn recovery_of(table: &Table) -> LocalRecovery
    requires { fits_rules (rules_of_top (table_view table.now)) (table_view table.now) ≡ true }
    ensures { result ≡ recovery_of (table_view table.now) }
{
    LocalRecovery {
        widen: number(table, FileKey::Widen) as u16,
        tries: optional_number(table, FileKey::Tries).unwrap_or(1) as u16,
        steps: optional_number(table, FileKey::Steps).unwrap_or(2) as u16,
    }
}

/// The numbers of a table that fits its rules.
fn numbers_of(table: &Table) -> Numbers
    requires { fits_rules (rules_of_top (table_view table.now)) (table_view table.now) ≡ true }
    ensures { HasNumbers (table_view table.now) result }
{
    Numbers {
        version: Version::of(number(table, FileKey::Version)),
        until: number(table, FileKey::Until),
        constants: constants_of(table),
        room: room_of(table),
        scope: number(table, FileKey::Scope) as u16,
        recovery: recovery_of(table),
    }
}

/// The nodes of the top table, and its links where it names a topology.
#[derive(Clone, Copy)]
pub(crate) struct Shape {
    /// The topology that the table names.
    pub(crate) topology: Option<Topology>,
    /// How many nodes there are: 1 to [`MOST_NODES`](srm_net::limits::MOST_NODES).
    pub(crate) nodes: u16,
    /// The delays of each link of the topology, in ticks.
    pub(crate) delays: Delays,
}

/// How many nodes a table has that gives no size: one more than parents where it gives these.
fn given_nodes(table: &Table) -> u64
    requires { length (array_at (codes "parent") (table_view table.now)) ≤ most_links }
    ensures { result ≡ given_nodes (table_view table.now) }
{
    if says(table, FileKey::Topology, "parents") {
        array(table, FileKey::Parent).len() as u64 + 1
    } else {
        number(table, FileKey::Nodes)
    }
}

/// The shape of a table that fits its rules.
fn shape_of(table: &Table) -> Shape
    requires { fits_rules (rules_of_top (table_view table.now)) (table_view table.now) ≡ true }
    ensures { HasShape (table_view table.now) result }
{
    let topology = topology(table);
    let nodes = match topology {
        Some(_) => number(table, FileKey::Size),
        None => given_nodes(table),
    };
    Shape {
        topology,
        nodes: nodes as u16,
        delays: Delays {
            delay: number(table, FileKey::Delay),
            back: number_or(table, FileKey::Back, FileKey::Delay),
        },
    }
}

/// What the top table holds, but for its arrays.
#[derive(Clone, Copy)]
pub(crate) struct Top {
    /// Its numbers.
    pub(crate) numbers: Numbers,
    /// Its nodes and links.
    pub(crate) shape: Shape,
}

/// What a table says of its network.
pub fn form_of(table: &Table) -> Form
    ensures { result ≡ form_of (table_view table.now) }
{
    let tree = says(table, FileKey::Topology, "tree");
    Form {
        shaped: has_key(table, FileKey::Topology),
        sized: tree
            || says(table, FileKey::Topology, "chain")
            || says(table, FileKey::Topology, "star"),
        tree,
        parents: says(table, FileKey::Topology, "parents"),
        listed: array(table, FileKey::Parent).len() as u64,
        delays: has_key(table, FileKey::Delays),
        backs: has_key(table, FileKey::Backs),
    }
}

/// Whether the table fits the rules of its version and of the topology that it names.
fn is_top(table: &Table) -> bool
    ensures { result ≡ fits_rules (rules_of_top (table_view table.now)) (table_view table.now) }
{
    let version = Version::of(number(table, FileKey::Version));
    fits_rules(
        table,
        &top_rules(version, constants_of(table), form_of(table)),
    )
}

/// What the table holds, if it is as a top table must be.
pub(crate) fn top_of(table: &Table) -> Option<Top>
    ensures { let ms = table_view table.now in MatchOption result (fits_rules (rules_of_top ms) ms ≡ false)
        (λ t. (fits_rules (rules_of_top ms) ms ≡ true) × HasNumbers ms t.numbers × HasShape ms t.shape) }
{
    if !is_top(table) {
        return None;
    }
    Some(Top {
        numbers: numbers_of(table),
        shape: shape_of(table),
    })
}
