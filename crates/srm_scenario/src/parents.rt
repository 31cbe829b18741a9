//! Links from the parents of nodes to the nodes.
ghost use Rattle.std.specs.Prelude.{◌≡◌, ◌≤◌, true, IfOk, length, map, option_map, if◌then◌else◌};
ghost use Rattle.toml.specs.View.{view, table_view};
ghost use Rattle.srm_net.specs.Limits.{most_links};
ghost use Rattle.srm_scenario.specs.Keys.{name_of};
ghost use Rattle.srm_scenario.specs.Rules.{fits_rules};
ghost use Rattle.srm_scenario.specs.Described.{links_from, names_parents, number_at, parents_in, values_at};
ghost use Rattle.srm_scenario.specs.Faults.{rules_of_top};

use crate::file_key::FileKey;
use crate::numbers::numbers_of;
use crate::table::{array, has_key, number, optional_number, says, whole_number_of};
use srm_net::link::LinkSpec;
use std::alloc::{AllocError, Global};
use toml::{Table, Value};

/// The values of the array at a key, if the table has the key.
fn values_at(table: &Table, key: FileKey) -> Option<&[Value]>
    ensures { option_map (λ vs. map view vs.now) result ≡ values_at (name_of key) (table_view table.now) }
{
    if has_key(table, key) {
        Some(array(table, key))
    } else {
        None
    }
}

/// The number at a place of values that may be there, and this one where there are none.
fn number_at(values: Option<&[Value]>, k: usize, other: u64) -> u64
    ensures { result ≡ number_at (option_map (λ vs. map view vs.now) values.entry) k other }
{
    match values {
        None => other,
        Some(values) => match values.get(k) {
            Some(value) => whole_number_of(value).unwrap_or(0),
            None => 0,
        },
    }
}

/// The links of nodes 1, 2, .. to these parents: link k joins node k + 1 to its parent, and the first direction is from the parent.
/// Each takes the delays that the table gives for it, or for all.
fn links_from(alloc: Global, table: &Table, parents: &[u16]) -> Result<Vec<LinkSpec>, AllocError>
    requires { length parents.now ≤ most_links }
    ensures { IfOk result (λ links. links.items ≡ links_from (table_view table.now) 0 parents.now) }
{
    let delays = values_at(table, FileKey::Delays);
    let delay = number(table, FileKey::Delay);
    let backs = values_at(table, FileKey::Backs);
    let back = optional_number(table, FileKey::Back);
    let mut links = Vec::new(alloc);
    for (k, parent) in parents.iter().enumerate() {
        let there = number_at(delays, k, delay);
        let home = number_at(backs, k, back.unwrap_or(there));
        links.push(LinkSpec {
            a: *parent,
            b: (k + 1) as u16,
            delay: there,
            back: home,
        })?;
    }
    Ok(links)
}

/// The links of a table that fits its rules and gives no size: to the parents of nodes where it gives these, or those listed.
pub(crate) fn given_links(
    alloc: Global,
    table: &Table,
    listed: Vec<LinkSpec>,
) -> Result<Vec<LinkSpec>, AllocError>
    requires { fits_rules (rules_of_top (table_view table.now)) (table_view table.now) ≡ true }
    ensures { IfOk result (λ links. links.items ≡ (if names_parents (table_view table.now)
        then links_from (table_view table.now) 0 (parents_in (table_view table.now)) else listed.items)) }
{
    if !says(table, FileKey::Topology, "parents") {
        return Ok(listed);
    }
    let parents = numbers_of(alloc, array(table, FileKey::Parent))?;
    links_from(alloc, table, parents.as_slice())
}
