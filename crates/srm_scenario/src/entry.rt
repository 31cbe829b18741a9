//! What the elements of members hold.
ghost use Rattle.std.specs.Prelude.{◌≡◌, Some, None, [], IfErr, IfOk, codes, map, if◌then◌else◌};
ghost use Rattle.toml.specs.View.{table_view};
ghost use Rattle.srm_scenario.specs.Rules.{member_rules};
ghost use Rattle.srm_scenario.specs.Described.{array_at, repeated_at, role_of, version_of};
ghost use Rattle.srm_scenario.specs.Faults.{accepted, entry_copy, entry_in_range, entry_of, faults_of_members, or_scope, IsFault};

use crate::element::Element;
use crate::fault::{Part, ScenarioFault};
use crate::file_key::FileKey;
use crate::limits::{LAST_NODE, LAST_STREAM};
use crate::numbers::numbers_of;
use crate::parts::MemberSpec;
use crate::repeated::{Repeated, read_array, risen, step_of};
use crate::rules::member_rules;
use crate::table::{array, fits_rules, has_key, number, optional_number, says};
use crate::version::Version;
use srm_net::role::Role;
use std::alloc::{AllocError, Global};
use toml::Table;

/// A member, and which keys its table has.
#[derive(Debug, Drop)]
pub struct MemberEntry {
    /// The member. As its own table is read, its scope is 0 where none is given for it.
    pub spec: MemberSpec,
    /// Whether its table has the key `pages`.
    pub has_pages: bool,
    /// Whether its table has the key `scope`.
    pub has_scope: bool,
}

impl MemberEntry {
    /// The same member, which has this scope where none is given for it.
    fn or_scope(self, scope: u16) -> MemberEntry
        ensures { result ≡ or_scope scope self }
    {
        if self.has_scope {
            return self;
        }
        MemberEntry {
            spec: MemberSpec { scope, ..self.spec },
            ..self
        }
    }
}

/// The role that a member's table names.
fn role(table: &Table) -> Role
    ensures { result ≡ role_of (table_view table.now) }
{
    if says(table, FileKey::Role, "sender") {
        Role::Sender
    } else if says(table, FileKey::Role, "receiver") {
        Role::Receiver
    } else if says(table, FileKey::Role, "late") {
        Role::Late
    } else {
        Role::Listener
    }
}

/// A member from its own table alone.
fn entry_of(
    alloc: Global,
    version: Version,
    table: &Table,
) -> Result<Option<MemberEntry>, AllocError>
    ensures { IfOk result (λ o. o ≡ accepted (member_rules version) (entry_of 0) (table_view table.now)) }
{
    if !fits_rules(table, &member_rules(version)) {
        return Ok(None);
    }
    let pages = numbers_of(alloc, array(table, FileKey::Pages))?;
    Ok(Some(MemberEntry {
        spec: MemberSpec {
            node: number(table, FileKey::Node) as u16,
            role: role(table),
            stream: number(table, FileKey::Stream),
            join: number(table, FileKey::Join),
            leave: optional_number(table, FileKey::Leave),
            pages,
            scope: number(table, FileKey::Scope) as u16,
        },
        has_pages: has_key(table, FileKey::Pages),
        has_scope: has_key(table, FileKey::Scope),
    }))
}

/// The copy of a member of a number, which has a node and a stream of its own, if these are in range.
fn copy_of(
    alloc: Global,
    entry: &MemberEntry,
    k: u64,
    every: u64,
) -> Result<Option<MemberEntry>, AllocError>
    ensures { IfOk result (λ o. o ≡ (if entry_in_range (entry_copy k every entry.now)
        then Some (entry_copy k every entry.now) else None)) }
{
    let member = &entry.spec;
    let Some(node) = risen(u64::from(member.node), step_of(k, every), LAST_NODE) else {
        return Ok(None);
    };
    let Some(stream) = risen(member.stream, u128::from(k), LAST_STREAM) else {
        return Ok(None);
    };
    let pages = member.pages.clone()?;
    Ok(Some(MemberEntry {
        spec: MemberSpec {
            node: node as u16,
            role: member.role,
            stream,
            join: member.join,
            leave: member.leave,
            pages,
            scope: member.scope,
        },
        has_pages: entry.has_pages,
        has_scope: entry.has_scope,
    }))
}

impl Element for MemberEntry {
    ghost use Rattle.srm_scenario.specs.Rules.{member_rules};
    ghost use Rattle.srm_scenario.specs.Faults.{entry_of};

    ghost rules = { member_rules };

    ghost reading = { entry_of 0 };

    ///
    /// # Errors
    /// [`AllocError`].
    fn read(alloc: Global, version: Version, table: &Table) -> Result<Option<Self>, AllocError> {
        entry_of(alloc, version, table)
    }
}

impl Repeated for MemberEntry {
    ghost use Rattle.srm_scenario.specs.Faults.{entry_copy, entry_in_range};

    ghost copy = { entry_copy };

    ghost in_range = { entry_in_range };

    ///
    /// # Errors
    /// [`AllocError`].
    fn copied(&self, alloc: Global, k: u64, every: u64) -> Result<Option<Self>, AllocError> {
        copy_of(alloc, self, k, every)
    }
}

/// Reads the members for which the elements of a table's array stand, one after the other. Those for which no scope is given
/// have this one. The first element that does not fit the rules of members, or stands for one whose numbers pass their
/// ranges, is a fault.
pub(crate) fn read_members(
    alloc: Global,
    version: Version,
    scope: u16,
    table: &Table,
) -> Result<Vec<MemberEntry>, ScenarioFault>
    requires { version_of (table_view table.now) ≡ version }
    ensures no_fault { let ms = table_view table.now in IfOk result (λ _. faults_of_members (version_of ms)
        (array_at (codes "member") ms) ≡ []) }
    ensures read { IfOk result (λ members. members.items
        ≡ repeated_at (codes "member") entry_copy (entry_of scope) (table_view table.now)) }
    ensures fault { let ms = table_view table.now in IfErr result (λ e. IsFault e (faults_of_members (version_of ms)
        (array_at (codes "member") ms))) }
{
    let own: Vec<MemberEntry> = read_array(alloc, Part::Member, version, table, FileKey::Member)?;
    let members = with_scope(alloc, own, scope)?;
    Ok(members)
}

/// The same members. Those for which no scope is given have this one.
fn with_scope(
    alloc: Global,
    entries: Vec<MemberEntry>,
    scope: u16,
) -> Result<Vec<MemberEntry>, AllocError>
    ensures { IfOk result (λ members. members.items ≡ map (or_scope scope) entries.items) }
{
    entries
        .into_iter()
        .map(|entry| entry.or_scope(scope))
        .collect(alloc)
}
