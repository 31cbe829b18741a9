//! The table of scopes as CSV.
pub mod find_scopes;
mod heard_counts;
pub mod member_scopes;
pub mod scope_entry;
mod scope_lines;

ghost use Rattle.std.specs.Prelude.{◌≡◌, ◌≤◌, ℕ, List, IfOk, length};
ghost use Rattle.srm_interfaces.specs.Watches.{KeepMembers};
ghost use Rattle.srm_member.specs.declared.row.Row.{Row as R};
ghost use Rattle.srm_member.specs.Orderly.{IsOrderly};
ghost use Rattle.srm_report.specs.KeptScopes.{KeepsScopes};
ghost use Rattle.srm_report.specs.Scopes.{scopes_table};

use crate::fault::ReportFault;
use crate::scopes::heard_counts::HeardCounts;
use crate::scopes::member_scopes::MemberScopes;
use crate::scopes::scope_lines::table_text;
use srm_member::row::Row;
use std::alloc::{AllocError, Global};

/// The line of the columns.
pub const HEADER: &[u8] = b"time,member,cause,ref,sent,scope,requester,width,heard\n";

/// The table of scopes, as CSV with line feeds: a header, and a line for each request and each repair that was sent, in the order
/// of the rows.
///
/// | column | what it has |
/// |---|---|
/// | `time` | when it was sent, in ticks |
/// | `member` | the number of the member that sent it |
/// | `cause` | `ask` of a request, `answer` of a repair |
/// | `ref` | the name that it is for, as `source/page/number` |
/// | `sent` | the packet, as `sender:count` |
/// | `scope` | how many hops it went, or `-` where it went to all |
/// | `requester` | of a repair with a scope, the member whose request it answered, else `-`; in its second step that is its sender |
/// | `width` | of a repair with a scope, the scope of that request, in hops, else `-` |
/// | `heard` | how many members it was handed to |
///
/// # Errors
/// `NoMemory`, also where a count would be too great for its number.
pub fn scopes_text(alloc: Global, rows: &[Row]) -> Result<Vec<u8>, ReportFault>
    ensures { IfOk result (λ text. text.items ≡ scopes_table rows.now) }
{
    let all = scopes_of(alloc, rows)?;
    let mut heard = HeardCounts::new(alloc);
    heard.add(all.heard.as_slice())?;
    table_text(alloc, all.sent.as_slice(), &heard)
}

// What these rows tell of scopes, as if they were of one member.
fn scopes_of(alloc: Global, rows: &[Row]) -> Result<MemberScopes, AllocError>
    ensures { IfOk result (λ all. KeepsScopes rows.now all) }
{
    let mut all = MemberScopes::new(alloc);
    for row in rows {
        all.take_row(row)?;
    }
    Ok(all)
}

/// The same of orderly rows, as those of every run are, from what [`FindScopes`](crate::scopes::find_scopes::FindScopes) kept of
/// each member's rows.
///
/// # Errors
/// `NoMemory`, also where a count would be too great for its number.
pub fn scopes_kept(alloc: Global, kept: &[MemberScopes]) -> Result<Vec<u8>, ReportFault>
    ensures { (rows : List R) (members : ℕ) → IsOrderly members rows → members ≤ length kept.now
        → KeepMembers (λ k own. KeepsScopes own k) 0 kept.now rows
        → IfOk result (λ text. text.items ≡ scopes_table rows) }
{
    let mut entries = Vec::new(alloc);
    let mut heard = HeardCounts::new(alloc);
    for own in kept {
        entries.extend_from_slice(own.sent.as_slice())?;
        heard.add(own.heard.as_slice())?;
    }
    entries.sort_by_key(|entry| entry.key)?;
    table_text(alloc, entries.as_slice(), &heard)
}
