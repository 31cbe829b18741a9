//! The table of members as CSV.
pub mod count_rows;
mod counts;
pub mod member_count;
mod member_lines;

ghost use Rattle.std.specs.Prelude.{◌≡◌, ◌≤◌, List, length, IfOk};
ghost use Rattle.srm_interfaces.specs.Watches.{KeepMembers};
ghost use Rattle.srm_member.specs.declared.row.Row.{Row as R};
ghost use Rattle.srm_report.specs.MemberCounts.{IsCountOf};
ghost use Rattle.srm_report.specs.Members.{members_table};

use crate::fault::ReportFault;
use crate::members::count_rows::CountRows;
use crate::members::member_count::MemberCount;
use crate::members::member_lines::table_text;
use srm_interfaces::keeping::kept_of;
use srm_member::row::Row;
use srm_scenario::scenario::Scenario;
use std::alloc::Global;

/// The line of the columns.
pub const HEADER: &[u8] =
    b"member,role,node,joined,left,drawn,heard,lost,fixed,open,requests,repairs,sessions\n";

/// The table of members, as CSV with line feeds: a header, and a line for each member of the scenario, in the order of their
/// numbers.
///
/// | column | what it has |
/// |---|---|
/// | `member` | the member's number |
/// | `role` | `sender`, `receiver`, `late` or `listener` |
/// | `node` | the number of the node that hosts it |
/// | `joined` | when it joined, in ticks, or `-` |
/// | `left` | when it left, in ticks, or `-` |
/// | `drawn` | how many drawing operations it sent |
/// | `heard` | how many packets arrived at it |
/// | `lost` | how many names it found to be missing |
/// | `fixed` | how many of these it took in later |
/// | `open` | how many it still lacks: `lost` less `fixed` |
/// | `requests` | how many requests it sent |
/// | `repairs` | how many repairs it sent |
/// | `sessions` | how many session messages it sent |
///
/// # Errors
/// `NoMemory`.
pub fn members_text(
    alloc: Global,
    scenario: &Scenario,
    rows: &[Row],
) -> Result<Vec<u8>, ReportFault>
    ensures { IfOk result (λ text. text.items ≡ members_table scenario.now rows.now) }
{
    let kept = kept_of(alloc, &CountRows, usize::from(scenario.members()), rows)?;
    members_kept(alloc, scenario, kept.as_slice())
}

/// The same of rows of which this was counted of each member, as [`CountRows`] counts it.
///
/// # Errors
/// `NoMemory`.
pub fn members_kept(
    alloc: Global,
    scenario: &Scenario,
    kept: &[MemberCount],
) -> Result<Vec<u8>, ReportFault>
    ensures { (rows : List R) → length scenario.now.members ≤ length kept.now
        → KeepMembers (λ k own. IsCountOf own k) 0 kept.now rows
        → IfOk result (λ text. text.items ≡ members_table scenario.now rows) }
{
    table_text(alloc, scenario, kept)
}
