//! The table of operations as CSV.
pub mod find_operations;
pub mod laws_of_operations;
pub mod member_operations;
mod operation_lines;
pub(crate) mod sendings;
mod sent_for_name;

ghost use Rattle.std.specs.Prelude.{◌≡◌, ◌≤◌, List, IfOk, length};
ghost use Rattle.srm_interfaces.specs.Watches.{KeepMembers};
ghost use Rattle.srm_member.specs.declared.row.Row.{Row as R};
ghost use Rattle.srm_member.specs.Orderly.{IsOrderly};
ghost use Rattle.srm_report.specs.KeptOperations.{KeepsOperations};
ghost use Rattle.srm_report.specs.Operations.{operations_table};

use crate::fault::ReportFault;
use crate::operations::find_operations::FindOperations;
use crate::operations::member_operations::MemberOperations;
use crate::operations::operation_lines::found_text;
use crate::operations::sendings::add_sent;
use srm_interfaces::keeping::kept_of;
use srm_member::named::Named;
use srm_member::row::Row;
use srm_net::net::Net;
use std::alloc::Global;

/// The line of the columns.
pub const HEADER: &[u8] =
    b"source,page,number,losers,recovered,left,detected,asked,requests,repairs,last,delay\n";

/// The table of operations, as CSV with line feeds: a header, and a line for each name that some member lost. Lines rise by
/// source, page and number.
///
/// | column | what it has |
/// |---|---|
/// | `source` | the member that drew the operation of this name |
/// | `page` | the page of that source on which it drew |
/// | `number` | the operation's number on that page |
/// | `losers` | how many members lost it |
/// | `recovered` | how many of these took it in later |
/// | `left` | how many of the other losers left |
/// | `detected` | when the first loser found it to be missing, in ticks |
/// | `asked` | when the first request for it was sent, in ticks, or `-` |
/// | `requests` | how many requests for it all members sent |
/// | `repairs` | how many repairs of it all members sent |
/// | `last` | the loser that took it in last, of several at that time the one with the least number; or `-` |
/// | `delay` | how long `last` lacked it, a slash, and its round trip to the source, in ticks; or `-` |
///
/// `last` and `delay` are `-` where no loser took it in, and where a loser neither took it in nor left. The rows are orderly, as
/// those of every run are.
///
/// # Errors
/// `NoMemory`.
pub fn operations_text(alloc: Global, net: &Net, rows: &[Row]) -> Result<Vec<u8>, ReportFault>
    requires { IsOrderly (length net.now.hosts) rows.now }
    ensures { IfOk result (λ text. text.items ≡ operations_table net.now rows.now) }
{
    let kept = kept_of(
        alloc,
        &FindOperations { alloc },
        usize::from(net.members()),
        rows,
    )?;
    operations_kept(alloc, net, kept.as_slice())
}

/// The same of rows of which this was kept of each member, as [`FindOperations`] keeps it.
///
/// # Errors
/// `NoMemory`, also where a count would be too great for its number.
pub fn operations_kept(
    alloc: Global,
    net: &Net,
    kept: &[MemberOperations],
) -> Result<Vec<u8>, ReportFault>
    requires { (rows : List R) × IsOrderly (length net.now.hosts) rows × (length net.now.hosts ≤ length kept.now)
        × KeepMembers (λ k own. KeepsOperations own k) 0 kept.now rows }
    ensures { (rows : List R) → IsOrderly (length net.now.hosts) rows → length net.now.hosts ≤ length kept.now
        → KeepMembers (λ k own. KeepsOperations own k) 0 kept.now rows
        → IfOk result (λ text. text.items ≡ operations_table net.now rows) }
{
    let mut losses = Vec::new(alloc);
    let mut sent = Named::new(alloc);
    let mut left = Vec::new(alloc);
    for own in kept {
        let found = own.losses.entries(alloc)?;
        losses.extend_from_slice(found.as_slice())?;
        add_sent(alloc, &mut sent, &own.sent)?;
        left.extend_from_slice(&[own.left])?;
    }
    found_text(alloc, net, losses.as_slice(), &sent, left.as_slice())
}
