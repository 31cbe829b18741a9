//! The table of losses as CSV.
pub(crate) mod by_loss;
pub(crate) mod course;
pub(crate) mod courses;
pub mod find_losses;
pub(crate) mod loss;
pub(crate) mod loss_lines;
pub(crate) mod loss_tally;
pub mod member_losses;
pub(crate) mod mended_loss;
pub(crate) mod tallies;

ghost use Rattle.std.specs.Prelude.{◌≡◌, ◌≤◌, List, IfOk, length};
ghost use Rattle.srm_interfaces.specs.Watches.{KeepMembers};
ghost use Rattle.srm_member.specs.declared.row.Row.{Row as R};
ghost use Rattle.srm_member.specs.Orderly.{IsOrderly};
ghost use Rattle.srm_report.specs.KeptLosses.{KeepsLosses};
ghost use Rattle.srm_report.specs.Losses.{losses_table};

use crate::fault::ReportFault;
use crate::losses::find_losses::FindLosses;
use crate::losses::loss_lines::table_text;
use crate::losses::member_losses::MemberLosses;
use srm_interfaces::keeping::kept_of;
use srm_member::row::Row;
use srm_net::net::Net;
use std::alloc::Global;

/// The line of the columns.
pub const HEADER: &[u8] = b"member,source,page,number,detected,recovered,delay\n";

/// The table of losses, as CSV with line feeds: a header, and a line for each name that a member lost. Lines rise by member,
/// source, page and number.
///
/// | column | what it has |
/// |---|---|
/// | `member` | the number of the member that lost the name |
/// | `source` | the member that drew the operation of this name |
/// | `page` | the page of that source on which it drew |
/// | `number` | the operation's number on that page |
/// | `detected` | when the member found the name to be missing, in ticks |
/// | `recovered` | when the member took in its operation, in ticks, or `-` |
/// | `delay` | `recovered` less `detected`, a slash, and the round trip to the source, in ticks; or `-` |
///
/// The rows are orderly, as those of every run are.
///
/// # Errors
/// `NoMemory`.
pub fn losses_text(alloc: Global, net: &Net, rows: &[Row]) -> Result<Vec<u8>, ReportFault>
    requires { IsOrderly (length net.now.hosts) rows.now }
    ensures { IfOk result (λ text. text.items ≡ losses_table net.now rows.now) }
{
    let kept = kept_of(
        alloc,
        &FindLosses { alloc },
        usize::from(net.members()),
        rows,
    )?;
    losses_kept(alloc, net, kept.as_slice())
}

/// The same of rows of whose losses this was kept of each member, as [`FindLosses`] keeps them.
///
/// # Errors
/// `NoMemory`.
pub fn losses_kept(alloc: Global, net: &Net, kept: &[MemberLosses]) -> Result<Vec<u8>, ReportFault>
    requires { (rows : List R) × IsOrderly (length net.now.hosts) rows × (length net.now.hosts ≤ length kept.now)
        × KeepMembers (λ k own. KeepsLosses own k) 0 kept.now rows }
    ensures { (rows : List R) → IsOrderly (length net.now.hosts) rows → length net.now.hosts ≤ length kept.now
        → KeepMembers (λ k own. KeepsLosses own k) 0 kept.now rows
        → IfOk result (λ text. text.items ≡ losses_table net.now rows) }
{
    let mut entries = Vec::new(alloc);
    for own in kept {
        let found = own.losses.entries(alloc)?;
        entries.extend_from_slice(found.as_slice())?;
    }
    table_text(alloc, net, entries.as_slice())
}
