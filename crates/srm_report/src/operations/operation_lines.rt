//! The lines of the table of operations.
ghost use Rattle.std.specs.Prelude.{◌≡◌, ◌<◌, List, IfOk, IfSome, decimal, length, map};
ghost use Rattle.srm_net.specs.declared.packet.Name.{Name as AName};
ghost use Rattle.srm_member.specs.declared.row.Row.{Row as R};
ghost use Rattle.srm_member.specs.Orderly.{IsOrderly};
ghost use Rattle.srm_report.specs.Operations.{last_told, operation_columns, operation_fields, operations_table};
ghost use Rattle.srm_report.specs.KeptOperations.{TellOperations};
ghost use Rattle.srm_report.specs.Records.{PutsRecord};
ghost use Rattle.srm_report.specs.Rows.{or_dash};
ghost use Rattle.srm_report.specs.Sendings.{sending_in};
ghost use Rattle.srm_report.specs.Tables.{table_lines};
ghost use Rattle.srm_report.specs.Tallies.{tally_in};

use crate::fault::ReportFault;
use crate::losses::course::Course;
use crate::losses::loss::Loss;
use crate::losses::loss_lines::delay;
use crate::losses::loss_tally::LossTally;
use crate::losses::mended_loss::MendedLoss;
use crate::losses::tallies::{tallies, tally};
use crate::operations::HEADER;
use crate::operations::sendings::sending;
use crate::operations::sent_for_name::SentForName;
use crate::records::field::Field;
use crate::records::{put_record, text_of, writer_behind};
use csv::Writer;
use srm_member::named::Named;
use srm_net::net::Net;
use srm_net::packet::Name;
use std::alloc::Global;

// The table of orderly rows of which this was found: their losses, in rising order, with what became of each; what was sent for
// each name; and of each member whether it left.
pub(crate) fn found_text(
    alloc: Global,
    net: &Net,
    losses: &[(Loss, Course)],
    sent: &Named<SentForName>,
    left: &[bool],
) -> Result<Vec<u8>, ReportFault>
    requires { (rows : List R) × IsOrderly (length net.now.hosts) rows × TellOperations rows losses.now sent.now left.now }
    ensures { (rows : List R) → IsOrderly (length net.now.hosts) rows → TellOperations rows losses.now sent.now left.now
        → IfOk result (λ text. text.items ≡ operations_table net.now rows) }
{
    let counted = tallies(alloc, losses, left)?;
    table_text(alloc, net, &counted, sent)
}

// The table of the names of these tallies, with what was sent for each.
fn table_text(
    alloc: Global,
    net: &Net,
    tallies: &Named<LossTally>,
    sent: &Named<SentForName>,
) -> Result<Vec<u8>, ReportFault>
    requires { (n : AName) → IfSome (last_told (tally_in tallies.now n))
        (λ r. (r.member < length net.now.hosts) × (n.source < length net.now.hosts)) }
    ensures { IfOk result (λ text. text.items ≡ table_lines operation_columns
        (map (λ n. operation_fields net.now n (tally_in tallies.now n) (sending_in sent.now n)) (map (λ e. e.0) tallies.now))) }
{
    let names = tallies.names(alloc)?;
    let mut writer = writer_behind(Vec::from_slice(alloc, HEADER)?);
    for name in names.as_slice() {
        let name = *name;
        put_operation(
            &mut writer,
            net,
            name,
            &tally(tallies, name),
            &sending(sent, name),
        )?;
    }
    text_of(writer)
}

// Writes the record of an operation.
fn put_operation(
    writer: &mut Writer<Vec<u8>>,
    net: &Net,
    name: Name,
    tally: &LossTally,
    sending: &SentForName,
) -> Result<(), ReportFault>
    requires members { IfSome (last_told tally.now) (λ r. (r.member < length net.now.hosts) × (name.source < length net.now.hosts)) }
    ensures { PutsRecord writer.old (operation_fields net.now name tally.now sending.now) result writer.new }
{
    let last = last_of(tally);
    put_record(
        writer,
        &[
            Field::number(u64::from(name.source)).text(),
            Field::number(u64::from(name.page)).text(),
            Field::number(u64::from(name.number)).text(),
            Field::number(tally.losers).text(),
            Field::number(tally.recovered).text(),
            Field::number(tally.left).text(),
            Field::or_dash(tally.detected).text(),
            Field::or_dash(sending.asked).text(),
            Field::number(sending.requests).text(),
            Field::number(sending.repairs).text(),
            member_of(last).text(),
            delay(net, name.source, last).text(),
        ],
    )
}

// How the last loser to recover did, where no loss is pending.
fn last_of(tally: &LossTally) -> Option<MendedLoss>
    ensures { result ≡ last_told tally.now }
{
    if tally.is_pending { None } else { tally.last }
}

// The member that recovered, or a dash where none did.
fn member_of(recovery: Option<MendedLoss>) -> Field
    ensures { result ≡ or_dash (λ r. decimal r.member) recovery }
{
    match recovery {
        None => Field::dash(),
        Some(recovery) => Field::number(u64::from(recovery.member)),
    }
}
