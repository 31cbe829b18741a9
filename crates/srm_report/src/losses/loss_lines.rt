//! The lines of the table of losses.
ghost use Rattle.std.specs.Prelude.{◌≡◌, ◌<◌, List, Some, IfOk, IfSome, length};
ghost use Rattle.srm_member.specs.declared.row.Row.{Row as R};
ghost use Rattle.srm_member.specs.Orderly.{IsOrderly};
ghost use Rattle.srm_report.specs.Courses.{TellLosses};
ghost use Rattle.srm_report.specs.Losses.{delay_of, loss_fields, losses_table};
ghost use Rattle.srm_report.specs.Records.{PutsRecord};
ghost use Rattle.srm_report.specs.Rows.{or_dash};

use crate::fault::ReportFault;
use crate::losses::HEADER;
use crate::losses::course::Course;
use crate::losses::loss::Loss;
use crate::losses::mended_loss::MendedLoss;
use crate::losses::tallies::recovery;
use crate::records::field::Field;
use crate::records::{put_record, text_of, writer_behind};
use csv::Writer;
use srm_net::net::Net;
use std::alloc::Global;

// The table of these losses, which are those of orderly rows in rising order, with what became of each.
pub(crate) fn table_text(
    alloc: Global,
    net: &Net,
    entries: &[(Loss, Course)],
) -> Result<Vec<u8>, ReportFault>
    requires { (rows : List R) × IsOrderly (length net.now.hosts) rows × TellLosses rows entries.now }
    ensures { (rows : List R) → IsOrderly (length net.now.hosts) rows → TellLosses rows entries.now
        → IfOk result (λ text. text.items ≡ losses_table net.now rows) }
{
    let mut writer = writer_behind(Vec::from_slice(alloc, HEADER)?);
    for entry in entries {
        put_loss(&mut writer, net, entry)?;
    }
    text_of(writer)
}

// Writes the record of a loss, with what became of it.
fn put_loss(
    writer: &mut Writer<Vec<u8>>,
    net: &Net,
    entry: &(Loss, Course),
) -> Result<(), ReportFault>
    requires member { entry.now.0.member < length net.now.hosts }
    requires source { entry.now.0.name.source < length net.now.hosts }
    ensures { PutsRecord writer.old (loss_fields net.now entry.now.0 (Some entry.now.1.detected) entry.now.1.recovered)
        result writer.new }
{
    let (Loss { member, name }, course) = *entry;
    put_record(
        writer,
        &[
            Field::number(u64::from(member)).text(),
            Field::number(u64::from(name.source)).text(),
            Field::number(u64::from(name.page)).text(),
            Field::number(u64::from(name.number)).text(),
            Field::number(course.detected).text(),
            Field::or_dash(course.recovered).text(),
            delay(net, name.source, recovery(member, course)).text(),
        ],
    )
}

// How long a recovery took, over the round trip to the source, or a dash where there was none.
pub(crate) fn delay(net: &Net, source: u16, recovery: Option<MendedLoss>) -> Field
    requires { IfSome recovery (λ r. (r.member < length net.now.hosts) × (source < length net.now.hosts)) }
    ensures { result ≡ or_dash (delay_of net.now source) recovery }
{
    match recovery {
        None => Field::dash(),
        Some(recovery) => {
            let took = recovery.recovered.saturating_sub(recovery.detected);
            Field::ratio(took, net.round(recovery.member, source))
        }
    }
}
