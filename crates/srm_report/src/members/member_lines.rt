//! The lines of the table of members.
ghost use Rattle.std.specs.Prelude.{◌≡◌, List, length, IfOk};
ghost use Rattle.srm_member.specs.declared.row.Row.{Row as R};
ghost use Rattle.srm_report.specs.MemberCounts.{AreCounts, counts_at};
ghost use Rattle.srm_report.specs.Members.{member_fields, members_table, role_word};
ghost use Rattle.srm_report.specs.Records.{PutsRecord};

use crate::fault::ReportFault;
use crate::members::HEADER;
use crate::members::counts::Counts;
use crate::members::member_count::MemberCount;
use crate::records::field::Field;
use crate::records::{put_record, text_of, writer_behind};
use csv::Writer;
use itoa::Buffer;
use srm_net::role::Role;
use srm_scenario::parts::MemberSpec;
use srm_scenario::scenario::Scenario;
use std::alloc::Global;

// The table of a scenario's members of which this was counted, in the order of their numbers. Members after the last had no row.
pub(crate) fn table_text(
    alloc: Global,
    scenario: &Scenario,
    counts: &[MemberCount],
) -> Result<Vec<u8>, ReportFault>
    ensures { (rows : List R) → AreCounts (length scenario.now.members) rows counts.now
        → IfOk result (λ text. text.items ≡ members_table scenario.now rows) }
{
    let mut writer = writer_behind(Vec::from_slice(alloc, HEADER)?);
    for member in 0..scenario.members() {
        put_member(
            &mut writer,
            member,
            scenario.member(member),
            &counts_of_member(counts, member),
        )?;
    }
    text_of(writer)
}

// The counts of a member.
fn counts_of_member(counts: &[MemberCount], member: u16) -> Counts
    ensures { result ≡ counts_at counts.now member }
{
    match counts.get(usize::from(member)) {
        Some(count) => count.counts,
        None => Counts::new(),
    }
}

// Writes the record of a member.
fn put_member(
    writer: &mut Writer<Vec<u8>>,
    number: u16,
    member: &MemberSpec,
    counts: &Counts,
) -> Result<(), ReportFault>
    ensures { PutsRecord writer.old (member_fields number member.now counts.now) result writer.new }
{
    let open = counts.lost.saturating_sub(u128::from(counts.fixed));
    put_record(
        writer,
        &[
            Field::number(u64::from(number)).text(),
            word_of_role(member.role).as_bytes(),
            Field::number(u64::from(member.node)).text(),
            Field::or_dash(counts.joined).text(),
            Field::or_dash(counts.left).text(),
            Field::number(counts.drawn).text(),
            Field::number(counts.heard).text(),
            Buffer::new().format(counts.lost).as_bytes(),
            Field::number(counts.fixed).text(),
            Buffer::new().format(open).as_bytes(),
            Field::number(counts.requests).text(),
            Field::number(counts.repairs).text(),
            Field::number(counts.sessions).text(),
        ],
    )
}

// The word of a role.
fn word_of_role(role: Role) -> &'static str
    ensures { result.now ≡ role_word role }
{
    match role {
        Role::Sender => "sender",
        Role::Receiver => "receiver",
        Role::Late => "late",
        Role::Listener => "listener",
    }
}
