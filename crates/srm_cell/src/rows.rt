//! What a row tells of its event.
ghost use Rattle.std.specs.Prelude.{◌≡◌, Some, Option};
ghost use Rattle.std.specs.Option.{option_copied};
ghost use Rattle.srm_cell.specs.Cells.{word_of, about_of, cause_of_timer};
ghost use Rattle.srm_cell.specs.InnerSteps.{Packs};
ghost use Rattle.srm_cell.specs.Setting.{cause_of_mark};

use crate::fault::CellFault;
use srm_member::cause::Cause;
use srm_member::due::Due;
use srm_member::row::{About, Word};
use srm_net::key::Key;
use srm_net::packet::{Body, Packet, PacketId};
use srm_net::rank::Rank;
use srm_scenario::mark::Mark;

// A member sends at most this many packets.
const COUNT_LIMIT: u64 = 281_474_976_710_656;

// The kind of an event that has a cause.
#[inline(always)]
pub(crate) fn word(cause: &Cause) -> Word
    ensures { result ≡ word_of (Some cause.now) }
{
    match cause {
        Cause::Join => Word::Join,
        Cause::Arrival { packet } => match &packet.body {
            Body::Drawop { .. } => Word::Data,
            Body::Request { .. } => Word::Request,
            Body::Repair { .. } => Word::Repair,
            Body::Session { .. } => Word::Session,
        },
        Cause::Ask { .. } => Word::Ask,
        Cause::Answer { .. } => Word::Answer,
        Cause::Draw { .. } => Word::Draw,
        Cause::Report => Word::Report,
    }
}

// What an event that has a cause is about, where the member sends this body.
pub(crate) fn about(cause: Cause, body: Option<&Body>) -> About
    ensures { result ≡ about_of (Some cause) (option_copied body.entry) }
{
    match cause {
        Cause::Arrival { packet } => About::Of { packet },
        Cause::Ask { name } | Cause::Answer { name } => About::Named { name },
        Cause::Draw { .. } => match body {
            Some(Body::Drawop { name, .. }) => About::Named { name: *name },
            _ => About::Nothing,
        },
        Cause::Join | Cause::Report => About::Nothing,
    }
}

// The member's packet with this body, if there is one: it then counts as sent.
pub(crate) fn packet(
    sent: &mut u64,
    key: Key,
    body: Option<Body>,
) -> Result<Option<Packet>, CellFault>
    ensures { Packs key body sent.old result sent.new }
{
    let Some(body) = body else {
        return Ok(None);
    };
    if *sent >= COUNT_LIMIT {
        return Err(CellFault::CountFull);
    }
    let id = PacketId {
        sender: key.member,
        count: *sent,
    };
    *sent += 1;
    Ok(Some(Packet {
        id,
        sent: key.time,
        body,
    }))
}

// What a mark is to a member; at its leave nothing.
pub(crate) fn cause_at(mark: Mark) -> Option<Cause>
    ensures { result ≡ cause_of_mark mark.rank mark }
{
    match mark.rank {
        Rank::Join => Some(Cause::Join),
        Rank::Draw => Some(Cause::Draw {
            page: mark.page,
            ink: mark.ink,
        }),
        Rank::Report => Some(Cause::Report),
        Rank::Leave | Rank::Arrival | Rank::Request | Rank::Repair => None,
    }
}

// What a timer is to a member.
pub(crate) fn expiry(due: Due) -> Cause
    ensures { result ≡ cause_of_timer due.rank due.name }
{
    match due.rank {
        Rank::Request => Cause::Ask { name: due.name },
        _ => Cause::Answer { name: due.name },
    }
}
