//! What was sent for names, row by row.
ghost use Rattle.std.specs.Prelude.{◌≡◌, ◌++◌, ◌∷◌, [], List, Some, OnOk, IfSome};
ghost use Rattle.std.specs.FinMap.Entries.{put};
ghost use Rattle.srm_net.specs.Names.{name_cmp};
ghost use Rattle.srm_member.specs.declared.row.Row.{Row as R};
ghost use Rattle.srm_report.specs.Operations.{sooner};
ghost use Rattle.srm_report.specs.Sendings.{repaired, requested, sending_in, TellSent, together as sent_together};

use crate::operations::sent_for_name::SentForName;
use srm_member::named::Named;
use srm_member::row::{About, Row, Word};
use srm_member::told::Told;
use srm_net::packet::Name;
use std::alloc::{AllocError, Global};

// Takes in what one more row says of requests and repairs. It answers no memory also where a count would be too great for its
// number.
pub(crate) fn note_sent(sent: &mut Named<SentForName>, row: &Row) -> Result<(), AllocError>
    ensures { (rows : List R) → TellSent rows sent.old → OnOk result (TellSent (rows ++ row.now ∷ []) sent.new) }
{
    let About::Named { name } = row.about else {
        return Ok(());
    };
    if row.told != Told::Sent {
        return Ok(());
    }
    match row.cause {
        Word::Ask => count_request(sent, name, row.key.time),
        Word::Answer => count_repair(sent, name),
        _ => Ok(()),
    }
}

// What was sent for a name so far.
pub(crate) fn sending(sent: &Named<SentForName>, name: Name) -> SentForName
    ensures { result ≡ sending_in sent.now name }
{
    match sent.get(name) {
        Some(sending) => sending,
        None => SentForName {
            asked: None,
            requests: 0,
            repairs: 0,
        },
    }
}

// A request was sent for a name at this time.
fn count_request(sent: &mut Named<SentForName>, name: Name, at: u64) -> Result<(), AllocError>
    ensures { OnOk result (sent.new ≡ put name_cmp name (requested at (sending_in sent.old name)) sent.old) }
{
    let before = sending(sent, name);
    let Some(requests) = before.requests.checked_add(1) else {
        return Err(AllocError);
    };
    let asked = sooner_of(before.asked, at);
    sent.put(
        name,
        SentForName {
            asked,
            requests,
            ..before
        },
    )
}

// The sooner of two times, where the first is one.
pub(crate) fn sooner_of(known: Option<u64>, at: u64) -> Option<u64>
    ensures { result ≡ sooner known (Some at) }
{
    match known {
        None => Some(at),
        Some(known) => Some(known.min(at)),
    }
}

// A repair was sent for a name.
fn count_repair(sent: &mut Named<SentForName>, name: Name) -> Result<(), AllocError>
    ensures { OnOk result (sent.new ≡ put name_cmp name (repaired (sending_in sent.old name)) sent.old) }
{
    let before = sending(sent, name);
    let Some(repairs) = before.repairs.checked_add(1) else {
        return Err(AllocError);
    };
    sent.put(name, SentForName { repairs, ..before })
}

// Takes in what was sent in more rows, of which this was found. It answers no memory also where a count would be too great for
// its number.
pub(crate) fn add_sent(
    alloc: Global,
    sent: &mut Named<SentForName>,
    more: &Named<SentForName>,
) -> Result<(), AllocError>
    ensures { (xs ys : List R) → TellSent xs sent.old → TellSent ys more.now → OnOk result (TellSent (xs ++ ys) sent.new) }
{
    let names = more.names(alloc)?;
    for name in names.as_slice() {
        let name = *name;
        let Some(all) = together(sending(sent, name), sending(more, name)) else {
            return Err(AllocError);
        };
        sent.put(name, all)?;
    }
    Ok(())
}

// What was sent in some rows and what was sent in others, together, if its counts have room.
fn together(some: SentForName, others: SentForName) -> Option<SentForName>
    ensures { IfSome result (λ s. s ≡ sent_together some others) }
{
    let asked = match others.asked {
        None => some.asked,
        Some(at) => sooner_of(some.asked, at),
    };
    let requests = some.requests.checked_add(others.requests)?;
    let repairs = some.repairs.checked_add(others.repairs)?;
    Some(SentForName {
        asked,
        requests,
        repairs,
    })
}
