//! Counting a packet's crossings.
ghost use Rattle.std.specs.Prelude.{◌≡◌, ◌<◌, ◌+◌, ◌*◌, ◌^◌, ◌∷◌, [], length};
ghost use Rattle.srm_net.specs.Fates.{is_crossing, is_dropping};
ghost use Rattle.srm_scenario.specs.Plain.{PlainScenario};
ghost use Rattle.srm_cell.specs.Setting.{traffic_of, IsSpreadOf};
ghost use Rattle.srm_cell.specs.Crossings.{kind_of};
ghost use Rattle.srm_cell.specs.Totalled.{MayCount, CountsBesides, with_fate};
ghost use Rattle.srm_ledger.specs.Counts.{counted_at};

use srm_ledger::kind::Kind;
use srm_ledger::totals::Totals;
use srm_net::fate::Fate;
use srm_net::net::Net;
use srm_net::packet::{Body, Packet};
use srm_net::spread::Spread;

/// Counts a packet, of which this is the spread, at each link that it crosses, and at each that drops it.
pub fn count(totals: &mut Totals, net: &Net, spread: &Spread, packet: &Packet)
    requires sender { packet.now.id.sender < length net.now.hosts }
    requires room { (s : PlainScenario) × IsSpreadOf net.now s.drops packet.now spread.now
        × MayCount (traffic_of s net.now) 1 totals.old }
    ensures { (s : PlainScenario) → IsSpreadOf net.now s.drops packet.now spread.now
        → CountsBesides (traffic_of s net.now) (packet.now ∷ []) totals.old totals.new }
{
    let kind = kind_of(&packet.body);
    let links = net.links().len() as u16;
    for link in 0..links {
        let fate = net.fate_in(spread, link);
        count_at(totals, link, kind, fate);
    }
}

// Counts what becomes of a packet of this kind at a link.
fn count_at(totals: &mut Totals, link: u16, kind: Kind, fate: Fate)
    requires within { 5 * link + 4 < length totals.old }
    requires crossing { counted_at totals.old link kind + 1 < 2 ^ 64 }
    requires dropping { counted_at totals.old link Kind.Dropped + 1 < 2 ^ 64 }
    ensures { totals.new ≡ with_fate (is_crossing fate) (is_dropping fate) link kind totals.old }
{
    match fate {
        Fate::Crosses => totals.count(link, kind),
        Fate::Dropped => totals.count(link, Kind::Dropped),
        Fate::Neither => {}
    }
}

// The kind of a packet that crosses a link.
fn kind_of(body: &Body) -> Kind
    ensures { result ≡ kind_of body.now }
{
    match body {
        Body::Drawop { .. } => Kind::Drawop,
        Body::Request { .. } => Kind::Request,
        Body::Repair { .. } => Kind::Repair,
        Body::Session { .. } => Kind::Session,
    }
}
