//! When a packet arrives.
ghost use Rattle.std.specs.Prelude.{◌≡◌, ◌<◌, length};
ghost use Rattle.srm_net.specs.Limits.{end_of_time};
ghost use Rattle.srm_cell.specs.Setting.{traffic_of, arrival_of, IsSpreadOf};

use srm_net::packet::Packet;
use srm_net::spread::Spread;
use srm_scenario::session::Session;

/// When a member is handed a packet, in ticks, if it is: another member than the sender, that the packet reaches, and that is
/// present on arrival, before the run ends. The spread is that of the packet.
#[inline(always)]
pub fn arrival(session: Session, packet: &Packet, spread: &Spread, member: u16) -> Option<u64>
    requires spread { IsSpreadOf session.net.now session.scenario.now.drops packet.now spread.now }
    requires sent { packet.now.sent < end_of_time }
    requires sender { packet.now.id.sender < length session.scenario.now.members }
    requires member { member < length session.scenario.now.members }
    ensures { result ≡ arrival_of (traffic_of session.entry.scenario.now session.entry.net.now) packet.now member }
{
    if member == packet.id.sender {
        return None;
    }
    let Session { scenario, net } = session;
    let at = net.arrival(spread, packet.sent, member)?;
    if scenario.member(member).is_present(scenario.until(), at) {
        Some(at)
    } else {
        None
    }
}
