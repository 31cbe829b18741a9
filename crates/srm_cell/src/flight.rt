//! Packets on their way to a member.
ghost use Rattle.std.specs.Prelude.{◌≡◌};
ghost use Rattle.std.specs.Ordering.{is_lt};
ghost use Rattle.srm_cell.specs.Flights.{place_cmp};

use srm_net::packet::{Packet, PacketId};

/// A packet on its way to a member.
#[derive(Clone, Debug, Drop)]
pub struct Flight {
    /// When it arrives, in ticks.
    pub arrival: u64,
    /// The packet.
    pub packet: Packet,
}

/// Whether a flight goes before another, by arrival, sender and count.
pub(crate) fn is_before(flight: (u64, PacketId), other: (u64, PacketId)) -> bool
    ensures { result ≡ is_lt (place_cmp flight other) }
{
    if flight.0 != other.0 {
        return flight.0 < other.0;
    }
    flight.1 < other.1
}
