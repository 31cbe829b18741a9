//! Flights as a heap keeps them.
ghost use Rattle.std.specs.Prelude.{◌≡◌, refl};
ghost use Rattle.std.specs.Cmp.{eq_by_cmp_equiv, partial_equiv_from_equiv, partial_order_from_total};
ghost use Rattle.std.specs.Ordering.{eq_by_cmp, as_partial_cmp};
ghost use Rattle.srm_cell.specs.Flights.{later_cmp, later_total};

use crate::flight::Flight;
use srm_net::packet::{Packet, PacketId};
use std::cmp::Ordering;
use std::marker::Model;

/// A flight that is less the later it goes, since a heap has its greatest first. Contracts see it as the flight.
#[derive(Drop)]
pub(crate) struct Stray {
    arrival: u64,
    packet: Packet,
}

impl Model for Stray {
    ghost use Rattle.srm_cell.specs.declared.flight.Flight.{Flight};

    ghost Value = { Flight };

    ghost view = { λ s. record { arrival = s.arrival; packet = s.packet } };
}

impl Stray {
    /// The flight of a packet that arrives at tick `arrival`.
    pub(crate) fn new(packet: Packet, arrival: u64) -> Self
        ensures { result ≡ record { arrival = arrival; packet = packet } }
    {
        Stray { arrival, packet }
    }

    /// When the packet arrives, in ticks, and which it is.
    pub(crate) fn place(&self) -> (u64, PacketId)
        ensures { result ≡ (self.now.arrival, self.now.packet.id) }
    {
        (self.arrival, self.packet.id)
    }

    /// The flight itself.
    #[inline(always)]
    pub(crate) fn into_flight(self) -> Flight
        ensures { result ≡ self }
    {
        let Stray { arrival, packet } = self;
        Flight { arrival, packet }
    }
}

impl PartialEq for Stray {
    ghost eq = { eq_by_cmp later_cmp };

    ghost laws = { partial_equiv_from_equiv (eq_by_cmp_equiv later_total) };

    fn eq(&self, other: &Stray) -> bool {
        self.cmp(other).is_eq()
    }
}

impl Eq for Stray {
    ghost laws = { eq_by_cmp_equiv later_total };
}

impl PartialOrd for Stray {
    ghost partial_cmp = { as_partial_cmp later_cmp };

    ghost laws = { partial_order_from_total later_total };

    fn partial_cmp(&self, other: &Stray) -> Option<Ordering> {
        Some(self.cmp(other))
    }
}

impl Ord for Stray {
    ghost cmp = { later_cmp };

    ghost total = { later_total };

    ghost matches_partial_cmp = { λ m n. refl };

    ghost matches_eq = { λ m n. refl };

    #[inline(always)]
    fn cmp(&self, other: &Stray) -> Ordering {
        if self.arrival != other.arrival {
            return other.arrival.cmp(&self.arrival);
        }
        other.packet.id.cmp(&self.packet.id)
    }
}
