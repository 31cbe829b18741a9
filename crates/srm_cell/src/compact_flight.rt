//! Flights as a line keeps them.
ghost use Rattle.std.specs.Prelude.{◌≡◌, ◌↔◌, IsTrue, IfOk, IfErr};
ghost use Rattle.srm_cell.specs.CompactFlights.{IsShort, WantsBox};

use crate::compact_body::CompactBody;
use crate::flight::Flight;
use srm_net::packet::{Packet, PacketId};
use std::alloc::{AllocError, Global};
use std::marker::Model;

/// A short flight, in 32 bytes instead of 64. Contracts see it as the flight.
///
/// The lines of many members are together most of what the processor's caches have to hold.
#[derive(Drop)]
pub(crate) struct CompactFlight {
    sent: u64,
    travel: u32,
    count: u32,
    body: CompactBody,
}

const _: () = prove!(size_of::<CompactFlight>() == 32);

impl Model for CompactFlight {
    ghost use Rattle.srm_cell.specs.declared.flight.Flight.{Flight};

    ghost Value = { Flight };

    ghost use Rattle.srm_cell.specs.CompactFlights.{kept_flight};

    ghost view = { kept_flight };

    ghost use Rattle.std.specs.Prelude.{◌<◌, ◌+◌, ◌^◌};

    // When it arrives is a number of ticks that a `u64` has.
    ghost invariant = { λ f. f.sent + f.travel < 2 ^ 64 };
}

impl CompactFlight {
    /// Whether the flight of a packet is a short one: it takes below 2^32 ticks, and its packet is one of the first 2^32 of its
    /// sender.
    pub(crate) fn is_short(packet: &Packet, arrival: u64) -> bool
        ensures { IsTrue result ↔ IsShort packet.now arrival }
    {
        const LIMIT: u64 = 4_294_967_296;
        packet.sent <= arrival && arrival - packet.sent < LIMIT && packet.id.count < LIMIT
    }

    /// The short flight of a copy of this packet. Only those of session messages and of repairs with a scope allocate.
    ///
    /// # Errors
    /// Memory was refused, of which only these want any.
    #[inline(always)]
    pub(crate) fn new(alloc: Global, packet: &Packet, arrival: u64) -> Result<Self, AllocError>
        requires { IsShort packet.now arrival }
        ensures ok { IfOk result (λ f. f ≡ record { arrival = arrival; packet = packet.now }) }
        ensures memory { IfErr result (λ _. WantsBox packet.now.body) }
    {
        let PacketId { sender, count } = packet.id;
        Ok(CompactFlight {
            sent: packet.sent,
            travel: (arrival - packet.sent) as u32,
            count: count as u32,
            body: CompactBody::new(alloc, sender, &packet.body)?,
        })
    }

    /// When the packet arrives, in ticks, and which it is.
    pub(crate) fn place(&self) -> (u64, PacketId)
        ensures { result ≡ (self.now.arrival, self.now.packet.id) }
    {
        let id = PacketId {
            sender: self.body.sender(),
            count: u64::from(self.count),
        };
        (self.sent + u64::from(self.travel), id)
    }

    /// The flight itself. It does not allocate.
    pub(crate) fn into_flight(self) -> Flight
        ensures { result ≡ self }
    {
        let (arrival, id) = self.place();
        let CompactFlight { sent, body, .. } = self;
        Flight {
            arrival,
            packet: Packet {
                id,
                sent,
                body: body.into_body(),
            },
        }
    }
}
