//! What was sent.
ghost use Rattle.std.specs.Prelude.{◌≡◌, ◌<◌, length, IfOk};
ghost use Rattle.srm_net.specs.Limits.{end_of_time};

use srm_net::packet::Packet;
use srm_net::spread::Spread;
use srm_scenario::session::Session;
use std::alloc::{AllocError, Global};

/// A packet that was sent, with its spread, which is found once for all that hear the packet.
#[derive(Drop)]
pub struct Sent {
    /// The packet.
    pub packet: Packet,
    /// What becomes of it on its ways to all nodes.
    pub spread: Spread,
}

impl Sent {
    ghost use Rattle.srm_cell.specs.Hearing.{IsSent};

    /// A packet, with its spread.
    ///
    /// # Errors
    /// [`AllocError`].
    pub fn of(alloc: Global, session: Session, packet: &Packet) -> Result<Sent, AllocError>
        requires sent { packet.now.sent < end_of_time }
        requires sender { packet.now.id.sender < length session.scenario.now.members }
        ensures packet { IfOk result (λ x. x.packet ≡ packet.now) }
        ensures sent { IfOk result (λ x. IsSent session.entry.scenario.now session.entry.net.now x) }
    {
        let spread = session.net.spread(
            alloc,
            session.scenario.drops(),
            packet.id,
            packet.sent,
            packet.body.scope(),
        )?;
        Ok(Sent {
            packet: packet.clone()?,
            spread,
        })
    }
}
