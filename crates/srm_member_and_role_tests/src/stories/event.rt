//! What happens to a member, as plain data.
use crate::stories::carried::Carried;
use srm_member::cause::Cause;
use srm_net::packet::{Name, Packet, PacketId};
use std::alloc::{AllocError, Global};

/// What happens to a member.
#[derive(Clone, Copy, Debug)]
pub enum Event {
    /// It joins.
    Join,
    /// A packet arrives.
    Arrival {
        /// The member that sent it.
        sender: u16,
        /// What it carries.
        carried: Carried,
    },
    /// The request timer of a name expires.
    Ask {
        /// The name.
        name: Name,
    },
    /// The repair timer of a name expires.
    Answer {
        /// The name.
        name: Name,
    },
    /// It is to draw.
    Draw {
        /// The page on which it draws.
        page: u16,
        /// What it draws.
        ink: u32,
    },
    /// It is to send a session message.
    Report,
}

impl Event {
    /// The cause that a member handles then. Of an arriving packet the count and the time do not matter to a member.
    pub(crate) fn cause(self, alloc: Global) -> Result<Cause, AllocError> {
        match self {
            Event::Join => Ok(Cause::Join),
            Event::Arrival { sender, carried } => Ok(Cause::Arrival {
                packet: Packet {
                    id: PacketId { sender, count: 0 },
                    sent: 0,
                    body: carried.body(alloc)?,
                },
            }),
            Event::Ask { name } => Ok(Cause::Ask { name }),
            Event::Answer { name } => Ok(Cause::Answer { name }),
            Event::Draw { page, ink } => Ok(Cause::Draw { page, ink }),
            Event::Report => Ok(Cause::Report),
        }
    }
}
