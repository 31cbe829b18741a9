//! What a member is to handle.
use srm_net::packet::{Name, Packet};

/// A cause that a member handles. Its leave is no cause: then it is finished.
#[derive(Clone, Debug, Drop)]
pub enum Cause {
    /// It joins.
    Join,
    /// A packet arrives.
    Arrival {
        /// The packet.
        packet: Packet,
    },
    /// The request timer of a name expires.
    Ask {
        /// The name.
        name: Name,
    },
    /// The repair timer of a name expires.
    Answer {
        /// The name.
        name: Name,
    },
    /// It is to draw.
    Draw {
        /// The page on which it draws.
        page: u16,
        /// What it draws.
        ink: u32,
    },
    /// It is to send a session message.
    Report,
}
