//! What the packets of a line carry.
ghost use Rattle.std.specs.Prelude.{◌≡◌, IfOk, IfErr};
ghost use Rattle.srm_cell.specs.CompactFlights.{sender_of, body_of, WantsBox};

use crate::local_repair::LocalRepair;
use srm_net::packet::{Body, Heard, Name};
use srm_net::sequence::Sequence;
use std::alloc::{AllocError, Global};

/// What a packet carries, in 16 bytes instead of 32, and the member that sent it.
///
/// The sender stands first in each variant, in room that the alignment of what follows leaves. The list of a session message is
/// in a box, and so is a repair with a scope.
#[derive(Drop)]
pub(crate) enum CompactBody {
    /// A drawing operation, from its source.
    Drawop {
        /// The member that sent the packet.
        sender: u16,
        /// The operation's name.
        name: Name,
        /// What was drawn.
        ink: u32,
    },
    /// A request for a drawing operation.
    Request {
        /// The member that sent the packet.
        sender: u16,
        /// The name that is asked for.
        name: Name,
        /// How many hops it goes, if it has a scope.
        scope: Option<u16>,
    },
    /// A drawing operation, sent again to all by whoever holds it.
    Repair {
        /// The member that sent the packet.
        sender: u16,
        /// The operation's name.
        name: Name,
        /// What was drawn.
        ink: u32,
    },
    /// A drawing operation, sent again with a scope.
    LocalRepair {
        /// The member that sent the packet.
        sender: u16,
        /// What was sent again, and how far.
        repair: Box<LocalRepair>,
    },
    /// A session message.
    Session {
        /// The member that sent the packet.
        sender: u16,
        /// What its sender heard of each page.
        heard: Box<Sequence<Heard>>,
    },
}

impl CompactBody {
    /// A copy of what a packet of this sender carries. Only those of session messages and of repairs with a scope allocate.
    ///
    /// # Errors
    /// Memory for a box was refused.
    #[inline(always)]
    pub(crate) fn new(alloc: Global, sender: u16, body: &Body) -> Result<Self, AllocError>
        ensures sender { IfOk result (λ b. sender_of b ≡ sender) }
        ensures body { IfOk result (λ b. body_of b ≡ body.now) }
        ensures memory { IfErr result (λ _. WantsBox body.now) }
    {
        match body {
            Body::Drawop { name, ink } => Ok(CompactBody::Drawop {
                sender,
                name: *name,
                ink: *ink,
            }),
            Body::Request { name, scope } => Ok(CompactBody::Request {
                sender,
                name: *name,
                scope: *scope,
            }),
            Body::Repair {
                name,
                ink,
                local: None,
            } => Ok(CompactBody::Repair {
                sender,
                name: *name,
                ink: *ink,
            }),
            Body::Repair {
                name,
                ink,
                local: Some(local),
            } => {
                let repair = LocalRepair {
                    name: *name,
                    ink: *ink,
                    local: *local,
                };
                Ok(CompactBody::LocalRepair {
                    sender,
                    repair: Box::new(alloc, repair)?,
                })
            }
            Body::Session { heard } => Ok(CompactBody::Session {
                sender,
                heard: Box::new(alloc, heard.clone()?)?,
            }),
        }
    }

    /// The member that sent the packet.
    pub(crate) fn sender(&self) -> u16
        ensures { result ≡ sender_of self.now }
    {
        match self {
            CompactBody::Drawop { sender, .. }
            | CompactBody::Request { sender, .. }
            | CompactBody::Repair { sender, .. }
            | CompactBody::LocalRepair { sender, .. }
            | CompactBody::Session { sender, .. } => *sender,
        }
    }

    /// What the packet carries. It does not allocate.
    pub(crate) fn into_body(self) -> Body
        ensures { result ≡ body_of self }
    {
        match self {
            CompactBody::Drawop { name, ink, .. } => Body::Drawop { name, ink },
            CompactBody::Request { name, scope, .. } => Body::Request { name, scope },
            CompactBody::Repair { name, ink, .. } => Body::Repair {
                name,
                ink,
                local: None,
            },
            CompactBody::LocalRepair { repair, .. } => Box::into_inner(repair).into_body(),
            CompactBody::Session { heard, .. } => Body::Session {
                heard: Box::into_inner(heard),
            },
        }
    }
}
